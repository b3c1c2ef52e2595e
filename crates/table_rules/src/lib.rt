// The table rules (01, "Answer numbers"): one pass over the 128 places, which counts them too, so that no call walks the table twice.
// A run of zeros is an OR over all of it, which is quicker than leaving at the first octet that is not 0.
// Stays: the table is a slice with its length in the clauses, as the C interface lends it; its size is judged here first (check).
#![tactic(auto)]

ghost use Rattle.std.specs.Prelude.{◌≡◌, false, ◌+◌, ◌*◌, ◌≤◌, ◌<◌, eqb, length, drop, get_or, unwrap_or};
ghost use Rattle.std.specs.Option.{IfSome};
ghost use Rattle.laws.specs.Lists.{zeros};
ghost use Rattle.laws.specs.Sums.{sum};
ghost use Rattle.paper.specs.Sizes.{places_in_all, services, most_rejects, most_waiting};
ghost use Rattle.paper.specs.Invocations.{is_open};
ghost use Rattle.paper.specs.Layout.{place_size, table_size, state_at, invocation_by, reject_by, control_by};
ghost use Rattle.paper.specs.Dialogues.{has_peer};
ghost use Rattle.paper.specs.Rules.{invocation_kept, invocations_kept, reject_kept, rejects_kept, peer_kept, waiting_kept};
ghost use Rattle.table_laws.specs.Slots.{used_kept};
ghost use Rattle.table_rules.specs.Kinds.{invocations_from, none_open, invocation_at_kept, IdleFrom, rejects_from, reject_at_kept, octets_kept, head_kept, tail_kept, free_kind, broken_kind, kind_at};
ghost use Rattle.table_rules.specs.Tally.{FreeRun};
ghost use Rattle.table_rules.specs.Checking.{Scanned, CheckTold};

use paper::{
    DIALOGUE_ACTIVE, DIALOGUE_FREE, DIALOGUE_RECEIVED, GUARANTEES, IDLE, INVOCATIONS, Invocation,
    LIMITS, MOST_INVOCATIONS, MOST_REJECTS, MOST_WAITING, NO_FAULT, PLACE_OCTETS, PLACES,
    PLACES_IN_ALL, PLACES_SHARED, REJECTING, REJECTS, Refusal, SERVICE, SERVICES, TABLE_OCTETS,
    WAITING,
};
use reading_problems::Party;

// A word has eight octets: four invocations, or four rejects.
const WORD: usize = 8;

// The octets of the invocations after the first, and of the last four; of the last four rejects.
const LATER_INVOCATIONS: usize = INVOCATIONS + 2;

const LAST_INVOCATIONS: usize = INVOCATIONS + WORD;

const LAST_REJECTS: usize = REJECTS + WORD;

// The second and third word after a place's state, and what follows, whatever fields lie there.
const SECOND_WORD: usize = SERVICE + WORD;

const THIRD_WORD: usize = SERVICE + 2 * WORD;

const AFTER_WORDS: usize = SERVICE + 3 * WORD;

// Whether a place's octets are all 0 from k on.
fn zeros_from(rec: &[u8; PLACE_OCTETS], k: usize) -> bool
    requires { k ≤ place_size }
    ensures { result ≡ zeros (drop k rec.now) }
{
    rec[k..PLACE_OCTETS].iter().fold(0, |acc, x| acc | *x) == 0
}

// "a free place is all zero but its turn": its state is 0. Three words first, so that the rest is a run of whole vectors.
fn free_kept(rec: &[u8; PLACE_OCTETS]) -> bool
    requires { get_or rec.now state_at 0 ≡ 0 }
    ensures { result ≡ zeros (drop state_at rec.now) }
{
    table_map::word(rec, SERVICE) == 0
        && table_map::word(rec, SECOND_WORD) == 0
        && table_map::word(rec, THIRD_WORD) == 0
        && zeros_from(rec, AFTER_WORDS)
}

// "octets and invocations not in use are zero; states .. classes .. are in range": of one invocation, by its two octets, so that the
// compiler tests an unused one at once.
// Stays: tests that leave one after another: as expressions 128 dialogues took 13,210 instructions for 12,457, or, 8 open in each, 49,945 for 43,817.
#[tactic(auto, unfolding(paper::specs::Rules::invocation_kept, laws::specs::If::if_eq, laws::specs::If::if_lt))]
fn invocation_kept(id: u8, o: u8) -> bool
    ensures { result ≡ invocation_kept (invocation_by id o) }
{
    if o % 8 == IDLE {
        if id != 0 {
            return false;
        }
        if o / 8 % 8 != 0 {
            return false;
        }
        return o / 64 == 0;
    }
    if o % 8 > REJECTING {
        return false;
    }
    if o / 8 % 8 < 1 {
        return false;
    }
    if o / 8 % 8 > 4 {
        return false;
    }
    o / 64 <= 1
}

// Whether an invocation is open with that ID.
// Stays: dialogue_invocations has this test too; one function would make this crate and those above it stand on that one for a line.
#[tactic(auto, unfolding(paper::specs::Invocations::is_open, laws::specs::If::if_eq))]
fn is_open(v: Invocation, wanted: u8) -> bool
    ensures { result ≡ is_open wanted v }
{
    v.state != IDLE && v.id == wanted
}

// "invoke IDs within a dialogue differ": no invocation from the i-th on is open with that ID. From the n-th on none is open.
// Stays: a `for`: `all` would ask a proof that its closure may be called at each k of its run (CallableWhile), where the loop has k < n at hand.
fn unused_from(rec: &[u8; PLACE_OCTETS], id: u8, i: usize, n: usize) -> bool
    requires { (i ≤ n) × IdleFrom n rec.now }
    ensures { result ≡ none_open id (invocations_from i rec.now) }
{
    for k in i..n {
        if is_open(table_fields::invocation_at(rec, k), id) {
            return false;
        }
    }
    true
}

// The i-th invocation keeps the rules, and no later one has its ID.
#[tactic(auto, unfolding(crate::specs::Kinds::invocation_at_kept, paper::specs::Rules::differs, crate::specs::Kinds::none_open, laws::specs::If::if_b, laws::specs::If::if_eq))]
fn invocation_at_kept(rec: &[u8; PLACE_OCTETS], i: usize, n: usize) -> bool
    requires { (i < n) × IdleFrom n rec.now }
    ensures { result ≡ invocation_at_kept rec.now i }
{
    let a = INVOCATIONS + 2 * i;
    let id = rec[a];
    let o = rec[a + 1];
    invocation_kept(id, o) && (o % 8 == IDLE || unused_from(rec, id, i + 1, n))
}

// Each of the n first invocations; from the n-th on none is open.
// Stays: a `for`, and one beside each_reject_kept's: `all`, or one function for both, would ask the same of its closure (CallableWhile: at each i).
fn each_invocation_kept(rec: &[u8; PLACE_OCTETS], n: usize) -> bool
    requires { IdleFrom n rec.now }
    ensures { result ≡ invocations_kept (invocations_from 0 rec.now) }
{
    for i in 0..n {
        if !invocation_at_kept(rec, i, n) {
            return false;
        }
    }
    true
}

// The eight invocations: two words show how many at the end are not open.
fn invocations_kept(rec: &[u8; PLACE_OCTETS]) -> bool
    ensures { result ≡ invocations_kept (invocations_from 0 rec.now) }
{
    if table_map::word(rec, LAST_INVOCATIONS) != 0 {
        return each_invocation_kept(rec, MOST_INVOCATIONS);
    }
    if table_map::word(rec, LATER_INVOCATIONS) != 0 {
        return each_invocation_kept(rec, 4);
    }
    each_invocation_kept(rec, 1)
}

// "waiting rejects are ones the component sub-layer sends", by its two octets; only a general one may lack its ID.
fn reject_kept(id: u8, o: u8) -> bool
    ensures { result ≡ reject_kept (reject_by id o) }
{
    // Stays: taken apart as `reject_by` of paper/specs/Layout does it.
    let kind = u32::from(o / 8 % 16);
    let code = u32::from(o % 8);
    match reading_problems::sender(kind, code) {
        Some(Party::SubLayer) => o < 128 || id == 0 && kind == 0,
        Some(Party::User) => false,
        None => false,
    }
}

// The i-th reject, of which n wait.
fn reject_at_kept(rec: &[u8; PLACE_OCTETS], n: usize, i: usize) -> bool
    requires { i < most_rejects }
    ensures { result ≡ reject_at_kept n i rec.now }
{
    let a = REJECTS + 2 * i;
    let id = rec[a];
    let o = rec[a + 1];
    if i < n {
        reject_kept(id, o)
    } else {
        id == 0 && o == 0
    }
}

// Each of the eight rejects, of which n wait.
// Stays: a `for`, as each_invocation_kept: reject_at_kept asks for one of the eight.
fn each_reject_kept(rec: &[u8; PLACE_OCTETS], n: usize) -> bool
    ensures { result ≡ rejects_kept n (rejects_from 0 rec.now) }
{
    for i in 0..MOST_REJECTS {
        if !reject_at_kept(rec, n, i) {
            return false;
        }
    }
    true
}

// The eight rejects, of which n wait; where none does, two words say so.
fn rejects_kept(rec: &[u8; PLACE_OCTETS], n: usize) -> bool
    ensures { result ≡ rejects_kept n (rejects_from 0 rec.now) }
{
    // Stays: the quick way leaves first, as in invocations_kept; as one expression with `||` its proof would take the three tests apart once more.
    if n == 0 && table_map::word(rec, REJECTS) == 0 && table_map::word(rec, LAST_REJECTS) == 0 {
        return true;
    }
    each_reject_kept(rec, n)
}

// Four octets as a number, low first, and that they are octets.
// Stays: `u32::from_le_bytes(peer)` leaves the proof without the fact that an array's elements are octets; it was tried.
fn number_of(a: u8, b: u8, c: u8, d: u8) -> u64
    ensures is { result ≡ a + b * 256 + c * 65536 + d * 16777216 }
    ensures small { (a < 256) × (b < 256) × (c < 256) × (d < 256) }
{
    u64::from(u32::from_le_bytes([a, b, c, d]))
}

// Whether the octets of a peer's ID past its n are 0: as one number, of which the n first are shifted out.
// Stays: a peer's octets and how many they are stand apart in the table's octets, and `peer_kept` of paper/specs/Rules reads them apart.
fn past_zero(peer: [u8; 4], n: u8) -> bool
    requires { n ≤ 4 }
    ensures { result ≡ zeros (drop n peer) }
{
    number_of(peer[0], peer[1], peer[2], peer[3]) >> (n * 8) == 0
}

#[tactic(auto, unfolding(paper::specs::Dialogues::has_peer, laws::specs::If::if_eq))]
fn has_peer(state: u8) -> bool
    ensures { result ≡ has_peer state }
{
    matches!(state, DIALOGUE_RECEIVED | DIALOGUE_ACTIVE)
}

// "a peer ID has 1 to 4 octets in Received and Active and none in Open and Sent"
#[tactic(auto, unfolding(paper::specs::Rules::peer_kept, laws::specs::If::if_eq, laws::specs::If::if_lt, laws::specs::If::if_b))]
fn peer_kept(rec: &[u8; PLACE_OCTETS]) -> bool
    ensures { result ≡ peer_kept (control_by rec.now) }
{
    let n = table_fields::peer_length(rec);
    let peer = table_fields::peer(rec);
    if has_peer(table_fields::state(rec)) {
        1 <= n && n <= 4 && past_zero(peer, n)
    } else {
        n == 0 && past_zero(peer, 0)
    }
}

// A dialogue's control record but its rejects: "states, services .. and lengths are in range".
#[tactic(auto, unfolding(crate::specs::Kinds::head_kept, laws::specs::Lists::every, paper::specs::Layout::place_by, laws::specs::If::if_b))]
fn head_kept(rec: &[u8; PLACE_OCTETS]) -> bool
    ensures { result ≡ head_kept rec.now }
{
    table_fields::state(rec) <= DIALOGUE_ACTIVE
        && usize::from(table_fields::service(rec)) < SERVICES
        && peer_kept(rec)
        && usize::from(table_fields::rejects_waiting(rec)) <= MOST_REJECTS
        && invocations_kept(rec)
}

// "waiting octets are whole components, well formed and with the pieces that Coding gives": sound ones, one after another to the end.
// Stays: a walk by positions, since a component says where the next one starts; an iterator of components would need a type of its own.
fn waiting_kept(w: &[u8]) -> bool
    ensures { result ≡ waiting_kept w.now }
{
    let n = w.len();
    if n == 0 {
        return true;
    }
    let mut at: usize = 0;
    loop {
        let c = reading_components::component_at(w, n, at);
        if c.fault != NO_FAULT {
            return false;
        }
        at = c.stop;
        if at >= n {
            return true;
        }
    }
}

// What waits at a place with n waiting octets, and the zeros after it.
#[tactic(auto, unfolding(crate::specs::Kinds::octets_kept, laws::specs::If::if_b))]
fn octets_kept(rec: &[u8; PLACE_OCTETS], n: usize) -> bool
    requires { n ≤ most_waiting }
    ensures { result ≡ octets_kept n rec.now }
{
    if n == 0 {
        return zeros_from(rec, WAITING);
    }
    let e = WAITING + n;
    zeros_from(rec, e) && waiting_kept(&rec[WAITING..e])
}

// Its rejects and its waiting octets; where it has neither, one run of zeros.
#[tactic(auto, unfolding(crate::specs::Kinds::tail_kept, laws::specs::If::if_b, laws::specs::If::if_lt))]
fn tail_kept(rec: &[u8; PLACE_OCTETS]) -> bool
    ensures { result ≡ tail_kept rec.now }
{
    let n = usize::from(table_fields::waiting_length(rec));
    let k = usize::from(table_fields::rejects_waiting(rec));
    if n == 0 && k == 0 {
        return zeros_from(rec, REJECTS);
    }
    rejects_kept(rec, k) && n <= MOST_WAITING && octets_kept(rec, n)
}

// A place with a dialogue, whose bit of the map is clear.
fn used_kept(rec: &[u8; PLACE_OCTETS]) -> bool
    ensures { result ≡ used_kept rec.now 0 }
{
    head_kept(rec) && tail_kept(rec)
}

// Whether place p is free and keeps the rules. Its bit of the map isn't read: how many are set tells, in check, whether it is.
fn is_free(t: &[u8], p: usize) -> bool
    requires { (length t.now ≡ table_size) × (p < places_in_all) }
    ensures { result ≡ eqb (kind_at t.now p) free_kind }
{
    let rec = table_fields::slot(t, p);
    table_fields::state(rec) == DIALOGUE_FREE && free_kept(rec)
}

// The first place from p on that is not free or breaks a rule; 128 where there is none. A run of free places is the quickest to check.
// Stays: a `for`, as each_invocation_kept: is_free asks for one of the 128.
fn free_end(t: &[u8], p: usize) -> usize
    requires { (length t.now ≡ table_size) × (p ≤ places_in_all) }
    ensures { FreeRun t.now p result }
{
    for q in p..PLACES_IN_ALL {
        if !is_free(t, q) {
            return q;
        }
    }
    PLACES_IN_ALL
}

// The kind of a place that is not free: its service, or none where it breaks a rule.
fn kind_of(t: &[u8], p: usize) -> Option<usize>
    requires { (length t.now ≡ table_size) × (p < places_in_all) × (kind_at t.now p ≡ free_kind → ⊥) }
    ensures is { unwrap_or result broken_kind ≡ kind_at t.now p }
    ensures within { IfSome result (λ k. k < services) }
{
    let rec = table_fields::slot(t, p);
    if table_map::bit_at(t, p) == 0 && table_fields::state(rec) != DIALOGUE_FREE && used_kept(rec) {
        Some(usize::from(table_fields::service(rec)))
    } else {
        None
    }
}

// Every place checked: how many each service has, or none where one breaks a rule.
// Stays: a walk that goes over a run of free places at a time, so no range steps it.
fn scan(t: &[u8]) -> Option<[u8; SERVICES]>
    requires { length t.now ≡ table_size }
    ensures { Scanned t.now result }
{
    let mut counts: [u8; SERVICES] = [0; SERVICES];
    let mut p = free_end(t, 0);
    while p < PLACES_IN_ALL {
        let k = kind_of(t, p)?;
        counts[k] += 1;
        p = free_end(t, p + 1);
    }
    Some(counts)
}

// How many dialogues there are in all.
fn total(counts: [u8; SERVICES]) -> u32
    ensures { (result ≡ sum (λ i. get_or counts i 0) services) × (result ≤ services * 256) }
{
    // Stays: `sum` would ask that the sum of each run of items fits (its clause `fits`), which the loop's invariant says in a line.
    let mut n: u32 = 0;
    for count in &counts {
        n += u32::from(*count);
    }
    n
}

// What the pass counted: the dialogues of each service, the guaranteed places that aren't used, the free places.
#[derive(Clone, Copy)]
pub struct Checked {
    pub counts: [u8; SERVICES],
    pub unused: u32,
    pub free: u32,
}

// A wrong size, a broken rule, else what the pass counted.
pub fn check(t: &[u8]) -> Result<Checked, Refusal>
    ensures { CheckTold t.now result }
{
    if t.len() != TABLE_OCTETS {
        return Err(Refusal::WrongSize);
    }
    let Some(counts) = scan(t) else {
        return Err(Refusal::BrokenTable);
    };
    let free = table_map::free_count(t);
    // "the map agrees with the places": no used place's bit is set, so where as many are set as places are free, they are the free ones'
    if free + total(counts) != PLACES_SHARED {
        return Err(Refusal::BrokenTable);
    }
    let Some(unused) = table_shares::shares_kept(
        &t[GUARANTEES..LIMITS],
        &t[LIMITS..PLACES],
        counts,
        PLACES_SHARED,
        free,
    ) else {
        return Err(Refusal::BrokenTable);
    };
    Ok(Checked {
        counts,
        unused,
        free,
    })
}
