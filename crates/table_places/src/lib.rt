// One place of the table loaded by value and stored back. A store writes that place's octets and its bit of the map, nothing else.
#![tactic(auto)]

ghost use Rattle.std.specs.Prelude.{◌≡◌, [], ◌≤◌, ◌<◌, length};
ghost use Rattle.laws.specs.Parts.{over};
ghost use Rattle.paper.specs.Sizes.{places_in_all, most_rejects, most_waiting, turns, three, local_id, next_turn};
ghost use Rattle.paper.specs.Dialogues.{with_control, empty_place, freed, begun};
ghost use Rattle.paper.specs.Calls.{place_at, with_place, is_dialogue, owns, lowest_free};
ghost use Rattle.paper.specs.Layout.{place_start, place_octets, place_size, table_size, place_by, flag, encode, view};
ghost use Rattle.table_laws.specs.Fine.{FineRejects, FineControl};
ghost use Rattle.table_laws.specs.Octets.{control_octets};
ghost use Rattle.table_laws.specs.Ready.{Ready};
ghost use Rattle.table_places.specs.Storing.{Storing, with_waiting};
ghost use Rattle.table_places.specs.Made.{head_octets, made_invocation, invocation_pairs, made_reject, reject_pairs};

use paper::{
    Control, DIALOGUE_FREE, FIRST_WAITING, INVOCATIONS, Invocation, MOST_INVOCATIONS, MOST_REJECTS,
    MOST_WAITING, PLACE_OCTETS, PLACES, PLACES_IN_ALL, REJECTS, Reject, TURN, TURNS,
};

// Stays: the table is a slice with its length in the clauses, as the C interface lends it; Ready, which the calls keep, has the length too.
// Stays: the table and a place's number are two parameters, as `place_at` and `with_place` of paper/specs/Calls take them.
// ---- LOADED
// The control record of place p.
pub fn load(t: &[u8], p: usize) -> Control
    requires { (p < places_in_all) × (length t.now ≡ table_size) }
    ensures { result ≡ (place_at (view t.now) p).control }
{
    table_fields::control(table_fields::slot(t, p))
}

// The turn of place p.
pub fn turn_at(t: &[u8], p: usize) -> u32
    requires { (p < places_in_all) × (length t.now ≡ table_size) }
    ensures { (result ≡ (place_at (view t.now) p).control.turn) × (result < turns) }
{
    table_fields::turn(table_fields::slot(t, p))
}

// The state of place p's dialogue.
pub fn state_at(t: &[u8], p: usize) -> u8
    requires { (p < places_in_all) × (length t.now ≡ table_size) }
    ensures { result ≡ (place_at (view t.now) p).control.state }
{
    table_fields::state(table_fields::slot(t, p))
}

// "The local ID is four octets: the place (0 to 127), then its turn in three, high first."
pub fn id_at(t: &[u8], p: usize) -> u32
    requires { (p < places_in_all) × (length t.now ≡ table_size) }
    ensures { result ≡ local_id p (place_at (view t.now) p).control.turn }
{
    // Stays: put together as `local_id` of paper/specs/Sizes does it; `as`, since no `From` makes a u32 of a usize.
    (p as u32) * TURNS + turn_at(t, p)
}

// How many octets wait at place p.
pub fn waiting_length(t: &[u8], p: usize) -> usize
    requires { Ready t.now × (p < places_in_all) }
    ensures { (result ≡ length (place_at (view t.now) p).waiting) × (result ≤ most_waiting) }
{
    usize::from(table_fields::waiting_length(table_fields::slot(t, p)))
}

// The octets that wait at place p: that run of the table itself.
pub fn waiting(t: &[u8], p: usize) -> &[u8]
    requires { Ready t.now × (p < places_in_all) }
    ensures { result.now ≡ (place_at (view t.now) p).waiting }
{
    let a = FIRST_WAITING + p * PLACE_OCTETS;
    let n = waiting_length(t, p);
    &t[a..a + n]
}

// ---- FOUND: "no such dialogue, or another service's" (answer 5)
fn is_dialogue(rec: &[u8; PLACE_OCTETS], service: u32, turn: u32) -> bool
    ensures { result ≡ is_dialogue (place_by rec.now) service turn }
{
    table_fields::state(rec) != DIALOGUE_FREE
        && u32::from(table_fields::service(rec)) == service
        && table_fields::turn(rec) == turn
}

// Whether a local ID is that of a dialogue of the service.
pub fn owner(t: &[u8], service: u32, dialogue: u32) -> bool
    requires { length t.now ≡ table_size }
    ensures { result ≡ owns (view t.now) service dialogue }
{
    // Stays: taken apart as `place_of` and `turn_of` of paper/specs/Sizes do it; `as`, since no `From` makes a usize of a u32.
    let p = (dialogue / TURNS) as usize;
    p < PLACES_IN_ALL && is_dialogue(table_fields::slot(t, p), service, dialogue % TURNS)
}

// The control record of a dialogue that is begun in a free place.
// Stays: a peer's ID and its length are two fields of Control, and two arguments of the definition begun.
pub fn begun(turn: u32, state: u8, service: u8, peerlen: u8, peer: [u8; 4]) -> Control
    ensures { result ≡ begun turn state service peerlen peer }
{
    Control {
        turn,
        state,
        service,
        peerlen,
        peer,
        count: 0,
        invocations: [Invocation::NONE; MOST_INVOCATIONS],
        rejects: [Reject::NONE; MOST_REJECTS],
    }
}

// The lowest free place, 128 where there is none.
// Stays: none is the number 128 in the definition lowest_free.
pub fn lowest_place(t: &[u8]) -> usize
    requires { Ready t.now }
    ensures { (result ≡ lowest_free (view t.now)) × (result ≤ places_in_all) }
{
    table_map::lowest_free(t)
}

// ---- STORED
// "its turn in three, high first"
fn turn_octets(turn: u32) -> [u8; 3]
    ensures { result ≡ three turn [] }
{
    let [_, high, middle, low] = turn.to_be_bytes();
    [high, middle, low]
}

// The octets before the invocations; n octets wait.
fn head_octets(c: Control, n: u8) -> [u8; 12]
    ensures { result ≡ head_octets c n }
{
    let [t0, t1, t2] = turn_octets(c.turn);
    let [p0, p1, p2, p3] = c.peer;
    [
        t0, t1, t2, c.state, c.service, c.peerlen, p0, p1, p2, p3, n, c.count,
    ]
}

// Stays: put together as `made_invocation` (specs/Made) does it.
fn invocation_mark(v: Invocation) -> u8
    ensures { result ≡ made_invocation v }
{
    v.state % 8 + v.class % 8 * 8 + v.shown % 4 * 64
}

// Stays: this and reject_octets are a loop each; one for both would take two closures with their laws, and be longer than the two.
fn invocation_octets(l: [Invocation; MOST_INVOCATIONS]) -> [u8; 2 * MOST_INVOCATIONS]
    ensures { result ≡ invocation_pairs l }
{
    let mut o = [0; 2 * MOST_INVOCATIONS];
    for (i, v) in l.iter().enumerate() {
        o[2 * i] = v.id;
        o[2 * i + 1] = invocation_mark(*v);
    }
    o
}

// Stays: put together as `made_reject` (specs/Made) does it; `as`, since the number is below 256 and no `From` makes an octet of it.
fn reject_mark(r: Reject) -> u8
    ensures { result ≡ made_reject r }
{
    (r.problem % 256 % 8 + r.problem / 256 % 16 * 8 + r.id / 256 % 2 * 128) as u8
}

// Those of the n that wait. The others are none (01, "octets and invocations not in use are zero"), and the octets of none are 0.
// Stays: the rejects and how many of them wait are two fields of Control; FineRejects speaks of both.
fn reject_octets(l: [Reject; MOST_REJECTS], n: u8) -> [u8; 2 * MOST_REJECTS]
    requires { (n ≤ most_rejects) × FineRejects n l }
    ensures { result ≡ reject_pairs l }
{
    let mut o = [0; 2 * MOST_REJECTS];
    for (i, v) in l[..usize::from(n)].iter().enumerate() {
        o[2 * i] = laws::low(v.id);
        o[2 * i + 1] = reject_mark(*v);
    }
    o
}

// The control record and the length of the waiting octets of place p. What that makes of the table is in table_laws, Stores.
pub fn put_control(t: &mut [u8], p: usize, c: Control, n: u8)
    requires { (p < places_in_all) × (length t.old ≡ table_size) × FineControl c }
    ensures { t.new ≡ over t.old (place_start p) (control_octets c n) }
{
    let a = PLACES + p * PLACE_OCTETS;
    writing_octets::copy_at(t, a, &head_octets(c, n));
    writing_octets::copy_at(t, a + INVOCATIONS, &invocation_octets(c.invocations));
    writing_octets::copy_at(t, a + REJECTS, &reject_octets(c.rejects, c.count));
}

// "A turn starts at 0 and the turn goes up by one, modulo 16,777,216, each time its place is freed."
fn next_turn(turn: u32) -> u32
    requires { turn < turns }
    ensures { result ≡ next_turn turn }
{
    (turn + 1) % TURNS
}

// "a free place is all zero but its turn"
fn blank(s: &mut [u8], turn: u32)
    requires { length s.old ≡ place_size }
    ensures { s.new ≡ place_octets (empty_place turn) }
{
    writing_octets::clear(s);
    writing_octets::copy_at(s, TURN, &turn_octets(turn));
}

// ---- THE CHANGES OF A TABLE: what is left is the octet form of the record table with place p changed.
// The control record of a dialogue.
pub fn store_control(t: &mut [u8], p: usize, c: Control)
    requires { Storing 0 t.old p c }
    ensures { t.new ≡ encode (with_place (view t.old) p (with_control (place_at (view t.old) p) c)) }
{
    let n = table_fields::waiting_length(table_fields::slot(t, p));
    put_control(t, p, c, n);
}

// The control record of a dialogue, and no waiting octets.
pub fn sent_at(t: &mut [u8], p: usize, c: Control)
    requires { Storing 0 t.old p c }
    ensures { t.new ≡ encode (with_place (view t.old) p (with_waiting c [])) }
{
    let a = FIRST_WAITING + p * PLACE_OCTETS;
    writing_octets::clear(&mut t[a..a + MOST_WAITING]);
    put_control(t, p, c, 0);
}

// A free place is taken.
pub fn begin_at(t: &mut [u8], p: usize, c: Control)
    requires { Storing 1 t.old p c }
    ensures { t.new ≡ encode (with_place (view t.old) p (with_waiting c [])) }
{
    put_control(t, p, c, 0);
    table_map::clear_bit(t, p);
}

// A place is freed.
pub fn free_at(t: &mut [u8], p: usize)
    requires { Ready t.old × (p < places_in_all) × (flag (place_at (view t.old) p) ≡ 0) }
    ensures { t.new ≡ encode (with_place (view t.old) p (freed (place_at (view t.old) p))) }
{
    let a = PLACES + p * PLACE_OCTETS;
    let turn = next_turn(turn_at(t, p));
    blank(&mut t[a..a + PLACE_OCTETS], turn);
    table_map::set_bit(t, p);
}
