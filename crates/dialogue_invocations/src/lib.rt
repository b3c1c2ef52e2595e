// A dialogue's eight invocations: looked up, changed, transmitted (01, "Invocation states").
// Stays: the eight are the array that a Control has; a struct with these as methods would be put on and taken off at each Control.
#![tactic(auto)]

ghost use Rattle.std.specs.Prelude.{true, ◌≡◌, ℕ, ◌+◌, ◌<◌, ◌≤◌, [], map, length, get_or, unwrap_or};
ghost use Rattle.std.specs.Option.{IfSome};
ghost use Rattle.paper.specs.Sizes.{most_invocations};
ghost use Rattle.paper.specs.Invocations.{no_invocation, is_open, is_idle, slot_of, idle_slot, invocation_of, with_invocation, to_idle, all_idle, transmitted, rejecting_ids, all_transmitted, rejecting, may_reject};

use paper::{Control, IDLE, Invocation, MOST_INVOCATIONS, PENDING, REJECTING, SENT, WAIT};

#[tactic(auto, unfolding(paper::specs::Invocations::is_idle))]
fn is_idle(v: Invocation) -> bool
    ensures { result ≡ is_idle v }
{
    v.state == IDLE
}

// In use, with that ID.
// Stays: an ID to look for is a number, as the definition is_open takes it: that of a component may be NO_ID.
#[tactic(auto, unfolding(paper::specs::Invocations::is_open, laws::specs::If::if_eq))]
fn is_open(id: u32, v: Invocation) -> bool
    ensures { result ≡ is_open id v }
{
    v.state != IDLE && u32::from(v.id) == id
}

// Whether none is in use: then there is no ID to look for.
fn all_idle(l: [Invocation; MOST_INVOCATIONS]) -> bool
    ensures { result ≡ true → (id : ℕ) → slot_of l id ≡ 8 }
{
    l.iter().all(|v| is_idle(*v))
}

// The slot of our invocation of that ID, in any state but Idle.
pub fn slot_of(l: [Invocation; MOST_INVOCATIONS], id: u32) -> Option<usize>
    ensures is { unwrap_or result 8 ≡ slot_of l id }
    ensures within { IfSome result (λ i. i < 8) }
    ensures eight { length l ≡ 8 }
{
    if all_idle(l) {
        return None;
    }
    l.iter().position(|v| is_open(id, *v))
}

// The first slot that is Idle.
pub fn idle_slot(l: [Invocation; MOST_INVOCATIONS]) -> Option<usize>
    ensures is { unwrap_or result 8 ≡ idle_slot l }
    ensures within { IfSome result (λ i. i < 8) }
{
    l.iter().position(|v| is_idle(*v))
}

// The invocation in a slot; one in Idle where there is no slot.
pub fn invocation_at(l: [Invocation; MOST_INVOCATIONS], slot: Option<usize>) -> Invocation
    requires { IfSome slot (λ i. i < 8) }
    ensures { result ≡ get_or l (unwrap_or slot 8) no_invocation }
{
    match slot {
        Some(i) => l[i],
        None => Invocation::NONE,
    }
}

// Our invocation of an ID; in Idle where it is not in use.
#[tactic(auto, unfolding(paper::specs::Invocations::invocation_of))]
pub fn invocation_of(l: [Invocation; MOST_INVOCATIONS], id: u32) -> Invocation
    ensures { result ≡ invocation_of l id }
{
    invocation_at(l, slot_of(l, id))
}

// The state of our invocation of an ID.
pub fn state_of(l: [Invocation; MOST_INVOCATIONS], id: u32) -> u8
    ensures { result ≡ (invocation_of l id).state }
{
    invocation_of(l, id).state
}

pub fn put_invocation(mut c: Control, i: usize, v: Invocation) -> Control
    requires { i < most_invocations }
    ensures { result ≡ with_invocation c i v }
{
    c.invocations[i] = v;
    c
}

// EVERY WAY TO IDLE: the invocation of an ID, in slot i.
#[tactic(auto, unfolding(paper::specs::Invocations::to_idle))]
pub fn to_idle(c: Control, id: u32, i: usize) -> Control
    requires { (i < most_invocations) × (i ≡ slot_of c.invocations id) }
    ensures { result ≡ to_idle c id }
{
    put_invocation(c, i, Invocation::NONE)
}

// The same, its slot looked up.
pub fn release(c: Control, id: u32) -> Control
    ensures { result ≡ to_idle c id }
{
    match slot_of(c.invocations, id) {
        Some(i) => to_idle(c, id, i),
        None => c,
    }
}

// Whether the user may reject with a problem of that kind.
// Stays: a kind is a number, as `may_reject` of paper/specs/Invocations takes it.
#[tactic(auto, unfolding(paper::specs::Invocations::may_reject, laws::specs::If::if_eq))]
pub fn may_reject(kind: u32, v: Invocation) -> bool
    ensures { result ≡ may_reject kind v }
{
    kind == 1 || v.state == WAIT || kind == 2 && v.state == SENT && v.shown == 1
}

// Pending to Sent.
#[tactic(auto, unfolding(paper::specs::Invocations::transmitted, laws::specs::If::if_eq))]
fn transmit(v: Invocation) -> Invocation
    ensures { result ≡ transmitted v }
{
    if v.state == PENDING {
        Invocation { state: SENT, ..v }
    } else {
        v
    }
}

fn transmit_all(l: [Invocation; MOST_INVOCATIONS]) -> [Invocation; MOST_INVOCATIONS]
    ensures { result ≡ map transmitted l }
{
    l.map(|v| transmit(v))
}

// Whether none is Rejecting, as in most sendings: then there is none to settle.
fn none_rejecting(l: [Invocation; MOST_INVOCATIONS]) -> bool
    ensures { result ≡ true → rejecting_ids l ≡ [] }
{
    l.iter().all(|v| v.state != REJECTING)
}

// Each that was Rejecting to Idle.
fn settle_all(mut c: Control, l: [Invocation; MOST_INVOCATIONS]) -> Control
    ensures { result ≡ all_idle c (rejecting_ids l) }
{
    for v in &l {
        if v.state == REJECTING {
            c = release(c, u32::from(v.id));
        }
    }
    c
}

// What a sending does: Pending ones to Sent, then each that was Rejecting to Idle.
pub fn sent_out(c: Control) -> Control
    ensures { result ≡ all_transmitted c }
{
    let l = c.invocations;
    let d = Control {
        invocations: transmit_all(l),
        ..c
    };
    if none_rejecting(l) {
        return d;
    }
    settle_all(d, l)
}
