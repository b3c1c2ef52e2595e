// What a sending writes after a message's head, and what it leaves of the dialogue (01, "Dialogue states").
#![tactic(auto)]

ghost use Rattle.std.specs.Prelude.{◌≡◌, ◌+◌, ◌<◌, ◌≤◌, length};
ghost use Rattle.laws.specs.Runs.{Wrote};
ghost use Rattle.laws.specs.Lists.{every};
ghost use Rattle.paper.specs.Sizes.{most_waiting};
ghost use Rattle.paper.specs.Components.{components};
ghost use Rattle.paper.specs.Dialogues.{of_class4, uni_refusal, is_abort, abort_portion, abort_refusal, waiting_rejects, sent_components, with_state, without_rejects, after_sending};
ghost use Rattle.paper.specs.Refusals.{answer_of};
ghost use Rattle.paper.specs.Calls.{place_at, with_place};
ghost use Rattle.paper.specs.Layout.{encode, view};
ghost use Rattle.table_laws.specs.Fine.{FineControl};
ghost use Rattle.writing_octets.specs.Lengths.{Room};
ghost use Rattle.call_send_parts.specs.Refused.{class4, is_told};
ghost use Rattle.call_send_parts.specs.Sent.{Holds, Sends, Sendable, control_after};

use paper::{
    Component, Control, DIALOGUE_OPEN, INVOKE_TAG, MOST_REJECTS, MOST_WAITING, NO_FAULT, PduKind,
    Refusal, Reject,
};

// The octets of the waiting rejects.
fn rejects_size(c: Control) -> usize
    requires { FineControl c }
    ensures is { result ≡ length (waiting_rejects c) }
    ensures within { result ≤ 64 }
{
    let n = laws::wide(c.count);
    let mut sum = 0;
    for w in &c.rejects[..n] {
        sum += writing_components::reject_size(w.id);
    }
    sum
}

// The waiting rejects, one after another.
fn write_rejects(out: &mut [u8], at: usize, c: Control) -> usize
    requires { FineControl c × (at + length (waiting_rejects c) ≤ length out.old) }
    ensures { Wrote out.old at (waiting_rejects c) result out.new }
{
    let n = laws::wide(c.count);
    let mut e = at;
    for w in &c.rejects[..n] {
        e = writing_components::write_reject(out, e, w.id, w.problem);
    }
    e
}

#[derive(Clone, Copy)]
pub struct Sent {
    pub fits: bool,
    pub length: usize,
}

// Stays: table, place and record are three arguments, tied by Holds: a struct of them would borrow the table, which `leave_at` writes.
// "then all waiting rejects if the sum is at most 240, else they wait", q octets of it the dialogue portion's (02 a): whether they go, and
// the octets of components sent in all.
pub fn sent_of(t: &[u8], p: usize, c: Control, q: usize) -> Sent
    requires { Holds t.now p c × (q + length (place_at (view t.now) p).waiting ≤ most_waiting) }
    ensures { Sends (place_at (view t.now) p) q result.fits result.length }
{
    let w = table_places::waiting_length(t, p);
    let r = rejects_size(c);
    if q + w + r <= MOST_WAITING {
        Sent {
            fits: true,
            length: w + r,
        }
    } else {
        Sent {
            fits: false,
            length: w,
        }
    }
}

// "Sending writes waiting components in order", then the waiting rejects that fit.
pub fn write_sent(out: &mut [u8], at: usize, t: &[u8], p: usize, c: Control, fits: bool) -> usize
    requires { Holds t.now p c × (at + length (sent_components (place_at (view t.now) p) fits) ≤ length out.old) }
    ensures { Wrote out.old at (sent_components (place_at (view t.now) p) fits) result out.new }
{
    let w = table_places::waiting(t, p);
    let e = writing_octets::copy_at(out, at, w);
    if fits { write_rejects(out, e, c) } else { e }
}

fn in_state(c: Control, state: u8) -> Control
    ensures { result ≡ with_state c state }
{
    Control { state, ..c }
}

fn without_rejects(c: Control) -> Control
    ensures { result ≡ without_rejects c }
{
    Control {
        count: 0,
        rejects: [Reject::NONE; MOST_REJECTS],
        ..c
    }
}

// The control record that a sending leaves.
fn control_after(c: Control, state: u8, fits: bool) -> Control
    ensures { result ≡ control_after c state fits }
{
    let d = in_state(c, state);
    let e = dialogue_invocations::sent_out(d);
    if fits { without_rejects(e) } else { e }
}

// What a sending leaves of the dialogue at place p, in its new state.
pub fn leave_at(t: &mut [u8], p: usize, c: Control, state: u8, fits: bool)
    requires { Holds t.old p c × Sendable c state }
    ensures { t.new ≡ encode (with_place (view t.old) p (after_sending (place_at (view t.old) p) fits state)) }
{
    let d = control_after(c, state, fits);
    table_places::sent_at(t, p, d);
}

// Whether a component is an invoke whose ID is open with class 4.
#[tactic(auto, unfolding(paper::specs::Dialogues::of_class4, laws::specs::If::if_eq))]
fn of_class4(c: Control, k: Component) -> bool
    ensures { result ≡ class4 c k }
{
    k.fault == NO_FAULT
        && k.tag == INVOKE_TAG
        && dialogue_invocations::invocation_of(c.invocations, k.id).class == 4
}

// Whether each of the components is.
// Stays: a walk by positions, since a component says where the next one starts; an iterator of components would need a type of its own.
fn each_class4(w: &[u8], c: Control) -> bool
    ensures { result ≡ every (of_class4 c) (components w.now (length w.now) 0) }
{
    let n = w.len();
    let mut at: usize = 0;
    loop {
        let k = reading_components::component_at(w, n, at);
        if !of_class4(c, k) {
            return false;
        }
        at = k.stop;
        if at >= n {
            return true;
        }
    }
}

// "Unidirectional with no component or with one not of class 4" (6); it needs Open.
pub fn uni_refusal(t: &[u8], p: usize, c: Control) -> Result<(), Refusal>
    requires { Holds t.now p c }
    ensures { answer_of result ≡ uni_refusal (place_at (view t.now) p) }
{
    if c.state != DIALOGUE_OPEN {
        return Err(Refusal::WrongState);
    }
    let w = table_places::waiting(t, p);
    if w.is_empty() || !each_class4(w, c) {
        return Err(Refusal::WrongState);
    }
    Ok(())
}

// Whether octets given with a user abort are user information (02 a): they begin with BE.
#[tactic(auto, unfolding(crate::specs::Refused::is_told))]
fn is_told(portion: &[u8]) -> bool
    ensures { result ≡ is_told portion.now }
{
    !portion.is_empty() && portion[0] == 0xBE
}

// The octets of an abort's dialogue portion: a whole 6B as it is given, user information in an ABRT.
pub fn abort_size(portion: &[u8]) -> usize
    requires { length portion.now ≤ most_waiting }
    ensures { result ≡ length (abort_portion portion.now) }
{
    if is_told(portion) {
        writing_portions::portion_size(PduKind::Abort, 0, portion.len())
    } else {
        portion.len()
    }
}

// An abort's dialogue portion.
pub fn write_aborted(out: &mut [u8], at: usize, portion: &[u8]) -> usize
    requires { (length portion.now ≤ most_waiting) × Room out.old at (length (abort_portion portion.now)) }
    ensures { Wrote out.old at (abort_portion portion.now) result out.new }
{
    if is_told(portion) {
        writing_portions::write_portion(out, at, PduKind::Abort, &portion[..0], portion)
    } else {
        writing_octets::copy_at(out, at, portion)
    }
}

// What a user abort may be given: one BE element, "a whole 6B element or none".
fn is_abort(portion: &[u8]) -> bool
    ensures { result ≡ is_abort portion.now }
{
    if is_told(portion) {
        call_given::is_block(portion)
    } else {
        call_given::is_portion(portion)
    }
}

// A user abort's dialogue portion: not one well-formed element of its kind (11), over 240 octets (12).
pub fn abort_refusal(portion: &[u8]) -> Result<(), Refusal>
    ensures { answer_of result ≡ abort_refusal portion.now }
{
    if !is_abort(portion) {
        return Err(Refusal::WrongOctets);
    }
    if portion.len() > MOST_WAITING || abort_size(portion) > MOST_WAITING {
        return Err(Refusal::TooLong);
    }
    Ok(())
}
