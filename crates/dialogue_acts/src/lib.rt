// What a received component does to a dialogue's control record (01, "Invocation states").
#![tactic(auto)]

ghost use Rattle.std.specs.Prelude.{true, false, ◌≡◌, ℕ, ◌<◌, get_or, Some, None};
ghost use Rattle.std.specs.Option.{IfSome, IfNone};
ghost use Rattle.paper.specs.declared.Control.{Control};
ghost use Rattle.paper.specs.Sizes.{most_invocations, most_rejects};
ghost use Rattle.paper.specs.Kinds.{row_rejected};
ghost use Rattle.paper.specs.Invocations.{no_invocation, sent, slot_of, invocation_of, takes, answer_kind, answer_problem, answers_sent, answers, invokes, released, reject_kind, rejects, is_answer, faults, act, with_reject};
ghost use Rattle.dialogue_acts.specs.Told.{taken, stored_kind, turned, changed, does, stay, puts};

use paper::{
    Component, Control, ERROR_TAG, IDLE, INVOKE_TAG, Invocation, LAST_TAG, MOST_INVOCATIONS,
    NO_FAULT, NO_ID, NO_PROBLEM, NOT_LAST_TAG, REJECT_TAG, ROW_ERROR, ROW_INVOKE, ROW_LAST,
    ROW_NOT_LAST, ROW_NOT_STORED, ROW_REJECTED, ROW_REMOTE_REJECT, ROW_USER_REJECT, Reject, SENT,
    WAIT,
};
use reading_problems::Party;

// Problems: the kind's 256 and a code. Of an invoke, that its linked ID is none of ours; the first of a result and of an error.
// Stays: put together as `problem` of paper/specs/Problems does it.
const UNRECOGNIZED_LINKED_ID: u32 = 256 + 5;

const RESULT_PROBLEMS: u32 = 2 * 256;

const ERROR_PROBLEMS: u32 = 3 * 256;

// What is told of a component: its row's kind and problem, and the slot of ours that changes, with what it then holds.
// Where the kind is ROW_REJECTED, a reject waits besides.
// Stays: kind and problem are numbers, as `acted` of paper/specs/Invocations takes them and a row has them.
#[derive(Clone, Copy)]
pub struct Told {
    pub kind: u32,
    pub problem: u32,
    pub put: Option<(usize, Invocation)>,
}

// No invocation changes.
fn stays(kind: u32, problem: u32) -> Told
    ensures { result ≡ stay kind problem }
{
    Told {
        kind,
        problem,
        put: None,
    }
}

// The invocation in slot i changes.
fn puts(kind: u32, problem: u32, i: usize, v: Invocation) -> Told
    ensures { result ≡ puts kind problem i v }
{
    Told {
        kind,
        problem,
        put: Some((i, v)),
    }
}

// A reject of ours waits if fewer than room do, and else isn't stored.
#[tactic(auto, unfolding(crate::specs::Told::stored_kind, laws::specs::If::if_lt))]
fn stored_kind(count: u8, room: u8) -> u32
    ensures is { result ≡ stored_kind room count }
    ensures waits { result ≡ row_rejected → count < room }
{
    if count < room {
        ROW_REJECTED
    } else {
        ROW_NOT_STORED
    }
}

// What a class does with an answer.
#[derive(Clone, Copy, PartialEq, Eq)]
enum Taken {
    Rejected,
    StaysSent,
    Waits,
}

#[tactic(auto, unfolding(paper::specs::Invocations::takes, laws::specs::If::if_eq))]
fn takes(class: u8, tag: u8) -> Taken
    ensures { taken result ≡ takes class tag }
{
    match (tag, class) {
        (NOT_LAST_TAG, 1 | 3) => Taken::StaysSent,
        (NOT_LAST_TAG, _) => Taken::Rejected,
        (LAST_TAG, 1 | 3) => Taken::Waits,
        (LAST_TAG, _) => Taken::Rejected,
        (_, 1 | 2) => Taken::Waits,
        _ => Taken::Rejected,
    }
}

#[tactic(auto, unfolding(paper::specs::Invocations::answer_kind, laws::specs::If::if_eq))]
fn answer_kind(tag: u8) -> u32
    ensures is { result ≡ answer_kind tag }
    ensures low { result < row_rejected }
{
    match tag {
        LAST_TAG => ROW_LAST,
        NOT_LAST_TAG => ROW_NOT_LAST,
        _ => ROW_ERROR,
    }
}

// Result problems, of an A3 error problems.
#[tactic(auto, unfolding(paper::specs::Invocations::answer_problem, laws::specs::If::if_eq))]
fn answer_problem(tag: u8, code: u32) -> u32
    requires { code < 2 }
    ensures { result ≡ answer_problem tag code }
{
    if tag == ERROR_TAG {
        ERROR_PROBLEMS + code
    } else {
        RESULT_PROBLEMS + code
    }
}

// The slot of our invocation of that ID, if it is Sent.
fn sent_slot(l: [Invocation; MOST_INVOCATIONS], id: u32) -> Option<usize>
    ensures some { IfSome result (λ i. (i < most_invocations) × (i ≡ slot_of l id) × ((get_or l i no_invocation).state ≡ sent)) }
    ensures none { IfNone result ((invocation_of l id).state ≡ sent → ⊥) }
{
    let i = dialogue_invocations::slot_of(l, id)?;
    if l[i].state == SENT { Some(i) } else { None }
}

// An answer to the Sent invocation in slot i; kind is that of a reject of ours, here and below.
fn answer_sent(l: [Invocation; MOST_INVOCATIONS], i: usize, tag: u8, kind: u32) -> Told
    requires { (i < most_invocations) × ((get_or l i no_invocation).state ≡ sent) }
    ensures is { (room id : ℕ) (c : Control) → l ≡ c.invocations → i ≡ slot_of l id → kind ≡ stored_kind room c.count → does c id result ≡ answers_sent room c tag id }
    ensures waits { result.kind ≡ row_rejected → kind ≡ row_rejected }
{
    let v = l[i];
    match takes(v.class, tag) {
        Taken::Rejected => puts(kind, answer_problem(tag, 1), i, Invocation::NONE),
        Taken::StaysSent => puts(
            answer_kind(tag),
            NO_PROBLEM,
            i,
            Invocation { shown: 1, ..v },
        ),
        Taken::Waits => puts(
            answer_kind(tag),
            NO_PROBLEM,
            i,
            Invocation { state: WAIT, ..v },
        ),
    }
}

// A result or an error received.
fn answer(l: [Invocation; MOST_INVOCATIONS], tag: u8, id: u32, kind: u32) -> Told
    ensures is { (room : ℕ) (c : Control) → l ≡ c.invocations → kind ≡ stored_kind room c.count → does c id result ≡ answers room c tag id }
    ensures waits { result.kind ≡ row_rejected → kind ≡ row_rejected }
{
    match sent_slot(l, id) {
        Some(i) => answer_sent(l, i, tag, kind),
        None => stays(kind, answer_problem(tag, 0)),
    }
}

// An invoke received: its linked ID, and only that, must be ours and Sent.
fn invoke(l: [Invocation; MOST_INVOCATIONS], linked: u32, kind: u32) -> Told
    ensures is { (room id : ℕ) (c : Control) → l ≡ c.invocations → kind ≡ stored_kind room c.count → does c id result ≡ invokes room c id linked }
    ensures waits { result.kind ≡ row_rejected → kind ≡ row_rejected }
{
    // Stays: NO_ID for none, as `linked` of a Component has it.
    if linked == NO_ID || dialogue_invocations::state_of(l, linked) == SENT {
        stays(ROW_INVOKE, NO_PROBLEM)
    } else {
        stays(kind, UNRECOGNIZED_LINKED_ID)
    }
}

// Its Sent invocation to Idle, other states unchanged.
fn release(l: [Invocation; MOST_INVOCATIONS], id: u32, kind: u32, problem: u32) -> Told
    ensures is { (c : Control) → l ≡ c.invocations → released c id ≡ turned c id result }
    ensures told { (result.kind ≡ kind) × (result.problem ≡ problem) }
{
    match sent_slot(l, id) {
        Some(i) => puts(kind, problem, i, Invocation::NONE),
        None => stays(kind, problem),
    }
}

// U-REJECT or R-REJECT, by who sends the problem.
#[tactic(auto, unfolding(paper::specs::Invocations::reject_kind, laws::specs::If::if_eq))]
fn reject_kind(problem: u32) -> u32
    ensures is { result ≡ reject_kind problem }
    ensures low { result < row_rejected }
{
    // Stays: taken apart as `sender_of_problem` of paper/specs/Problems does it.
    match reading_problems::sender(problem / 256, problem % 256) {
        Some(Party::User) => ROW_USER_REJECT,
        _ => ROW_REMOTE_REJECT,
    }
}

// A reject received.
fn reject(l: [Invocation; MOST_INVOCATIONS], id: u32, problem: u32) -> Told
    ensures is { (c : Control) → l ≡ c.invocations → does c id result ≡ rejects c id problem }
    ensures low { result.kind < row_rejected }
{
    let kind = reject_kind(problem);
    if problem < RESULT_PROBLEMS {
        release(l, id, kind, problem)
    } else {
        stays(kind, problem)
    }
}

#[tactic(auto, unfolding(paper::specs::Invocations::is_answer, laws::specs::If::if_eq))]
fn is_answer(tag: u8) -> bool
    ensures { result ≡ is_answer tag }
{
    matches!(tag, LAST_TAG | ERROR_TAG | NOT_LAST_TAG)
}

// A component with a syntax fault. A faulty A4 is a local notice, never stored.
fn fault(l: [Invocation; MOST_INVOCATIONS], p: Component, kind: u32) -> Told
    ensures is { (room : ℕ) (c : Control) → l ≡ c.invocations → kind ≡ stored_kind room c.count → does c p.id result ≡ faults room c p }
    ensures waits { result.kind ≡ row_rejected → kind ≡ row_rejected }
{
    let code = u32::from(p.fault);
    if p.tag == REJECT_TAG {
        // Stays: NO_PROBLEM for none, as `problem` of a Component has it.
        if p.problem == NO_PROBLEM {
            return stays(ROW_NOT_STORED, code);
        }
        return release(l, p.id, ROW_NOT_STORED, code);
    }
    if is_answer(p.tag) {
        return release(l, p.id, kind, code);
    }
    stays(kind, code)
}

// WHAT A COMPONENT DOES to a dialogue with these invocations and so many waiting rejects; room: how many rejects may wait (8, or 0 where
// none is stored).
pub fn act(l: [Invocation; MOST_INVOCATIONS], count: u8, p: Component, room: u8) -> Told
    ensures is { (c : Control) → l ≡ c.invocations → count ≡ c.count → does c p.id result ≡ act room c p }
    ensures waits { result.kind ≡ row_rejected → count < room }
{
    let kind = stored_kind(count, room);
    if p.fault != NO_FAULT {
        return fault(l, p, kind);
    }
    match p.tag {
        INVOKE_TAG => invoke(l, p.linked, kind),
        REJECT_TAG => reject(l, p.id, p.problem),
        tag => answer(l, tag, p.id, kind),
    }
}

// Whether the control record changes.
pub fn is_change(t: Told) -> bool
    ensures { result ≡ false → (c : Control) (id : ℕ) → c ≡ changed c id t }
{
    t.kind == ROW_REJECTED || t.put.is_some()
}

// Its invocation put, or to Idle.
fn turned(c: Control, id: u32, t: Told) -> Control
    ensures is { result ≡ turned c id t }
    ensures count { result.count ≡ c.count }
{
    match t.put {
        Some((i, v)) if i < MOST_INVOCATIONS => {
            if v.state == IDLE {
                dialogue_invocations::release(c, id)
            } else {
                dialogue_invocations::put_invocation(c, i, v)
            }
        }
        _ => c,
    }
}

// A reject of ours waits.
fn wait(mut c: Control, id: u32, problem: u32) -> Control
    requires { c.count < most_rejects }
    ensures { result ≡ with_reject c (record { id = id; problem = problem }) }
{
    c.rejects[usize::from(c.count)] = Reject { id, problem };
    c.count += 1;
    c
}

// The control record after a component with that ID.
pub fn changed(c: Control, id: u32, t: Told) -> Control
    requires { t.kind ≡ row_rejected → c.count < most_rejects }
    ensures { result ≡ changed c id t }
{
    let d = turned(c, id, t);
    if t.kind == ROW_REJECTED {
        return wait(d, id, t.problem);
    }
    d
}
