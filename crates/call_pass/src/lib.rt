// Components passed to a dialogue (01, "Dialogue states", "Invocation states"): refused by a number, or written after those that wait,
// straight into the table.
#![tactic(auto)]

ghost use Rattle.std.specs.Prelude.{◌≡◌, [], ◌<◌, ◌≤◌, length};
ghost use Rattle.laws.specs.Runs.{Wrote};
ghost use Rattle.paper.specs.Sizes.{most_waiting, most_invocations};
ghost use Rattle.paper.specs.Components.{no_id};
ghost use Rattle.paper.specs.Problems.{kind_of};
ghost use Rattle.paper.specs.Invocations.{slot_of, idle_slot};
ghost use Rattle.paper.specs.Dialogues.{Place, refusal as refusal_of, invoke_refusal, result_refusal, error_refusal, reject_refusal};
ghost use Rattle.paper.specs.Refusals.{answer_of};
ghost use Rattle.paper.specs.Calls.Call.{OnDialogue};
ghost use Rattle.paper.specs.Outcome.{Gives, outcome};
ghost use Rattle.call_entry.specs.Replies.{Ends, only};
ghost use Rattle.call_pass.specs.Refusing.{front_of};
ghost use Rattle.call_pass.specs.Passings.{passing, octets_of, with_new, with_rejected, invocations_after, Leaves, linked_of, Acts, Writing};

use call_entry::{Effect, Reply, Spaces};
use paper::{
    DIALOGUE_OPEN, FIRST_WAITING, IDLE, Invocation, MOST_INVOCATIONS, NO_ID, PENDING, PLACE_OCTETS,
    REJECTING, Refusal,
};
use reading_problems::Party;

// Stays: 256 for no linked ID, and a problem as one number, are what the definition of a Request (paper, specs/Dialogues) has.
// WHAT IS PASSED, by its numbers. The operation or error, and the parameter, stand beside it as octets; a reject has neither.
#[derive(Clone, Copy)]
pub enum Passing {
    // ID, linked ID (256 none), class
    AnInvoke(u8, u32, u32),
    // tag, last or not last; ID
    AResult(u8, u8),
    // ID
    AnError(u8),
    // ID, problem as in a row
    AReject(u8, u32),
}

// ---- REFUSED, by a dialogue's state, its invocations and the number of octets that wait
#[tactic(auto, unfolding(crate::specs::Refusing::front_of, laws::specs::If::if_eq))]
fn front_of(linked: u32) -> usize
    ensures { result ≡ front_of linked }
{
    if linked == NO_ID { 3 } else { 6 }
}

// Stays: `n ≤ most_waiting` stands in the clauses of each: n is what table_places::waiting_length promises of a usize, and is added to.
fn invoke_refusal(
    l: [Invocation; MOST_INVOCATIONS],
    n: usize,
    id: u8,
    linked: u32,
    class: u32,
    op: &[u8],
    par: &[u8],
) -> Result<(), Refusal>
    requires { n ≤ most_waiting }
    ensures { (x : Place) → x.control.invocations ≡ l → length x.waiting ≡ n → answer_of result ≡ invoke_refusal x id linked class op.now par.now }
{
    if class < 1 || class > 4 {
        return Err(Refusal::WrongCode);
    }
    let state = dialogue_invocations::state_of(l, u32::from(id));
    if state != IDLE {
        return Err(Refusal::WrongInvocation);
    }
    if dialogue_invocations::idle_slot(l).is_none() {
        return Err(Refusal::InvocationsFull);
    }
    let front = front_of(linked);
    call_given::pieces_refusal(n, front, op, par)
}

fn result_refusal(
    state: u8,
    n: usize,
    tag: u8,
    id: u8,
    op: &[u8],
    par: &[u8],
) -> Result<(), Refusal>
    requires { n ≤ most_waiting }
    ensures { (x : Place) → x.control.state ≡ state → length x.waiting ≡ n → answer_of result ≡ result_refusal x tag id op.now par.now }
{
    if state == DIALOGUE_OPEN {
        return Err(Refusal::WrongState);
    }
    call_given::both_refusal(n, op, par)
}

fn error_refusal(state: u8, n: usize, id: u8, err: &[u8], par: &[u8]) -> Result<(), Refusal>
    requires { n ≤ most_waiting }
    ensures { (x : Place) → x.control.state ≡ state → length x.waiting ≡ n → answer_of result ≡ error_refusal x id err.now par.now }
{
    if state == DIALOGUE_OPEN {
        return Err(Refusal::WrongState);
    }
    call_given::pieces_refusal(n, 3, err, par)
}

fn reject_refusal(
    state: u8,
    l: [Invocation; MOST_INVOCATIONS],
    n: usize,
    id: u8,
    problem: u32,
) -> Result<(), Refusal>
    requires { n ≤ most_waiting }
    ensures { (x : Place) → x.control.state ≡ state → x.control.invocations ≡ l → length x.waiting ≡ n → answer_of result ≡ reject_refusal x id problem }
{
    if state == DIALOGUE_OPEN {
        return Err(Refusal::WrongState);
    }
    match reading_problems::sender(problem / 256, problem % 256) {
        Some(Party::User) => {}
        Some(Party::SubLayer) => return Err(Refusal::WrongCode),
        None => return Err(Refusal::WrongCode),
    }
    let v = dialogue_invocations::invocation_of(l, u32::from(id));
    if !dialogue_invocations::may_reject(problem / 256, v) {
        return Err(Refusal::WrongInvocation);
    }
    call_given::over_by(n, 8)
}

// Stays: a match on what is passed: closures in its place would be three, for this, `acted` and `write`, each with a law of its own.
// Stays: the operation or error and the parameter are two arguments, as call_given and writing_components take them and C lends them.
fn refusal(
    state: u8,
    l: [Invocation; MOST_INVOCATIONS],
    n: usize,
    what: Passing,
    code: &[u8],
    par: &[u8],
) -> Result<(), Refusal>
    requires { n ≤ most_waiting }
    ensures { (x : Place) → x.control.state ≡ state → x.control.invocations ≡ l → length x.waiting ≡ n → answer_of result ≡ refusal_of x (passing what code.now par.now) }
{
    match what {
        Passing::AnInvoke(id, linked, class) => invoke_refusal(l, n, id, linked, class, code, par),
        Passing::AResult(tag, id) => result_refusal(state, n, tag, id, code, par),
        Passing::AnError(id) => error_refusal(state, n, id, code, par),
        Passing::AReject(id, problem) => reject_refusal(state, l, n, id, problem),
    }
}

// ---- DONE: one slot of our invocations, and what it holds afterwards
#[derive(Clone, Copy)]
struct Slot {
    at: usize,
    holds: Invocation,
}

// "Pending (passed)", in the first slot that is Idle.
fn invoked(l: [Invocation; MOST_INVOCATIONS], id: u8, class: u32) -> Slot
    requires { (class ≤ 4) × (idle_slot l ≡ most_invocations → ⊥) }
    ensures { Leaves l result.at result.holds (with_new l id class) }
{
    Slot {
        at: dialogue_invocations::idle_slot(l).unwrap(),
        holds: Invocation {
            id,
            class: class as u8,
            state: PENDING,
            shown: 0,
        },
    }
}

// None is changed: the first holds what it held.
fn unchanged(l: [Invocation; MOST_INVOCATIONS]) -> Slot
    ensures { Leaves l result.at result.holds l }
{
    Slot { at: 0, holds: l[0] }
}

// "Rejecting until transmitted"; an invoke's reject changes no invocation of ours.
fn rejected_by(l: [Invocation; MOST_INVOCATIONS], id: u8, problem: u32) -> Slot
    requires { (kind_of problem ≡ 1 → ⊥) → slot_of l id < most_invocations }
    ensures { Leaves l result.at result.holds (with_rejected l id problem) }
{
    if problem / 256 == 1 {
        return unchanged(l);
    }
    let at = dialogue_invocations::slot_of(l, u32::from(id)).unwrap();
    Slot {
        at,
        holds: Invocation {
            state: REJECTING,
            ..l[at]
        },
    }
}

// Stays: a match on what is passed, as in `refusal`.
fn acted(l: [Invocation; MOST_INVOCATIONS], what: Passing) -> Slot
    requires { Acts l what }
    ensures { Leaves l result.at result.holds (invocations_after l what) }
{
    match what {
        Passing::AnInvoke(id, _linked, class) => invoked(l, id, class),
        Passing::AResult(_tag, _id) => unchanged(l),
        Passing::AnError(_id) => unchanged(l),
        Passing::AReject(id, problem) => rejected_by(l, id, problem),
    }
}

// ---- WRITTEN after the n octets that wait, straight into the table
// Stays: a match on what is passed, as in `refusal`.
fn write(t: &mut [u8], at: usize, what: Passing, code: &[u8], par: &[u8]) -> usize
    requires { Writing code.now par.now t.old at what }
    ensures { Wrote t.old at (octets_of what code.now par.now) result t.new }
{
    match what {
        Passing::AnInvoke(id, linked, _class) => writing_components::write_invoke(
            t, at, id, linked, code, par,
        ),
        Passing::AResult(tag, id) => writing_components::write_result(t, at, tag, id, code, par),
        Passing::AnError(id) => writing_components::write_error(t, at, id, code, par),
        Passing::AReject(id, problem) => writing_components::write_reject(
            t,
            at,
            u32::from(id),
            problem,
        ),
    }
}

// ---- THE CALL
fn try_pass(
    table: &mut [u8],
    service: u32,
    dialogue: u32,
    what: Passing,
    code: &[u8],
    parameter: &[u8],
) -> Result<Effect, Refusal>
    requires { linked_of what ≤ no_id }
    ensures { Ends (outcome (only table.old) (OnDialogue service dialogue (passing what code.now parameter.now))) result (only table.new) }
{
    let p = call_entry::enter_at(table, Spaces::NONE, Spaces::NONE, service, dialogue)?;
    let mut c = table_places::load(table, p);
    let l = c.invocations;
    let n = table_places::waiting_length(table, p);
    refusal(c.state, l, n, what, code, parameter)?;
    let s = acted(l, what);
    c.invocations[s.at] = s.holds;
    let a = FIRST_WAITING + p * PLACE_OCTETS;
    let e = write(table, a + n, what, code, parameter);
    table_places::put_control(table, p, c, (e - a) as u8);
    Ok(Effect::NONE)
}

pub fn pass(
    table: &mut [u8],
    service: u32,
    dialogue: u32,
    what: Passing,
    code: &[u8],
    parameter: &[u8],
) -> Reply
    requires { linked_of what ≤ no_id }
    ensures { Gives (outcome (record { table = table.old; rows = []; space = [] }) (OnDialogue service dialogue (passing what code.now parameter.now))) result.answer result.rows result.length result.dialogue (record { table = table.new; rows = []; space = [] }) }
{
    Reply::from(try_pass(table, service, dialogue, what, code, parameter))
}
