// Timer events, and the two requests that write no message: cancel and prearranged end (01, "Dialogue states", "Invocation states").
#![tactic(auto)]

ghost use Rattle.std.specs.Prelude.{◌≡◌, [], ◌<◌};
ghost use Rattle.paper.specs.Invocations.{invocation_of};
ghost use Rattle.paper.specs.Dialogues.Request.{Prearranged, Timeout, NoReaction};
ghost use Rattle.paper.specs.Calls.{place_at};
ghost use Rattle.paper.specs.Calls.Call.{OnDialogue};
ghost use Rattle.paper.specs.Layout.{view};
ghost use Rattle.paper.specs.Outcome.{Gives, outcome};
ghost use Rattle.call_entry.specs.Replies.{Ends, only, with_rows};
ghost use Rattle.call_entry.specs.Prologue.{Used};
ghost use Rattle.call_release.specs.Idling.{from_state, idling, Idled};

use call_entry::{Effect, Reply, Spaces};
use paper::{DIALOGUE_SENT, NO_PROBLEM, ROW_ABORT, Refusal, Run, SENT, WAIT};

// Our invocation of that ID goes from that state to Idle, or nothing changes.
fn idle_from(t: &mut [u8], p: usize, id: u8, state: u8) -> Result<(), Refusal>
    requires { Used t.old p × (0 < state) }
    ensures { Idled t.old p id state result t.new }
{
    let c = table_places::load(t, p);
    let id = u32::from(id);
    match dialogue_invocations::slot_of(c.invocations, id) {
        Some(i) if c.invocations[i].state == state => {
            table_places::store_control(t, p, dialogue_invocations::to_idle(c, id, i));
            Ok(())
        }
        _ => Err(Refusal::WrongInvocation),
    }
}

// The class of our invocation of that ID.
fn class_of(t: &[u8], p: usize, id: u8) -> u8
    requires { Used t.now p }
    ensures { result ≡ (invocation_of (place_at (view t.now) p).control.invocations id).class }
{
    let c = table_places::load(t, p);
    let v = dialogue_invocations::invocation_of(c.invocations, u32::from(id));
    v.class
}

// What takes an invocation to Idle and does nothing else: the user by a cancel, the reject timer.
#[derive(Clone, Copy)]
pub enum Idler {
    User,
    RejectTimer,
}

// "Timeout or cancel: Sent to Idle. Reject timeout: Wait to Idle."
fn from_state(by: Idler) -> u8
    ensures { result ≡ from_state by }
{
    match by {
        Idler::User => SENT,
        Idler::RejectTimer => WAIT,
    }
}

fn try_idle(
    table: &mut [u8],
    service: u32,
    dialogue: u32,
    id: u8,
    by: Idler,
) -> Result<Effect, Refusal>
    ensures { Ends (outcome (only table.old) (OnDialogue service dialogue (idling by id))) result (only table.new) }
{
    let p = call_entry::enter_at(table, Spaces::NONE, Spaces::NONE, service, dialogue)?;
    let from = from_state(by);
    idle_from(table, p, id, from)?;
    Ok(Effect::NONE)
}

pub fn idle(table: &mut [u8], service: u32, dialogue: u32, id: u8, by: Idler) -> Reply
    ensures { Gives (outcome (record { table = table.old; rows = []; space = [] }) (OnDialogue service dialogue (idling by id))) result.answer result.rows result.length result.dialogue (record { table = table.new; rows = []; space = [] }) }
{
    Reply::from(try_idle(table, service, dialogue, id, by))
}

// "Timeout gives L-CANCEL but in class 4."
fn try_timeout(
    table: &mut [u8],
    service: u32,
    dialogue: u32,
    id: u8,
    rows: &mut [u8],
) -> Result<Effect, Refusal>
    ensures { Ends (outcome (with_rows table.old rows.old) (OnDialogue service dialogue (Timeout id))) result (with_rows table.new rows.new) }
{
    let lent = Spaces {
        rows: rows.len(),
        space: 0,
    };
    let p = call_entry::enter_at(table, lent, Spaces::ROWS, service, dialogue)?;
    let class = class_of(table, p, id);
    idle_from(table, p, id, SENT)?;
    if class == 4 {
        return Ok(Effect::NONE);
    }
    let row = writing_rows::cancel_row(dialogue, id);
    writing_rows::write_row(rows, 0, row);
    Ok(Effect::ONE_ROW)
}

pub fn timeout(table: &mut [u8], service: u32, dialogue: u32, id: u8, rows: &mut [u8]) -> Reply
    ensures { Gives (outcome (record { table = table.old; rows = rows.old; space = [] }) (OnDialogue service dialogue (Timeout id))) result.answer result.rows result.length result.dialogue (record { table = table.new; rows = rows.new; space = [] }) }
{
    Reply::from(try_timeout(table, service, dialogue, id, rows))
}

// "No-reaction timer: Sent only, frees, P-ABORT row without cause."
fn try_no_reaction(
    table: &mut [u8],
    service: u32,
    dialogue: u32,
    rows: &mut [u8],
) -> Result<Effect, Refusal>
    ensures { Ends (outcome (with_rows table.old rows.old) (OnDialogue service dialogue NoReaction)) result (with_rows table.new rows.new) }
{
    let lent = Spaces {
        rows: rows.len(),
        space: 0,
    };
    let p = call_entry::enter_at(table, lent, Spaces::ROWS, service, dialogue)?;
    let c = table_places::load(table, p);
    let state = c.state;
    if state != DIALOGUE_SENT {
        return Err(Refusal::WrongState);
    }
    table_places::free_at(table, p);
    let row = writing_rows::dialogue_row(ROW_ABORT, dialogue, NO_PROBLEM, Run::NONE, 0);
    writing_rows::write_row(rows, 0, row);
    Ok(Effect::ONE_ROW)
}

pub fn no_reaction(table: &mut [u8], service: u32, dialogue: u32, rows: &mut [u8]) -> Reply
    ensures { Gives (outcome (record { table = table.old; rows = rows.old; space = [] }) (OnDialogue service dialogue NoReaction)) result.answer result.rows result.length result.dialogue (record { table = table.new; rows = rows.new; space = [] }) }
{
    Reply::from(try_no_reaction(table, service, dialogue, rows))
}

// "Prearranged end and user abort (both free): any".
fn try_end_prearranged(table: &mut [u8], service: u32, dialogue: u32) -> Result<Effect, Refusal>
    ensures { Ends (outcome (only table.old) (OnDialogue service dialogue Prearranged)) result (only table.new) }
{
    let place = call_entry::enter_at(table, Spaces::NONE, Spaces::NONE, service, dialogue)?;
    table_places::free_at(table, place);
    Ok(Effect::NONE)
}

pub fn end_prearranged(table: &mut [u8], service: u32, dialogue: u32) -> Reply
    ensures { Gives (outcome (record { table = table.old; rows = []; space = [] }) (OnDialogue service dialogue Prearranged)) result.answer result.rows result.length result.dialogue (record { table = table.new; rows = []; space = [] }) }
{
    Reply::from(try_end_prearranged(table, service, dialogue))
}
