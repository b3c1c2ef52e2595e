// A received message (01, "A received message"), from the sizes lent to the reply.
#![tactic(auto)]

ghost use Rattle.paper.specs.Calls.Call.{Receive};
ghost use Rattle.paper.specs.Outcome.{Gives, outcome};
ghost use Rattle.call_entry.specs.Replies.{Ends};

use call_entry::{Effect, Reply, Spaces};
use paper::{LONGEST_MESSAGE, Refusal};

fn try_receive(
    table: &mut [u8],
    service: u32,
    message: &[u8],
    rows: &mut [u8],
    space: &mut [u8],
) -> Result<Effect, Refusal>
    ensures { Ends (outcome (record { table = table.old; rows = rows.old; space = space.old }) (Receive service message.now)) result (record { table = table.new; rows = rows.new; space = space.new }) }
{
    let lent = Spaces {
        rows: rows.len(),
        space: space.len(),
    };
    let may = call_entry::enter(table, lent, Spaces::BOTH, service)?;
    if message.is_empty() || message.len() > LONGEST_MESSAGE {
        return Err(Refusal::MessageSize);
    }
    let r = call_receive_parts::receive(table, service, message, may, rows, space);
    Ok(Effect {
        rows: r.rows,
        length: r.length,
        dialogue: 0,
    })
}

pub fn receive(
    table: &mut [u8],
    service: u32,
    message: &[u8],
    rows: &mut [u8],
    space: &mut [u8],
) -> Reply
    ensures { Gives (outcome (record { table = table.old; rows = rows.old; space = space.old }) (Receive service message.now)) result.answer result.rows result.length result.dialogue (record { table = table.new; rows = rows.new; space = space.new }) }
{
    Reply::from(try_receive(table, service, message, rows, space))
}
