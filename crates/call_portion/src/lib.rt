// The question what a dialogue portion holds (02 a): its octets stay the message's, the answer is one row, and no table is taken.
#![tactic(auto)]

ghost use Rattle.std.specs.Prelude.{[]};
ghost use Rattle.paper.specs.Outcome.{Gives, portion_outcome};
ghost use Rattle.call_entry.specs.Replies.{Ends};
ghost use Rattle.call_portion.specs.Asked.{only_rows};

use call_entry::{Effect, Reply};
use paper::{LEAST_ROWS, Refusal};

// The portion at a run of a message, as a row gives it.
fn try_portion(message: &[u8], start: usize, len: usize, rows: &mut [u8]) -> Result<Effect, Refusal>
    ensures { Ends (portion_outcome rows.old message.now start len) result (only_rows rows.new) }
{
    if rows.len() < LEAST_ROWS {
        return Err(Refusal::WrongSize);
    }
    let p = reading_portion::portion_at(message, start, len);
    let r = reading_portion::row_of(p);
    writing_rows::write_row(rows, 0, r);
    Ok(Effect::ONE_ROW)
}

pub fn portion(message: &[u8], start: usize, len: usize, rows: &mut [u8]) -> Reply
    ensures { Gives (portion_outcome rows.old message.now start len) result.answer result.rows result.length result.dialogue (record { table = []; rows = rows.new; space = [] }) }
{
    Reply::from(try_portion(message, start, len, rows))
}
