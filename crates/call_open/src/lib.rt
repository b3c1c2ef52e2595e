// The table's size, a fresh table, and the request that takes a place (01, "Dialogue states": "Open takes a place").
#![tactic(auto)]

ghost use Rattle.std.specs.Prelude.{◌≡◌, [], length};
ghost use Rattle.paper.specs.Sizes.{services};
ghost use Rattle.paper.specs.Calls.{fresh_table};
ghost use Rattle.paper.specs.Calls.Call.{Open};
ghost use Rattle.paper.specs.Layout.{table_size, encode};
ghost use Rattle.paper.specs.Outcome.{Gives, outcome, fresh_answer, fresh_outcome};
ghost use Rattle.paper.specs.Refusals.{answer_of};
ghost use Rattle.call_entry.specs.Replies.{Ends, only};

use call_entry::{Effect, Reply, Spaces};
use paper::{
    DIALOGUE_OPEN, GUARANTEES, LIMITS, MAP, PLACES_SHARED, Refusal, SERVICES, TABLE_OCTETS,
};

// "The table has one fixed size, stated in docs/."
pub fn table_size() -> usize
    ensures { result ≡ table_size }
{
    TABLE_OCTETS
}

fn fresh_answer(t: &[u8], g: &[u8], l: &[u8]) -> Result<(), Refusal>
    ensures { answer_of result ≡ fresh_answer t.now g.now l.now }
{
    if t.len() != TABLE_OCTETS || g.len() != SERVICES || l.len() != SERVICES {
        return Err(Refusal::WrongSize);
    }
    if !table_shares::shares_fit(g, l, PLACES_SHARED) {
        return Err(Refusal::WrongShares);
    }
    Ok(())
}

// The empty table of those shares: every place free, every turn 0.
fn lay_out(t: &mut [u8], g: &[u8], l: &[u8])
    requires { (length t.old ≡ table_size) × (length g.now ≡ services) × (length l.now ≡ services) }
    ensures { t.new ≡ encode (fresh_table g.now l.now) }
{
    let map: [u8; 16] = [255; 16];
    writing_octets::clear(t);
    writing_octets::copy_at(t, MAP, &map);
    writing_octets::copy_at(t, GUARANTEES, g);
    writing_octets::copy_at(t, LIMITS, l);
}

fn try_fresh(table: &mut [u8], guarantees: &[u8], limits: &[u8]) -> Result<Effect, Refusal>
    ensures { Ends (fresh_outcome table.old guarantees.now limits.now) result (only table.new) }
{
    fresh_answer(table, guarantees, limits)?;
    lay_out(table, guarantees, limits);
    Ok(Effect::NONE)
}

// "Fresh gives only 1, 13 or 0."
pub fn fresh(table: &mut [u8], guarantees: &[u8], limits: &[u8]) -> Reply
    ensures { Gives (fresh_outcome table.old guarantees.now limits.now) result.answer result.rows result.length result.dialogue (record { table = table.new; rows = []; space = [] }) }
{
    Reply::from(try_fresh(table, guarantees, limits))
}

// "A free place is found in a map ..; the lowest is taken." 7 where the share rule gives none.
fn try_open(table: &mut [u8], service: u32) -> Result<Effect, Refusal>
    ensures { Ends (outcome (only table.old) (Open service)) result (only table.new) }
{
    let may = call_entry::enter(table, Spaces::NONE, Spaces::NONE, service)?;
    if !may {
        return Err(Refusal::NoPlace);
    }
    let p = table_places::lowest_place(table);
    let id = table_places::id_at(table, p);
    let turn = table_places::turn_at(table, p);
    let c = table_places::begun(turn, DIALOGUE_OPEN, service as u8, 0, [0; 4]);
    table_places::begin_at(table, p, c);
    Ok(Effect {
        dialogue: id,
        ..Effect::NONE
    })
}

pub fn open(table: &mut [u8], service: u32) -> Reply
    ensures { Gives (outcome (record { table = table.old; rows = []; space = [] }) (Open service)) result.answer result.rows result.length result.dialogue (record { table = table.new; rows = []; space = [] }) }
{
    Reply::from(try_open(table, service))
}
