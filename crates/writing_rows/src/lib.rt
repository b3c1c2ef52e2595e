// Rows: eight numbers of four octets, least significant first (01, "Rows").
// Stays: `as` where a position goes into a row, since no `From` makes a u32 of a usize; the clauses say that each is below 65,536.
#![tactic(auto)]

ghost use Rattle.std.specs.Prelude.{◌≡◌, ◌+◌, ◌*◌, ◌-◌, ◌<◌, ◌≤◌, length};
ghost use Rattle.std.proofs.lemmas.List.Edits.{sets};
ghost use Rattle.paper.specs.Rows.{signed, start_of, extent_of, dialogue_row, cancel_row, component_row, row_octets};

use paper::{Component, NO_ID, NO_PROBLEM, ROW_CANCEL, Row, Run};

// An ID's octet as a signed number plus 128; NO_ID none.
// Stays: none is a number, as in the definition signed and in a row.
fn signed(octet: u32) -> u32
    ensures { result ≡ signed octet }
{
    match octet {
        0..=127 => octet + 128,
        128..=255 => octet - 128,
        _ => NO_ID,
    }
}

// Where a component from at to x starts: 0 without a frame.
// Stays: 0 for none, as the definition start_of (paper/specs/Rows) gives it and a C host reads it.
fn start_of(at: usize, x: usize) -> u32
    requires { at < 65536 }
    ensures { result ≡ start_of at x }
{
    if at < x { at as u32 } else { 0 }
}

// How many octets a component has: 0 without a frame.
// Stays: 0 for none, as the definition extent_of (paper/specs/Rows) gives it and a C host reads it.
fn extent_of(at: usize, x: usize) -> u32
    requires { x < 65536 }
    ensures { result ≡ extent_of at x }
{
    x.saturating_sub(at) as u32
}

// The row of a component, of the kind and problem that acting on it gave.
pub fn component_row(c: Component, me: u32, at: usize, kind: u32, problem: u32) -> Row
    requires { (at < 65536) × (c.stop < 65536) }
    ensures { result ≡ component_row me at kind problem c }
{
    Row {
        kind,
        dialogue: me,
        invoke: signed(c.id),
        linked: signed(c.linked),
        problem,
        start: start_of(at, c.stop),
        length: extent_of(at, c.stop),
        follow: 0,
    }
}

// The row of a dialogue, with its portion and the number of component rows that follow.
pub fn dialogue_row(kind: u32, me: u32, cause: u32, portion: Run, follow: u32) -> Row
    requires { (portion.start < 65536) × (portion.length < 65536) }
    ensures { result ≡ dialogue_row kind me cause portion follow }
{
    Row {
        kind,
        dialogue: me,
        invoke: NO_ID,
        linked: NO_ID,
        problem: cause,
        start: portion.start as u32,
        length: portion.length as u32,
        follow,
    }
}

// L-CANCEL.
pub fn cancel_row(me: u32, id: u8) -> Row
    ensures { result ≡ cancel_row me id }
{
    Row {
        kind: ROW_CANCEL,
        dialogue: me,
        invoke: signed(u32::from(id)),
        linked: NO_ID,
        problem: NO_PROBLEM,
        start: 0,
        length: 0,
        follow: 0,
    }
}

// The octets of a row.
pub fn octets(r: Row) -> [u8; 32]
    ensures { result ≡ row_octets r }
{
    // Stays: the eight are named one by one; a loop over runs of four would name them in an array just so.
    let mut o = [0; 32];
    o[0..4].copy_from_slice(&r.kind.to_le_bytes());
    o[4..8].copy_from_slice(&r.dialogue.to_le_bytes());
    o[8..12].copy_from_slice(&r.invoke.to_le_bytes());
    o[12..16].copy_from_slice(&r.linked.to_le_bytes());
    o[16..20].copy_from_slice(&r.problem.to_le_bytes());
    o[20..24].copy_from_slice(&r.start.to_le_bytes());
    o[24..28].copy_from_slice(&r.length.to_le_bytes());
    o[28..32].copy_from_slice(&r.follow.to_le_bytes());
    o
}

// Row k of a row space.
// Stays: a row space is octets and a row a place in it, as the C interface lends it.
pub fn write_row(rows: &mut [u8], k: usize, r: Row)
    requires { k * 32 + 32 ≤ length rows.old }
    ensures is { rows.new ≡ sets rows.old (k * 32) (row_octets r) }
    ensures long { length rows.new ≡ length rows.old }
{
    writing_octets::copy_at(rows, k * 32, &octets(r));
}
