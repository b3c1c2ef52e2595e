// What a call or a reader gives, as text: a message, a row, a component.
// Stays: a space and a place in it are two parameters, as in program_text; `as`, since no `From` goes from u32 to usize, or from usize to u64.
#![tactic(auto)]

ghost use Rattle.std.specs.Prelude.{◌<◌, ◌≤◌, ◌≡◌, length, take};
ghost use Rattle.paper.specs.Readers.{message_items};
ghost use Rattle.program_text.specs.Said.{Said};
ghost use Rattle.program_digits.specs.Digits.{hex, or_none};
ghost use Rattle.program_listing.specs.Rows.{number_at, numbers};
ghost use Rattle.program_listing.specs.Listed.{with_piece};

use paper::{Component, Row};
use reading_reader::{Cursor, Piece, Reader};

// The message of so many octets at the start of a space, `-` for none.
pub fn message(out: &mut [u8], at: usize, space: &[u8], count: u32) -> usize
    requires { at ≤ length out.old }
    ensures { Said out.old at (or_none (hex (take count space.now))) result out.new }
{
    let n = space.len().min(count as usize);
    program_digits::octets(out, at, &space[..n])
}

// The number of four octets at a place of the row space, least significant first; 0 past its end.
// Stays: 0 past its end, as the definition number_at (specs/Rows) gives it.
pub fn number_at(rows: &[u8], at: usize) -> u32
    ensures { result ≡ number_at rows.now at }
{
    let Some(rest) = rows.get(at..) else {
        return 0;
    };
    match rest {
        [a, b, c, d, ..] => u32::from_le_bytes([*a, *b, *c, *d]),
        _ => 0,
    }
}

// The eight numbers of the row at a place of the row space, each after a blank.
pub fn row(out: &mut [u8], at: usize, rows: &[u8], place: usize) -> usize
    requires { (at ≤ length out.old) × (place < 137438953472) }
    ensures { Said out.old at (numbers 8 place rows.now) result out.new }
{
    let mut k = at;
    for i in 0..8 {
        let n = number_at(rows, place + 4 * i);
        k = program_digits::spaced(out, k, u64::from(n));
    }
    k
}

// Start, length, ID, linked ID and problem.
fn row_numbers(out: &mut [u8], at: usize, r: Row) -> usize
    ensures { result ≤ length out.new }
{
    let mut k = at;
    for n in [r.start, r.length, r.invoke, r.linked, r.problem] {
        k = program_digits::spaced(out, k, u64::from(n));
    }
    k
}

// The tag, these numbers, and the parameter's start and length.
fn component_line(out: &mut [u8], at: usize, c: Component) -> usize
    requires { (at < 65536) × (c.stop < 65536) × (c.par ≤ c.parstop) }
    ensures { result ≤ length out.new }
{
    let n = c.parstop - c.par;
    let r = writing_rows::component_row(c, 0, at, 0, c.problem);
    let a = program_text::word(out, 0, b"c ");
    let b = program_digits::octet(out, a, c.tag);
    let d = row_numbers(out, b, r);
    let e = program_digits::spaced(out, d, c.par as u64);
    let f = program_digits::spaced(out, e, n as u64);
    program_text::put(out, f, b'\n')
}

// How far a message's components are listed: how many, and the cursor past the last one.
#[derive(Clone, Copy)]
pub struct Listed {
    pub count: u64,
    pub last: Option<Cursor>,
}

// With the next one, and a line for it.
fn taken(rt: &impl Print, l: Listed, p: Piece) -> Listed
    requires { (l.count ≤ 512)
        × (p.at < 65536)
        × (p.component.stop < 65536)
        × (p.component.par ≤ p.component.parstop) }
    ensures { result ≡ with_piece l p }
{
    let mut out = [0u8; 256];
    let n = component_line(&mut out, p.at, p.component);
    program_text::say(rt, &out, n);
    Listed {
        count: l.count + 1,
        last: Some(p.next),
    }
}

// A line for each component that "a reader that stays on one message" gives (01, "Rows").
pub fn components(rt: &impl Print, msg: &[u8]) -> Listed
    ensures { result.count ≡ length (message_items msg.now) }
{
    let mut l = Listed {
        count: 0,
        last: None,
    };
    for p in Reader::new(msg) {
        l = taken(rt, l, p);
    }
    l
}

// How many those are.
pub fn count(msg: &[u8]) -> usize
    ensures { result ≡ length (message_items msg.now) }
{
    Reader::new(msg).count()
}
