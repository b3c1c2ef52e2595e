// What a call gives, as lines of text (vectors/README.md).
// Stays: a space and a place in it are two parameters, as in program_text; `as`, since no `From` goes from u32 to usize, or from usize to u64.
ghost use Rattle.std.specs.Prelude.{◌≤◌, length};

use call_entry::Reply;

// Stays: an answer is a number of Reply, which is the C interface's.
fn opened(out: &mut [u8], at: usize, r: Reply, opens: bool) -> usize
    ensures { result ≤ length out.new }
{
    if opens && r.answer == 0 {
        program_digits::dialogue(out, at, r.dialogue)
    } else {
        program_text::put(out, at, b'-')
    }
}

// `= ANSWER DIALOGUE`, the dialogue of an open that is done
fn answer_line(out: &mut [u8], r: Reply, opens: bool) -> usize
    ensures { result ≤ length out.new }
{
    let a = program_text::put(out, 0, b'=');
    let b = program_digits::spaced(out, a, u64::from(r.answer));
    let c = program_text::put(out, b, b' ');
    opened(out, c, r, opens)
}

// ` MESSAGE NROWS`
fn message_line(out: &mut [u8], at: usize, r: Reply, space: &[u8]) -> usize
    ensures { result ≤ length out.new }
{
    let a = program_text::put(out, at, b' ');
    let b = program_listing::message(out, a, space, r.length);
    let c = program_digits::spaced(out, b, u64::from(r.rows));
    program_text::put(out, c, b'\n')
}

pub fn reply(rt: &impl Print, r: Reply, opens: bool, space: &[u8]) {
    let mut out = [0u8; 1024];
    let a = answer_line(&mut out, r, opens);
    let n = message_line(&mut out, a, r, space);
    program_text::say(rt, &out, n);
}

// A sign, and the eight numbers of a row.
fn row(rt: &impl Print, sign: u8, rows: &[u8], k: u32) {
    let mut out = [0u8; 256];
    let a = program_text::put(&mut out, 0, sign);
    let b = program_listing::row(&mut out, a, rows, (k as usize) * 32);
    let n = program_text::put(&mut out, b, b'\n');
    program_text::say(rt, &out, n);
}

// `r n n n n n n n n`
pub fn row_lines(rt: &impl Print, rows: &[u8], count: u32) {
    for k in 0..count {
        row(rt, b'r', rows, k);
    }
}

// `= KIND NSTART NLENGTH ISTART ILENGTH RESULT DIAGNOSTIC SOURCE`
pub fn portion_line(rt: &impl Print, rows: &[u8]) {
    row(rt, b'=', rows, 0);
}

// `= START LENGTH OCTETS`
pub fn parameter_line(rt: &impl Print, s: &[u8], start: usize, count: usize) {
    let p = reading_parameter::parameter_at(s, start, count);
    let mut out = [0u8; 16640];
    let a = program_text::put(&mut out, 0, b'=');
    let b = program_digits::spaced(&mut out, a, p.start as u64);
    let c = program_digits::spaced(&mut out, b, p.length as u64);
    let d = program_text::put(&mut out, c, b' ');
    let e = program_digits::octets(&mut out, d, reading_parameter::parameter(s, start, count));
    let n = program_text::put(&mut out, e, b'\n');
    program_text::say(rt, &out, n);
}

// `= COUNT`
fn count_line(rt: &impl Print, n: u64) {
    let mut out = [0u8; 32];
    let a = program_text::put(&mut out, 0, b'=');
    let b = program_digits::spaced(&mut out, a, n);
    let c = program_text::put(&mut out, b, b'\n');
    program_text::say(rt, &out, c);
}

// That, of the components that the reader gives, and a line for each.
pub fn component_lines(rt: &impl Print, s: &[u8]) {
    count_line(rt, program_listing::count(s) as u64);
    program_listing::components(rt, s);
}
