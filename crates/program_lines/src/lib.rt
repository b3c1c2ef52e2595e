// The lines of standard input, one after another, each in a lent space.
#![tactic(auto)]

ghost use Rattle.std.specs.Prelude.{◌≡◌, ◌≤◌, length, IfSome, Some};
ghost use Rattle.program_lines.specs.Within.{Within, Short, unread};

use std::io::Read;

// Stays: an own buffer, since std's reader takes an octet at a time from a pipe and its `BufReader` must have the heap.
// Where the reading of standard input is: the next octet of the buffer and how many it has; the number of the last line.
#[derive(Clone, Copy)]
pub struct Lines {
    pub at: usize,
    pub have: usize,
    pub number: u64,
}

// A line: its number, and how many octets of its space it takes, none where it is longer than that.
#[derive(Clone, Copy)]
pub struct Line {
    pub number: u64,
    pub count: Option<usize>,
}

// Before the first line.
pub fn start() -> Lines
    ensures { Within 0 result }
{
    Lines {
        at: 0,
        have: 0,
        number: 0,
    }
}

// Some octets of standard input, none where it has ended or cannot be read: how many.
pub fn read(rt: &impl Input, buf: &mut [u8]) -> usize
    ensures { result ≤ length buf.new }
{
    rt.reader().read(buf).unwrap_or(0)
}

// The next octet of standard input, none where it has ended. A buffer that is used up is filled again.
fn octet(rt: &impl Input, buf: &mut [u8], lines: &mut Lines) -> Option<u8>
    requires { Within (length buf.old) lines.old }
    ensures { Within (length buf.new) lines.new }
{
    if lines.at == lines.have {
        lines.have = read(rt, buf);
        lines.at = 0;
    }
    let x = *buf[..lines.have].get(lines.at)?;
    lines.at += 1;
    Some(x)
}

// How many octets a line takes with one more, none where that is longer than its space.
fn with(line: &mut [u8], count: Option<usize>, x: u8) -> Option<usize>
    ensures { Short (length line.new) result }
{
    let n = count?;
    *line.get_mut(n)? = x;
    Some(n + 1)
}

// Before the next line's first octet: its number, and nothing taken of it, nor of the buffer. How many octets it takes.
fn begin(lines: &mut Lines) -> Option<usize>
    ensures { (result ≡ Some 0) × (lines.new.at ≡ lines.old.at) × (lines.new.have ≡ lines.old.have) }
{
    lines.number = lines.number.wrapping_add(1);
    Some(0)
}

// The line that was begun last, at its end: it takes as many octets as were put.
fn ended(lines: &Lines, count: Option<usize>) -> Line
    ensures { result.count ≡ count }
{
    Line {
        number: lines.number,
        count,
    }
}

// The next line, none where the input has ended. Nothing says that a line ends, so the loop counts its turns, up to a number that no
// run uses up.
pub fn next(rt: &impl Input, buf: &mut [u8], line: &mut [u8], lines: &mut Lines) -> Option<Line>
    requires { Within (length buf.old) lines.old }
    ensures { Within (length buf.new) lines.new × IfSome result (λ l. Short (length line.new) l.count) }
{
    let mut count = begin(lines);
    for _ in 0..u64::MAX {
        match octet(rt, buf, lines) {
            None if count == Some(0) => return None,
            None | Some(b'\n') => break,
            Some(x) => count = with(line, count, x),
        }
    }
    Some(ended(lines, count))
}

// A line that cannot be read: its number and `bad`. How many octets that is.
pub fn bad(rt: &impl Print, number: u64, separator: u8) -> usize
    ensures { result ≡ length (unread number separator) }
{
    let mut out = [0u8; 32];
    let a = program_digits::decimal(&mut out, 0, number);
    let b = program_text::put(&mut out, a, separator);
    let n = program_text::word(&mut out, b, b"bad\n");
    program_text::say(rt, &out, n)
}
