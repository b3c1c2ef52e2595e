// A line of hex octets, taken in an octet of text at a time.
ghost use Rattle.std.specs.Prelude.{◌≡◌, ◌<◌, ◌≤◌, unwrap_or};

use crate::show;
use paper::LONGEST_MESSAGE;

// A message's octets, and one that makes it too long.
const ROOM: usize = LONGEST_MESSAGE + 1;

// What the rest of a line is: more of its octets, a comment, or passed over, as it cannot be read.
#[derive(Clone, Copy, PartialEq, Eq)]
enum Rest {
    Octets,
    Comment,
    Bad,
}

// A line so far: its number; how many octets it has, as many as their space for any more; a digit that waits for its second.
// Stays: an array and its count, kept by `short`: a Vec would take the heap, and its failure to be told of.
#[derive(Clone, Copy)]
pub struct Line {
    number: u64,
    octets: [u8; ROOM],
    count: usize,
    digit: Option<u8>,
    rest: Rest,
    ghost short: { count ≤ 513 },
    ghost low: { unwrap_or digit 0 < 16 },
}

impl Line {
    // The first line, before its first octet.
    pub fn first() -> Line
        ensures { result.count ≡ 0 }
    {
        Line {
            number: 1,
            octets: [0; ROOM],
            count: 0,
            digit: None,
            rest: Rest::Octets,
        }
    }

    // The line after it, before its first octet.
    fn next(&mut self)
        ensures { self.new.count ≡ 0 }
    {
        self.number = self.number.wrapping_add(1);
        self.count = 0;
        self.digit = None;
        self.rest = Rest::Octets;
    }

    // A hex digit: the second makes an octet of the two.
    fn with_digit(&mut self, d: u8)
        requires { d < 16 }
    {
        match self.digit {
            None => self.digit = Some(d),
            Some(high) => {
                self.digit = None;
                if self.count < ROOM {
                    self.octets[self.count] = high << 4 | d;
                    self.count += 1;
                }
            }
        }
    }

    // At its end: what cannot be read as octets is `bad`, and a line without any is passed over.
    pub fn finish(&self, rt: &impl Print) {
        if self.rest == Rest::Bad || self.digit.is_some() {
            program_lines::bad(rt, self.number, b' ');
        } else if self.count > 0 {
            show::message(rt, self.number, &self.octets[..self.count]);
        }
    }

    // The next octet of the text. A line feed ends the line; blanks, tabs and carriage returns are passed over.
    pub fn take(&mut self, rt: &impl Print, x: u8) {
        if x == b'\n' {
            self.finish(rt);
            self.next();
            return;
        }
        if self.rest != Rest::Octets || matches!(x, b' ' | b'\t' | b'\r') {
            return;
        }
        if x == b'#' {
            self.rest = Rest::Comment;
            return;
        }
        match program_digits::digit_of(x) {
            Some(d) => self.with_digit(d),
            None => self.rest = Rest::Bad,
        }
    }
}
