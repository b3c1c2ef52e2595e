// What the fields of a line give, parted by one blank: `None` where a field gives something else than is asked for.
ghost use Rattle.std.specs.Prelude.{◌≤◌, IfSome};

use paper::{LAST_TAG, NO_ID, NOT_LAST_TAG};
use program_words::Field;

// How many blanks a line has.
pub fn blanks(line: &[u8]) -> usize {
    program_words::separators(line, b' ')
}

pub fn part<'a>(line: &'a [u8], k: usize) -> &'a [u8] {
    program_words::part(line, b' ', k)
}

pub fn verb<'a>(line: &'a [u8]) -> &'a [u8] {
    part(line, 0)
}

pub fn number(line: &[u8], k: usize) -> Option<u32> {
    program_digits::read_decimal(part(line, k))
}

// Octets in hex, put in their own place; `-` for none.
pub fn octets(line: &mut [u8], k: usize) -> Option<Field> {
    let f = program_words::nth(line, b' ', k);
    program_words::octets_or_none(line, f)
}

// Service and dialogue: the first two fields after the verb.
pub fn on_dialogue(line: &[u8]) -> Option<(u32, u32)> {
    let service = number(line, 1)?;
    let dialogue = program_digits::read_dialogue(part(line, 2))?;
    Some((service, dialogue))
}

// The same, and an invoke ID.
pub fn on_invocation(line: &[u8]) -> Option<(u32, u32, u8)> {
    let (service, dialogue) = on_dialogue(line)?;
    let id = program_digits::read_id(part(line, 3))?;
    Some((service, dialogue, id))
}

// Octets, and a start and a length: all that stands after the verb.
pub fn octets_and_run(line: &mut [u8]) -> Option<(Field, usize, usize)> {
    if blanks(line) != 3 {
        return None;
    }
    let start = number(line, 2)?;
    let length = number(line, 3)?;
    let m = octets(line, 1)?;
    // Stays: `as`, since no `From` makes a usize of a u32.
    Some((m, start as usize, length as usize))
}

// A linked ID, `-` for none: 256.
// Stays: 256 for none, as call_pass's Passing has it.
pub fn linked(s: &[u8]) -> Option<u32>
    ensures { IfSome result (λ n. n ≤ 256) }
{
    match s {
        b"-" => Some(NO_ID),
        _ => Some(u32::from(program_digits::read_id(s)?)),
    }
}

// The tag of a result: `L` last, `N` not last.
pub fn result_tag(s: &[u8]) -> Option<u8> {
    match s {
        b"L" => Some(LAST_TAG),
        b"N" => Some(NOT_LAST_TAG),
        _ => None,
    }
}

// Sixteen numbers of an octet each, parted by commas.
pub fn shares(s: &[u8]) -> Option<[u8; 16]> {
    if program_words::separators(s, b',') != 15 {
        return None;
    }
    let mut out = [0; 16];
    for (i, x) in out.iter_mut().enumerate() {
        let n = program_digits::read_decimal(program_words::part(s, b',', i))?;
        *x = u8::try_from(n).ok()?;
    }
    Some(out)
}
