// The words of a line, parted by one separator, and the octets that they give in hex.
#![tactic(auto)]

ghost use Rattle.std.specs.Prelude.{◌+◌, ◌<◌, ◌≤◌, ◌≡◌, length, drop};
ghost use Rattle.program_words.specs.Words.{up_to, word_of, field_of, count, cut_of, octets_of, with_octets, or_none, with_or_none, Two};
ghost use Rattle.program_words.specs.Words.{past as words_past};

// A part of a line, from `start` up to `stop`.
// Stays: not a `Range<usize>`, which isn't Copy; and no slice, since the octets that a field gives are put in the line itself.
#[derive(Clone, Copy)]
pub struct Field {
    pub start: usize,
    pub stop: usize,
}

// The first separator at or after `from`, else the line's end.
fn end_of(line: &[u8], separator: u8, from: usize) -> usize
    requires { from ≤ length line.now }
    ensures { (result ≡ from + length (up_to separator (drop from line.now))) × (result ≤ length line.now) }
{
    let rest = &line[from..];
    from + rest
        .iter()
        .position(|x| *x == separator)
        .unwrap_or(rest.len())
}

// Past that separator.
fn past(line: &[u8], separator: u8, from: usize) -> usize
    requires { from ≤ length line.now }
    ensures { (drop result line.now ≡ words_past separator (drop from line.now)) × (result ≤ length line.now) }
{
    (end_of(line, separator, from) + 1).min(line.len())
}

// The word with k others before it, empty after the last one: where it lies.
// Stays: no `split`, which would give the word's octets and not where it lies.
pub fn nth(line: &[u8], separator: u8, k: usize) -> Field
    ensures { result ≡ field_of separator k line.now }
{
    let mut start = 0;
    for _ in 0..k {
        start = past(line, separator, start);
    }
    Field {
        start,
        stop: end_of(line, separator, start),
    }
}

// How many separators a line has: one fewer than words.
pub fn separators(line: &[u8], separator: u8) -> usize
    ensures { result ≡ count separator line.now }
{
    line.iter().filter(|x| **x == separator).count()
}

// The octets of a field, none for one that lies in no such line.
pub fn cut<'a>(line: &'a [u8], f: Field) -> &'a [u8]
    ensures { result.now ≡ cut_of f line.now }
{
    line.get(f.start..f.stop).unwrap_or(&[])
}

// The word with k others before it.
pub fn part<'a>(line: &'a [u8], separator: u8, k: usize) -> &'a [u8]
    ensures { result.now ≡ word_of separator k line.now }
{
    cut(line, nth(line, separator, k))
}

// The octets that a field gives in hex, put in its own place, from its start.
pub fn octets(line: &mut [u8], f: Field) -> Option<Field>
    ensures { (result ≡ octets_of f line.old) × (line.new ≡ with_octets f line.old) }
{
    // Stays: no `get_mut`, since these are the two tests of the definition octets_of (specs/Words), one after the other.
    if f.stop > line.len() || f.start > f.stop {
        return None;
    }
    let n = program_digits::read_octets(&mut line[f.start..f.stop])?;
    Some(Field {
        start: f.start,
        stop: f.start + n,
    })
}

// The same, `-` for none.
pub fn octets_or_none(line: &mut [u8], f: Field) -> Option<Field>
    ensures { (result ≡ or_none f line.old) × (line.new ≡ with_or_none f line.old) }
{
    if cut(line, f) == b"-".as_slice() {
        return Some(Field {
            start: f.start,
            stop: f.start,
        });
    }
    octets(line, f)
}

// The octets of two words that follow each other, `-` for none. What comes before them in the line stays.
#[derive(Clone, Copy)]
pub struct Pair {
    pub first: Field,
    pub second: Field,
}

// Of the word with k others before it and the next: their octets in their places, where both are hex.
pub fn octets_of_two(line: &mut [u8], separator: u8, k: usize) -> Option<Pair>
    requires { k < 8 }
    ensures { Two separator k line.old result line.new }
{
    let f = nth(line, separator, k);
    let g = nth(line, separator, k + 1);
    let first = octets_or_none(line, f);
    let second = octets_or_none(line, g);
    Some(Pair {
        first: first?,
        second: second?,
    })
}
