// A line as a call, by its number of fields and its verb. `None`: a line that cannot be read.
use call_entry::Reply;
use call_pass::Passing;
use call_send::Sending;
use paper::{NO_ID, ROW_UNI};
use program_play::Lent;
use program_words::cut;

// What it gave, and the dialogue that it is about, where there is one to tell of.
#[derive(Clone, Copy)]
pub struct Played {
    pub reply: Reply,
    pub dialogue: Option<u32>,
}

// With the dialogue: "- none, refused or UNI".
// Stays: an answer is a number of Reply, which is the C interface's.
fn about(reply: Reply, dialogue: Option<u32>) -> Played {
    Played {
        reply,
        dialogue: if reply.answer == 0 { dialogue } else { None },
    }
}

fn part<'a>(line: &'a [u8], k: usize) -> &'a [u8] {
    program_words::part(line, b'\t', k)
}

fn service(line: &[u8]) -> Option<u32> {
    program_digits::read_decimal(part(line, 0))
}

fn open(table: &mut [u8], line: &[u8]) -> Option<Played> {
    let r = call_open::open(table, service(line)?);
    Some(about(r, Some(r.dialogue)))
}

fn begin(lent: &mut Lent, line: &[u8]) -> Option<Played> {
    let s = service(line)?;
    let d = program_digits::read_dialogue(part(line, 2))?;
    let r = call_send::send(lent.table, s, d, Sending::ABegin, &[], &[], lent.space);
    Some(about(r, Some(d)))
}

// The dialogue is that of the first row, none in UNI (kind 1).
fn receive(lent: &mut Lent, line: &mut [u8]) -> Option<Played> {
    let s = service(line)?;
    let f = program_words::nth(line, b'\t', 2);
    let m = program_words::octets(line, f)?;
    let r = call_receive::receive(lent.table, s, cut(line, m), lent.rows, lent.space);
    let kind = program_listing::number_at(lent.rows, 0);
    let dialogue = program_listing::number_at(lent.rows, 4);
    let told = r.rows > 0 && kind != ROW_UNI;
    Some(about(r, told.then_some(dialogue)))
}

// The operation and the parameter are octets in the line.
fn invoke(table: &mut [u8], line: &mut [u8]) -> Option<Played> {
    let s = service(line)?;
    let d = program_digits::read_dialogue(part(line, 2))?;
    let id = program_digits::read_id(part(line, 3))?;
    let class = program_digits::read_decimal(part(line, 4))?;
    let given = program_words::octets_of_two(line, b'\t', 5)?;
    let r = call_pass::pass(
        table,
        s,
        d,
        Passing::AnInvoke(id, NO_ID, class),
        cut(line, given.first),
        cut(line, given.second),
    );
    Some(about(r, Some(d)))
}

pub fn play(lent: &mut Lent, line: &mut [u8]) -> Option<Played> {
    match (program_words::separators(line, b'\t'), part(line, 1)) {
        (1, b"open") => open(lent.table, line),
        (2, b"begin") => begin(lent, line),
        (2, b"recv") => receive(lent, line),
        // only the parameter may be `-`
        (6, b"invoke") if part(line, 5) != b"-".as_slice() => invoke(lent.table, line),
        _ => None,
    }
}
