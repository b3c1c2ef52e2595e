// What a line gave, as a line of text.
// Stays: a space and a place in it are two parameters, as in program_text.
ghost use Rattle.std.specs.Prelude.{◌≤◌, length};

use crate::call::Played;
use paper::{
    DIALOGUE_ACTIVE, DIALOGUE_OPEN, DIALOGUE_RECEIVED, DIALOGUE_SENT, PLACE_OCTETS, PLACES, STATE,
};
use program_play::Lent;

fn number(out: &mut [u8], at: usize, n: u64) -> usize
    ensures { result ≤ length out.new }
{
    let a = program_text::put(out, at, b'\t');
    program_digits::decimal(out, a, n)
}

// The state octet of a dialogue's place (docs/TABLE.md), 0 where the place is free.
// Stays: 0 for none, which is what a free place's octet is.
fn state_at(table: &[u8], dialogue: u32) -> u8 {
    let [place, ..] = dialogue.to_be_bytes();
    let at = PLACES + PLACE_OCTETS * usize::from(place) + STATE;
    table.get(at).copied().unwrap_or(0)
}

fn state_word(out: &mut [u8], at: usize, state: u8) -> usize
    requires { at ≤ length out.old }
    ensures { result ≤ length out.new }
{
    let word: &[u8] = match state {
        DIALOGUE_OPEN => b"\topen",
        DIALOGUE_SENT => b"\tsent",
        DIALOGUE_RECEIVED => b"\treceived",
        DIALOGUE_ACTIVE => b"\tactive",
        _ => b"\tidle",
    };
    program_text::word(out, at, word)
}

// The dialogue and its state after.
fn dialogue(out: &mut [u8], at: usize, told: Option<u32>, table: &[u8]) -> usize
    requires { at ≤ length out.old }
    ensures { result ≤ length out.new }
{
    match told {
        Some(d) => {
            let a = program_text::put(out, at, b'\t');
            let b = program_digits::dialogue(out, a, d);
            state_word(out, b, state_at(table, d))
        }
        None => program_text::word(out, at, b"\t-\t-"),
    }
}

fn write(out: &mut [u8], line: u64, p: Played, lent: &Lent) -> usize
    ensures { result ≤ length out.new }
{
    let r = p.reply;
    let a = program_digits::decimal(out, 0, line);
    let b = number(out, a, u64::from(r.answer));
    let c = dialogue(out, b, p.dialogue, lent.table);
    let d = number(out, c, u64::from(r.rows));
    let e = program_text::put(out, d, b'\t');
    let f = program_listing::message(out, e, lent.space, r.length);
    program_text::put(out, f, b'\n')
}

pub fn line(rt: &impl Print, number: u64, p: Played, lent: &Lent) {
    let mut out = [0u8; 1024];
    let n = write(&mut out, number, p, lent);
    program_text::say(rt, &out, n);
}
