// The lines of standard input played on one table. One loop, over whose lines they are.
#![tactic(auto)]

// What the calls are lent: the table, the space of the rows and that of a message.
#[derive(Drop)]
pub struct Lent<'a> {
    pub table: &'a mut [u8],
    pub rows: &'a mut [u8],
    pub space: &'a mut [u8],
}

// Whose lines are played: what parts their words, and what is done with a line, `None` where it cannot be read.
pub trait Player {
    const SEPARATOR: u8;

    fn play(rt: &impl Print, lent: &mut Lent, line: &mut [u8], number: u64) -> Option<()>;
}

// A line that is longer than its space cannot be read. Nothing says that the input ends, so the loop counts its turns, up to a number
// that no run uses up.
pub fn lines<P: Player>(
    rt: &(impl Print + Input),
    lent: &mut Lent,
    buf: &mut [u8],
    line: &mut [u8],
) {
    let mut input = program_lines::start();
    for _ in 0..u64::MAX {
        let Some(l) = program_lines::next(rt, buf, line, &mut input) else {
            break;
        };
        let played = match l.count {
            Some(n) => P::play(rt, lent, &mut line[..n], l.number),
            None => None,
        };
        if played.is_none() {
            program_lines::bad(rt, l.number, P::SEPARATOR);
        }
    }
}
