// A line of the vectors' form (vectors/README.md) played on one table, and what it gives written in that form.
#![tactic(auto)]

mod asked;
mod call;
mod show;

use program_play::{Lent, Player};

// The vectors' lines, parted by blanks.
pub struct Replay;

impl Player for Replay {
    const SEPARATOR: u8 = b' ';

    fn play(rt: &impl Print, lent: &mut Lent, line: &mut [u8], _number: u64) -> Option<()> {
        call::play(rt, lent, line)
    }
}
