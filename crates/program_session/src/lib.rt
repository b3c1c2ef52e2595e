// A line of 01's "Octets to try" played on one table, and what it gives written.
#![tactic(auto)]

mod call;
mod show;

use program_play::{Lent, Player};

// The lines of 01's "Octets to try", parted by tabs.
pub struct Session;

impl Player for Session {
    const SEPARATOR: u8 = b'\t';

    fn play(rt: &impl Print, lent: &mut Lent, line: &mut [u8], number: u64) -> Option<()> {
        let p = call::play(lent, line)?;
        show::line(rt, number, p, lent);
        Some(())
    }
}
