// Plays the calls on standard input, in the form that vectors/README.md gives, on one table, and writes after each what it gives, in
// that form. Comments and the lines that tell what a call gives are passed over, so that a file of vectors may be fed as it is. A line
// that cannot be read, or of more than 16,384 octets, gives its number and `bad`.
#![tactic(auto)]

use paper::{LEAST_ROWS, LEAST_SPACE, TABLE_OCTETS};
use program_play::Lent;
use program_replay::Replay;

fn main(rt: HostRuntime) {
    let mut lent = Lent {
        table: &mut [0; TABLE_OCTETS],
        rows: &mut [0; LEAST_ROWS],
        space: &mut [0; LEAST_SPACE],
    };
    program_play::lines::<Replay>(&rt, &mut lent, &mut [0; 65536], &mut [0; 16384]);
}
