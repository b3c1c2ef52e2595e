// Plays the lines of standard input on one table with guarantees 4 and limits 64 (01, "Octets to try"): service and verb, then what the verb
// takes, parted by tabs. Written for each, likewise: line number, answer, dialogue, its state after, row count, message. A line
// that is none of these, or of more than 1,048,576 octets, gives its number and `bad`.
#![tactic(auto)]

use paper::{LEAST_ROWS, LEAST_SPACE, TABLE_OCTETS};
use program_play::Lent;
use program_session::Session;

// Stays: a function of its own that takes the space of a long line as an array; lent in `main`, as a slice, the prover counts its octets (tried).
fn play(rt: &(impl Print + Input), lent: &mut Lent, line: &mut [u8; 1048576]) {
    program_play::lines::<Session>(rt, lent, &mut [0; 65536], line);
}

fn main(rt: HostRuntime) {
    let mut lent = Lent {
        table: &mut [0; TABLE_OCTETS],
        rows: &mut [0; LEAST_ROWS],
        space: &mut [0; LEAST_SPACE],
    };
    call_open::fresh(lent.table, &[4; 16], &[64; 16]);
    play(&rt, &mut lent, &mut [0; 1048576]);
}
