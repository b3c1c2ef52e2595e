// The octets of each line of standard input, in hex, read as a message (01, "Coding" and "A received message"). A `#` and what
// follows it is ignored. Written for each, parted by blanks: line number, type, form (sound, dropped, fault-CAUSE, refused),
// originating and destination ID, start and length of the dialogue portion, P-Abort cause. Then a line for each sound component,
// `c TAG START LENGTH ID LINKED PROBLEM PSTART PLENGTH` with the numbers of a row, and for the first syntax fault
// `fault CODE START LENGTH`, the code that of the general problem.
#![tactic(auto)]

mod line;
mod show;

use line::Line;

// Nothing says that the input ends, so the loop counts its turns, up to a number that no run uses up.
fn read_lines(rt: &(impl Print + Input)) {
    let mut buf = [0u8; 4096];
    let mut line = Line::first();
    for _ in 0..u64::MAX {
        let n = program_lines::read(rt, &mut buf);
        if n == 0 {
            break;
        }
        for &x in &buf[..n] {
            line.take(rt, x);
        }
    }
    line.finish(rt);
}

fn main(rt: HostRuntime) {
    read_lines(&rt);
}
