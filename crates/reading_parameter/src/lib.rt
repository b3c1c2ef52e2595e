// A component's parameter (01, "Rows"): "that run of the received octets themselves, an empty one where there is none or no sound component".
#![tactic(auto)]

ghost use Rattle.std.specs.Prelude.{◌≡◌, ◌+◌, ◌≤◌, length};
ghost use Rattle.paper.specs.Readers.{parameter_of, parameter_at, parameter};

use paper::{Component, NO_FAULT, Run};

// The parameter of a component that was read and should stop at `stop`.
// Stays: a run that is none is `Run::NONE`, since `parameter_of` of paper/specs/Readers gives `no_run`.
#[tactic(auto, unfolding(paper::specs::Readers::parameter_of, laws::specs::If::if_lt, laws::specs::If::if_eq))]
fn parameter_of(stop: usize, c: Component) -> Run
    requires { c.par ≤ c.parstop }
    ensures is { result ≡ parameter_of stop c }
    ensures within { result.start + result.length ≤ c.parstop }
{
    if c.fault == NO_FAULT && c.stop == stop && c.parstop != 0 {
        Run {
            start: c.par,
            length: c.parstop - c.par,
        }
    } else {
        Run::NONE
    }
}

// Where the parameter of the component of `len` octets at `start` lies.
// Stays: start and length are two numbers, as a C host hands them in and `parameter_at` of paper/specs/Readers takes them.
#[tactic(auto, unfolding(paper::specs::Readers::parameter_at, laws::specs::If::if_lt, laws::specs::If::if_eq))]
pub fn parameter_at(s: &[u8], start: usize, len: usize) -> Run
    ensures is { result ≡ parameter_at s.now start len }
    ensures within { result.start + result.length ≤ length s.now }
{
    if start > s.len() || s.len() - start < len {
        return Run::NONE;
    }
    let stop = start + len;
    parameter_of(stop, reading_components::component_at(s, stop, start))
}

// The parameter itself, a part of the message that was lent.
pub fn parameter<'a>(s: &'a [u8], start: usize, len: usize) -> &'a [u8]
    ensures { result.now ≡ parameter s.now start len }
{
    let r = parameter_at(s, start, len);
    &s[r.start..r.start + r.length]
}
