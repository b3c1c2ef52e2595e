// The components of a received message, one after another: each acts on the dialogue's control record and has its row.
#![tactic(auto)]

ghost use Rattle.std.specs.Prelude.{◌≡◌, ◌+◌, ◌-◌, ◌<◌, ◌≤◌, length};
ghost use Rattle.paper.specs.Sizes.{longest_message, most_rejects, least_rows};
ghost use Rattle.paper.specs.Components.{components, next_start};
ghost use Rattle.paper.specs.declared.Control.{Control};
ghost use Rattle.call_receive_rows.specs.Shows.{Steps, Next, Shows};

use dialogue_acts::Told;
use paper::{Component, Control, Invocation, MOST_INVOCATIONS, NO_FAULT, Row};

// One component: what is told of it, its ID and its row, and where the next one starts.
#[derive(Clone, Copy)]
pub struct Stepped {
    pub told: Told,
    pub id: u32,
    pub row: Row,
    pub next: usize,
}

// All of them: the control record after them, and how many rows.
#[derive(Clone, Copy)]
pub struct Shown {
    pub control: Control,
    pub count: usize,
}

// "Later components of the message are discarded": a fault ends the reading.
#[tactic(auto, unfolding(paper::specs::Components::next_start, laws::specs::If::if_eq))]
fn next_start(c: Component, lim: usize) -> usize
    ensures { result ≡ next_start lim c }
{
    if c.fault == NO_FAULT { c.stop } else { lim }
}

// One component, on a dialogue with these invocations and so many waiting rejects.
fn step(
    s: &[u8],
    lim: usize,
    at: usize,
    l: [Invocation; MOST_INVOCATIONS],
    count: u8,
    room: u8,
    me: u32,
) -> Stepped
    requires { (at ≤ lim) × (lim ≤ length s.now) × (lim ≤ 512) }
    ensures is { (c : Control) → l ≡ c.invocations → count ≡ c.count → Steps me room s.now lim at c result }
    ensures within { Next at lim result.next }
    ensures waits { result.told.kind ≡ 13 → count < room }
{
    let p = reading_components::component_at(s, lim, at);
    let told = dialogue_acts::act(l, count, p, room);
    let row = writing_rows::component_row(p, me, at, told.kind, told.problem);
    let next = next_start(p, lim);
    Stepped {
        told,
        id: p.id,
        row,
        next,
    }
}

// Stays: `least_rows ≤ length rows` is a clause: C lends rows of any length, which call_entry::enter tests once.
// Row 0 is the dialogue's; room: how many rejects may wait (8, or 0 where none is stored).
pub fn show(
    s: &[u8],
    from: usize,
    lim: usize,
    control: Control,
    room: u8,
    rows: &mut [u8],
    me: u32,
) -> Shown
    requires { (from ≤ lim) × (lim ≤ length s.now) × (lim ≤ longest_message) × (room ≤ most_rejects) × (least_rows ≤ length rows.old) }
    ensures { Shows me room control rows.old (components s.now lim from) result rows.new }
{
    let mut c = control;
    let mut at = from;
    let mut k: usize = 1;
    // Stays: a walk by positions, since a component says where the next one starts; the row it is shown in goes one up with each.
    loop {
        let l = c.invocations;
        let p = step(s, lim, at, l, c.count, room, me);
        let row = p.row;
        let told = p.told;
        writing_rows::write_row(rows, k, row);
        at = p.next;
        if at >= lim {
            let last = dialogue_acts::changed(c, p.id, told);
            return Shown {
                control: last,
                count: k,
            };
        }
        k += 1;
        if dialogue_acts::is_change(told) {
            c = dialogue_acts::changed(c, p.id, told);
        }
    }
}
