// One component read at a position of the message (01, "Coding" and, for the faults, the end of "Invocation states").
// t is its tag, id its invoke ID, x where it stops; e is where its contents, or those of a 30 in it, end.
// Stays: octets, tag, ID, ends and position are their own parameters, as the definitions of paper/specs/Components take them; a struct would be opened in each clause.
#![tactic(auto)]

ghost use Rattle.std.specs.Prelude.{◌≡◌, ℕ, ◌+◌, ◌*◌, ◌-◌, ◌<◌, ◌≤◌, length, unwrap_or, IfSome};
ghost use Rattle.paper.specs.Problems.{no_problem};
ghost use Rattle.paper.specs.Components.{known_tag, faulty, no_id, unrecognized, single, some_end, code_end, frame_ends, last_piece, invoke_pieces, result_both, result_pieces};
ghost use Rattle.paper.specs.Components.{problem_at, tag81, reject_pieces, null_pieces, pieces_after, pieces, read_problem, badly_structured, tag_at, component_at};
ghost use Rattle.reading_components.specs.Bounds.{ComponentIn};

use paper::{
    BADLY_STRUCTURED, Component, DEPTHS, DEPTHS_FROM_2, DEPTHS_FROM_3, ERROR_TAG, Frame,
    INVOKE_TAG, LAST_TAG, Length, MISTYPED, NO_FAULT, NO_ID, NO_PROBLEM, NOT_LAST_TAG, REJECT_TAG,
    SOME_INVOKE_PROBLEM, UNRECOGNIZED,
};
use reading_elements::Nesting;

// A sound component without IDs, problem and parameter; what one has beside its fault is written over it.
const PLAIN: Component = Component {
    tag: 0,
    id: NO_ID,
    linked: NO_ID,
    problem: NO_PROBLEM,
    fault: NO_FAULT,
    stop: 0,
    par: 0,
    parstop: 0,
};

#[tactic(auto, unfolding(paper::specs::Components::known_tag, laws::specs::If::if_lt, laws::specs::If::if_eq))]
fn known_tag(t: u8) -> bool
    ensures { result ≡ known_tag t }
{
    matches!(
        t,
        INVOKE_TAG | LAST_TAG | ERROR_TAG | REJECT_TAG | NOT_LAST_TAG
    )
}

// "Invoke ID 02 01, linked 80 01": the octet of an element `tag 01 x`.
#[tactic(auto, unfolding(paper::specs::Components::single, laws::specs::If::if_lt, laws::specs::If::if_eq))]
pub fn single(s: &[u8], tag: u8, e: usize, p: usize) -> Option<u32>
    requires { e ≤ length s.now }
    ensures is { unwrap_or result no_id ≡ single s.now tag e p }
    ensures within { IfSome result (λ octet. (p + 3 ≤ e) × (octet < 256)) }
{
    if e >= p && e - p >= 3 && s[p] == tag && s[p + 1] == 1 {
        Some(u32::from(s[p + 2]))
    } else {
        None
    }
}

// Past an element of at least 1 octet inside e, by its length.
#[tactic(auto, unfolding(paper::specs::Components::some_end, laws::specs::If::if_lt, laws::specs::If::if_eq))]
fn some_end(e: usize, l: Length) -> Option<usize>
    ensures is { unwrap_or result 0 ≡ some_end e l }
    ensures some { IfSome result (λ q. 0 < q) }
{
    match l {
        Length::Given(b, n) if n >= 1 && e >= b && e - b >= n => Some(b + n),
        _ => None,
    }
}

// "operation or error 02 with 1 to 4 octets or 06 with at least 1, not examined": where the one at p ends.
#[tactic(auto, unfolding(paper::specs::Components::code_end, laws::specs::If::if_lt, laws::specs::If::if_eq))]
pub fn code_end(s: &[u8], e: usize, p: usize) -> Option<usize>
    requires { e ≤ length s.now }
    ensures is { unwrap_or result 0 ≡ code_end s.now e p }
    ensures some { IfSome result (λ q. 0 < q) }
{
    if p >= e {
        return None;
    }
    match s[p] {
        2 if e - p < 2 || s[p + 1] > 4 => None,
        2 | 6 => some_end(e, reading_elements::length_at(s, e, p + 1)),
        _ => None,
    }
}

// "A parameter is one element": the frame of the one at p ends at e.
fn frame_ends(s: &[u8], left: usize, e: usize, p: usize) -> bool
    requires { e ≤ length s.now }
    ensures { result ≡ frame_ends s.now left e p }
{
    reading_elements::frame_at(s, left, e, p).stop == e
}

// An operation or error at p: after it nothing, or a parameter and nothing more.
// Stays: these are the parameters of `last_piece` in paper/specs/Components; a struct of them would be taken apart in its clause.
#[tactic(auto, unfolding(paper::specs::Components::last_piece, laws::specs::If::if_lt, laws::specs::If::if_eq, laws::specs::If::if_b))]
fn last_piece(s: &[u8], t: u8, id: u32, linked: u32, x: usize, e: usize, p: usize) -> Component
    requires { e ≤ length s.now }
    ensures { result ≡ last_piece s.now t id linked x e (code_end s.now e p) }
{
    let read = Component {
        tag: t,
        id,
        stop: x,
        ..PLAIN
    };
    match code_end(s, e, p) {
        Some(q) if q == e => Component { linked, ..read },
        Some(q) if frame_ends(s, DEPTHS_FROM_2, e, q) => Component {
            linked,
            par: q,
            parstop: e,
            ..read
        },
        _ => Component {
            fault: MISTYPED,
            ..read
        },
    }
}

// The linked ID stands after the invoke ID, at p; the operation after it.
#[tactic(auto, unfolding(paper::specs::Components::invoke_pieces, laws::specs::If::if_lt, laws::specs::If::if_eq))]
fn invoke_pieces(s: &[u8], id: u32, x: usize, e: usize, p: usize) -> Component
    requires { e ≤ length s.now }
    ensures { result ≡ invoke_pieces s.now id x e p }
{
    match single(s, 0x80, e, p) {
        None => last_piece(s, INVOKE_TAG, id, NO_ID, x, e, p),
        Some(linked) => last_piece(s, INVOKE_TAG, id, linked, x, e, p + 3),
    }
}

// In a 30, which stands in f: operation and parameter, both.
#[tactic(auto, unfolding(paper::specs::Components::result_both, laws::specs::If::if_lt, laws::specs::If::if_eq, laws::specs::If::if_b))]
fn result_both(s: &[u8], t: u8, id: u32, x: usize, f: Frame) -> Component
    requires { f.to ≤ length s.now }
    ensures { result ≡ result_both s.now t id x f.to (code_end s.now f.to f.from) }
{
    let read = Component {
        tag: t,
        id,
        stop: x,
        ..PLAIN
    };
    match code_end(s, f.to, f.from) {
        Some(q) if frame_ends(s, DEPTHS_FROM_3, f.to, q) => Component {
            par: q,
            parstop: f.to,
            ..read
        },
        _ => Component {
            fault: MISTYPED,
            ..read
        },
    }
}

// "result 30 holding operation and parameter"; "a result lacks the whole 30 then".
#[tactic(auto, unfolding(paper::specs::Components::result_pieces, laws::specs::If::if_lt, laws::specs::If::if_eq, laws::specs::If::if_b))]
fn result_pieces(s: &[u8], t: u8, id: u32, x: usize, e: usize, p: usize) -> Component
    requires { (p ≤ e) × (e ≤ length s.now) }
    ensures { result ≡ result_pieces s.now t id x e p }
{
    let read = Component {
        tag: t,
        id,
        stop: x,
        ..PLAIN
    };
    if p == e {
        return read;
    }
    if s[p] == 0x30 {
        let f = reading_elements::frame_at(s, DEPTHS_FROM_2, e, p);
        if f.stop == e {
            return result_both(s, t, id, x, f);
        }
    }
    Component {
        fault: MISTYPED,
        ..read
    }
}

// "80 general, 81 invoke, 82 result, 83 error, length 1", with nothing after it; "other codes are a syntax error".
#[tactic(auto, unfolding(paper::specs::Components::problem_at, laws::specs::If::if_lt, laws::specs::If::if_eq))]
fn problem_at(s: &[u8], e: usize, p: usize) -> Option<u32>
    requires { (p ≤ e) × (e ≤ length s.now) }
    ensures is { unwrap_or result no_problem ≡ problem_at s.now e p }
    ensures some { IfSome result (λ n. n < no_problem) }
{
    if e - p != 3 || s[p] < 0x80 || s[p + 1] != 1 {
        return None;
    }
    let kind = u32::from(s[p]) - 0x80;
    let code = u32::from(s[p + 2]);
    reading_problems::sender(kind, code)?;
    // Stays: put together as `problem` of paper/specs/Problems does it.
    Some(kind * 256 + code)
}

// A faulty reject "returns one to Idle only if ID and tag 81 can be read": the tag after the ID, at p.
// Stays: a number with 65,535 for none, as `tag81` of paper/specs/Components gives it and `problem` of a Component holds it.
#[tactic(auto, unfolding(paper::specs::Components::tag81, laws::specs::If::if_lt, laws::specs::If::if_eq))]
fn tag_81(s: &[u8], id: u32, e: usize, p: usize) -> u32
    requires { e ≤ length s.now }
    ensures { result ≡ tag81 s.now id e p }
{
    if id != NO_ID && p < e && s[p] == 0x81 {
        SOME_INVOKE_PROBLEM
    } else {
        NO_PROBLEM
    }
}

#[tactic(auto, unfolding(paper::specs::Components::reject_pieces, laws::specs::If::if_lt, laws::specs::If::if_eq))]
fn reject_pieces(s: &[u8], id: u32, x: usize, e: usize, p: usize) -> Component
    requires { (p ≤ e) × (e ≤ length s.now) }
    ensures { result ≡ reject_pieces s.now id x e p }
{
    let read = Component {
        tag: REJECT_TAG,
        id,
        stop: x,
        ..PLAIN
    };
    match problem_at(s, e, p) {
        Some(problem) => Component { problem, ..read },
        None => Component {
            problem: tag_81(s, id, e, p),
            fault: MISTYPED,
            ..read
        },
    }
}

// A reject without an ID: 05 00 first.
#[tactic(auto, unfolding(paper::specs::Components::null_pieces, laws::specs::If::if_lt, laws::specs::If::if_eq))]
fn null_pieces(s: &[u8], x: usize, e: usize, b: usize) -> Component
    requires { e ≤ length s.now }
    ensures { result ≡ null_pieces s.now x e b }
{
    if e >= b && e - b >= 2 && s[b] == 5 && s[b + 1] == 0 {
        reject_pieces(s, NO_ID, x, e, b + 2)
    } else {
        Component {
            tag: REJECT_TAG,
            fault: MISTYPED,
            stop: x,
            ..PLAIN
        }
    }
}

// The pieces after an invoke ID, by the tag.
#[tactic(auto, unfolding(paper::specs::Components::pieces_after, laws::specs::If::if_lt, laws::specs::If::if_eq))]
fn pieces_after(s: &[u8], t: u8, id: u32, x: usize, e: usize, p: usize) -> Component
    requires { (p ≤ e) × (e ≤ length s.now) }
    ensures { result ≡ pieces_after s.now t id x e p }
{
    match t {
        INVOKE_TAG => invoke_pieces(s, id, x, e, p),
        ERROR_TAG => last_piece(s, t, id, NO_ID, x, e, p),
        REJECT_TAG => reject_pieces(s, id, x, e, p),
        _ => result_pieces(s, t, id, x, e, p),
    }
}

#[tactic(auto, unfolding(paper::specs::Components::pieces, laws::specs::If::if_lt, laws::specs::If::if_eq))]
fn pieces(s: &[u8], t: u8, x: usize, e: usize, b: usize) -> Component
    requires { e ≤ length s.now }
    ensures { result ≡ pieces s.now t x e b }
{
    match single(s, 2, e, b) {
        Some(id) => pieces_after(s, t, id, x, e, b + 3),
        None if t == REJECT_TAG => null_pieces(s, x, e, b),
        None => Component {
            tag: t,
            fault: MISTYPED,
            stop: x,
            ..PLAIN
        },
    }
}

// One with bad nesting, with its ID; of a reject the tag after it too.
#[tactic(auto, unfolding(paper::specs::Components::read_problem, laws::specs::If::if_lt, laws::specs::If::if_eq))]
fn misnested(s: &[u8], t: u8, f: Frame) -> Component
    requires { (f.from ≤ f.to) × (f.to ≤ length s.now) }
    ensures { result ≡ faulty t (single s.now 2 f.to f.from) (read_problem s.now t f.to f.from) badly_structured f.stop }
{
    let id = single(s, 2, f.to, f.from).unwrap_or(NO_ID);
    let problem = if t == REJECT_TAG {
        tag_81(s, id, f.to, f.from + 3)
    } else {
        NO_PROBLEM
    };
    Component {
        tag: t,
        id,
        problem,
        fault: BADLY_STRUCTURED,
        stop: f.stop,
        ..PLAIN
    }
}

// "unknown tag 0", with its ID.
fn unrecognized(s: &[u8], t: u8, f: Frame) -> Component
    requires { f.to ≤ length s.now }
    ensures { result ≡ faulty t (single s.now 2 f.to f.from) no_problem unrecognized f.stop }
{
    Component {
        tag: t,
        id: single(s, 2, f.to, f.from).unwrap_or(NO_ID),
        fault: UNRECOGNIZED,
        stop: f.stop,
        ..PLAIN
    }
}

// The first octet at a position, 0 where there is none.
// Stays: 0 for none, as `tag_at` of paper/specs/Components gives it: no tag is 0.
#[tactic(auto, unfolding(paper::specs::Components::tag_at, laws::specs::If::if_lt, laws::specs::If::if_eq))]
pub fn tag_at(s: &[u8], lim: usize, at: usize) -> u8
    requires { lim ≤ length s.now }
    ensures { result ≡ tag_at s.now lim at }
{
    if at < lim { s[at] } else { 0 }
}

// The component at a position of a 6C that ends at lim: "unknown tag 0; bad nesting 2; wrong, missing or extra piece 1. The ID is used
// if the first piece is 02 01".
pub fn component_at(s: &[u8], lim: usize, at: usize) -> Component
    requires { lim ≤ length s.now }
    ensures is { result ≡ component_at s.now lim at }
    ensures within { ComponentIn (at + 5) lim result }
{
    let t = tag_at(s, lim, at);
    match reading_elements::nesting_at(s, DEPTHS, lim, at) {
        Nesting::Nowhere => Component {
            tag: t,
            fault: BADLY_STRUCTURED,
            ..PLAIN
        },
        Nesting::Sound(f) if known_tag(t) => pieces(s, t, f.stop, f.to, f.from),
        Nesting::Broken(f) if known_tag(t) => misnested(s, t, f),
        Nesting::Sound(f) => unrecognized(s, t, f),
        Nesting::Broken(f) => unrecognized(s, t, f),
    }
}
