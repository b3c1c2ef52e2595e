// Elements read (01, "Coding"): tag, length, element and contents, frame. Positions into one slice; lim is where the octets around end.
// Stays: octets, limit and position are three parameters, as the definitions of paper/specs/Elements take them; a struct would be opened in each clause.
#![tactic(auto)]

ghost use Rattle.std.specs.Prelude.{true, false, ◌≡◌, ℕ, ◌+◌, ◌*◌, ◌-◌, ◌%◌, ◌<◌, ◌≤◌, length, unwrap_or, IfSome};
ghost use Rattle.paper.specs.Elements.{tag_more, tag_end, length_at, head_at, ended, contents, element, frame_at};
ghost use Rattle.std.specs.Prelude.{Ok};
ghost use Rattle.reading_elements.specs.Bounds.{LengthIn, HeadIn, ReadingIn, FrameIn, nested};
ghost use Rattle.reading_elements.specs.Short.{Short};
ghost use Rattle.reading_elements.specs.Nested.{frame_of, is_sound, Stands};

use paper::{Frame, Head, Length, Reading};

// An element that is well formed, by its frame; one that is not, by the frame that it has all the same; or no frame.
// Stays: three cases, two with a frame, which `frame_of` and `is_sound` (specs/Nested) tell apart; an Option round a Result would be no plainer.
#[derive(Clone, Copy)]
pub enum Nesting {
    Sound(Frame),
    Broken(Frame),
    Nowhere,
}

// "Long tags have 1 to 4 further octets": past the last of them.
// Stays: `position` over the octets from `at` on would need both ends clamped to them, and `at` added to its answer: no plainer.
fn tag_more(s: &[u8], lim: usize, at: usize) -> Option<usize>
    requires { lim ≤ length s.now }
    ensures is { unwrap_or result 0 ≡ tag_more s.now lim 4 at }
    ensures within { IfSome result (λ e. (at < e) × (e ≤ lim)) }
{
    for p in at..lim.min(at.saturating_add(4)) {
        if s[p] < 128 {
            return Some(p + 1);
        }
    }
    None
}

// Where the tag at a position ends, if it is not malformed.
#[tactic(auto, unfolding(paper::specs::Elements::tag_end, laws::specs::If::if_lt, laws::specs::If::if_eq))]
fn tag_end(s: &[u8], lim: usize, at: usize) -> Option<usize>
    requires { lim ≤ length s.now }
    ensures is { unwrap_or result 0 ≡ tag_end s.now lim at }
    ensures within { IfSome result (λ e. (at < e) × (e ≤ lim)) }
{
    if at >= lim || s[at] == 0 {
        return None;
    }
    if s[at] % 32 != 31 {
        return Some(at + 1);
    }
    let p = at + 1;
    if p >= lim || s[p] < 31 || s[p] == 128 {
        return None;
    }
    tag_more(s, lim, p)
}

// "Length below 128 uses one octet; 81 only for 128 to 255; 82 only for 256 up; 80 (indefinite ..)"
#[tactic(auto, unfolding(paper::specs::Elements::length_at, laws::specs::If::if_lt, laws::specs::If::if_eq))]
pub fn length_at(s: &[u8], lim: usize, at: usize) -> Length
    requires { lim ≤ length s.now }
    ensures is { result ≡ length_at s.now lim at }
    ensures within { LengthIn at lim result }
{
    if at >= lim {
        return Length::Wrong;
    }
    let left = lim - at;
    match s[at] {
        l if l < 0x80 => Length::Given(at + 1, usize::from(l)),
        0x80 => Length::Until(at + 1),
        0x81 if left >= 2 => {
            let n = usize::from(s[at + 1]);
            if n < 128 {
                return Length::Wrong;
            }
            Length::Given(at + 2, n)
        }
        0x82 if left >= 3 => {
            let n = usize::from(u16::from_be_bytes([s[at + 1], s[at + 2]]));
            if n < 256 {
                return Length::Wrong;
            }
            Length::Given(at + 3, n)
        }
        _ => Length::Wrong,
    }
}

// The head of an element with any tag and length; few are long, so `head_at` calls it and stays short itself.
#[inline(never)]
#[tactic(auto, unfolding(paper::specs::Elements::head_at, paper::specs::Elements::head_by, laws::specs::If::if_lt, laws::specs::If::if_eq))]
fn any_head(s: &[u8], lim: usize, at: usize) -> Head
    requires { lim ≤ length s.now }
    ensures is { result ≡ head_at s.now lim at }
    ensures within { HeadIn at lim result }
{
    let Some(p) = tag_end(s, lim, at) else {
        return Head::Bad;
    };
    // Stays: the bit is taken as `constructor` of paper/specs/Elements takes it.
    let constructor = s[at] / 32 % 2 == 1;
    match length_at(s, lim, p) {
        Length::Wrong => Head::Bad,
        Length::Until(b) if constructor => Head::Opens(b),
        Length::Until(_) => Head::Bad,
        Length::Given(b, n) if lim - b < n => Head::Bad,
        Length::Given(b, n) if constructor => Head::Holds(b, b + n),
        Length::Given(b, n) => Head::Whole(b + n),
    }
}

// Whether a tag and a length are of one octet each, by the first octet of either.
fn is_short(tag: u8, length: u8) -> bool
    ensures { result ≡ true → (tag ≡ 0 → ⊥) × (tag % 32 ≡ 31 → ⊥) × (length < 128) }
{
    tag != 0 && tag % 32 != 31 && length < 128
}

#[tactic(auto, unfolding(paper::specs::Elements::head_at, paper::specs::Elements::head_by, paper::specs::Elements::length_at, laws::specs::If::if_lt, laws::specs::If::if_eq))]
fn short_head(s: &[u8], lim: usize, at: usize) -> Head
    requires { (lim ≤ length s.now) × Short s.now lim at }
    ensures { result ≡ head_at s.now lim at }
{
    let n = usize::from(s[at + 1]);
    let b = at + 2;
    if lim - b < n {
        Head::Bad
    } else if s[at] / 32 % 2 == 1 {
        Head::Holds(b, b + n)
    } else {
        Head::Whole(b + n)
    }
}

// The tag and length of the element at a position; most are short.
fn head_at(s: &[u8], lim: usize, at: usize) -> Head
    requires { lim ≤ length s.now }
    ensures is { result ≡ head_at s.now lim at }
    ensures within { HeadIn at lim result }
{
    if at < lim && lim - at >= 2 && is_short(s[at], s[at + 1]) {
        short_head(s, lim, at)
    } else {
        any_head(s, lim, at)
    }
}

// Past the primitive at a position, if one with a short head stands there and is well formed.
fn primitive_end(s: &[u8], left: usize, lim: usize, at: usize) -> Option<usize>
    requires { (at ≤ lim) × (lim ≤ length s.now) }
    ensures is { IfSome result (λ e. Ok e ≡ element s.now left lim at) }
    ensures within { IfSome result (λ e. (at + 1 < e) × (e ≤ lim)) }
{
    if left == 0 || lim - at < 2 || !is_short(s[at], s[at + 1]) {
        return None;
    }
    match short_head(s, lim, at) {
        Head::Whole(e) => Some(e),
        _ => None,
    }
}

// Whether contents end at a position: at their limit, or, where the length is indefinite, at 00 00.
#[tactic(auto, unfolding(paper::specs::Elements::ended, laws::specs::If::if_lt, laws::specs::If::if_eq))]
fn is_end(s: &[u8], indefinite: bool, lim: usize, at: usize) -> bool
    requires { (at ≤ lim) × (lim ≤ length s.now) }
    ensures { result ≡ ended s.now indefinite lim at }
{
    if indefinite {
        lim - at >= 2 && s[at] == 0 && s[at + 1] == 0
    } else {
        at == lim
    }
}

// "An element is well formed if its contents are": the one at a position, with `left` depths left.
#[cycle(contents_element)]
pub fn element(s: &[u8], left: usize, lim: usize, at: usize) -> Reading
    requires { lim ≤ length s.now }
    ensures is { result ≡ element s.now left lim at }
    ensures within { ReadingIn at lim result }
{
    if left == 0 {
        return Err(at);
    }
    match head_at(s, lim, at) {
        Head::Bad => Err(at),
        Head::Whole(e) => Ok(e),
        Head::Holds(b, e) => contents(s, left - 1, false, e, at, b),
        Head::Opens(b) => contents(s, left - 1, true, lim, at, b),
    }
}

// "contents are if each of their elements is": a loop over the elements, so that only depth takes stack.
// Stays: a walk by positions, since an element says where the next one starts.
#[cycle(contents_element)]
fn contents(s: &[u8], left: usize, indefinite: bool, lim: usize, outer: usize, at: usize) -> Reading
    requires { (at ≤ lim) × (lim ≤ length s.now) }
    ensures { (n : ℕ) → lim - at < n → result ≡ contents (element s.now left) s.now indefinite lim outer n at }
{
    let mut p = at;
    while !is_end(s, indefinite, lim, p) {
        if p == lim {
            return Err(outer);
        }
        p = match primitive_end(s, left, lim, p) {
            Some(e) => e,
            None => element(s, left, lim, p)?,
        };
    }
    Ok(if indefinite { p + 2 } else { p })
}

// The frame: "an indefinite 6C or component has its end found when well-formed elements lead up to 00 00".
// Stays: a frame that is none is `Frame::NONE`, since `frame_at` of paper/specs/Elements gives `no_frame`.
#[tactic(auto, unfolding(paper::specs::Elements::frame_at))]
pub fn frame_at(s: &[u8], left: usize, lim: usize, at: usize) -> Frame
    requires { lim ≤ length s.now }
    ensures is { result ≡ frame_at s.now left lim at }
    ensures within { FrameIn at lim result }
{
    match head_at(s, lim, at) {
        Head::Bad => Frame::NONE,
        Head::Whole(e) => Frame {
            from: e,
            to: e,
            stop: e,
        },
        Head::Holds(b, e) => Frame {
            from: b,
            to: e,
            stop: e,
        },
        Head::Opens(b) => match element(s, left, lim, at) {
            Ok(x) => Frame {
                from: b,
                to: x - 2,
                stop: x,
            },
            Err(_) => Frame::NONE,
        },
    }
}

// Frame and reading of an element in one pass.
pub fn nesting_at(s: &[u8], left: usize, lim: usize, at: usize) -> Nesting
    requires { (lim ≤ length s.now) × (0 < left) }
    ensures is { frame_of result ≡ frame_at s.now left lim at }
    ensures within { FrameIn at lim (frame_of result) }
    ensures sound { is_sound result ≡ nested (element s.now left lim at) }
    ensures stands { Stands result }
{
    match head_at(s, lim, at) {
        Head::Bad => Nesting::Nowhere,
        Head::Whole(e) => Nesting::Sound(Frame {
            from: e,
            to: e,
            stop: e,
        }),
        Head::Holds(b, e) => {
            let frame = Frame {
                from: b,
                to: e,
                stop: e,
            };
            match contents(s, left - 1, false, e, at, b) {
                Ok(_) => Nesting::Sound(frame),
                Err(_) => Nesting::Broken(frame),
            }
        }
        Head::Opens(b) => match contents(s, left - 1, true, lim, at, b) {
            Ok(end) => Nesting::Sound(Frame {
                from: b,
                to: end - 2,
                stop: end,
            }),
            Err(_) => Nesting::Nowhere,
        },
    }
}
