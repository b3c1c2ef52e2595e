// A message read in order (01, "Coding" and "A received message").
// Stays: the octets and what was seen of them are two parameters, as the definitions of paper/specs/Messages take them; five functions ask for a first octet.
#![tactic(auto)]

ghost use Rattle.std.specs.Prelude.{◌≡◌, ◌+◌, ◌-◌, ◌<◌, ◌≤◌, length};
ghost use Rattle.paper.specs.Messages.{id_at, origin_of, past, destination_of, derived, fault_of, sound_of, closes, closing, octet_at, components_by, components_part};
ghost use Rattle.paper.specs.Messages.{abort_part, after_portion, portion_part, in_order, is_dropped, known_type, by_length, message_of};
ghost use Rattle.std.specs.Prelude.{Ok};
ghost use Rattle.paper.specs.declared.Length.TheVariants.{Given, Until};
ghost use Rattle.reading_messages.specs.Bounds.{RunIn, MessageIn};
ghost use Rattle.reading_messages.specs.Steps.{seen};

use paper::{
    ABORT_TAG, BEGIN_TAG, CONTINUE_TAG, DEPTHS, END_TAG, Frame, IS_DROPPED, IS_SOUND, Length,
    Message, NO_PROBLEM, Run, UNI_TAG,
};

// "a component .. is depth 1": the 6C around it is one more.
const DEPTHS_OF_6C: usize = DEPTHS + 1;

// The message so far: whether its outer length is 80, so that 00 00 ends it; its type, and the IDs that are derivable.
#[derive(Clone, Copy)]
struct Seen {
    indefinite: bool,
    tag: u8,
    origin: Run,
    destination: Run,
}

impl Seen {
    // Stays: a number, as `fault_of` of paper/specs/Messages gives it and `fault` of a Message holds it.
    fn fault(self, cause: u8) -> Message
        ensures { result ≡ fault_of (seen self) cause }
    {
        Message {
            tag: self.tag,
            fault: cause,
            origin: self.origin,
            destination: self.destination,
            portion: Run::NONE,
            from: 0,
            to: 0,
            cause: NO_PROBLEM,
        }
    }

    fn sound(self, portion: Run, from: usize, to: usize, cause: u32) -> Message
        ensures { result ≡ sound_of (seen self) portion from to cause }
    {
        Message {
            tag: self.tag,
            fault: IS_SOUND,
            origin: self.origin,
            destination: self.destination,
            portion,
            from,
            to,
            cause,
        }
    }

    // The message m, if it ends at p.
    #[tactic(auto, unfolding(laws::specs::If::if_b))]
    fn closing(self, s: &[u8], p: usize, m: Message) -> Message
        ensures { result ≡ closing s.now self.indefinite p (seen self) m }
    {
        if closes(s, self.indefinite, p) {
            m
        } else {
            self.fault(2)
        }
    }
}

// An ID at a position, "a length 1 to 4 and that many octets inside the message".
// Stays: a run that is none is `Run::NONE`, since `id_at` of paper/specs/Messages gives `no_run`.
#[tactic(auto, unfolding(paper::specs::Messages::id_at, laws::specs::If::if_lt, laws::specs::If::if_eq, laws::specs::If::if_b))]
fn id_at(s: &[u8], tag: u8, at: usize) -> Run
    ensures is { result ≡ id_at s.now tag at }
    ensures within { RunIn (length s.now) result }
{
    let n = s.len();
    if at > n || n - at < 3 || s[at] != tag {
        return Run::NONE;
    }
    let length = usize::from(s[at + 1]);
    if length < 1 || length > 4 || n - at - 2 < length {
        return Run::NONE;
    }
    Run {
        start: at + 2,
        length,
    }
}

// "derivable when the contents begin with 48 ..; never in 61, 64, 67."
#[tactic(auto, unfolding(paper::specs::Messages::origin_of, laws::specs::If::if_lt, laws::specs::If::if_eq, laws::specs::If::if_b))]
fn origin_of(s: &[u8], t: u8, b: usize) -> Run
    ensures is { result ≡ origin_of s.now t b }
    ensures within { RunIn (length s.now) result }
{
    match t {
        UNI_TAG | END_TAG | ABORT_TAG => Run::NONE,
        _ => id_at(s, 0x48, b),
    }
}

// Where the octets after a run begin.
#[tactic(auto, unfolding(laws::specs::If::if_lt, laws::specs::If::if_eq, laws::specs::If::if_b))]
fn past(r: Run, b: usize) -> usize
    requires { r.start + r.length < 18446744073709551616 }
    ensures { result ≡ past r b }
{
    // Stays: a run that is none has length 0, as `no_run` of paper/specs/Messages has it.
    if r.length == 0 { b } else { r.start + r.length }
}

// "The destination ID likewise, with 49 after it (first in 64 and 67; never in 61, 62)."
#[tactic(auto, unfolding(paper::specs::Messages::destination_of, laws::specs::If::if_lt, laws::specs::If::if_eq, laws::specs::If::if_b))]
fn destination_of(s: &[u8], t: u8, b: usize, origin: Run) -> Run
    requires { RunIn (length s.now) origin }
    ensures is { result ≡ destination_of s.now t b origin }
    ensures within { RunIn (length s.now) result }
{
    match t {
        UNI_TAG | BEGIN_TAG => Run::NONE,
        END_TAG | ABORT_TAG => id_at(s, 0x49, b),
        _ if origin.length == 0 => Run::NONE,
        _ => id_at(s, 0x49, past(origin, b)),
    }
}

#[tactic(auto, unfolding(paper::specs::Messages::derived, laws::specs::If::if_lt, laws::specs::If::if_eq, laws::specs::If::if_b))]
fn derived(s: &[u8], indefinite: bool, b: usize) -> Seen
    requires { 0 < length s.now }
    ensures is { seen result ≡ derived s.now b }
    ensures form { result.indefinite ≡ indefinite }
    ensures within { (RunIn (length s.now) result.origin) × (RunIn (length s.now) result.destination) }
{
    let tag = s[0];
    let origin = origin_of(s, tag, b);
    Seen {
        indefinite,
        tag,
        origin,
        destination: destination_of(s, tag, b, origin),
    }
}

// The end of the message: no octet left, or 00 00 and then none.
#[tactic(auto, unfolding(paper::specs::Messages::closes, laws::specs::If::if_lt, laws::specs::If::if_eq, laws::specs::If::if_b))]
fn closes(s: &[u8], indefinite: bool, p: usize) -> bool
    ensures { result ≡ closes s.now indefinite p }
{
    let n = s.len();
    if indefinite {
        n >= 2 && p == n - 2 && s[p] == 0 && s[p + 1] == 0
    } else {
        p == n
    }
}

// The octet at a position inside the message, 0 past its end: no tag is 0.
// Stays: 0 for none, as `octet_at` of paper/specs/Messages gives it.
// Stays: reading_components' tag_at is of another definition, with an end of its own; this crate doesn't stand on that one.
#[tactic(auto, unfolding(paper::specs::Messages::octet_at, laws::specs::If::if_lt, laws::specs::If::if_eq, laws::specs::If::if_b))]
fn octet_at(s: &[u8], p: usize) -> u8
    ensures is { result ≡ octet_at s.now p }
    ensures within { 0 < result → p < length s.now }
{
    if p < s.len() { s[p] } else { 0 }
}

// "end of 6C not found" is a fault.
#[tactic(auto, unfolding(paper::specs::Messages::components_by, laws::specs::If::if_lt, laws::specs::If::if_eq, laws::specs::If::if_b))]
fn components_by(s: &[u8], d: Seen, portion: Run, f: Frame) -> Message
    ensures { result ≡ components_by s.now d.indefinite (seen d) portion f }
{
    // Stays: a frame that is none has stop 0, as `no_frame` of paper/specs/Elements has it.
    if f.stop == 0 {
        return d.fault(2);
    }
    let m = d.sound(portion, f.from, f.to, NO_PROBLEM);
    d.closing(s, f.stop, m)
}

// "then 6C components, optional but in Unidirectional needed".
#[tactic(auto, unfolding(paper::specs::Messages::components_part, laws::specs::If::if_lt, laws::specs::If::if_eq, laws::specs::If::if_b))]
fn components_part(s: &[u8], d: Seen, portion: Run, p: usize) -> Message
    ensures { result ≡ components_part s.now d.indefinite (seen d) portion p }
{
    if octet_at(s, p) == 0x6C {
        let f = reading_elements::frame_at(s, DEPTHS_OF_6C, s.len(), p);
        return components_by(s, d, portion, f);
    }
    if d.tag == UNI_TAG {
        return d.fault(2);
    }
    let m = d.sound(portion, 0, 0, NO_PROBLEM);
    d.closing(s, p, m)
}

// "Abort has, after 49, nothing, 4A 01 with 0 to 4, or 6B."
#[tactic(auto, unfolding(paper::specs::Messages::abort_part, laws::specs::If::if_lt, laws::specs::If::if_eq, laws::specs::If::if_b))]
fn abort_part(s: &[u8], d: Seen, p: usize) -> Message
    ensures { result ≡ abort_part s.now d.indefinite (seen d) p }
{
    if octet_at(s, p) != 0x4A {
        let m = d.sound(Run::NONE, 0, 0, NO_PROBLEM);
        return d.closing(s, p, m);
    }
    if octet_at(s, p + 1) != 1 || s.len() - p < 3 || s[p + 2] >= 5 {
        return d.fault(2);
    }
    let m = d.sound(Run::NONE, 0, 0, u32::from(s[p + 2]));
    d.closing(s, p + 3, m)
}

// After a dialogue portion from p to x: nothing more in an Abort.
#[tactic(auto, unfolding(laws::specs::If::if_lt, laws::specs::If::if_eq, laws::specs::If::if_b))]
fn after_portion(s: &[u8], d: Seen, p: usize, x: usize) -> Message
    requires { p ≤ x }
    ensures { result ≡ after_portion s.now d.indefinite (seen d) p (Ok x) }
{
    let portion = Run {
        start: p,
        length: x - p,
    };
    if d.tag == ABORT_TAG {
        let m = d.sound(portion, 0, 0, NO_PROBLEM);
        return d.closing(s, x, m);
    }
    components_part(s, d, portion, x)
}

// "then 6B dialogue portion, optional": one well-formed element.
#[tactic(auto, unfolding(paper::specs::Messages::portion_part, laws::specs::If::if_lt, laws::specs::If::if_eq, laws::specs::If::if_b))]
fn portion_part(s: &[u8], d: Seen, p: usize) -> Message
    ensures { result ≡ portion_part s.now d.indefinite (seen d) p }
{
    if octet_at(s, p) == 0x6B {
        return match reading_elements::element(s, DEPTHS, s.len(), p) {
            Ok(x) => after_portion(s, d, p, x),
            Err(_) => d.fault(2),
        };
    }
    if d.tag == ABORT_TAG {
        abort_part(s, d, p)
    } else {
        components_part(s, d, Run::NONE, p)
    }
}

// "In order: 48 originating ID (Begin, Continue), 49 destination ID (End, Continue, Abort), each 1 to 4 octets".
#[tactic(auto, unfolding(paper::specs::Messages::in_order, laws::specs::If::if_lt, laws::specs::If::if_eq, laws::specs::If::if_b))]
fn in_order(s: &[u8], b: usize, d: Seen) -> Message
    requires { (RunIn (length s.now) d.origin) × (RunIn (length s.now) d.destination) }
    ensures { result ≡ in_order s.now d.indefinite b (seen d) }
{
    let id = match d.tag {
        UNI_TAG => return portion_part(s, d, b),
        BEGIN_TAG => d.origin,
        _ => d.destination,
    };
    // Stays: a run that is none has length 0, as `no_run` of paper/specs/Messages has it.
    if id.length == 0 {
        return d.fault(2);
    }
    portion_part(s, d, past(id, b))
}

#[tactic(auto, unfolding(paper::specs::Messages::known_type, laws::specs::If::if_lt, laws::specs::If::if_eq, laws::specs::If::if_b))]
fn known_type(t: u8) -> bool
    ensures { result ≡ known_type t }
{
    matches!(t, UNI_TAG | BEGIN_TAG | END_TAG | CONTINUE_TAG | ABORT_TAG)
}

// One that is dropped for its form.
fn dropped(s: &[u8]) -> Message
    requires { 0 < length s.now }
    ensures { result ≡ fault_of (derived s.now 0) is_dropped }
{
    derived(s, false, 0).fault(IS_DROPPED)
}

// A definite one: "Octets after the outer element are a frame fault", as is an element that goes past the message.
#[tactic(auto, unfolding(paper::specs::Messages::by_length, laws::specs::If::if_lt, laws::specs::If::if_eq, laws::specs::If::if_b))]
fn by_given(s: &[u8], b: usize, n: usize) -> Message
    requires { 0 < length s.now }
    ensures { result ≡ by_length s.now (Given b n) }
{
    let d = derived(s, false, b);
    if !known_type(d.tag) {
        return d.fault(0);
    }
    if s.len() < b || s.len() - b != n {
        return d.fault(2);
    }
    in_order(s, b, d)
}

#[tactic(auto, unfolding(paper::specs::Messages::by_length, laws::specs::If::if_lt, laws::specs::If::if_eq, laws::specs::If::if_b))]
fn by_until(s: &[u8], b: usize) -> Message
    requires { 0 < length s.now }
    ensures { result ≡ by_length s.now (Until b) }
{
    if s[0] / 32 % 2 != 1 {
        return dropped(s);
    }
    let d = derived(s, true, b);
    if known_type(d.tag) {
        in_order(s, b, d)
    } else {
        d.fault(0)
    }
}

// "A long outer tag, or an outer length missing or in none of the four forms: dropped (ruling)."
pub fn message_of(s: &[u8]) -> Message
    requires { 0 < length s.now }
    ensures is { result ≡ message_of s.now }
    ensures within { MessageIn (length s.now) result }
{
    if s[0] % 32 == 31 {
        return dropped(s);
    }
    match reading_elements::length_at(s, s.len(), 1) {
        Length::Wrong => dropped(s),
        Length::Until(b) => by_until(s, b),
        Length::Given(b, n) => by_given(s, b, n),
    }
}
