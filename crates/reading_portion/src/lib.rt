// A dialogue portion read (02 a; 004, 4.2.3). Positions into the portion's own octets l; e is where the octets around end.
// Stays: octets, end or frame, and what is read so far are their own parameters, as the definitions of paper/specs/Portions take them; a struct would be opened in each clause.
#![tactic(auto)]

ghost use Rattle.std.specs.Prelude.{true, ◌≡◌, ◌+◌, ◌-◌, ◌<◌, ◌≤◌, length, unwrap_or, IfSome};
ghost use Rattle.reading_elements.specs.Bounds.{FrameIn};
ghost use Rattle.paper.specs.Components.{no_id};
ghost use Rattle.paper.specs.Portions.{Piece, structured, unstructured, aarq, aare, abrt, audt, forms};
ghost use Rattle.paper.specs.Portions.{tagged, only, stands_at, value_in, goes_to, with_diagnostic, piece, unread, all_pieces, external, in_form, read_by, portion_of};
ghost use Rattle.paper.specs.Portions.{run_from, from_start, portion_at, eight, portion_row};
ghost use Rattle.paper.specs.Writing.{tlv};
ghost use Rattle.reading_portion.specs.Steps.{pdu_by};
ghost use Rattle.reading_portion.specs.Bounds.{RunIn, PortionIn};

use paper::{
    DEPTHS, DEPTHS_FROM_2, DEPTHS_FROM_3, DEPTHS_FROM_4, DEPTHS_FROM_5, DEPTHS_FROM_6, Frame, Pdu,
    PduKind, Portion, Row, Run,
};

// "65,535 none", of a result, a diagnostic or a source.
const NO_VALUE: u32 = 65535;

// The kinds beside those of the four PDUs, as in a row.
// Stays: numbers, as `portion_row` of paper/specs/Portions gives them to a row.
const ABSENT: u32 = 0;

const OPAQUE: u32 = 1;

// The element at p, if it is of that tag, with `left` depths to go.
// Stays: a frame that is none is `Frame::NONE`, since `tagged` of paper/specs/Portions gives `no_frame`.
#[tactic(auto, unfolding(paper::specs::Portions::tagged, laws::specs::If::if_lt, laws::specs::If::if_eq))]
fn tagged(l: &[u8], left: usize, tag: u8, e: usize, p: usize) -> Frame
    requires { e ≤ length l.now }
    ensures is { result ≡ tagged l.now left tag e p }
    ensures within { FrameIn p e result }
{
    if reading_components::tag_at(l, e, p) == tag {
        reading_elements::frame_at(l, left, e, p)
    } else {
        Frame::NONE
    }
}

// And nothing after it.
#[tactic(auto, unfolding(paper::specs::Portions::only, laws::specs::If::if_lt, laws::specs::If::if_eq))]
fn only(l: &[u8], left: usize, tag: u8, e: usize, p: usize) -> Frame
    requires { e ≤ length l.now }
    ensures is { result ≡ only l.now left tag e p }
    ensures within { FrameIn p e result }
{
    let f = tagged(l, left, tag, e, p);
    if f.stop == e { f } else { Frame::NONE }
}

// Whether the octets v stand from p on.
fn stands(l: &[u8], e: usize, p: usize, v: &[u8]) -> bool
    requires { e ≤ length l.now }
    ensures is { result ≡ stands_at l.now e p v.now }
    ensures within { result ≡ true → 0 < length v.now → p + length v.now ≤ e }
{
    l[p.min(e)..e].starts_with(v)
}

// `02 01` with a value of at most so much, and nothing after it.
#[tactic(auto, unfolding(paper::specs::Portions::value_in, laws::specs::If::if_lt, laws::specs::If::if_eq))]
fn value_in(l: &[u8], most: u32, f: Frame) -> Option<u32>
    requires { (f.from ≤ f.to) × (f.to ≤ length l.now) }
    ensures is { unwrap_or result no_id ≡ value_in l.now most f }
    ensures within { IfSome result (λ v. v < 256) }
{
    if f.to - f.from != 3 {
        return None;
    }
    match reading_components::single(l, 2, f.to, f.from) {
        Some(v) if v <= most => Some(v),
        _ => None,
    }
}

// What is read so far, with the next piece at another place; 0: a piece is wrong.
// Stays: 0 for a wrong piece, as `piece` of paper/specs/Portions gives it and `at` of a Pdu holds it.
fn goes_to(w: Pdu, at: usize) -> Pdu
    ensures { result ≡ goes_to w at }
{
    Pdu { at, ..w }
}

// "a protocol version before the name .. is stepped over"
#[tactic(auto, unfolding(paper::specs::Portions::piece, laws::specs::If::if_lt, laws::specs::If::if_eq))]
fn version_at(l: &[u8], e: usize, w: Pdu) -> Pdu
    requires { e ≤ length l.now }
    ensures { result ≡ piece l.now e w Piece.Version }
{
    if reading_components::tag_at(l, e, w.at) != 0x80 {
        return w;
    }
    let f = reading_elements::frame_at(l, DEPTHS_FROM_5, e, w.at);
    goes_to(w, f.stop)
}

// The A1 holds the name, a 06 element of at least 1 octet.
#[tactic(auto, unfolding(paper::specs::Portions::piece, paper::specs::Portions::name_in, paper::specs::Components::tag_at, laws::specs::If::if_lt, laws::specs::If::if_eq))]
fn name_at(l: &[u8], e: usize, w: Pdu) -> Pdu
    requires { e ≤ length l.now }
    ensures { result ≡ piece l.now e w Piece.Name }
{
    let f = tagged(l, DEPTHS_FROM_5, 0xA1, e, w.at);
    if reading_components::tag_at(l, f.to, f.from) != 6 {
        return goes_to(w, 0);
    }
    match reading_components::code_end(l, f.to, f.from) {
        Some(end) if end == f.to => Pdu {
            at: f.stop,
            name: run_of(f.from, f.to),
            ..w
        },
        _ => goes_to(w, 0),
    }
}

// The A2 holds the result, 0 or 1.
#[tactic(auto, unfolding(paper::specs::Portions::piece, paper::specs::Portions::result_in, laws::specs::If::if_lt, laws::specs::If::if_eq))]
fn result_at(l: &[u8], e: usize, w: Pdu) -> Pdu
    requires { e ≤ length l.now }
    ensures { result ≡ piece l.now e w Piece.Result }
{
    let f = tagged(l, DEPTHS_FROM_5, 0xA2, e, w.at);
    match value_in(l, 1, f) {
        Some(result) => Pdu {
            at: f.stop,
            result,
            ..w
        },
        None => goes_to(w, 0),
    }
}

// What is read so far, and a diagnostic.
fn with_diagnostic(w: Pdu, diagnostic: u32, stop: usize) -> Pdu
    ensures { result ≡ with_diagnostic w diagnostic stop }
{
    Pdu {
        at: stop,
        diagnostic,
        ..w
    }
}

// The A3 holds A1 (user) or A2 (provider).
#[tactic(auto, unfolding(paper::specs::Portions::piece, paper::specs::Portions::diagnostic_in, laws::specs::If::if_lt, laws::specs::If::if_eq))]
fn diagnostic_at(l: &[u8], e: usize, w: Pdu) -> Pdu
    requires { e ≤ length l.now }
    ensures { result ≡ piece l.now e w Piece.Diagnostic }
{
    let f = tagged(l, DEPTHS_FROM_5, 0xA3, e, w.at);
    let user = only(l, DEPTHS_FROM_6, 0xA1, f.to, f.from);
    if let Some(value) = value_in(l, 2, user) {
        return with_diagnostic(w, 256 + value, f.stop);
    }
    let provider = only(l, DEPTHS_FROM_6, 0xA2, f.to, f.from);
    match value_in(l, 2, provider) {
        Some(value) => with_diagnostic(w, 512 + value, f.stop),
        None => goes_to(w, 0),
    }
}

// The abort source, 0 or 1, is an 80 of its own.
#[tactic(auto, unfolding(paper::specs::Portions::piece, laws::specs::If::if_lt, laws::specs::If::if_eq))]
fn source_at(l: &[u8], e: usize, w: Pdu) -> Pdu
    requires { e ≤ length l.now }
    ensures { result ≡ piece l.now e w Piece.Source }
{
    match reading_components::single(l, 0x80, e, w.at) {
        Some(source) if source <= 1 => Pdu {
            at: w.at + 3,
            source,
            ..w
        },
        _ => goes_to(w, 0),
    }
}

// From a to b, none where b is before a.
fn run_of(a: usize, b: usize) -> Run
    ensures { result ≡ record { start = a; length = b - a } }
{
    Run {
        start: a,
        length: b.saturating_sub(a),
    }
}

// User information may be absent.
#[tactic(auto, unfolding(paper::specs::Portions::piece, laws::specs::If::if_lt, laws::specs::If::if_eq))]
fn information_at(l: &[u8], e: usize, w: Pdu) -> Pdu
    requires { e ≤ length l.now }
    ensures { result ≡ piece l.now e w Piece.Information }
{
    if reading_components::tag_at(l, e, w.at) != 0xBE {
        return w;
    }
    let f = reading_elements::frame_at(l, DEPTHS_FROM_5, e, w.at);
    Pdu {
        at: f.stop,
        information: run_of(w.at, f.stop),
        ..w
    }
}

// No piece is read yet.
fn unread(at: usize) -> Pdu
    ensures { result ≡ unread at }
{
    Pdu {
        at,
        name: Run::NONE,
        information: Run::NONE,
        result: NO_VALUE,
        diagnostic: NO_VALUE,
        source: NO_VALUE,
    }
}

// The pieces of a dialogue request, or of a unidirectional PDU.
#[tactic(auto, unfolding(paper::specs::Portions::all_pieces, laws::specs::If::if_lt, laws::specs::If::if_eq))]
fn request_pieces(l: &[u8], pdu: Frame) -> Pdu
    requires { pdu.to ≤ length l.now }
    ensures { result ≡ all_pieces l.now pdu.to (unread pdu.from) aarq.pieces }
{
    let a = unread(pdu.from);
    let b = version_at(l, pdu.to, a);
    let c = name_at(l, pdu.to, b);
    information_at(l, pdu.to, c)
}

// A dialogue request (AARQ): its pieces, and nothing after them.
#[tactic(auto, unfolding(paper::specs::Portions::all_pieces, laws::specs::If::if_lt, laws::specs::If::if_eq))]
fn request(l: &[u8], pdu: Frame) -> Portion
    requires { pdu.to ≤ length l.now }
    ensures { result ≡ in_form aarq l.now pdu }
{
    let w = request_pieces(l, pdu);
    if w.at == pdu.to {
        Portion::Aarq(w.name, w.information)
    } else {
        Portion::Opaque
    }
}

// A unidirectional PDU (AUDT).
// Stays: what it shares with `request` is the one test at the end; over a closure that makes the variant it would be no shorter.
#[tactic(auto, unfolding(paper::specs::Portions::all_pieces, laws::specs::If::if_lt, laws::specs::If::if_eq))]
fn unidirectional(l: &[u8], pdu: Frame) -> Portion
    requires { pdu.to ≤ length l.now }
    ensures { result ≡ in_form audt l.now pdu }
{
    let w = request_pieces(l, pdu);
    if w.at == pdu.to {
        Portion::Audt(w.name, w.information)
    } else {
        Portion::Opaque
    }
}

// A dialogue response (AARE).
// Stays: what it shares with `request` is the one test at the end; over a closure that makes the variant it would be no shorter.
#[tactic(auto, unfolding(paper::specs::Portions::all_pieces, laws::specs::If::if_lt, laws::specs::If::if_eq))]
fn response(l: &[u8], pdu: Frame) -> Portion
    requires { pdu.to ≤ length l.now }
    ensures { result ≡ in_form aare l.now pdu }
{
    let a = unread(pdu.from);
    let b = version_at(l, pdu.to, a);
    let c = name_at(l, pdu.to, b);
    let d = result_at(l, pdu.to, c);
    let f = diagnostic_at(l, pdu.to, d);
    let w = information_at(l, pdu.to, f);
    if w.at == pdu.to {
        Portion::Aare(w.name, w.information, w.result, w.diagnostic)
    } else {
        Portion::Opaque
    }
}

// A dialogue abort (ABRT).
// Stays: what it shares with `request` is the one test at the end; over a closure that makes the variant it would be no shorter.
#[tactic(auto, unfolding(paper::specs::Portions::all_pieces, laws::specs::If::if_lt, laws::specs::If::if_eq))]
fn abort(l: &[u8], pdu: Frame) -> Portion
    requires { pdu.to ≤ length l.now }
    ensures { result ≡ in_form abrt l.now pdu }
{
    let a = unread(pdu.from);
    let b = source_at(l, pdu.to, a);
    let w = information_at(l, pdu.to, b);
    if w.at == pdu.to {
        Portion::Abrt(w.source, w.information)
    } else {
        Portion::Opaque
    }
}

// What the 6B holds: the 28 alone.
#[tactic(auto, unfolding(paper::specs::Portions::external, laws::specs::If::if_lt, laws::specs::If::if_eq))]
fn external(l: &[u8]) -> Frame
    ensures is { result ≡ external l.now }
    ensures within { (result.from ≤ result.to) × (result.to ≤ length l.now) }
{
    let f = reading_elements::frame_at(l, DEPTHS, l.len(), 0);
    only(l, DEPTHS_FROM_2, 0x28, f.to, f.from)
}

// In the 28 x the object identifier's octets and the A0 and nothing else, in the A0 the PDU of that tag and nothing else.
#[tactic(auto, unfolding(crate::specs::Steps::pdu_by, laws::specs::If::if_b))]
fn pdu_by(l: &[u8], x: Frame, identifier: &[u8], tag: u8) -> Frame
    requires { (x.to ≤ length l.now) × (0 < length identifier.now) }
    ensures is { result ≡ pdu_by identifier.now tag l.now x }
    ensures within { result.to ≤ length l.now }
{
    if !stands(l, x.to, x.from, identifier) {
        return Frame::NONE;
    }
    let a = only(l, DEPTHS_FROM_3, 0xA0, x.to, x.from + identifier.len());
    only(l, DEPTHS_FROM_4, tag, a.to, a.from)
}

// "object identifiers 00 11 86 05 01 01 01 (structured)"
fn structured(l: &[u8], x: Frame, tag: u8) -> Frame
    requires { x.to ≤ length l.now }
    ensures is { result ≡ pdu_by (tlv 6 structured) tag l.now x }
    ensures within { result.to ≤ length l.now }
{
    pdu_by(l, x, &[6, 7, 0, 0x11, 0x86, 5, 1, 1, 1], tag)
}

// "and 00 11 86 05 01 02 01 (unstructured)"
// Stays: each object identifier is held by its own clause, and by must-fail edits that name `structured` and `unstructured`.
fn unstructured(l: &[u8], x: Frame, tag: u8) -> Frame
    requires { x.to ≤ length l.now }
    ensures is { result ≡ pdu_by (tlv 6 unstructured) tag l.now x }
    ensures within { result.to ≤ length l.now }
{
    pdu_by(l, x, &[6, 7, 0, 0x11, 0x86, 5, 1, 2, 1], tag)
}

// By its form: the object identifier and the PDU's tag.
// Stays: `stop` is 0 where there is no frame, as `no_frame` has it; the four differ in their reader, so a walk over them would take closures.
fn by_form(l: &[u8]) -> Portion
    ensures { result ≡ read_by forms l.now }
{
    let x = external(l);
    let a = structured(l, x, 0x60);
    if a.stop != 0 {
        return request(l, a);
    }
    let b = structured(l, x, 0x61);
    if b.stop != 0 {
        return response(l, b);
    }
    let c = structured(l, x, 0x64);
    if c.stop != 0 {
        return abort(l, c);
    }
    let d = unstructured(l, x, 0x60);
    if d.stop != 0 {
        return unidirectional(l, d);
    }
    Portion::Opaque
}

// The portion that octets are: "Any other portion stays opaque"; none where they are no well-formed 6B element.
pub fn portion(l: &[u8]) -> Portion
    ensures is { result ≡ portion_of l.now }
    ensures within { PortionIn (length l.now) result }
{
    let n = l.len();
    if reading_components::tag_at(l, n, 0) != 0x6B {
        return Portion::Absent;
    }
    match reading_elements::element(l, DEPTHS, n, 0) {
        Ok(e) if e == n => by_form(l),
        _ => Portion::Absent,
    }
}

// A run of octets that begin at k of a message.
#[tactic(auto, unfolding(paper::specs::Portions::run_from, laws::specs::If::if_lt, laws::specs::If::if_eq))]
fn run_from(k: usize, r: Run) -> Run
    requires { k + r.start ≤ 0xFFFFFFFF }
    ensures { result ≡ run_from k r }
{
    // Stays: a run that is none has length 0, as `no_run` of paper/specs/Messages has it.
    if r.length == 0 {
        return Run::NONE;
    }
    Run {
        start: k + r.start,
        ..r
    }
}

// A portion whose octets begin at k of a message.
fn from_start(k: usize, p: Portion) -> Portion
    requires { (k ≤ 0xFFFFFFFF) × PortionIn (0xFFFFFFFF - k) p }
    ensures { result ≡ from_start k p }
{
    match p {
        Portion::Absent => Portion::Absent,
        Portion::Opaque => Portion::Opaque,
        Portion::Aarq(n, i) => Portion::Aarq(run_from(k, n), run_from(k, i)),
        Portion::Aare(n, i, r, d) => Portion::Aare(run_from(k, n), run_from(k, i), r, d),
        Portion::Abrt(s, i) => Portion::Abrt(s, run_from(k, i)),
        Portion::Audt(n, i) => Portion::Audt(run_from(k, n), run_from(k, i)),
    }
}

// The portion at a run of a message, as a row gives it: a run that reaches further is none.
// Stays: start and length are two numbers, as a C host hands them in and `portion_at` of paper/specs/Portions takes them.
#[tactic(auto, unfolding(paper::specs::Portions::portion_at, laws::specs::If::if_lt, laws::specs::If::if_eq))]
pub fn portion_at(s: &[u8], start: usize, len: usize) -> Portion
    ensures is { result ≡ portion_at s.now start len }
    ensures within { PortionIn (length s.now) result }
    ensures small { PortionIn 0xFFFFFFFF result }
{
    let n = s.len();
    if start > n || n - start < len {
        return Portion::Absent;
    }
    let end = start + len;
    if end > 0xFFFFFFFF {
        return Portion::Absent;
    }
    let p = portion(&s[start..end]);
    from_start(start, p)
}

// The eight numbers of a row, of a portion's kind and parts.
// Stays: `as`, since no `From` makes a u32 of a usize; the clause says that each fits.
fn row(kind: u32, n: Run, i: Run, res: u32, diagnostic: u32, source: u32) -> Row
    requires { RunIn 0xFFFFFFFF n × RunIn 0xFFFFFFFF i }
    ensures { result ≡ eight kind n i res diagnostic source }
{
    Row {
        kind,
        dialogue: n.start as u32,
        invoke: n.length as u32,
        linked: i.start as u32,
        problem: i.length as u32,
        start: res,
        length: diagnostic,
        follow: source,
    }
}

// As numbers: kind; start and length of the name and of the user information; result, diagnostic, source.
pub fn row_of(p: Portion) -> Row
    requires { PortionIn 0xFFFFFFFF p }
    ensures { result ≡ portion_row p }
{
    match p {
        Portion::Absent => row(ABSENT, Run::NONE, Run::NONE, NO_VALUE, NO_VALUE, NO_VALUE),
        Portion::Opaque => row(OPAQUE, Run::NONE, Run::NONE, NO_VALUE, NO_VALUE, NO_VALUE),
        Portion::Aarq(n, i) => row(PduKind::Request.into(), n, i, NO_VALUE, NO_VALUE, NO_VALUE),
        Portion::Aare(n, i, r, d) => row(PduKind::Response.into(), n, i, r, d, NO_VALUE),
        Portion::Abrt(s, i) => row(PduKind::Abort.into(), Run::NONE, i, NO_VALUE, NO_VALUE, s),
        Portion::Audt(n, i) => row(
            PduKind::Unidirectional.into(),
            n,
            i,
            NO_VALUE,
            NO_VALUE,
            NO_VALUE,
        ),
    }
}
