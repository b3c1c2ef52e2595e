// The dialogue portions written (02 a): into a lent space, at a position. A PDU is told by its kind.
#![tactic(auto)]

ghost use Rattle.std.specs.Prelude.{◌≡◌, ◌+◌, ◌≤◌, length};
ghost use Rattle.laws.specs.Runs.{Wrote};
ghost use Rattle.paper.specs.Sizes.{most_waiting};
ghost use Rattle.paper.specs.Writing.{tlv};
ghost use Rattle.paper.specs.Portions.{portion_by};
ghost use Rattle.paper.specs.Refusals.{pdu_number};
ghost use Rattle.writing_octets.specs.Lengths.{Room};
ghost use Rattle.writing_portions.specs.Forms.{form_for, name_octets, between, pdu_octets, held_size, around_size, around_head};
ghost use Rattle.writing_portions.specs.Spans.{name_size, pdu_size, portion_size};

use paper::PduKind;

// The octets of the A1 with a name: none where none is given, and an ABRT has none.
#[tactic(auto, unfolding(crate::specs::Spans::name_size, laws::specs::If::if_eq))]
fn name_size(kind: PduKind, name: usize) -> usize
    requires { name ≤ most_waiting }
    ensures is { result ≡ name_size (pdu_number kind) name }
    ensures within { result ≤ name + 4 }
{
    if kind == PduKind::Abort || name == 0 {
        return 0;
    }
    writing_octets::element_size(name)
}

// Those of what stands after it: an AARE's result and diagnostic, an ABRT's source.
#[tactic(auto, unfolding(crate::specs::Forms::between, laws::specs::If::if_eq))]
fn between_size(kind: PduKind) -> usize
    ensures is { result ≡ length (between (pdu_number kind)) }
    ensures within { result ≤ 12 }
{
    match kind {
        PduKind::Response => 12,
        PduKind::Abort => 3,
        PduKind::Request | PduKind::Unidirectional => 0,
    }
}

// All that stands in a PDU.
fn pdu_size(kind: PduKind, name: usize, information: usize) -> usize
    requires { (name ≤ most_waiting) × (information ≤ most_waiting) }
    ensures is { result ≡ pdu_size (pdu_number kind) name information }
    ensures within { result ≤ name + information + 16 }
{
    name_size(kind, name) + (between_size(kind) + information)
}

// What the 28 holds where the PDU holds n octets: the object identifier, and the A0 with the PDU.
fn held_size(n: usize) -> usize
    requires { n ≤ 65000 }
    ensures is { result ≡ held_size n }
    ensures within { result ≤ n + 17 }
{
    let pdu = writing_octets::element_size(n);
    9 + writing_octets::element_size(pdu)
}

// And a whole portion, the 6B with the 28.
fn around_size(n: usize) -> usize
    requires { n ≤ 65000 }
    ensures is { result ≡ around_size n }
    ensures within { result ≤ n + 25 }
{
    let external = writing_octets::element_size(held_size(n));
    writing_octets::element_size(external)
}

// The octets of a portion with a name and user information of so many octets: none where neither is given.
pub fn portion_size(kind: PduKind, name: usize, information: usize) -> usize
    requires { (name ≤ most_waiting) × (information ≤ most_waiting) }
    ensures is { result ≡ portion_size (pdu_number kind) name information }
    ensures within { result ≤ name + information + 41 }
{
    if name + information == 0 {
        return 0;
    }
    let n = pdu_size(kind, name, information);
    around_size(n)
}

// A name in its A1.
#[tactic(auto, unfolding(crate::specs::Forms::name_octets, crate::specs::Spans::name_size, laws::specs::If::if_eq))]
fn write_name(out: &mut [u8], at: usize, kind: PduKind, name: &[u8]) -> usize
    requires { (length name.now ≤ most_waiting) × (at + name_size (pdu_number kind) (length name.now) ≤ length out.old) }
    ensures { Wrote out.old at (name_octets (pdu_number kind) name.now) result out.new }
{
    if kind == PduKind::Abort || name.is_empty() {
        return at;
    }
    let a = writing_octets::write_head(out, at, 0xA1, name.len());
    writing_octets::copy_at(out, a, name)
}

// "AARE: accepted, user, null"; "ABRT: user".
#[tactic(auto, unfolding(crate::specs::Forms::between, laws::specs::If::if_eq))]
fn write_between(out: &mut [u8], at: usize, kind: PduKind) -> usize
    requires { at + length (between (pdu_number kind)) ≤ length out.old }
    ensures { Wrote out.old at (between (pdu_number kind)) result out.new }
{
    match kind {
        PduKind::Response => {
            let accepted = [0xA2u8, 3, 2, 1, 0, 0xA3, 5, 0xA1, 3, 2, 1, 0];
            writing_octets::copy_at(out, at, &accepted)
        }
        PduKind::Abort => writing_octets::write_single(out, at, 0x80, 0),
        PduKind::Request | PduKind::Unidirectional => at,
    }
}

// What stands in a PDU, in order.
fn write_pdu(out: &mut [u8], at: usize, kind: PduKind, name: &[u8], information: &[u8]) -> usize
    requires { (length name.now ≤ most_waiting) × (at + pdu_size (pdu_number kind) (length name.now) (length information.now) ≤ length out.old) }
    ensures { Wrote out.old at (pdu_octets (form_for (pdu_number kind)) name.now information.now) result out.new }
{
    let a = write_name(out, at, kind, name);
    let b = write_between(out, a, kind);
    writing_octets::copy_at(out, b, information)
}

// The object identifier with its tag and length: unstructured for an AUDT, else structured.
#[tactic(auto, unfolding(crate::specs::Forms::form_for, laws::specs::If::if_eq, laws::specs::If::if_lt, paper::specs::Writing::tlv))]
fn identifier(kind: PduKind) -> [u8; 9]
    ensures { result ≡ tlv 6 (form_for (pdu_number kind)).identifier }
{
    match kind {
        PduKind::Unidirectional => [6, 7, 0, 0x11, 0x86, 5, 1, 2, 1],
        PduKind::Request | PduKind::Response | PduKind::Abort => [6, 7, 0, 0x11, 0x86, 5, 1, 1, 1],
    }
}

// A PDU's tag.
#[tactic(auto, unfolding(crate::specs::Forms::form_for, laws::specs::If::if_eq))]
fn tag_of(kind: PduKind) -> u8
    ensures { result ≡ (form_for (pdu_number kind)).tag }
{
    match kind {
        PduKind::Response => 0x61,
        PduKind::Abort => 0x64,
        PduKind::Request | PduKind::Unidirectional => 0x60,
    }
}

// What stands before the n octets in a PDU: heads, from the outside in.
fn write_around(out: &mut [u8], at: usize, kind: PduKind, n: usize) -> usize
    requires { (n ≤ 65000) × (at + around_size n ≤ length out.old) }
    ensures { Wrote out.old at (around_head (form_for (pdu_number kind)) n) result out.new }
{
    let held = held_size(n);
    let object = identifier(kind);
    let a = writing_octets::write_head(out, at, 0x6B, writing_octets::element_size(held));
    let b = writing_octets::write_head(out, a, 0x28, held);
    let d = writing_octets::copy_at(out, b, &object);
    let e = writing_octets::write_head(out, d, 0xA0, writing_octets::element_size(n));
    writing_octets::write_head(out, e, tag_of(kind), n)
}

// A portion with a name and user information: nothing where neither is given.
pub fn write_portion(
    out: &mut [u8],
    at: usize,
    kind: PduKind,
    name: &[u8],
    information: &[u8],
) -> usize
    requires { (length name.now ≤ most_waiting) × (length information.now ≤ most_waiting) × Room out.old at (length (portion_by (form_for (pdu_number kind)) name.now information.now)) }
    ensures { Wrote out.old at (portion_by (form_for (pdu_number kind)) name.now information.now) result out.new }
{
    if name.len() + information.len() == 0 {
        return at;
    }
    let n = pdu_size(kind, name.len(), information.len());
    let a = write_around(out, at, kind, n);
    write_pdu(out, a, kind, name, information)
}
