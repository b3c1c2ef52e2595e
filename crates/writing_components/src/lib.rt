// The components written (01, "Coding"): into a lent space, at a position; each answers the position past it.
// Stays: operation (or error) and parameter are two slices, as a C host lends them and the definitions of paper/specs/Writing take them.
#![tactic(auto)]

ghost use Rattle.std.specs.Prelude.{◌≡◌, ◌+◌, ◌-◌, ◌<◌, ◌≤◌, ◌∷◌, ◌++◌, length};
ghost use Rattle.laws.specs.Runs.{Wrote};
ghost use Rattle.paper.specs.Components.{invoke_tag};
ghost use Rattle.paper.specs.Writing.{tlv, id_then, invoke_octets, result_octets, error_octets, reject_octets};
ghost use Rattle.writing_octets.specs.Lengths.{Room, element_size, invoke_size, result_size, error_size, reject_size};

use paper::{ERROR_TAG, INVOKE_TAG, NO_ID, REJECT_TAG};

// What stands in a component: its ID, a linked ID, the 30 of a result, a NULL in place of an ID.
const ID_TAG: u8 = 0x02;

const LINKED_TAG: u8 = 0x80;

const RESULT_TAG: u8 = 0x30;

const NULL_TAG: u8 = 0x05;

// An invoke that is not linked, or an error: ID, operation or error, parameter.
fn write_plain(out: &mut [u8], at: usize, tag: u8, id: u8, code: &[u8], par: &[u8]) -> usize
    requires { Room out.old at (element_size (3 + length code.now + length par.now)) }
    ensures is { Wrote out.old at (tlv tag (id_then id (code.now ++ par.now))) result out.new }
    ensures within { result ≡ at + element_size (3 + length code.now + length par.now) }
{
    let a = writing_octets::write_head(out, at, tag, 3 + code.len() + par.len());
    let b = writing_octets::write_single(out, a, ID_TAG, id);
    let d = writing_octets::copy_at(out, b, code);
    writing_octets::copy_at(out, d, par)
}

// An invoke that is linked.
fn write_linked(out: &mut [u8], at: usize, id: u8, linked: u8, op: &[u8], par: &[u8]) -> usize
    requires { Room out.old at (element_size (6 + length op.now + length par.now)) }
    ensures is { Wrote out.old at (tlv invoke_tag (id_then id (0x80 ∷ 1 ∷ linked ∷ (op.now ++ par.now)))) result out.new }
    ensures within { result ≡ at + element_size (6 + length op.now + length par.now) }
{
    let a = writing_octets::write_head(out, at, INVOKE_TAG, 6 + op.len() + par.len());
    let b = writing_octets::write_single(out, a, ID_TAG, id);
    let d = writing_octets::write_single(out, b, LINKED_TAG, linked);
    let e = writing_octets::copy_at(out, d, op);
    writing_octets::copy_at(out, e, par)
}

// An invoke; linked is NO_ID for none, and a parameter that is absent has no octets.
// Stays: `linked` is the number of the definition invoke_octets, which call_pass has of a component.
pub fn write_invoke(out: &mut [u8], at: usize, id: u8, linked: u32, op: &[u8], par: &[u8]) -> usize
    requires { (linked ≤ 256) × Room out.old at (invoke_size linked op.now par.now) }
    ensures is { Wrote out.old at (invoke_octets id linked op.now par.now) result out.new }
    ensures within { result ≡ at + invoke_size linked op.now par.now }
{
    // Stays: `as`, since the clause and the test leave an octet; `try_from` would leave a case that isn't.
    if linked == NO_ID {
        write_plain(out, at, INVOKE_TAG, id, op, par)
    } else {
        write_linked(out, at, id, linked as u8, op, par)
    }
}

// How long a result is.
pub fn result_size(op: &[u8], par: &[u8]) -> usize
    requires { length op.now + length par.now < 65000 }
    ensures { result ≡ result_size op.now par.now }
{
    if op.is_empty() {
        5
    } else {
        writing_octets::element_size(3 + writing_octets::element_size(op.len() + par.len()))
    }
}

// A result with operation and parameter, in a 30 of m octets.
fn write_both(out: &mut [u8], at: usize, tag: u8, id: u8, op: &[u8], par: &[u8], m: usize) -> usize
    requires { (m ≡ element_size (length op.now + length par.now)) × Room out.old at (element_size (3 + m)) }
    ensures is { Wrote out.old at (tlv tag (id_then id (tlv 0x30 (op.now ++ par.now)))) result out.new }
    ensures within { result ≡ at + element_size (3 + m) }
{
    let a = writing_octets::write_head(out, at, tag, 3 + m);
    let b = writing_octets::write_single(out, a, ID_TAG, id);
    let d = writing_octets::write_head(out, b, RESULT_TAG, op.len() + par.len());
    let e = writing_octets::copy_at(out, d, op);
    writing_octets::copy_at(out, e, par)
}

// A result, last or not last by its tag; "a result lacks the whole 30" without operation and parameter.
pub fn write_result(out: &mut [u8], at: usize, tag: u8, id: u8, op: &[u8], par: &[u8]) -> usize
    requires { Room out.old at (result_size op.now par.now) }
    ensures is { Wrote out.old at (result_octets tag id op.now par.now) result out.new }
    ensures within { result ≡ at + result_size op.now par.now }
{
    if op.is_empty() {
        let a = writing_octets::write_head(out, at, tag, 3);
        writing_octets::write_single(out, a, ID_TAG, id)
    } else {
        let m = writing_octets::element_size(op.len() + par.len());
        write_both(out, at, tag, id, op, par, m)
    }
}

// An error.
pub fn write_error(out: &mut [u8], at: usize, id: u8, err: &[u8], par: &[u8]) -> usize
    requires { Room out.old at (error_size err.now par.now) }
    ensures is { Wrote out.old at (error_octets id err.now par.now) result out.new }
    ensures within { result ≡ at + error_size err.now par.now }
{
    write_plain(out, at, ERROR_TAG, id, err, par)
}

// How long a reject is: seven octets without an ID (NO_ID), else eight.
// Stays: `id` is the number of the definition reject_octets, which a waiting reject has.
pub fn reject_size(id: u32) -> usize
    ensures is { result ≡ reject_size id }
    ensures within { result ≤ 8 }
{
    if id == NO_ID { 7 } else { 8 }
}

// A reject: its ID, NO_ID for none; its problem as in a row.
// Stays: `id` is the number of the definition reject_octets, which a waiting reject has.
pub fn write_reject(out: &mut [u8], at: usize, id: u32, problem: u32) -> usize
    requires { (id ≤ 256) × (problem < 1024) × (at + reject_size id ≤ length out.old) }
    ensures is { Wrote out.old at (reject_octets id problem) result out.new }
    ensures within { result ≡ at + reject_size id }
{
    // Stays: a problem is a number of a row, taken apart as `kind_of` and `code_of` of paper/specs/Problems do.
    let tag = (0x80 + problem / 256) as u8;
    let code = (problem % 256) as u8;
    if id == NO_ID {
        let a = writing_octets::write_head(out, at, REJECT_TAG, 5);
        let b = writing_octets::copy_at(out, a, &[NULL_TAG, 0]);
        writing_octets::write_single(out, b, tag, code)
    } else {
        let a = writing_octets::write_head(out, at, REJECT_TAG, 6);
        let b = writing_octets::write_single(out, a, ID_TAG, id as u8);
        writing_octets::write_single(out, b, tag, code)
    }
}
