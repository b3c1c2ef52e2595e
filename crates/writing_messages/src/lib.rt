// The messages written (01, "Coding"): into a lent space, at a position; each answers the position past it.
// Stays: a peer's ID is a slice of at most 4 octets, as its clauses say: it has 1 to 4, so an array type doesn't say it, and `tlv` of paper takes any list.
#![tactic(auto)]

ghost use Rattle.std.specs.Prelude.{◌≡◌, ◌+◌, ◌<◌, ◌≤◌, [], ◌++◌, length};
ghost use Rattle.laws.specs.Runs.{Wrote};
ghost use Rattle.paper.specs.Sizes.{id_octets};
ghost use Rattle.paper.specs.Messages.{uni_tag, begin_tag, end_tag, continue_tag, abort_tag};
ghost use Rattle.paper.specs.Writing.{tlv, cause_abort_octets};
ghost use Rattle.writing_octets.specs.Heads.{components_head, front_head};
ghost use Rattle.writing_octets.specs.Lengths.{Room, element_size};

use paper::{ABORT_TAG, BEGIN_TAG, CONTINUE_TAG, END_TAG, UNI_TAG};

// What stands in a message: the originating ID, the destination ID, the cause of an Abort, the components.
const ORIGIN_TAG: u8 = 0x48;

const DESTINATION_TAG: u8 = 0x49;

const CAUSE_TAG: u8 = 0x4A;

const COMPONENTS_TAG: u8 = 0x6C;

// A local ID's octets.
fn id_octets(dialogue: u32) -> [u8; 4]
    ensures { result ≡ id_octets dialogue }
{
    dialogue.to_be_bytes()
}

// A transaction ID: 48 or 49, and its octets.
fn write_id(out: &mut [u8], at: usize, tag: u8, id: &[u8]) -> usize
    requires { (length id.now < 128) × (at + 2 + length id.now ≤ length out.old) }
    ensures is { Wrote out.old at (tlv tag id.now) result out.new }
    ensures within { result ≡ at + 2 + length id.now }
{
    let a = writing_octets::put(out, at, tag);
    // Stays: `as`, since the clause says that it fits; `try_from` would leave a case that isn't.
    let b = writing_octets::put(out, a, id.len() as u8);
    writing_octets::copy_at(out, b, id)
}

// The octets of a 6C with n octets of components, none where there is none.
pub fn components_size(n: usize) -> usize
    requires { n < 65536 }
    ensures is { result ≡ length (components_head n) + n }
    ensures within { result ≤ n + 4 }
{
    if n == 0 {
        0
    } else {
        writing_octets::element_size(n)
    }
}

// The 6C up to its components.
pub fn write_components(out: &mut [u8], at: usize, n: usize) -> usize
    requires { Room out.old at (length (components_head n) + n) }
    ensures { Wrote out.old at (components_head n) result out.new }
{
    if n == 0 {
        at
    } else {
        writing_octets::write_head(out, at, COMPONENTS_TAG, n)
    }
}

// A Begin up to its ID, where m octets of dialogue portion and components follow.
pub fn begin_front(out: &mut [u8], at: usize, dialogue: u32, m: usize) -> usize
    requires { Room out.old at (element_size (6 + m)) }
    ensures is { Wrote out.old at (front_head begin_tag (tlv 0x48 (id_octets dialogue)) m) result out.new }
    ensures within { result + m ≡ at + element_size (6 + m) }
{
    let own = id_octets(dialogue);
    let a = writing_octets::write_head(out, at, BEGIN_TAG, 6 + m);
    write_id(out, a, ORIGIN_TAG, &own)
}

// A Continue up to its IDs.
pub fn continue_front(out: &mut [u8], at: usize, dialogue: u32, peer: &[u8], m: usize) -> usize
    requires { (length peer.now ≤ 4) × Room out.old at (element_size (8 + length peer.now + m)) }
    ensures is { Wrote out.old at (front_head continue_tag (tlv 0x48 (id_octets dialogue) ++ tlv 0x49 peer.now) m) result out.new }
    ensures within { result + m ≡ at + element_size (8 + length peer.now + m) }
{
    let own = id_octets(dialogue);
    let a = writing_octets::write_head(out, at, CONTINUE_TAG, 8 + peer.len() + m);
    let b = write_id(out, a, ORIGIN_TAG, &own);
    write_id(out, b, DESTINATION_TAG, peer)
}

// A message with the peer's ID alone, up to it.
fn peer_front(out: &mut [u8], at: usize, tag: u8, peer: &[u8], m: usize) -> usize
    requires { (length peer.now ≤ 4) × Room out.old at (element_size (2 + length peer.now + m)) }
    ensures is { Wrote out.old at (front_head tag (tlv 0x49 peer.now) m) result out.new }
    ensures within { result + m ≡ at + element_size (2 + length peer.now + m) }
{
    let a = writing_octets::write_head(out, at, tag, 2 + peer.len() + m);
    write_id(out, a, DESTINATION_TAG, peer)
}

// An End up to its ID.
// Stays: this and abort_front are two promises with edits of their own; what they share is peer_front, to which no caller can pass another message's tag.
pub fn end_front(out: &mut [u8], at: usize, peer: &[u8], m: usize) -> usize
    requires { (length peer.now ≤ 4) × Room out.old at (element_size (2 + length peer.now + m)) }
    ensures is { Wrote out.old at (front_head end_tag (tlv 0x49 peer.now) m) result out.new }
    ensures within { result + m ≡ at + element_size (2 + length peer.now + m) }
{
    peer_front(out, at, END_TAG, peer, m)
}

// An Abort up to its ID.
pub fn abort_front(out: &mut [u8], at: usize, peer: &[u8], m: usize) -> usize
    requires { (length peer.now ≤ 4) × Room out.old at (element_size (2 + length peer.now + m)) }
    ensures is { Wrote out.old at (front_head abort_tag (tlv 0x49 peer.now) m) result out.new }
    ensures within { result + m ≡ at + element_size (2 + length peer.now + m) }
{
    peer_front(out, at, ABORT_TAG, peer, m)
}

// A Unidirectional's tag and length: it has no ID.
pub fn uni_front(out: &mut [u8], at: usize, m: usize) -> usize
    requires { Room out.old at (element_size m) }
    ensures is { Wrote out.old at (front_head uni_tag [] m) result out.new }
    ensures within { result + m ≡ at + element_size m }
{
    writing_octets::write_head(out, at, UNI_TAG, m)
}

// The transaction sub-layer's Abort, with its cause; peer is the received originating ID.
pub fn write_cause_abort(out: &mut [u8], at: usize, peer: &[u8], cause: u8) -> usize
    requires { (length peer.now ≤ 4) × (at + 7 + length peer.now ≤ length out.old) }
    ensures is { Wrote out.old at (cause_abort_octets peer.now cause) result out.new }
    ensures within { result ≡ at + 7 + length peer.now }
{
    let a = abort_front(out, at, peer, 3);
    writing_octets::write_single(out, a, CAUSE_TAG, cause)
}
