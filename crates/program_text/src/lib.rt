// A line of text made in a lent space, cut where the space ends.
#![tactic(auto)]

ghost use Rattle.std.specs.Prelude.{◌≤◌, min, ◌≡◌, List, [], ◌∷◌, length};
ghost use Rattle.program_text.specs.Said.{Said};

// Stays: the space and the place in it are two parameters, as `Said` (specs/Said.antt) says of each text where it begins and ends.
// An octet.
pub fn put(out: &mut [u8], at: usize, x: u8) -> usize
    ensures { Said out.old at (x ∷ []) result out.new }
{
    if at >= out.len() {
        return out.len();
    }
    out[at] = x;
    at + 1
}

// Octets as they are.
// Stays: an octet at a time, as Said goes, cut where the space ends; a copy of what fits would need the room that is left measured first.
pub fn word(out: &mut [u8], at: usize, s: &[u8]) -> usize
    requires { at ≤ length out.old }
    ensures { Said out.old at s.now result out.new }
{
    let mut k = at;
    for &x in s {
        k = put(out, k, x);
    }
    k
}

// Hands a text to standard output. What becomes of it no contract can say, and a write that fails is passed over.
fn hand(rt: &impl Print, out: &[u8]) {
    let _ = rt.write_all(out);
}

// Hands the first n octets of a text to standard output, all where it has fewer: how many those are.
pub fn say(rt: &impl Print, out: &[u8], n: usize) -> usize
    ensures { result ≡ min n (length out.now) }
{
    let n = n.min(out.len());
    hand(rt, &out[..n]);
    n
}
