// Everything the engine writes (01, "Coding"): into a lent space, at a position; each answers the position past it.
// Stays: a space and a position in it are two arguments, since the record Wrote, on which every crate above rests, speaks of both.
#![tactic(auto)]

ghost use Rattle.std.specs.Prelude.{◌≡◌, ◌+◌, ◌-◌, ◌<◌, ◌≤◌, [], ◌∷◌, length, replicate};
ghost use Rattle.laws.specs.Runs.{Wrote};
ghost use Rattle.paper.specs.Writing.{length_octets};
ghost use Rattle.writing_octets.specs.Heads.{element_head};
ghost use Rattle.writing_octets.specs.Lengths.{Room, element_size};

// One octet.
pub fn put(out: &mut [u8], at: usize, v: u8) -> usize
    requires { at < length out.old }
    ensures { Wrote out.old at (v ∷ []) result out.new }
{
    out[at] = v;
    at + 1
}

// Given octets, copied, by a loop: `copy_from_slice` would have the archive need memmove from outside.
pub fn copy_at(out: &mut [u8], at: usize, given: &[u8]) -> usize
    requires { at + length given.now ≤ length out.old }
    ensures { Wrote out.old at given.now result out.new }
{
    for (i, v) in given.iter().enumerate() {
        out[at + i] = *v;
    }
    at + given.len()
}

// The octets that the shortest definite length of n takes.
fn length_size(n: usize) -> usize
    ensures is { result ≡ length (length_octets n) }
    ensures within { (1 ≤ result) × (result ≤ 3) }
{
    match n {
        0..=127 => 1,
        128..=255 => 2,
        _ => 3,
    }
}

// "We write definite, shortest lengths."
fn write_length(out: &mut [u8], at: usize, n: usize) -> usize
    requires { (n < 65536) × (at + length (length_octets n) ≤ length out.old) }
    ensures { Wrote out.old at (length_octets n) result out.new }
{
    // Stays: `as`, since each arm's range says that n fits; `try_from` would leave a case that isn't.
    match n {
        0..=127 => put(out, at, n as u8),
        128..=255 => {
            let a = put(out, at, 0x81);
            put(out, a, n as u8)
        }
        _ => {
            let a = put(out, at, 0x82);
            copy_at(out, a, &u16::to_be_bytes(n as u16))
        }
    }
}

// The tag and length of an element whose contents are n octets, for which there is room too.
pub fn write_head(out: &mut [u8], at: usize, tag: u8, n: usize) -> usize
    requires { Room out.old at (element_size n) }
    ensures { Wrote out.old at (element_head tag n) result out.new }
{
    let a = put(out, at, tag);
    write_length(out, a, n)
}

// An element of one octet: an invoke ID 02 01, a linked ID 80 01, a problem 80 to 83 01, a cause 4A 01.
pub fn write_single(out: &mut [u8], at: usize, tag: u8, v: u8) -> usize
    requires { at + 3 ≤ length out.old }
    ensures { Wrote out.old at (tag ∷ 1 ∷ v ∷ []) result out.new }
{
    let a = put(out, at, tag);
    let b = put(out, a, 1);
    put(out, b, v)
}

// The octets of an element whose contents are n.
pub fn element_size(n: usize) -> usize
    requires { n < 65536 }
    ensures is { result ≡ element_size n }
    ensures within { (n + 2 ≤ result) × (result ≤ n + 4) }
{
    1 + length_size(n) + n
}

// All of a space made zero.
pub fn clear(out: &mut [u8])
    ensures { out.new ≡ replicate (length out.old) 0 }
{
    out.fill(0);
}
