// What says nothing of document 01: in specs/ (two in proofs/) the laws of shut tests, lists, fields, sums; here the few functions that every floor calls.
#![tactic(auto)]

ghost use Rattle.std.specs.Prelude.{◌≡◌, ◌<◌, ◌%◌};

// An octet as an index.
// Stays: `usize::from` promises the value alone, and a function stays whose promise no other states: here that it is below 256 too.
pub fn wide(x: u8) -> usize
    ensures { (result ≡ x) × (result < 256) }
{
    usize::from(x)
}

// An octet as a number of 32 bits.
// Stays: as for `wide`: `u32::from` promises the value alone.
pub fn number(x: u8) -> u32
    ensures { (result ≡ x) × (result < 256) }
{
    u32::from(x)
}

// The low octet of a number.
// Stays: std has no conversion that drops the high octets; `x.to_le_bytes()[0]` is no plainer.
pub fn low(x: u32) -> u8
    ensures { result ≡ x % 256 }
{
    (x % 256) as u8
}
