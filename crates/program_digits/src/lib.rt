// Decimal and hex, printed and read: what is printed is read back, and what is read is printed again (specs/Back.antt).
// Stays: a space and a place in it are two parameters, as in program_text, whose `Said` speaks of both.
#![tactic(auto)]

ghost use Rattle.std.specs.Prelude.{◌+◌, ◌*◌, ◌<◌, ◌≤◌, min, ◌≡◌, true, List, [], ◌∷◌, length, IfSome};
ghost use Rattle.std.proofs.lemmas.List.Edits.{sets};
ghost use Rattle.program_text.specs.Said.{Said};
ghost use Rattle.program_digits.specs.Digits.{sign, hex_digit, hex, or_none, in_base, read_decimal, read_dialogue, negative as digits_negative, positive as digits_positive, read_id, is_hex, read_here, octet_count};
ghost use Rattle.program_digits.specs.Digits.{decimal as digits_decimal, dialogue as digits_dialogue, octets as digits_octets};

use program_text::{put, word};

// The digit of an octet, a letter in either case; none of any other.
// Stays: a char's `to_digit` gives a u32, of which an octet would have to be made again: no plainer.
pub fn digit_of(x: u8) -> Option<u8>
    ensures value { result ≡ hex_digit x }
    ensures below { IfSome result (λ d. d < 16) }
{
    match x {
        b'0'..=b'9' => Some(x - b'0'),
        b'A'..=b'F' => Some(x - b'A' + 10),
        b'a'..=b'f' => Some(x - b'a' + 10),
        _ => None,
    }
}

fn sign_of(d: u8) -> u8
    requires { d < 16 }
    ensures { result ≡ sign d }
{
    if d < 10 { b'0' + d } else { b'A' + (d - 10) }
}

// A number in decimal.
pub fn decimal(out: &mut [u8], at: usize, n: u64) -> usize
    requires { at ≤ length out.old }
    ensures { Said out.old at (digits_decimal n) result out.new }
{
    let mut digits = [0u8; 20];
    let k = io::decimal(n, &mut digits);
    word(out, at, &digits[..k])
}

// A blank and a number.
pub fn spaced(out: &mut [u8], at: usize, n: u64) -> usize
    ensures { Said out.old at (32 ∷ digits_decimal n) result out.new }
{
    let a = put(out, at, b' ');
    decimal(out, a, n)
}

// An octet in hex capitals.
pub fn octet(out: &mut [u8], at: usize, x: u8) -> usize
    ensures { Said out.old at (hex (x ∷ [])) result out.new }
{
    let a = put(out, at, sign_of(x / 16));
    put(out, a, sign_of(x % 16))
}

// Octets in hex capitals, `-` for none.
// Stays: its loop is that of program_text's `word` but for what it writes of an octet; over a closure with a law it would be no shorter.
pub fn octets(out: &mut [u8], at: usize, s: &[u8]) -> usize
    requires { at ≤ length out.old }
    ensures { Said out.old at (or_none (hex s.now)) result out.new }
{
    if s.is_empty() {
        return put(out, at, b'-');
    }
    let mut k = at;
    for &x in s {
        k = octet(out, k, x);
    }
    k
}

// A dialogue's ID: 8 hex digits.
pub fn dialogue(out: &mut [u8], at: usize, id: u32) -> usize
    ensures { Said out.old at (digits_dialogue id) result out.new }
{
    let [p, q, r, s] = id.to_be_bytes();
    let a = octet(out, at, p);
    let b = octet(out, a, q);
    let c = octet(out, b, r);
    octet(out, c, s)
}

// A number with one digit more; one too large for 32 bits is the largest of 32 bits.
fn with_digit(n: u32, base: u8, d: u8) -> u32
    ensures { result ≡ min (n * base + d) 4294967295 }
{
    n.saturating_mul(u32::from(base))
        .saturating_add(u32::from(d))
}

// The number of digits below a base.
fn in_base(s: &[u8], base: u8) -> Option<u32>
    requires { (0 < base) × (base ≤ 16) }
    ensures { result ≡ in_base base s.now }
{
    let mut value = 0;
    for &x in s {
        let d = digit_of(x)?;
        if d >= base {
            return None;
        }
        value = with_digit(value, base, d);
    }
    Some(value)
}

// A decimal number without a sign or leading zeros. One too large for 32 bits is the largest of 32 bits.
pub fn read_decimal(s: &[u8]) -> Option<u32>
    ensures { result ≡ read_decimal s.now }
{
    match s {
        [] => None,
        [b'0', rest @ ..] => rest.is_empty().then_some(0),
        [_, ..] => in_base(s, 10),
    }
}

// A dialogue: 8 hex digits.
pub fn read_dialogue(s: &[u8]) -> Option<u32>
    ensures { result ≡ read_dialogue s.now }
{
    if s.len() != 8 {
        return None;
    }
    in_base(s, 16)
}

// The octet of -n, n from 1 to 128.
// Stays: this and `positive` are two definitions (specs/Digits); `as`, since the ranges say that the number fits.
fn negative(n: u32) -> Option<u8>
    ensures { result ≡ digits_negative (Some n) }
{
    match n {
        0 => None,
        1..=128 => Some((256 - n) as u8),
        _ => None,
    }
}

// The octet of n, n up to 127.
fn positive(n: u32) -> Option<u8>
    ensures { result ≡ digits_positive (Some n) }
{
    match n {
        0..=127 => Some(n as u8),
        _ => None,
    }
}

// An invoke ID, -128 to 127: its octet.
pub fn read_id(s: &[u8]) -> Option<u8>
    ensures { result ≡ read_id s.now }
{
    match s {
        [] => None,
        [b'-', digits @ ..] => negative(read_decimal(digits)?),
        [_, ..] => positive(read_decimal(s)?),
    }
}

// Octets in hex?
fn is_hex(s: &[u8]) -> bool
    ensures { result ≡ is_hex s.now }
{
    s.len() % 2 == 0 && in_base(s, 16).is_some()
}

// Each octet in the place of the digits, from their start.
// Stays: by index, since octets are put over the digits that they are read from; an iterator would hold those borrowed.
fn decode(s: &mut [u8])
    requires { is_hex s.old ≡ true }
    ensures { s.new ≡ sets s.old 0 (digits_octets s.old) }
{
    for i in 0..s.len() / 2 {
        let high = digit_of(s[2 * i]).unwrap();
        let low = digit_of(s[2 * i + 1]).unwrap();
        s[i] = high * 16 + low;
    }
}

// Octets in hex, read in their own place, from its start: how many; none of a text that is none, which stays.
pub fn read_octets(s: &mut [u8]) -> Option<usize>
    ensures { (result ≡ octet_count s.old) × (s.new ≡ read_here s.old) }
{
    if !is_hex(s) {
        return None;
    }
    decode(s);
    Some(s.len() / 2)
}
