// The free map (01, "Sizes"): "A free place is found in a map of 64-bit words, one bit a place; the lowest is taken."
// It is the first 16 octets of the table; a bit is set where its place is free.
// Stays: the functions take the table as the C interface lends it, a slice, and no array: a change of the map is a change of the table (with_bit, without_bit).
#![tactic(auto)]

ghost use Rattle.std.specs.Prelude.{◌≡◌, ◌++◌, ◌+◌, ◌*◌, ◌-◌, ◌≤◌, ◌<◌, length, take};
ghost use Rattle.laws.specs.Digits.{digits, lowest, count, octet_digits, word_at};
ghost use Rattle.paper.specs.Sizes.{places_in_all};
ghost use Rattle.paper.specs.Layout.{map_size, map_bit};
ghost use Rattle.table_map.specs.Map.{with_bit, without_bit};

// Eight octets as a word, least significant first.
pub fn word(t: &[u8], a: usize) -> u64
    requires { a + 8 ≤ length t.now }
    ensures { result ≡ word_at t.now a }
{
    u64::from_le_bytes(*t[a..].first_chunk().unwrap())
}

fn lowest_of(low: u64, high: u64) -> u32
    ensures { (result ≡ lowest (digits 64 low ++ digits 64 high)) × (result ≤ places_in_all) }
{
    if low != 0 {
        low.trailing_zeros()
    } else {
        64 + high.trailing_zeros()
    }
}

// The lowest free place, 128 where there is none.
// Stays: none is the number 128 in the definition lowest, and comes of trailing_zeros without a test.
pub fn lowest_free(t: &[u8]) -> usize
    requires { map_size ≤ length t.now }
    ensures { (result ≡ lowest (octet_digits (take map_size t.now))) × (result ≤ places_in_all) }
{
    // Stays: `as`, since no `From` makes a usize of a u32.
    lowest_of(word(t, 0), word(t, 8)) as usize
}

fn count_of(low: u64, high: u64) -> u32
    ensures { (result ≡ count (digits 64 low ++ digits 64 high)) × (result ≤ places_in_all) }
{
    low.count_ones() + high.count_ones()
}

// How many places are free.
pub fn free_count(t: &[u8]) -> u32
    requires { map_size ≤ length t.now }
    ensures { (result ≡ count (octet_digits (take map_size t.now))) × (result ≤ places_in_all) }
{
    count_of(word(t, 0), word(t, 8))
}

// The bit of place p.
pub fn bit_at(t: &[u8], p: usize) -> u8
    requires { (p < places_in_all) × (map_size ≤ length t.now) }
    ensures { (result ≡ map_bit t.now p) × (result < 2) }
{
    let i = p / 8;
    let q = p % 8;
    (t[i] >> q) % 2
}

// The bit of place p, which was clear, is set.
// Stays: this and clear_bit are two promises (with_bit, without_bit); what they share is where the bit stands.
pub fn set_bit(t: &mut [u8], p: usize)
    requires { (p < places_in_all) × (map_size ≤ length t.old) × (map_bit t.old p ≡ 0) }
    ensures { t.new ≡ with_bit t.old p }
{
    let i = p / 8;
    let q = p % 8;
    t[i] += 1 << q;
}

// The bit of place p, which was set, is cleared.
pub fn clear_bit(t: &mut [u8], p: usize)
    requires { (p < places_in_all) × (map_size ≤ length t.old) × (map_bit t.old p ≡ 1) }
    ensures { t.new ≡ without_bit t.old p }
{
    let i = p / 8;
    let q = p % 8;
    t[i] -= 1 << q;
}
