// A lent dictionary: the number of a text among those that it has, by one slot and one comparison, eight or four bytes at a time.
// A dictionary is a part of a lent table, from a place on: a slot for each hash, with a text's number; where each text starts and how long
// it is, in two bytes; the texts. It is no map of the library's: there is no heap, and the table is a constant. Which texts they are, this
// crate doesn't know. Relies on the bytes and steps of reading.
#![tactic(auto)]

ghost use Rattle.std.specs.Prelude.{◌≡◌, ◌+◌, ◌<◌, ◌≤◌, length, drop};
ghost use Rattle.value_dictionary.specs.Texts.{byte_of, pair_of, slot_of, place_of, FindsText};

use read_bytes::begins;
use read_steps::{stands, stands_short};

// A byte of the part from `base` on.
fn byte_at(t: &[u8], base: usize, i: usize) -> usize
    requires { base + i < length t.now }
    ensures { (result ≡ byte_of (drop base t.now) i) × (result < 256) }
{
    t[base + i] as usize
}

// Two bytes as a number, the low one first.
pub fn pair_at(t: &[u8], base: usize, i: usize) -> usize
    requires { base + i + 1 < length t.now }
    ensures { (result ≡ pair_of (drop base t.now) i) × (result < 65_536) }
{
    byte_at(t, base, i) + 256 * byte_at(t, base, i + 1)
}

// The slot of a text: three of its bytes, times the dictionary's factor, under its mask.
fn slot_of(w: &[u8], factor: usize, mask: usize) -> usize
    requires in_bounds { 2 ≤ length w.now }
    requires factor_bound { factor < 16_777_216 }
    ensures { (result ≡ slot_of factor mask w.now) × (result ≤ mask) }
{
    let n = w.len();
    let p = byte_at(w, 0, 0) + 256 * byte_at(w, 0, n - 2) + 65_536 * byte_at(w, 0, n / 2);
    p * factor / 16_777_216 & mask
}

// The number of a text, if it is one of the dictionary's. Whatever number a slot has, its two bytes lie in the table. Of the first two
// comparisons only a yes says something.
pub fn find(w: &[u8], t: &[u8], base: usize, factor: usize, mask: usize) -> Option<usize>
    requires factor_bound { factor < 16_777_216 }
    requires mask_bound { mask < 256 }
    requires base_bound { base ≤ 65_536 }
    requires mask_in_bounds { base + mask + 512 < length t.now }
    ensures { (FindsText factor mask (drop base t.now) w.now result) × (place_of result < 256) }
{
    let n = w.len();
    if n < 2 {
        return None;
    }
    let k = byte_at(t, base, slot_of(w, factor, mask));
    let entry = pair_at(t, base, mask + 1 + 2 * k);
    if entry % 32 != n {
        return None;
    }
    let from = base + entry / 32;
    if stands(t, from, w) || stands_short(t, from, w) || begins(t, from, w) {
        return Some(k);
    }
    None
}
