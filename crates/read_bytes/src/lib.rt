// Bytes, wherever they are read: whether a word stands at a place, two of them as one number, and a test of two that is a number.
#![tactic(auto)]

ghost use Rattle.std.specs.Prelude.{◌≡◌, eqb};
ghost use Rattle.read_bytes.specs.Words.{There};
ghost use Rattle.read_bytes.specs.Numbers.{LowFirst, flag};

// Whether the word x stands here.
pub fn begins(s: &[u8], at: usize, x: &[u8]) -> bool
    ensures { There x.now s.now at result }
{
    if s.len() < at || s.len() - at < x.len() {
        return false;
    }
    // By index, so that it is compiled into its callers: `starts_with` was tried, and isn't.
    for i in 0..x.len() {
        if s[at + i] != x[i] {
            return false;
        }
    }
    true
}

// Two bytes as one number, the first lowest.
pub fn two(a: u8, b: u8) -> u64
    ensures { LowFirst a b result }
{
    a as u64 + 256 * (b as u64)
}

// 1 where two bytes are equal, else 0: a number, so that a loop that joins many is compiled to vector code.
pub fn equal(a: u8, b: u8) -> u8
    ensures { result ≡ flag (eqb a b) }
{
    (a == b) as u8
}
