// Numbers, segments and sites.
ghost use Rattle.std.specs.Prelude.{◌≡◌, ◌≤◌, length};
ghost use Rattle.location_judge.specs.Readings.{wrong_of, Numbers, Pairs, Tails, Pieces};

use read_bytes::begins;

// A number: the place past it, and its value, or 2^32 where that is less: so it fits, and is above every L of 32 bits exactly if the
// value is.
#[derive(Clone, Copy)]
struct FoundNumber {
    end: usize,
    value: u64,
}

// What is kept of a segment or site.
#[derive(Clone, Copy)]
pub struct Reach {
    pub first: u64,
    pub last: u64,
    pub marks: u32,
}

// A segment or site: the place past it, what is kept of it, and whether it is a site, or a lone `<x` or `>x`.
#[derive(Clone, Copy)]
pub struct FoundPiece {
    pub end: usize,
    pub reach: Reach,
    pub odd: bool,
}

// "Number" means decimal digits, first not `0`, any length.
fn number(s: &[u8], at: usize) -> Option<FoundNumber>
    ensures { Numbers s.now at result }
{
    let &b = s.get(at)?;
    if b < b'1' || b'9' < b {
        return None;
    }
    let mut value = (b - b'0') as u64;
    for i in at + 1..s.len() {
        let d = s[i];
        if d < b'0' || b'9' < d {
            return Some(FoundNumber { end: i, value });
        }
        // So no number of digits wraps.
        value = (value * 10 + (d - b'0') as u64).min(4294967296);
    }
    Some(FoundNumber {
        end: s.len(),
        value,
    })
}

// x and the number at `at`.
fn pair(s: &[u8], at: usize, x: u64, marks: u32, odd: bool) -> Option<FoundPiece>
    requires { 1 ≤ x }
    ensures { Pairs s.now at x marks odd result }
{
    let y = number(s, at)?;
    Some(FoundPiece {
        end: y.end,
        reach: Reach {
            first: x,
            last: y.value,
            marks,
        },
        odd,
    })
}

// Behind the first number x of what may be a range.
fn tail(s: &[u8], at: usize, x: u64, marks: u32, less: bool) -> Option<FoundPiece>
    requires { (1 ≤ x) × (at ≤ length s.now) × (marks ≤ 3) }
    ensures { Tails s.now at x marks less result }
{
    if begins(s, at, b"..") {
        let i = at + 2;
        if begins(s, i, b"&gt;") {
            return pair(s, i + 4, x, marks + 4, false);
        }
        return pair(s, i, x, marks, false);
    }
    Some(FoundPiece {
        end: at,
        reach: Reach {
            first: x,
            last: x,
            marks,
        },
        odd: less,
    })
}

// "Segment: `x`, `x..y`, `<x`, `>x`, `<x..y`, `x..>y`, `<x..>y`. Site: `x^y`"; complemented: it stands in a complement.
pub fn piece(s: &[u8], at: usize, complemented: bool) -> Option<FoundPiece>
    ensures { Pieces s.now at complemented result }
{
    // "Marks add 1 complement": what the other marks are added to.
    let base = u32::from(complemented);
    if begins(s, at, b"&gt;") {
        let x = number(s, at + 4)?;
        return Some(FoundPiece {
            end: x.end,
            reach: Reach {
                first: x.value,
                last: x.value,
                marks: base + 4,
            },
            odd: true,
        });
    }
    if begins(s, at, b"&lt;") {
        let x = number(s, at + 4)?;
        return tail(s, x.end, x.value, base + 2, true);
    }
    let x = number(s, at)?;
    if begins(s, x.end, b"^") {
        return pair(s, x.end + 1, x.value, base + 8, true);
    }
    tail(s, x.end, x.value, base, false)
}

// Rule 25, of what is kept of a segment or site.
pub fn is_wrong(a: Reach, top: u32) -> bool
    ensures { result ≡ wrong_of top a.first a.last a.marks }
{
    let l = top as u64;
    if l < a.first || l < a.last {
        return true;
    }
    if a.marks < 8 {
        return a.last < a.first;
    }
    a.last != a.first + 1 && (a.first != l || a.last != 1)
}
