// The residues of a sequence: how many characters they are, where the first stands that is no symbol of its kind, and whether enough of
// them are defined. Relies on the paper, on read_bytes, and on the laws of value_words: what a test tells, and what is written as it
// reads. It calls none of the functions of value_words.
#![tactic(auto)]

ghost use Rattle.std.specs.Prelude.{◌≡◌, ◌+◌, ◌<◌, ◌≤◌, length};
ghost use Rattle.read_bytes.specs.Numbers.{flag};
ghost use Rattle.value_residues.specs.Residues.{NextCharacter, SameOf64, Passes, Others, Characters, HasDefined, SymbolTable, Symbols, is_outside, Strange, Block, Reach, Foreign};

use read_bytes::equal;
use std::num::wrapping_add_u8;

// Some characters, counted: those that begin with another byte than a given one, and where the next character starts.
#[derive(Clone, Copy)]
struct Passed {
    count: usize,
    next: usize,
}

// The class of each byte, sixteen to a line: 1 for the symbols of DNA and RNA, 2 for those of AA, 0 for neither.
const SYMBOLS: [u8; 256] = *b"\
    \0\0\0\0\0\0\0\0\0\0\0\0\0\0\0\0\
    \0\0\0\0\0\0\0\0\0\0\0\0\0\0\0\0\
    \0\0\0\0\0\0\0\0\0\0\0\0\0\0\0\0\
    \0\0\0\0\0\0\0\0\0\0\0\0\0\0\0\0\
    \0\x02\x02\x02\x02\x02\x02\x02\x02\x02\x02\x02\x02\x02\x02\x02\
    \x02\x02\x02\x02\x02\x02\x02\x02\x02\x02\x02\0\0\0\0\0\
    \0\x01\x01\x01\x01\0\0\x01\x01\0\0\x01\0\x01\x01\0\
    \0\0\x01\x01\x01\0\x01\x01\0\x01\0\0\0\0\0\0\
    \0\0\0\0\0\0\0\0\0\0\0\0\0\0\0\0\
    \0\0\0\0\0\0\0\0\0\0\0\0\0\0\0\0\
    \0\0\0\0\0\0\0\0\0\0\0\0\0\0\0\0\
    \0\0\0\0\0\0\0\0\0\0\0\0\0\0\0\0\
    \0\0\0\0\0\0\0\0\0\0\0\0\0\0\0\0\
    \0\0\0\0\0\0\0\0\0\0\0\0\0\0\0\0\
    \0\0\0\0\0\0\0\0\0\0\0\0\0\0\0\0\
    \0\0\0\0\0\0\0\0\0\0\0\0\0\0\0\0";

// The table, with its rule: a caller takes it once and lends it on.
pub fn symbol_table() -> [u8; 256]
    ensures { SymbolTable result }
{
    SYMBOLS
}

// Where the next character starts, behind an entity's `;`.
#[tactic(auto, using(crate::proofs::Counting::one_byte, crate::proofs::Counting::inside_first))]
fn next_character(w: &[u8], at: usize) -> usize
    requires { at < length w.now }
    ensures { NextCharacter w.now at result }
{
    if w[at] != b'&' {
        return at + 1;
    }
    for i in at + 1..w.len() {
        if w[i] == b';' {
            return i + 1;
        }
    }
    w.len()
}

// How many of 64 bytes are this one; 255 where an entity begins among them. With no branch: it is compiled to vector code.
fn same_of_64(w: &[u8], at: usize, b: u8) -> u8
    requires { at + 64 ≤ length w.now }
    ensures { SameOf64 w.now at b result }
{
    let mut same: u8 = 0;
    let mut amp: u8 = 0;
    for j in 0..64 {
        same += equal(w[at + j], b);
        amp |= equal(w[at + j], b'&');
    }
    if amp == 0 { same } else { 255 }
}

// Some characters: how many of them begin with another byte than this, and where the next one starts. 64 bytes, or one character.
fn ahead(w: &[u8], at: usize, but: u8) -> Passed
    requires { at < length w.now }
    ensures { Passes w.now at but result }
{
    if 64 <= w.len() - at {
        let same = same_of_64(w, at, but);
        if same <= 64 {
            return Passed {
                count: 64 - same as usize,
                next: at + 64,
            };
        }
    }
    let next = next_character(w, at);
    if w[at] == but {
        return Passed { count: 0, next };
    }
    Passed { count: 1, next }
}

// How many characters begin with another byte than this, up to a limit. An entity is one; little more is read than it takes. The loop goes
// on by what `ahead` passes, 64 bytes or a character, so there is no `for`.
fn others(w: &[u8], but: u8, most: usize) -> usize
    ensures { Others w.now but most result }
{
    let mut n: usize = 0;
    let mut i: usize = 0;
    while i < w.len() && n < most {
        let Passed { count, next } = ahead(w, i, but);
        n += count;
        i = next;
    }
    if n < most { n } else { most }
}

// How many characters it is written from: none begins with `<`.
pub fn characters(w: &[u8]) -> usize
    ensures { Characters w.now result }
{
    others(w, b'<', w.len())
}

// Whether at least so many characters aren't the undefined one.
pub fn has_defined(w: &[u8], undefined: u8, enough: usize) -> bool
    ensures { HasDefined w.now undefined enough result }
{
    enough <= others(w, undefined, enough)
}

// 0 for a byte from one letter to another, else 1.
fn outside(b: u8, first: u8, last: u8) -> u8
    ensures { result ≡ flag (is_outside first last b) }
{
    if b < first || last < b { 1 } else { 0 }
}

// 0 only for the bases and `n`, which most residues are.
fn no_base(b: u8) -> u8
    ensures { Strange b 1 result }
{
    equal(
        equal(b, b'a') | equal(b, b'c') | equal(b, b'g') | equal(b, b't') | equal(b, b'n'),
        0,
    )
}

// 0 only for the symbols of DNA and RNA: from `a` to `y` all but ten letters. `q` and `u` differ in one bit, so do `p` and `x`, and the
// letters three behind `e`, `f`, `i` and `j` in two: one comparison rules out all that differ so.
fn no_nucleotide(b: u8) -> u8
    ensures { Strange b 1 result }
{
    let efij = equal(wrapping_add_u8(b, 3) & 0xfa, b'h');
    let qu = equal(b & 0xfb, b'q');
    let px = equal(b & 0xf7, b'p');
    outside(b, b'a', b'y') | efij | qu | px | equal(b, b'l') | equal(b, b'o')
}

// 0 only for the symbols of AA.
fn no_amino(b: u8) -> u8
    ensures { Strange b 2 result }
{
    outside(b, b'A', b'Z')
}

// 0 only for symbols of the class; the rarer ones of DNA and RNA are told only where that is asked.
fn strange(b: u8, class: u8, rarer: bool) -> u8
    ensures { Strange b class result }
{
    if class == 2 {
        return no_amino(b);
    }
    if class != 1 {
        return 1;
    }
    if rarer {
        return no_nucleotide(b);
    }
    no_base(b)
}

// 0 only where 64 bytes are symbols of the class. Joined with no branch, and not summed: it is compiled to vector code.
fn block(w: &[u8], at: usize, class: u8, rarer: bool) -> u8
    requires { at + 64 ≤ length w.now }
    ensures { Block w.now class at result }
{
    let mut bad: u8 = 0;
    for j in 0..64 {
        bad |= strange(w[at + j], class, rarer);
    }
    bad
}

// How far blocks of symbols reach from `from` on, before `end`. The place is the answer, and 64 bytes must be left: a `for` is no plainer.
fn reach(w: &[u8], from: usize, end: usize, class: u8, rarer: bool) -> usize
    requires end_in_bounds { end ≤ length w.now }
    requires from_le_end { from ≤ end }
    ensures { Reach w.now class from result }
{
    let mut i = from;
    while 64 <= end - i {
        if block(w, i, class, rarer) != 0 {
            return i;
        }
        i += 64;
    }
    i
}

// The first byte from `from` on that is no symbol of the class, by the table.
#[tactic(auto, using(crate::proofs::Residues::foreign_here))]
fn foreign(w: &[u8], from: usize, class: u8, t: &[u8; 256]) -> usize
    requires from_in_bounds { from ≤ length w.now }
    requires symbol_table { SymbolTable t.now }
    ensures { Foreign w.now class from result }
{
    for i in from..w.len() {
        if t[w[i] as usize] != class {
            return i;
        }
    }
    w.len()
}

// How far symbols are passed from `from` on: by blocks of the common ones; then by some blocks of all, for a rarer one seldom comes alone.
fn sweep(w: &[u8], from: usize, class: u8) -> usize
    requires { from ≤ length w.now }
    ensures { Reach w.now class from result }
{
    let at = reach(w, from, w.len(), class, false);
    let near = if 256 <= w.len() - at {
        at + 256
    } else {
        w.len()
    };
    reach(w, at, near, class, true)
}

// How many bytes are written before the first residue that is no symbol of the class: by blocks, and by the table where none is passed
// any more. The first sweep, the only one for most sequences, stands before the loop: there it is compiled to faster code.
// `class` is a number and no enum: `symbols` promises `within` of any class, and an enum would take fewer.
pub fn symbols(w: &[u8], class: u8, t: &[u8; 256]) -> usize
    requires { SymbolTable t.now }
    ensures { Symbols w.now class result }
{
    let mut i = sweep(w, 0, class);
    loop {
        let next = sweep(w, i, class);
        if next == i {
            return foreign(w, i, class, t);
        }
        i = next;
    }
}
