// Genetic codes: from three residues of a sequence to the letter of a protein, on either strand; and for speed from three plain bases to
// it at once, with tests of stops and of plain bases. All of a code that is looked up is one lent table (tables.rt), with one promise. It
// relies on the paper and on read_bytes. A constant array is stored anew wherever it is named, so a table is named once, in the function
// that hands it out; a public call takes it there and lends it on.
#![tactic(auto)]

mod tables;

ghost use Rattle.std.specs.Prelude.{◌≡◌, ◌+◌, ◌<◌, false, slice_index};
ghost use Rattle.paper.specs.Translation.{code1, codon_letter};
ghost use Rattle.protein_code.specs.Stops.{has_sum, is_stop, letter_here};
ghost use Rattle.protein_code.specs.Plain.{Plain, plain_number};
ghost use Rattle.protein_code.specs.Tables.{sets_letter, on_strand, SetAt, plain_from, CodeTable, Coded, code_of};

use read_bytes::{equal, two};
use std::num::wrapping_add_u8;

// The table of code 1.
pub fn code_table() -> [u8; 5128]
    ensures { CodeTable code1 result }
{
    tables::CODE_1
}

// `Coded` stands at each call that takes a table: a struct of the table that says so was tried, `Table`, and a caller can't put its own
// table in one into a `Coding` (protein_codons), since a field that is a struct of references has to have the struct's lifetime.
// The base set of a residue as it is read on a strand.
pub fn set_of(b: u8, turned: bool, code: &[u8; 5128]) -> usize
    requires { Coded code.now }
    ensures { SetAt turned b result }
{
    if turned {
        return code[4352 + b as usize] as usize;
    }
    code[4096 + b as usize] as usize
}

// The letter of three base sets.
pub fn letter(x: usize, y: usize, z: usize, code: &[u8; 5128]) -> u8
    requires coded { Coded code.now }
    requires x_bound { (x < 16) × ((y < 16) × (z < 16)) }
    ensures { result ≡ sets_letter (code_of code.now) x y z }
{
    code[x * 256 + y * 16 + z]
}

// The letter of a codon, of its residues as they are read on a strand.
pub fn codon(a: u8, b: u8, c: u8, turned: bool, code: &[u8; 5128]) -> u8
    requires { Coded code.now }
    ensures { result ≡ codon_letter (code_of code.now) (on_strand turned a) (on_strand turned b) (on_strand turned c) }
{
    letter(
        set_of(a, turned, code),
        set_of(b, turned, code),
        set_of(c, turned, code),
        code,
    )
}

// ---- tests as numbers, with no branch, so that a loop that joins them is compiled to vector code

// 0 only where the first byte isn't this one, or the sum of the two others is none of three.
fn has_sum(x: u8, y: u8, z: u8, f: u8, p: u8, q: u8, r: u8) -> u8
    ensures { result ≡ 0 → has_sum f p q r x y z ≡ false }
{
    let sum = wrapping_add_u8(y, z);
    equal(x, f) & (equal(sum, p) | equal(sum, q) | equal(sum, r))
}

// 0 only where three residues, as they stand, are no stop on a strand.
pub fn may_stop(x: u8, y: u8, z: u8, turned: bool, code: &[u8; 5128]) -> u8
    requires { Coded code.now }
    ensures { result ≡ 0 → is_stop (letter_here (code_of code.now) turned x y z) ≡ false }
{
    if turned {
        return has_sum(z, y, x, code[5124], code[5125], code[5126], code[5127]);
    }
    has_sum(x, y, z, code[5120], code[5121], code[5122], code[5123])
}

// 0 only for the plain bases.
pub fn no_plain(b: u8) -> u8
    ensures { result ≡ 0 → Plain b }
{
    equal(
        equal(b, b'a') | equal(b, b'c') | equal(b, b'g') | equal(b, b't'),
        0,
    )
}

// ---- plain codons

// The letter of three plain residues x, y, z, as they stand, on a strand. The residue w behind them says nothing: with it the four are
// compiled to one load.
pub fn plain_letter(x: u8, y: u8, z: u8, w: u8, turned: bool, code: &[u8; 5128]) -> u8
    ensures { result ≡ slice_index code.now (plain_from turned + plain_number x y z w) }
{
    let n = ((two(x, y) + 65_536 * two(z, w)) * tables::FACTOR / 16_777_216 % 256) as usize;
    if turned {
        return code[4864 + n];
    }
    code[4608 + n]
}
