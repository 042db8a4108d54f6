// Blocks: 64 codons at a time, in the 192 residues from a place on. A test of each residue or codon is a number, and all are joined with
// no branch, so that each loop is compiled to vector code. It relies on the paper and on the tests of protein_code.
#![tactic(auto)]

ghost use Rattle.std.specs.Prelude.{◌≡◌, ◌+◌, ◌≤◌, length};
ghost use Rattle.protein_code.specs.Tables.{Coded, code_of};
ghost use Rattle.protein_blocks.specs.Blocks.{Marks, NoStop, AllPlain};

use protein_code::{may_stop, no_plain};

// All bits where a codon of a block starts, else none.
const MARKS: [u8; 192] = *b"\
    \xff\0\0\xff\0\0\xff\0\0\xff\0\0\xff\0\0\xff\0\0\xff\0\0\xff\0\0\xff\0\0\xff\0\0\xff\0\0\xff\0\0\xff\0\0\xff\0\0\xff\0\0\xff\0\0\
    \xff\0\0\xff\0\0\xff\0\0\xff\0\0\xff\0\0\xff\0\0\xff\0\0\xff\0\0\xff\0\0\xff\0\0\xff\0\0\xff\0\0\xff\0\0\xff\0\0\xff\0\0\xff\0\0\
    \xff\0\0\xff\0\0\xff\0\0\xff\0\0\xff\0\0\xff\0\0\xff\0\0\xff\0\0\xff\0\0\xff\0\0\xff\0\0\xff\0\0\xff\0\0\xff\0\0\xff\0\0\xff\0\0\
    \xff\0\0\xff\0\0\xff\0\0\xff\0\0\xff\0\0\xff\0\0\xff\0\0\xff\0\0\xff\0\0\xff\0\0\xff\0\0\xff\0\0\xff\0\0\xff\0\0\xff\0\0\xff\0\0";

// The marks with their rule.
pub fn mark_table() -> [u8; 192]
    ensures { Marks result }
{
    MARKS
}

// 0 only where none of the codons from `at` on is a stop on the strand. Each residue is tried as the start of a codon, and the marks say
// which are: so the residues are read one after another, as vector code reads them on any machine. Two residues behind the block are read
// too.
pub fn stops(r: &[u8], at: usize, turned: bool, marks: &[u8; 192], code: &[u8; 5128]) -> u8
    requires at_in_bounds { at + 194 ≤ length r.now }
    requires marks { Marks marks.now }
    requires coded { Coded code.now }
    ensures { result ≡ 0 → NoStop (code_of code.now) r.now turned at 192 }
{
    let mut any: u8 = 0;
    for j in 0..192 {
        let p = at + j;
        any = any | may_stop(r[p], r[p + 1], r[p + 2], turned, code) & marks[j];
    }
    any
}

// 0 only where the residues from `at` on are all plain.
pub fn strange(r: &[u8], at: usize) -> u8
    requires { at + 192 ≤ length r.now }
    ensures { result ≡ 0 → AllPlain r.now at 192 }
{
    let mut any: u8 = 0;
    for j in 0..192 {
        any = any | no_plain(r[at + j]);
    }
    any
}
