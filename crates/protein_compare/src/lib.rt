// Translations compared: whether a qualifier's value is the translation (rule 28), letter after letter and without room. It relies on the
// paper and on the reading of the coding text.
#![tactic(auto)]

ghost use Rattle.std.specs.Prelude.{◌≡◌, true, ◌+◌, ◌*◌, ◌≤◌, length};
ghost use Rattle.protein_code.specs.Tables.{code_of};
ghost use Rattle.protein_codons.specs.Reading.{PlainBlock};
ghost use Rattle.protein_codons.specs.Letters.{letters_in};
ghost use Rattle.protein_compare.specs.Comparing.{Same, Compares};

use protein_codons::{Coding, CodingText, WholeCodons};

// How many codons at the front of a span give the letters of the value from `from` on, and no stop, where those before `start` do: the
// codons up to `end` are looked up one by one, those of a PLAIN block by the table of plain codons.
fn same_each<const PLAIN: bool>(
    x: &WholeCodons,
    value: &[u8],
    from: usize,
    start: usize,
    end: usize,
) -> usize
    requires start_le_end { start ≤ end }
    requires end_bound { x.now.span.low + 3 * end ≤ x.now.span.high }
    requires end_in_bounds { from + end ≤ length value.now }
    requires plain { PLAIN ≡ true → (end ≡ start + 64) × PlainBlock x.now.r.now x.now.span.low x.now.span.high x.now.span.turned start }
    requires same { Same x.now.span.low x.now.span.high (letters_in x.now) value.now from start }
    ensures { Same x.now.span.low x.now.span.high (letters_in x.now) value.now from result }
{
    for k in start..end {
        let a = x.letter_at::<PLAIN>(k);
        if a == b'*' {
            return k;
        }
        if value[from + k] != a {
            return k;
        }
    }
    end
}

// The same in all blocks of the first `whole` codons, as far as their residues are plain. protein_measure and protein_write walk blocks in
// a loop of their own: what ends each differs, and one walk that took it as a closure would need its promise and proof besides.
fn same_blocks(x: &WholeCodons, value: &[u8], from: usize, whole: usize) -> usize
    requires whole_bound { x.now.span.low + 3 * whole ≤ x.now.span.high }
    requires whole_in_bounds { from + whole ≤ length value.now }
    ensures { Same x.now.span.low x.now.span.high (letters_in x.now) value.now from result }
{
    for block in 0..whole / 64 {
        let k = 64 * block;
        if !x.span.plain_block(x.r, k) {
            return k;
        }
        let n = same_each::<true>(x, value, from, k, k + 64);
        if n != k + 64 {
            return n;
        }
    }
    whole / 64 * 64
}

// How many codons at the front of a span give the letters of the value from `from` on, and no stop.
fn same(x: &WholeCodons, value: &[u8], from: usize) -> usize
    requires { from ≤ length value.now }
    ensures { Same x.now.span.low x.now.span.high (letters_in x.now) value.now from result }
{
    let whole = ((x.span.high - x.span.low) / 3).min(value.len() - from);
    let k = same_blocks(x, value, from, whole);
    same_each::<false>(x, value, from, k, whole)
}

// The value is the raw part of the listing. No letter is looked up past the first difference, and no residue is read more than one codon
// past the value's length, but for the look whether a stop is the last: so a check stays linear, however often a location's members
// repeat.
pub fn is_right(coding: &Coding, value: &[u8]) -> bool
    ensures { Compares (code_of coding.now.code.now) coding.now.r.now coding.now.loc.now coding.now.top coding.now.frame value.now result }
{
    if coding.r.len() < coding.top as usize {
        return false;
    }
    let text = CodingText { of: *coding };
    let mut x = text.begin();
    let mut i: usize = 0;
    loop {
        let codons = WholeCodons {
            r: coding.r,
            span: x.span,
            code: coding.code,
        };
        let k = same(&codons, value, i);
        let j = i + k;
        match text.next(x.onward(k)) {
            None => {
                return j == value.len();
            }
            Some((c, y)) => {
                if c == b'*' {
                    if j < value.len() {
                        return false;
                    }
                    return text.ends(y);
                }
                if value.len() <= j {
                    return false;
                }
                if value[j] != c {
                    return false;
                }
                x = y;
                i = j + 1;
            }
        }
    }
}
