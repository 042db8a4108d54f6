// Translations written: the translation in lent room. It relies on the paper, on the reading of the coding text and on its measuring,
// and in its proofs on lent_room's laws.
#![tactic(auto)]

ghost use Rattle.std.specs.Prelude.{◌≡◌, true, ◌+◌, ◌*◌, ◌≤◌, length};
ghost use Rattle.protein_code.specs.Tables.{code_of};
ghost use Rattle.protein_codons.specs.Reading.{Ready, PlainBlock};
ghost use Rattle.protein_codons.specs.Letters.{letters_in};
ghost use Rattle.protein_write.specs.Writing.{LaysLettersOn, LaysLetters, PutsLetters, WritesTranslation};

use protein_codons::{Coding, CodingText, Reading, WholeCodons};
use protein_measure::{Untranslated, measure};

// The letters of the codons of a span from `start` to before `end`, laid into out behind those of the codons before, looked up one by
// one; those of a PLAIN block by the table of plain codons.
fn lay_each<const PLAIN: bool>(
    x: &WholeCodons,
    from: usize,
    start: usize,
    end: usize,
    out: &mut [u8],
)
    requires start_le_end { start ≤ end }
    requires end_bound { x.now.span.low + 3 * end ≤ x.now.span.high }
    requires end_in_bounds { from + end ≤ length out.old }
    requires plain { PLAIN ≡ true → (end ≡ start + 64) × PlainBlock x.now.r.now x.now.span.low x.now.span.high x.now.span.turned start }
    ensures { LaysLettersOn (letters_in x.now) from start end out.old out.new }
{
    for k in start..end {
        out[from + k] = x.letter_at::<PLAIN>(k);
    }
}

// The same for all blocks of the first `whole` codons: how many codons.
fn lay_blocks(x: &WholeCodons, from: usize, whole: usize, out: &mut [u8]) -> usize
    requires whole_bound { x.now.span.low + 3 * whole ≤ x.now.span.high }
    requires whole_in_bounds { from + whole ≤ length out.old }
    ensures { (result ≤ whole) × LaysLettersOn (letters_in x.now) from 0 result out.old out.new }
{
    for block in 0..whole / 64 {
        let k = 64 * block;
        if x.span.plain_block(x.r, k) {
            lay_each::<true>(x, from, k, k + 64, out);
        } else {
            lay_each::<false>(x, from, k, k + 64, out);
        }
    }
    whole / 64 * 64
}

// The letters of codons at the front of a span, laid into out from `from` to before `count`: how many.
fn lay(x: &WholeCodons, from: usize, count: usize, out: &mut [u8]) -> usize
    requires from_le_count { from ≤ count }
    requires count_in_bounds { count ≤ length out.old }
    ensures { LaysLetters x.now.span.low x.now.span.high (letters_in x.now) from count result out.old out.new }
{
    let whole = ((x.span.high - x.span.low) / 3).min(count - from);
    let k = lay_blocks(x, from, whole, out);
    lay_each::<false>(x, from, k, whole, out);
    whole
}

// The next `count` letters at the front of out.
fn put(text: &CodingText, from: Reading, count: usize, out: &mut [u8])
    requires ready { Ready (length text.now.of.r.now) from }
    requires count_in_bounds { count ≤ length out.old }
    ensures { PutsLetters (code_of text.now.of.code.now) text.now.of.r.now text.now.of.loc.now text.now.of.top from count out.old out.new }
{
    let mut x = from;
    let mut k: usize = 0;
    loop {
        let codons = WholeCodons {
            r: text.of.r,
            span: x.span,
            code: text.of.code,
        };
        let n = lay(&codons, k, count, out);
        let j = k + n;
        let passed = x.onward(n);
        if count <= j {
            return;
        }
        match text.next(passed) {
            None => {
                return;
            }
            Some((c, y)) => {
                out[j] = c;
                x = y;
                k = j + 1;
            }
        }
    }
}

// The translation at the front of out, and its length; or nothing is written.
pub fn write(coding: &Coding, out: &mut [u8]) -> Result<usize, Untranslated>
    ensures { WritesTranslation (code_of coding.now.code.now) coding.now.r.now coding.now.loc.now coding.now.top coding.now.frame out.old result out.new }
{
    if coding.r.len() < coding.top as usize {
        return Err(Untranslated::Stop);
    }
    let n = measure(coding, out.len())?;
    let text = CodingText { of: *coding };
    put(&text, text.begin(), n, out);
    Ok(n)
}
