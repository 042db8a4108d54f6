// Translations measured: a translation's length, with no room and nothing written; and whether a stop stands inside. It relies on the
// paper, on the reading of the coding text and on the tests of blocks.
#![tactic(auto)]

ghost use Rattle.std.specs.Prelude.{◌+◌, ◌*◌, ◌≤◌};
ghost use Rattle.protein_code.specs.Tables.{code_of};
ghost use Rattle.protein_codons.specs.Letters.{letters_in, Clear};
ghost use Rattle.protein_measure.specs.Measuring.{InRoom, Counted, Measures};

use protein_blocks::{mark_table, stops};
use protein_codons::{Coding, CodingText, WholeCodons};

// Why a translation has no length that is given.
#[derive(Clone, Copy)]
pub enum Untranslated {
    // It is longer than the room.
    Short,
    // A stop stands inside.
    Stop,
}

// k letters more than were counted, or None: more than the room holds. So no count overflows, however often a location's members repeat.
fn counted(count: Option<usize>, k: usize, room: usize) -> Option<usize>
    requires { InRoom room count }
    ensures { Counted room count k result }
{
    let n = count?;
    if room - n < k {
        return None;
    }
    Some(n + k)
}

// How many codons at the front of a span are no stop, where those before `from` are none: the codons up to `end` are looked up one by one.
fn clear_each(x: &WholeCodons, from: usize, end: usize) -> usize
    requires from_le_end { from ≤ end }
    requires end_bound { x.now.span.low + 3 * end ≤ x.now.span.high }
    requires clear { Clear x.now.span.low x.now.span.high (letters_in x.now) from }
    ensures { Clear x.now.span.low x.now.span.high (letters_in x.now) result }
{
    for k in from..end {
        if x.letter_at::<false>(k) == b'*' {
            return k;
        }
    }
    end
}

// The same in blocks, as far as no block may have a stop and two residues more stand behind it.
fn clear_blocks(x: &WholeCodons, from: usize) -> usize
    requires { Clear x.now.span.low x.now.span.high (letters_in x.now) from }
    ensures { Clear x.now.span.low x.now.span.high (letters_in x.now) result }
{
    let blocks = ((x.span.high - x.span.low) / 3 - from) / 64;
    // A span without a block needs no table.
    if blocks == 0 {
        return from;
    }
    let marks = mark_table();
    for block in 0..blocks {
        let k = from + 64 * block;
        let at = x.span.block_at(k);
        if x.r.len() - at < 194 {
            return k;
        }
        if stops(x.r, at, x.span.turned, &marks, x.code) != 0 {
            return k;
        }
    }
    from + 64 * blocks
}

// How many codons at the front of a span are no stop. The first is looked up: then two residues stand behind a block on the complemented
// strand too.
fn clear(x: &WholeCodons) -> usize
    ensures { Clear x.now.span.low x.now.span.high (letters_in x.now) result }
{
    let whole = (x.span.high - x.span.low) / 3;
    let first = clear_each(x, 0, whole.min(1));
    let k = clear_blocks(x, first);
    clear_each(x, k, whole)
}

// The translation's length, for room of so many bytes.
pub fn measure(coding: &Coding, room: usize) -> Result<usize, Untranslated>
    ensures { Measures (code_of coding.now.code.now) coding.now.r.now coding.now.loc.now coding.now.top coding.now.frame room result }
{
    if coding.r.len() < coding.top as usize {
        return Err(Untranslated::Stop);
    }
    let text = CodingText { of: *coding };
    let mut x = text.begin();
    let mut count = Some(0);
    loop {
        let codons = WholeCodons {
            r: coding.r,
            span: x.span,
            code: coding.code,
        };
        let k = clear(&codons);
        let passed = counted(count, k, room);
        match text.next(x.onward(k)) {
            None => {
                return passed.ok_or(Untranslated::Short);
            }
            Some((c, y)) => {
                if c == b'*' {
                    if text.ends(y) {
                        return passed.ok_or(Untranslated::Short);
                    }
                    return Err(Untranslated::Stop);
                }
                count = counted(passed, 1, room);
                x = y;
            }
        }
    }
}
