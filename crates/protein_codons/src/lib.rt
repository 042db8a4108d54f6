// The coding text of a location from the codon_start on, read residue by residue and codon by codon, without room: the walk over the
// spans, and the current span. It relies on the paper, the location's walk and the table of a code. A caller takes the table once and
// lends it to each call. A promise, here and in the crates above, speaks of whichever location, that keeps rule 25, the part is written
// from.
#![tactic(auto)]

ghost use Rattle.std.specs.Prelude.{◌≡◌, true, ◌+◌, ◌*◌, ◌≤◌, ◌<◌, length, get_or};
ghost use Rattle.protein_code.specs.Tables.{Coded, code_of};
ghost use Rattle.protein_blocks.specs.Blocks.{AllPlain};
ghost use Rattle.protein_codons.specs.Reading.{Ready, span_letters, place_of, block_of, PlainBlock, Opens, Fills, Bases, Onward, Skips, Letters, BeginsText, Ends};

use location_spans::walking::{Triple, Walk, start, step};
use protein_blocks::strange;
use protein_code::{codon, letter, plain_letter, set_of};

// The residues from low to before high; where they are turned, on the complemented strand from the back.
#[derive(Clone, Copy)]
pub struct Span {
    pub low: usize,
    pub high: usize,
    pub turned: bool,
}

// What is left to read: of the current span, and then the spans that are left of the walk. It holds no residues, so that a call needs
// `Ready` of both: one that held them would have to promise in each answer that they are still the same.
#[derive(Clone, Copy)]
pub struct Reading {
    pub walk: Walk,
    pub span: Span,
}

// What a translation is made of: the residues `r`, the raw part of the location, L, which is the number of residues, the codon_start, and
// the lent table of a code.
#[derive(Clone, Copy)]
pub struct Coding<'a> {
    pub r: &'a [u8],
    pub loc: &'a [u8],
    pub top: u32,
    pub frame: usize,
    pub code: &'a [u8; 5128],
    pub ghost coded: { Coded code.now },
}

// The text of a coding of which L residues, or more, are there.
#[derive(Clone, Copy)]
pub struct CodingText<'a> {
    pub of: Coding<'a>,
    pub ghost top_in_bounds: { of.top ≤ length of.r.now },
}

// The codons that stand whole in a span of the residues.
#[derive(Clone, Copy)]
pub struct WholeCodons<'a> {
    pub r: &'a [u8],
    pub span: Span,
    pub code: &'a [u8; 5128],
    pub ghost order: { span.low ≤ span.high },
    pub ghost inside: { span.high ≤ length r.now },
    pub ghost coded: { Coded code.now },
}

// The span x, and then what is left of the walk. A false site has no residues.
fn opened(x: Triple, walk: Walk) -> Reading
    requires { 1 ≤ x.first }
    ensures { Opens x walk result }
{
    let turned = x.marks % 2 == 1;
    if x.last < x.first {
        return Reading {
            walk,
            span: Span {
                low: 0,
                high: 0,
                turned,
            },
        };
    }
    Reading {
        walk,
        span: Span {
            low: x.first as usize - 1,
            high: x.last as usize,
            turned,
        },
    }
}

impl Span {
    // Where the codon k on the strand stands: the least place of its three residues. Which strand it is stays the same in a loop over k,
    // so the compiler takes the test out of the loop.
    fn place(self, k: usize) -> usize
        requires { self.low + 3 * k + 3 ≤ self.high }
        ensures { (result ≡ place_of self.low self.high self.turned k) × (result + 3 ≤ self.high) }
    {
        if self.turned {
            return self.high - (3 * k + 3);
        }
        self.low + 3 * k
    }

    // Where the 64 codons from the codon k on stand: the least place of their residues.
    pub fn block_at(self, k: usize) -> usize
        requires { self.low + 3 * (k + 64) ≤ self.high }
        ensures { (result ≡ block_of self.low self.high self.turned k) × (result + 192 ≤ self.high) }
    {
        if self.turned {
            return self.place(k + 63);
        }
        self.place(k)
    }

    // Whether the block from the codon k on has plain residues only, and one more stands behind it.
    pub fn plain_block(self, r: &[u8], k: usize) -> bool
        requires k_bound { self.low + 3 * (k + 64) ≤ self.high }
        requires high_in_bounds { self.high ≤ length r.now }
        ensures { result ≡ true → PlainBlock r.now self.low self.high self.turned k }
    {
        let at = self.block_at(k);
        if r.len() - at < 193 {
            return false;
        }
        strange(r, at) == 0
    }
}

impl WholeCodons<'_> {
    // The letter of the codon k: where its residues are known to be PLAIN, and another stands behind them, by the strand's table of plain
    // codons.
    pub fn letter_at<const PLAIN: bool>(&self, k: usize) -> u8
        requires k_bound { self.now.span.low + 3 * k + 3 ≤ self.now.span.high }
        requires plain { PLAIN ≡ true → (place_of self.now.span.low self.now.span.high self.now.span.turned k + 4 ≤ length self.now.r.now)
            × AllPlain self.now.r.now (place_of self.now.span.low self.now.span.high self.now.span.turned k) 3 }
        ensures { result ≡ get_or (span_letters (code_of self.now.code.now) self.now.r.now self.now.span.low self.now.span.high self.now.span.turned) k 0 }
    {
        let r = self.r;
        let code = self.code;
        let turned = self.span.turned;
        let at = self.span.place(k);
        if PLAIN {
            return plain_letter(r[at], r[at + 1], r[at + 2], r[at + 3], turned, code);
        }
        if turned {
            return codon(r[at + 2], r[at + 1], r[at], true, code);
        }
        codon(r[at], r[at + 1], r[at + 2], false, code)
    }
}

impl Reading {
    // k whole codons of the current span further.
    pub fn onward(self, k: usize) -> Reading
        requires { self.span.low + 3 * k ≤ self.span.high }
        ensures { Onward self k result }
    {
        let mut x = self;
        if x.span.turned {
            x.span.high -= 3 * k;
        } else {
            x.span.low += 3 * k;
        }
        x
    }
}

impl CodingText<'_> {
    // Where the current span is read to its end, the next that has residues.
    fn fill(&self, from: Reading) -> Reading
        requires { Ready (length self.now.of.r.now) from }
        ensures { Fills self.now.of.r.now self.now.of.loc.now self.now.of.top from result }
    {
        let mut x = from;
        while x.span.low == x.span.high {
            let Some(next) = step(self.of.loc, x.walk, self.of.top) else {
                return x;
            };
            x = opened(next.span, next.left);
        }
        x
    }

    // The base set of the next residue, of its complement on the complemented strand, and what is left behind it.
    fn next_base(&self, x: Reading) -> Option<(usize, Reading)>
        requires { Ready (length self.now.of.r.now) x }
        ensures { Bases self.now.of.r.now self.now.of.loc.now self.now.of.top x result }
    {
        let mut y = self.fill(x);
        let low = y.span.low;
        let high = y.span.high;
        if low == high {
            return None;
        }
        if y.span.turned {
            let at = high - 1;
            y.span.high = at;
            return Some((set_of(self.of.r[at], true, self.of.code), y));
        }
        y.span.low = low + 1;
        Some((set_of(self.of.r[low], false, self.of.code), y))
    }

    // A codon of which some residues may stand in other spans than others, residue by residue.
    fn slowly(&self, x: Reading) -> Option<(u8, Reading)>
        requires { Ready (length self.now.of.r.now) x }
        ensures { Letters (code_of self.now.of.code.now) self.now.of.r.now self.now.of.loc.now self.now.of.top x result }
    {
        let (a, x1) = self.next_base(x)?;
        let (b, x2) = self.next_base(x1)?;
        let (c, x3) = self.next_base(x2)?;
        Some((letter(a, b, c, self.of.code), x3))
    }

    // The letter of the next whole codon, and what is left behind it.
    pub fn next(&self, x: Reading) -> Option<(u8, Reading)>
        requires { Ready (length self.now.of.r.now) x }
        ensures { Letters (code_of self.now.of.code.now) self.now.of.r.now self.now.of.loc.now self.now.of.top x result }
    {
        if x.span.high - x.span.low < 3 {
            return self.slowly(x);
        }
        let codons = WholeCodons {
            r: self.of.r,
            span: x.span,
            code: self.of.code,
        };
        Some((codons.letter_at::<false>(0), x.onward(1)))
    }

    // `count` residues further.
    fn skip(&self, from: Reading, count: usize) -> Reading
        requires { Ready (length self.now.of.r.now) from }
        ensures { Skips self.now.of.r.now self.now.of.loc.now self.now.of.top from count result }
    {
        let mut x = from;
        for _k in 0..count {
            match self.next_base(x) {
                None => {
                    return x;
                }
                Some((_, y)) => {
                    x = y;
                }
            }
        }
        x
    }

    // The coding text of the location from the codon_start on.
    pub fn begin(&self) -> Reading
        ensures { BeginsText self.now.of.r.now self.now.of.loc.now self.now.of.top self.now.of.frame result }
    {
        let x = Reading {
            walk: start(self.of.loc).walk,
            span: Span {
                low: 0,
                high: 0,
                turned: false,
            },
        };
        if self.of.frame == 0 {
            return x;
        }
        self.skip(x, self.of.frame - 1)
    }

    // Whether no whole codon is left.
    pub fn ends(&self, x: Reading) -> bool
        requires { Ready (length self.now.of.r.now) x }
        ensures { Ends (code_of self.now.of.code.now) self.now.of.r.now self.now.of.loc.now self.now.of.top x result }
    {
        // A match and no `is_none`, since must-fail/stop_inside_dropped.edit changes one arm.
        match self.next(x) {
            None => true,
            Some(_) => false,
        }
    }
}
