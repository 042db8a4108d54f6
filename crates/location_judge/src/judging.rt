// A location, judged: whether it is one (rule 24), and what rules 25 and 26 and a translation ask of it.
ghost use Rattle.std.specs.Prelude.{◌≡◌};
ghost use Rattle.paper.proofs.Locate.Model;
ghost use Rattle.location_judge.specs.Readings.{Outs, with_member};
ghost use Rattle.location_judge.specs.Judging.{Judges, JudgesPart, LeavesRegion, LeavesPart};

use crate::operators::{Operator, complement_at, list_at};
use crate::pieces::{is_wrong, piece};
use read_bytes::begins;

// What is asked of a location, for a sequence of L residues.
#[derive(Clone, Copy)]
pub struct Facts {
    // It breaks rule 25.
    pub wrong: bool,
    // It has a complement (rule 26).
    pub complemented: bool,
    // It has an order, a site, or a lone `<x` or `>x`.
    pub unjudged: bool,
}

// A location that stands at a place: the place past it, and its facts.
#[derive(Clone, Copy)]
struct Located {
    end: usize,
    facts: Facts,
}

// A segment, and where far holds a site.
fn leaf(s: &[u8], at: usize, top: u32, far: bool) -> Option<Located>
    ensures { Outs s.now at top (Model.leaf far) result }
{
    let found = piece(s, at, false)?;
    let wrong = is_wrong(found.reach, top);
    if far || found.reach.marks < 8 {
        return Some(Located {
            end: found.end,
            facts: Facts {
                wrong,
                complemented: false,
                unjudged: found.odd,
            },
        });
    }
    None
}

// What is asked of members and one more, whose facts are f and g.
fn add_member(f: Facts, g: Facts) -> Facts
    ensures { result ≡ with_member f g }
{
    Facts {
        wrong: f.wrong | g.wrong,
        complemented: f.complemented | g.complemented,
        unjudged: f.unjudged | g.unjudged,
    }
}

// "A location inside an operator is read by the same rule, one level less deep, within these limits." turn: a complement may stand here;
// far: a join, an order or a site may.
fn read(s: &[u8], at: usize, top: u32, depth: usize, turn: bool, far: bool) -> Option<Located>
    ensures { Outs s.now at top (Model.read depth turn far) result }
{
    if depth == 0 {
        return leaf(s, at, top, far);
    }
    let deeper = depth - 1;
    if complement_at(s, at) {
        if !turn {
            return None;
        }
        let inner = read(s, at + 11, top, deeper, false, far)?;
        if !begins(s, inner.end, b")") {
            return None;
        }
        return Some(Located {
            end: inner.end + 1,
            facts: Facts {
                complemented: true,
                ..inner.facts
            },
        });
    }
    let Some(list) = list_at(s, at) else {
        return leaf(s, at, top, far);
    };
    if !far {
        return None;
    }
    let mut i = list.first;
    let mut all = Facts {
        wrong: false,
        complemented: false,
        unjudged: matches!(list.operator, Operator::Order),
    };
    loop {
        let member = read(s, i, top, deeper, turn, false)?;
        all = add_member(all, member.facts);
        if begins(s, member.end, b")") {
            // A list has two members or more.
            if i == list.first {
                return None;
            }
            return Some(Located {
                end: member.end + 1,
                facts: all,
            });
        }
        if !begins(s, member.end, b",") {
            return None;
        }
        i = member.end + 1;
    }
}

// The location that the bytes s of a part are written from, for a sequence of `top` residues. None: it breaks rule 24.
fn judge(s: &[u8], top: u32) -> Option<Facts>
    ensures { Judges s.now top result }
{
    let found = read(s, 0, top, 2, true, true)?;
    if found.end < s.len() {
        return None;
    }
    Some(found.facts)
}

// The location that stands in the listing s from `from` to before `to`, for a sequence of `top` residues. None: it breaks rule 24.
pub fn judge_location(s: &[u8], from: usize, to: usize, top: u32) -> Option<Facts>
    ensures { JudgesPart s.now from to top result }
{
    judge(read_steps::bytes_of(s, from, to), top)
}

// Whether the location that the bytes s of a part are written from leaves its region unjudged. It isn't read again: `d` stands only in an
// order, `^` only in a site; and between two commas `&` without `.` is a lone `<x` or `>x`.
fn unjudged(s: &[u8]) -> bool
    ensures { LeavesRegion s.now result }
{
    // `&` and `.` since the last comma.
    let mut signed = false;
    let mut ranged = false;
    for &b in s {
        if b == b'd' || b == b'^' {
            return true;
        }
        if b == b',' {
            if signed && !ranged {
                return true;
            }
            signed = false;
            ranged = false;
        } else {
            signed |= b == b'&';
            ranged |= b == b'.';
        }
    }
    signed && !ranged
}

// The same of the location that stands in the listing s from `from` to before `to`.
pub fn leaves_unjudged(s: &[u8], from: usize, to: usize) -> bool
    ensures { LeavesPart s.now from to result }
{
    unjudged(read_steps::bytes_of(s, from, to))
}
