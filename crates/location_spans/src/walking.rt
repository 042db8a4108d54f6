// The spans of a location, one after another in reading order, without room: forward, or from the back for the complement of a list.
ghost use Rattle.std.specs.Prelude.{◌≤◌, length};
ghost use Rattle.location_spans.specs.Walking.{Starts, Steps};
ghost use Rattle.location_spans.specs.Members.{Gives, Members, LastStart};
ghost use Rattle.location_spans.specs.declared.walking.Walk.TheVariants as walk;

use location_judge::operators::{Operator, complement_at, list_at};
use location_judge::pieces::{FoundPiece, Reach, is_wrong, piece};
use read_bytes::begins;

// "triples of 32-bit numbers (first, last, marks)"
#[derive(Clone, Copy)]
pub struct Triple {
    pub first: u32,
    pub last: u32,
    pub marks: u32,
}

// Where the spans that are left stand: from a place on; or from the second place back to the first. No closure: `Left` speaks of each.
#[derive(Clone, Copy)]
pub enum Walk {
    Done,
    Ahead(usize),
    Behind(usize, usize),
}

// The next span of a walk, and what is left behind it.
#[derive(Clone, Copy)]
pub struct NextSpan {
    pub span: Triple,
    pub left: Walk,
}

// What the words at the front of a location tell: its operator, and the walk over it.
#[derive(Clone, Copy)]
pub struct Started {
    pub operator: Option<Operator>,
    pub walk: Walk,
}

// Of the location that the part s is written from.
pub fn start(s: &[u8]) -> Started
    ensures { Starts s.now result }
{
    if complement_at(s, 0) {
        if let Some(list) = list_at(s, 11) {
            let end = s.len() - 2;
            return Started {
                operator: Some(list.operator),
                walk: Walk::Behind(list.first, end),
            };
        }
    } else if let Some(list) = list_at(s, 0) {
        return Started {
            operator: Some(list.operator),
            walk: Walk::Ahead(list.first),
        };
    }
    Started {
        operator: None,
        walk: Walk::Ahead(0),
    }
}

// The span that is kept as a, and what is left behind it. A location that breaks rule 25 is not walked on.
fn give(a: Reach, top: u32, left: Walk) -> Option<NextSpan>
    ensures { Gives top a left result }
{
    if is_wrong(a, top) {
        return None;
    }
    Some(NextSpan {
        span: Triple {
            first: a.first as u32,
            last: a.last as u32,
            marks: a.marks,
        },
        left,
    })
}

// A segment or site, or the complement of one.
fn member(s: &[u8], at: usize) -> Option<FoundPiece>
    ensures { Members s.now at result }
{
    if !complement_at(s, at) {
        return piece(s, at, false);
    }
    let inner = piece(s, at + 11, true)?;
    if !begins(s, inner.end, b")") {
        return None;
    }
    Some(FoundPiece {
        end: inner.end + 1,
        ..inner
    })
}

// The member at `at`, and the walk behind it.
fn ahead(s: &[u8], at: usize, top: u32) -> Option<NextSpan>
    ensures { Steps s.now top (walk.Ahead at) result }
{
    let found = member(s, at)?;
    if begins(s, found.end, b",") {
        return give(found.reach, top, Walk::Ahead(found.end + 1));
    }
    give(found.reach, top, Walk::Done)
}

// Where the last stretch before `at` that has no `,` starts, from low on.
fn last_start(s: &[u8], low: usize, at: usize) -> usize
    requires { (low ≤ at) × (at ≤ length s.now) }
    ensures { LastStart s.now low at result }
{
    for i in (low..at).rev() {
        if s[i] == b',' {
            return i + 1;
        }
    }
    low
}

// The last member before `at`, and the walk back from there.
fn behind(s: &[u8], low: usize, at: usize, top: u32) -> Option<NextSpan>
    ensures { Steps s.now top (walk.Behind low at) result }
{
    if at < low || s.len() < at {
        return None;
    }
    let i = last_start(s, low, at);
    let found = piece(s, i, true)?;
    if i == low {
        return give(found.reach, top, Walk::Done);
    }
    give(found.reach, top, Walk::Behind(low, i - 1))
}

// The next span of a walk, for a sequence of `top` residues.
pub fn step(s: &[u8], w: Walk, top: u32) -> Option<NextSpan>
    ensures { Steps s.now top w result }
{
    match w {
        Walk::Done => None,
        Walk::Ahead(at) => ahead(s, at, top),
        Walk::Behind(low, at) => behind(s, low, at, top),
    }
}
