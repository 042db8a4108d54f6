// The spans of a location into lent room: all of them at its front, or nothing.
ghost use Rattle.std.specs.Prelude.{◌*◌, ◌≤◌, length};
ghost use Rattle.location_spans.specs.Room.{CountsSpans, PutsSpans, Answers, AnswersPart};

use crate::walking::{Started, Walk, start, step};
use location_judge::operators::Operator;

// The operator of a location and the number of its spans: three numbers of each are written.
#[derive(Clone, Copy)]
pub struct WrittenSpans {
    pub operator: Option<Operator>,
    pub count: usize,
}

// How many spans a location has, unread: one more than commas.
fn count_spans(s: &[u8]) -> usize
    ensures { CountsSpans s.now result }
{
    let mut n: usize = 1;
    for &b in s {
        if b == b',' {
            n += 1;
        }
    }
    n
}

// The spans that are left of a walk, of which there are `count`.
fn put_spans(s: &[u8], from: Walk, top: u32, count: usize, out: &mut [u32])
    requires { count * 3 ≤ length out.old }
    ensures { PutsSpans s.now top from count out.old out.new }
{
    let mut walk = from;
    for k in 0..count {
        let Some(next) = step(s, walk, top) else {
            return;
        };
        let at = k * 3;
        out[at] = next.span.first;
        out[at + 1] = next.span.last;
        out[at + 2] = next.span.marks;
        walk = next.left;
    }
}

// The spans of the location that the bytes s of a part are written from, for a sequence of `top` residues. None: the room is shorter than
// the spans.
fn fill(s: &[u8], top: u32, out: &mut [u32]) -> Option<WrittenSpans>
    ensures { Answers s.now top out.old result out.new }
{
    let count = count_spans(s);
    if out.len() / 3 < count {
        return None;
    }
    let Started { operator, walk } = start(s);
    put_spans(s, walk, top, count, out);
    Some(WrittenSpans { operator, count })
}

// The spans of the location that stands in the listing s from `from` to before `to`, for a sequence of `top` residues. None: the room is
// shorter than the spans.
pub fn spans(s: &[u8], from: usize, to: usize, top: u32, out: &mut [u32]) -> Option<WrittenSpans>
    ensures { AnswersPart s.now from to top out.old result out.new }
{
    fill(read_steps::bytes_of(s, from, to), top, out)
}
