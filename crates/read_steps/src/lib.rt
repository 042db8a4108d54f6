// Reading bytes: words, blanks, texts and the end, each as a step from one place to the next; and the bytes of a part.
// Relies on the definitions of the crate paper (forms and layout) and on read_bytes. Knows no tag.
#![tactic(auto)]

ghost use Rattle.std.specs.Prelude.{◌≡◌, true, false, [], Ok, ◌+◌, ◌≤◌, length};
ghost use Rattle.paper.specs.Bytes.{is_blank};
ghost use Rattle.paper.specs.Form.{these, one};
ghost use Rattle.paper.specs.Layout;
ghost use Rattle.read_bytes.specs.Words.{StandsAt};
ghost use Rattle.read_steps.specs.Parts.{ShowsBytes};
ghost use Rattle.read_steps.specs.Reads.{Step, Reads, Passes, AtEnd, raised, chosen, stayed};
ghost use Rattle.read_steps.specs.Follow.{Not, anything, nothing};
ghost use Rattle.read_steps.specs.Words.{Eight, Four};
ghost use Rattle.read_steps.specs.Texts.{allowed_in, is_plain, is_text, letter, One, ClassTable, Scanned, Passed, Below, Odd, Block};

use read_bytes::{equal, two};

// Where a reading of a listing stands: `next` is where the next part starts, `far` the furthest place to which some layout goes.
#[derive(Clone, Copy)]
pub struct Cursor {
    pub next: usize,
    pub far: usize,
}

impl Cursor {
    // "16,777,216 bytes is the longest listing."
    pub const LIMIT: usize = 16_777_216;

    // At the start of a listing.
    pub fn fresh() -> Self
        ensures { result ≡ record { next = 0; far = 0 } }
    {
        Cursor { next: 0, far: 0 }
    }
}

// No layout goes on: the furthest place to which one goes.
#[derive(Clone, Copy)]
pub struct Stuck {
    pub far: usize,
}

pub type Step = Result<Cursor, Stuck>;

// What `st` says, where some layout goes to `far` at least.
fn raise(far: usize, st: Step) -> Step
    ensures { result ≡ raised far st }
{
    match st {
        Ok(c) => Ok(Cursor {
            next: c.next,
            far: far.max(c.far),
        }),
        Err(e) => Err(Stuck {
            far: far.max(e.far),
        }),
    }
}

// The first of two readings that succeeds.
fn either(a: Step, b: Step) -> Step
    ensures { result ≡ chosen a b }
{
    match a {
        Ok(c) => Ok(c),
        Err(e) => raise(e.far, b),
    }
}

// Where what may be missing is missing, the place before it.
pub fn stay(at: usize, st: Step) -> Step
    ensures { result ≡ stayed at st }
{
    match st {
        Ok(c) => Ok(c),
        Err(e) => Ok(Cursor {
            next: at,
            far: e.far,
        }),
    }
}

// The word x.
pub fn lit(s: &[u8], st: Step, x: &[u8]) -> Step
    ensures { Passes (these x.now) anything s.now st result }
{
    let Cursor { next, far } = st?;
    for (i, b) in x.iter().enumerate() {
        let at = next + i;
        if at >= s.len() || s[at] != *b {
            return Err(Stuck { far: far.max(at) });
        }
    }
    let end = next + x.len();
    Ok(Cursor {
        next: end,
        far: far.max(end),
    })
}

// Four bytes as one number, the first lowest. It is compiled to one load.
fn four(s: &[u8], at: usize) -> u64
    requires { at + 4 ≤ length s.now }
    ensures { Four s.now at result }
{
    two(s[at], s[at + 1]) + 65_536 * two(s[at + 2], s[at + 3])
}

// Eight bytes so.
fn eight(s: &[u8], at: usize) -> u64
    requires { at + 8 ≤ length s.now }
    ensures { Eight s.now at result }
{
    four(s, at) + 4_294_967_296 * four(s, at + 4)
}

// Whether the word x stands here, eight bytes at a time: only a yes says so, and a word of less than eight bytes gets a quick no. The last
// eight may overlap.
pub fn stands(s: &[u8], at: usize, x: &[u8]) -> bool
    ensures { result ≡ true → StandsAt x.now s.now at }
{
    let n = x.len();
    if n < 8 || s.len() < at || s.len() - at < n {
        return false;
    }
    for i in (0..n - 8).step_by(8) {
        if eight(s, at + i) != eight(x, i) {
            return false;
        }
    }
    eight(s, at + (n - 8)) == eight(x, n - 8)
}

// The same of a word of four to eight bytes, four at a time; the last four may overlap. It stands apart from `stands`, which would be too
// large then to be inlined in `word`.
pub fn stands_short(s: &[u8], at: usize, x: &[u8]) -> bool
    ensures { result ≡ true → StandsAt x.now s.now at }
{
    let n = x.len();
    if n < 4 || 8 < n || s.len() < at || s.len() - at < n {
        return false;
    }
    four(s, at) == four(x, 0) && four(s, at + (n - 4)) == four(x, n - 4)
}

// The word x, as `lit` reads it: eight bytes at a time, and where it isn't there `lit` tells how far it goes.
pub fn word(s: &[u8], st: Step, x: &[u8]) -> Step
    ensures { Passes (these x.now) anything s.now st result }
{
    let Cursor { next, far } = st?;
    if stands(s, next, x) {
        let end = next + x.len();
        return Ok(Cursor {
            next: end,
            far: far.max(end),
        });
    }
    lit(s, Ok(Cursor { next, far }), x)
}

pub fn is_blank(b: u8) -> bool
    ensures { result ≡ is_blank b }
{
    // An arm for each, which is compiled to one test of a bit; joined by `|` or `||` they are compared in turn.
    match b {
        b' ' => true,
        b'\t' => true,
        b'\r' => true,
        b'\n' => true,
        _ => false,
    }
}

// Any blanks.
pub fn blanks(s: &[u8], st: Step) -> Step
    ensures { Passes Layout.blanks (Not is_blank) s.now st result }
{
    let Cursor { next, far } = st?;
    for at in next..s.len() {
        if !is_blank(s[at]) {
            return Ok(Cursor {
                next: at,
                far: far.max(at),
            });
        }
    }
    let end = next.max(s.len());
    Ok(Cursor {
        next: end,
        far: far.max(end),
    })
}

// One blank.
fn blank(s: &[u8], st: Step) -> Step
    ensures { Passes (one is_blank) anything s.now st result }
{
    let Cursor { next, far } = st?;
    if next < s.len() && is_blank(s[next]) {
        return Ok(Cursor {
            next: next + 1,
            far: far.max(next + 1),
        });
    }
    Err(Stuck { far: far.max(next) })
}

// One or more blanks.
pub fn gap(s: &[u8], st: Step) -> Step
    ensures { Passes Layout.gap (Not is_blank) s.now st result }
{
    blanks(s, blank(s, st))
}

// Whether b stands for itself, in a text that may hold high bytes or not, by the lent table.
fn plain_by(t: &[u8; 256], high: bool, b: u8) -> bool
    requires { ClassTable t.now }
    ensures { result ≡ is_plain high b }
{
    t[b as usize] <= high as u8
}

// One byte that stands for itself.
fn plain(s: &[u8], st: Step, high: bool, t: &[u8; 256]) -> Step
    requires { ClassTable t.now }
    ensures { Reads (One (is_plain high)) anything s.now st result }
{
    let Cursor { next, far } = st?;
    if next < s.len() && plain_by(t, high, s[next]) {
        return Ok(Cursor {
            next: next + 1,
            far: far.max(next + 1),
        });
    }
    Err(Stuck { far: far.max(next) })
}

// One character of a text.
fn character(s: &[u8], st: Step, high: bool, t: &[u8; 256]) -> Step
    requires { ClassTable t.now }
    ensures { Reads (letter high) anything s.now st result }
{
    let a = plain(s, st, high, t);
    let b = either(a, lit(s, st, b"&lt;"));
    let c = either(b, lit(s, st, b"&gt;"));
    let d = either(c, lit(s, st, b"&amp;"));
    let e = either(d, lit(s, st, b"&quot;"));
    either(e, lit(s, st, b"&apos;"))
}

// The first place from `start` to `stop` whose byte does not stand for itself, byte by byte.
fn scan(s: &[u8], start: usize, stop: usize, high: bool, t: &[u8; 256]) -> usize
    requires class_table { ClassTable t.now }
    requires stop_in_bounds { stop ≤ length s.now }
    ensures { Scanned (is_plain high) s.now start stop result }
{
    for at in start..stop {
        if !plain_by(t, high, s[at]) {
            return at;
        }
    }
    start.max(stop)
}

fn below(a: u8, b: u8) -> u8
    ensures { Below a b result }
{
    (a < b) as u8
}

// 0 only where b stands for itself in every text. Where not all of these are asked for, only a letter or what is near the letters:
// that takes two tests.
fn odd(b: u8, all: bool) -> u8
    ensures { Odd b result }
{
    if all {
        return below(b, 32)
            | below(126, b)
            | equal(b, b'<')
            | equal(b, b'>')
            | equal(b, b'&')
            | equal(b, b'"')
            | equal(b, b'\'');
    }
    below(b, b'?') | below(b'~', b)
}

// 0 only where each byte stands for itself. Joined with no branch, and not summed: it is compiled to vector code.
fn block(x: &[u8], all: bool) -> u8
    ensures { Block x.now result }
{
    let mut bad = 0;
    for b in x {
        bad |= odd(*b, all);
    }
    bad
}

// Whole blocks of bytes that stand for themselves: long texts are mostly letters. Steps are of two sizes, so no `for` or chain fits.
pub fn blocks(s: &[u8], start: usize) -> usize
    ensures { Passed (is_plain false) s.now start result }
{
    let mut at = start;
    while at < s.len() {
        if s.len() - at < 64 {
            return at;
        }
        if block(&s[at..at + 64], false) == 0 {
            at += 64;
        } else {
            if block(&s[at..at + 32], true) != 0 {
                return at;
            }
            at += 32;
        }
    }
    at
}

// The first place from `start` on whose byte does not stand for itself: 32 bytes by the table, and then by blocks.
fn plains(s: &[u8], start: usize, high: bool, t: &[u8; 256]) -> usize
    requires { ClassTable t.now }
    ensures { Scanned (is_plain high) s.now start (length s.now) result }
{
    let n = s.len();
    if n <= start {
        return start;
    }
    if n - start < 32 {
        return scan(s, start, n, high, t);
    }
    let mid = scan(s, start, start + 32, high, t);
    if mid < start + 32 {
        return mid;
    }
    scan(s, blocks(s, mid), n, high, t)
}

// A text: any number of characters. It stands apart from `text`, which tests the step, and the hints keep it so: a cursor is handed over
// in registers, a step by memory, which took 2 % more instructions.
#[inline(never)]
fn text_at(s: &[u8], from: Cursor, high: bool, t: &[u8; 256]) -> Step
    requires { ClassTable t.now }
    ensures { Reads (Layout.text (allowed_in high)) (Not (is_text high)) s.now (Ok from) result }
{
    let mut at = from.next;
    let mut reach = from.far;
    loop {
        at = plains(s, at, high, t);
        if s.len() <= at || s[at] != b'&' {
            return Ok(Cursor {
                next: at,
                far: reach.max(at),
            });
        }
        let here = Ok(Cursor {
            next: at,
            far: reach,
        });
        match character(s, here, high, t) {
            Ok(c) => {
                at = c.next;
                reach = c.far;
            }
            Err(e) => {
                return Ok(Cursor {
                    next: at,
                    far: e.far,
                });
            }
        }
    }
}

#[inline(always)]
pub fn text(s: &[u8], st: Step, high: bool, t: &[u8; 256]) -> Step
    requires { ClassTable t.now }
    ensures { Reads (Layout.text (allowed_in high)) (Not (is_text high)) s.now st result }
{
    text_at(s, st?, high, t)
}

// The end.
pub fn end(s: &[u8], st: Step) -> Step
    ensures passes { Passes (these []) nothing s.now st result }
    ensures at_end { AtEnd s.now result }
{
    let Cursor { next, far } = st?;
    if next < s.len() {
        Err(Stuck { far: far.max(next) })
    } else {
        Ok(Cursor {
            next,
            far: far.max(next),
        })
    }
}

// Of each byte: 0 where it stands for itself in every text, 1 where it does in texts that allow high bytes, 2 where in none.
const CLASSES: [u8; 256] = *b"\
    \x02\x02\x02\x02\x02\x02\x02\x02\x02\x02\x02\x02\x02\x02\x02\x02\x02\x02\x02\x02\x02\x02\x02\x02\x02\x02\x02\x02\x02\x02\x02\x02\
    \x00\x00\x02\x00\x00\x00\x02\x02\x00\x00\x00\x00\x00\x00\x00\x00\x00\x00\x00\x00\x00\x00\x00\x00\x00\x00\x00\x00\x02\x00\x02\x00\
    \x00\x00\x00\x00\x00\x00\x00\x00\x00\x00\x00\x00\x00\x00\x00\x00\x00\x00\x00\x00\x00\x00\x00\x00\x00\x00\x00\x00\x00\x00\x00\x00\
    \x00\x00\x00\x00\x00\x00\x00\x00\x00\x00\x00\x00\x00\x00\x00\x00\x00\x00\x00\x00\x00\x00\x00\x00\x00\x00\x00\x00\x00\x00\x00\x02\
    \x01\x01\x01\x01\x01\x01\x01\x01\x01\x01\x01\x01\x01\x01\x01\x01\x01\x01\x01\x01\x01\x01\x01\x01\x01\x01\x01\x01\x01\x01\x01\x01\
    \x01\x01\x01\x01\x01\x01\x01\x01\x01\x01\x01\x01\x01\x01\x01\x01\x01\x01\x01\x01\x01\x01\x01\x01\x01\x01\x01\x01\x01\x01\x01\x01\
    \x01\x01\x01\x01\x01\x01\x01\x01\x01\x01\x01\x01\x01\x01\x01\x01\x01\x01\x01\x01\x01\x01\x01\x01\x01\x01\x01\x01\x01\x01\x01\x01\
    \x01\x01\x01\x01\x01\x01\x01\x01\x01\x01\x01\x01\x01\x01\x01\x01\x01\x01\x01\x01\x01\x01\x01\x01\x01\x01\x01\x01\x01\x01\x01\x01";

// The table, to be lent by a public call: a named constant is stored anew wherever it is used.
pub fn class_table() -> [u8; 256]
    ensures { ClassTable result }
{
    CLASSES
}

// The bytes of a part.
pub fn bytes_of<'s>(s: &'s [u8], from: usize, to: usize) -> &'s [u8]
    ensures { ShowsBytes s.now from to result.now }
{
    s.get(from..to).unwrap_or(&[])
}
