// A walk along a listing that is known to be laid out, by steps that know no element by name: a tag, a text, a leaf, an attribute, the
// children of an element. Each says where its text stands, and what comes next. What is known to stand is passed by its length and not
// compared again. A promise speaks of whatever stands at the place; of other bytes it says nothing. Relies on the paper, on
// read_bytes, read_steps and read_tags for what it compares or passes, and in its proofs on their laws of what may follow what.
#![tactic(auto)]

ghost use Rattle.std.specs.Prelude.{◌≡◌, ◌+◌, ◌≤◌, false, length, slice_index};
ghost use Rattle.paper.specs.Bytes.{is_blank};
ghost use Rattle.paper.specs.Layout as Form;
ghost use Rattle.read_bytes.specs.Words.{There};
ghost use Rattle.read_steps.specs.Follow.{Not, anything};
ghost use Rattle.read_steps.specs.Texts.{allowed_in, is_plain, Scanned};
ghost use Rattle.walk_steps.specs.Stands.{Past, others, tag_of, TellsChild, Ends, Finds, FindsContent, FindsIf, FindsMaybe, FindsLast, entering, leaving, shutting, OpensSo, FindsAttribute, FindsAttributeMaybe};

// A text of the listing, from its first byte to the one behind its last.
#[derive(Clone, Copy)]
pub struct Range {
    pub from: usize,
    pub to: usize,
}

// What was found, and where what follows it starts.
#[derive(Clone, Copy)]
pub struct Found<T> {
    pub part: T,
    pub next: usize,
}

// The byte at a place.
fn peek(s: &[u8], at: usize) -> u8
    ensures { result ≡ slice_index s.now at }
{
    s.get(at).copied().unwrap_or(0)
}

// The place n bytes further, where s has so many. It isn't compared with the end: whoever reads there does that.
pub fn past(s: &[u8], at: usize, n: usize) -> usize
    ensures { Past s.now at n result }
{
    std::num::wrapping_add_usize(at, n)
}

// The first place from here on, before `end`, where this byte stands.
fn seek(s: &[u8], at: usize, end: usize, stop: u8) -> usize
    requires before { at ≤ end }
    requires inside { end ≤ length s.now }
    ensures { Scanned (others stop) s.now at end result }
{
    for i in at..end {
        if s[i] == stop {
            return i;
        }
    }
    end
}

// The same in all of s, for a byte that stands for itself in no text: most texts are short, and a long one is passed by blocks.
pub fn until(s: &[u8], at: usize, stop: u8) -> usize
    requires { is_plain false stop ≡ false }
    ensures { Scanned (others stop) s.now at (length s.now) result }
{
    let n = s.len();
    if n <= at {
        return at;
    }
    if n - at < 32 {
        return seek(s, at, n, stop);
    }
    let mid = seek(s, at, at + 32, stop);
    if mid < at + 32 {
        return mid;
    }
    seek(s, read_steps::blocks(s, mid), n, stop)
}

// Past any blanks.
pub fn blanks(s: &[u8], at: usize) -> usize
    ensures { Scanned is_blank s.now at (length s.now) result }
{
    for i in at..s.len() {
        if !read_steps::is_blank(s[i]) {
            return i;
        }
    }
    at.max(s.len())
}

// Past `<name`.
pub fn tag(s: &[u8], at: usize, name: &[u8]) -> usize
    ensures { Ends (Form.tag name.now) anything s.now at result }
{
    past(s, past(s, at, 1), name.len())
}

// Past `</name>`.
fn close(s: &[u8], at: usize, name: &[u8]) -> usize
    ensures { Ends (Form.close name.now) anything s.now at result }
{
    past(s, blanks(s, past(s, past(s, at, 2), name.len())), 1)
}

// The text between the rest of a start tag and the end tag. `start` is where the element starts.
pub fn content(s: &[u8], at: usize, start: usize, name: &[u8], high: bool) -> Found<Range>
    ensures { FindsContent name.now (allowed_in high) start s.now at result }
{
    let h = blanks(s, at);
    if peek(s, h) == b'/' {
        return Found {
            part: Range {
                from: start,
                to: start,
            },
            next: past(s, h, 2),
        };
    }
    let from = past(s, h, 1);
    let to = until(s, from, b'<');
    Found {
        part: Range { from, to },
        next: close(s, to, name),
    }
}

// A leaf and the blanks after it.
pub fn leaf(s: &[u8], at: usize, name: &[u8]) -> Found<Range>
    ensures { Finds (Form.child (Form.leaf name.now)) (Not is_blank) s.now at result }
{
    let Found { part, next } = content(s, tag(s, at, name), at, name, false);
    Found {
        part,
        next: blanks(s, next),
    }
}

// Whether an element whose name starts so starts here.
pub fn opens(s: &[u8], at: usize, name: &[u8]) -> bool
    ensures { There (tag_of name.now) s.now at result }
{
    read_bytes::begins(s, at, b"<") && read_bytes::begins(s, at + 1, name)
}

// Whether an element starts here, and not the end tag of the one that holds it: one of them does, so one byte tells.
pub fn child_here(s: &[u8], at: usize) -> bool
    ensures { TellsChild s.now at result }
{
    at < s.len() && peek(s, at + 1) != b'/'
}

// A leaf and the blanks after it, if it is here.
fn leaf_if(s: &[u8], at: usize, name: &[u8], here: bool) -> Found<Option<Range>>
    ensures { FindsIf name.now here s.now at result }
{
    if here {
        let Found { part, next } = leaf(s, at, name);
        Found {
            part: Some(part),
            next,
        }
    } else {
        Found {
            part: None,
            next: at,
        }
    }
}

// A leaf that may be missing, and the blanks after it.
pub fn leaf_maybe(s: &[u8], at: usize, name: &[u8]) -> Found<Option<Range>>
    ensures { FindsMaybe name.now s.now at result }
{
    leaf_if(s, at, name, opens(s, at, name))
}

// The same where the leaf is the last of its element.
pub fn last_leaf(s: &[u8], at: usize, name: &[u8]) -> Found<Option<Range>>
    ensures { FindsLast name.now s.now at result }
{
    leaf_if(s, at, name, child_here(s, at))
}

// ---- elements that hold elements

// Past the rest of a start tag, to the first child or the end tag.
pub fn enter(s: &[u8], at: usize) -> usize
    ensures { Ends entering (Not is_blank) s.now at result }
{
    blanks(s, past(s, blanks(s, at), 1))
}

// Past an end tag and the blanks after it.
pub fn leave(s: &[u8], at: usize, name: &[u8]) -> usize
    ensures { Ends (leaving name.now) (Not is_blank) s.now at result }
{
    blanks(s, close(s, at, name))
}

// An element that may be missing, or written `<X/>`. Its children are sought at `first`, whichever it is: where it holds none, what
// follows it stands there. `long` says whether its end tag is to be passed behind them: so it is no Option, the place is always there.
#[derive(Clone, Copy)]
pub struct Opened {
    pub long: bool,
    pub first: usize,
}

// `here` says whether it is there.
pub fn children(s: &[u8], at: usize, name: &[u8], here: bool) -> Opened
    ensures { OpensSo name.now here s.now at result }
{
    if !here {
        return Opened {
            long: false,
            first: at,
        };
    }
    let h = blanks(s, tag(s, at, name));
    if peek(s, h) == b'/' {
        return Opened {
            long: false,
            first: blanks(s, past(s, h, 2)),
        };
    }
    Opened {
        long: true,
        first: blanks(s, past(s, h, 1)),
    }
}

// Past the end tag of such an element.
pub fn shut(s: &[u8], at: usize, name: &[u8], long: bool) -> usize
    ensures { Ends (shutting name.now long) (Not is_blank) s.now at result }
{
    if long { leave(s, at, name) } else { at }
}

// ---- attributes

// An attribute.
pub fn attribute(s: &[u8], at: usize, name: &[u8]) -> Found<Range>
    ensures { FindsAttribute name.now s.now at result }
{
    let from = past(s, past(s, blanks(s, at), name.len()), 2);
    let to = until(s, from, b'"');
    Found {
        part: Range { from, to },
        next: past(s, to, 1),
    }
}

// An attribute that may be missing.
pub fn attribute_maybe(s: &[u8], at: usize, name: &[u8]) -> Found<Option<Range>>
    ensures { FindsAttributeMaybe name.now s.now at result }
{
    if read_bytes::begins(s, blanks(s, at), name) {
        let Found { part, next } = attribute(s, at, name);
        Found {
            part: Some(part),
            next,
        }
    } else {
        Found {
            part: None,
            next: at,
        }
    }
}
