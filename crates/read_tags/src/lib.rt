// Tags, attributes and leaves, each as a step from one place to the next. Relies on the definitions of the crate paper (forms and layout)
// and on the steps of the crates read_bytes and read_steps. Knows no element of the listing by name.
#![tactic(auto)]

ghost use Rattle.std.specs.Prelude.{◌≡◌, true, false, Ok};
ghost use Rattle.paper.specs.Bytes.{is_blank};
ghost use Rattle.paper.specs.Layout;
ghost use Rattle.read_steps.specs.Reads.{Reads, Passes, Tried, Followed};
ghost use Rattle.read_steps.specs.Follow.{Not, NoBlankFirst, anything};
ghost use Rattle.read_steps.specs.Texts.{allowed_in, ClassTable};
ghost use Rattle.read_tags.specs.Standing.{Usual};

use read_bytes::begins;
use read_steps::{Cursor, Step, blanks, gap, lit, stands, stay, text, word};

// `<name`
pub fn tag(s: &[u8], st: Step, name: &[u8]) -> Step
    ensures { Passes (Layout.tag name.now) anything s.now st result }
{
    word(s, lit(s, st, b"<"), name)
}

// Whether this tag stands here with no blank in it, as most tags are written: no more than a quick yes.
fn usual(s: &[u8], at: usize, mark: &[u8], name: &[u8]) -> bool
    ensures { result ≡ true → Usual s.now at mark.now name.now }
{
    if !begins(s, at, mark) {
        return false;
    }
    let a = at + mark.len();
    stands(s, a, name) && begins(s, a + name.len(), b">")
}

// `</name>`
pub fn close(s: &[u8], st: Step, name: &[u8]) -> Step
    ensures { Passes (Layout.close name.now) anything s.now st result }
{
    let Cursor { next, far } = st?;
    if usual(s, next, b"</", name) {
        let end = next + name.len() + 3;
        return Ok(Cursor {
            next: end,
            far: far.max(end),
        });
    }
    let a = word(s, lit(s, Ok(Cursor { next, far }), b"</"), name);
    lit(s, blanks(s, a), b">")
}

// One blank or more, the name, `="`, a text, `"`.
pub fn attribute(s: &[u8], st: Step, name: &[u8], t: &[u8; 256]) -> Step
    requires class_table { ClassTable t.now }
    requires no_blank_first { NoBlankFirst name.now }
    ensures { Reads (Layout.attribute name.now) anything s.now st result }
{
    let a = lit(s, word(s, gap(s, st), name), b"=\"");
    lit(s, text(s, a, false, t), b"\"")
}

// The same where it may be missing: the step stays where it is, with how far the attribute went.
pub fn attribute_maybe(s: &[u8], st: Step, name: &[u8], t: &[u8; 256]) -> Step
    requires class_table { ClassTable t.now }
    requires no_blank_first { NoBlankFirst name.now }
    ensures { Tried (Layout.attribute name.now) anything s.now st result }
{
    let c = st?;
    stay(c.next, attribute(s, Ok(c), name, t))
}

// The rest of a start tag, a text and the end tag. `start` is where the element starts: the place of the text of `<X/>`.
fn content(s: &[u8], st: Step, start: usize, name: &[u8], high: bool, t: &[u8; 256]) -> Step
    requires { ClassTable t.now }
    ensures { Reads (Layout.content name.now (allowed_in high) start) anything s.now st result }
{
    let c = blanks(s, st)?;
    match lit(s, Ok(c), b"/>") {
        Ok(short) => Ok(short),
        Err(e) => {
            let a = lit(s, Ok(Cursor { far: e.far, ..c }), b">");
            close(s, text(s, a, high, t), name)
        }
    }
}

// What follows a leaf's tag, and the blanks after the leaf.
fn leaf_rest(s: &[u8], st: Step, start: usize, name: &[u8], t: &[u8; 256]) -> Step
    requires { ClassTable t.now }
    ensures { Followed (Layout.content name.now (allowed_in false) start) Layout.blanks s.now st result }
{
    blanks(s, content(s, st, start, name, false, t))
}

// A leaf, with the blanks after it. It stands apart from `leaf`, for the reason of `text_at` in read_steps.
#[inline(never)]
fn leaf_at(s: &[u8], from: Cursor, name: &[u8], t: &[u8; 256]) -> Step
    requires { ClassTable t.now }
    ensures { Reads (Layout.child (Layout.leaf name.now)) (Not is_blank) s.now (Ok from) result }
{
    let Cursor { next, far } = from;
    if usual(s, next, b"<", name) {
        let first = next + name.len() + 2;
        let here = Ok(Cursor {
            next: first,
            far: far.max(first),
        });
        return blanks(s, close(s, text(s, here, false, t), name));
    }
    leaf_rest(s, tag(s, Ok(Cursor { next, far }), name), next, name, t)
}

#[inline(always)]
pub fn leaf(s: &[u8], st: Step, name: &[u8], t: &[u8; 256]) -> Step
    requires { ClassTable t.now }
    ensures { Reads (Layout.child (Layout.leaf name.now)) (Not is_blank) s.now st result }
{
    leaf_at(s, st?, name, t)
}

// The same where it may be missing. The tag is tested here, so that a missing leaf costs no call.
pub fn leaf_maybe(s: &[u8], st: Step, name: &[u8], t: &[u8; 256]) -> Step
    requires { ClassTable t.now }
    ensures { Tried (Layout.child (Layout.leaf name.now)) (Not is_blank) s.now st result }
{
    let c = st?;
    match tag(s, Ok(c), name) {
        Err(e) => Ok(Cursor { far: e.far, ..c }),
        Ok(a) => stay(c.next, leaf_rest(s, Ok(a), c.next, name, t)),
    }
}

// A name or title with its language, and the blanks after it.
pub fn spoken(s: &[u8], st: Step, name: &[u8], t: &[u8; 256]) -> Step
    requires { ClassTable t.now }
    ensures { Reads (Layout.child (Layout.spoken name.now)) (Not is_blank) s.now st result }
{
    let c = st?;
    let a = tag(s, Ok(c), name);
    let b = attribute(s, a, b"languageCode", t);
    blanks(s, content(s, b, c.next, name, true, t))
}
