// The items of a listing that is known to be laid out: where the texts of a qualifier, a feature and a sequence stand, and what comes
// next. A promise speaks of whatever item of the tree stands at the place; of other bytes it says nothing. Relies on the paper and the
// steps of the walk, and in its proofs on the laws of read_steps of what may follow what.
#![tactic(auto)]

ghost use Rattle.std.specs.Prelude.{◌+◌, ◌≤◌, false, length};
ghost use Rattle.paper.specs.Bytes.{is_blank};
ghost use Rattle.paper.specs.Layout as Form;
ghost use Rattle.paper.specs.Form.{each};
ghost use Rattle.read_steps.specs.Follow.{Not, Starts, closing};
ghost use Rattle.walk_steps.specs.Stands.{Ends, Over};
ghost use Rattle.walk_items.specs.Items.{MeetsQualifier, MeetsFeature, FeatureRest, FeatureFrom, PassesFeature, feature_tail, Ending, Endings, FirstEnding, table_closing, FindsTable, FindsIds, MeetsSequence};

use walk_steps::{Found, Opened, Range};

// ---- qualifiers and features

#[derive(Clone, Copy)]
pub struct FoundQualifier {
    pub name: Range,
    pub value: Option<Range>,
    pub next: usize,
}

pub fn qualifier(s: &[u8], at: usize) -> FoundQualifier
    ensures { MeetsQualifier s.now at result }
{
    let a = walk_steps::tag(s, at, b"INSDQualifier");
    let b = walk_steps::enter(s, a);
    let Found {
        part: name,
        next: c,
    } = walk_steps::leaf(s, b, b"INSDQualifier_name");
    let Found {
        part: value,
        next: d,
    } = walk_steps::last_leaf(s, c, b"INSDQualifier_value");
    FoundQualifier {
        name,
        value,
        next: walk_steps::leave(s, d, b"INSDQualifier"),
    }
}

// A feature's texts, and where its qualifiers stand. `long` says how its qualifiers end.
#[derive(Clone, Copy)]
pub struct FoundFeature {
    pub key: Range,
    pub location: Range,
    pub quals: usize,
    pub long: bool,
}

// The feature of this key and this location, whose qualifiers stand from here on.
fn feature_rest(s: &[u8], key: Range, location: Range, at: usize) -> FoundFeature
    ensures { FeatureRest s.now key location at result }
{
    let Opened { long, first: quals } = walk_steps::children(
        s,
        at,
        b"INSDFeature_quals",
        walk_steps::child_here(s, at),
    );
    FoundFeature {
        key,
        location,
        quals,
        long,
    }
}

pub fn feature(s: &[u8], at: usize) -> FoundFeature
    ensures { MeetsFeature s.now at result }
{
    let a = walk_steps::tag(s, at, b"INSDFeature");
    let b = walk_steps::enter(s, a);
    let Found { part: key, next: c } = walk_steps::leaf(s, b, b"INSDFeature_key");
    let Found {
        part: location,
        next: d,
    } = walk_steps::leaf(s, c, b"INSDFeature_location");
    feature_rest(s, key, location, d)
}

// The feature of this key and this location, which isn't empty: it isn't walked to.
pub fn feature_from(s: &[u8], key: Range, location: Range) -> FoundFeature
    ensures { FeatureFrom s.now key location result }
{
    let d = walk_steps::leave(s, location.to, b"INSDFeature_location");
    feature_rest(s, key, location, d)
}

// From behind its last qualifier past the end of a feature.
pub fn feature_end(s: &[u8], at: usize, long: bool) -> usize
    ensures { Ends (feature_tail long) (Not is_blank) s.now at result }
{
    let a = walk_steps::shut(s, at, b"INSDFeature_quals", long);
    walk_steps::leave(s, a, b"INSDFeature")
}

// Past the qualifiers that stand here. Only a qualifier says where the next one starts, so it is a while; that each is longer than
// nothing is asked so that the loop ends, whatever the bytes are.
pub fn qualifiers_over(s: &[u8], first: usize) -> usize
    ensures { Over (each (Form.child Form.qualifier)) (Starts closing) s.now first result }
{
    let mut at = first;
    while walk_steps::child_here(s, at) {
        let next = qualifier(s, at).next;
        if next <= at {
            return at;
        }
        at = next;
    }
    at
}

// Past a feature that was found.
pub fn feature_past(s: &[u8], feature: FoundFeature) -> usize
    ensures { PassesFeature s.now feature result }
{
    feature_end(s, qualifiers_over(s, feature.quals), feature.long)
}

// Past a feature.
pub fn feature_over(s: &[u8], at: usize) -> usize
    ensures { Over (Form.child Form.feature) (Not is_blank) s.now at result }
{
    feature_past(s, feature(s, at))
}

// ---- the end of a feature table

// 1 for `<` and, six bytes further, `S`: so starts `</INSDSeq_feature-table`, and no tag inside the table. As a number, to be joined
// without a branch.
fn ending(a: u8, b: u8) -> u8
    ensures { Ending a b result }
{
    u8::from(a == b'<' && b == b'S')
}

// 0 only where the table ends at none of 64 places. With no branch, and no sum: so it is compiled to plain vector code.
fn endings(s: &[u8], at: usize) -> u8
    requires { at + 70 ≤ length s.now }
    ensures { Endings s.now at result }
{
    let mut any = 0;
    for j in 0..64 {
        any |= ending(s[at + j], s[at + j + 6]);
    }
    any
}

// The first such place from here on, byte by byte.
fn ending_from(s: &[u8], at: usize) -> usize
    requires { at ≤ length s.now }
    ensures { FirstEnding s.now at result }
{
    for i in at..s.len().saturating_sub(6) {
        if ending(s[i], s[i + 6]) != 0 {
            return i;
        }
    }
    s.len()
}

// Past the features that stand here: they aren't read, only their end is sought, by 64 places. A test reads six bytes behind its
// places, so chunks of s don't fit.
fn table_end(s: &[u8], first: usize) -> usize
    ensures { Over (each (Form.child Form.feature)) (Starts table_closing) s.now first result }
{
    if s.len() < first {
        return first;
    }
    let mut at = first;
    while 70 <= s.len() - at {
        if endings(s, at) != 0 {
            return ending_from(s, at);
        }
        at += 64;
    }
    ending_from(s, at)
}

// ---- sequences

// A feature table: its place, and where its features stand.
#[derive(Clone, Copy)]
pub struct FoundTable {
    pub place: usize,
    pub first: usize,
}

// A feature table that may be missing.
fn table(s: &[u8], at: usize) -> Found<Option<FoundTable>>
    ensures { FindsTable s.now at result }
{
    if walk_steps::opens(s, at, b"INSDSeq_feature-table") {
        let a = walk_steps::tag(s, at, b"INSDSeq_feature-table");
        let first = walk_steps::enter(s, a);
        let b = table_end(s, first);
        Found {
            part: Some(FoundTable { place: at, first }),
            next: walk_steps::leave(s, b, b"INSDSeq_feature-table"),
        }
    } else {
        Found {
            part: None,
            next: at,
        }
    }
}

// Whether other-seqids are there.
fn other_ids(s: &[u8], at: usize) -> Found<bool>
    ensures { FindsIds s.now at result }
{
    let present = walk_steps::opens(s, at, b"INSDSeq_other-seqids");
    let Opened { long, first } = walk_steps::children(s, at, b"INSDSeq_other-seqids", present);
    let Found { part: _, next } = walk_steps::leaf_maybe(s, first, b"INSDSeqid");
    Found {
        part: present,
        next: walk_steps::shut(s, next, b"INSDSeq_other-seqids", long),
    }
}

#[derive(Clone, Copy)]
pub struct FoundSequence {
    pub number: Range,
    pub declared: Range,
    pub moltype: Range,
    pub division: Range,
    pub ids: bool,
    pub table: Option<FoundTable>,
    pub residues: Range,
    pub next: usize,
}

pub fn sequence(s: &[u8], at: usize) -> FoundSequence
    ensures { MeetsSequence s.now at result }
{
    let a = walk_steps::tag(s, at, b"SequenceData");
    let Found {
        part: number,
        next: b,
    } = walk_steps::attribute(s, a, b"sequenceIDNumber");
    let c = walk_steps::enter(s, b);
    let d = walk_steps::tag(s, c, b"INSDSeq");
    let e = walk_steps::enter(s, d);
    let Found {
        part: declared,
        next: f,
    } = walk_steps::leaf(s, e, b"INSDSeq_length");
    let Found {
        part: moltype,
        next: g,
    } = walk_steps::leaf(s, f, b"INSDSeq_moltype");
    let Found {
        part: division,
        next: h,
    } = walk_steps::leaf(s, g, b"INSDSeq_division");
    let Found { part: ids, next: i } = other_ids(s, h);
    let Found {
        part: table,
        next: j,
    } = table(s, i);
    let Found {
        part: residues,
        next: k,
    } = walk_steps::leaf(s, j, b"INSDSeq_sequence");
    let l = walk_steps::leave(s, k, b"INSDSeq");
    FoundSequence {
        number,
        declared,
        moltype,
        division,
        ids,
        table,
        residues,
        next: walk_steps::leave(s, l, b"SequenceData"),
    }
}
