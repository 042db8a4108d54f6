// What is shown of what the walk found: a part as a stretch of the listing, and a stretch as a part of the lent slice itself, for all the
// parts of an answer. Any part, any answer and any bytes may be given. Relies on walk_steps for a part, and on ask_answers for a stretch
// and the answers.
#![tactic(auto)]

ghost use Rattle.ask_show.specs.Shown.{StretchOf, ValueOf, PointsAt, SequenceIn, FeatureIn, QualifierIn};

use ask_answers::{
    FeatureAnswer, FeatureShown, QualifierAnswer, QualifierShown, SequenceAnswer, Stretch,
    no_stretch,
};
use location_judge::operators::Operator;
use paper::Refused;
use value_words::Molecule;
use walk_steps::Range;

// The stretch of a part.
pub fn stretch_of(part: Range) -> Stretch
    ensures { StretchOf part result }
{
    if part.to < part.from {
        return no_stretch();
    }
    Stretch {
        start: part.from,
        size: part.to - part.from,
    }
}

// The stretch of a value, if it is there.
pub fn value_stretch(value: Option<Range>) -> Option<Stretch>
    ensures { ValueOf value result }
{
    Some(stretch_of(value?))
}

// A stretch of the lent slice itself. By index: `get` promises the bytes alone, and not where they stand.
pub fn shown<'l>(listing: &'l [u8], x: Stretch) -> &'l [u8]
    ensures { PointsAt listing.now listing.entry.ref_ptr x result.now result.ref_ptr }
{
    if listing.len() < x.start || listing.len() - x.start < x.size {
        return &listing[0..0];
    }
    &listing[x.start..x.start + x.size]
}

// ---- an answer, its parts as the lent listing itself

// "its kind, and its residues as the part of the lent listing": no Result of both, since document 01 wants "an empty part on refusal".
#[derive(Clone, Copy)]
pub struct Sequence<'l> {
    pub kind: Result<Molecule, Refused>,
    pub residues: &'l [u8],
}

pub fn show_sequence<'l>(listing: &'l [u8], answer: SequenceAnswer) -> Sequence<'l>
    ensures { SequenceIn listing.now listing.entry.ref_ptr answer result }
{
    match answer {
        Ok(x) => Sequence {
            kind: Ok(x.kind),
            residues: shown(listing, x.residues),
        },
        Err(refused) => Sequence {
            kind: Err(refused),
            residues: shown(listing, no_stretch()),
        },
    }
}

// "key part, location part, operator, count and spans", but for the spans, which go to lent numbers.
#[derive(Clone, Copy)]
pub struct Feature<'l> {
    pub key: &'l [u8],
    pub location: &'l [u8],
    pub operator: Option<Operator>,
    pub count: usize,
}

pub fn show_feature<'l>(listing: &'l [u8], answer: FeatureAnswer) -> Result<Feature<'l>, Refused>
    ensures { FeatureIn listing.now listing.entry.ref_ptr answer result }
{
    let FeatureShown {
        key,
        location,
        operator,
        count,
    } = answer?;
    Ok(Feature {
        key: shown(listing, key),
        location: shown(listing, location),
        operator,
        count,
    })
}

// "its name part, whether a value is present, and its part"
#[derive(Clone, Copy)]
pub struct Qualifier<'l> {
    pub name: &'l [u8],
    pub value: Option<&'l [u8]>,
}

pub fn show_qualifier<'l>(
    listing: &'l [u8],
    answer: QualifierAnswer,
) -> Result<Qualifier<'l>, Refused>
    ensures { QualifierIn listing.now listing.entry.ref_ptr answer result }
{
    let QualifierShown { name, value } = answer?;
    let name = shown(listing, name);
    match value {
        None => Ok(Qualifier { name, value: None }),
        Some(part) => Ok(Qualifier {
            name,
            value: Some(shown(listing, part)),
        }),
    }
}
