// The answers of document 01's calls: what is shown, or the paper's refusal; and each handed over as numbers: every number lent is set in
// every case. Any answer may be given. Relies on the paper for a refusal, on value_words for a kind, and on location_judge for an operator.
#![tactic(auto)]

ghost use Rattle.std.specs.Prelude.{◌≡◌};
ghost use Rattle.location_judge.specs.Readings.{operator_code};
ghost use Rattle.ask_answers.specs.Stretches.{no_stretch, kind_is};
ghost use Rattle.ask_answers.specs.Handed.{Narrow, HandsRefusal, HandsVerdict, HandsSequence, HandsFeature, HandsQualifier, HandsLent, HandsIndexVerdict};

use location_judge::operators::Operator;
use paper::{Refused, Verdict};
use value_words::Molecule;

// A stretch of the listing.
#[derive(Clone, Copy)]
pub struct Stretch {
    pub start: usize,
    pub size: usize,
}

pub fn no_stretch() -> Stretch
    ensures { result ≡ no_stretch }
{
    Stretch { start: 0, size: 0 }
}

// ---- the answers

// Of a sequence: its kind, and where its residues stand.
#[derive(Clone, Copy)]
pub struct SequenceShown {
    pub kind: Molecule,
    pub residues: Stretch,
}

pub type SequenceAnswer = Result<SequenceShown, Refused>;

// Of a feature: where its key and its location stand, the location's operator if it has one, and the number of spans.
#[derive(Clone, Copy)]
pub struct FeatureShown {
    pub key: Stretch,
    pub location: Stretch,
    pub operator: Option<Operator>,
    pub count: usize,
}

pub type FeatureAnswer = Result<FeatureShown, Refused>;

// Of a qualifier: where its name stands, and its value if it has one.
#[derive(Clone, Copy)]
pub struct QualifierShown {
    pub name: Stretch,
    pub value: Option<Stretch>,
}

pub type QualifierAnswer = Result<QualifierShown, Refused>;

// Of lent bytes, for translations and an index: the length of what is written.
pub type LentAnswer = Result<usize, Refused>;

// Whether an index belongs to a listing.
pub type IndexVerdict = Result<(), Refused>;

// ---- handed over as numbers

// The number that C is given: 0 none, 1 DNA, 2 RNA, 3 AA.
pub fn kind_number(kind: Molecule) -> u8
    ensures { result ≡ kind_is kind }
{
    match kind {
        Molecule::Dna => 1,
        Molecule::Rna => 2,
        Molecule::Aa => 3,
        Molecule::Other => 0,
    }
}

// 0 none, 1 join, 2 order.
fn operator_number(operator: Option<Operator>) -> u8
    ensures { result ≡ operator_code operator }
{
    match operator {
        None => 0,
        Some(Operator::Join) => 1,
        Some(Operator::Order) => 2,
    }
}

// The number that is returned. No refusal is above 50, so none is cut off.
fn narrow(number: usize) -> u32
    ensures { Narrow number result }
{
    number.min(255) as u32
}

fn hand_refusal(refused: Refused, place: &mut usize) -> u32
    ensures { HandsRefusal refused result place.new }
{
    *place = refused.place;
    narrow(refused.rule)
}

pub fn hand_verdict(
    verdict: Verdict,
    place: &mut usize,
    total: &mut usize,
    skipped: &mut usize,
    features: &mut usize,
    judged: &mut usize,
    unjudged: &mut usize,
) -> u32
    ensures { HandsVerdict verdict result place.new total.new skipped.new features.new judged.new unjudged.new }
{
    match verdict {
        Ok(figures) => {
            *place = 0;
            *total = figures.total;
            *skipped = figures.skipped;
            *features = figures.features;
            *judged = figures.judged;
            *unjudged = figures.unjudged;
            0
        }
        Err(refused) => {
            *total = 0;
            *skipped = 0;
            *features = 0;
            *judged = 0;
            *unjudged = 0;
            hand_refusal(refused, place)
        }
    }
}

pub fn hand_sequence(
    answer: SequenceAnswer,
    place: &mut usize,
    kind: &mut u8,
    start: &mut usize,
    size: &mut usize,
) -> u32
    ensures { HandsSequence answer result place.new kind.new start.new size.new }
{
    match answer {
        Ok(sequence) => {
            *place = 0;
            *kind = kind_number(sequence.kind);
            *start = sequence.residues.start;
            *size = sequence.residues.size;
            0
        }
        Err(refused) => {
            *kind = 0;
            *start = 0;
            *size = 0;
            hand_refusal(refused, place)
        }
    }
}

pub fn hand_feature(
    answer: FeatureAnswer,
    place: &mut usize,
    keystart: &mut usize,
    keysize: &mut usize,
    locationstart: &mut usize,
    locationsize: &mut usize,
    operator: &mut u8,
    count: &mut usize,
) -> u32
    ensures { HandsFeature answer result place.new keystart.new keysize.new locationstart.new locationsize.new operator.new count.new }
{
    match answer {
        Ok(feature) => {
            *place = 0;
            *keystart = feature.key.start;
            *keysize = feature.key.size;
            *locationstart = feature.location.start;
            *locationsize = feature.location.size;
            *operator = operator_number(feature.operator);
            *count = feature.count;
            0
        }
        Err(refused) => {
            *keystart = 0;
            *keysize = 0;
            *locationstart = 0;
            *locationsize = 0;
            *operator = 0;
            *count = 0;
            hand_refusal(refused, place)
        }
    }
}

pub fn hand_qualifier(
    answer: QualifierAnswer,
    place: &mut usize,
    namestart: &mut usize,
    namesize: &mut usize,
    present: &mut u8,
    valuestart: &mut usize,
    valuesize: &mut usize,
) -> u32
    ensures { HandsQualifier answer result place.new namestart.new namesize.new present.new valuestart.new valuesize.new }
{
    match answer {
        Ok(qualifier) => {
            let value = qualifier.value.unwrap_or(no_stretch());
            *place = 0;
            *namestart = qualifier.name.start;
            *namesize = qualifier.name.size;
            *present = u8::from(qualifier.value.is_some());
            *valuestart = value.start;
            *valuesize = value.size;
            0
        }
        Err(refused) => {
            *namestart = 0;
            *namesize = 0;
            *present = 0;
            *valuestart = 0;
            *valuesize = 0;
            hand_refusal(refused, place)
        }
    }
}

// For one translation, for all of a sequence, and for an index.
pub fn hand_lent(answer: LentAnswer, place: &mut usize, size: &mut usize) -> u32
    ensures { HandsLent answer result place.new size.new }
{
    match answer {
        Ok(length) => {
            *place = 0;
            *size = length;
            0
        }
        Err(refused) => {
            *size = 0; // nothing is lent
            hand_refusal(refused, place)
        }
    }
}

pub fn hand_index_verdict(answer: IndexVerdict, place: &mut usize) -> u32
    ensures { HandsIndexVerdict answer result place.new }
{
    match answer {
        Ok(()) => {
            *place = 0;
            0
        }
        Err(refused) => hand_refusal(refused, place),
    }
}
