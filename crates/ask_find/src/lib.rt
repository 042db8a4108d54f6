// Finds the sequence, the feature or the qualifier of a number in an accepted listing, with the refusals 30 to 33 in their order.
// Relies on the check, the judged header for where the sequences stand, and walk_seek for the item of a number.
#![tactic(auto)]

ghost use Rattle.ask_find.specs.Finds.{FindsFirst, SequenceAsked, FeatureAsked, QualifierAsked};

use paper::Refused;
use walk_items::{FoundFeature, FoundQualifier, FoundSequence};
use walk_seek::{Item, feature_in, nth, qualifier_in};

// Where the sequences of an accepted listing start, and the check's counts of sequences and of features.
#[derive(Clone, Copy)]
pub struct AcceptedAt {
    pub first: usize,
    pub total: usize,
    pub features: usize,
}

pub fn accepted(listing: &[u8]) -> Result<AcceptedAt, Refused>
    ensures { FindsFirst listing.now result }
{
    let figures = ask_check::check(listing)?;
    let headed = judge_header::judge_header(listing);
    Ok(AcceptedAt {
        first: headed.first,
        total: figures.total,
        features: figures.features,
    })
}

// The sequence number k, if it isn't skipped.
#[tactic(auto, using(crate::proofs::Found::skipped_so))]
pub fn find_sequence(listing: &[u8], k: usize) -> Result<FoundSequence, Refused>
    ensures { SequenceAsked listing.now k result }
{
    let list = accepted(listing)?;
    let at = nth(listing, list.first, k, Item::Sequence).ok_or(Refused { rule: 30, place: 0 })?;
    let found = walk_items::sequence(listing, at);
    if judge_texts::is_skipped(listing, found.residues) {
        return Err(Refused { rule: 31, place: 0 });
    }
    Ok(found)
}

// The feature number j of the sequence number k, and the sequence.
pub fn find_feature(
    listing: &[u8],
    k: usize,
    j: usize,
) -> Result<(FoundSequence, FoundFeature), Refused>
    ensures { FeatureAsked listing.now k j result }
{
    let sequence = find_sequence(listing, k)?;
    let feature = feature_in(listing, sequence, j)?;
    Ok((sequence, feature))
}

// The qualifier number i of the feature number j of the sequence number k.
pub fn find_qualifier(
    listing: &[u8],
    k: usize,
    j: usize,
    i: usize,
) -> Result<FoundQualifier, Refused>
    ensures { QualifierAsked listing.now k j i result }
{
    let (_, feature) = find_feature(listing, k, j)?;
    qualifier_in(listing, feature, i)
}
