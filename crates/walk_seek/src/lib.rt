// The item of a number: the sequence, feature or qualifier number k of those that stand from a place on; the feature of a sequence that
// was found, and the qualifier of a feature that was found, with the refusals 32 and 33. Relies on the walk along the items only, not on
// the check.
#![tactic(auto)]

ghost use Rattle.paper.specs.Bytes.{is_blank};
ghost use Rattle.read_steps.specs.Follow.{Not};
ghost use Rattle.walk_steps.specs.Stands.{Over};
ghost use Rattle.walk_seek.specs.Items.{form_of, Seeks};
ghost use Rattle.walk_seek.specs.Within.{FeatureFound, QualifierFound};

use paper::Refused;
use walk_items::{FoundFeature, FoundQualifier, FoundSequence};

// What is asked for by its number. No closure stands in its place, since `Seeks` speaks of how each of the three is written.
#[derive(Clone, Copy)]
pub enum Item {
    Sequence,
    Feature,
    Qualifier,
}

// Past such an item.
fn item_over(s: &[u8], at: usize, item: Item) -> usize
    ensures { Over (form_of item) (Not is_blank) s.now at result }
{
    match item {
        Item::Sequence => walk_items::sequence(s, at).next,
        Item::Feature => walk_items::feature_over(s, at),
        Item::Qualifier => walk_items::qualifier(s, at).next,
    }
}

// Where the item number k stands of those that stand from here on. Each turn passes a tag at least, and no item starts behind s: so
// there are no more turns than bytes, however large k is.
pub fn nth(s: &[u8], first: usize, k: usize, item: Item) -> Option<usize>
    ensures { Seeks item s.now first k result }
{
    if k == 0 {
        return None;
    }
    let mut at = first;
    for _ in 1..k {
        if !walk_steps::child_here(s, at) {
            return None;
        }
        at = item_over(s, at, item);
    }
    if walk_steps::child_here(s, at) {
        Some(at)
    } else {
        None
    }
}

// ---- in what was found

// The feature number j of a sequence that was found.
pub fn feature_in(
    listing: &[u8],
    sequence: FoundSequence,
    j: usize,
) -> Result<FoundFeature, Refused>
    ensures { FeatureFound listing.now sequence j result }
{
    let table = sequence.table.ok_or(Refused { rule: 32, place: 0 })?;
    let at = nth(listing, table.first, j, Item::Feature).ok_or(Refused { rule: 32, place: 0 })?;
    Ok(walk_items::feature(listing, at))
}

// The qualifier number i of a feature that was found.
pub fn qualifier_in(
    listing: &[u8],
    feature: FoundFeature,
    i: usize,
) -> Result<FoundQualifier, Refused>
    ensures { QualifierFound listing.now feature i result }
{
    let at = nth(listing, feature.quals, i, Item::Qualifier).ok_or(Refused { rule: 33, place: 0 })?;
    Ok(walk_items::qualifier(listing, at))
}
