// The lookups with an index: each runs the index's checker, finds the sequence and the feature by the index's own numbers, and goes on from
// there. Listing and index are two lent slices; whatever is shown is part of the listing. Any bytes, any numbers and any room may be given.
// Relies on ask_index for the checker, on index_find for the numbers, and on ask_found for the answers.
#![tactic(auto)]

ghost use Rattle.ask_answers.specs.Given.{IndexedSequenceGiven, IndexedFeatureGiven, IndexedQualifierGiven, IndexedTranslationGiven, IndexedTranslationsGiven};
ghost use Rattle.ask_indexed.specs.Finds.{BodyAsked, EntryAsked};
ghost use Rattle.ask_indexed.specs.Shows.{ShowsSequence, ShowsFeature, ShowsQualifier};

use ask_answers::{FeatureAnswer, LentAnswer, QualifierAnswer, SequenceAnswer};
use ask_found::{
    feature_answer, known_of, qualifier_answer, sequence_answer, translation_answer,
    translations_answer,
};
use ask_index::check_index;
use ask_show::{Feature, Qualifier, Sequence, show_feature, show_qualifier, show_sequence};
use index_find::{Body, Entry, body_of, entry_of};
use paper::Refused;
use walk_items::feature_from;
use walk_seek::qualifier_in;

// ---- found by the index

// The body of the sequence number k.
fn find_body(listing: &[u8], index: &[u8], k: usize) -> Result<Body, Refused>
    ensures { BodyAsked listing.now index.now k result }
{
    check_index(listing, index)?;
    body_of(index, k)
}

// The entry of the feature number j of the sequence number k, and the body that has it.
fn find_entry(listing: &[u8], index: &[u8], k: usize, j: usize) -> Result<(Body, Entry), Refused>
    ensures { EntryAsked listing.now index.now k j result }
{
    let body = find_body(listing, index, k)?;
    let entry = entry_of(index, body, j).ok_or(Refused { rule: 32, place: 0 })?;
    Ok((body, entry))
}

// ---- a sequence

pub fn locate_sequence(listing: &[u8], index: &[u8], k: usize) -> SequenceAnswer
    ensures { IndexedSequenceGiven listing.now index.now k result }
{
    let body = find_body(listing, index, k)?;
    Ok(sequence_answer(body.kind, body.residues))
}

// "indexed lookups take listing and index as two lent slices; the returned part has the listing's lifetime"
pub fn sequence<'l>(listing: &'l [u8], index: &[u8], k: usize) -> Sequence<'l>
    ensures { ShowsSequence listing.now listing.entry.ref_ptr index.now k result }
{
    show_sequence(listing, locate_sequence(listing, index, k))
}

// ---- a feature

pub fn locate_feature(
    listing: &[u8],
    index: &[u8],
    k: usize,
    j: usize,
    out: &mut [u32],
) -> FeatureAnswer
    ensures { IndexedFeatureGiven listing.now index.now k j out.old result out.new }
{
    let (body, entry) = find_entry(listing, index, k, j)?;
    feature_answer(listing, body.residues, entry.key, entry.location, out)
}

pub fn feature<'l>(
    listing: &'l [u8],
    index: &[u8],
    k: usize,
    j: usize,
    out: &mut [u32],
) -> Result<Feature<'l>, Refused>
    ensures { ShowsFeature listing.now listing.entry.ref_ptr index.now k j out.old result out.new }
{
    show_feature(listing, locate_feature(listing, index, k, j, out))
}

// ---- a qualifier

pub fn locate_qualifier(
    listing: &[u8],
    index: &[u8],
    k: usize,
    j: usize,
    i: usize,
) -> QualifierAnswer
    ensures { IndexedQualifierGiven listing.now index.now k j i result }
{
    let (_, entry) = find_entry(listing, index, k, j)?;
    let feature = feature_from(listing, entry.key, entry.location);
    let found = qualifier_in(listing, feature, i)?;
    Ok(qualifier_answer(found))
}

pub fn qualifier<'l>(
    listing: &'l [u8],
    index: &[u8],
    k: usize,
    j: usize,
    i: usize,
) -> Result<Qualifier<'l>, Refused>
    ensures { ShowsQualifier listing.now listing.entry.ref_ptr index.now k j i result }
{
    show_qualifier(listing, locate_qualifier(listing, index, k, j, i))
}

// ---- translations

// One translation at the front of out; or nothing is written.
pub fn translation(listing: &[u8], index: &[u8], k: usize, j: usize, out: &mut [u8]) -> LentAnswer
    ensures { IndexedTranslationGiven listing.now index.now k j out.old result out.new }
{
    let (body, entry) = find_entry(listing, index, k, j)?;
    let known = known_of(body.kind, body.residues);
    let feature = feature_from(listing, entry.key, entry.location);
    translation_answer(listing, known, feature, out)
}

// All translations of a sequence at the front of out, each closed by byte 10; or nothing is written.
pub fn translations(listing: &[u8], index: &[u8], k: usize, out: &mut [u8]) -> LentAnswer
    ensures { IndexedTranslationsGiven listing.now index.now k out.old result out.new }
{
    let body = find_body(listing, index, k)?;
    match entry_of(index, body, 1) {
        None => Ok(0),
        Some(entry) => {
            let known = known_of(body.kind, body.residues);
            let first = feature_from(listing, entry.key, entry.location);
            translations_answer(listing, known, first, out)
        }
    }
}
