// The calls of document 01 that show a piece of an accepted listing: each is the check, a walk to the item, and its answer.
// Any bytes, any numbers and any room may be given; nobody need check anything first.
// Relies on the other crates of this floor, ask_find and ask_found first, and on the parts of the judge for the kind and L.
#![tactic(auto)]

ghost use Rattle.ask_answers.specs.Given.{SequenceGiven, FeatureGiven, QualifierGiven, TranslationGiven, TranslationsGiven};
ghost use Rattle.ask_lookups.specs.Shows.{KnowsSequence, ShowsSequence, ShowsFeature, ShowsQualifier};

use ask_answers::{FeatureAnswer, LentAnswer, QualifierAnswer, SequenceAnswer};
use ask_find::{find_feature, find_qualifier, find_sequence};
use ask_found::{
    feature_answer, qualifier_answer, sequence_answer, translation_answer, translations_answer,
};
use ask_show::{Feature, Qualifier, Sequence, show_feature, show_qualifier, show_sequence};
use judge_faults::Known;
use paper::Refused;
use read_steps::bytes_of;
use walk_items::FoundSequence;

// ---- a sequence

pub fn locate_sequence(listing: &[u8], k: usize) -> SequenceAnswer
    ensures { SequenceGiven listing.now k result }
{
    let found = find_sequence(listing, k)?;
    let moltype = found.moltype;
    let kind = value_words::kind_of(bytes_of(listing, moltype.from, moltype.to));
    Ok(sequence_answer(kind, found.residues))
}

pub fn sequence<'l>(listing: &'l [u8], k: usize) -> Sequence<'l>
    ensures { ShowsSequence listing.now listing.entry.ref_ptr k result }
{
    show_sequence(listing, locate_sequence(listing, k))
}

// ---- a feature

// The spans go to the lent numbers.
pub fn locate_feature(listing: &[u8], k: usize, j: usize, out: &mut [u32]) -> FeatureAnswer
    ensures { FeatureGiven listing.now k j out.old result out.new }
{
    let (sequence, found) = find_feature(listing, k, j)?;
    feature_answer(listing, sequence.residues, found.key, found.location, out)
}

pub fn feature<'l>(
    listing: &'l [u8],
    k: usize,
    j: usize,
    out: &mut [u32],
) -> Result<Feature<'l>, Refused>
    ensures { ShowsFeature listing.now listing.entry.ref_ptr k j out.old result out.new }
{
    show_feature(listing, locate_feature(listing, k, j, out))
}

// ---- a qualifier

pub fn locate_qualifier(listing: &[u8], k: usize, j: usize, i: usize) -> QualifierAnswer
    ensures { QualifierGiven listing.now k j i result }
{
    let found = find_qualifier(listing, k, j, i)?;
    Ok(qualifier_answer(found))
}

pub fn qualifier<'l>(
    listing: &'l [u8],
    k: usize,
    j: usize,
    i: usize,
) -> Result<Qualifier<'l>, Refused>
    ensures { ShowsQualifier listing.now listing.entry.ref_ptr k j i result }
{
    show_qualifier(listing, locate_qualifier(listing, k, j, i))
}

// ---- translations

// What is known of a sequence that was found, as the check knows it. ask_found's `known_of` would do and read no residue; but then the
// check alone would scan residues, the compiler would put the scan into its loop, and that takes 5 % longer (docs/SPEED.md).
fn known_of(listing: &[u8], sequence: FoundSequence) -> Known
    ensures { KnowsSequence listing.now sequence result }
{
    let symbols = value_residues::symbol_table();
    judge_texts::known_of(listing, sequence.moltype, sequence.residues, &symbols)
}

// One translation at the front of out; or nothing is written.
pub fn translation(listing: &[u8], k: usize, j: usize, out: &mut [u8]) -> LentAnswer
    ensures { TranslationGiven listing.now k j out.old result out.new }
{
    let (sequence, feature) = find_feature(listing, k, j)?;
    let known = known_of(listing, sequence);
    translation_answer(listing, known, feature, out)
}

// All translations of a sequence at the front of out, each closed by byte 10; or nothing is written.
pub fn translations(listing: &[u8], k: usize, out: &mut [u8]) -> LentAnswer
    ensures { TranslationsGiven listing.now k out.old result out.new }
{
    let sequence = find_sequence(listing, k)?;
    match sequence.table {
        None => Ok(0),
        Some(table) => {
            let known = known_of(listing, sequence);
            let first = walk_items::feature(listing, table.first);
            translations_answer(listing, known, first, out)
        }
    }
}
