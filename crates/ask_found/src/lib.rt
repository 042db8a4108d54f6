// The answer of an item that was found in an accepted listing, whoever found it. An answer is promised of whichever item of the paper's
// tree was found so; of other bytes nothing is said. Relies on what is shown of a part, the spans of a location, the translations, and in
// its proofs on what the check's acceptance says of a sequence.
#![tactic(auto)]

ghost use Rattle.ask_found.specs.Answers.{TopOf, KnowsFound, AnswersSequence, AnswersFeature, AnswersQualifier, AnswersTranslation, AnswersTranslations};

use ask_answers::{FeatureAnswer, FeatureShown, LentAnswer, QualifierShown, SequenceShown};
use ask_show::{stretch_of, value_stretch};
use judge_faults::Known;
use paper::Refused;
use value_words::Molecule;
use walk_items::{FoundFeature, FoundQualifier};
use walk_steps::Range;

// L of a sequence: each of its residues is a symbol, so none need be read.
fn top_of(residues: Range) -> u32
    ensures { TopOf residues result }
{
    (stretch_of(residues).size % 4_294_967_296) as u32
}

// What is known of a sequence, by its kind and its residues.
pub fn known_of(kind: Molecule, residues: Range) -> Known
    ensures { KnowsFound kind residues result }
{
    Known {
        kind,
        top: top_of(residues),
        foreign: residues.to,
        residues,
    }
}

pub fn sequence_answer(kind: Molecule, residues: Range) -> SequenceShown
    ensures { AnswersSequence kind residues result }
{
    SequenceShown {
        kind,
        residues: stretch_of(residues),
    }
}

// Its key and its location, and the spans of that, three numbers of each at the front of out; or nothing is shown or written.
pub fn feature_answer(
    listing: &[u8],
    residues: Range,
    key: Range,
    location: Range,
    out: &mut [u32],
) -> FeatureAnswer
    ensures { AnswersFeature listing.now residues key location out.old result out.new }
{
    let top = top_of(residues);
    let written = location_spans::room::spans(listing, location.from, location.to, top, out);
    let spans = written.ok_or(Refused { rule: 34, place: 0 })?;
    Ok(FeatureShown {
        key: stretch_of(key),
        location: stretch_of(location),
        operator: spans.operator,
        count: spans.count,
    })
}

pub fn qualifier_answer(found: FoundQualifier) -> QualifierShown
    ensures { AnswersQualifier found result }
{
    QualifierShown {
        name: stretch_of(found.name),
        value: value_stretch(found.value),
    }
}

// One translation at the front of out; or nothing is written.
pub fn translation_answer(
    listing: &[u8],
    known: Known,
    feature: FoundFeature,
    out: &mut [u8],
) -> LentAnswer
    ensures { AnswersTranslation listing.now known feature out.old result out.new }
{
    let code = protein_code::code_table();
    let vocabulary = value_vocabulary::vocabulary_table();
    ask_translation::translate(listing, known, feature, &code, &vocabulary, out)
}

// All translations of a sequence, by its first feature, each closed by byte 10; or nothing is written.
pub fn translations_answer(
    listing: &[u8],
    known: Known,
    first: FoundFeature,
    out: &mut [u8],
) -> LentAnswer
    ensures { AnswersTranslations listing.now known first out.old result out.new }
{
    let code = protein_code::code_table();
    let vocabulary = value_vocabulary::vocabulary_table();
    ask_translations::translate_all(listing, known, first, &code, &vocabulary, out)
}
