// The words of a feature: rules 40 to 42. Relies on the row of its key in the vocabulary and on what is noted of its qualifiers.
#![tactic(auto)]

ghost use Rattle.judge_vocabulary.specs.Words.{HasAll, JudgesRow, JudgesWords};

use judge_faults::Fault;
use judge_qualifiers::Worded;
use paper::Refused;
use value_words::Molecule;

// Whether the names that a row requires, none, one or two, were met.
fn has_all(needs: usize, first: bool, second: bool) -> bool
    ensures { HasAll needs first second result }
{
    match needs {
        0 => true,
        1 => first,
        _ => first && second,
    }
}

// Of a key of DNA, RNA or AA: `key` is its place, `row` that of its row, 0 where it is unknown.
fn judge_row(key: usize, row: usize, words: Worded, vocabulary: &[u8; 3492]) -> Fault
    ensures { JudgesRow vocabulary.now key row words result }
{
    if row == 0 {
        return Some(Refused {
            rule: 40,
            place: key,
        });
    }
    let needs = value_vocabulary::needs(row, vocabulary);
    let met = has_all(needs, words.first, words.second);
    judge_faults::earlier(words.foreign, judge_faults::unless(met, 42, key))
}

// The first fault of the words. Where rule 16 is broken they aren't judged.
pub fn judge_words(
    key: usize,
    kind: Molecule,
    row: usize,
    words: Worded,
    vocabulary: &[u8; 3492],
) -> Fault
    ensures { JudgesWords vocabulary.now key kind row words result }
{
    if kind.is_known() {
        return judge_row(key, row, words, vocabulary);
    }
    None
}
