// The vocabulary: the number of a qualifier's name, the row of a feature's key, and how a name stands in a row. All of it that is looked
// up is one lent table (tables.rt): dictionaries of the names and of the keys of each kind, and the rows, two bits for each name. The table
// is named once, in the function that hands it out; a public call takes it there and lends it on. Relies on the paper, the kinds of
// value_words and the look-up of value_dictionary.
#![tactic(auto)]

mod tables;

ghost use Rattle.std.specs.Prelude.{◌≡◌, ◌+◌, ◌<◌, drop};
ghost use Rattle.value_dictionary.specs.Texts.{byte_of};
ghost use Rattle.value_vocabulary.specs.Tables.{RowIn, VocabularyTable, needs_at, standing_at};
ghost use Rattle.value_vocabulary.specs.Lookups.{NameNumber, FindsRow};

use tables::{
    AMINO_KEYS, AMINO_KEYS_FACTOR, AMINO_KEYS_ROWS, NAMES_FACTOR, NUCLEOTIDE_KEYS,
    NUCLEOTIDE_KEYS_FACTOR, NUCLEOTIDE_KEYS_ROWS,
};
use value_dictionary::{find, pair_at};
use value_words::Molecule;

// The table of the vocabulary.
pub fn vocabulary_table() -> [u8; 3492]
    ensures { VocabularyTable result }
{
    tables::WORDS
}

// ---- names

// The number of a qualifier's name: that of its row in section 6, then the older names; 255 where it is none of them. It is a number and
// no Option: 255 stands in no row, so the caller looks it up as it does any other, and no branch asks whether there is one.
pub fn name_of(w: &[u8], words: &[u8; 3492]) -> usize
    requires { VocabularyTable words.now }
    ensures { NameNumber w.now result }
{
    find(w, words, 0, NAMES_FACTOR, 255).unwrap_or(255)
}

// ---- keys

// The place of the row of a key, 0 where it has none. `base`: where the keys stand; `rows`: where in their part the places of the rows do.
// Whatever number a text has, what is looked up by it lies in the table.
fn row_in(w: &[u8], words: &[u8; 3492], base: usize, factor: usize, rows: usize) -> usize
    requires factor_bound { factor < 16_777_216 }
    requires rows_bound { base + rows + 639 < 3_492 }
    ensures { RowIn factor rows (drop base words.now) w.now result }
{
    match find(w, words, base, factor, 127) {
        Some(k) => pair_at(words, base, rows + 2 * k),
        None => 0,
    }
}

// The place of the row of a key of this kind, 0 where the key is unknown. Where the moltype names no kind nothing is said. The table has 0
// for an older name too, and the caller looks names up at whichever place it gets: so it is a number and no Option.
pub fn row_of(w: &[u8], kind: Molecule, words: &[u8; 3492]) -> usize
    requires { VocabularyTable words.now }
    ensures { FindsRow words.now w.now kind result }
{
    if kind.is_acid() {
        row_in(w, words, AMINO_KEYS, AMINO_KEYS_FACTOR, AMINO_KEYS_ROWS)
    } else {
        row_in(
            w,
            words,
            NUCLEOTIDE_KEYS,
            NUCLEOTIDE_KEYS_FACTOR,
            NUCLEOTIDE_KEYS_ROWS,
        )
    }
}

// ---- rows

// A byte of a row, by its place in the table; 0 behind the end.
fn row_byte(t: &[u8], i: usize) -> usize
    ensures { (result ≡ byte_of t.now i) × (result < 256) }
{
    if i < t.len() { t[i] as usize } else { 0 }
}

// How many names the row at a place requires: none, one or two.
pub fn needs(row: usize, words: &[u8; 3492]) -> usize
    ensures { result ≡ needs_at words.now row }
{
    row_byte(words, row)
}

// How a name stands in the row at a place: 0 not allowed, 1 allowed, 2 the first that is required, 3 the second. Every other byte of a
// row is turned round: else the rows had long runs of 0, and LLVM would store those twice. The answer is the table's two bits: an enum
// would be made of them here by four cases, only to be compared by its one caller.
pub fn standing(row: usize, name: usize, words: &[u8; 3492]) -> usize
    ensures { result ≡ standing_at words.now row name }
{
    if 85 <= name || 65_536 <= row {
        return 0;
    }
    let bits = (row_byte(words, row + 1 + name / 4) >> (2 * (name % 4))) % 4;
    if name % 8 < 4 { bits } else { 3 - bits }
}
