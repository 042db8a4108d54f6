// What the qualifiers of a feature say, in one pass for every feature: how many organisms and mol_types there are (rule 22), with which
// residue its codons start (rule 27), whether it is left unjudged, from where on its translations stand (rule 28), the first name that the
// key doesn't allow (rule 41), and whether the names that it requires are there (rule 42). A name is looked up once, and asked for by its
// number. Relies on the walk along the qualifiers, the values, the vocabulary and the judged location; it reads no residue.
#![tactic(auto)]

ghost use Rattle.std.specs.Prelude.{◌≡◌, ◌==◌, cond};
ghost use Rattle.value_vocabulary.specs.Tables.{VocabularyTable};
ghost use Rattle.judge_qualifiers.specs.Qualifiers.{ValueIs, OfName, States, Frames, Excepted, Excepts, met_at, WithWord, Notes, LeavesOut};
ghost use Rattle.judge_qualifiers.specs.Starts.{NamesCoding, StartsAt};

use judge_faults::{Fault, earlier, more_of_two};
use location_judge::judging::Facts;
use paper::Refused;
use read_steps::bytes_of;
use value_vocabulary::{name_of, standing};
use value_words::{Molecule, same};
use walk_items::FoundQualifier;
use walk_steps::Range;

// The numbers of the names that are asked for: their places in the vocabulary's table.
const CODON_START: usize = 9;

const EXCEPTION: usize = 19;

const MOL_TYPE: usize = 38;

const ORGANISM: usize = 44;

const PSEUDO: usize = 52;

const PSEUDOGENE: usize = 53;

const TRANSL_EXCEPT: usize = 76;

const TRANSL_TABLE: usize = 77;

const TRANSLATION: usize = 79;

const UPPER_ORGANISM: usize = 82;

const UPPER_MOL_TYPE: usize = 83;

// Whether a key is that of a coding region, for a kind.
pub fn is_coding(key: &[u8], kind: Molecule) -> bool
    ensures { NamesCoding key.now kind result }
{
    // An arm for each kind, so that an edit can take one alone.
    match kind {
        Molecule::Dna => same(key, b"CDS"),
        Molecule::Rna => same(key, b"CDS"),
        Molecule::Aa => false,
        Molecule::Other => false,
    }
}

// ---- what the qualifiers say

// Whether a value is there and is x, which is written as it reads.
fn value_is(s: &[u8], value: Option<Range>, x: &[u8]) -> bool
    ensures { ValueIs s.now value x.now result }
{
    match value {
        None => false,
        Some(p) => same(bytes_of(s, p.from, p.to), x),
    }
}

// Where translation starts: no codon_start was seen, or one, of the value 1, 2 or 3; else rule 27 is broken. These are three cases, so it
// is no Option and no Result.
#[derive(Clone, Copy)]
pub enum Frame {
    Unstated,
    Stated(usize),
    Wrong,
}

// What one codon_start of this value states.
fn stated(s: &[u8], value: Option<Range>) -> Frame
    ensures { States s.now value result }
{
    if value_is(s, value, b"1") {
        return Frame::Stated(1);
    }
    if value_is(s, value, b"2") {
        return Frame::Stated(2);
    }
    if value_is(s, value, b"3") {
        return Frame::Stated(3);
    }
    Frame::Wrong
}

// The frame, after one qualifier more, of the name of this number.
fn frame_with(s: &[u8], frame: Frame, name: usize, value: Option<Range>) -> Frame
    ensures { Frames s.now frame name value result }
{
    if name != CODON_START {
        return frame;
    }
    match frame {
        Frame::Unstated => stated(s, value),
        Frame::Stated(_) | Frame::Wrong => Frame::Wrong,
    }
}

// Whether a qualifier of this name leaves its region unjudged, whatever its value.
#[tactic(auto, using(crate::proofs::Exceptions::excepted_first, crate::proofs::Exceptions::excepted_second, crate::proofs::Exceptions::excepted_third, crate::proofs::Exceptions::excepted_fourth, crate::proofs::Exceptions::excepted_none))]
fn is_excepted(name: usize) -> bool
    ensures { OfName name Excepted result }
{
    name == TRANSL_EXCEPT || name == EXCEPTION || name == PSEUDO || name == PSEUDOGENE
}

// Whether some qualifier leaves the region unjudged, after one more.
fn excepted_with(s: &[u8], excepted: bool, name: usize, value: Option<Range>) -> bool
    ensures { Excepts s.now excepted name value result }
{
    excepted || is_excepted(name) || (name == TRANSL_TABLE && !value_is(s, value, b"1"))
}

// ---- rule 22

// Whether a name has the number that is asked for: that of its form in upper case, or in lower case.
fn is_name(name: usize, upper: bool, in_lower: usize, in_upper: usize) -> bool
    ensures { result ≡ (name == cond upper in_upper in_lower) }
{
    name == if upper { in_upper } else { in_lower }
}

// ---- rule 28

// Where the first translation stands that was met, after one qualifier more, which stands at this place.
fn met_with(met: Option<usize>, name: usize, place: usize) -> Option<usize>
    ensures { result ≡ met_at met name place }
{
    if name == TRANSLATION {
        return met.or(Some(place));
    }
    met
}

// ---- rules 41 and 42

// The first fault of a name that the key doesn't allow, and whether the first and the second name that it requires were met.
#[derive(Clone, Copy)]
pub struct Worded {
    pub foreign: Fault,
    pub first: bool,
    pub second: bool,
}

// The same, after one name more, which stands so in the key's row. The one branch is seldom taken, and `|`
// makes none.
#[tactic(auto, using(crate::proofs::Words::word_foreign))]
fn with_word(a: Worded, how: usize, place: usize) -> Worded
    ensures { WithWord how place a result }
{
    if how == 0 {
        return Worded {
            foreign: earlier(a.foreign, Some(Refused { rule: 41, place })),
            ..a
        };
    }
    Worded {
        first: a.first | (how == 2),
        second: a.second | (how == 3),
        ..a
    }
}

// ---- all of them

// What all qualifiers say. Of organisms and mol_types 2 stands for more. No translation stands before `rest`; they end at `next`.
#[derive(Clone, Copy)]
pub struct Noted {
    pub frame: Frame,
    pub excepted: bool,
    pub organisms: usize,
    pub moltypes: usize,
    pub words: Worded,
    pub rest: usize,
    pub next: usize,
}

// `row` is the place of the key's row in the vocabulary, `upper` whether the names of a source are in upper case.
pub fn note(s: &[u8], first: usize, upper: bool, row: usize, vocabulary: &[u8; 3492]) -> Noted
    requires { VocabularyTable vocabulary.now }
    ensures { Notes s.now first upper row vocabulary.now result }
{
    let mut at = first;
    let mut frame = Frame::Unstated;
    let mut excepted = false;
    let mut organisms: usize = 0;
    let mut moltypes: usize = 0;
    let mut words = Worded {
        foreign: None,
        first: false,
        second: false,
    };
    let mut met = None;
    // Only a qualifier says where the next one starts, so this is a while. One that stands is not empty: the test is there so that the
    // loop ends, whatever the bytes are.
    while walk_steps::child_here(s, at) {
        let FoundQualifier { name, value, next } = walk_items::qualifier(s, at);
        if next <= at {
            break;
        }
        let number = name_of(bytes_of(s, name.from, name.to), vocabulary);
        organisms = more_of_two(organisms, is_name(number, upper, ORGANISM, UPPER_ORGANISM));
        moltypes = more_of_two(moltypes, is_name(number, upper, MOL_TYPE, UPPER_MOL_TYPE));
        frame = frame_with(s, frame, number, value);
        excepted = excepted_with(s, excepted, number, value);
        words = with_word(words, standing(row, number, vocabulary), name.from);
        met = met_with(met, number, at);
        at = next;
    }
    Noted {
        frame,
        excepted,
        organisms,
        moltypes,
        words,
        rest: met.unwrap_or(at),
        next: at,
    }
}

// Whether the region is unjudged, for its qualifiers or for its location.
pub fn is_unjudged(excepted: bool, verdict: Option<Facts>) -> bool
    ensures { LeavesOut excepted verdict result }
{
    if excepted {
        return true;
    }
    match verdict {
        None => false,
        Some(f) => f.unjudged,
    }
}

// With which residue of its spans the codons of a region start that keeps rule 27.
pub fn start_of(frame: Frame) -> usize
    ensures { StartsAt frame result }
{
    match frame {
        Frame::Stated(n) => n,
        // Where it's wrong rule 27 is broken.
        Frame::Unstated | Frame::Wrong => 1,
    }
}
