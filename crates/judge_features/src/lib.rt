// The features of a sequence: rules 21 to 28 and 40 to 42, and the counts of features and coding regions. Relies on the walk along the
// table, the judged location, the row of a key, one pass over the qualifiers, and the crates for words, a source and a coding region.
#![tactic(auto)]

ghost use Rattle.std.specs.Prelude.{◌≡◌};
ghost use Rattle.paper.specs.Translation.{code1};
ghost use Rattle.protein_code.specs.Tables.{CodeTable};
ghost use Rattle.value_vocabulary.specs.Tables.{VocabularyTable};
ghost use Rattle.judge_features.specs.Featured.{place_fault, NamesSource, role_of, nothing_yet, Adds, Finishes, WithSource, Tables, JudgesFeature, JudgesFeatures, JudgesTable};

use judge_coding::Region;
use judge_faults::{Fault, Known, more};
use location_judge::judging::Facts;
use paper::Refused;
use value_words::Molecule;
use walk_items::{FoundFeature, FoundTable};

// What a feature is, for a count.
#[derive(Clone, Copy)]
pub enum Role {
    Source,
    Judged,
    Unjudged,
    Plain,
}

// The faults of a feature: its own, and those that it has if it is the only source.
#[derive(Clone, Copy)]
pub struct Featured {
    pub fault: Fault,
    pub source: Fault,
    pub role: Role,
    pub next: usize,
}

// Rules 24 to 26: `place` is the location's.
fn judge_place(verdict: Option<Facts>, kind: Molecule, place: usize) -> Fault
    ensures { result ≡ place_fault verdict kind place }
{
    let Some(f) = verdict else {
        return Some(Refused { rule: 24, place });
    };
    if f.wrong {
        return Some(Refused { rule: 25, place });
    }
    if f.complemented && kind.is_acid() {
        return Some(Refused { rule: 26, place });
    }
    None
}

// Whether a key is that of a source, for a kind.
fn is_source(key: &[u8], kind: Molecule) -> bool
    ensures { NamesSource key.now kind result }
{
    match kind {
        Molecule::Dna | Molecule::Rna => value_words::same(key, b"source"),
        Molecule::Aa => value_words::same(key, b"SOURCE"),
        Molecule::Other => false,
    }
}

fn role_of(unjudged: bool) -> Role
    ensures { result ≡ role_of unjudged }
{
    if unjudged {
        return Role::Unjudged;
    }
    Role::Judged
}

// How many features there are, and how many coding regions that are judged and that are not.
#[derive(Clone, Copy)]
pub struct FeatureCounts {
    pub features: usize,
    pub judged: usize,
    pub unjudged: usize,
}

// What has been judged of some features: their first fault; how many sources, 2 for more, and the faults of the last one; the counts.
#[derive(Clone, Copy)]
pub struct Tally {
    pub fault: Fault,
    pub source: Fault,
    pub sources: usize,
    pub counts: FeatureCounts,
}

fn no_features() -> Tally
    ensures { result ≡ nothing_yet }
{
    Tally {
        fault: None,
        source: None,
        sources: 0,
        counts: FeatureCounts {
            features: 0,
            judged: 0,
            unjudged: 0,
        },
    }
}

// One feature more. No count goes above the limit.
fn add(a: Tally, x: Featured, limit: usize) -> Tally
    ensures { Adds limit a x result }
{
    let fault = judge_faults::earlier(a.fault, x.fault);
    let counts = FeatureCounts {
        features: more(a.counts.features, limit),
        ..a.counts
    };
    match x.role {
        Role::Source => Tally {
            fault,
            source: x.source,
            sources: more(a.sources, 2),
            counts,
        },
        Role::Judged => Tally {
            fault,
            counts: FeatureCounts {
                judged: more(counts.judged, limit),
                ..counts
            },
            ..a
        },
        Role::Unjudged => Tally {
            fault,
            counts: FeatureCounts {
                unjudged: more(counts.unjudged, limit),
                ..counts
            },
            ..a
        },
        Role::Plain => Tally { fault, counts, ..a },
    }
}

// Rule 21 and, where there is one source, its faults: `place` is that of the table, or of the residues where there is none.
fn finish(a: Tally, kind: Molecule, place: usize) -> Fault
    ensures { Finishes a kind place result }
{
    match kind {
        Molecule::Other => a.fault,
        Molecule::Dna | Molecule::Rna | Molecule::Aa => with_source(a, place),
    }
}

fn with_source(a: Tally, place: usize) -> Fault
    ensures { WithSource a place result }
{
    if a.sources == 1 {
        return judge_faults::earlier(a.fault, a.source);
    }
    judge_faults::earlier(a.fault, Some(Refused { rule: 21, place }))
}

// The table's faults and counts.
#[derive(Clone, Copy)]
pub struct Tabled {
    pub fault: Fault,
    pub counts: FeatureCounts,
}

fn sum_up(a: Tally, kind: Molecule, place: usize) -> Tabled
    ensures { Tables a kind place result }
{
    Tabled {
        fault: finish(a, kind, place),
        counts: a.counts,
    }
}

// The tables that are lent: of code 1, and of the vocabulary, whose fact stays in the contracts: it says where each name is, so it's no
// proposition, and a ghost field of it needs an `impl Model`.
#[derive(Clone, Copy)]
pub struct LentTables<'a> {
    pub code: &'a [u8; 5128],
    pub vocabulary: &'a [u8; 3492],
    pub ghost code_table: { CodeTable code1 code.now },
}

// A feature, judged.
fn judge_feature(s: &[u8], at: usize, known: Known, tables: &LentTables) -> Featured
    requires { VocabularyTable tables.now.vocabulary.now }
    ensures { JudgesFeature s.now at known result }
{
    let feature = walk_items::feature(s, at);
    let FoundFeature { key, location, .. } = feature;
    let kind = known.kind;
    let verdict = location_judge::judging::judge_location(s, location.from, location.to, known.top);
    let name = read_steps::bytes_of(s, key.from, key.to);
    let row = value_vocabulary::row_of(name, kind, tables.vocabulary);
    let upper = kind.is_acid();
    let noted = judge_qualifiers::note(s, feature.quals, upper, row, tables.vocabulary);
    let place = judge_faults::earlier(
        judge_place(verdict, kind, location.from),
        judge_vocabulary::judge_words(key.from, kind, row, noted.words, tables.vocabulary),
    );
    let next = walk_items::feature_end(s, noted.next, feature.long);
    if is_source(name, kind) {
        return Featured {
            fault: place,
            source: judge_source::judge_source(s, &feature, noted, known),
            role: Role::Source,
            next,
        };
    }
    if judge_qualifiers::is_coding(name, kind) {
        let Region { fault, unjudged } = judge_coding::judge_coding(
            s,
            &feature,
            noted,
            known,
            verdict,
            tables.code,
        );
        return Featured {
            fault: judge_faults::earlier(place, fault),
            source: None,
            role: role_of(unjudged),
            next,
        };
    }
    Featured {
        fault: place,
        source: None,
        role: Role::Plain,
        next,
    }
}

// The features that stand here.
fn judge_features(s: &[u8], first: usize, known: Known, tables: &LentTables) -> Tally
    requires { VocabularyTable tables.now.vocabulary.now }
    ensures { JudgesFeatures s.now first known result }
{
    let mut at = first;
    let mut tally = no_features();
    // Only a feature says where the next one starts, so this is a while. One that stands is not empty: the test is there so that the loop
    // ends, whatever the bytes are.
    while walk_steps::child_here(s, at) {
        let x = judge_feature(s, at, known, tables);
        if x.next <= at {
            break;
        }
        tally = add(tally, x, s.len());
        at = x.next;
    }
    tally
}

// Rules 21 to 28, 40 to 42.
pub fn judge_table(s: &[u8], found: Option<FoundTable>, known: Known, tables: &LentTables) -> Tabled
    requires { VocabularyTable tables.now.vocabulary.now }
    ensures { JudgesTable s.now found known result }
{
    let Some(table) = found else {
        return sum_up(no_features(), known.kind, known.residues.from);
    };
    let a = judge_features(s, table.first, known, tables);
    sum_up(a, known.kind, table.place)
}
