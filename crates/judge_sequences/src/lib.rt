// The sequences of a listing: rules 15 to 29 and 40 to 42, and the counts. Relies on the walk along them, and on the judges of their
// texts and features.
#![tactic(auto)]

ghost use Rattle.std.specs.Prelude.{◌≡◌};
ghost use Rattle.value_vocabulary.specs.Tables.{VocabularyTable};
ghost use Rattle.value_residues.specs.Residues.{SymbolTable};
ghost use Rattle.judge_sequences.specs.Sequences.{nothing_yet, Adds, JudgesSequence, JudgesSequences};

use judge_faults::Fault;
use judge_features::{FeatureCounts, LentTables, Tabled};
use paper::Figures;

// One sequence, judged: its first fault, its counts, and where it ends.
#[derive(Clone, Copy)]
pub struct One {
    pub fault: Fault,
    pub skipped: bool,
    pub counts: FeatureCounts,
    pub next: usize,
}

// Some sequences, judged.
#[derive(Clone, Copy)]
pub struct Total {
    pub fault: Fault,
    pub figures: Figures,
}

fn no_sequences() -> Total
    ensures { result ≡ nothing_yet }
{
    Total {
        fault: None,
        figures: Figures {
            total: 0,
            skipped: 0,
            features: 0,
            judged: 0,
            unjudged: 0,
        },
    }
}

// One sequence more. No sum overflows in a listing.
fn add(a: Total, x: One) -> Total
    ensures { Adds a x result }
{
    Total {
        fault: judge_faults::earlier(a.fault, x.fault),
        figures: Figures {
            total: a.figures.total.saturating_add(1),
            skipped: a.figures.skipped.saturating_add(usize::from(x.skipped)),
            features: a.figures.features.saturating_add(x.counts.features),
            judged: a.figures.judged.saturating_add(x.counts.judged),
            unjudged: a.figures.unjudged.saturating_add(x.counts.unjudged),
        },
    }
}

// The sequence number k. The table of symbols stands apart: what judges features takes the other tables, and never asked for this one.
fn judge_sequence(s: &[u8], at: usize, k: usize, symbols: &[u8; 256], tables: &LentTables) -> One
    requires symbol_table { SymbolTable symbols.now }
    requires vocabulary_table { VocabularyTable tables.now.vocabulary.now }
    ensures { JudgesSequence s.now at k result }
{
    let found = walk_items::sequence(s, at);
    let a = judge_texts::judge_number(s, found.number, k);
    if judge_texts::is_skipped(s, found.residues) {
        let ok = judge_texts::is_empty(&found);
        let b = judge_faults::unless(ok, 29, found.residues.from);
        return One {
            fault: judge_faults::earlier(a, b),
            skipped: true,
            counts: FeatureCounts {
                features: 0,
                judged: 0,
                unjudged: 0,
            },
            next: found.next,
        };
    }
    let known = judge_texts::known_of(s, found.moltype, found.residues, symbols);
    let b = judge_texts::judge_texts(s, &found, known);
    let Tabled { fault: c, counts } = judge_features::judge_table(s, found.table, known, tables);
    let d = judge_faults::earlier(a, b);
    One {
        fault: judge_faults::earlier(d, c),
        skipped: false,
        counts,
        next: found.next,
    }
}

// All that stand from here on.
pub fn judge_sequences(s: &[u8], first: usize, symbols: &[u8; 256], tables: &LentTables) -> Total
    requires symbol_table { SymbolTable symbols.now }
    requires vocabulary_table { VocabularyTable tables.now.vocabulary.now }
    ensures { JudgesSequences s.now first result }
{
    let mut at = first;
    let mut total = no_sequences();
    // Only a sequence says where the next one starts, so this is a while. One that stands is not empty: the test is there so that the loop
    // ends, whatever the bytes are.
    while walk_steps::child_here(s, at) {
        let k = total.figures.total.saturating_add(1);
        let x = judge_sequence(s, at, k, symbols, tables);
        if x.next <= at {
            break;
        }
        total = add(total, x);
        at = x.next;
    }
    total
}
