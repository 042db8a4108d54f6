// The check: rules 1, 2, 10 to 29 and 40 to 42, and the counts. Relies on the layout, and on the parts of the judge.
#![tactic(auto)]

ghost use Rattle.paper.specs.Answers.{CheckSays};
ghost use Rattle.ask_check.specs.Checks.{JudgesListing};

use judge_features::LentTables;
use judge_sequences::Total;
use paper::Verdict;

// The first broken rule of a text that is laid out, of the rules on values, and its counts.
fn judge(listing: &[u8]) -> Total
    ensures { JudgesListing listing.now result }
{
    let symbols = value_residues::symbol_table();
    let code = protein_code::code_table();
    let vocabulary = value_vocabulary::vocabulary_table();
    let header = judge_header::judge_header(listing);
    let tables = LentTables {
        code: &code,
        vocabulary: &vocabulary,
    };
    let Total { fault: b, figures } = judge_sequences::judge_sequences(
        listing,
        header.first,
        &symbols,
        &tables,
    );
    let total = read_steps::bytes_of(listing, header.total.from, header.total.to);
    let ok = value_words::is_number(total, figures.total);
    let c = judge_faults::unless(ok, 14, header.total.from);
    let d = judge_faults::earlier(c, b);
    Total {
        fault: judge_faults::earlier(header.fault, d),
        figures,
    }
}

// "Check: accepted, with total, skipped, features, judged CDSs, unjudged CDSs; or rule and place."
pub fn check(listing: &[u8]) -> Verdict
    ensures { CheckSays listing.now result }
{
    read_layout::layout(listing)?;
    let judged = judge(listing);
    match judged.fault {
        None => Ok(judged.figures),
        Some(broken) => Err(broken),
    }
}
