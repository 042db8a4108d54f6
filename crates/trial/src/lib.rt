// Calls of the inner crates as C functions, so that they can be compared and measured outside the prover (tests/compare, bench).
// Relies on those crates; nothing of the product relies on it.
#![tactic(auto)]

ghost use Rattle.std.specs.Prelude.{◌≡◌};
ghost use Rattle.location_judge.specs.Readings.{operator_code};
ghost use Rattle.trial.specs.Numbers.{LayoutNumbers, LocationNumbers, SpansNumbers, TranslationNumbers, RightNumbers};

use location_judge::judging::judge_location;
use location_judge::operators::Operator;
use location_spans::room::spans;
use protein_codons::Coding;
use protein_measure::Untranslated;

// 0, or the number of the broken rule with its place.
#[unsafe(no_mangle)]
pub extern "C" fn trial_layout(listing: &[u8], place: &mut usize) -> usize
    ensures { LayoutNumbers listing.now result place.new }
{
    match read_layout::layout(listing) {
        Ok(()) => {
            *place = 0;
            0
        }
        Err(refused) => {
            *place = refused.place;
            refused.rule
        }
    }
}

// 0 with the facts of a location, or 24. A fact is 1 where it holds.
#[unsafe(no_mangle)]
pub extern "C" fn trial_location(
    part: &[u8],
    top: u32,
    wrong: &mut u32,
    complemented: &mut u32,
    unjudged: &mut u32,
) -> u32
    ensures { LocationNumbers part.now top result wrong.new complemented.new unjudged.new }
{
    match judge_location(part, 0, part.len(), top) {
        Some(facts) => {
            *wrong = u32::from(facts.wrong);
            *complemented = u32::from(facts.complemented);
            *unjudged = u32::from(facts.unjudged);
            0
        }
        None => {
            *wrong = 0;
            *complemented = 0;
            *unjudged = 0;
            24
        }
    }
}

// 0 none, 1 join, 2 order.
fn operator_number(operator: Option<Operator>) -> u32
    ensures { result ≡ operator_code operator }
{
    match operator {
        None => 0,
        Some(Operator::Join) => 1,
        Some(Operator::Order) => 2,
    }
}

// 0 with the spans written, or 24, 25, 34.
#[unsafe(no_mangle)]
pub extern "C" fn trial_spans(
    part: &[u8],
    top: u32,
    out: &mut [u32],
    operator: &mut u32,
    count: &mut usize,
) -> u32
    ensures { SpansNumbers part.now top out.old result operator.new count.new out.new }
{
    *operator = 0;
    *count = 0;
    let Some(facts) = judge_location(part, 0, part.len(), top) else {
        return 24;
    };
    if facts.wrong {
        return 25;
    }
    let Some(written) = spans(part, 0, part.len(), top, out) else {
        return 34;
    };
    *operator = operator_number(written.operator);
    *count = written.count;
    0
}

// 0 with the translation written and its length, or 37, 34. `r` are the residues, `loc` is the raw part of the location, `top` the number
// of residues, and `frame` the codon_start.
#[unsafe(no_mangle)]
pub extern "C" fn trial_translation(
    r: &[u8],
    loc: &[u8],
    top: u32,
    frame: usize,
    out: &mut [u8],
    size: &mut usize,
) -> u32
    ensures { TranslationNumbers r.now loc.now top frame out.old result size.new out.new }
{
    let code = protein_code::code_table();
    let coding = Coding {
        r,
        loc,
        top,
        frame,
        code: &code,
    };
    let written = protein_write::write(&coding, out);
    *size = written.unwrap_or(0);
    match written {
        Ok(_) => 0,
        Err(e) => match e {
            Untranslated::Short => 34,
            Untranslated::Stop => 37,
        },
    }
}

// 1 where the value, as it is written in the listing, is the translation.
#[unsafe(no_mangle)]
pub extern "C" fn trial_is_right(r: &[u8], loc: &[u8], top: u32, frame: usize, value: &[u8]) -> u32
    ensures { RightNumbers r.now loc.now top frame value.now result }
{
    let code = protein_code::code_table();
    let coding = Coding {
        r,
        loc,
        top,
        frame,
        code: &code,
    };
    u32::from(protein_compare::is_right(&coding, value))
}
