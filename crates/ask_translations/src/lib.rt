// All translations of a sequence of an accepted listing, a line for each feature that is a CDS, into lent bytes. One walk along the
// features measures the lines, and the same walk writes them. Relies on the translation of one feature, the walk along the features and
// lent_room.
#![tactic(auto)]

ghost use Rattle.std.specs.Prelude.{◌≤◌, IfOk, length};
ghost use Rattle.paper.specs.Translation.{code1};
ghost use Rattle.protein_code.specs.Tables.{CodeTable};
ghost use Rattle.value_vocabulary.specs.Tables.{VocabularyTable};
ghost use Rattle.ask_translations.specs.Lines.{LaysLine, LaysBehind, LaysRest, LaysAll, TranslatesAll};

use ask_answers::LentAnswer;
use ask_translation::{Plan, Planned, Translator, Unwritten, pass_of, plan_of};
use judge_faults::Known;
use lent_room::{Laid, Stopped, lay_bytes};
use walk_items::FoundFeature;

// ---- one line

// The line of a feature at the front of out if it is to be written; else only whether it fits.
fn lay_line(
    translator: &Translator,
    feature: FoundFeature,
    plan: Plan,
    writing: bool,
    out: &mut [u8],
) -> Laid
    ensures { LaysLine translator.now.s.now translator.now.known feature plan writing out.old result out.new }
{
    let pass = pass_of(writing);
    match translator.lay_planned(feature, plan, writing, out) {
        Ok(size) => lay_bytes(pass, b"\n", size, b"", out),
        Err(e) => match e {
            Unwritten::NoCds => Ok(0),
            Unwritten::Short => Err(Stopped { at: out.len() }),
            Unwritten::Unjudged | Unwritten::Stop => lay_bytes(pass, b"-\n", 0, b"", out),
        },
    }
}

// The same behind what was laid, if that pass goes on: the rest of out is lent on from there.
fn lay_behind(
    translator: &Translator,
    feature: FoundFeature,
    plan: Plan,
    was: Laid,
    writing: bool,
    out: &mut [u8],
) -> Laid
    requires { IfOk was (λ at. at ≤ length out.old) }
    ensures { LaysBehind translator.now.s.now translator.now.known feature plan was writing out.old result out.new }
{
    let at = was?;
    match lay_line(translator, feature, plan, writing, &mut out[at..]) {
        Ok(end) => Ok(at + end),
        // A pass that measures or writes stops at the room's end.
        Err(_) => Err(Stopped { at: out.len() }),
    }
}

// ---- all lines

// The lines of all features that stand from here on, behind what was laid. Only a feature says where the next one starts, so it is a while;
// a pass that has stopped goes on too, since the plan of each feature shows that there is a line.
fn lay_rest(translator: &Translator, first: usize, was: Laid, writing: bool, out: &mut [u8]) -> Laid
    requires vocabulary_table { VocabularyTable translator.now.vocabulary.now }
    requires was_in_bounds { IfOk was (λ at. at ≤ length out.old) }
    ensures { LaysRest translator.now.s.now first translator.now.known was writing out.old result out.new }
{
    let s = translator.s;
    let mut at = first;
    let mut laid = was;
    while walk_steps::child_here(s, at) {
        let feature = walk_items::feature(s, at);
        let Planned { plan, next: end } = plan_of(
            s,
            translator.known,
            feature,
            translator.vocabulary,
        );
        let next = walk_items::feature_end(s, end, feature.long);
        // A feature that stands is not empty.
        if next <= at {
            break;
        }
        laid = lay_behind(translator, feature, plan, laid, writing, out);
        at = next;
    }
    laid
}

// The lines of all features of a sequence, by its first.
fn lay_all(translator: &Translator, first: FoundFeature, writing: bool, out: &mut [u8]) -> Laid
    requires { VocabularyTable translator.now.vocabulary.now }
    ensures { LaysAll translator.now.s.now translator.now.known first writing out.old result out.new }
{
    let s = translator.s;
    let Planned { plan, next: end } = plan_of(s, translator.known, first, translator.vocabulary);
    let next = walk_items::feature_end(s, end, first.long);
    let laid = lay_line(translator, first, plan, writing, out);
    lay_rest(translator, next, laid, writing, out)
}

// All translations of a sequence at the front of out, by its first feature; or nothing is written.
pub fn translate_all(
    s: &[u8],
    known: Known,
    first: FoundFeature,
    code: &[u8; 5128],
    vocabulary: &[u8; 3492],
    out: &mut [u8],
) -> LentAnswer
    requires code_table { CodeTable code1 code.now }
    requires vocabulary_table { VocabularyTable vocabulary.now }
    ensures { TranslatesAll s.now known first out.old result out.new }
{
    let translator = Translator {
        s,
        known,
        code,
        vocabulary,
    };
    lay_all(&translator, first, false, out).or(Err(Unwritten::Short))?;
    let written = lay_all(&translator, first, true, out).or(Err(Unwritten::Short))?;
    Ok(written)
}
