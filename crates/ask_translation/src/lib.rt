// The translation of one feature of an accepted listing, into lent bytes. Where the listing gives it, it is copied: rule 28 was judged, so
// the value is the translation. Relies on what the qualifiers of a coding region say, on its location and on the writing of a translation.
#![tactic(auto)]

ghost use Rattle.std.specs.Prelude.{◌≡◌};
ghost use Rattle.paper.specs.Translation.{code1};
ghost use Rattle.paper.specs.Answers.{give};
ghost use Rattle.protein_code.specs.Tables.{CodeTable, code_of};
ghost use Rattle.value_vocabulary.specs.Tables.{VocabularyTable};
ghost use Rattle.ask_translation.specs.Refusals.{unwritten_of, refused_of, answer_of};
ghost use Rattle.ask_translation.specs.Plans.{GivenAt, Plans};
ghost use Rattle.ask_translation.specs.Ones.{pass_of, LentIf, LaysTranslation, LaysPlanned, TranslatesOne};

use ask_answers::LentAnswer;
use judge_faults::Known;
use judge_qualifiers::{is_coding, note, start_of};
use lent_room::{Pass, lay_bytes};
use location_judge::judging::leaves_unjudged;
use paper::Refused;
use protein_codons::Coding;
use protein_measure::{Untranslated, measure};
use protein_write::write;
use read_steps::bytes_of;
use value_words::same;
use walk_items::FoundFeature;
use walk_steps::Range;

// ---- why none is written

// Why a translation isn't written.
#[derive(Clone, Copy)]
pub enum Unwritten {
    // The lent bytes are shorter than it.
    Short,
    // The feature is no CDS of DNA or RNA.
    NoCds,
    // It is a CDS that isn't judged.
    Unjudged,
    // A stop stands inside.
    Stop,
}

impl From<Untranslated> for Unwritten {
    ghost from_gives = { λ u e. e ≡ unwritten_of u };

    fn from(u: Untranslated) -> Unwritten {
        match u {
            Untranslated::Short => Unwritten::Short,
            Untranslated::Stop => Unwritten::Stop,
        }
    }
}

// The numbers of document 01. No rule is broken, so there is no place.
impl From<Unwritten> for Refused {
    ghost from_gives = { λ e r. r ≡ refused_of e };

    fn from(e: Unwritten) -> Refused {
        let rule = match e {
            Unwritten::Short => 34,
            Unwritten::NoCds => 35,
            Unwritten::Unjudged => 36,
            Unwritten::Stop => 37,
        };
        Refused { rule, place: 0 }
    }
}

// ---- how it is translated

// How a feature is translated. `PlanIs` says of each of the four what it is.
#[derive(Clone, Copy)]
pub enum Plan {
    // It is no CDS of DNA or RNA.
    NoCds,
    // It is a CDS that isn't judged.
    Unjudged,
    // It is a judged CDS, and the listing gives its translation here.
    Given(Range),
    // It is a judged CDS, and the listing gives none; its codons start with this residue of its spans.
    From(usize),
}

// And where its qualifiers end.
#[derive(Clone, Copy)]
pub struct Planned {
    pub plan: Plan,
    pub next: usize,
}

// The value of the translation that stands at a place, where one does.
fn given_at(s: &[u8], at: usize) -> Option<Range>
    ensures { GivenAt s.now at result }
{
    if walk_steps::child_here(s, at) {
        let qualifier = walk_items::qualifier(s, at);
        if same(
            bytes_of(s, qualifier.name.from, qualifier.name.to),
            b"translation",
        ) {
            return qualifier.value;
        }
    }
    None
}

pub fn plan_of(s: &[u8], known: Known, feature: FoundFeature, vocabulary: &[u8; 3492]) -> Planned
    requires { VocabularyTable vocabulary.now }
    ensures { Plans s.now known feature result }
{
    let name = bytes_of(s, feature.key.from, feature.key.to);
    if !is_coding(name, known.kind) {
        return Planned {
            plan: Plan::NoCds,
            next: walk_items::qualifiers_over(s, feature.quals),
        };
    }
    let noted = note(s, feature.quals, false, 0, vocabulary);
    let next = noted.next;
    if noted.excepted || leaves_unjudged(s, feature.location.from, feature.location.to) {
        return Planned {
            plan: Plan::Unjudged,
            next,
        };
    }
    let start = start_of(noted.frame);
    let plan = match given_at(s, noted.rest) {
        Some(value) => Plan::Given(value),
        None => Plan::From(start),
    };
    Planned { plan, next }
}

// ---- measured or written

// What a pass does that writes, or only measures. It is asked for by a truth value: there is nothing to compare a translation with.
pub fn pass_of(writing: bool) -> Pass
    ensures { result ≡ pass_of writing }
{
    if writing { Pass::Write } else { Pass::Measure }
}

// A text at the front of out if it is to be written; else only whether it fits.
fn lay_text(text: &[u8], writing: bool, out: &mut [u8]) -> Result<usize, Unwritten>
    ensures { LentIf writing out.old (give text.now) (answer_of result) out.new }
{
    // A pass that writes may leave anything in a room that is too short.
    if out.len() < text.len() {
        return Err(Unwritten::Short);
    }
    lay_bytes(pass_of(writing), text, 0, b"", out).or(Err(Unwritten::Short))
}

// The same of the translation of a coding text.
fn lay_translation(coding: &Coding, writing: bool, out: &mut [u8]) -> Result<usize, Untranslated>
    ensures { LaysTranslation (code_of coding.now.code.now) coding.now.r.now coding.now.loc.now coding.now.top coding.now.frame writing out.old result out.new }
{
    if writing {
        return write(coding, out);
    }
    measure(coding, out.len())
}

// What translates the features of a sequence of the listing s: what is known of it, and the lent tables, of code 1 and of the vocabulary.
// The vocabulary's fact stays in the contracts: it says where each name is, so it's no proposition, and a ghost field of it needs an
// `impl Model`.
#[derive(Clone, Copy)]
pub struct Translator<'a> {
    pub s: &'a [u8],
    pub known: Known,
    pub code: &'a [u8; 5128],
    pub vocabulary: &'a [u8; 3492],
    pub ghost code_table: { CodeTable code1 code.now },
}

impl Translator<'_> {
    // The translation that was planned, at the front of out if it is to be written.
    pub fn lay_planned(
        &self,
        feature: FoundFeature,
        plan: Plan,
        writing: bool,
        out: &mut [u8],
    ) -> Result<usize, Unwritten>
        ensures { LaysPlanned self.now.s.now self.now.known feature plan writing out.old result out.new }
    {
        match plan {
            Plan::NoCds => Err(Unwritten::NoCds),
            Plan::Unjudged => Err(Unwritten::Unjudged),
            Plan::Given(value) => lay_text(bytes_of(self.s, value.from, value.to), writing, out),
            Plan::From(start) => {
                let residues = self.known.residues;
                let coding = Coding {
                    r: bytes_of(self.s, residues.from, residues.to),
                    loc: bytes_of(self.s, feature.location.from, feature.location.to),
                    top: self.known.top,
                    frame: start,
                    code: self.code,
                };
                let n = lay_translation(&coding, writing, out)?;
                Ok(n)
            }
        }
    }
}

// One translation at the front of out; or nothing is written.
pub fn translate(
    s: &[u8],
    known: Known,
    feature: FoundFeature,
    code: &[u8; 5128],
    vocabulary: &[u8; 3492],
    out: &mut [u8],
) -> LentAnswer
    requires code_table { CodeTable code1 code.now }
    requires vocabulary_table { VocabularyTable vocabulary.now }
    ensures { TranslatesOne s.now known feature out.old result out.new }
{
    let translator = Translator {
        s,
        known,
        code,
        vocabulary,
    };
    let plan = plan_of(s, known, feature, vocabulary).plan;
    let size = translator.lay_planned(feature, plan, true, out)?;
    Ok(size)
}
