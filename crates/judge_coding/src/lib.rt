// One coding region of DNA or RNA: rules 27 and 28, and whether it is judged. Relies on what is noted of its qualifiers, the walk along
// its translations, the values, the judged location and the comparison with the translation.
#![tactic(auto)]

ghost use Rattle.paper.specs.Translation.{code1};
ghost use Rattle.protein_code.specs.Tables.{CodeTable};
ghost use Rattle.value_words.specs.Reading.{Tells};
ghost use Rattle.judge_coding.specs.Coding.{Settled, JudgesCoding, JudgesRegion};

use judge_faults::{Fault, Known, anew, earlier};
use judge_qualifiers::{Frame, Noted, is_unjudged};
use location_judge::judging::Facts;
use paper::Refused;
use protein_codons::Coding;
use protein_compare::is_right;
use read_steps::bytes_of;
use value_words::same;
use walk_items::{FoundFeature, FoundQualifier};
use walk_steps::Range;

// The first fault of the region, and whether it is unjudged.
#[derive(Clone, Copy)]
pub struct Region {
    pub fault: Fault,
    pub unjudged: bool,
}

// ---- its translations

// Whether the fault comes before this place, so that no fault there is the first.
fn is_settled(fault: Fault, place: usize) -> bool
    ensures { Tells result (Settled fault place) }
{
    match fault {
        None => false,
        Some(first) => first.place < place,
    }
}

// The first fault so far, and a value that is known to be right.
#[derive(Clone, Copy)]
struct SoFar {
    fault: Fault,
    right: Option<Range>,
}

// What the translations in the listing `s` are compared with.
#[derive(Clone, Copy)]
struct Codons<'a> {
    s: &'a [u8],
    of: Coding<'a>,
}

impl<'a> Codons<'a> {
    ghost use Rattle.judge_coding.specs.Translations.{SaysRight, Checks, Rights};

    // Whether the value is right. Where one that is right was seen, that is the same bytes, and no codon is read.
    fn is_right(&self, value: Range, right: Option<Range>) -> bool
        ensures { SaysRight self.now value right result }
    {
        let v = bytes_of(self.s, value.from, value.to);
        match right {
            None => is_right(&self.of, v),
            Some(k) => same(v, bytes_of(self.s, k.from, k.to)),
        }
    }

    // What is known after one qualifier more. Where a fault stands before its value no codon is read.
    fn check(&self, name: Range, value: Option<Range>, known: SoFar) -> SoFar
        ensures { Checks self.now name value known result }
    {
        if !same(bytes_of(self.s, name.from, name.to), b"translation") {
            return known;
        }
        let Some(p) = value else {
            let missing = Some(Refused {
                rule: 28,
                place: name.from,
            });
            return SoFar {
                fault: earlier(known.fault, missing),
                ..known
            };
        };
        if is_settled(known.fault, p.from) {
            return known;
        }
        if self.is_right(p, known.right) {
            return SoFar {
                right: value,
                ..known
            };
        }
        let wrong = Some(Refused {
            rule: 28,
            place: p.from,
        });
        SoFar {
            fault: earlier(known.fault, wrong),
            ..known
        }
    }

    // The first fault of the translations among the qualifiers that stand from `first` on.
    fn translations(&self, first: usize) -> Fault
        ensures { Rights self.now first result }
    {
        let mut at = first;
        let mut known = SoFar {
            fault: None,
            right: None,
        };
        // Only a qualifier says where the next one starts, so this is a while. One that stands is not empty: the test is there so that
        // the loop ends, whatever the bytes are.
        while walk_steps::child_here(self.s, at) {
            let FoundQualifier { name, value, next } = walk_items::qualifier(self.s, at);
            if next <= at {
                break;
            }
            let SoFar { fault, right } = self.check(name, value, known);
            known = SoFar {
                fault: anew(fault),
                right,
            };
            at = next;
        }
        known.fault
    }
}

// ---- the region

// The fault of a region that keeps rule 27: its translations stand from `rest` on.
fn region_fault(
    s: &[u8],
    location: Range,
    rest: usize,
    known: Known,
    verdict: Option<Facts>,
    start: usize,
    unjudged: bool,
    code: &[u8; 5128],
) -> Fault
    requires { CodeTable code1 code.now }
    ensures { JudgesRegion s.now location rest known verdict start unjudged result }
{
    if unjudged || known.foreign < known.residues.to {
        return None;
    }
    if verdict?.wrong {
        return None;
    }
    let of = Coding {
        r: bytes_of(s, known.residues.from, known.residues.to),
        loc: bytes_of(s, location.from, location.to),
        top: known.top,
        frame: start,
        code,
    };
    Codons { s, of }.translations(rest)
}

// `noted` is what the qualifiers of the feature say, `verdict` what was judged of its location.
pub fn judge_coding(
    s: &[u8],
    feature: &FoundFeature,
    noted: Noted,
    known: Known,
    verdict: Option<Facts>,
    code: &[u8; 5128],
) -> Region
    requires { CodeTable code1 code.now }
    ensures { JudgesCoding s.now feature.now.key.from feature.now.location noted known verdict result }
{
    let unjudged = is_unjudged(noted.excepted, verdict);
    let start = match noted.frame {
        Frame::Unstated => 1,
        Frame::Stated(n) => n,
        Frame::Wrong => {
            let fault = Some(Refused {
                rule: 27,
                place: feature.key.from,
            });
            return Region { fault, unjudged };
        }
    };
    let fault = region_fault(
        s,
        feature.location,
        noted.rest,
        known,
        verdict,
        start,
        unjudged,
        code,
    );
    Region { fault, unjudged }
}
