// The header: rules 10 to 13. Relies on the walk along it, the values and what the judge's parts share.
#![tactic(auto)]

ghost use Rattle.std.specs.Fn.{FnReturnsAt};
ghost use Rattle.judge_header.specs.Headers.{Tries, JudgesVersion, JudgesDates, JudgesOffices, JudgesTitles, JudgesLanguages, JudgesHeader};

use judge_faults::Fault;
use value_codes::{is_date, is_language, is_office};
use walk_header::FoundHeader;
use walk_steps::{Found, Range};

// The rule of this number, for a text that may be missing.
fn judge_maybe<F: Fn(&[u8]) -> bool>(s: &[u8], m: Option<Range>, rule: usize, is_right: F) -> Fault
    requires { F.IsAlwaysCallable is_right }
    ensures { Tries (FnReturnsAt F.Fn is_right) rule s.now m result }
{
    let p = m?;
    let ok = is_right(read_steps::bytes_of(s, p.from, p.to));
    judge_faults::unless(ok, rule, p.from)
}

// Rule 10.
fn judge_version(s: &[u8], version: Range) -> Fault
    ensures { JudgesVersion s.now version result }
{
    let ok = value_words::same(read_steps::bytes_of(s, version.from, version.to), b"1_2");
    judge_faults::unless(ok, 10, version.from)
}

// Rule 11: the productionDate, and the dates of the heading and of the earliest application.
fn judge_dates(
    s: &[u8],
    produced: Option<Range>,
    filed: Option<Range>,
    first: Option<Range>,
) -> Fault
    ensures { JudgesDates s.now produced filed first result }
{
    let a = judge_maybe(s, produced, 11, is_date);
    let b = judge_maybe(s, filed, 11, is_date);
    let c = judge_maybe(s, first, 11, is_date);
    judge_faults::earlier(a, judge_faults::earlier(b, c))
}

// Rule 12: the offices of the heading and of the earliest application.
fn judge_offices(s: &[u8], office: Option<Range>, first: Option<Range>) -> Fault
    ensures { JudgesOffices s.now office first result }
{
    let a = judge_maybe(s, office, 12, is_office);
    let b = judge_maybe(s, first, 12, is_office);
    judge_faults::earlier(a, b)
}

// Rule 13, for the titles, and where they end.
fn judge_titles(s: &[u8], first: usize) -> Found<Fault>
    ensures { JudgesTitles s.now first result }
{
    let mut at = first;
    let mut fault = None;
    // Only a title says where the next one starts, so this is a while. One that stands is not empty: the test is there so that the loop
    // ends, whatever the bytes are.
    while walk_header::title_here(s, at) {
        let Found { part, next } = walk_header::title(s, at);
        if next <= at {
            break;
        }
        let own = judge_maybe(s, Some(part), 13, is_language);
        fault = judge_faults::earlier(fault, own);
        at = next;
    }
    Found {
        part: fault,
        next: at,
    }
}

// Rule 13: the languages of the applicant, the inventor and the titles, and where those end.
fn judge_languages(
    s: &[u8],
    applicant: Option<Range>,
    inventor: Option<Range>,
    titles: usize,
) -> Found<Fault>
    ensures { JudgesLanguages s.now applicant inventor titles result }
{
    let a = judge_maybe(s, applicant, 13, is_language);
    let b = judge_maybe(s, inventor, 13, is_language);
    let Found { part: c, next } = judge_titles(s, titles);
    Found {
        part: judge_faults::earlier(judge_faults::earlier(a, b), c),
        next,
    }
}

// The first fault of the header, where the total stands, and where the first sequence does.
#[derive(Clone, Copy)]
pub struct Headed {
    pub fault: Fault,
    pub total: Range,
    pub first: usize,
}

pub fn judge_header(s: &[u8]) -> Headed
    ensures { JudgesHeader s.now result }
{
    let FoundHeader {
        version,
        produced,
        heading,
        earliest,
        applicant,
        inventor,
        titles,
    } = walk_header::header(s);
    let a = judge_version(s, version);
    let b = judge_dates(s, produced, heading.filed, earliest.filed);
    let c = judge_offices(s, heading.office, earliest.office);
    let Found { part: d, next: e } = judge_languages(s, applicant, inventor, titles);
    let Found {
        part: total,
        next: first,
    } = walk_header::total(s, e);
    let f = judge_faults::earlier(a, b);
    let g = judge_faults::earlier(c, d);
    Headed {
        fault: judge_faults::earlier(f, g),
        total,
        first,
    }
}
