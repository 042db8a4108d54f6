// The header of a listing that is known to be laid out: where the texts stand that a rule asks of, the titles, the total and the first
// sequence. A promise speaks of whatever listing is laid out so; of other bytes it says nothing. Relies on the paper and the steps of the
// walk, and in its proofs on the laws of read_steps and read_tags of what may follow what.
#![tactic(auto)]

ghost use Rattle.paper.specs.Bytes.{bytes, is_blank};
ghost use Rattle.paper.specs.Layout as Form;
ghost use Rattle.read_bytes.specs.Words.{There};
ghost use Rattle.read_steps.specs.Follow.{Not};
ghost use Rattle.walk_steps.specs.Stands.{Ends, Finds};
ghost use Rattle.walk_header.specs.Header.{FindsSpoken, FindsIdentification, FindsIdentificationMaybe, FindsHeading, FindsParty, FindsAttributes, FindsParties, any_line, FindsHeader};

use walk_steps::{Found, Range};

// The languageCode of a text that has one, and what follows the text.
fn spoken(s: &[u8], at: usize, name: &[u8]) -> Found<Range>
    ensures { FindsSpoken name.now s.now at result }
{
    let a = walk_steps::tag(s, at, name);
    let Found { part, next: b } = walk_steps::attribute(s, a, b"languageCode");
    let c = walk_steps::content(s, b, at, name, true).next;
    Found {
        part,
        next: walk_steps::blanks(s, c),
    }
}

// Whether a title stands here, and not the total.
pub fn title_here(s: &[u8], at: usize) -> bool
    ensures { There (bytes "<InventionTitle") s.now at result }
{
    walk_steps::opens(s, at, b"InventionTitle")
}

// The languageCode of a title.
pub fn title(s: &[u8], at: usize) -> Found<Range>
    ensures { FindsSpoken (bytes "InventionTitle") s.now at result }
{
    spoken(s, at, b"InventionTitle")
}

// What is asked of an identification: the office that it names, and the day of filing.
#[derive(Clone, Copy)]
pub struct Filing {
    pub office: Option<Range>,
    pub filed: Option<Range>,
}

fn identification(s: &[u8], at: usize, name: &[u8]) -> Found<Filing>
    ensures { FindsIdentification name.now s.now at result }
{
    let a = walk_steps::tag(s, at, name);
    let b = walk_steps::enter(s, a);
    let Found {
        part: office,
        next: c,
    } = walk_steps::leaf_maybe(s, b, b"IPOfficeCode");
    let d = walk_steps::leaf(s, c, b"ApplicationNumberText").next;
    let Found {
        part: filed,
        next: e,
    } = walk_steps::last_leaf(s, d, b"FilingDate");
    Found {
        part: Filing { office, filed },
        next: walk_steps::leave(s, e, name),
    }
}

// An identification that may be missing: then it names neither.
fn identification_maybe(s: &[u8], at: usize, name: &[u8]) -> Found<Filing>
    ensures { FindsIdentificationMaybe name.now s.now at result }
{
    if walk_steps::opens(s, at, name) {
        identification(s, at, name)
    } else {
        Found {
            part: Filing {
                office: None,
                filed: None,
            },
            next: at,
        }
    }
}

// The languageCode of a name that may be missing, and what follows the name and its Latin form.
fn party_maybe(s: &[u8], at: usize, name: &[u8], latin: &[u8]) -> Found<Option<Range>>
    ensures { FindsParty name.now latin.now s.now at result }
{
    if walk_steps::opens(s, at, name) {
        let Found { part, next: a } = spoken(s, at, name);
        Found {
            part: Some(part),
            next: walk_steps::leaf_maybe(s, a, latin).next,
        }
    } else {
        Found {
            part: None,
            next: at,
        }
    }
}

// The application's identification, if the heading has one. A heading that is only a file reference has none.
fn heading(s: &[u8], at: usize) -> Found<Filing>
    ensures { FindsHeading s.now at result }
{
    let Found { part, next: a } = identification_maybe(s, at, b"ApplicationIdentification");
    Found {
        part,
        next: walk_steps::leaf_maybe(s, a, b"ApplicantFileReference").next,
    }
}

// What is asked of the root's attributes.
#[derive(Clone, Copy)]
pub struct FoundAttributes {
    pub version: Range,
    pub produced: Option<Range>,
    pub next: usize,
}

fn attributes(s: &[u8], at: usize) -> FoundAttributes
    ensures { FindsAttributes s.now at result }
{
    let Found {
        part: version,
        next: a,
    } = walk_steps::attribute(s, at, b"dtdVersion");
    let b = walk_steps::attribute_maybe(s, a, b"fileName").next;
    let c = walk_steps::attribute_maybe(s, b, b"softwareName").next;
    let d = walk_steps::attribute_maybe(s, c, b"softwareVersion").next;
    let Found {
        part: produced,
        next,
    } = walk_steps::attribute_maybe(s, d, b"productionDate");
    FoundAttributes {
        version,
        produced,
        next,
    }
}

// What is asked of the elements before the titles.
#[derive(Clone, Copy)]
pub struct FoundParties {
    pub heading: Filing,
    pub earliest: Filing,
    pub applicant: Option<Range>,
    pub inventor: Option<Range>,
    pub next: usize,
}

fn parties(s: &[u8], at: usize) -> FoundParties
    ensures { FindsParties s.now at result }
{
    let Found {
        part: heading,
        next: a,
    } = heading(s, at);
    let Found {
        part: earliest,
        next: b,
    } = identification_maybe(s, a, b"EarliestPriorityApplicationIdentification");
    let Found {
        part: applicant,
        next: c,
    } = party_maybe(s, b, b"ApplicantName", b"ApplicantNameLatin");
    let Found {
        part: inventor,
        next,
    } = party_maybe(s, c, b"InventorName", b"InventorNameLatin");
    FoundParties {
        heading,
        earliest,
        applicant,
        inventor,
        next,
    }
}

// Past the first `>` and the blanks after it: the first line, or the document type line.
fn line_over(s: &[u8], at: usize) -> usize
    ensures { Ends any_line (Not is_blank) s.now at result }
{
    let a = walk_steps::until(s, at, b'>');
    let b = walk_steps::past(s, a, 1);
    walk_steps::blanks(s, b)
}

// What is asked of a listing's header, and where its titles start.
#[derive(Clone, Copy)]
pub struct FoundHeader {
    pub version: Range,
    pub produced: Option<Range>,
    pub heading: Filing,
    pub earliest: Filing,
    pub applicant: Option<Range>,
    pub inventor: Option<Range>,
    pub titles: usize,
}

pub fn header(s: &[u8]) -> FoundHeader
    ensures { FindsHeader s.now result }
{
    let a = line_over(s, 0);
    let b = line_over(s, a);
    let c = walk_steps::tag(s, b, b"ST26SequenceListing");
    let FoundAttributes {
        version,
        produced,
        next: d,
    } = attributes(s, c);
    let e = walk_steps::enter(s, d);
    let FoundParties {
        heading,
        earliest,
        applicant,
        inventor,
        next: titles,
    } = parties(s, e);
    FoundHeader {
        version,
        produced,
        heading,
        earliest,
        applicant,
        inventor,
        titles,
    }
}

// The text of SequenceTotalQuantity.
pub fn total(s: &[u8], at: usize) -> Found<Range>
    ensures { Finds (Form.child (Form.leaf (bytes "SequenceTotalQuantity"))) (Not is_blank) s.now at result }
{
    walk_steps::leaf(s, at, b"SequenceTotalQuantity")
}
