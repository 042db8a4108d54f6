// The layout of a listing: rules 1 and 2. One function for each element that holds elements, in the order of document 01.
// Relies on the definitions of the crate paper and on the steps of the crates read_steps and read_tags. Judges no value.
#![tactic(auto)]

ghost use Rattle.std.specs.Prelude.{ℕ, ◌≡◌, List, []};
ghost use Rattle.std.proofs.Math.Option.{Option, none};
ghost use Rattle.paper.specs.Bytes.{bytes, is_blank};
ghost use Rattle.paper.specs.Form.{each};
ghost use Rattle.paper.specs.Tree;
ghost use Rattle.paper.specs.Tree.{Text};
ghost use Rattle.paper.specs.Layout as Form;
ghost use Rattle.read_steps.specs.Reads.{going, Reads, Passes, Tried, Followed, AtEnd};
ghost use Rattle.read_steps.specs.Follow.{Not, Starts, StandsBefore, anything, nothing, closing};
ghost use Rattle.read_steps.specs.Texts.{ClassTable};
ghost use Rattle.read_layout.specs.Parts.{Enters, Leaves, MaybeParty, StartsPast, Holding, HoldingRest, held, attributed, introduced, titled, totalled, close_tag, earlier};
ghost use Rattle.read_layout.specs.Says.{ShapeSays};
ghost use Rattle.read_tags.proofs.Tags.{Element, Children, Void};

use paper::Refused;
use read_steps::{Cursor, Step};

// What the layout says of some bytes: nothing, or the rule that they break and where.
pub type Shape = Result<(), Refused>;

// Blanks, the `>` of a start tag, blanks.
fn enter(s: &[u8], st: Step) -> Step
    ensures { Enters s.now st result }
{
    read_steps::blanks(s, read_steps::lit(s, read_steps::blanks(s, st), b">"))
}

// An end tag, blanks. The step is made anew: a copy of the whole loads both numbers at once, and waits for the two stores before it.
fn leave(s: &[u8], st: Step, name: &[u8]) -> Step
    ensures { Leaves name.now s.now st result }
{
    let Cursor { next, far } = st?;
    read_steps::blanks(s, read_tags::close(s, Ok(Cursor { next, far }), name))
}

// An element that may stand there many times, before one of the words `next`.
trait Repeated {
    ghost value: { Type 0 };

    ghost form: { value → ℕ → List ℕ → Type 0 };

    ghost name: { List ℕ };

    ghost next: { List (List ℕ) };

    fn read(s: &[u8], st: Step, t: &[u8; 256]) -> Step
        requires { ClassTable t.now }
        ensures { Reads (Form.child form) (Not is_blank) s.now st result };
}

// Any number of them. Each step is made anew, as in `leave`.
fn many<E: Repeated>(s: &[u8], st: Step, t: &[u8; 256]) -> Step
    requires class_table { ClassTable t.now }
    requires element { Element E.form E.name }
    requires last { StandsBefore E.name E.next }
    ensures { Reads (each (Form.child E.form)) (Starts E.next) s.now st result }
{
    let Cursor { mut next, mut far } = st?;
    loop {
        match E::read(s, Ok(Cursor { next, far }), t) {
            Ok(c) => {
                next = c.next;
                far = c.far;
            }
            Err(e) => return Ok(Cursor { next, far: e.far }),
        }
    }
}

// Children that an element may hold or not: `<X/>` holds none.
trait Held {
    ghost value: { Type 0 };

    ghost form: { value → ℕ → List ℕ → Type 0 };

    ghost no_child: { value → Type 0 };

    fn read(s: &[u8], st: Step, t: &[u8; 256]) -> Step
        requires { ClassTable t.now }
        ensures { Reads form (Starts closing) s.now st result };
}

// What follows the tag of their element, and the blanks after it.
fn held_rest<C: Held>(s: &[u8], st: Step, name: &[u8], t: &[u8; 256]) -> Step
    requires class_table { ClassTable t.now }
    requires children { Children C.form }
    requires void { Void C.no_child }
    ensures { Followed (HoldingRest name.now C.no_child C.form) Form.blanks s.now st result }
{
    let c = read_steps::blanks(s, st)?;
    match read_steps::lit(s, Ok(c), b"/>") {
        Ok(short) => read_steps::blanks(s, Ok(short)),
        Err(e) => {
            let a = read_steps::lit(s, Ok(Cursor { far: e.far, ..c }), b">");
            leave(s, C::read(s, read_steps::blanks(s, a), t), name)
        }
    }
}

// Their element, which may be missing. Its tag is tested here, so that a missing one costs no call.
fn held_maybe<C: Held>(s: &[u8], st: Step, name: &[u8], t: &[u8; 256]) -> Step
    requires class_table { ClassTable t.now }
    requires children { Children C.form }
    requires void { Void C.no_child }
    ensures { Tried (Form.child (Holding name.now C.no_child C.form)) (Not is_blank) s.now st result }
{
    let c = st?;
    match read_tags::tag(s, Ok(c), name) {
        Ok(a) => read_steps::stay(c.next, held_rest::<C>(s, Ok(a), name, t)),
        Err(e) => Ok(Cursor { far: e.far, ..c }),
    }
}

struct Qualifier;

impl Repeated for Qualifier {
    ghost value = { Tree.Qualifier ℕ };

    ghost form = { Form.qualifier };

    ghost name = { bytes "INSDQualifier" };

    ghost next = { closing };

    fn read(s: &[u8], st: Step, t: &[u8; 256]) -> Step {
        let a = read_tags::tag(s, st, b"INSDQualifier")?;
        let b = enter(s, Ok(a));
        let c = read_tags::leaf(s, b, b"INSDQualifier_name", t);
        let d = read_tags::leaf_maybe(s, c, b"INSDQualifier_value", t);
        leave(s, d, b"INSDQualifier")
    }
}

// What INSDFeature_quals holds.
struct Qualifiers;

impl Held for Qualifiers {
    ghost value = { List (Tree.Qualifier ℕ) };

    ghost form = { each (Form.child Form.qualifier) };

    ghost no_child = { λ l. l ≡ [] };

    fn read(s: &[u8], st: Step, t: &[u8; 256]) -> Step {
        many::<Qualifier>(s, st, t)
    }
}

struct Feature;

impl Repeated for Feature {
    ghost value = { Tree.Feature ℕ };

    ghost form = { Form.feature };

    ghost name = { bytes "INSDFeature" };

    ghost next = { closing };

    fn read(s: &[u8], st: Step, t: &[u8; 256]) -> Step {
        let a = read_tags::tag(s, st, b"INSDFeature")?;
        let b = enter(s, Ok(a));
        let c = read_tags::leaf(s, b, b"INSDFeature_key", t);
        let d = read_tags::leaf(s, c, b"INSDFeature_location", t);
        let e = held_maybe::<Qualifiers>(s, d, b"INSDFeature_quals", t);
        leave(s, e, b"INSDFeature")
    }
}

fn table_maybe(s: &[u8], st: Step, t: &[u8; 256]) -> Step
    requires { ClassTable t.now }
    ensures { Tried (Form.child Form.table) (Not is_blank) s.now st result }
{
    let c = st?;
    match read_tags::tag(s, Ok(c), b"INSDSeq_feature-table") {
        Ok(a) => {
            let b = Feature::read(s, enter(s, Ok(a)), t);
            let d = many::<Feature>(s, b, t);
            read_steps::stay(c.next, leave(s, d, b"INSDSeq_feature-table"))
        }
        Err(e) => Ok(Cursor { far: e.far, ..c }),
    }
}

// What INSDSeq_other-seqids holds.
struct OtherIds;

impl Held for OtherIds {
    ghost value = { Option (Text ℕ) };

    ghost form = { Form.child? (Form.leaf (bytes "INSDSeqid")) };

    ghost no_child = { λ o. o ≡ none };

    fn read(s: &[u8], st: Step, t: &[u8; 256]) -> Step {
        read_tags::leaf_maybe(s, st, b"INSDSeqid", t)
    }
}

// INSDSeq.
fn inner(s: &[u8], st: Step, t: &[u8; 256]) -> Step
    requires { ClassTable t.now }
    ensures { Reads (Form.child held) (Not is_blank) s.now st result }
{
    let a = enter(s, read_tags::tag(s, st, b"INSDSeq"));
    let b = read_tags::leaf(s, a, b"INSDSeq_length", t);
    let c = read_tags::leaf(s, b, b"INSDSeq_moltype", t);
    let d = read_tags::leaf(s, c, b"INSDSeq_division", t);
    let e = held_maybe::<OtherIds>(s, d, b"INSDSeq_other-seqids", t);
    let f = table_maybe(s, e, t);
    let g = read_tags::leaf(s, f, b"INSDSeq_sequence", t);
    leave(s, g, b"INSDSeq")
}

struct SequenceData;

impl Repeated for SequenceData {
    ghost value = { Tree.Sequence ℕ };

    ghost form = { Form.sequence };

    ghost name = { bytes "SequenceData" };

    ghost next = { closing };

    fn read(s: &[u8], st: Step, t: &[u8; 256]) -> Step {
        let a = read_tags::tag(s, st, b"SequenceData")?;
        let b = read_tags::attribute(s, Ok(a), b"sequenceIDNumber", t);
        let c = inner(s, enter(s, b), t);
        leave(s, c, b"SequenceData")
    }
}

// ApplicationIdentification or EarliestPriorityApplicationIdentification.
fn identification(s: &[u8], st: Step, name: &[u8], t: &[u8; 256]) -> Step
    requires { ClassTable t.now }
    ensures { Reads (Form.child (Form.identification name.now)) (Not is_blank) s.now st result }
{
    let a = enter(s, read_tags::tag(s, st, name));
    let b = read_tags::leaf_maybe(s, a, b"IPOfficeCode", t);
    let c = read_tags::leaf(s, b, b"ApplicationNumberText", t);
    let d = read_tags::leaf_maybe(s, c, b"FilingDate", t);
    leave(s, d, name)
}

fn identification_maybe(s: &[u8], st: Step, name: &[u8], t: &[u8; 256]) -> Step
    requires { ClassTable t.now }
    ensures { Tried (Form.child (Form.identification name.now)) (Not is_blank) s.now st result }
{
    let c = st?;
    read_steps::stay(c.next, identification(s, Ok(c), name, t))
}

// "either ApplicantFileReference, or ApplicationIdentification then ApplicantFileReference?"
fn heading(s: &[u8], st: Step, t: &[u8; 256]) -> Step
    requires { ClassTable t.now }
    ensures { Reads Form.heading (Starts earlier) s.now st result }
{
    let c = st?;
    let reference = b"ApplicantFileReference";
    match identification(s, Ok(c), b"ApplicationIdentification", t) {
        Ok(a) => read_tags::leaf_maybe(s, Ok(a), reference, t),
        Err(e) => read_tags::leaf(s, Ok(Cursor { far: e.far, ..c }), reference, t),
    }
}

// A name and its form in Latin letters, or nothing.
fn party_maybe(s: &[u8], st: Step, name: &[u8], latin: &[u8], t: &[u8; 256]) -> Step
    requires { ClassTable t.now }
    ensures { MaybeParty name.now latin.now s.now st result }
{
    let c = st?;
    match read_tags::spoken(s, Ok(c), name, t) {
        Ok(a) => read_tags::leaf_maybe(s, Ok(a), latin, t),
        Err(e) => Ok(Cursor { far: e.far, ..c }),
    }
}

// What stands before the titles.
fn introduction(s: &[u8], st: Step, t: &[u8; 256]) -> Step
    requires { ClassTable t.now }
    ensures { Reads introduced (Starts titled) s.now st result }
{
    let a = heading(s, st, t);
    let b = identification_maybe(s, a, b"EarliestPriorityApplicationIdentification", t);
    let c = party_maybe(s, b, b"ApplicantName", b"ApplicantNameLatin", t);
    party_maybe(s, c, b"InventorName", b"InventorNameLatin", t)
}

struct Title;

impl Repeated for Title {
    ghost value = { Tree.Spoken ℕ };

    ghost form = { Form.spoken (bytes "InventionTitle") };

    ghost name = { bytes "InventionTitle" };

    ghost next = { totalled };

    fn read(s: &[u8], st: Step, t: &[u8; 256]) -> Step {
        read_tags::spoken(s, st, b"InventionTitle", t)
    }
}

fn attributes(s: &[u8], st: Step, t: &[u8; 256]) -> Step
    requires { ClassTable t.now }
    ensures { Reads attributed (StartsPast close_tag) s.now st result }
{
    let a = read_tags::attribute(s, st, b"dtdVersion", t);
    let b = read_tags::attribute_maybe(s, a, b"fileName", t);
    let c = read_tags::attribute_maybe(s, b, b"softwareName", t);
    let d = read_tags::attribute_maybe(s, c, b"softwareVersion", t);
    read_tags::attribute_maybe(s, d, b"productionDate", t)
}

fn root(s: &[u8], st: Step, t: &[u8; 256]) -> Step
    requires { ClassTable t.now }
    ensures { Reads Form.root anything s.now st result }
{
    let a = read_tags::tag(s, st, b"ST26SequenceListing");
    let b = enter(s, attributes(s, a, t));
    let c = introduction(s, b, t);
    let d = many::<Title>(s, Title::read(s, c, t), t);
    let e = read_tags::leaf(s, d, b"SequenceTotalQuantity", t);
    let f = many::<SequenceData>(s, SequenceData::read(s, e, t), t);
    read_tags::close(s, f, b"ST26SequenceListing")
}

// The document type line.
fn doctype(s: &[u8], st: Step) -> Step
    ensures { Passes Form.doctype anything s.now st result }
{
    let a = read_steps::gap(s, read_steps::word(s, st, b"<!DOCTYPE"));
    let b = read_steps::gap(s, read_steps::word(s, a, b"ST26SequenceListing"));
    let c = read_steps::gap(s, read_steps::word(s, b, b"PUBLIC"));
    let d = read_steps::word(s, c, b"\"-//WIPO//DTD Sequence Listing 1.2//EN\"");
    read_steps::word(
        s,
        read_steps::gap(s, d),
        b"\"ST26SequenceListing_V1_2.dtd\">",
    )
}

// The whole text.
fn document(s: &[u8], t: &[u8; 256]) -> Step
    requires { ClassTable t.now }
    ensures { Reads Form.document nothing s.now (going 0 0) result × AtEnd s.now result }
{
    let a = read_steps::word(
        s,
        Ok(Cursor::fresh()),
        b"<?xml version=\"1.0\" encoding=\"UTF-8\"?>",
    );
    let b = doctype(s, read_steps::blanks(s, a));
    let d = root(s, read_steps::blanks(s, b), t);
    read_steps::end(s, read_steps::blanks(s, d))
}

// Whether some bytes are laid out as a listing; or the rule, 1 or 2, and its place.
#[tactic(auto, using(crate::proofs::Wholes::refused_long))]
pub fn layout(listing: &[u8]) -> Shape
    ensures { ShapeSays listing.now result }
{
    if listing.len() > Cursor::LIMIT {
        return Err(Refused { rule: 1, place: 0 });
    }
    let t = read_steps::class_table();
    match document(listing, &t) {
        Ok(_) => Ok(()),
        Err(e) => Err(Refused {
            rule: 2,
            place: e.far,
        }),
    }
}
