// The texts of a sequence: its number, length, kind, division and residues. Rules 15 to 20 and 29, and what is known of a sequence for the
// judgement of its features. Relies on the walk, the values, the residues and what the judge's parts share.
#![tactic(auto)]

ghost use Rattle.std.specs.Prelude.{◌≤◌, length, is_some};
ghost use Rattle.value_residues.specs.Residues.{SymbolTable};
ghost use Rattle.judge_texts.specs.Texts.{Sized, LengthOf, Scans, KnowsOf, JudgesNumber, TellsSkipped, TellsEmpty, TellsBlank, JudgesSymbols, JudgesResidues, JudgesTexts};

use judge_faults::{Fault, Known};
use value_words::Molecule;
use walk_items::FoundSequence;
use walk_steps::Range;

// A number of residues, as far as 32 bits hold it: more than a listing has.
fn size_of(n: usize) -> u32
    ensures { Sized n result }
{
    u32::try_from(n).unwrap_or(0)
}

// How many bytes stand before the first residue that is no symbol of the kind. Of no kind nothing is a symbol.
fn before_foreign(w: &[u8], kind: Molecule, t: &[u8; 256]) -> usize
    requires { SymbolTable t.now }
    ensures { Scans w.now kind result }
{
    match kind {
        Molecule::Dna | Molecule::Rna => value_residues::symbols(w, 1, t),
        Molecule::Aa => value_residues::symbols(w, 2, t),
        Molecule::Other => 0,
    }
}

// L, where the first n bytes are as many characters.
fn length_of(w: &[u8], n: usize) -> usize
    requires { n ≤ length w.now }
    ensures { LengthOf w.now n result }
{
    n + value_residues::characters(&w[n..])
}

// What is known of a sequence, from its moltype and its residues.
pub fn known_of(s: &[u8], moltype: Range, residues: Range, t: &[u8; 256]) -> Known
    requires { SymbolTable t.now }
    ensures { KnowsOf s.now moltype residues result }
{
    let kind = value_words::kind_of(read_steps::bytes_of(s, moltype.from, moltype.to));
    let w = read_steps::bytes_of(s, residues.from, residues.to);
    let n = before_foreign(w, kind, t);
    let top = size_of(length_of(w, n));
    // It doesn't wrap where the residues stand in a listing.
    let foreign = std::num::wrapping_add_usize(residues.from, n);
    Known {
        kind,
        top,
        foreign,
        residues,
    }
}

// Rule 15, for the sequence number k.
pub fn judge_number(s: &[u8], number: Range, k: usize) -> Fault
    ensures { JudgesNumber s.now number k result }
{
    let ok = value_words::is_number(read_steps::bytes_of(s, number.from, number.to), k);
    judge_faults::unless(ok, 15, number.from)
}

// Whether the sequence is skipped.
pub fn is_skipped(s: &[u8], residues: Range) -> bool
    ensures { TellsSkipped s.now residues result }
{
    value_words::same(read_steps::bytes_of(s, residues.from, residues.to), b"000")
}

fn is_blank(p: Range) -> bool
    ensures { TellsBlank p result }
{
    p.from == p.to
}

// What rule 29 asks of a skipped sequence.
pub fn is_empty(found: &FoundSequence) -> bool
    ensures { TellsEmpty found.now.declared found.now.moltype found.now.division found.now.ids (is_some found.now.table) result }
{
    !found.ids
        && found.table.is_none()
        && is_blank(found.declared)
        && is_blank(found.moltype)
        && is_blank(found.division)
}

// Rules 18 and 19 for one kind.
fn judge_symbols(w: &[u8], known: Known, undefined: u8, fewest: usize) -> Fault
    ensures { JudgesSymbols w.now known undefined fewest result }
{
    let foreign = known.foreign;
    let a = judge_faults::unless(known.residues.to <= foreign, 18, foreign);
    let enough = value_residues::has_defined(w, undefined, fewest);
    let b = judge_faults::unless(enough, 19, known.residues.from);
    judge_faults::earlier(a, b)
}

// Rules 18 and 19.
fn judge_residues(s: &[u8], known: Known) -> Fault
    ensures { JudgesResidues s.now known result }
{
    let kind = known.kind;
    let w = read_steps::bytes_of(s, known.residues.from, known.residues.to);
    // An arm for each kind, so that an edit can take one alone.
    match kind {
        Molecule::Dna => judge_symbols(w, known, b'n', 10),
        Molecule::Rna => judge_symbols(w, known, b'n', 10),
        Molecule::Aa => judge_symbols(w, known, b'X', 4),
        Molecule::Other => None,
    }
}

// Rules 16 to 20.
pub fn judge_texts(s: &[u8], found: &FoundSequence, known: Known) -> Fault
    ensures { JudgesTexts s.now found.now.declared found.now.moltype found.now.division known result }
{
    let FoundSequence {
        declared,
        moltype,
        division,
        ..
    } = *found;
    let pat = value_words::same(read_steps::bytes_of(s, division.from, division.to), b"PAT");
    let right = value_words::is_number(
        read_steps::bytes_of(s, declared.from, declared.to),
        known.top as usize,
    );
    let named = known.kind.is_known();
    let a = judge_faults::unless(named, 16, moltype.from);
    let b = judge_faults::unless(pat, 17, division.from);
    let c = judge_residues(s, known);
    let d = judge_faults::unless(right, 20, declared.from);
    judge_faults::earlier(judge_faults::earlier(a, b), judge_faults::earlier(c, d))
}
