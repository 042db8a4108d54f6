// Items of an index, found by its own numbers: the body of a sequence, and in it the entry of a feature. Any bytes may be given; a promise
// speaks of whichever listing they are the index of, and of other bytes it says nothing. Relies on the paper for what an index is.
#![tactic(auto)]

ghost use Rattle.std.specs.Prelude.{◌<◌, ◌≡◌};
ghost use Rattle.index_find.specs.Numbers.{number_at};
ghost use Rattle.index_find.specs.Finds.{molecule_number, PartFound, BodyFound, EntryFound};

use paper::Refused;
use value_words::Molecule;
use walk_steps::Range;

// ---- numbers

// The 32-bit number, lowest byte first, that stands at a place; 0 where the index ends before.
pub fn number_at(index: &[u8], at: usize) -> usize
    ensures is { result ≡ number_at index.now at }
    ensures small { result < 4294967296 }
{
    match index.get(at..) {
        Some([a, b, c, d, ..]) => u32::from_le_bytes([*a, *b, *c, *d]) as usize,
        _ => 0,
    }
}

// The text whose place and length stand at a place.
fn part_at(index: &[u8], at: usize) -> Range
    ensures { PartFound index.now at result }
{
    let from = number_at(index, at);
    let size = number_at(index, walk_steps::past(index, at, 4));
    Range {
        from,
        to: from + size,
    }
}

// ---- the body of a sequence

// The kind of a number in the index's format; there is none above 3.
fn molecule(n: usize) -> Molecule
    ensures { n < 4 → molecule_number result ≡ n }
{
    match n {
        1 => Molecule::Dna,
        2 => Molecule::Rna,
        3 => Molecule::Aa,
        _ => Molecule::Other,
    }
}

// A sequence: its kind, where its residues stand in the listing, where its features' entries stand in the index, and how many there are.
#[derive(Clone, Copy)]
pub struct Body {
    pub kind: Molecule,
    pub residues: Range,
    pub first: usize,
    pub count: usize,
}

// The body number k; or 30, or 31 for a sequence that is skipped.
pub fn body_of(index: &[u8], k: usize) -> Result<Body, Refused>
    ensures { BodyFound index.now k result }
{
    if k == 0 || number_at(index, 0) < k {
        return Err(Refused { rule: 30, place: 0 });
    }
    let start = number_at(index, 8 * k - 4);
    let size = number_at(index, 8 * k);
    let n = number_at(index, start);
    if n == 0 {
        return Err(Refused { rule: 31, place: 0 });
    }
    let kind = molecule(n);
    let residues = part_at(index, start + 4);
    Ok(Body {
        kind,
        residues,
        first: start + 12,
        count: size / 16,
    })
}

// ---- the entry of a feature

// Where its key and its location stand in the listing.
#[derive(Clone, Copy)]
pub struct Entry {
    pub key: Range,
    pub location: Range,
}

// The entry number j of a body.
pub fn entry_of(index: &[u8], body: Body, j: usize) -> Option<Entry>
    ensures { EntryFound index.now body j result }
{
    // An index has no more entries than the last, so the product fits.
    if j == 0 || body.count < j || index.len() / 16 < j {
        return None;
    }
    let at = walk_steps::past(index, body.first, 16 * (j - 1));
    let key = part_at(index, at);
    let location = part_at(index, walk_steps::past(index, at, 8));
    Some(Entry { key, location })
}
