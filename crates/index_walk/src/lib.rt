// The index of a listing that is laid out: written into lent room, or compared with bytes that are given, by one walk. Contents and bodies
// go on side by side: a body's size is known behind its last feature. Relies on lent_room for what a pass does, on the walk along the
// items, and on the values for a kind.
#![tactic(auto)]

ghost use Rattle.std.specs.Prelude.{◌≡◌, ◌%◌};
ghost use Rattle.index_walk.specs.Bodies.{SizeOfPart, IsEntry, KindOfBody, IsHead, LaysFeatures, LaysBody, LaysSequences, LaysIndex};

use lent_room::{Laid, Pass, lay_more};
use value_words::Molecule;
use walk_items::FoundSequence;
use walk_steps::Range;

// A number as 32 bits hold it. No number of an index is above them.
fn word(n: usize) -> u32
    ensures { result ≡ n % 4294967296 }
{
    (n % 4_294_967_296) as u32
}

fn part_size(part: Range) -> u32
    ensures { SizeOfPart part result }
{
    word(part.to.saturating_sub(part.from))
}

// The four numbers of a feature.
fn feature_entry(key: Range, location: Range) -> [u32; 4]
    ensures { IsEntry key location result }
{
    [
        word(key.from),
        part_size(key),
        word(location.from),
        part_size(location),
    ]
}

// "kinds are 0 skipped, 1 DNA, 2 RNA, 3 AA"
fn kind_of_body(s: &[u8], moltype: Range, residues: Range) -> u32
    ensures { KindOfBody s.now moltype residues result }
{
    if judge_texts::is_skipped(s, residues) {
        return 0;
    }
    match value_words::kind_of(read_steps::bytes_of(s, moltype.from, moltype.to)) {
        Molecule::Dna => 1,
        Molecule::Rna => 2,
        // An accepted listing has no other kind.
        Molecule::Aa | Molecule::Other => 3,
    }
}

// The three numbers that a body starts with.
fn body_head(kind: u32, residues: Range) -> [u32; 3]
    ensures { IsHead kind residues result }
{
    [kind, word(residues.from), part_size(residues)]
}

// What was laid, and its size in bytes: of a pass that has stopped too, since the contents tell where each body starts. A sum of sizes
// wraps only where the bytes are no listing.
#[derive(Clone, Copy)]
pub struct Sized {
    pub laid: Laid,
    pub size: usize,
}

// The entries of the features that stand from here on. Only a feature says where the next one starts, so it is a while.
fn lay_features(
    pass: Pass,
    s: &[u8],
    first: usize,
    was: Laid,
    given: &[u8],
    room: &mut [u8],
) -> Sized
    ensures { LaysFeatures pass s.now first was given.now room.old result room.new }
{
    let mut at = first;
    let mut laid = was;
    let mut size: usize = 0;
    while walk_steps::child_here(s, at) {
        let feature = walk_items::feature(s, at);
        let next = walk_items::feature_past(s, feature);
        // A feature that stands is not empty.
        if next <= at {
            break;
        }
        let numbers = feature_entry(feature.key, feature.location);
        laid = lay_more(pass, laid, &numbers, given, room);
        size = std::num::wrapping_add_usize(size, 16);
        at = next;
    }
    Sized { laid, size }
}

// The body of a sequence.
fn lay_body(
    pass: Pass,
    s: &[u8],
    sequence: FoundSequence,
    was: Laid,
    given: &[u8],
    room: &mut [u8],
) -> Sized
    ensures { LaysBody pass s.now sequence was given.now room.old result room.new }
{
    let kind = kind_of_body(s, sequence.moltype, sequence.residues);
    let numbers = body_head(kind, sequence.residues);
    let laid = lay_more(pass, was, &numbers, given, room);
    if kind == 0 {
        return Sized { laid, size: 12 };
    }
    let Some(table) = sequence.table else {
        return Sized { laid, size: 12 };
    };
    let Sized { laid: all, size } = lay_features(pass, s, table.first, laid, given, room);
    Sized {
        laid: all,
        size: std::num::wrapping_add_usize(12, size),
    }
}

// The entries and the bodies of the sequences that stand from here on, the first body at `bodies`. Either goes on where the other has
// stopped: the contents say where each body starts, and the bodies how long each is.
fn lay_sequences(
    pass: Pass,
    s: &[u8],
    first: usize,
    bodies: usize,
    count: Laid,
    given: &[u8],
    room: &mut [u8],
) -> Laid
    ensures { LaysSequences pass s.now first bodies count given.now room.old result room.new }
{
    let mut contents = count;
    let mut laid: Laid = Ok(bodies);
    let mut start = bodies;
    let mut at = first;
    while walk_steps::child_here(s, at) {
        let sequence = walk_items::sequence(s, at);
        let next = sequence.next;
        // A sequence that stands is not empty.
        if next <= at {
            break;
        }
        let Sized { laid: body, size } = lay_body(pass, s, sequence, laid, given, room);
        let numbers = [word(start), word(size)];
        contents = lay_more(pass, contents, &numbers, given, room);
        laid = body;
        start = std::num::wrapping_add_usize(start, size);
        at = next;
    }
    contents.and(laid)
}

// The index of the `total` sequences that stand from here on, the first body at `bodies`.
pub fn lay_index(
    pass: Pass,
    s: &[u8],
    first: usize,
    total: usize,
    bodies: usize,
    given: &[u8],
    room: &mut [u8],
) -> Laid
    ensures { LaysIndex pass s.now first total bodies given.now room.old result room.new }
{
    let numbers = [word(total)];
    let count = lay_more(pass, Ok(0), &numbers, given, room);
    lay_sequences(pass, s, first, bodies, count, given, room)
}
