// Content for lent room: bytes, 32-bit numbers, decimal numbers and texts as read, one behind another. The same calls measure it, write it,
// or compare it with bytes that are given, so that content is said by one walk. Any place and any room may be given. Relies on the paper
// for how numbers and texts are written.
#![tactic(auto)]

ghost use Rattle.std.specs.Prelude.{◌-◌, ◌≤◌, ◌<◌, ◌≡◌, length, take, drop};
ghost use Rattle.std.proofs.lemmas.List.Edits.{sets};
ghost use Rattle.paper.specs.Values.{decimal};
ghost use Rattle.paper.specs.Index.{little_end, in_bytes};
ghost use Rattle.lent_room.specs.Room.{InRoom, Agrees, Lays, LaysMore, LaysRead};
ghost use Rattle.lent_room.specs.Spelled.{FirstCharacter};

// What a pass over content does with it. No closure stands in its place, since `Lays` says of each of the three what it does.
#[derive(Clone, Copy)]
pub enum Pass {
    // It asks whether the room holds it, and writes nothing.
    Measure,
    // It writes it into the room.
    Write,
    // It asks whether the given bytes are it, and writes nothing.
    Compare,
}

// Where a pass stopped: at the room's end, or at the first place where the given bytes aren't the content.
#[derive(Clone, Copy)]
pub struct Stopped {
    pub at: usize,
}

// The place from which the pass goes on, or where it stopped.
pub type Laid = Result<usize, Stopped>;

// A character as read, and the place behind it.
#[derive(Clone, Copy)]
struct Character {
    byte: u8,
    next: usize,
}

// Whether the room has `size` bytes from `at` on. No bytes are in any room, wherever they are.
fn fit(size: usize, at: usize, room: usize) -> Laid
    ensures { InRoom size at room result }
{
    if room.saturating_sub(at) < size {
        return Err(Stopped { at: room });
    }
    Ok(at + size)
}

// The text in the room from `at` on.
fn put(text: &[u8], at: usize, room: &mut [u8])
    requires { length text.now ≤ length room.old - at }
    ensures { room.new ≡ sets room.old at text.now }
{
    // Byte by byte: `copy_from_slice` is a memmove, and the archive for C needs memcpy and memset alone from outside.
    for i in 0..text.len() {
        room[at + i] = text[i];
    }
}

// Whether the given bytes go on with the text from `at` on, and how far.
fn compare(text: &[u8], at: usize, given: &[u8]) -> Laid
    ensures { Agrees text.now at given.now result }
{
    let mut k = at;
    for &b in text {
        if given.len() <= k || given[k] != b {
            return Err(Stopped { at: k });
        }
        k += 1;
    }
    Ok(k)
}

// Bytes.
pub fn lay_bytes(pass: Pass, text: &[u8], at: usize, given: &[u8], room: &mut [u8]) -> Laid
    ensures { Lays given.now at text.now room.old pass result room.new }
{
    match pass {
        Pass::Compare => compare(text, at, given),
        Pass::Measure => fit(text.len(), at, room.len()),
        Pass::Write => {
            let end = fit(text.len(), at, room.len())?;
            put(text, at, room);
            Ok(end)
        }
    }
}

// A 32-bit number, its lowest byte first.
pub fn lay_u32(pass: Pass, n: u32, at: usize, given: &[u8], room: &mut [u8]) -> Laid
    ensures { Lays given.now at (little_end n) room.old pass result room.new }
{
    lay_bytes(pass, &n.to_le_bytes(), at, given, room)
}

// Numbers of 32 bits, one behind another.
pub fn lay_numbers(pass: Pass, numbers: &[u32], at: usize, given: &[u8], room: &mut [u8]) -> Laid
    ensures { Lays given.now at (in_bytes numbers.now) room.old pass result room.new }
{
    let mut end = at;
    for &n in numbers {
        end = lay_u32(pass, n, end, given, room)?;
    }
    Ok(end)
}

// The same behind what was laid, if that pass goes on.
pub fn lay_more(pass: Pass, was: Laid, numbers: &[u32], given: &[u8], room: &mut [u8]) -> Laid
    ensures { LaysMore given.now (in_bytes numbers.now) pass was result room.old room.new }
{
    lay_numbers(pass, numbers, was?, given, room)
}

// The digits of a number at the end of a table of 20: where they start. There is no heap. The loop is over what is left of the
// number, and not over places.
fn digits(n: usize, table: &mut [u8]) -> usize
    requires { length table.old ≡ 20 }
    ensures { (result ≤ 20) × (take (20 - result) (drop result table.new) ≡ decimal n) }
{
    let mut left = n;
    let mut k: usize = 20;
    while 10 <= left {
        k -= 1;
        table[k] = b'0' + (left % 10) as u8;
        left /= 10;
    }
    k -= 1;
    table[k] = b'0' + left as u8;
    k
}

// A number in decimal digits.
pub fn lay_decimal(pass: Pass, n: usize, at: usize, given: &[u8], room: &mut [u8]) -> Laid
    ensures { Lays given.now at (decimal n) room.old pass result room.new }
{
    let mut table = [0u8; 20];
    let k = digits(n, &mut table);
    lay_bytes(pass, &table[k..], at, given, room)
}

// The character that is written from `at` on. No `match` of the second byte: it was tried, and its last arm has no fact that the byte is
// none of the others, which the proof needs.
fn first(text: &[u8], at: usize) -> Character
    requires { at < length text.now }
    ensures { FirstCharacter text.now at result.byte result.next }
{
    let byte = text[at];
    if byte != b'&' {
        return Character { byte, next: at + 1 };
    }
    // The shortest entity has four bytes.
    if text.len() - at < 4 {
        return Character { byte, next: at + 1 };
    }
    if text[at + 1] == b'l' {
        return Character {
            byte: b'<',
            next: at + 4,
        };
    }
    if text[at + 1] == b'g' {
        return Character {
            byte: b'>',
            next: at + 4,
        };
    }
    if text[at + 1] == b'q' {
        return Character {
            byte: b'"',
            next: at + 6,
        };
    }
    if text[at + 2] == b'm' {
        return Character {
            byte: b'&',
            next: at + 5,
        };
    }
    Character {
        byte: b'\'',
        next: at + 6,
    }
}

// A text as read: each entity as the character it stands for. The loop goes on by characters, of one to six bytes, so there is no `for`.
pub fn lay_read(pass: Pass, text: &[u8], at: usize, given: &[u8], room: &mut [u8]) -> Laid
    ensures { LaysRead given.now at text.now room.old pass result room.new }
{
    let mut i: usize = 0;
    let mut end = at;
    while i < text.len() {
        let c = first(text, i);
        end = lay_bytes(pass, &[c.byte], end, given, room)?;
        i = c.next;
    }
    Ok(end)
}
