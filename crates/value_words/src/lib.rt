// The values of texts: numbers, words and kinds. Each test takes the raw part of the listing, and its promise speaks of
// whichever text as read that part is written from. It relies on the paper alone, and knows no element of the listing.
#![tactic(auto)]

ghost use Rattle.std.specs.Prelude.{◌≡◌};
ghost use Rattle.paper.specs.Values.{Number};
ghost use Rattle.paper.specs.Rules.{Whole};
ghost use Rattle.value_words.specs.Reading.{Tells, OfRead, Moltypes, is_known, is_acid};

// What a moltype names.
#[derive(Clone, Copy)]
pub enum Molecule {
    Dna,
    Rna,
    Aa,
    Other,
}

impl Molecule {
    // Whether it names a kind.
    pub fn is_known(self) -> bool
        ensures { result ≡ is_known self }
    {
        !matches!(self, Molecule::Other)
    }

    // Whether it is AA, which has words of its own.
    pub fn is_acid(self) -> bool
        ensures { result ≡ is_acid self }
    {
        matches!(self, Molecule::Aa)
    }
}

// Whether two parts are the same bytes.
pub fn same(w: &[u8], x: &[u8]) -> bool
    ensures { Tells result (w.now ≡ x.now) }
{
    w == x
}

// Whether these bytes are the number n. No value that is kept is above n, so none wraps.
#[tactic(auto, using(crate::proofs::Numbers::not_zero))]
fn is_decimal(w: &[u8], n: usize) -> bool
    ensures { Tells result (Number n w.now) }
{
    if w.is_empty() || w[0] == b'0' {
        return false;
    }
    let mut v: usize = 0;
    for &b in w {
        if b < b'0' || b'9' < b || n / 10 < v {
            return false;
        }
        let d = (b - b'0') as usize;
        if n - v * 10 < d {
            return false;
        }
        v = v * 10 + d;
    }
    v == n
}

// Whether it is the number n: "decimal digits, first not `0`, any length".
pub fn is_number(w: &[u8], n: usize) -> bool
    ensures { OfRead w.now (Number n) result }
{
    is_decimal(w, n)
}

// Whether it is `1..` and n.
pub fn is_whole(w: &[u8], n: usize) -> bool
    ensures { OfRead w.now (Whole n) result }
{
    if n == 0 {
        return same(w, b"1..0");
    }
    match w.strip_prefix(b"1..") {
        Some(digits) => is_decimal(digits, n),
        None => false,
    }
}

// Which kind a moltype names.
pub fn kind_of(w: &[u8]) -> Molecule
    ensures { Moltypes w.now result }
{
    if same(w, b"DNA") {
        Molecule::Dna
    } else if same(w, b"RNA") {
        Molecule::Rna
    } else if same(w, b"AA") {
        Molecule::Aa
    } else {
        Molecule::Other
    }
}
