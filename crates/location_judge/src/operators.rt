// The words of operators at a place of a part.
ghost use Rattle.paper.specs.Bytes.{bytes};
ghost use Rattle.read_bytes.specs.Words.{There};
ghost use Rattle.location_judge.specs.Readings.{Lists};

use read_bytes::begins;

#[derive(Clone, Copy)]
pub enum Operator {
    Join,
    Order,
}

// An operator that stands at a place, and the place of its first member.
#[derive(Clone, Copy)]
pub struct Opening {
    pub operator: Operator,
    pub first: usize,
}

// Whether a complement stands at a place.
pub fn complement_at(s: &[u8], at: usize) -> bool
    ensures { There (bytes "complement(") s.now at result }
{
    begins(s, at, b"complement(")
}

// Whether a join or an order stands at a place.
pub fn list_at(s: &[u8], at: usize) -> Option<Opening>
    ensures { Lists s.now at result }
{
    if begins(s, at, b"join(") {
        return Some(Opening {
            operator: Operator::Join,
            first: at + 5,
        });
    }
    if begins(s, at, b"order(") {
        return Some(Opening {
            operator: Operator::Order,
            first: at + 6,
        });
    }
    None
}
