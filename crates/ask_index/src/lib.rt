// The index of request 5: made in lent bytes, and checked beside a listing. Any bytes may be given as a listing and as an index.
// Relies on the check, for where the sequences stand and how many there are, and on index_walk for the walk that both share.
#![tactic(auto)]

ghost use Rattle.ask_answers.specs.Given.{IndexGiven};
ghost use Rattle.ask_index.specs.Takes.{TakesIndex};

use ask_answers::{IndexVerdict, LentAnswer};
use index_walk::lay_index;
use lent_room::{Pass, Stopped};
use paper::Refused;

// The index of an accepted listing at the front of out; or nothing is written.
pub fn index(listing: &[u8], out: &mut [u8]) -> LentAnswer
    ensures { IndexGiven listing.now out.old result out.new }
{
    let list = ask_find::accepted(listing)?;
    let size = 4 + 20 * list.total + 16 * list.features;
    if out.len() < size {
        return Err(Refused { rule: 34, place: 0 });
    }
    let bodies = 4 + 8 * list.total;
    // The room holds it, so the pass doesn't stop.
    let _ = lay_index(
        Pass::Write,
        listing,
        list.first,
        list.total,
        bodies,
        b"",
        out,
    );
    Ok(size)
}

// Whether an index belongs to a listing.
pub fn check_index(listing: &[u8], index: &[u8]) -> IndexVerdict
    ensures { TakesIndex listing.now index.now result }
{
    let list = ask_find::accepted(listing)?;
    let bodies = 4 + 8 * list.total;
    // A pass that compares writes nothing.
    let mut none = [0u8; 1];
    let laid = lay_index(
        Pass::Compare,
        listing,
        list.first,
        list.total,
        bodies,
        index,
        &mut none[..],
    );
    match laid {
        Err(Stopped { at: place }) => Err(Refused { rule: 50, place }),
        Ok(place) => {
            if place < index.len() {
                return Err(Refused { rule: 50, place });
            }
            Ok(())
        }
    }
}
