// The spans of a location: one after another, or into lent room. A caller lends the listing with the place of the location and the place
// behind it; only the walk, which the translation takes step by step, is lent the bytes of that part. A promise speaks of whichever
// location, that keeps rule 25, the part is written from: whether it is one is asked of location_judge before. The crate relies on that
// for the words, segments and sites at a place, on the paper for what the spans are, on read_bytes and read_steps for signs at a place
// and the bytes of a part, and in its proofs on lent_room's laws.
#![tactic(auto)]

pub mod room;
pub mod walking;
