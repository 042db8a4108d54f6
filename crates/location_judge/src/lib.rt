// Locations: the text of one INSDFeature_location is read and judged. A caller lends the listing with the place of the location and the
// place behind it; only a walk over its spans, which reads words, segments and sites at a place, lends the bytes of that part. A promise
// holds of whatever bytes the part has. The crate relies on the paper, its definitions and its laws about the model that reads a
// location, on read_bytes for words at a place, and on read_steps for the bytes of a part.
#![tactic(auto)]

pub mod judging;
pub mod operators;
pub mod pieces;
