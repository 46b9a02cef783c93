// The lines of a cloud file: the radius line, and a point's line with its values, without them, or by a reader.
//
// What a line means are the definitions `field` and `point` of specs/Format.antt.
#![tactic(auto)]

pub mod line;
pub mod reader;
pub mod skipping;
