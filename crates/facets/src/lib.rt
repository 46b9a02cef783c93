// The facets of a binary STL file: their bytes, and the corners that bytes hold.
//
// The format is `stl` and `corners` of specs/Format.antt.
#![tactic(auto)]

pub mod read;
pub mod write;
