// Cells, ranges and places are cut to a u32 here, in the Rust to an i32 and a usize: inside the domain they are the
// same. There is no code here.
#![tactic(auto)]
