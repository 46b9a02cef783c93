// The Rust's `compute_adaptive_radii`, step by step, gives the definition's radii for every accepted cloud. There is no
// code here.
#![tactic(auto)]
