// The Rust's `find_neighbors`, cell by cell, lists the neighbours in the definition's order. There is no code here.
#![tactic(auto)]
