// The Rust's second look at a pivot's triangle never turns one down: the definition leaves it out. There is no code
// here.
#![tactic(auto)]
