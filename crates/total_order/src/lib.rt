// What is sorted is sorted by `<` here and by `total_cmp` in the Rust: inside the domain the two are one order. There
// is no code here.
#![tactic(auto)]
