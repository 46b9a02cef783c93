// How good a computed length is, for coordinates that are multiples of 1/64. The statement in specs/, its proof in
// proofs/. No code.
#![tactic(auto)]
