// The call beside the source's, which may lay a triangle without area: definitions in specs/, theorems in proofs/. No
// code.
#![tactic(auto)]
