// Faces from another program: could they be a patch of ours in shape, and the order given along. Definitions in specs/,
// theorems in proofs/: if any order is valid the greedy one is. No code.
#![tactic(auto)]
