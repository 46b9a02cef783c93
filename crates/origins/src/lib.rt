// Where each face of a patch came from, and the patch turned so that it faces one way. Definitions in specs/, theorems
// in proofs/. No code.
#![tactic(auto)]
