// Whether some triple of the seed search comes to the quality test, at a radius and at any of several: definitions in
// specs/, laws in proofs/. There is no code here.
#![tactic(auto)]
