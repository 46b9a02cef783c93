// Definitions and laws of lists only; see specs/ and proofs/.
#![tactic(auto)]
