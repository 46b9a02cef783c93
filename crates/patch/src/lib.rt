// Laying a patch, and what is true of every patch: definitions in specs/, theorems in proofs/. No code.
#![tactic(auto)]
