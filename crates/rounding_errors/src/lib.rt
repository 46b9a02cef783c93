// The rounding errors of f32 operations, counted over whole numbers. Laws in proofs/. No code.
#![tactic(auto)]
