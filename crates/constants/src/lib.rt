// Which numbers the definitions' bit patterns are: statements in specs/, proved by computation in proofs/. No code.
#![tactic(auto)]
