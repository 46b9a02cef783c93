// Patches of the main call are accepted as faces from another program, in any order of their lines. No code.
#![tactic(auto)]
