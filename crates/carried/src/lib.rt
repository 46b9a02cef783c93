// A reader that is carried from line to line reads consecutive lines. There is no code here.
#![tactic(auto)]
