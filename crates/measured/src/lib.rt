// What a verdict measures is a number, never a not-a-number. There is no code here.
#![tactic(auto)]
