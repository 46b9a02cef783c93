// What the two searches find, said without their loops. There is no code here.
#![tactic(auto)]
