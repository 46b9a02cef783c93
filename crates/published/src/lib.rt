// The published program's main call as one definition, and that it is ours but for triangles without area. There is
// no code here.
#![tactic(auto)]
