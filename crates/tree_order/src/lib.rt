// The order of a part of a cloud along an axis is the one that is meant: theorems over the tree's definitions. There is
// no code here.
#![tactic(auto)]
