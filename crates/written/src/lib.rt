// A number of the cloud file is the f32 nearest to the decimal that its bytes write. There is no code here.
#![tactic(auto)]
