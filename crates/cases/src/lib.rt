// Cases worked out from the definitions by the checker: the scope's starred ones, small clouds and whole files against
// the Rust's answers, how many first points a seed's search tries, and where the frontier's two rules differ. There is
// no code here.
#![tactic(auto)]
