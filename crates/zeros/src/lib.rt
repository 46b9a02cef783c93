// Which of two zeros of unlike sign `min` and `max` give is left open by Rust: no result of a call depends on it. There
// is no code here.
#![tactic(auto)]
