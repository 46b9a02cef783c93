// The Rust's `simple_triangulate`, loop by loop, lays the plain path's faces. There is no code here.
#![tactic(auto)]
