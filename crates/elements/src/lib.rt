// The elements of a rod: stretch of an edge, bend and twist between two edges, and the frame of an
// edge that has turned. Ported from spring3.rs and rod3_darboux.rs; every function takes any numbers,
// and for a degenerate rod answers what the arithmetic gives.
#![tactic(auto)]

pub mod rod3_darboux;
pub mod spring3;
