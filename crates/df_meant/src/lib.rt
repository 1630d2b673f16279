//! That what the builder makes of a flat program means what the program means: labels beside its cells tell its results.
#![tactic(auto)]

pub mod laws;
