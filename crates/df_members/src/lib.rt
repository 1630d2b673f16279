//! Labels whose members are values or nothing, which stands for a value that never comes, and what they say of runs.
#![tactic(auto)]

pub mod laws;
