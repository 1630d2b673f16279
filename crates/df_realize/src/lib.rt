//! That the cells of every flat program realize what it means.
#![tactic(auto)]

pub mod laws;
