//! From a flat program to its cells, balanced with least buffers.
//!
//! `compile` builds the skeleton of the program, balances it and places the BUF cells. The flow of the balance certifies that no
//! balanced placement has fewer. The cells realize what the program means.
#![tactic(auto)]

pub mod compile;
