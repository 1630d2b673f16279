//! The skeleton of a flat program: its cells in order, how many they are, and as a list that is well-formed.
//!
//! Blocks (blocks) are built one after the other, between the inputs and the results (program), in a graph that is kept
//! or only counted. `census` counts the cells without making one, and `build` makes them (build).
#![tactic(auto)]

pub mod blocks;
pub mod build;
pub mod laws;
pub mod program;
