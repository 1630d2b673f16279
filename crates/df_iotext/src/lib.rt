//! The texts of inputs, schedules and results: read from bytes and printed to bytes.
#![tactic(auto)]

mod assignments;
pub mod inputs;
mod keys;
pub mod laws;
pub mod lines;
mod lists;
pub mod numbers;
pub mod printing;
pub mod schedules;
pub mod words;
