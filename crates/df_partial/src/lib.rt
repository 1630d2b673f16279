//! Members: what takes the place of a value where a loop may never end.
#![tactic(auto)]

pub mod members;
