//! The numbers of ranges and subscripts: how long a range is, whether it has a first element, and at which offset an array is taken.
#![tactic(auto)]

pub mod lengths;
pub mod offsets;
