//! The tokens of a source that are left, the first of them in hand: which lines of the grammar may begin with it, and taking it.
#![tactic(auto)]

pub mod begins;
pub mod brackets;
pub mod cursor;
pub mod error;
