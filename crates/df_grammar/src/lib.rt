//! From the tokens of a source to its tree, by descent with one token in hand.
#![tactic(auto)]

mod blocks;
mod descent;
mod operators;
mod parser;
mod primary;
mod source;
mod terms;

pub use parser::{ParseAnswer, parse};
