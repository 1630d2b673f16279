//! Names and types: whether each name of a source stands for something, each part has the type that
//! is asked of it, and each array has a range.
#![tactic(auto)]

mod answers;
mod bodies;
mod entry;
pub mod laws;
mod names;
mod passes;
mod sorts;
mod source;
mod walk;

pub use answers::CheckAnswer;
pub use source::check;
