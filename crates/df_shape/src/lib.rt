//! The pipe-structured form of a source: blocks that make arrays and scalars one after the other, each array over a range
//! that is known before any input. A source that has not this form is refused at the first place where it breaks a rule;
//! a source that has it is given as such a program in blocks, which means the same.
#![tactic(auto)]

mod answers;
mod blocks;
mod bodies;
mod body;
mod building;
mod constants;
mod context;
mod endings;
mod entries;
mod extents;
mod forms;
mod functions;
mod inner;
mod inputs;
pub mod laws;
mod manifest;
mod naming;
mod part;
mod ranges;
mod renaming;
mod shaping;
mod sources;
mod standing;
mod subscripts;
mod walk;

pub use answers::ShapeAnswer;
pub use shaping::shape;
