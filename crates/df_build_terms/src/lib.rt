//! The cells of a term: what it is built to where it stands, in a graph that is kept or only counted.
//!
//! What stands around a term is said in `building`. A block's building (elem) has a call for each thing that a term
//! adds, and `terms` goes over the forms of a term.
#![tactic(auto)]

pub mod building;
pub mod elem;
pub mod laws;
pub mod terms;
