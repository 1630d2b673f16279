//! That the names of a source's inputs are names in a cell file too, so that the cells of a source have a text.
#![tactic(auto)]

pub mod laws;
