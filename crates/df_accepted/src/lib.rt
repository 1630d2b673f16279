//! What accepted programs keep of the demands on their sources: a law that stands on the checks of names and types and on
//! that of the form together.
#![tactic(auto)]

pub mod laws;
