//! How runs end: whenever no event is possible, each result is whole, in its declared length and without a nothing.
//! The laws stand on labels of members with ranks, and `drained` (tracked) tells of a machine whether its run is at such
//! an end. Labels of values, in which each value is known, are such labels for every number of firings.
#![tactic(auto)]

pub mod laws;
pub mod tracked;
