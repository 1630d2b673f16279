//! Gates and MERGE cells, under a control that a cell gives or under a CTL of their own, and the arms of an `if`.
//!
//! A control that comes from the graph stands in `gates`, one with a CTL of its own in `ruled`. The open arms of an
//! `if` (arms) note the gate of each stream that was met in them (tables).
#![tactic(auto)]

pub mod arms;
pub mod gates;
pub mod kinds;
pub mod laws;
mod rows;
pub mod ruled;
pub mod tables;
