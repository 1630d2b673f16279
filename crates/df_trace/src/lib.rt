//! Traces: a line for each event of a run, and runs that are done again from their lines.
//!
//! `event_line` (line) writes the line of an event, and `replay` (replay) does the events whose lines a text has.
#![tactic(auto)]

pub mod laws;
pub mod line;
mod naming;
pub mod replay;
pub mod trace;
