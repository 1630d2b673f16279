//! Runs in lock step: phases, in each of which all cells that can fire at its beginning fire once.
//!
//! `lockstep` (phases) runs a machine in phases. What a phase is stands in specs/Phases, and how fast such a run is in
//! specs/Laws.
#![tactic(auto)]

pub mod laws;
pub mod phases;
