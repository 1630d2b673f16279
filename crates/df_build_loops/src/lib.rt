//! Loops: a scalar that is held, and the frames of folds and recurrences.
//!
//! A frame is a MERGE whose last port waits while the body is built (frames): a gate gives the body the values before,
//! the body feeds the port at the end, and a last gate passes the value of the last turn. The body of a fold is one
//! operator (folds). A scalar is held by a loop of its own (holds).
#![tactic(auto)]

pub mod folds;
pub mod frames;
pub mod holds;
pub mod laws;
