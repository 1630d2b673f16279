//! BUF cells on the arcs of a skeleton, placed by a balance: as many on each arc as its excess.
//!
//! `place_buffers` (placing) counts them before it makes any (excesses), inserts them into the graph of the cells
//! (inserting), and gives all cells their stages (staging).
#![tactic(auto)]

mod excesses;
mod inserting;
pub mod placing;
mod staging;
