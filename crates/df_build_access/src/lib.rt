//! Accesses: the elements of an array, moved to the turns of a block.
//!
//! Of an array and the turns of a block, the window is where they meet (windows). The calls that make its cells, and
//! those of a single element, stand in `elements`. A table notes what each access was built to (accesses).
#![tactic(auto)]

pub mod accesses;
pub mod elements;
pub mod laws;
pub mod windows;
