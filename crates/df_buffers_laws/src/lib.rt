//! What BUF cells on the arcs of a skeleton leave as it was.
//!
//! BUF cells are inserted into a graph at the ends of the skeleton's arcs, so many on each arc as a balance asks for. The laws
//! (laws) say what the cells of the new graph have in common with those of the old one.
#![tactic(auto)]

pub mod laws;
