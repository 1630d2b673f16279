//! Balancing: stages for the nodes of a skeleton, and a flow that shows that no placement of BUF cells is smaller.
//!
//! A balancer (`balancer`) finds both. `Cancel` (`cancel`) cancels cycles of positive count.
#![tactic(auto)]

pub mod balancer;
pub mod cancel;
mod cancelling;
mod rows;
mod step;
mod trace;
