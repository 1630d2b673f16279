//! Balancing by shortest augmenting paths.
//!
//! `Paths` (`paths`) finds the least stages and their flow in a fraction of the time that `Cancel` takes. The searches (`open`, `steps`,
//! `search`, `serving`, `tightened`, `proposal`) are not trusted: what they propose is checked against each equation of the law
//! (`checked`), and a skeleton whose proposal failed would be balanced by `Cancel`.
#![tactic(auto)]

mod checked;
mod first_numbers;
mod lists;
mod open;
pub mod paths;
mod proposal;
mod search;
mod serving;
mod steps;
mod tightened;
