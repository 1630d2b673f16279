//! The checker of least buffers, and the text of what it checks.
//!
//! Whoever placed the BUF cells and made the flow is not trusted: `dual_check` tries each equation of the stages and of the flow.
//! `dual_text` writes and reads the flow.
#![tactic(auto)]

pub mod answer;
pub mod dual_check;
pub mod dual_text;
mod flows;
pub mod laws;
mod pieces;
mod rising;
mod staged;
