//! The meaning of programs in blocks, computed.
//!
//! A program in blocks is made flat first (df_inline), and the flat program is evaluated (df_core). That both mean the same is a
//! law of df_flattened, for programs that keep their demands.
#![tactic(auto)]

mod evaluator;

pub use evaluator::eval;
