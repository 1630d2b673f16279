//! Programs in blocks as flat programs, within the limits of size.
//!
//! A program in blocks calls functions by their names. Before it is evaluated or built, `inline` makes a flat program of it: each
//! name becomes the number of what it stands for, and each call its arguments before the body of its function, whose own calls
//! are replaced likewise. What the flat program is and that it means the same stands in df_flattened.
//!
//! A program can double its size from one function to the next. So the size is counted first, with each function looked at once,
//! and a program that would have too many nodes or nest too many brackets is refused before anything is made.
#![tactic(auto)]

mod answers;
mod blocks;
mod bodies;
mod copier;
mod count;
mod counter;
mod depth;
mod inliner;
mod names;
mod size;
mod subscripts;
mod table;

pub use answers::InlineAnswer;
pub use inliner::{MOST_BRACKETS, MOST_NODES, inline};
