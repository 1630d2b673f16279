//! The text of a list of cells: written (`writer`), and read back (`reader`).
//!
//! A list has one text and a text is that of one list at most, so reading is exact: what isn't written so is refused, at the first
//! line that no text which begins so can have. Texts of version 1 are read, and none is written (`version`).
#![tactic(auto)]

mod kinds;
pub mod laws;
mod lines;
pub mod reader;
mod spellings;
pub mod version;
mod words;
pub mod writer;
