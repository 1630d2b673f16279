//! From the bytes of a source to its tokens.
#![tactic(auto)]

mod lexer;
mod number;
mod place;
mod run;
mod symbol;
mod word;

pub use lexer::{LexAnswer, lex};
