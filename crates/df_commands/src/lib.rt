//! The commands: what each reads, what its texts ask for or why they are refused, and what it writes.
//!
//! A command is data (`command`): its word, the texts that it reads, how many files it writes. `planned::plan_for` reads the files in
//! their order (`reads`) and hands the texts to the command's own module, which judges them and gives a plan: the bytes of each file
//! to be written, and the text of the output. The contract of each says so against the verdict on the texts. Nothing is written here.
#![tactic(auto)]

mod cell_files;
mod check;
pub mod command;
mod compilation;
mod compile;
pub mod ending;
mod eval;
mod go;
pub mod laws;
mod lockstep;
mod migrate;
pub mod plan;
pub mod planned;
mod programs;
mod reads;
mod refusals;
mod replay;
pub mod report;
mod run;
mod runs;
mod source_refusals;
pub mod stop;
mod trace;
mod verify;
