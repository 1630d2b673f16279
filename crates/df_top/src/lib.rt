//! The top call: with which status a command line ends, and what then stands.
//!
//! `valflow` takes the words of a command line. `df_commands` reads and judges all texts first and gives a plan; only then are the
//! files written (`writes`), and the output last. Its contract says, of the bytes under each name, which status comes exactly when,
//! and what stands then.
#![tactic(auto)]

mod status;
mod top;
mod writes;

pub use status::Status;
pub use top::valflow;
