//! The tests of the crates below the commands: what no contract says, and no case of a command shows.
//!
//! Each public function that takes memory is called once with ample memory, here or by the cases of the commands
//! (`command_cases`). They stand apart, since a crate with tests is proved twice.
#![tactic(auto)]

#[cfg(test)]
mod cancel;
#[cfg(test)]
mod cells;
#[cfg(test)]
mod celltext;
#[cfg(test)]
mod changed_celltext;
#[cfg(test)]
mod dual_check;
#[cfg(test)]
mod io;
#[cfg(test)]
mod iotext;
#[cfg(test)]
mod joined_paths;
#[cfg(test)]
mod labels;
#[cfg(test)]
mod machine;
#[cfg(test)]
mod values;
