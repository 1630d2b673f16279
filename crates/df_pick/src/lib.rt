//! A list of flags that tells which is the k-th of those that are up, in steps that grow with the logarithm of its
//! length.
#![tactic(auto)]

pub mod picks;
#[cfg(test)]
mod tests;
