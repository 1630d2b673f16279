//! The tests of the commands over graphs and schedules that are generated. The cases that are texts stand in `command_cases`.
#![tactic(auto)]

#[cfg(test)]
mod least_buffers;
#[cfg(test)]
mod many_schedules;
