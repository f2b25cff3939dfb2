//! Tests of the crates that fetch and store files, read and put text, and run a command. They stand above
//! what they test, on public calls.
#![tactic(auto)]

#[cfg(test)]
mod asserts;
#[cfg(test)]
mod brake_io_tests;
#[cfg(test)]
mod brake_text_tests;
#[cfg(test)]
mod sample_command_tests;
