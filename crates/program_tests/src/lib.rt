//! Tests of the commands: runs of `brake` over files in memory. They stand above what they test, so
//! that a changed test leaves the program as it was proved.
#![tactic(auto)]

#[cfg(test)]
mod asserts;
#[cfg(test)]
mod blank_tests;
#[cfg(test)]
mod check_tests;
#[cfg(test)]
mod plan_tests;
#[cfg(test)]
mod setups_tests;
#[cfg(test)]
mod tables_tests;
#[cfg(test)]
mod test_runs;
#[cfg(test)]
mod why_tests;
#[cfg(test)]
mod words_tests;
