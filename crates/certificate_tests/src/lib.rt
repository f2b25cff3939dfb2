//! Tests of the crates that search and keep what the search found, write, read and check certificates,
//! print sheets, put refusals into words and make jobs for trials. They stand above what they test, on
//! public calls.
#![tactic(auto)]

#[cfg(test)]
mod action_lanes_tests;
#[cfg(test)]
mod asserts;
#[cfg(test)]
mod bb_search_tests;
#[cfg(test)]
mod cert_check_tests;
#[cfg(test)]
mod cert_merge_tests;
#[cfg(test)]
mod cert_words_tests;
#[cfg(test)]
mod first_stage;
#[cfg(test)]
mod part_gen_tests;
#[cfg(test)]
mod plan_cert_tests;
#[cfg(test)]
mod refusal_words_tests;
#[cfg(test)]
mod row_pool_tests;
#[cfg(test)]
mod setup_sheet_tests;
