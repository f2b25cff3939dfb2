//! Tests of the crates that read files and make a job of them: points and turns, part files, allowances,
//! blanks, tools files, machine files, the folded part, jobs, choices of pieces and setups. They stand
//! above what they test, on public calls.
#![tactic(auto)]

#[cfg(test)]
mod allowance_tests;
#[cfg(test)]
mod asserts;
#[cfg(test)]
mod brake_base_tests;
#[cfg(test)]
mod cheapest_setup_tests;
#[cfg(test)]
mod fold_boxes_tests;
#[cfg(test)]
mod job_setup_tests;
#[cfg(test)]
mod key_rows;
#[cfg(test)]
mod machine_file_tests;
#[cfg(test)]
mod part_file_tests;
#[cfg(test)]
mod piece_pick_tests;
#[cfg(test)]
mod setup_fitting_tests;
#[cfg(test)]
mod setups_file_tests;
#[cfg(test)]
mod tool_library_tests;
#[cfg(test)]
mod unfolder_tests;
