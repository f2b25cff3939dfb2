//! Tests of the crates that tell whether a stroke is possible and what it costs: swept sectors, eight
//! stages at once, the folding of bends and its undoing, gauges, costs, what belongs to a set of bends,
//! the reasons against a stroke, the table of strokes and the nogoods of a job. They stand above what
//! they test, on public calls.
#![tactic(auto)]

#[cfg(test)]
mod asserts;
#[cfg(test)]
mod bend_state_tests;
#[cfg(test)]
mod gauge_rules_tests;
#[cfg(test)]
mod handling_cost_tests;
#[cfg(test)]
mod nogood_book_tests;
#[cfg(test)]
mod sector_geom_tests;
#[cfg(test)]
mod set_facts_tests;
#[cfg(test)]
mod stage_lanes_tests;
#[cfg(test)]
mod stroke_table_tests;
#[cfg(test)]
mod sweep_check_tests;
#[cfg(test)]
mod undo_region_tests;
