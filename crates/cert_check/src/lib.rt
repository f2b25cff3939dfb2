//! The checker of certificates: from the text alone it confirms that no plan costs less than is
//! claimed, or that there is none. It shares with the search the definitions and the rules, and
//! nothing of how a plan is found.
#![tactic(auto)]

mod check_table;
mod closing_costs;
mod fault;
mod fault_words;
mod proved_costs;
mod read_cert;
mod read_window;
mod row_lanes;
mod row_notes;
mod row_set;
mod row_table;
mod rows;
mod set_actions;
mod steps;
mod verdict;

pub use fault::{CheckFault, StepFault};
pub use read_cert::{ReadCert, read_text};
pub use read_window::read_text_from;
pub use row_notes::RowNotes;
pub use row_table::{RowTable, key_count};
pub use rows::check_rows;
pub use verdict::{Checked, Verdict, check, check_from};
