//! The search for a plan of least cost: it settles keys by recursion, within a budget of rows, and
//! leaves the rows and notes that prove that no plan costs less.
#![tactic(auto)]

mod known;
mod known_sets;
mod orders;
mod outcome;
mod pieces;
mod plan;
mod reach;
mod search;
mod search_table;
mod settle;
mod totals;
mod written;

pub use outcome::Outcome;
pub use pieces::CertPieces;
pub use reach::nodes;
pub use search::Search;
pub use written::WrittenCert;
