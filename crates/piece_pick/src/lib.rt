//! The choice of tool pieces for the stages of a setup, from the shop's stock. Lengths are in
//! micrometres. It takes no memory.
#![tactic(auto)]

mod choice;
mod dead_states;
mod divisor;
mod grid;
mod piece_search;
mod stock;
mod stock_length;
mod supply;
mod want;

pub use choice::pick;
pub use want::{MOST_PIECES, MOST_WANTS, Picked, Pieces, Want};
