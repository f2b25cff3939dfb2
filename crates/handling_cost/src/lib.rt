//! What strokes cost, the bound below the cost of every rest of a plan, and the definitions of
//! plans and of the tables of settled keys that prove a plan's cost least.
#![tactic(auto)]

mod attitudes;
mod costs;
mod leads;
mod lower_bound;
mod poses;

pub use attitudes::{Change, change_between};
pub use costs::{change_cost, cost_to, next_key, plan_cost, start_key, step_cost};
pub use leads::{is_action_at, is_full, is_lead};
pub use lower_bound::{bound, bound_with, farthest, leads_left};
pub use poses::pose_before;
