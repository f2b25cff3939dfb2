//! The page of a drawn setup sheet: of a plan, or of a job without one.
#![tactic(auto)]

mod blank_part;
mod counts;
mod dead_end;
mod forms;
mod head;
mod holes;
mod job_parts;
mod kept;
mod left;
mod lists;
mod no_plan;
mod order;
mod plan;
mod refusal_table;
mod station_part;
mod stroke;
mod stroke_block;
mod stroke_facts;
mod stroke_heading;
mod style;
mod warning;
mod ways;

pub use no_plan::no_plan_page;
pub use plan::plan_page;
