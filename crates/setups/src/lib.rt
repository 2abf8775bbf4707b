// What is required of a set-up: its refusals, its places past the counts, and the groups of its resources.
#![tactic(auto)]

mod clearing;
mod grouping;
mod judging;

pub use clearing::{clear, is_clear};
pub use grouping::names_of;
pub use judging::judge_setup;
