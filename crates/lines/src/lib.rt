// The printed lines, each into a lent buffer: from numbers alone, and of a state.
#![tactic(auto)]

mod of_numbers;
mod of_states;
mod writing;

pub use of_numbers::{block_line, counts_line, places_line, setup_line, totals_line};
pub use of_states::{event_line, first_line, task_line};

// The least size of a line's buffer, in bytes.
pub const LIMIT: usize = 96;
