// Links and placements of jobs on processors, by deadline order: the four moves. Knows nothing of resources.
//
// Each move takes the processors and hands them back changed; the jobs are lent beside them. `Processors` is of the
// crate below, so the moves are functions and no methods. A search that finds nobody gives a number past the table,
// `Processors::LIMIT` or `Jobs::END`, as the rules do (`lowest_free`, `lowest_linked`, `next_task`).
#![tactic(auto)]

mod arriving;
mod leaving;

pub use arriving::arrive;
pub use leaving::{become_preemptable, give_way, leave};
