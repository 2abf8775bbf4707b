// What is read from a state: its records and tables at any place, past their ends too; situations, totals and
// snapshots; and the state that a set-up begins with.
#![tactic(auto)]

mod beginning;
mod lookups;
mod reading;
mod records;
mod snapshots;
mod standings;

pub use beginning::{begin, empty};
pub use lookups::{due_at, has_kind, holders_of, kind_at, period_at};
pub use reading::{linked_to, running_on, situation, situation_refusal, snapshot_of, totals_of};
pub use records::{no_group, no_task, task_at, with_standing};
pub use snapshots::put_snapshot;
pub use standings::{asked_of, situation_of, stand_of, stands_of};
