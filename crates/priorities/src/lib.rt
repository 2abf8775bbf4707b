// What the scheduler is given of each job: its priority, inherited priority counted, and its mode.
#![tactic(auto)]

mod ranks;

pub use ranks::{jobs_of, mode_in, modes_of, own_rank, own_ranks, ranks_of};
