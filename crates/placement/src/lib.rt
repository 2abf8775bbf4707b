// The test of the scheduler's part of the sound state, for any content.
#![tactic(auto)]

mod placing;

pub use placing::is_placed;
