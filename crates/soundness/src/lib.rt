// The sound state, clause by clause, as a test of any content.
#![tactic(auto)]

use input::Setup;

mod groups;
mod named;
mod requests;
mod tasks;
mod testing;

pub use testing::{is_sound, test};

// Whether a state passes the test, and the names of its groups: `test` promises the names of every state, passing or
// not.
#[derive(Clone, Copy)]
pub struct Tested {
    pub passes: bool,
    pub naming: [u8; Setup::RESOURCES],
}
