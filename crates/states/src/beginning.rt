// The state that a set-up begins with.
ghost use Rattle.std.specs.Prelude.{◌≡◌};
ghost use Rattle.protocol.specs.Replies.{reply_from};
ghost use Rattle.protocol.specs.Events.{fresh as fresh_state, begin as begin_rule};
ghost use Rattle.input.specs.Words.{no_setup};

use crate::records::{no_group, no_task};
use input::Setup;
use numbers::Refusal;
use protocol::State;

// The state of a set-up before any event: nobody has arrived.
#[tactic(auto, unfolding(protocol::specs::Events::fresh))]
fn fresh(setup: Setup) -> State
    ensures { result ≡ fresh_state setup }
{
    State {
        setup,
        clock: setup.start,
        tasks: [no_task(); Setup::TASKS],
        groups: [no_group(); Setup::RESOURCES],
        processors: processors::none_linked(setup.processors),
    }
}

// The empty state, that of no set-up.
pub fn empty() -> State
    ensures { result ≡ fresh_state no_setup }
{
    fresh(Setup::none())
}

// The state that a set-up begins with, or its refusal.
#[tactic(auto, unfolding(protocol::specs::Events::begin))]
pub fn begin(setup: Setup) -> Result<State, Refusal>
    ensures { reply_from (fresh_state no_setup) result ≡ begin_rule setup }
{
    setups::judge_setup(setup)?;
    Ok(fresh(setups::clear(setup)))
}
