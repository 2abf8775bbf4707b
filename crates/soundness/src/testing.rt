// The test of the sound state, in three parts.
ghost use Rattle.std.specs.Prelude.{◌≡◌, true};
ghost use Rattle.setups.specs.Naming.{names};
ghost use Rattle.protocol.specs.Sound.{sound};
ghost use Rattle.soundness.specs.Parts.{frame_sound, locks_sound, placement_sound};

use crate::Tested;
use crate::named::Named;
use protocol::State;

// Links and placements. The ranks are the rule's only within their bounds, which a sound set-up, clock and times
// ensure, and the types of the state's parts.
fn placement_holds(state: State) -> bool
    requires { frame_sound state ≡ true }
    ensures { result ≡ placement_sound state }
{
    let setup = state.setup;
    let jobs = priorities::jobs_of(setup.kinds, setup.resources, state.tasks, state.groups);
    state.processors.count == setup.processors && placement::is_placed(state.processors, jobs)
}

impl Named<'_> {
    // The set-up, the clock and the times. That the clock is at most its end needs no test, as it has 32 bits.
    #[tactic(auto, using(numbers::proofs::Answered::ok_answer), unfolding(protocol::specs::Sound::clock_sound))]
    fn frame_holds(&self) -> bool
        ensures { result ≡ frame_sound self.now.state.now }
    {
        let setup = self.state.setup;
        setups::judge_setup(setup).is_ok()
            && setups::is_clear(setup)
            && setup.start <= self.state.clock
            && self.all_times()
    }

    // The open requests, the waiting jobs and the groups.
    fn locks_hold(&self) -> bool
        ensures { result ≡ locks_sound self.now.state.now }
    {
        self.all_requests() && self.all_waiting() && self.all_groups()
    }

    // Every clause.
    #[tactic(auto, using(crate::proofs::Clauses::sound_parts))]
    fn all_hold(&self) -> bool
        ensures { result ≡ sound self.now.state.now }
    {
        self.frame_holds() && self.locks_hold() && placement_holds(*self.state) && self.all_empty()
    }
}

// Tests a state, and returns the groups' names too, so that they are not computed again.
pub fn test(state: State) -> Tested
    ensures { result ≡ record { passes = sound state; naming = names state.setup } }
{
    let naming = setups::names_of(state.setup);
    let named = Named {
        state: &state,
        naming,
    };
    Tested {
        passes: named.all_hold(),
        naming,
    }
}

// Whether a state is sound.
pub fn is_sound(state: State) -> bool
    ensures { result ≡ sound state }
{
    test(state).passes
}
