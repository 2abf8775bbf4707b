// A state with the names of its groups, and what the clauses read of it: a record or a number at any place, past the
// tables' ends too.
ghost use Rattle.std.specs.Prelude.{◌≡◌, take};
ghost use Rattle.input.specs.Words.{kind as kind_of};
ghost use Rattle.setups.specs.Naming.{names, group_of};
ghost use Rattle.protocol.specs.Words.{task as task_record, group as group_record, stand, asked, holder};

use input::Setup;
use protocol::{Group, State, Task};

// A state, and the name of each resource's group, which are computed once.
#[derive(Clone, Copy)]
pub struct Named<'a> {
    pub state: &'a State,
    pub naming: [u8; Setup::RESOURCES],
    ghost named: { naming ≡ names state.now.setup },
}

impl Named<'_> {
    // The record of task `t`; past the table, that of no task.
    pub fn task(&self, t: u8) -> Task
        ensures { result ≡ task_record self.now.state.now t }
    {
        search::entry(&self.state.tasks, t as usize, states::no_task())
    }

    // The record of group `g`; past the table, that of no group.
    pub fn group(&self, g: u8) -> Group
        ensures { result ≡ group_record self.now.state.now g }
    {
        search::entry(&self.state.groups, g as usize, states::no_group())
    }

    // The number of the standing of task `t`.
    #[tactic(auto, unfolding(protocol::specs::Words::stand))]
    pub fn stand(&self, t: u8) -> u8
        ensures { result ≡ stand self.now.state.now t }
    {
        states::stand_of(self.task(t).standing)
    }

    // The resource that the waiting job of task `t` asked for, or nothing.
    #[tactic(auto, unfolding(protocol::specs::Words::asked))]
    pub fn asked(&self, t: u8) -> u8
        ensures { result ≡ asked self.now.state.now t }
    {
        states::asked_of(self.task(t).standing)
    }

    // The holder of group `g`, or nobody.
    #[tactic(auto, unfolding(protocol::specs::Words::holder))]
    pub fn holder(&self, g: u8) -> u8
        ensures { result ≡ holder self.now.state.now g }
    {
        self.group(g).holder
    }

    // The kind of resource `r`; short past the table.
    pub fn kind_of(&self, r: u8) -> u8
        ensures { result ≡ kind_of self.now.state.now.setup r }
    {
        search::entry(&self.state.setup.kinds, r as usize, Setup::SHORT)
    }

    // The name of the group of resource `r`, or nothing.
    #[tactic(auto, unfolding(setups::specs::Naming::group_of))]
    pub fn group_of(&self, r: u8) -> u8
        ensures { result ≡ group_of self.now.state.now.setup r }
    {
        numbers::number_at(&self.naming, r as usize)
    }
}

// The open requests of a task, oldest first; every place where more are said to be open than there are places.
pub fn opened_by(task: &Task) -> &[u8]
    ensures { result.now ≡ take task.now.depth task.now.requests }
{
    &task.requests[..task.depth.min(Task::REQUESTS)]
}
