// Tasks.

ghost use Rattle.std.specs.Prelude.{◌≡◌, length};
ghost use Rattle.dp_domain.specs.Terms.{IsTermOf};
ghost use Rattle.dp_rule_cumulative.specs.Profiles.{IsTime, part_of};
ghost use Rattle.dp_rule_cumulative.specs.Schedules.{earliest_end, earliest_start, latest_start};

use crate::profile::Part;
use crate::{State, Term};

/// A task: when it starts, how long it runs, and how much it uses while it runs.
#[derive(Clone, Copy, Debug, PartialEq, Eq)]
pub struct Task {
    pub start: Term,
    pub duration: u64,
    pub usage: u64,
}

impl Task {
    /// Its earliest start at the state; 0 where it has none.
    pub(crate) fn earliest_start(&self, state: &State) -> i128
        requires { IsTermOf (length state.now) self.now.start }
        ensures start { result ≡ earliest_start state.now self.now }
        ensures time { IsTime 63 result }
    {
        i128::from(self.start.lower(state).unwrap_or(0))
    }

    /// Its latest start at the state; 0 where it has none.
    pub(crate) fn latest_start(&self, state: &State) -> i128
        requires { IsTermOf (length state.now) self.now.start }
        ensures start { result ≡ latest_start state.now self.now }
        ensures time { IsTime 63 result }
    {
        i128::from(self.start.upper(state).unwrap_or(0))
    }

    /// Its earliest end at the state: its duration after its earliest start.
    pub(crate) fn earliest_end(&self, state: &State) -> i128
        requires { IsTermOf (length state.now) self.now.start }
        ensures end { result ≡ earliest_end state.now self.now }
        ensures time { IsTime 65 result }
    {
        self.earliest_start(state) + i128::from(self.duration)
    }

    /// The times at which it runs wherever it starts: from its latest start until its earliest end.
    pub(crate) fn part(&self, state: &State) -> Part
        requires { IsTermOf (length state.now) self.now.start }
        ensures { result ≡ part_of state.now self.now }
    {
        Part {
            from: self.latest_start(state),
            last: self.earliest_end(state) - 1,
            usage: self.usage,
        }
    }
}
