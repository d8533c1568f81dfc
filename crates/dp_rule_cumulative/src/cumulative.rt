// Tasks that share a capacity.

ghost use Rattle.std.specs.Prelude.{◌≡◌, IfErr, IfOk};
ghost use Rattle.dp_rule_cumulative.specs.Refusals.{IsProper, IsRefused};
ghost use Rattle.dp_rule_cumulative.specs.Schedules.{given, schedule_of};
ghost use Rattle.dp_rule_cumulative.specs.TimeTable.{ClashesCumulative, MeetsCumulative, face_cumulative};
ghost use Rattle.dp_rule_cumulative.specs.TimeTableLaws.{cumulative_deciding, cumulative_exact, cumulative_lawful, cumulative_sound};

use crate::profile::{is_exceeded, parts_of};
use crate::turn::{turn, variable_count};
use crate::{Atom, Found, Memory, Rule, State, Steps, Task, TaskRefusal, Term, Test, VarId, given};
use dp_domain::{Dom, Scratch, search_explanation, search_turn, term_scope};
use std::alloc::Global;
use std::marker::Model;
use std::sync::ledger::Ledger;

/// At each time the tasks that run use at most the capacity.
#[derive(Debug, Drop)]
pub struct Cumulative {
    tasks: Vec<Task>,
    capacity: u64,
    scope: Vec<VarId>,
}

impl Model for Cumulative {
    ghost use Rattle.std.specs.Prelude.{◌≡◌};
    ghost use Rattle.dp_domain.specs.Terms.{term_scope};
    ghost use Rattle.dp_rule_cumulative.specs.Schedules.{Schedule, starts};

    ghost Value = { Schedule };

    ghost view = { λ q. record { tasks = q.tasks.items; capacity = q.capacity } };

    ghost invariant = { λ q. q.scope.items ≡ term_scope (starts q.tasks.items) };
}

impl Cumulative {
    /// The constraint, or the first refusal that applies: `BadLength` where there are not as many
    /// durations and uses as starts; `TooMany` above 2,000,000 tasks; `BadTask` at the first place,
    /// counted from 0, with a duration or a use outside 0..10^9; `BadCapacity` outside 0..10^9; `Memory`.
    pub fn new(
        alloc: Global,
        starts: Vec<Term>,
        durations: Vec<i64>,
        uses: Vec<i64>,
        capacity: i64,
    ) -> Result<Cumulative, TaskRefusal>
        ensures made { IfOk result (λ q. q ≡ schedule_of (given starts.items durations.items uses.items capacity)) }
        ensures proper { IfOk result (λ q. IsProper (given starts.items durations.items uses.items capacity)) }
        ensures refused { IfErr result (λ refusal. IsRefused refusal (given starts.items durations.items uses.items capacity)) }
    {
        given::check(&starts, &durations, &uses, capacity)?;
        let tasks = given::tasks_of(alloc, &starts, &durations, &uses)?;
        let scope = term_scope(alloc, &starts)?;
        Ok(Cumulative {
            tasks,
            capacity: capacity.unsigned_abs(),
            scope,
        })
    }

    /// Its tasks.
    pub fn tasks(&self) -> &[Task]
        ensures { result.now ≡ self.now.tasks }
    {
        self.tasks.as_slice()
    }

    /// How much the tasks may use together at any time.
    pub fn capacity(&self) -> u64
        ensures { result ≡ self.now.capacity }
    {
        self.capacity
    }
}

impl Test for Cumulative {
    ghost face = { face_cumulative };

    ghost clashes = { ClashesCumulative };

    ghost meets = { MeetsCumulative };

    ghost exact = { cumulative_exact };

    ghost lawful = { cumulative_lawful };

    ghost sound = { cumulative_sound };

    ghost deciding = { cumulative_deciding };

    fn scope_len(&self) -> usize {
        self.scope.len()
    }

    fn scope_at(&self, place: usize) -> VarId {
        self.scope.as_slice()[place]
    }

    fn is_point(&self, _var: VarId, _value: i64) -> bool {
        false
    }

    fn candidates(&self, _var: VarId, state: &State) -> Result<Dom, Memory> {
        Dom::range(state.allocator(), 1, 0)
    }

    fn clash(&self, state: &State) -> Result<bool, Memory> {
        let parts = parts_of(self.tasks.as_slice(), state)?;
        Ok(state.dead() || is_exceeded(parts.as_slice(), self.capacity))
    }
}

impl Rule for Cumulative {
    fn next<L: Ledger>(
        &self,
        state: &State,
        steps: &mut Steps<L>,
    ) -> Result<Option<Found>, Memory> {
        if variable_count(self.tasks.as_slice()) != self.scope_len() {
            return search_turn(self, state, steps);
        }
        steps.tick();
        turn(self.tasks.as_slice(), self.capacity, state)
    }

    fn explain(
        &self,
        initial: &State,
        work: &mut Scratch,
        now: &State,
        target: Option<Atom>,
    ) -> Result<Vec<Atom>, Memory> {
        search_explanation(self, initial, work, now, target)
    }
}
