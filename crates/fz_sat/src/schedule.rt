//! Tasks that share a capacity.

ghost use Rattle.std.specs.Prelude.{◌≡◌, ◌^◌, ◌*◌, ◌<◌, length, min, FitsSigned, ℤ, pos, ◌+ℤ◌, ℕ};
ghost use Rattle.fz_sat.specs.Globals.{keeps_around, keeps_at, keeps_capacity, runs_at, usage_at};
ghost use Rattle.fz_sat.specs.Meaning.{given, schedule_of};
ghost use Rattle.fz_sat.specs.Satisfies.{valuation, value_of};
ghost use Rattle.fz_sat.specs.Schedules.{HasTask, element_at, element_tasks, task_at, triple_at, used_by};

use crate::row::{Row, value_of};
use fz_model::{Basic, Item};

/// The elements that give the starts, durations and uses of tasks, and how much the tasks may use together.
#[derive(Clone, Copy)]
struct Schedule<'a> {
    items: &'a [Item],
    values: &'a [i64],
    starts: &'a [Basic],
    durations: &'a [Basic],
    uses: &'a [Basic],
    capacity: i64,
}

impl<'a> Schedule<'a> {
    /// How many tasks there are: as many as each array has elements for.
    fn len(&self) -> usize
        ensures { result ≡ min (length self.now.starts.now) (min (length self.now.durations.now) (length self.now.uses.now)) }
    {
        self.starts
            .len()
            .min(self.durations.len().min(self.uses.len()))
    }

    /// The time at which the task starts.
    fn start(&self, place: usize) -> i64
        requires { HasTask self.now.starts.now self.now.durations.now self.now.uses.now place }
        ensures { result ≡ value_of self.now.items.now (valuation self.now.values.now) (element_at self.now.starts.now place) }
    {
        value_of(self.items, self.values, self.starts[place])
    }

    /// The time at which the task no longer runs.
    fn end(&self, place: usize) -> i128
        requires { HasTask self.now.starts.now self.now.durations.now self.now.uses.now place }
        ensures { let s = valuation self.now.values.now in
            result ≡ value_of self.now.items.now s (element_at self.now.starts.now place) +ℤ value_of self.now.items.now s (element_at self.now.durations.now place) }
    {
        i128::from(self.start(place))
            + i128::from(value_of(self.items, self.values, self.durations[place]))
    }

    /// Whether the task runs at the time.
    fn runs_at(&self, time: i128, place: usize) -> bool
        requires { HasTask self.now.starts.now self.now.durations.now self.now.uses.now place }
        ensures { let task = triple_at self.now.starts.now self.now.durations.now self.now.uses.now place in
            result ≡ runs_at time (task_at self.now.items.now (valuation self.now.values.now) task) }
    {
        i128::from(self.start(place)) <= time && time < self.end(place)
    }

    /// How much the task uses at the time.
    fn used_by(&self, time: i128, place: usize) -> i64
        requires { HasTask self.now.starts.now self.now.durations.now self.now.uses.now place }
        ensures { let task = triple_at self.now.starts.now self.now.durations.now self.now.uses.now place in
            result ≡ used_by time (task_at self.now.items.now (valuation self.now.values.now) task) }
    {
        if self.runs_at(time, place) {
            value_of(self.items, self.values, self.uses[place])
        } else {
            0
        }
    }

    /// How much the tasks that run at the time use together.
    fn usage_at(&self, time: i128) -> i128
        ensures { let s = valuation self.now.values.now in
            result ≡ usage_at time (element_tasks self.now.items.now s self.now.starts.now self.now.durations.now self.now.uses.now) }
    {
        let mut usage = 0;
        for place in 0..self.len() {
            usage += i128::from(self.used_by(time, place));
        }
        usage
    }

    /// Whether the tasks that run at the time keep the capacity.
    fn keeps_at(&self, time: i128) -> bool
        ensures { let s = valuation self.now.values.now in
            result ≡ keeps_at (element_tasks self.now.items.now s self.now.starts.now self.now.durations.now self.now.uses.now) self.now.capacity time }
    {
        self.usage_at(time) <= i128::from(self.capacity)
    }

    /// Whether the tasks keep the capacity where this one starts and where it ends.
    fn keeps_around(&self, place: usize) -> bool
        requires { HasTask self.now.starts.now self.now.durations.now self.now.uses.now place }
        ensures { let s = valuation self.now.values.now in
            let tasks = element_tasks self.now.items.now s self.now.starts.now self.now.durations.now self.now.uses.now in
            let task = triple_at self.now.starts.now self.now.durations.now self.now.uses.now place in
            result ≡ keeps_around tasks self.now.capacity (task_at self.now.items.now s task) }
    {
        self.keeps_at(i128::from(self.start(place))) && self.keeps_at(self.end(place))
    }

    /// Whether the tasks keep the capacity at all times: where none runs, and wherever one starts or ends.
    fn keeps(&self) -> bool
        ensures { let s = valuation self.now.values.now in
            result ≡ keeps_capacity (element_tasks self.now.items.now s self.now.starts.now self.now.durations.now self.now.uses.now) self.now.capacity }
    {
        if self.capacity < 0 {
            return false;
        }
        for place in 0..self.len() {
            if !self.keeps_around(place) {
                return false;
            }
        }
        true
    }
}

/// Whether the tasks with the starts, durations and uses of arguments 0, 1 and 2 keep the capacity of argument 3.
pub fn schedule_holds(row: &Row) -> bool
    ensures { result ≡ schedule_of (given row.now.items.now row.now.args.now (valuation row.now.values.now)) }
{
    let schedule = Schedule {
        items: row.items,
        values: row.values,
        starts: row.elements(0),
        durations: row.elements(1),
        uses: row.elements(2),
        capacity: row.number(3),
    };
    schedule.keeps()
}
