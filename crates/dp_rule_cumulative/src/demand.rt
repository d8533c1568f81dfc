// What a task demands at some times.

ghost use Rattle.std.specs.Prelude.{◌≡◌, ◌+◌, nat_lt, int_lt};
ghost use Rattle.dp_rule_cumulative.specs.Profiles.{lacks_room};

/// A use that is to fit into the capacity at each time from the first to the last.
#[derive(Clone, Copy, Debug)]
pub struct Demand {
    pub from: i128,
    pub last: i128,
    pub usage: u64,
    pub capacity: u64,
}

impl Demand {
    /// Whether there is no time.
    pub fn is_empty(&self) -> bool
        ensures { result ≡ int_lt self.now.last self.now.from }
    {
        self.last < self.from
    }

    /// Whether the time is one of these, and there is no room beside what is used then.
    pub fn lacks_room(&self, time: i128, used: u128) -> bool
        ensures { result ≡ lacks_room self.now time used }
    {
        self.from <= time && time <= self.last && exceeds(used, self.usage, self.capacity)
    }
}

/// Whether what is used and the use are together more than the capacity.
fn exceeds(used: u128, usage: u64, capacity: u64) -> bool
    ensures { result ≡ nat_lt capacity (used + usage) }
{
    usage > capacity || used > u128::from(capacity - usage)
}
