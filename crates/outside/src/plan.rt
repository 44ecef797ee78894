//! Which calls of a shelf or a sink fail.

ghost use Rattle.std.specs.Prelude.{◌≡◌, ◌+◌, ◌-◌, ◌^◌, min};
ghost use Rattle.outside.specs.Outside.{is_planned};

/// Those whose numbers, counted from 0, are in `fails`.
#[derive(Drop)]
pub(crate) struct Plan {
    calls: u64,
    fails: Vec<u64>,
}

impl Plan {
    /// No call has come so far.
    pub(crate) fn new(fails: Vec<u64>) -> Plan
        ensures calls { result.calls ≡ 0 }
        ensures fails { result.fails ≡ fails }
    {
        Plan { calls: 0, fails }
    }

    /// Whether the call that comes now fails. It is counted.
    pub(crate) fn fails_now(&mut self) -> bool
        ensures planned { result ≡ is_planned self.old.fails.items self.old.calls }
        ensures calls { self.new.calls ≡ min (self.old.calls + 1) (2 ^ 64 - 1) }
        ensures fails { self.new.fails ≡ self.old.fails }
    {
        let fails = self.fails.contains(&self.calls);
        self.calls = self.calls.saturating_add(1);
        fails
    }
}
