// When a steady search restarts: where so many conflicts came since the last restart as 1,024 times the next of the Luby numbers.
ghost use Rattle.std.specs.Prelude.{◌≡◌};

use lls_order::luby;

// Conflicts for each one of a Luby number.
const EACH: u64 = 1 << 10;

/// How many conflicts came since the last restart, and how many restarts.
#[derive(Debug, Drop)]
pub(crate) struct RareRestarts {
    since: u64,
    restarts: u32,
}

impl RareRestarts {
    pub(crate) fn new() -> RareRestarts
        ensures { result ≡ record { since = 0; restarts = 0 } }
    {
        RareRestarts {
            since: 0,
            restarts: 0,
        }
    }

    /// A clause was learnt from a conflict.
    pub(crate) fn learn(&mut self)
        ensures { self.new.restarts ≡ self.old.restarts }
    {
        self.since = self.since.saturating_add(1);
    }

    pub(crate) fn is_due(&self) -> bool {
        self.since / EACH >= luby(u64::from(self.restarts) + 1)
    }

    /// The search restarts.
    pub(crate) fn begin(&mut self)
        ensures { self.new.since ≡ 0 }
    {
        self.since = 0;
        self.restarts = self.restarts.saturating_add(1);
    }
}
