// Which calls of a double in memory are to fail.
ghost use Rattle.std.specs.Prelude.{◌≡◌};

/// Calls by their numbers, from 1 on, and how many there have been.
#[derive(Drop)]
pub struct Schedule {
    pub listed: Vec<u64>,
    pub calls: u64,
}

impl Schedule {
    ghost use Rattle.lls_base.specs.Schedule.{after_call, is_due};

    pub fn new(listed: Vec<u64>) -> Self
        ensures { result ≡ record { listed = listed; calls = 0 } }
    {
        Schedule { listed, calls: 0 }
    }

    /// Counts a call, and says whether it is to fail.
    pub fn strikes(&mut self) -> bool
        ensures due { result ≡ is_due self.old }
        ensures counted { self.new ≡ after_call self.old }
    {
        self.calls = self.calls.saturating_add(1);
        self.listed.contains(&self.calls)
    }
}
