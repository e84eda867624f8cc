// What a double in memory has counted.
ghost use Rattle.std.specs.Prelude.{◌≡◌, ◌<◌, ◌^◌, ℕ};
ghost use Rattle.lls_base.specs.Faults.{Counts, Rose};

/// Failed calls, and those among them that lacked memory.
#[derive(Clone, Copy, Debug)]
pub struct Tally {
    pub faults: u64,
    pub lacked: u64,
    ghost faults_fit: { faults < 2 ^ 64 },
    ghost lacked_fits: { lacked < 2 ^ 64 },
}

impl Tally {
    pub const NONE: Tally = Tally {
        faults: 0,
        lacked: 0,
    };

    /// A call failed that was to fail.
    pub fn fail(&mut self)
        ensures faults { Rose self.old.faults self.new.faults }
        ensures counts { Counts self.old.faults self.new.faults }
        ensures lacked { self.new.lacked ≡ self.old.lacked }
    {
        self.faults = self.faults.saturating_add(1);
    }

    /// A call failed for want of memory.
    pub fn lack(&mut self)
        ensures faults { Rose self.old.faults self.new.faults }
        ensures counts { Counts self.old.faults self.new.faults }
        ensures lacked { Rose self.old.lacked self.new.lacked }
        ensures lacked_counts { Counts self.old.lacked self.new.lacked }
    {
        self.fail();
        self.lacked = self.lacked.saturating_add(1);
    }
}
