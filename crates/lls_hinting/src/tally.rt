// How many deletions of a proof were passed over.
ghost use Rattle.std.specs.Prelude.{◌≡◌, ◌+◌, ◌<◌, ◌^◌};

/// How many deletions of a proof were passed over: those of clauses that forced a literal, and those of clauses that aren't known.
#[derive(Clone, Copy, Debug, PartialEq, Eq)]
pub struct Tally {
    pub reasons: u64,
    pub unknown: u64,
}

impl Tally {
    pub fn new() -> Tally
        ensures { result ≡ record { reasons = 0; unknown = 0 } }
    {
        Tally {
            reasons: 0,
            unknown: 0,
        }
    }

    /// One more of the first.
    pub fn pass_reason(&mut self)
        requires { self.old.reasons + 1 < 2 ^ 64 }
        ensures reasons { self.new.reasons ≡ self.old.reasons + 1 }
        ensures unknown { self.new.unknown ≡ self.old.unknown }
    {
        self.reasons += 1;
    }

    /// One more of the second.
    pub fn pass_unknown(&mut self)
        requires { self.old.unknown + 1 < 2 ^ 64 }
        ensures reasons { self.new.reasons ≡ self.old.reasons }
        ensures unknown { self.new.unknown ≡ self.old.unknown + 1 }
    {
        self.unknown += 1;
    }
}
