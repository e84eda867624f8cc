// A place that takes bytes, as the standard output does.
ghost use Rattle.std.specs.Prelude.{◌≡◌, ℕ, ◌<◌, ◌≤◌, ◌^◌, List, length, Option, IfOk, OnErr};
ghost use Rattle.std.specs.Io.KnownBytes.{append_known};
ghost use Rattle.lls_base.specs.Faults.{Counts, Rose};
ghost use Rattle.lls_base.specs.Sink.{bytes_taken, TookNone};

/// A call of a sink or a shelf failed, or took nothing where there was something to take.
#[derive(Clone, Copy, Debug, PartialEq, Eq)]
pub struct Failed;

/// A place that takes bytes in their order.
pub trait Sink {
    /// The bytes taken so far, where the sink tells them.
    ghost written: { Self → Option (List ℕ) };

    /// How often a call has failed.
    ghost faults: { Self → ℕ };

    /// Takes some first bytes of the piece, and answers how many.
    fn write(&mut self, bytes: &[u8]) -> Result<usize, Failed>
        ensures within { IfOk result (λ n. n ≤ length bytes.now) }
        ensures written { written self.new ≡ append_known (written self.old) (bytes_taken result bytes.now) }
        ensures counts { Counts (faults self.old) (faults self.new) }

        // `Failed`, and none taken of a piece that isn't empty, are faults. Some taken is none.
        ensures failed { OnErr result (Rose (faults self.old) (faults self.new)) }
        ensures none { TookNone result bytes.now → Rose (faults self.old) (faults self.new) }
        ensures no_fault { IfOk result (λ n. 0 < n → faults self.new ≡ faults self.old) };

    /// A count of faults has 64 bits.
    ghost faults_fit: { (sink : Self) → faults sink < 2 ^ 64 };
}
