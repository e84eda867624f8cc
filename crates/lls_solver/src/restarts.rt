// When a search restarts: where the clauses that it learnt of late are worse than those of all its past (Audemard, Simon,
// *Refining Restarts Strategies for SAT and UNSAT*, 2012; with means of this kind Biere, Fröhlich, *Evaluating CDCL Restart
// Schemes*, 2015).
ghost use Rattle.std.specs.Prelude.{◌≡◌, false};
ghost use Rattle.lls_solver.specs.Restarts.{is_due};

use crate::mean::Mean;

// A mean is of glue times 2^24, so that it has a fraction.
const FRACTION: u32 = 24;

// Clauses of more glue count as of so much.
const MOST_GLUE: usize = 1 << 24;

// How much the last of all clauses weighs at the least in the late mean: one part in so many.
const LATE: u64 = 1 << 5;

// How much it weighs in the mean of the whole past.
const PAST: u64 = 1 << 16;

/// How many conflicts come between two restarts at the least.
pub(crate) const BETWEEN: u32 = 2;

/// By how much the late mean has to be above the other: so many hundredths of it.
pub(crate) const MARGIN: u64 = 120;

/// Means of the glue of learnt clauses, which is the number of their levels.
#[derive(Debug, Drop)]
pub(crate) struct Restarts {
    late: Mean,
    past: Mean,
    /// Conflicts since the last restart, counted up to `BETWEEN`.
    since: u32,
}

impl Restarts {
    pub(crate) fn new() -> Restarts
        ensures { is_due result.late result.past result.since ≡ false }
    {
        Restarts {
            late: Mean::new(LATE),
            past: Mean::new(PAST),
            since: 0,
        }
    }

    /// A clause of so much glue was learnt from a conflict.
    pub(crate) fn learn(&mut self, glue: usize) {
        let number = (glue.min(MOST_GLUE) as u64) << FRACTION;
        self.late.take(number);
        self.past.take(number);
        if self.since < BETWEEN {
            self.since += 1;
        }
    }

    pub(crate) fn is_due(&self) -> bool
        ensures { result ≡ is_due self.now.late self.now.past self.now.since }
    {
        self.since >= BETWEEN && 100 * self.late.value() > MARGIN * self.past.value()
    }

    /// The search restarts.
    pub(crate) fn begin(&mut self)
        ensures { is_due self.new.late self.new.past self.new.since ≡ false }
    {
        self.since = 0;
    }
}
