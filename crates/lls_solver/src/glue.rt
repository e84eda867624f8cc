// How many levels the literals of a clause are of.
ghost use Rattle.std.specs.Prelude.{◌≡◌, ◌≤◌, ◌+◌, IfOk, length};
ghost use Rattle.lls_analyse.specs.Valued.{HaveValues};

use lls_base::Memory;
use lls_lit::{Lit, Var};
use lls_store::Trail;
use std::alloc::Global;

/// A stamp by level, for counting levels: a level was met where its stamp is the newest.
#[derive(Debug, Drop)]
pub(crate) struct LevelStamps {
    pub(crate) stamps: Vec<u32>,
    stamp: u32,
}

impl LevelStamps {
    /// For the levels that trails of so many variables have. No other call takes memory.
    pub(crate) fn new(alloc: Global, vars: u32) -> Result<LevelStamps, Memory>
        requires { vars ≤ Var.MOST }
        ensures { IfOk result (λ levels. length levels.stamps.items ≡ vars + 1) }
    {
        let stamps = vec![in alloc; 0; vars as usize + 1]?;
        Ok(LevelStamps { stamps, stamp: 0 })
    }

    /// The glue of a clause whose literals have values: how many levels they are of.
    pub(crate) fn glue(&mut self, trail: &Trail, lits: &[Lit]) -> usize
        requires stamps { length self.old.stamps.items ≡ trail.now.vars + 1 }
        requires have_values { HaveValues trail.now.entries lits.now }
        ensures stamps { length self.new.stamps.items ≡ length self.old.stamps.items }
        ensures most { result ≤ length lits.now }
    {
        // What holds of every trail is known from here on.
        trail.current();
        // After 2^32 clauses a stamp is used again.
        self.stamp = self.stamp.wrapping_add(1);
        let mut glue = 0;
        for lit in lits {
            let level = trail.known_level(lit.var()) as usize;
            if self.stamps[level] != self.stamp {
                self.stamps[level] = self.stamp;
                glue += 1;
            }
        }
        glue
    }
}
