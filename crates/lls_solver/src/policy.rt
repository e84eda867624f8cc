// What a search goes by where its contracts leave it free: when it restarts, when it forgets clauses, and which.
ghost use Rattle.std.specs.Prelude.{◌≡◌, ◌≤◌, ◌<◌, ◌+◌, ◌-◌, List, All, IfOk, OnErr, OnOk, length};
ghost use Rattle.lls_store.specs.Trail.{Entry};
ghost use Rattle.lls_analyse.specs.Valued.{HaveValues};

use crate::glue::LevelStamps;
use crate::manner::Manner;
use crate::rare_restarts::RareRestarts;
use crate::restarts::Restarts;
use lls_base::Memory;
use lls_lit::{Lit, Var};
use lls_store::Trail;
use std::alloc::Global;
use std::marker::Model;

// So many learnt clauses are live at the least where the first half of them is forgotten.
const FIRST_ROUND: u64 = 64;

// So many more at each round after that.
const MORE_EACH_ROUND: u64 = 512;

/// Seen as the number of variables, and the number of clauses of which it knows whether conflicts came by them.
#[derive(Debug, Drop)]
pub(crate) struct Policy {
    manner: Manner,
    levels: LevelStamps,
    restarts: Restarts,
    rare_restarts: RareRestarts,
    /// By number, whether a conflict came by the clause since the last round.
    used: Vec<bool>,
    rounds: u32,
}

impl Model for Policy {
    ghost use Rattle.std.specs.Prelude.{◌≡◌, ◌-◌, ◌≤◌, length};
    ghost use Rattle.lls_solver.specs.Policy.{PolicyState};

    ghost Value = { PolicyState };

    ghost view = { λ p. record { levels = length p.levels.stamps.items; clauses = length p.used.items } };
}

impl Policy {
    /// For so many variables and clauses, none of which was used.
    pub(crate) fn new(
        alloc: Global,
        vars: u32,
        clauses: usize,
        manner: Manner,
    ) -> Result<Policy, Memory>
        requires { vars ≤ Var.MOST }
        ensures { IfOk result (λ policy. policy ≡ record { levels = vars + 1; clauses = clauses }) }
    {
        let levels = LevelStamps::new(alloc, vars)?;
        let used = vec![in alloc; false; clauses]?;
        Ok(Policy {
            manner,
            levels,
            restarts: Restarts::new(),
            rare_restarts: RareRestarts::new(),
            used,
            rounds: 0,
        })
    }

    /// Knows of the clause of the next number, which is used.
    pub(crate) fn add_clause(&mut self) -> Result<(), Memory>
        ensures ok { OnOk result (self.new ≡ record self.old { clauses = self.old.clauses + 1 }) }
        ensures err { OnErr result (self.new ≡ self.old) }
    {
        self.used.push(true)?;
        Ok(())
    }

    /// Knows no more of the clause of the last number.
    pub(crate) fn drop_clause(&mut self)
        requires { 0 < self.old.clauses }
        ensures { self.new ≡ record self.old { clauses = self.old.clauses - 1 } }
    {
        self.used.pop();
    }

    /// A clause of these literals, all of which have values, was learnt from a conflict that was resolved with the clauses of these
    /// numbers.
    pub(crate) fn learn(&mut self, trail: &Trail, lits: &[Lit], resolved: &[u32])
        requires levels { self.old.levels ≡ trail.now.vars + 1 }
        requires have_values { HaveValues trail.now.entries lits.now }
        requires resolved { All (λ c. c < self.old.clauses) resolved.now }
        ensures { self.new ≡ self.old }
    {
        mark_used(&mut self.used, resolved);
        self.restarts.learn(self.levels.glue(trail, lits));
        self.rare_restarts.learn();
    }

    /// Those of a learnt clause's literals where the search goes on with the clauses that forced their negations: all but the first, or none.
    pub(crate) fn followed<'l>(&self, lits: &'l [Lit]) -> &'l [Lit]
        ensures { (entries : List Entry) → HaveValues entries lits.now → HaveValues entries result.now }
    {
        match self.manner {
            Manner::Restless => &[],
            Manner::Steady | Manner::Aiming => &lits[lits.len().min(1)..],
        }
    }

    /// Whether the search should restart.
    pub(crate) fn wants_restart(&self) -> bool {
        match self.manner {
            Manner::Restless => self.restarts.is_due(),
            Manner::Steady | Manner::Aiming => self.rare_restarts.is_due(),
        }
    }

    /// The search restarts.
    pub(crate) fn restart(&mut self)
        ensures { self.new ≡ self.old }
    {
        self.restarts.begin();
        self.rare_restarts.begin();
    }

    /// Whether the search should forget the half of so many learnt clauses.
    pub(crate) fn wants_round(&self, learnt: u64) -> bool {
        learnt >= FIRST_ROUND + MORE_EACH_ROUND * u64::from(self.rounds)
    }

    /// Whether a conflict came by the clause of each number since the last round.
    pub(crate) fn used(&self) -> &[bool]
        ensures { length result.now ≡ self.now.clauses }
    {
        self.used.as_slice()
    }

    /// A round ended, which left so many clauses.
    pub(crate) fn end_round(&mut self, clauses: usize)
        requires { clauses ≤ self.old.clauses }
        ensures { self.new ≡ record self.old { clauses = clauses } }
    {
        self.used.truncate(clauses);
        self.used.as_mut_slice().fill(false);
        self.rounds = self.rounds.saturating_add(1);
    }
}

// The clauses of these numbers are used.
fn mark_used(used: &mut [bool], numbers: &[u32])
    requires { All (λ c. c < length used.old) numbers.now }
    ensures { length used.new ≡ length used.old }
{
    for c in numbers {
        used[*c as usize] = true;
    }
}
