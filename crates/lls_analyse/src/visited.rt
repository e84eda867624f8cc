// What an analysis knows of each variable.
ghost use Rattle.std.specs.Prelude.{pos, if◌then◌else◌, ◌≡◌, ◌<◌, ◌≤◌, ◌+◌, ◌-◌, ◌∷◌, ◌++◌, [], true, false, length, take, count_by, slice_set, slice_index_or, replicate, IfOk};
ghost use Rattle.lls_lit.specs.Literal.{variable_of};
ghost use Rattle.lls_analyse.specs.Visited.{AreVisited, is_kept, is_open, is_seen, status_of};

use lls_base::Memory;
use lls_lit::{Lit, Var};
use std::alloc::Global;
use std::marker::Model;

// What is known of a variable.
#[derive(Clone, Copy, Debug, PartialEq, Eq, Drop)]
pub(crate) enum Seen {
    // Nothing.
    No,
    // Its false literal is of the clause, and of the current level.
    Open,
    // Its false literal is of the clause, and of a lower level.
    Kept,
    // Its false literal gave way to the others of the clause that forced the negation.
    Followed,
}

// What is known of each variable, and the false literals that were visited: one of each variable of which something is known.
#[derive(Debug, Drop)]
pub(crate) struct Visited {
    vars: u32,
    seen: Vec<Seen>,
    lits: Vec<Lit>,
    opens: u32,
}

impl Model for Visited {
    ghost use Rattle.std.specs.Prelude.{vec_capacity};
    ghost use Rattle.lls_analyse.specs.Visited.{VisitedState, AreKept};

    ghost Value = { VisitedState };

    ghost view = { λ v. record { vars = v.vars; seen = v.seen.items; lits = v.lits.items } };

    ghost invariant = { λ v. AreKept (record { vars = v.vars; seen = v.seen.items; lits = v.lits.items }) (vec_capacity v.lits) v.opens };
}

impl Visited {
    // Nothing is known. No other call takes memory.
    pub(crate) fn new(alloc: Global, vars: u32) -> Result<Visited, Memory>
        requires { vars ≤ Var.MOST }
        ensures { IfOk result (λ v. v ≡ record { vars = vars; seen = replicate vars Seen.No; lits = [] }) }
    {
        let seen = vec![in alloc; Seen::No; vars as usize]?;
        let lits = Vec::with_capacity(alloc, vars as usize)?;
        Ok(Visited {
            vars,
            seen,
            lits,
            opens: 0,
        })
    }

    // The literals that were visited.
    pub(crate) fn lits(&self) -> &[Lit]
        ensures lits { result.now ≡ self.now.lits }
        ensures visited { AreVisited self.now }
    {
        self.lits.as_slice()
    }

    // How many literals of the clause are of the current level.
    pub(crate) fn opens(&self) -> u32
        ensures opens { result ≡ count_by is_open self.now.seen }
        ensures visited { AreVisited self.now }
    {
        self.opens
    }

    pub(crate) fn seen(&self, var: Var) -> Seen
        requires { var ≤ self.now.vars }
        ensures { result ≡ status_of self.now.seen var }
    {
        self.seen[var.index()]
    }

    // Whether something is known of a variable.
    pub(crate) fn is_seen(&self, var: Var) -> bool
        requires { var ≤ self.now.vars }
        ensures is_seen { result ≡ is_seen (status_of self.now.seen var) }
        ensures visited { AreVisited self.now }
    {
        match self.seen[var.index()] {
            Seen::No => false,
            Seen::Open | Seen::Kept | Seen::Followed => true,
        }
    }

    // Whether the variable's false literal is of the clause, and of the current level.
    pub(crate) fn is_open(&self, var: Var) -> bool
        requires { var ≤ self.now.vars }
        ensures { result ≡ is_open (status_of self.now.seen var) }
    {
        match self.seen(var) {
            Seen::Open => true,
            Seen::No | Seen::Kept | Seen::Followed => false,
        }
    }

    // Whether the variable's false literal is of the clause, and of a lower level.
    pub(crate) fn is_kept(&self, var: Var) -> bool
        requires { var ≤ self.now.vars }
        ensures { result ≡ is_kept (status_of self.now.seen var) }
    {
        match self.seen(var) {
            Seen::Kept => true,
            Seen::No | Seen::Open | Seen::Followed => false,
        }
    }

    // Visits a literal of whose variable nothing is known.
    pub(crate) fn visit(&mut self, lit: Lit, seen: Seen)
        requires within { variable_of lit ≤ self.old.vars }
        requires new { is_seen (status_of self.old.seen (variable_of lit)) ≡ false }
        requires seen { is_seen seen ≡ true }
        ensures { self.new ≡ record self.old {
          seen = slice_set self.old.seen (variable_of lit - 1) seen;
          lits = self.old.lits ++ lit ∷ [];
        } }
    {
        let place = lit.var().index();
        self.seen[place] = seen;
        self.opens += one_if_open(seen);
        self.lits.push_reserved(lit);
    }

    // An open literal gives way to others.
    pub(crate) fn follow(&mut self, var: Var)
        requires within { var ≤ self.old.vars }
        requires is_open { status_of self.old.seen var ≡ Seen.Open }
        ensures { self.new ≡ record self.old { seen = slice_set self.old.seen (var - 1) Seen.Followed } }
    {
        self.seen[var.index()] = Seen::Followed;
        self.opens -= 1;
    }

    // A literal that is kept gives way to others.
    pub(crate) fn release(&mut self, var: Var)
        requires within { var ≤ self.old.vars }
        requires is_kept { status_of self.old.seen var ≡ Seen.Kept }
        ensures { self.new ≡ record self.old { seen = slice_set self.old.seen (var - 1) Seen.Followed } }
    {
        self.seen[var.index()] = Seen::Followed;
    }

    // A literal that gave way is kept after all.
    pub(crate) fn keep(&mut self, var: Var)
        requires within { var ≤ self.old.vars }
        requires is_followed { status_of self.old.seen var ≡ Seen.Followed }
        ensures { self.new ≡ record self.old { seen = slice_set self.old.seen (var - 1) Seen.Kept } }
    {
        self.seen[var.index()] = Seen::Kept;
    }

    // Forgets the last literal that was visited.
    pub(crate) fn forget(&mut self)
        requires { 0 < length self.old.lits }
        ensures { self.new ≡ record self.old {
          seen = slice_set self.old.seen (variable_of (slice_index_or self.old.lits (length self.old.lits - 1) (pos 0)) - 1) Seen.No;
          lits = take (length self.old.lits - 1) self.old.lits;
        } }
    {
        if let Some(lit) = self.lits.pop() {
            let place = lit.var().index();
            self.opens -= one_if_open(self.seen[place]);
            self.seen[place] = Seen::No;
        }
    }
}

fn one_if_open(seen: Seen) -> u32
    ensures { result ≡ (if is_open seen then 1 else 0) }
{
    match seen {
        Seen::Open => 1,
        Seen::No | Seen::Kept | Seen::Followed => 0,
    }
}
