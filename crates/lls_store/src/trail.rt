// A trail.
ghost use Rattle.std.specs.Prelude.{◌≡◌, ◌<◌, ◌≤◌, ◌+◌, ◌-◌, if◌then◌else◌, ◌↔◌, true, false, length, take, slice_get, option_map, is_none, is_some, Some, IfOk, IsSome};
ghost use Rattle.lls_lit.specs.Literal.{variable_of};
ghost use Rattle.lls_store.specs.Trail.{Has, HasNegated, IsConsistent, IsUnset, IsTrail, decisions, entry_of, level_of, literals_of, place_of, reason_of};
ghost use Rattle.lls_store.specs.Changes.{taken, cut_to, decided, empty_trail, forced, with_reason};

use crate::rows::{Row, Rows};
use crate::truths::Values;
use lls_base::Memory;
use lls_lit::{Lit, Var};
use std::alloc::Global;
use std::marker::Model;

/// The literals that are true, in the order in which they became so.
///
/// Each was decided, or forced by a clause: its reason. The level of a literal is the number of decisions up to it, with
/// itself. No variable stands twice. Memory is taken once, for all variables.
#[derive(Debug, Drop)]
pub struct Trail {
    vars: u32,
    current: u32,
    lits: Vec<Lit>,
    values: Values,
    rows: Rows,
}

impl Model for Trail {
    ghost use Rattle.std.specs.Prelude.{vec_capacity};
    ghost use Rattle.lls_store.specs.Trail.{TrailState};
    ghost use Rattle.lls_store.specs.Tables.{trail_in, ArePlaced, AreTables};

    ghost Value = { TrailState };

    ghost view = { λ t. trail_in t.vars t.current t.rows.levels t.rows.reasons t.lits.items };

    ghost invariant = { λ t. AreTables (trail_in t.vars t.current t.rows.levels t.rows.reasons t.lits.items) (vec_capacity t.lits) t.values t.rows.levels t.rows.reasons
        × ArePlaced t.vars t.lits.items t.rows.places };
}

impl Trail {
    /// The empty trail of the variables up to `vars`. No other call takes memory.
    pub fn new(alloc: Global, vars: u32) -> Result<Trail, Memory>
        requires { vars ≤ Var.MOST }
        ensures { IfOk result (λ trail. trail ≡ empty_trail vars) }
    {
        let lits = Vec::with_capacity(alloc, vars as usize)?;
        let values = Values::new(alloc, vars)?;
        let rows = Rows::new(alloc, vars)?;
        Ok(Trail {
            vars,
            current: 0,
            lits,
            values,
            rows,
        })
    }

    /// How many literals are true.
    pub fn len(&self) -> usize
        ensures len { result ≡ length self.now.entries }
        ensures kept { IsTrail self.now }
        ensures consistent { IsConsistent self.now.entries }
    {
        self.lits.len()
    }

    /// A true literal, counted from 0 in the order in which they became so.
    pub fn lit(&self, k: usize) -> Lit
        requires { k < length self.now.entries }
        ensures { slice_get (literals_of self.now.entries) k ≡ Some result }
    {
        self.lits[k]
    }

    /// Whether the literal is true or false: None exactly where its variable has no value.
    #[inline]
    pub fn value(&self, lit: Lit) -> Option<bool>
        requires { variable_of lit ≤ self.now.vars }
        ensures is_true { (result ≡ Some true) ↔ Has self.now.entries lit }
        ensures is_false { (result ≡ Some false) ↔ HasNegated self.now.entries lit }
        ensures unset { (result ≡ None) ↔ IsUnset self.now.entries lit }
    {
        self.values.of(lit)
    }

    /// The level of a variable's literal: None exactly where the variable has no value.
    pub fn level(&self, var: Var) -> Option<u32>
        requires { var ≤ self.now.vars }
        ensures { result ≡ level_of self.now.entries var }
    {
        if self.has_value(var) {
            Some(self.known_level(var))
        } else {
            None
        }
    }

    /// The number of the clause that forced a variable's literal: None exactly where the variable has no value or was decided.
    pub fn reason(&self, var: Var) -> Option<u32>
        requires { var ≤ self.now.vars }
        ensures { result ≡ reason_of self.now.entries var }
    {
        if self.has_value(var) {
            self.known_reason(var)
        } else {
            None
        }
    }

    /// Where a variable's literal stands, counted from 0: None exactly where the variable has no value.
    pub fn place(&self, var: Var) -> Option<usize>
        requires { var ≤ self.now.vars }
        ensures { result ≡ place_of self.now.entries var }
    {
        if self.has_value(var) {
            Some(self.known_place(var))
        } else {
            None
        }
    }

    /// The level of a variable's literal, where the variable has a value.
    #[inline]
    pub fn known_level(&self, var: Var) -> u32
        requires { IsSome (entry_of self.now.entries var) }
        ensures { level_of self.now.entries var ≡ Some result }
    {
        self.rows.level(var.index())
    }

    /// The number of the clause that forced a variable's literal, where the variable has a value: None where it was decided.
    #[inline]
    pub fn known_reason(&self, var: Var) -> Option<u32>
        requires { IsSome (entry_of self.now.entries var) }
        ensures { result ≡ reason_of self.now.entries var }
    {
        self.rows.reason(var.index())
    }

    /// Where a variable's literal stands, counted from 0, where the variable has a value.
    #[inline]
    pub fn known_place(&self, var: Var) -> usize
        requires { IsSome (entry_of self.now.entries var) }
        ensures { place_of self.now.entries var ≡ Some result }
    {
        self.rows.place(var.index())
    }

    // Whether the variable has a value.
    fn has_value(&self, var: Var) -> bool
        requires { var ≤ self.now.vars }
        ensures { result ≡ is_some (entry_of self.now.entries var) }
    {
        self.values.of(Lit::new(var, true)).is_some()
    }

    /// The number of decisions.
    pub fn current(&self) -> u32
        ensures current { result ≡ self.now.current }
        ensures kept { IsTrail self.now }
    {
        self.current
    }

    /// Takes a literal that has no value as true, which begins the next level.
    pub fn decide(&mut self, lit: Lit)
        requires within { variable_of lit ≤ self.old.vars }
        requires unset { IsUnset self.old.entries lit }
        ensures { self.new ≡ decided self.old lit }
    {
        let level = self.current + 1;
        self.put(lit, level, None);
    }

    /// Makes a literal that has no value true at the current level, forced by the clause of that number.
    pub fn force(&mut self, lit: Lit, reason: u32)
        requires within { variable_of lit ≤ self.old.vars }
        requires unset { IsUnset self.old.entries lit }
        ensures { self.new ≡ forced self.old lit reason }
    {
        let level = self.current;
        self.put(lit, level, Some(reason));
    }

    /// Takes back every literal above a level, which becomes the current one.
    pub fn cut(&mut self, level: u32)
        requires { level ≤ self.old.current }
        ensures { self.new ≡ cut_to self.old level }
    {
        while self.current() > level {
            self.pop();
        }
    }

    /// Gives the clause of another number as the reason of a variable that has one.
    pub fn set_reason(&mut self, var: Var, reason: u32)
        requires within { var ≤ self.old.vars }
        requires forced { IsSome (reason_of self.old.entries var) }
        ensures { self.new ≡ with_reason self.old var reason }
    {
        self.rows.set_reason(var.index(), Some(reason));
    }

    // Makes a literal that has no value true: at the next level where it has no reason, else at the current one.
    fn put(&mut self, lit: Lit, level: u32, reason: Option<u32>)
        requires within { variable_of lit ≤ self.old.vars }
        requires unset { IsUnset self.old.entries lit }
        requires level { level ≡ self.old.current + (if is_none reason then 1 else 0) }
        ensures { self.new ≡ taken self.old lit level reason }
    {
        let index = lit.var().index();
        let place = self.lits.len() as u32;
        self.current = level;
        self.lits.push_reserved(lit);
        self.values.set(lit);
        self.rows.write(
            index,
            Row {
                level,
                place,
                reason,
            },
        );
    }

    // Takes back the last literal.
    fn pop(&mut self)
        requires { 0 < length self.old.entries }
        ensures { self.new ≡ record self.old {
          current = decisions (take (length self.old.entries - 1) self.old.entries);
          entries = take (length self.old.entries - 1) self.old.entries;
        } }
    {
        if let Some(lit) = self.lits.pop() {
            let index = lit.var().index();
            if self.rows.reason(index).is_none() {
                self.current -= 1;
            }
            self.values.clear(lit);
        }
    }
}
