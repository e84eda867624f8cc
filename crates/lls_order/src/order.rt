//! An order of decisions.
ghost use Rattle.std.specs.Prelude.{◌≡◌, ◌<◌, ◌≤◌, ◌↔◌, ◌^◌, true, IfNone, IfOk, IfSome};
ghost use Rattle.lls_order.specs.Order.{activity_of, is_in, ComesBefore, IsEmpty, IsGreatest};
ghost use Rattle.lls_order.specs.Changes.{bumped, halved, new_order, put_in, raised, taken_out};

use crate::queue::{
    cursor_behind, first_inside, foremost, greater_numbers, halve_all, is_greater, lesser_numbers,
    link_by_rank, raise,
};
use lls_base::Memory;
use lls_lit::Var;
use std::alloc::Global;
use std::marker::Model;

/// The greatest activity of a variable, 2^60.
pub const MOST_ACTIVITY: u64 = 1 << 60;

/// Variables with activities, of which those that are in come out by activity: the solver's order of decisions.
///
/// What is bumped becomes the last of a queue, and of those that are in the one nearest to its end comes out first (Ryan,
/// *Efficient Algorithms for Clause-Learning SAT Solvers*, 2004; with stamps Biere, Fröhlich, *Evaluating CDCL Variable Scoring
/// Schemes*, 2015). The activities are the stamps.
#[derive(Debug, Drop)]
pub struct Order {
    vars: u32,
    activities: Vec<u64>,
    inside: Vec<bool>,
    // A ring of all variables and of 0: from each number to that of the next lesser rank, and to that of the next greater.
    previous: Vec<u32>,
    next: Vec<u32>,
    // No variable of greater rank is in.
    cursor: u32,
    // No activity is greater.
    top: u64,
}

impl Model for Order {
    ghost use Rattle.lls_order.specs.Order.{OrderState};
    ghost use Rattle.lls_order.specs.Queue.{order_in, AreParts};

    ghost Value = { OrderState };

    ghost view = { λ o. order_in o.vars o.activities.items o.inside.items o.top };

    ghost invariant = { λ o. AreParts o.vars o.activities.items o.inside.items o.previous.items o.next.items o.cursor o.top };
}

impl Order {
    /// All variables up to `vars`, without activity. No other call takes memory.
    pub fn new(alloc: Global, vars: u32) -> Result<Order, Memory>
        requires { vars ≤ Var.MOST }
        ensures { IfOk result (λ order. order ≡ new_order vars) }
    {
        let activities = vec![in alloc; 0; vars as usize]?;
        let inside = vec![in alloc; true; vars as usize]?;
        let previous = greater_numbers(alloc, vars)?;
        let next = lesser_numbers(alloc, vars)?;
        let cursor = previous[0];
        Ok(Order {
            vars,
            activities,
            inside,
            previous,
            next,
            cursor,
            top: 0,
        })
    }

    /// The greatest variable.
    pub fn vars(&self) -> u32
        ensures vars { result ≡ self.now.vars }
        ensures most { result ≤ Var.MOST }
    {
        self.vars
    }

    /// Whether the first has more activity, or as much and the smaller number.
    pub fn comes_before(&self, first: Var, second: Var) -> bool
        requires first { first ≤ self.now.vars }
        requires second { second ≤ self.now.vars }
        ensures { (result ≡ true) ↔ ComesBefore self.now first second }
    {
        is_greater(&self.activities, first, second.number())
    }

    /// Takes out the variable of the greatest activity, of equal ones the least: None exactly where none is in.
    pub fn pop_greatest(&mut self) -> Option<Var>
        ensures greatest { IfSome result (IsGreatest self.old) }
        ensures within { IfSome result (λ v. v ≤ self.old.vars) }
        ensures none { (result ≡ None) ↔ IsEmpty self.old }
        ensures out { IfSome result (λ v. self.new ≡ taken_out self.old v) }
        ensures same { IfNone result (self.new ≡ self.old) }
    {
        self.cursor = first_inside(&self.activities, &self.inside, &self.previous, self.cursor);
        if self.cursor == 0 {
            return None;
        }
        self.inside[self.cursor as usize - 1] = false;
        Var::from_number(self.cursor)
    }

    /// Puts a variable in where it isn't.
    pub fn put_back(&mut self, var: Var)
        requires { var ≤ self.old.vars }
        ensures put_in { self.new ≡ put_in self.old var }
        ensures stands { is_in self.new var ≡ true }
    {
        self.inside[var.index()] = true;
        self.cursor = foremost(&self.activities, var, self.cursor);
    }

    /// Adds a whole number of at least 1, which the order chooses, to a variable's activity: the greatest that was given, and
    /// 1 more, less the activity. Where the sum would pass `MOST_ACTIVITY`, all activities and the greatest that was given are
    /// halved first, rounding down.
    pub fn bump(&mut self, var: Var)
        requires { var ≤ self.old.vars }
        ensures bumped { self.new ≡ bumped self.old var }
        ensures below { activity_of self.old var ≤ self.old.top }
    {
        if self.top >= MOST_ACTIVITY {
            self.halve();
        }
        self.raise(var);
    }

    // Activities that differed may be equal then, so the ring is made anew.
    fn halve(&mut self)
        ensures halved { self.new ≡ halved self.old }
        ensures room { self.new.top < MOST_ACTIVITY }
    {
        halve_all(&mut self.activities);
        self.top /= 2;
        link_by_rank(&self.activities, &mut self.previous, &mut self.next);
        self.cursor = self.previous[0];
    }

    // Makes a variable the last of the ring.
    fn raise(&mut self, var: Var)
        requires within { var ≤ self.old.vars }
        requires room { self.old.top < MOST_ACTIVITY }
        ensures { self.new ≡ raised self.old var }
    {
        self.cursor = cursor_behind(&self.inside, &self.previous, self.cursor, var);
        self.top += 1;
        raise(
            &mut self.activities,
            &mut self.previous,
            &mut self.next,
            var,
            self.top,
        );
    }
}
