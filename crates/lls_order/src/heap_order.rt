//! An order of decisions by activities that decay.
ghost use Rattle.std.specs.Prelude.{◌≡◌, ◌<◌, ◌≤◌, ◌↔◌, ◌+◌, ◌/◌, ◌^◌, true, map, IfNone, IfOk, IfSome};
ghost use Rattle.lls_order.specs.Order.{activity_of, is_in, ComesBefore, IsEmpty, IsGreatest};
ghost use Rattle.lls_order.specs.HeapOrder.{bumped, grown, new_heap, put_in, raised, scaled_down, taken_out};

use crate::heap::{insert_from, make_heap, numbers_below, outranks, remove_first, sift_up};
use crate::order::MOST_ACTIVITY;
use lls_base::Memory;
use lls_lit::Var;
use std::alloc::Global;
use std::marker::Model;

/// What a bump adds at first.
pub const FIRST_AMOUNT: u64 = 1 << 10;

/// Where the amount is above 2^54, it doesn't grow before all is scaled down.
pub const SCALED_ABOVE: u64 = 1 << 54;

/// All is divided by 2^16 then: about once in 560 conflicts.
pub const SCALE: u32 = 16;

/// Variables with activities, of which those that are in come out by activity, as of an [`Order`](crate::Order).
///
/// A bump adds an amount of the order's own to a variable's activity. Where the amount grows after each conflict, late conflicts
/// weigh more (Moskewicz and others, *Chaff*, 2001; in this form Eén, Sörensson, *An Extensible SAT-solver*, 2003).
#[derive(Debug, Drop)]
pub struct HeapOrder {
    vars: u32,
    activities: Vec<u64>,
    // How many variables are in.
    count: usize,
    // All variables, each as its number less one: a heap of those that are in, and then the others.
    heap: Vec<u32>,
    // Where each variable stands in the heap.
    places: Vec<u32>,
    amount: u64,
}

impl Model for HeapOrder {
    ghost use Rattle.lls_order.specs.HeapOrder.{HeapState};
    ghost use Rattle.lls_order.specs.Heap.{heap_in, AreParts};

    ghost Value = { HeapState };

    ghost view = { λ o. heap_in o.vars o.activities.items o.count o.places.items o.amount };

    ghost invariant = { λ o. AreParts o.vars o.activities.items o.count o.heap.items o.places.items o.amount };
}

impl HeapOrder {
    /// All variables up to `vars`, without activity. No other call takes memory.
    pub fn new(alloc: Global, vars: u32) -> Result<HeapOrder, Memory>
        requires { vars ≤ Var.MOST }
        ensures { IfOk result (λ order. order ≡ new_heap vars) }
    {
        let activities = vec![in alloc; 0; vars as usize]?;
        let heap = numbers_below(alloc, vars)?;
        let places = numbers_below(alloc, vars)?;
        Ok(HeapOrder {
            vars,
            activities,
            count: vars as usize,
            heap,
            places,
            amount: FIRST_AMOUNT,
        })
    }

    /// The greatest variable.
    pub fn vars(&self) -> u32
        ensures vars { result ≡ self.now.order.vars }
        ensures most { result ≤ Var.MOST }
    {
        self.vars
    }

    /// Whether the first has more activity, or as much and the smaller number.
    pub fn comes_before(&self, first: Var, second: Var) -> bool
        requires first { first ≤ self.now.order.vars }
        requires second { second ≤ self.now.order.vars }
        ensures { (result ≡ true) ↔ ComesBefore self.now.order first second }
    {
        outranks(
            &self.activities,
            first.index() as u32,
            second.index() as u32,
        )
    }

    /// Takes out the variable of the greatest activity, of equal ones the least: None exactly where none is in.
    pub fn pop_greatest(&mut self) -> Option<Var>
        ensures greatest { IfSome result (IsGreatest self.old.order) }
        ensures within { IfSome result (λ v. v ≤ self.old.order.vars) }
        ensures none { (result ≡ None) ↔ IsEmpty self.old.order }
        ensures out { IfSome result (λ v. self.new ≡ taken_out self.old v) }
        ensures same { IfNone result (self.new ≡ self.old) }
    {
        if self.count == 0 {
            return None;
        }
        let greatest = self.heap[0];
        self.count -= 1;
        remove_first(
            &self.activities,
            &mut self.heap,
            &mut self.places,
            self.count,
        );
        Var::from_number(greatest + 1)
    }

    /// Puts a variable in where it isn't.
    pub fn put_back(&mut self, var: Var)
        requires { var ≤ self.old.order.vars }
        ensures put_in { self.new ≡ put_in self.old var }
        ensures stands { is_in self.new.order var ≡ true }
    {
        let place = self.places[var.number() as usize - 1] as usize;
        if place >= self.count {
            insert_from(
                &self.activities,
                &mut self.heap,
                &mut self.places,
                place,
                self.count,
            );
            self.count += 1;
        }
    }

    /// Adds the amount to a variable's activity. Where the sum would pass `MOST_ACTIVITY`, all activities and the amount are
    /// halved first.
    pub fn bump(&mut self, var: Var)
        requires { var ≤ self.old.order.vars }
        ensures bumped { self.new ≡ bumped self.old var }
        ensures amount { 1 ≤ self.old.amount }
    {
        let activity = self.activities[var.number() as usize - 1];
        if activity + self.amount > MOST_ACTIVITY {
            self.scale_down(1);
        }
        self.raise(var);
    }

    /// Makes the amount greater by about a fiftieth: what is bumped from now on counts more. Where the amount is great, all
    /// activities and the amount are scaled down first.
    pub fn grow(&mut self)
        ensures { self.new ≡ grown self.old }
    {
        if self.amount > SCALED_ABOVE {
            self.scale_down(SCALE);
        }
        self.amount += self.amount / 50 + 1;
    }

    // Divides all activities and the amount by a power of two. Activities that differed may be equal then, so the heap is made
    // anew.
    fn scale_down(&mut self, power: u32)
        requires { power < 64 }
        ensures { self.new ≡ scaled_down self.old power }
    {
        shift_all(&mut self.activities, power);
        self.amount = (self.amount >> power).max(1);
        make_heap(
            &self.activities,
            &mut self.heap,
            &mut self.places,
            self.count,
        );
    }

    // Adds the amount to a variable's activity.
    fn raise(&mut self, var: Var)
        requires within { var ≤ self.old.order.vars }
        requires fits { activity_of self.old.order var + self.old.amount ≤ MOST_ACTIVITY }
        ensures { self.new ≡ raised self.old var }
    {
        let v = var.number() as usize - 1;
        self.activities[v] += self.amount;
        let place = self.places[v] as usize;
        if place < self.count {
            sift_up(&self.activities, &mut self.heap, &mut self.places, place);
        }
    }
}

fn shift_all(activities: &mut [u64], power: u32)
    requires { power < 64 }
    ensures { activities.new ≡ map (λ a. a / 2 ^ power) activities.old }
{
    for activity in activities.iter_mut() {
        *activity >>= power;
    }
}
