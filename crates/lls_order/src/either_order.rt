//! An order of decisions of either kind.
ghost use Rattle.std.specs.Prelude.{◌≡◌, ◌≤◌, ◌↔◌, None, true, IfNone, IfOk, IfSome};
ghost use Rattle.lls_order.specs.Order.{is_in, ComesBefore, IsEmpty, IsGreatest};
ghost use Rattle.lls_order.specs.Changes.{new_order};
ghost use Rattle.lls_order.specs.HeapOrder.{new_heap};
ghost use Rattle.lls_order.specs.EitherOrder.{bumped, grown, of_heap, put_in, taken_out};

use crate::heap_order::HeapOrder;
use crate::order::Order;
use lls_base::Memory;
use lls_lit::Var;
use std::alloc::Global;
use std::marker::Model;

#[derive(Debug, Drop)]
enum Kind {
    Queue(Order),
    Heap(HeapOrder),
}

/// An [`Order`] or a [`HeapOrder`]: seen as an order, and what a bump adds where it is a heap.
#[derive(Debug, Drop)]
pub struct EitherOrder {
    kind: Kind,
}

impl Model for EitherOrder {
    ghost use Rattle.lls_order.specs.EitherOrder.{EitherState, state_of};

    ghost Value = { EitherState };

    ghost view = { λ o. state_of o.kind };
}

impl EitherOrder {
    /// All variables up to `vars`, without activity, in a queue.
    pub fn queue(alloc: Global, vars: u32) -> Result<EitherOrder, Memory>
        requires { vars ≤ Var.MOST }
        ensures order { IfOk result (λ order. order.order ≡ new_order vars) }
        ensures amount { IfOk result (λ order. order.amount ≡ None) }
    {
        let order = Order::new(alloc, vars)?;
        Ok(EitherOrder {
            kind: Kind::Queue(order),
        })
    }

    /// All variables up to `vars`, without activity, in a heap.
    pub fn heap(alloc: Global, vars: u32) -> Result<EitherOrder, Memory>
        requires { vars ≤ Var.MOST }
        ensures { IfOk result (λ order. order ≡ of_heap (new_heap vars)) }
    {
        let order = HeapOrder::new(alloc, vars)?;
        Ok(EitherOrder {
            kind: Kind::Heap(order),
        })
    }

    /// The greatest variable.
    pub fn vars(&self) -> u32
        ensures vars { result ≡ self.now.order.vars }
        ensures most { result ≤ Var.MOST }
    {
        match &self.kind {
            Kind::Queue(order) => order.vars(),
            Kind::Heap(order) => order.vars(),
        }
    }

    /// Whether the first has more activity, or as much and the smaller number.
    pub fn comes_before(&self, first: Var, second: Var) -> bool
        requires first { first ≤ self.now.order.vars }
        requires second { second ≤ self.now.order.vars }
        ensures { (result ≡ true) ↔ ComesBefore self.now.order first second }
    {
        match &self.kind {
            Kind::Queue(order) => order.comes_before(first, second),
            Kind::Heap(order) => order.comes_before(first, second),
        }
    }

    /// Takes out the variable of the greatest activity, of equal ones the least: None exactly where none is in.
    pub fn pop_greatest(&mut self) -> Option<Var>
        ensures greatest { IfSome result (IsGreatest self.old.order) }
        ensures within { IfSome result (λ v. v ≤ self.old.order.vars) }
        ensures none { (result ≡ None) ↔ IsEmpty self.old.order }
        ensures out { IfSome result (λ v. self.new ≡ taken_out self.old v) }
        ensures same { IfNone result (self.new ≡ self.old) }
    {
        match &mut self.kind {
            Kind::Queue(order) => order.pop_greatest(),
            Kind::Heap(order) => order.pop_greatest(),
        }
    }

    /// Puts a variable in where it isn't.
    pub fn put_back(&mut self, var: Var)
        requires { var ≤ self.old.order.vars }
        ensures put_in { self.new ≡ put_in self.old var }
        ensures stands { is_in self.new.order var ≡ true }
    {
        match &mut self.kind {
            Kind::Queue(order) => order.put_back(var),
            Kind::Heap(order) => order.put_back(var),
        }
    }

    /// Adds to a variable's activity what its kind of order chooses.
    pub fn bump(&mut self, var: Var)
        requires { var ≤ self.old.order.vars }
        ensures bumped { self.new ≡ bumped self.old var }
        ensures vars { self.new.order.vars ≡ self.old.order.vars }
        ensures inside { self.new.order.inside ≡ self.old.order.inside }
    {
        match &mut self.kind {
            Kind::Queue(order) => order.bump(var),
            Kind::Heap(order) => order.bump(var),
        }
    }

    /// What is bumped from now on counts more: in a heap by a greater amount, and in a queue it comes first anyway.
    pub fn grow(&mut self)
        ensures grown { self.new ≡ grown self.old }
        ensures vars { self.new.order.vars ≡ self.old.order.vars }
        ensures inside { self.new.order.inside ≡ self.old.order.inside }
    {
        match &mut self.kind {
            Kind::Queue(_) => {}
            Kind::Heap(order) => order.grow(),
        }
    }
}
