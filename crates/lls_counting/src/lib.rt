//! Budgets that decide: with how many learnt clauses no search ends undecided.
#![tactic(auto)]

mod deciding;

pub use deciding::deciding_budget;
