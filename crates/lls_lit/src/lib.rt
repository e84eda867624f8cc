//! Variables and literals of propositional formulas. The meaning of clauses, formulas and assignments stands in specs/.
#![tactic(auto)]

mod lit;
mod marks;
mod var;

pub use lit::Lit;
pub use marks::Marks;
pub use var::Var;
