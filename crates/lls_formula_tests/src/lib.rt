//! Tests of the libraries below and around formulas and proofs, through their public items alone: a module for each library,
//! or for each part of one.
#![tactic(auto)]

#[cfg(test)]
mod base;
#[cfg(test)]
mod cardinality;
#[cfg(test)]
mod cnf;
#[cfg(test)]
mod counting;
#[cfg(test)]
mod cube;
#[cfg(test)]
mod dimacs;
#[cfg(test)]
mod encode;
#[cfg(test)]
mod formulas;
#[cfg(test)]
mod images;
#[cfg(test)]
mod lrat;
#[cfg(test)]
mod lrat_held;
#[cfg(test)]
mod lrat_logs;
#[cfg(test)]
mod lrat_pieces;
#[cfg(test)]
mod lrat_walks;
#[cfg(test)]
mod marks;
#[cfg(test)]
mod open;
#[cfg(test)]
mod prooflog;
#[cfg(test)]
mod prooflog_lines;
#[cfg(test)]
mod prooflog_pieces;
#[cfg(test)]
mod prooflog_spent;
#[cfg(test)]
mod text;
#[cfg(test)]
mod transition;
#[cfg(test)]
mod trim;
