//! Tests of the solver and of the libraries that it is made of, through their public items alone: a module for each library, or
//! for each part of one.
#![tactic(auto)]

#[cfg(test)]
mod analyse;
#[cfg(test)]
mod arena;
#[cfg(test)]
mod crew;
#[cfg(test)]
mod drat;
#[cfg(test)]
mod draws;
#[cfg(test)]
mod order;
#[cfg(test)]
mod solver;
#[cfg(test)]
mod store_changes;
#[cfg(test)]
mod store_removal;
#[cfg(test)]
mod store_trail;
#[cfg(test)]
mod store_worked;
#[cfg(test)]
mod stores_agree;
