//! Tests of the libraries of rules, patterns, problems and command lines, through their public items alone: a module for each
//! library, or for each part of one.
#![tactic(auto)]

#[cfg(test)]
mod grid;
#[cfg(test)]
mod hensel;
#[cfg(test)]
mod images;
#[cfg(test)]
mod making;
#[cfg(test)]
mod problem;
#[cfg(test)]
mod problem_plane;
#[cfg(test)]
mod rle;
#[cfg(test)]
mod rule;
#[cfg(test)]
mod search_file;
#[cfg(test)]
mod symmetry;
#[cfg(test)]
mod words;
