// A problem.
ghost use Rattle.std.specs.Prelude.{◌≡◌, ◌<◌, ◌≤◌, ◌*◌, [], ◌∷◌, length, All, find, nat_le, map};
ghost use Rattle.std.specs.Option.{ForSome, option_map_or};
ghost use Rattle.lls_grid.specs.Sizes.{IsInside};
ghost use Rattle.lls_search_file.specs.Posed.{IsPosed, sizes_of};
ghost use Rattle.lls_problem.specs.Problem.{problem_made, missing_generation, crossing, too_long, too_many, but, AreOfSize, IsPeriod, AreFitting};
ghost use Rattle.lls_problem.specs.Bounds.{HasEnds, grid_size, all_counter_vars};
ghost use Rattle.lls_problem.specs.Solution.{is_marked, place_of};

use crate::{Bound, Bounds, DemandError, Demands, Edge};
use lls_grid::{GridPlace, History, Patterns, index_within};
use lls_rule::Rule;
use lls_search_file::Posed;
use lls_symmetry::fits;
use std::marker::Model;

/// A posed file with a rule and demands that fit it. `make_problem` alone makes one.
#[derive(Drop)]
pub struct Problem {
    posed: Posed,
    rule: Rule,
    demands: Demands,
}

impl Model for Problem {
    ghost use Rattle.lls_problem.specs.Problem.{PosedProblem, AreFitting};

    ghost Value = { PosedProblem };

    ghost view = { λ p. record { posed = p.posed; rule = p.rule; demands = p.demands } };

    ghost invariant = { λ p. AreFitting p.posed p.demands };
}

/// Puts the three together, or answers the first demand that doesn't fit the file. It takes no memory; after a refusal
/// the three are given up.
pub fn make_problem(posed: Posed, rule: Rule, demands: Demands) -> Result<Problem, DemandError>
    requires period { ForSome demands.period IsPeriod }
    requires bounds { All HasEnds demands.bounds }
    requires listed { AreOfSize posed demands.listed }
    ensures { result ≡ problem_made posed rule demands }
{
    if !fits(demands.symmetry, posed.height, posed.width) {
        return Err(DemandError::NotSquare(posed.height as u64, posed.width as u64));
    }
    if let Some(t) = missing_generation(&posed, &demands) {
        return Err(DemandError::NoGeneration(t as u64));
    }
    if let Some(t) = crossing(&posed, &demands) {
        return Err(DemandError::BoundsCross(t as u64));
    }
    if let Some(length) = too_long(&posed, &demands) {
        return Err(DemandError::PeriodTooLong(length as u64));
    }
    if let Some(count) = too_many(&posed, &demands) {
        return Err(DemandError::Counters(count));
    }
    Ok(Problem {
        posed,
        rule,
        demands,
    })
}

// The first generation of a bound that isn't below that number.
fn missing_bound(generations: u32, bounds: &[Bound]) -> Option<u32>
    ensures { result ≡ find (nat_le generations) (map (λ bound. bound.generation) bounds.now) }
{
    bounds
        .iter()
        .map(|bound| bound.generation)
        .find(|t| generations <= *t)
}

// The first generation of two that have to differ that isn't below that number.
fn missing_of_two(generations: u32, differ: Option<(u32, u32)>) -> Option<u32>
    ensures { result ≡ find (nat_le generations) (option_map_or (λ pair. pair.0 ∷ pair.1 ∷ []) differ []) }
{
    let (first, second) = differ?;
    if generations <= first {
        Some(first)
    } else if generations <= second {
        Some(second)
    } else {
        None
    }
}

// The first generation that the demands name and the file hasn't.
fn missing_generation(posed: &Posed, demands: &Demands) -> Option<u32>
    ensures { result ≡ missing_generation posed.now demands.now }
{
    match missing_bound(posed.generations, demands.bounds.items()) {
        Some(t) => Some(t),
        None => missing_of_two(posed.generations, demands.differ),
    }
}

// How many cells each generation has.
fn grid_size(posed: &Posed) -> u32
    ensures size { result ≡ grid_size posed.now }
    ensures some { 1 ≤ result }
    ensures most { result ≤ History.MOST_HEIGHT * History.MOST_WIDTH }
{
    posed.width * posed.height
}

// The generation of the first bound that has nothing between its ends.
fn crossing(posed: &Posed, demands: &Demands) -> Option<u32>
    ensures { result ≡ crossing posed.now demands.now }
{
    let size = grid_size(posed);
    demands
        .bounds
        .items()
        .iter()
        .find(|bound| bound.crosses(size))
        .map(|bound| bound.generation)
}

// How many variables the counters of all bounds have, where that is too many.
fn too_many(posed: &Posed, demands: &Demands) -> Option<u128>
    requires { All HasEnds demands.now.bounds }
    ensures { result ≡ too_many posed.now demands.now }
{
    let count = counters(grid_size(posed), demands.bounds.items());
    if count > Bounds::MOST_COUNTERS as u128 {
        Some(count)
    } else {
        None
    }
}

// How many variables the counters of those bounds have.
fn counters(size: u32, bounds: &[Bound]) -> u128
    requires size { size ≤ History.MOST_CELLS }
    requires ends { All HasEnds bounds.now }
    ensures { result ≡ all_counter_vars size bounds.now }
{
    let mut count = 0u128;
    for bound in bounds {
        count += bound.counter_vars(size) as u128;
    }
    count
}

// The length of the period, where it isn't less than the number of generations.
fn too_long(posed: &Posed, demands: &Demands) -> Option<u32>
    ensures { result ≡ too_long posed.now demands.now }
{
    let length = demands.period?.length;
    if length < posed.generations {
        None
    } else {
        Some(length)
    }
}

impl Problem {
    pub fn posed(&self) -> &Posed
        ensures value { result.now ≡ self.now.posed }
        ensures kept { IsPosed self.now.posed }
    {
        let posed = &self.posed;
        // Reading a field tells what the type of the file keeps.
        let _ = &posed.generations;
        posed
    }

    /// Where a cell stands in the order generation, row, column.
    pub fn cell_index(&self, place: GridPlace) -> usize
        requires { IsInside (sizes_of self.now.posed) place }
        ensures index { result ≡ place_of self.now.posed place.t place.y place.x }
        ensures within { result < length self.now.posed.cells }
    {
        self.posed().sizes().index(place)
    }

    /// Whether a place is a marked cell of generation t. Rows and columns count from those of the grid.
    pub fn is_marked(&self, t: u32, y: i32, x: i32) -> bool
        requires { t < self.now.posed.generations }
        ensures { result ≡ is_marked self.now.posed t y x }
    {
        let posed = self.posed();
        match (index_within(y, posed.height), index_within(x, posed.width)) {
            (Some(y), Some(x)) => posed.cells.items()[self.cell_index(GridPlace { t, y, x })].mark,
            _ => false,
        }
    }

    /// The problem with these patterns in place of those that generation 0 mustn't be.
    pub fn but(self, patterns: Patterns) -> Problem
        requires { AreOfSize self.posed patterns }
        ensures { result ≡ but self patterns }
    {
        let Problem {
            posed,
            rule,
            mut demands,
        } = self;
        demands.listed = patterns;
        Problem {
            posed,
            rule,
            demands,
        }
    }

    pub fn rule(&self) -> &Rule
        ensures { result.now ≡ self.now.rule }
    {
        &self.rule
    }

    pub(crate) fn edge(&self) -> Edge
        ensures { result ≡ self.now.demands.edge }
    {
        self.demands.edge
    }

    pub fn demands(&self) -> &Demands
        ensures value { result.now ≡ self.now.demands }
        ensures kept { AreFitting self.now.posed self.now.demands }
    {
        &self.demands
    }
}
