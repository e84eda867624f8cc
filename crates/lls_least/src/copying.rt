// Copies of what a problem is made of.
ghost use Rattle.std.specs.Prelude.{◌≡◌, [], ◌∷◌, ◌++◌, IfOk};

use lls_base::{Memory, Name};
use lls_grid::{Pattern, Patterns};
use lls_problem::{Bound, Bounds, Demands};
use lls_search_file::{Cells, Names, Posed};
use std::alloc::Global;

/// A copy of a posed file.
pub(crate) fn copy_of(alloc: Global, posed: &Posed) -> Result<Posed, Memory>
    ensures { IfOk result (λ copy. copy ≡ posed.now) }
{
    Ok(Posed {
        generations: posed.generations,
        height: posed.height,
        width: posed.width,
        cells: Cells::new(Vec::from_slice(alloc, posed.cells.items())?),
        names: copies_of(alloc, posed.names.items())?,
    })
}

// A copy of names in order.
fn copies_of(alloc: Global, names: &[Name]) -> Result<Names, Memory>
    ensures { IfOk result (λ copies. copies ≡ names.now) }
{
    let mut copies = Vec::with_capacity(alloc, names.len())?;
    for name in names {
        copies.push(Name::new(String::from_str(alloc, name.text())?))?;
    }
    Ok(Names::new(copies))
}

// A copy of patterns in order.
fn copies_of_patterns(alloc: Global, patterns: &[Pattern]) -> Result<Patterns, Memory>
    ensures { IfOk result (λ copies. copies ≡ patterns.now) }
{
    let mut copies = Vec::with_capacity(alloc, patterns.len())?;
    for pattern in patterns {
        copies.push(Pattern::new(Vec::from_slice(alloc, pattern.cells())?))?;
    }
    Ok(Patterns::new(copies))
}

/// The same demands, with one bound more behind the others.
pub(crate) fn with_bound(alloc: Global, demands: &Demands, bound: Bound) -> Result<Demands, Memory>
    ensures { IfOk result (λ more. more ≡ record demands.now { bounds = demands.now.bounds ++ bound ∷ [] }) }
{
    let mut bounds = Vec::from_slice(alloc, demands.bounds.items())?;
    bounds.push(bound)?;
    Ok(Demands {
        edge: demands.edge,
        symmetry: demands.symmetry,
        period: demands.period,
        exact: demands.exact,
        bounds: Bounds::new(bounds),
        differ: demands.differ,
        listed: copies_of_patterns(alloc, demands.listed.items())?,
    })
}
