// The motions under which a problem looks the same.
ghost use Rattle.std.specs.Prelude.{◌≡◌, ◌≤◌, [], ◌∷◌, ◌++◌, if◌then◌else◌, All, length, true, IfOk, OnOk};
ghost use Rattle.lls_grid.specs.History.{History};
ghost use Rattle.lls_symmetry.specs.Motion.{exchanges};
ghost use Rattle.lls_problem.specs.Solution.{IsSolution};
ghost use Rattle.lls_images.specs.First.{FirstLaw};
ghost use Rattle.lls_images.specs.Image.{image};
ghost use Rattle.lls_images.specs.Same.{keeps_grid, looks_the_same, tells_apart, same_motions};

use crate::cells::{keeps_cells, keeps_ties};
use crate::listed::keeps_listed;
use crate::rule::keeps_rule;
use crate::symmetry::{is_demanded, keeps_shift, keeps_symmetry};
use lls_base::Memory;
use lls_problem::Problem;
use lls_symmetry::Motion;
use std::alloc::Global;

// Whether the motion takes a grid to itself.
fn keeps_grid(motion: Motion, height: u32, width: u32) -> bool
    ensures { result ≡ keeps_grid motion height width }
{
    !motion.exchanges() || height == width
}

// Whether the problem looks the same under the motion.
fn looks_the_same(problem: &Problem, motion: Motion) -> bool
    ensures { result ≡ looks_the_same problem.now motion }
{
    let posed = problem.posed();
    let demands = problem.demands();
    if !keeps_grid(motion, posed.height, posed.width) || !keeps_rule(motion, problem.rule()) {
        return false;
    }
    if let Some(period) = demands.period
        && !keeps_shift(motion, period)
    {
        return false;
    }
    keeps_symmetry(motion, demands.symmetry)
        && keeps_listed(motion, posed, demands.listed.items())
        && keeps_cells(motion, posed)
        && keeps_ties(motion, posed)
}

// Pushes a motion under which the problem looks the same, unless it demands it.
fn push_same(motions: &mut Vec<Motion>, problem: &Problem, motion: Motion) -> Result<(), Memory>
    ensures { OnOk result (motions.new.items ≡ motions.old.items ++ (if tells_apart problem.now motion then motion ∷ [] else [])) }
{
    if !is_demanded(problem.demands().symmetry, motion) && looks_the_same(problem, motion) {
        motions.push(motion)?;
    }
    Ok(())
}

/// The motions under which a problem looks the same, but those that it demands.
pub fn same_motions(alloc: Global, problem: &Problem) -> Result<Vec<Motion>, Memory>
    ensures motions { IfOk result (λ motions. motions.items ≡ same_motions problem.now) }
    ensures few { IfOk result (λ motions. length motions.items ≤ 7) }
    ensures grid { IfOk result (λ motions. All (λ motion. exchanges motion ≡ true → problem.now.posed.height ≡ problem.now.posed.width) motions.items) }
    // Turned or reflected by one of them each solution is a solution, and so of each kind some solution comes first.
    ensures images { IfOk result (λ motions. (history : History) → IsSolution problem.now history
        → All (λ motion. IsSolution problem.now (image motion problem.now.posed.height problem.now.posed.width history)) motions.items) }
    ensures first { FirstLaw problem.now }
{
    let mut motions = Vec::new(alloc);
    // What the type of a problem keeps.
    let _ = problem.posed();
    let _ = problem.demands();
    for motion in Motion::ALL {
        push_same(&mut motions, problem, motion)?;
    }
    Ok(motions)
}
