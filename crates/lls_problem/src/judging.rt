// Judging a history by a problem.
ghost use Rattle.std.specs.Prelude.{◌≡◌, ◌≢◌, IsTrue, ◌↔◌};
ghost use Rattle.lls_grid.specs.History.{HasSizes};
ghost use Rattle.lls_problem.specs.Solution.{IsSolution};
ghost use Rattle.lls_problem.specs.Plane.{PlaneLaw};
ghost use Rattle.lls_problem.specs.Judgement.{IsJudgement};
ghost use Rattle.lls_problem.specs.declared.judgement.Judgement.{Judgement};

use crate::cells::{first_disagreement, first_misfit};
use crate::differences::differs;
use crate::exact::first_shorter;
use crate::listed::first_listed;
use crate::losses::first_loss;
use crate::population::first_outside;
use crate::transitions::first_transition;
use crate::unlike::first_unlike;
use crate::{Judgement, Problem};
use lls_grid::History;
use lls_search_file::Posed;

// Whether the history has the sizes of the file.
fn has_its_sizes(posed: &Posed, history: &History) -> bool
    ensures { IsTrue result ↔ HasSizes posed.now.generations posed.now.height posed.now.width history.now }
{
    history.sizes() == posed.sizes()
}

/// Whether the history is a solution of the problem, or else the first demand that it breaks and the first place, by
/// generation, row and column, where it does. It takes no memory.
pub fn judge(problem: &Problem, history: &History) -> Judgement
    ensures judgement { IsJudgement problem.now history.now result }
    ensures unique { (other : Judgement) → IsJudgement problem.now history.now other → other ≡ result }
    ensures meets { result ≡ Judgement.Meets → IsSolution problem.now history.now }
    ensures broken { result ≢ Judgement.Meets → IsSolution problem.now history.now → ⊥ }
    ensures plane { result ≡ Judgement.Meets → PlaneLaw problem.now history.now }
{
    // That the demands fit the file is known from here on.
    let _demands = problem.demands();
    if !has_its_sizes(problem.posed(), history) {
        return Judgement::Size;
    }
    if let Some(place) = first_misfit(problem, history) {
        return Judgement::Cell(place.t, place.y, place.x);
    }
    if let Some(place) = first_disagreement(problem, history) {
        return Judgement::Name(place.t, place.y, place.x);
    }
    if let Some(place) = first_unlike(problem, history) {
        return Judgement::Symmetry(place.t, place.y, place.x);
    }
    if let Some(loss) = first_loss(problem, history) {
        return loss.judgement();
    }
    if let Some(place) = first_transition(problem, history) {
        return Judgement::Rule(place.t, place.y, place.x);
    }
    if let Some(count) = first_outside(problem, history) {
        return Judgement::Population(count.t, count.live);
    }
    if !differs(problem, history) {
        return Judgement::Same;
    }
    if let Some(length) = first_shorter(problem, history) {
        return Judgement::Shorter(length);
    }
    if let Some(n) = first_listed(problem, history) {
        return Judgement::Listed(n);
    }
    Judgement::Meets
}
