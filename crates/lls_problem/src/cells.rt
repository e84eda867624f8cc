// The first cell of a history that isn't as the posed file says.
ghost use Rattle.std.specs.Prelude.{◌≡◌, ◌<◌, not, length, false, Some, IsTrue, ◌↔◌, MatchOption, slice_index_or};
ghost use Rattle.lls_grid.specs.History.{HasSizes, cells_of};
ghost use Rattle.lls_search_file.specs.Posed.{name_of};
ghost use Rattle.lls_problem.specs.Solution.{cell_number, HasItsBit};
ghost use Rattle.lls_problem.specs.Judgement.{KeepsBit, KeepsName, AllFixed, AllAgree, IsFirstOfName, IsFirstCell, HasItsSizes};
ghost use Rattle.lls_problem.specs.Named.{named_value};

use crate::Problem;
use lls_grid::{GridPlace, History};
use lls_search_file::{Cell, Kind};

// The kth cell of a history in the order generation, row, column.
fn value_of(problem: &Problem, history: &History, k: usize) -> bool
    requires sizes { HasItsSizes problem.now history.now }
    requires cell { k < length problem.now.posed.cells }
    ensures { result ≡ slice_index_or (cells_of history.now) k false }
{
    let place = problem.posed().sizes().place(k);
    history.at(problem.rule(), place.t, place.y as i32, place.x as i32)
}

// Whether a fixed cell has its bit.
fn has_its_bit(kind: Kind, live: bool) -> bool
    ensures { IsTrue result ↔ HasItsBit kind live }
{
    match kind {
        Kind::Dead => !live,
        Kind::Live => live,
        Kind::Free | Kind::Named(_) | Kind::Negated(_) => true,
    }
}

/// The place of the first fixed cell that has the other bit.
pub fn first_misfit(problem: &Problem, history: &History) -> Option<GridPlace>
    requires { HasItsSizes problem.now history.now }
    ensures { MatchOption result (AllFixed problem.now history.now)
        (λ place. IsFirstCell problem.now.posed (KeepsBit problem.now.posed.cells (cells_of history.now)) place) }
{
    let posed = problem.posed();
    let cells = posed.cells.items();
    for k in 0..cells.len() {
        if !has_its_bit(cells[k].kind, value_of(problem, history, k)) {
            return Some(posed.sizes().place(k));
        }
    }
    None
}

// The first cell that has the name of the kth.
fn first_of_name(cells: &[Cell], name: u32, k: usize) -> usize
    requires cell { k < length cells.now }
    requires named { name_of (cell_number cells.now k).kind ≡ Some name }
    ensures { IsFirstOfName cells.now name result }
{
    for j in 0..k {
        if cells[j].kind.name() == Some(name) {
            return j;
        }
    }
    k
}

// The value of its name by a cell.
fn named_value(kind: Kind, live: bool) -> bool
    ensures { result ≡ named_value kind live }
{
    match kind {
        Kind::Negated(_) => !live,
        Kind::Dead | Kind::Live | Kind::Free | Kind::Named(_) => live,
    }
}

// Whether the kth cell agrees with the first cell of its name, where it has a name.
fn agrees(problem: &Problem, history: &History, k: usize) -> bool
    requires sizes { HasItsSizes problem.now history.now }
    requires cell { k < length problem.now.posed.cells }
    ensures { IsTrue result ↔ KeepsName problem.now.posed.cells (cells_of history.now) k }
{
    let cells = problem.posed().cells.items();
    let kind = cells[k].kind;
    let Some(name) = kind.name() else {
        return true;
    };
    let first = first_of_name(cells, name, k);
    named_value(cells[first].kind, value_of(problem, history, first))
        == named_value(kind, value_of(problem, history, k))
}

/// The place of the first cell that disagrees with the first cell of its name.
pub fn first_disagreement(problem: &Problem, history: &History) -> Option<GridPlace>
    requires { HasItsSizes problem.now history.now }
    ensures { MatchOption result (AllAgree problem.now history.now)
        (λ place. IsFirstCell problem.now.posed (KeepsName problem.now.posed.cells (cells_of history.now)) place) }
{
    let posed = problem.posed();
    for k in 0..posed.cells.items().len() {
        if !agrees(problem, history, k) {
            return Some(posed.sizes().place(k));
        }
    }
    None
}
