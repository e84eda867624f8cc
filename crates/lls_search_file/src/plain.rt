// Search files that are histories: dead and live cells alone, without marks.
ghost use Rattle.std.specs.Prelude.{◌≡◌, map, not, Ok, IfOk};
ghost use Rattle.std.specs.List.{position};
ghost use Rattle.lls_base.specs.Results.{GivesWrapped};
ghost use Rattle.lls_grid.specs.History.{History, IsHistory};
ghost use Rattle.lls_grid.specs.Text.{history_text};
ghost use Rattle.lls_search_file.specs.Plain.{plain_of, plain_file, not_plain, is_plain, is_live};

use crate::{Cell, HistoryError, HistoryFault, Kind, Posed, read_posed};
use lls_grid::History;
use std::alloc::{AllocError, Global};

/// The history of a text that is a search file without marks, of the cells `0` and `1` alone.
pub fn read_history(alloc: Global, bytes: &[u8]) -> Result<History, HistoryError>
    ensures history { GivesWrapped HistoryError.Fault (λ history. history) result (plain_of bytes.now) }

    // So every printed history is read back.
    ensures reads_back { (history : History) → IsHistory history → plain_of (history_text history) ≡ Ok history }
{
    let posed = read_posed(alloc, bytes)?;
    history_of(alloc, &posed)
}

// The history of a file whose cells are all plain.
fn history_of(alloc: Global, posed: &Posed) -> Result<History, HistoryError>
    ensures { GivesWrapped HistoryError.Fault (λ history. history) result (plain_file posed.now) }
{
    let cells = posed.cells.items();
    match first_not_plain(cells) {
        Some(index) => Err(HistoryError::Fault(not_plain(posed, index as u64))),
        None => {
            let live = lives(alloc, cells)?;
            Ok(History::from_cells(posed.sizes(), live))
        }
    }
}

// The place of a cell in the order of cells, told as what refuses it.
fn not_plain(posed: &Posed, index: u64) -> HistoryFault
    ensures { result ≡ not_plain posed.now index }
{
    let (height, width) = (u64::from(posed.height), u64::from(posed.width));
    HistoryFault::NotPlain(
        index / (width * height),
        index / width % height,
        index % width,
    )
}

// Where the first cell stands that has a mark, or is neither dead nor live.
fn first_not_plain(cells: &[Cell]) -> Option<usize>
    ensures { result ≡ position (λ cell. not (is_plain cell)) cells.now }
{
    cells.iter().position(|cell| !is_plain(*cell))
}

// Which cells are live.
fn lives(alloc: Global, cells: &[Cell]) -> Result<Vec<bool>, AllocError>
    ensures { IfOk result (λ live. live.items ≡ map (λ cell. is_live cell.kind) cells.now) }
{
    cells.iter().map(|cell| is_live(cell.kind)).collect(alloc)
}

// Whether a cell has no mark and is dead or live.
fn is_plain(cell: Cell) -> bool
    ensures { result ≡ is_plain cell }
{
    !cell.mark && matches!(cell.kind, Kind::Dead | Kind::Live)
}

// Whether a cell is live.
fn is_live(kind: Kind) -> bool
    ensures { result ≡ is_live kind }
{
    matches!(kind, Kind::Live)
}
