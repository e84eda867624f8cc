// Whether a motion keeps what a posed file says of its cells.
ghost use Rattle.std.specs.Prelude.{◌≡◌, ◌<◌, length, true};
ghost use Rattle.lls_search_file.specs.Posed.{sizes_of};
ghost use Rattle.lls_symmetry.specs.Motion.{exchanges};
ghost use Rattle.lls_problem.specs.Bounds.{grid_size};
ghost use Rattle.lls_images.specs.Image.{image_index};
ghost use Rattle.lls_images.specs.Same.{is_alike, is_kept, keeps_cells, tie, is_tie_kept, are_ties_kept, keeps_ties};

use lls_grid::GridPlace;
use lls_search_file::{Kind, Posed};
use lls_symmetry::Motion;

/// Where the image of a cell stands in the order generation, row, column.
pub fn image_index(motion: Motion, posed: &Posed, k: usize) -> usize
    requires square { exchanges motion ≡ true → posed.now.height ≡ posed.now.width }
    requires cell { k < length posed.now.cells }
    ensures index { result ≡ image_index motion (sizes_of posed.now) k }
    ensures within { result < length posed.now.cells }
    // The image of a cell of generation 0 is one of it.
    ensures generation { k < grid_size posed.now → result < grid_size posed.now }
{
    let sizes = posed.sizes();
    let GridPlace { t, y, x } = sizes.place(k);
    let (y, x) = motion.image(sizes.height, sizes.width, y, x);
    sizes.index(GridPlace { t, y, x })
}

// Whether two cells are fixed to one value, or both unknown, or both of a name.
fn is_alike(kind: Kind, other: Kind) -> bool
    ensures { result ≡ is_alike kind other }
{
    match kind {
        Kind::Named(_) | Kind::Negated(_) => other.name().is_some(),
        Kind::Dead | Kind::Live | Kind::Free => kind == other,
    }
}

// Whether a cell and its image are so, and both are marked or both aren't.
fn is_kept(motion: Motion, posed: &Posed, k: usize) -> bool
    requires square { exchanges motion ≡ true → posed.now.height ≡ posed.now.width }
    requires cell { k < length posed.now.cells }
    ensures { result ≡ is_kept motion posed.now k }
{
    let cells = posed.cells.items();
    let to = cells[image_index(motion, posed, k)];
    cells[k].mark == to.mark && is_alike(cells[k].kind, to.kind)
}

/// Whether each cell is of the kind of its image and is marked where it is.
pub fn keeps_cells(motion: Motion, posed: &Posed) -> bool
    requires { exchanges motion ≡ true → posed.now.height ≡ posed.now.width }
    ensures { result ≡ keeps_cells motion posed.now }
{
    for k in 0..posed.cells.items().len() {
        if !is_kept(motion, posed, k) {
            return false;
        }
    }
    true
}

// Whether the values of two cells of one name differ; None where they haven't one name.
fn tie(kind: Kind, other: Kind) -> Option<bool>
    ensures { result ≡ tie kind other }
{
    let differ = match (kind, other) {
        (Kind::Named(_), Kind::Negated(_)) | (Kind::Negated(_), Kind::Named(_)) => true,
        _ => false,
    };
    if kind.name()? == other.name()? {
        Some(differ)
    } else {
        None
    }
}

// Whether two cells are tied just as their images are.
fn is_tie_kept(motion: Motion, posed: &Posed, j: usize, k: usize) -> bool
    requires square { exchanges motion ≡ true → posed.now.height ≡ posed.now.width }
    requires cell { j < length posed.now.cells }
    requires other { k < length posed.now.cells }
    ensures { result ≡ is_tie_kept motion posed.now j k }
{
    let cells = posed.cells.items();
    let from = cells[image_index(motion, posed, j)];
    let to = cells[image_index(motion, posed, k)];
    tie(cells[j].kind, cells[k].kind) == tie(from.kind, to.kind)
}

// Whether a cell that has a name is tied to each cell just as their images are.
fn are_ties_kept(motion: Motion, posed: &Posed, j: usize) -> bool
    requires square { exchanges motion ≡ true → posed.now.height ≡ posed.now.width }
    requires cell { j < length posed.now.cells }
    ensures { result ≡ are_ties_kept motion posed.now j }
{
    let cells = posed.cells.items();
    if cells[j].kind.name().is_none() {
        return true;
    }
    for k in 0..cells.len() {
        if !is_tie_kept(motion, posed, j, k) {
            return false;
        }
    }
    true
}

/// Whether any two cells are tied just as their images are. It takes as many steps as there are pairs of a cell with a
/// name and a cell.
pub fn keeps_ties(motion: Motion, posed: &Posed) -> bool
    requires { exchanges motion ≡ true → posed.now.height ≡ posed.now.width }
    ensures { result ≡ keeps_ties motion posed.now }
{
    for j in 0..posed.cells.items().len() {
        if !are_ties_kept(motion, posed, j) {
            return false;
        }
    }
    true
}
