// What a number says of a cell, and what cells a search file has for numbers.
ghost use Rattle.std.specs.Prelude.{◌≡◌, map, IfOk};
ghost use Rattle.lls_gen.specs.Drawing.{is_live, is_unknown, known, drawn, plain, cells_of_both};

use lls_search_file::{Cell, Kind};
use std::alloc::{AllocError, Global};

// Whether the cell of a number is live: by the highest bit.
fn is_live(number: u64) -> bool
    ensures { result ≡ is_live number }
{
    number >> 63 == 1
}

// Whether the cell of a number is unknown, as one of eight is: by the three bits below the highest.
fn is_unknown(number: u64) -> bool
    ensures { result ≡ is_unknown number }
{
    number >> 60 & 7 == 0
}

// What a file says of a cell whose value it fixes.
fn known(live: bool) -> Kind
    ensures { result ≡ known live }
{
    if live { Kind::Live } else { Kind::Dead }
}

// What a file says of the cell of a number.
fn drawn(number: u64) -> Kind
    ensures { result ≡ drawn number }
{
    if is_unknown(number) {
        Kind::Free
    } else {
        known(is_live(number))
    }
}

// A cell without a mark.
fn plain(kind: Kind) -> Cell
    ensures { result ≡ plain kind }
{
    Cell { mark: false, kind }
}

/// Which cells are live.
pub(crate) fn lives(alloc: Global, numbers: &[u64]) -> Result<Vec<bool>, AllocError>
    ensures { IfOk result (λ lives. lives.items ≡ map is_live numbers.now) }
{
    numbers.iter().map(|number| is_live(*number)).collect(alloc)
}

/// The cells of numbers, and behind them cells whose values are fixed.
pub(crate) fn cells(alloc: Global, numbers: &[u64], next: &[bool]) -> Result<Vec<Cell>, AllocError>
    ensures { IfOk result (λ cells. cells.items ≡ cells_of_both numbers.now next.now) }
{
    let drawn = numbers.iter().map(|number| plain(drawn(*number)));
    let known = next.iter().map(|live| plain(known(*live)));
    drawn.chain(known).collect(alloc)
}
