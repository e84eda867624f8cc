// The text of a history.
ghost use Rattle.std.specs.Prelude.{◌≡◌, ◌≤◌, ◌*◌, ◌++◌, length, map, IfOk, OnOk};
ghost use Rattle.lls_grid.specs.Chunks.{chunked};
ghost use Rattle.lls_grid.specs.Text.{digit_word, row_text, rows_text, history_text};

use crate::History;
use lls_base::Memory;
use std::alloc::Global;

/// The text of a history. Each row is its cells, `0` or `1`, separated by one blank, ended by LF;
/// one empty line stands between two generations.
pub fn print_history(alloc: Global, history: &History) -> Result<Vec<u8>, Memory>
    ensures { IfOk result (λ text. text.items ≡ history_text history.now) }
{
    let mut text = Vec::new(alloc);
    for t in 0..history.generations() {
        if t > 0 {
            text.push(b'\n')?;
        }
        push_rows(
            history.cells_at(t),
            history.height(),
            history.width(),
            &mut text,
        )?;
    }
    Ok(text)
}

// Puts rows behind a text.
fn push_rows(cells: &[bool], height: u32, width: u32, text: &mut Vec<u8>) -> Result<(), Memory>
    requires { length cells.now ≡ width * height }
    ensures { OnOk result (text.new.items ≡ text.old.items ++ rows_text (map (map digit_word) (chunked width height cells.now))) }
{
    let mut rest = cells;
    'rows: for _ in 0..height {
        let (row, below) = rest.split_at(width as usize);
        push_row(row, text)?;
        rest = below;
    }
    Ok(())
}

// Puts a row behind a text.
fn push_row(row: &[bool], text: &mut Vec<u8>) -> Result<(), Memory>
    ensures { OnOk result (text.new.items ≡ text.old.items ++ row_text (map digit_word row.now)) }
{
    for (x, live) in row.iter().enumerate() {
        if x > 0 {
            text.push(b' ')?;
        }
        text.extend_from_slice(digit(*live))?;
    }
    text.push(b'\n')?;
    Ok(())
}

// `0` for a dead cell, `1` for a live one.
fn digit(live: bool) -> &'static [u8]
    ensures { result.now ≡ digit_word live }
{
    if live { b"1" } else { b"0" }
}
