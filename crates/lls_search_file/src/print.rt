// The text of a posed file.
ghost use Rattle.std.specs.Prelude.{◌≡◌, ◌<◌, ◌*◌, ◌++◌, true, length, map, slice_index_or, [], Ok, IfOk, IfSome, OnOk};
ghost use Rattle.std.specs.List.{list_all};
ghost use Rattle.lls_grid.specs.Chunks.{chunked};
ghost use Rattle.lls_grid.specs.Text.{row_text, rows_text};
ghost use Rattle.lls_search_file.specs.Posed.{name_of};
ghost use Rattle.lls_search_file.specs.Reading.{posed_of};
ghost use Rattle.lls_search_file.specs.Kept.{is_named_within};
ghost use Rattle.lls_search_file.specs.Printing.{posed_text, word_text, body_text};

use crate::{Cell, Kind, Posed};
use lls_base::{Memory, Name};
use std::alloc::Global;

/// The text of a file: cells separated by one blank, rows ended by LF, generations separated by one empty line.
pub fn print_posed(alloc: Global, posed: &Posed) -> Result<Vec<u8>, Memory>
    ensures text { IfOk result (λ text. text.items ≡ posed_text posed.now) }
    ensures read_back { IfOk result (λ text. posed_of text.items ≡ Ok posed.now) }
{
    let mut text = Vec::new(alloc);
    let mut rest = posed.cells.items();
    for t in 0..posed.generations {
        if t > 0 {
            text.push(b'\n')?;
        }
        let (cells, later) = rest.split_at((posed.width * posed.height) as usize);
        push_rows(
            cells,
            posed.height,
            posed.width,
            posed.names.items(),
            &mut text,
        )?;
        rest = later;
    }
    Ok(text)
}

// Puts rows behind a text.
fn push_rows(
    cells: &[Cell],
    height: u32,
    width: u32,
    names: &[Name],
    text: &mut Vec<u8>,
) -> Result<(), Memory>
    requires count { length cells.now ≡ width * height }
    requires named { list_all (is_named_within (length names.now)) cells.now ≡ true }
    ensures { OnOk result (text.new.items ≡ text.old.items ++ rows_text (map (map (word_text names.now)) (chunked width height cells.now))) }
{
    let mut rest = cells;
    'rows: for _ in 0..height {
        let (row, below) = rest.split_at(width as usize);
        push_row(row, names, text)?;
        rest = below;
    }
    Ok(())
}

// Puts a row behind a text.
fn push_row(row: &[Cell], names: &[Name], text: &mut Vec<u8>) -> Result<(), Memory>
    requires { list_all (is_named_within (length names.now)) row.now ≡ true }
    ensures { OnOk result (text.new.items ≡ text.old.items ++ row_text (map (word_text names.now) row.now)) }
{
    for (x, cell) in row.iter().enumerate() {
        if x > 0 {
            text.push(b' ')?;
        }
        push_word(*cell, names, text)?;
    }
    text.push(b'\n')?;
    Ok(())
}

// Puts a cell's word behind a text.
fn push_word(cell: Cell, names: &[Name], text: &mut Vec<u8>) -> Result<(), Memory>
    requires { is_named_within (length names.now) cell ≡ true }
    ensures { OnOk result (text.new.items ≡ text.old.items ++ word_text names.now cell) }
{
    push_body(cell.kind, names, text)?;
    if cell.mark {
        text.push(b'\'')?;
    }
    Ok(())
}

// Puts a cell's word without its mark behind a text.
fn push_body(kind: Kind, names: &[Name], text: &mut Vec<u8>) -> Result<(), Memory>
    requires { IfSome (name_of kind) (λ number. number < length names.now) }
    ensures { OnOk result (text.new.items ≡ text.old.items ++ body_text names.now kind) }
{
    match kind {
        Kind::Dead => text.push(b'0')?,
        Kind::Live => text.push(b'1')?,
        Kind::Free => text.push(b'*')?,
        Kind::Named(number) => push_name(number, names, text)?,
        Kind::Negated(number) => {
            text.push(b'-')?;
            push_name(number, names, text)?;
        }
    }
    Ok(())
}

// Puts the name of a number behind a text.
fn push_name(number: u32, names: &[Name], text: &mut Vec<u8>) -> Result<(), Memory>
    requires { number < length names.now }
    ensures { OnOk result (text.new.items ≡ text.old.items ++ slice_index_or names.now number []) }
{
    text.extend_from_slice(names[number as usize].text().as_bytes())?;
    Ok(())
}
