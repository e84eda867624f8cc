// The cells of a row.
ghost use Rattle.std.specs.Prelude.{◌≡◌, ◌<◌, ◌^◌, not, true, position, IfSome, map};
ghost use Rattle.std.specs.Char.{is_ascii};
ghost use Rattle.lls_base.specs.Results.{GivesWrapped};
ghost use Rattle.lls_search_file.specs.Words.{row_of, cells_read, pieces_of};
ghost use Rattle.lls_search_file.specs.Seen.{seen_word};

use crate::word::{Word, read_word, word_len};
use crate::{PosedError, PosedFault};
use lls_text::is_blank;
use std::alloc::Global;

/// The cells of a row.
pub(crate) fn read_row(alloc: Global, line: u64, bytes: &[u8]) -> Result<Vec<Word<'_>>, PosedError>
    ensures { GivesWrapped PosedError.Fault (λ cells. map seen_word cells.items) result (row_of line bytes.now) }
{
    match first_beyond_ascii(bytes) {
        Some(index) => Err(PosedError::Fault(PosedFault::NotAscii(line, index as u64 + 1))),
        None => read_cells(alloc, line, bytes),
    }
}

// Where the first byte stands that isn't ASCII.
fn first_beyond_ascii(bytes: &[u8]) -> Option<usize>
    ensures place { result ≡ position (λ b. not (is_ascii b)) bytes.now }
    ensures within { IfSome result (λ index. index < 2 ^ 63) }
{
    bytes.iter().position(|byte| !byte.is_ascii())
}

// The cells of a row of ASCII bytes.
fn read_cells(alloc: Global, line: u64, bytes: &[u8]) -> Result<Vec<Word<'_>>, PosedError>
    ensures { GivesWrapped PosedError.Fault (λ cells. map seen_word cells.items) result (cells_read line true (pieces_of 1 bytes.now)) }
{
    let mut cells = Vec::new(alloc);
    let mut after_comma = true;
    let mut at = 0;
    while at < bytes.len() {
        let column = at as u64 + 1;
        if is_blank(bytes[at]) {
            at += 1;
        } else if bytes[at] == b',' {
            if after_comma {
                return Err(PosedError::Fault(PosedFault::BadCell(line, column)));
            }
            after_comma = true;
            at += 1;
        } else {
            let end = at + word_len(&bytes[at..]);
            let Some(cell) = read_word(&bytes[at..end]) else {
                return Err(PosedError::Fault(PosedFault::BadCell(line, column)));
            };
            cells.push(cell)?;
            after_comma = false;
            at = end;
        }
    }
    Ok(cells)
}
