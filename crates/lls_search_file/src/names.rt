// Names of cells, numbered by first appearance.
ghost use Rattle.std.specs.Prelude.{◌≡◌, ◌<◌, ◌≤◌, ◌+◌, ◌^◌, ◌++◌, true, length, map, IfOk, OnOk};
ghost use Rattle.std.specs.List.{list_all, position_or_len};
ghost use Rattle.lls_search_file.specs.Posed.{is_name, same_text};
ghost use Rattle.lls_search_file.specs.Reading.{name_said, cell_said};
ghost use Rattle.lls_search_file.specs.Seen.{seen_word};
ghost use Rattle.lls_search_file.specs.Kept.{IsNumbered, is_spelled, texts, with_name, words_in};

use crate::word::{Said, Word};
use crate::{Cell, Kind};
use indexmap::IndexSet;
use lls_base::{Memory, Name};
use lls_grid::History;
use std::alloc::Global;

/// Puts the cells of words behind the others, their names numbered.
pub(crate) fn push_words<'t>(
    words: &[Word<'t>],
    cells: &mut Vec<Cell>,
    names: &mut IndexSet<&'t [u8]>,
) -> Result<(), Memory>
    requires numbered { IsNumbered (texts names.old.keys) cells.old.items }
    requires spelled { list_all is_spelled (map seen_word words.now) ≡ true }
    requires most { length cells.old.items + length words.now ≤ History.MOST_CELLS }
    ensures words { OnOk result (words_in (texts names.new.keys) cells.new.items ≡ words_in (texts names.old.keys) cells.old.items ++ map seen_word words.now) }
    ensures count { OnOk result (length cells.new.items ≡ length cells.old.items + length words.now) }
    ensures numbered { OnOk result (IsNumbered (texts names.new.keys) cells.new.items) }
{
    for word in words {
        let cell = number(*word, names)?;
        cells.push(cell)?;
    }
    Ok(())
}

// The cell of a word, its name numbered.
fn number<'t>(word: Word<'t>, names: &mut IndexSet<&'t [u8]>) -> Result<Cell, Memory>
    requires most { length names.old.keys < 2 ^ 32 }
    ensures cell { IfOk result (λ cell. cell ≡ cell_said (texts names.old.keys) (seen_word word.entry)) }
    ensures names { OnOk result (texts names.new.keys ≡ with_name (texts names.old.keys) (name_said (seen_word word.entry).says)) }
{
    let kind = match word.says {
        Said::Dead => Kind::Dead,
        Said::Live => Kind::Live,
        Said::Free => Kind::Free,
        Said::Named(name) => Kind::Named(number_of(name, names)?),
        Said::Negated(name) => Kind::Negated(number_of(name, names)?),
    };
    Ok(Cell {
        mark: word.mark,
        kind,
    })
}

// The number of a name, which is the next one where the name is new.
fn number_of<'t>(name: &'t [u8], names: &mut IndexSet<&'t [u8]>) -> Result<u32, Memory>
    requires most { length names.old.keys < 2 ^ 32 }
    ensures number { IfOk result (λ number. number ≡ position_or_len (same_text name.entry.now) (texts names.old.keys)) }
    ensures names { OnOk result (texts names.new.keys ≡ with_name (texts names.old.keys) (Some name.entry.now)) }
{
    let (index, _) = names.insert_full(name)?;
    Ok(index as u32)
}

/// The names with their own memory.
pub(crate) fn owned_names(alloc: Global, names: &IndexSet<&[u8]>) -> Result<Vec<Name>, Memory>
    requires { list_all is_name (texts names.now.keys) ≡ true }
    ensures { IfOk result (λ owned. owned.items ≡ texts names.now.keys) }
{
    let mut owned = Vec::new(alloc);
    for name in names {
        owned.push(owned_name(alloc, name)?)?;
    }
    Ok(owned)
}

// A name with its own memory.
fn owned_name(alloc: Global, name: &[u8]) -> Result<Name, Memory>
    requires { is_name name.now ≡ true }
    ensures { IfOk result (λ owned. owned ≡ name.now) }
{
    let Ok(text) = std::str::from_utf8(name) else {
        unreachable!()
    };
    Ok(Name::new(String::from_str(alloc, text)?))
}
