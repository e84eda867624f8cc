// What a trail knows of variables beside their values.
ghost use Rattle.std.specs.Prelude.{◌≡◌, ◌<◌, None, IfOk, length, slice_index_or, slice_set};
ghost use Rattle.lls_store.specs.Columns.{HasRows};

use lls_base::Memory;
use std::alloc::Global;
use std::marker::Model;

// Of a variable with a value: its level, where its literal stands in the trail, and the clause that forced it.
#[derive(Clone, Copy, Debug)]
pub(crate) struct Row {
    pub(crate) level: u32,
    pub(crate) place: u32,
    pub(crate) reason: Option<u32>,
}

// A row for each variable, so that what is known of one lies together.
#[derive(Debug, Drop)]
pub(crate) struct Rows {
    rows: Vec<Row>,
}

impl Model for Rows {
    ghost use Rattle.lls_store.specs.Columns.{Columns};
    ghost use Rattle.lls_store.specs.RowColumns.{columns_of};

    ghost Value = { Columns };

    ghost view = { λ t. columns_of t.rows.items };
}

impl Rows {
    // So many rows, of which nothing is said.
    pub(crate) fn new(alloc: Global, vars: u32) -> Result<Rows, Memory>
        ensures { IfOk result (λ rows. HasRows vars rows) }
    {
        let blank = Row {
            level: 0,
            place: 0,
            reason: None,
        };
        let rows = vec![in alloc; blank; vars as usize]?;
        Ok(Rows { rows })
    }

    #[inline]
    pub(crate) fn level(&self, i: usize) -> u32
        requires { i < length self.now.levels }
        ensures { result ≡ slice_index_or self.now.levels i 0 }
    {
        self.rows[i].level
    }

    #[inline]
    pub(crate) fn place(&self, i: usize) -> usize
        requires { i < length self.now.levels }
        ensures { result ≡ slice_index_or self.now.places i 0 }
    {
        self.rows[i].place as usize
    }

    #[inline]
    pub(crate) fn reason(&self, i: usize) -> Option<u32>
        requires { i < length self.now.levels }
        ensures { result ≡ slice_index_or self.now.reasons i None }
    {
        self.rows[i].reason
    }

    #[inline]
    pub(crate) fn write(&mut self, i: usize, row: Row)
        requires { i < length self.old.levels }
        ensures { self.new ≡ record {
          levels = slice_set self.old.levels i row.level;
          places = slice_set self.old.places i row.place;
          reasons = slice_set self.old.reasons i row.reason;
        } }
    {
        self.rows[i] = row;
    }

    pub(crate) fn set_reason(&mut self, i: usize, reason: Option<u32>)
        requires { i < length self.old.levels }
        ensures { self.new ≡ record self.old { reasons = slice_set self.old.reasons i reason } }
    {
        self.rows[i].reason = reason;
    }
}
