// A word of a line that writes a number.
ghost use Rattle.std.specs.Prelude.{◌≡◌};
ghost use Rattle.lls_prooflog.specs.Number.{in_range};
ghost use Rattle.lls_prooflog.specs.Numeral.{is_end_value};

use crate::LineFault;
use crate::kind::Kind;

/// A number, and the column of its word.
///
/// It has no `bool` for its sign: bytes that are written one by one and read together cost more than the digits.
#[derive(Clone, Copy, Debug)]
pub(crate) struct Numeral {
    pub(crate) column: u64,
    pub(crate) value: i64,
}

impl Numeral {
    /// Whether the word ends a list.
    pub(crate) fn is_end(&self) -> bool
        ensures { result ≡ is_end_value self.now.value }
    {
        self.value == 0
    }

    /// What is kept of the number as one of that kind, or `Range` where it can't be one.
    pub(crate) fn read<K: Kind>(&self) -> Result<K::Item, LineFault>
        ensures { result ≡ in_range self.now.column (K.item_of self.now.value) }
    {
        match K::from_number(self.value) {
            Some(item) => Ok(item),
            None => Err(LineFault::Range(self.column)),
        }
    }
}
