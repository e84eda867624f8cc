// What ids name.
ghost use Rattle.std.specs.Prelude.{◌≡◌, ◌≤◌, All, OnOk, take, length};
ghost use Rattle.lls_lit.specs.Literal.{variable_of};
ghost use Rattle.lls_cnf.specs.declared.formula.TheConstants.Formula.{MOST_CLAUSES};
ghost use Rattle.lls_prooflog.specs.Lent.{hints_of};
ghost use Rattle.lls_trim.specs.declared.inferences.TheConstants.Inferences.{MOST};
ghost use Rattle.lls_trim.specs.Inferences.{with_name, sources_of};
ghost use Rattle.lls_trim.specs.Numbers.{IsNumbered};
ghost use Rattle.lls_trim.specs.Buffers.{names_in};

use crate::number::Number;
use crate::source::Source;
use lls_base::Memory;
use lls_lrat::Places;
use lls_prooflog::HintsRef;
use std::alloc::Global;

/// What each id names: the formula's clause of that id, or the last addition that has it. An addition's place is its number.
///
/// It isn't told of deletions: a clause of an id that is live is the last one that has it, since an id is given again only behind the
/// deletion of the one before.
#[derive(Drop)]
pub(crate) struct Names {
    places: Places,
}

impl Names {
    ghost use Rattle.lls_trim.specs.declared.source.Source.TheVariants.{Given};

    /// No addition has an id. Most will have ids behind those of the formula's clauses, of which there are so many.
    pub(crate) fn new(alloc: Global, given: usize) -> Names
        requires { given ≤ MOST_CLAUSES }
        ensures { names_in result ≡ Given }
    {
        Names {
            places: Places::new(alloc, given as u64 + 1),
        }
    }

    pub(crate) fn get(&self, id: u64) -> Source
        ensures { result ≡ names_in self.now id }
    {
        match self.places.get(id) {
            Some(k) => Source::Added(k as usize),
            None => Source::Given(id),
        }
    }

    /// The id names the addition of that number from here on.
    pub(crate) fn put(&mut self, id: u64, k: usize) -> Result<(), Memory>
        requires { k ≤ MOST }
        ensures { OnOk result (names_in self.new ≡ with_name (names_in self.old) id k) }
    {
        self.places.put(id, k as u32)?;
        Ok(())
    }
}

/// Makes a list of what so many hints name.
pub(crate) fn list_sources(
    names: &Names,
    hints: HintsRef,
    count: usize,
    sources: &mut Vec<Number>,
) -> Result<(), Memory>
    requires within { count ≤ length (hints_of hints) }
    requires numbered { All IsNumbered (sources_of (names_in names.now) (take count (hints_of hints))) }
    ensures { OnOk result (sources.new.items ≡ sources_of (names_in names.now) (take count (hints_of hints.entry))) }
{
    sources.clear();
    for k in 0..count {
        sources.push(Number::of(names.get(id_of(hints.get(k)))))?;
    }
    Ok(())
}

// The id that a hint names.
fn id_of(hint: i64) -> u64
    ensures { result ≡ variable_of hint }
{
    hint.unsigned_abs()
}
