// The additions of a proof, each with what it comes from.
ghost use Rattle.std.specs.Prelude.{◌≡◌, ◌<◌, ◌≤◌, ◌++◌, ◌∷◌, [], length, slice_get, Some, OnOk, OnErr};
ghost use Rattle.std.specs.Option.{option_copied, unwrap_or};
ghost use Rattle.lls_trim.specs.Buffers.{AreEnds, IsEntry, none_yet, ends_before, inference_in, inferences_in, inference_of_ref};

use crate::number::Number;
use lls_base::Memory;
use lls_cnf::Formula;
use lls_lit::Lit;
use std::alloc::Global;
use std::marker::Model;

// Where the literals and the sources of an addition end in the buffers. They begin where those of the one before end.
#[derive(Clone, Copy, Debug)]
struct Ends {
    lits: usize,
    sources: usize,
}

// What is kept of an addition beside its literals and sources.
#[derive(Clone, Copy, Debug)]
struct Entry {
    line: u64,
    is_by_propagation: bool,
    ends: Ends,
}

/// An addition, lent.
#[derive(Clone, Copy, Debug)]
pub(crate) struct InferenceRef<'i> {
    pub(crate) line: u64,
    pub(crate) clause: &'i [Lit],
    pub(crate) by: Option<&'i [Number]>,
}

/// Additions with their lines, and with what they come from by unit propagation.
#[derive(Drop)]
pub(crate) struct Inferences {
    entries: Vec<Entry>,
    lits: Vec<Lit>,
    sources: Vec<Number>,
}

impl Model for Inferences {
    ghost use Rattle.std.specs.Prelude.{List, length};
    ghost use Rattle.lls_trim.specs.Inferences.{Inference};
    ghost use Rattle.lls_trim.specs.Buffers.{AreFilled, none_yet, inferences_in};

    ghost Value = { List Inference };

    ghost view = { λ i. inferences_in i.lits.items i.sources.items none_yet i.entries.items };

    ghost invariant = { λ i. AreFilled (length i.lits.items) (length i.sources.items) i.entries.items };
}

impl Inferences {
    /// The greatest number of additions, so that each has a `Number`. One more is answered `Memory`.
    pub(crate) const MOST: usize = u32::MAX as usize - 1 - Formula::MOST_CLAUSES;

    pub(crate) fn new(alloc: Global) -> Inferences
        ensures { result ≡ [] }
    {
        Inferences {
            entries: Vec::new(alloc),
            lits: Vec::new(alloc),
            sources: Vec::new(alloc),
        }
    }

    pub(crate) fn len(&self) -> usize
        ensures len { result ≡ length self.now }
        ensures most { result ≤ Self.MOST }
    {
        self.entries.len()
    }

    /// Puts an addition behind the others.
    pub(crate) fn push(
        &mut self,
        line: u64,
        clause: &[Lit],
        by: Option<&[Number]>,
    ) -> Result<(), Memory>
        ensures { OnOk result (self.new ≡ self.old ++ record { line = line; clause = clause.now; by = option_copied by.entry } ∷ []) }
    {
        if self.entries.len() >= Self::MOST {
            return Err(Memory);
        }
        self.entries.reserve(1)?;
        fill(&mut self.lits, &mut self.sources, clause, listed(by))?;
        self.entries.push_reserved(Entry {
            line,
            is_by_propagation: by.is_some(),
            ends: Ends {
                lits: self.lits.len(),
                sources: self.sources.len(),
            },
        });
        Ok(())
    }

    /// The addition of that number, counted from 0.
    pub(crate) fn lend(&self, k: usize) -> InferenceRef
        requires { k < length self.now }
        ensures { slice_get self.now k ≡ Some (inference_of_ref result) }
    {
        piece(&self.entries, k, &self.lits, &self.sources)
    }
}

// The sources, or none where the addition isn't by unit propagation.
fn listed<'s>(by: Option<&'s [Number]>) -> &'s [Number]
    ensures { result.now ≡ unwrap_or (option_copied by.entry) [] }
{
    match by {
        Some(sources) => sources,
        None => &[],
    }
}

// Puts literals and sources at the ends of the buffers. After `Memory` both have the items that they had.
fn fill(
    lits: &mut Vec<Lit>,
    sources: &mut Vec<Number>,
    clause: &[Lit],
    by: &[Number],
) -> Result<(), Memory>
    ensures lits { OnOk result (lits.new.items ≡ lits.old.items ++ clause.now) }
    ensures sources { OnOk result (sources.new.items ≡ sources.old.items ++ by.now) }
    ensures err_lits { OnErr result (lits.new.items ≡ lits.old.items) }
    ensures err_sources { OnErr result (sources.new.items ≡ sources.old.items) }
{
    let from = lits.len();
    lits.extend_from_slice(clause)?;
    if sources.extend_from_slice(by).is_err() {
        lits.truncate(from);
        return Err(Memory);
    }
    Ok(())
}

// Where the literals and the sources of the addition of that number begin.
fn start(entries: &[Entry], k: usize) -> Ends
    requires { k ≤ length entries.now }
    ensures { result ≡ ends_before none_yet entries.now k }
{
    if k == 0 {
        Ends {
            lits: 0,
            sources: 0,
        }
    } else {
        entries[k - 1].ends
    }
}

// The addition of that number, where the entries cut the buffers.
fn piece<'i>(
    entries: &[Entry],
    k: usize,
    lits: &'i [Lit],
    sources: &'i [Number],
) -> InferenceRef<'i>
    requires ends { AreEnds none_yet entries.now (length lits.now) (length sources.now) }
    requires place { k < length entries.now }
    ensures { slice_get (inferences_in lits.now sources.now none_yet entries.now) k ≡ Some (inference_of_ref result) }
{
    cut(&entries[k], start(entries, k), lits, sources)
}

// The addition of an entry, cut from the buffers from there on.
fn cut<'i>(entry: &Entry, from: Ends, lits: &'i [Lit], sources: &'i [Number]) -> InferenceRef<'i>
    requires { IsEntry (length lits.now) (length sources.now) from entry.now }
    ensures { inference_of_ref result ≡ inference_in lits.now sources.now from entry.now }
{
    let clause = &lits[from.lits..entry.ends.lits];
    let by = &sources[from.sources..entry.ends.sources];
    InferenceRef {
        line: entry.line,
        clause,
        by: if entry.is_by_propagation {
            Some(by)
        } else {
            None
        },
    }
}
