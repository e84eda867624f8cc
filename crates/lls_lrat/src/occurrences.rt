// How often each literal stands in clauses.
ghost use Rattle.std.specs.Prelude.{◌≡◌, ℕ, ◌+◌, ◌-◌, ◌<◌, [], length, OnOk, if◌then◌else◌, ◌==◌};
ghost use Rattle.lls_lit.specs.Literal.{IsLiteral, index_of, literal_at};
ghost use Rattle.lls_lrat.specs.Occurring.{count_at, times_in};

use lls_base::Memory;
use lls_lit::Lit;
use std::alloc::Global;
use std::marker::Model;

/// A count for each literal.
#[derive(Drop)]
pub(crate) struct Occurrences {
    /// By the literal's place in a table of two entries a variable.
    counts: Vec<u64>,
}

impl Model for Occurrences {
    ghost use Rattle.std.specs.Prelude.{List, ℕ};

    ghost Value = { List ℕ };

    ghost view = { λ o. o.counts.items };
}

impl Occurrences {
    /// Each count is 0.
    pub(crate) fn new(alloc: Global) -> Occurrences
        ensures { result ≡ [] }
    {
        Occurrences {
            counts: Vec::new(alloc),
        }
    }

    pub(crate) fn get(&self, lit: Lit) -> u64
        ensures count { result ≡ count_at self.now (index_of lit) }
        ensures literal { IsLiteral lit }
    {
        self.counts.get(lit.index()).copied().unwrap_or(0)
    }

    /// Counts the literals of one more clause.
    pub(crate) fn add(&mut self, lits: &[Lit]) -> Result<(), Memory>
        ensures { OnOk result
            ((i : ℕ) → count_at self.new i ≡ count_at self.old i + times_in (literal_at i) lits.now) }
    {
        add_all(&mut self.counts, lits)
    }

    /// Takes the literals of a clause out of the counts.
    pub(crate) fn subtract(&mut self, lits: &[Lit])
        ensures { (i : ℕ) → count_at self.new i ≡ count_at self.old i - times_in (literal_at i) lits.now }
    {
        subtract_all(&mut self.counts, lits);
    }
}

fn add_all(counts: &mut Vec<u64>, lits: &[Lit]) -> Result<(), Memory>
    ensures { OnOk result
        ((i : ℕ) → count_at counts.new.items i ≡ count_at counts.old.items i + times_in (literal_at i) lits.now) }
{
    for lit in lits {
        increment(counts, lit.index())?;
    }
    Ok(())
}

fn subtract_all(counts: &mut [u64], lits: &[Lit])
    ensures { (i : ℕ) → count_at counts.new i ≡ count_at counts.old i - times_in (literal_at i) lits.now }
{
    for lit in lits {
        decrement(counts, lit.index());
    }
}

// Makes the table reach to a place, and counts one more there.
fn increment(counts: &mut Vec<u64>, place: usize) -> Result<(), Memory>
    ensures { OnOk result ((i : ℕ) → count_at counts.new.items i
        ≡ (if place == i then count_at counts.old.items i + 1 else count_at counts.old.items i)) }
{
    while counts.len() <= place {
        counts.push(0)?;
    }
    let Some(more) = counts[place].checked_add(1) else {
        return Err(Memory);
    };
    counts[place] = more;
    Ok(())
}

fn decrement(counts: &mut [u64], place: usize)
    ensures { (i : ℕ) → count_at counts.new i
        ≡ (if place == i then count_at counts.old i - 1 else count_at counts.old i) }
{
    if place < counts.len() {
        counts[place] = counts[place].saturating_sub(1);
    }
}

/// How often a literal stands in a clause.
pub(crate) fn times_in(clause: &[Lit], lit: Lit) -> u64
    ensures { result ≡ times_in lit clause.now }
{
    let mut times = 0;
    for other in clause {
        if lit == *other {
            times += 1;
        }
    }
    times
}
