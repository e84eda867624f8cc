// Where live clauses stand, by what their literals are.
ghost use Rattle.std.specs.Prelude.{◌≡◌, ◌≢◌, ◌==◌, Contains, IsSome, OnOk, [], ℕ, true, false, if◌then◌else◌};
ghost use Rattle.std.specs.Map.{lookup};
ghost use Rattle.lls_store.specs.Clauses.{LiveClause, clause_numbered};
ghost use Rattle.lls_lemmas.specs.Indexed.{newest_in, set_hash, IsIndexed, IsLinked};

use lls_base::Memory;
use lls_store::Store;
use std::alloc::Global;
use std::collections::HashMap;
use std::mem;

/// The number of a clause, and the place of the entry before it with the same hash.
#[derive(Clone, Copy, Debug, Drop)]
pub(crate) struct Entry {
    pub(crate) number: u32,
    pub(crate) before: Option<u32>,
}

/// The numbers of clauses, by a hash of the sets of their literals, and all in a row.
#[derive(Drop)]
pub(crate) struct Index {
    pub(crate) entries: Vec<Entry>,
    newest: HashMap<u32, u32>,
    /// With those of clauses that are no longer live, until they are dropped.
    pub(crate) numbers: Vec<u32>,
    spare: Vec<u32>,
}

impl Index {
    /// That of no clause.
    pub(crate) fn new(alloc: Global) -> Index
        ensures { IsLinked result }
    {
        Index {
            entries: Vec::new(alloc),
            newest: HashMap::new(alloc),
            numbers: Vec::new(alloc),
            spare: Vec::new(alloc),
        }
    }

    /// Puts the number of a clause in, before those with the same hash.
    pub(crate) fn put(&mut self, hash: u32, number: u32) -> Result<(), Memory>
        requires linked { IsLinked self.old }
        ensures linked { IsLinked self.new }
        ensures keeps { (vars : ℕ) (clause : LiveClause) → IsIndexed vars self.old clause → IsIndexed vars self.new clause }
        ensures puts { OnOk result ((vars : ℕ) (clause : LiveClause) → clause.number ≡ number → set_hash vars clause.lits ≡ hash → IsIndexed vars self.new clause) }
    {
        let Ok(place) = u32::try_from(self.entries.len()) else {
            return Err(Memory);
        };
        let before = self.newest(hash);
        self.numbers.push(number)?;
        self.entries.push(Entry { number, before })?;
        self.newest.insert(hash, place)?;
        Ok(())
    }

    /// Takes the number of a clause out that is no longer live, where it is the newest with its hash.
    pub(crate) fn take(&mut self, hash: u32, number: u32)
        requires linked { IsLinked self.old }
        ensures linked { IsLinked self.new }
        ensures keeps { (vars : ℕ) (clause : LiveClause) → clause.number ≢ number → IsIndexed vars self.old clause → IsIndexed vars self.new clause }
    {
        let Some(place) = self.newest(hash) else {
            return;
        };
        let entry = self.entries[place as usize];
        if entry.number == number {
            lead_back(&mut self.newest, hash, entry.before);
        }
    }

    /// The place of the newest entry with a hash.
    pub(crate) fn newest(&self, hash: u32) -> Option<u32>
        ensures { result ≡ newest_in self.now hash }
    {
        self.newest.get(&hash).copied()
    }

    /// Drops the numbers of clauses that are no longer live from the row.
    pub(crate) fn drop_dead<S: Store>(&mut self, store: &S) -> Result<(), Memory>
        requires linked { IsLinked self.old }
        ensures linked { IsLinked self.new }
        ensures keeps { (vars : ℕ) (clause : LiveClause) → Contains (S.state store.now).live clause → IsIndexed vars self.old clause → IsIndexed vars self.new clause }
        ensures alive { OnOk result ((number : ℕ) → Contains self.new.numbers.items number → IsSome (clause_numbered (S.state store.now).live number)) }
    {
        self.spare.clear();
        take_live(store, self.numbers.as_slice(), &mut self.spare)?;
        mem::swap(&mut self.numbers, &mut self.spare);
        Ok(())
    }
}

// Makes an older entry the newest with a hash, or none.
fn lead_back(newest: &mut HashMap<u32, u32>, hash: u32, before: Option<u32>)
    requires known { IsSome (lookup (λ p. hash == p) newest.old.entries) }
    ensures { (q : ℕ) → lookup (λ p. q == p) newest.new.entries ≡ (if hash == q then before else lookup (λ p. q == p) newest.old.entries) }
{
    match before {
        Some(place) => {
            if let Some(newest) = newest.get_mut(&hash) {
                *newest = place;
            }
        }
        None => {
            newest.remove(&hash);
        }
    }
}

// Whether a clause of that number is live.
fn is_live<S: Store>(store: &S, number: u32) -> bool
    ensures some { result ≡ true → IsSome (clause_numbered (S.state store.now).live number) }
    ensures none { result ≡ false → (clause : LiveClause) → Contains (S.state store.now).live clause → clause.number ≢ number }
{
    number < store.count() && store.live(number)
}

// Takes the numbers of live clauses.
fn take_live<S: Store>(store: &S, numbers: &[u32], taken: &mut Vec<u32>) -> Result<(), Memory>
    requires { taken.old.items ≡ [] }
    ensures all { OnOk result ((clause : LiveClause) → Contains (S.state store.now).live clause → Contains numbers.now clause.number → Contains taken.new.items clause.number) }
    ensures alive { OnOk result ((number : ℕ) → Contains taken.new.items number → IsSome (clause_numbered (S.state store.now).live number)) }
{
    for number in numbers {
        if is_live(store, *number) {
            taken.push(*number)?;
        }
    }
    Ok(())
}
