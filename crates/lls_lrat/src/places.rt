// The places of ids: where the clause of a live id is stored, or what number an addition has.
ghost use Rattle.std.specs.Prelude.{◌≡◌, ℕ, ◌+◌, ◌<◌, ◌≤◌, Some, None, OnOk, OnErr, IfOk, IfSome, if◌then◌else◌, ◌==◌, length};
ghost use Rattle.std.specs.Map.{lookup};
ghost use Rattle.lls_lrat.specs.Placed.{slot, in_table, place_of};

use lls_base::Memory;
use std::alloc::Global;
use std::collections::HashMap;

// How many entries the table may have for each place, beside a few to spare.
const ENTRIES_PER_PLACE: usize = 8;

const SPARE_ENTRIES: usize = 1024;

/// A map from ids to places, where places are counted from 0. It is made for ids that ascend as their places do, as those of a
/// proof's additions mostly do. A contract sees the place of each id, by `place_of`.
///
/// A table has an entry for each id from its first on. An id before that is kept in a hash map, and so is one so far
/// behind that the table would get more than 8 entries for each place before its own, and 1,024 to spare. So ids that ascend
/// are looked up in the table, and where the places ascend by one, all takes memory by their number, whatever the ids.
#[derive(Drop)]
pub struct Places {
    first: u64,
    table: Vec<Option<u32>>,
    rest: HashMap<u64, u32>,
}

impl Places {
    /// No places. Ids before the least one will be in the hash map.
    pub fn new(alloc: Global, least: u64) -> Places
        ensures { (q : ℕ) → place_of result q ≡ None }
    {
        Places {
            first: least,
            table: Vec::new(alloc),
            rest: HashMap::new(alloc),
        }
    }

    /// No places. The table has the ids up to the newest one, as many as it may have for so many places.
    pub(crate) fn up_to(alloc: Global, newest: u64, places: usize) -> Result<Places, Memory>
        ensures { IfOk result (λ p. (q : ℕ) → place_of p q ≡ None) }
    {
        let entries = places.saturating_mul(ENTRIES_PER_PLACE);
        let table = vec![in alloc; None; entries]?;
        Ok(Places {
            first: newest.saturating_sub(entries as u64),
            table,
            rest: HashMap::new(alloc),
        })
    }

    /// The place of an id, if it has one.
    #[inline]
    pub fn get(&self, id: u64) -> Option<u32>
        ensures { result ≡ place_of self.now id }
    {
        match entry(&self.table, self.first, id) {
            Some(place) => Some(place),
            None => in_rest(&self.rest, id),
        }
    }

    /// Gives an id its place, whatever place it had. After `Memory` each id has the place that it had before.
    pub fn put(&mut self, id: u64, place: u32) -> Result<(), Memory>
        ensures ok { OnOk result ((q : ℕ) → place_of self.new q ≡ (if id == q then Some place else place_of self.old q)) }
        ensures err { OnErr result ((q : ℕ) → place_of self.new q ≡ place_of self.old q) }
    {
        self.first = begun(&self.table, self.first, id);
        match near(&self.table, self.first, id, place) {
            Some(k) => set_entry(&mut self.table, k, place)?,
            None => {
                self.rest.insert(id, place)?;
            }
        }
        Ok(())
    }

    /// Takes a place out, and gives it.
    pub(crate) fn take(&mut self, id: u64) -> Option<u32>
        ensures place { result ≡ place_of self.old id }
        ensures others { (q : ℕ) → place_of self.new q ≡ (if id == q then None else place_of self.old q) }
    {
        let place = self.get(id);
        clear_entry(&mut self.table, self.first, id);
        self.rest.remove(&id);
        place
    }
}

// The first id of the table, which begins at the id where it has no entry yet.
fn begun(table: &[Option<u32>], first: u64, id: u64) -> u64
    ensures { (q : ℕ) → in_table result table.now q ≡ in_table first table.now q }
{
    if table.is_empty() && first < id {
        id
    } else {
        first
    }
}

// What the table has for an id.
fn entry(table: &[Option<u32>], first: u64, id: u64) -> Option<u32>
    ensures { result ≡ in_table first table.now id }
{
    if id < first {
        return None;
    }
    table.get((id - first) as usize).copied().flatten()
}

// What the hash map has for an id. It stands apart, so that the look-up in the table stays short where it is inlined.
#[cold]
fn in_rest(rest: &HashMap<u64, u32>, id: u64) -> Option<u32>
    ensures { result ≡ lookup (λ q. id == q) rest.now.entries }
{
    rest.get(&id).copied()
}

// Where the entry of an id is or may be put.
fn near(table: &[Option<u32>], first: u64, id: u64, place: u32) -> Option<usize>
    ensures index { IfSome result (λ k. id ≡ first + k) }
    ensures beyond { result ≡ None → in_table first table.now id ≡ None }
{
    if id < first {
        return None;
    }
    let k = (id - first) as usize;
    let most = ENTRIES_PER_PLACE * place as usize + SPARE_ENTRIES;
    if k < table.len() || k < most {
        Some(k)
    } else {
        None
    }
}

// Sets an entry, and makes the table reach to it. After an error each entry is as before.
fn set_entry(table: &mut Vec<Option<u32>>, k: usize, place: u32) -> Result<(), Memory>
    ensures ok { OnOk result ((j : ℕ) → slot table.new.items j ≡ (if k == j then Some place else slot table.old.items j)) }
    ensures err { OnErr result ((j : ℕ) → slot table.new.items j ≡ slot table.old.items j) }
{
    while table.len() <= k {
        table.push(None)?;
    }
    table[k] = Some(place);
    Ok(())
}

fn clear_entry(table: &mut [Option<u32>], first: u64, id: u64)
    ensures { (q : ℕ) → in_table first table.new q ≡ (if id == q then None else in_table first table.old q) }
{
    if id < first {
        return;
    }
    let k = (id - first) as usize;
    if k < table.len() {
        table[k] = None;
    }
}
