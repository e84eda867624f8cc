// An arena of clauses.
ghost use Rattle.std.specs.Prelude.{◌≡◌, ◌≢◌, ◌<◌, ◌≤◌, ◌+◌, ◌-◌, [], ◌∷◌, ◌++◌, false, true, not, length, map, slice_get, take, None, Some, IfSome, OnOk};
ghost use Rattle.std.specs.List.{slice_range};
ghost use Rattle.std.specs.Option.{ForSome};
ghost use Rattle.lls_arena.specs.declared.TheConstants.{MOST_HEADS, MOST_LITS};
ghost use Rattle.lls_arena.specs.Arena.{IsLive, changed_at, compacted, empty_arena, killed, link_of, live_before, place_of, sealed, swapped, unlinked, with_link};
ghost use Rattle.lls_arena.specs.Links.{link_in, side_in};
ghost use Rattle.lls_arena.specs.Parts.{AreAllWatched, AreInOrder, AreSlid, AreTold, DifferWithin, HaveRows, heads_in, spans_in};

use crate::edge_table::EdgeTable;
use crate::edges::{Edges, Link, place};
use crate::{MOST_HEADS, MOST_LITS};
use lls_base::Memory;
use lls_lit::Lit;
use std::alloc::Global;
use std::marker::Model;

// Where a clause's literals stand in the buffer, in 8 bytes.
#[derive(Clone, Copy, Debug)]
struct Span {
    start: u32,
    end: u32,
}

/// Clauses in place, by number from 0, and one more that is being built at the tail.
///
/// A clause has two edges, for two lists of watches: each has the first or the second literal, and a link, which is whatever
/// number was put there. A clause that is dead keeps its number until the arena is compacted.
///
/// It holds at most [`MOST_HEADS`](crate::MOST_HEADS) clauses, and 4,294,967,295 literals, which take 16 GiB.
#[derive(Debug, Drop)]
pub struct Arena {
    // These four have a row for each clause. A visit reads no id, so the cache holds more of what it reads.
    edges: EdgeTable,
    spans: Vec<Span>,
    lives: Vec<bool>,
    ids: Vec<u64>,
    // The literals of the clauses, one clause after another, and behind them the tail.
    lits: Vec<Lit>,
    tail: usize,
    // How many more clauses and literals fit without memory being taken.
    spare_heads: usize,
    spare_lits: usize,
    planned: bool,
}

impl Model for Arena {
    ghost use Rattle.std.specs.Prelude.{◌≡◌, true, length, vec_capacity};
    ghost use Rattle.lls_arena.specs.Arena.{ArenaState};
    ghost use Rattle.lls_arena.specs.Links.{link_in};
    ghost use Rattle.lls_arena.specs.Parts.{arena_in, AreParts, HaveRoom, HaveRows, SayWhereTo, spans_in};

    ghost Value = { ArenaState };

    ghost view = { λ a. arena_in a.edges.pairs (spans_in a.spans.items a.lives.items a.ids.items) a.lits.items a.tail a.spare_heads a.spare_lits a.planned };

    ghost invariant = { λ a. AreParts a.edges.pairs (spans_in a.spans.items a.lives.items a.ids.items) a.lits.items a.tail
        × HaveRoom (length a.edges.pairs) (length a.spans.items) (length a.lits.items) a.spare_heads a.spare_lits (a.edges.room) (vec_capacity a.spans) (vec_capacity a.lives) (vec_capacity a.ids) (vec_capacity a.lits)
        × (a.planned ≡ true → SayWhereTo a.edges.pairs a.lives.items)
        × HaveRows a.spans.items a.lives.items a.ids.items };
}

impl Arena {
    /// No clause. Takes no memory.
    pub fn new(alloc: Global) -> Arena
        ensures { result ≡ empty_arena }
    {
        Arena {
            edges: EdgeTable::new(alloc),
            spans: Vec::new(alloc),
            lives: Vec::new(alloc),
            ids: Vec::new(alloc),
            lits: Vec::new(alloc),
            tail: 0,
            spare_heads: 0,
            spare_lits: 0,
            planned: false,
        }
    }

    /// Makes room for at least so many more clauses and literals. No other call takes memory. After `Memory` there may be
    /// room for more than before. It comes too where the clauses, with the room for more, would be more than [`MOST_HEADS`](crate::MOST_HEADS), or
    /// the literals more than 4,294,967,295, which are 16 GiB.
    pub fn reserve(&mut self, heads: u32, lits: usize) -> Result<(), Memory>
        ensures ok_heads { OnOk result (heads ≤ self.new.spare_heads) }
        ensures ok_lits { OnOk result (lits ≤ self.new.spare_lits) }
        ensures same { self.new ≡ record self.old { spare_heads = self.new.spare_heads; spare_lits = self.new.spare_lits } }
        ensures heads { self.old.spare_heads ≤ self.new.spare_heads }
        ensures lits { self.old.spare_lits ≤ self.new.spare_lits }
    {
        let heads = self.spare_heads.max(heads as usize);
        let lits = self.spare_lits.max(lits);
        if heads > MOST_HEADS as usize - self.spans.len() {
            return Err(Memory);
        }
        if lits > MOST_LITS as usize - self.lits.len() {
            return Err(Memory);
        }
        self.edges.reserve(heads)?;
        self.spans.reserve(heads)?;
        self.lives.reserve(heads)?;
        self.ids.reserve(heads)?;
        self.spare_heads = heads;
        self.lits.reserve(lits)?;
        self.spare_lits = lits;
        Ok(())
    }

    /// How many clauses there are, dead ones too.
    pub fn count(&self) -> u32
        ensures count { result ≡ length self.now.heads }
        ensures most { result ≤ MOST_HEADS }
    {
        self.spans.len() as u32
    }

    /// Whether a clause is live.
    #[inline]
    pub fn live(&self, c: u32) -> bool
        requires { c < length self.now.heads }
        ensures { slice_get (map (λ head. head.live) self.now.heads) c ≡ Some result }
    {
        self.lives[c as usize]
    }

    /// The id of a clause.
    pub fn id(&self, c: u32) -> u64
        requires { c < length self.now.heads }
        ensures { slice_get (map (λ head. head.id) self.now.heads) c ≡ Some result }
    {
        self.ids[c as usize]
    }

    /// The literals of a clause.
    #[inline]
    pub fn lits(&self, c: u32) -> &[Lit]
        requires { c < length self.now.heads }
        ensures { slice_get (map (λ head. head.lits) self.now.heads) c ≡ Some result.now }
    {
        let span = self.spans[c as usize];
        piece(&self.lits, span.start as usize, span.end as usize)
    }

    /// The link of a clause's first edge, or of its second where `w`.
    #[inline]
    pub fn link(&self, c: u32, w: bool) -> Link
        requires { c < length self.now.heads }
        ensures { slice_get (map (link_of w) self.now.heads) c ≡ Some (link_in result) }
    {
        self.edges.edge(c, w).next
    }

    /// The literal of a clause's first edge, or of its second where `w`: the first or second of its literals, read without
    /// going to the buffer.
    #[inline]
    pub fn watched(&self, c: u32, w: bool) -> Lit
        requires count { c < length self.now.heads }
        requires long { ForSome (slice_get self.now.heads c) (λ head. place_of w < length head.lits) }
        ensures { IfSome (slice_get self.now.heads c) (λ head. slice_get head.lits (place_of w) ≡ Some result) }
    {
        self.edges.edge(c, w).lit
    }

    /// The link of the edge that a link names. It is read without a step between, so that a list is walked at the speed of its memory.
    #[inline]
    pub fn next(&self, link: Link) -> Link
        requires leads { link_in link ≢ None }
        requires within { ForSome (link_in link) (λ c. c < length self.now.heads) }
        ensures { ForSome (link_in link) (λ c. slice_get (map (link_of (side_in link)) self.now.heads) c ≡ Some (link_in result)) }
    {
        self.edges.named(link).next
    }

    /// The literal of the edge that a link names: the first or second literal of its clause.
    #[inline]
    pub fn watched_by(&self, link: Link) -> Lit
        requires leads { link_in link ≢ None }
        requires within { ForSome (link_in link) (λ c. c < length self.now.heads) }
        requires long { ForSome (link_in link) (λ c. ForSome (slice_get self.now.heads c) (λ head. place_of (side_in link) < length head.lits)) }
        ensures { ForSome (link_in link) (λ c. IfSome (slice_get self.now.heads c) (λ head. slice_get head.lits (place_of (side_in link)) ≡ Some result)) }
    {
        self.edges.named(link).lit
    }

    /// Gives one edge of a clause another link. A dead clause's too, since a list leads through it until it is dropped there.
    #[inline]
    pub fn set_link(&mut self, c: u32, w: bool, next: Link)
        requires { c < length self.old.heads }
        ensures { self.new ≡ record self.old { heads = changed_at (with_link w (link_in next)) c self.old.heads; planned = false } }
    {
        self.edges.set_next(c, w, next);
        self.planned = false;
    }

    /// Gives the edge that a link names another link, written without a step between. A dead clause's too.
    #[inline]
    pub fn set_next(&mut self, link: Link, next: Link)
        requires leads { link_in link ≢ None }
        requires within { ForSome (link_in link) (λ c. c < length self.old.heads) }
        ensures { ForSome (link_in link) (λ c. self.new ≡ record self.old { heads = changed_at (with_link (side_in link) (link_in next)) c self.old.heads; planned = false }) }
    {
        self.edges.lead(link, next);
        self.planned = false;
    }

    /// Puts the literal of a live clause's first edge, or of its second where `w`, and the one at place n in each other's place. The edge
    /// watches the one that came, which it answers. The other edge's literal isn't at n.
    #[inline]
    pub fn swap(&mut self, c: u32, w: bool, n: usize) -> Lit
        requires live { IsLive self.old.heads c }
        requires first { ForSome (slice_get self.old.heads c) (λ head. place_of w < length head.lits) }
        requires second { ForSome (slice_get self.old.heads c) (λ head. n < length head.lits) }
        requires beside { n ≢ place_of (not w) }
        ensures state { self.new ≡ record self.old { heads = changed_at (swapped (place_of w) n) c self.old.heads } }
        ensures came { IfSome (slice_get self.old.heads c) (λ head. slice_get head.lits n ≡ Some result) }
    {
        let start = self.spans[c as usize].start as usize;
        let here = start + place(w);
        let there = start + n;
        let lit = self.lits[there];
        self.lits.swap(here, there);
        self.edges.watch(c, w, lit);
        lit
    }

    /// Makes a live clause dead.
    pub fn kill(&mut self, c: u32)
        requires { IsLive self.old.heads c }
        ensures { self.new ≡ record self.old { heads = changed_at killed c self.old.heads; planned = false } }
    {
        self.lives[c as usize] = false;
        self.planned = false;
    }

    /// Puts a literal at the end of the tail.
    #[inline]
    pub fn append(&mut self, lit: Lit)
        requires { 0 < self.old.spare_lits }
        ensures { self.new ≡ record self.old { tail = self.old.tail ++ lit ∷ []; spare_lits = self.old.spare_lits - 1 } }
    {
        self.lits.push_reserved(lit);
        self.spare_lits -= 1;
    }

    /// Keeps the first literals of the tail.
    pub fn cut(&mut self, keep: usize)
        ensures { self.new ≡ record self.old { tail = take keep self.old.tail; spare_lits = self.old.spare_lits + (length self.old.tail - keep) } }
    {
        let end = self.lits.len();
        if keep < end - self.tail {
            let kept = self.tail + keep;
            self.lits.truncate(kept);
            self.spare_lits += end - kept;
        }
    }

    /// Makes the tail a live clause with no links, and answers its number.
    pub fn seal(&mut self, id: u64) -> u32
        requires { 0 < self.old.spare_heads }
        ensures number { result ≡ length self.old.heads }
        ensures state { self.new ≡ sealed self.old id }
    {
        let number = self.spans.len() as u32;
        let end = self.lits.len();
        self.edges
            .push(Edges::of(piece(&self.lits, self.tail, end)));
        self.spans.push_reserved(Span {
            start: self.tail as u32,
            end: end as u32,
        });
        self.lives.push_reserved(true);
        self.ids.push_reserved(id);
        self.tail = end;
        self.spare_heads -= 1;
        self.planned = false;
        number
    }

    /// Settles where each live clause is to go, for which links may be lost.
    pub fn plan_compact(&mut self)
        requires { self.old.tail ≡ [] }
        ensures heads { map unlinked self.new.heads ≡ map unlinked self.old.heads }
        ensures same { self.new ≡ record self.old { heads = self.new.heads; planned = true } }
    {
        tell_where_to(&mut self.edges, &self.lives);
        self.planned = true;
    }

    /// Where a live clause is to go: so many live ones are before it.
    #[inline]
    pub fn moved_to(&self, c: u32) -> u32
        requires planned { self.now.planned ≡ true }
        requires live { IsLive self.now.heads c }
        ensures { result ≡ live_before self.now.heads c }
    {
        // A live clause has been told, so its own number is never the answer of want of one.
        self.edges.edge(c, false).next.clause().unwrap_or(c)
    }

    /// Takes the dead clauses away, and all links: the live ones slide down in place, in their order.
    pub fn finish_compact(&mut self)
        requires planned { self.old.planned ≡ true }
        requires tail { self.old.tail ≡ [] }
        ensures { self.new ≡ compacted self.old }
    {
        let (kept, end) = slide_live(
            &mut self.edges,
            &mut self.spans,
            &mut self.lives,
            &mut self.ids,
            &mut self.lits,
        );
        self.edges.truncate(kept);
        self.spans.truncate(kept);
        self.lives.truncate(kept);
        self.ids.truncate(kept);
        self.lits.truncate(end as usize);
        self.tail = end as usize;
        self.planned = false;
    }
}

// Slides the live clauses down over the dead ones: how many there are, and where their literals end.
fn slide_live(
    edges: &mut EdgeTable,
    spans: &mut [Span],
    lives: &mut [bool],
    ids: &mut [u64],
    lits: &mut [Lit],
) -> (usize, u32)
    requires rows { HaveRows spans.old lives.old ids.old }
    requires few { length lits.old ≤ MOST_LITS }
    requires in_order { AreInOrder 0 (spans_in spans.old lives.old ids.old) (length lits.old) }
    requires watched { AreAllWatched lits.old edges.old.pairs (spans_in spans.old lives.old ids.old) }
    ensures edges { length edges.new.pairs ≡ length edges.old.pairs }
    ensures room { edges.new.room ≡ edges.old.room }
    ensures slid { AreSlid (heads_in lits.old edges.old.pairs (spans_in spans.old lives.old ids.old)) edges.new.pairs (spans_in spans.new lives.new ids.new) lits.new result.0 result.1 }
{
    let mut kept = 0;
    let mut end = 0;
    for k in 0..spans.len() {
        if lives[k] {
            let span = spans[k];
            let start = end;
            end = start + (span.end - span.start);
            slide(lits, span.start as usize, span.end as usize, start as usize);
            edges.put(kept, edges.both(k).unlinked());
            spans[kept] = Span { start, end };
            lives[kept] = true;
            ids[kept] = ids[k];
            kept += 1;
        }
    }
    (kept, end)
}

// Copies a piece to where it may overlap itself from before.
#[inline]
fn slide(lits: &mut [Lit], start: usize, end: usize, to: usize)
    requires down { to ≤ start }
    requires straight { start ≤ end }
    requires within { end ≤ length lits.old }
    ensures moved { slice_range lits.new to (to + (end - start)) ≡ slice_range lits.old start end }
    ensures outside { DifferWithin lits.old lits.new to (to + (end - start)) }
{
    for k in 0..end - start {
        lits[to + k] = lits[start + k];
    }
}

// Puts at the first edge of each live clause how many live ones are before it.
fn tell_where_to(edges: &mut EdgeTable, lives: &[bool])
    requires each { length edges.old.pairs ≡ length lives.now }
    requires few { length lives.now ≤ MOST_HEADS }
    ensures room { edges.new.room ≡ edges.old.room }
    ensures told { AreTold edges.old.pairs edges.new.pairs lives.now }
{
    let mut before = 0;
    for k in 0..lives.len() {
        if lives[k] {
            edges.set_next(k as u32, false, Link::to(before, false));
            before += 1;
        }
    }
}

#[inline]
fn piece(lits: &[Lit], start: usize, end: usize) -> &[Lit]
    requires straight { start ≤ end }
    requires within { end ≤ length lits.now }
    ensures { result.now ≡ slice_range lits.now start end }
{
    &lits[start..end]
}
