// The edges of all clauses.
ghost use Rattle.std.specs.Prelude.{◌≡◌, ◌≢◌, ◌<◌, ◌≤◌, ◌+◌, None, [], ◌∷◌, ◌++◌, if◌then◌else◌, length, slice_index_or, slice_set, take, OnOk};
ghost use Rattle.lls_arena.specs.declared.TheConstants.{MOST_HEADS};
ghost use Rattle.lls_arena.specs.Links.{link_in, no_pair, side_in, with_lit, with_next};
ghost use Rattle.std.specs.Option.{ForSome};

use crate::edges::{Edge, Edges, Link, place_in};
use lls_base::Memory;
use lls_lit::Lit;
use std::alloc::Global;
use std::marker::Model;

// The two edges of each clause, beside each other in one list: so a link is told from the place of its edge without a step between.
#[derive(Debug, Drop)]
pub(crate) struct EdgeTable {
    edges: Vec<Edge>,
}

impl Model for EdgeTable {
    ghost use Rattle.std.specs.Prelude.{◌≡◌, ◌*◌, ◌/◌, length, vec_capacity};
    ghost use Rattle.lls_arena.specs.Links.{EdgeTableState, pairs_in};

    ghost Value = { EdgeTableState };

    ghost view = { λ t. record { pairs = pairs_in t.edges.items; room = vec_capacity t.edges / 2 } };

    ghost invariant = { λ t. length t.edges.items ≡ 2 * length (pairs_in t.edges.items) };
}

impl EdgeTable {
    // No edge. Takes no memory.
    pub(crate) fn new(alloc: Global) -> EdgeTable
        ensures { result.pairs ≡ [] }
    {
        EdgeTable {
            edges: Vec::new(alloc),
        }
    }

    // Makes room for the edges of at least so many more clauses.
    pub(crate) fn reserve(&mut self, heads: usize) -> Result<(), Memory>
        requires { heads ≤ MOST_HEADS }
        ensures ok { OnOk result (length self.new.pairs + heads ≤ self.new.room) }
        ensures pairs { self.new.pairs ≡ self.old.pairs }
        ensures room { self.old.room ≤ self.new.room }
    {
        self.edges.reserve(2 * heads)?;
        Ok(())
    }

    // The first edge of a clause, or the second where `w`.
    #[inline]
    pub(crate) fn edge(&self, c: u32, w: bool) -> Edge
        requires within { c < length self.now.pairs }
        requires few { c < MOST_HEADS }
        ensures { result ≡ (if w then (slice_index_or self.now.pairs c no_pair).second else (slice_index_or self.now.pairs c no_pair).first) }
    {
        self.edges[place_in(c, w)]
    }

    // The edge that a link names, read at its place.
    #[inline]
    pub(crate) fn named(&self, link: Link) -> Edge
        requires leads { link_in link ≢ None }
        requires within { ForSome (link_in link) (λ c. c < length self.now.pairs) }
        ensures { ForSome (link_in link) (λ c. result ≡ (if side_in link then (slice_index_or self.now.pairs c no_pair).second else (slice_index_or self.now.pairs c no_pair).first)) }
    {
        self.edges[link.place()]
    }

    // Gives an edge another link.
    #[inline]
    pub(crate) fn set_next(&mut self, c: u32, w: bool, next: Link)
        requires within { c < length self.old.pairs }
        requires few { c < MOST_HEADS }
        ensures { self.new ≡ record self.old { pairs = slice_set self.old.pairs c (with_next w next (slice_index_or self.old.pairs c no_pair)) } }
    {
        self.edges[place_in(c, w)].next = next;
    }

    // Gives the edge that a link names another link, written at its place.
    #[inline]
    pub(crate) fn lead(&mut self, link: Link, next: Link)
        requires leads { link_in link ≢ None }
        requires within { ForSome (link_in link) (λ c. c < length self.old.pairs) }
        ensures { ForSome (link_in link) (λ c. self.new ≡ record self.old { pairs = slice_set self.old.pairs c (with_next (side_in link) next (slice_index_or self.old.pairs c no_pair)) }) }
    {
        self.edges[link.place()].next = next;
    }

    // Has an edge watch another literal.
    #[inline]
    pub(crate) fn watch(&mut self, c: u32, w: bool, lit: Lit)
        requires within { c < length self.old.pairs }
        requires few { c < MOST_HEADS }
        ensures { self.new ≡ record self.old { pairs = slice_set self.old.pairs c (with_lit w lit (slice_index_or self.old.pairs c no_pair)) } }
    {
        self.edges[place_in(c, w)].lit = lit;
    }

    // Puts the edges of one more clause at the end.
    pub(crate) fn push(&mut self, both: Edges)
        requires { length self.old.pairs < self.old.room }
        ensures { self.new ≡ record self.old { pairs = self.old.pairs ++ both ∷ [] } }
    {
        self.edges.push_reserved(both.first);
        self.edges.push_reserved(both.second);
    }

    // The two edges of a clause.
    pub(crate) fn both(&self, k: usize) -> Edges
        requires { k < length self.now.pairs }
        ensures { result ≡ slice_index_or self.now.pairs k no_pair }
    {
        Edges {
            first: self.edges[2 * k],
            second: self.edges[2 * k + 1],
        }
    }

    // Writes the two edges of a clause.
    pub(crate) fn put(&mut self, k: usize, both: Edges)
        requires { k < length self.old.pairs }
        ensures { self.new ≡ record self.old { pairs = slice_set self.old.pairs k both } }
    {
        self.edges[2 * k] = both.first;
        self.edges[2 * k + 1] = both.second;
    }

    // Keeps the edges of the first clauses.
    pub(crate) fn truncate(&mut self, keep: usize)
        requires { keep ≤ length self.old.pairs }
        ensures { self.new ≡ record self.old { pairs = take keep self.old.pairs } }
    {
        self.edges.truncate(2 * keep);
    }
}
