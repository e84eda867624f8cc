// The hot part of a clause.
ghost use Rattle.std.specs.Option.{ForSome};
ghost use Rattle.std.specs.Prelude.{◌≡◌, ◌≢◌, ◌<◌, ◌+◌, ◌*◌, not, pos, length, slice_index_or, None, Some};
ghost use Rattle.lls_arena.specs.declared.TheConstants.{MOST_HEADS};
ghost use Rattle.lls_arena.specs.Arena.{place_of};
ghost use Rattle.lls_arena.specs.Links.{link_in, side_in};

use lls_lit::Lit;

/// Where an edge leads: to an edge of a clause, or nowhere.
///
/// It is kept in four bytes, as one more than the place of that edge in a table of two edges a clause, or 0. It is
/// seen as that clause (`link_in`) and which of its edges was named (`side_in`). That a list names the right ones is said nowhere, so
/// whoever follows a link looks.
#[derive(Clone, Copy, Debug)]
pub struct Link {
    after: u32,
}

// An edge: the literal that it watches, and where the next one of its list is.
#[derive(Clone, Copy, Debug)]
pub(crate) struct Edge {
    pub(crate) next: Link,
    pub(crate) lit: Lit,
}

// A clause's two edges.
#[derive(Clone, Copy, Debug)]
pub(crate) struct Edges {
    pub(crate) first: Edge,
    pub(crate) second: Edge,
}

impl Link {
    #[inline]
    pub fn nowhere() -> Link
        ensures { link_in result ≡ None }
    {
        Link { after: 0 }
    }

    /// To the first edge of a clause, or to its second one.
    #[inline]
    pub fn to(clause: u32, second: bool) -> Link
        requires { clause < MOST_HEADS }
        ensures clause { link_in result ≡ Some clause }
        ensures side { side_in result ≡ second }
    {
        Link {
            after: 2 * clause + u32::from(second) + 1,
        }
    }

    /// The clause that it leads to, if any.
    #[inline]
    pub fn clause(self) -> Option<u32>
        ensures { result ≡ link_in self }
    {
        if self.after == 0 {
            None
        } else {
            Some((self.after - 1) / 2)
        }
    }

    /// Whether the second edge of the clause was named.
    #[inline]
    pub fn is_second(self) -> bool
        ensures { result ≡ side_in self }
    {
        self.after.wrapping_sub(1) % 2 == 1
    }

    /// To the other edge of the same clause.
    #[inline]
    pub fn beside(self) -> Link
        requires leads { link_in self ≢ None }
        requires few { ForSome (link_in self) (λ c. c < MOST_HEADS) }
        ensures clause { link_in result ≡ link_in self }
        ensures side { side_in result ≡ not (side_in self) }
    {
        Link {
            after: ((self.after - 1) ^ 1) + 1,
        }
    }

    // Where the edge stands in a table of two edges a clause.
    #[inline]
    pub(crate) fn place(self) -> usize
        requires { link_in self ≢ None }
        ensures { ForSome (link_in self) (λ c. result ≡ 2 * c + place_of (side_in self)) }
    {
        (self.after - 1) as usize
    }
}

impl Edges {
    // Edges that watch the first two of these literals, and lead nowhere. In place of one that isn't there stands any.
    pub(crate) fn of(lits: &[Lit]) -> Edges
        ensures first { 0 < length lits.now → result.first.lit ≡ slice_index_or lits.now 0 (pos 0) }
        ensures second { 1 < length lits.now → result.second.lit ≡ slice_index_or lits.now 1 (pos 0) }
        ensures first_link { link_in result.first.next ≡ None }
        ensures second_link { link_in result.second.next ≡ None }
    {
        Edges {
            first: Edge::at(lits, 0),
            second: Edge::at(lits, 1),
        }
    }

    // Leads nowhere.
    #[inline]
    pub(crate) fn unlinked(self) -> Edges
        ensures first { result.first.lit ≡ self.first.lit }
        ensures second { result.second.lit ≡ self.second.lit }
        ensures first_link { link_in result.first.next ≡ None }
        ensures second_link { link_in result.second.next ≡ None }
    {
        Edges {
            first: self.first.unlinked(),
            second: self.second.unlinked(),
        }
    }
}

impl Edge {
    fn unlinked(self) -> Edge
        ensures lit { result.lit ≡ self.lit }
        ensures link { link_in result.next ≡ None }
    {
        Edge {
            next: Link::nowhere(),
            lit: self.lit,
        }
    }

    // An edge that watches the k-th literal, if there is one, and leads nowhere.
    fn at(lits: &[Lit], k: usize) -> Edge
        ensures lit { k < length lits.now → result.lit ≡ slice_index_or lits.now k (pos 0) }
        ensures link { link_in result.next ≡ None }
    {
        let lit = if k < lits.len() {
            lits[k]
        } else {
            some_literal()
        };
        Edge {
            next: Link::nowhere(),
            lit,
        }
    }
}

// Where an edge stands in a table of two edges a clause.
#[inline]
pub(crate) fn place_in(c: u32, w: bool) -> usize
    requires { c < MOST_HEADS }
    ensures { result ≡ 2 * c + place_of w }
{
    (2 * c + u32::from(w)) as usize
}

// Where an edge's literal stands in its clause.
#[inline]
pub(crate) fn place(w: bool) -> usize
    ensures { result ≡ place_of w }
{
    if w { 1 } else { 0 }
}

// Stands where there is no literal to watch.
fn some_literal() -> Lit {
    Lit::from_number(1).unwrap()
}
