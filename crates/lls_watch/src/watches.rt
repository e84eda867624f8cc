// Lists of the clauses that watch each literal.
ghost use Rattle.std.specs.Prelude.{OnOk, take, ◌+◌, ◌-◌, ◌≡◌, ◌≢◌, ◌<◌, ◌≤◌, ◌*◌, ◌∷◌, ◌++◌, ℕ, ℤ, Bool, not, true, false, map, List, [], length, replicate, slice_get, slice_index_or, IfOk, IfSome, Option, None, Some};
ghost use Rattle.lls_lit.specs.Literal.{index_of, literal_at};
ghost use Rattle.std.specs.Option.{ForSome};
ghost use Rattle.lls_arena.specs.Links.{link_in, side_in};
ghost use Rattle.lls_arena.specs.Arena.{IsLive, changed_at, compacted, empty_arena, killed, place_of, sealed, unlinked};
ghost use Rattle.lls_watch.specs.Anew.{AreLonger, BeginApart, CanBeListed, HasLists, IsRelinked};
ghost use Rattle.lls_watch.specs.Watches.{AttachedAt, BeginsWith, CanBegin, CanRewatch, ComesAfter, HasLiteral, IsInNone, IsNotIn, IsThreaded, Lists, WatchesAt, begun, literal_of, swapped_at, with_attached, with_begun, with_first, with_link_at, with_list};

use lls_arena::{Arena, Link};
use lls_base::Memory;
use lls_lit::{Lit, Var};
use std::alloc::Global;
use std::marker::Model;

/// An arena, and for each literal a list of the clauses that watch it, threaded through their links.
#[derive(Debug, Drop)]
pub struct Watches {
    arena: Arena,
    // By literal, where its list begins.
    first: Vec<Link>,
}

impl Model for Watches {
    ghost use Rattle.std.specs.Prelude.{map};
    ghost use Rattle.lls_arena.specs.Links.{link_in};
    ghost use Rattle.lls_watch.specs.Watches.{WatchState};

    ghost Value = { WatchState };

    ghost view = { λ w. record { arena = w.arena; first = map link_in w.first.items } };
}

impl Watches {
    /// Empty lists for so many variables, and no clause.
    pub fn new(alloc: Global, vars: u32) -> Result<Watches, Memory>
        requires { vars ≤ Var.MOST }
        ensures arena { IfOk result (λ w. w.arena ≡ empty_arena) }
        ensures first { IfOk result (λ w. w.first ≡ replicate (2 * vars) None) }
        ensures threaded { IfOk result (λ w. IsThreaded w (λ _. [])) }
    {
        let first = vec![in alloc; Link::nowhere(); 2 * vars as usize]?;
        Ok(Watches {
            arena: Arena::new(alloc),
            first,
        })
    }

    /// The arena.
    #[inline]
    pub fn arena(&self) -> &Arena
        ensures { result.now ≡ self.now.arena }
    {
        &self.arena
    }

    /// How many literals have a list.
    pub fn len(&self) -> usize
        ensures { result ≡ length self.now.first }
    {
        self.first.len()
    }

    /// Where a literal's list begins.
    #[inline]
    pub fn first(&self, lit: Lit) -> Link
        requires { index_of lit < length self.now.first }
        ensures { slice_get self.now.first (index_of lit) ≡ Some (link_in result) }
    {
        self.first[lit.index()]
    }

    /// Makes room for at least so many more clauses and literals. No other call but `new` takes memory.
    pub fn reserve(&mut self, heads: u32, lits: usize) -> Result<(), Memory>
        ensures ok_heads { OnOk result (heads ≤ self.new.arena.spare_heads) }
        ensures ok_lits { OnOk result (lits ≤ self.new.arena.spare_lits) }
        ensures same { self.new ≡ record self.old { arena = record self.old.arena { spare_heads = self.new.arena.spare_heads; spare_lits = self.new.arena.spare_lits } } }
        ensures heads { self.old.arena.spare_heads ≤ self.new.arena.spare_heads }
        ensures lits { self.old.arena.spare_lits ≤ self.new.arena.spare_lits }
    {
        self.arena.reserve(heads, lits)
    }

    /// Puts a literal at the end of the clause that is being built.
    #[inline]
    pub fn append(&mut self, lit: Lit)
        requires { 0 < self.old.arena.spare_lits }
        ensures { self.new ≡ record self.old { arena = record self.old.arena { tail = self.old.arena.tail ++ lit ∷ []; spare_lits = self.old.arena.spare_lits - 1 } } }
    {
        self.arena.append(lit);
    }

    /// Puts literals at the end of the clause that is being built.
    pub fn append_all(&mut self, lits: &[Lit])
        requires { length lits.now ≤ self.old.arena.spare_lits }
        ensures { self.new ≡ record self.old { arena = record self.old.arena { tail = self.old.arena.tail ++ lits.now; spare_lits = self.old.arena.spare_lits - length lits.now } } }
    {
        for k in 0..lits.len() {
            self.append(lits[k]);
        }
    }

    /// Keeps the first literals of the clause that is being built.
    pub fn cut(&mut self, keep: usize)
        ensures { self.new ≡ record self.old { arena = record self.old.arena { tail = take keep self.old.arena.tail; spare_lits = self.old.arena.spare_lits + (length self.old.arena.tail - keep) } } }
    {
        self.arena.cut(keep);
    }

    /// Makes the clause that is being built a live one, which is in no list yet, and answers its number.
    pub fn seal(&mut self, id: u64) -> u32
        requires { 0 < self.old.arena.spare_heads }
        ensures number { result ≡ length self.old.arena.heads }
        ensures state { self.new ≡ record self.old { arena = sealed self.old.arena id } }
        ensures threaded { (lists : Lists) → IsThreaded self.old lists → IsThreaded self.new lists }
    {
        self.arena.seal(id)
    }

    /// Makes a live clause dead. It stays in its lists.
    pub fn kill(&mut self, c: u32)
        requires { IsLive self.old.arena.heads c }
        ensures state { self.new ≡ record self.old { arena = record self.old.arena { heads = changed_at killed c self.old.arena.heads; planned = false } } }
        ensures threaded { (lists : Lists) → IsThreaded self.old lists → IsThreaded self.new lists }
    {
        self.arena.kill(c);
    }

    /// Settles where each live clause is to go when the dead ones are taken away. All lists are lost.
    pub fn plan_compact(&mut self)
        requires { self.old.arena.tail ≡ [] }
        ensures heads { map unlinked self.new.arena.heads ≡ map unlinked self.old.arena.heads }
        ensures same { self.new ≡ record self.old { arena = record self.old.arena { heads = self.new.arena.heads; planned = true } } }
    {
        self.arena.plan_compact();
    }

    /// Takes the dead clauses away, and has each that is left and watches two literals in the lists of both. The lists ascend.
    pub fn finish_compact(&mut self)
        requires planned { self.old.arena.planned ≡ true }
        requires tail { self.old.arena.tail ≡ [] }
        requires listable { CanBeListed self.old }
        ensures relinked { IsRelinked (record self.old { arena = compacted self.old.arena }) self.new }
        ensures listed { HasLists self.new }
    {
        self.arena.finish_compact();
        empty_lists(&mut self.first);
        self.list_all();
    }

    // Puts the clauses that watch two literals into the lists of both, from the last one on. The lists have none yet.
    fn list_all(&mut self)
        requires none { IsThreaded self.old (λ _. []) }
        requires listable { CanBeListed self.old }
        ensures relinked { IsRelinked self.old self.new }
        ensures listed { HasLists self.new }
    {
        let mut c = self.arena.count();
        while c > 0 {
            c -= 1;
            self.list(c);
        }
    }

    // Puts a clause first in the lists of its first two literals, where it watches them.
    #[inline]
    fn list(&mut self, c: u32)
        requires there { c < length self.old.arena.heads }
        requires listable { CanBeListed self.old }
        ensures relinked { IsRelinked self.old self.new }
        ensures longer { (lists : Lists) → IsThreaded self.old lists → IsInNone lists self.old c → AreLonger self.new lists c }
    {
        if begin_apart(self.arena.lits(c)) {
            self.attach(c, false);
            self.attach(c, true);
        }
    }

    /// Puts a clause first in the list of its first literal, or of its second where `w`.
    #[inline]
    pub fn attach(&mut self, c: u32, w: bool)
        requires clause { WatchesAt self.old c w }
        ensures state { AttachedAt c w self.old self.new }
        ensures threaded { (lists : Lists) → IsThreaded self.old lists → IsNotIn lists self.old c w → IsThreaded self.new (with_attached lists self.old c w) }
    {
        let _count = self.arena.count();
        let lit = self.arena.watched(c, w);
        self.put_first(Link::to(c, w), lit);
    }

    // Puts the edge that a link names first in the list of the literal that it watches.
    #[inline]
    fn put_first(&mut self, edge: Link, lit: Lit)
        requires leads { link_in edge ≢ None }
        requires clause { ForSome (link_in edge) (λ c. WatchesAt self.old c (side_in edge)) }
        requires lit { ForSome (link_in edge) (λ c. literal_of self.old c (side_in edge) ≡ lit) }
        ensures state { ForSome (link_in edge) (λ c. AttachedAt c (side_in edge) self.old self.new) }
        ensures threaded { ForSome (link_in edge) (λ c. (lists : Lists) → IsThreaded self.old lists → IsNotIn lists self.old c (side_in edge)
            → IsThreaded self.new (with_attached lists self.old c (side_in edge))) }
    {
        let i = lit.index();
        self.arena.set_next(edge, self.first[i]);
        self.first[i] = edge;
    }

    /// Has a live clause that is in no list watch its first literal and the one at place n behind it, which becomes its second, and
    /// puts it first in the lists of both.
    pub fn begin(&mut self, c: u32, n: usize)
        requires live { IsLive self.old.arena.heads c }
        requires clause { CanBegin self.old c n }
        ensures state { self.new ≡ begun c n self.old }
        ensures threaded { (lists : Lists) → IsThreaded self.old lists → IsInNone lists self.old c → IsThreaded self.new (with_begun lists self.old c n) }
    {
        self.arena.swap(c, true, n);
        self.attach(c, false);
        self.attach(c, true);
    }

    /// Takes the first clause out of a literal's list: the list begins with the next one.
    #[inline]
    pub fn drop_first(&mut self, lit: Lit, next: Link)
        requires { index_of lit < length self.old.first }
        ensures state { self.new ≡ with_first (index_of lit) (link_in next) self.old }
        ensures threaded { (lists : Lists) (c : ℕ) (cs : List ℕ) → IsThreaded self.old lists → BeginsWith self.old lists lit c (link_in next) cs
            → IsThreaded self.new (with_list (index_of lit) cs lists) }
    {
        self.first[lit.index()] = next;
    }

    /// Takes the clause behind another one out of the list of the literal that this edge of the other one watches: the edge leads to the
    /// next.
    #[inline]
    pub fn drop_next(&mut self, edge: Link, next: Link)
        requires leads { link_in edge ≢ None }
        requires clause { ForSome (link_in edge) (λ p. WatchesAt self.old p (side_in edge)) }
        ensures state { ForSome (link_in edge) (λ p. self.new ≡ with_link_at p (side_in edge) (link_in next) self.old) }
        ensures threaded { ForSome (link_in edge) (λ p. (lists : Lists) (lit : ℤ) (c : ℕ) (before cs : List ℕ) → IsThreaded self.old lists → HasLiteral self.old p (side_in edge) lit
            → ComesAfter self.old lists lit p c (link_in next) before cs → IsThreaded self.new (with_list (index_of lit) (before ++ p ∷ cs) lists)) }
    {
        self.arena.set_next(edge, next);
    }

    /// Watches another literal of a live clause, the one at place n behind the first two, in place of that which the edge watches that a
    /// link names. The clause is to be out of the list of the literal that it watched, and is put first in the list of the other.
    #[inline]
    pub fn rewatch(&mut self, c: u32, edge: Link, n: usize)
        requires names { link_in edge ≡ Some c }
        requires live { IsLive self.old.arena.heads c }
        requires clause { CanRewatch self.old c (side_in edge) n }
        ensures state { AttachedAt c (side_in edge) (swapped_at self.old c (side_in edge) n) self.new }
        ensures threaded { (lists : Lists) → IsThreaded self.old lists → IsNotIn lists self.old c (side_in edge)
            → IsThreaded self.new (with_attached lists (swapped_at self.old c (side_in edge) n) c (side_in edge)) }
    {
        let lit = self.arena.swap(c, edge.is_second(), n);
        self.put_first(edge, lit);
    }
}

// Whether there are two literals, and the first two differ.
#[inline]
fn begin_apart(lits: &[Lit]) -> bool
    ensures yes { result ≡ true → BeginApart lits.now }
    ensures no { result ≡ false → ¬ BeginApart lits.now }
{
    lits.len() > 1 && lits[0] != lits[1]
}

// Has every list begin with no clause.
fn empty_lists(first: &mut [Link])
    ensures { map link_in first.new ≡ map (λ _. None) (map link_in first.old) }
{
    let nowhere = Link::nowhere();
    for start in first.iter_mut() {
        *start = nowhere;
    }
}
