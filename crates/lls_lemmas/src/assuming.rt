// Literals that are taken as false, one after another, with what follows by unit propagation.
ghost use Rattle.std.specs.Prelude.{◌≡◌, ◌≢◌, ◌≤◌, ◌∷◌, [], ℕ, ℤ, true, Contains};
ghost use Rattle.lls_lit.specs.Literal.{variable_of};
ghost use Rattle.lls_lit.specs.Formula.{is_within};
ghost use Rattle.lls_store.specs.Trail.{Has, HasNegated, IsTrail, IsUnset};
ghost use Rattle.lls_store.specs.Closed.{IsClosed};
ghost use Rattle.lls_store.specs.Sound.{IsSound};
ghost use Rattle.lls_store.specs.Store.{IsConflict};
ghost use Rattle.lls_lemmas.specs.Assumed.{Assumes, IsOpen};

use lls_lit::Lit;
use lls_store::{Store, Trail};

/// What came of literals that were taken as false.
#[derive(Clone, Copy, Debug)]
pub(crate) enum Assumed {
    /// All of them are false, and nothing more follows.
    Open,
    /// The clause of that number is false.
    False(u32),
    /// This one of them is true.
    True(Lit),
}

// Takes a literal as false where it has no value.
fn assume<S: Store>(store: &mut S, trail: &mut Trail, lit: Lit) -> Assumed
    requires settled { S.settled store.old trail.old }
    requires sound { IsSound (S.state store.old).live trail.old }
    requires closed { IsClosed (S.state store.old).live trail.old }
    requires within { variable_of lit ≤ trail.old.vars }
    requires is_trail { IsTrail trail.old }
    ensures settled { result ≡ Assumed.Open → S.settled store.new trail.new }
    ensures closed { result ≡ Assumed.Open → IsClosed (S.state store.old).live trail.new }
    ensures is_open { result ≡ Assumed.Open → HasNegated trail.new.entries lit }
    ensures is_false { (n : ℕ) → result ≡ Assumed.False n → IsConflict (S.state store.old).live trail.new n }
    ensures is_true { (l : ℤ) → result ≡ Assumed.True l → (l ≡ lit) × Has trail.new.entries l }
    ensures assumes { Assumes trail.old (lit ∷ []) trail.new }
    ensures state { S.state store.new ≡ S.state store.old }
    ensures tracked { S.tracks store.new trail.new }
    ensures sound { IsSound (S.state store.old).live trail.new }
    ensures is_trail { IsTrail trail.new }
{
    match trail.value(lit) {
        Some(true) => Assumed::True(lit),
        Some(false) => Assumed::Open,
        None => decide(store, trail, lit),
    }
}

// Takes a literal that has no value as false.
fn decide<S: Store>(store: &mut S, trail: &mut Trail, lit: Lit) -> Assumed
    requires settled { S.settled store.old trail.old }
    requires sound { IsSound (S.state store.old).live trail.old }
    requires within { variable_of lit ≤ trail.old.vars }
    requires unset { IsUnset trail.old.entries lit }
    ensures settled { result ≡ Assumed.Open → S.settled store.new trail.new }
    ensures closed { result ≡ Assumed.Open → IsClosed (S.state store.old).live trail.new }
    ensures is_open { HasNegated trail.new.entries lit }
    ensures is_false { (n : ℕ) → result ≡ Assumed.False n → IsConflict (S.state store.old).live trail.new n }
    ensures is_true { (l : ℤ) → result ≢ Assumed.True l }
    ensures assumes { Assumes trail.old (lit ∷ []) trail.new }
    ensures state { S.state store.new ≡ S.state store.old }
    ensures tracked { S.tracks store.new trail.new }
    ensures sound { IsSound (S.state store.old).live trail.new }
    ensures is_trail { IsTrail trail.new }
{
    trail.decide(lit.negated());
    let conflict = store.propagate(trail);
    // What holds of every trail is known from here on.
    let _level = trail.current();
    match conflict {
        Some(number) => Assumed::False(number),
        None => Assumed::Open,
    }
}

/// Takes literals as false, until a clause is false or one of them is true.
pub(crate) fn assume_all<S: Store>(store: &mut S, trail: &mut Trail, lits: &[Lit]) -> Assumed
    requires settled { S.settled store.old trail.old }
    requires sound { IsSound (S.state store.old).live trail.old }
    requires closed { IsClosed (S.state store.old).live trail.old }
    requires within { is_within trail.old.vars lits.now ≡ true }
    requires is_trail { IsTrail trail.old }
    ensures is_open { result ≡ Assumed.Open → IsOpen (S.state store.old).live lits.now trail.new }
    ensures is_false { (n : ℕ) → result ≡ Assumed.False n → IsConflict (S.state store.old).live trail.new n }
    ensures is_true { (l : ℤ) → result ≡ Assumed.True l → Contains lits.now l × Has trail.new.entries l }
    ensures assumes { Assumes trail.old lits.now trail.new }
    ensures state { S.state store.new ≡ S.state store.old }
    ensures tracked { S.tracks store.new trail.new }
    ensures sound { IsSound (S.state store.old).live trail.new }
    ensures is_trail { IsTrail trail.new }
{
    for lit in lits {
        match assume(store, trail, *lit) {
            Assumed::Open => {}
            Assumed::False(number) => return Assumed::False(number),
            Assumed::True(found) => return Assumed::True(found),
        }
    }
    Assumed::Open
}
