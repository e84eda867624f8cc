// A store and its trail worked by hand, step by step.
ghost use Rattle.std.specs.Prelude.{◌≡◌, [], ◌∷◌, true, IfOk, IsSome, IsTrue};
ghost use Rattle.lls_lit.specs.Formula.{is_literal_of, is_within};
ghost use Rattle.lls_store.specs.Clauses.{clause_numbered};
ghost use Rattle.lls_store.specs.Sound.{IsSound};
ghost use Rattle.lls_store.specs.Store.{IsLearnt};
ghost use Rattle.lls_store.specs.Worked.{IsAtRest};

use crate::store_trail::{VARS, shown};
use lls_lit::Lit;
use lls_store::{MOST_CLAUSES, ScanStore, Store, Trail};
use std::alloc::Global;
use std::process::Abort;
use std::test::Fail;

#[derive(Clone, Copy, Debug)]
enum Step {
    Add(&'static [i32]),
    Propagate,
    Decide(i32),
    BackTo(u32),
    // Builds a clause of these three, cuts it to the first two, and seals it.
    Learn(i32, i32, i32),
}

struct Row {
    step: Step,
    // The number of the new clause, or of the false one.
    answer: Option<u32>,
    // The trail, as `shown` says it.
    entries: &'static str,
}

const ROWS: [Row; 17] = [
    // A literal that stands twice is one literal.
    Row {
        step: Step::Add(&[5, 5]),
        answer: Some(0),
        entries: "",
    },
    Row {
        step: Step::Add(&[-1, 2]),
        answer: Some(1),
        entries: "",
    },
    Row {
        step: Step::Add(&[-2, -4, 3]),
        answer: Some(2),
        entries: "",
    },
    Row {
        step: Step::Add(&[-3, -2, -5]),
        answer: Some(3),
        entries: "",
    },
    Row {
        step: Step::Propagate,
        answer: None,
        entries: " 5/0/0",
    },
    Row {
        step: Step::Decide(4),
        answer: None,
        entries: " 5/0/0 4/1/-",
    },
    Row {
        step: Step::Propagate,
        answer: None,
        entries: " 5/0/0 4/1/-",
    },
    Row {
        step: Step::Decide(1),
        answer: None,
        entries: " 5/0/0 4/1/- 1/2/-",
    },
    // 2 follows by the second clause, 3 by the third, and the fourth is false.
    Row {
        step: Step::Propagate,
        answer: Some(3),
        entries: " 5/0/0 4/1/- 1/2/- 2/2/1 3/2/2",
    },
    Row {
        step: Step::Learn(-2, -4, -5),
        answer: Some(4),
        entries: " 5/0/0 4/1/- 1/2/- 2/2/1 3/2/2",
    },
    Row {
        step: Step::BackTo(1),
        answer: None,
        entries: " 5/0/0 4/1/-",
    },
    // The learnt clause forces -2, and then the second clause -1.
    Row {
        step: Step::Propagate,
        answer: None,
        entries: " 5/0/0 4/1/- -2/1/4 -1/1/1",
    },
    Row {
        step: Step::BackTo(0),
        answer: None,
        entries: " 5/0/0",
    },
    Row {
        step: Step::Add(&[-5, 4]),
        answer: Some(5),
        entries: " 5/0/0",
    },
    Row {
        step: Step::Propagate,
        answer: None,
        entries: " 5/0/0 4/0/5 -2/0/4 -1/0/1",
    },
    Row {
        step: Step::Add(&[]),
        answer: Some(6),
        entries: " 5/0/0 4/0/5 -2/0/4 -1/0/1",
    },
    // The empty clause is false.
    Row {
        step: Step::Propagate,
        answer: Some(6),
        entries: " 5/0/0 4/0/5 -2/0/4 -1/0/1",
    },
];

// The literal of one of the variables that DIMACS writes so.
pub(crate) fn literal(number: i32) -> Result<Lit, Fail>
    ensures { IfOk result (λ lit. is_literal_of VARS lit ≡ true) }
{
    let lit = Lit::from_number(number).ok_or("a literal")?;
    if !lit.is_of(VARS) {
        return Err(Fail::from("a literal of the store's variables"));
    }
    Ok(lit)
}

pub(crate) fn literals(alloc: Global, numbers: &[i32]) -> Result<Vec<Lit>, Fail>
    ensures { IfOk result (λ lits. is_within VARS lits.items ≡ true) }
{
    let mut lits = Vec::new(alloc);
    for number in numbers {
        lits.push(literal(*number)?)?;
    }
    Ok(lits)
}

fn added<S: Store>(
    alloc: Global,
    store: &mut S,
    trail: &Trail,
    numbers: &[i32],
) -> Result<u32, Fail>
    requires vars { trail.now.vars ≡ VARS }
    requires tracked { S.tracks store.old trail.now }
    requires sound { IsSound (S.state store.old).live trail.now }
    requires at_rest { IsAtRest (S.state store.old) }
    ensures tracked { S.tracks store.new trail.now }
    ensures sound { IsSound (S.state store.new).live trail.now }
    ensures at_rest { IsAtRest (S.state store.new) }
{
    let lits = literals(alloc, numbers)?;
    let count = store.count();
    if trail.current() > 0 || count >= MOST_CLAUSES {
        return Err(Fail::from("level 0, and a number that is left"));
    }
    Ok(store.add(trail, u64::from(count) + 1, &lits)?)
}

// Whether this literal and that one are a clause that may be learnt.
pub(crate) fn may_learn(trail: &Trail, first: Lit, second: Lit) -> bool
    requires vars { trail.now.vars ≡ VARS }
    requires first { is_literal_of VARS first ≡ true }
    requires second { is_literal_of VARS second ≡ true }
    ensures { IsTrue result → IsLearnt trail.now (first ∷ second ∷ []) }
{
    if trail.value(first) != Some(false) || trail.value(second) != Some(false) {
        return false;
    }
    let current = Some(trail.current());
    trail.level(first.var()) == current && trail.level(second.var()) != current
}

fn learnt<S: Store>(
    store: &mut S,
    trail: &Trail,
    first: Lit,
    second: Lit,
    third: Lit,
) -> Result<u32, Fail>
    requires vars { trail.now.vars ≡ VARS }
    requires first { is_literal_of VARS first ≡ true }
    requires second { is_literal_of VARS second ≡ true }
    requires third { is_literal_of VARS third ≡ true }
    requires tracked { S.tracks store.old trail.now }
    requires sound { IsSound (S.state store.old).live trail.now }
    requires at_rest { IsAtRest (S.state store.old) }
    ensures tracked { S.tracks store.new trail.now }
    ensures sound { IsSound (S.state store.new).live trail.now }
    ensures at_rest { IsAtRest (S.state store.new) }
{
    let count = store.count();
    if first.var() == second.var()
        || first.var() == third.var()
        || second.var() == third.var()
        || count >= MOST_CLAUSES
        || !may_learn(trail, first, second)
    {
        return Err(Fail::from("a clause that may be learnt"));
    }
    store.reserve_learnt()?;
    store.begin_learnt();
    store.push_learnt(first);
    store.push_learnt(second);
    store.push_learnt(third);
    store.cut_learnt(2);
    Ok(store.seal_learnt(trail, u64::from(count) + 1))
}

// Whether each literal of a live clause is false.
fn is_false<S: Store>(store: &S, trail: &Trail, c: u32) -> bool
    requires tracked { S.tracks store.now trail.now }
    requires live { IsSome (clause_numbered (S.state store.now).live c) }
{
    if c < store.count() {
        for lit in store.lits(c) {
            if trail.value(*lit) != Some(false) {
                return false;
            }
        }
    }
    true
}

// Propagates, and sees that a clause that is answered is false.
fn propagated<S: Store>(store: &mut S, trail: &mut Trail) -> Result<Option<u32>, Fail>
    requires vars { trail.old.vars ≡ VARS }
    requires tracked { S.tracks store.old trail.old }
    requires sound { IsSound (S.state store.old).live trail.old }
    requires at_rest { IsAtRest (S.state store.old) }
    ensures vars { trail.new.vars ≡ VARS }
    ensures tracked { S.tracks store.new trail.new }
    ensures sound { IsSound (S.state store.new).live trail.new }
    ensures at_rest { IsAtRest (S.state store.new) }
{
    let answer = store.propagate(trail);
    if let Some(c) = answer {
        if !is_false(store, trail, c) {
            return Err(Fail::from("a false clause"));
        }
    }
    Ok(answer)
}

// Propagates, which must answer None, and decides.
fn decided<S: Store>(store: &mut S, trail: &mut Trail, lit: Lit) -> Result<(), Fail>
    requires vars { trail.old.vars ≡ VARS }
    requires lit { is_literal_of VARS lit ≡ true }
    requires tracked { S.tracks store.old trail.old }
    requires sound { IsSound (S.state store.old).live trail.old }
    requires at_rest { IsAtRest (S.state store.old) }
    ensures vars { trail.new.vars ≡ VARS }
    ensures tracked { S.tracks store.new trail.new }
    ensures sound { IsSound (S.state store.new).live trail.new }
    ensures at_rest { IsAtRest (S.state store.new) }
{
    if store.propagate(trail).is_some() {
        return Err(Fail::from("no false clause"));
    }
    if trail.value(lit).is_some() {
        return Err(Fail::from("a literal without a value"));
    }
    trail.decide(lit);
    Ok(())
}

fn gone_back<S: Store>(store: &mut S, trail: &mut Trail, level: u32) -> Result<(), Fail>
    requires vars { trail.old.vars ≡ VARS }
    requires tracked { S.tracks store.old trail.old }
    requires sound { IsSound (S.state store.old).live trail.old }
    requires at_rest { IsAtRest (S.state store.old) }
    ensures vars { trail.new.vars ≡ VARS }
    ensures tracked { S.tracks store.new trail.new }
    ensures sound { IsSound (S.state store.new).live trail.new }
    ensures at_rest { IsAtRest (S.state store.new) }
{
    if level > trail.current() {
        return Err(Fail::from("a level up to the current one"));
    }
    store.back_to(trail, level);
    Ok(())
}

// The step, where its conditions hold, and its answer.
fn stepped<S: Store>(
    alloc: Global,
    store: &mut S,
    trail: &mut Trail,
    step: Step,
) -> Result<Option<u32>, Fail>
    requires vars { trail.old.vars ≡ VARS }
    requires tracked { S.tracks store.old trail.old }
    requires sound { IsSound (S.state store.old).live trail.old }
    requires at_rest { IsAtRest (S.state store.old) }
    ensures vars { trail.new.vars ≡ VARS }
    ensures tracked { S.tracks store.new trail.new }
    ensures sound { IsSound (S.state store.new).live trail.new }
    ensures at_rest { IsAtRest (S.state store.new) }
{
    match step {
        Step::Add(numbers) => Ok(Some(added(alloc, store, trail, numbers)?)),
        Step::Propagate => propagated(store, trail),
        Step::Decide(number) => {
            let lit = literal(number)?;
            decided(store, trail, lit)?;
            Ok(None)
        }
        Step::BackTo(level) => {
            gone_back(store, trail, level)?;
            Ok(None)
        }
        Step::Learn(first, second, third) => {
            let first = literal(first)?;
            let second = literal(second)?;
            let third = literal(third)?;
            Ok(Some(learnt(store, trail, first, second, third)?))
        }
    }
}

fn assert_row(
    rt: &impl Abort,
    alloc: Global,
    trail: &Trail,
    answer: Option<u32>,
    row: &Row,
) -> Result<(), Fail>
    requires { trail.now.vars ≡ VARS }
{
    let entries = shown(alloc, trail)?;
    assert!(rt; (answer, entries.as_str()) == (row.answer, row.entries));
    Ok(())
}

// Whether the learnt clause stands in its place.
fn assert_learnt<S: Store>(rt: &impl Abort, alloc: Global, store: &S) -> Result<(), Fail> {
    assert!(rt; store.count() == 7);
    assert!(rt; store.live(4));
    let learnt = literals(alloc, &[-2, -4])?;
    assert!(rt; (store.id(4), store.lits(4)) == (5, learnt.as_slice()));
    Ok(())
}

#[test]
fn a_store_and_its_trail_change_as_worked(rt: HostRuntime) -> Result<(), Fail> {
    let mut trail = Trail::new(rt.alloc(), VARS)?;
    let mut store = ScanStore::new(rt.alloc(), VARS);
    for row in &ROWS {
        let answer = stepped(rt.alloc(), &mut store, &mut trail, row.step)?;
        assert_row(&rt, rt.alloc(), &trail, answer, row)?;
    }
    assert_learnt(&rt, rt.alloc(), &store)
}
