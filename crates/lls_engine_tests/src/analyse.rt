// A conflict worked by hand.
ghost use Rattle.std.specs.Prelude.{◌≡◌, ◌≤◌, true, Some, IfOk, IsTrue};
ghost use Rattle.lls_lit.specs.Literal.{variable_of};
ghost use Rattle.lls_lit.specs.Formula.{is_literal_of, is_within};
ghost use Rattle.lls_store.specs.Trail.{level_of};
ghost use Rattle.lls_store.specs.Sound.{IsSound};
ghost use Rattle.lls_store.specs.Store.{IsConflict};
ghost use Rattle.lls_store.specs.Worked.{IsAtRest};
ghost use Rattle.lls_analyse.specs.Learnt.{IsCurrentConflict};

use lls_analyse::{Analyser, Learnt};
use lls_lit::Lit;
use lls_prooflog::{Log, print_log};
use lls_store::{MOST_CLAUSES, ScanStore, Store, Trail};
use std::alloc::Global;
use std::process::Abort;
use std::test::Fail;

const VARS: u32 = 7;

// A literal that stands twice is one. 7 stands at level 0. With 1 decided 2 and 3 follow, and with 4 then 5 and 6, where the
// last clause is false.
const CLAUSES: [[i32; 4]; 6] = [
    [7, 7, 7, 7],
    [-1, 2, 2, 2],
    [-2, -7, 3, 3],
    [-4, 5, 5, 5],
    [-5, -2, 6, 6],
    [-3, -5, -6, -7],
];

// The literal of one of the variables that DIMACS writes so.
fn literal(number: i32) -> Result<Lit, Fail>
    ensures { IfOk result (λ lit. is_literal_of VARS lit ≡ true) }
{
    let lit = Lit::from_number(number).ok_or("a literal")?;
    if !lit.is_of(VARS) {
        return Err(Fail::from("a literal of the store's variables"));
    }
    Ok(lit)
}

// The literals that DIMACS writes so.
fn literals(numbers: &[i32; 4]) -> Result<[Lit; 4], Fail>
    ensures { IfOk result (λ lits. is_within VARS lits ≡ true) }
{
    Ok([
        literal(numbers[0])?,
        literal(numbers[1])?,
        literal(numbers[2])?,
        literal(numbers[3])?,
    ])
}

// Adds a clause under the next id.
fn add<S: Store>(store: &mut S, trail: &Trail, numbers: &[i32; 4]) -> Result<(), Fail>
    requires vars { trail.now.vars ≡ VARS }
    requires tracked { S.tracks store.old trail.now }
    requires sound { IsSound (S.state store.old).live trail.now }
    requires at_rest { IsAtRest (S.state store.old) }
    ensures tracked { S.tracks store.new trail.now }
    ensures sound { IsSound (S.state store.new).live trail.now }
    ensures at_rest { IsAtRest (S.state store.new) }
{
    let lits = literals(numbers)?;
    let count = store.count();
    if trail.current() > 0 || count >= MOST_CLAUSES {
        return Err(Fail::from("level 0, and a number that is left"));
    }
    store.add(trail, u64::from(count) + 1, &lits)?;
    Ok(())
}

fn fill<S: Store>(store: &mut S, trail: &Trail) -> Result<(), Fail>
    requires vars { trail.now.vars ≡ VARS }
    requires tracked { S.tracks store.old trail.now }
    requires sound { IsSound (S.state store.old).live trail.now }
    requires at_rest { IsAtRest (S.state store.old) }
    ensures tracked { S.tracks store.new trail.now }
    ensures sound { IsSound (S.state store.new).live trail.now }
    ensures at_rest { IsAtRest (S.state store.new) }
{
    for row in &CLAUSES {
        add(store, trail, row)?;
    }
    Ok(())
}

// Propagates, which must find no false clause, and decides.
fn decide<S: Store>(store: &mut S, trail: &mut Trail, number: i32) -> Result<(), Fail>
    requires vars { trail.old.vars ≡ VARS }
    requires tracked { S.tracks store.old trail.old }
    requires sound { IsSound (S.state store.old).live trail.old }
    requires at_rest { IsAtRest (S.state store.old) }
    ensures vars { trail.new.vars ≡ VARS }
    ensures tracked { S.tracks store.new trail.new }
    ensures sound { IsSound (S.state store.new).live trail.new }
    ensures at_rest { IsAtRest (S.state store.new) }
{
    let lit = literal(number)?;
    if store.propagate(trail).is_some() || trail.value(lit).is_some() {
        return Err(Fail::from("no false clause, and a literal without a value"));
    }
    trail.decide(lit);
    Ok(())
}

fn is_of_current(trail: &Trail, lit: Lit) -> bool
    requires { variable_of lit ≤ trail.now.vars }
    ensures { IsTrue result → level_of trail.now.entries (variable_of lit) ≡ Some trail.now.current }
{
    trail.level(lit.var()) == Some(trail.current())
}

// Whether a false clause has a literal of the current level.
fn is_current<S: Store>(store: &S, trail: &Trail, conflict: u32) -> bool
    requires tracked { S.tracks store.now trail.now }
    requires conflict { IsConflict (S.state store.now).live trail.now conflict }
    ensures { IsTrue result → IsCurrentConflict (S.state store.now).live trail.now conflict }
{
    // What holds of all live clauses is known from here on.
    let _count = store.count();
    for lit in store.lits(conflict) {
        if is_of_current(trail, *lit) {
            return true;
        }
    }
    false
}

// Learns from the clause that propagation finds to be false.
fn learn<S: Store>(
    store: &mut S,
    trail: &mut Trail,
    analyser: &mut Analyser,
    log: &mut Log,
) -> Result<Learnt, Fail>
    requires vars { trail.old.vars ≡ VARS }
    requires tracked { S.tracks store.old trail.old }
    requires sound { IsSound (S.state store.old).live trail.old }
    requires at_rest { IsAtRest (S.state store.old) }
    requires analyser { analyser.old.vars ≡ VARS }
{
    let conflict = store.propagate(trail).ok_or("a false clause")?;
    analyser.reserve_conflict(store, log)?;
    let count = store.count();
    if trail.current() == 0 || count >= MOST_CLAUSES || !is_current(store, trail, conflict) {
        return Err(Fail::from("a conflict of a level above 0, and a number that is left"));
    }
    Ok(analyser.learn(store, trail, conflict, u64::from(count) + 1, log))
}

// The clauses, with 1 and 4 decided.
fn fill_and_decide<S: Store>(store: &mut S, trail: &mut Trail) -> Result<(), Fail>
    requires vars { trail.old.vars ≡ VARS }
    requires tracked { S.tracks store.old trail.old }
    requires sound { IsSound (S.state store.old).live trail.old }
    requires at_rest { IsAtRest (S.state store.old) }
    ensures vars { trail.new.vars ≡ VARS }
    ensures tracked { S.tracks store.new trail.new }
    ensures sound { IsSound (S.state store.new).live trail.new }
    ensures at_rest { IsAtRest (S.state store.new) }
{
    fill(store, trail)?;
    decide(store, trail, 1)?;
    decide(store, trail, 4)
}

fn assert_learnt(rt: &impl Abort, alloc: Global, learnt: Learnt, log: &Log) -> Result<(), Fail> {
    assert!(rt; learnt == Learnt { clause: 6, back: 1 });
    let steps = print_log(alloc, log)?;
    assert!(rt; steps.as_slice() == b"7 -5 -2 0 1 3 5 6 0\n".as_slice());
    Ok(())
}

fn assert_told(rt: &impl Abort, analyser: &Analyser) -> Result<(), Fail> {
    let met = [
        literal(-3)?,
        literal(-5)?,
        literal(-6)?,
        literal(-7)?,
        literal(-2)?,
    ];
    assert!(rt; analyser.met() == met.as_slice());
    assert!(rt; analyser.resolved() == [5, 4].as_slice());
    Ok(())
}

fn conflict_as_worked<S: Store>(
    rt: &impl Abort,
    alloc: Global,
    store: &mut S,
    trail: &mut Trail,
    analyser: &mut Analyser,
    log: &mut Log,
) -> Result<(), Fail>
    requires vars { trail.old.vars ≡ VARS }
    requires tracked { S.tracks store.old trail.old }
    requires sound { IsSound (S.state store.old).live trail.old }
    requires at_rest { IsAtRest (S.state store.old) }
    requires analyser { analyser.old.vars ≡ VARS }
{
    fill_and_decide(store, trail)?;
    let learnt = learn(store, trail, analyser, log)?;
    assert_learnt(rt, alloc, learnt, log)?;
    assert_told(rt, analyser)
}

// Back from the last clause -6 gives way, which brings -2; then -5 alone is of the current level. The others imply -7 by the
// first clause, and -3 by the third, so -5 -2 is left. Its hints are those of 7, 3 and 6, and then the last clause. Resolution came
// by the four literals of the last clause and then by -2, and took the last clause and that of 6, which are 5 and 4 from 0.
#[test]
fn a_conflict_is_learnt_as_worked(rt: HostRuntime) -> Result<(), Fail> {
    let alloc = rt.alloc();
    let mut trail = Trail::new(alloc, VARS)?;
    let mut analyser = Analyser::new(alloc, VARS)?;
    let mut store = ScanStore::new(alloc, VARS);
    let mut log = Log::new(alloc);
    conflict_as_worked(&rt, alloc, &mut store, &mut trail, &mut analyser, &mut log)
}
