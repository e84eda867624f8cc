// A searcher that shares a log with others gets the clauses that they added.
ghost use Rattle.std.specs.Prelude.{◌≡◌, ◌<◌, ◌≤◌, ◌==◌, [], true, false, Ok, OnErr, OnOk};
ghost use Rattle.std.specs.List.{list_any};
ghost use Rattle.std.specs.Option.{option_map_or};
ghost use Rattle.lls_lit.specs.Formula.{is_within};
ghost use Rattle.lls_store.specs.Clauses.{clause_numbered};
ghost use Rattle.lls_store.specs.Sound.{IsSound};
ghost use Rattle.lls_store.specs.Store.{IsNewId, with_clause};
ghost use Rattle.lls_solver.specs.Policy.{policy_for};
ghost use Rattle.lls_solver.specs.Searching.{additions, IsGoodLog, IsSearching};
ghost use Rattle.lls_solver.specs.Sharing.{AreLiveSteps, HoldsFirst, IsBehind};

use crate::course::Course;
use crate::policy::Policy;
use crate::solving::MOST_BUDGET;
use lls_base::Memory;
use lls_cnf::Formula;
use lls_lit::Lit;
use lls_prooflog::{Log, StepRef};
use lls_store::{MOST_CLAUSES, Store, Trail};

/// Goes back to level 0 and adds what is live of the log behind the store's last clause, where there is more. The steps of these
/// numbers are the additions that are live.
pub(crate) fn catch_up<S: Store>(
    formula: &Formula,
    store: &mut S,
    course: &mut Course,
    policy: &mut Policy,
    log: &Log,
    live: &[usize],
) -> Result<(), Memory>
    requires behind { IsBehind formula.now log.now.steps (S.state store.old) course.old }
    requires good { IsGoodLog formula.now log.now.steps }
    requires live { AreLiveSteps formula.now log.now.steps live.now }
    requires few { additions log.now.steps ≤ MOST_BUDGET }
    requires tracked { S.tracks store.old course.old }
    requires policy { policy.old ≡ policy_for (S.state store.old) }
    ensures searching { OnOk result (IsSearching formula.now log.now.steps (S.state store.new) course.new) }
    ensures first { HoldsFirst formula.now log.now.steps (S.state store.new).live }
    ensures vars { (S.state store.new).vars ≡ (S.state store.old).vars }
    ensures tracked { S.tracks store.new course.new }
    ensures policy { policy.new ≡ policy_for (S.state store.new) }
{
    if store.count() as usize == formula.len() + live.len() {
        return Ok(());
    }
    course.go_back(store, 0);
    add_rest(formula, store, &course.trail, policy, log, live)
}

// Adds what is live of the log behind the store's last clause.
fn add_rest<S: Store>(
    formula: &Formula,
    store: &mut S,
    trail: &Trail,
    policy: &mut Policy,
    log: &Log,
    live: &[usize],
) -> Result<(), Memory>
    requires behind { IsBehind formula.now log.now.steps (S.state store.old) trail.now }
    requires good { IsGoodLog formula.now log.now.steps }
    requires live { AreLiveSteps formula.now log.now.steps live.now }
    requires few { additions log.now.steps ≤ MOST_BUDGET }
    requires level { trail.now.current ≡ 0 }
    requires tracked { S.tracks store.old trail.now }
    requires policy { policy.old ≡ policy_for (S.state store.old) }
    ensures searching { OnOk result (IsSearching formula.now log.now.steps (S.state store.new) trail.now) }
    ensures first { HoldsFirst formula.now log.now.steps (S.state store.new).live }
    ensures vars { (S.state store.new).vars ≡ (S.state store.old).vars }
    ensures tracked { S.tracks store.new trail.now }
    ensures policy { policy.new ≡ policy_for (S.state store.new) }
{
    let from = store.count() as usize - formula.len();
    for k in from..live.len() {
        match log.lend(live[k]) {
            StepRef::Add(addition) => add_clause(store, trail, policy, addition.id, addition.lits)?,
            StepRef::Del(_) => unreachable!(),
        }
    }
    Ok(())
}

// Adds a clause, of which the policy knows then. After `Memory` both are as before.
fn add_clause<S: Store>(
    store: &mut S,
    trail: &Trail,
    policy: &mut Policy,
    id: u64,
    lits: &[Lit],
) -> Result<(), Memory>
    requires level { trail.now.current ≡ 0 }
    requires tracked { S.tracks store.old trail.now }
    requires sound { IsSound (S.state store.old).live trail.now }
    requires tail { (S.state store.old).tail ≡ [] }
    requires id { IsNewId (S.state store.old).live id }
    requires within { is_within (S.state store.old).vars lits.now ≡ true }
    requires most { (S.state store.old).count < MOST_CLAUSES }
    requires policy { policy.old ≡ policy_for (S.state store.old) }
    ensures ok { OnOk result (S.state store.new ≡ with_clause (S.state store.old) id lits.now) }
    ensures err { OnErr result (S.state store.new ≡ S.state store.old) }
    ensures tracked { S.tracks store.new trail.now }
    ensures sound { IsSound (S.state store.new).live trail.now }
    ensures policy { policy.new ≡ policy_for (S.state store.new) }
{
    policy.add_clause()?;
    match store.add(trail, id, lits) {
        Ok(_number) => Ok(()),
        Err(memory) => {
            policy.drop_clause();
            Err(memory)
        }
    }
}

/// Whether a live clause has the id.
pub(crate) fn has_id<S: Store>(store: &S, id: u64) -> bool
    ensures { result ≡ list_any (λ clause. clause.id == id) (S.state store.now).live }
{
    for c in 0..store.count() {
        if is_of_id(store, c, id) {
            return true;
        }
    }
    false
}

// Whether the clause of a number is live and has the id.
fn is_of_id<S: Store>(store: &S, c: u32, id: u64) -> bool
    requires { c < (S.state store.now).count }
    ensures { result ≡ option_map_or (λ clause. clause.id == id) (clause_numbered (S.state store.now).live c) false }
{
    if !store.live(c) {
        return false;
    }
    store.id(c) == id
}
