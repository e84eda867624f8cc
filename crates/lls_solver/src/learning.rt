// What is learnt from a conflict.
ghost use Rattle.std.specs.Prelude.{◌≡◌, ◌≤◌, ◌<◌, ◌+◌, ℕ, Bool, OnOk, OnErr};
ghost use Rattle.lls_prooflog.specs.Spent.{SomeCanBeLearnt, live_after};
ghost use Rattle.lls_store.specs.Store.{IsConflict};
ghost use Rattle.lls_analyse.specs.Learnt.{IsCurrentConflict};
ghost use Rattle.lls_solver.specs.Policy.{policy_for};
ghost use Rattle.lls_solver.specs.Searching.{additions, AddsEmpty, IsRefutation, IsSearching, KeepsAll, LearnsOne};

use crate::course::Course;
use crate::policy::Policy;
use crate::solving::MOST_BUDGET;
use lls_analyse::Analyser;
use lls_base::Memory;
use lls_cnf::Formula;
use lls_prooflog::Log;
use lls_store::Store;
use std::alloc::Global;

/// Learns a clause from a conflict at a level above 0, and goes back.
pub(crate) fn learn_from<S: Store>(
    formula: &Formula,
    store: &mut S,
    course: &mut Course,
    analyser: &mut Analyser,
    policy: &mut Policy,
    log: &mut Log,
    conflict: u32,
) -> Result<(), Memory>
    requires searching { IsSearching formula.now log.old.steps (S.state store.old) course.old }
    requires tracked { S.tracks store.old course.old }
    requires analyser { analyser.old.vars ≡ formula.now.vars }
    requires policy { policy.old ≡ policy_for (S.state store.old) }
    requires few { additions log.old.steps < MOST_BUDGET }
    requires level { 0 < course.old.current }
    requires conflict { IsCurrentConflict (S.state store.old).live course.old conflict }
    ensures searching { OnOk result (IsSearching formula.now log.new.steps (S.state store.new) course.new) }
    ensures additions { OnOk result (additions log.new.steps ≡ additions log.old.steps + 1) }
    ensures learns { OnOk result (LearnsOne formula.now log.old.steps log.new.steps) }
    ensures kept { OnOk result ((keep_all : Bool) → KeepsAll keep_all log.old.steps → KeepsAll keep_all log.new.steps) }
    ensures err { OnErr result (log.new.steps ≡ log.old.steps) }
    ensures err_state { OnErr result (S.state store.new ≡ S.state store.old) }
    ensures vars { (S.state store.new).vars ≡ (S.state store.old).vars }
    ensures tracked { S.tracks store.new course.new }
    ensures analyser { analyser.new.vars ≡ analyser.old.vars }
    ensures policy { policy.new ≡ policy_for (S.state store.new) }
{
    analyser.reserve_conflict(store, log)?;
    policy.add_clause()?;
    let id = formula.len() as u64 + log.additions() + 1;
    let learnt = analyser.learn(store, &course.trail, conflict, id, log);
    // What holds of all live clauses is known from here on.
    let _count = store.count();
    policy.learn(
        &course.trail,
        store.lits(learnt.clause),
        analyser.resolved(),
    );
    course.bump(analyser.met());
    course.bump_reasons(store, policy.followed(store.lits(learnt.clause)));
    course.go_back(store, learnt.back);
    Ok(())
}

/// Learns one clause more from a conflict at a level above 0, into a log that isn't written out: it shows that the search
/// wasn't done. Then the clause is taken out again.
pub(crate) fn learn_further<S: Store>(
    alloc: Global,
    formula: &Formula,
    store: &mut S,
    course: &Course,
    analyser: &mut Analyser,
    policy: &mut Policy,
    log: &Log,
    conflict: u32,
) -> Result<(), Memory>
    requires searching { IsSearching formula.now log.now.steps (S.state store.old) course.now }
    requires tracked { S.tracks store.old course.now }
    requires analyser { analyser.old.vars ≡ formula.now.vars }
    requires policy { policy.old ≡ policy_for (S.state store.old) }
    requires few { additions log.now.steps ≤ MOST_BUDGET }
    requires level { 0 < course.now.current }
    requires conflict { IsCurrentConflict (S.state store.old).live course.now conflict }
    ensures further { OnOk result (SomeCanBeLearnt formula.now.vars (live_after formula.now log.now.steps)) }
    ensures live { (S.state store.new).live ≡ (S.state store.old).live }
    ensures vars { (S.state store.new).vars ≡ (S.state store.old).vars }
    ensures tracked { S.tracks store.new course.now }
    ensures analyser { analyser.new.vars ≡ analyser.old.vars }
    ensures policy { policy.new ≡ policy_for (S.state store.new) }
{
    let mut further = Log::new(alloc);
    analyser.reserve_conflict(store, &mut further)?;
    policy.add_clause()?;
    let id = formula.len() as u64 + log.additions() + 1;
    let learnt = analyser.learn(store, &course.trail, conflict, id, &mut further);
    // What holds of all live clauses is known from here on.
    let _count = store.count();
    store.remove(&course.trail, learnt.clause);
    Ok(())
}

/// Derives the empty clause from a conflict at level 0.
pub(crate) fn refute_by<S: Store>(
    formula: &Formula,
    store: &mut S,
    course: &Course,
    analyser: &mut Analyser,
    log: &mut Log,
    conflict: u32,
) -> Result<(), Memory>
    requires searching { IsSearching formula.now log.old.steps (S.state store.old) course.now }
    requires tracked { S.tracks store.old course.now }
    requires analyser { analyser.old.vars ≡ formula.now.vars }
    requires few { additions log.old.steps ≤ MOST_BUDGET }
    requires level { course.now.current ≡ 0 }
    requires conflict { IsConflict (S.state store.old).live course.now conflict }
    ensures refutation { OnOk result ((budget : ℕ) → additions log.old.steps ≤ budget → IsRefutation formula.now budget log.new.steps) }
    ensures empty { OnOk result (AddsEmpty log.old.steps log.new.steps) }
    ensures kept { OnOk result ((keep_all : Bool) → KeepsAll keep_all log.old.steps → KeepsAll keep_all log.new.steps) }
    ensures err { OnErr result (log.new.steps ≡ log.old.steps) }
    ensures state { S.state store.new ≡ S.state store.old }
    ensures tracked { S.tracks store.new course.now }
    ensures analyser { analyser.new.vars ≡ analyser.old.vars }
{
    analyser.reserve_conflict(store, log)?;
    let id = formula.len() as u64 + log.additions() + 1;
    analyser.refute(store, &course.trail, conflict, id, log);
    Ok(())
}
