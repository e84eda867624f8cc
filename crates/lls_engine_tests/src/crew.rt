// Crews: turns taken by hand.
ghost use Rattle.std.specs.Prelude.{◌≡◌, ◌<◌, length};

use crate::draws::Draws;
use lls_cnf::{Formula, MOST_DIMACS_BYTES, read_dimacs};
use lls_crew::{Crew, Turned};
use lls_prooflog::{StepRef, print_log};
use lls_solver::Outcome;
use std::alloc::Global;
use std::process::Abort;
use std::test::Fail;

const SQUARE: &[u8] = b"p cnf 2 4\n1 2 0 1 -2 0 -1 2 0 -1 -2 0";

// What a search comes to, in a word.
fn word(outcome: &Outcome) -> &'static str {
    match outcome {
        Outcome::Sat(_) => "satisfiable",
        Outcome::Unsat => "unsatisfiable",
        Outcome::Undecided => "undecided",
    }
}

fn square(rt: &impl Abort, alloc: Global) -> Result<Formula, Fail> {
    assert!(rt; SQUARE.len() <= MOST_DIMACS_BYTES);
    Ok(read_dimacs(alloc, SQUARE)?)
}

// What a turn answers.
fn assert_turn(
    rt: &impl Abort,
    alloc: Global,
    crew: &mut Crew,
    k: u32,
    want: Turned,
) -> Result<(), Fail>
    requires { k < length crew.old.held }
    ensures { length crew.new.held ≡ length crew.old.held }
{
    let turned = crew.turn(alloc, k)?;
    assert!(rt; turned == want);
    Ok(())
}

// Which ids a searcher holds.
fn assert_held(rt: &impl Abort, crew: &Crew, k: u32, rows: &[(u64, bool)])
    requires { k < length crew.now.held }
{
    for (id, held) in rows {
        assert!(rt; crew.holds(k, *id) == *held);
    }
}

// What a crew came to, and the text of its log.
fn assert_finished(
    rt: &impl Abort,
    alloc: Global,
    crew: Crew,
    want: &str,
    steps: &[u8],
) -> Result<(), Fail> {
    let Some((outcome, log)) = crew.finish() else {
        return Err(Fail::from("an outcome"));
    };
    assert!(rt; word(&outcome) == want);
    assert!(rt; print_log(alloc, &log)?.as_slice() == steps);
    Ok(())
}

// Searcher 1 has a turn, and then searcher 0, which ends it.
fn take_turns_by_hand(rt: &impl Abort, alloc: Global, crew: &mut Crew) -> Result<(), Fail>
    requires { length crew.old.held ≡ 2 }
{
    assert_turn(rt, alloc, crew, 1, Turned::Going)?;
    assert_held(
        rt,
        crew,
        1,
        &[(0, false), (1, true), (4, true), (5, true), (6, false)],
    );
    assert_held(rt, crew, 0, &[(0, false), (1, true), (4, true), (5, false)]);
    assert_turn(rt, alloc, crew, 0, Turned::Ended)?;
    assert_held(rt, crew, 0, &[(4, true), (5, true), (6, false)]);
    assert_turn(rt, alloc, crew, 0, Turned::Ended)?;
    assert_turn(rt, alloc, crew, 1, Turned::Ended)
}

// Two turns by different searchers refute the square: the second one begins with what the first one learnt. Searcher 1 takes 1 as true
// first. Of the two clauses that watch -1 the later one comes first, and forces -2; then the third is false, and -1 is learnt. Searcher 0 has
// -1 from level 0 on, and by the second clause -2, so that the first is false. After that nothing changes.
#[test]
fn turns_by_hand(rt: HostRuntime) -> Result<(), Fail> {
    let formula = square(&rt, rt.alloc())?;
    let mut crew = Crew::new(rt.alloc(), &formula, 2, 10, true)?;
    take_turns_by_hand(&rt, rt.alloc(), &mut crew)?;
    assert_finished(
        &rt,
        rt.alloc(),
        crew,
        "unsatisfiable",
        b"5 -1 0 4 3 0\n6 0 5 2 1 0\n",
    )
}

// Where nothing may be learnt, the first conflict at a level above 0 ends the search; the clause that shows it isn't held.
#[test]
fn no_budget(rt: HostRuntime) -> Result<(), Fail> {
    let formula = square(&rt, rt.alloc())?;
    let mut crew = Crew::new(rt.alloc(), &formula, 2, 0, true)?;
    assert_turn(&rt, rt.alloc(), &mut crew, 0, Turned::Ended)?;
    assert_held(&rt, &crew, 0, &[(4, true), (5, false)]);
    assert_finished(&rt, rt.alloc(), crew, "undecided", b"")
}

// Before a turn that ends there is no outcome.
#[test]
fn no_outcome_yet(rt: HostRuntime) -> Result<(), Fail> {
    let formula = square(&rt, rt.alloc())?;
    let crew = Crew::new(rt.alloc(), &formula, 1, 10, true)?;
    assert!(rt; crew.finish().is_none());
    Ok(())
}

// The ids of the log's last step, which is a deletion.
fn last_deleted(alloc: Global, crew: &Crew) -> Result<Vec<u64>, Fail> {
    let log = crew.log();
    if log.len() == 0 {
        return Err(Fail::from("a step"));
    }
    let StepRef::Del(ids) = log.lend(log.len() - 1) else {
        return Err(Fail::from("a deletion"));
    };
    let mut deleted = Vec::new(alloc);
    for k in 0..ids.len() {
        deleted.push(ids.get(k))?;
    }
    Ok(deleted)
}

// Which of the ids below that one a searcher holds, by id.
fn held(alloc: Global, crew: &Crew, k: u32, end: u64) -> Result<Vec<bool>, Fail>
    requires { k < length crew.now.held }
{
    let mut held = Vec::new(alloc);
    for id in 0..end {
        held.push(crew.holds(k, id))?;
    }
    Ok(held)
}

// A searcher holds what it held, without what was deleted.
fn assert_left(rt: &impl Abort, crew: &Crew, k: u32, before: &[bool], deleted: &[u64])
    requires { k < length crew.now.held }
{
    let mut id = 0;
    for was_held in before {
        let want = *was_held && !deleted.contains(&id);
        assert!(rt; crew.holds(k, id) == want);
        id = id.wrapping_add(1);
    }
}

fn assert_gone(rt: &impl Abort, crew: &Crew, k: u32, deleted: &[u64])
    requires { k < length crew.now.held }
{
    for id in deleted {
        assert!(rt; !crew.holds(k, *id));
    }
}

// Lets each of three searchers take so many turns, one after the other, none of which ends.
fn take_rounds(rt: &impl Abort, alloc: Global, crew: &mut Crew, rounds: u32) -> Result<(), Fail>
    requires { length crew.old.held ≡ 3 }
    ensures { length crew.new.held ≡ 3 }
{
    for _ in 0..rounds {
        assert_turn(rt, alloc, crew, 0, Turned::Going)?;
        assert_turn(rt, alloc, crew, 1, Turned::Going)?;
        assert_turn(rt, alloc, crew, 2, Turned::Going)?;
    }
    Ok(())
}

// Behind the 64th clause that is learnt a half of those goes that are no searcher's reason. No searcher holds one of them then, and the
// two that hadn't the turn hold the rest of what they held.
#[test]
fn deletion_by_hand(rt: HostRuntime) -> Result<(), Fail> {
    let formula = Draws::new(7).formula(rt.alloc(), 150, 639)?;
    let mut crew = Crew::new(rt.alloc(), &formula, 3, 10_000, false)?;
    take_rounds(&rt, rt.alloc(), &mut crew, 21)?;
    let first = held(rt.alloc(), &crew, 1, 704)?;
    let second = held(rt.alloc(), &crew, 2, 704)?;
    assert_turn(&rt, rt.alloc(), &mut crew, 0, Turned::Going)?;
    let deleted = last_deleted(rt.alloc(), &crew)?;
    assert!(rt; deleted.len() > 20 && deleted.len() <= 32);
    assert_gone(&rt, &crew, 0, &deleted);
    assert_left(&rt, &crew, 1, &first, &deleted);
    assert_left(&rt, &crew, 2, &second, &deleted);
    Ok(())
}

// Lets a searcher take so many turns, none of which ends.
fn take_turns(
    rt: &impl Abort,
    alloc: Global,
    crew: &mut Crew,
    k: u32,
    turns: u32,
) -> Result<(), Fail>
    requires { k < length crew.old.held }
{
    for _ in 0..turns {
        assert_turn(rt, alloc, crew, k, Turned::Going)?;
    }
    Ok(())
}

// What a searcher learns that has all turns.
fn learnt_alone(rt: &impl Abort, alloc: Global, formula: &Formula, k: u32) -> Result<Vec<u8>, Fail>
    requires { k < 4 }
{
    let mut crew = Crew::new(alloc, formula, 4, 1_000, true)?;
    take_turns(rt, alloc, &mut crew, k, 40)?;
    Ok(print_log(alloc, crew.log())?)
}

fn assert_distinct(rt: &impl Abort, logs: &[Vec<u8>]) {
    for (k, log) in logs.iter().enumerate() {
        for other in &logs[..k] {
            assert!(rt; log.as_slice() != other.as_slice());
        }
    }
}

// The searchers of a crew go different ways.
#[test]
fn searchers_differ(rt: HostRuntime) -> Result<(), Fail> {
    let formula = Draws::new(7).formula(rt.alloc(), 150, 639)?;
    let logs = [
        learnt_alone(&rt, rt.alloc(), &formula, 0)?,
        learnt_alone(&rt, rt.alloc(), &formula, 1)?,
        learnt_alone(&rt, rt.alloc(), &formula, 2)?,
        learnt_alone(&rt, rt.alloc(), &formula, 3)?,
    ];
    assert_distinct(&rt, &logs);
    Ok(())
}
