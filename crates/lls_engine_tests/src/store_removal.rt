// Clauses taken out and numbered anew, worked by hand, step by step.
ghost use Rattle.std.specs.Prelude.{◌≡◌, ◌<◌, IfOk, IsTrue};
ghost use Rattle.lls_store.specs.Removal.{IsNoReason};
ghost use Rattle.lls_store.specs.Sound.{IsSound};
ghost use Rattle.lls_store.specs.Worked.{IsResting};

use crate::store_changes::literals;
use crate::store_trail::{VARS, shown};
use lls_store::{MOST_CLAUSES, MOST_ID, ScanStore, Store, Trail};
use std::alloc::Global;
use std::process::Abort;
use std::test::Fail;

#[derive(Clone, Copy, Debug)]
enum Step {
    // Adds clauses, under the next ids.
    Add(&'static [&'static [i32]]),
    Propagate,
    Remove(u32),
    Compact,
}

// A live clause: its number, its id and its literals.
type Live = (u32, u64, &'static [i32]);

struct Row {
    step: Step,
    // The number of the false clause.
    answer: Option<u32>,
    count: u32,
    live: &'static [Live],
    // The trail, as `shown` says it.
    entries: &'static str,
}

const ROWS: [Row; 9] = [
    // The first clause forces 1, the second 2, and the fourth 5.
    Row {
        step: Step::Add(&[&[1], &[-1, 2], &[3, 4], &[-2, 5]]),
        answer: None,
        count: 4,
        live: &[
            (0, 1, &[1]),
            (1, 2, &[-1, 2]),
            (2, 3, &[3, 4]),
            (3, 4, &[-2, 5]),
        ],
        entries: "",
    },
    Row {
        step: Step::Propagate,
        answer: None,
        count: 4,
        live: &[
            (0, 1, &[1]),
            (1, 2, &[-1, 2]),
            (2, 3, &[3, 4]),
            (3, 4, &[-2, 5]),
        ],
        entries: " 1/0/0 2/0/1 5/0/3",
    },
    // The others keep their numbers.
    Row {
        step: Step::Remove(2),
        answer: None,
        count: 4,
        live: &[(0, 1, &[1]), (1, 2, &[-1, 2]), (3, 4, &[-2, 5])],
        entries: " 1/0/0 2/0/1 5/0/3",
    },
    // No number is given twice.
    Row {
        step: Step::Add(&[&[4, -3]]),
        answer: None,
        count: 5,
        live: &[
            (0, 1, &[1]),
            (1, 2, &[-1, 2]),
            (3, 4, &[-2, 5]),
            (4, 5, &[4, -3]),
        ],
        entries: " 1/0/0 2/0/1 5/0/3",
    },
    // The fourth clause is now the third, and 5 is forced by it as before.
    Row {
        step: Step::Compact,
        answer: None,
        count: 4,
        live: &[
            (0, 1, &[1]),
            (1, 2, &[-1, 2]),
            (2, 4, &[-2, 5]),
            (3, 5, &[4, -3]),
        ],
        entries: " 1/0/0 2/0/1 5/0/2",
    },
    // The last clause goes.
    Row {
        step: Step::Remove(3),
        answer: None,
        count: 4,
        live: &[(0, 1, &[1]), (1, 2, &[-1, 2]), (2, 4, &[-2, 5])],
        entries: " 1/0/0 2/0/1 5/0/2",
    },
    Row {
        step: Step::Add(&[&[-5, -1]]),
        answer: None,
        count: 5,
        live: &[
            (0, 1, &[1]),
            (1, 2, &[-1, 2]),
            (2, 4, &[-2, 5]),
            (4, 6, &[-5, -1]),
        ],
        entries: " 1/0/0 2/0/1 5/0/2",
    },
    Row {
        step: Step::Propagate,
        answer: Some(4),
        count: 5,
        live: &[
            (0, 1, &[1]),
            (1, 2, &[-1, 2]),
            (2, 4, &[-2, 5]),
            (4, 6, &[-5, -1]),
        ],
        entries: " 1/0/0 2/0/1 5/0/2",
    },
    // Here the last number alone changes, and no reason.
    Row {
        step: Step::Compact,
        answer: None,
        count: 4,
        live: &[
            (0, 1, &[1]),
            (1, 2, &[-1, 2]),
            (2, 4, &[-2, 5]),
            (3, 6, &[-5, -1]),
        ],
        entries: " 1/0/0 2/0/1 5/0/2",
    },
];

// Whether no entry has the clause of that number as its reason.
pub(crate) fn is_no_reason(trail: &Trail, c: u32) -> bool
    ensures { IsTrue result → IsNoReason trail.now.entries c }
{
    for k in 0..trail.len() {
        if let Some(reason) = trail.known_reason(trail.lit(k).var()) {
            if reason == c {
                return false;
            }
        }
    }
    true
}

pub(crate) fn added<S: Store>(
    alloc: Global,
    store: &mut S,
    trail: &Trail,
    last: u64,
    numbers: &[i32],
) -> Result<u64, Fail>
    requires vars { trail.now.vars ≡ VARS }
    requires tracked { S.tracks store.old trail.now }
    requires sound { IsSound (S.state store.old).live trail.now }
    requires resting { IsResting (S.state store.old) last }
    ensures tracked { S.tracks store.new trail.now }
    ensures sound { IsSound (S.state store.new).live trail.now }
    ensures resting { IfOk result (λ now. IsResting (S.state store.new) now) }
{
    let lits = literals(alloc, numbers)?;
    let count = store.count();
    if trail.current() > 0 || count >= MOST_CLAUSES || last >= MOST_ID {
        return Err(Fail::from("level 0, a number and an id that are left"));
    }
    store.add(trail, last + 1, &lits)?;
    Ok(last + 1)
}

fn all_added<S: Store>(
    alloc: Global,
    store: &mut S,
    trail: &Trail,
    last: u64,
    clauses: &[&[i32]],
) -> Result<u64, Fail>
    requires vars { trail.now.vars ≡ VARS }
    requires tracked { S.tracks store.old trail.now }
    requires sound { IsSound (S.state store.old).live trail.now }
    requires resting { IsResting (S.state store.old) last }
    ensures tracked { S.tracks store.new trail.now }
    ensures sound { IsSound (S.state store.new).live trail.now }
    ensures resting { IfOk result (λ now. IsResting (S.state store.new) now) }
{
    let mut now = last;
    for numbers in clauses {
        now = added(alloc, store, trail, now, numbers)?;
    }
    Ok(now)
}

pub(crate) fn removed<S: Store>(store: &mut S, trail: &Trail, last: u64, c: u32) -> Result<(), Fail>
    requires tracked { S.tracks store.old trail.now }
    requires sound { IsSound (S.state store.old).live trail.now }
    requires resting { IsResting (S.state store.old) last }
    ensures tracked { S.tracks store.new trail.now }
    ensures sound { IsSound (S.state store.new).live trail.now }
    ensures resting { IsResting (S.state store.new) last }
{
    if c >= store.count() || !store.live(c) || !is_no_reason(trail, c) {
        return Err(Fail::from("a live clause that is no reason"));
    }
    store.remove(trail, c);
    Ok(())
}

// The step, where its conditions hold: the last id, and the number of the false clause.
fn stepped<S: Store>(
    alloc: Global,
    store: &mut S,
    trail: &mut Trail,
    last: u64,
    step: Step,
) -> Result<(u64, Option<u32>), Fail>
    requires vars { trail.old.vars ≡ VARS }
    requires tracked { S.tracks store.old trail.old }
    requires sound { IsSound (S.state store.old).live trail.old }
    requires resting { IsResting (S.state store.old) last }
    ensures vars { trail.new.vars ≡ VARS }
    ensures tracked { S.tracks store.new trail.new }
    ensures sound { IsSound (S.state store.new).live trail.new }
    ensures resting { IfOk result (λ now. IsResting (S.state store.new) now.0) }
{
    match step {
        Step::Add(clauses) => Ok((all_added(alloc, store, trail, last, clauses)?, None)),
        Step::Propagate => {
            let answer = store.propagate(trail);
            Ok((last, answer))
        }
        Step::Remove(c) => {
            removed(store, trail, last, c)?;
            Ok((last, None))
        }
        Step::Compact => {
            store.compact(trail);
            Ok((last, None))
        }
    }
}

// Whether the clause of that number is live, and has this id and these literals.
fn assert_clause<S: Store>(
    rt: &impl Abort,
    alloc: Global,
    store: &S,
    c: u32,
    clause: &Live,
) -> Result<(), Fail>
    requires { c < (S.state store.now).count }
{
    let lits = literals(alloc, clause.2)?;
    let found = (store.live(c), store.id(c), store.lits(c));
    assert!(rt; found == (true, clause.1, lits.as_slice()));
    Ok(())
}

// Whether the store has exactly these live clauses.
fn assert_live<S: Store>(
    rt: &impl Abort,
    alloc: Global,
    store: &S,
    live: &[Live],
) -> Result<(), Fail> {
    for c in 0..store.count() {
        match live.iter().find(|clause| clause.0 == c) {
            Some(clause) => assert_clause(rt, alloc, store, c, clause)?,
            None => assert!(rt; !store.live(c)),
        }
    }
    Ok(())
}

fn assert_row<S: Store>(
    rt: &impl Abort,
    alloc: Global,
    store: &S,
    trail: &Trail,
    answer: Option<u32>,
    row: &Row,
) -> Result<(), Fail>
    requires { trail.now.vars ≡ VARS }
{
    assert!(rt; (answer, store.count()) == (row.answer, row.count));
    let entries = shown(alloc, trail)?;
    assert!(rt; entries.as_str() == row.entries);
    assert_live(rt, alloc, store, row.live)
}

#[test]
fn clauses_are_removed_and_numbered_anew_as_worked(rt: HostRuntime) -> Result<(), Fail> {
    let mut trail = Trail::new(rt.alloc(), VARS)?;
    let mut store = ScanStore::new(rt.alloc(), VARS);
    let mut last = 0;
    for row in &ROWS {
        let (now, answer) = stepped(rt.alloc(), &mut store, &mut trail, last, row.step)?;
        last = now;
        assert_row(&rt, rt.alloc(), &store, &trail, answer, row)?;
    }
    Ok(())
}
