// A store that reads all its clauses and one that watches literals, through the same drawn steps: both find a false clause or
// neither, and where neither does, they come to the same values at the same levels. Both have the same live clauses throughout.
ghost use Rattle.std.specs.Prelude.{◌≡◌, ◌<◌, true, OnOk};
ghost use Rattle.lls_lit.specs.Formula.{is_literal_of};
ghost use Rattle.lls_store.specs.Sound.{IsSound};
ghost use Rattle.lls_store.specs.Worked.{IsResting};

use crate::draws::Draws;
use crate::store_changes::{literal, may_learn};
use crate::store_removal::{added, is_no_reason, removed};
use crate::store_trail::VARS;
use lls_lit::Lit;
use lls_store::{MOST_CLAUSES, MOST_ID, ScanStore, Store, Trail};
use lls_watch::WatchStore;
use std::alloc::Global;
use std::process::Abort;
use std::test::Fail;

#[derive(Clone, Copy)]
enum Step {
    // Goes back to level 0, and adds a clause of these literals.
    Add([i32; 3]),
    // Propagates, and decides the literal where no clause is false and it has no value.
    Decide(i32),
    BackTo(u32),
    // Makes a clause of these two, which are false.
    Learn(i32, i32),
    Remove(u32),
    Compact,
}

// A store, and the trail that it tracks.
#[derive(Drop)]
struct Pair<S> {
    store: S,
    trail: Trail,
    // The last id that was given.
    last: u64,
    // Whether propagation found a false clause at the current level.
    conflict: bool,
}

// Whether the step may be done here. At a conflict a clause may be learnt, or the level left.
fn allows<S: Store>(pair: &Pair<S>, step: Step) -> Result<bool, Fail>
    requires { pair.now.trail.vars ≡ VARS }
{
    match step {
        Step::Add(_) | Step::Decide(_) | Step::Compact => Ok(!pair.conflict),
        Step::BackTo(level) => Ok(level < pair.trail.current()),
        Step::Learn(first, second) => {
            let first = literal(first)?;
            let second = literal(second)?;
            Ok(may_learn(&pair.trail, first, second))
        }
        Step::Remove(c) => Ok(!pair.conflict && is_removable(pair, c)),
    }
}

// Whether the clause of that number is live, and no literal's reason.
fn is_removable<S: Store>(pair: &Pair<S>, c: u32) -> bool {
    c < pair.store.count() && pair.store.live(c) && is_no_reason(&pair.trail, c)
}

fn add<S: Store>(alloc: Global, pair: &mut Pair<S>, numbers: &[i32]) -> Result<(), Fail>
    requires vars { pair.old.trail.vars ≡ VARS }
    requires tracked { S.tracks pair.old.store pair.old.trail }
    requires sound { IsSound (S.state pair.old.store).live pair.old.trail }
    requires resting { IsResting (S.state pair.old.store) pair.old.last }
    ensures vars { pair.new.trail.vars ≡ VARS }
    ensures tracked { S.tracks pair.new.store pair.new.trail }
    ensures sound { IsSound (S.state pair.new.store).live pair.new.trail }
    ensures resting { OnOk result (IsResting (S.state pair.new.store) pair.new.last) }
{
    pair.store.back_to(&mut pair.trail, 0);
    pair.last = added(alloc, &mut pair.store, &pair.trail, pair.last, numbers)?;
    Ok(())
}

fn decide<S: Store>(pair: &mut Pair<S>, number: i32) -> Result<(), Fail>
    requires vars { pair.old.trail.vars ≡ VARS }
    requires tracked { S.tracks pair.old.store pair.old.trail }
    requires sound { IsSound (S.state pair.old.store).live pair.old.trail }
    requires resting { IsResting (S.state pair.old.store) pair.old.last }
    ensures vars { pair.new.trail.vars ≡ VARS }
    ensures tracked { S.tracks pair.new.store pair.new.trail }
    ensures sound { IsSound (S.state pair.new.store).live pair.new.trail }
    ensures resting { IsResting (S.state pair.new.store) pair.new.last }
{
    let lit = literal(number)?;
    if pair.store.propagate(&mut pair.trail).is_some() {
        pair.conflict = true;
        return Ok(());
    }
    if pair.trail.value(lit).is_none() {
        pair.trail.decide(lit);
    }
    Ok(())
}

fn go_back<S: Store>(pair: &mut Pair<S>, level: u32) -> Result<(), Fail>
    requires vars { pair.old.trail.vars ≡ VARS }
    requires tracked { S.tracks pair.old.store pair.old.trail }
    requires sound { IsSound (S.state pair.old.store).live pair.old.trail }
    requires resting { IsResting (S.state pair.old.store) pair.old.last }
    ensures vars { pair.new.trail.vars ≡ VARS }
    ensures tracked { S.tracks pair.new.store pair.new.trail }
    ensures sound { IsSound (S.state pair.new.store).live pair.new.trail }
    ensures resting { IsResting (S.state pair.new.store) pair.new.last }
{
    if level > pair.trail.current() {
        return Err(Fail::from("a level up to the current one"));
    }
    pair.store.back_to(&mut pair.trail, level);
    pair.conflict = false;
    Ok(())
}

fn learn<S: Store>(pair: &mut Pair<S>, first: Lit, second: Lit) -> Result<(), Fail>
    requires vars { pair.old.trail.vars ≡ VARS }
    requires first { is_literal_of VARS first ≡ true }
    requires second { is_literal_of VARS second ≡ true }
    requires tracked { S.tracks pair.old.store pair.old.trail }
    requires sound { IsSound (S.state pair.old.store).live pair.old.trail }
    requires resting { IsResting (S.state pair.old.store) pair.old.last }
    ensures vars { pair.new.trail.vars ≡ VARS }
    ensures tracked { S.tracks pair.new.store pair.new.trail }
    ensures sound { OnOk result (IsSound (S.state pair.new.store).live pair.new.trail) }
    ensures resting { OnOk result (IsResting (S.state pair.new.store) pair.new.last) }
{
    if first.var() == second.var()
        || pair.store.count() >= MOST_CLAUSES
        || pair.last >= MOST_ID
        || !may_learn(&pair.trail, first, second)
    {
        return Err(Fail::from("a clause that may be learnt"));
    }
    pair.store.reserve_learnt()?;
    pair.store.begin_learnt();
    pair.store.push_learnt(first);
    pair.store.push_learnt(second);
    pair.last += 1;
    pair.store.seal_learnt(&pair.trail, pair.last);
    Ok(())
}

fn compact<S: Store>(pair: &mut Pair<S>)
    requires vars { pair.old.trail.vars ≡ VARS }
    requires tracked { S.tracks pair.old.store pair.old.trail }
    requires sound { IsSound (S.state pair.old.store).live pair.old.trail }
    requires resting { IsResting (S.state pair.old.store) pair.old.last }
    ensures vars { pair.new.trail.vars ≡ VARS }
    ensures tracked { S.tracks pair.new.store pair.new.trail }
    ensures sound { IsSound (S.state pair.new.store).live pair.new.trail }
    ensures resting { IsResting (S.state pair.new.store) pair.new.last }
{
    pair.store.compact(&mut pair.trail);
}

// Does the step where its conditions hold.
fn take<S: Store>(alloc: Global, pair: &mut Pair<S>, step: Step) -> Result<(), Fail>
    requires vars { pair.old.trail.vars ≡ VARS }
    requires tracked { S.tracks pair.old.store pair.old.trail }
    requires sound { IsSound (S.state pair.old.store).live pair.old.trail }
    requires resting { IsResting (S.state pair.old.store) pair.old.last }
    ensures vars { pair.new.trail.vars ≡ VARS }
    ensures tracked { S.tracks pair.new.store pair.new.trail }
    ensures sound { OnOk result (IsSound (S.state pair.new.store).live pair.new.trail) }
    ensures resting { OnOk result (IsResting (S.state pair.new.store) pair.new.last) }
{
    match step {
        Step::Add(numbers) => add(alloc, pair, &numbers),
        Step::Decide(number) => decide(pair, number),
        Step::BackTo(level) => go_back(pair, level),
        Step::Learn(first, second) => {
            let first = literal(first)?;
            let second = literal(second)?;
            learn(pair, first, second)
        }
        Step::Remove(c) => removed(&mut pair.store, &pair.trail, pair.last, c),
        Step::Compact => {
            compact(pair);
            Ok(())
        }
    }
}

// Does the step in both where both allow it: whether they did.
fn take_both<A: Store, B: Store>(
    alloc: Global,
    one: &mut Pair<A>,
    other: &mut Pair<B>,
    step: Step,
) -> Result<bool, Fail>
    requires one_vars { one.old.trail.vars ≡ VARS }
    requires one_tracked { A.tracks one.old.store one.old.trail }
    requires one_sound { IsSound (A.state one.old.store).live one.old.trail }
    requires one_resting { IsResting (A.state one.old.store) one.old.last }
    requires other_vars { other.old.trail.vars ≡ VARS }
    requires other_tracked { B.tracks other.old.store other.old.trail }
    requires other_sound { IsSound (B.state other.old.store).live other.old.trail }
    requires other_resting { IsResting (B.state other.old.store) other.old.last }
    ensures one_vars { one.new.trail.vars ≡ VARS }
    ensures one_tracked { A.tracks one.new.store one.new.trail }
    ensures one_sound { OnOk result (IsSound (A.state one.new.store).live one.new.trail) }
    ensures one_resting { OnOk result (IsResting (A.state one.new.store) one.new.last) }
    ensures other_vars { other.new.trail.vars ≡ VARS }
    ensures other_tracked { B.tracks other.new.store other.new.trail }
    ensures other_sound { OnOk result (IsSound (B.state other.new.store).live other.new.trail) }
    ensures other_resting { OnOk result (IsResting (B.state other.new.store) other.new.last) }
{
    if !allows(one, step)? || !allows(other, step)? {
        return Ok(false);
    }
    take(alloc, one, step)?;
    take(alloc, other, step)?;
    Ok(true)
}

// Whether the trails have the same values at the same levels.
fn have_same_values(one: &Trail, other: &Trail) -> Result<bool, Fail>
    requires one { one.now.vars ≡ VARS }
    requires other { other.now.vars ≡ VARS }
{
    for n in 1..VARS as i32 + 1 {
        let lit = literal(n)?;
        let var = lit.var();
        if one.value(lit) != other.value(lit) || one.level(var) != other.level(var) {
            return Ok(false);
        }
    }
    Ok(one.current() == other.current())
}

fn has_all(lits: &[Lit], others: &[Lit]) -> bool {
    others.iter().all(|lit| lits.contains(lit))
}

// Whether the clauses of that number are both live, with the same id and the same literals, or neither is live.
fn have_same_clause<A: Store, B: Store>(one: &A, other: &B, c: u32) -> bool
    requires one { c < (A.state one.now).count }
    requires other { c < (B.state other.now).count }
{
    if !one.live(c) || !other.live(c) {
        return one.live(c) == other.live(c);
    }
    let lits = one.lits(c);
    let others = other.lits(c);
    one.id(c) == other.id(c) && has_all(lits, others) && has_all(others, lits)
}

fn have_same_clauses<A: Store, B: Store>(one: &A, other: &B) -> bool {
    let count = one.count();
    if other.count() != count {
        return false;
    }
    for c in 0..count {
        if !have_same_clause(one, other, c) {
            return false;
        }
    }
    true
}

fn assert_agree<A: Store, B: Store>(
    rt: &impl Abort,
    one: &Pair<A>,
    other: &Pair<B>,
) -> Result<(), Fail>
    requires one { one.now.trail.vars ≡ VARS }
    requires other { other.now.trail.vars ≡ VARS }
{
    assert!(rt; one.conflict == other.conflict);
    if !one.conflict {
        assert!(rt; have_same_values(&one.trail, &other.trail)?);
    }
    assert!(rt; have_same_clauses(&one.store, &other.store));
    Ok(())
}

// How many steps of each kind were done, and how many propagations came to an end or to a conflict.
#[derive(Drop)]
struct Counts {
    added: u32,
    propagated: u32,
    conflicts: u32,
    cut: u32,
    learnt: u32,
    removed: u32,
    compacted: u32,
}

impl Counts {
    fn count(&mut self, step: Step, conflict: bool) {
        match step {
            Step::Add(_) => self.added = self.added.saturating_add(1),
            Step::Decide(_) if conflict => self.conflicts = self.conflicts.saturating_add(1),
            Step::Decide(_) => self.propagated = self.propagated.saturating_add(1),
            Step::BackTo(_) => self.cut = self.cut.saturating_add(1),
            Step::Learn(_, _) => self.learnt = self.learnt.saturating_add(1),
            Step::Remove(_) => self.removed = self.removed.saturating_add(1),
            Step::Compact => self.compacted = self.compacted.saturating_add(1),
        }
    }
}

// A false literal, where there is any.
fn drawn_false(draws: &mut Draws, trail: &Trail) -> i32 {
    let len = trail.len() as u32;
    if len == 0 {
        return draws.number(VARS);
    }
    trail.lit(draws.below(len) as usize).negated().number()
}

fn drawn_step(draws: &mut Draws, trail: &Trail) -> Step {
    match draws.below(20) {
        0..=1 => Step::Add([draws.number(VARS), draws.number(VARS), draws.number(VARS)]),
        2..=10 => Step::Decide(draws.number(VARS)),
        11..=13 => Step::BackTo(draws.below(VARS)),
        14..=16 => Step::Learn(drawn_false(draws, trail), drawn_false(draws, trail)),
        17..=18 => Step::Remove(draws.below(20)),
        _ => Step::Compact,
    }
}

// Goes on until a clause is false at level 0, or for so many steps.
fn follow<A: Store, B: Store>(
    rt: &impl Abort,
    alloc: Global,
    one: &mut Pair<A>,
    other: &mut Pair<B>,
    draws: &mut Draws,
    counts: &mut Counts,
) -> Result<(), Fail>
    requires one_vars { one.old.trail.vars ≡ VARS }
    requires one_tracked { A.tracks one.old.store one.old.trail }
    requires one_sound { IsSound (A.state one.old.store).live one.old.trail }
    requires one_resting { IsResting (A.state one.old.store) one.old.last }
    requires other_vars { other.old.trail.vars ≡ VARS }
    requires other_tracked { B.tracks other.old.store other.old.trail }
    requires other_sound { IsSound (B.state other.old.store).live other.old.trail }
    requires other_resting { IsResting (B.state other.old.store) other.old.last }
{
    for _ in 0..200 {
        let step = drawn_step(draws, &one.trail);
        if take_both(alloc, one, other, step)? {
            counts.count(step, one.conflict);
            assert_agree(rt, one, other)?;
        }
        if one.conflict && one.trail.current() == 0 {
            return Ok(());
        }
    }
    Ok(())
}

fn follow_from(rt: &impl Abort, alloc: Global, seed: u32, counts: &mut Counts) -> Result<(), Fail> {
    let mut scan = Pair {
        store: ScanStore::new(alloc, VARS),
        trail: Trail::new(alloc, VARS)?,
        last: 0,
        conflict: false,
    };
    let mut watch = Pair {
        store: WatchStore::new(alloc, VARS)?,
        trail: Trail::new(alloc, VARS)?,
        last: 0,
        conflict: false,
    };
    let mut draws = Draws::new(seed);
    follow(rt, alloc, &mut scan, &mut watch, &mut draws, counts)
}

#[test]
fn stores_agree_along_drawn_scripts(rt: HostRuntime) -> Result<(), Fail> {
    let mut counts = Counts {
        added: 0,
        propagated: 0,
        conflicts: 0,
        cut: 0,
        learnt: 0,
        removed: 0,
        compacted: 0,
    };
    for seed in 0..20 {
        follow_from(&rt, rt.alloc(), seed, &mut counts)?;
    }
    let rows = [
        ("clauses added", counts.added),
        ("propagations to the end", counts.propagated),
        ("conflicts", counts.conflicts),
        ("cuts", counts.cut),
        ("clauses learnt", counts.learnt),
        ("clauses removed", counts.removed),
        ("compactions", counts.compacted),
    ];
    for (kind, found) in rows {
        assert!(rt; found >= 50, "{found} {kind}");
    }
    Ok(())
}
