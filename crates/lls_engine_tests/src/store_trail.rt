// Trails worked by hand, step by step.
ghost use Rattle.std.specs.Prelude.{◌≡◌};

use lls_lit::{Lit, Var};
use lls_store::Trail;
use std::alloc::{AllocError, Global};
use std::process::Abort;
use std::test::Fail;

// The greatest variable of the worked trails.
pub(crate) const VARS: u32 = 5;

#[derive(Clone, Copy, Debug, PartialEq, Eq)]
enum Change {
    Decide(i32),
    Force(i32, u32),
    SetReason(u32, u32),
    Cut(u32),
}

struct Row {
    change: Change,
    current: u32,
    // The trail, as `shown` says it.
    entries: &'static str,
}

const ROWS: [Row; 10] = [
    Row {
        change: Change::Force(-5, 7),
        current: 0,
        entries: " -5/0/7",
    },
    Row {
        change: Change::Decide(4),
        current: 1,
        entries: " -5/0/7 4/1/-",
    },
    Row {
        change: Change::Decide(-1),
        current: 2,
        entries: " -5/0/7 4/1/- -1/2/-",
    },
    Row {
        change: Change::Force(2, 0),
        current: 2,
        entries: " -5/0/7 4/1/- -1/2/- 2/2/0",
    },
    Row {
        change: Change::SetReason(2, 9),
        current: 2,
        entries: " -5/0/7 4/1/- -1/2/- 2/2/9",
    },
    // The current level is the level that is cut to.
    Row {
        change: Change::Cut(2),
        current: 2,
        entries: " -5/0/7 4/1/- -1/2/- 2/2/9",
    },
    Row {
        change: Change::Cut(1),
        current: 1,
        entries: " -5/0/7 4/1/-",
    },
    Row {
        change: Change::Force(-2, 3),
        current: 1,
        entries: " -5/0/7 4/1/- -2/1/3",
    },
    Row {
        change: Change::Cut(0),
        current: 0,
        entries: " -5/0/7",
    },
    Row {
        change: Change::Decide(2),
        current: 1,
        entries: " -5/0/7 2/1/-",
    },
];

// The change, where its conditions hold.
fn changed(trail: &mut Trail, change: Change) -> Result<(), Fail>
    requires { trail.old.vars ≡ VARS }
    ensures { trail.new.vars ≡ VARS }
{
    match change {
        Change::Decide(n) => {
            let lit = Lit::from_number(n).ok_or("a literal")?;
            if !lit.is_of(VARS) || trail.value(lit).is_some() {
                return Err(Fail::from("a literal without a value"));
            }
            trail.decide(lit);
        }
        Change::Force(n, reason) => {
            let lit = Lit::from_number(n).ok_or("a literal")?;
            if !lit.is_of(VARS) || trail.value(lit).is_some() {
                return Err(Fail::from("a literal without a value"));
            }
            trail.force(lit, reason);
        }
        Change::SetReason(n, reason) => {
            let var = Var::from_number(n).ok_or("a variable")?;
            if n > VARS || trail.reason(var).is_none() {
                return Err(Fail::from("a variable with a reason"));
            }
            trail.set_reason(var, reason);
        }
        Change::Cut(level) => {
            if level > trail.current() {
                return Err(Fail::from("a level up to the current one"));
            }
            trail.cut(level);
        }
    }
    Ok(())
}

fn push_number(text: &mut String, number: Option<u32>) -> Result<(), AllocError> {
    match number {
        Some(number) => write!(text, "/{number}"),
        None => text.push_str("/-"),
    }
}

// The entries in their order, each as a blank, the literal, its level and its reason, with strokes between them.
pub(crate) fn shown(alloc: Global, trail: &Trail) -> Result<String, Fail>
    requires { trail.now.vars ≡ VARS }
{
    let mut text = String::new(alloc);
    for k in 0..trail.len() {
        let lit = trail.lit(k);
        if !lit.is_of(VARS) {
            return Err(Fail::from("a literal of the trail's variables"));
        }
        write!(text, " {}", lit.number())?;
        push_number(&mut text, trail.level(lit.var()))?;
        push_number(&mut text, trail.reason(lit.var()))?;
    }
    Ok(text)
}

// The numbers of the literals in their order.
fn literals_of(alloc: Global, trail: &Trail) -> Result<Vec<i32>, Fail> {
    let mut numbers = Vec::new(alloc);
    for k in 0..trail.len() {
        numbers.push(trail.lit(k).number())?;
    }
    Ok(numbers)
}

// Whether exactly these literals are true, in their places, and exactly their negations false.
fn assert_values(rt: &impl Abort, trail: &Trail, lits: &[i32]) -> Result<(), Fail>
    requires { trail.now.vars ≡ VARS }
{
    for n in 1..VARS as i32 + 1 {
        let lit = Lit::from_number(n).ok_or("a literal")?;
        if lit.is_of(VARS) {
            let is_true = lits.contains(&n);
            let is_false = lits.contains(&-n);
            let expected = if is_true || is_false {
                Some(is_true)
            } else {
                None
            };
            let place = lits.iter().position(|other| *other == n || *other == -n);
            let found = (
                trail.value(lit),
                trail.value(lit.negated()),
                trail.place(lit.var()),
            );
            assert!(rt; found == (expected, expected.map(|value| !value), place));
        }
    }
    Ok(())
}

fn assert_row(rt: &impl Abort, alloc: Global, trail: &Trail, row: &Row) -> Result<(), Fail>
    requires { trail.now.vars ≡ VARS }
{
    let entries = shown(alloc, trail)?;
    assert!(rt; (trail.current(), entries.as_str()) == (row.current, row.entries));
    // So these are the row's.
    let lits = literals_of(alloc, trail)?;
    assert_values(rt, trail, &lits)
}

#[test]
fn a_trail_changes_as_worked(rt: HostRuntime) -> Result<(), Fail> {
    let mut trail = Trail::new(rt.alloc(), VARS)?;
    for row in &ROWS {
        changed(&mut trail, row.change)?;
        assert_row(&rt, rt.alloc(), &trail, row)?;
    }
    Ok(())
}
