//! Orders worked by hand, and the first Luby numbers.
ghost use Rattle.std.specs.Prelude.{◌≤◌, IfOk};

use lls_lit::Var;
use lls_order::{Order, luby};
use std::process::Abort;
use std::test::Fail;

#[derive(Clone, Copy, Debug)]
enum Call {
    Bump(u32),
    PutBack(u32),
    Pop(Option<u32>),
}

// Four variables: which comes out, by what was called before. The n-th bump gives the activity n.
const CALLS: [Call; 44] = [
    // Without activity the least number comes out.
    Call::Pop(Some(1)),
    Call::Bump(3),
    Call::Pop(Some(3)),
    // A variable that is out rises too, and stays out.
    Call::Bump(1),
    Call::Pop(Some(2)),
    Call::PutBack(3),
    Call::PutBack(1),
    // It is in already.
    Call::PutBack(1),
    // 1 has the activity 2, 3 has 1, and 4 has none.
    Call::Pop(Some(1)),
    Call::Pop(Some(3)),
    Call::Pop(Some(4)),
    Call::Pop(None),
    // 2 and 4 have none.
    Call::PutBack(4),
    Call::PutBack(2),
    Call::Pop(Some(2)),
    Call::Pop(Some(4)),
    Call::PutBack(2),
    Call::PutBack(4),
    Call::Bump(4),
    Call::Pop(Some(4)),
    // What came out last comes out again.
    Call::PutBack(4),
    Call::Pop(Some(4)),
    Call::PutBack(4),
    Call::Bump(2),
    // It is the last that was bumped already.
    Call::Bump(2),
    Call::Pop(Some(2)),
    Call::Pop(Some(4)),
    Call::Pop(None),
    // By activity 2 (5), 4 (3), 1 (2), 3 (1).
    Call::PutBack(3),
    Call::PutBack(4),
    Call::PutBack(1),
    Call::PutBack(2),
    Call::Pop(Some(2)),
    // The one that came out last rises while it is out.
    Call::Bump(2),
    Call::Pop(Some(4)),
    // One between others rises.
    Call::Bump(1),
    Call::PutBack(4),
    Call::Pop(Some(1)),
    Call::PutBack(2),
    Call::Pop(Some(2)),
    Call::Pop(Some(4)),
    Call::Pop(Some(3)),
    Call::Pop(None),
    Call::Pop(None),
];

fn variable(order: &Order, n: u32) -> Result<Var, Fail>
    ensures { IfOk result (λ var. var ≤ order.now.vars) }
{
    match Var::from_number(n) {
        Some(var) if n <= order.vars() => Ok(var),
        _ => Err(Fail::from("a variable of the order")),
    }
}

fn bump(order: &mut Order, n: u32) -> Result<(), Fail> {
    let var = variable(order, n)?;
    order.bump(var);
    Ok(())
}

fn assert_popped(rt: &impl Abort, order: &mut Order, expected: Option<u32>) {
    assert!(rt; order.pop_greatest().map(Var::number) == expected);
}

#[test]
fn variables_come_out_as_worked(rt: HostRuntime) -> Result<(), Fail> {
    let mut order = Order::new(rt.alloc(), 4)?;
    for call in &CALLS {
        match *call {
            Call::Bump(n) => bump(&mut order, n)?,
            Call::PutBack(n) => {
                let var = variable(&order, n)?;
                order.put_back(var);
            }
            Call::Pop(expected) => assert_popped(&rt, &mut order, expected),
        }
    }
    Ok(())
}

// 101 is a prime: where r goes from 1 to 100, a step times r, modulo 101, is each variable of 100 once.
const STEPS: [u32; 6] = [3, 37, 100, 1, 55, 71];

fn nth(step: u32, r: u32) -> u32 {
    step.wrapping_mul(r) % 101
}

fn bump_each(order: &mut Order, step: u32) -> Result<(), Fail> {
    for r in 1..101 {
        bump(order, nth(step, r))?;
    }
    Ok(())
}

#[test]
fn of_a_hundred_the_last_bumped_comes_out_first(rt: HostRuntime) -> Result<(), Fail> {
    let mut order = Order::new(rt.alloc(), 100)?;
    for _ in 0..20 {
        for step in STEPS {
            bump_each(&mut order, step)?;
        }
    }
    for r in (1..101_u32).rev() {
        assert_popped(&rt, &mut order, Some(nth(71, r)));
    }
    assert_popped(&rt, &mut order, None);
    Ok(())
}

// The variables up to 50 are out while all are bumped.
#[test]
fn those_that_are_out_rise_too(rt: HostRuntime) -> Result<(), Fail> {
    let mut order = Order::new(rt.alloc(), 100)?;
    for n in 1..51 {
        assert_popped(&rt, &mut order, Some(n));
    }
    bump_each(&mut order, 37)?;
    for r in (1..101_u32).rev().filter(|r| nth(37, *r) > 50) {
        assert_popped(&rt, &mut order, Some(nth(37, r)));
    }
    assert_popped(&rt, &mut order, None);
    for n in 1..51 {
        let var = variable(&order, n)?;
        order.put_back(var);
    }
    for r in (1..101_u32).rev().filter(|r| nth(37, *r) <= 50) {
        assert_popped(&rt, &mut order, Some(nth(37, r)));
    }
    assert_popped(&rt, &mut order, None);
    Ok(())
}

struct Pair {
    first: u32,
    second: u32,
    before: bool,
}

// Variable 3 has been bumped, and then variable 2.
const PAIRS: [Pair; 9] = [
    Pair {
        first: 2,
        second: 3,
        before: true,
    },
    Pair {
        first: 3,
        second: 2,
        before: false,
    },
    Pair {
        first: 3,
        second: 1,
        before: true,
    },
    Pair {
        first: 1,
        second: 3,
        before: false,
    },
    // Without activity the smaller number comes before.
    Pair {
        first: 1,
        second: 4,
        before: true,
    },
    Pair {
        first: 4,
        second: 1,
        before: false,
    },
    Pair {
        first: 3,
        second: 4,
        before: true,
    },
    // None comes before itself.
    Pair {
        first: 2,
        second: 2,
        before: false,
    },
    Pair {
        first: 4,
        second: 4,
        before: false,
    },
];

#[test]
fn variables_come_before_as_worked(rt: HostRuntime) -> Result<(), Fail> {
    let mut order = Order::new(rt.alloc(), 4)?;
    bump(&mut order, 3)?;
    bump(&mut order, 2)?;
    for pair in &PAIRS {
        let first = variable(&order, pair.first)?;
        let second = variable(&order, pair.second)?;
        assert!(rt; order.comes_before(first, second) == pair.before);
    }
    Ok(())
}

const LUBY: [u64; 31] = [
    1, 1, 2, 1, 1, 2, 4, 1, 1, 2, 1, 1, 2, 4, 8, 1, 1, 2, 1, 1, 2, 4, 1, 1, 2, 1, 1, 2, 4, 8, 16,
];

#[test]
fn luby_numbers_are_as_published(rt: HostRuntime) {
    for (n, expected) in LUBY.iter().enumerate() {
        assert!(rt; luby(n as u64 + 1) == *expected);
    }
    assert!(rt; luby(4_294_967_295) == 2_147_483_648);
    assert!(rt; luby(4_294_967_296) == 1);
}
