// An arena worked by hand, step by step.
ghost use Rattle.std.specs.Prelude.{◌≡◌, ◌<◌, true, slice_get, length};
ghost use Rattle.std.specs.Option.{ForSome};
ghost use Rattle.lls_arena.specs.Arena.{IsLive};

mod random;

use lls_arena::{Arena, Link, MOST_HEADS};
use lls_lit::Lit;
use std::alloc::Global;
use std::process::Abort;
use std::test::Fail;

#[derive(Clone, Copy, Debug)]
enum Step {
    // Puts these literals at the tail, keeps so many, and seals them under this id.
    Seal(&'static [i32], usize, u64),
    Swap(u32, bool, usize),
    SetLink(u32, bool, Option<u32>),
    Kill(u32),
    // What follows is where each clause is to go. Nothing is asked of a dead one.
    Compact(&'static [u32]),
}

// A clause: its id, whether it is live, its literals, and its two links.
type Shown<'a> = (u64, bool, &'a [i32], Option<u32>, Option<u32>);

struct Row {
    step: Step,
    heads: &'static [Shown<'static>],
}

const ROWS: [Row; 14] = [
    Row {
        step: Step::Seal(&[1, -2, 3], 3, 7),
        heads: &[(7, true, &[1, -2, 3], None, None)],
    },
    Row {
        step: Step::Seal(&[4], 9, 9),
        heads: &[
            (7, true, &[1, -2, 3], None, None),
            (9, true, &[4], None, None),
        ],
    },
    Row {
        step: Step::Seal(&[], 0, 2),
        heads: &[
            (7, true, &[1, -2, 3], None, None),
            (9, true, &[4], None, None),
            (2, true, &[], None, None),
        ],
    },
    // The last literal is cut off.
    Row {
        step: Step::Seal(&[5, 6, -7], 2, 5),
        heads: &[
            (7, true, &[1, -2, 3], None, None),
            (9, true, &[4], None, None),
            (2, true, &[], None, None),
            (5, true, &[5, 6], None, None),
        ],
    },
    Row {
        step: Step::SetLink(0, false, Some(3)),
        heads: &[
            (7, true, &[1, -2, 3], Some(3), None),
            (9, true, &[4], None, None),
            (2, true, &[], None, None),
            (5, true, &[5, 6], None, None),
        ],
    },
    Row {
        step: Step::SetLink(0, true, Some(0)),
        heads: &[
            (7, true, &[1, -2, 3], Some(3), Some(0)),
            (9, true, &[4], None, None),
            (2, true, &[], None, None),
            (5, true, &[5, 6], None, None),
        ],
    },
    // The first literal goes, and the first edge keeps its link.
    Row {
        step: Step::Swap(0, false, 2),
        heads: &[
            (7, true, &[3, -2, 1], Some(3), Some(0)),
            (9, true, &[4], None, None),
            (2, true, &[], None, None),
            (5, true, &[5, 6], None, None),
        ],
    },
    Row {
        step: Step::Swap(0, true, 2),
        heads: &[
            (7, true, &[3, 1, -2], Some(3), Some(0)),
            (9, true, &[4], None, None),
            (2, true, &[], None, None),
            (5, true, &[5, 6], None, None),
        ],
    },
    // A dead clause keeps what it had.
    Row {
        step: Step::Kill(1),
        heads: &[
            (7, true, &[3, 1, -2], Some(3), Some(0)),
            (9, false, &[4], None, None),
            (2, true, &[], None, None),
            (5, true, &[5, 6], None, None),
        ],
    },
    Row {
        step: Step::Compact(&[0, 0, 1, 2]),
        heads: &[
            (7, true, &[3, 1, -2], None, None),
            (2, true, &[], None, None),
            (5, true, &[5, 6], None, None),
        ],
    },
    Row {
        step: Step::Seal(&[-6, -5, 2, 8], 4, 8),
        heads: &[
            (7, true, &[3, 1, -2], None, None),
            (2, true, &[], None, None),
            (5, true, &[5, 6], None, None),
            (8, true, &[-6, -5, 2, 8], None, None),
        ],
    },
    Row {
        step: Step::SetLink(3, false, Some(2)),
        heads: &[
            (7, true, &[3, 1, -2], None, None),
            (2, true, &[], None, None),
            (5, true, &[5, 6], None, None),
            (8, true, &[-6, -5, 2, 8], Some(2), None),
        ],
    },
    Row {
        step: Step::Kill(0),
        heads: &[
            (7, false, &[3, 1, -2], None, None),
            (2, true, &[], None, None),
            (5, true, &[5, 6], None, None),
            (8, true, &[-6, -5, 2, 8], Some(2), None),
        ],
    },
    // The last clause is longer than the gap, so it slides over itself.
    Row {
        step: Step::Compact(&[0, 0, 1, 2]),
        heads: &[
            (2, true, &[], None, None),
            (5, true, &[5, 6], None, None),
            (8, true, &[-6, -5, 2, 8], None, None),
        ],
    },
];

fn sealed(arena: &mut Arena, numbers: &[i32], keep: usize, id: u64) -> Result<(), Fail> {
    for number in numbers {
        let lit = Lit::from_number(*number).ok_or("a literal")?;
        arena.reserve(0, 1)?;
        arena.append(lit);
    }
    arena.cut(keep);
    arena.reserve(1, 0)?;
    arena.seal(id);
    Ok(())
}

fn swapped(arena: &mut Arena, c: u32, w: bool, n: usize) -> Result<(), Fail> {
    if c >= arena.count() || !arena.live(c) {
        return Err(Fail::from("a live clause"));
    }
    let len = arena.lits(c).len();
    let (watched, other) = if w { (1, 0) } else { (0, 1) };
    if watched >= len || n >= len || n == other {
        return Err(Fail::from("a watched literal, and one that the other edge doesn't watch"));
    }
    arena.swap(c, w, n);
    Ok(())
}

fn linked(arena: &mut Arena, c: u32, w: bool, next: Option<u32>) -> Result<(), Fail> {
    if c >= arena.count() {
        return Err(Fail::from("a clause"));
    }
    match next {
        Some(n) => {
            if n >= MOST_HEADS {
                return Err(Fail::from("a number that a clause can have"));
            }
            arena.set_link(c, w, Link::to(n, w));
        }
        None => arena.set_link(c, w, Link::nowhere()),
    }
    Ok(())
}

fn killed(arena: &mut Arena, c: u32) -> Result<(), Fail> {
    if c >= arena.count() || !arena.live(c) {
        return Err(Fail::from("a live clause"));
    }
    arena.kill(c);
    Ok(())
}

// Plans, sees that each live clause is to go where it was worked, and compacts.
fn compacted(arena: &mut Arena, places: &[u32]) -> Result<(), Fail> {
    arena.cut(0);
    arena.plan_compact();
    for (k, place) in places.iter().enumerate() {
        let is_there = k < arena.count() as usize;
        if is_there && arena.live(k as u32) && arena.moved_to(k as u32) != *place {
            return Err(Fail::from("the place that was worked"));
        }
    }
    arena.finish_compact();
    Ok(())
}

fn stepped(arena: &mut Arena, step: Step) -> Result<(), Fail> {
    match step {
        Step::Seal(numbers, keep, id) => sealed(arena, numbers, keep, id),
        Step::Swap(c, w, n) => swapped(arena, c, w, n),
        Step::SetLink(c, w, next) => linked(arena, c, w, next),
        Step::Kill(c) => killed(arena, c),
        Step::Compact(places) => compacted(arena, places),
    }
}

fn numbers(alloc: Global, lits: &[Lit]) -> Result<Vec<i32>, Fail> {
    let mut numbers = Vec::new(alloc);
    for lit in lits {
        numbers.push(lit.number())?;
    }
    Ok(numbers)
}

// Whether the clause's edges watch its first two literals, where it has them.
fn watches_its_first(arena: &Arena, c: u32) -> bool
    requires { c < length arena.now.heads }
{
    let lits = arena.lits(c);
    if lits.len() > 0 {
        if arena.watched(c, false) != lits[0] {
            return false;
        }
    }
    if lits.len() > 1 {
        return arena.watched(c, true) == lits[1];
    }
    true
}

// Whether the clause is as worked, and its edges watch its first two literals.
fn assert_head(
    rt: &impl Abort,
    alloc: Global,
    arena: &Arena,
    c: u32,
    head: &Shown<'_>,
) -> Result<(), Fail>
    requires { c < length arena.now.heads }
{
    let lits = numbers(alloc, arena.lits(c))?;
    let shown: Shown<'_> = (
        arena.id(c),
        arena.live(c),
        lits.as_slice(),
        arena.link(c, false).clause(),
        arena.link(c, true).clause(),
    );
    assert!(rt; shown == *head);
    assert!(rt; watches_its_first(arena, c));
    Ok(())
}

// Whether the arena has exactly these clauses.
fn assert_heads(
    rt: &impl Abort,
    alloc: Global,
    arena: &Arena,
    heads: &[Shown<'_>],
) -> Result<(), Fail> {
    let count = arena.count();
    assert!(rt; count as usize == heads.len());
    for (k, head) in heads.iter().enumerate() {
        if k < count as usize {
            assert_head(rt, alloc, arena, k as u32, head)?;
        }
    }
    Ok(())
}

#[test]
fn an_arena_changes_as_worked(rt: HostRuntime) -> Result<(), Fail> {
    let mut arena = Arena::new(rt.alloc());
    for row in &ROWS {
        stepped(&mut arena, row.step)?;
        assert_heads(&rt, rt.alloc(), &arena, row.heads)?;
    }
    Ok(())
}
