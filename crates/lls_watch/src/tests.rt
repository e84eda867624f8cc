// Lists worked by hand.
ghost use Rattle.std.specs.Prelude.{IsTrue};
ghost use Rattle.lls_watch.specs.Watches.{WatchesAt};

use crate::watches::Watches;
use lls_arena::Link;
use lls_lit::Lit;
use std::alloc::Global;
use std::test::Fail;

// Whether the clause of that number is there and watches two literals, and that of this edge has a list.
fn watches_at(watches: &Watches, c: u32, w: bool) -> bool
    ensures { IsTrue result → WatchesAt watches.now c w }
{
    if c >= watches.arena().count() {
        return false;
    }
    let lits = watches.arena().lits(c);
    if lits.len() < 2 || lits[0] == lits[1] {
        return false;
    }
    let lit = if w { lits[1] } else { lits[0] };
    lit.index() < watches.len()
}

// Puts a clause into the list of one of its first two literals.
fn attach(watches: &mut Watches, c: u32, w: bool) -> Result<(), Fail> {
    if !watches_at(watches, c, w) {
        return Err(Fail::from("a clause that watches two literals"));
    }
    watches.attach(c, w);
    Ok(())
}

// Makes a clause, and puts it into the lists of its first two literals.
fn clause(watches: &mut Watches, numbers: &[i32]) -> Result<(), Fail> {
    watches.reserve(1, numbers.len())?;
    for number in numbers {
        push(watches, *number)?;
    }
    let c = seal(watches)?;
    attach(watches, c, false)?;
    attach(watches, c, true)
}

fn push(watches: &mut Watches, number: i32) -> Result<(), Fail> {
    watches.reserve(0, 1)?;
    let Some(lit) = Lit::from_number(number) else {
        return Err(Fail::from("a literal"));
    };
    watches.append(lit);
    Ok(())
}

fn seal(watches: &mut Watches) -> Result<u32, Fail> {
    watches.reserve(1, 0)?;
    if watches.arena().count() >= 1000 {
        return Err(Fail::from("few clauses"));
    }
    Ok(watches.seal(1))
}

// The clauses of a literal's list, each with a blank behind it.
fn list(alloc: Global, watches: &Watches, number: i32) -> Result<String, Fail> {
    let Some(lit) = Lit::from_number(number) else {
        return Err(Fail::from("a literal"));
    };
    if lit.index() >= watches.len() {
        return Err(Fail::from("a literal with a list"));
    }
    let mut text = String::new(alloc);
    let mut next = watches.first(lit);
    for _ in 0..1000 {
        let Some(c) = next.clause() else {
            return Ok(text);
        };
        write!(text, "{c} ")?;
        next = link_behind(watches, c, lit)?;
    }
    Err(Fail::from("a list with an end"))
}

// Where the clause's edge with that literal leads.
fn link_behind(watches: &Watches, c: u32, lit: Lit) -> Result<Link, Fail> {
    if c >= watches.arena().count() {
        return Err(Fail::from("a clause"));
    }
    let lits = watches.arena().lits(c);
    if lits.len() < 2 {
        return Err(Fail::from("two literals"));
    }
    Ok(watches.arena().link(c, lits[1] == lit))
}

// The clauses 1 2 3, -1 2, 2 -3 1 and -2 -1, each put into the lists of its first two literals.
#[test]
fn lists_begin_with_the_last_clause(rt: HostRuntime) -> Result<(), Fail> {
    let alloc = rt.alloc();
    let mut watches = Watches::new(alloc, 3)?;
    let clauses: [&[i32]; 4] = [&[1, 2, 3], &[-1, 2], &[2, -3, 1], &[-2, -1]];
    for numbers in clauses {
        clause(&mut watches, numbers)?;
    }
    let rows = [
        (1, "0 "),
        (-1, "3 1 "),
        (2, "2 1 0 "),
        (-2, "3 "),
        (3, ""),
        (-3, "2 "),
    ];
    for (number, want) in rows {
        let found = list(alloc, &watches, number)?;
        assert!(rt; found.as_str() == want, "at {number}");
    }
    Ok(())
}
