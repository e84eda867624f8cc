// Arenas beside plain lists of clauses: the same drawn calls on both.
use super::{assert_head, compacted, killed, linked, sealed, swapped};
use crate::draws::Draws;
use lls_arena::Arena;
use std::alloc::Global;
use std::process::Abort;
use std::test::Fail;

// A clause as a list keeps it.
#[derive(Drop)]
struct Kept {
    id: u64,
    live: bool,
    lits: Vec<i32>,
    first: Option<u32>,
    second: Option<u32>,
}

// An arena, the list of what it is to have, and what is drawn.
#[derive(Drop)]
struct Script {
    arena: Arena,
    list: Vec<Kept>,
    draws: Draws,
}

impl Script {
    // The place of a clause of the list, where there is any.
    fn clause(&mut self) -> Option<u32> {
        let count = self.arena.count();
        if count == 0 {
            return None;
        }
        Some(self.draws.below(count))
    }

    // Up to five literals of nine variables, of which so many at the front are kept.
    fn seal(&mut self, alloc: Global) -> Result<(), Fail> {
        let mut lits = Vec::new(alloc);
        for _ in 0..self.draws.below(6) {
            lits.push(self.draws.number(9))?;
        }
        let keep = self.draws.below(7) as usize;
        let id = self.draws.below(1000) as u64;
        sealed(&mut self.arena, &lits, keep, id)?;
        lits.truncate(keep);
        self.list.push(Kept {
            id,
            live: true,
            lits,
            first: None,
            second: None,
        })?;
        Ok(())
    }

    fn swap(&mut self, c: u32) -> Result<(), Fail> {
        let w = self.draws.below(2) == 1;
        let n = self.draws.below(5) as usize;
        let (watched, other) = if w { (1, 0) } else { (0, 1) };
        if let Some(kept) = self.list.get_mut(c as usize) {
            if kept.live && watched < kept.lits.len() && n < kept.lits.len() && n != other {
                kept.lits.swap(watched, n);
                swapped(&mut self.arena, c, w, n)?;
            }
        }
        Ok(())
    }

    fn link(&mut self, c: u32) -> Result<(), Fail> {
        let w = self.draws.below(2) == 1;
        let next = match self.draws.below(100) {
            0..=9 => None,
            n => Some(n),
        };
        if let Some(kept) = self.list.get_mut(c as usize) {
            if w {
                kept.second = next;
            } else {
                kept.first = next;
            }
            linked(&mut self.arena, c, w, next)?;
        }
        Ok(())
    }

    fn kill(&mut self, c: u32) -> Result<(), Fail> {
        if let Some(kept) = self.list.get_mut(c as usize) {
            if kept.live {
                kept.live = false;
                killed(&mut self.arena, c)?;
            }
        }
        Ok(())
    }

    // The live clauses with no links, and for each clause how many live ones stand before it.
    fn compact(&mut self, alloc: Global) -> Result<(), Fail> {
        let mut left = Vec::new(alloc);
        let mut places = Vec::new(alloc);
        let mut before: u32 = 0;
        for kept in self.list.iter() {
            places.push(before)?;
            if kept.live {
                before = before.saturating_add(1);
                left.push(Kept {
                    id: kept.id,
                    live: true,
                    lits: copied(alloc, &kept.lits)?,
                    first: None,
                    second: None,
                })?;
            }
        }
        compacted(&mut self.arena, &places)?;
        self.list = left;
        Ok(())
    }

    fn step(&mut self, alloc: Global) -> Result<(), Fail> {
        let call = self.draws.below(20);
        match self.clause() {
            Some(c) => match call {
                0..=6 => self.seal(alloc),
                7..=10 => self.swap(c),
                11..=15 => self.link(c),
                16..=18 => self.kill(c),
                _ => self.compact(alloc),
            },
            None => self.seal(alloc),
        }
    }

    // Whether the arena has the clauses of the list.
    fn compare(&self, rt: &impl Abort, alloc: Global) -> Result<(), Fail> {
        let count = self.arena.count();
        assert!(rt; count as usize == self.list.len());
        for (c, kept) in self.list.iter().enumerate() {
            if c < count as usize {
                let head = (
                    kept.id,
                    kept.live,
                    kept.lits.as_slice(),
                    kept.first,
                    kept.second,
                );
                assert_head(rt, alloc, &self.arena, c as u32, &head)?;
            }
        }
        Ok(())
    }
}

fn copied(alloc: Global, numbers: &[i32]) -> Result<Vec<i32>, Fail> {
    let mut copy = Vec::new(alloc);
    for number in numbers {
        copy.push(*number)?;
    }
    Ok(copy)
}

#[test]
fn an_arena_goes_along_with_a_list(rt: HostRuntime) -> Result<(), Fail> {
    for seed in 0..20 {
        let mut script = Script {
            arena: Arena::new(rt.alloc()),
            list: Vec::new(rt.alloc()),
            draws: Draws::new(seed),
        };
        for _ in 0..100 {
            script.step(rt.alloc())?;
            script.compare(&rt, rt.alloc())?;
        }
    }
    Ok(())
}
