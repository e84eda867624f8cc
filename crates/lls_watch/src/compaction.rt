// Numbers that clauses get where the dead ones are taken away.
ghost use Rattle.std.specs.Prelude.{◌≡◌, ◌<◌, true, All, length, take, vec_capacity};
ghost use Rattle.lls_store.specs.Removal.{renamed};
ghost use Rattle.lls_store.specs.Sound.{IsSound};
ghost use Rattle.lls_watch.specs.Passed.{live_from};
ghost use Rattle.lls_watch.specs.Renumbered.{live_among, moved_among};

use lls_arena::Arena;
use lls_store::Trail;

// Changes each reason of the trail to the place that its clause goes to.
pub(crate) fn rename_reasons(arena: &Arena, trail: &mut Trail)
    requires planned { arena.now.planned ≡ true }
    requires sound { IsSound (live_from 0 arena.now.heads) trail.old }
    ensures { trail.new ≡ renamed (live_from 0 arena.now.heads) trail.old }
{
    for k in 0..trail.len() {
        let var = trail.lit(k).var();
        if let Some(reason) = trail.known_reason(var) {
            trail.set_reason(var, arena.moved_to(reason));
        }
    }
}

// Keeps the numbers of the live clauses, each as the place that it goes to.
pub(crate) fn rename_numbers(arena: &Arena, numbers: &mut Vec<u32>)
    requires planned { arena.now.planned ≡ true }
    requires there { All (λ c. c < length arena.now.heads) numbers.old.items }
    ensures items { numbers.new.items ≡ moved_among arena.now.heads numbers.old.items }
    ensures capacity { vec_capacity numbers.new ≡ vec_capacity numbers.old }
{
    let kept = move_live(arena, numbers);
    numbers.truncate(kept);
}

// Has the first numbers be the places that the live ones among all go to, and answers how many these are.
fn move_live(arena: &Arena, numbers: &mut [u32]) -> usize
    requires planned { arena.now.planned ≡ true }
    requires there { All (λ c. c < length arena.now.heads) numbers.old }
    ensures { take result numbers.new ≡ moved_among arena.now.heads numbers.old }
{
    let mut kept = 0;
    for k in 0..numbers.len() {
        let c = numbers[k];
        if arena.live(c) {
            numbers[kept] = arena.moved_to(c);
            kept += 1;
        }
    }
    kept
}

// How many of the clauses are live.
pub(crate) fn count_live(arena: &Arena, numbers: &[u32]) -> usize
    requires { All (λ c. c < length arena.now.heads) numbers.now }
    ensures { result ≡ length (live_among arena.now.heads numbers.now) }
{
    let mut count = 0;
    for number in numbers {
        if arena.live(*number) {
            count += 1;
        }
    }
    count
}
