// What a crew forgets: clauses that are no searcher's reason go out of each that holds them, in one step of the log.
ghost use Rattle.std.specs.Prelude.{◌≡◌, ◌<◌, ◌≤◌, All, IfOk, IfSome, OnErr, drop, length, map, slice_get};
ghost use Rattle.lls_store.specs.Sound.{IsSound};
ghost use Rattle.lls_solver.specs.Deletion.{HasReasons, MayLose, numbers_left};
ghost use Rattle.lls_solver.specs.Searching.{IsGoodLog, IsSearching};
ghost use Rattle.lls_solver.specs.Sharing.{AreLiveSteps, IsBehind};
ghost use Rattle.lls_crew.specs.Forgetting.{Forgets, HaveForgotten, IsChosen, ids_in};

use lls_base::Memory;
use lls_cnf::Formula;
use lls_prooflog::Log;
use lls_solver::Searcher;
use lls_watch::WatchStore;
use std::alloc::Global;

// What goes: the clauses that are marked by number, whose ids these are.
#[derive(Drop)]
struct Chosen {
    marks: Vec<bool>,
    ids: Vec<u64>,
}

/// Where it is time to and not all is to be kept, deletes the half of the learnt clauses that is of least use to a searcher which
/// lacks none, of those that are no searcher's reason. The steps of the numbers `live` are the additions that are live.
pub(crate) fn forget(
    alloc: Global,
    formula: &Formula,
    searchers: &mut [Searcher<WatchStore>],
    k: usize,
    log: &mut Log,
    live: &mut Vec<usize>,
    keep_all: bool,
) -> Result<(), Memory>
    requires within { k < length searchers.old }
    requires searching { IfSome (slice_get searchers.old k) (λ s. IsSearching formula.now log.old.steps s.store s.trail) }
    requires behind { All (λ s. IsBehind formula.now log.old.steps s.store s.trail) searchers.old }
    requires good { IsGoodLog formula.now log.old.steps }
    requires live { AreLiveSteps formula.now log.old.steps live.old.items }
    ensures forgets { Forgets formula.now keep_all log.old.steps log.new.steps (map ids_in searchers.old) (map ids_in searchers.new) }
    ensures behind { All (λ s. IsBehind formula.now log.new.steps s.store s.trail) searchers.new }
    ensures good { IsGoodLog formula.now log.new.steps }
    ensures live { AreLiveSteps formula.now log.new.steps live.new.items }
    ensures err { OnErr result (log.new.steps ≡ log.old.steps) }
    ensures err_searchers { OnErr result (searchers.new ≡ searchers.old) }
{
    if keep_all {
        return Ok(());
    }
    let Some(chosen) = choose(alloc, formula, searchers, k, log)? else {
        return Ok(());
    };
    let left = unmarked(alloc, live, &chosen.marks, formula.len())?;
    log.reserve(1, 0, chosen.ids.len())?;
    log.push_del(&chosen.ids);
    *live = left;
    remove(searchers, &chosen.marks);
    Ok(())
}

// Chooses what goes, where it is time to: the half that is of least use to a searcher which lacks none.
fn choose(
    alloc: Global,
    formula: &Formula,
    searchers: &[Searcher<WatchStore>],
    k: usize,
    log: &Log,
) -> Result<Option<Chosen>, Memory>
    requires within { k < length searchers.now }
    requires searching { IfSome (slice_get searchers.now k) (λ s. IsSearching formula.now log.now.steps s.store s.trail) }
    requires behind { All (λ s. IsBehind formula.now log.now.steps s.store s.trail) searchers.now }
    ensures { IfOk result (λ some. IfSome some (λ chosen. IsChosen formula.now log.now.steps searchers.now chosen.marks.items chosen.ids.items)) }
{
    let searcher = &searchers[k];
    if !searcher.wants_to_forget(formula, log) {
        return Ok(None);
    }
    let reasons = reasons_of(alloc, searchers, searcher.count())?;
    let marks = searcher.mark_half(alloc, formula, &reasons)?;
    let ids = searcher.ids_of(alloc, &marks)?;
    if ids.is_empty() {
        return Ok(None);
    }
    Ok(Some(Chosen { marks, ids }))
}

// Marks by number the clauses that are some searcher's reasons.
fn reasons_of(
    alloc: Global,
    searchers: &[Searcher<WatchStore>],
    count: u32,
) -> Result<Vec<bool>, Memory>
    requires sound { All (λ s. IsSound s.store.live s.trail) searchers.now }
    requires each { All (λ s. s.store.count ≤ count) searchers.now }
    ensures len { IfOk result (λ reasons. length reasons.items ≡ count) }
    ensures reasons { IfOk result (λ reasons. All (λ s. HasReasons s.trail.entries reasons.items) searchers.now) }
{
    let mut reasons = vec![in alloc; false; count as usize]?;
    for searcher in searchers {
        searcher.mark_reasons(&mut reasons);
    }
    Ok(reasons)
}

// The numbers that aren't marked, one by one, from a place of the marks on.
fn unmarked(
    alloc: Global,
    numbers: &[usize],
    marks: &[bool],
    from: usize,
) -> Result<Vec<usize>, Memory>
    requires { from ≤ length marks.now }
    ensures { IfOk result (λ left. left.items ≡ numbers_left numbers.now (drop from marks.now)) }
{
    left_of(alloc, numbers, &marks[from..])
}

// The numbers that aren't marked, one by one.
fn left_of(alloc: Global, numbers: &[usize], marks: &[bool]) -> Result<Vec<usize>, Memory>
    ensures { IfOk result (λ left. left.items ≡ numbers_left numbers.now marks.now) }
{
    let left = numbers
        .iter()
        .zip(marks)
        .filter(|pair| !*pair.1)
        .map(|pair| *pair.0)
        .collect(alloc)?;
    Ok(left)
}

// Has each searcher lose the clauses that are marked.
fn remove(searchers: &mut [Searcher<WatchStore>], marks: &[bool])
    requires { All (MayLose marks.now) searchers.old }
    ensures { HaveForgotten marks.now searchers.old searchers.new }
{
    for k in 0..searchers.len() {
        let searcher = &mut searchers[k];
        searcher.remove(marks);
    }
}
