//! A queue of the variables by rank, as a ring of links in two tables: from each to the next of lesser rank, and to that of
//! greater. 0, which is no variable, stands between the last and the first.
ghost use Rattle.std.specs.Prelude.{◌≡◌, ℕ, ◌+◌, ◌-◌, ◌<◌, ◌≤◌, ◌/◌, ◌⊎◌, length, map, nat_lt, slice_index, slice_set, true, IfOk};
ghost use Rattle.std.specs.List.Sorted.{IsNonDecreasingBy, IsPermutation};
ghost use Rattle.lls_lit.specs.Literal.{IsVariable};
ghost use Rattle.lls_order.specs.Queue.{AreInRing, AreLinks, HasEach, IsCursor, IsPrevious, cursor_moved, next_moved, previous_moved, rank_of, stands_in};

use lls_base::Memory;
use lls_lit::Var;
use std::alloc::Global;

/// The rank of a variable: the greater comes first.
pub(crate) fn rank(activities: &[u64], number: u32) -> u128
    ensures { result ≡ rank_of activities.now number }
{
    if number == 0 {
        return 0;
    }
    let index = number - 1;
    let activity = activities.get(index as usize).copied().unwrap_or(0);
    u128::from(activity) * u128::from(Var::MOST) + u128::from(Var::MOST.saturating_sub(index))
}

/// Whether a variable is of greater rank than another one, or than 0. It is told without a rank, since a search asks it for each
/// value that it takes back.
pub(crate) fn is_greater(activities: &[u64], var: Var, other: u32) -> bool
    requires var { var ≤ length activities.now }
    requires other { other ≤ length activities.now }
    requires few { length activities.now ≤ Var.MOST }
    ensures greater { result ≡ nat_lt (rank_of activities.now other) (rank_of activities.now var) }
    ensures variable { IsVariable var }
{
    let own = activities[var.index()];
    let Some(other) = Var::from_number(other) else {
        return true;
    };
    let its = activities[other.index()];
    if own == its {
        var.number() < other.number()
    } else {
        own > its
    }
}

/// The variable's number or the other one: that of greater rank.
pub(crate) fn foremost(activities: &[u64], var: Var, other: u32) -> u32
    requires var { var ≤ length activities.now }
    requires other { other ≤ length activities.now }
    requires few { length activities.now ≤ Var.MOST }
    ensures among { (result ≡ var) ⊎ (result ≡ other) }
    ensures var { rank_of activities.now var ≤ rank_of activities.now result }
    ensures other { rank_of activities.now other ≤ rank_of activities.now result }
    ensures variable { IsVariable var }
{
    if is_greater(activities, var, other) {
        var.number()
    } else {
        other
    }
}

// The links to the lesser without activity: from each variable to that of the next number.
pub(crate) fn greater_numbers(alloc: Global, vars: u32) -> Result<Vec<u32>, Memory>
    requires { vars ≤ Var.MOST }
    ensures len { IfOk result (λ previous. length previous.items ≡ vars + 1) }
    ensures each { IfOk result (λ previous. (v : ℕ) → v < vars → slice_index previous.items v ≡ v + 1) }
    ensures around { IfOk result (λ previous. slice_index previous.items vars ≡ 0) }
{
    let mut previous = Vec::with_capacity(alloc, vars as usize + 1)?;
    for number in 0..vars {
        previous.push(number + 1)?;
    }
    previous.push(0)?;
    Ok(previous)
}

// The links to the greater without activity: from each variable to that of the number before.
pub(crate) fn lesser_numbers(alloc: Global, vars: u32) -> Result<Vec<u32>, Memory>
    requires { vars ≤ Var.MOST }
    ensures len { IfOk result (λ next. length next.items ≡ vars + 1) }
    ensures each { IfOk result (λ next. (v : ℕ) → v < vars → slice_index next.items (v + 1) ≡ v) }
    ensures around { IfOk result (λ next. slice_index next.items 0 ≡ vars) }
{
    let mut next = Vec::with_capacity(alloc, vars as usize + 1)?;
    next.push(vars)?;
    for number in 0..vars {
        next.push(number)?;
    }
    Ok(next)
}

// Takes a variable out of the ring and puts it in as the last.
fn move_last(previous: &mut [u32], next: &mut [u32], number: u32)
    requires within { number < length previous.old }
    requires same { length next.old ≡ length previous.old }
    requires previous_fits { (k : ℕ) → slice_index previous.old k < length previous.old }
    requires next_fits { (k : ℕ) → slice_index next.old k < length previous.old }
    ensures previous { previous.new ≡ previous_moved previous.old next.old number }
    ensures next { next.new ≡ next_moved previous.old next.old number }
{
    let lesser = previous[number as usize];
    let greater = next[number as usize];
    previous[greater as usize] = lesser;
    next[lesser as usize] = greater;
    let last = previous[0];
    previous[number as usize] = last;
    next[last as usize] = number;
    next[number as usize] = 0;
    previous[0] = number;
}

/// Gives a variable an activity that is greater than all.
pub(crate) fn raise(
    activities: &mut [u64],
    previous: &mut [u32],
    next: &mut [u32],
    var: Var,
    activity: u64,
)
    requires within { var ≤ length activities.old }
    requires few { length activities.old ≤ Var.MOST }
    requires greatest { (k : ℕ) → slice_index activities.old k < activity }
    requires links { AreLinks (rank_of activities.old) (length activities.old) previous.old next.old }
    ensures variable { IsVariable var }
    ensures activities { activities.new ≡ slice_set activities.old (var - 1) activity }
    ensures links { AreLinks (rank_of activities.new) (length activities.old) previous.new next.new }
{
    activities[var.index()] = activity;
    move_last(previous, next, var.number());
}

/// Halves all activities, rounding down.
pub(crate) fn halve_all(activities: &mut [u64])
    ensures { activities.new ≡ map (λ a. a / 2) activities.old }
{
    for activity in activities.iter_mut() {
        *activity /= 2;
    }
}

fn sort_by_rank(activities: &[u64], numbers: &mut [u32])
    ensures sorted { IsNonDecreasingBy (rank_of activities.now) numbers.new }
    ensures same { IsPermutation numbers.old numbers.new }
{
    numbers.sort_unstable_by_key(|number| rank(activities, *number));
}

// Links each number to that behind it, and the last to the first.
fn link_in_turn(numbers: &[u32], next: &mut [u32])
    requires each { HasEach (length next.old - 1) numbers.now }
    requires some { 0 < length next.old }
    ensures { AreInRing numbers.now next.new }
{
    let last = numbers.len() - 1;
    for place in 0..last {
        next[numbers[place] as usize] = numbers[place + 1];
    }
    next[numbers[last] as usize] = numbers[0];
}

// Turns links round.
fn link_back(next: &[u32], previous: &mut [u32])
    requires each { HasEach (length next.now - 1) next.now }
    requires same { length previous.old ≡ length next.now }
    ensures { (v : ℕ) → v < length next.now → slice_index previous.new (slice_index next.now v) ≡ v }
{
    for number in 0..next.len() {
        previous[next[number] as usize] = number as u32;
    }
}

/// Makes the ring anew.
pub(crate) fn link_by_rank(activities: &[u64], previous: &mut [u32], next: &mut [u32])
    requires few { length activities.now ≤ Var.MOST }
    requires same { length next.old ≡ length activities.now + 1 }
    requires each { HasEach (length activities.now) previous.old }
    ensures { AreLinks (rank_of activities.now) (length activities.now) previous.new next.new }
{
    sort_by_rank(activities, previous);
    link_in_turn(previous, next);
    link_back(next, previous);
}

/// The first variable from there on that is in, else 0. The activities are named by the contract alone.
pub(crate) fn first_inside(_activities: &[u64], inside: &[bool], previous: &[u32], from: u32) -> u32
    requires few { length _activities.now ≤ Var.MOST }
    requires inside_each { length inside.now ≡ length _activities.now }
    requires previous_each { length previous.now ≡ length _activities.now + 1 }
    requires before { (v : ℕ) → v ≤ length _activities.now → IsPrevious (rank_of _activities.now) (length _activities.now) v (slice_index previous.now v) }
    requires cursor { IsCursor (rank_of _activities.now) (length _activities.now) inside.now from }
    ensures cursor { IsCursor (rank_of _activities.now) (length _activities.now) inside.now result }
    ensures stands { 0 < result → stands_in inside.now result ≡ true }
{
    let mut number = from;
    while number != 0 && !inside[number as usize - 1] {
        number = previous[number as usize];
    }
    number
}

/// Where the search for the first variable that is in begins once this one is the last of the ring.
pub(crate) fn cursor_behind(inside: &[bool], previous: &[u32], cursor: u32, var: Var) -> u32
    requires within { var ≤ length inside.now }
    requires previous_each { length previous.now ≡ length inside.now + 1 }
    ensures { result ≡ cursor_moved inside.now previous.now cursor var }
{
    if inside[var.index()] {
        var.number()
    } else if cursor == var.number() {
        previous[cursor as usize]
    } else {
        cursor
    }
}
