//! A binary heap in two tables: the number at each place, and the place of each number.
ghost use Rattle.std.specs.Prelude.{◌≡◌, ℕ, ◌+◌, ◌<◌, ◌≤◌, length, nat_lt, slice_index, slice_set, true, false, swap, IfNone, IfOk, IfSome};
ghost use Rattle.lls_order.specs.Heap.{AreInverse, AreNumbers, AreTables, IsGreaterChild, IsHeap, IsHeapButAt, IsHeapButBelow, SameInside, inside_of, parent_of, rank_of, ranks};

use lls_base::Memory;
use lls_lit::Var;
use std::alloc::Global;

// The numbers below one, each at its own place.
pub(crate) fn numbers_below(alloc: Global, end: u32) -> Result<Vec<u32>, Memory>
    ensures len { IfOk result (λ numbers. length numbers.items ≡ end) }
    ensures own_place { IfOk result (λ numbers. (k : ℕ) → k < end → slice_index numbers.items k ≡ k) }
{
    let mut numbers = Vec::with_capacity(alloc, end as usize)?;
    for number in 0..end {
        numbers.push(number)?;
    }
    Ok(numbers)
}

// Whether a number has the greater rank: more activity, or as much and the smaller number.
pub(crate) fn outranks(activities: &[u64], first: u32, second: u32) -> bool
    requires first_fits { first < length activities.now }
    requires second_fits { second < length activities.now }
    requires few { length activities.now ≤ Var.MOST }
    ensures { result ≡ nat_lt (rank_of activities.now second) (rank_of activities.now first) }
{
    let one = activities[first as usize];
    let other = activities[second as usize];
    one > other || (one == other && first < second)
}

// Exchanges the numbers at two places.
fn exchange(heap: &mut [u32], places: &mut [u32], first: usize, second: usize)
    requires first_fits { first < length heap.old }
    requires second_fits { second < length heap.old }
    requires few { length heap.old ≤ Var.MOST }
    requires inverse { AreInverse heap.old places.old }
    ensures heap { heap.new ≡ swap heap.old first second }
    ensures inverse { AreInverse heap.new places.new }
{
    heap.swap(first, second);
    places[heap[first] as usize] = first as u32;
    places[heap[second] as usize] = second as u32;
}

// The parent of a place, where the place outranks it.
fn lesser_parent(activities: &[u64], heap: &[u32], at: usize) -> Option<usize>
    requires within { at < length heap.now }
    requires numbers { AreNumbers activities.now heap.now }
    ensures above_zero { IfSome result (λ parent. 0 < at) }
    ensures parent { IfSome result (λ parent. parent ≡ parent_of at) }
    ensures lesser { IfSome result (λ parent. ranks activities.now heap.now parent < ranks activities.now heap.now at) }
    ensures none { IfNone result (0 < at → ranks activities.now heap.now at ≤ ranks activities.now heap.now (parent_of at)) }
{
    if at == 0 {
        return None;
    }
    let parent = (at - 1) / 2;
    if outranks(activities, heap[at], heap[parent]) {
        Some(parent)
    } else {
        None
    }
}

// The child of a place that outranks it and the other child.
fn greater_child(activities: &[u64], heap: &[u32], at: usize, count: usize) -> Option<usize>
    requires within { count ≤ length heap.now }
    requires numbers { AreNumbers activities.now heap.now }
    ensures some { IfSome result (IsGreaterChild (ranks activities.now heap.now) count at) }
    ensures none { IfNone result ((k : ℕ) → 0 < k → k < count → parent_of k ≡ at → ranks activities.now heap.now k ≤ ranks activities.now heap.now at) }
{
    // The places from here on have no child.
    if at >= count / 2 {
        return None;
    }
    let left = 2 * at + 1;
    let right = left + 1;
    let child = if right < count && outranks(activities, heap[right], heap[left]) {
        right
    } else {
        left
    };
    if outranks(activities, heap[child], heap[at]) {
        Some(child)
    } else {
        None
    }
}

// Moves what stands at a place up to where it belongs.
pub(crate) fn sift_up(activities: &[u64], heap: &mut [u32], places: &mut [u32], from: usize)
    requires within { from < length heap.old }
    requires tables { AreTables activities.now heap.old places.old }
    ensures tables { AreTables activities.now heap.new places.new }
    ensures inside { SameInside from places.old places.new }
    ensures heap { (count : ℕ) → IsHeapButAt (ranks activities.now heap.old) count from → IsHeap (ranks activities.now heap.new) count }
{
    let mut at = from;
    while let Some(parent) = lesser_parent(activities, heap, at) {
        exchange(heap, places, at, parent);
        at = parent;
    }
}

// Moves what stands at the first place down to where it belongs.
fn sift_down(activities: &[u64], heap: &mut [u32], places: &mut [u32], count: usize)
    requires within { count ≤ length heap.old }
    requires tables { AreTables activities.now heap.old places.old }
    ensures tables { AreTables activities.now heap.new places.new }
    ensures inside { inside_of count places.new ≡ inside_of count places.old }
    ensures heap { IsHeapButBelow (ranks activities.now heap.old) count 0 → IsHeap (ranks activities.now heap.new) count }
{
    let mut at = 0;
    while let Some(child) = greater_child(activities, heap, at, count) {
        exchange(heap, places, at, child);
        at = child;
    }
}

// Makes a heap of what stands at the first places.
pub(crate) fn make_heap(activities: &[u64], heap: &mut [u32], places: &mut [u32], count: usize)
    requires within { count ≤ length heap.old }
    requires tables { AreTables activities.now heap.old places.old }
    ensures tables { AreTables activities.now heap.new places.new }
    ensures inside { inside_of count places.new ≡ inside_of count places.old }
    ensures heap { IsHeap (ranks activities.now heap.new) count }
{
    for at in 0..count {
        sift_up(activities, heap, places, at);
    }
}

// Takes the first number out of the heap: it stands right behind it then.
pub(crate) fn remove_first(activities: &[u64], heap: &mut [u32], places: &mut [u32], count: usize)
    requires within { count < length heap.old }
    requires tables { AreTables activities.now heap.old places.old }
    requires heap { IsHeap (ranks activities.now heap.old) (count + 1) }
    ensures tables { AreTables activities.now heap.new places.new }
    ensures inside { inside_of count places.new ≡ slice_set (inside_of (count + 1) places.old) (slice_index heap.old 0) false }
    ensures heap { IsHeap (ranks activities.now heap.new) count }
{
    exchange(heap, places, 0, count);
    sift_down(activities, heap, places, count);
}

// Puts the number at a place behind the heap into it.
pub(crate) fn insert_from(
    activities: &[u64],
    heap: &mut [u32],
    places: &mut [u32],
    place: usize,
    count: usize,
)
    requires within { place < length heap.old }
    requires behind { count ≤ place }
    requires tables { AreTables activities.now heap.old places.old }
    requires heap { IsHeap (ranks activities.now heap.old) count }
    ensures tables { AreTables activities.now heap.new places.new }
    ensures inside { inside_of (count + 1) places.new ≡ slice_set (inside_of count places.old) (slice_index heap.old place) true }
    ensures heap { IsHeap (ranks activities.now heap.new) (count + 1) }
{
    exchange(heap, places, place, count);
    sift_up(activities, heap, places, count);
}
