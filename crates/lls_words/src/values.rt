// The values of options, and of operands that are numbers.
ghost use Rattle.std.specs.Prelude.{◌≡◌, ◌≤◌, ◌==◌, position, All, IfOk, IfSome};
ghost use Rattle.std.specs.Option.{ForSome, option_map};
ghost use Rattle.lls_grid.specs.Place.{IsWithin};
ghost use Rattle.lls_problem.specs.Bounds.{HasEnds};
ghost use Rattle.lls_problem.specs.Problem.{IsPeriod};
ghost use Rattle.lls_words.specs.Values.{edge_in, budget_in, seed_in, size_in, searchers_in, exact_in, keep_all_in, manner_in, rle_in, images_in, form_in, cut_at, number_in, shift_in, period_in, generation_in, generations_in, low_in, high_in, bound_in, bounds_in};
ghost use Rattle.lls_words.specs.Seen.{seen_pair};

use crate::further::Manner;
use lls_grid::History;
use lls_problem::{Bound, Bounds, Edge, Form, Images, Period};
use lls_symmetry::{MOST_PERIOD, MOST_SHIFT};
use lls_text::digits_number;
use std::alloc::{AllocError, Global};

// The greatest number of digits of a number.
const MOST_DIGITS: usize = 20;

/// The greatest budget of a search.
pub const MOST_BUDGET: u32 = 10_000_000;

/// The budget of a search for which none is said.
pub const DEFAULT_BUDGET: u32 = 100_000;

/// The greatest number that a problem is made from, or turns are drawn from.
pub const MOST_SEED: u64 = u64::MAX;

/// The greatest size of a problem that is made.
pub const MOST_SIZE: u32 = 64;

/// The greatest number of searchers that take turns.
pub const MOST_SEARCHERS: u32 = 16;

/// The edge of a text.
pub fn edge_in(text: &[u8]) -> Option<Edge>
    ensures { result ≡ edge_in text.now }
{
    if text == b"closed".as_slice() {
        Some(Edge::Framed)
    } else if text == b"open".as_slice() {
        Some(Edge::Bare)
    } else {
        None
    }
}

/// The period of a text: its length alone, or with a shift to the right and one downwards, separated by commas.
pub fn period_in(text: &[u8]) -> Option<Period>
    ensures period { result ≡ period_in text.now }
    ensures within { IfSome result IsPeriod }
{
    let Some((length, shifts)) = cut_at(text, b',') else {
        let length = number_in(text, 1, MOST_PERIOD)?;
        return Some(Period {
            length,
            dx: 0,
            dy: 0,
        });
    };
    let length = number_in(length, 1, MOST_PERIOD)?;
    let (dx, dy) = cut_at(shifts, b',')?;
    let dx = shift_in(dx)?;
    let dy = shift_in(dy)?;
    Some(Period { length, dx, dy })
}

/// The budget of a text.
pub fn budget_in(text: &[u8]) -> Option<u32>
    ensures budget { result ≡ budget_in text.now }
    ensures within { IfSome result (λ budget. budget ≤ MOST_BUDGET) }
{
    number_in(text, 0, MOST_BUDGET)
}

/// The number of a text from which a problem is made, or turns are drawn.
pub fn seed_in(text: &str) -> Option<u64>
    ensures { result ≡ seed_in text.now }
{
    if text.len() > MOST_DIGITS {
        return None;
    }
    // `parse` takes a plus sign too
    digits_number(text.as_bytes())?;
    text.parse::<u64>().ok()
}

/// The size of a text: how many rows a problem has, of as many cells.
pub fn size_in(text: &[u8]) -> Option<u32>
    ensures size { result ≡ size_in text.now }
    ensures within { IfSome result (λ size. (1 ≤ size) × (size ≤ MOST_SIZE)) }
{
    number_in(text, 1, MOST_SIZE)
}

/// How many searchers take turns, by a text.
pub fn searchers_in(text: &[u8]) -> Option<u32>
    ensures searchers { result ≡ searchers_in text.now }
    ensures within { IfSome result (λ searchers. (1 ≤ searchers) × (searchers ≤ MOST_SEARCHERS)) }
{
    number_in(text, 1, MOST_SEARCHERS)
}

/// Whether a text has the period be exact.
pub fn exact_in(text: &[u8]) -> Option<bool>
    ensures { result ≡ exact_in text.now }
{
    if text == b"yes".as_slice() {
        Some(true)
    } else if text == b"no".as_slice() {
        Some(false)
    } else {
        None
    }
}

/// Whether a text keeps all learnt clauses.
pub fn keep_all_in(text: &[u8]) -> Option<bool>
    ensures { result ≡ keep_all_in text.now }
{
    if text == b"all".as_slice() {
        Some(true)
    } else if text == b"half".as_slice() {
        Some(false)
    } else {
        None
    }
}

/// The manner that a text says.
pub fn manner_in(text: &[u8]) -> Option<Manner>
    ensures { result ≡ manner_in text.now }
{
    if text == b"restless".as_slice() {
        Some(Manner::Restless)
    } else if text == b"steady".as_slice() {
        Some(Manner::Steady)
    } else if text == b"both".as_slice() {
        Some(Manner::Both)
    } else {
        None
    }
}

/// Whether a text says that patterns are RLE.
pub fn rle_in(text: &[u8]) -> Option<bool>
    ensures { result ≡ rle_in text.now }
{
    if text == b"rle".as_slice() {
        Some(true)
    } else if text == b"rows".as_slice() {
        Some(false)
    } else {
        None
    }
}

/// Which solutions a text leaves.
pub fn images_in(text: &[u8]) -> Option<Images>
    ensures { result ≡ images_in text.now }
{
    if text == b"all".as_slice() {
        Some(Images::All)
    } else if text == b"one".as_slice() {
        Some(Images::One)
    } else {
        None
    }
}

/// The form of a formula that a text names by its number.
pub fn form_in(text: &[u8]) -> Option<Form>
    ensures { result ≡ form_in text.now }
{
    if text == b"1".as_slice() {
        Some(Form::Rows)
    } else if text == b"2".as_slice() {
        Some(Form::Cover)
    } else {
        None
    }
}

/// The two generations of a text, separated by a comma.
pub fn generations_in(text: &[u8]) -> Option<(u32, u32)>
    ensures { result ≡ generations_in text.now }
{
    let (first, second) = cut_at(text, b',')?;
    let first = generation_in(first)?;
    let second = generation_in(second)?;
    Some((first, second))
}

fn generation_in(text: &[u8]) -> Option<u32>
    ensures { result ≡ generation_in text.now }
{
    number_in(text, 0, History::MOST_GENERATIONS - 1)
}

/// The bounds of a text, separated by commas.
pub fn bounds_in(alloc: Global, text: &[u8]) -> Result<Option<Bounds>, AllocError>
    ensures bounds { IfOk result (λ bounds. bounds ≡ bounds_in text.now) }
    ensures ends { IfOk result (λ bounds. IfSome bounds (All HasEnds)) }
{
    let mut bounds = Vec::new(alloc);
    let mut rest = text;
    while let Some((entry, behind)) = cut_at(rest, b',') {
        let Some(bound) = bound_in(entry) else {
            return Ok(None);
        };
        bounds.push(bound)?;
        rest = behind;
    }
    let Some(last) = bound_in(rest) else {
        return Ok(None);
    };
    bounds.push(last)?;
    Ok(Some(Bounds::new(bounds)))
}

// The bound of a text: a generation, `:`, the low end if any, `-`, and the high end if any.
fn bound_in(text: &[u8]) -> Option<Bound>
    ensures bound { result ≡ bound_in text.now }
    ensures ends { IfSome result HasEnds }
{
    let (generation, ends) = cut_at(text, b':')?;
    let generation = generation_in(generation)?;
    let (low, high) = cut_at(ends, b'-')?;
    let low = low_in(low)?;
    let high = high_in(high)?;
    Some(Bound {
        generation,
        low,
        high,
    })
}

// The low end of a bound, 0 where there is none.
fn low_in(text: &[u8]) -> Option<u32>
    ensures low { result ≡ low_in text.now }
    ensures within { IfSome result (λ low. low ≤ Bound.MOST) }
{
    if text.is_empty() {
        return Some(0);
    }
    number_in(text, 0, Bound::MOST)
}

// The high end of a bound, where there is one.
fn high_in(text: &[u8]) -> Option<Option<u32>>
    ensures high { result ≡ high_in text.now }
    ensures within { IfSome result (λ high. ForSome high (λ most. most ≤ Bound.MOST)) }
{
    if text.is_empty() {
        return Some(None);
    }
    let high = number_in(text, 0, Bound::MOST)?;
    Some(Some(high))
}

// What stands before the first such byte of a text, and behind it.
fn cut_at(text: &[u8], byte: u8) -> Option<(&[u8], &[u8])>
    ensures { option_map seen_pair result ≡ cut_at byte text.now }
{
    match first_of(text, byte) {
        None => None,
        Some(at) => Some((&text[..at], &text[at + 1..])),
    }
}

// Where the first such byte of a text stands.
fn first_of(text: &[u8], wanted: u8) -> Option<usize>
    ensures { result ≡ position (λ b. b == wanted) text.now }
{
    text.iter().position(|byte| *byte == wanted)
}

// The number of columns or rows that a text writes, with `-` before it where it goes left or up.
fn shift_in(text: &[u8]) -> Option<i32>
    ensures shift { result ≡ shift_in text.now }
    ensures within { IfSome result (λ shift. IsWithin MOST_SHIFT shift) }
{
    match text {
        [b'-', digits @ ..] => Some(0 - number_in(digits, 0, MOST_SHIFT)? as i32),
        _ => Some(number_in(text, 0, MOST_SHIFT)? as i32),
    }
}

// The number from `low` to `high` that a text writes.
fn number_in(text: &[u8], low: u32, high: u32) -> Option<u32>
    ensures number { result ≡ number_in low high text.now }
    ensures within { IfSome result (λ n. (low ≤ n) × (n ≤ high)) }
{
    if text.len() > MOST_DIGITS {
        return None;
    }
    let number = digits_number(text)?;
    if u64::from(low) <= number && number <= u64::from(high) {
        Some(number as u32)
    } else {
        None
    }
}
