// Exact periods: the shorter ones along the same line, and the first of them after which a history is there again.
ghost use Rattle.std.specs.Prelude.{◌≡◌, ◌<◌, ◌≤◌, [], IfSome};
ghost use Rattle.std.specs.List.{flat_map};
ghost use Rattle.std.specs.Option.{option_map_or};
ghost use Rattle.lls_problem.specs.Problem.{IsPeriod};
ghost use Rattle.lls_problem.specs.Judgement.{HasItsSizes};
ghost use Rattle.lls_problem.specs.Firsts.{first};
ghost use Rattle.lls_problem.specs.Exact.{is_prime, is_multiple, part_by, parts_of, returning, shorter_lengths};

use crate::losses::first_at;
use crate::{Period, Problem};
use lls_grid::History;

// Whether a number is a prime.
fn is_prime(q: u32) -> bool
    ensures { result ≡ is_prime q }
{
    if q < 2 {
        return false;
    }
    for k in 2..q {
        if q % k == 0 {
            return false;
        }
    }
    true
}

impl Period {
    // Whether a number divides the period and both parts of its shift.
    fn is_multiple(self, q: u32) -> bool
        requires period { IsPeriod self }
        requires some { 1 ≤ q }
        requires most { q ≤ self.length }
        ensures { result ≡ is_multiple self q }
    {
        self.length % q == 0 && self.dx.unsigned_abs() % q == 0 && self.dy.unsigned_abs() % q == 0
    }

    /// The shorter period of which q make this one, where q is a prime that divides the period and both parts of its
    /// shift. A history that is there again after the shorter one is so after this one.
    pub fn part(self, q: u32) -> Option<Period>
        requires period { IsPeriod self }
        requires most { q ≤ self.length }
        ensures part { result ≡ part_by self q }
        ensures within { IfSome result IsPeriod }
        ensures shorter { IfSome result (λ part. part.length < self.length) }
    {
        if !is_prime(q) || !self.is_multiple(q) {
            return None;
        }
        Some(Period {
            length: self.length / q,
            dx: self.dx / q as i32,
            dy: self.dy / q as i32,
        })
    }
}

// The length of a period, where generation 0 is there again after it.
fn returning(problem: &Problem, history: &History, part: Period) -> Option<u32>
    requires sizes { HasItsSizes problem.now history.now }
    requires period { IsPeriod part }
    requires shorter { part.length < problem.now.posed.generations }
    ensures { result ≡ first (returning problem.now history.now part) }
{
    match first_at(problem, history, part, 0) {
        Some(_) => None,
        None => Some(part.length),
    }
}

// That of the shorter period by q, where there is one.
fn returning_by(problem: &Problem, history: &History, period: Period, q: u32) -> Option<u32>
    requires sizes { HasItsSizes problem.now history.now }
    requires period { IsPeriod period }
    requires shorter { period.length < problem.now.posed.generations }
    requires most { q ≤ period.length }
    ensures { result ≡ first (option_map_or (returning problem.now history.now) (part_by period q) []) }
{
    match period.part(q) {
        Some(part) => returning(problem, history, part),
        None => None,
    }
}

// The first of them by all primes.
fn first_of(problem: &Problem, history: &History, period: Period) -> Option<u32>
    requires sizes { HasItsSizes problem.now history.now }
    requires period { IsPeriod period }
    requires shorter { period.length < problem.now.posed.generations }
    ensures { result ≡ first (flat_map (returning problem.now history.now) (parts_of period)) }
{
    for q in 0..period.length + 1 {
        if let Some(length) = returning_by(problem, history, period, q) {
            return Some(length);
        }
    }
    None
}

/// The length of the first shorter period after which generation 0 is there again, where the period is to be exact.
pub fn first_shorter(problem: &Problem, history: &History) -> Option<u32>
    requires { HasItsSizes problem.now history.now }
    ensures { result ≡ first (shorter_lengths problem.now history.now) }
{
    let demands = problem.demands();
    match demands.period {
        Some(period) if demands.exact => first_of(problem, history, period),
        _ => None,
    }
}
