// The values of a command's options.
ghost use Rattle.std.specs.Prelude.{◌≡◌, ◌≤◌, map, find, All, IfOk, OnOk};
ghost use Rattle.std.specs.Option.{option_map};
ghost use Rattle.lls_base.specs.Results.{Gives};
ghost use Rattle.lls_hensel.specs.Isotropy.{IsIsotropic};
ghost use Rattle.lls_problem.specs.Bounds.{HasEnds};
ghost use Rattle.lls_problem.specs.Problem.{IsPeriod};
ghost use Rattle.lls_words.specs.Command.{same_setting};
ghost use Rattle.lls_words.specs.Job.{rule_at, value_or, with_value, gathered, place_of, lone_exact, settled, defaults, AreSettled};
ghost use Rattle.lls_words.specs.Values.{period_in, bounds_in, budget_in, searchers_in};
ghost use Rattle.lls_words.specs.Seen.{seen_given};

use crate::command::Setting;
use crate::error::WordsError;
use crate::further::Further;
use crate::scan::Given;
use crate::values::{
    DEFAULT_BUDGET, MOST_BUDGET, MOST_SEARCHERS, bounds_in, budget_in, edge_in, exact_in, form_in,
    generations_in, images_in, keep_all_in, manner_in, period_in, rle_in, searchers_in, seed_in,
};
use lls_base::Name;
use lls_hensel::read_rule;
use lls_problem::{Bounds, Demands, Edge, Form, Formulation, Images, Period};
use lls_rule::Rule;
use lls_symmetry::read_symmetry;
use std::alloc::{AllocError, Global};

/// A file that an option names.
#[derive(Drop)]
pub struct NamedFile {
    /// The place of the option's word, from 1.
    pub place: u64,
    pub file: Name,
}

/// The values of all options.
#[derive(Drop)]
pub struct Settings {
    pub rule: Rule,
    pub low: Rule,
    pub high: Rule,
    pub demands: Demands,
    /// The file of patterns that generation 0 mustn't be, where there is one.
    pub but: Option<NamedFile>,
    pub budget: u32,
    pub keep_all: bool,
    pub rle: bool,
    pub formulation: Formulation,
    /// How many searchers take turns, where there are several.
    pub crew: Option<u32>,
    /// The number from which is drawn whose turn it is.
    pub turns: u64,
    pub further: Further,
}

impl Settings {
    // Life, `B3/S23`, for each rule, under a closed edge, with no other demand; the default budget, half of the learnt clauses
    // kept, and patterns as rows; formulas by cover, of all solutions; no crew, and turns that are drawn from 0; a restless search.
    fn default_values(alloc: Global) -> Settings
        ensures value { result ≡ defaults }
        ensures allowed { AreSettled result }
    {
        let life = Rule::from_counts(8, 12);
        Settings {
            rule: life,
            low: life,
            high: life,
            demands: Demands::new(alloc, Edge::Framed),
            but: None,
            budget: DEFAULT_BUDGET,
            keep_all: false,
            rle: false,
            formulation: Formulation {
                form: Form::Cover,
                images: Images::All,
            },
            crew: None,
            turns: 0,
            further: Further::DEFAULT,
        }
    }

    // Sets the value of one option. After a fault nothing is said of the settings.
    fn set(&mut self, alloc: Global, given: &Given) -> Result<(), WordsError>
        requires { AreSettled self.old }
        ensures value { Gives WordsError.Memory (λ _. self.new) result (with_value self.old (seen_given given.now)) }
        ensures allowed { OnOk result (AreSettled self.new) }
    {
        let value = given.value.as_bytes();
        let fault = WordsError::BadValue(given.place);
        match given.setting {
            Setting::Rule => self.rule = rule_at(given.place, value)?,
            Setting::Low => self.low = rule_at(given.place, value)?,
            Setting::High => self.high = rule_at(given.place, value)?,
            Setting::Edge => self.demands.edge = edge_in(value).ok_or(fault)?,
            Setting::Symmetry => self.demands.symmetry = read_symmetry(value).ok_or(fault)?,
            Setting::Period => self.demands.period = Some(period_at(given.place, value)?),
            Setting::Exact => self.demands.exact = exact_in(value).ok_or(fault)?,
            Setting::Live => {
                self.demands.bounds = bounds_at(alloc, given.place, value)?;
            }
            Setting::Differ => {
                self.demands.differ = Some(generations_in(value).ok_or(fault)?);
            }
            Setting::But => {
                let file = name_in(alloc, given.value)?;
                self.but = Some(NamedFile {
                    place: given.place,
                    file,
                });
            }
            Setting::Budget => self.budget = budget_at(given.place, value)?,
            Setting::Keep => self.keep_all = keep_all_in(value).ok_or(fault)?,
            Setting::Manner => self.further.manner = Some(manner_in(value).ok_or(fault)?),
            Setting::First => self.further.first = Some(seed_in(&given.value).ok_or(fault)?),
            Setting::As => self.rle = rle_in(value).ok_or(fault)?,
            Setting::Images => self.formulation.images = images_in(value).ok_or(fault)?,
            Setting::Formula => self.formulation.form = form_in(value).ok_or(fault)?,
            Setting::Crew => self.crew = Some(searchers_at(given.place, value)?),
            Setting::Turns => self.turns = seed_in(&given.value).ok_or(fault)?,
        }
        Ok(())
    }
}

// The name of a file.
fn name_in(alloc: Global, text: &str) -> Result<Name, AllocError>
    ensures { IfOk result (λ name. name ≡ text.now) }
{
    Ok(Name::new(String::from_str(alloc, text)?))
}

/// The rule of a text; the place is its option's, or its own where it is an operand.
pub fn rule_at(place: u64, text: &[u8]) -> Result<Rule, WordsError>
    ensures exact { result ≡ rule_at place text.now }
    ensures isotropic { IfOk result IsIsotropic }
{
    match read_rule(text) {
        Ok(rule) => Ok(rule),
        Err(fault) => Err(WordsError::BadRule(place, fault)),
    }
}

// The period of a text; the place is its option's.
fn period_at(place: u64, text: &[u8]) -> Result<Period, WordsError>
    ensures value { result ≡ value_or place (period_in text.now) }
    ensures within { IfOk result IsPeriod }
{
    match period_in(text) {
        Some(period) => Ok(period),
        None => Err(WordsError::BadValue(place)),
    }
}

// The bounds of a text; the place is its option's.
fn bounds_at(alloc: Global, place: u64, text: &[u8]) -> Result<Bounds, WordsError>
    ensures value { Gives WordsError.Memory (λ bounds. bounds) result (value_or place (bounds_in text.now)) }
    ensures ends { IfOk result (All HasEnds) }
{
    match bounds_in(alloc, text)? {
        Some(bounds) => Ok(bounds),
        None => Err(WordsError::BadValue(place)),
    }
}

// The budget of a text; the place is its option's.
fn budget_at(place: u64, text: &[u8]) -> Result<u32, WordsError>
    ensures value { result ≡ value_or place (budget_in text.now) }
    ensures within { IfOk result (λ budget. budget ≤ MOST_BUDGET) }
{
    match budget_in(text) {
        Some(budget) => Ok(budget),
        None => Err(WordsError::BadValue(place)),
    }
}

// How many searchers a text says; the place is its option's.
fn searchers_at(place: u64, text: &[u8]) -> Result<u32, WordsError>
    ensures value { result ≡ value_or place (searchers_in text.now) }
    ensures within { IfOk result (λ searchers. (1 ≤ searchers) × (searchers ≤ MOST_SEARCHERS)) }
{
    match searchers_in(text) {
        Some(searchers) => Ok(searchers),
        None => Err(WordsError::BadValue(place)),
    }
}

// The settings of options, in their order.
fn gather(alloc: Global, givens: &[Given]) -> Result<Settings, WordsError>
    ensures settings { Gives WordsError.Memory (λ s. s) result (gathered defaults (map seen_given givens.now)) }
    ensures allowed { IfOk result AreSettled }
{
    let mut settings = Settings::default_values(alloc);
    for given in givens {
        settings.set(alloc, given)?;
    }
    Ok(settings)
}

// The option of that setting, where it was given.
fn given_of<'g, 'w>(givens: &'g [Given<'w>], setting: Setting) -> Option<&'g Given<'w>>
    ensures { option_map (λ given. given.now) result ≡ find (λ given. same_setting given.setting setting) givens.now }
{
    givens.iter().find(|given| given.setting == setting)
}

// The place of an option, where it was given.
#[tactic(auto, using(crate::proofs::Lists::mapped))]
fn place_of(givens: &[Given], setting: Setting) -> Option<u64>
    ensures { result ≡ place_of setting (map seen_given givens.now) }
{
    match given_of(givens, setting) {
        Some(given) => Some(given.place),
        None => None,
    }
}

// The place of `--exact`, where it was given without `--period`.
fn lone_exact(givens: &[Given]) -> Option<u64>
    ensures { result ≡ lone_exact (map seen_given givens.now) }
{
    match place_of(givens, Setting::Period) {
        Some(_) => None,
        None => place_of(givens, Setting::Exact),
    }
}

/// The settings of a command's options, in their order, or the first fault: of a value, and then `--exact` without
/// `--period`.
pub fn settle(alloc: Global, givens: &[Given]) -> Result<Settings, WordsError>
    ensures settings { Gives WordsError.Memory (λ s. s) result (settled defaults (map seen_given givens.now)) }
    ensures allowed { IfOk result AreSettled }
{
    let settings = gather(alloc, givens)?;
    match lone_exact(givens) {
        Some(place) => Err(WordsError::NoPeriod(place)),
        None => Ok(settings),
    }
}
