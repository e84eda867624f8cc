// Formulas of problems whose rule is left open, worked out by hand and by an independent script, and what assignments say.
use crate::formulas::clauses;
use lls_cnf::{Assignment, Formula};
use lls_grid::print_history;
use lls_hensel::{print_rule, read_rule};
use lls_open::{MOST_OPEN_CELLS, are_ends, decode_open, encode_open, open_classes};
use lls_problem::{Demands, Edge, Form, Problem, make_problem};
use lls_rule::Rule;
use lls_search_file::read_posed;
use std::alloc::Global;
use std::test::Fail;

// The rule of a text.
fn rule(text: &str) -> Result<Rule, Fail> {
    match read_rule(text.as_bytes()) {
        Ok(rule) => Ok(rule),
        Err(_) => Err(Fail::from("a rule's text")),
    }
}

// The problem of a search file.
fn posed(alloc: Global, file: &[u8], low: Rule, edge: Edge) -> Result<Problem, Fail> {
    let demands = Demands::new(alloc, edge);
    Ok(make_problem(read_posed(alloc, file)?, low, demands)?)
}

// The formula of a problem between its rule and another.
fn encoded(alloc: Global, problem: &Problem, high: &Rule, form: Form) -> Result<Formula, Fail> {
    if !are_ends(problem.rule(), high) || problem.posed().cells.items().len() > MOST_OPEN_CELLS {
        return Err(Fail::from("two ends, and few cells"));
    }
    Ok(encode_open(alloc, problem, high, form)?)
}

#[test]
fn formulas_of_open_rules(rt: HostRuntime) -> Result<(), Fail> {
    let alloc = rt.alloc();
    let low = rule("B3/S23")?;
    let rows: [(&[u8], &str, Edge, Form, u32, &str); 6] = [
        // A cell that lives on alone: the rule has to give 1 where no neighbour is live.
        (
            b"1\n\n1",
            "B3/S023",
            Edge::Framed,
            Form::Rows,
            3,
            "1 0\n2 0\n1 -2 0\n-1 2 -3 0\n-1 -2 3 0\n",
        ),
        // Nothing is open.
        (
            b"1\n\n1",
            "B3/S23",
            Edge::Framed,
            Form::Rows,
            2,
            "1 0\n2 0\n1 -2 0\n-1 -2 0\n",
        ),
        // A mark frees the cell.
        (
            b"1\n\n1'",
            "B3/S023",
            Edge::Framed,
            Form::Rows,
            3,
            "1 0\n2 0\n",
        ),
        // A class of birth and one of survival, by the script.
        (
            b"* *\n\n* 1",
            "B1e3/S1e23",
            Edge::Framed,
            Form::Rows,
            6,
            "4 0\n-1 2 -5 0\n1 -2 -5 0\n-1 -5 0\n1 2 -3 0\n-1 2 -3 0\n1 -2 3 -5 0\n1 -2 -3 5 0\n-1 -2 3 -6 0\n-1 -2 -3 6 0\n1 2 -4 0\n1 -2 -4 0\n-1 2 4 -5 0\n-1 2 -4 5 0\n-1 -2 4 -6 0\n-1 -2 -4 6 0\n-2 -5 0\n-1 2 -5 0\n1 -2 -5 0\n",
        ),
        (
            b"* *\n\n* 1",
            "B1e3/S1e23",
            Edge::Framed,
            Form::Cover,
            6,
            "4 0\n-1 2 -5 0\n1 -2 -5 0\n-1 -5 0\n1 2 -3 0\n2 -3 0\n1 -2 3 -5 0\n1 -2 -3 5 0\n-1 -2 3 -6 0\n-1 -2 -3 6 0\n1 2 -4 0\n1 -4 0\n-1 2 4 -5 0\n-1 2 -4 5 0\n-1 -2 4 -6 0\n-1 -2 -4 6 0\n-2 -5 0\n-1 2 -5 0\n1 -2 -5 0\n",
        ),
        // Under an open edge the one transition that no mark frees.
        (
            b"* *\n* *\n\n*' *'\n*' *",
            "B2a3/S123",
            Edge::Bare,
            Form::Cover,
            11,
            "2 3 4 -8 0\n1 2 3 4 -8 0\n1 2 3 -8 0\n1 4 -8 0\n1 2 4 -8 0\n1 3 4 -8 0\n-2 -3 -4 8 0\n-1 -3 -4 8 0\n-1 -2 3 -4 8 0\n-1 -2 -3 8 0\n-1 2 -3 4 8 -9 0\n-1 2 -3 4 -8 9 0\n-1 -2 3 4 8 -9 0\n-1 -2 3 4 -8 9 0\n-1 2 3 -4 8 -10 0\n-1 2 3 -4 -8 10 0\n1 2 -3 -4 8 -11 0\n1 2 -3 -4 -8 11 0\n1 -2 3 -4 8 -11 0\n1 -2 3 -4 -8 11 0\n",
        ),
    ];
    for (file, high, edge, form, vars, text) in rows {
        let problem = posed(alloc, file, low, edge)?;
        let formula = encoded(alloc, &problem, &rule(high)?, form)?;
        let found = clauses(alloc, &formula)?;
        assert!(rt; (formula.vars(), found.as_str()) == (vars, text));
    }
    Ok(())
}

// The classes in their order, as letters behind sides and counts.
fn classes(alloc: Global, low: &Rule, high: &Rule) -> Result<String, Fail> {
    let mut text = String::new(alloc);
    for class in &open_classes(alloc, low, high)? {
        let side = if class.survival { 'S' } else { 'B' };
        let letter = class.class.letter.unwrap_or(b'-') as char;
        write!(text, "{side}{}{letter} ", class.class.count)?;
    }
    Ok(text)
}

#[test]
fn open_classes_in_order(rt: HostRuntime) -> Result<(), Fail> {
    let alloc = rt.alloc();
    let rows: [(&str, &str, &str); 4] = [
        ("B3/S23", "B3/S23", ""),
        ("B3/S23", "B3/S023", "S0- "),
        (
            "B/S",
            "B1e2ca/S2-n1",
            "B1e B2a B2c S1c S1e S2a S2c S2e S2i S2k ",
        ),
        (
            "B3-k/S8",
            "B36c7/S238",
            "B3k B6c B7c B7e S2a S2c S2e S2i S2k S2n S3a S3c S3e S3i S3j S3k S3n S3q S3r S3y ",
        ),
    ];
    for (low, high, text) in rows {
        let found = classes(alloc, &rule(low)?, &rule(high)?)?;
        assert!(rt; found.as_str() == text);
    }
    Ok(())
}

#[test]
fn ends_of_rules_between(rt: HostRuntime) -> Result<(), Fail> {
    let rows: [(&str, &str, bool); 5] = [
        ("B3/S23", "B3/S023", true),
        ("B3/S23", "B3/S23", true),
        // The high rule gives 0 where the low one gives 1.
        ("B3/S23", "B3/S2", false),
        // They differ at nine dead cells, or at nine live ones.
        ("B3/S23", "B03/S23", false),
        ("B3/S23", "B3/S238", false),
    ];
    for (low, high, are) in rows {
        assert!(rt; are_ends(&rule(low)?, &rule(high)?) == are);
    }
    Ok(())
}

// The history and the rule that values say, or nothing where there are too few of them.
fn decoded(alloc: Global, problem: &Problem, high: &Rule, values: &[bool]) -> Result<String, Fail> {
    let assignment = Assignment::new(Vec::from_slice(alloc, values)?);
    let classes = open_classes(alloc, problem.rule(), high)?;
    let cells = problem.posed().cells.items().len();
    let mut text = String::new(alloc);
    if !are_ends(problem.rule(), high) || values.len() < cells + classes.len() {
        return Ok(text);
    }
    let (history, rule) = decode_open(alloc, problem, high, &assignment)?;
    let Ok(name) = print_rule(alloc, &rule) else {
        return Err(Fail::from("an isotropic rule"));
    };
    for byte in name.iter().chain(print_history(alloc, &history)?.iter()) {
        text.push(*byte as char)?;
    }
    Ok(text)
}

#[test]
fn assignments_are_histories_and_rules(rt: HostRuntime) -> Result<(), Fail> {
    let alloc = rt.alloc();
    let rows: [(&str, &[bool], &str); 3] = [
        ("B3/S023", &[true, true, true], "B3/S0231\n\n1\n"),
        ("B3/S023", &[true, false, false, true], "B3/S231\n\n0\n"),
        (
            "B3/S0123",
            &[false, true, false, true, true],
            "B3/S1230\n\n1\n",
        ),
    ];
    for (high, values, text) in rows {
        let problem = posed(alloc, b"*\n\n*", rule("B3/S23")?, Edge::Framed)?;
        let found = decoded(alloc, &problem, &rule(high)?, values)?;
        assert!(rt; found.as_str() == text);
    }
    Ok(())
}
