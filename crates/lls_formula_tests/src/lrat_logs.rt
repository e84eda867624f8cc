// Logs against the formula 1, 2, 1 -2, -1 -2: what they amount to, and their texts.
use crate::formulas::push_add;
use crate::lrat::{Row, formula, outcome};
use lls_lrat::{check, check_bytes};
use lls_prooflog::{Ids, Log, Step, print_log};
use std::alloc::Global;
use std::process::Abort;
use std::test::Fail;

fn push(rt: &impl Abort, alloc: Global, log: &mut Log, row: Row) -> Result<(), Fail> {
    match row {
        Row::Add(id, lits, hints) => push_add(rt, alloc, log, id, lits, hints),
        Row::Del(ids) => push_del(rt, alloc, log, ids),
    }
}

fn push_del(rt: &impl Abort, alloc: Global, log: &mut Log, ids: &[u64]) -> Result<(), Fail> {
    log.reserve(1, 0, ids.len())?;
    let step = Step::Del {
        ids: Ids::new(Vec::from_slice(alloc, ids)?),
    };
    assert!(rt; step.is_in_range());
    log.push_del(ids);
    Ok(())
}

fn log_of(rt: &impl Abort, alloc: Global, rows: &[Row]) -> Result<Log, Fail> {
    let mut log = Log::new(alloc);
    for row in rows {
        push(rt, alloc, &mut log, *row)?;
    }
    Ok(log)
}

fn compare(
    rt: &impl Abort,
    alloc: Global,
    rows: &[Row],
    additions: u64,
    want: &str,
    text: &str,
) -> Result<(), Fail> {
    let log = log_of(rt, alloc, rows)?;
    assert!(rt; (log.len(), log.additions()) == (rows.len(), additions));
    assert_printed(rt, alloc, &log, text)?;
    let formula = formula(rt, alloc)?;
    let found = outcome(alloc, check(alloc, &formula, &log))?;
    assert!(rt; found.as_str() == want, "at {text:?}");
    Ok(())
}

fn assert_printed(rt: &impl Abort, alloc: Global, log: &Log, text: &str) -> Result<(), Fail> {
    let printed = print_log(alloc, log)?;
    assert!(rt; printed.as_slice() == text.as_bytes());
    Ok(())
}

// What the text comes to.
fn compare_text(rt: &impl Abort, alloc: Global, text: &str, want: &str) -> Result<(), Fail> {
    let formula = formula(rt, alloc)?;
    let found = outcome(alloc, check_bytes(alloc, &formula, text.as_bytes()))?;
    assert!(rt; found.as_str() == want, "at {text:?}");
    Ok(())
}

#[test]
fn logs_amount_to_what_their_texts_do(rt: HostRuntime) -> Result<(), Fail> {
    let rows: [(&[Row], u64, &str, &str); 5] = [
        (&[], 0, "NoEmpty", ""),
        (
            &[Row::Add(5, &[], &[1, 2, 4])],
            1,
            "accepted",
            "5 0 1 2 4 0\n",
        ),
        (
            &[Row::Add(5, &[1, -2], &[1]), Row::Add(6, &[], &[1, 3])],
            2,
            "NotUnit 2 3",
            "5 1 -2 0 1 0\n6 0 1 3 0\n",
        ),
        (
            &[Row::Add(7, &[-2], &[1, 4]), Row::Add(4, &[], &[2, 7])],
            2,
            "IdLive 2 4",
            "7 -2 0 1 4 0\n4 0 2 7 0\n",
        ),
        (
            &[
                Row::Add(7, &[-2], &[1, 4]),
                Row::Add(8, &[], &[2, 7]),
                Row::Add(8, &[], &[9]),
            ],
            3,
            "accepted",
            "7 -2 0 1 4 0\n8 0 2 7 0\n8 0 9 0\n",
        ),
    ];
    for (steps, additions, want, text) in rows {
        compare(&rt, rt.alloc(), steps, additions, want, text)?;
        compare_text(&rt, rt.alloc(), text, want)?;
    }
    Ok(())
}

#[test]
fn logs_with_deletions_amount_to_what_their_texts_do(rt: HostRuntime) -> Result<(), Fail> {
    let rows: [(&[Row], u64, &str, &str); 5] = [
        (
            &[
                Row::Add(7, &[-2], &[1, 4]),
                Row::Del(&[1, 3]),
                Row::Add(8, &[], &[2, 7]),
                Row::Del(&[8]),
            ],
            2,
            "accepted",
            "7 -2 0 1 4 0\n7 d 1 3 0\n8 0 2 7 0\n8 d 8 0\n",
        ),
        (
            &[Row::Del(&[4]), Row::Add(6, &[], &[1, 2, 4])],
            1,
            "NoClause 2 4",
            "0 d 4 0\n6 0 1 2 4 0\n",
        ),
        (
            &[
                Row::Del(&[]),
                Row::Del(&[9_223_372_036_854_775_807]),
                Row::Add(5, &[], &[1, 2, 4]),
            ],
            1,
            "accepted",
            "0 d 0\n0 d 9223372036854775807 0\n5 0 1 2 4 0\n",
        ),
        (
            &[Row::Del(&[2]), Row::Add(2, &[-2], &[1, 4])],
            1,
            "NoEmpty",
            "0 d 2 0\n2 -2 0 1 4 0\n",
        ),
        (
            &[
                Row::Add(4_294_967_295, &[-2], &[1, 4]),
                Row::Add(4_294_967_296, &[-2], &[4_294_967_295]),
                Row::Del(&[4_294_967_295]),
                Row::Add(9, &[], &[2, 4_294_967_296]),
                Row::Del(&[9]),
            ],
            3,
            "accepted",
            "4294967295 -2 0 1 4 0\n4294967296 -2 0 4294967295 0\n4294967296 d 4294967295 0\n\
              9 0 2 4294967296 0\n4294967296 d 9 0\n",
        ),
    ];
    for (steps, additions, want, text) in rows {
        compare(&rt, rt.alloc(), steps, additions, want, text)?;
        compare_text(&rt, rt.alloc(), text, want)?;
    }
    Ok(())
}
