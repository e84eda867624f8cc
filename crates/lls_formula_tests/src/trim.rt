// Logs over the clauses 1 2, 1 -2, -1 2 and -1 -2, and what is left of them once they are trimmed, worked by hand. Texts are compared with
// worked rows over the program.
use crate::formulas::{formula_of, push_add};
use lls_prooflog::{Log, print_log};
use lls_trim::{TrimError, Trimming, trim};
use std::alloc::Global;
use std::process::Abort;
use std::test::Fail;

const CLAUSES: [&[i32]; 4] = [&[1, 2], &[1, -2], &[-1, 2], &[-1, -2]];

fn outcome(alloc: Global, found: Result<Trimming, TrimError>) -> Result<Vec<u8>, Fail> {
    match found {
        Ok(trimming) => Ok(print_log(alloc, &trimming.log)?),
        Err(error) => {
            let text = format!(in alloc; "{error}")?;
            Ok(Vec::from_slice(alloc, text.as_bytes())?)
        }
    }
}

// A log that adds 1, then 3 by its pivot, and then the empty clause by these hints.
fn worked_log(rt: &impl Abort, alloc: Global, hints: &[i64]) -> Result<Log, Fail> {
    let mut log = Log::new(alloc);
    push_add(rt, alloc, &mut log, 9, &[1], &[1, 2])?;
    push_add(rt, alloc, &mut log, 7, &[3], &[])?;
    push_add(rt, alloc, &mut log, 8, &[], hints)?;
    Ok(log)
}

fn compare(rt: &impl Abort, alloc: Global, log: &Log, want: &str) -> Result<(), Fail> {
    let formula = formula_of(rt, alloc, 2, &CLAUSES)?;
    let found = outcome(alloc, trim(alloc, &formula, log))?;
    assert!(rt; found.as_slice() == want.as_bytes());
    Ok(())
}

#[test]
fn steps_of_a_log_are_its_lines(rt: HostRuntime) -> Result<(), Fail> {
    compare(&rt, rt.alloc(), &Log::new(rt.alloc()), "NoEmpty")?;
    let rows: [(&[i64], &str); 2] = [
        (&[7, 9, 3, 4], "RatStep 2"),
        (&[9, 3, 4], "5 1 0 1 2 0\n6 0 5 3 4 0\n"),
    ];
    for (hints, want) in rows {
        let log = worked_log(&rt, rt.alloc(), hints)?;
        compare(&rt, rt.alloc(), &log, want)?;
    }
    Ok(())
}
