// Texts in DIMACS CNF: the formula that each writes, printed.
use lls_cnf::{MOST_DIMACS_BYTES, print_dimacs, read_dimacs};
use std::alloc::Global;
use std::process::Abort;
use std::test::Fail;

fn answer(rt: &impl Abort, alloc: Global, text: &str) -> Result<Vec<u8>, Fail> {
    let bytes = text.as_bytes();
    assert!(rt; bytes.len() <= MOST_DIMACS_BYTES);
    match read_dimacs(alloc, bytes) {
        Ok(formula) => Ok(print_dimacs(alloc, &formula)?),
        Err(fault) => {
            let text = format!(in alloc; "{fault}")?;
            Ok(Vec::from_slice(alloc, text.as_bytes())?)
        }
    }
}

fn compare(rt: &impl Abort, alloc: Global, rows: &[(&str, &str)]) -> Result<(), Fail> {
    for (text, want) in rows {
        let found = answer(rt, alloc, text)?;
        assert!(rt; found.as_slice() == want.as_bytes(), "at {text:?}");
    }
    Ok(())
}

#[test]
fn formulas_are_read_and_printed(rt: HostRuntime) -> Result<(), Fail> {
    let rows = [
        ("p cnf 2 2\n1 2 0\n-1 -2 0\n", "p cnf 2 2\n1 2 0\n-1 -2 0\n"),
        (
            "p cnf 2 2\r\n1 2 0\r\n-1 -2 0\r",
            "p cnf 2 2\n1 2 0\n-1 -2 0\n",
        ),
        (
            "c one\n\n \tc two\np cnf 2 1\n1\nc 3 x % \n-2\n0",
            "p cnf 2 1\n1 -2 0\n",
        ),
        (
            "p cnf 2 3\n1 0 2 0 -1\n\n\t-2 0\n",
            "p cnf 2 3\n1 0\n2 0\n-1 -2 0\n",
        ),
        (" p\tcnf  1 \t 2 \n1 00 -1 000\n", "p cnf 1 2\n1 0\n-1 0\n"),
        (
            "p cnf 01 002\n01 0 -000000000000000001 0",
            "p cnf 1 2\n1 0\n-1 0\n",
        ),
        ("p cnf 1 1\n1 1 -1 1 0\n", "p cnf 1 1\n1 1 -1 1 0\n"),
        ("p cnf 0 1\n0\n", "p cnf 0 1\n0\n"),
        ("p cnf 0 0", "p cnf 0 0\n"),
        (
            "p cnf 16777216 1\n-16777216 0\n",
            "p cnf 16777216 1\n-16777216 0\n",
        ),
    ];
    compare(&rt, rt.alloc(), &rows)
}
