// Every place of a run that may fail, for each command.
use super::{Ended, Failing, NOTHING, is_fault, run_over, words_of};
use lls_cli::Status;
use std::alloc::Global;
use std::process::Abort;
use std::test::Fail;

const CELL: &str = "1\n\n1\n";

const GRID: &str = "* * *\n* * *\n* * *\n\n* * *\n* * *\n* * *\n";

// A command line with the files `f` and `p`, how many of them it reads, and what it says. The file that it may write is `q`.
#[derive(Clone, Copy)]
struct Case {
    words: &'static str,
    f: &'static str,
    p: &'static str,
    inputs: u64,
    text: &'static str,
    status: Status,
}

fn case_of(
    words: &'static str,
    f: &'static str,
    p: &'static str,
    inputs: u64,
    text: &'static str,
    status: Status,
) -> Case {
    Case {
        words,
        f,
        p,
        inputs,
        text,
        status,
    }
}

fn ended(alloc: Global, case: &Case, failing: Failing) -> Result<Ended, Fail> {
    let words = words_of(alloc, case.words)?;
    Ok(run_over(alloc, &words, case.f.as_bytes(), case.p.as_bytes(), failing)?)
}

// That a case ends with a failure of the outside, with so many bytes of its text given and these of its file left.
fn fails(
    rt: &impl Abort,
    alloc: Global,
    case: &Case,
    failing: Failing,
    line: &str,
    given: usize,
    left: Option<&[u8]>,
) -> Result<(), Fail> {
    let ended = ended(alloc, case, failing)?;
    is_fault(rt, alloc, &ended, Status::Outside, line)?;
    let text = case.text.as_bytes();
    assert!(rt; ended.out.bytes() == &text[..given.min(text.len())]);
    assert!(rt; ended.shelf.file("f") == Some(case.f.as_bytes()));
    assert!(rt; ended.shelf.file("p") == Some(case.p.as_bytes()));
    assert!(rt; ended.shelf.file("q") == left);
    Ok(())
}

// An input takes two reads, the second of which meets its end.
fn inputs_fail(rt: &impl Abort, alloc: Global, case: &Case) -> Result<(), Fail> {
    for number in 1..case.inputs.min(2) + 1 {
        let open = Failing {
            open: number,
            ..NOTHING
        };
        fails(rt, alloc, case, open, "outside: OpenFailed", 0, None)?;
        for read in [2 * number - 1, 2 * number] {
            let read = Failing { read, ..NOTHING };
            fails(rt, alloc, case, read, "outside: ReadFailed", 0, None)?;
        }
    }
    Ok(())
}

// A write takes seven bytes of a file, and three of the output. The output fails once the file stands.
fn outputs_fail(rt: &impl Abort, alloc: Global, case: &Case) -> Result<(), Fail> {
    let whole = ended(alloc, case, NOTHING)?;
    assert!(rt; whole.status == case.status);
    assert!(rt; whole.out.bytes() == case.text.as_bytes());
    let file = whole.shelf.file("q");
    if let Some(bytes) = file {
        let create = Failing {
            create: 1,
            ..NOTHING
        };
        fails(rt, alloc, case, create, "outside: CreateFailed", 0, None)?;
        for (write, length) in [(1, 0), (2, 7)] {
            let write = Failing {
                write,
                most: 7,
                ..NOTHING
            };
            let left = &bytes[..bytes.len().min(length)];
            if left.len() < bytes.len() {
                fails(
                    rt,
                    alloc,
                    case,
                    write,
                    "outside: WriteFailed",
                    0,
                    Some(left),
                )?;
            }
        }
    }
    for (out, given) in [(1, 0), (2, 3)] {
        let out = Failing { out, ..NOTHING };
        fails(rt, alloc, case, out, "outside: OutFailed", given, file)?;
    }
    Ok(())
}

#[test]
fn every_place_fails(rt: HostRuntime) -> Result<(), Fail> {
    let alloc = rt.alloc();
    let cases = [
        case_of(
            "check f p",
            CELL,
            "5 0 1 2 4 0\n",
            2,
            "accepted\n",
            Status::Done,
        ),
        case_of(
            "search f q --period 1 --live 0:1-3",
            GRID,
            "",
            1,
            "no pattern\n",
            Status::NoPattern,
        ),
        case_of(
            "search f q --period 1 --live 0:1-",
            "* *\n* *\n\n* *\n* *\n",
            "",
            1,
            "1 1\n1 1\n\n1 1\n1 1\n",
            Status::Pattern,
        ),
        case_of(
            "sat f q --budget 10",
            "p cnf 2 4\n1 2 0\n1 -2 0\n-1 2 0\n-1 -2 0\n",
            "",
            1,
            "s UNSATISFIABLE\n",
            Status::NoPattern,
        ),
        case_of("judge f p", "1\n", "1\n", 2, "meets\n", Status::Done),
        case_of("cnf f", "1\n", "", 1, "p cnf 1 1\n1 0\n", Status::Done),
        case_of(
            "lrat f p",
            "p cnf 1 2\n1 0\n-1 0\n",
            "3 0 1 2 0\n",
            2,
            "accepted\n",
            Status::Done,
        ),
        case_of("rule B3/S23", "", "", 0, "B3/S23\n", Status::Done),
        case_of(
            "trim f p q",
            "p cnf 1 2\n1 0\n-1 0\n",
            "4 1 0 1 0\n9 0 1 2 0\n",
            2,
            "kept 1 of 2\n",
            Status::Done,
        ),
    ];
    for case in &cases {
        inputs_fail(&rt, alloc, case)?;
        outputs_fail(&rt, alloc, case)?;
    }
    Ok(())
}

#[test]
fn an_output_that_takes_five_bytes_fails(rt: HostRuntime) -> Result<(), Fail> {
    let blinker = "0 0 0\n1 1 1\n0 0 0\n\n* * *\n* * *\n* * *\n";
    let text = "0 0 0\n1 1 1\n0 0 0\n\n0 1 0\n0 1 0\n0 1 0\n";
    let case = case_of("search f q", blinker, "", 1, text, Status::Pattern);
    let failing = Failing {
        out: 3,
        step: 5,
        ..NOTHING
    };
    outputs_fail(&rt, rt.alloc(), &case)?;
    fails(
        &rt,
        rt.alloc(),
        &case,
        failing,
        "outside: OutFailed",
        10,
        None,
    )
}
