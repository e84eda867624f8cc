// Runs in which a call of the outside fails.
use super::{Failing, NOTHING, is_fault, run_over, words_of};
use lls_cli::Status;
use std::test::Fail;

const ONE_CELL: &[u8] = b"1\n\n1\n";

const PROOF: &[u8] = b"5 0 1 2 4 0\n";

#[test]
fn failures_of_the_outside(rt: HostRuntime) -> Result<(), Fail> {
    let alloc = rt.alloc();
    let words = words_of(alloc, "check f p")?;
    // An input takes two reads: all of it, and its end. A write to the output takes three bytes.
    for (open, read, out, text, given) in [
        (1, 0, 0, "outside: OpenFailed", ""),
        (2, 0, 0, "outside: OpenFailed", ""),
        (0, 1, 0, "outside: ReadFailed", ""),
        (0, 2, 0, "outside: ReadFailed", ""),
        (0, 3, 0, "outside: ReadFailed", ""),
        (0, 4, 0, "outside: ReadFailed", ""),
        (0, 0, 1, "outside: OutFailed", ""),
        (0, 0, 3, "outside: OutFailed", "accept"),
    ] {
        let failing = Failing {
            open,
            read,
            out,
            ..NOTHING
        };
        let ended = run_over(alloc, &words, ONE_CELL, PROOF, failing)?;
        is_fault(&rt, alloc, &ended, Status::Outside, text)?;
        assert!(rt; ended.out.bytes() == given.as_bytes());
    }
    Ok(())
}

#[test]
fn a_failing_error_stream_changes_no_status(rt: HostRuntime) -> Result<(), Fail> {
    let alloc = rt.alloc();
    let failing = Failing { err: 1, ..NOTHING };
    for (words, status) in [
        ("check f", Status::Words),
        ("check p p", Status::Content),
        ("check f q", Status::Outside),
    ] {
        let words = words_of(alloc, words)?;
        let ended = run_over(alloc, &words, ONE_CELL, PROOF, failing)?;
        assert!(rt; ended.status == status);
        assert!(rt; ended.err.bytes().is_empty());
        assert!(rt; ended.out.bytes().is_empty());
    }
    Ok(())
}

// A command line, the files `f` and `p`, what fails, and the status and the text that are wanted.
type Row = (
    &'static str,
    &'static str,
    &'static str,
    Failing,
    Status,
    &'static str,
);

#[test]
fn the_first_refusal_is_answered(rt: HostRuntime) -> Result<(), Fail> {
    let alloc = rt.alloc();
    let open = Failing { open: 2, ..NOTHING };
    let read = Failing { read: 1, ..NOTHING };
    let out = Failing { out: 1, ..NOTHING };
    let rows: [Row; 8] = [
        // The first file is refused before another is opened.
        (
            "check f p",
            "1 2\n",
            "",
            open,
            Status::Content,
            "content: BadCell 1 3",
        ),
        (
            "judge f p",
            "",
            "1\n",
            open,
            Status::Content,
            "content: Empty",
        ),
        (
            "search f q",
            "1 2\n",
            "",
            open,
            Status::Content,
            "content: BadCell 1 3",
        ),
        (
            "cnf f",
            "1 2\n",
            "",
            open,
            Status::Content,
            "content: BadCell 1 3",
        ),
        (
            "sat f q",
            "p cnf 1\n",
            "",
            open,
            Status::Content,
            "content: BadHeader 1",
        ),
        // An input that can't be read has no fault of its content.
        (
            "judge f p",
            "*\n",
            "a\n",
            read,
            Status::Outside,
            "outside: ReadFailed",
        ),
        // A no that isn't given is a failure of the output.
        (
            "check f p",
            "1\n\n1\n",
            "",
            out,
            Status::Outside,
            "outside: OutFailed",
        ),
        (
            "judge f p",
            "1\n",
            "0\n",
            out,
            Status::Outside,
            "outside: OutFailed",
        ),
    ];
    for (line, f, p, failing, status, text) in rows {
        let words = words_of(alloc, line)?;
        let ended = run_over(alloc, &words, f.as_bytes(), p.as_bytes(), failing)?;
        is_fault(&rt, alloc, &ended, status, text)?;
        assert!(rt; ended.out.bytes().is_empty());
    }
    // A comment as long as a search file may be, and one that is longer by a byte.
    let words = words_of(alloc, "check f p")?;
    for (length, status, text) in [
        (1_048_576, Status::Content, "content: Empty"),
        (1_048_577, Status::Limit, "limit: TooLong 1048576"),
    ] {
        let file = vec![in alloc; b'#'; length]?;
        let ended = run_over(alloc, &words, &file, b"", open)?;
        is_fault(&rt, alloc, &ended, status, text)?;
    }
    Ok(())
}
