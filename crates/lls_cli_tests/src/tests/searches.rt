// The commands that search.
use super::{Failing, NOTHING, is_fault, run_over, words_of};
use lls_cli::Status;
use std::alloc::Global;
use std::process::Abort;
use std::test::Fail;

// The problem without a solution, whose search fails at this call, with what the file of the proof then is.
#[test]
fn failures_of_a_search(rt: HostRuntime) -> Result<(), Fail> {
    let alloc = rt.alloc();
    let words = words_of(alloc, "search f q")?;
    let whole = run_over(alloc, &words, b"1\n\n1\n", b"", NOTHING)?;
    let proof = whole.shelf.file("q").unwrap_or(b"");
    assert!(rt; proof.len() > 7);
    let rows: [(Failing, &str, Option<usize>, &str); 5] = [
        (
            Failing { open: 1, ..NOTHING },
            "outside: OpenFailed",
            None,
            "",
        ),
        (
            Failing {
                create: 1,
                ..NOTHING
            },
            "outside: CreateFailed",
            None,
            "",
        ),
        (
            Failing {
                write: 1,
                most: 7,
                ..NOTHING
            },
            "outside: WriteFailed",
            Some(0),
            "",
        ),
        (
            Failing {
                write: 2,
                most: 7,
                ..NOTHING
            },
            "outside: WriteFailed",
            Some(7),
            "",
        ),
        (
            Failing { out: 2, ..NOTHING },
            "outside: OutFailed",
            Some(proof.len()),
            "no ",
        ),
    ];
    for (failing, text, left, given) in rows {
        let ended = run_over(alloc, &words, b"1\n\n1\n", b"", failing)?;
        is_fault(&rt, alloc, &ended, Status::Outside, text)?;
        assert!(rt; ended.out.bytes() == given.as_bytes());
        match (ended.shelf.file("q"), left) {
            (Some(bytes), Some(len)) => assert!(rt; bytes == &proof[..len.min(proof.len())]),
            (found, _) => assert!(rt; found.is_none() == left.is_none()),
        }
    }
    Ok(())
}
