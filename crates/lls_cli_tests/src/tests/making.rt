// The command that makes a problem. What it makes is as tools/made.py makes it.
use super::{Ended, Failing, NOTHING, is_fault, run_over, shelf_of, words_of};
use lls_base::{MemSink, Name};
use lls_cli::making::give_making;
use lls_cli::run::run;
use lls_cli::{Effort, Outside, Status};
use std::alloc::Global;
use std::test::Fail;

const SMALL: &str = "0 0\n1 0\n\n0 0\n0 0\n";

const SMALL_SUMMARY: &str = "size 2\nknown 4\nlive 1 0\nvariables 8\nclauses 72\nanswer pattern\n";

// A command line, the file that is written, what it is then, and the summary.
type Found = (&'static str, &'static str, &'static str, &'static str);

#[test]
fn problems_that_are_found(rt: HostRuntime) -> Result<(), Fail> {
    let alloc = rt.alloc();
    let rows: [Found; 4] = [
        (
            "make 0 1 s q",
            "s",
            "0\n\n0\n",
            "size 1\nknown 1\nlive 0 0\nvariables 2\nclauses 4\nanswer pattern\n",
        ),
        ("make 0 2 s q", "s", SMALL, SMALL_SUMMARY),
        // The file that is there is written anew.
        ("make 00 0002 f q", "f", SMALL, SMALL_SUMMARY),
        (
            "make 1 8 f q",
            "f",
            "0 * 1 0 1 * * 0\n1 0 1 * 1 0 0 1\n0 1 1 0 1 1 * 1\n0 1 1 * 1 1 0 1\n0 * * 0 1 0 * 0\n0 1 1 0 1 0 0 *\n* 0 0 0 1 * 1 1\n0 1 1 0 0 1 0 1\n\n0 1 1 0 1 1 1 0\n1 0 0 0 0 0 0 1\n1 0 0 0 0 0 0 1\n1 0 0 0 0 0 0 1\n1 0 0 0 1 0 1 0\n0 1 1 0 1 0 1 1\n0 0 0 0 1 0 0 1\n0 0 0 0 0 1 0 1\n",
            "size 8\nknown 52\nlive 35 23\nvariables 128\nclauses 20148\nanswer pattern\n",
        ),
    ];
    for (line, name, file, summary) in rows {
        let words = words_of(alloc, line)?;
        let mut ended = run_over(alloc, &words, b"something else", b"", NOTHING)?;
        assert!(rt; ended.status == Status::Pattern, "{line}");
        assert!(rt; ended.out.bytes() == summary.as_bytes(), "{line}");
        assert!(rt; ended.shelf.file(name) == Some(file.as_bytes()), "{line}");
        // The same words once more say the same.
        let mut again = MemSink::new(alloc, Vec::new(alloc), 3);
        let status = run(alloc, &words, &mut ended.shelf, &mut again, &mut ended.err);
        assert!(rt; status == Status::Pattern, "{line}");
        assert!(rt; again.bytes() == summary.as_bytes(), "{line}");
        assert!(rt; ended.shelf.file(name) == Some(file.as_bytes()), "{line}");
        assert!(rt; ended.shelf.file("q").is_none());
        assert!(rt; ended.err.bytes().is_empty());
    }
    Ok(())
}

// A call that fails, the line that tells it, what is in the file of the problem then, and what was given.
type Failure = (Failing, &'static str, Option<&'static str>, &'static str);

// A write to a file takes seven bytes.
#[test]
fn failures_of_a_making(rt: HostRuntime) -> Result<(), Fail> {
    let alloc = rt.alloc();
    let words = words_of(alloc, "make 0 2 s q")?;
    let short = Failing { most: 7, ..NOTHING };
    let rows: [Failure; 5] = [
        (
            Failing { create: 1, ..short },
            "outside: CreateFailed",
            None,
            "",
        ),
        (
            Failing { write: 1, ..short },
            "outside: WriteFailed",
            Some(""),
            "",
        ),
        (
            Failing { write: 2, ..short },
            "outside: WriteFailed",
            Some("0 0\n1 0"),
            "",
        ),
        (
            Failing { out: 1, ..short },
            "outside: OutFailed",
            Some(SMALL),
            "",
        ),
        (
            Failing { out: 3, ..short },
            "outside: OutFailed",
            Some(SMALL),
            "size 2",
        ),
    ];
    for (failing, text, left, given) in rows {
        let ended = run_over(alloc, &words, b"", b"", failing)?;
        is_fault(&rt, alloc, &ended, Status::Outside, text)?;
        assert!(rt; ended.out.bytes() == given.as_bytes());
        match (ended.shelf.file("s"), left) {
            (Some(bytes), Some(whole)) => assert!(rt; bytes == whole.as_bytes()),
            (found, _) => assert!(rt; found.is_none() == left.is_none()),
        }
        assert!(rt; ended.shelf.file("q").is_none());
    }
    Ok(())
}

const UNDECIDED: &str =
    "size 15\nknown 193\nlive 112 61\nvariables 450\nclauses 90338\nanswer undecided\n";

// Answers the making of a problem with a search that learns one clause, which doesn't suffice.
fn undecided(alloc: Global, failing: Failing) -> Result<Ended, Fail> {
    let mut shelf = shelf_of(alloc, b"", b"", failing)?;
    let mut out = MemSink::new(alloc, vec![in alloc; failing.out]?, 3);
    let mut err = MemSink::new(alloc, vec![in alloc; failing.err]?, 1000);
    let search = Name::new(String::from_str(alloc, "s")?);
    let effort = Effort {
        budget: 1,
        keep_all: false,
        proof: Name::new(String::from_str(alloc, "q")?),
    };
    let mut outside = Outside {
        shelf: &mut shelf,
        out: &mut out,
        err: &mut err,
    };
    let status = give_making(alloc, 4, 15, search, effort, &mut outside);
    Ok(Ended {
        status,
        shelf,
        out,
        err,
    })
}

// The problem's file is one write, and so is the log.
#[test]
fn failures_behind_a_making(rt: HostRuntime) -> Result<(), Fail> {
    let alloc = rt.alloc();
    let whole = undecided(alloc, NOTHING)?;
    assert!(rt; whole.status == Status::Undecided);
    assert!(rt; whole.out.bytes() == UNDECIDED.as_bytes());
    let file = whole.shelf.file("s").unwrap_or(b"");
    let log = whole.shelf.file("q").unwrap_or(b"");
    assert!(rt; file.len() == 2 * 15 * 30 + 1 && !log.is_empty());
    let rows: [(Failing, &str, Option<usize>, &str); 3] = [
        (
            Failing {
                create: 2,
                ..NOTHING
            },
            "outside: CreateFailed",
            None,
            "",
        ),
        (
            Failing {
                write: 2,
                ..NOTHING
            },
            "outside: WriteFailed",
            Some(0),
            "",
        ),
        (
            Failing { out: 2, ..NOTHING },
            "outside: OutFailed",
            Some(log.len()),
            "siz",
        ),
    ];
    for (failing, text, left, given) in rows {
        let ended = undecided(alloc, failing)?;
        is_fault(&rt, alloc, &ended, Status::Outside, text)?;
        assert!(rt; ended.out.bytes() == given.as_bytes());
        assert!(rt; ended.shelf.file("s") == Some(file));
        match (ended.shelf.file("q"), left) {
            (Some(bytes), Some(len)) => assert!(rt; bytes == &log[..len.min(log.len())]),
            (found, _) => assert!(rt; found.is_none() == left.is_none()),
        }
    }
    Ok(())
}
