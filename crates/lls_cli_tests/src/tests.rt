// Command lines over a shelf and sinks in memory: what a worked row over the program can't show, since calls fail, or a file is long.
mod checks;
mod long_shelf;
mod making;
mod outside;
mod pieces;
mod places;
mod searches;

use lls_base::{MemShelf, MemSink, Name, Plan};
use lls_cli::Status;
use lls_cli::run::run;
use std::alloc::{AllocError, Global};
use std::process::Abort;
use std::test::Fail;

// The words of a command line, separated by single blanks.
fn words_of(alloc: Global, text: &str) -> Result<Vec<String>, AllocError> {
    let mut words = Vec::new(alloc);
    for word in text.split(' ') {
        words.push(String::from_str(alloc, word)?)?;
    }
    Ok(words)
}

// Which calls fail, by their numbers from 1 on, 0 for none; how many bytes a read or a write of a file takes at most, and how many a
// write to the standard output.
#[derive(Clone, Copy)]
struct Failing {
    open: u64,
    read: u64,
    create: u64,
    write: u64,
    out: u64,
    err: u64,
    most: usize,
    step: usize,
}

const NOTHING: Failing = Failing {
    open: 0,
    read: 0,
    create: 0,
    write: 0,
    out: 0,
    err: 0,
    most: 1000,
    step: 3,
};

// A shelf with the files `f` and `p`.
fn shelf_of(alloc: Global, f: &[u8], p: &[u8], failing: Failing) -> Result<MemShelf, AllocError> {
    let mut files = Vec::new(alloc);
    files.push((Name::new(String::from_str(alloc, "f")?), f.to_vec(alloc)?))?;
    files.push((Name::new(String::from_str(alloc, "p")?), p.to_vec(alloc)?))?;
    let plan = Plan {
        opens: vec![in alloc; failing.open]?,
        reads: vec![in alloc; failing.read]?,
        creates: vec![in alloc; failing.create]?,
        writes: vec![in alloc; failing.write]?,
    };
    Ok(MemShelf::new(alloc, files, plan, failing.most.max(1)))
}

// How a run ends, with what it wrote.
#[derive(Drop)]
struct Ended {
    status: Status,
    shelf: MemShelf,
    out: MemSink,
    err: MemSink,
}

// Runs words over a shelf with these files.
fn run_over(
    alloc: Global,
    words: &[String],
    f: &[u8],
    p: &[u8],
    failing: Failing,
) -> Result<Ended, AllocError> {
    let mut shelf = shelf_of(alloc, f, p, failing)?;
    let mut out = MemSink::new(alloc, vec![in alloc; failing.out]?, failing.step.max(1));
    let mut err = MemSink::new(alloc, vec![in alloc; failing.err]?, 1000);
    let status = run(alloc, words, &mut shelf, &mut out, &mut err);
    Ok(Ended {
        status,
        shelf,
        out,
        err,
    })
}

// A command line, the files `f` and `p`, the status that is wanted, and the text.
type Row = (
    &'static str,
    &'static str,
    &'static str,
    Status,
    &'static str,
);

// Runs a row whose answer goes to the standard output.
fn answers(rt: &impl Abort, alloc: Global, row: Row) -> Result<(), Fail> {
    let (words, f, p, status, text) = row;
    let words = words_of(alloc, words)?;
    let ended = run_over(alloc, &words, f.as_bytes(), p.as_bytes(), NOTHING)?;
    assert!(rt; ended.status == status);
    assert!(rt; ended.out.bytes() == text.as_bytes());
    assert!(rt; ended.err.bytes().is_empty());
    Ok(())
}

// That a run ended with a fault, whose line is `lls: `, the text and an LF.
fn is_fault(
    rt: &impl Abort,
    alloc: Global,
    ended: &Ended,
    status: Status,
    text: &str,
) -> Result<(), Fail> {
    let mut line = b"lls: ".to_vec(alloc)?;
    line.extend_from_slice(text.as_bytes())?;
    line.push(b'\n')?;
    assert!(rt; ended.status == status);
    assert!(rt; ended.err.bytes() == line.as_slice());
    Ok(())
}
