// Proofs that come in pieces, against the formula 1, 2, 1 -2, -1 -2.
use crate::lrat::{formula, outcome};
use lls_lrat::{Feed, Progress, check_bytes};
use std::alloc::Global;
use std::process::Abort;
use std::test::Fail;

// What the pieces come to.
fn fed(rt: &impl Abort, alloc: Global, pieces: &[&[u8]]) -> Result<String, Fail> {
    let formula = formula(rt, alloc)?;
    let mut feed = Feed::new(alloc, &formula)?;
    for piece in pieces {
        let _ = feed.feed(piece);
    }
    outcome(alloc, feed.end())
}

// Compares what all cuts of a text in two come to.
fn compare_cuts(rt: &impl Abort, alloc: Global, text: &[u8], want: &str) -> Result<(), Fail> {
    for place in 0..=text.len() {
        let found = fed(rt, alloc, &[&text[..place], &text[place..]])?;
        assert!(rt; found.as_str() == want, "at {place} of {text:?}");
    }
    Ok(())
}

#[test]
fn proofs_cut_in_two_at_each_place(rt: HostRuntime) -> Result<(), Fail> {
    let rows = [
        ("5 0 1 2 4 0", "accepted"),
        ("5 0 1 2 4 0\n", "accepted"),
        ("5 0 1 2 4 ", "NoZero 1"),
        ("5 1 0 1 0\n5 d 1 0\n6 0 5 2 4 0\nrubbish", "accepted"),
        ("5 1 0 1 0\r\nc rubbish\n \t\n5 0 1 2 4 0\r\n", "IdLive 4 5"),
        ("5 1 0 1 0\r\n\r\n5 0 1 x 0\r", "BadWord 3 7"),
        ("5 1 0 1 0\n6 0 1 3 0\nrubbish", "NotUnit 2 3"),
        ("5 1 0 1 0\n\n", "NoEmpty"),
        ("", "NoEmpty"),
    ];
    for (text, want) in rows {
        compare_cuts(&rt, rt.alloc(), text.as_bytes(), want)?;
    }
    Ok(())
}

#[test]
fn a_proof_byte_by_byte(rt: HostRuntime) -> Result<(), Fail> {
    let text = b"5 1 0 1 0\n6 0 5 2 4 0\n7 x";
    let formula = formula(&rt, rt.alloc())?;
    let mut feed = Feed::new(rt.alloc(), &formula)?;
    for place in 0..text.len() {
        // the empty clause is added by the LF of the second line
        let want = if place < 21 {
            Progress::Going
        } else {
            Progress::Done
        };
        assert!(rt;
            feed.feed(&text[place..place + 1]) == Ok(want),
            "at {place}"
        );
    }
    assert!(rt; feed.end().is_ok());
    Ok(())
}

// Lines that are long or broken, each with another behind it.
fn long_text(alloc: Global, hints: u32, last: &str) -> Result<Vec<u8>, Fail> {
    let mut text = Vec::from_slice(alloc, b"5 1 0 1 0\n6 1 0")?;
    for _ in 0..hints {
        text.extend_from_slice(b" 5")?;
    }
    text.extend_from_slice(last.as_bytes())?;
    Ok(text)
}

// What a text comes to in pieces of one size.
fn compare_pieces(
    rt: &impl Abort,
    alloc: Global,
    text: &[u8],
    size: usize,
    want: &str,
) -> Result<(), Fail> {
    assert!(rt; size > 0);
    let formula = formula(rt, alloc)?;
    let mut feed = Feed::new(alloc, &formula)?;
    for piece in text.chunks(size) {
        let _ = feed.feed(piece);
    }
    let found = outcome(alloc, feed.end())?;
    assert!(rt; found.as_str() == want, "in pieces of {size}");
    Ok(())
}

// What it comes to whole.
fn compare_whole(rt: &impl Abort, alloc: Global, text: &[u8], want: &str) -> Result<(), Fail> {
    let formula = formula(rt, alloc)?;
    let found = outcome(alloc, check_bytes(alloc, &formula, text))?;
    assert!(rt; found.as_str() == want);
    Ok(())
}

fn compare_long(
    rt: &impl Abort,
    alloc: Global,
    hints: u32,
    last: &str,
    want: &str,
) -> Result<(), Fail> {
    let text = long_text(alloc, hints, last)?;
    compare_whole(rt, alloc, &text, want)?;
    for size in [1, 7, 64, 100_000] {
        compare_pieces(rt, alloc, &text, size, want)?;
    }
    Ok(())
}

#[test]
fn pieces_come_to_what_the_whole_does(rt: HostRuntime) -> Result<(), Fail> {
    let rows = [
        (0, " 5 0\n7 0 6 2 4 0", "accepted"),
        (400, " 0\n7 0 6 2 4 0\n", "accepted"),
        (400, " 0\n7 0 6 3 4 0\n", "NotUnit 3 3"),
        (400, "\n7 0 6 2 4 0\n", "NoZero 2"),
        (400, " x 0\n7 0 6 2 4 0\n", "BadWord 2 807"),
        (400, " 0 \r\n6 0 5 2 4 0", "IdLive 3 6"),
    ];
    for (hints, last, want) in rows {
        compare_long(&rt, rt.alloc(), hints, last, want)?;
    }
    Ok(())
}

#[test]
fn an_end_is_answered_again(rt: HostRuntime) -> Result<(), Fail> {
    let formula = formula(&rt, rt.alloc())?;
    let mut feed = Feed::new(rt.alloc(), &formula)?;
    assert!(rt; feed.feed(b"5 1 0 1 0\n6 0 1 ") == Ok(Progress::Going));
    let fault = feed.feed(b"3 0\n7 0");
    assert!(rt; fault.is_err());
    assert!(rt; feed.feed(b" 1 2 4 0\n") == fault);
    assert!(rt; outcome(rt.alloc(), feed.end())?.as_str() == "NotUnit 2 3");
    Ok(())
}
