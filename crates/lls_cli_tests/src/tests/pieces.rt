// Proofs that come in pieces.
use super::long_shelf::LongShelf;
use super::{Failing, NOTHING, is_fault, run_over, words_of};
use lls_base::MemSink;
use lls_cli::Status;
use lls_cli::run::run;
use std::test::Fail;

const ONE_CELL: &[u8] = b"1\n\n1\n";

const PROOF: &[u8] = b"5 0 1 2 4 0\n";

#[test]
fn a_proof_comes_in_pieces(rt: HostRuntime) -> Result<(), Fail> {
    let alloc = rt.alloc();
    let words = words_of(alloc, "check f p")?;
    let rows: [(&[u8], Status, &str); 4] = [
        (PROOF, Status::Done, "accepted\n"),
        (b"5 0 1 2 4 0", Status::Done, "accepted\n"),
        (b"5 0 1 2 4 ", Status::Refused, "refused: NoZero 1\n"),
        (
            b"5 d 0\r\n\r\n6 0 4 1 0",
            Status::Refused,
            "refused: NoConflict 3\n",
        ),
    ];
    for (proof, status, text) in rows {
        for most in 1..20 {
            let ended = run_over(alloc, &words, ONE_CELL, proof, Failing { most, ..NOTHING })?;
            assert!(rt; ended.status == status);
            assert!(rt; ended.out.bytes() == text.as_bytes());
        }
    }
    Ok(())
}

// The problem takes two reads of six bytes at most. The proof takes five, the second of which ends its only line that is looked at.
#[test]
fn reads_of_a_proof_fail(rt: HostRuntime) -> Result<(), Fail> {
    let alloc = rt.alloc();
    let words = words_of(alloc, "check f p")?;
    let rows: [(&[u8], Status); 2] = [
        (b"5 0 1 2 4 0\nnot a line\n", Status::Done),
        (b"5 0 1 0 4 0\nnot a line\n", Status::Refused),
    ];
    for (proof, status) in rows {
        for read in 3..8 {
            let failing = Failing {
                read,
                most: 6,
                ..NOTHING
            };
            let ended = run_over(alloc, &words, ONE_CELL, proof, failing)?;
            is_fault(&rt, alloc, &ended, Status::Outside, "outside: ReadFailed")?;
            assert!(rt; ended.out.bytes().is_empty());
        }
        let ended = run_over(
            alloc,
            &words,
            ONE_CELL,
            proof,
            Failing {
                most: 6,
                read: 8,
                ..NOTHING
            },
        )?;
        assert!(rt; ended.status == status);
    }
    Ok(())
}

const LIMIT: u64 = 1_073_741_824;

#[test]
fn a_proof_as_long_as_may_be(rt: HostRuntime) -> Result<(), Fail> {
    let alloc = rt.alloc();
    let words = words_of(alloc, "check f p")?;
    for (length, status, line) in [
        (LIMIT, Status::Done, ""),
        (LIMIT + 1, Status::Limit, "lls: limit: TooLong 1073741824\n"),
    ] {
        let mut shelf = LongShelf::new(ONE_CELL, PROOF, length - PROOF.len() as u64);
        let mut out = MemSink::new(alloc, Vec::new(alloc), 1000);
        let mut err = MemSink::new(alloc, Vec::new(alloc), 1000);
        assert!(rt; run(alloc, &words, &mut shelf, &mut out, &mut err) == status);
        assert!(rt; err.bytes() == line.as_bytes());
    }
    Ok(())
}
