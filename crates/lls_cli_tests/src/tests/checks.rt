// The command that checks proofs.
use super::{Row, answers};
use lls_cli::Status;
use std::test::Fail;

// Any call may answer want of memory, and no clause excludes it. With ample memory none does.
#[test]
fn answers_with_ample_memory(rt: HostRuntime) -> Result<(), Fail> {
    let rows: [Row; 7] = [
        // The background isn't there again, so the first clause is empty.
        (
            "check f p --rule B0/S --period 1",
            "*\n\n*\n",
            "14 0 1 0\n",
            Status::Done,
            "accepted\n",
        ),
        (
            "check f p --rule B0/S --period 1 --formula 1",
            "*\n\n*\n",
            "14 0 1 0\n",
            Status::Done,
            "accepted\n",
        ),
        // By cover, clause 4 says that the next cell is dead.
        (
            "check f p",
            "1\n\n1\n",
            "5 0 2 4 0\n",
            Status::Done,
            "accepted\n",
        ),
        (
            "check f p --formula 2",
            "1\n\n1\n",
            "5 0 2 4 0\n",
            Status::Done,
            "accepted\n",
        ),
        (
            "check f p --formula 1",
            "1\n\n1\n",
            "5 0 2 4 0\n",
            Status::Refused,
            "refused: NoConflict 1\n",
        ),
        (
            "check f p --rule B0/S --symmetry D8 --formula 1",
            "*\n\n*\n",
            "14 0 1 0\n",
            Status::Refused,
            "refused: NoConflict 1\n",
        ),
        (
            "check f p --formula 1",
            "1\n\n1\n",
            "5 0 1 2 4 0\n",
            Status::Done,
            "accepted\n",
        ),
    ];
    for row in rows {
        answers(&rt, rt.alloc(), row)?;
    }
    Ok(())
}
