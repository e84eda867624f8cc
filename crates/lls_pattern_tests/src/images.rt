// The motions under which problems look the same, worked out by hand.
use lls_hensel::read_rule;
use lls_images::same_motions;
use lls_problem::{Demands, Edge, Problem, make_problem};
use lls_search_file::read_posed;
use lls_symmetry::{Motion, Symmetry};
use std::alloc::Global;
use std::process::Abort;
use std::test::Fail;

// The problem of a search file under Life's rule and a symmetry.
fn posed(alloc: Global, file: &[u8], symmetry: Symmetry) -> Result<Problem, Fail> {
    let Ok(rule) = read_rule(b"B3/S23") else {
        return Err(Fail::from("a rule's text"));
    };
    let mut demands = Demands::new(alloc, Edge::Framed);
    demands.symmetry = symmetry;
    Ok(make_problem(read_posed(alloc, file)?, rule, demands)?)
}

// Whether a problem looks the same under those motions and no others, but those that it demands.
fn compare(
    rt: &impl Abort,
    alloc: Global,
    file: &[u8],
    symmetry: Symmetry,
    motions: &[Motion],
) -> Result<(), Fail> {
    let problem = posed(alloc, file, symmetry)?;
    let same = same_motions(alloc, &problem)?;
    assert!(rt; same.as_slice() == motions);
    Ok(())
}

#[test]
fn motions_of_worked_problems(rt: HostRuntime) -> Result<(), Fail> {
    let alloc = rt.alloc();
    let rows: [(&[u8], Symmetry, &[Motion]); 8] = [
        // All cells unknown.
        (b"* *\n* *", Symmetry::C1, &Motion::ALL),
        (
            b"* * *\n* * *",
            Symmetry::C1,
            &[Motion::HalfTurn, Motion::RowMirror, Motion::ColumnMirror],
        ),
        // Those that turn the mirror of rows to that of columns aren't there, and the mirror itself is demanded.
        (
            b"* *\n* *",
            Symmetry::D2Row,
            &[Motion::HalfTurn, Motion::ColumnMirror],
        ),
        (b"* *\n* *", Symmetry::D8, &[]),
        // A fixed cell, and a mark in the next generation.
        (b"0 *\n* *", Symmetry::C1, &[Motion::DownMirror]),
        (b"* *\n* *\n\n* *'\n* *", Symmetry::C1, &[Motion::UpMirror]),
        // Names may change places, but not what they tie.
        (
            b"a b\na b",
            Symmetry::C1,
            &[Motion::HalfTurn, Motion::RowMirror, Motion::ColumnMirror],
        ),
        (b"a -a\n-a b", Symmetry::C1, &[Motion::DownMirror]),
    ];
    for (file, symmetry, motions) in rows {
        compare(&rt, alloc, file, symmetry, motions)?;
    }
    Ok(())
}
