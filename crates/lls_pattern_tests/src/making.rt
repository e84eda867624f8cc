// Problems made, as tools/made.py makes them.
use lls_gen::{MOST_SIZE, make};
use lls_grid::print_history;
use lls_problem::Edge;
use lls_search_file::{Kind, print_posed};
use std::test::Fail;

#[test]
fn problems_from_numbers(rt: HostRuntime) -> Result<(), Fail> {
    let alloc = rt.alloc();
    let rows: [(u64, u32, &[u8], &[u8]); 4] = [
        (0, 1, b"0\n\n0\n", b"0\n\n0\n"),
        (0, 2, b"0 0\n1 0\n\n0 0\n0 0\n", b"0 0\n1 0\n\n0 0\n0 0\n"),
        (
            u64::MAX,
            3,
            b"1 1 *\n0 1 1\n1 1 0\n\n1 0 1\n0 0 0\n1 1 1\n",
            b"1 1 1\n0 1 1\n1 1 0\n\n1 0 1\n0 0 0\n1 1 1\n",
        ),
        (
            1,
            8,
            b"0 * 1 0 1 * * 0\n1 0 1 * 1 0 0 1\n0 1 1 0 1 1 * 1\n0 1 1 * 1 1 0 1\n0 * * 0 1 0 * 0\n0 1 1 0 1 0 0 *\n* 0 0 0 1 * 1 1\n0 1 1 0 0 1 0 1\n\n0 1 1 0 1 1 1 0\n1 0 0 0 0 0 0 1\n1 0 0 0 0 0 0 1\n1 0 0 0 0 0 0 1\n1 0 0 0 1 0 1 0\n0 1 1 0 1 0 1 1\n0 0 0 0 1 0 0 1\n0 0 0 0 0 1 0 1\n",
            b"0 1 1 0 1 1 1 0\n1 0 1 1 1 0 0 1\n0 1 1 0 1 1 1 1\n0 1 1 0 1 1 0 1\n0 1 1 0 1 0 0 0\n0 1 1 0 1 0 0 1\n0 0 0 0 1 0 1 1\n0 1 1 0 0 1 0 1\n\n0 1 1 0 1 1 1 0\n1 0 0 0 0 0 0 1\n1 0 0 0 0 0 0 1\n1 0 0 0 0 0 0 1\n1 0 0 0 1 0 1 0\n0 1 1 0 1 0 1 1\n0 0 0 0 1 0 0 1\n0 0 0 0 0 1 0 1\n",
        ),
    ];
    for (seed, size, file, history) in rows {
        assert!(rt; 1 <= size && size <= MOST_SIZE);
        let made = make(alloc, seed, size)?;
        assert!(rt;
            print_posed(alloc, made.problem.posed())?.as_slice() == file,
            "at {seed} {size}"
        );
        assert!(rt;
            print_history(alloc, &made.history)?.as_slice() == history,
            "at {seed} {size}"
        );
        assert!(rt; made.problem.demands().edge == Edge::Bare);
    }
    Ok(())
}

#[test]
fn a_problem_of_the_greatest_size(rt: HostRuntime) -> Result<(), Fail> {
    let made = make(rt.alloc(), 2, MOST_SIZE)?;
    let unknown = made
        .problem
        .posed()
        .cells
        .items()
        .iter()
        .filter(|cell| cell.kind == Kind::Free)
        .count();
    assert!(rt; made.history.generations() == 2);
    let found = (
        made.history.population(0),
        made.history.population(1),
        unknown,
    );
    assert!(rt; found == (2045, 1179, 517));
    Ok(())
}
