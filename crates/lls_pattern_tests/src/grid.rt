// Histories made, changed, counted, stepped and printed.
use lls_grid::{GridPlace, History, Sizes, print_history};
use lls_rule::Rule;
use std::alloc::{AllocError, Global};
use std::test::Fail;

// Three generations of 3 by 4 cells; generation 0 is a blinker that stands upright.
fn blinker(alloc: Global) -> Result<History, AllocError> {
    let mut cells = vec![in alloc; false; 36]?;
    cells[1] = true;
    cells[5] = true;
    cells[9] = true;
    let sizes = Sizes {
        generations: 3,
        height: 3,
        width: 4,
    };
    Ok(History::from_cells(sizes, cells))
}

#[test]
fn a_blinker_steps(rt: HostRuntime) -> Result<(), Fail> {
    let alloc = rt.alloc();
    let rule = Rule::from_counts(1 << 3, 1 << 2 | 1 << 3);
    let mut history = blinker(alloc)?;
    for t in 0..2 {
        assert!(rt; t + 1 < history.generations());
        history.step(&rule, t);
    }
    let text =
        b"0 1 0 0\n0 1 0 0\n0 1 0 0\n\n0 0 0 0\n1 1 1 0\n0 0 0 0\n\n0 1 0 0\n0 1 0 0\n0 1 0 0\n".as_slice();
    assert!(rt; print_history(alloc, &history)?.as_slice() == text);
    assert!(rt; history.generations() == 3);
    assert!(rt; history.at(&rule, 1, 1, 0));
    assert!(rt; !history.at(&rule, 1, -1, 0));
    // . . . / . . # / . . #
    assert!(rt; history.nine(&rule, 0, 0, 0) == 9);
    Ok(())
}

// One generation of 4 by 4 cells, of which these are live.
fn one_generation(alloc: Global, live: &[usize]) -> Result<History, AllocError> {
    let mut cells = vec![in alloc; false; 16]?;
    for index in live {
        if *index < 16 {
            cells[*index] = true;
        }
    }
    let sizes = Sizes {
        generations: 1,
        height: 4,
        width: 4,
    };
    Ok(History::from_cells(sizes, cells))
}

#[test]
fn histories_go_on_by_a_rule(rt: HostRuntime) -> Result<(), Fail> {
    let alloc = rt.alloc();
    let life = Rule::from_counts(1 << 3, 1 << 2 | 1 << 3);
    // B0/S: the background is live in generation 1.
    let blinking = Rule::from_counts(1, 0);
    let rows: [(&Rule, &[usize], u32, &[u8]); 2] = [
        (
            &life,
            &[1, 6, 8, 9, 10],
            4,
            b"0 1 0 0\n0 0 1 0\n1 1 1 0\n0 0 0 0\n\n0 0 0 0\n1 0 1 0\n0 1 1 0\n0 1 0 0\n\n0 0 0 0\n0 0 1 0\n1 0 1 0\n0 1 1 0\n\n0 0 0 0\n0 1 0 0\n0 0 1 1\n0 1 1 0\n",
        ),
        (
            &blinking,
            &[5],
            3,
            b"0 0 0 0\n0 1 0 0\n0 0 0 0\n0 0 0 0\n\n0 0 0 1\n0 0 0 1\n0 0 0 1\n1 1 1 1\n\n0 0 0 0\n0 1 0 0\n0 0 0 0\n0 0 0 0\n",
        ),
    ];
    for (rule, live, generations, text) in rows {
        let first = one_generation(alloc, live)?;
        assert!(rt; 1 <= generations && generations <= 4);
        assert!(rt; first.width() == 4 && first.height() == 4);
        let history = History::evolve(alloc, rule, &first, generations)?;
        assert!(rt; print_history(alloc, &history)?.as_slice() == text);
    }
    Ok(())
}

#[test]
fn a_cell_is_set(rt: HostRuntime) -> Result<(), Fail> {
    let alloc = rt.alloc();
    let mut history = History::new(alloc, 2, 2, 3)?;
    history.set(1, 0, 2, true);
    history.set(0, 1, 0, true);
    history.set(1, 1, 1, true);
    history.set(0, 1, 0, false);
    let text = b"0 0 0\n0 0 0\n\n0 0 1\n0 1 0\n".as_slice();
    assert!(rt; print_history(alloc, &history)?.as_slice() == text);
    assert!(rt; (history.population(0), history.population(1)) == (0, 2));
    Ok(())
}

#[test]
fn places_in_order(rt: HostRuntime) -> Result<(), Fail> {
    let sizes = History::new(rt.alloc(), 3, 4, 5)?.sizes();
    let rows: [(GridPlace, usize); 4] = [
        (GridPlace { t: 0, y: 0, x: 4 }, 4),
        (GridPlace { t: 0, y: 1, x: 0 }, 5),
        (GridPlace { t: 1, y: 0, x: 0 }, 20),
        (GridPlace { t: 2, y: 3, x: 4 }, 59),
    ];
    for (place, index) in rows {
        assert!(rt; place.t < 3 && place.y < 4 && place.x < 5 && index < 60);
        assert!(rt; sizes.index(place) == index);
        assert!(rt; sizes.place(index) == place);
    }
    Ok(())
}
