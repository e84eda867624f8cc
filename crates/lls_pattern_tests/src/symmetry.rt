// Texts, images and lists of pairs, worked out by hand.
use lls_symmetry::{
    Moved, Pair, Spot, Symmetry, fits, generators, image, moved_pairs, pairs, read_symmetry,
};
use std::process::Abort;
use std::test::Fail;

#[test]
fn symmetries_by_their_texts(rt: HostRuntime) -> Result<(), Fail> {
    let rows: [(&[u8], Symmetry); 10] = [
        (b"C1", Symmetry::C1),
        (b"C2", Symmetry::C2),
        (b"C4", Symmetry::C4),
        (b"D2-", Symmetry::D2Row),
        (b"D2|", Symmetry::D2Col),
        (b"D2\\", Symmetry::D2Down),
        (b"D2/", Symmetry::D2Up),
        (b"D4+", Symmetry::D4Plus),
        (b"D4x", Symmetry::D4Cross),
        (b"D8", Symmetry::D8),
    ];
    for (text, symmetry) in rows {
        assert!(rt; read_symmetry(text) == Some(symmetry));
        assert!(rt; symmetry.text() == text);
    }
    let others: [&[u8]; 9] = [
        b"", b"C", b"c1", b"C8", b"C1 ", b"D2", b"D4", b"D4X", b"D2\\\\",
    ];
    for text in others {
        assert!(rt; read_symmetry(text) == None);
    }
    Ok(())
}

// The image of the cell in row 0 and column 1, of a grid of 3 by 5 cells where it may be, else of 3 by 3.
#[test]
fn images_of_a_cell(rt: HostRuntime) -> Result<(), Fail> {
    let rows: [(Symmetry, u32, u32, (u32, u32)); 12] = [
        (Symmetry::C2, 0, 5, (2, 3)),
        (Symmetry::C4, 0, 3, (1, 2)),
        (Symmetry::D2Row, 0, 5, (2, 1)),
        (Symmetry::D2Col, 0, 5, (0, 3)),
        (Symmetry::D2Down, 0, 3, (1, 0)),
        (Symmetry::D2Up, 0, 3, (1, 2)),
        (Symmetry::D4Plus, 0, 5, (2, 1)),
        (Symmetry::D4Plus, 1, 5, (0, 3)),
        (Symmetry::D4Cross, 0, 3, (1, 0)),
        (Symmetry::D4Cross, 1, 3, (1, 2)),
        (Symmetry::D8, 0, 3, (1, 2)),
        (Symmetry::D8, 1, 3, (0, 1)),
    ];
    for (symmetry, generator, width, answer) in rows {
        assert!(rt; fits(symmetry, 3, width) && generator < generators(symmetry) && width > 1);
        assert!(rt; image(symmetry, generator, 3, width, 0, 1) == answer);
    }
    Ok(())
}

// Which symmetries a grid of 2 by 3 cells can have, and how many generators they have.
#[test]
fn grids_and_generators(rt: HostRuntime) -> Result<(), Fail> {
    let rows: [(Symmetry, bool, u32); 10] = [
        (Symmetry::C1, true, 0),
        (Symmetry::C2, true, 1),
        (Symmetry::C4, false, 1),
        (Symmetry::D2Row, true, 1),
        (Symmetry::D2Col, true, 1),
        (Symmetry::D2Down, false, 1),
        (Symmetry::D2Up, false, 1),
        (Symmetry::D4Plus, true, 2),
        (Symmetry::D4Cross, false, 2),
        (Symmetry::D8, false, 2),
    ];
    for (symmetry, answer, count) in rows {
        assert!(rt; fits(symmetry, 2, 3) == answer);
        assert!(rt; fits(symmetry, 3, 3));
        assert!(rt; generators(symmetry) == count);
    }
    Ok(())
}

fn pair(from_y: u32, from_x: u32, to_y: u32, to_x: u32) -> Pair {
    Pair {
        from_y,
        from_x,
        to_y,
        to_x,
    }
}

#[test]
fn pairs_of_small_grids(rt: HostRuntime) -> Result<(), Fail> {
    let rows: [(Symmetry, u32, u32, &[Pair]); 7] = [
        (Symmetry::C1, 2, 2, &[]),
        (Symmetry::C2, 1, 3, &[pair(0, 0, 0, 2), pair(0, 2, 0, 0)]),
        (Symmetry::D2Row, 2, 1, &[pair(0, 0, 1, 0), pair(1, 0, 0, 0)]),
        (
            Symmetry::D2Down,
            2,
            2,
            &[pair(0, 1, 1, 0), pair(1, 0, 0, 1)],
        ),
        (Symmetry::D2Up, 2, 2, &[pair(0, 0, 1, 1), pair(1, 1, 0, 0)]),
        (
            Symmetry::D4Plus,
            1,
            2,
            &[pair(0, 0, 0, 1), pair(0, 1, 0, 0)],
        ),
        (
            Symmetry::D8,
            2,
            2,
            &[
                pair(0, 0, 0, 1),
                pair(0, 1, 1, 1),
                pair(1, 0, 0, 0),
                pair(1, 1, 1, 0),
                pair(0, 0, 0, 1),
                pair(0, 1, 0, 0),
                pair(1, 0, 1, 1),
                pair(1, 1, 1, 0),
            ],
        ),
    ];
    for (symmetry, height, width, answer) in rows {
        assert!(rt; fits(symmetry, height, width));
        assert!(rt; pairs(rt.alloc(), symmetry, height, width)?.as_slice() == answer);
    }
    Ok(())
}

fn moved(t: u32, y: i32, x: i32, to_t: u32, to_y: i32, to_x: i32) -> Moved {
    Moved {
        early: Spot { t, y, x },
        late: Spot {
            t: to_t,
            y: to_y,
            x: to_x,
        },
    }
}

fn assert_moves(rt: &impl Abort, found: &[Moved], expected: &[Moved]) {
    assert!(rt; found == expected);
}

#[test]
fn pairs_of_moves(rt: HostRuntime) -> Result<(), Fail> {
    let alloc = rt.alloc();
    let still = [moved(0, 0, 0, 1, 0, 0)];
    assert_moves(&rt, &moved_pairs(alloc, 2, 1, 1, 1, 0, 0)?, &still);
    let right = [
        moved(0, 0, 0, 1, 0, 1),
        moved(0, 0, 1, 1, 0, 2),
        moved(0, 0, -1, 1, 0, 0),
    ];
    assert_moves(&rt, &moved_pairs(alloc, 2, 1, 2, 1, 1, 0)?, &right);
    let up = [
        moved(0, 0, 0, 1, -1, 0),
        moved(0, 1, 0, 1, 0, 0),
        moved(0, 2, 0, 1, 1, 0),
        moved(1, 0, 0, 2, -1, 0),
        moved(1, 1, 0, 2, 0, 0),
        moved(1, 2, 0, 2, 1, 0),
    ];
    assert_moves(&rt, &moved_pairs(alloc, 3, 2, 1, 1, 0, -1)?, &up);
    let far = [moved(0, 0, 0, 2, -64, 64), moved(0, 64, -64, 2, 0, 0)];
    assert_moves(&rt, &moved_pairs(alloc, 3, 1, 1, 2, 64, -64)?, &far);
    assert_moves(&rt, &moved_pairs(alloc, 2, 1, 1, 2, 0, 0)?, &[]);
    Ok(())
}
