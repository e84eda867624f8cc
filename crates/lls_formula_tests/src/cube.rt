// Tables of known rows.
use lls_cube::{Cube, Table, cover, rows};
use std::test::Fail;

#[test]
fn rows_of_ten_inputs(rt: HostRuntime) -> Result<(), Fail> {
    let mut table = Table::<10, 16>::empty();
    for row in [1023, 0, 63, 64] {
        table.forbid(row);
    }
    assert!(rt; table.forbidden(63) && !table.forbidden(62));
    let full = |value: u16| Cube { care: 1023, value };
    let found = rows(rt.alloc(), &table)?;
    assert!(rt; found.as_slice() == [full(0), full(63), full(64), full(1023)].as_slice());
    Ok(())
}

#[test]
fn rows_of_eleven_inputs(rt: HostRuntime) -> Result<(), Fail> {
    let mut table = Table::<11, 32>::empty();
    table.forbid(2047);
    let found = rows(rt.alloc(), &table)?;
    assert!(rt;
        found.as_slice()
            == [Cube {
                care: 2047,
                value: 2047
            }]
            .as_slice()
    );
    Ok(())
}

#[test]
fn covers_by_the_widest_cubes(rt: HostRuntime) -> Result<(), Fail> {
    let cases: [(&[usize], &[(u16, u16)]); 5] = [
        (&[], &[]),
        // Input 8 is dropped before input 9.
        (&[0, 1, 2], &[(1021, 0), (1022, 0)]),
        // A row that is in a cube may widen a later one.
        (&[0, 1, 3, 512, 513, 515], &[(510, 0), (509, 1)]),
        (&[1, 2, 3], &[(1021, 1), (1022, 2)]),
        (&[0, 63, 64, 1023], &[(959, 0), (1023, 63), (1023, 1023)]),
    ];
    for (forbidden, expected) in cases {
        let mut table = Table::<10, 16>::empty();
        for row in forbidden {
            assert!(rt; *row < 1024);
            table.forbid(*row);
        }
        let found = cover(rt.alloc(), &table)?;
        assert!(rt; found.len() == expected.len());
        for (cube, (care, value)) in found.iter().zip(expected) {
            assert!(rt;
                *cube
                    == Cube {
                        care: *care,
                        value: *value
                    }
            );
        }
    }
    Ok(())
}

#[test]
fn covers_of_whole_tables(rt: HostRuntime) -> Result<(), Fail> {
    let mut all = Table::<10, 16>::empty();
    for row in 0..1024 {
        all.forbid(row);
    }
    assert!(rt; cover(rt.alloc(), &all)?.as_slice() == [Cube { care: 0, value: 0 }].as_slice());

    // The rows of a place that doesn't follow its neighbourhood where a cell lives exactly where all nine are dead.
    let mut blinking = Table::<10, 16>::empty();
    for row in 0..1024 {
        if (row % 2 == 1) != (row < 2) {
            blinking.forbid(row);
        }
    }
    let found = cover(rt.alloc(), &blinking)?;
    let pair = |care: u16| Cube { care, value: care };
    assert!(rt;
        found.as_slice()
            == [
                Cube {
                    care: 1023,
                    value: 0
                },
                pair(3),
                pair(5),
                pair(9),
                pair(17),
                pair(33),
                pair(65),
                pair(129),
                pair(257),
                pair(513)
            ]
            .as_slice()
    );

    let mut square = Table::<11, 32>::empty();
    for row in [5, 7, 1029, 1031] {
        square.forbid(row);
    }
    let found = cover(rt.alloc(), &square)?;
    assert!(rt;
        found.as_slice()
            == [Cube {
                care: 1021,
                value: 5
            }]
            .as_slice()
    );
    Ok(())
}
