// Patterns read and printed. Faults are compared with worked rows over the program.
use lls_grid::{History, print_history};
use lls_hensel::PrintRuleError;
use lls_rle::{MOST_BYTES, RleError, print_rle, read_rle};
use lls_rule::Rule;
use std::alloc::Global;
use std::test::Fail;

// A text, a height and a width, and the grid's text.
const PATTERNS: [(&[u8], u32, u32, &[u8]); 7] = [
    (
        b"x = 3, y = 3, rule = B3/S23\nbob$2bo$3o!\n",
        3,
        3,
        b"0 1 0\n0 0 1\n1 1 1\n",
    ),
    (b"x = 3, y = 3\n$3o!", 3, 4, b"0 0 0 0\n1 1 1 0\n0 0 0 0\n"),
    (b"x=0,y=0\n!", 1, 2, b"0 0\n"),
    (b"x\t=  1 ,\ty = 1 , rule = any\r\no!\r\n", 1, 1, b"1\n"),
    // A count and its tag may stand on two lines, with a comment between.
    (
        b"#C a\n\n \t\nx = 1, y = 1\n#b\n2\n#\n b o ! rest \xff",
        1,
        3,
        b"0 0 1\n",
    ),
    // Dead cells and row ends may pass the grid.
    (b"x = 1, y = 1\n999999b$o999999$!", 2, 1, b"0\n1\n"),
    (
        b"x = 1, y = 1\n2o02b1o$000002$o!",
        4,
        5,
        b"1 1 0 0 1\n0 0 0 0 0\n0 0 0 0 0\n1 0 0 0 0\n",
    ),
];

// A text, a height and a width, and what is printed of its generation with Life's rule.
const PRINTED: [(&[u8], u32, u32, &[u8]); 6] = [
    (
        b"x = 3, y = 3\nb1o$2bo$ooo!",
        3,
        3,
        b"x = 3, y = 3, rule = B3/S23\nbo$2bo$3o!\n",
    ),
    (
        b"x = 3, y = 3\n$3o$!",
        3,
        3,
        b"x = 3, y = 3, rule = B3/S23\n$3o!\n",
    ),
    (
        b"x = 3, y = 3\nbob$bo$bo!",
        3,
        3,
        b"x = 3, y = 3, rule = B3/S23\nbo$bo$bo!\n",
    ),
    (
        b"x = 0, y = 0\n!",
        2,
        2,
        b"x = 2, y = 2, rule = B3/S23\n!\n",
    ),
    (
        b"x = 1, y = 4\no$2b$$o!",
        5,
        2,
        b"x = 2, y = 5, rule = B3/S23\no3$o!\n",
    ),
    // The 71st byte goes to the next line.
    (
        b"x = 0, y = 0\nobobobobobobobobobobobobobobobobobobobobobobobobobobobobobobobo$obobobobobobobobobobobobobobobobobobobobobobobobobobobobobobobo!",
        64,
        64,
        b"x = 64, y = 64, rule = B3/S23\nobobobobobobobobobobobobobobobobobobobobobobobobobobobobobobobo$obobob\nobobobobobobobobobobobobobobobobobobobobobobobobobobobobo!\n",
    ),
];

// What is read, where text and sizes are within their limits.
fn read(
    alloc: Global,
    text: &[u8],
    height: u32,
    width: u32,
) -> Result<Result<History, RleError>, Fail> {
    let fits = |size: u32, most: u32| 1 <= size && size <= most;
    if text.len() > MOST_BYTES
        || !fits(height, History::MOST_HEIGHT)
        || !fits(width, History::MOST_WIDTH)
    {
        return Err(Fail::from("a text and sizes within their limits"));
    }
    Ok(read_rle(alloc, text, height, width))
}

#[test]
fn patterns_are_read(rt: HostRuntime) -> Result<(), Fail> {
    for (text, height, width, expected) in PATTERNS {
        let history = read(rt.alloc(), text, height, width)??;
        let cells = print_history(rt.alloc(), &history)?;
        assert!(rt; cells.as_slice() == expected, "at {text:?}");
    }
    Ok(())
}

#[test]
fn generations_are_printed(rt: HostRuntime) -> Result<(), Fail> {
    let life = Rule::from_counts(1 << 3, 1 << 2 | 1 << 3);
    for (text, height, width, expected) in PRINTED {
        let history = read(rt.alloc(), text, height, width)??;
        assert!(rt; 0 < history.generations());
        let printed = print_rle(rt.alloc(), &history, 0, &life)?;
        assert!(rt; printed.as_slice() == expected, "at {text:?}");
    }
    Ok(())
}

// One corner makes a cell live, and the other three don't.
#[test]
fn an_uneven_rule_is_refused(rt: HostRuntime) -> Result<(), Fail> {
    let mut rule = Rule::dead();
    rule.set(1 << 8, true);
    let history = read(rt.alloc(), b"x = 0, y = 0\n!", 1, 1)??;
    assert!(rt; 0 < history.generations());
    match print_rle(rt.alloc(), &history, 0, &rule) {
        Err(PrintRuleError::NotIsotropic(_)) => Ok(()),
        _ => Err(Fail::from("a rule that isn't isotropic")),
    }
}
