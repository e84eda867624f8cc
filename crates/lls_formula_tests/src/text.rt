// Lines and words of worked texts.
use lls_text::{Lines, Words, begins_with, digits_number, is_blank_line};
use std::test::Fail;

#[test]
fn lines_end_with_a_line_feed(rt: HostRuntime) -> Result<(), Fail> {
    let rows: [(&[u8], &[&[u8]]); 7] = [
        (b"", &[]),
        (b"\n", &[b""]),
        (b"1 0", &[b"1 0"]),
        (b"1 0\n", &[b"1 0"]),
        (b"1\r\n\n2\r", &[b"1", b"", b"2"]),
        (b"\r\r\n", &[b"\r"]),
        (b"1\r2\n", &[b"1\r2"]),
    ];
    for (text, want) in rows {
        let mut lines = Lines::new(text);
        for line in want {
            assert!(rt; lines.next() == Some(*line), "at {text:?}");
        }
        assert!(rt; lines.next() == None, "at {text:?}");
    }
    Ok(())
}

// A line, and its words with their columns.
type PlacedRow = (&'static [u8], &'static [(u64, &'static [u8])]);

#[test]
fn words_stand_between_blanks(rt: HostRuntime) -> Result<(), Fail> {
    let rows: [PlacedRow; 5] = [
        (b"", &[]),
        (b" \t ", &[]),
        (b"5 d 4 0", &[(1, b"5"), (3, b"d"), (5, b"4"), (7, b"0")]),
        (b"\t12  -3 ", &[(2, b"12"), (6, b"-3")]),
        (b"a,b", &[(1, b"a,b")]),
    ];
    for (line, want) in rows {
        let mut words = Words::new(line);
        for (column, text) in want {
            let word = words.next().ok_or("a word")?;
            assert!(rt; word.column == *column, "at {line:?}");
            assert!(rt; word.text == *text, "at {line:?}");
        }
        assert!(rt; words.next().is_none(), "at {line:?}");
    }
    Ok(())
}

#[test]
fn lines_are_told_by_their_first_byte(rt: HostRuntime) -> Result<(), Fail> {
    let rows: [(&[u8], bool, bool); 5] = [
        (b"", true, false),
        (b" \t", true, false),
        (b"# rim", false, true),
        (b"\t #", false, true),
        (b"0 #", false, false),
    ];
    for (line, blank, comment) in rows {
        assert!(rt; is_blank_line(line) == blank, "at {line:?}");
        assert!(rt; begins_with(line, b'#') == comment, "at {line:?}");
    }
    Ok(())
}

#[test]
fn digits_are_numbers(rt: HostRuntime) {
    let rows: [(&[u8], Option<u64>); 10] = [
        (b"0", Some(0)),
        (b"007", Some(7)),
        (b"9999999999999999999", Some(9_999_999_999_999_999_999)),
        (b"00000000000000000012", Some(12)),
        (b"1844674407370955161x", None),
        (b"18446744073709551615", Some(18_446_744_073_709_551_615)),
        (b"18446744073709551617", Some(18_446_744_073_709_551_615)),
        (b"", None),
        (b"+1", None),
        (b"1 ", None),
    ];
    for (text, want) in rows {
        assert!(rt; digits_number(text) == want);
    }
}
