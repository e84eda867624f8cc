// Lines of proofs: the step that each writes, printed, or its leftmost fault.
use lls_prooflog::{LineError, LineReader, Step, print_step, read_line};
use std::alloc::Global;
use std::process::Abort;
use std::test::Fail;

// The step that was read, printed, or its fault.
fn shown(
    rt: &impl Abort,
    alloc: Global,
    read: Result<Option<Step>, LineError>,
) -> Result<Vec<u8>, Fail> {
    match read {
        Ok(Some(step)) => {
            assert!(rt; step.is_in_range());
            Ok(print_step(alloc, &step)?)
        }
        Ok(None) => Ok(Vec::from_slice(alloc, b"none")?),
        Err(fault) => {
            let text = format!(in alloc; "{fault}")?;
            Ok(Vec::from_slice(alloc, text.as_bytes())?)
        }
    }
}

fn compare(rt: &impl Abort, alloc: Global, rows: &[(&str, &str)]) -> Result<(), Fail> {
    for (line, want) in rows {
        let found = shown(rt, alloc, read_line(alloc, line.as_bytes()))?;
        assert!(rt; found.as_slice() == want.as_bytes(), "at {line:?}");
    }
    Ok(())
}

#[test]
fn lines_that_are_steps_or_none(rt: HostRuntime) -> Result<(), Fail> {
    let rows = [
        ("5 0 1 2 4 0", "5 0 1 2 4 0\n"),
        ("\t07  -3 2 00 -1 0 ", "7 -3 2 0 -1 0\n"),
        ("5 0 0", "5 0 0\n"),
        ("5 d 4 0", "0 d 4 0\n"),
        ("0 d 4 0005 000", "0 d 4 5 0\n"),
        ("00009223372036854775807 d 0", "0 d 0\n"),
        (
            "9223372036854775807 -16777216 0 -9223372036854775807 0",
            "9223372036854775807 -16777216 0 -9223372036854775807 0\n",
        ),
        ("", "none"),
        (" \t ", "none"),
        ("c 5 0 1 2 4 0", "none"),
        (" \tcomment", "none"),
    ];
    compare(&rt, rt.alloc(), &rows)
}

#[test]
fn the_leftmost_fault_of_a_line(rt: HostRuntime) -> Result<(), Fail> {
    let rows = [
        ("5 0 1 2 4", "NoZero"),
        ("5", "NoZero"),
        ("5 1 2", "NoZero"),
        ("5 d 4", "NoZero"),
        ("0", "Range 1"),
        ("-5 0 1 0", "Range 1"),
        ("-0 d 4 0", "Range 1"),
        ("9223372036854775808 d 4 0", "Range 1"),
        ("99999999999999999999999999999999999999999 0 0", "Range 1"),
        ("18446744073709551617 0 0", "Range 1"),
        ("5 16777217 0 1 0", "Range 3"),
        ("5 -0 0 0", "Range 3"),
        ("5 0 -00 0", "Range 5"),
        ("5 0 -9223372036854775808 0", "Range 5"),
        ("5 d -4 0", "Range 5"),
        ("5 0 1 x 0", "BadWord 7"),
        ("x d 4 0", "BadWord 1"),
        ("d 4 0", "BadWord 1"),
        ("5 1 d 0 0", "BadWord 5"),
        ("5 +1 0 0", "BadWord 3"),
        ("5 - 0 0", "BadWord 3"),
        ("5 --1 0 0", "BadWord 3"),
        ("5 dd 4 0", "BadWord 3"),
        ("5 0 1 2 4 0 0", "Extra 13"),
        ("5 0 0 x", "Extra 7"),
        ("5 d 0 4 0", "Extra 7"),
        ("5 99999999 x", "Range 3"),
        ("5 x 99999999", "BadWord 3"),
    ];
    compare(&rt, rt.alloc(), &rows)
}

#[test]
fn lines_of_odd_blanks_and_long_numbers(rt: HostRuntime) -> Result<(), Fail> {
    let rows = [
        ("5\t1\t\t-2  0 \t7\t0\t", "5 1 -2 0 7 0\n"),
        ("   5 -1 0 3 0", "5 -1 0 3 0\n"),
        ("05 -01 0 003 0", "5 -1 0 3 0\n"),
        ("999999999999999999 0 0", "999999999999999999 0 0\n"),
        ("1000000000000000000 0 0", "1000000000000000000 0 0\n"),
        ("5 0 -1000000000000000000 0", "5 0 -1000000000000000000 0\n"),
        ("0000000000000000005 0 0", "5 0 0\n"),
        ("5 -0000000000000000000001 0 0", "5 -1 0 0\n"),
        ("5 1 000000000000000000000 2 0", "5 1 0 2 0\n"),
        ("5 1 00 2 00", "5 1 0 2 0\n"),
        (
            "9223372036854775806 16777216 0 0",
            "9223372036854775806 16777216 0 0\n",
        ),
        (
            "9223372036854775807 d 9223372036854775807 0",
            "0 d 9223372036854775807 0\n",
        ),
        ("00 d\t4  5 0", "0 d 4 5 0\n"),
        ("000000000000000000000 d 0", "0 d 0\n"),
        ("7\td 0\t", "0 d 0\n"),
        ("9223372036854775808 0 0", "Range 1"),
        ("9999999999999999999 d 0", "Range 1"),
        ("10000000000000000001 d 0", "Range 1"),
        ("5 0 9223372036854775808 0", "Range 5"),
        ("5 0 -00000000000000000000 0", "Range 5"),
        ("5 4294967297 0 0", "Range 3"),
        ("5 -16777217 0 0", "Range 3"),
        ("-00 0 0", "Range 1"),
        ("-1 d 0", "Range 1"),
        ("5 1 0 2 0\r", "BadWord 9"),
        ("5 1 0 2\r 0", "BadWord 7"),
        ("5 1x 0 0", "BadWord 3"),
        ("5 1234567890123456789x 0 0", "BadWord 3"),
        ("5 1- 0 0", "BadWord 3"),
        ("5\tdx 0", "BadWord 3"),
        ("5 -d 0", "BadWord 3"),
        ("5 1 0 2 0 \t ", "5 1 0 2 0\n"),
        ("5 1 0 2 0 \t-", "Extra 12"),
        ("5 d 1 0 d", "Extra 9"),
    ];
    compare(&rt, rt.alloc(), &rows)
}

#[test]
fn a_reader_keeps_nothing_of_the_lines_before(rt: HostRuntime) -> Result<(), Fail> {
    let rows = [
        ("5 1 2 3 0 4 6 0", "5 1 2 3 0 4 6 0\n"),
        ("6 1 0 2 0", "6 1 0 2 0\n"),
        ("0 d 3 4 5 0", "0 d 3 4 5 0\n"),
        ("0 d 1 0", "0 d 1 0\n"),
        ("7 8 9 x", "BadWord 7"),
        ("7 0 0", "7 0 0\n"),
        ("c 1 2 0", "none"),
        ("8 -1 0 -2 0", "8 -1 0 -2 0\n"),
        ("9 0 3 4", "NoZero"),
        ("9 0 5 0", "9 0 5 0\n"),
    ];
    let mut reader = LineReader::new(rt.alloc());
    for (line, want) in rows {
        let read = match reader.read(line.as_bytes()) {
            Ok(Some(step)) => Ok(Some(step.to_step(rt.alloc())?)),
            Ok(None) => Ok(None),
            Err(error) => Err(error),
        };
        let found = shown(&rt, rt.alloc(), read)?;
        assert!(rt; found.as_slice() == want.as_bytes(), "at {line:?}");
    }
    Ok(())
}
