// Proofs in DRAT, whole and in pieces: the lemmas that they write, each behind its line or number, and the fault that ends them.
ghost use Rattle.std.specs.Prelude.{◌<◌};

use lls_drat::{DratError, Form, Kind, Reader, recognise};
use std::alloc::Global;
use std::process::Abort;
use std::test::Fail;

// Tells a lemma, or an error, at which the proof ends. False where none has come.
fn tell(
    alloc: Global,
    reader: &Reader,
    read: Result<Option<Kind>, DratError>,
    told: &mut String,
) -> Result<bool, Fail> {
    let kind = match read {
        Ok(None) => return Ok(false),
        Ok(Some(Kind::Addition)) => "a",
        Ok(Some(Kind::Deletion)) => "d",
        Err(error) => {
            let text = format!(in alloc; "{error}")?;
            told.push_str(text.as_str())?;
            return Ok(false);
        }
    };
    let head = format!(in alloc; "{} {kind}", reader.lines())?;
    told.push_str(head.as_str())?;
    for lit in reader.lits() {
        let text = format!(in alloc; " {}", lit.number())?;
        told.push_str(text.as_str())?;
    }
    told.push_str("; ")?;
    Ok(true)
}

// What a proof writes that comes in pieces of so many bytes.
fn told(alloc: Global, form: Form, proof: &[u8], size: usize) -> Result<String, Fail>
    requires { 0 < size }
{
    let mut reader = Reader::new(alloc, form);
    let mut told = String::new(alloc);
    for piece in proof.chunks(size) {
        reader.put(piece)?;
        for _ in 0..99 {
            let read = reader.next();
            let is_faulty = read.is_err();
            let went_on = tell(alloc, &reader, read, &mut told)?;
            if is_faulty {
                return Ok(told);
            }
            if !went_on {
                break;
            }
        }
    }
    for _ in 0..99 {
        let read = reader.last();
        if !tell(alloc, &reader, read, &mut told)? {
            break;
        }
    }
    Ok(told)
}

fn compare(
    rt: &impl Abort,
    alloc: Global,
    form: Form,
    proof: &[u8],
    want: &str,
) -> Result<(), Fail> {
    for size in [1, 2, 3, 99] {
        let found = told(alloc, form, proof, size)?;
        assert!(rt; found.as_str() == want, "at {proof:?} in pieces of {size}");
    }
    Ok(())
}

#[test]
fn lemmas_of_a_text(rt: HostRuntime) -> Result<(), Fail> {
    let rows = [
        ("", ""),
        ("1 -2 0\n", "1 a 1 -2; "),
        ("d 3 -1 0\n", "1 d 3 -1; "),
        ("1 0\n2 0", "1 a 1; 2 a 2; "),
        ("1 0\r\n2 0\r", "1 a 1; 2 a 2; "),
        ("c 1 0\n\n \t\n 007\t-8  00 \n", "4 a 7 -8; "),
        ("c\nd 0\n0\nc", "2 d; 3 a; "),
        ("16777216 -16777216 0\n", "1 a 16777216 -16777216; "),
        ("  d\t2 2 -2 0", "1 d 2 2 -2; "),
    ];
    for (proof, want) in rows {
        compare(&rt, rt.alloc(), Form::Text, proof.as_bytes(), want)?;
    }
    Ok(())
}

#[test]
fn the_first_fault_of_a_text(rt: HostRuntime) -> Result<(), Fail> {
    let rows = [
        ("d\n", "NoZero 1"),
        ("1 2\n3 0\n", "NoZero 1"),
        ("1 0\n2 x 0\n3 0\n", "1 a 1; BadWord 2 3"),
        ("1 0 2\n", "Extra 1 5"),
        ("1 16777217 0\n", "Range 1 3"),
        ("-0 0\n", "Range 1 1"),
        ("99999999999999999999999 0", "Range 1 1"),
        (" +1 0", "BadWord 1 2"),
        ("comment\n", "BadWord 1 1"),
        ("d d 1 0\n", "BadWord 1 3"),
        ("1 d 2 0\n", "BadWord 1 3"),
        ("1 c 0\n", "BadWord 1 3"),
        ("1 - 0\n", "BadWord 1 3"),
        ("1 99999999 x\n", "Range 1 3"),
        ("1 0\n\n2 0 d 3 0\n", "1 a 1; Extra 3 5"),
        ("1 0\n2", "1 a 1; NoZero 2"),
    ];
    for (proof, want) in rows {
        compare(&rt, rt.alloc(), Form::Text, proof.as_bytes(), want)?;
    }
    Ok(())
}

// A number has seven bits a byte: 128 is 128 1, and 33554432 is 128 128 128 16.
#[test]
fn lemmas_in_bytes(rt: HostRuntime) -> Result<(), Fail> {
    let rows: [(&[u8], &str); 10] = [
        (&[], ""),
        (&[97, 2, 0], "1 a 1; "),
        (&[97, 3, 0], "1 a -1; "),
        (&[100, 4, 7, 0, 97, 0], "1 d 2 -3; 2 a; "),
        (&[97, 126, 127, 0], "1 a 63 -63; "),
        (&[97, 128, 1, 129, 1, 0], "1 a 64 -64; "),
        (&[97, 254, 127, 128, 128, 1, 0], "1 a 8191 8192; "),
        (&[97, 128, 128, 128, 16, 0], "1 a 16777216; "),
        (&[100, 129, 128, 128, 16, 2, 0], "1 d -16777216 1; "),
        (&[97, 97, 0, 97, 100, 0], "1 a -48; 2 a 50; "),
    ];
    for (proof, want) in rows {
        compare(&rt, rt.alloc(), Form::Binary, proof, want)?;
    }
    Ok(())
}

#[test]
fn the_first_fault_in_bytes(rt: HostRuntime) -> Result<(), Fail> {
    let rows: [(&[u8], &str); 13] = [
        (&[97, 1, 0], "Range 2"),
        (&[97, 2, 128, 0], "Range 3"),
        (&[97, 130, 0, 0], "Range 2"),
        (&[97, 130, 128, 128, 16, 0], "Range 2"),
        (&[97, 2, 130, 128, 128, 128, 1, 0], "Range 3"),
        (&[97, 2, 0, 98, 2, 0], "1 a 1; BadHead 4"),
        (&[97, 2, 0, 0], "1 a 1; BadHead 4"),
        (&[0], "BadHead 1"),
        (&[98, 2], "BadHead 1"),
        (&[97], "Cut 1"),
        (&[97, 2, 0, 100, 3], "1 a 1; Cut 4"),
        (&[97, 2, 0, 100, 131], "1 a 1; Cut 4"),
        (&[100, 2, 0, 97, 1, 0, 97, 2, 0], "1 d 1; Range 5"),
    ];
    for (proof, want) in rows {
        compare(&rt, rt.alloc(), Form::Binary, proof, want)?;
    }
    Ok(())
}

#[test]
fn forms_are_told_by_ten_bytes(rt: HostRuntime) {
    let rows: [(&[u8], Form); 12] = [
        (b"", Form::Text),
        (b"d 1 -2 0\r\n", Form::Text),
        (b"c made by", Form::Text),
        (b"1234567890\0", Form::Text),
        (b"123456789\0", Form::Binary),
        (b"AZ[`az", Form::Text),
        (b"@", Form::Binary),
        (b"{", Form::Binary),
        (b"/", Form::Binary),
        (b"\t1 0", Form::Binary),
        (&[97, 2, 0], Form::Binary),
        (&[100, 2, 3, 0], Form::Binary),
    ];
    for (start, want) in rows {
        assert!(rt; recognise(start) == want, "at {start:?}");
    }
}
