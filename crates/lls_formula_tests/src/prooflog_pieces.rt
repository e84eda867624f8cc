// Bytes that are put in pieces, and the lines that are taken of them.
use lls_prooflog::Lines;
use std::alloc::Global;
use std::test::Fail;

// Puts the pieces, and behind each takes what lines there are, with a bar behind each; then what is left.
fn taken(alloc: Global, pieces: &[&str]) -> Result<Vec<u8>, Fail> {
    let mut lines = Lines::new(alloc);
    let mut found = Vec::new(alloc);
    for piece in pieces {
        lines.put(piece.as_bytes())?;
        for _ in 0..9 {
            if !lines.take(&mut found)? {
                break;
            }
            found.push(b'|')?;
        }
    }
    found.extend_from_slice(&lines.rest())?;
    Ok(found)
}

#[test]
fn lines_are_taken_once_they_are_whole(rt: HostRuntime) -> Result<(), Fail> {
    let rows: [(&[&str], &str); 9] = [
        (&[], ""),
        (&["", "ab"], "ab"),
        (&["\n"], "|"),
        (&["ab\n"], "ab|"),
        (&["a", "b\nc"], "ab|c"),
        (&["a\n\nb\r\n", "\n"], "a||b\r||"),
        (&["ab", "", "cd", "\n", "ef\ngh\ni"], "abcd|ef|gh|i"),
        (&["abcdefgh\ni", "j", "k\n", "l"], "abcdefgh|ijk|l"),
        (&["a\n", "b\n", "cd\nefghijkl", "m\n"], "a|b|cd|efghijklm|"),
    ];
    for (pieces, want) in rows {
        let found = taken(rt.alloc(), pieces)?;
        assert!(rt; found.as_slice() == want.as_bytes(), "at {pieces:?}");
    }
    Ok(())
}
