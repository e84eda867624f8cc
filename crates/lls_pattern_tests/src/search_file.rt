// Search files: read and printed. Their faults are compared with worked rows over the program.
ghost use Rattle.std.specs.Prelude.{◌≡◌, IfOk};

use lls_grid::{History, print_history};
use lls_search_file::{
    Cell, HistoryError, HistoryFault, Kind, PosedError, PosedFault, print_posed, read_history,
    read_posed,
};
use std::alloc::{AllocError, Global};
use std::test::Fail;

fn cell(kind: Kind) -> Cell {
    Cell { mark: false, kind }
}

// A text of that many generations, rows and cells, all sought.
fn sought(alloc: Global, generations: u32, height: u32, width: u32) -> Result<Vec<u8>, AllocError> {
    let mut text = Vec::new(alloc);
    for _ in 0..generations {
        for _ in 0..height {
            for _ in 0..width {
                text.extend_from_slice(b"* ")?;
            }
            text.push(b'\n')?;
        }
        text.push(b'\n')?;
    }
    Ok(text)
}

#[test]
fn a_byte_that_begins_no_character(rt: HostRuntime) -> Result<(), Fail> {
    let fault = PosedError::Fault(PosedFault::NotAscii(1, 1));
    assert!(rt; read_posed(rt.alloc(), b"\x80").err() == Some(fault));
    Ok(())
}

#[test]
fn sizes_at_their_limits(rt: HostRuntime) -> Result<(), Fail> {
    let alloc = rt.alloc();
    let rows: [(u32, u32, u32, Option<PosedFault>); 8] = [
        (1, 1, 64, None),
        (1, 64, 1, None),
        (64, 1, 1, None),
        (2, 64, 64, None),
        (1, 1, 65, Some(PosedFault::TooWide(65))),
        (1, 65, 1, Some(PosedFault::TooHigh(65))),
        (65, 1, 1, Some(PosedFault::TooMany(65))),
        (3, 64, 64, Some(PosedFault::TooManyCells(8256))),
    ];
    for (generations, height, width, fault) in rows {
        let text = sought(alloc, generations, height, width)?;
        match read_posed(alloc, &text) {
            Ok(posed) => {
                assert!(rt; None == fault);
                assert!(rt;
                    (posed.generations, posed.height, posed.width) == (generations, height, width)
                );
            }
            Err(found) => assert!(rt; Some(found) == fault.map(PosedError::Fault)),
        }
    }
    Ok(())
}

#[test]
fn cells_and_names(rt: HostRuntime) -> Result<(), Fail> {
    let alloc = rt.alloc();
    let text: &[u8] =
        b"\n \t\r\n# \xff b\n b1 ,\t-a ,*',\r\n#\n-b1' 0 1\t\n\n\n \n# c\n a, a', Z9\r\n1 1 1";
    let posed = read_posed(alloc, text)?;
    assert!(rt; (posed.generations, posed.height, posed.width) == (2, 2, 3));
    let cells = [
        cell(Kind::Named(0)),
        cell(Kind::Negated(1)),
        Cell {
            mark: true,
            kind: Kind::Free,
        },
        Cell {
            mark: true,
            kind: Kind::Negated(0),
        },
        cell(Kind::Dead),
        cell(Kind::Live),
        cell(Kind::Named(1)),
        Cell {
            mark: true,
            kind: Kind::Named(1),
        },
        cell(Kind::Named(2)),
        cell(Kind::Live),
        cell(Kind::Live),
        cell(Kind::Live),
    ];
    assert!(rt; posed.cells.items() == cells.as_slice());
    let names = posed.names.items();
    assert!(rt; names.len() == 3);
    let texts = (names[0].text(), names[1].text(), names[2].text());
    assert!(rt; texts == ("b1", "a", "Z9"));
    Ok(())
}

#[test]
fn names_of_32_letters(rt: HostRuntime) -> Result<(), Fail> {
    let alloc = rt.alloc();
    let posed = read_posed(alloc, b"a2345678901234567890123456789012")?;
    assert!(rt; posed.names.items().len() == 1);
    assert!(rt; posed.names.items()[0].text() == "a2345678901234567890123456789012");
    Ok(())
}

#[test]
fn a_printed_file_is_read_back(rt: HostRuntime) -> Result<(), Fail> {
    let alloc = rt.alloc();
    let text = b"b' -a *'\n0 1 b\n\na -b1' 1'\n0' * -b\n".as_slice();
    let spaced = b"\n#x\n b'\t,-a, *',\r\n0 1 b\n \n\na -b1' 1'\n0',*,-b\n\n".as_slice();
    for bytes in [text, spaced] {
        let posed = read_posed(alloc, bytes)?;
        let printed = print_posed(alloc, &posed)?;
        assert!(rt; printed.as_slice() == text);
    }
    Ok(())
}

// A history, printed and read.
fn reread(alloc: Global, history: &History) -> Result<History, HistoryError>
    ensures { IfOk result (λ read. read ≡ history.now) }
{
    // What the type of a history keeps is told by its sizes.
    let _sizes = history.sizes();
    match print_history(alloc, history) {
        Ok(text) => read_history(alloc, &text),
        Err(_) => Err(HistoryError::Memory),
    }
}

#[test]
fn a_printed_history_is_read_back(rt: HostRuntime) -> Result<(), Fail> {
    let alloc = rt.alloc();
    let text = b"0 0 0\n1 1 1\n0 0 0\n\n0 1 0\n0 1 0\n0 1 0\n".as_slice();
    let spaced = b"# blinker\n0,0,0\n 1 1 1\r\n0 0 0 ,\n\n\n0 1 0\n0 1 0\n0 1 0".as_slice();
    for bytes in [text, spaced] {
        let history = reread(alloc, &read_history(alloc, bytes)?)?;
        assert!(rt; (history.generations(), history.height(), history.width()) == (2, 3, 3));
        let printed = print_history(alloc, &history)?;
        assert!(rt; printed.as_slice() == text);
    }
    Ok(())
}

#[test]
fn faults_by_their_texts(rt: HostRuntime) -> Result<(), Fail> {
    let alloc = rt.alloc();
    let rows: [(PosedFault, &str, bool); 9] = [
        (PosedFault::Empty, "Empty", false),
        (PosedFault::BadCell(1, 3), "BadCell 1 3", false),
        (PosedFault::Ragged(2, 2, 1), "Ragged 2 2 1", false),
        (PosedFault::Sizes(1, 1, 2), "Sizes 1 1 2", false),
        (PosedFault::TooWide(65), "TooWide 65", true),
        (PosedFault::TooHigh(65), "TooHigh 65", true),
        (PosedFault::TooMany(65), "TooMany 65", true),
        (PosedFault::TooManyCells(8256), "TooManyCells 8256", true),
        (PosedFault::NotAscii(1, 3), "NotAscii 1 3", false),
    ];
    for (fault, text, limit) in rows {
        let history = HistoryError::Fault(HistoryFault::Text(fault));
        let posed = PosedError::Fault(fault);
        let (posed, history) = (
            format!(in alloc; "{posed}")?,
            format!(in alloc; "{history}")?,
        );
        let found = (posed.as_str(), history.as_str(), fault.is_limit());
        assert!(rt; found == (text, text, limit));
    }
    assert!(rt; format!(in alloc; "{}", PosedError::Memory)?.as_str() == "Memory");
    let place = HistoryFault::NotPlain(1, 2, 3);
    assert!(rt; format!(in alloc; "{place}")?.as_str() == "NotPlain 1 2 3");
    Ok(())
}
