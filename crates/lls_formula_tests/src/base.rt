// Whole reads and writes over the doubles in memory, and one test of each adapter.
use lls_base::{
    DiskShelf, Failed, FileFault, MemShelf, MemSink, Name, OpenFault, Plan, ReadError, Shelf, Sink,
    StdSink, read_all, write_all, write_file,
};
use std::alloc::{AllocError, Global};
use std::io::{ErrorKind, Write};
use std::test::Fail;
use std::{fs, io};

fn name(alloc: Global, text: &str) -> Result<Name, AllocError> {
    Ok(Name::new(String::from_str(alloc, text)?))
}

// The calls that fail, each counted from 1: one of a kind, or none where it says 0.
#[derive(Clone, Copy)]
struct Failing {
    open: u64,
    read: u64,
    create: u64,
    write: u64,
}

const NONE: Failing = Failing {
    open: 0,
    read: 0,
    create: 0,
    write: 0,
};

// A shelf whose one file `seed` holds `glider`, and that takes three bytes at a call.
fn shelf(alloc: Global, failing: Failing) -> Result<MemShelf, AllocError> {
    let plan = Plan {
        opens: vec![in alloc; failing.open]?,
        reads: vec![in alloc; failing.read]?,
        creates: vec![in alloc; failing.create]?,
        writes: vec![in alloc; failing.write]?,
    };
    let files = vec![in alloc; (name(alloc, "seed")?, b"glider".to_vec(alloc)?)]?;
    Ok(MemShelf::new(alloc, files, plan, 3))
}

#[test]
fn a_sink_fails_at_listed_calls(rt: HostRuntime) -> Result<(), Fail> {
    let alloc = rt.alloc();
    let rows: [(u64, Result<(), Failed>, &[u8]); 4] = [
        (0, Ok(()), b"glider"),
        (1, Err(Failed), b""),
        (2, Err(Failed), b"gli"),
        (3, Ok(()), b"glider"),
    ];
    for (call, answer, bytes) in rows {
        let mut sink = MemSink::new(alloc, vec![in alloc; call]?, 3);
        let found = write_all(&mut sink, b"glider");
        assert!(rt; (found, sink.bytes(), sink.lacked()) == (answer, bytes, 0));
    }
    Ok(())
}

#[test]
fn a_file_is_written_whole_or_in_front(rt: HostRuntime) -> Result<(), Fail> {
    let alloc = rt.alloc();
    let rows: [(u64, u64, Result<(), FileFault>, &[u8]); 4] = [
        (0, 0, Ok(()), b"block"),
        (1, 0, Err(FileFault::CreateFailed), b"glider"),
        (0, 1, Err(FileFault::WriteFailed), b""),
        (0, 2, Err(FileFault::WriteFailed), b"blo"),
    ];
    for (create, write, answer, bytes) in rows {
        let failing = Failing {
            create,
            write,
            ..NONE
        };
        let mut shelf = shelf(alloc, failing)?;
        let found = write_file(&mut shelf, &name(alloc, "seed")?, b"block");
        let file = shelf.file("seed").ok_or("no file")?;
        let other = shelf.file("see").is_some();
        assert!(rt; (found, file, other, shelf.lacked()) == (answer, bytes, false, 0));
    }
    Ok(())
}

#[test]
fn a_file_is_made(rt: HostRuntime) -> Result<(), Fail> {
    let alloc = rt.alloc();
    let mut shelf = shelf(alloc, NONE)?;
    let found = write_file(&mut shelf, &name(alloc, "proof")?, b"5 0 1");
    let files = (shelf.file("proof"), shelf.file("seed"));
    let wanted = (Some(b"5 0 1".as_slice()), Some(b"glider".as_slice()));
    assert!(rt; (found, files) == (Ok(()), wanted));
    Ok(())
}

#[test]
fn a_file_is_read_up_to_its_limit(rt: HostRuntime) -> Result<(), Fail> {
    let alloc = rt.alloc();
    let rows: [(&str, u64, u64, u64, Result<(), ReadError>, &[u8]); 7] = [
        ("seed", 0, 0, 6, Ok(()), b"> glider"),
        ("seed", 0, 0, 5, Err(ReadError::TooLong(5)), b"> gli"),
        ("seed", 0, 0, 0, Err(ReadError::TooLong(0)), b"> "),
        ("seed", 1, 0, 6, Err(ReadError::OpenFailed), b"> "),
        ("seed", 0, 2, 6, Err(ReadError::ReadFailed), b"> gli"),
        ("seed", 0, 3, 6, Err(ReadError::ReadFailed), b"> glider"),
        ("proof", 0, 0, 6, Err(ReadError::NoFile), b"> "),
    ];
    for (file, open, read, limit, answer, bytes) in rows {
        let failing = Failing { open, read, ..NONE };
        let mut shelf = shelf(alloc, failing)?;
        let mut into = b"> ".to_vec(alloc)?;
        let found = read_all(&mut shelf, &name(alloc, file)?, limit, &mut into);
        assert!(rt; (found, into.as_slice(), shelf.lacked()) == (answer, bytes, 0));
    }
    Ok(())
}

#[test]
fn real_files(rt: HostRuntime) -> Result<(), Fail> {
    let alloc = rt.alloc();
    let mut shelf = DiskShelf::new(&rt);
    let file = name(alloc, "lls_base_real_files")?;
    // Longer than two turns of a read.
    let bytes = vec![in alloc; b'x'; 20_000]?;
    assert!(rt; write_file(&mut shelf, &file, &bytes) == Ok(()));
    let mut into = Vec::new(alloc);
    let read = read_all(&mut shelf, &file, 20_000, &mut into);
    // A file has no files below it: that isn't an absent file, but a failure.
    let below = shelf.open_input("lls_base_real_files/below");
    fs::remove_file(&rt, file.text())?;
    assert!(rt; (read, into.as_slice()) == (Ok(()), bytes.as_slice()));
    assert!(rt; (below, shelf.faults()) == (Err(OpenFault::Failed), 1));
    let absent = shelf.open_input(file.text());
    assert!(rt; (absent, shelf.faults()) == (Err(OpenFault::Absent), 1));
    let created = shelf.create_output("no_folder/file");
    assert!(rt; (created, shelf.faults()) == (Err(Failed), 2));
    // A folder is opened and can't be read; this device takes nothing.
    let read = read_all(&mut shelf, &name(alloc, "/")?, 1, &mut into);
    assert!(rt; (read, shelf.faults()) == (Err(ReadError::ReadFailed), 3));
    let written = write_file(&mut shelf, &name(alloc, "/dev/full")?, b"5 0 1");
    assert!(rt; (written, shelf.faults()) == (Err(FileFault::WriteFailed), 4));
    Ok(())
}

// A stream that fails at its first call, takes nothing at its second, and everything from then on.
#[derive(Drop)]
struct Stubborn {
    calls: u8,
}

impl Write for Stubborn {
    fn write(&mut self, bytes: &[u8]) -> io::Result<usize> {
        self.calls = self.calls.saturating_add(1);
        match self.calls {
            1 => Err(io::Error::from(ErrorKind::BrokenPipe)),
            2 => Ok(0),
            _ => Ok(bytes.len()),
        }
    }

    fn flush(&mut self) -> io::Result<()> {
        Ok(())
    }
}

#[test]
fn streams(rt: HostRuntime) -> Result<(), Fail> {
    let mut sink = StdSink::new(Stubborn { calls: 0 });
    for (faults, answer) in [(1, Err(Failed)), (2, Err(Failed)), (2, Ok(()))] {
        let found = write_all(&mut sink, b"block");
        assert!(rt; (found, sink.faults()) == (answer, faults));
    }
    assert!(rt; write_all(&mut StdSink::new(rt.stdout()), b"out\n") == Ok(()));
    assert!(rt; StdSink::new(rt.stderr()).write(b"") == Ok(0));
    Ok(())
}
