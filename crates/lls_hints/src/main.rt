//! The program `lls-hints`: `run` over the words, the files and the streams that the system gives.
#![tactic(auto)]

use lls_base::{DiskShelf, StdSink};
use lls_hinting::lack;
use lls_hinting::run::run;
use std::io::ErrorKind;
use std::process::ExitCode;
use std::{env, fs};

// The status where the system gives no words.
const NO_WORDS: u8 = 7;

// A file that can be read, and not written to.
const NOTHING: &str = "/dev/null";

fn main(rt: HostRuntime) -> ExitCode {
    // Where a standard stream is closed, the next file that is opened gets its number, and what is said would go into that file.
    // So these numbers are taken first, for as long as the program runs.
    let _first = fs::open(&rt, NOTHING);
    let _second = fs::open(&rt, NOTHING);
    let _third = fs::open(&rt, NOTHING);
    let mut err = StdSink::new(rt.stderr());
    let words = match env::args(&rt) {
        Ok(words) => words,
        Err(error) if error.kind() == ErrorKind::OutOfMemory => {
            return ExitCode::from(lack(&mut err).code());
        }
        Err(_) => return ExitCode::from(NO_WORDS),
    };
    let Ok(words) = words.skip(1).collect::<Vec<String>>(rt.alloc()) else {
        return ExitCode::from(lack(&mut err).code());
    };
    let mut shelf = DiskShelf::new(&rt);
    let mut out = StdSink::new(rt.stdout());
    ExitCode::from(run(rt.alloc(), &words, &mut shelf, &mut out, &mut err).code())
}
