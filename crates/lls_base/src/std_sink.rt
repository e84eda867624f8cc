// A sink over a stream of the system, as the standard output. No more is known of it than that it counts its faults.
ghost use Rattle.std.specs.Prelude.{◌≡◌, ◌<◌, ◌^◌, None};

use crate::{Failed, Sink};
use std::io::Write;

/// A stream that takes bytes at once, as `rt.stdout()` and `rt.stderr()` do.
#[derive(Drop)]
pub struct StdSink<W: Write> {
    stream: W,
    faults: u64,
    ghost faults_fit: { faults < 2 ^ 64 },
}

impl<W: Write> StdSink<W> {
    pub fn new(stream: W) -> Self
        ensures { ⟦<StdSink<W> as Sink>⟧.faults result ≡ 0 }
    {
        StdSink { stream, faults: 0 }
    }

    /// How often a call has failed.
    pub fn faults(&self) -> u64
        ensures { result ≡ ⟦<StdSink<W> as Sink>⟧.faults self.now }
    {
        self.faults
    }
}

impl<W: Write> Sink for StdSink<W> {
    ghost written = { λ _. None };

    ghost faults = { λ sink. sink.faults };

    ghost faults_fit = { λ sink. sink.faults_fit };

    fn write(&mut self, bytes: &[u8]) -> Result<usize, Failed> {
        match self.stream.write(bytes) {
            Ok(taken) if taken > 0 || bytes.is_empty() => Ok(taken),
            _ => {
                self.faults = self.faults.saturating_add(1);
                Err(Failed)
            }
        }
    }
}
