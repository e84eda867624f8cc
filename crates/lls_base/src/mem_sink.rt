// A sink in memory, for tests.
ghost use Rattle.std.specs.Prelude.{◌≡◌, OnOk, ◌<◌, ◌≤◌, ◌⊎◌, [], length, min, Some, IsTrue, true, IfOk, IsErr, OnErr};
ghost use Rattle.std.specs.Io.KnownBytes.{append_known};
ghost use Rattle.lls_base.specs.Faults.{Counts, Rose};
ghost use Rattle.lls_base.specs.Sink.{bytes_taken, TookNone};

use crate::schedule::Schedule;
use crate::tally::Tally;
use crate::{Failed, Sink};
use std::alloc::Global;

/// A sink that keeps what it takes. It fails at chosen calls, and takes few bytes at a time.
#[derive(Drop)]
pub struct MemSink {
    bytes: Vec<u8>,
    schedule: Schedule,
    most: usize,
    tally: Tally,
    ghost takes_some: { 0 < most },
}

impl MemSink {
    ghost use Rattle.lls_base.specs.MemSink.{sink_schedule, sink_most, sink_lacked};

    /// An empty sink. It fails at the calls whose numbers, from 1 on, are listed, and takes at most `most` bytes at a call.
    pub fn new(alloc: Global, fails: Vec<u64>, most: usize) -> Self
        requires { 0 < most }
        ensures written { ⟦<MemSink as Sink>⟧.written result ≡ Some [] }
        ensures faults { ⟦<MemSink as Sink>⟧.faults result ≡ 0 }
        ensures lacked { sink_lacked result ≡ 0 }
        ensures schedule { sink_schedule result ≡ record { listed = fails; calls = 0 } }
        ensures most { sink_most result ≡ most }
    {
        MemSink {
            bytes: Vec::new(alloc),
            schedule: Schedule::new(fails),
            most,
            tally: Tally::NONE,
        }
    }

    /// The bytes taken so far.
    pub fn bytes(&self) -> &[u8]
        ensures { ⟦<MemSink as Sink>⟧.written self.now ≡ Some result.now }
    {
        &self.bytes
    }

    /// How often a call has failed for want of memory. A call that isn't listed fails only there.
    pub fn lacked(&self) -> u64
        ensures { result ≡ sink_lacked self.now }
    {
        self.tally.lacked
    }
}

impl Sink for MemSink {
    ghost use Rattle.lls_base.specs.Schedule.{after_call, is_due};
    ghost use Rattle.lls_base.specs.MemSink.{sink_bytes, sink_schedule, sink_most, sink_faults, sink_lacked};

    ghost written = { λ sink. Some (sink_bytes sink) };

    ghost faults = { sink_faults };

    ghost faults_fit = { λ sink. sink.tally.faults_fit };

    fn write(&mut self, bytes: &[u8]) -> Result<usize, Failed>
        ensures within { IfOk result (λ n. n ≤ length bytes.now) }
        ensures written { Some (sink_bytes self.new) ≡ append_known (Some (sink_bytes self.old)) (bytes_taken result bytes.now) }
        ensures counts { Counts (sink_faults self.old) (sink_faults self.new) }
        ensures failed { OnErr result (Rose (sink_faults self.old) (sink_faults self.new)) }
        ensures none { TookNone result bytes.now → Rose (sink_faults self.old) (sink_faults self.new) }
        ensures no_fault { OnOk result (sink_faults self.new ≡ sink_faults self.old) }
        ensures no_lack { OnOk result (sink_lacked self.new ≡ sink_lacked self.old) }
        ensures lacked_counts { Counts (sink_lacked self.old) (sink_lacked self.new) }

        // Each call that is listed fails, and no other does but for want of memory.
        ensures most { IfOk result (λ n. n ≡ min (length bytes.now) (sink_most self.old)) }
        ensures listed { IsTrue (is_due (sink_schedule self.old)) → IsErr result }
        ensures listed_lacks_nothing { IsTrue (is_due (sink_schedule self.old)) → sink_lacked self.new ≡ sink_lacked self.old }
        ensures unlisted { OnErr result (IsTrue (is_due (sink_schedule self.old)) ⊎ Rose (sink_lacked self.old) (sink_lacked self.new)) }
        ensures counted { sink_schedule self.new ≡ after_call (sink_schedule self.old) }
        ensures same_most { sink_most self.new ≡ sink_most self.old }
    {
        if self.schedule.strikes() {
            self.tally.fail();
            return Err(Failed);
        }
        let taken = bytes.len().min(self.most);
        if self.bytes.extend_from_slice(&bytes[..taken]).is_err() {
            self.tally.lack();
            return Err(Failed);
        }
        Ok(taken)
    }
}
