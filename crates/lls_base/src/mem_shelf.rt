// A shelf in memory, for tests.
ghost use Rattle.std.specs.Prelude.{◌≡◌, OnOk, ◌<◌, ◌≤◌, ◌⊎◌, ◌↔◌, IsTrue, length, min, Some, None, false, is_some, is_ok, IfOk, IsErr, IsErrOf, OnErr, IfSome, drop};
ghost use Rattle.std.specs.FinMap as map;
ghost use Rattle.std.specs.Option.{option_map, ForSome};
ghost use Rattle.lls_base.specs.Faults.{Counts, Rose};
ghost use Rattle.lls_base.specs.Sink.{TookNone};
ghost use Rattle.lls_base.specs.Shelf.{OpensAsTold, ReadsFront, after_open, after_read, after_create, after_write};
ghost use Rattle.lls_base.specs.Files.{files_of, name_at, IsFirst};

use crate::files::{append_at, empty_file, stored};
use crate::schedule::Schedule;
use crate::tally::Tally;
use crate::{Failed, Name, OpenFault, Shelf};
use std::alloc::Global;

/// The calls that are to fail, of each kind by their numbers, from 1 on.
#[derive(Drop)]
pub struct Plan {
    pub opens: Vec<u64>,
    pub reads: Vec<u64>,
    pub creates: Vec<u64>,
    pub writes: Vec<u64>,
}

// The same, with how many calls of each kind there have been.
#[derive(Drop)]
struct Schedules {
    opens: Schedule,
    reads: Schedule,
    creates: Schedule,
    writes: Schedule,
}

// The bytes of a file that is being read, and how many of them were taken.
#[derive(Drop)]
struct Input {
    bytes: Vec<u8>,
    at: usize,
    ghost within: { at ≤ length bytes.items },
}

impl Input {
    ghost use Rattle.lls_base.specs.MemShelf.{input_rest};

    fn read(&mut self, buf: &mut [u8], most: usize) -> usize
        requires { 0 < most }
        ensures count { result ≡ min (min (length (input_rest self.old)) (length buf.old)) most }
        ensures front { ReadsFront result (input_rest self.old) buf.new }
        ensures behind { drop result buf.new ≡ drop result buf.old }
        ensures rest { input_rest self.new ≡ drop result (input_rest self.old) }
    {
        let rest = &self.bytes[self.at..];
        let count = rest.len().min(buf.len()).min(most);
        buf[..count].copy_from_slice(&rest[..count]);
        self.at += count;
        count
    }
}

/// A shelf that keeps its files. It fails at chosen calls, and reads and writes few bytes at a time.
#[derive(Drop)]
pub struct MemShelf {
    alloc: Global,
    files: Vec<(Name, Vec<u8>)>,
    input: Option<Input>,
    output: Option<usize>,
    schedules: Schedules,
    most: usize,
    tally: Tally,
    ghost takes_some: { 0 < most },
    ghost output_is_first: { ForSome output (λ place. IsFirst (name_at files.items place) files.items place) },
}

impl MemShelf {
    ghost use Rattle.lls_base.specs.MemShelf.{shelf_contents, shelf_schedules, shelf_most, shelf_lacked};

    /// A shelf with these files, of which none is being read or written. Where a name stands twice, the first counts.
    /// A call reads or writes at most `most` bytes.
    pub fn new(alloc: Global, files: Vec<(Name, Vec<u8>)>, plan: Plan, most: usize) -> Self
        requires { 0 < most }
        ensures told { ⟦<MemShelf as Shelf>⟧.told result
            ≡ Some (record { files = files_of files.items; rest = None; target = None }) }
        ensures input { ⟦<MemShelf as Shelf>⟧.has_input result ≡ false }
        ensures output { ⟦<MemShelf as Shelf>⟧.has_output result ≡ false }
        ensures faults { ⟦<MemShelf as Shelf>⟧.faults result ≡ 0 }
        ensures lacked { shelf_lacked result ≡ 0 }
        ensures opens { (shelf_schedules result).opens ≡ record { listed = plan.opens; calls = 0 } }
        ensures reads { (shelf_schedules result).reads ≡ record { listed = plan.reads; calls = 0 } }
        ensures creates { (shelf_schedules result).creates ≡ record { listed = plan.creates; calls = 0 } }
        ensures writes { (shelf_schedules result).writes ≡ record { listed = plan.writes; calls = 0 } }
        ensures most { shelf_most result ≡ most }
    {
        let Plan {
            opens,
            reads,
            creates,
            writes,
        } = plan;
        MemShelf {
            alloc,
            files,
            input: None,
            output: None,
            schedules: Schedules {
                opens: Schedule::new(opens),
                reads: Schedule::new(reads),
                creates: Schedule::new(creates),
                writes: Schedule::new(writes),
            },
            most,
            tally: Tally::NONE,
        }
    }

    /// The bytes for which a name stands.
    pub fn file(&self, name: &str) -> Option<&[u8]>
        ensures { option_map (λ bytes. bytes.now) result ≡ map.get (shelf_contents self.now).files name.now }
    {
        stored(&self.files, name)
    }

    /// How often a call has failed for want of memory. It counts these alone, and a call that isn't listed fails only there.
    pub fn lacked(&self) -> u64
        ensures { result ≡ shelf_lacked self.now }
    {
        self.tally.lacked
    }
}

impl Shelf for MemShelf {
    ghost use Rattle.std.specs.Prelude.{Some, is_some};
    ghost use Rattle.std.proofs.Common.{rules};
    ghost use Rattle.lls_base.specs.Schedule.{is_due};
    ghost use Rattle.lls_base.specs.MemShelf.{shelf_contents, shelf_schedules, shelf_most, shelf_faults, shelf_lacked, after_open_call, after_read_call, after_create_call, after_write_call};

    ghost told = { λ shelf. Some (shelf_contents shelf) };

    ghost has_input = { λ shelf. is_some (shelf_contents shelf).rest };

    ghost has_output = { λ shelf. is_some (shelf_contents shelf).target };

    ghost faults = { shelf_faults };

    ghost agrees = { Prim.search rules };

    ghost faults_fit = { λ shelf. shelf.tally.faults_fit };

    fn open_input(&mut self, name: &str) -> Result<(), OpenFault>
        ensures told { shelf_contents self.new ≡ after_open name.now result (shelf_contents self.old) }
        ensures absent { OpensAsTold name.now result (shelf_contents self.old) }
        ensures input { is_some (shelf_contents self.new).rest ≡ is_ok result }
        ensures output { is_some (shelf_contents self.new).target ≡ is_some (shelf_contents self.old).target }
        ensures counts { Counts (shelf_faults self.old) (shelf_faults self.new) }
        ensures failed { IsErrOf result OpenFault.Failed → Rose (shelf_faults self.old) (shelf_faults self.new) }
        ensures absent_is_no_fault { IsErrOf result OpenFault.Absent → shelf_faults self.new ≡ shelf_faults self.old }
        ensures absent_lacks_nothing { IsErrOf result OpenFault.Absent → shelf_lacked self.new ≡ shelf_lacked self.old }

        // Each call that is listed fails, and no other does but for want of memory.
        ensures listed_lacks_nothing { IsTrue (is_due (shelf_schedules self.old).opens) → shelf_lacked self.new ≡ shelf_lacked self.old }
        ensures listed { IsTrue (is_due (shelf_schedules self.old).opens) → IsErrOf result OpenFault.Failed }
        ensures unlisted { IsErrOf result OpenFault.Failed
            → IsTrue (is_due (shelf_schedules self.old).opens) ⊎ Rose (shelf_lacked self.old) (shelf_lacked self.new) }
        ensures counted { shelf_schedules self.new ≡ after_open_call (shelf_schedules self.old) }
        ensures same_most { shelf_most self.new ≡ shelf_most self.old }
        ensures no_fault { OnOk result (shelf_faults self.new ≡ shelf_faults self.old) }
        ensures no_lack { OnOk result (shelf_lacked self.new ≡ shelf_lacked self.old) }
        ensures lacked_counts { Counts (shelf_lacked self.old) (shelf_lacked self.new) }
    {
        self.input = None;
        if self.schedules.opens.strikes() {
            self.tally.fail();
            return Err(OpenFault::Failed);
        }
        let Some(bytes) = stored(&self.files, name) else {
            return Err(OpenFault::Absent);
        };
        let Ok(bytes) = bytes.to_vec(self.alloc) else {
            self.tally.lack();
            return Err(OpenFault::Failed);
        };
        self.input = Some(Input { bytes, at: 0 });
        Ok(())
    }

    fn read(&mut self, buf: &mut [u8]) -> Result<usize, Failed>
        requires { IsTrue (is_some (shelf_contents self.old).rest) }
        ensures within { IfOk result (λ n. n ≤ length buf.old) }
        ensures told { shelf_contents self.new ≡ after_read result (shelf_contents self.old) }
        ensures front { IfOk result (λ n. IfSome (shelf_contents self.old).rest (λ rest. ReadsFront n rest buf.new)) }
        ensures input { is_some (shelf_contents self.new).rest ≡ is_some (shelf_contents self.old).rest }
        ensures output { is_some (shelf_contents self.new).target ≡ is_some (shelf_contents self.old).target }
        ensures counts { Counts (shelf_faults self.old) (shelf_faults self.new) }
        ensures failed { OnErr result (Rose (shelf_faults self.old) (shelf_faults self.new)) }

        // Each call that is listed fails, and no other does.
        ensures most { IfOk result (λ n. IfSome (shelf_contents self.old).rest
            (λ rest. n ≡ min (min (length rest) (length buf.old)) (shelf_most self.old))) }
        ensures behind { IfOk result (λ n. drop n buf.new ≡ drop n buf.old) }
        ensures listed { IsErr result ↔ IsTrue (is_due (shelf_schedules self.old).reads) }
        ensures counted { shelf_schedules self.new ≡ after_read_call (shelf_schedules self.old) }
        ensures same_most { shelf_most self.new ≡ shelf_most self.old }
        ensures no_fault { OnOk result (shelf_faults self.new ≡ shelf_faults self.old) }
        ensures lacked { shelf_lacked self.new ≡ shelf_lacked self.old }
    {
        if self.schedules.reads.strikes() {
            self.tally.fail();
            return Err(Failed);
        }
        match &mut self.input {
            Some(input) => Ok(input.read(buf, self.most)),
            None => unreachable!(),
        }
    }

    fn create_output(&mut self, name: &str) -> Result<(), Failed>
        ensures told { shelf_contents self.new ≡ after_create name.now result (shelf_contents self.old) }
        ensures input { is_some (shelf_contents self.new).rest ≡ is_some (shelf_contents self.old).rest }
        ensures output { is_some (shelf_contents self.new).target ≡ is_ok result }
        ensures counts { Counts (shelf_faults self.old) (shelf_faults self.new) }
        ensures failed { OnErr result (Rose (shelf_faults self.old) (shelf_faults self.new)) }

        // Each call that is listed fails, and no other does but for want of memory.
        ensures listed_lacks_nothing { IsTrue (is_due (shelf_schedules self.old).creates) → shelf_lacked self.new ≡ shelf_lacked self.old }
        ensures listed { IsTrue (is_due (shelf_schedules self.old).creates) → IsErr result }
        ensures unlisted { OnErr result
            (IsTrue (is_due (shelf_schedules self.old).creates) ⊎ Rose (shelf_lacked self.old) (shelf_lacked self.new)) }
        ensures counted { shelf_schedules self.new ≡ after_create_call (shelf_schedules self.old) }
        ensures same_most { shelf_most self.new ≡ shelf_most self.old }
        ensures no_fault { OnOk result (shelf_faults self.new ≡ shelf_faults self.old) }
        ensures no_lack { OnOk result (shelf_lacked self.new ≡ shelf_lacked self.old) }
        ensures lacked_counts { Counts (shelf_lacked self.old) (shelf_lacked self.new) }
    {
        self.output = None;
        if self.schedules.creates.strikes() {
            self.tally.fail();
            return Err(Failed);
        }
        let Ok(place) = empty_file(self.alloc, &mut self.files, name) else {
            self.tally.lack();
            return Err(Failed);
        };
        self.output = Some(place);
        Ok(())
    }

    fn write(&mut self, bytes: &[u8]) -> Result<usize, Failed>
        requires { IsTrue (is_some (shelf_contents self.old).target) }
        ensures within { IfOk result (λ n. n ≤ length bytes.now) }
        ensures told { shelf_contents self.new ≡ after_write bytes.now result (shelf_contents self.old) }
        ensures input { is_some (shelf_contents self.new).rest ≡ is_some (shelf_contents self.old).rest }
        ensures output { is_some (shelf_contents self.new).target ≡ is_some (shelf_contents self.old).target }
        ensures counts { Counts (shelf_faults self.old) (shelf_faults self.new) }
        ensures failed { OnErr result (Rose (shelf_faults self.old) (shelf_faults self.new)) }
        ensures none { TookNone result bytes.now → Rose (shelf_faults self.old) (shelf_faults self.new) }

        // Each call that is listed fails, and no other does but for want of memory.
        ensures most { IfOk result (λ n. n ≡ min (length bytes.now) (shelf_most self.old)) }
        ensures listed_lacks_nothing { IsTrue (is_due (shelf_schedules self.old).writes) → shelf_lacked self.new ≡ shelf_lacked self.old }
        ensures listed { IsTrue (is_due (shelf_schedules self.old).writes) → IsErr result }
        ensures unlisted { OnErr result
            (IsTrue (is_due (shelf_schedules self.old).writes) ⊎ Rose (shelf_lacked self.old) (shelf_lacked self.new)) }
        ensures counted { shelf_schedules self.new ≡ after_write_call (shelf_schedules self.old) }
        ensures same_most { shelf_most self.new ≡ shelf_most self.old }
        ensures no_fault { OnOk result (shelf_faults self.new ≡ shelf_faults self.old) }
        ensures no_lack { OnOk result (shelf_lacked self.new ≡ shelf_lacked self.old) }
        ensures lacked_counts { Counts (shelf_lacked self.old) (shelf_lacked self.new) }
    {
        if self.schedules.writes.strikes() {
            self.tally.fail();
            return Err(Failed);
        }
        let Some(place) = self.output else {
            unreachable!()
        };
        let taken = bytes.len().min(self.most);
        if append_at(&mut self.files, place, &bytes[..taken]).is_err() {
            self.tally.lack();
            return Err(Failed);
        }
        Ok(taken)
    }
}
