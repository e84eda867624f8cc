// Named files, of which one at a time is read and one at a time is written.
ghost use Rattle.std.specs.Prelude.{◌≡◌, OnOk, ◌<◌, ◌≤◌, ◌^◌, ℕ, Bool, true, false, is_ok, length, IsTrue, IfOk, IsErrOf, OnErr, IfSome, Option, List};
ghost use Rattle.std.specs.Option.{option_map};
ghost use Rattle.lls_base.specs.Faults.{Counts, Rose};
ghost use Rattle.lls_base.specs.Sink.{TookNone};
ghost use Rattle.lls_base.specs.Shelf.{Contents, Agrees, OpensAsTold, ReadsFront, after_open, after_read, after_create, after_write};

use crate::Failed;

/// Why an input wasn't opened.
#[derive(Clone, Copy, Debug, PartialEq, Eq)]
pub enum OpenFault {
    /// There is no file of that name. This is no fault of the shelf.
    Absent,
    /// The call failed.
    Failed,
}

/// Files by name, the one that is being read and the one that is being written.
/// The count of faults rises where a call fails, and where one succeeds it stays.
/// A new shelf has no current input and no current output.
pub trait Shelf {
    /// The files, what is left of the input and the output's name, where the shelf tells them: all or none.
    ghost told: { Self → Option Contents };

    ghost has_input: { Self → Bool };

    ghost has_output: { Self → Bool };

    /// How often a call has failed.
    ghost faults: { Self → ℕ };

    /// Makes the file of that name the current input, from its first byte on.
    fn open_input(&mut self, name: &str) -> Result<(), OpenFault>
        ensures told { told self.new ≡ option_map (after_open name.now result) (told self.old) }
        ensures absent { IfSome (told self.old) (OpensAsTold name.now result) }
        ensures input { has_input self.new ≡ is_ok result }
        ensures output { has_output self.new ≡ has_output self.old }
        ensures counts { Counts (faults self.old) (faults self.new) }
        ensures failed { IsErrOf result OpenFault.Failed → Rose (faults self.old) (faults self.new) }
        ensures absent_is_no_fault { IsErrOf result OpenFault.Absent → faults self.new ≡ faults self.old }
        ensures no_fault { OnOk result (faults self.new ≡ faults self.old) };

    /// Takes some first bytes of what is left into the front of the buffer, and answers how many:
    /// none only at the end of the input, or with an empty buffer.
    fn read(&mut self, buf: &mut [u8]) -> Result<usize, Failed>
        requires { IsTrue (has_input self.old) }
        ensures within { IfOk result (λ n. n ≤ length buf.old) }
        ensures told { told self.new ≡ option_map (after_read result) (told self.old) }
        ensures front { IfOk result (λ n. IfSome (told self.old) (λ c. IfSome c.rest (λ rest. ReadsFront n rest buf.new))) }
        ensures input { has_input self.new ≡ has_input self.old }
        ensures output { has_output self.new ≡ has_output self.old }
        ensures counts { Counts (faults self.old) (faults self.new) }
        ensures failed { OnErr result (Rose (faults self.old) (faults self.new)) }
        ensures no_fault { OnOk result (faults self.new ≡ faults self.old) };

    /// Makes the name stand for no bytes, and makes it the current output.
    fn create_output(&mut self, name: &str) -> Result<(), Failed>
        ensures told { told self.new ≡ option_map (after_create name.now result) (told self.old) }
        ensures input { has_input self.new ≡ has_input self.old }
        ensures output { has_output self.new ≡ is_ok result }
        ensures counts { Counts (faults self.old) (faults self.new) }
        ensures failed { OnErr result (Rose (faults self.old) (faults self.new)) }
        ensures no_fault { OnOk result (faults self.new ≡ faults self.old) };

    /// Appends some first bytes of the piece to the current output, and answers how many.
    fn write(&mut self, bytes: &[u8]) -> Result<usize, Failed>
        requires { IsTrue (has_output self.old) }
        ensures within { IfOk result (λ n. n ≤ length bytes.now) }
        ensures told { told self.new ≡ option_map (after_write bytes.now result) (told self.old) }
        ensures input { has_input self.new ≡ has_input self.old }
        ensures output { has_output self.new ≡ has_output self.old }
        ensures counts { Counts (faults self.old) (faults self.new) }

        // `Failed`, and none taken of a piece that isn't empty, are faults. Some taken is none.
        ensures failed { OnErr result (Rose (faults self.old) (faults self.new)) }
        ensures none { TookNone result bytes.now → Rose (faults self.old) (faults self.new) }
        ensures no_fault { IfOk result (λ n. 0 < n → faults self.new ≡ faults self.old) };

    /// Whether there is an input and an output is as told.
    ghost agrees: { (shelf : Self) → IfSome (told shelf) (Agrees (has_input shelf) (has_output shelf)) };

    /// A count of faults has 64 bits.
    ghost faults_fit: { (shelf : Self) → faults shelf < 2 ^ 64 };
}
