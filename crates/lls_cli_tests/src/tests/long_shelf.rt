// A shelf whose file `p` goes on with blanks that it makes as they are read.
use lls_base::{Failed, OpenFault, Shelf};

/// A shelf with the files `f` and `p`, the second of which has so many blanks behind its bytes. It tells nothing, and forgets
/// what is written to it.
#[derive(Drop)]
pub struct LongShelf {
    problem: &'static [u8],
    proof: &'static [u8],
    blanks: u64,
    is_open: bool,
    front: &'static [u8],
    left: u64,
    is_written: bool,
}

impl LongShelf {
    pub fn new(problem: &'static [u8], proof: &'static [u8], blanks: u64) -> LongShelf {
        LongShelf {
            problem,
            proof,
            blanks,
            is_open: false,
            front: b"",
            left: 0,
            is_written: false,
        }
    }
}

impl Shelf for LongShelf {
    ghost use Rattle.std.specs.Prelude.{None};
    ghost use Rattle.std.proofs.Common.{rules};

    ghost told = { λ _. None };

    ghost has_input = { λ shelf. shelf.is_open };

    ghost has_output = { λ shelf. shelf.is_written };

    ghost faults = { λ _. 0 };

    ghost agrees = { λ _. tt };

    ghost faults_fit = { Prim.search rules };

    fn open_input(&mut self, name: &str) -> Result<(), OpenFault> {
        self.is_open = false;
        (self.front, self.left) = match name {
            "f" => (self.problem, 0),
            "p" => (self.proof, self.blanks),
            _ => return Err(OpenFault::Absent),
        };
        self.is_open = true;
        Ok(())
    }

    fn read(&mut self, buf: &mut [u8]) -> Result<usize, Failed> {
        let count = self.front.len().min(buf.len());
        if count > 0 {
            buf[..count].copy_from_slice(&self.front[..count]);
            self.front = &self.front[count..];
            return Ok(count);
        }
        let made = self.left.min(buf.len() as u64) as usize;
        buf[..made].fill(b' ');
        self.left -= made as u64;
        Ok(made)
    }

    fn create_output(&mut self, _name: &str) -> Result<(), Failed> {
        self.is_written = true;
        Ok(())
    }

    fn write(&mut self, bytes: &[u8]) -> Result<usize, Failed> {
        Ok(bytes.len())
    }
}
