// A shelf over the system's files. No more is known of it than that it counts its faults.
ghost use Rattle.std.specs.Prelude.{◌≡◌, ◌<◌, ◌^◌, None, false, is_some};

use crate::{Failed, OpenFault, Shelf};
use std::fs;
use std::io::{ErrorKind, Read, Write};
use std::rt::Files;

/// The files of the system. A name is a path.
#[derive(Drop)]
pub struct DiskShelf<R: Files> {
    rt: R,
    input: Option<R::File>,
    output: Option<R::File>,
    faults: u64,
    ghost faults_fit: { faults < 2 ^ 64 },
}

impl<R: Files> DiskShelf<R> {
    pub fn new(rt: R) -> Self
        ensures input { ⟦<DiskShelf<R> as Shelf>⟧.has_input result ≡ false }
        ensures output { ⟦<DiskShelf<R> as Shelf>⟧.has_output result ≡ false }
        ensures faults { ⟦<DiskShelf<R> as Shelf>⟧.faults result ≡ 0 }
    {
        DiskShelf {
            rt,
            input: None,
            output: None,
            faults: 0,
        }
    }

    /// How often a call has failed.
    pub fn faults(&self) -> u64
        ensures { result ≡ ⟦<DiskShelf<R> as Shelf>⟧.faults self.now }
    {
        self.faults
    }
}

impl<R: Files> Shelf for DiskShelf<R> {
    ghost told = { λ _. None };

    ghost has_input = { λ shelf. is_some shelf.input };

    ghost has_output = { λ shelf. is_some shelf.output };

    ghost faults = { λ shelf. shelf.faults };

    ghost agrees = { λ _. tt };

    ghost faults_fit = { λ shelf. shelf.faults_fit };

    fn open_input(&mut self, name: &str) -> Result<(), OpenFault> {
        self.input = None;
        match fs::open(&self.rt, name) {
            Ok(file) => {
                self.input = Some(file);
                Ok(())
            }
            Err(error) if error.kind() == ErrorKind::NotFound => Err(OpenFault::Absent),
            Err(_) => {
                self.faults = self.faults.saturating_add(1);
                Err(OpenFault::Failed)
            }
        }
    }

    fn read(&mut self, buf: &mut [u8]) -> Result<usize, Failed> {
        let Some(file) = &mut self.input else {
            unreachable!()
        };
        match file.read(buf) {
            Ok(taken) => Ok(taken),
            Err(_) => {
                self.faults = self.faults.saturating_add(1);
                Err(Failed)
            }
        }
    }

    fn create_output(&mut self, name: &str) -> Result<(), Failed> {
        self.output = None;
        match fs::create(&self.rt, name) {
            Ok(file) => {
                self.output = Some(file);
                Ok(())
            }
            Err(_) => {
                self.faults = self.faults.saturating_add(1);
                Err(Failed)
            }
        }
    }

    fn write(&mut self, bytes: &[u8]) -> Result<usize, Failed> {
        let Some(file) = &mut self.output else {
            unreachable!()
        };
        match file.write(bytes) {
            Ok(taken) if taken > 0 || bytes.is_empty() => Ok(taken),
            _ => {
                self.faults = self.faults.saturating_add(1);
                Err(Failed)
            }
        }
    }
}
