//! The real shelf: files of the system, and standard input under the name `stdin`. What a file holds
//! no contract can say; this is trusted to read it.
ghost use Rattle.std.specs.Prelude.{◌≡◌, ◌≤◌, None, is_some, false, length, IfOk};

use crate::outside::{Failed, Shelf};
use std::fs::File;
use std::io;
use std::io::Read;
use std::rt::{HostRuntime, Stdin};

// What is read from.
#[derive(Drop)]
enum Source {
    File(File),
    Input(Stdin),
}

impl Source {
    fn read(&mut self, buf: &mut [u8]) -> io::Result<usize>
        ensures { IfOk result (λ count. count ≤ length buf.new) }
    {
        match self {
            Source::File(file) => file.read(buf),
            Source::Input(input) => input.read(buf),
        }
    }
}

/// Files by their paths. A path that can't be opened counts as a fault, as a read that fails does.
#[derive(Drop)]
pub struct FileShelf<'a> {
    rt: &'a HostRuntime,
    source: Option<Source>,
    faults: u64,
    given: u64,
}

impl<'a> FileShelf<'a> {
    /// A shelf of which nothing was begun.
    pub fn new(rt: &'a HostRuntime) -> FileShelf<'a>
        ensures { is_some result.source ≡ false }
    {
        FileShelf {
            rt,
            source: None,
            faults: 0,
            given: 0,
        }
    }
}

impl<'a> Shelf for FileShelf<'a> {
    ghost content = { λ _. None };

    ghost left = { λ _. None };

    ghost begun = { λ shelf. is_some shelf.source };

    ghost faults = { λ shelf. shelf.faults };

    ghost given = { λ shelf. shelf.given };

    fn begin(&mut self, name: &str) -> Result<(), Failed> {
        self.source = None;
        if name == "stdin" {
            self.source = Some(Source::Input(self.rt.stdin()));
            return Ok(());
        }
        match File::open(self.rt, name) {
            Ok(file) => {
                self.source = Some(Source::File(file));
                Ok(())
            }
            Err(_) => {
                self.faults = self.faults.saturating_add(1);
                Err(Failed)
            }
        }
    }

    fn pull(&mut self, buf: &mut [u8]) -> Result<usize, Failed> {
        let given = self.given;
        let Some(source) = &mut self.source else {
            unreachable!()
        };
        match source.read(buf) {
            Ok(count) => {
                self.given = given.saturating_add(count as u64);
                Ok(count)
            }
            Err(_) => {
                self.faults = self.faults.saturating_add(1);
                Err(Failed)
            }
        }
    }
}
