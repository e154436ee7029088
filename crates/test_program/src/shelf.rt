//! Files in memory.
ghost use Rattle.std.specs.Prelude.{None};

use pb_command_files::NamedFiles;
use pb_sorts::{In, InputError, InputFault, read_input};
use std::alloc::Global;

/// Names with the bytes of their files; a file of another name can't be read.
#[derive(Drop)]
pub struct Shelf<'a> {
    pub files: &'a [(&'a str, &'a [u8])],
    pub failed: bool,
}

impl<'a> Shelf<'a> {
    /// The files, of which none has failed.
    pub fn of(files: &'a [(&'a str, &'a [u8])]) -> Shelf<'a> {
        Shelf {
            files,
            failed: false,
        }
    }

    // The bytes of a file, where it is there.
    fn bytes(&self, name: &str) -> Option<&'a [u8]> {
        for (other, bytes) in self.files {
            if *other == name {
                return Some(*bytes);
            }
        }
        None
    }
}

impl NamedFiles for Shelf<'_> {
    ghost contents = { λ _ _. None };

    ghost has_failed = { λ s _. s.failed };

    fn read(&mut self, alloc: Global, name: &str) -> Result<Vec<u8>, InputError> {
        let read = match self.bytes(name) {
            Some(bytes) => read_input(alloc, &mut In::new(bytes)),
            None => Err(InputFault::Failed.into()),
        };
        if let Err(InputError::Refused(InputFault::Failed)) = &read {
            self.failed = true;
        }
        read
    }
}
