//! Files by their names. As a `Source` does, they remember what couldn't be read.
ghost use Rattle.std.specs.Prelude.{◌≡◌, ◌≢◌, ◌≤◌, ℕ, List, Bool, true, false, Option, Err, IfOk};
ghost use Rattle.std.specs.Prelude.{vec_len};
ghost use Rattle.pb_base.specs.declared.or_memory.OrMemory.TheVariants.{Refused};
ghost use Rattle.pb_sorts.specs.Source.{IsWhole, IsLongerThan};
ghost use Rattle.pb_sorts.specs.declared.input.InputFault.TheVariants.{Failed, TooLong};

use pb_base::MAX_INPUT_BYTES;
use pb_sorts::{In, InputError, InputFault, read_input};
use std::alloc::Global;
use std::io::ErrorKind;
use std::rt::Files;
use std::{fs, io};

/// Files that are read by their names.
pub trait NamedFiles {
    // The bytes of the file of a name, where they are known.
    ghost contents: { Self → List ℕ → Option (List ℕ) };

    // Whether the file of a name couldn't be read.
    ghost has_failed: { Self → List ℕ → Bool };

    /// Reads a file to its end.
    ///
    /// # Errors
    /// It can't be read (E01), or there are more bytes than `MAX_INPUT_BYTES` (U02), whichever the
    /// reading meets first; or memory was refused.
    fn read(&mut self, alloc: Global, name: &str) -> Result<Vec<u8>, InputError>
        ensures short { IfOk result (λ text. vec_len text ≤ MAX_INPUT_BYTES) }
        ensures whole { IfOk result (λ text. IsWhole (contents self.old name.now) text.items) }
        ensures too_long { result ≡ Err (Refused TooLong) →
            IsLongerThan MAX_INPUT_BYTES (contents self.old name.now) }
        ensures failed { result ≡ Err (Refused Failed) → has_failed self.new name.now ≡ true }
        ensures lasts { (other : List ℕ) → has_failed self.old other ≡ true →
            has_failed self.new other ≡ true }
        ensures kept { result ≢ Err (Refused Failed) → (other : List ℕ) →
            has_failed self.new other ≡ has_failed self.old other }
        ensures same { (other : List ℕ) → contents self.new other ≡ contents self.old other };
}

/// The files of the system, of whose bytes nothing is known; `-` is standard input. They remember
/// whether one of them couldn't be read, and not which.
#[derive(Drop)]
pub struct SystemFiles<'a, R> {
    rt: &'a R,
    failed: bool,
}

impl<'a, R: Files + Input> SystemFiles<'a, R> {
    /// The files that a runtime opens.
    pub fn new(rt: &'a R) -> SystemFiles<'a, R>
        ensures { (name : List ℕ) →
            ⟦<SystemFiles<'a, R> as NamedFiles>⟧.has_failed result name ≡ false }
    {
        SystemFiles { rt, failed: false }
    }
}

// Why a file can't be opened: no memory for it, or whatever else.
fn open_error(error: &io::Error) -> InputError {
    if error.kind() == ErrorKind::OutOfMemory {
        InputError::Memory
    } else {
        InputFault::Failed.into()
    }
}

// The bytes of a file of the system, or of standard input.
fn read_system<R: Files + Input>(rt: &R, alloc: Global, name: &str) -> Result<Vec<u8>, InputError>
    ensures short { IfOk result (λ text. vec_len text ≤ MAX_INPUT_BYTES) }
{
    if name == "-" {
        return read_input(alloc, &mut In::new(rt.reader()));
    }
    match fs::open(rt, name) {
        Ok(file) => read_input(alloc, &mut In::new(file)),
        Err(error) => Err(open_error(&error)),
    }
}

impl<R: Files + Input> NamedFiles for SystemFiles<'_, R> {
    ghost use Rattle.std.specs.Prelude.{None};
    ghost use Rattle.pb_command_files.specs.Named.{has_lost_file};

    ghost contents = { λ _ _. None };

    ghost has_failed = { λ s _. has_lost_file s };

    fn read(&mut self, alloc: Global, name: &str) -> Result<Vec<u8>, InputError> {
        let read = read_system(self.rt, alloc, name);
        if let Err(InputError::Refused(InputFault::Failed)) = &read {
            self.failed = true;
        }
        read
    }
}
