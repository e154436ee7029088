//! A sink in memory.
ghost use Rattle.std.specs.Prelude.{◌≡◌, false, [], Some};

use pb_sorts::{E02, Sink};
use std::alloc::Global;

/// A sink that keeps the bytes. It fails only where memory for them is refused.
#[derive(Drop)]
pub struct Buffer {
    bytes: Vec<u8>,
    failed: bool,
}

impl Buffer {
    /// A sink that has no byte so far, and has not failed.
    pub fn new(alloc: Global) -> Buffer
        ensures taken { ⟦<Buffer as Sink>⟧.taken result ≡ Some [] }
        ensures failed { ⟦<Buffer as Sink>⟧.has_failed result ≡ false }
    {
        Buffer {
            bytes: Vec::new(alloc),
            failed: false,
        }
    }

    /// The bytes that were taken.
    pub fn into_bytes(self) -> Vec<u8>
        ensures { Some result.items ≡ ⟦<Buffer as Sink>⟧.taken self }
    {
        self.bytes
    }
}

impl Sink for Buffer {
    ghost use Rattle.std.specs.Prelude.{Some};
    ghost use Rattle.pb_command_files.specs.Buffer.{kept_bytes, was_refused_memory};

    ghost taken = { λ s. Some (kept_bytes s) };

    ghost has_failed = { λ s. was_refused_memory s };

    fn write(&mut self, bytes: &[u8]) -> Result<usize, E02> {
        match self.bytes.extend_from_slice(bytes) {
            Ok(()) => Ok(bytes.len()),
            Err(_) => {
                self.failed = true;
                Err(E02)
            }
        }
    }

    fn failed(&self) -> bool {
        self.failed
    }
}
