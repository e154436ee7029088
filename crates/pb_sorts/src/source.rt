//! Readers. A reader of std keeps no record of a failure, so no contract over it can say that an
//! error came because a read failed. A `Source` keeps one.
ghost use Rattle.std.specs.Prelude.{◌≡◌, ◌≤◌, ℕ, List, Bool, true, false, length, IfOk, OnOk};
ghost use Rattle.std.specs.Prelude.{OnErr, Option};
ghost use Rattle.std.specs.Io.KnownBytes.{ReadConsumes};

use std::fmt;
use std::io::Read;

/// E01: reading failed.
#[derive(Clone, Copy, Debug, PartialEq, Eq)]
pub struct E01;

impl fmt::Display for E01 {
    ghost use Rattle.std.specs.Prelude.{Some, codes};

    ghost output = { λ _. Some (codes "E01") };

    fn fmt<W: fmt::Write>(&self, f: &mut fmt::Formatter<W>) -> fmt::Result {
        f.write_str("E01")
    }
}

impl std::error::Error for E01 {}

/// A reader that remembers that it failed.
pub trait Source {
    // The bytes that reads will give, where they are known.
    ghost left: { Self → Option (List ℕ) };

    // Whether some read failed.
    ghost has_failed: { Self → Bool };

    /// Puts the next bytes at the front of `buffer` and answers how many: none only at the end, or
    /// where `buffer` is empty. After `E01` no byte is lost, and the source has failed for good.
    fn read(&mut self, buffer: &mut [u8]) -> Result<usize, E01>
        ensures within { IfOk result (λ n. n ≤ length buffer.new) }
        ensures bytes { ReadConsumes (left self.old) (left self.new) result buffer.new }
        ensures ok_failed { OnOk result (has_failed self.new ≡ has_failed self.old) }
        ensures err_failed { OnErr result (has_failed self.new ≡ true) };

    /// Whether some read failed.
    fn failed(&self) -> bool
        ensures { result ≡ has_failed self.now };
}

/// A `Source` over a reader of std.
#[derive(Drop)]
pub struct In<R> {
    inner: R,
    failed: bool,
}

impl<R: Read> In<R> {
    /// A source that has not failed, over `inner`.
    pub fn new(inner: R) -> In<R>
        ensures left { ⟦<In<R> as Source>⟧.left result ≡ R.remaining inner }
        ensures failed { ⟦<In<R> as Source>⟧.has_failed result ≡ false }
    {
        In {
            inner,
            failed: false,
        }
    }
}

impl<R: Read> Source for In<R> {
    ghost use Rattle.pb_sorts.specs.In.{reader_of, is_failed};

    ghost left = { λ s. R.remaining (reader_of s) };

    ghost has_failed = { λ s. is_failed s };

    fn read(&mut self, buffer: &mut [u8]) -> Result<usize, E01> {
        match self.inner.read(buffer) {
            Ok(n) => Ok(n),
            Err(_) => {
                self.failed = true;
                Err(E01)
            }
        }
    }

    fn failed(&self) -> bool {
        self.failed
    }
}
