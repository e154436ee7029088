//! Writers. A writer of std keeps no record of a failure, so no contract over it can say that an
//! error came because a write failed. A `Sink` keeps one, and `put` writes all of a text to it.
ghost use Rattle.std.specs.Prelude.{◌≡◌, ◌≤◌, ◌<◌, ℕ, List, Bool, true, false, length, IfOk, OnOk};
ghost use Rattle.std.specs.Prelude.{OnErr, Option};
ghost use Rattle.std.specs.Io.KnownBytes.{Appends, WriteAppends};
ghost use Rattle.pb_sorts.specs.Sink.{AppendsPrefix};

use pb_base::Fault;
use std::fmt;
use std::io::Write;

/// E02: writing failed, or a writer took nothing of a piece that isn't empty.
#[derive(Clone, Copy, Debug, PartialEq, Eq)]
pub struct E02;

impl Fault for E02 {}

impl fmt::Display for E02 {
    ghost use Rattle.std.specs.Prelude.{Some, codes};

    ghost output = { λ _. Some (codes "E02") };

    fn fmt<W: fmt::Write>(&self, f: &mut fmt::Formatter<W>) -> fmt::Result {
        f.write_str("E02")
    }
}

impl std::error::Error for E02 {}

/// A writer that remembers that it failed.
pub trait Sink {
    // The bytes that were taken so far, where the writer tells them.
    ghost taken: { Self → Option (List ℕ) };

    // Whether some write failed.
    ghost has_failed: { Self → Bool };

    /// Takes some bytes from the front of `bytes` and answers how many: at least one, unless
    /// `bytes` is empty. After `E02` nothing was taken, and the sink has failed for good.
    fn write(&mut self, bytes: &[u8]) -> Result<usize, E02>
        ensures within { IfOk result (λ n. n ≤ length bytes.now) }
        ensures some { IfOk result (λ n. 0 < length bytes.now → 0 < n) }
        ensures bytes { WriteAppends (taken self.old) (taken self.new) result bytes.now }
        ensures ok_failed { OnOk result (has_failed self.new ≡ has_failed self.old) }
        ensures err_failed { OnErr result (has_failed self.new ≡ true) };

    /// Whether some write failed.
    fn failed(&self) -> bool
        ensures { result ≡ has_failed self.now };
}

/// A `Sink` over a writer of std.
#[derive(Drop)]
pub struct Out<W> {
    inner: W,
    failed: bool,
}

impl<W: Write> Out<W> {
    /// A sink that has not failed, over `inner`.
    pub fn new(inner: W) -> Out<W>
        ensures taken { ⟦<Out<W> as Sink>⟧.taken result ≡ W.contents inner }
        ensures failed { ⟦<Out<W> as Sink>⟧.has_failed result ≡ false }
    {
        Out {
            inner,
            failed: false,
        }
    }
}

impl<W: Write> Sink for Out<W> {
    ghost use Rattle.pb_sorts.specs.Out.{writer_of, is_failed};

    ghost taken = { λ s. W.contents (writer_of s) };

    ghost has_failed = { λ s. is_failed s };

    fn write(&mut self, bytes: &[u8]) -> Result<usize, E02> {
        match self.inner.write(bytes) {
            Ok(0) if !bytes.is_empty() => {
                self.failed = true;
                Err(E02)
            }
            Ok(n) => Ok(n),
            Err(_) => {
                self.failed = true;
                Err(E02)
            }
        }
    }

    fn failed(&self) -> bool {
        self.failed
    }
}

/// Writes all of `bytes`, by as many writes as it takes.
///
/// `E02` comes only where one of these writes answered it; then a part that begins `bytes`, and not
/// the whole of it, went out.
pub fn put<S: Sink>(bytes: &[u8], writer: &mut S) -> Result<(), E02>
    ensures all { OnOk result (Appends (S.taken writer.old) (S.taken writer.new) bytes.now) }
    ensures ok_failed { OnOk result (S.has_failed writer.new ≡ S.has_failed writer.old) }
    ensures prefix { OnErr result (AppendsPrefix (S.taken writer.old)
        (S.taken writer.new) bytes.now) }
    ensures err_failed { OnErr result (S.has_failed writer.new ≡ true) }
{
    let mut sent = 0;
    while sent < bytes.len() {
        sent += writer.write(&bytes[sent..])?;
    }
    Ok(())
}
