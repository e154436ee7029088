//! Reading the whole input, up to its limit.
ghost use Rattle.std.specs.Prelude.{◌≡◌, ◌≢◌, ◌≤◌, true, IfOk, OnOk, IfErr, Err, vec_len};
ghost use Rattle.pb_sorts.specs.Source.{IsWhole, IsLongerThan};
ghost use Rattle.pb_base.specs.declared.or_memory.OrMemory.TheVariants.{Refused};
ghost use Rattle.pb_sorts.specs.declared.input.InputFault.TheVariants.{Failed, TooLong};
ghost use Rattle.pb_sorts.specs.Reading.{ReadsAtMost};

use crate::Source;
use pb_base::{Fault, MAX_INPUT_BYTES, OrMemory};
use std::alloc::Global;

// So many bytes are asked for at a time.
const PIECE: usize = 65_536;

/// What is wrong with the input before anything is read in it.
#[derive(Clone, Copy)]
pub enum InputFault {
    /// E01: reading failed.
    Failed,
    /// U02: there are more bytes than `MAX_INPUT_BYTES`.
    TooLong,
}

impl Fault for InputFault {}

/// Why there is no input.
pub type InputError = OrMemory<InputFault>;

/// Reads to the end of the input.
///
/// # Errors
/// Reading failed (E01), or there are more bytes than `MAX_INPUT_BYTES` (U02), whichever the
/// reading meets first; or memory was refused.
pub fn read_input<R: Source>(alloc: Global, reader: &mut R) -> Result<Vec<u8>, InputError>
    ensures short { IfOk result (λ text. vec_len text ≤ MAX_INPUT_BYTES) }
    ensures whole { IfOk result (λ text. IsWhole (R.left reader.old) text.items) }
    ensures too_long { result ≡ Err (Refused TooLong) →
        IsLongerThan MAX_INPUT_BYTES (R.left reader.old) }
    ensures failed { result ≡ Err (Refused Failed) → R.has_failed reader.new ≡ true }
    ensures failed_within { result ≡ Err (Refused Failed) →
        ReadsAtMost MAX_INPUT_BYTES (R.left reader.old) (R.left reader.new) }
    ensures ok_failed { OnOk result (R.has_failed reader.new ≡ R.has_failed reader.old) }
    ensures err_failed { IfErr result (λ e. e ≢ Refused Failed →
        R.has_failed reader.new ≡ R.has_failed reader.old) }
{
    let mut text = Vec::new(alloc);
    let mut piece = [0u8; PIECE];
    loop {
        let Ok(n) = reader.read(&mut piece) else {
            return Err(InputFault::Failed.into());
        };
        if n == 0 {
            return Ok(text);
        }
        if n > MAX_INPUT_BYTES - text.len() {
            return Err(InputFault::TooLong.into());
        }
        text.extend_from_slice(&piece[..n])?;
    }
}
