//! A writer of texts to a sink, through a buffer whose memory is taken once, before the first byte
//! goes out.
ghost use Rattle.std.specs.Prelude.{◌≡◌, ◌≤◌, ◌+◌, ◌++◌, IfOk, OnOk, [], decimal};
ghost use Rattle.std.specs.Prelude.{length, vec_len, vec_capacity};
ghost use Rattle.pb_report.specs.declared.buffer.TheConstants.{CAPACITY};

use itoa::Buffer;
use pb_base::OrMemory;
use pb_sorts::{E02, Sink, put};
use std::alloc::{AllocError, Global};

/// Why a text was not written: a write failed, and a part that begins the text went out; or memory
/// was wanting, and nothing did.
pub type WriteError = OrMemory<E02>;

/// How many bytes a buffer holds.
pub const CAPACITY: usize = 65_536;

/// Bytes on their way to a sink.
#[derive(Drop)]
pub struct TextBuffer {
    pub bytes: Vec<u8>,
    pub ghost room: { CAPACITY ≤ vec_capacity bytes },
    pub ghost within: { vec_len bytes ≤ CAPACITY },
}

/// Adds text where there is room for it.
fn append(bytes: &mut Vec<u8>, text: &[u8])
    requires { vec_len bytes.old + length text.now ≤ vec_capacity bytes.old }
    ensures items { bytes.new.items ≡ bytes.old.items ++ text.now }
    ensures capacity { vec_capacity bytes.old ≤ vec_capacity bytes.new }
{
    match bytes.extend_from_slice(text) {
        Ok(()) => {}
        Err(_) => unreachable!(),
    }
}

impl TextBuffer {
    /// An empty buffer.
    pub fn new(alloc: Global) -> Result<TextBuffer, AllocError>
        ensures { IfOk result (λ buffer. buffer.bytes.items ≡ []) }
    {
        Ok(TextBuffer {
            bytes: Vec::with_capacity(alloc, CAPACITY)?,
        })
    }
}

/// A sink, with the bytes that are on their way there.
#[derive(Drop)]
pub struct TextWriter<'a, S> {
    pub buffer: &'a mut TextBuffer,
    pub sink: &'a mut S,
}

impl<S: Sink> TextWriter<'_, S> {
    ghost use Rattle.std.specs.Fmt.{signed_decimal};
    ghost use Rattle.pb_report.specs.Sending.{GoOut, Sends};

    /// Sends text after that which is in the buffer.
    pub fn write(&mut self, text: &[u8]) -> Result<(), E02>
        ensures { Sends text.now result S.Sink self.old self.new }
    {
        let buffer = &mut *self.buffer;
        if text.len() > CAPACITY - buffer.bytes.len() {
            put(&buffer.bytes, self.sink)?;
            buffer.bytes.clear();
            if text.len() > CAPACITY {
                return put(text, self.sink);
            }
        }
        append(&mut buffer.bytes, text);
        Ok(())
    }

    /// Sends a number in decimal.
    pub fn write_number(&mut self, number: u32) -> Result<(), E02>
        ensures { Sends (decimal number) result S.Sink self.old self.new }
    {
        let mut digits = Buffer::new();
        self.write(digits.format(number).as_bytes())
    }

    /// Sends a number in decimal, which may be below 0.
    pub fn write_signed(&mut self, number: i64) -> Result<(), E02>
        ensures { Sends (signed_decimal number) result S.Sink self.old self.new }
    {
        let mut digits = Buffer::new();
        self.write(digits.format(number).as_bytes())
    }

    /// Sends what is in the buffer.
    pub fn finish(&mut self) -> Result<(), E02>
        ensures same_sink { self.new.sink.ghost_name ≡ self.old.sink.ghost_name }
        ensures written { GoOut self.old.buffer.now.bytes.items result S.Sink
            self.old.sink.now self.new.sink.now }
        ensures empty { OnOk result (self.new.buffer.now.bytes.items ≡ []) }
    {
        let buffer = &mut *self.buffer;
        put(&buffer.bytes, self.sink)?;
        buffer.bytes.clear();
        Ok(())
    }
}
