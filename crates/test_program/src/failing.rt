//! Readers that fail.
use std::io;
use std::io::{ErrorKind, Read};

/// Gives `bytes`, in pieces of one byte, and fails once `left` of them were given.
#[derive(Drop)]
pub struct Failing<'a> {
    pub bytes: &'a [u8],
    pub left: usize,
}

impl Read for Failing<'_> {
    fn read(&mut self, buf: &mut [u8]) -> io::Result<usize> {
        if self.left == 0 {
            return Err(io::Error::from(ErrorKind::Other));
        }
        let Some((first, rest)) = self.bytes.split_first() else {
            return Ok(0);
        };
        let Some(place) = buf.first_mut() else {
            return Ok(0);
        };
        *place = *first;
        self.bytes = rest;
        self.left -= 1;
        Ok(1)
    }
}

/// Fails at each read.
#[derive(Drop)]
pub struct Broken;

impl Read for Broken {
    fn read(&mut self, _buf: &mut [u8]) -> io::Result<usize> {
        Err(io::Error::from(ErrorKind::Other))
    }
}
