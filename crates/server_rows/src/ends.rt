//! Ends of a connection in memory.

use std::io;
use std::io::{Read, Write};

/// Takes one byte a call, and none once it has `room`.
#[derive(Drop)]
pub struct Narrow {
    pub bytes: Vec<u8>,
    pub room: usize,
}

impl Write for Narrow {
    fn write(&mut self, buf: &[u8]) -> io::Result<usize> {
        if self.bytes.len() >= self.room || buf.is_empty() {
            return Ok(0);
        }
        self.bytes.push(buf[0])?;
        Ok(1)
    }

    fn flush(&mut self) -> io::Result<()> {
        Ok(())
    }
}

/// Gives at most `size` bytes a call, and once they are over an error, or the end.
#[derive(Drop)]
pub struct Slow<'a> {
    pub bytes: &'a [u8],
    pub size: usize,
    pub fails: bool,
}

impl Read for Slow<'_> {
    fn read(&mut self, buf: &mut [u8]) -> io::Result<usize> {
        if self.bytes.is_empty() && self.fails {
            return Err(io::Error::from(io::ErrorKind::BrokenPipe));
        }
        let n = self.size.min(buf.len()).min(self.bytes.len());
        let (piece, rest) = self.bytes.split_at(n);
        buf[..n].copy_from_slice(piece);
        self.bytes = rest;
        Ok(n)
    }
}
