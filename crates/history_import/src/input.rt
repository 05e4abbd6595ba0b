//! The text of an import, as the kit's `csv` reads it.

use counted_io::Counted;
use std::io;
use std::io::{ErrorKind, Read};

/// A counted reader that is lent.
#[derive(Drop)]
pub struct Lent<'a, R> {
    pub(crate) input: &'a mut Counted<R>,
}

impl<R: Read> Read for Lent<'_, R> {
    ghost remaining = { λ lent. R.remaining lent.input.now.inner };

    fn read(&mut self, buf: &mut [u8]) -> io::Result<usize> {
        if buf.is_empty() {
            return Ok(0);
        }
        match self.input.read_piece(buf) {
            Ok(n) => Ok(n),
            Err(_) => Err(io::Error::from(ErrorKind::Other)),
        }
    }
}
