//! Readers and writers whose failed calls are counted.

ghost use Rattle.std.specs.Prelude.{◌≡◌, ◌≢◌, ◌≤◌, ◌<◌, ◌-◌, ◌++◌, ◌∷◌, length, take, drop, [], IfOk, IfErr, OnOk, OnErr, IsErrOf, Err};
ghost use Rattle.std.specs.IoError.{error_kind};
ghost use Rattle.std.specs.Io.KnownBytes.{Appends, Consumes, IsAtEnd, Keeps};
ghost use Rattle.counted_io.specs.Bytes.{AppendsPart, counted};

use crate::fault::ServeFault;
use std::io;
use std::io::{ErrorKind, Read, Write};
use std::marker::Model;

/// A reader or a writer, and how many of its calls failed, at most 2^64 - 1. The count rises where a call fails, and
/// nothing else can change it. A call that was interrupted didn't fail: it is tried again.
#[derive(Debug, Drop)]
pub struct Counted<T> {
    inner: T,
    faults: u64,
}

impl<T> Model for Counted<T> {
    ghost use Rattle.counted_io.specs.Tally.{Tally};

    ghost Value = { Tally T };

    ghost view = { λ c. record { inner = c.inner; faults = c.faults } };
}

impl<T> Counted<T> {
    /// No call has failed yet.
    pub fn new(inner: T) -> Self
        ensures { result ≡ record { inner = inner; faults = 0 } }
    {
        Counted { inner, faults: 0 }
    }

    /// How many calls failed; a write that took nothing counts too.
    pub fn faults(&self) -> u64
        ensures { result ≡ self.now.faults }
    {
        self.faults
    }

    /// The reader or the writer.
    pub fn into_inner(self) -> T
        ensures { result ≡ self.inner }
    {
        self.inner
    }

    fn count(&mut self)
        ensures { self.new ≡ record self.old { faults = counted self.old.faults } }
    {
        self.faults = self.faults.saturating_add(1);
    }
}

/// Reads the next bytes, none only at the end; a read that was interrupted is tried again, up to 2^64 - 1 times.
#[tactic(auto, using(crate::proofs::Tried::trying))]
fn read_through<R: Read>(reader: &mut R, piece: &mut [u8]) -> io::Result<usize>
    requires { 0 < length piece.old }
    ensures within { IfOk result (λ n. n ≤ length piece.new) }
    ensures bytes { IfOk result
        (λ n. Consumes (R.remaining reader.old) (R.remaining reader.new) (take n piece.new)) }
    ensures end { IfOk result (λ n. n ≡ 0 → IsAtEnd (R.remaining reader.new)) }
    ensures kept { OnErr result (Keeps (R.remaining reader.old) (R.remaining reader.new)) }
    ensures retried { IfErr result (λ error. error_kind error ≢ ErrorKind.Interrupted) }
{
    for _ in 0..u64::MAX {
        match reader.read(piece) {
            Ok(n) => return Ok(n),
            Err(error) => {
                if error.kind() != ErrorKind::Interrupted {
                    return Err(error);
                }
            }
        }
    }
    Err(io::Error::from(ErrorKind::TimedOut))
}

/// Writes a first part of the bytes; a write that was interrupted is tried again, up to 2^64 - 1 times.
#[tactic(auto, using(crate::proofs::Tried::trying))]
fn write_through<W: Write>(writer: &mut W, bytes: &[u8]) -> io::Result<usize>
    ensures within { IfOk result (λ n. n ≤ length bytes.now) }
    ensures bytes { IfOk result
        (λ n. Appends (W.contents writer.old) (W.contents writer.new) (take n bytes.now)) }
    ensures kept { OnErr result (Keeps (W.contents writer.old) (W.contents writer.new)) }
    ensures retried { IfErr result (λ error. error_kind error ≢ ErrorKind.Interrupted) }
{
    for _ in 0..u64::MAX {
        match writer.write(bytes) {
            Ok(n) => return Ok(n),
            Err(error) => {
                if error.kind() != ErrorKind::Interrupted {
                    return Err(error);
                }
            }
        }
    }
    Err(io::Error::from(ErrorKind::TimedOut))
}

impl<R: Read> Counted<R> {
    /// Reads the next bytes, none only at the end.
    pub fn read_piece(&mut self, piece: &mut [u8]) -> Result<usize, ServeFault>
        requires { 0 < length piece.old }
        ensures within { IfOk result (λ n. n ≤ length piece.new) }
        ensures bytes { IfOk result
            (λ n.
            Consumes (R.remaining self.old.inner) (R.remaining self.new.inner) (take n piece.new)) }
        ensures end { IfOk result (λ n. n ≡ 0 → IsAtEnd (R.remaining self.new.inner)) }
        ensures kept { OnErr result
            (Keeps (R.remaining self.old.inner) (R.remaining self.new.inner)) }
        ensures faults { OnOk result (self.new.faults ≡ self.old.faults) }
        ensures fault { OnErr result
            ((result ≡ Err ServeFault.Read) × (self.new.faults ≡ counted self.old.faults)) }
    {
        match read_through(&mut self.inner, piece) {
            Ok(n) => Ok(n),
            Err(_) => {
                self.count();
                Err(ServeFault::Read)
            }
        }
    }
}

impl<W: Write> Counted<W> {
    /// Writes a first part of the bytes.
    fn write_some(&mut self, bytes: &[u8]) -> Result<usize, ServeFault>
        requires { 0 < length bytes.now }
        ensures within { IfOk result (λ n. (0 < n) × (n ≤ length bytes.now)) }
        ensures bytes { IfOk result
            (λ n.
            Appends (W.contents self.old.inner) (W.contents self.new.inner) (take n bytes.now)) }
        ensures none { OnErr result
            (Appends (W.contents self.old.inner) (W.contents self.new.inner) []) }
        ensures faults { OnOk result (self.new.faults ≡ self.old.faults) }
        ensures fault { OnErr result
            ((result ≡ Err ServeFault.Write) × (self.new.faults ≡ counted self.old.faults)) }
    {
        match write_through(&mut self.inner, bytes) {
            Ok(0) | Err(_) => {
                self.count();
                Err(ServeFault::Write)
            }
            Ok(n) => Ok(n),
        }
    }

    /// Writes all bytes, a part at a time.
    pub fn send(&mut self, bytes: &[u8]) -> Result<(), ServeFault>
        ensures ok { OnOk result
            (Appends (W.contents self.old.inner) (W.contents self.new.inner) bytes.now) }
        ensures part { OnErr result
            (AppendsPart (W.contents self.old.inner) (W.contents self.new.inner) bytes.now) }
        ensures faults { OnOk result (self.new.faults ≡ self.old.faults) }
        ensures fault { OnErr result
            ((result ≡ Err ServeFault.Write) × (self.new.faults ≡ counted self.old.faults)) }
    {
        let mut sent = 0;
        while sent < bytes.len() {
            let n = self.write_some(&bytes[sent..])?;
            sent += n;
        }
        Ok(())
    }

    /// Writes a line: the bytes and a line end.
    pub fn send_line(&mut self, line: &[u8]) -> Result<(), ServeFault>
        ensures ok { OnOk result
            (Appends (W.contents self.old.inner) (W.contents self.new.inner)
            (line.now ++ 10 ∷ [])) }
        ensures part { OnErr result
            (AppendsPart (W.contents self.old.inner) (W.contents self.new.inner)
            (line.now ++ 10 ∷ [])) }
        ensures faults { OnOk result (self.new.faults ≡ self.old.faults) }
        ensures fault { OnErr result
            ((result ≡ Err ServeFault.Write) × (self.new.faults ≡ counted self.old.faults)) }
    {
        match self.send(line) {
            Ok(()) => self.send(b"\n"),
            Err(fault) => Err(fault),
        }
    }
}
