//! The two ways of a connection.

ghost use Rattle.std.specs.Prelude.{◌≡◌, ◌≤◌, ◌<◌, ◌∷◌, ◌++◌, [], List, ℕ, Some, None, Err, IfOk, OnOk, OnErr, length, take};
ghost use Rattle.std.proofs.Common.{refl, ◌∙◌};
ghost use Rattle.counted_io.specs.Bytes.{counted};
ghost use Rattle.ua_connection.specs.Passing.{LineEvent, Came, Went, Passes, passes-none, passes-more};

use counted_io::{Counted, ServeFault};
use std::io::{Read, Write};

/// What a server reads and writes, in the order in which it does.
pub trait Line {
    /// Between these two states this was read and written, in this order.
    ghost passed: { Self → List LineEvent → Self → Type 0 };

    ghost passed_none: { (line : Self) → passed line [] line };

    ghost passed_more: { (a b c : Self) (xs ys : List LineEvent) → passed a xs b → passed b ys c
        → passed a (xs ++ ys) c };

    /// How many reads failed.
    ghost failed_reads: { Self → ℕ };

    /// How many writes failed.
    ghost failed_writes: { Self → ℕ };

    /// Reads the next bytes, none only at the end.
    fn receive(&mut self, piece: &mut [u8]) -> Result<usize, ServeFault>
        requires { 0 < length piece.old }
        ensures within { IfOk result (λ n. n ≤ length piece.new) }
        ensures came { IfOk result
            (λ n. passed self.old (Came (Some (take n piece.new)) ∷ []) self.new) }
        ensures none { OnErr result (passed self.old (Came None ∷ []) self.new) }
        ensures faults { OnOk result (failed_reads self.new ≡ failed_reads self.old) }
        ensures fault { OnErr result
            ((result ≡ Err ServeFault.Read)
            × (failed_reads self.new ≡ counted (failed_reads self.old))) }
        ensures writes { failed_writes self.new ≡ failed_writes self.old };

    /// Writes all bytes; where that fails, a first part of them.
    fn send(&mut self, bytes: &[u8]) -> Result<(), ServeFault>
        ensures went { OnOk result (passed self.old (Went bytes.now ∷ []) self.new) }
        ensures part { OnErr result
            ((sent unsent : List ℕ) × (bytes.now ≡ sent ++ unsent)
            × passed self.old (Went sent ∷ []) self.new) }
        ensures faults { OnOk result (failed_writes self.new ≡ failed_writes self.old) }
        ensures fault { OnErr result
            ((result ≡ Err ServeFault.Write)
            × (failed_writes self.new ≡ counted (failed_writes self.old))) }
        ensures reads { failed_reads self.new ≡ failed_reads self.old };
}

/// What a client writes, and what it reads.
#[derive(Drop)]
pub struct Wires<'a, R, W> {
    /// Where its bytes come from.
    pub reader: &'a mut Counted<R>,
    /// Where its answers go.
    pub writer: &'a mut Counted<W>,
}

impl<R: Read, W: Write> Line for Wires<'_, R, W> {
    ghost passed = { λ a events b. (b.reader.ghost_name ≡ a.reader.ghost_name)
        × (b.writer.ghost_name ≡ a.writer.ghost_name)
        × Passes
        (record
        { unread = R.remaining a.reader.now.inner; written = W.contents a.writer.now.inner }) events
        (record
        { unread = R.remaining b.reader.now.inner; written = W.contents b.writer.now.inner }) };

    ghost passed_none = { λ a. (refl, refl, passes-none _) };

    ghost passed_more = { λ a b c xs ys p q. (q.0 ∙ p.0, q.1 ∙ p.1, passes-more _ _ _ xs ys p.2 q.2) };

    ghost failed_reads = { λ line. line.reader.now.faults };

    ghost failed_writes = { λ line. line.writer.now.faults };

    fn receive(&mut self, piece: &mut [u8]) -> Result<usize, ServeFault> {
        self.reader.read_piece(piece)
    }

    fn send(&mut self, bytes: &[u8]) -> Result<(), ServeFault> {
        self.writer.send(bytes)
    }
}
