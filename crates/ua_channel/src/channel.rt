//! A secure channel under the policy None (Part 6, 6.7): the messages of a chunk list, and messages in
//! chunks.

ghost use Rattle.std.specs.Prelude.{◌≡◌, ◌<◌};

use crate::fault::ChannelFault;
use crate::inbound::Inbound;
use crate::sending::{following, put_chunks, put_opened_parts};
use crate::taken::{OpenRequest, Taken};
use std::alloc::Global;
use std::marker::Model;
use ua_binary::{Ticks, or_undone};
use uacp::{Ack, Chunk, Hello, split};

/// The secure channel of a connection: channel 1, under the policy None.
///
/// It is greeted at first, ready once an opening was taken, and ended by CLO or by a fault.
#[derive(Drop)]
pub struct Channel {
    inbound: Inbound,
    next: u32,
    limit: u32,
    max_message: u32,
    max_chunks: u32,
}

impl Model for Channel {
    ghost use Rattle.std.specs.Prelude.{◌≤◌, ◌<◌};
    ghost use Rattle.ua_channel.specs.Taking.{ChannelState};

    ghost Value = { ChannelState };

    ghost view = { λ c.
        record {
          heard = c.inbound;
          next = c.next;
          limit = c.limit;
          max_message = c.max_message;
          max_chunks = c.max_chunks;
        } };

    ghost invariant = { λ c. (0 < c.next) × (c.next ≤ 4294966272) × (24 < c.limit) };
}

impl Channel {
    ghost use Rattle.std.specs.Prelude.{IfOk};
    ghost use Rattle.ua_channel.specs.Taking.{new_channel, piece_of, Takes, IsReady, LeavesReady};
    ghost use Rattle.ua_channel.specs.Sending.{opened_chunk, Writes, message_bytes, chunk_count, is_fitting};

    /// A channel that isn't open yet, between a client and a server that greeted each other so. A send
    /// size below 25 is read as 25, so that each chunk has a byte of its message. It takes no memory.
    pub fn new(alloc: Global, hello: &Hello, ack: &Ack) -> Self
        ensures { result ≡ new_channel hello.now ack.now }
    {
        Channel {
            inbound: Inbound::new(alloc),
            next: 1,
            limit: ack.send_size.max(25),
            max_message: hello.max_message,
            max_chunks: hello.max_chunks,
        }
    }

    /// Takes the next chunk of the client.
    ///
    /// A chunk is judged by those before it, and the first rule that is broken is its fault. MSG and
    /// CLO: channel id, token (the newest or the one before it), sequence number, request id of an
    /// open message; a chunk of a MSG that isn't given up also by the message's chunks, at most 64,
    /// and bytes, at most 4,194,304. OPN: security header, policy, channel id (but for the first),
    /// sequence header, sequence number, no open message, body, request type (Issue for the first,
    /// Renew for others), mode, a token id that is left. A fault ends the channel, and so does CLO:
    /// then every chunk is `ChannelId`. `OutOfMemory` comes only at a chunk that is well placed and
    /// has bytes of a message; that chunk isn't taken, and the channel is as it was. After an opening
    /// or a whole message the channel is ready, so that `wrap` may be called.
    #[tactic(auto, using(crate::proofs::Takings::refusing))]
    #[inline(always)]
    pub fn take<'a>(&mut self, chunk: Chunk<'a>) -> Result<Taken<'a>, ChannelFault>
        ensures takes { Takes self.old (piece_of chunk.entry) result self.new }
        ensures ready { IfOk result (λ taken. LeavesReady taken self.new) }
    {
        match self.inbound.judge(chunk) {
            Ok(placed) => self.inbound.accept(placed),
            Err(fault) => {
                self.inbound.end();
                Err(fault)
            }
        }
    }

    /// Appends the answer to a request that opened the channel or renewed its token: an OPN chunk of
    /// 135 bytes, made at this moment (Part 4, 5.6.2). The lifetime is the one that is asked for, or
    /// 3,600,000 ms for 0; the server's nonce is null. The one error is `OutOfMemory`: then nothing
    /// was appended, and no sequence number used.
    pub fn put_opened(
        &mut self,
        request: &OpenRequest,
        now: Ticks,
        out: &mut Vec<u8>,
    ) -> Result<(), ChannelFault>
        ensures { Writes self.old
            (opened_chunk self.old.next request.now now) 1 result out.old.items out.new.items
            self.new }
    {
        let len = out.len();
        let put = put_opened_parts(self.next, request, now, out);
        match or_undone(put, out, len) {
            Ok(()) => {
                self.next = following(self.next);
                Ok(())
            }
            Err(_) => Err(ChannelFault::OutOfMemory),
        }
    }

    /// Appends a message in MSG chunks, as many bytes each as the client takes (Part 6, 6.7.2). Their
    /// sequence numbers run on, and their token is the greatest of the MSG chunks that were taken, 1
    /// before the first. The channel is ready. The one error is `OutOfMemory`: then nothing was
    /// appended, and no sequence number used.
    #[tactic(auto, using(crate::proofs::Sendings::shortness))]
    #[inline(always)]
    pub fn wrap(
        &mut self,
        request_id: u32,
        body: &[u8],
        out: &mut Vec<u8>,
    ) -> Result<(), ChannelFault>
        requires { IsReady self.old }
        ensures { Writes self.old (message_bytes self.old request_id body.now)
            (chunk_count self.old body.now) result out.old.items out.new.items self.new }
    {
        let len = out.len();
        let pieces = split(body, self.limit as usize);
        let chunks = body.len() / (self.limit as usize - 24) + 1;
        out.reserve(chunks.saturating_mul(24).saturating_add(body.len()))?;
        match put_chunks(self.inbound.token(), request_id, self.next, pieces, out) {
            Ok(next) => {
                self.next = next;
                Ok(())
            }
            Err(_) => {
                out.truncate(len);
                Err(ChannelFault::OutOfMemory)
            }
        }
    }

    /// Whether a message of n bytes may be sent: it has at most 16,777,216 bytes, and the bytes and
    /// the chunks that the client takes. It takes no memory.
    pub fn fits(&self, n: usize) -> bool
        ensures { result ≡ is_fitting self.now n }
    {
        if n > 16_777_216 {
            return false;
        }
        if self.max_message != 0 && n > self.max_message as usize {
            return false;
        }
        let room = (self.limit - 24) as usize;
        self.max_chunks == 0 || n <= self.max_chunks as usize * room
    }
}
