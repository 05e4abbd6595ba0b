//! What holds of a channel's formats, of every list of chunks, and of what is written.

ghost use Rattle.std.specs.Prelude.{◌≡◌, ◌≤◌, ◌<◌, ◌+◌, ◌-◌, ◌*◌, ◌%◌, ◌^◌, ◌↔◌, ◌++◌, [], ◌∷◌, List, ℕ, true, length};
ghost use Rattle.ua_binary.specs.Format.{IsLawful, IsPrefixFree};
ghost use Rattle.uacp.specs.declared.greeting.Hello.{Hello};
ghost use Rattle.uacp.specs.declared.greeting.Ack.{Ack};
ghost use Rattle.uacp.specs.declared.types.Letter.TheVariants.{Final};
ghost use Rattle.uacp.specs.Split.{IsSplit};
ghost use Rattle.uacp.specs.Stream.{ChunkContent, AreChunks};
ghost use Rattle.ua_channel.specs.Sending.{chunks_of, sent_of, AreShort};
ghost use Rattle.ua_channel.specs.declared.headers.Numbers.{Numbers};
ghost use Rattle.ua_channel.specs.Headers.{security_header, sequence_header, message_header, request_header, response_header, open_request, open_response};
ghost use Rattle.ua_channel.specs.Placed.{Placed, Says, heard_of, open_run, bodies_of};
ghost use Rattle.ua_channel.specs.Taking.{ChannelState, new_channel, taken_answer};
ghost use Rattle.ua_channel.specs.Run.{ChannelCall, RunsChannel, chunks_of_run, answers_of_run, written_of_run, answers_to, taken_of, AreMore, IsBetween, AreTaken};

use crate::taken::Taken;

/// What is read is spelled there, what is spelled is read whatever follows, and what is written is a
/// spelling.
#[tactic(auto, using(crate::proofs::Lawful::lawful))]
pub fn formats_are_lawful()
    ensures security { IsLawful security_header }
    ensures sequence { IsLawful sequence_header }
    ensures message { IsLawful message_header }
    ensures request { IsLawful request_header }
    ensures response { IsLawful response_header }
    ensures asked { IsLawful open_request }
    ensures opened { IsLawful open_response }
{}

/// No spelling begins another, and no two values have one spelling.
#[tactic(auto, using(ua_binary::proofs::Spelled::prefix_free, crate::proofs::Lawful::lawful))]
pub fn formats_are_prefix_free()
    ensures security { IsPrefixFree security_header }
    ensures sequence { IsPrefixFree sequence_header }
    ensures message { IsPrefixFree message_header }
    ensures request { IsPrefixFree request_header }
    ensures response { IsPrefixFree response_header }
    ensures asked { IsPrefixFree open_request }
    ensures opened { IsPrefixFree open_response }
{}

/// Whatever the calls of a new channel are, its chunks are answered by their places among the chunks
/// before them: each well placed one by what it comes to, the first ill placed one by its first
/// fault, and all later ones by `ChannelId`. A take that ran out of memory counts as none.
#[tactic(auto, using(crate::proofs::Takings::answering))]
pub fn chunks_are_answered_by_their_places()
    ensures { (hello : Hello) (ack : Ack) (events : List ChannelCall) (state : ChannelState)
        → RunsChannel (new_channel hello ack) events state
        → answers_of_run events ≡ answers_to [] (chunks_of_run events) }
{}

/// A message is the bodies of a final chunk and of the run of C chunks right before it, joined.
#[tactic(auto, using(crate::proofs::Messages::messages))]
pub fn message_is_the_bodies_of_its_run()
    ensures { (older run : List Placed) (numbers : Numbers) (body : List ℕ) → IsBetween older
        → AreMore run
        → taken_answer (heard_of (run ++ older)) (Says Final numbers body)
        ≡ Taken.Message numbers.request_id (bodies_of run ++ body) }
{}

/// What a channel knows after whatever calls is what the rules look at of the chunks that it took, the
/// end aside: their openings, the newest sequence number, the greatest token of MSG chunks, the open
/// message. And each chunk that it took was well placed by those before it.
#[tactic(auto, using(crate::proofs::Takings::knowing))]
pub fn channel_knows_the_chunks_taken()
    ensures known { (hello : Hello) (ack : Ack) (events : List ChannelCall) (state : ChannelState)
        → RunsChannel (new_channel hello ack) events state
        → state.heard
        ≡ record (heard_of (taken_of [] (chunks_of_run events))) { ended = state.heard.ended } }
    ensures placed { (chunks : List ChunkContent) → AreTaken (taken_of [] chunks) }
{}

/// A message has at most 64 chunks and 4,194,304 bytes, while it is open and once it is whole.
#[tactic(auto, using(crate::proofs::Messages::messages))]
pub fn messages_are_bounded()
    ensures chunks { (past : List Placed) → AreTaken past → length (open_run past) ≤ 64 }
    ensures bytes { (past : List Placed) → AreTaken past → length (bodies_of (open_run past)) ≤ 4194304 }
    ensures whole { (older : List Placed) (numbers : Numbers) (body : List ℕ)
        → AreTaken (Says Final numbers body ∷ older)
        → (length (open_run older) < 64) × (length (bodies_of (open_run older) ++ body) ≤ 4194304) }
{}

/// The sequence numbers of the chunks that are written run on from 1 to 4,294,966,272, and then begin
/// anew: so many chunks after the first, the number is this.
#[tactic(auto, using(crate::proofs::Messages::messages))]
pub fn numbers_run_on()
    ensures { (hello : Hello) (ack : Ack) (events : List ChannelCall) (state : ChannelState)
        → RunsChannel (new_channel hello ack) events state
        → state.next ≡ written_of_run events % 4294966272 + 1 }
{}

/// The bytes that are written for a message are whole chunks, as the client's end cuts them off the
/// stream, where it takes as many bytes a chunk.
#[tactic(auto, using(crate::proofs::Wrapped::wrapped))]
pub fn wrapped_bytes_are_whole_chunks()
    ensures { (limit token request number : ℕ) (pieces : List (List ℕ)) → 24 < limit → limit < 2 ^ 32
        → AreShort (limit - 24) pieces
        → AreChunks true (λ _. limit) (chunks_of token request number pieces)
        (sent_of token request number pieces) [] }
{}

/// A body has no more pieces than a number says, exactly where they have room for it.
#[tactic(auto, using(crate::proofs::Wrapped::wrapped))]
pub fn pieces_are_counted()
    ensures { (size most : ℕ) (body : List ℕ) (pieces : List (List ℕ)) → 0 < size → 0 < most
        → IsSplit size body pieces
        → (length pieces ≤ most) ↔ (length body ≤ most * size) }
{}
