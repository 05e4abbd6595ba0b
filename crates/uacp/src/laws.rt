//! What holds of the greeting's formats and of every stream, whatever is fed and in whatever
//! pieces.

ghost use Rattle.std.specs.Prelude.{◌≡◌, ◌↔◌, ◌≤◌, ◌<◌, ◌++◌, [], ◌∷◌, Bool, List, Option, None, Some, Ok, Err, ℕ, false, length, take};
ghost use Rattle.ua_binary.specs.Format.{IsLawful, IsPrefixFree};
ghost use Rattle.uacp.specs.declared.greeting.Hello.{Hello};
ghost use Rattle.uacp.specs.declared.types.UacpFault.{UacpFault as Fault};
ghost use Rattle.uacp.specs.Greeting.{hello, hello_at, acknowledge, error};
ghost use Rattle.uacp.specs.declared.types.Header.{Header};
ghost use Rattle.uacp.specs.Chunks.{chunk_header};
ghost use Rattle.uacp.specs.Stream.{ChunkContent, piece_at, header_of, IsChunk, IsPartial, IsFault, AreChunks, AreChunksThenRest};
ghost use Rattle.uacp.specs.Held.{IntakeState, new_intake};
ghost use Rattle.uacp.specs.Split.{IsSplit, pieces_of};
ghost use Rattle.uacp.specs.Run.{IntakeCall, Refused, RunsIntake, fed_of, given_of, limits_of, ended, OnlyRefuses};

use crate::types::UacpFault;

/// What is read is spelled there, what is spelled is read whatever follows, and what is written is
/// a spelling. No spelling begins another, and no two values have one spelling.
#[tactic(auto, using(crate::proofs::Greetings::lawful))]
pub fn formats_are_lawful()
    ensures hello { IsLawful hello }
    ensures acknowledge { IsLawful acknowledge }
    ensures error { IsLawful error }
    ensures hello_alone { IsPrefixFree hello }
    ensures acknowledge_alone { IsPrefixFree acknowledge }
    ensures error_alone { IsPrefixFree error }
{}

/// A Hello is read exactly where all of the bytes spell it, and whatever else the bytes are, they
/// are `HelloInvalid`.
#[tactic(auto, using(crate::proofs::Greetings::hello_read))]
pub fn hello_is_what_is_spelled()
    ensures spelled { (body : List ℕ) (v : Hello) → hello.Spells body v ↔ (hello_at body ≡ Ok v) }
    ensures invalid { (body : List ℕ) → ((v : Hello) → ¬ (hello.Spells body v))
        → hello_at body ≡ Err UacpFault.HelloInvalid }
{}

/// What the calls give is what stands in the stream, by its own definition: no chunk where less
/// than one is there, a fault exactly where the first eight bytes break the rules, and the chunk
/// that stands first otherwise, whatever follows.
#[tactic(auto, using(crate::proofs::Streams::stands))]
pub fn next_is_what_stands_first()
    ensures none { (greeted : Bool) (limit : ℕ) (bytes : List ℕ)
        → (chunk_header greeted limit bytes ≡ Ok None) ↔ IsPartial greeted limit bytes }
    ensures fault { (greeted : Bool) (limit : ℕ) (bytes : List ℕ) (fault : Fault)
        → (chunk_header greeted limit bytes ≡ Err fault) ↔ IsFault greeted limit bytes fault }
    ensures given { (greeted : Bool) (limit : ℕ) (bytes : List ℕ) (header : Header)
        → chunk_header greeted limit bytes ≡ Ok (Some header)
        → (header.size ≤ length bytes)
        × IsChunk greeted limit (piece_at header bytes) (take header.size bytes) }
    ensures chunk { (greeted : Bool) (limit : ℕ) (piece : ChunkContent) (chunk more : List ℕ)
        → IsChunk greeted limit piece chunk
        → chunk_header greeted limit (chunk ++ more) ≡ Ok (Some (header_of piece chunk)) }
{}

/// Two readings of one stream are one, where each chunk of the first and what follows them is
/// judged by the same limit in both.
#[tactic(auto, using(crate::proofs::Running::stream))]
pub fn stream_has_one_reading()
    ensures { (limits limits' : ℕ → ℕ) (bytes : List ℕ) (pieces pieces' : List ChunkContent)
        (rest rest' : List ℕ) (fault fault' : Option Fault)
        → AreChunksThenRest limits bytes pieces rest fault
        → AreChunksThenRest limits' bytes pieces' rest' fault'
        → ((k : ℕ) → k ≤ length pieces → limits k ≡ limits' k)
        → (pieces ≡ pieces') × (rest ≡ rest') × (fault ≡ fault') }
{}

/// Whatever a new intake's calls are, the bytes fed are the chunks given out, one after the other,
/// and the bytes still held.
#[tactic(auto, using(crate::proofs::Running::stream))]
pub fn stream_is_kept()
    ensures { (events : List IntakeCall) (held : IntakeState) → RunsIntake new_intake events held
        → AreChunks false (limits_of 65536 events) (fed_of events) (given_of events) held.waiting }
{}

/// Where `next_chunk` gave no chunk, the bytes fed are the chunks given out and a rest that is less
/// than a chunk, or at which that fault stands.
#[tactic(auto, using(crate::proofs::Running::stream))]
pub fn stream_ends_so()
    ensures { (events : List IntakeCall) (fault : Option Fault) (held : IntakeState)
        → RunsIntake new_intake (events ++ ended fault ∷ []) held
        → AreChunksThenRest (limits_of 65536 events) (fed_of events) (given_of events) held.waiting fault }
{}

/// After a fault `next_chunk` gives nothing but that fault, whatever is fed and whatever limits are
/// set.
#[tactic(auto, using(crate::proofs::Running::stream))]
pub fn fault_stays()
    ensures { (events : List IntakeCall) (fault : Fault) (later : List IntakeCall) (held : IntakeState)
        → RunsIntake new_intake (events ++ Refused fault ∷ later) held
        → OnlyRefuses fault later }
{}

/// Two intakes that were fed the same bytes, in whatever pieces, and judged by the same limits gave
/// out the same chunks, hold the same rest and end in the same way, once `next_chunk` of each gave
/// no chunk.
#[tactic(auto, using(crate::proofs::Running::stream))]
pub fn pieces_do_not_matter()
    ensures { (events events' : List IntakeCall) (fault fault' : Option Fault) (held held' : IntakeState)
        → RunsIntake new_intake (events ++ ended fault ∷ []) held
        → RunsIntake new_intake (events' ++ ended fault' ∷ []) held'
        → fed_of events ≡ fed_of events'
        → ((k : ℕ) → k ≤ length (given_of events)
        → limits_of 65536 events k ≡ limits_of 65536 events' k)
        → (given_of events ≡ given_of events') × (held.waiting ≡ held'.waiting) × (fault ≡ fault') }
{}

/// The pieces of a body are its one split: joined they are the body, each but the last is full, and the
/// last one isn't empty; an empty body is one empty piece.
#[tactic(auto, using(crate::proofs::Splits::pieces_one))]
pub fn bodies_have_one_split()
    ensures { (size : ℕ) (body : List ℕ) (pieces : List (List ℕ)) → 0 < size
        → IsSplit size body pieces ↔ (pieces ≡ pieces_of size body) }
{}
