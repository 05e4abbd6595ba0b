//! What holds of every connection of a client.

ghost use Rattle.std.specs.Prelude.{◌≡◌, ◌+◌, ℕ, List, [], drop, None, Some, Err};
ghost use Rattle.uacp.specs.Stream.{ChunkContent};
ghost use Rattle.records.specs.Contents.{Content};
ghost use Rattle.historian.specs.Services.{ServerConfig};
ghost use Rattle.ua_connection.specs.Environments.{Environment};
ghost use Rattle.archive.specs.Steps.{and_then};
ghost use Rattle.ua_connection.specs.Run.{stream_answered, with_later, ended};
ghost use Rattle.ua_connection.specs.Client.{ClientState, Ending, Item, whole, ends, item_answer, answer, chunks, next};
ghost use Rattle.ua_connection.specs.Serving.{new_standing, IsServed};
ghost use Rattle.ua_connection.specs.Conversation.{Chunked, stream_answer, IsConversed};

use counted_io::ServeFault;

/// A connection has 1,000,000 chunks at most: the next one ends it by `TooLong` and nothing is written, no chunk before it
/// does, and each chunk that is answered and doesn't end the connection is counted.
#[tactic(auto, using(crate::proofs::Counting::counting))]
pub fn chunks_are_counted()
    ensures one_too_many { (config : ServerConfig) (standing : ClientState) (piece : ChunkContent)
        (later : Environment) → standing.client.taken ≡ 1000000
        → item_answer config standing (whole piece) later
        ≡ (ends standing [] (Err ServeFault.TooLong), later) }
    ensures no_sooner { (config : ServerConfig) (standing : ClientState) (item : Item)
        (outside : Environment)
        → (answer config standing item outside).0.ending ≡ Some (Err ServeFault.TooLong)
        → standing.client.taken ≡ 1000000 }
    ensures each { (config : ServerConfig) (standing : ClientState) (item : Item)
        (outside : Environment)
        → (answer config standing item outside).0.ending ≡ None
        → (answer config standing item outside).0.state.client.taken ≡ standing.client.taken + 1 }
{}

/// The answer to a stream is what stands first, answered, and then the answer to the rest; it doesn't stop before the stream does.
#[tactic(auto, using(crate::proofs::Counting::counting))]
pub fn answers_go_item_by_item()
    ensures item { (config : ServerConfig) (standing : ClientState) (bytes : List ℕ)
        (item : Item × ℕ)
        (outside : Environment) → next standing bytes ≡ Some item
        → stream_answered (chunks config) standing bytes outside
        ≡ and_then (answer config standing item.0)
        (λ reply.
        with_later (stream_answered (chunks config) reply.state (drop item.1 bytes)) reply) outside }
    ensures none { (config : ServerConfig) (standing : ClientState) (bytes : List ℕ)
        (outside : Environment)
        → next standing bytes ≡ None
        → stream_answered (chunks config) standing bytes outside
        ≡ ended (chunks config) standing outside }
{}

/// A client's whole connection, in the words of the stream. All bytes are whole chunks, later ones judged by the size that the
/// Acknowledge grants, and a rest. The answer to them is the answer to the Hello, and then to each chunk by its place among
/// those before it, whatever comes in the way. So was a client answered that was served with no fault of a read or a write.
#[tactic(auto, using(crate::proofs::Conversing::conversing))]
pub fn connections_are_answered_chunk_by_chunk()
    ensures chunked { (bytes : List ℕ) → Chunked bytes }
    ensures answers { (config : ServerConfig) (R : Content) (bytes : List ℕ)
        (stream : Chunked bytes)
        (outside : Environment)
        → stream_answered (chunks config) (new_standing R) bytes outside
        ≡ stream_answer config R bytes stream outside }
    ensures served { (config : ServerConfig) (R : Content) (came out : List ℕ) (used : Environment)
        (ending : Ending) (last : ClientState)
        → IsServed (chunks config) (new_standing R) came used out ending last
        → (ending ≡ Err ServeFault.Read → ⊥) → (ending ≡ Err ServeFault.Write → ⊥)
        → IsConversed config R came used out ending last }
{}
