//! What holds of every dialog with a peer.

ghost use Rattle.std.specs.Prelude.{◌≡◌, ◌++◌, ℕ, List, length, Option, Some, Result, Ok};
ghost use Rattle.stamp.specs.Limits.{IsReplica};
ghost use Rattle.records.specs.Contents.{Content, join};
ghost use Rattle.exchange.specs.Messages.{Party};
ghost use Rattle.exchange.specs.Dialogs.{asking_frame, DialogState as Stand, party_of, IsHeld};
ghost use Rattle.exchange.specs.Meetings.{CanMeet};
ghost use Rattle.exchange.specs.Worlds.{World, ReplicaState as Replica, Event, IsReplicaAt, IsUpdated, run};
ghost use Rattle.archive.specs.Store.{IsLeft};
ghost use Rattle.ua_peers.specs.Events.{WereSent, AreDeliveries, AreExchanges, AreUpdated, AreEnds};
ghost use Rattle.ua_peers.specs.Wires.{IsStartOf};
ghost use Rattle.ua_peers.specs.Calling.{calling};
ghost use Rattle.ua_peers.specs.Peers.{Taken, Side, after_all, responding, Talks};

use crate::peers::PeerEnded;
use archive::Archive;
use counted_io::ServeFault;

/// What a dialog with a peer leaves is what events of a world leave: where the records of each frame were sent by some replica as
/// one batch, deliveries of first records of these batches make of the world one in which this replica holds what the dialog left
/// it, and all else is as it was.
#[tactic(auto, using(crate::proofs::Delivered::deliveries))]
pub fn dialogs_are_deliveries()
    ensures { (p : Party) (taken : List Taken) (w : World) (i : ℕ) (s : Replica) (side : Side)
        → IsReplicaAt w i s → s.content ≡ side.content → WereSent w.pool p side taken
        → (events : List Event) × AreDeliveries i events
        × IsUpdated w (run events w) i s (after_all p side taken).content }
{}

/// What holds of who an archive's replica is.
fn is_party<A: Archive>(archive: &A)
    ensures id { length (A.state archive.now).id ≡ 16 }
    ensures own { IsReplica (A.state archive.now).own }
{
    let id = archive.id();
    let own = archive.number();
    let (_id, _own) = (id.as_bytes(), own.get());
}

/// A call to a peer that came to its end leaves the same at both replicas, the join of what they held. For that the bytes that
/// came at either end have to be a first part of those that went out at the other, as a network gives them; where the rest was
/// lost the call ended before, or what was lost was the end's own frame.
pub fn a_call_that_ends_joins<A: Archive, B: Archive>(caller: &A, peer: &B)
    ensures { (a : A) (b : B) (came out rest came' out' rest' : List ℕ) (last last' : Stand)
        (ending : Option (Result PeerEnded ServeFault))
        → CanMeet (A.state caller.now) (B.state peer.now) → (A.state a).honest → (B.state b).honest
        → Talks calling (A.state caller.now) (A.state a) came out rest
        (Some (Ok PeerEnded.Done)) last
        → Talks responding (B.state peer.now) (B.state b) came' out' rest' ending last'
        → IsStartOf came out'
        → IsStartOf came'
        (asking_frame (party_of (A.state caller.now)) (A.state caller.now).content ++ out)
        → IsHeld (A.state a) (join (A.state caller.now).content (B.state peer.now).content)
        × IsHeld (B.state b) (join (A.state caller.now).content (B.state peer.now).content) }
{
    is_party(caller);
    is_party(peer);
}

/// What a call of one replica by another leaves is what events of a world leave: however it ended at either, as long as what came at each is a first part of
/// what went out at the other, sends and deliveries at the two make of the world one in which each holds what it is left with, and all else is as it was. An
/// archive in use is left with what it holds; of one whose store broke in the midst, or that was stopped there, it is whatever an opening may find.
pub fn calls_are_exchanges<A: Archive, B: Archive>(caller: &A, peer: &B)
    ensures { (a : A) (b : B) (w : World) (i j : ℕ) (s t : Replica) (R S : Content)
        → CanMeet (A.state caller.now) (B.state peer.now) → (A.state a).honest → (B.state b).honest
        → AreEnds (A.state caller.now) (A.state a) (B.state peer.now) (B.state b)
        → IsLeft (A.state a) R → IsLeft (B.state b) S → (i ≡ j → ⊥) → IsReplicaAt w i s
        → s.content ≡ (A.state caller.now).content → IsReplicaAt w j t
        → t.content ≡ (B.state peer.now).content
        → (events : List Event) × AreExchanges i j events
        × AreUpdated w (run events w) i j s t R S }
{
    is_party(caller);
    is_party(peer);
}
