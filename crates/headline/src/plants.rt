//! The laws of one turn, and of machines that take turns.

ghost use Rattle.std.specs.Prelude.{◌≡◌, ℕ, false, List, [], ◌∷◌, map, length, Option, Some, option_to_list, Result, Ok};
ghost use Rattle.std.specs.Option.{option_map_or};
ghost use Rattle.std.specs.List.{AllByRecursion};
ghost use Rattle.records.specs.Lists.{Has};
ghost use Rattle.records.specs.Contents.{Content, IsWithin};
ghost use Rattle.records.specs.Spelling.{IsLawfulRecord};
ghost use Rattle.records.specs.declared.record.Record.{Record};
ghost use Rattle.stamp.specs.Limits.{IsReplica};
ghost use Rattle.archive.specs.Store.{IsQuiescent, IsLeft};
ghost use Rattle.counted_io.specs.declared.fault.ServeFault.{ServeFault as Fault};
ghost use Rattle.exchange.specs.Messages.{Party, Message};
ghost use Rattle.exchange.specs.declared.message.State.{State as Standing};
ghost use Rattle.exchange.specs.Dialogs.{DialogState, party_of, turned};
ghost use Rattle.exchange.specs.Admissions.{first_frame};
ghost use Rattle.exchange.specs.Frames.{frame_of};
ghost use Rattle.exchange.specs.Streams.{FrameContent, AreFrames};
ghost use Rattle.exchange.specs.Worlds.{World, ReplicaState as Replica, Event, IsReplicaAt, IsUpdated, AreUpdates, run};
ghost use Rattle.ua_settings.specs.Settings.{SettingsValues};
ghost use Rattle.ua_connection.specs.Client.{Ending};
ghost use Rattle.ua_connection.specs.Environments.{Environment};
ghost use Rattle.ua_connection.specs.Turns.{ConnectionState, Advances};
ghost use Rattle.ua_peers.specs.declared.peers.PeerEnded.{PeerEnded as End};
ghost use Rattle.ua_peers.specs.Events.{WereSent, IsExchange};
ghost use Rattle.ua_peers.specs.Peers.{Taken, Side, side_of, side_after, AreAnswered, message_to, Talks};
ghost use Rattle.conversation.specs.declared.other_end.OtherEnd.{OtherEnd};
ghost use Rattle.conversation.specs.declared.other_end.PeerDialog.{PeerDialog};
ghost use Rattle.conversation.specs.declared.world.World.{World as Shared};
ghost use Rattle.multiplex.specs.declared.stay.Party.{Party as OtherParty};
ghost use Rattle.multiplex.specs.declared.stay.Stay.{Stay};
ghost use Rattle.conversation.specs.OtherEnds.{ConversationEnding};
ghost use Rattle.conversation.specs.Answering.{AnswersClient, AnswersPeer, LearnsFromPeer, RefusesPeer, EndsByComparing};
ghost use Rattle.conversation.specs.Comparing.{FindsNone};
ghost use Rattle.conversation.specs.Starting.{StartsCall};
ghost use Rattle.headline.specs.Calls.{WasHeld, CallState, GoesBy, AsksForNoLess, call_question, call_begun};
ghost use Rattle.headline.specs.Executions.{Execution, IsExecution};
ghost use Rattle.headline.specs.Machines.{RestartsAs, IsMachine};
ghost use Rattle.headline.specs.Plants.{BringsSent, IsReplaced, AreLawfulBatches, AreUnforged, AreWholeFrames, CameOver, Plant, plant_after, IsNewPlant, PlantSimulates, PlantExtendsTo, IsClientTurn, IsPeerTurn, IsCallTurn, IsLearningTurn, IsRefusalTurn, IsRestart, ArePlantSteps, AreSimulated};

use archive::Archive;
use conversation::Log;
use exchange::State;
use ua_connection::Clock;

/// What the answer to a client's message leaves at an archive in use is what events of a world leave: whatever the message says, updates
/// at this replica, each as its conditions ask, one after the other, make of the world one in which it holds what it is left with, and
/// all else is as it was. What came before the message on its connection, and what comes after it, is of other turns. An archive in
/// use is left with what it holds; of one whose store broke in the midst, or that was stopped there, it is whatever an opening may find.
pub fn answers_are_updates<A: Archive>()
    ensures { (settings : SettingsValues) (a b : A) (link next : ConnectionState)
        (used : Environment) (made : List ℕ) (ending : Option Ending)
        (w : World) (i : ℕ) (s : Replica) (R : Content)
        → Advances settings (A.state a) (A.state b) link used made ending next
        → IsQuiescent (A.state a) → (A.state a).broken ≡ false → (A.state b).honest
        → IsLeft (A.state b) R → ((r : Record) → Has R r → IsLawfulRecord r)
        → IsReplicaAt w i s → s.number ≡ (A.state a).own → s.content ≡ (A.state a).content
        → (events : List Event) × AreUpdates i events × IsUpdated w (run events w) i s R }
{}

/// Who an archive's replica is.
fn is_party<A: Archive>(archive: &A)
    ensures id { length (A.state archive.now).id ≡ 16 }
    ensures own { IsReplica (A.state archive.now).own }
{
    let id = archive.id();
    let own = archive.number();
    let (_id, _own) = (id.as_bytes(), own.get());
}

/// What an archive in use makes of some frames of a dialog is what events of a world leave: where the records of each frame were sent by
/// some replica as one batch, sends of this replica and deliveries to it make of the world one in which it holds what it is left with,
/// and the other replicas stay. What it says is whole frames, and whoever reads one of them reads no records or those of a batch that
/// was sent. What the dialog was before the frames is anything, since turns of other connections may come in between: its end stands
/// anyhow, and the archive holds anything lawful.
pub fn frames_are_exchanges<A: Archive>(archive: &A)
    ensures { (b : A) (start last : DialogState) (came out rest : List ℕ)
        (ending : Option (Result End Fault)) (w : World) (i : ℕ) (s : Replica) (R : Content)
        → (talks : Talks start (A.state archive.now) (A.state b) came out rest ending last)
        → IsQuiescent (A.state archive.now) → (A.state archive.now).broken ≡ false
        → (A.state b).honest → IsLeft (A.state b) R
        → WereSent w.pool (party_of (A.state archive.now))
        (side_of start (A.state archive.now).content) talks.taken
        → AreLawfulBatches w.pool → IsReplicaAt w i s → s.content ≡ (A.state archive.now).content
        → (events : List Event) × AllByRecursion (IsExchange i) events
        × IsReplaced w (run events w) i s R × BringsSent (run events w).pool out
        × AreWholeFrames out }
{
    is_party(archive);
}

/// A connection forges nothing, by whatever pieces its bytes come and wherever it is cut off: where what came is a first part of what turns
/// wrote on it, each frame that stands in it was written.
pub fn connections_forge_nothing()
    ensures { (written : List (List ℕ)) (p : Party) (came rest : List ℕ)
        (frames : List FrameContent) → CameOver written came → AreFrames came frames rest
        → AreUnforged written p frames }
{}

/// The headline of plants: machines that serve many clients and peers at once are replicas of a past. A plant that begins with nothing
/// simulates the empty past, and each thing that happens leads on to a past that goes on after it: a client's message is answered, frames of a
/// peer are, some first records are learned of a frame that is learned over several turns, records of a peer aren't taken, a call to a peer
/// begins, a machine is stopped and its store opened anew; also where the store broke in the midst of a turn. These come in any order at any
/// machines, so that between two frames of one dialog anything may happen to both its ends. A peer may be anybody and say anything, and what is
/// written to it may be lost, come late, twice or in pieces; but records that it brings were in a frame that a machine of the plant wrote. So
/// at each moment the machines hold what replicas do, and the laws of replicas hold of them, as `machines_simulate_an_execution` says of what
/// `Simulates`: that two whose vectors are equal answer a read of a node's history alike.
pub fn plants_simulate_an_execution<A: Archive>()
    ensures begin { (plant : Plant A) → IsNewPlant A.state plant
        → (p : Execution) × (p.events ≡ []) × PlantSimulates A.state p plant }
    ensures client { (p : Execution) (old new : Plant A) → PlantSimulates A.state p old
        → IsClientTurn A.state old new → PlantExtendsTo A.state p new }
    ensures peer { (p : Execution) (old new : Plant A) → PlantSimulates A.state p old
        → IsPeerTurn A.state old new → PlantExtendsTo A.state p new }
    ensures learning { (p : Execution) (old new : Plant A) → PlantSimulates A.state p old
        → IsLearningTurn A.state old new → PlantExtendsTo A.state p new }
    ensures refusal { (p : Execution) (old new : Plant A) → PlantSimulates A.state p old
        → IsRefusalTurn A.state old new → PlantExtendsTo A.state p new }
    ensures call { (p : Execution) (old new : Plant A) → PlantSimulates A.state p old
        → IsCallTurn A.state old new → PlantExtendsTo A.state p new }
    ensures restart { (p : Execution) (old new : Plant A) → PlantSimulates A.state p old
        → IsRestart A.state old new → PlantExtendsTo A.state p new }
    ensures steps { (p : Execution) (plant : Plant A) (later : List (Plant A))
        → PlantSimulates A.state p plant → ArePlantSteps A.state plant later
        → AreSimulated A.state p later }
{}

/// What is answered on one connection of many (`conversation`) is a turn of a machine of any plant: a client's message; frames of a peer, or
/// some first records of one that is learned over several turns, as long as they aren't forged; records of a peer that aren't taken, or among
/// which a call found a number that was given twice; and the beginning of a call.
/// So what a loop over many connections makes of a machine's archive is turns of a plant.
pub fn conversations_take_turns<A: Archive, C: Clock, L: Log>()
    ensures client { (stay : Stay) (v w : Shared A C L) (link : ConnectionState) (made : List ℕ)
        (ending : Option ConversationEnding) (next : OtherEnd) (old : Plant A) (place : ℕ)
        (later : A) → AnswersClient A.state C.gave L.told stay v link made ending w next
        → IsMachine A.state old.machines place v.server.replica.archive
        → (A.state w.server.replica.archive).honest
        → RestartsAs (A.state w.server.replica.archive) (A.state later)
        → IsClientTurn A.state old (plant_after old place later []) }
    ensures peer { (party : OtherParty) (v u w : Shared A C L) (peer : PeerDialog) (made : List ℕ)
        (ending : Option ConversationEnding) (next : OtherEnd) (old : Plant A) (place : ℕ)
        (later : A) → FindsNone A.state party peer v u
        → (answers : AnswersPeer A.state C.gave u peer made ending w next)
        → AreUnforged old.written (party_of (A.state v.server.replica.archive))
        (map (λ t. t.frame) answers.once.talks.taken)
        → IsMachine A.state old.machines place v.server.replica.archive
        → (A.state w.server.replica.archive).honest
        → RestartsAs (A.state w.server.replica.archive) (A.state later)
        → IsPeerTurn A.state old (plant_after old place later made) }
    ensures learning { (party : OtherParty) (v u w : Shared A C L) (peer : PeerDialog)
        (made : List ℕ) (ending : Option ConversationEnding) (next : OtherEnd) (old : Plant A)
        (place : ℕ) (later : A) → FindsNone A.state party peer v u
        → LearnsFromPeer A.state C.gave u peer made ending w next
        → AreUnforged old.written (party_of (A.state v.server.replica.archive))
        (option_to_list (first_frame peer.frames.waiting))
        → IsMachine A.state old.machines place v.server.replica.archive
        → (A.state w.server.replica.archive).honest
        → RestartsAs (A.state w.server.replica.archive) (A.state later)
        → IsLearningTurn A.state old (plant_after old place later made) }
    ensures refusal { (party : OtherParty) (v u w : Shared A C L) (peer : PeerDialog)
        (made : List ℕ) (ending : Option ConversationEnding) (next : OtherEnd) (old : Plant A)
        (place : ℕ) (later : A) → FindsNone A.state party peer v u
        → RefusesPeer A.state C.gave u peer made ending w next
        → IsMachine A.state old.machines place v.server.replica.archive
        → (A.state w.server.replica.archive).honest
        → RestartsAs (A.state w.server.replica.archive) (A.state later)
        → IsRefusalTurn A.state old (plant_after old place later made) }
    ensures comparing { (party : OtherParty) (v w : Shared A C L) (peer : PeerDialog)
        (made : List ℕ) (ending : Option ConversationEnding) (next : OtherEnd) (old : Plant A)
        (place : ℕ) (later : A) → EndsByComparing A.state L.told party v peer made ending w next
        → IsMachine A.state old.machines place v.server.replica.archive
        → (A.state w.server.replica.archive).honest
        → RestartsAs (A.state w.server.replica.archive) (A.state later)
        → IsRefusalTurn A.state old (plant_after old place later made) }
    ensures call { (callee : ℕ) (v w : Shared A C L) (made : List ℕ)
        (other : Option OtherEnd) (old : Plant A) (place : ℕ) (later : A)
        → StartsCall A.state C.gave L.told callee v made other w
        → IsMachine A.state old.machines place v.server.replica.archive
        → (A.state w.server.replica.archive).honest
        → RestartsAs (A.state w.server.replica.archive) (A.state later)
        → IsCallTurn A.state old (plant_after old place later made) }
{}

/// When a call is done each end holds all that the other one held: whatever other turns come in between, which only add to what either
/// holds, if the caller ended the call well then it holds all that the one that it called held when the call began, and that one holds all
/// that the caller holds by then.
/// It asks first for no less than it lacks, and perhaps for records that it holds. So does each call that `conversation` begins over a
/// store that returned what was written to it, also one that looks for numbers that were given twice.
/// All that either holds is held by replicas of a past. A round of a call is what its two ends make of each other's frames where nothing
/// comes in the way, and that is so of each frame after which an end goes on, or is done.
pub fn a_call_that_is_done_leaves_all_at_both<A: Archive, C: Clock, L: Log>()
    ensures begins { (callee : ℕ) (v w : Shared A C L) (made : List ℕ) (other : OtherEnd)
        → StartsCall A.state C.gave L.told callee v made (Some other) w
        → (A.state w.server.replica.archive).honest
        → (asked : List ℕ) × AsksForNoLess (A.state v.server.replica.archive).content asked
        × (made ≡ frame_of (call_question (party_of (A.state v.server.replica.archive)) asked)) }
    ensures done { (e : Execution) (caller called : Party) (here there : Content)
        (asked : List ℕ) (rounds : ℕ) (after : CallState) → IsExecution e → WasHeld e here
        → AsksForNoLess here asked
        → GoesBy e caller called rounds (call_begun caller asked here there) after
        → after.state ≡ State.Done
        → IsWithin there after.here × IsWithin after.here after.there }
    ensures taken { (p : Party) (side : Side) (t : Taken) (next : Standing)
        → AreAnswered p side (t ∷ []) → t.result ≡ Ok next
        → (m : Message) × (message_to p side t ≡ Ok m)
        × ((turned p side.standing.state side.content m).result ≡ Ok next)
        × ((side_after p side t).content ≡ (turned p side.standing.state side.content m).content)
        × (t.said ≡ option_map_or frame_of (turned p side.standing.state side.content m).reply []) }
{}
