//! What holds of every connection.

ghost use Rattle.std.specs.Prelude.{◌≡◌, ℕ, Bool, true, List, [], Some, Ok};
ghost use Rattle.records.specs.Lists.{Has};
ghost use Rattle.records.specs.Contents.{HasName};
ghost use Rattle.records.specs.declared.record.Record.{Record};
ghost use Rattle.exchange.specs.Dialogs.{party_of};
ghost use Rattle.multiplex.specs.declared.stay.Party.{Party};
ghost use Rattle.peer_check.specs.Beginning.{first_brought};
ghost use Rattle.peer_check.specs.Clashes.{IsClash};
ghost use Rattle.peer_check.specs.declared.comparing.Clash.{Clash};
ghost use Rattle.conversation.specs.Alone.{ClientAloneIsAnswered};
ghost use Rattle.conversation.specs.ClientsDoors.{IsAtClientsDoor, NoPeerComes, NoPeerIsAnswered};
ghost use Rattle.conversation.specs.Comparing.{compares_first, ComparesFirst, FindsNone};
ghost use Rattle.conversation.specs.Strangers.{StrangersAreTurnedAway, StrangersAreUnread};
ghost use Rattle.conversation.specs.declared.door.Door.TheVariants.{Clients};
ghost use Rattle.conversation.specs.declared.other_end.OtherEnd.TheVariants.{Unknown};
ghost use Rattle.conversation.specs.declared.other_end.PeerDialog.{PeerDialog};
ghost use Rattle.conversation.specs.declared.world.World.{World};

use crate::log::Log;
use archive::Archive;
use multiplex::{NonBlockingRead, NonBlockingWrite};
use ua_connection::Clock;

/// While nobody else changes the world a client is answered as on a connection of its own: however its bytes come in pieces,
/// and its answers go out, what was made for them is one stretch of the answer that `ua_connection` defines. It brought three
/// letters at least, and memory for all that came was there.
pub fn a_client_alone_is_answered<
    R: NonBlockingRead,
    W: NonBlockingWrite,
    A: Archive,
    C: Clock,
    L: Log,
>()
    ensures { ClientAloneIsAnswered R.input W.output A.state C.gave L.told }
{}

/// At the door of clients nobody is a peer: neither who comes there, whatever bytes are brought, nor who is answered. So no
/// record is learned there, and none is given as a peer's: what is answered is answered as to a client.
pub fn a_clients_door_takes_no_peer<A: Archive, C: Clock, L: Log>()
    ensures begins { IsAtClientsDoor (Unknown Clients []) }
    ensures receives { NoPeerComes }
    ensures answers { NoPeerIsAnswered A.state C.gave L.told }
{}

/// Who comes to the door of peers from where none is taken is turned away at the first turn: nothing of it is read, nothing is
/// said, and nothing changes.
pub fn a_stranger_is_not_heard<A: Archive, C: Clock, L: Log>()
    ensures turned_away { StrangersAreTurnedAway A.state C.gave L.told }
    ensures unread { StrangersAreUnread A.state C.gave L.told }
{}

/// What a call that looks for numbers that were given twice finds in the first frame that comes, over a store that returned what
/// was written to it. Where it found nothing, and so goes on, each record of the frame whose name is held is the one that is
/// held. Where it found two records, the one is of the frame and the other one is held, and they have one name and differ; only
/// a call that compares finds any.
pub fn a_first_frame_agrees<A: Archive, C, L>()
    ensures agrees { (party : Party) (peer : PeerDialog) (v w : World A C L) (r : Record)
        → FindsNone A.state party peer v w
        → compares_first v.server.settings party peer ≡ true
        → (A.state w.server.replica.archive).honest
        → Has (first_brought (party_of (A.state v.server.replica.archive)) peer.frames.waiting) r
        → HasName (A.state v.server.replica.archive).content r.origin r.number
        → Has (A.state v.server.replica.archive).content r }
    ensures differs { (compares : Bool) (waiting : List ℕ) (old new : A) (clash : Clash)
        → ComparesFirst A.state compares waiting old new (Ok (Some clash))
        → (A.state new).honest
        → (compares ≡ true) × IsClash (A.state old).content clash
        × Has (first_brought (party_of (A.state old)) waiting) clash.brought }
{}
