//! What holds of every connection of a client, and of what is told of calls.

ghost use Rattle.std.specs.Prelude.{◌≡◌, ℕ, false, List, Option};
ghost use Rattle.records.specs.Lists.{Has};
ghost use Rattle.records.specs.Contents.{Content};
ghost use Rattle.records.specs.Spelling.{IsLawfulRecord};
ghost use Rattle.records.specs.declared.record.Record.{Record};
ghost use Rattle.archive.specs.Store.{IsQuiescent, IsLeft};
ghost use Rattle.exchange.specs.Worlds.{World, ReplicaState as Replica, Event, IsReplicaAt, IsUpdated, AreUpdates, run};
ghost use Rattle.ua_settings.specs.Settings.{SettingsValues};
ghost use Rattle.ua_connection.specs.Environments.{Environment};
ghost use Rattle.ua_connection.specs.Serving.{ServesBehind};
ghost use Rattle.ua_connection.specs.Client.{Ending};
ghost use Rattle.ua_peers.specs.declared.calling.SyncFault.{SyncFault};
ghost use Rattle.web_page.specs.Calls.{cause_words};
ghost use Rattle.conversation.specs.Closing.{call_cause};
ghost use Rattle.ua_server.specs.Telling.{fault_text, sync_fault};

use archive::Archive;

/// What a client's connection leaves at an archive in use is what events of a world leave: whatever the client sent and however the connection ended, updates at
/// this replica, each as its conditions ask, one after the other, make of the world one in which it holds what it is left with, and all else is as it was. An
/// archive in use is left with what it holds; of one whose store broke in the midst, or that was stopped there, it is whatever an opening may find. Each record
/// that it is left with has to be lawful, as in each archive in use.
pub fn connections_are_updates<A: Archive>()
    ensures { (settings : SettingsValues) (a b : A) (first : List ℕ)
        (unread left before after : Option (List ℕ)) (used : Environment) (ending : Ending)
        (w : World) (i : ℕ) (s : Replica) (R : Content)
        → ServesBehind settings (A.state a) (A.state b) first unread left before after used ending
        → IsQuiescent (A.state a) → (A.state a).broken ≡ false → (A.state b).honest
        → IsLeft (A.state b) R
        → ((r : Record) → Has R r → IsLawfulRecord r) → IsReplicaAt w i s
        → s.number ≡ (A.state a).own → s.content ≡ (A.state a).content
        → (events : List Event) × AreUpdates i events × IsUpdated w (run events w) i s R }
{}

/// The first page, `/status.json` and standard error tell the fault of a call of a peer in the same words.
pub fn a_calls_fault_is_told_alike()
    ensures { (fault : SyncFault) → cause_words (call_cause fault) ≡ fault_text (sync_fault fault) }
{}
