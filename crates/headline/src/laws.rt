//! The laws. Each function's contract is a law.

ghost use Rattle.std.specs.Prelude.{◌≡◌, ◌⊎◌, ◌↔◌, ◌||◌, ℕ, ◌+◌, ◌≤◌, ◌<◌, max, Bool, true, false, List, [], ◌∷◌, length, filter, map, slice_get, Option, Some, None, Ok};
ghost use Rattle.std.specs.declared.cmp.Ordering.TheVariants.{Less};
ghost use Rattle.stamp.specs.Limits.{lift};
ghost use Rattle.stamp.specs.Numbers.{number_of};
ghost use Rattle.ua_binary.specs.Binary.{IsNodeId};
ghost use Rattle.ua_binary.specs.declared.codes.Status.{Status as Code};
ghost use Rattle.ua_binary.specs.declared.codes.TheConstants.Status.{BAD_CONTINUATION_POINT_INVALID};
ghost use Rattle.ua_binary.specs.declared.values.NodeId.{NodeId};
ghost use Rattle.ua_services.specs.declared.attributes.TimestampsToReturn.{TimestampsToReturn};
ghost use Rattle.ua_services.specs.declared.history.HistoryReadResult.{HistoryReadResult};
ghost use Rattle.records.specs.Lists.{Has};
ghost use Rattle.records.specs.Moments.{ticks_of};
ghost use Rattle.records.specs.Records.{missing, is_beyond, is_delete, entry, record_stamp_cmp};
ghost use Rattle.records.specs.Contents.{Content, IsWithin, IsLatest, numbers_of, vec, top, join, merged};
ghost use Rattle.records.specs.declared.record.Record.{Record};
ghost use Rattle.records.specs.declared.shown.Entry.{Entry};
ghost use Rattle.records.specs.declared.shown.Held.{Held};
ghost use Rattle.archive.specs.Store.{StepResult};
ghost use Rattle.ua_binary.specs.declared.values.Ticks.{Ticks as Time};
ghost use Rattle.ua_services.specs.Updates.{Details};
ghost use Rattle.ua_services.specs.declared.updates.HistoryUpdateResult.{HistoryUpdateResult};
ghost use Rattle.ua_session.specs.Sessions.{SessionsState as Sessions, user_at};
ghost use Rattle.ua_services.specs.History.{HistoryAsked};
ghost use Rattle.historian.specs.Answers.{Updated, Histories};
ghost use Rattle.historian.specs.Requests.{HistoryUpdate, request_in};
ghost use Rattle.historian.specs.Services.{ServerConfig as Server, answered};
ghost use Rattle.hist_update.specs.declared.request.Request.{Request};
ghost use Rattle.hist_update.specs.Outcome.{Operation};
ghost use Rattle.hist_update.specs.Laws.{IsGood, IsRecordOf, MayStandBehindBreak};
ghost use Rattle.hist_read.specs.declared.query.Query.{Query};
ghost use Rattle.hist_read.specs.Node.{checked_read, refused_read, point_at};
ghost use Rattle.hist_read.specs.declared.point.Position.{Position};
ghost use Rattle.hist_read.specs.Chains.{Page, Chain, IsRead, whole_read, values_in, infos_in, joined_values, joined_infos, contents_from};
ghost use Rattle.hist_read.specs.Asking.{is_given};
ghost use Rattle.hist_read.specs.Point.{Point, IsDetails, point_in};
ghost use Rattle.exchange.specs.Worlds.{ReplicaState, IsReplicaAt, Sends, Delivers, run};
ghost use Rattle.headline.specs.Executions.{Execution, IsExecution, IsStateAt, IsReachable, world_at, HaveLearnedSameNames, HasSameVector, Covers, WasAnswered, WasRecorded};
ghost use Rattle.headline.specs.Answers.{HistoryQuery, replica_answer, results_of, bytes_of, AreFromEither, IsReplicaOf, IsReadAnswered, ReportsNoFailure};
ghost use Rattle.headline.specs.Messages.{IsServerOf, HaveSameNodes, AsksHistory, response_of, AreAlike, AreFree};
ghost use Rattle.headline.specs.Joins.{IsLeastAbove};
ghost use Rattle.headline.specs.Told.{IsHeldFor, AddsAll};
ghost use Rattle.historian.specs.UserSpaces.{space_for};
ghost use Rattle.headline.specs.Machines.{IsMachine, AreNew, Simulates, ExtendsTo, Serves, MachinesSync, Restarts};
ghost use Rattle.headline.specs.Readings.{IsReading, Reaches, at_one_time, IsOfRaw, ShowsModification, ShowsAt, ShowWhole, HavePages};

use archive::Archive;
use hist_read::pages_show_the_whole_read;
use ua_services::ReadRawModifiedDetails;

/// Whether one of both times is given.
fn is_timed(details: &ReadRawModifiedDetails) -> bool
    ensures { result ≡ (is_given details.now.start_time.0 || is_given details.now.end_time.0) }
{
    details.start_time.0 >= 1 || details.end_time.0 >= 1
}

/// What pages show, of any content and what follows it; a read to which neither time is given has no pages.
fn whole_reads(details: ReadRawModifiedDetails)
    ensures details { IsDetails details }
    ensures shows { ShowWhole details }
    ensures ends { HavePages details }
{
    let (_start, _end) = (details.start_time.0, details.end_time.0);
    let _count = details.num_values_per_node;
    if is_timed(&details) {
        pages_show_the_whole_read(details);
    }
}

/// Two replicas that have learned the same updates, each at any time of one past, in whatever order and with whatever
/// repeats, answer reads of history alike: any nodes, any details and any continuation points, to the byte. That they have
/// learned the same is told by their vectors. So pages may be taken at both, in any turns: they are the pages that are
/// taken in any other turns, or at one of them alone.
///
/// So do their servers, message for message: two HistoryReads that ask the same, each in an activated session of its server, are
/// answered by the same results, node by node, whatever else differs in the messages (their time, their handle, the session), as
/// long as both servers have the same nodes. Excepted are results that report want of memory or a fault of the store, and a whole
/// response that reports want of memory; one that is larger than its client takes is replaced after this, by what that client
/// said it takes. Where no result reports any of these, the bytes of the responses after their headers are equal.
pub fn replicas_converge()
    ensures vectors { (p : Execution) (s t : ReplicaState) → IsExecution p → IsReachable p s
        → IsReachable p t
        → HaveLearnedSameNames s t ↔ HasSameVector s t }
    ensures contents { (p : Execution) (s t : ReplicaState) → IsExecution p → IsReachable p s
        → IsReachable p t
        → HaveLearnedSameNames s t → (s.id ≡ t.id) × (s.content ≡ t.content) }
    ensures results { (p : Execution) (s t : ReplicaState) (asked : HistoryQuery) → IsExecution p
        → IsReachable p s → IsReachable p t → HaveLearnedSameNames s t
        → results_of asked s ≡ results_of asked t }
    ensures bytes { (p : Execution) (s t : ReplicaState) (asked : HistoryQuery) → IsExecution p
        → IsReachable p s → IsReachable p t → HaveLearnedSameNames s t
        → bytes_of (results_of asked s) ≡ bytes_of (results_of asked t) }
    ensures turns { (p : Execution) (s t : ReplicaState) (node : NodeId) (query : Query)
        (point : Option (List ℕ)) (pages others : List Page) → IsExecution p → IsReachable p s
        → IsReachable p t → HaveLearnedSameNames s t
        → AreFromEither s t pages → AreFromEither s t others → Chain s.id node query point pages
        → Chain t.id node query point others
        → map (λ page. page.result) pages ≡ map (λ page. page.result) others }
    ensures messages { (p : Execution) (s t : ReplicaState) (here there : Server) (now then : Time)
        (message other : List ℕ) (asked : HistoryAsked) (sessions others : Sessions)
        (marks more : List StepResult)
        → IsExecution p → IsReachable p s → IsReachable p t → HaveLearnedSameNames s t
        → IsServerOf here s
        → IsServerOf there t → HaveSameNodes here there
        → AsksHistory message asked sessions → AsksHistory other asked others
        → AreAlike (response_of here now message sessions s.content marks)
        (response_of there then other others t.content more) }
    ensures responses { (results others : List HistoryReadResult)
        → AreAlike (Ok (Histories results)) (Ok (Histories others)) → AreFree results
        → AreFree others → bytes_of results ≡ bytes_of others }
    ensures clear { (p : Execution) (s t : ReplicaState) (here there : Server) (now then : Time)
        (message other : List ℕ) (asked : HistoryAsked) (sessions others : Sessions)
        → IsExecution p → IsReachable p s → IsReachable p t → HaveLearnedSameNames s t
        → IsServerOf here s
        → IsServerOf there t → HaveSameNodes here there
        → AsksHistory message asked sessions → AsksHistory other asked others
        → response_of here now message sessions s.content [] ≡ response_of there
        then other others t.content [] }
{}

/// Two archives, in whatever stores, that hold what replicas do that have learned the same updates: where neither answer
/// reports want of memory or a fault of the store, they answer a read of a node's history alike, and a response with it has
/// the same bytes.
pub fn archives_answer_alike<A: Archive, B: Archive>()
    ensures result { (p : Execution) (s t : ReplicaState) (a c : A) (b d : B) (node : NodeId)
        (query : Query)
        (point : Option (List ℕ)) (one other : HistoryReadResult) → IsExecution p → IsReachable p s
        → IsReachable p t → HaveLearnedSameNames s t
        → IsReplicaOf (A.state a) s → IsReplicaOf (B.state b) t → (A.state c).honest
        → (B.state d).honest
        → IsReadAnswered (A.state a) (A.state c) node query point one
        → IsReadAnswered (B.state b) (B.state d) node query point other → ReportsNoFailure one
        → ReportsNoFailure other → one ≡ other }
    ensures answer { (s : ReplicaState) (a c : A) (node : NodeId) (query : Query)
        (point : Option (List ℕ))
        (one : HistoryReadResult) → IsReplicaOf (A.state a) s → (A.state c).honest
        → IsReadAnswered (A.state a) (A.state c) node query point one → ReportsNoFailure one
        → one ≡ replica_answer query s node point }
{}

/// Merging is a join of what replicas hold, each at any time of one past: it commutes, associates, repeats without change, and is
/// the least content above both; its vector is the greater of both for each origin. Learning all that a peer has beyond
/// one's vector gives the join; and a peer's sending it and its delivery do so in the world.
pub fn merging_is_a_join()
    ensures commutes { (p : Execution) (s t : ReplicaState) → IsExecution p → IsReachable p s
        → IsReachable p t
        → join s.content t.content ≡ join t.content s.content }
    ensures associates { (p : Execution) (s t u : ReplicaState) → IsExecution p → IsReachable p s
        → IsReachable p t
        → IsReachable p u
        → join (join s.content t.content) u.content ≡ join s.content (join t.content u.content) }
    ensures repeats { (p : Execution) (s : ReplicaState) → IsExecution p → IsReachable p s
        → join s.content s.content ≡ s.content }
    ensures least { (p : Execution) (s t : ReplicaState) → IsExecution p → IsReachable p s
        → IsReachable p t
        → IsLeastAbove s.content t.content (join s.content t.content) }
    ensures vectors { (p : Execution) (s t : ReplicaState) (origin : ℕ) → IsExecution p
        → IsReachable p s
        → IsReachable p t
        → vec (join s.content t.content) origin
        ≡ max (vec s.content origin) (vec t.content origin) }
    ensures learned { (p : Execution) (s t : ReplicaState) (count : ℕ) → IsExecution p
        → IsReachable p s
        → IsReachable p t → length (filter (is_beyond (vec s.content)) t.content) ≤ count
        → merged (missing t.content (vec s.content) count) s.content ≡ join s.content t.content }
    ensures delivered { (p : Execution) (time i j count : ℕ) (s t : ReplicaState) → IsExecution p
        → IsStateAt p time i s → IsStateAt p time j t
        → length (filter (is_beyond (vec s.content)) t.content) ≤ count
        → IsReplicaAt
        (run (Sends j (vec s.content) count ∷ Delivers i (length (world_at p time).pool) count ∷ [])
        (world_at p time)) i (record s { content = join s.content t.content }) }
{}

/// An update that was answered Good has a record, of what was asked for, with its user, and with the tick that its clock reading
/// comes to above all that was held: a replica has learned it, at any time, exactly where its vector covers it. Wherever
/// it was learned, it stands, in all reads of its node that reach its time, their pages joined: its own modification is
/// shown, with its user and its tick; where its stamp is the greatest of its node and time, a write's value is the live
/// one, and no other is, and after a delete none is; and where it isn't, a write's value is shown by a modification. Of
/// each node and time where something was learned one stamp is the greatest, its own or one above its own; and a read of
/// its one time reaches it.
pub fn every_update_stands(details: ReadRawModifiedDetails)
    ensures recorded { (p : Execution) (s : ReplicaState) (request : Request) (op : Operation)
        (code : Code)
        → IsExecution p → WasAnswered p s request op code → IsGood code
        → (r : Record) × WasRecorded p s request op r × IsRecordOf request s.number op r
        × (r.number ≡ vec s.content s.number + 1)
        × (lift request.reading (top s.content) ≡ Some r.tick) }
    ensures learned { (p : Execution) (s t : ReplicaState) (request : Request) (op : Operation)
        (r : Record)
        → IsExecution p → WasRecorded p s request op r → IsReachable p t
        → Has t.content r ↔ (r.number ≤ vec t.content r.origin) }
    ensures told { (p : Execution) (t : ReplicaState) (r : Record) (stamps : TimestampsToReturn)
        (pages : List Page) → IsExecution p → IsReachable p t → Has t.content r
        → IsReading p t r.node (record { details = details; stamps = stamps }) pages
        → Reaches details r.time → details.is_read_modified ≡ true
        → (before : Option Record) × ShowsModification stamps pages (entry before r) }
    ensures live { (p : Execution) (t : ReplicaState) (r : Record) (stamps : TimestampsToReturn)
        (pages : List Page)
        → IsExecution p → IsReachable p t → IsLatest t.content r → IsReading p t r.node
        (record { details = details; stamps = stamps }) pages
        → Reaches details r.time → IsOfRaw details → is_delete r.asked ≡ false
        → (h : Held) × (h.time ≡ r.time) × (h.value ≡ r.value)
        × ShowsAt stamps pages t.content r.node r.time (h ∷ []) }
    ensures gone { (p : Execution) (t : ReplicaState) (r : Record) (stamps : TimestampsToReturn)
        (pages : List Page) → IsExecution p → IsReachable p t → IsLatest t.content r
        → IsReading p t r.node (record { details = details; stamps = stamps }) pages
        → Reaches details r.time → IsOfRaw details → is_delete r.asked ≡ true
        → ShowsAt stamps pages t.content r.node r.time [] }
    ensures replaced { (p : Execution) (t : ReplicaState) (r : Record) (stamps : TimestampsToReturn)
        (pages : List Page) → IsExecution p → IsReachable p t → Has t.content r
        → (IsLatest t.content r → ⊥)
        → IsReading p t r.node (record { details = details; stamps = stamps }) pages
        → Reaches details r.time → details.is_read_modified ≡ true → is_delete r.asked ≡ false
        → (e : Entry) × (e.time ≡ r.time) × (e.value ≡ Some r.value)
        × ShowsModification stamps pages e }
    ensures latest { (p : Execution) (t : ReplicaState) (r : Record) → IsExecution p
        → IsReachable p t
        → Has t.content r
        → (last : Record) × IsLatest t.content last × (last.node ≡ r.node) × (last.time ≡ r.time)
        × ((r ≡ last) ⊎ (record_stamp_cmp r last ≡ Less)) }
    ensures reached { (p : Execution) (t : ReplicaState) (r : Record) (modified : Bool)
        → IsExecution p
        → IsReachable p t → Has t.content r
        → Reaches (at_one_time (ticks_of r.time) modified) r.time }
{
    whole_reads(details);
}

/// Pages that are read one after the other show together the whole read of what the first one's replica held then, whatever
/// happens in the world in between, and at whichever replica that covers it each further one is read; the replica itself covers it at
/// all later times. The point of the first page carries the replica's vector, and a replica that has less of an origin than the
/// vector of a point refuses it. And such pages come to an end.
pub fn pages_stay(details: ReadRawModifiedDetails)
    ensures shows { (p : Execution) (t : ReplicaState) (node : NodeId) (stamps : TimestampsToReturn)
        (pages : List Page) → IsExecution p → IsReachable p t → IsNodeId node
        → IsReading p t node (record { details = details; stamps = stamps }) pages
        → (joined_values pages
        ≡ values_in (whole_read t.content node (record { details = details; stamps = stamps })))
        × (joined_infos pages
        ≡ infos_in (whole_read t.content node (record { details = details; stamps = stamps }))) }
    ensures later { (p : Execution) (now then place : ℕ) (t u : ReplicaState) → IsExecution p
        → now ≤ then
        → IsStateAt p now place t → IsStateAt p then place u
        → (t.id ≡ u.id) × (t.number ≡ u.number) × Covers u t }
    ensures carried { (p : Execution) (t : ReplicaState) (node : NodeId)
        (stamps : TimestampsToReturn)
        (first : Page) (bytes : List ℕ) → IsExecution p → IsReachable p t → IsNodeId node
        → first.content ≡ t.content
        → IsRead t.id node (record { details = details; stamps = stamps }) None first
        → first.result.continuation_point ≡ Some bytes
        → (next : Position) × (bytes ≡ point_at t.id node details (numbers_of t.content) next) }
    ensures refused { (p : Execution) (u : ReplicaState) (node : NodeId)
        (stamps : TimestampsToReturn)
        (bytes : List ℕ) (point : Point) (origin : ℕ) → IsExecution p → IsReachable p u
        → checked_read u.id node details None ≡ Ok None
        → point_in bytes ≡ Some point → vec u.content origin < number_of point.vector origin
        → replica_answer (record { details = details; stamps = stamps }) u node (Some bytes)
        ≡ refused_read BAD_CONTINUATION_POINT_INVALID }
    ensures ends { (p : Execution) (visits : ℕ → ReplicaState) (node : NodeId)
        (stamps : TimestampsToReturn)
        → IsExecution p → ((n : ℕ) → IsReachable p (visits n) × Covers (visits n) (visits 0))
        → IsNodeId node
        → checked_read (visits 0).id node details None ≡ Ok None
        → (pages : List Page)
        × IsReading p (visits 0) node (record { details = details; stamps = stamps }) pages
        × (count : ℕ)
        × (map (λ page. page.content) pages ≡ contents_from (λ n. (visits n).content) 0 count) }
{
    whole_reads(details);
}

/// The headline of machines: archives in use, in whatever stores. Those that begin with nothing hold what the replicas of a past do, and go on to, in pasts
/// that go on after it, whatever is done to them over a network: one serves a client, whatever that sends and however its connection ends; one calls another,
/// and their call is cut off anywhere or comes to its end; a store breaks in the midst of either, and is opened anew; one stops between its connections, and its
/// store is opened anew. So the laws of replicas are laws of machines: two whose vectors are equal, where neither answer reports want of memory or a fault of
/// the store, answer a read of a node's history alike.
pub fn machines_simulate_an_execution<A: Archive>()
    ensures begin { (machines : List A) → AreNew A.state machines
        → (p : Execution) × (p.events ≡ []) × Simulates A.state p machines }
    ensures serve { (p : Execution) (old new : List A) → Simulates A.state p old
        → Serves A.state old new
        → ExtendsTo A.state p new }
    ensures meet { (p : Execution) (old new : List A) → Simulates A.state p old
        → MachinesSync A.state old new → ExtendsTo A.state p new }
    ensures restart { (p : Execution) (old new : List A) → Simulates A.state p old
        → Restarts A.state old new
        → ExtendsTo A.state p new }
    ensures replicas { (p : Execution) (machines : List A) (place : ℕ) (a : A)
        → Simulates A.state p machines
        → IsMachine A.state machines place a
        → (s : ReplicaState) × IsStateAt p (length p.events) place s × IsReplicaOf (A.state a) s
        × ((A.state a).own ≡ s.number) × ((A.state a).content ≡ s.content) }
    ensures alike { (p : Execution) (machines : List A) (i j : ℕ) (a b c d : A) (node : NodeId)
        (query : Query) (point : Option (List ℕ)) (one other : HistoryReadResult)
        → Simulates A.state p machines → IsMachine A.state machines i a
        → IsMachine A.state machines j b
        → ((origin : ℕ) → vec (A.state a).content origin ≡ vec (A.state b).content origin)
        → (A.state c).honest → (A.state d).honest
        → IsReadAnswered (A.state a) (A.state c) node query point one
        → IsReadAnswered (A.state b) (A.state d) node query point other
        → ReportsNoFailure one → ReportsNoFailure other → one ≡ other }
{}

/// What a client is told is Good is held: where the message of an activated session is a HistoryUpdate and is answered by results, each operation whose code is
/// Good was granted to the session's user, who may write, and has its record in what is held after it: a new one, whose tick is above all that were held before the details it is of,
/// and of the message's moment or a later one. The operations are those that the details ask where something is held that has all that was held before the
/// message, for the details before them were done. And nothing else is added: what is held after the message is what was held before it and these records,
/// one for each such operation, in order; but where an operation broke the store its record may stand too, if `may` says that one may.
#[tactic(auto, using(crate::proofs::Told::good_held))]
pub fn good_answers_are_stored()
    ensures { (may : Bool) (config : Server) (now : Time) (message : List ℕ) (token : NodeId)
        (details : List Details) (sessions : Sessions) (R : Content) (marks : List StepResult)
        (results : List HistoryUpdateResult)
        → request_in message ≡ Ok (token, Some (HistoryUpdate details))
        → (answered config now message sessions R marks).0.0.0 ≡ Ok (Updated results)
        → MayStandBehindBreak may marks
        → (user : List ℕ) × (user_at sessions token ≡ Ok user)
        × ((i : ℕ) (d : Details) (result : HistoryUpdateResult) → slice_get details i ≡ Some d
        → slice_get results i ≡ Some result
        → (S : Content) × IsWithin R S
        × IsHeldFor config.own (space_for config.settings user) user now S d result
        (answered config now message sessions R marks).0.1)
        × AddsAll may config.own (space_for config.settings user) user now details results R
        (answered config now message sessions R marks).0.1 }
{}
