//! Laws of a server: what holds whatever events happen to it. Each is the contract of a function that does nothing, stated over the
//! definitions that the contract of [`Server::happen`](crate::Server::happen) cites.
ghost use Rattle.std.specs.Prelude.{◌≡◌, ℕ, ◌≤◌, true, false, List, [], None, Ok, Result};
ghost use Rattle.std.specs.List.{AllByRecursion};
ghost use Rattle.limits.specs.Limits.{default_sessions};
ghost use Rattle.session_desk.specs.Hands.{DeskLaw, living_in};
ghost use Rattle.conn_supply.specs.declared.supply.NoMemory.{NoMemory};
ghost use Rattle.client_table.specs.Clients.{StepOutput};
ghost use Rattle.local_broker.specs.Broker.{is_open};
ghost use Rattle.local_server.specs.declared.event.ServerEvent.{ServerEvent};
ghost use Rattle.local_server.specs.declared.event.ServerEvent.TheVariants as events;
ghost use Rattle.local_server.specs.declared.event.TimedEvent.{TimedEvent};
ghost use Rattle.conn_rules.specs.declared.setup.Setup.{Setup};
ghost use Rattle.local_server.specs.Deliveries.{HandsOutWhatIsSent};
ghost use Rattle.local_server.specs.Servers.{HasNoneBelow, ServerState, IsNewServer};
ghost use Rattle.local_server.specs.Alike.{AreAlike};
ghost use Rattle.local_server.specs.Happening.{Happens, HappensAll};
ghost use Rattle.local_server.specs.GoingThrough.{GoesThrough};
ghost use Rattle.local_server.specs.Headline.{HoldsTheHeadline};
ghost use Rattle.local_server.specs.Quotas.{AllWithinQuota};
ghost use Rattle.local_server.specs.Runs.{IsReachedBy, AllRunLawfully};
ghost use Rattle.local_server.specs.Addressed.{Answers};
ghost use Rattle.local_server.specs.Publishers.{AcceptsFrom};
ghost use Rattle.local_server.specs.Messages.{SendsWhatWasAccepted};
ghost use Rattle.local_server.specs.Settling.{SettlesWhatIsAcknowledged};
ghost use Rattle.local_server.specs.Sizes.{AllShort, AllWritable};
ghost use Rattle.local_server.specs.Transcripts.{KeepsTranscripts, AccountAlong};
ghost use Rattle.local_server.specs.Eager.{AllHandReturnedFirst};
ghost use Rattle.local_server.specs.LastEvents.{AllAddTheClose};
ghost use Rattle.local_server.specs.TakenSteps.{TakenStep, steps_of, AllAreTaken};
ghost use Rattle.local_server.specs.Unsubscribed.{HandsNothingToWhoLeft, HandsNothingToSessionsThatLeft};
ghost use Rattle.local_server.specs.Connections.{AllKeepConnections, IsOfAnother};
ghost use Rattle.local_server.specs.Streams.{client_at};
ghost use Rattle.local_server.specs.Acceptance.{AcknowledgesWhatIsAccepted};
ghost use Rattle.local_server.specs.NothingWaits.{LeavesNothing};
ghost use Rattle.local_server.specs.PacketSizes.{SendsWhatFits, FitTheirConnects};
ghost use Rattle.local_server.specs.ReceiveMaximums.{KeepToTheirConnects};
ghost use Rattle.local_server.specs.Discards.{DiscardsExpiredOrTooLong};
ghost use Rattle.local_server.specs.WholeStreams.{ReadsWholeStream};

/// **The headline on one thread**, whatever events happen to a server, over however many connections and in whatever order, and whether memory
/// was wanted in them or not: each accepted message is first handed to at most one member, once; each member's first hand-outs from a publisher
/// keep that publisher's order; no connection has more unacknowledged PUBLISH packets than its Receive Maximum; a refused message goes to nobody
/// else, nor does a discarded one; nothing is accepted or handed out after close; and a report gives each accepted message exactly one fate.
pub fn headline_law()
    ensures { (setup : Setup) (events : List TimedEvent) (first last : ServerState) →
        IsNewServer setup first → GoesThrough first events last → HoldsTheHeadline last }
{}

/// **An event is a list of calls** of what the connections share, and perhaps its close, whether an allocation failed or not (`one`); and so
/// are many (`all`). So each law of `local_broker` holds after every event. The runs in which no allocation failed are among these (`without`).
pub fn happenings_law()
    ensures one { (moment : ℕ) (event : ServerEvent) (outputs : List StepOutput) (result : Result (Unit {0}) NoMemory) (old new : ServerState) →
        Happens old moment event outputs result new → IsReachedBy old.broker new.broker }
    ensures all { (events : List TimedEvent) (old new : ServerState) → GoesThrough old events new → IsReachedBy old.broker new.broker }
    ensures without { (events : List TimedEvent) (outputs : List StepOutput) (old new : ServerState) →
        HappensAll old events outputs new → GoesThrough old events new }
{}

/// **Each group runs lawfully, whatever happens to its server**, with memory and without: its events are a run to where its jobs are. So each accepted
/// message was first handed to one member at most, each member's first hand-outs keep the order of each connection's messages, and
/// every accepted message is in one place. One that was refused goes to nobody else, and nothing is handed out after the close, as
/// `dispatch_core` has it of every run.
pub fn running_law()
    ensures { (setup : Setup) (events : List TimedEvent) (first last : ServerState) →
        IsNewServer setup first → GoesThrough first events last → AllRunLawfully last.broker }
{}

/// **What is handed out is what is sent**, in every run: the messages of the PUBLISH packets with DUP 0 that the clients are told of are,
/// in order, those that places were handed, but for those that were discarded, each with its topic, its properties and its payload; and the
/// hand-outs that a group's events tell are those to its places, in the same order. So each goes out with DUP 0 as often as it was handed out and not
/// discarded: once, and once more for each time that it was given back and handed out again. What is left of its Message Expiry Interval, and its
/// Subscription Identifier, the transcripts tell (`transcript_law`).
/// The runs are those in which no allocation failed.
pub fn hand_out_law()
    ensures { (setup : Setup) (events : List TimedEvent) (outputs : List StepOutput) (first last : ServerState) →
        IsNewServer setup first → HappensAll first events outputs last → HandsOutWhatIsSent last outputs }
{}

/// **The transcript of each session is legal, along every run** (sections 4.4 and 4.9), over however many connections the session is resumed
/// and taken over: each step adds its marks to the transcript of its connection's session, and its PUBLISH packets are those of these marks, each
/// with what is left of its message's interval at the moment of the step (section 3.3.2.3.3), which is that of the server's clock in its event
/// (`whole`). It is so at each moment, before and after each event, with one list of steps, to which each event adds after those before (`along`);
/// and the steps of an event answer what comes in it: a client's stream is read packet by packet, each answered by a step, and a Tick, the
/// end of the input and the close by one each.
/// So at each moment no more is unacknowledged than the Receive Maximum; a message goes out with DUP 0 under the least identifier that is free, after
/// all that is sent again; what is sent again has its own identifier and its place in the order of first sending; and only what is held is
/// acknowledged. A connection has one session from its CONNECT to its end, and no other connection has it at that moment. What an open connection's
/// session holds and owes is as its transcript has it, and so is its quota, which is the Receive Maximum of the CONNECT, and 256 at most; and what a
/// parked session holds is as its transcript has it. And the hand-outs that a group's events tell, first and later ones, are what is sent with DUP 0,
/// in that order. The runs are those in which no allocation failed.
pub fn transcript_law()
    ensures whole { (setup : Setup) (events : List TimedEvent) (outputs : List StepOutput) (first last : ServerState) →
        IsNewServer setup first → (run : HappensAll first events outputs last) → KeepsTranscripts first events outputs last run }
    ensures along { (setup : Setup) (events : List TimedEvent) (outputs : List StepOutput) (first last : ServerState) →
        IsNewServer setup first → (run : HappensAll first events outputs last) → AccountAlong [] first events outputs last run }
{}

/// **What was given back is handed out first**, in every run (profile): whenever a message is first handed out in a group, none of its messages
/// waits that was given back (`all`). It is so after whatever events, and after one more, whether an allocation failed in that or not (`one`).
pub fn eager_law()
    ensures one { (setup : Setup) (events : List TimedEvent) (earlier outputs : List StepOutput) (moment : ℕ) (event : ServerEvent) (result : Result (Unit {0}) NoMemory)
        (first old new : ServerState) →
        IsNewServer setup first → HappensAll first events earlier old → Happens old moment event outputs result new → AllHandReturnedFirst new.broker }
    ensures all { (setup : Setup) (events : List TimedEvent) (outputs : List StepOutput) (first last : ServerState) →
        IsNewServer setup first → HappensAll first events outputs last → AllHandReturnedFirst last.broker }
{}

/// **What is acknowledged is settled**, along every run (sections 3.4 and 4.3.2): the events of a group by which a message is acknowledged, refused or discarded
/// are, in order, what the `Acked` marks among the transcripts of the sessions acknowledge, each the message that its session held under the mark's
/// identifier, by the place that was handed it, acknowledged where the Reason Code is below 0x80, and refused else. And whatever a session holds, of an
/// open connection or with the desk, is out at that session's place. So each `Acked` of a transcript is one settlement in its group, and no event of
/// a group settles anything else. And each is the PUBACK that came for it, and no PUBACK that comes for what a session holds is passed over, where
/// its connection goes on. The runs are those in which no allocation failed.
pub fn settling_law()
    ensures { (setup : Setup) (events : List TimedEvent) (outputs : List StepOutput) (first last : ServerState) →
        IsNewServer setup first → (run : HappensAll first events outputs last) → SettlesWhatIsAcknowledged first events outputs last run }
{}

/// **What is sent is what was accepted**, along every run (sections 3.3, 4.3.2 and 4.4): each PUBLISH packet that a session is sent, with DUP 0 or 1, is
/// the message that its group accepted under its stamp: of the messages that the group accepted through the stamp's port, the one in the
/// place that the stamp's number says. And what the groups accepted, as their events tell, is in order the messages of the PUBLISH packets that came:
/// each with the moment of the step in which it came, from which its interval counts (section 3.3.2.3.3), through the port of the connection that it came
/// from, and once by each of some groups. The runs are those in which no allocation failed.
pub fn message_law()
    ensures { (setup : Setup) (events : List TimedEvent) (outputs : List StepOutput) (first last : ServerState) →
        IsNewServer setup first → (run : HappensAll first events outputs last) → SendsWhatWasAccepted first events outputs last run }
{}

/// **No packet is too long to be written**, along every run (section 2.1.4): each packet that is said has at most 65,564 bytes in all (`short`), and so a
/// Remaining Length that can be said: `mqtt_wire`'s `encode` refuses none as too large (`writable`). For a message is handed on as it came in a PUBLISH
/// that was read, which has at most 65,536 bytes. The runs are those in which no allocation failed.
pub fn size_law()
    ensures short { (setup : Setup) (events : List TimedEvent) (outputs : List StepOutput) (first last : ServerState) →
        IsNewServer setup first → HappensAll first events outputs last → AllShort outputs }
    ensures writable { (setup : Setup) (events : List TimedEvent) (outputs : List StepOutput) (first last : ServerState) →
        IsNewServer setup first → HappensAll first events outputs last → AllWritable outputs }
{}

/// **The desk law holds, whatever happens to the server**, with memory and without: no two sessions of one client that are lent or parked,
/// and none parked that is ending (`kept`). At most 256 are lent or parked (`few`).
pub fn desk_law()
    ensures kept { (setup : Setup) (events : List TimedEvent) (first last : ServerState) →
        IsNewServer setup first → GoesThrough first events last → DeskLaw last.broker.desk.rows last.broker.desk.made }
    ensures few { (setup : Setup) (events : List TimedEvent) (first last : ServerState) →
        IsNewServer setup first → GoesThrough first events last → living_in last.broker.desk.rows ≤ default_sessions }
{}

/// **The quota is kept on every connection** (section 4.9), whatever happens to the server, also where an allocation fails (`one`): of the PUBLISH
/// packets that were sent on it, those that wait for their PUBACK are never more than the Receive Maximum that its terms have, which are those of
/// its CONNECT by the step law, and never more than 256.
pub fn quota_law()
    ensures one { (moment : ℕ) (event : ServerEvent) (outputs : List StepOutput) (result : Result (Unit {0}) NoMemory) (old new : ServerState) →
        Happens old moment event outputs result new → AllWithinQuota old.clients → AllWithinQuota new.clients }
    ensures all { (setup : Setup) (events : List TimedEvent) (first last : ServerState) →
        IsNewServer setup first → GoesThrough first events last → AllWithinQuota last.clients }
{}

/// **What is said in an event of a connection is said to that one**, after whatever events, whether an allocation failed in it, or in any before it, or
/// not.
pub fn addressing_law()
    ensures { (setup : Setup) (events : List TimedEvent) (outputs : List StepOutput) (moment : ℕ) (event : ServerEvent) (result : Result (Unit {0}) NoMemory)
        (first old new : ServerState) →
        IsNewServer setup first → GoesThrough first events old → Happens old moment event outputs result new → Answers event outputs }
{}

/// **A port is its publisher's connection**: whatever a group accepts in an event of a connection, it accepts through the port of that connection's number, and
/// in a close it accepts nothing; after whatever events, whether an allocation failed in it, or in any before it, or not.
pub fn publisher_law()
    ensures { (setup : Setup) (events : List TimedEvent) (outputs : List StepOutput) (moment : ℕ) (event : ServerEvent) (result : Result (Unit {0}) NoMemory)
        (first old new : ServerState) →
        IsNewServer setup first → GoesThrough first events old → Happens old moment event outputs result new → AcceptsFrom event old.broker new.broker }
{}

/// **A close ends every connection**, whether an allocation failed or not: none of the 64 is open after it.
pub fn emptying_law()
    ensures { (moment : ℕ) (outputs : List StepOutput) (result : Result (Unit {0}) NoMemory) (old new : ServerState) →
        is_open old.broker ≡ true → Happens old moment events.Close outputs result new → HasNoneBelow 64 new.clients }
{}

/// **The close is what happens last in each group**: where it wants no memory, each group has after it the events of before, the close, and
/// no other (`last`). After it nothing happens any more, and nothing is said.
pub fn closing_law()
    ensures last { (moment : ℕ) (outputs : List StepOutput) (old new : ServerState) →
        is_open old.broker ≡ true → Happens old moment events.Close outputs (Ok tt) new → AllAddTheClose old.broker new.broker }
    ensures silent { (events : List TimedEvent) (outputs : List StepOutput) (old new : ServerState) →
        is_open old.broker ≡ false → HappensAll old events outputs new → outputs ≡ [] }
    ensures still { (events : List TimedEvent) (outputs : List StepOutput) (old new : ServerState) →
        is_open old.broker ≡ false → HappensAll old events outputs new → (new.broker ≡ old.broker) × (new.clients ≡ old.clients) }
{}

/// **A run has one outcome**, where no allocation failed: whatever events happen to two servers of one setup, the same is said in them,
/// and the servers are alike after them (`all`). New ones are alike (`new`), and each event keeps servers alike that keep the desk law,
/// and says the same in both (`one`).
pub fn one_run_law()
    ensures new { (setup : Setup) (a b : ServerState) → IsNewServer setup a → IsNewServer setup b → AreAlike a b }
    ensures one { (moment : ℕ) (event : ServerEvent) (outputs outputs' : List StepOutput) (a b a' b' : ServerState) →
        AreAlike a b → DeskLaw a.broker.desk.rows a.broker.desk.made →
        Happens a moment event outputs (Ok tt) a' → Happens b moment event outputs' (Ok tt) b' → (outputs ≡ outputs') × AreAlike a' b' }
    ensures all { (setup : Setup) (events : List TimedEvent) (outputs outputs' : List StepOutput) (first first' last last' : ServerState) →
        IsNewServer setup first → IsNewServer setup first' →
        HappensAll first events outputs last → HappensAll first' events outputs' last' → (outputs ≡ outputs') × AreAlike last last' }
{}

/// **Each step answers what came in it**, along every run: there is one list of steps, each with what came, what was sent, and how far its connection had come and
/// what the connections shared, before it and after it.
///
/// - What is said in an event is what its steps sent, in their order: replies of every kind, what is handed out, and nothing at the end of the input.
/// - Each is a step of the step law, made at the moment of the server's clock in its event: its packets are the answer to what came.
/// - They follow one another: each begins with what the connections shared after the one before it, the first of an event with what they shared before the event (of
///   a close once the groups are closed), and the last leaves what they share after it. And each step of a connection begins where the last one left that connection,
///   the first of one that was opened where it waits for its CONNECT; and what its last step leaves is what the connection has after the event, or it has ended. One that is
///   not open takes none.
/// - They answer what comes in their event: a client's stream is read packet by packet, each answered by a step; and a Tick, the end of the input and the close by one.
///
/// The runs are those in which no allocation failed.
pub fn answers_law()
    ensures { (setup : Setup) (events : List TimedEvent) (outputs : List StepOutput) (first last : ServerState) →
        IsNewServer setup first → (run : HappensAll first events outputs last) →
        (steps : List TakenStep) × AllAreTaken first events outputs last run steps }
{}

/// **No connection vanishes**, along every run in which no allocation failed (`kept`): one that is open before an event is open after it, or the last step that it takes in the
/// event ends it; and one that its last step in an event ends is open no more. One that an event opens is open after it, whether it was before or not; and no other comes to be
/// open. What is told to a connection that is ended is in its step (`answers_law`): DISCONNECT 8B at the close, 8E where another connection takes its session over, nothing at
/// the end of its input.
/// And an event of one connection leaves each other as it is, whether an allocation failed in it or not (`others`).
pub fn connections_law()
    ensures kept { (setup : Setup) (events : List TimedEvent) (outputs : List StepOutput) (first last : ServerState) →
        IsNewServer setup first → (run : HappensAll first events outputs last) →
        (steps : List TakenStep) (taken : AllAreTaken first events outputs last run steps) → AllKeepConnections first events outputs last run steps taken }
    ensures others { (moment : ℕ) (event : ServerEvent) (outputs : List StepOutput) (result : Result (Unit {0}) NoMemory) (old new : ServerState) (connection : ℕ) →
        Happens old moment event outputs result new → IsOfAnother event connection → client_at new.clients connection ≡ client_at old.clients connection }
{}

/// **A PUBACK says which groups accepted the message** (section 3.4.2.1), along every run: a step in which a PUBLISH of QoS 1 is acknowledged sends one PUBACK, of its
/// Packet Identifier: with Reason Code 00 exactly where a filter matches the topic and each group whose filter does accepted one message of this connection in this step, as
/// the groups' events tell; with 10 exactly where none matches; and with 97 exactly where one that matches did not. No group whose filter does not match accepts anything; and
/// in any other step no group accepts anything, and no PUBACK is sent. Each PUBLISH of QoS 1 after whose step the connection goes on is acknowledged in that step. So what is
/// acknowledged with 00 was accepted before that, and whatever is accepted is acknowledged at once. The events tell through whose port a group accepted a message; which
/// message it was, `message_law` says.
/// The runs are those in which no allocation failed.
pub fn acceptance_law()
    ensures { (setup : Setup) (events : List TimedEvent) (outputs : List StepOutput) (first last : ServerState) →
        IsNewServer setup first → (run : HappensAll first events outputs last) →
        (steps : List TakenStep) → AllAreTaken first events outputs last run steps → AllByRecursion AcknowledgesWhatIsAccepted steps }
{}

/// **A step leaves nothing to its client that could go**, along every run (sections 4.4, 4.6 and 4.9): after each step that leaves its client with its session, no message of an
/// earlier connection waits to be sent again while the quota has room; and where this client is a member whose window has room for another message, its group has none for it,
/// neither one that was given back nor one that is queued; or the last 131,072 messages that the member's place was handed were discarded, as the group's last events tell. It
/// speaks of the client whose step it is: what another client's step queues waits for the member's own next step.
/// The runs are those in which no allocation failed.
pub fn nothing_waits_law()
    ensures { (setup : Setup) (events : List TimedEvent) (outputs : List StepOutput) (first last : ServerState) →
        IsNewServer setup first → (run : HappensAll first events outputs last) →
        (steps : List TakenStep) → AllAreTaken first events outputs last run steps → AllByRecursion LeavesNothing steps }
{}

/// **Who leaves its group is handed nothing from then on**, along every run, between any two steps, also inside one piece of a client's stream (sections 3.8 to 3.11; profile):
/// in a step in which an UNSUBSCRIBE is answered by an UNSUBACK with Reason Code 00, and in each later step of the same connection (`connection`), or of the same session, over
/// however many connections (`session`), until a SUBSCRIBE is answered by a SUBACK with 01, no group hands out a message, for the first time or again, and no PUBLISH is sent
/// with DUP 0.
/// The runs are those in which no allocation failed.
pub fn leaving_law()
    ensures connection { (setup : Setup) (events : List TimedEvent) (outputs : List StepOutput) (first last : ServerState) →
        IsNewServer setup first → (run : HappensAll first events outputs last) →
        (steps : List TakenStep) → AllAreTaken first events outputs last run steps → (connection : ℕ) → HandsNothingToWhoLeft (steps_of connection steps) }
    ensures session { (setup : Setup) (events : List TimedEvent) (outputs : List StepOutput) (first last : ServerState) →
        IsNewServer setup first → (run : HappensAll first events outputs last) →
        (steps : List TakenStep) → AllAreTaken first events outputs last run steps → HandsNothingToSessionsThatLeft steps }
{}

/// **No client is sent a packet that is longer than it takes**, along every run (section 3.1.2.11.4): no packet of a step has more bytes in all than the Maximum Packet
/// Size of its connection's client, where that has named one; so it is with each message, sent for the first time or again, and with each reply, the CONNACK too.
///
/// - The Maximum Packet Size is that of the terms that the connection has, or waits with, or of the CONNECT that comes in the step (`each`).
/// - It is that of the CONNECT that came first on the connection, which keeps it in its terms until it ends: so no packet of the connection is longer, from that
///   CONNECT on (`connect`).
///
/// The runs are those in which no allocation failed.
pub fn packet_size_law()
    ensures each { (setup : Setup) (events : List TimedEvent) (outputs : List StepOutput) (first last : ServerState) →
        IsNewServer setup first → (run : HappensAll first events outputs last) →
        (steps : List TakenStep) → AllAreTaken first events outputs last run steps → AllByRecursion SendsWhatFits steps }
    ensures connect { (setup : Setup) (events : List TimedEvent) (outputs : List StepOutput) (first last : ServerState) →
        IsNewServer setup first → (run : HappensAll first events outputs last) →
        (steps : List TakenStep) → AllAreTaken first events outputs last run steps → (connection : ℕ) → FitTheirConnects None (steps_of connection steps) }
{}

/// **The quota is that of the CONNECT that came** (sections 3.1.2.11.3 and 4.9), along every run: after each step, of the PUBLISH packets that were sent on a connection no more
/// are unacknowledged than the Receive Maximum that its CONNECT named, or 65,535 where it named none; nor than the limit of the server's setup, nor than 256 (profile).
/// The CONNECT is the one that came first on the connection, and what it asked for are the terms that the connection has, and waits with, until it ends: its Receive
/// Maximum, or the server's limit where that is less, its Session Expiry Interval, its Keep Alive and its Maximum Packet Size.
/// The runs are those in which no allocation failed.
pub fn receive_maximum_law()
    ensures { (setup : Setup) (events : List TimedEvent) (outputs : List StepOutput) (first last : ServerState) →
        IsNewServer setup first → (run : HappensAll first events outputs last) →
        (steps : List TakenStep) → AllAreTaken first events outputs last run steps →
        (connection : ℕ) → KeepToTheirConnects setup.max_inflight None (steps_of connection steps) }
{}

/// **What is discarded had expired then, or is too long for its client; and what goes out for the first time is neither** (sections 3.1.2.11.4 and 3.3.2.3.3), along every run. The
/// messages that the groups hand out in a step, first and again, in their order, each the one that is in front of those that wait in its group then:
///
/// - one is discarded exactly where its Message Expiry Interval has passed at the moment of the step, or its PUBLISH is longer than the Maximum Packet Size of the client that the
///   connection has after the step; the others go out with DUP 0 in the step, each in a PUBLISH of its own, in their order, with their topics, properties and payloads, and nothing else
///   goes out so;
/// - the events that each group has gained tell these hand-outs, and no other, by First and Again, and those discards, and no other: each Discard is of the same job, by the same
///   member, directly after the First or the Again that handed it out. What else happened in the group in the step came before.
///
/// It speaks of each message as it waits in its group: where it waited before the step, or is that of the PUBLISH that came in it, or was given back in it. That it is the one that
/// was accepted under its stamp `message_law` says of what is sent alone.
/// The runs are those in which no allocation failed.
pub fn discard_law()
    ensures { (setup : Setup) (events : List TimedEvent) (outputs : List StepOutput) (first last : ServerState) →
        IsNewServer setup first → (run : HappensAll first events outputs last) →
        (steps : List TakenStep) → AllAreTaken first events outputs last run steps → AllByRecursion DiscardsExpiredOrTooLong steps }
{}

/// **The whole stream of a connection is read packet by packet** (sections 2.1 and 4.13), along every run: before each event and after the last, the pieces that came on a
/// connection since it was opened, one after the other, are the packets that its steps since then were stepped with, in their order, and then what is left.
///
/// - What is left is what an open connection has unread: nothing whole and no fault stands in front of it, unless the connection waits for a session.
/// - A connection that has ended was ended by a packet, or by the fault that stands in front of what is left, or otherwise; then nothing more of its stream is read.
/// - A Tick, the end of the input and the close are stepped too, and read nothing. Where the connection is opened again, its stream begins anew.
///
/// The steps are those of `answers_law`. The runs are those in which no allocation failed.
pub fn stream_law()
    ensures { (setup : Setup) (events : List TimedEvent) (outputs : List StepOutput) (first last : ServerState) →
        IsNewServer setup first → (run : HappensAll first events outputs last) →
        (steps : List TakenStep) (taken : AllAreTaken first events outputs last run steps) → (connection : ℕ) → ReadsWholeStream connection [] [] first events outputs last run steps taken }
{}
