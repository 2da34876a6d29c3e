//! The laws, each over every supply.
ghost use Rattle.std.specs.Prelude.{◌≡◌, ◌≢◌, ◌↔◌, ℕ, List, []};
ghost use Rattle.mqtt_packet.specs.declared.packet.Packet.{Packet};
ghost use Rattle.conn_supply.specs.declared.reply.Then.{Then};
ghost use Rattle.conn_supply.specs.declared.reply.Then.TheVariants.{Go};
ghost use Rattle.conn_engine.specs.declared.input.Input.{Input};
ghost use Rattle.conn_engine.specs.declared.input.Input.TheVariants.{EndOfInput};
ghost use Rattle.conn_engine.specs.declared.phase.ConnectedClient.{ConnectedClient};
ghost use Rattle.conn_engine.specs.declared.phase.ConnPhase.{ConnPhase};
ghost use Rattle.conn_engine.specs.declared.phase.ConnPhase.TheVariants as phases;
ghost use Rattle.conn_laws.specs.Asking.{OneAnswer};
ghost use Rattle.conn_laws.specs.Calls.{StepCalls, FailedCalls};
ghost use Rattle.conn_laws.specs.Behind.{IsLast, KeepsOrEnds, IsAllHandedOut};
ghost use Rattle.conn_laws.specs.Publishers.{CallsFrom};
ghost use Rattle.conn_laws.specs.ReturnedFirst.{CallsReturnedFirst};
ghost use Rattle.conn_laws.specs.Quotas.{IsWithinLimit, IsWithinQuota};
ghost use Rattle.conn_laws.specs.Subscriptions.{Identifies, InSession};
ghost use Rattle.conn_laws.specs.Transcripts.{IsNotEnding, Transcribes};
ghost use Rattle.conn_engine.specs.Step.{Steps, FailsToStep};

use conn_supply::{HoldingPlace, Supply};

/// **A connection is over exactly where its step says so**: it has ended after a step that does not go on, and after no other.
/// And it ends by a fault, by the end of its input, and by the broker's closing (`last`); the end of its input is answered by nothing (`silent`). A connection whose client has its session has one after
/// each step until it ends (`keeps`).
pub fn ended_law<P: HoldingPlace, S: Supply<P>>()
    ensures told { (number now : ℕ) (phase phase' : ConnPhase P) (input : Input) (packets : List Packet) (next : Then) (old new : S) →
        Steps S.call P.slot_of old number phase now input packets next phase' new →
        (phase' ≡ phases.Ended) ↔ (next ≢ Go) }
    ensures last { (number now : ℕ) (phase phase' : ConnPhase P) (input : Input) (packets : List Packet) (next : Then) (old new : S) →
        Steps S.call P.slot_of old number phase now input packets next phase' new →
        IsLast input → phase' ≡ phases.Ended }
    ensures silent { (number now : ℕ) (phase phase' : ConnPhase P) (packets : List Packet) (next : Then) (old new : S) →
        Steps S.call P.slot_of old number phase now EndOfInput packets next phase' new → packets ≡ [] }
    ensures keeps { (number now : ℕ) (connected : ConnectedClient P) (phase' : ConnPhase P) (input : Input) (packets : List Packet) (next : Then) (old new : S) →
        Steps S.call P.slot_of old number (phases.Connected connected) now input packets next phase' new → KeepsOrEnds phase' }
{}

/// **Nothing is left to hand out** after a step that leaves a client with its session: no message waits to be sent again that the
/// quota has room for; and where the session is a member's, its window has no room for another message, or there was none, when it
/// was asked for last, or the supply's last answer was that the place is to be handed no more now, or the last 131,072 that it was handed
/// were discarded.
pub fn eager_law<P: HoldingPlace, S: Supply<P>>()
    ensures { (number now : ℕ) (phase : ConnPhase P) (connected : ConnectedClient P) (input : Input) (packets : List Packet) (next : Then) (old new : S) →
        Steps S.call P.slot_of old number phase now input packets next (phases.Connected connected) new →
        IsAllHandedOut S.call connected now new }
{}

/// **The quota is kept** (section 4.9): of the PUBLISH packets that a connection sent, those that wait for their PUBACK are never more than the
/// Receive Maximum that its terms have, and never more than 256. And these terms are never more than the limit that the connection was opened with
/// (`limited`, profile).
pub fn quota_law<P: HoldingPlace, S: Supply<P>>()
    ensures kept { (number now : ℕ) (phase phase' : ConnPhase P) (input : Input) (packets : List Packet) (next : Then) (old new : S) →
        Steps S.call P.slot_of old number phase now input packets next phase' new →
        IsWithinQuota phase → IsWithinQuota phase' }
    ensures limited { (number now limit : ℕ) (phase phase' : ConnPhase P) (input : Input) (packets : List Packet) (next : Then) (old new : S) →
        Steps S.call P.slot_of old number phase now input packets next phase' new →
        IsWithinLimit limit phase → IsWithinLimit limit phase' }
{}

/// **A session's Subscription Identifier is that of its last subscription** (section 3.8.2.1.2): a SUBSCRIBE of which an entry is granted by the SUBACK
/// sets it, or takes it away where it has none; and no other step of a connection that keeps its session changes it. Under it goes out what the step hands
/// out (`hands` of `transcript_law`).
pub fn identifier_law<P: HoldingPlace, S: Supply<P>>()
    ensures { (number now : ℕ) (connected : ConnectedClient P) (phase' : ConnPhase P) (input : Input) (packets : List Packet) (next : Then) (old new : S) →
        Steps S.call P.slot_of old number (phases.Connected connected) now input packets next phase' new →
        InSession (Identifies input packets connected.session.subscription) phase' }
{}

/// **A step is a list of calls**, and so is one that wants memory (`failed`): what holds of every list of calls holds after every
/// step. Among them:
///
/// - a message is offered only by the PUBLISH that brought it, once to each group that matches, in the order of their slots; where
///   an allocation fails, to some of them, from the first on;
/// - a message is settled only by a PUBACK under its identifier, once, as its Reason Code says, or else discarded by the step that was handed it;
/// - what is handed out is sent by the same step, each message in a PUBLISH of its own with DUP 0, in their order, and no other packet
///   brings a message for the first time; but a message that has expired, or is too long for the client, is discarded, and no other is (sections 3.1.2.11.4 and
///   3.3.2.3.3); where
///   an allocation fails nothing is sent;
/// - it is handed to the place that the connection has then, by the last calls of the step, one after the other;
/// - no place is lost and none is made: the connection has those that it had and that its calls brought, but for those that they took.
pub fn calls_law<P: HoldingPlace, S: Supply<P>>()
    ensures stepped { (number now : ℕ) (phase phase' : ConnPhase P) (input : Input) (packets : List Packet) (next : Then) (old new : S) →
        Steps S.call P.slot_of old number phase now input packets next phase' new →
        StepCalls S.call old number phase now input packets next phase' new }
    ensures failed { (number now : ℕ) (phase : ConnPhase P) (input : Input) (old new : S) →
        FailsToStep S.call P.slot_of old number phase now input new →
        FailedCalls S.call old number phase now input new }
{}

/// **A connection publishes as itself**: whatever a step offers to a group, it offers it from the number of its connection, and so does one that
/// wants memory (`failed`).
pub fn publisher_law<P: HoldingPlace, S: Supply<P>>()
    ensures stepped { (number now : ℕ) (phase phase' : ConnPhase P) (input : Input) (packets : List Packet) (next : Then) (old new : S) →
        Steps S.call P.slot_of old number phase now input packets next phase' new → CallsFrom S.call number old new }
    ensures failed { (number now : ℕ) (phase : ConnPhase P) (input : Input) (old new : S) →
        FailsToStep S.call P.slot_of old number phase now input new → CallsFrom S.call number old new }
{}

/// **What was given back is handed out first**: a step hands a place a message of the queue only directly after a call that asked for one that was
/// given back, and found none; **and a message is discarded as soon as it is handed out**: directly after the call that hands it out. So it is in one that
/// wants memory (`failed`).
pub fn returned_first_law<P: HoldingPlace, S: Supply<P>>()
    ensures stepped { (number now : ℕ) (phase phase' : ConnPhase P) (input : Input) (packets : List Packet) (next : Then) (old new : S) →
        Steps S.call P.slot_of old number phase now input packets next phase' new → CallsReturnedFirst S.call old new }
    ensures failed { (number now : ℕ) (phase : ConnPhase P) (input : Input) (old new : S) →
        FailsToStep S.call P.slot_of old number phase now input new → CallsReturnedFirst S.call old new }
{}

/// **A step has one outcome** where each call of its supply has one answer, memory aside: the same packets, the same that becomes of
/// the connection, and the same supply.
pub fn one_step_law<P: HoldingPlace, S: Supply<P>>()
    ensures { (number now : ℕ) (phase one other : ConnPhase P) (input : Input) (packets packets' : List Packet) (next next' : Then) (old new new' : S) →
        OneAnswer S.call (λ these those. these ≡ those) →
        Steps S.call P.slot_of old number phase now input packets next one new →
        Steps S.call P.slot_of old number phase now input packets' next' other new' →
        (packets ≡ packets') × (next ≡ next') × (one ≡ other) × (new ≡ new') }
{}

/// **A step adds to the transcript of its connection's session** (sections 4.4 and 4.9), where that is not ending, as none is that a connection
/// has: its PUBLISH packets are those of the marks that its calls make in the session's window, in their order.
///
/// - A connection that is given a session adds `Up` with the Receive Maximum of its CONNECT; from then on it has that session and no other, and
///   adds `Down` where it ends, and hands the session in.
/// - What is handed out is handed to the place of this session; what the client may be sent of it is sent for the first time, in that order, and the rest is discarded.
/// - What is acknowledged is settled, once, by the PUBACK that came, and nothing else is but what is discarded; and no PUBACK for what the session holds is passed
///   over, unless another connection took the session.
pub fn transcript_law<P: HoldingPlace, S: Supply<P>>()
    ensures { (number now : ℕ) (phase phase' : ConnPhase P) (input : Input) (packets : List Packet) (next : Then) (old new : S) →
        Steps S.call P.slot_of old number phase now input packets next phase' new →
        IsNotEnding phase → Transcribes S.call old number phase now input packets next phase' new }
{}
