//! Laws of a connection that is served: what holds of every life, over every transport and every supply, whatever others do to the supply between
//! its acts. Each is the contract of a function that does nothing, stated over the definitions that the contracts of
//! [`Service`](crate::Service) and [`serve`](crate::serve) cite.
ghost use Rattle.std.specs.Prelude.{◌≡◌, ◌≢◌, ℕ, List, None};
ghost use Rattle.std.specs.List.{AllByRecursion};
ghost use Rattle.std.specs.Option.{option_to_list};
ghost use Rattle.conn_engine.specs.declared.phase.Opening.{Opening};
ghost use Rattle.conn_laws.specs.Quotas.{IsWithinLimit, IsWithinQuota};
ghost use Rattle.conn_service.specs.Acts.{Act, endings_of};
ghost use Rattle.conn_service.specs.Services.{ServiceState, opened};
ghost use Rattle.conn_service.specs.Lives.{Does, DoesAll};
ghost use Rattle.conn_service.specs.Sessions.{IsLegalLife, TellsItsSession};
ghost use Rattle.conn_service.specs.Transcripts.{IsQuiet, ReadsItsStream, WritesItsPackets};

use conn_supply::{HoldingPlace, Supply};
use transport::Transport;

/// **What is stepped is what was read** (sections 2.1 and 4.13), whatever pieces it comes in: the packets that are stepped are those that the bytes
/// spell which reads gave, in their order, and then the fault that stands in front of the rest, if it was met. As long as the connection goes on, that
/// rest is what its client has not read.
pub fn reading_law<P: HoldingPlace, T: Transport, S: Supply<P>>()
    ensures { (number : ℕ) (opening : Opening) (first : T) (acts : List Act) (service : ServiceState P T) (supply supply' : S) →
        DoesAll S.call S.begins S.ends S.visiting P.slot_of T.counts T.given T.accepted acts (opened number opening first) supply service supply' →
        ReadsItsStream acts service }
{}

/// **What is written begins the written forms of what is said** (chapter 3), whatever the transport does: the bytes that it took are a beginning of
/// the written forms of the packets that the steps said, in their order, each packet once; what lacks waits, as long as the connection has not ended; and
/// nothing lacks where it ended with 0.
pub fn writing_law<P: HoldingPlace, T: Transport, S: Supply<P>>()
    ensures { (number : ℕ) (opening : Opening) (first : T) (acts : List Act) (service : ServiceState P T) (supply supply' : S) →
        DoesAll S.call S.begins S.ends S.visiting P.slot_of T.counts T.given T.accepted acts (opened number opening first) supply service supply' →
        WritesItsPackets T.accepted first acts service }
{}

/// **A connection ends once, for a reason** (`once`): of all its acts, one ends it, and its ending says which: a read that failed (901), a write that
/// failed (902), a step, a read or a packet for which an allocation failed (903), a crossing that let nothing pass (904), a transport that took nothing for too
/// long (905), or that a step closed it and all that was said is written (0). After that it is not read, written or stepped, but given up, where its
/// last step is missing (`quiet`).
pub fn ending_law<P: HoldingPlace, T: Transport, S: Supply<P>>()
    ensures once { (number : ℕ) (opening : Opening) (first : T) (acts : List Act) (service : ServiceState P T) (supply supply' : S) →
        DoesAll S.call S.begins S.ends S.visiting P.slot_of T.counts T.given T.accepted acts (opened number opening first) supply service supply' →
        endings_of acts ≡ option_to_list service.ending }
    ensures quiet { (acts : List Act) (old new : ServiceState P T) (supply supply' : S) → old.ending ≢ None →
        DoesAll S.call S.begins S.ends S.visiting P.slot_of T.counts T.given T.accepted acts old supply new supply' → AllByRecursion IsQuiet acts }
{}

/// **The quota is kept** (section 4.9) in every life, with memory and without: of the PUBLISH packets that were sent on a connection, those that
/// wait for their PUBACK are never more than the Receive Maximum that its terms have, and never more than 256. And this Receive Maximum is never more than the
/// limit that it was opened with (`limited`, profile).
pub fn quota_law<P: HoldingPlace, T: Transport, S: Supply<P>>()
    ensures kept { (number : ℕ) (opening : Opening) (first : T) (acts : List Act) (service : ServiceState P T) (supply supply' : S) →
        DoesAll S.call S.begins S.ends S.visiting P.slot_of T.counts T.given T.accepted acts (opened number opening first) supply service supply' →
        IsWithinQuota service.client.conn.phase }
    ensures limited { (number : ℕ) (opening : Opening) (first : T) (acts : List Act) (service : ServiceState P T) (supply supply' : S) →
        DoesAll S.call S.begins S.ends S.visiting P.slot_of T.counts T.given T.accepted acts (opened number opening first) supply service supply' →
        IsWithinLimit opening.limits.max_inflight service.client.conn.phase }
{}

/// **Each step of a life keeps its session** (sections 4.4, 4.8.2 and 4.9), as each step of a connection does: its PUBLISH packets are those of the marks
/// that it adds to the transcript of its session, what its place was handed is what it sends for the first time, in that order, what is acknowledged is
/// settled, and where it ends the connection, the session is handed in with all that it holds. A step in which an allocation failed made the calls that its table has
/// for that, and no others. So it is too where the connection is given up, after an end without its last step or for a packet for which an allocation failed:
/// its session is handed in with all that it holds.
pub fn session_law<P: HoldingPlace, T: Transport, S: Supply<P>>()
    ensures { (act : Act) (old new : ServiceState P T) (supply supply' : S) →
        Does S.call S.begins S.ends S.visiting P.slot_of T.counts T.given T.accepted act old supply new supply' → TellsItsSession S.call act old supply new supply' }
{}

/// **The PUBLISH packets of a life are those of a legal transcript** (sections 4.4 and 4.9). Either no PUBLISH is sent in a life, or the connection is given a
/// session in it: by one of its acts, in whose step the supply hands the session out. For every session that is given in the life so: it was asked for
/// under the connection's number; the connection has the terms of a CONNECT that came by then, within the limits that the connection was
/// opened with; no PUBLISH is sent before that act, and no later act gives another. And unless its window is ending, from that act on each act adds its own marks to the transcript of the session, as [`session_law`] has them of each step, and all of them are legal from what the window of
/// the session held when it was given: each message that is sent for the first time goes out with DUP 0 under the least identifier that is free, after all that
/// is sent again; what is sent again has its own identifier, in the order of first sending; only what is held is acknowledged; and no more is
/// unacknowledged than the Receive Maximum, at each moment. The marks of an act are tied to it: its PUBLISH packets are theirs, each with what is left of its
/// message's interval at the moment of the act (section 3.3.2.3.3); what they acknowledge is the PUBACK that its step is given, one at most, and none for what
/// is held is passed over, unless another connection took the session; `Up` comes first, with the Receive Maximum of the connection's terms, and in no
/// later act; and `Down` only in an act whose step ends the connection.
pub fn transcript_law<P: HoldingPlace, T: Transport, S: Supply<P>>()
    ensures { (number : ℕ) (opening : Opening) (first : T) (acts : List Act) (service : ServiceState P T) (supply supply' : S) →
        DoesAll S.call S.begins S.ends S.visiting P.slot_of T.counts T.given T.accepted acts (opened number opening first) supply service supply' →
        IsLegalLife S.call S.begins S.ends S.visiting P.slot_of T.counts T.given T.accepted opening.limits acts (opened number opening first) supply service supply' }
{}
