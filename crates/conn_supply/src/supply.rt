//! What a connection asks: who has which session, which share is bound to which slot, and who has which message.
ghost use Rattle.std.specs.Prelude.{◌≡◌, ◌<◌, ◌≤◌, [], List, length, IfOk, IfErr, IfSome, Bool, true, ⊤};
ghost use Rattle.limits.specs.Limits.{most_connections};
ghost use Rattle.conn_supply.specs.SupplyCalls.{SupplyCall};
ghost use Rattle.conn_supply.specs.SupplyCalls.SupplyCall.{Attach, Withdraw, Kicked, Park, ParkAsIs, Keep, Bury, Sweep, LendPlace, TakePlace, Bind, Find, Match, Offer, MayTake, Take, TakeBack, Settle, GiveBack};
ghost use Rattle.conn_supply.specs.Holding.{IsAmong, IsOutAtPlace, FindsOut, SpendsOut, ReturnsOut};
ghost use Rattle.conn_supply.specs.Ready.{IsReady, IsSoundSession};
ghost use Rattle.group_jobs.specs.Stamps.{Held};
ghost use Rattle.member_window.specs.Contents.{held_of};
ghost use Rattle.session_desk.specs.Attaching.{asked};

use group_jobs::{Envelope, Fate, JobError, SharedMessage, Stamp};
use mqtt_packet::Text;
use mqtt_topic::{Share, Slots, TopicName};
use session_desk::{Attached, DeskError, Place, Session};
use std::alloc::{AllocError, AllocFailed};
use thiserror::Error;

/// An allocation failed. Nothing has changed then.
#[derive(Clone, Copy, Debug, PartialEq, Eq, Error)]
#[error("out of memory")]
pub struct NoMemory;

impl From<AllocError> for NoMemory {
    ghost from_gives = { λ _ _. ⊤ };

    fn from(_error: AllocError) -> NoMemory {
        NoMemory
    }
}

impl<T: Drop> From<AllocFailed<T>> for NoMemory {
    ghost from_gives = { λ _ _. ⊤ };

    fn from(_error: AllocFailed<T>) -> NoMemory {
        NoMemory
    }
}

impl From<JobError> for NoMemory {
    ghost from_gives = { λ _ _. ⊤ };

    fn from(_error: JobError) -> NoMemory {
        NoMemory
    }
}

/// Why a share is not bound. Nothing has changed then.
#[derive(Clone, Copy, Debug, PartialEq, Eq, Error)]
pub enum BindRefusal {
    /// 205: all eight slots are bound to other shares.
    #[error("all slots are bound to other shares")]
    NoSlot,
    /// 206: an allocation failed.
    #[error("out of memory")]
    Memory,
    /// 207: only shares that were declared have a group, and this is none of them.
    #[error("the share is not declared")]
    NotDeclared,
}

/// Why a group does not accept a message. Nothing has changed then.
#[derive(Clone, Copy, Debug, PartialEq, Eq, Error)]
pub enum OfferRefusal {
    /// 401: the broker is closed.
    #[error("the group is closed")]
    Shut,
    /// 502: the connection's port has accepted all messages of its life.
    #[error("the port has accepted all messages of its life")]
    LifeSpent,
    /// 501: as many messages wait as the group's capacity allows.
    #[error("the queue is full")]
    Full,
    /// 503: an allocation failed.
    #[error("out of memory")]
    Memory,
}

/// A place of a member in a group, with the messages that are out at it: those that it was handed, and neither settled nor gave back.
pub trait HoldingPlace: Place {
    /// What is out at the place is just these messages. A place that keeps no account of them has out whatever its member holds.
    ghost has_out: { Self → List Held → Type 0 };
}

/// What connections share: the desk of all sessions, the routes, and the groups. `P` is a place in a group.
///
/// Each call but [`Supply::begin`], [`Supply::is_open`] and [`Supply::end`], which no step makes, is one fact, which the relation `call` ties to the
/// supply before and after it. So what is proved of a connection over every supply holds of the calls that were made, in their
/// order, and of no others.
///
/// Messages are offered and asked for within a visit alone: so none is refused, and none withheld, since a visit was forgotten. No call begins or ends
/// one.
///
/// A session that comes has out at its place what it holds, and goes back so; and a place settles and gives back what is out at it, and nothing else.
/// So a supply is never handed a message that it does not know.
pub trait Supply<P: HoldingPlace> {
    /// What a call with these arguments and this answer makes of the supply.
    ghost call: { Self → SupplyCall P → Self → Type 0 };

    /// Whether a visit is going on.
    ghost visiting: { Self → Bool };

    /// What the beginning of a visit makes of the supply; or the refusal of one, as the broker was closed.
    ghost begins: { Self → Self → Type 0 };

    /// What the end of a visit makes of the supply.
    ghost ends: { Self → Self → Type 0 };

    /// A visit begins, unless the broker was closed: says whether one does. Messages are accepted and handed out in a visit, and the packets and Ticks of a
    /// connection are stepped in one.
    fn begin(&mut self) -> bool
        ensures told { result ≡ visiting self.new }
        ensures begun { begins self.old self.new };

    /// Whether a visit is going on.
    fn is_open(&self) -> bool
        ensures { result ≡ visiting self.now };

    /// A visit ends, where one is going on.
    fn end(&mut self)
        ensures { ends self.old self.new };

    /// A session for a connection, as of this moment in milliseconds: see [`Desk::attach`](session_desk::Desk::attach). The
    /// connection's number is below 1,024, and the identifier of its client has at most 128 bytes.
    fn attach(
        &mut self,
        connection: u16,
        client: &Text,
        clean: bool,
        now: u64,
    ) -> Result<Attached<Envelope, P>, DeskError>
        requires known { connection < most_connections }
        requires short { length client.now ≤ 128 }
        ensures ready { IfOk result (IsReady P.has_out) }
        ensures called { call self.old (Attach (asked connection client.now clean now) result) self.new }
        ensures visiting { visiting self.new ≡ visiting self.old };

    /// The connection waits for no session from now on.
    fn withdraw(&mut self, connection: u16)
        ensures called { call self.old (Withdraw connection) self.new }
        ensures visiting { visiting self.new ≡ visiting self.old };

    /// Whether another connection asked for this connection's session since it was lent.
    fn kicked(&mut self, connection: u16) -> bool
        ensures called { call self.old (Kicked connection result) self.new }
        ensures visiting { visiting self.new ≡ visiting self.old };

    /// A session whose connection has ended is kept until its client comes back or its time is over. One that ends with its
    /// connection comes back, and is to be retired.
    fn park(&mut self, session: Session<Envelope, P>, now: u64) -> Option<Session<Envelope, P>>
        requires { IsSoundSession P.has_out session }
        ensures same { IfSome result (λ back. back ≡ session) }
        ensures called { call self.old (Park session now result) self.new }
        ensures visiting { visiting self.new ≡ visiting self.old };

    /// A session whose connection has ended is kept as it is, whatever its expiry.
    fn park_as_is(&mut self, session: Session<Envelope, P>)
        requires { IsSoundSession P.has_out session }
        ensures called { call self.old (ParkAsIs session) self.new }
        ensures visiting { visiting self.new ≡ visiting self.old };

    /// An ending session is kept until it is handed out again by a sweep.
    fn keep(&mut self, session: Session<Envelope, P>)
        requires { IsOutAtPlace P.has_out session }
        ensures called { call self.old (Keep session) self.new }
        ensures visiting { visiting self.new ≡ visiting self.old };

    /// An ending session that holds nothing any more is gone: its place, if it has one, is free.
    fn bury(&mut self, session: Session<Envelope, P>)
        requires spent { held_of session.window ≡ [] }
        requires out { IsOutAtPlace P.has_out session }
        ensures called { call self.old (Bury session) self.new }
        ensures visiting { visiting self.new ≡ visiting self.old };

    /// A session that is to be retired: one that is kept, or one that is over by time at this moment.
    fn sweep(&mut self, now: u64) -> Option<Session<Envelope, P>>
        ensures out { IfSome result (IsOutAtPlace P.has_out) }
        ensures called { call self.old (Sweep now result) self.new }
        ensures visiting { visiting self.new ≡ visiting self.old };

    /// The least free place of the group of this slot.
    fn lend_place(&mut self, slot: u8) -> Option<P>
        ensures slot { IfSome result (λ place. P.slot_of place ≡ slot) }
        ensures out { IfSome result (λ place. P.has_out place []) }
        ensures called { call self.old (LendPlace slot result) self.new }
        ensures visiting { visiting self.new ≡ visiting self.old };

    /// A place is free from now on.
    fn take_place(&mut self, place: P)
        requires { P.has_out place [] }
        ensures called { call self.old (TakePlace place) self.new }
        ensures visiting { visiting self.new ≡ visiting self.old };

    /// The slot of the share's group: the one that is there, or the least free one, where shares need not be declared.
    fn bind(&mut self, share: Share) -> Result<u8, BindRefusal>
        ensures called { call self.old (Bind share result) self.new }
        ensures visiting { visiting self.new ≡ visiting self.old };

    /// The slot of the share's group, where it has one.
    fn find(&mut self, share: &Share) -> Option<u8>
        ensures called { call self.old (Find share.now result) self.new }
        ensures visiting { visiting self.new ≡ visiting self.old };

    /// The slots of the groups whose filter matches the topic.
    fn matching(&mut self, topic: &TopicName) -> Slots
        ensures called { call self.old (Match topic.now result) self.new }
        ensures visiting { visiting self.new ≡ visiting self.old };

    /// Offers a message of a connection to the group of this slot.
    fn offer(
        &mut self,
        slot: u8,
        connection: u16,
        message: SharedMessage,
    ) -> Result<Stamp, OfferRefusal>
        requires { visiting self.old ≡ true }
        ensures called { call self.old (Offer slot connection message result) self.new }
        ensures visiting { visiting self.new ≡ visiting self.old };

    /// Whether one more message is to be handed to a place now. It changes nothing: who is told no asks again at a later step.
    fn may_take(&self, place: &P) -> bool
        ensures { call self.now (MayTake place.now result) self.now };

    /// Hands the oldest queued message to a place; `None` where nothing is queued, or the broker is closed.
    fn take(&mut self, place: &mut P) -> Result<Option<Envelope>, NoMemory>
        requires { visiting self.old ≡ true }
        ensures out { FindsOut P.has_out place.old result place.new }
        ensures called { call self.old (Take place.old place.new result) self.new }
        ensures visiting { visiting self.new ≡ visiting self.old };

    /// Hands the message that was given back first to a place; `None` where none is there, or the broker is closed.
    fn take_back(&mut self, place: &mut P) -> Result<Option<Envelope>, NoMemory>
        requires { visiting self.old ≡ true }
        ensures out { FindsOut P.has_out place.old result place.new }
        ensures called { call self.old (TakeBack place.old place.new result) self.new }
        ensures visiting { visiting self.new ≡ visiting self.old };

    /// The place settles a message that it was handed.
    fn settle(&mut self, place: &mut P, envelope: Envelope, fate: Fate)
        requires { IsAmong P.has_out place.old envelope }
        ensures out { SpendsOut P.has_out place.old envelope place.new }
        ensures called { call self.old (Settle place.old place.new envelope fate) self.new }
        ensures visiting { visiting self.new ≡ visiting self.old };

    /// The place gives a message back that it was handed. A lack of memory hands it back, and changes nothing.
    fn give_back(&mut self, place: &mut P, envelope: Envelope) -> Result<(), Envelope>
        requires { IsAmong P.has_out place.old envelope }
        ensures same { IfErr result (λ back. back ≡ envelope) }
        ensures out { ReturnsOut P.has_out place.old envelope result place.new }
        ensures called { call self.old (GiveBack place.old place.new envelope result) self.new }
        ensures visiting { visiting self.new ≡ visiting self.old };
}
