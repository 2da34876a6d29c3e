//! A broker on one thread that refuses memory where it is told to.
ghost use Rattle.std.specs.Prelude.{◌≡◌, [], IfSome, ⊤};
ghost use Rattle.conn_supply.specs.Holding.{IsOutAtPlace};
ghost use Rattle.conn_supply.specs.Ready.{IsSoundSession};
ghost use Rattle.local_broker.specs.Broker.{is_open};
ghost use Rattle.local_broker.specs.Places.{has_out};
ghost use Rattle.member_window.specs.Contents.{held_of};

use conn_supply::{BindRefusal, NoMemory, OfferRefusal, Supply};
use group_jobs::{Envelope, Fate, SharedMessage, Stamp};
use local_broker::{LocalPlace, LocalSupply};
use mqtt_packet::Text;
use mqtt_topic::{Routes, Share, Slots, TopicName};
use session_desk::{Attached, DeskError, Session};
use std::alloc::Global;

/// Which calls are refused memory: of each kind the one of this number, counted from 1, and none where it is 0.
#[derive(Clone, Copy)]
pub(crate) struct Refused {
    pub(crate) offer: u32,
    pub(crate) take: u32,
    pub(crate) give_back: u32,
}

impl Refused {
    pub(crate) const NONE: Refused = Refused {
        offer: 0,
        take: 0,
        give_back: 0,
    };
}

/// A broker that refuses these calls.
pub(crate) struct Refusing {
    broker: LocalSupply,
    refused: Refused,
}

impl Refusing {
    /// A new broker.
    pub(crate) fn open(
        alloc: Global,
        routes: Routes,
        refused: Refused,
    ) -> Result<Refusing, NoMemory> {
        let broker = LocalSupply::open(alloc, 1_024, routes)?;
        Ok(Refusing { broker, refused })
    }

    /// The line of the report of the share in this slot.
    pub(crate) fn line(&self, alloc: Global, slot: u8) -> Option<Vec<u8>> {
        self.broker.line(alloc, slot).ok()?
    }

    /// Lets go of the broker.
    pub(crate) fn abandon(self) {
        let Refusing { broker, refused: _ } = self;
        broker.abandon();
    }
}

/// Counts a call, and says whether it is refused.
fn is_due(left: &mut u32) -> bool {
    let is_last = *left == 1;
    *left = left.saturating_sub(1);
    is_last
}

// Nothing is said of the calls but what every supply owes: the tests compare what comes of them.
impl Supply<LocalPlace> for Refusing {
    ghost call = { λ _ _ _. ⊤ };

    ghost visiting = { λ r. is_open r.broker };

    ghost begins = { λ _ _. ⊤ };

    ghost ends = { λ _ _. ⊤ };

    fn begin(&mut self) -> bool {
        self.broker.begin()
    }

    fn is_open(&self) -> bool {
        self.broker.is_open()
    }

    fn end(&mut self) {
        self.broker.end();
    }

    fn attach(
        &mut self,
        connection: u16,
        client: &Text,
        clean: bool,
        now: u64,
    ) -> Result<Attached<Envelope, LocalPlace>, DeskError> {
        self.broker.attach(connection, client, clean, now)
    }

    fn withdraw(&mut self, connection: u16) {
        self.broker.withdraw(connection);
    }

    fn kicked(&mut self, connection: u16) -> bool {
        self.broker.kicked(connection)
    }

    fn park(
        &mut self,
        session: Session<Envelope, LocalPlace>,
        now: u64,
    ) -> Option<Session<Envelope, LocalPlace>>
        requires { IsSoundSession has_out session }
        ensures same { IfSome result (λ back. back ≡ session) }
        ensures called { ⊤ }
        ensures visiting { is_open self.new.broker ≡ is_open self.old.broker }
    {
        self.broker.park(session, now)
    }

    fn park_as_is(&mut self, session: Session<Envelope, LocalPlace>)
        requires { IsSoundSession has_out session }
        ensures called { ⊤ }
        ensures visiting { is_open self.new.broker ≡ is_open self.old.broker }
    {
        self.broker.park_as_is(session);
    }

    fn keep(&mut self, session: Session<Envelope, LocalPlace>)
        requires { IsOutAtPlace has_out session }
        ensures called { ⊤ }
        ensures visiting { is_open self.new.broker ≡ is_open self.old.broker }
    {
        self.broker.keep(session);
    }

    fn bury(&mut self, session: Session<Envelope, LocalPlace>)
        requires spent { held_of session.window ≡ [] }
        requires out { IsOutAtPlace has_out session }
        ensures called { ⊤ }
        ensures visiting { is_open self.new.broker ≡ is_open self.old.broker }
    {
        self.broker.bury(session);
    }

    fn sweep(&mut self, now: u64) -> Option<Session<Envelope, LocalPlace>> {
        self.broker.sweep(now)
    }

    fn lend_place(&mut self, slot: u8) -> Option<LocalPlace> {
        self.broker.lend_place(slot)
    }

    fn take_place(&mut self, place: LocalPlace) {
        self.broker.take_place(place);
    }

    fn bind(&mut self, share: Share) -> Result<u8, BindRefusal> {
        self.broker.bind(share)
    }

    fn find(&mut self, share: &Share) -> Option<u8> {
        self.broker.find(share)
    }

    fn matching(&mut self, topic: &TopicName) -> Slots {
        self.broker.matching(topic)
    }

    fn offer(
        &mut self,
        slot: u8,
        connection: u16,
        message: SharedMessage,
    ) -> Result<Stamp, OfferRefusal> {
        if is_due(&mut self.refused.offer) {
            return Err(OfferRefusal::Memory);
        }
        self.broker.offer(slot, connection, message)
    }

    fn may_take(&self, place: &LocalPlace) -> bool {
        self.broker.may_take(place)
    }

    fn take(&mut self, place: &mut LocalPlace) -> Result<Option<Envelope>, NoMemory> {
        if is_due(&mut self.refused.take) {
            return Err(NoMemory);
        }
        self.broker.take(place)
    }

    fn take_back(&mut self, place: &mut LocalPlace) -> Result<Option<Envelope>, NoMemory> {
        self.broker.take_back(place)
    }

    fn settle(&mut self, place: &mut LocalPlace, envelope: Envelope, fate: Fate) {
        self.broker.settle(place, envelope, fate);
    }

    fn give_back(&mut self, place: &mut LocalPlace, envelope: Envelope) -> Result<(), Envelope> {
        if is_due(&mut self.refused.give_back) {
            return Err(envelope);
        }
        self.broker.give_back(place, envelope)
    }
}
