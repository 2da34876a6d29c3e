//! The calls of connections.
ghost use Rattle.std.specs.Prelude.{◌≡◌, ◌≤◌, ◌<◌, [], length, IfOk, IfErr, IfSome};
ghost use Rattle.member_window.specs.Contents.{held_of};
ghost use Rattle.conn_supply.specs.SupplyCalls.SupplyCall.{Park, ParkAsIs, Keep, Bury};
ghost use Rattle.conn_supply.specs.Holding.{IsOutAtPlace};
ghost use Rattle.conn_supply.specs.Ready.{IsSoundSession};
ghost use Rattle.local_broker.specs.Broker.{is_open};
ghost use Rattle.local_broker.specs.Calls.{Calls};
ghost use Rattle.local_broker.specs.Places.{has_out};

use crate::discarding::release;
use crate::groups;
use crate::opening::SLOTS;
use crate::place::LocalPlace;
use crate::supply::LocalSupply;
use conn_supply::{BindRefusal, NoMemory, OfferRefusal, Supply};
use group_jobs::{Envelope, Fate, SharedMessage, Stamp};
use limits::DEFAULT_SESSIONS;
use mqtt_packet::Text;
use mqtt_topic::{Share, Slots, TopicError, TopicName};
use session_desk::{Attached, DeskError, Newcomers, Place, Session};

/// How many ports a group has: one for each connection whose number is below this.
const PORTS: u16 = 64;

impl Supply<LocalPlace> for LocalSupply {
    ghost call = { Calls };

    ghost visiting = { is_open };

    // One thread has the broker to itself: a visit goes on until the close.
    ghost begins = { λ old new. new ≡ old };

    ghost ends = { λ old new. new ≡ old };

    fn begin(&mut self) -> bool
        ensures told { result ≡ is_open self.new }
        ensures begun { self.new ≡ self.old }
    {
        self.is_open()
    }

    fn is_open(&self) -> bool
        ensures { result ≡ is_open self.now }
    {
        self.groups.iter().all(|group| !group.is_closed())
    }

    fn end(&mut self) {}

    fn attach(
        &mut self,
        connection: u16,
        client: &Text,
        clean: bool,
        now: u64,
    ) -> Result<Attached<Envelope, LocalPlace>, DeskError> {
        self.desk.attach(
            Newcomers::IfRoom(DEFAULT_SESSIONS),
            connection,
            client.shared_bytes(),
            clean,
            now,
        )
    }

    fn withdraw(&mut self, connection: u16) {
        self.desk.withdraw(connection);
    }

    fn kicked(&mut self, connection: u16) -> bool {
        self.desk.kicked(connection)
    }

    fn park(
        &mut self,
        session: Session<Envelope, LocalPlace>,
        now: u64,
    ) -> Option<Session<Envelope, LocalPlace>>
        requires { IsSoundSession has_out session }
        ensures same { IfSome result (λ back. back ≡ session) }
        ensures called { Calls self.old (Park session now result) self.new }
        ensures visiting { is_open self.new ≡ is_open self.old }
    {
        self.desk.park(session, now)
    }

    fn park_as_is(&mut self, session: Session<Envelope, LocalPlace>)
        requires { IsSoundSession has_out session }
        ensures called { Calls self.old (ParkAsIs session) self.new }
        ensures visiting { is_open self.new ≡ is_open self.old }
    {
        release(self.desk.park_as_is(session));
    }

    fn keep(&mut self, session: Session<Envelope, LocalPlace>)
        requires { IsOutAtPlace has_out session }
        ensures called { Calls self.old (Keep session) self.new }
        ensures visiting { is_open self.new ≡ is_open self.old }
    {
        release(self.desk.keep(session));
    }

    fn bury(&mut self, session: Session<Envelope, LocalPlace>)
        requires spent { held_of session.window ≡ [] }
        requires out { IsOutAtPlace has_out session }
        ensures called { Calls self.old (Bury session) self.new }
        ensures visiting { is_open self.new ≡ is_open self.old }
    {
        release(self.desk.bury(session));
    }

    fn sweep(&mut self, now: u64) -> Option<Session<Envelope, LocalPlace>> {
        self.desk.sweep(now)
    }

    fn lend_place(&mut self, slot: u8) -> Option<LocalPlace> {
        self.desk.lend_place(slot)
    }

    fn take_place(&mut self, place: LocalPlace) {
        let _back = self.desk.take_place(place);
    }

    fn bind(&mut self, share: Share) -> Result<u8, BindRefusal> {
        match self.routes.bind(share) {
            Ok(slot) => Ok(slot),
            Err(TopicError::NoSlot) => Err(BindRefusal::NoSlot),
            Err(TopicError::Memory) => Err(BindRefusal::Memory),
            Err(_) => unreachable!(),
        }
    }

    fn find(&mut self, share: &Share) -> Option<u8> {
        self.routes.find(share)
    }

    fn matching(&mut self, topic: &TopicName) -> Slots {
        self.routes.matching(topic)
    }

    fn offer(
        &mut self,
        slot: u8,
        connection: u16,
        message: SharedMessage,
    ) -> Result<Stamp, OfferRefusal> {
        if connection >= PORTS {
            return Err(OfferRefusal::LifeSpent);
        }
        if slot >= SLOTS {
            return Err(OfferRefusal::Shut);
        }
        groups::offer(
            &mut self.groups[usize::from(slot)],
            connection as u8,
            message,
        )
    }

    fn may_take(&self, _place: &LocalPlace) -> bool {
        true
    }

    fn take(&mut self, place: &mut LocalPlace) -> Result<Option<Envelope>, NoMemory> {
        groups::take(&mut self.groups[usize::from(place.slot())], place.number())
    }

    fn take_back(&mut self, place: &mut LocalPlace) -> Result<Option<Envelope>, NoMemory> {
        groups::take_back(&mut self.groups[usize::from(place.slot())], place.number())
    }

    fn settle(&mut self, place: &mut LocalPlace, envelope: Envelope, fate: Fate) {
        groups::settle(
            &mut self.groups[usize::from(place.slot())],
            place.number(),
            envelope,
            fate,
        );
    }

    fn give_back(&mut self, place: &mut LocalPlace, envelope: Envelope) -> Result<(), Envelope> {
        groups::give_back(
            &mut self.groups[usize::from(place.slot())],
            place.number(),
            envelope,
        );
        Ok(())
    }
}
