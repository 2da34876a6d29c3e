//! The calls of connections.
ghost use Rattle.std.specs.Prelude.{◌≡◌, [], IfSome};
ghost use Rattle.member_window.specs.Contents.{held_of};
ghost use Rattle.conn_supply.specs.SupplyCalls.SupplyCall.{Park, ParkAsIs, Keep, Bury};
ghost use Rattle.conn_supply.specs.Holding.{IsOutAtPlace};
ghost use Rattle.conn_supply.specs.Ready.{IsSoundSession};
ghost use Rattle.broker_groups.specs.Outs.{HasOut};
ghost use Rattle.shared_supply.specs.Calls.{Calls};
ghost use Rattle.shared_supply.specs.Workers.{is_visiting, Begins, Leaves};

use crate::discarding::release;
use crate::settling::settle;
use crate::supply::{SharedSupply, turn_of};
use broker_groups::{Broker, BrokerPlace};
use call_history::HistoryName;
use conn_supply::{BindRefusal, NoMemory, OfferRefusal, Supply};
use gate_word::Visitor;
use group_jobs::{Envelope, Fate, SharedMessage, Stamp};
use mqtt_packet::Text;
use mqtt_topic::{Share, Slots, TopicName};
use session_desk::{Attached, DeskError, Place, Session};
use shared_routes::BindError;
use std::sync::Wait;

impl<'a, 'g, B: Broker, N: HistoryName, R: Wait> Supply<BrokerPlace<B>>
    for SharedSupply<'a, 'g, B, N, R> {
    ghost call = { Calls B.group B.Seen.Witness };

    ghost visiting = { is_visiting };

    ghost begins = { Begins };

    ghost ends = { Leaves };

    fn begin(&mut self) -> bool
        ensures told { result ≡ is_visiting self.new }
        ensures begun { Begins self.old self.new }
    {
        self.enter();
        self.is_open()
    }

    fn is_open(&self) -> bool
        ensures { result ≡ is_visiting self.now }
    {
        matches!(&self.visitor, Some(Visitor::Inside(_)))
    }

    fn end(&mut self)
        ensures left { Leaves self.old self.new }
    {
        self.leave();
    }

    fn attach(
        &mut self,
        connection: u16,
        client: &Text,
        clean: bool,
        now: u64,
    ) -> Result<Attached<Envelope, BrokerPlace<B>>, DeskError> {
        let newcomers = self.newcomers();
        let shared_broker = self.shared_broker;
        let attached = shared_broker.desk.attach(
            self.rt,
            &mut self.desk,
            newcomers,
            connection,
            client.shared_bytes(),
            clean,
            now,
        );
        self.wakes.note(&attached);
        self.counts.count_attached(&attached);
        attached
    }

    fn withdraw(&mut self, connection: u16) {
        let shared_broker = self.shared_broker;
        shared_broker
            .desk
            .withdraw(self.rt, &mut self.desk, connection);
    }

    fn kicked(&mut self, connection: u16) -> bool {
        let shared_broker = self.shared_broker;
        shared_broker
            .desk
            .kicked(self.rt, &mut self.desk, connection)
    }

    fn park(
        &mut self,
        session: Session<Envelope, BrokerPlace<B>>,
        now: u64,
    ) -> Option<Session<Envelope, BrokerPlace<B>>>
        requires { IsSoundSession HasOut session }
        ensures same { IfSome result (λ back. back ≡ session) }
        ensures called { Calls B.group B.Seen.Witness self.old (Park session now result) self.new }
        ensures visiting { is_visiting self.new ≡ is_visiting self.old }
    {
        self.wakes.free_session();
        let shared_broker = self.shared_broker;
        shared_broker
            .desk
            .park(self.rt, &mut self.desk, session, now)
    }

    fn park_as_is(&mut self, session: Session<Envelope, BrokerPlace<B>>)
        requires { IsSoundSession HasOut session }
        ensures called { Calls B.group B.Seen.Witness self.old (ParkAsIs session) self.new }
        ensures visiting { is_visiting self.new ≡ is_visiting self.old }
    {
        self.wakes.free_session();
        let shared_broker = self.shared_broker;
        release(
            shared_broker
                .desk
                .park_as_is(self.rt, &mut self.desk, session),
        );
    }

    fn keep(&mut self, session: Session<Envelope, BrokerPlace<B>>)
        requires { IsOutAtPlace HasOut session }
        ensures called { Calls B.group B.Seen.Witness self.old (Keep session) self.new }
        ensures visiting { is_visiting self.new ≡ is_visiting self.old }
    {
        let shared_broker = self.shared_broker;
        release(shared_broker.desk.keep(self.rt, &mut self.desk, session));
    }

    fn bury(&mut self, session: Session<Envelope, BrokerPlace<B>>)
        requires spent { held_of session.window ≡ [] }
        requires out { IsOutAtPlace HasOut session }
        ensures called { Calls B.group B.Seen.Witness self.old (Bury session) self.new }
        ensures visiting { is_visiting self.new ≡ is_visiting self.old }
    {
        let shared_broker = self.shared_broker;
        self.counts.count_ended(&session.membership);
        release(shared_broker.desk.bury(self.rt, &mut self.desk, session));
    }

    fn sweep(&mut self, now: u64) -> Option<Session<Envelope, BrokerPlace<B>>> {
        let shared_broker = self.shared_broker;
        shared_broker.desk.sweep(self.rt, &mut self.desk, now)
    }

    fn lend_place(&mut self, slot: u8) -> Option<BrokerPlace<B>> {
        let shared_broker = self.shared_broker;
        let lent = shared_broker.desk.lend_place(self.rt, &mut self.desk, slot);
        self.counts.count_lent(slot, &lent);
        lent
    }

    fn take_place(&mut self, place: BrokerPlace<B>) {
        let shared_broker = self.shared_broker;
        self.counts.count_freed(&place);
        let _back = shared_broker
            .desk
            .take_place(self.rt, &mut self.desk, place);
    }

    fn bind(&mut self, share: Share) -> Result<u8, BindRefusal> {
        match self.known.bind(self.alloc, share) {
            Ok(slot) => Ok(slot),
            Err(BindError::NoSlot) => Err(BindRefusal::NoSlot),
            Err(BindError::Memory) => Err(BindRefusal::Memory),
            Err(BindError::NotDeclared) => Err(BindRefusal::NotDeclared),
        }
    }

    fn find(&mut self, share: &Share) -> Option<u8> {
        self.known.find(share)
    }

    fn matching(&mut self, topic: &TopicName) -> Slots {
        self.known.matching(topic)
    }

    fn offer(
        &mut self,
        slot: u8,
        _connection: u16,
        message: SharedMessage,
    ) -> Result<Stamp, OfferRefusal> {
        if self.draining {
            self.counts.count_not_accepted(slot, OfferRefusal::Shut);
            return Err(OfferRefusal::Shut);
        }
        let shared_broker = self.shared_broker;
        let turn = turn_of(&self.visitor);
        match self
            .ports
            .offer(&shared_broker.groups, self.rt, turn, slot, message)
        {
            Ok(stamp) => {
                self.wakes.count(slot);
                self.counts.count_accepted(slot);
                Ok(stamp)
            }
            Err(refusal) => {
                self.counts.count_not_accepted(slot, refusal);
                Err(refusal)
            }
        }
    }

    fn may_take(&self, _place: &BrokerPlace<B>) -> bool {
        self.allowance > 0
    }

    fn take(&mut self, place: &mut BrokerPlace<B>) -> Result<Option<Envelope>, NoMemory> {
        let shared_broker = self.shared_broker;
        let slot = place.slot();
        let taken = place.take(&shared_broker.groups, self.rt, turn_of(&self.visitor));
        self.note_handed(slot, &taken);
        self.counts.count_handed(slot, &taken);
        taken
    }

    fn take_back(&mut self, place: &mut BrokerPlace<B>) -> Result<Option<Envelope>, NoMemory> {
        let shared_broker = self.shared_broker;
        let slot = place.slot();
        let taken = place.take_back(&shared_broker.groups, self.rt, turn_of(&self.visitor));
        self.note_handed(slot, &taken);
        self.counts.count_handed_again(slot, &taken);
        taken
    }

    fn settle(&mut self, place: &mut BrokerPlace<B>, envelope: Envelope, fate: Fate) {
        let shared_broker = self.shared_broker;
        self.counts.count_settled(place.slot(), fate);
        let is_missed = settle(
            self.rt,
            self.alloc,
            &shared_broker.groups,
            place,
            envelope,
            fate,
        );
        self.note_missed(is_missed);
    }

    fn give_back(
        &mut self,
        place: &mut BrokerPlace<B>,
        envelope: Envelope,
    ) -> Result<(), Envelope> {
        let shared_broker = self.shared_broker;
        let slot = place.slot();
        match place.give_back(&shared_broker.groups, self.rt, envelope) {
            Ok(()) => {
                self.wakes.count(slot);
                self.counts.count_given_back(slot);
                Ok(())
            }
            Err(envelope) => Err(envelope),
        }
    }
}
