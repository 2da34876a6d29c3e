//! What a worker has of a broker.
ghost use Rattle.std.specs.Prelude.{◌≡◌, ◌<◌, true, false};
ghost use Rattle.limits.specs.Limits.{most_groups};
ghost use Rattle.gate_word.specs.Visits.{Ends};
ghost use Rattle.gate_word.specs.declared.visitor.Visitor.TheVariants.{Inside, Outside};
ghost use Rattle.session_desk.specs.declared.newcomers.Newcomers.TheVariants.{Refused};
ghost use Rattle.shared_supply.specs.Calls.{handing, missing};
ghost use Rattle.shared_supply.specs.Waking.{KeepsAtMost, no_wakes, one_called};
ghost use Rattle.shared_supply.specs.Workers.{Begins, Leaves, draining_if, visitor_of, is_inside};

use crate::counts::SupplyCounts;
use crate::shared_broker::SharedBroker;
use crate::wakes::Wakes;
use broker_groups::{Broker, BrokerPlace, Key, Ports};
use call_history::HistoryName;
use conn_supply::NoMemory;
use gate_word::{Turn, Visitor};
use group_jobs::Envelope;
use session_desk::Newcomers;
use shared_desk::DeskCaller;
use shared_routes::KnownRoutes;
use std::alloc::Global;
use std::marker::Model;
use std::mem;
use std::sync::Wait;

/// What a worker asks: the shared broker that it shares with the others, and what it has for itself, a visitor of the broker's gate, a port of each group,
/// what it knows of the routes and of the calls of the desk, what it did that others may wait for, and how many more messages it may be handed.
///
/// Contracts see it as a `Worker`.
pub struct SharedSupply<'a, 'g, B: Broker, N: HistoryName, R: Wait> {
    pub(crate) rt: &'a R,
    pub(crate) shared_broker: &'a SharedBroker<'g, B, N>,
    // There always is one.
    pub(crate) visitor: Option<Visitor>,
    pub(crate) ports: Ports<B>,
    pub(crate) known: KnownRoutes<'a>,
    pub(crate) desk: DeskCaller<BrokerPlace<B>, N>,
    pub(crate) alloc: Global,
    pub(crate) wakes: Wakes,
    // How many more messages are to be handed to its members, until it is allowed others.
    pub(crate) allowance: u32,
    // How many gathers of its places came to nothing, as an allocation failed.
    pub(crate) missed: u64,
    pub(crate) counts: SupplyCounts,
    // It offers no message to a group any more.
    pub(crate) draining: bool,
}

/// What a worker's supply is made of.
pub struct SupplyParts<'a, B: Broker, N: HistoryName> {
    /// A seat of the broker's gate.
    pub key: Key<B>,
    pub ports: Ports<B>,
    /// What it knows of the routes.
    pub known: KnownRoutes<'a>,
    /// What it knows of the calls of the desk, and which of them are its own.
    pub desk: DeskCaller<BrokerPlace<B>, N>,
}

impl<'a, 'g, B: Broker, N: HistoryName, R: Wait> Model for SharedSupply<'a, 'g, B, N, R> {
    ghost use Rattle.std.specs.Prelude.{◌≡◌};
    ghost use Rattle.shared_supply.specs.Workers.{Worker, visitor_of, IsVisitorOf};

    ghost Value = { Worker };

    ghost view = { λ s. record { visitor = visitor_of s.visitor; ports = s.ports; known = s.known; desk = s.desk; wakes = s.wakes; allowance = s.allowance; missed = s.missed; draining = s.draining } };

    ghost invariant = { λ s. IsVisitorOf B.gate s.visitor × (s.known.table ≡ s.shared_broker.now) };
}

impl<'a, 'g, B: Broker, N: HistoryName, R: Wait> SharedSupply<'a, 'g, B, N, R> {
    /// A worker's, which is outside the gate; until [`SharedSupply::allow`] says otherwise, 2^32 - 1 messages may be handed to its members. Its places gather with this memory, and so does what it binds. It calls the desk as this caller.
    pub fn new(
        rt: &'a R,
        alloc: Global,
        shared_broker: &'a SharedBroker<'g, B, N>,
        key: Key<B>,
        ports: Ports<B>,
        known: KnownRoutes<'a>,
        desk: DeskCaller<BrokerPlace<B>, N>,
    ) -> SharedSupply<'a, 'g, B, N, R>
        requires { known.table ≡ shared_broker.now }
        ensures { result ≡ record { visitor = Outside key; ports = ports; known = known.entry; desk = desk; wakes = no_wakes; allowance = u32.MAX; missed = 0; draining = false } }
    {
        SharedSupply {
            rt,
            shared_broker,
            visitor: Some(key.into_visitor()),
            ports,
            known,
            desk,
            alloc,
            wakes: Wakes::none(),
            allowance: u32::MAX,
            missed: 0,
            counts: SupplyCounts::NONE,
            draining: false,
        }
    }

    /// What its desk does for a client that has no session: where it drains, it begins none.
    pub(crate) fn newcomers(&self) -> Newcomers
        ensures { self.now.draining ≡ true → result ≡ Refused }
    {
        if self.draining {
            return Newcomers::Refused;
        }
        let shared_broker = self.shared_broker;
        shared_broker.desk.newcomers()
    }

    /// So many messages at most are to be handed to its members from now on, until it is allowed others. Of a message that was given back and of one that waits
    /// in the queue each counts as one; one that is sent again does not count.
    pub fn allow(&mut self, most: u32)
        ensures { self.new ≡ record self.old { allowance = most } }
    {
        self.allowance = most;
    }

    /// How many more messages are to be handed to its members.
    pub fn allowance(&self) -> u32
        ensures { result ≡ self.now.allowance }
    {
        self.allowance
    }

    /// How many times a place of its was due to gather, and did not, as an allocation failed; 2^64 - 1 where they were more.
    pub fn missed(&self) -> u64
        ensures { result ≡ self.now.missed }
    {
        self.missed
    }

    /// A gather was missed, or it was not.
    pub(crate) fn note_missed(&mut self, is_missed: bool)
        ensures { self.new ≡ missing is_missed self.old }
    {
        if is_missed {
            self.missed = self.missed.saturating_add(1);
        }
    }

    /// What it counts.
    pub fn counts(&self) -> &SupplyCounts {
        &self.counts
    }

    /// What it knows of the routes.
    pub fn known(&self) -> &KnownRoutes<'a>
        ensures { result.now ≡ self.now.known }
    {
        &self.known
    }

    /// It drains from now on, where it is told so: it answers each message that is published as a closed broker does, and hands out what waits, and what is given
    /// back, as before. There is no way back.
    pub fn drain_if(&mut self, drains: bool)
        ensures { self.new ≡ draining_if drains self.old }
    {
        if drains {
            self.draining = true;
        }
    }

    /// Where an answer has a message of the group of this slot, that is handed out.
    pub(crate) fn note_handed(&mut self, slot: u8, answer: &Result<Option<Envelope>, NoMemory>)
        requires { slot < most_groups }
        ensures { self.new ≡ handing answer.now slot self.old }
    {
        self.wakes.note_taken(slot, answer);
        if let Ok(Some(_)) = answer {
            self.allowance = self.allowance.saturating_sub(1);
        }
    }

    /// The shared broker that it asks, of whose routes it knows.
    pub fn shared_broker(&self) -> &'a SharedBroker<'g, B, N>
        ensures { self.now.known.table ≡ result.now }
    {
        self.shared_broker
    }

    /// What it did since it was last asked that others may wait for. Who asks after a visit can wake just these.
    pub fn take_wakes(&mut self) -> Wakes
        ensures told { result ≡ self.old.wakes }
        ensures cleared { self.new ≡ record self.old { wakes = no_wakes } }
    {
        mem::replace(&mut self.wakes, Wakes::none())
    }

    /// What it did since it was last asked that others may wait for; it stays to be told.
    pub fn wakes(&self) -> &Wakes
        ensures { result.now ≡ self.now.wakes }
    {
        &self.wakes
    }

    /// Another worker called it for a message of the group of this slot: its next hand-out there is no message less for others.
    pub fn count_call(&mut self, slot: usize)
        requires { slot < most_groups }
        ensures { self.new ≡ record self.old { wakes = one_called slot self.old.wakes } }
    {
        self.wakes.count_call(slot);
    }

    /// Keeps so many of the messages of each group at most among what others may wait for, and gives back how many more there were: for those others can be
    /// woken at once, while this worker goes on to hand out what it keeps.
    pub fn keep_messages(&mut self, most: &[u32; 8]) -> [u32; 8]
        ensures kept { KeepsAtMost most.now result self.old.wakes self.new.wakes }
        ensures same { self.new ≡ record self.old { wakes = self.new.wakes } }
    {
        self.wakes.keep(most)
    }

    /// What it is made of. A worker that is inside leaves first.
    pub fn into_parts(self) -> SupplyParts<'a, B, N>
        ensures key { Ends self.entry.visitor result.key }
        ensures ports { result.ports ≡ self.entry.ports }
        ensures known { result.known ≡ self.entry.known }
        ensures desk { result.desk ≡ self.entry.desk }
    {
        let SharedSupply {
            rt: _,
            shared_broker,
            visitor,
            ports,
            known,
            desk,
            alloc: _,
            wakes: _,
            allowance: _,
            missed: _,
            counts: _,
            draining: _,
        } = self;
        let Some(visitor) = visitor else {
            unreachable!()
        };
        SupplyParts {
            key: Key::of(visitor.leave(shared_broker.gate)),
            ports,
            known,
            desk,
        }
    }

    /// Enters the gate, unless it is shut, and learns of the routes what others bound.
    pub(crate) fn enter(&mut self)
        ensures { Begins self.old self.new }
    {
        let Some(visitor) = self.visitor.take() else {
            unreachable!()
        };
        let shared_broker = self.shared_broker;
        let entered = visitor.enter(shared_broker.gate);
        if let Some(other) = mem::replace(&mut self.visitor, Some(entered)) {
            let _seat = other.leave(shared_broker.gate);
        }
        self.known.refresh();
    }

    /// Leaves the gate.
    pub(crate) fn leave(&mut self)
        ensures { Leaves self.old self.new }
    {
        let Some(visitor) = self.visitor.take() else {
            unreachable!()
        };
        let shared_broker = self.shared_broker;
        let seat = visitor.leave(shared_broker.gate);
        if let Some(other) = mem::replace(&mut self.visitor, Some(Visitor::Outside(seat))) {
            let _seat = other.leave(shared_broker.gate);
        }
    }
}

/// The turn of a visitor that is inside.
pub(crate) fn turn_of(visitor: &Option<Visitor>) -> &Turn
    requires { is_inside (visitor_of visitor.now) ≡ true }
    ensures { visitor_of visitor.now ≡ Inside result.now }
{
    let Some(Visitor::Inside(turn)) = visitor else {
        unreachable!()
    };
    turn
}
