//! Places of a broker's groups.
ghost use Rattle.std.specs.Prelude.{◌≡◌, ◌<◌, ◌≤◌, ◌↔◌, IfOk, IfSome, IsTrue, OnOk, OnErr};
ghost use Rattle.group_jobs.specs.Stamps.{job_of};
ghost use Rattle.group_queue.specs.Places.{Holds, IsBalanced, GatherAnswers, GiveBackAnswers, IsSamePlace, KeepsPlace, KeepsRoom, SettlesHeld, TakeAnswers, TakeBackAnswers, UsesRoom};
ghost use Rattle.conn_supply.specs.Holding.{IsAmong, FindsOut, KeepsOut, ReturnsOut, SpendsOut};
ghost use Rattle.broker_groups.specs.Brokers.{IsBrokerPlace};
ghost use Rattle.broker_groups.specs.Answers.{in_group};
ghost use Rattle.broker_groups.specs.Outs.{HasOut};

use crate::broker::Broker;
use crate::groups::BrokerGroups;
use conn_supply::{HoldingPlace, NoMemory};
use gate_word::Turn;
use group_jobs::{Docket, Envelope, Fate, JobError, Stamp};
use group_queue::Place;
use std::alloc::Global;
use std::marker::{Model, PhantomData};
use std::sync::Wait;

/// A place in one of a broker's groups. It is the member's that has it, and may go to another thread.
///
/// Contracts see it as the `PlaceState` of its group's place.
#[derive(Drop)]
pub struct BrokerPlace<B: Broker> {
    pub(crate) place: Place<B::Seen>,
    pub(crate) of: PhantomData<B>,
}

impl<B: Broker> Model for BrokerPlace<B> {
    ghost use Rattle.group_queue.specs.Places.{PlaceState};
    ghost use Rattle.broker_groups.specs.Brokers.{IsBrokerPlace};

    ghost Value = { PlaceState };

    ghost view = { λ p. p.place };

    ghost invariant = { λ p. IsBrokerPlace B.group p.place };
}

impl<B: Broker> BrokerPlace<B> {
    /// The place of its group that it is.
    pub fn into_place(self) -> Place<B::Seen>
        ensures same { result ≡ self }
        ensures named { IsBrokerPlace B.group result }
    {
        self.place
    }

    /// What it has out, and what it settled and did not gather.
    pub fn docket(&self) -> &Docket
        ensures value { result.now ≡ self.now.docket }
        ensures balance { IsBalanced self.now }
    {
        self.place.docket()
    }

    /// Whether an envelope is one that it has out.
    pub fn holds(&self, envelope: &Envelope) -> bool
        ensures { IsTrue result ↔ Holds self.now envelope.now }
    {
        self.place.holds(envelope)
    }

    /// Makes room for a hand-out and its end, as [`Place::reserve`] does.
    ///
    /// # Errors
    ///
    /// 503 [`JobError::Memory`]. There was no such room.
    pub fn reserve(&mut self) -> Result<(), JobError>
        ensures ok { OnOk result (1 ≤ self.new.docket.room) }
        ensures full { OnErr result (self.old.docket.room ≡ 0) }
        ensures same { KeepsPlace self.old self.new }
        ensures room { KeepsRoom self.old self.new }
        ensures out { KeepsOut HasOut self.old self.new }
    {
        self.place.reserve()
    }

    /// Is handed the oldest message of its group that was never handed out, as [`SharedGroup::take`](group_queue::SharedGroup::take)
    /// says. `None` only where the broker's witness saw that there was none.
    ///
    /// # Errors
    ///
    /// [`NoMemory`] only where there was no room in its docket, so not after [`BrokerPlace::reserve`]. Nothing was taken then.
    pub fn take<R: Wait>(
        &mut self,
        groups: &BrokerGroups<'_, B>,
        rt: &R,
        turn: &Turn,
    ) -> Result<Option<Envelope>, NoMemory>
        requires { turn.now.gate ≡ B.gate }
        ensures answer { TakeAnswers B.Seen.saw_main self.old (in_group result) self.new }
        ensures holds { IfOk result (λ answer. IfSome answer (Holds self.new)) }
        ensures room { UsesRoom self.old (in_group result) self.new }
        ensures out { FindsOut HasOut self.old result self.new }
    {
        let group = groups.group(self.place.slot());
        told(group.take(rt, &mut self.place, turn))
    }

    /// Is handed the message of its group that was given back first, as
    /// [`SharedGroup::take_back`](group_queue::SharedGroup::take_back) says. `None` only where the broker's witness saw that
    /// there was none.
    ///
    /// # Errors
    ///
    /// [`NoMemory`] only where there was no room in its docket, so not after [`BrokerPlace::reserve`]. Nothing was taken then.
    pub fn take_back<R: Wait>(
        &mut self,
        groups: &BrokerGroups<'_, B>,
        rt: &R,
        turn: &Turn,
    ) -> Result<Option<Envelope>, NoMemory>
        requires { turn.now.gate ≡ B.gate }
        ensures answer { TakeBackAnswers B.Seen.saw_returns self.old (in_group result) self.new }
        ensures holds { IfOk result (λ answer. IfSome answer (Holds self.new)) }
        ensures room { UsesRoom self.old (in_group result) self.new }
        ensures out { FindsOut HasOut self.old result self.new }
    {
        let group = groups.group(self.place.slot());
        told(group.take_back(rt, &mut self.place, turn))
    }

    /// Settles a message that is out at it, for good. It waits for nobody and takes no memory.
    pub fn settle(&mut self, envelope: Envelope, fate: Fate) -> Stamp
        requires { IsAmong HasOut self.old envelope }
        ensures stamp { result ≡ envelope.stamp }
        ensures settled { SettlesHeld self.old (job_of envelope.stamp) fate self.new }
        ensures same { IsSamePlace self.old self.new }
        ensures out { SpendsOut HasOut self.old envelope self.new }
    {
        self.place.settle(envelope, fate)
    }

    /// Gives a message back that is out at it, to be handed out again.
    ///
    /// # Errors
    ///
    /// 504: there was no memory. The envelope comes back, and nothing has changed.
    pub fn give_back<R: Wait>(
        &mut self,
        groups: &BrokerGroups<'_, B>,
        rt: &R,
        envelope: Envelope,
    ) -> Result<(), Envelope>
        requires { IsAmong HasOut self.old envelope }
        ensures answer { GiveBackAnswers self.old envelope result self.new }
        ensures out { ReturnsOut HasOut self.old envelope result self.new }
    {
        let group = groups.group(self.place.slot());
        group.give_back(rt, &mut self.place, envelope)
    }

    /// Moves what it settled into its group's ledger, as [`SharedGroup::gather`](group_queue::SharedGroup::gather) says.
    ///
    /// # Errors
    ///
    /// 503 [`JobError::Memory`]. It is as it was then, and where the answer is `false`.
    pub fn gather<R: Wait>(
        &mut self,
        groups: &BrokerGroups<'_, B>,
        rt: &R,
        alloc: Global,
    ) -> Result<bool, JobError>
        ensures answer { GatherAnswers B.Seen.saw_ledger self.old result self.new }
        ensures room { self.old.docket.room ≤ self.new.docket.room }
        ensures out { KeepsOut HasOut self.old self.new }
    {
        let group = groups.group(self.place.slot());
        group.gather(rt, alloc, &mut self.place)
    }
}

impl<B: Broker> session_desk::Place for BrokerPlace<B> {
    ghost slot_of = { λ p. p.group };

    ghost number_of = { λ p. p.number };

    fn slot(&self) -> u8 {
        self.place.slot()
    }

    fn number(&self) -> u8 {
        self.place.number()
    }
}

impl<B: Broker> HoldingPlace for BrokerPlace<B> {
    ghost use Rattle.broker_groups.specs.Outs.{HasOut};

    ghost has_out = { HasOut };
}

/// What a member is told of a hand-out.
fn told(answer: Result<Option<Envelope>, JobError>) -> Result<Option<Envelope>, NoMemory>
    ensures { in_group result ≡ answer }
{
    match answer {
        Ok(envelope) => Ok(envelope),
        Err(JobError::Memory) => Err(NoMemory),
    }
}
