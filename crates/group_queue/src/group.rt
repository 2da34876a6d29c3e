//! Groups that threads share.
ghost use Rattle.std.specs.Prelude.{◌≡◌, ◌≤◌, ◌<◌, IfOk, IfSome};
ghost use Rattle.crossbeam_queue.specs.Fifo.{Held};

use crate::error::{NotTaken, OfferError};
use crate::main_queue::MainQueue;
use crate::place::Place;
use crate::port::Port;
use crate::posted::Posted;
use crate::returns_queue::ReturnsQueue;
use crate::witness::{Nobody, Witness};
use crate::{main_queue, returns_queue};
use dispatch_core::Job;
use gate_word::{Drained, Gate, Turn};
use group_jobs::{Envelope, JobError, SharedMessage, Stamp};
use limits::MOST_ACCEPTED;
use shared_ledger::SharedLedger;
use std::alloc::Global;
use std::marker::Model;
use std::sync::Wait;

/// A group of one share behind a gate, which threads use by reference. It is ended by [`SharedGroup::finish`], or given up by
/// [`SharedGroup::abandon`]. `W` is its witness, for contracts alone.
///
/// Contracts see it as a `GroupId`: its slot, how many ports and places it has, its capacity, its gate, and which its queues
/// and its ledger are. Its ports and places show which they are of.
pub struct SharedGroup<'a, W: Witness = Nobody> {
    pub(crate) slot: u8,
    pub(crate) ports: u8,
    pub(crate) places: u8,
    pub(crate) gate: &'a Gate,
    pub(crate) main: MainQueue<W>,
    pub(crate) returns: ReturnsQueue<W>,
    pub(crate) ledger: SharedLedger<W>,
}

impl<'a, W: Witness> Model for SharedGroup<'a, W> {
    ghost use Rattle.std.specs.Prelude.{◌≤◌};
    ghost use Rattle.crossbeam_queue.specs.Passes.{ruled_capacity};
    ghost use Rattle.group_queue.specs.Ports.{GroupId};

    ghost Value = { GroupId };

    ghost view = { λ g. record { slot = g.slot; shape = record { ports = g.ports; places = g.places }; capacity = ruled_capacity g.main; gate = g.gate.now; main = g.main.table.shared.table_id; returns = g.returns; ledger = g.ledger } };

    ghost invariant = { λ g. 1 ≤ g.places };
}

impl<'a, W: Witness> SharedGroup<'a, W> {
    ghost use Rattle.group_queue.specs.Ports.{IsPortOf, next_posted, next_stamp};
    ghost use Rattle.group_queue.specs.Places.{IsPlaceOf, Holds, TakeAnswers, TakeBackAnswers, UsesRoom, GiveBackAnswers, GatherAnswers};
    ghost use Rattle.group_queue.specs.Offers.{OfferAnswers};

    /// Its slot, which its stamps have.
    pub fn slot(&self) -> u8
        ensures { result ≡ self.now.slot }
    {
        self.slot
    }

    /// Accepts a message through a port of this group, whose gate is open. It takes no memory. A step of the queue may wait
    /// for another thread's.
    ///
    /// # Errors
    ///
    /// [`NotTaken`] with the message: 502 [`OfferError::LifeSpent`] exactly where the port accepted 2^40 messages, which is
    /// looked at first; 501 [`OfferError::Full`] only where the group's [`Witness`] saw the queue full. The port is
    /// unchanged then.
    pub fn offer<R: Wait>(
        &self,
        rt: &R,
        port: &mut Port<W>,
        turn: &Turn,
        message: SharedMessage,
    ) -> Result<Stamp, NotTaken>
        requires port { IsPortOf self.now port.old }
        requires turn { turn.now.gate ≡ self.now.gate }
        ensures answer { OfferAnswers W.saw_main self.now port.old message result port.new }
        ensures of { IsPortOf self.now port.new }
    {
        let _ = turn;
        if port.accepted == MOST_ACCEPTED {
            return Err(NotTaken {
                message,
                error: OfferError::LifeSpent,
            });
        }
        let job = Job {
            port: port.number,
            number: port.accepted,
        };
        let posted = Posted { job, message };
        match main_queue::push(rt, &self.main, &mut port.pass, posted) {
            Ok(()) => {
                port.accepted += 1;
                Ok(Stamp::of(self.slot, job))
            }
            Err(posted) => Err(NotTaken {
                message: posted.message,
                error: OfferError::Full,
            }),
        }
    }

    /// Hands the oldest message that was never handed out to a place of this group, whose gate is open. `None` only where
    /// the group's [`Witness`] saw that there was none. A step of the queue may wait for another thread's.
    ///
    /// # Errors
    ///
    /// 503 [`JobError::Memory`] only where there was no room in the place's docket, so not after [`Place::reserve`]. Nothing was
    /// taken then.
    pub fn take<R: Wait>(
        &self,
        rt: &R,
        place: &mut Place<W>,
        turn: &Turn,
    ) -> Result<Option<Envelope>, JobError>
        requires place { IsPlaceOf self.now place.old }
        requires turn { turn.now.gate ≡ self.now.gate }
        ensures answer { TakeAnswers W.saw_main place.old result place.new }
        ensures holds { IfOk result (λ answer. IfSome answer (Holds place.new)) }
        ensures room { UsesRoom place.old result place.new }
        ensures of { IsPlaceOf self.now place.new }
    {
        let _ = turn;
        place.docket.reserve()?;
        let popped = main_queue::pop(rt, &self.main, &mut place.passes.main, place.number);
        let Some(Posted { job, message }) = popped else {
            return Ok(None);
        };
        place.docket.take_out(job);
        Ok(Some(Envelope::new(Stamp::of(self.slot, job), place.number, message)))
    }

    /// Hands a message that was given back to a place of this group, whose gate is open: the one that was given back first.
    /// `None` only where the group's [`Witness`] saw that there was none. A step of the queue may wait for another thread's.
    ///
    /// # Errors
    ///
    /// 503 [`JobError::Memory`] only where there was no room in the place's docket, so not after [`Place::reserve`]. Nothing was
    /// taken then.
    pub fn take_back<R: Wait>(
        &self,
        rt: &R,
        place: &mut Place<W>,
        turn: &Turn,
    ) -> Result<Option<Envelope>, JobError>
        requires place { IsPlaceOf self.now place.old }
        requires turn { turn.now.gate ≡ self.now.gate }
        ensures answer { TakeBackAnswers W.saw_returns place.old result place.new }
        ensures holds { IfOk result (λ answer. IfSome answer (Holds place.new)) }
        ensures room { UsesRoom place.old result place.new }
        ensures of { IsPlaceOf self.now place.new }
    {
        let _ = turn;
        place.docket.reserve()?;
        let popped = returns_queue::pop(rt, &self.returns, &mut place.passes.returns);
        let Some(Posted { job, message }) = popped else {
            return Ok(None);
        };
        place.docket.take_out(job);
        let stamp = Stamp::of(self.slot, job);
        Ok(Some(Envelope::new(stamp, place.number, message)))
    }

    /// Gives a message back that a place of this group holds, to be handed out again. A step of the queue may wait for
    /// another thread's.
    ///
    /// # Errors
    ///
    /// 504: there was no memory. The envelope comes back, and nothing has changed.
    pub fn give_back<R: Wait>(
        &self,
        rt: &R,
        place: &mut Place<W>,
        envelope: Envelope,
    ) -> Result<(), Envelope>
        requires place { IsPlaceOf self.now place.old }
        requires held { Holds place.old envelope }
        ensures answer { GiveBackAnswers place.old envelope result place.new }
        ensures of { IsPlaceOf self.now place.new }
    {
        let subscription = envelope.subscription();
        let (stamp, message) = envelope.open();
        let job = stamp.job();
        let posted = Posted { job, message };
        match returns_queue::push(rt, &self.returns, &mut place.passes.returns, posted) {
            Ok(()) => {
                place.docket.give_back(job);
                Ok(())
            }
            Err(posted) => {
                Err(Envelope::new(stamp, place.number, posted.message).under(subscription))
            }
        }
    }

    /// Moves what a place of this group settled into the group's ledger, where the runs of all places join, so that memory
    /// does not grow with the jobs that are done. `false` only where the group's [`Witness`] saw that another had the ledger
    /// in hands. A step of the ledger's queue may wait for another thread's.
    ///
    /// # Errors
    ///
    /// 503 [`JobError::Memory`]. The place is as it was then, and where the answer is `false`.
    pub fn gather<R: Wait>(
        &self,
        rt: &R,
        alloc: Global,
        place: &mut Place<W>,
    ) -> Result<bool, JobError>
        requires { IsPlaceOf self.now place.old }
        ensures answer { GatherAnswers W.saw_ledger place.old result place.new }
        ensures of { IsPlaceOf self.now place.new }
        ensures room { place.old.docket.room ≤ place.new.docket.room }
    {
        self.ledger
            .gather(rt, alloc, &mut place.giver, &mut place.docket)
    }

    /// **Nothing is accepted or handed out after close.** Who has the token of the group's gate, and a turn as
    /// [`SharedGroup::offer`], [`SharedGroup::take`] and [`SharedGroup::take_back`] ask for, has what is false: so there is no
    /// such call in any run from then on.
    pub fn refute(&self, drained: &mut Drained, turn: &mut Turn)
        requires drained { drained.old ≡ self.now.gate }
        requires turn { turn.old.gate ≡ self.now.gate }
        ensures { ⊥ }
    {
        self.gate.refute(drained, turn);
    }

    /// Ends the group without a word of what became of its messages.
    pub fn abandon(self) {
        let SharedGroup {
            slot: _,
            ports: _,
            places: _,
            gate: _,
            main: _,
            returns,
            ledger: _,
        } = self;
        returns.destroy();
    }
}
