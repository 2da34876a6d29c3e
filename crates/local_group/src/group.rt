//! A group on one thread.
ghost use Rattle.std.specs.Prelude.{◌≡◌, ◌≢◌, ◌≤◌, ◌<◌, ◌↔◌, Err, OnOk, OnErr, IfOk, IfErr, IsTrue};
ghost use Rattle.limits.specs.Limits.{most_members, most_ports};
ghost use Rattle.local_group.specs.Groups.{IsFresh, IsHeld, Accepts, MayOffer, MayNotOffer, held_by, Takes, TakesBack, MayNotTake, Settles, GivesBack, Closes, event_of};
ghost use Rattle.dispatch_core.specs.History.{IsRun};
ghost use Rattle.local_group.specs.Keeping.{IsRanged};
ghost use Rattle.local_group.specs.Spots.{jobs_in};
ghost use Rattle.group_jobs.specs.Spots.{times_queued, times_returned, Lists};
ghost use Rattle.local_group.specs.declared.error.OfferError.TheVariants as OfferError;

use crate::error::{NotTaken, OfferError, TakeError};
use crate::events::{conclude, note};
use crate::waiting::{Waiting, front_of, make_way_back, put_behind, take_front};
use dispatch_core::{Event, Job, Spot, State};
use group_jobs::{Envelope, Fate, JobError, SharedMessage, Stamp};
use limits::MOST_ACCEPTED;
use std::alloc::Global;
use std::collections::VecDeque;
use std::marker::Model;

/// A group on one thread: it accepts messages through its 64 ports, hands each to one of its 32 places, and keeps the list of
/// what happened. Ports and places are numbers, from 0 on.
///
/// Contracts see it as a `Group`.
#[derive(Drop)]
pub struct LocalGroup {
    slot: u8,
    capacity: usize,
    state: State,
    // With room for the event that ends each hand-out, and for the close.
    events: Vec<Event>,
    queue: VecDeque<Waiting>,
    // With room for each message that is handed out.
    returned: VecDeque<Waiting>,
    // How many messages are handed out and neither settled nor given back.
    out: usize,
}

impl Model for LocalGroup {
    ghost use Rattle.std.specs.Prelude.{vec_len, vec_capacity, ◌<◌, ◌≤◌};
    ghost use Rattle.std.specs.VecDeque.{deque_len, deque_capacity};
    ghost use Rattle.local_group.specs.Groups.{Group};
    ghost use Rattle.local_group.specs.Keeping.{IsKept, IsRoomy};

    ghost Value = { Group };

    ghost view = { λ g. record {
      slot = g.slot;
      capacity = g.capacity;
      events = g.events.items;
      state = g.state;
      queue = g.queue.items;
      returned = g.returned.items;
    } };

    ghost invariant = { λ g. IsKept g.state g.events.items g.queue.items g.returned.items g.out
        × IsRoomy g.state g.out (vec_len g.events) (vec_capacity g.events) g.capacity (deque_len g.queue) (deque_capacity g.queue) (deque_len g.returned) (deque_capacity g.returned) };
}

impl LocalGroup {
    /// The group of this slot, in whose queue so many messages may wait.
    ///
    /// # Errors
    ///
    /// 503 [`JobError::Memory`]: its queue takes its memory here, and no more later.
    pub fn open(alloc: Global, slot: u8, capacity: usize) -> Result<LocalGroup, JobError>
        ensures fresh { IfOk result IsFresh }
        ensures form { IfOk result (λ group. (group.slot ≡ slot) × (group.capacity ≡ capacity)) }
    {
        Ok(LocalGroup {
            slot,
            capacity,
            state: State::new(alloc)?,
            events: Vec::with_capacity(alloc, 1)?,
            queue: VecDeque::with_capacity(alloc, capacity)?,
            returned: VecDeque::new(alloc),
            out: 0,
        })
    }

    /// What happened in the group, in order.
    pub fn events(&self) -> &[Event]
        ensures events { result.now ≡ self.now.events }
        ensures run { IsRun self.now.events self.now.state }
    {
        &self.events
    }

    /// Whether the group is closed: it accepts nothing and hands nothing out any more.
    pub fn is_closed(&self) -> bool
        ensures { result ≡ self.now.state.closed }
    {
        self.state.closed()
    }

    /// Where its jobs are.
    pub(crate) fn state(&self) -> &State
        ensures value { result.now ≡ self.now.state }
        ensures ranged { IsRanged self.now.state }
    {
        &self.state
    }

    /// The messages that were handed to nobody, the oldest first.
    pub(crate) fn queue(&self) -> &VecDeque<Waiting>
        ensures items { result.now.items ≡ self.now.queue }
        ensures jobs { Lists times_queued self.now.state (jobs_in self.now.queue) }
    {
        &self.queue
    }

    /// Those that were given back, the one that was given back first in front.
    pub(crate) fn returned(&self) -> &VecDeque<Waiting>
        ensures items { result.now.items ≡ self.now.returned }
        ensures jobs { Lists times_returned self.now.state (jobs_in self.now.returned) }
    {
        &self.returned
    }

    /// Whether the group has this envelope out: its place may settle it or give it back.
    pub fn is_held(&self, envelope: &Envelope) -> bool
        ensures { IsTrue result ↔ IsHeld self.now envelope.now }
    {
        let stamp = envelope.stamp();
        stamp.group == self.slot
            && self.state.spot(stamp.job()) == Some(Spot::Held(envelope.place()))
    }

    /// Accepts a message through a port.
    ///
    /// # Errors
    ///
    /// The first that applies, with the message: 401, 502, 501 or 503 of [`OfferError`].
    pub fn offer(&mut self, port: u8, message: SharedMessage) -> Result<Stamp, NotTaken>
        requires port { port < most_ports }
        ensures accepted { IfOk result (λ stamp. Accepts self.old port message stamp self.new) }
        ensures refused { IfErr result (λ refusal. MayNotOffer self.old port refusal.why) }
        ensures handed_back { IfErr result (λ refusal. refusal.message ≡ message) }
        ensures unchanged { OnErr result (self.new ≡ self.old) }
    {
        if let Err(why) = self.may_offer(port) {
            return Err(NotTaken { why, message });
        }
        let number = self.state.accepted(port);
        let job = Job { port, number };
        let event = Event::Accept { port };
        match note(&mut self.state, &mut self.events, self.out, event) {
            Ok(()) => {
                put_behind(&mut self.queue, job, message);
                Ok(Stamp::of(self.slot, job))
            }
            Err(_) => {
                let why = OfferError::Memory;
                Err(NotTaken { why, message })
            }
        }
    }

    /// Whether a port may accept a message, memory aside.
    fn may_offer(&self, port: u8) -> Result<(), OfferError>
        ensures ok { OnOk result (MayOffer self.now port) }
        ensures err { IfErr result (MayNotOffer self.now port) }
        ensures not_memory { OnErr result (result ≢ Err OfferError.Memory) }
    {
        if self.state.closed() {
            return Err(OfferError::Shut);
        }
        if self.state.accepted(port) >= MOST_ACCEPTED {
            return Err(OfferError::LifeSpent);
        }
        if self.queue.len() >= self.capacity {
            return Err(OfferError::Full);
        }
        Ok(())
    }

    /// Hands the oldest queued message to a place; `None` where nothing is queued.
    ///
    /// # Errors
    ///
    /// The first that applies: 401 or 503 of [`TakeError`].
    pub fn take(&mut self, place: u8) -> Result<Option<Envelope>, TakeError>
        requires place { place < most_members }
        ensures taken { IfOk result (λ found. Takes self.old place found self.new) }
        ensures refused { IfErr result (MayNotTake self.old self.old.queue) }
        ensures unchanged { OnErr result (self.new ≡ self.old) }
    {
        if self.state.closed() {
            return Err(TakeError::Shut);
        }
        let Some(job) = front_of(&self.queue) else {
            return Ok(None);
        };
        make_way_back(&mut self.returned, self.out)?;
        let event = Event::First { member: place, job };
        note(&mut self.state, &mut self.events, self.out, event)?;
        self.out += 1;
        let waiting = take_front(&mut self.queue);
        Ok(Some(envelope(self.slot, waiting, place)))
    }

    /// Hands the message that was given back first to a place; `None` where none is.
    ///
    /// # Errors
    ///
    /// The first that applies: 401 or 503 of [`TakeError`].
    pub fn take_back(&mut self, place: u8) -> Result<Option<Envelope>, TakeError>
        requires place { place < most_members }
        ensures taken { IfOk result (λ found. TakesBack self.old place found self.new) }
        ensures refused { IfErr result (MayNotTake self.old self.old.returned) }
        ensures unchanged { OnErr result (self.new ≡ self.old) }
    {
        if self.state.closed() {
            return Err(TakeError::Shut);
        }
        let Some(job) = front_of(&self.returned) else {
            return Ok(None);
        };
        let event = Event::Again { member: place, job };
        note(&mut self.state, &mut self.events, self.out, event)?;
        self.out += 1;
        let waiting = take_front(&mut self.returned);
        Ok(Some(envelope(self.slot, waiting, place)))
    }

    /// The place that holds the message settles it, for good. It takes no memory.
    ///
    /// The group has the envelope out, as [`LocalGroup::is_held`] tells.
    pub fn settle(&mut self, envelope: Envelope, fate: Fate) -> Stamp
        requires held { IsHeld self.old envelope }
        ensures stamp { result ≡ envelope.stamp }
        ensures settled { Settles self.old envelope fate self.new }
    {
        let place = envelope.place();
        let (stamp, _message) = envelope.open();
        let event = event_of(fate, place, stamp.job());
        conclude(&mut self.state, &mut self.events, event);
        self.out -= 1;
        stamp
    }

    /// The place that holds the message gives it back, so that it goes to another. It takes no memory.
    ///
    /// The group has the envelope out, as [`LocalGroup::is_held`] tells.
    pub fn give_back(&mut self, envelope: Envelope)
        requires held { IsHeld self.old envelope }
        ensures { GivesBack self.old envelope self.new }
    {
        let member = envelope.place();
        let (stamp, message) = envelope.open();
        let job = stamp.job();
        conclude(
            &mut self.state,
            &mut self.events,
            Event::Back { member, job },
        );
        self.out -= 1;
        put_behind(&mut self.returned, job, message);
    }

    /// Closes the group: it accepts nothing and hands nothing out any more. A second close does nothing. It takes no memory.
    pub fn close(&mut self)
        ensures { Closes self.old self.new }
    {
        if !self.state.closed() {
            conclude(&mut self.state, &mut self.events, Event::Close);
        }
    }
}

/// The message in the hands of a place.
fn envelope(slot: u8, waiting: Waiting, place: u8) -> Envelope
    ensures { result ≡ held_by slot waiting place }
{
    Envelope::new(Stamp::of(slot, waiting.job), place, waiting.message)
}

/// The event that a fate is.
fn event_of(fate: Fate, member: u8, job: Job) -> Event
    ensures { result ≡ event_of fate member job }
{
    match fate {
        Fate::Acknowledged => Event::Ack { member, job },
        Fate::Refused => Event::Refuse { member, job },
        Fate::Discarded => Event::Discard { member, job },
    }
}
