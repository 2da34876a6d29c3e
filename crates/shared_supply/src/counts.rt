//! What a worker counts: what became of the messages of each group, and of the sessions that its connections asked for.
use broker_groups::{Broker, BrokerPlace};
use conn_supply::{NoMemory, OfferRefusal};
use group_jobs::{Envelope, Fate};
use session_desk::{Attached, DeskError, Membership, Place};

/// The messages of one group that a worker's connections brought, were handed and settled. Each number begins at 0 again at 2^64.
#[derive(Clone, Copy, Debug, PartialEq, Eq)]
pub struct GroupCounts {
    /// How many they published that were accepted.
    pub accepted: u64,
    /// How many they published that were not, as the group's queue was full.
    pub full: u64,
    /// How many they published that were not, as the worker drains.
    pub shut: u64,
    /// How many were handed to their members for the first time.
    pub handed: u64,
    /// How many they gave back, as a session ended that held them.
    pub given_back: u64,
    /// How many that had been given back were handed to their members.
    pub handed_again: u64,
    /// How many they acknowledged.
    pub acknowledged: u64,
    /// How many they refused.
    pub refused: u64,
    /// How many were discarded in their turn, which were taken for a member, and not sent.
    pub discarded: u64,
    /// How many places of its members their sessions took.
    pub places_taken: u64,
    /// How many they freed.
    pub places_freed: u64,
}

impl GroupCounts {
    /// None yet.
    pub const NONE: GroupCounts = GroupCounts {
        accepted: 0,
        full: 0,
        shut: 0,
        handed: 0,
        given_back: 0,
        handed_again: 0,
        acknowledged: 0,
        refused: 0,
        discarded: 0,
        places_taken: 0,
        places_freed: 0,
    };

    /// How many they published or gave back, modulo 2^32: what all workers brought, less what all handed out, waits in the group.
    pub fn brought(&self) -> u32 {
        low_half(self.accepted.wrapping_add(self.given_back))
    }

    /// How many were handed to them, for the first time or again, modulo 2^32.
    pub fn handed_out(&self) -> u32 {
        low_half(self.handed.wrapping_add(self.handed_again))
    }

    /// How many more were accepted than settled, modulo 2^64. A worker settles what others accepted too: the sum of all workers is how many are unsettled.
    pub fn unsettled(&self) -> u64 {
        self.accepted
            .wrapping_sub(self.acknowledged)
            .wrapping_sub(self.refused)
            .wrapping_sub(self.discarded)
    }

    /// How many wait for their first hand-out, by the sum of all workers. These are asked one after another while they count, so it may be a little off: where more
    /// seem to be handed out than were accepted, it is 0.
    pub fn queued(&self) -> u64 {
        self.accepted.saturating_sub(self.handed)
    }

    /// How many were given back and wait to be handed out again, by the sum of all workers.
    pub fn returned(&self) -> u64 {
        self.given_back.saturating_sub(self.handed_again)
    }

    /// How many sessions hold, by the sum of all workers.
    pub fn held(&self) -> u64 {
        self.handed
            .saturating_add(self.handed_again)
            .saturating_sub(self.given_back)
            .saturating_sub(self.acknowledged)
            .saturating_sub(self.refused)
            .saturating_sub(self.discarded)
    }

    /// How many members there are, by the sum of all workers, with their client connected or away. Who has left is one until it has settled what it holds.
    pub fn members(&self) -> u64 {
        self.places_taken.saturating_sub(self.places_freed)
    }

    /// Adds what another worker counts of the same group.
    pub fn add(&mut self, other: &GroupCounts) {
        self.accepted = self.accepted.wrapping_add(other.accepted);
        self.full = self.full.wrapping_add(other.full);
        self.shut = self.shut.wrapping_add(other.shut);
        self.handed = self.handed.wrapping_add(other.handed);
        self.given_back = self.given_back.wrapping_add(other.given_back);
        self.handed_again = self.handed_again.wrapping_add(other.handed_again);
        self.acknowledged = self.acknowledged.wrapping_add(other.acknowledged);
        self.refused = self.refused.wrapping_add(other.refused);
        self.discarded = self.discarded.wrapping_add(other.discarded);
        self.places_taken = self.places_taken.wrapping_add(other.places_taken);
        self.places_freed = self.places_freed.wrapping_add(other.places_freed);
    }

    fn count_not_accepted(&mut self, refusal: OfferRefusal) {
        match refusal {
            OfferRefusal::Full => self.full = self.full.wrapping_add(1),
            OfferRefusal::Shut => self.shut = self.shut.wrapping_add(1),
            OfferRefusal::LifeSpent => {}
            OfferRefusal::Memory => {}
        }
    }

    fn count_settled(&mut self, fate: Fate) {
        match fate {
            Fate::Acknowledged => self.acknowledged = self.acknowledged.wrapping_add(1),
            Fate::Refused => self.refused = self.refused.wrapping_add(1),
            Fate::Discarded => self.discarded = self.discarded.wrapping_add(1),
        }
    }
}

/// The sessions that a worker's connections asked for. Each number begins at 0 again at 2^64.
#[derive(Clone, Copy, Debug, PartialEq, Eq)]
pub struct SessionCounts {
    /// How many new ones they got.
    pub begun: u64,
    /// How many they were lent that their clients had before.
    pub resumed: u64,
    /// How often one was refused: there are as many as the desk keeps, no name or no memory was left, or another connection waits for it already.
    pub refused: u64,
    /// How many ended.
    pub ended: u64,
}

impl SessionCounts {
    /// None yet.
    pub const NONE: SessionCounts = SessionCounts {
        begun: 0,
        resumed: 0,
        refused: 0,
        ended: 0,
    };

    /// How many have not ended, by the sum of all workers.
    pub fn live(&self) -> u64 {
        self.begun.saturating_sub(self.ended)
    }

    /// Adds what another worker counts.
    pub fn add(&mut self, other: &SessionCounts) {
        self.begun = self.begun.wrapping_add(other.begun);
        self.resumed = self.resumed.wrapping_add(other.resumed);
        self.refused = self.refused.wrapping_add(other.refused);
        self.ended = self.ended.wrapping_add(other.ended);
    }

    fn count<B: Broker>(&mut self, answer: &Result<Attached<Envelope, BrokerPlace<B>>, DeskError>) {
        match answer {
            Ok(Attached::New { .. }) => self.begun = self.begun.wrapping_add(1),
            Ok(Attached::Resumed(_)) => self.resumed = self.resumed.wrapping_add(1),
            Ok(Attached::Replace(_)) => {}
            Ok(Attached::Busy) | Err(_) => self.refused = self.refused.wrapping_add(1),
        }
    }
}

/// What a worker counts. No contract speaks of it.
#[derive(Clone, Copy, Debug, PartialEq, Eq)]
pub struct SupplyCounts {
    /// The messages of each group, by its slot.
    pub groups: [GroupCounts; 8],
    /// The sessions.
    pub sessions: SessionCounts,
}

impl SupplyCounts {
    /// Nothing has happened yet.
    pub const NONE: SupplyCounts = SupplyCounts {
        groups: [GroupCounts::NONE; 8],
        sessions: SessionCounts::NONE,
    };

    /// Those of the group of a slot; of a slot that no group has, none.
    pub fn of(&self, slot: usize) -> GroupCounts {
        match self.groups.get(slot) {
            Some(counts) => *counts,
            None => GroupCounts::NONE,
        }
    }

    /// How many more messages of all groups were accepted than settled, modulo 2^64.
    pub fn unsettled(&self) -> u64 {
        let mut sum: u64 = 0;
        for counts in &self.groups {
            sum = sum.wrapping_add(counts.unsettled());
        }
        sum
    }

    /// Adds what another worker counts.
    pub fn add(&mut self, other: &SupplyCounts) {
        for (counts, more) in self.groups.iter_mut().zip(other.groups.iter()) {
            counts.add(more);
        }
        self.sessions.add(&other.sessions);
    }

    fn of_mut(&mut self, slot: u8) -> Option<&mut GroupCounts> {
        self.groups.get_mut(usize::from(slot))
    }

    /// A message was accepted into the group of this slot.
    pub(crate) fn count_accepted(&mut self, slot: u8) {
        if let Some(counts) = self.of_mut(slot) {
            counts.accepted = counts.accepted.wrapping_add(1);
        }
    }

    /// A message was not accepted.
    pub(crate) fn count_not_accepted(&mut self, slot: u8, refusal: OfferRefusal) {
        if let Some(counts) = self.of_mut(slot) {
            counts.count_not_accepted(refusal);
        }
    }

    /// Where an answer has a message, that is handed out for the first time.
    pub(crate) fn count_handed(&mut self, slot: u8, answer: &Result<Option<Envelope>, NoMemory>) {
        if let Ok(Some(_)) = answer {
            if let Some(counts) = self.of_mut(slot) {
                counts.handed = counts.handed.wrapping_add(1);
            }
        }
    }

    /// A message was given back.
    pub(crate) fn count_given_back(&mut self, slot: u8) {
        if let Some(counts) = self.of_mut(slot) {
            counts.given_back = counts.given_back.wrapping_add(1);
        }
    }

    /// Where an answer has a message that had been given back, that is handed out.
    pub(crate) fn count_handed_again(
        &mut self,
        slot: u8,
        answer: &Result<Option<Envelope>, NoMemory>,
    ) {
        if let Ok(Some(_)) = answer {
            if let Some(counts) = self.of_mut(slot) {
                counts.handed_again = counts.handed_again.wrapping_add(1);
            }
        }
    }

    /// A message was settled.
    pub(crate) fn count_settled(&mut self, slot: u8, fate: Fate) {
        if let Some(counts) = self.of_mut(slot) {
            counts.count_settled(fate);
        }
    }

    /// What a connection got that asked for a session.
    pub(crate) fn count_attached<B: Broker>(
        &mut self,
        answer: &Result<Attached<Envelope, BrokerPlace<B>>, DeskError>,
    ) {
        self.sessions.count(answer);
    }

    /// A place was lent, if it was, of the group of this slot.
    pub(crate) fn count_lent<P>(&mut self, slot: u8, lent: &Option<P>) {
        if lent.is_some() {
            if let Some(counts) = self.of_mut(slot) {
                counts.places_taken = counts.places_taken.wrapping_add(1);
            }
        }
    }

    /// A place was freed.
    pub(crate) fn count_freed<B: Broker>(&mut self, place: &BrokerPlace<B>) {
        if let Some(counts) = self.of_mut(place.slot()) {
            counts.places_freed = counts.places_freed.wrapping_add(1);
        }
    }

    /// A session ended, and so its place is free, if it had one.
    pub(crate) fn count_ended<B: Broker>(&mut self, membership: &Membership<BrokerPlace<B>>) {
        self.sessions.ended = self.sessions.ended.wrapping_add(1);
        match membership {
            Membership::Member(place) | Membership::Leaving(place) => self.count_freed(place),
            Membership::NotMember => {}
        }
    }
}

/// A number modulo 2^32.
fn low_half(number: u64) -> u32 {
    u32::try_from(number & 0xFFFF_FFFF).unwrap_or(0)
}
