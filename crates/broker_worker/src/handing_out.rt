//! How a worker hands its share of a group to its own members: those that have the fewest come first.
ghost use Rattle.std.specs.Prelude.{◌≡◌};
ghost use Rattle.worker_connections.specs.Serving.{Rounds};

use crate::sharing::Plan;
use crate::worker::{READ_SIZE, Worker};
use broker_groups::Broker;
use call_history::HistoryName;
use conn_service::Direction;
use std::sync::Wait;
use transport::Transport;
use worker_bells::{FillLevel, Held, SLOTS};
use worker_connections::Poller;

impl<'a, 'g, B: Broker, N: HistoryName, T: Transport + Drop, Q: Poller<T> + Drop, R: Wait> Worker<
    'a,
    'g,
    B,
    N,
    T,
    Q,
    R,
> {
    /// Hands its share of each group to its own members. Where this worker was called, and handed out none, it rings for another one.
    pub(crate) fn hand_out(&mut self, buffer: &mut [u8; READ_SIZE])
        ensures { Rounds self.old.connections self.new.connections }
    {
        'slots: for slot in 0..SLOTS {
            let plan = self.sharing.plans[slot];
            let handed = self.hand_out_of(slot, plan, buffer);
            if plan.is_called && handed == 0 {
                self.own_bells.ring(slot, 1, plan.fewest);
            }
        }
    }

    /// Hands its share of a group to its own members, to those first who have the fewest. How many it handed out.
    fn hand_out_of(&mut self, slot: usize, plan: Plan, buffer: &mut [u8; READ_SIZE]) -> u32
        ensures { Rounds self.old.connections self.new.connections }
    {
        if plan.share == 0 {
            return 0;
        }
        self.connections
            .members()
            .count_held(slot, &mut self.sharing.own);
        let level = FillLevel::of(&[], &self.sharing.own, u64::from(plan.share));
        let mut spare = level.spare;
        let mut left = plan.share;
        let next = self.connections.members().next(slot);
        'members: for step in 0..self.connections.members().top() {
            if left == 0 {
                break;
            }
            let cell = self.connections.members().cell_behind(next, step);
            let most = self.most_for(cell, slot, level.level, &mut spare).min(left);
            if most > 0 {
                left = left.saturating_sub(self.hand_to(cell, slot, most, buffer));
            }
        }
        let handed = plan.share.saturating_sub(left);
        self.tell_handed(slot, handed, plan.members);
        handed
    }

    /// How many messages the client in a cell is handed where all are filled up to a level, of which so many more may have one more.
    fn most_for(&self, cell: usize, slot: usize, level: u16, spare: &mut u64) -> u32 {
        let Some(held) = self.connections.members().held_at(cell, slot) else {
            return 0;
        };
        let most = u32::from(level.saturating_sub(1).saturating_sub(held.count));
        if *spare > 0 && held.count < level {
            *spare -= 1;
            return most.saturating_add(1);
        }
        most
    }

    /// Hands so many messages at most to the client in a cell. How many it was handed.
    fn hand_to(&mut self, cell: usize, slot: usize, most: u32, buffer: &mut [u8; READ_SIZE]) -> u32
        ensures { Rounds self.old.connections self.new.connections }
    {
        let before = self.held_at(cell, slot);
        let _round = self.round(cell, Direction::Outbound, buffer, most);
        let handed = most.saturating_sub(self.connections.unused());
        if handed > 0 {
            self.note_handed_to(cell, slot, before, handed);
        }
        handed
    }

    /// Notes that the client in a cell, which had so much, was handed a message, where the latest round did that, and tells the others.
    pub(crate) fn note_offered(&mut self, cell: usize, slot: usize, before: Option<Held>)
        ensures same { self.new.connections ≡ self.old.connections }
        ensures bells { self.new.bells ≡ self.old.bells }
    {
        if self.connections.unused() == 0 {
            self.note_handed_to(cell, slot, before, 1);
            self.tell_handed(slot, 1, 1);
        }
    }

    /// What the client in a cell has, where it is a member of a group that has room, and reads.
    pub(crate) fn held_at(&self, cell: usize, slot: usize) -> Option<Held> {
        self.connections.members().held_at(cell, slot)
    }

    /// Notes that the client in a cell, which had so much, was handed so many messages. Where it discarded some, and has room still, the group is planned for again.
    fn note_handed_to(&mut self, cell: usize, slot: usize, before: Option<Held>, messages: u32)
        ensures same { self.new.connections ≡ self.old.connections }
        ensures bells { self.new.bells ≡ self.old.bells }
    {
        self.connections.note_served(cell, slot);
        if holds_fewer(before, self.held_at(cell, slot), messages) {
            self.sharing.note_discards(slot);
        }
    }

    /// Tells the others of its members of a group, of which so many were handed so many messages.
    fn tell_handed(&mut self, slot: usize, messages: u32, members: u16)
        ensures same { self.new.connections ≡ self.old.connections }
        ensures bells { self.new.bells ≡ self.old.bells }
    {
        self.sharing.note_handed(slot, messages, members);
        self.tell_load(slot, self.connections.members().load(slot), 0);
    }
}

/// Whether a client that had room before and after it was handed so many messages now holds fewer more than that: it discarded the others.
fn holds_fewer(before: Option<Held>, after: Option<Held>, messages: u32) -> bool {
    match (before, after) {
        (Some(before), Some(after)) => u32::from(after.count.saturating_sub(before.count))
            < messages,
        _ => false,
    }
}
