//! Which of a worker's connections would be handed a job, and which wait for a session.
ghost use Rattle.std.specs.Prelude.{◌≡◌, ◌<◌, ◌≤◌, ◌+◌, ℕ, false, length, replicate, slice_set, slice_index_or};
ghost use Rattle.limits.specs.Limits.{most_groups};
ghost use Rattle.worker_bells.specs.Wishing.{IsWished, no_interest, none_or_one};

use crate::loads::{HeldCounts, Load};
use std::marker::Model;

/// What a connection would do if others did something.
#[derive(Clone, Copy, Debug, PartialEq, Eq)]
pub struct Interest {
    /// The slot of the group that it would be handed a job of.
    pub takes: Option<u8>,
    /// It waits for a session.
    pub waits: bool,
}

impl Interest {
    /// That of no connection.
    pub const NONE: Interest = Interest {
        takes: None,
        waits: false,
    };
}

/// What a member has, by which it is told when it is handed a message.
#[derive(Clone, Copy, Debug, PartialEq, Eq)]
pub struct Held {
    /// How many messages it has not acknowledged.
    pub count: u16,
    /// What was written to it last did not go out whole: it does not read now.
    pub is_blocked: bool,
}

impl Held {
    /// That of who has nothing.
    pub const NONE: Held = Held {
        count: 0,
        is_blocked: false,
    };
}

/// The interests of a worker's connections, by their cells. Contracts see them as that list.
#[derive(Drop)]
pub struct Members {
    interests: Vec<Interest>,
    // How many would be handed a job of each group.
    takers: [u32; 8],
    waiting: u32,
    // What each of them has. What it is used for is a hint, of which no contract speaks.
    held: Vec<Held>,
    // For each group, where the next hand-out begins.
    next: [usize; 8],
    // For each group, whether something has changed among those who would be handed a job.
    changed: [bool; 8],
    // No cell from this one on ever had one who would be.
    top: usize,
}

impl Model for Members {
    ghost use Rattle.std.specs.Prelude.{List};
    ghost use Rattle.worker_bells.specs.declared.members.Interest.{Interest};
    ghost use Rattle.worker_bells.specs.Wishing.{AreCounted};

    ghost Value = { List Interest };

    ghost view = { λ m. m.interests.items };

    ghost invariant = { λ m. AreCounted m.takers m.interests.items };
}

impl Members {
    /// No connection has an interest, and none has anything.
    pub fn new(interests: Vec<Interest>, held: Vec<Held>) -> Members
        requires few { length interests.items ≤ 65535 }
        requires none { interests.items ≡ replicate (length interests.items) no_interest }
        ensures { result ≡ interests.items }
    {
        Members {
            interests,
            takers: [0; 8],
            waiting: 0,
            held,
            next: [0; 8],
            changed: [false; 8],
            top: 0,
        }
    }

    /// Notes the interest of the connection in a cell.
    pub fn note(&mut self, cell: usize, interest: Interest)
        ensures { self.new ≡ slice_set self.old cell interest }
    {
        let Some(place) = self.interests.get_mut(cell) else {
            return;
        };
        let old = *place;
        *place = interest;
        if old != interest {
            mark(&mut self.changed, old.takes);
            mark(&mut self.changed, interest.takes);
            self.top = self.top.max(cell.saturating_add(1));
        }
        one_less(&mut self.takers, old.takes);
        one_more(&mut self.takers, interest.takes);
        if old.waits {
            self.waiting = self.waiting.saturating_sub(1);
        }
        if interest.waits {
            self.waiting = self.waiting.saturating_add(1);
        }
    }

    /// Whether some connection would be handed a job of this group.
    pub fn has_taker(&self, slot: usize) -> bool
        ensures { result ≡ false → slot < most_groups → ¬ IsWished slot self.now }
    {
        slot < self.takers.len() && self.takers[slot] > 0
    }

    /// How many would be handed a job of each group.
    pub fn takers(&self) -> &[u32; 8] {
        &self.takers
    }

    /// Whether the connection in this cell would be.
    pub fn takes(&self, cell: usize, slot: usize) -> bool {
        match self.interests.get(cell) {
            Some(
                Interest {
                    takes: Some(taken),
                    waits: _,
                },
            ) => usize::from(*taken) == slot,
            _ => false,
        }
    }

    /// Whether some connection waits for a session.
    pub fn has_waiting(&self) -> bool {
        self.waiting > 0
    }

    /// Notes how many messages the client in a cell has not acknowledged.
    pub fn note_held(&mut self, cell: usize, count: usize)
        ensures { self.new ≡ self.old }
    {
        let Some(held) = self.held.get_mut(cell) else {
            return;
        };
        let count = u16::try_from(count).unwrap_or(u16::MAX);
        if held.count != count {
            held.count = count;
            self.mark_changed(cell);
        }
    }

    /// Notes whether the client in a cell reads what is written to it.
    pub fn note_blocked(&mut self, cell: usize, is_blocked: bool)
        ensures { self.new ≡ self.old }
    {
        let Some(held) = self.held.get_mut(cell) else {
            return;
        };
        if held.is_blocked != is_blocked {
            held.is_blocked = is_blocked;
            self.mark_changed(cell);
        }
    }

    /// Notes that the client in a cell was handed a message of a group, so that those in the cells after it come next.
    pub fn note_served(&mut self, cell: usize, slot: usize)
        ensures { self.new ≡ self.old }
    {
        if let Some(next) = self.next.get_mut(slot) {
            *next = cell.saturating_add(1);
        }
    }

    /// Something has changed in a cell.
    fn mark_changed(&mut self, cell: usize)
        ensures { self.new ≡ self.old }
    {
        if let Some(interest) = self.interests.get(cell) {
            mark(&mut self.changed, interest.takes);
        }
    }

    /// Whether something has changed among those who would be handed a job of a group since this was asked last.
    pub fn take_changed(&mut self, slot: usize) -> bool
        ensures { self.new ≡ self.old }
    {
        match self.changed.get_mut(slot) {
            Some(changed) => {
                let was = *changed;
                *changed = false;
                was
            }
            None => false,
        }
    }

    /// What the connection in a cell has, where it would be handed a job of this group, and reads.
    pub fn held_at(&self, cell: usize, slot: usize) -> Option<Held> {
        if !self.takes(cell, slot) {
            return None;
        }
        match self.held.get(cell) {
            Some(held) => if held.is_blocked { None } else { Some(*held) },
            None => None,
        }
    }

    /// The cell at which the next hand-outs of a group begin.
    pub fn next(&self, slot: usize) -> usize {
        match self.next.get(slot) {
            Some(next) => *next,
            None => 0,
        }
    }

    /// The cell that comes so many after this one, where the first cell comes after the last.
    pub fn cell_behind(&self, first: usize, step: usize) -> usize {
        let cell = first.saturating_add(step);
        if cell < self.top {
            cell
        } else {
            cell.saturating_sub(self.top)
        }
    }

    /// How many cells there are at most in which there was one who would be handed a job.
    pub fn top(&self) -> usize {
        self.top
    }

    /// Counts for those who would be handed a job of a group, and read, how many messages they have not acknowledged.
    pub fn count_held(&self, slot: usize, counts: &mut HeldCounts) {
        counts.clear();
        if !self.has_taker(slot) {
            return;
        }
        for cell in 0..self.top {
            if let Some(held) = self.held_at(cell, slot) {
                counts.count(held.count);
            }
        }
    }

    /// The cell of one of them that has the fewest messages; 0 where there is none.
    pub fn cell_of_fewest(&self, slot: usize) -> usize {
        let mut fewest = u16::MAX;
        let mut found = 0;
        let next = self.next(slot);
        for step in 0..self.top {
            let cell = self.cell_behind(next, step);
            if let Some(held) = self.held_at(cell, slot) {
                if held.count < fewest {
                    fewest = held.count;
                    found = cell;
                }
            }
        }
        found
    }

    /// What its worker tells the others of them.
    pub fn load(&self, slot: usize) -> Load {
        let mut load = Load::NONE;
        if !self.has_taker(slot) {
            return load;
        }
        let mut sum = 0u32;
        for cell in 0..self.top {
            if let Some(held) = self.held_at(cell, slot) {
                if load.members == 0 || held.count < load.least {
                    load.least = held.count;
                    load.at_least = 0;
                }
                if held.count == load.least {
                    load.at_least = load.at_least.saturating_add(1);
                }
                load.members = load.members.saturating_add(1);
                sum = sum.saturating_add(u32::from(held.count));
            }
        }
        load.rest = rest_of(load, sum);
        load
    }
}

/// How many messages those who have more than the least have on the average, where all together have so many.
fn rest_of(load: Load, sum: u32) -> u16 {
    let others = u32::from(load.members.saturating_sub(load.at_least));
    if others == 0 {
        return load.least;
    }
    let least = u32::from(load.least).saturating_mul(u32::from(load.at_least));
    u16::try_from(sum.saturating_sub(least) / others).unwrap_or(u16::MAX)
}

/// Something has changed in the group of a slot, if that is one.
fn mark(changed: &mut [bool; 8], slot: Option<u8>) {
    if let Some(slot) = slot {
        if let Some(changed) = changed.get_mut(usize::from(slot)) {
            *changed = true;
        }
    }
}

/// One less would be handed a job of this group.
fn one_less(takers: &mut [u32; 8], slot: Option<u8>)
    requires { (k : ℕ) → k < 8 → none_or_one k slot ≤ slice_index_or takers.old k 0 }
    ensures { (k : ℕ) → k < 8 → slice_index_or takers.new k 0 + none_or_one k slot ≡ slice_index_or takers.old k 0 }
{
    if let Some(slot) = slot {
        let slot = usize::from(slot);
        if slot < takers.len() {
            takers[slot] = takers[slot].saturating_sub(1);
        }
    }
}

/// One more would be handed a job of this group.
fn one_more(takers: &mut [u32; 8], slot: Option<u8>)
    requires { (k : ℕ) → k < 8 → slice_index_or takers.old k 0 ≤ 65535 }
    ensures { (k : ℕ) → k < 8 → slice_index_or takers.new k 0 ≡ slice_index_or takers.old k 0 + none_or_one k slot }
{
    if let Some(slot) = slot {
        let slot = usize::from(slot);
        if slot < takers.len() {
            takers[slot] = takers[slot].saturating_add(1);
        }
    }
}
