//! What a worker knows of the members of a group, its own and the other workers', and how many of the messages that wait are for its own: those that have the fewest come first.
ghost use Rattle.std.specs.Prelude.{◌<◌, IfSome};
ghost use Rattle.limits.specs.Limits.{most_ports};

use limits::MOST_PORTS;
use worker_bells::{Average, FillLevel, HeldCounts, Load, SLOTS};

/// Of so many workers at most it is told what they have: no broker has more.
pub(crate) const MOST_WORKERS: usize = MOST_PORTS as usize;

/// For so many messages each, on the average, a worker's own members may be ahead of another worker's before those come first where all have as few.
const MOST_AHEAD: u32 = 1;

/// What a worker is to do for a group in a turn.
#[derive(Clone, Copy)]
pub(crate) struct Plan {
    // So many are for its own members.
    pub(crate) share: u32,
    // The workers, by their bits, whose members have the fewest.
    pub(crate) fewest: u64,
    // It was called for one of them.
    pub(crate) is_called: bool,
    // So many of its own members may be handed one.
    pub(crate) members: u16,
}

impl Plan {
    pub(crate) const NONE: Plan = Plan {
        share: 0,
        fewest: 0,
        is_called: false,
        members: 0,
    };
}

/// What a worker knows of the members of a group when it shares out, and what it is to do.
#[derive(Drop)]
pub(crate) struct Sharing {
    pub(crate) plans: [Plan; SLOTS],
    // For each group, whether its own members discarded some of what they were handed since it was planned for, and have room for others.
    discards: [bool; SLOTS],
    // How many of its own members have how many.
    pub(crate) own: HeldCounts,
    // For each group, how many messages each of its own members was handed.
    averages: [Average; SLOTS],
    // What the other workers told of theirs.
    pub(crate) others: [Load; MOST_WORKERS],
    pub(crate) theirs: [Average; MOST_WORKERS],
}

impl Sharing {
    /// Nothing is known, and nothing to be done.
    pub(crate) const NONE: Sharing = Sharing {
        plans: [Plan::NONE; SLOTS],
        discards: [false; SLOTS],
        own: HeldCounts::NONE,
        averages: [Average::NONE; SLOTS],
        others: [Load::NONE; MOST_WORKERS],
        theirs: [Average::NONE; MOST_WORKERS],
    };

    /// The shares of all groups.
    pub(crate) fn shares(&self) -> [u32; SLOTS] {
        let mut shares = [0; SLOTS];
        for slot in 0..SLOTS {
            shares[slot] = self.plans[slot].share;
        }
        shares
    }

    /// For each group, the workers whose members have the fewest.
    pub(crate) fn fewest(&self) -> [u64; SLOTS] {
        let mut fewest = [0; SLOTS];
        for slot in 0..SLOTS {
            fewest[slot] = self.plans[slot].fewest;
        }
        fewest
    }

    /// Notes that a member of its own discarded some of what it was handed of a group, and has room for others.
    pub(crate) fn note_discards(&mut self, slot: usize) {
        if let Some(discards) = self.discards.get_mut(slot) {
            *discards = true;
        }
    }

    /// Whether one did since the group was planned for, as it is from now on.
    pub(crate) fn take_discards(&mut self, slot: usize) -> bool {
        match self.discards.get_mut(slot) {
            Some(discards) => {
                let was = *discards;
                *discards = false;
                was
            }
            None => false,
        }
    }

    /// Whether there is a group of which one did since it was planned for.
    pub(crate) fn has_discards(&self) -> bool {
        self.discards.contains(&true)
    }

    /// How many messages each of its own members of a group was handed.
    pub(crate) fn average(&self, slot: usize) -> Average {
        match self.averages.get(slot) {
            Some(average) => *average,
            None => Average::NONE,
        }
    }

    /// So many of its own members of a group were handed so many messages more.
    pub(crate) fn note_handed(&mut self, slot: usize, messages: u32, members: u16) {
        if let Some(average) = self.averages.get_mut(slot) {
            *average = average.with(messages, members);
        }
    }

    /// Brings what its own members of a group were handed near what those of that other worker were who were handed most.
    pub(crate) fn keep_near(&mut self, slot: usize, workers: usize, own: usize) {
        let mut most: Option<Average> = None;
        for worker in 0..workers.min(MOST_WORKERS) {
            let theirs = self.theirs[worker];
            if worker != own && self.others[worker].members > 0 {
                most = match most {
                    Some(most) if !theirs.leads(most, 0) => Some(most),
                    _ => Some(theirs),
                };
            }
        }
        if let (Some(most), Some(average)) = (most, self.averages.get_mut(slot)) {
            *average = average.near(most);
        }
    }

    /// How far so many messages fill the members of all workers.
    pub(crate) fn level(&self, workers: usize, waiting: u32) -> FillLevel {
        FillLevel::of(
            &self.others[..workers.min(MOST_WORKERS)],
            &self.own,
            u64::from(waiting),
        )
    }

    /// How many of the messages of a group that wait are the share of a worker that was called for one of them: of those members that have as few its own come first.
    pub(crate) fn share_of_called(&self, level: FillLevel, waiting: u32) -> u32 {
        u32::try_from(level.share(&self.own, u64::from(waiting), 0)).unwrap_or(u32::MAX)
    }

    /// The same of another worker, whose own members come first unless they are ahead of the others'.
    pub(crate) fn share(
        &self,
        workers: usize,
        own: usize,
        slot: usize,
        level: FillLevel,
        waiting: u32,
    ) -> u32 {
        let count = u64::from(waiting);
        if level.keeps_all(&self.own, count) {
            return waiting;
        }
        let earlier = self.earlier(workers, own, slot, level.level);
        u32::try_from(level.share(&self.own, count, earlier)).unwrap_or(u32::MAX)
    }

    /// How many members of other workers that are below a level come before those of this one: of whom each was handed too few beside its own.
    fn earlier(&self, workers: usize, own: usize, slot: usize, level: u16) -> u64 {
        let average = self.average(slot);
        let mut earlier = 0u64;
        for worker in 0..workers.min(MOST_WORKERS) {
            if worker != own && average.leads(self.theirs[worker], MOST_AHEAD) {
                earlier = earlier.saturating_add(self.others[worker].below(level));
            }
        }
        earlier
    }

    /// The bits of those other workers whose members are below a level and have the fewest, until they can be handed so many messages.
    pub(crate) fn fewest_for(&self, workers: usize, own: usize, level: u16, count: u64) -> u64 {
        let mut found = 0u64;
        let mut covered = 0u64;
        'workers: for _ in 0..workers.min(MOST_WORKERS) {
            if covered >= count {
                break;
            }
            let Some(worker) = self.next_fewest(workers, own, level, found) else {
                break;
            };
            found |= 1 << worker;
            covered = covered.saturating_add(self.others[worker].up_to(level));
        }
        found
    }

    /// Of the other workers that are not found yet the one whose members are below a level and have the fewest, and were handed fewest where several have.
    fn next_fewest(&self, workers: usize, own: usize, level: u16, found: u64) -> Option<usize>
        ensures { IfSome result (λ worker. worker < most_ports) }
    {
        let mut best = None;
        let mut least = level;
        let mut average = Average::NONE;
        for worker in 0..workers.min(MOST_WORKERS) {
            let load = self.others[worker];
            let theirs = self.theirs[worker];
            let is_other = worker != own && found >> worker & 1 == 0 && load.members > 0;
            if is_other
                && (load.least < least
                    || load.least == least && least < level && average.leads(theirs, 0))
            {
                best = Some(worker);
                least = load.least;
                average = theirs;
            }
        }
        best
    }
}
