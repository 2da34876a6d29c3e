//! What a worker is to do for each group in a turn, and what it tells the others of it.
ghost use Rattle.std.specs.Prelude.{◌≡◌, List, ℕ};
ghost use Rattle.shared_supply.specs.Waking.{KeepsAtMost};
ghost use Rattle.worker_bells.specs.Ringing.{AreRung};
ghost use Rattle.worker_connections.specs.Serving.{wakes_of, with_wakes};

use crate::sharing::{MOST_WORKERS, Plan};
use crate::worker::Worker;
use broker_groups::Broker;
use call_history::HistoryName;
use std::sync::Wait;
use transport::Transport;
use worker_bells::{Hint, Load, SLOTS};
use worker_connections::Poller;

impl<'a, 'g, B: Broker, N: HistoryName, T: Transport + Drop, Q: Poller<T> + Drop, R: Wait> Worker<
    'a,
    'g,
    B,
    N,
    T,
    Q,
    R,
> {
    /// Finds for each group in which something has changed how many of the messages that wait are for its own members.
    pub(crate) fn plan(&mut self)
        ensures same { self.new.connections ≡ self.old.connections }
        ensures bells { self.new.bells ≡ self.old.bells }
    {
        self.own_bells.note_each(&self.connections.messages());
        'slots: for slot in 0..SLOTS {
            self.plan_for(slot);
        }
    }

    /// The same for one group. Where its own members discarded what they were handed, it goes on as if it were called again.
    fn plan_for(&mut self, slot: usize)
        ensures same { self.new.connections ≡ self.old.connections }
        ensures bells { self.new.bells ≡ self.old.bells }
    {
        let (is_rung, is_called) = self.own_bells.take(slot);
        let has_changed = self.connections.take_changed(slot);
        let has_discards = self.sharing.take_discards(slot);
        let plan = self.plan_of(
            slot,
            is_rung || has_changed || has_discards,
            is_called || has_discards,
        );
        if let Some(place) = self.sharing.plans.get_mut(slot) {
            *place = plan;
        }
    }

    /// What it is to do for a group where something has changed, of which it tells the others first how it stands.
    fn plan_of(&mut self, slot: usize, has_changed: bool, is_called: bool) -> Plan
        ensures same { self.new.connections ≡ self.old.connections }
        ensures bells { self.new.bells ≡ self.old.bells }
    {
        if !has_changed {
            return Plan::NONE;
        }
        let load = self.connections.members().load(slot);
        self.tell_load(slot, load, 0);
        let workers = self.mailboxes.len();
        let waiting = self.mailboxes.hints().waiting(workers, slot);
        if waiting == 0 {
            return Plan::NONE;
        }
        self.look_round(slot);
        let level = self.sharing.level(workers, waiting);
        let share = if is_called {
            self.sharing.share_of_called(level, waiting)
        } else {
            self.sharing
                .share(workers, self.number, slot, level, waiting)
        };
        let left = u64::from(waiting.saturating_sub(share));
        let fewest = self
            .sharing
            .fewest_for(workers, self.number, level.level, left);
        if share > 0 {
            self.tell_load(slot, filled(load, level.level), share);
        }
        Plan {
            share,
            fewest,
            is_called,
            members: load.members,
        }
    }

    /// Looks what the other workers told of a group, and what its own members have.
    fn look_round(&mut self, slot: usize)
        ensures same { self.new.connections ≡ self.old.connections }
        ensures bells { self.new.bells ≡ self.old.bells }
    {
        let workers = self.mailboxes.len();
        for worker in 0..workers.min(MOST_WORKERS) {
            if worker != self.number {
                let (load, average) = self.mailboxes.hints().load(worker, slot);
                self.sharing.others[worker] = load;
                self.sharing.theirs[worker] = average;
            }
        }
        self.sharing.keep_near(slot, workers, self.number);
        self.connections
            .members()
            .count_held(slot, &mut self.sharing.own);
    }

    /// Tells the others of a group: of its members, and what it brought and handed out, with so many that it is about to hand out.
    pub(crate) fn tell_load(&self, slot: usize, load: Load, share: u32) {
        let counts = self.connections.counts(slot);
        self.mailboxes.hints().tell(
            self.number,
            slot,
            Hint {
                load,
                average: self.sharing.average(slot),
                brought: counts.brought(),
                handed: counts.handed_out().wrapping_add(share),
            },
        );
    }

    /// Tells the others of the messages of each group that are more than its share: it rings for as many workers, for those first whose members have the fewest. The
    /// others it keeps, since it goes on to hand them out.
    pub(crate) fn tell_beyond(&mut self)
        ensures rung { (most others : List ℕ) × KeepsAtMost most others (wakes_of self.old.connections) (wakes_of self.new.connections) × AreRung 0 others self.old.bells.ringings self.new.bells.ringings }
        ensures same { self.new.connections ≡ with_wakes self.old.connections (wakes_of self.new.connections) }
    {
        let others = self.connections.keep(&self.sharing.shares());
        self.own_bells.ring_each(&others, &self.sharing.fewest());
    }
}

/// The load of members that were filled up to a level, about.
fn filled(load: Load, level: u16) -> Load {
    Load {
        least: load.least.max(level.saturating_sub(1)),
        rest: load.rest.max(level),
        ..load
    }
}
