//! What a worker tells the others, and what it hears of them.
ghost use Rattle.std.specs.Prelude.{◌≡◌};
ghost use Rattle.shared_supply.specs.Waking.{no_wakes};
ghost use Rattle.broker_worker.specs.Resting.{HearsCalls, MayWait};
ghost use Rattle.worker_bells.specs.Ringing.{AreRung};
ghost use Rattle.worker_connections.specs.Serving.{wakes_of, with_wakes};
ghost use Rattle.worker_connections.specs.Sweeping.{AreTicked, IsInTime, WaitsInTime};

use crate::worker::{END_PAUSE, Worker};
use bell::Wake;
use broker_groups::Broker;
use call_history::HistoryName;
use shared_supply::AskedBack;
use std::sync::Wait;
use transport::Transport;
use worker_bells::{Mailboxes, SLOTS};
use worker_connections::Poller;

impl<'a, 'g, B: Broker, N: HistoryName, T: Transport + Drop, Q: Poller<T> + Drop, R: Wait> Worker<
    'a,
    'g,
    B,
    N,
    T,
    Q,
    R,
> {
    /// Tells the others what its connections did that they may wait for: it rings for as many workers as there are messages for each group, and calls whom a
    /// session concerns.
    pub(crate) fn tell(&mut self)
        ensures told { self.new.connections ≡ with_wakes self.old.connections no_wakes }
        ensures rung { AreRung 0 (wakes_of self.old.connections).messages self.old.bells.ringings self.new.bells.ringings }
    {
        let waits = self.connections.members().has_waiting();
        tell_whether_waiting(&mut self.waits, waits, self.mailboxes, self.number);
        let wakes = self.connections.take_wakes();
        self.own_bells.note_each(&wakes.messages);
        self.own_bells.ring_each(&wakes.messages, &[0; SLOTS]);
        call(self.mailboxes, wakes.asked_back, wakes.has_freed_session);
    }

    /// Hears where others called it while it was idle, and counts each call.
    pub(crate) fn hear(&mut self)
        ensures { HearsCalls self.old self.new }
    {
        'slots: for slot in 0..SLOTS {
            let heard = self.own_bells.hear(slot);
            self.connections.count_call_if(slot, heard);
        }
    }

    /// For how many milliseconds the next turn may wait: not at all where a connection can go on, or where members discarded messages and may be handed others. The
    /// worker is idle at the bells of the groups of which it has members that would be handed a job.
    pub(crate) fn next_wait(&mut self) -> u64
        requires in_time { IsInTime self.old.connections.sweeps }
        requires told { wakes_of self.old.connections ≡ no_wakes }
        ensures same { self.new.connections ≡ self.old.connections }
        ensures rests { MayWait result self.new }
        ensures ticked { AreTicked self.new.connections.sweeps.latest self.new.connections.cells }
    {
        let settled = self.own_bells.settle(self.connections.members());
        let left = self.left();
        if !settled || self.due.any() || self.sharing.has_discards() {
            return 0;
        }
        left
    }

    /// For how many milliseconds it may wait, where it is at rest.
    fn left(&self) -> u64
        requires { IsInTime self.now.connections.sweeps }
        ensures in_time { WaitsInTime result self.now.connections.sweeps.latest self.now.connections.sweeps.swept }
        ensures ticked { AreTicked self.now.connections.sweeps.latest self.now.connections.cells }
    {
        let left = self.connections.left();
        if self.closing && !self.connections.is_ended() {
            return left.min(END_PAUSE);
        }
        left
    }
}

/// Calls whom it concerns that sessions were asked back, and that one is free.
fn call<W: Wake>(mailboxes: &Mailboxes<W>, asked_back: AskedBack, has_freed_session: bool) {
    match asked_back {
        AskedBack::Nobody => {}
        AskedBack::One(connection) => mailboxes.call_all_due(mailboxes.worker_of(connection)),
        AskedBack::Several => mailboxes.call_everybody(),
    }
    if has_freed_session {
        mailboxes.call_waiting();
    }
}

/// Tells the others whether a connection of this worker waits for a session, where that has changed since it told so.
fn tell_whether_waiting<W: Wake>(
    told: &mut bool,
    waits: bool,
    mailboxes: &Mailboxes<W>,
    number: usize,
) {
    if waits != *told {
        *told = waits;
        mailboxes.note_waiting(number, waits);
    }
}
