//! The bell of a group, as a worker has it.
ghost use Rattle.std.specs.Prelude.{◌≡◌, true, length};
ghost use Rattle.std.specs.Arc.{arc_value};
ghost use Rattle.worker_bells.specs.Ringing.{HasSettled, Hears, IsListeningOfSame, RingsFor};

use bell::{Bell, Listener, Ringer, Wake};
use std::alloc::Global;
use std::marker::Model;
use std::sync::Arc;

/// A worker's listener at the bell of a group. Contracts see it as a `ListeningState`.
#[derive(Drop)]
pub struct Listening {
    bell: Arc<Bell, Global>,
    listener: Listener,
    slot: usize,
    // It settled at its last step, and else it listened.
    is_settled: bool,
    // It rang since the group's members were served.
    is_rung: bool,
    // And this worker may have been the one that was called for it.
    is_called: bool,
    ghost own: { listener.bell ≡ (arc_value bell).word },
}

impl Model for Listening {
    ghost use Rattle.std.specs.Prelude.{◌≡◌, true, false};
    ghost use Rattle.worker_bells.specs.Ringing.{ListeningState, HasListened, HasSettled};

    ghost Value = { ListeningState };

    ghost view = { λ l. record { slot = l.slot; listening = l.listener } };

    ghost invariant = { λ l. (l.is_settled ≡ true → HasSettled l.listener) × (l.is_settled ≡ false → HasListened l.listener) };
}

impl Listening {
    /// A listener at the bell of the group of this slot: it listens.
    pub fn new(bell: Arc<Bell, Global>, listener: Listener, slot: usize) -> Listening
        requires { listener.bell ≡ (arc_value bell).word }
        ensures { (result.slot ≡ slot) × (result.listening.bell ≡ listener.bell) }
    {
        let mut listener = listener;
        bell.listen(&mut listener);
        Listening {
            bell,
            listener,
            slot,
            is_settled: false,
            is_rung: true,
            is_called: false,
        }
    }

    /// The slot of the group.
    pub fn slot(&self) -> usize
        ensures { result ≡ self.now.slot }
    {
        self.slot
    }

    /// At the beginning of a turn: if it was idle, it is not any more, and knows whether it rang meanwhile. Whether it did, so that this worker may be the one that
    /// was called.
    pub fn hear(&mut self) -> bool
        ensures { Hears self.old result self.new }
    {
        if !self.is_settled {
            return false;
        }
        let called = !self.bell.listen(&mut self.listener);
        self.is_settled = false;
        if called {
            self.is_rung = true;
            self.is_called = true;
        }
        called
    }

    /// At the end of a turn after which members wait: it is idle from now on. Whether the worker may wait: it rang for nobody since it was heard last, and
    /// nothing is noted for the group's members that they were not served since.
    pub fn settle(&mut self) -> bool
        ensures settled { result ≡ true → HasSettled self.new.listening }
        ensures same { IsListeningOfSame self.old self.new }
    {
        if self.is_rung {
            return false;
        }
        if self.is_settled {
            return true;
        }
        let may_wait = self.bell.settle(&mut self.listener);
        if may_wait {
            self.is_settled = true;
        } else {
            self.bell.listen(&mut self.listener);
            self.is_rung = true;
        }
        may_wait
    }

    /// Notes that there is something for the group's members.
    pub fn note(&mut self)
        ensures { self.new ≡ self.old }
    {
        self.is_rung = true;
    }

    /// Whether this worker may have been called for what there is; if so, it sees to it from now on.
    pub fn take_called(&mut self) -> bool
        ensures { self.new ≡ self.old }
    {
        let called = self.is_called;
        self.is_called = false;
        called
    }

    /// Whether there is something for the group's members; they are served from now on.
    pub fn take_rung(&mut self) -> bool
        ensures { self.new ≡ self.old }
    {
        let rung = self.is_rung;
        self.is_rung = false;
        rung
    }
}

/// A worker's ringer at the bell of a group. Contracts see it as a `RingingState`.
#[derive(Drop)]
pub struct Ringing<W> {
    bell: Arc<Bell, Global>,
    ringer: Ringer,
    alarms: Arc<Vec<W>, Global>,
    slot: usize,
    // The number of the first worker that listens to it.
    first: usize,
    ghost own: { ringer.bell ≡ (arc_value bell).word },
    ghost all: { length (arc_value alarms).items ≡ (arc_value bell).workers },
}

impl<W> Model for Ringing<W> {
    ghost use Rattle.std.specs.Arc.{arc_value};
    ghost use Rattle.worker_bells.specs.Ringing.{RingingState};

    ghost Value = { RingingState };

    ghost view = { λ r. record { slot = r.slot; workers = (arc_value r.bell).workers; ringing = r.ringer } };
}

impl<W: Wake> Ringing<W> {
    /// A ringer at the bell of the group of this slot, whose listeners, the workers from this number on, these alarms wake.
    pub fn new(
        bell: Arc<Bell, Global>,
        ringer: Ringer,
        alarms: Arc<Vec<W>, Global>,
        slot: usize,
        first: usize,
    ) -> Ringing<W>
        requires own { ringer.bell ≡ (arc_value bell).word }
        requires all { length (arc_value alarms).items ≡ (arc_value bell).workers }
        ensures { (result.slot ≡ slot) × (result.ringing.bell ≡ ringer.bell) }
    {
        Ringing {
            bell,
            ringer,
            alarms,
            slot,
            first,
        }
    }

    /// Rings for so many workers, where it is at a bell of this group: for those first whose bits are set, the lowest that of worker 0. How many are still to be woken.
    pub fn ring(&mut self, slot: usize, left: usize, these: u64) -> usize
        ensures { RingsFor slot left result self.old self.new }
    {
        if self.slot != slot || left == 0 {
            return left;
        }
        let alarms = self.alarms.as_slice();
        let these = if self.first < 64 {
            these >> self.first
        } else {
            0
        };
        left - self.bell.ring_first(&mut self.ringer, left, these, alarms)
    }
}
