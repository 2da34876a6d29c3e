//! The bell, and the calls of it.
ghost use Rattle.std.specs.Prelude.{◌≡◌, ◌≤◌, ◌<◌, ◌+◌, ◌==◌, ◌/◌, true, [], length, vec_capacity, IfOk, IfSome, IfNone, IsTrue};
ghost use Rattle.bell.specs.declared.step.BellStep.TheVariants.{Called, Rang};
ghost use Rattle.bell.specs.History.{is_idle};
ghost use Rattle.bell.specs.Rule.{IsPassOf, IsNew};
ghost use Rattle.bell.specs.Calls.{AreListeners, AreListenersOf, AreRingers, AreRingersOf, Calls, CallsDue, Listens, Makes, Rings, Settles, ShowsIdle, Wakes, is_due};

use crate::handles::{Listener, Ringer};
use crate::wake::{Call, Wake};
use crate::word;
use crate::word::{Pass, Word};
use std::alloc::Global;
use std::marker::Model;
use thiserror::Error;

/// The most workers that listen to a bell: 32.
pub const MOST_WORKERS: usize = 32;

/// Why a bell was not made.
#[derive(Clone, Copy, Debug, PartialEq, Eq, Error)]
pub enum BellError {
    /// There is no memory for its word, its listeners and its ringers.
    #[error("no memory for a bell")]
    Memory,
}

/// A bell, which threads share by reference.
///
/// Contracts see it as its identity, which no other bell has, and which says how many workers listen to it. A bell is
/// `Send` and `Sync`.
#[derive(Drop)]
pub struct Bell {
    word: Word,
}

impl Model for Bell {
    ghost use Rattle.std.specs.Prelude.{◌≡◌, ◌≤◌};
    ghost use Rattle.bell.specs.Handles.{BellId};

    ghost Value = { BellId };

    ghost view = { λ b. record { word = b.word.shared.table_id; workers = b.word.shared.key } };

    ghost invariant = { λ b. (b.word.shared.table_id.words ≡ 1) × (b.word.shared.key ≤ 32) };
}

// Puts so many listeners into an empty row that has room for them.
fn seat_listeners(word: &Word, pass: &mut Pass, row: &mut Vec<Listener>, count: usize)
    requires pass { IsPassOf word.now.shared.table_id pass.old.table_id × IsNew pass.old.me }
    requires row { (row.old.items ≡ []) × (count ≤ vec_capacity row.old) × (count ≤ MOST_WORKERS) }
    ensures same { (pass.new.table_id ≡ pass.old.table_id) × IsNew pass.new.me }
    ensures listeners { AreListeners pass.old.table_id count row.new.items }
    ensures bell { AreListenersOf pass.old.table_id row.new.items }
{
    for worker in 0..count {
        let pass = word::tell(word, pass);
        row.push_reserved(Listener {
            pass,
            worker,
            heard: 0,
        });
    }
}

// Puts so many ringers into an empty row that has room for them.
fn seat_ringers(word: &Word, pass: &mut Pass, row: &mut Vec<Ringer>, count: usize)
    requires pass { IsPassOf word.now.shared.table_id pass.old.table_id × IsNew pass.old.me }
    requires row { (row.old.items ≡ []) × (count ≤ vec_capacity row.old) }
    ensures ringers { AreRingers pass.old.table_id count row.new.items }
    ensures bell { AreRingersOf pass.old.table_id row.new.items }
{
    for _ in 0..count {
        let pass = word::tell(word, pass);
        row.push_reserved(Ringer { pass });
    }
}

impl Bell {
    /// A bell with nobody idle; its listeners, of which there are 1 to [`MOST_WORKERS`], numbered from 0 on, in the
    /// order of the list; and so many that ring it. Takes the memory for the word and for the lists.
    ///
    /// # Errors
    ///
    /// [`BellError::Memory`] where there is none.
    pub fn open(
        alloc: Global,
        workers: usize,
        ringers: usize,
    ) -> Result<(Bell, Vec<Listener>, Vec<Ringer>), BellError>
        requires { (1 ≤ workers) × (workers ≤ MOST_WORKERS) }
        ensures total { IfOk result (λ opened. opened.0.workers ≡ workers) }
        ensures listeners { IfOk result (λ opened. AreListeners opened.0.word workers opened.1.items) }
        ensures ringers { IfOk result (λ opened. AreRingers opened.0.word ringers opened.2.items) }
        ensures bell { IfOk result (λ opened. AreListenersOf opened.0.word opened.1.items × AreRingersOf opened.0.word opened.2.items) }
    {
        let mut row = Vec::with_capacity(alloc, workers).map_err(|_| BellError::Memory)?;
        let mut seated = Vec::with_capacity(alloc, ringers).map_err(|_| BellError::Memory)?;
        let (word, mut pass) = Word::of_words(alloc, &[0], &workers).map_err(
            |_| BellError::Memory,
        )?;
        seat_listeners(&word, &mut pass, &mut row, workers);
        seat_ringers(&word, &mut pass, &mut seated, ringers);
        Ok((Bell { word }, row, seated))
    }

    /// The worker listens: it isn't idle any more, and has heard each ring that was rung so far. Whether none was rung since its last step: where one was and the
    /// worker was idle, it may be the one that was called. One step.
    pub fn listen(&self, listener: &mut Listener) -> bool
        requires { listener.old.bell ≡ self.now.word }
        ensures { Listens listener.old result listener.new }
    {
        let found = word::listen(&self.word, &mut listener.pass, listener.worker);
        let heard = listener.heard;
        listener.heard = word::count_of(found);
        listener.heard == heard
    }

    /// The worker settles: it is idle until it listens or is called. Whether it may wait: only where no bell rang
    /// since it listened. Else it has to listen and to look for work again. One step.
    pub fn settle(&self, listener: &mut Listener) -> bool
        requires { listener.old.bell ≡ self.now.word }
        ensures { Settles listener.old result listener.new }
    {
        let found = word::settle(&self.word, &mut listener.pass, listener.worker);
        let heard = listener.heard;
        listener.heard = word::count_of(found);
        listener.heard == heard
    }

    /// Rings for so many workers: those who are idle are woken, by the waker at their place, until there are as many as
    /// are wanted. Answers how many were woken.
    ///
    /// One step, and one for each worker that was idle at it.
    pub fn ring<W: Wake>(&self, ringer: &mut Ringer, wanted: usize, wakers: &[W]) -> usize
        requires bell { ringer.old.bell ≡ self.now.word }
        requires wakers { length wakers.now ≡ self.now.workers }
        ensures bell { ringer.new.bell ≡ ringer.old.bell }
        ensures rang { Rings self.now.workers wanted result ringer.old.history ringer.new.history }
    {
        self.ring_first(ringer, wanted, 0, wakers)
    }

    /// The same, where the workers whose bits are set in `first`, the lowest bit that of worker 0, are woken before the
    /// others.
    pub fn ring_first<W: Wake>(
        &self,
        ringer: &mut Ringer,
        wanted: usize,
        first: u64,
        wakers: &[W],
    ) -> usize
        requires bell { ringer.old.bell ≡ self.now.word }
        requires wakers { length wakers.now ≡ self.now.workers }
        ensures bell { ringer.new.bell ≡ ringer.old.bell }
        ensures rang { Rings self.now.workers wanted result ringer.old.history ringer.new.history }
    {
        let found = self.raise(ringer);
        let woken = self.call_idle(ringer, found, first, true, wanted, wakers);
        let others = self.call_idle(ringer, found, first, false, wanted - woken, wakers);
        woken + others
    }

    // Rings. Answers what the word was, which tells who was idle.
    fn raise(&self, ringer: &mut Ringer) -> u64
        requires { ringer.old.bell ≡ self.now.word }
        ensures bell { ringer.new.bell ≡ ringer.old.bell }
        ensures rang { Makes Rang ringer.old.history ringer.new.history }
        ensures idle { ShowsIdle result ringer.new.history }
        ensures few { self.now.workers ≤ MOST_WORKERS }
    {
        word::ring(&self.word, &mut ringer.pass)
    }

    // Wakes those who were idle by the number that was found and are named by the bits of `first`, or those who are not
    // named, until there are as many as are wanted.
    fn call_idle<W: Wake>(
        &self,
        ringer: &mut Ringer,
        found: u64,
        first: u64,
        named: bool,
        wanted: usize,
        wakers: &[W],
    ) -> usize
        requires bell { ringer.old.bell ≡ self.now.word }
        requires wakers { length wakers.now ≡ self.now.workers }
        requires few { self.now.workers ≤ MOST_WORKERS }
        ensures bell { ringer.new.bell ≡ ringer.old.bell }
        ensures called { CallsDue (is_due found first named) self.now.workers wanted result ringer.old.history ringer.new.history }
    {
        let mut woken = 0;
        for worker in 0..wakers.len() {
            if woken == wanted {
                break;
            }
            if word::is_due(found, first, named, worker) {
                woken += self.call(ringer, worker, wakers);
            }
        }
        woken
    }

    // Calls a worker, and wakes it where it was idle. Answers how many were woken: 0 or 1.
    fn call<W: Wake>(&self, ringer: &mut Ringer, worker: usize, wakers: &[W]) -> usize
        requires bell { ringer.old.bell ≡ self.now.word }
        requires worker { (worker < self.now.workers) × (self.now.workers ≡ length wakers.now) }
        ensures bell { ringer.new.bell ≡ ringer.old.bell }
        ensures called { Wakes worker ringer.old.history result ringer.new.history }
    {
        match self.claim(ringer, worker) {
            Some(call) => {
                call.wake(wakers);
                1
            }
            None => 0,
        }
    }

    // Calls a worker, which is to be woken where it was idle.
    fn claim(&self, ringer: &mut Ringer, worker: usize) -> Option<Call>
        requires bell { ringer.old.bell ≡ self.now.word }
        requires worker { worker < self.now.workers }
        ensures bell { ringer.new.bell ≡ ringer.old.bell }
        ensures called { Calls worker ringer.old.history result ringer.new.history }
        ensures named { IfSome result (λ call. call.worker ≡ worker) }
    {
        let found = word::call(&self.word, &mut ringer.pass, worker);
        if word::has_idle(found, worker) {
            Some(Call { worker })
        } else {
            None
        }
    }
}
