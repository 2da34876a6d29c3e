//! The desk behind a lock, and how it is opened.
ghost use Rattle.std.specs.Prelude.{◌≡◌, ◌<◌, ◌≤◌, ◌-◌, ◌⊎◌, [], false, true, All, length, reverse, Some, None, IfOk, IfSome};
ghost use Rattle.limits.specs.Limits.{most_connections};
ghost use mathlib.Core.List.{IsPrefix};
ghost use Rattle.group_jobs.specs.Stamps.{Held};
ghost use Rattle.session_desk.specs.Attaching.{asked};
ghost use Rattle.session_desk.specs.Books.{Books, IsKicked, new_books};
ghost use Rattle.session_desk.specs.Calls.{Attach, Withdraw, Kicked, Park, ParkAsIs, Keep, Bury, Sweep, LendPlace, TakePlace};
ghost use Rattle.session_desk.specs.Places.{IsOfSlot};
ghost use Rattle.conn_supply.specs.Holding.{IsOutAtPlace};
ghost use Rattle.conn_supply.specs.Ready.{IsReady, IsSoundSession};
ghost use Rattle.call_history.specs.Callers.{all_parts, first_caller, joined, new_caller};
ghost use Rattle.call_history.specs.Numbers.{IsEachOnce};
ghost use Rattle.shared_desk.specs.Books.{IsLawful};
ghost use Rattle.shared_desk.specs.Histories.{IsHistory, AddsCall, Leads, TakesEach};

use crate::caller::{DeskCall, DeskCaller, DeskHistory};
use crate::lawful::LawfulDesk;
use bytes::Bytes;
use call_history::{HistoryName, OpenedHistory};
use conn_supply::HoldingPlace;
use group_jobs::Envelope;
use limits::MOST_CONNECTIONS;
use session_desk::{Attached, Desk, DeskError, Newcomers, Session};
use std::alloc::Global;
use std::marker::Model;
use std::sync::atomic::Ordering::SeqCst;
use std::sync::atomic::{AtomicBool, AtomicU64};
use std::sync::{Mutex, Wait};

/// A new desk, which has no name yet. Contracts see it as the table of its history.
pub struct OpenedDesk<P: HoldingPlace> {
    desk: Desk<Envelope, P>,
    opened: OpenedHistory<DeskCall<P>>,
    soonest: AtomicU64,
    marks: Vec<AtomicBool>,
    newcomers: Newcomers,
}

impl<P: HoldingPlace> Model for OpenedDesk<P> {
    ghost use Rattle.std.specs.Prelude.{◌≡◌};
    ghost use Rattle.atomic_table.specs.Seated.{TableId};
    ghost use Rattle.session_desk.specs.Books.{new_books};

    ghost Value = { TableId };

    ghost view = { λ o. o.opened };

    ghost invariant = { λ o. o.desk ≡ new_books };
}

impl<P: HoldingPlace> OpenedDesk<P> {
    /// A desk without sessions and without free places, that does this for newcomers, as [`SharedDesk::newcomers`] tells. No other call takes memory, but for
    /// [`SharedDesk::attach`].
    ///
    /// # Errors
    ///
    /// 703 [`DeskError::Memory`].
    pub fn open(alloc: Global, newcomers: Newcomers) -> Result<OpenedDesk<P>, DeskError> {
        let marks = no_marks(alloc)?;
        let opened = OpenedHistory::open(alloc).map_err(|_| DeskError::Memory)?;
        let desk = Desk::new(alloc)?;
        let soonest = AtomicU64::new(desk.soonest());
        Ok(OpenedDesk {
            desk,
            opened,
            soonest,
            marks,
            newcomers,
        })
    }

    /// The desk under a name, and its one caller, which has the whole right to call.
    pub fn name<D: HistoryName>(self) -> (SharedDesk<P, D>, DeskCaller<P, D>)
        requires { self ≡ D.history }
        ensures { result.1 ≡ first_caller }
    {
        let OpenedDesk {
            desk,
            opened,
            soonest,
            marks,
            newcomers,
        } = self;
        let (history, keeper, caller) = opened.name::<D>();
        let desk = Mutex::new(LawfulDesk::new(desk, keeper));
        (
            SharedDesk {
                desk,
                history,
                soonest,
                marks,
                newcomers,
            },
            DeskCaller { caller },
        )
    }
}

impl<P: HoldingPlace + Drop> OpenedDesk<P> {
    /// Gives up a desk that nobody shared.
    pub fn abandon(self) {
        let OpenedDesk {
            desk,
            opened: _,
            soonest: _,
            marks: _,
            newcomers: _,
        } = self;
        desk.abandon_with(&discard);
    }
}

/// Lets go of a message.
fn discard(envelope: Envelope) {
    let _parts = envelope.open();
}

/// Every session of a broker, with the free places of its groups, which threads share by reference. `D` is the name of its history.
///
/// A call takes the lock for its own length, and waits for another thread's call. There is one history of calls, in the order of the lock; each call that
/// takes the lock is the last one of what its thread knows of it from then on (`AddsCall`), and all that other threads know are beginnings of the same history. What
/// the books are behind the lock then, nobody else knows; that they were lawful before the call, and are after it, follows from what the thread is told (`laws::histories`).
/// What comes out has out at its place what it holds, by what lies behind the lock.
pub struct SharedDesk<P: HoldingPlace, D: HistoryName> {
    desk: Mutex<LawfulDesk<P, D>>,
    // Its calls.
    history: DeskHistory<P, D>,
    // The moment from which on a sweep may find something, as the desk told it last.
    soonest: AtomicU64,
    // For each connection, whether its session may have been asked for: where it was not, `kicked` asks nobody.
    marks: Vec<AtomicBool>,
    // What it does for a client that has no session.
    newcomers: Newcomers,
}

impl<P: HoldingPlace, D: HistoryName> SharedDesk<P, D> {
    /// A session for a connection, as [`Desk::attach`] has it, which does this for newcomers.
    ///
    /// # Errors
    ///
    /// Those of [`Desk::attach`].
    pub fn attach<R: Wait>(
        &self,
        rt: &R,
        me: &mut DeskCaller<P, D>,
        newcomers: Newcomers,
        connection: u16,
        client: &Bytes,
        clean: bool,
        now: u64,
    ) -> Result<Attached<Envelope, P>, DeskError>
        requires known { connection < most_connections }
        requires short { length client.now ≤ 128 }
        ensures ready { IfOk result (IsReady P.has_out) }
        ensures told { AddsCall P.has_out P.slot_of P.number_of me.old (Attach newcomers (asked connection client.now clean now) result) me.new }
    {
        let mut desk = self.desk.lock(rt);
        let attached = desk.attach(&self.history, me, newcomers, connection, client, clean, now);
        match &attached {
            Ok(Attached::Replace(holder)) => self.mark(*holder, true),
            Ok(Attached::New { .. } | Attached::Resumed(_)) => self.mark(connection, false),
            Ok(Attached::Busy) | Err(_) => {}
        }
        attached
    }

    /// What it was opened to do for a client that has no session. A call of [`SharedDesk::attach`] says it anew.
    pub fn newcomers(&self) -> Newcomers {
        self.newcomers
    }

    /// Notes whether a connection's session may have been asked for.
    fn mark(&self, connection: u16, is_asked: bool) {
        if let Some(mark) = self.marks.get(usize::from(connection)) {
            mark.store(is_asked, SeqCst);
        }
    }

    /// The connection waits for no session from now on.
    pub fn withdraw<R: Wait>(&self, rt: &R, me: &mut DeskCaller<P, D>, connection: u16)
        ensures told { AddsCall P.has_out P.slot_of P.number_of me.old (Withdraw connection) me.new }
    {
        self.desk.lock(rt).withdraw(&self.history, me, connection);
    }

    /// Whether another connection asked for this connection's session since it was lent. The lock is taken only where one may have: else the answer is no, and
    /// the caller knows what it knew.
    pub fn kicked<R: Wait>(&self, rt: &R, me: &mut DeskCaller<P, D>, connection: u16) -> bool
        ensures yes { result ≡ true → (books : Books Held P) × IsLawful P.has_out books × IsKicked books connection }
        ensures told { ((result ≡ false) × (me.new ≡ me.old)) ⊎ AddsCall P.has_out P.slot_of P.number_of me.old (Kicked connection result) me.new }
    {
        if !self.is_marked(connection) {
            return false;
        }
        self.desk.lock(rt).kicked(&self.history, me, connection)
    }

    /// Whether a connection's session may have been asked for.
    fn is_marked(&self, connection: u16) -> bool {
        match self.marks.get(usize::from(connection)) {
            Some(mark) => mark.load(SeqCst),
            None => false,
        }
    }

    /// A session goes back to the desk, as [`Desk::park`] has it. Handed back are one that ends with its connection, and one that the desk does not know
    /// to be lent.
    pub fn park<R: Wait>(
        &self,
        rt: &R,
        me: &mut DeskCaller<P, D>,
        session: Session<Envelope, P>,
        now: u64,
    ) -> Option<Session<Envelope, P>>
        requires { IsSoundSession P.has_out session }
        ensures same { IfSome result (λ back. back ≡ session) }
        ensures told { AddsCall P.has_out P.slot_of P.number_of me.old (Park session now result) me.new }
    {
        let mut desk = self.desk.lock(rt);
        let back = desk.park(&self.history, me, session, now);
        self.soonest.store(desk.soonest(), SeqCst);
        back
    }

    /// A session goes back to the desk as it is, whatever its expiry. Handed back is one that the desk does not know to be lent.
    pub fn park_as_is<R: Wait>(
        &self,
        rt: &R,
        me: &mut DeskCaller<P, D>,
        session: Session<Envelope, P>,
    ) -> Option<Session<Envelope, P>>
        requires { IsSoundSession P.has_out session }
        ensures same { IfSome result (λ back. back ≡ session) }
        ensures told { AddsCall P.has_out P.slot_of P.number_of me.old (ParkAsIs session result) me.new }
    {
        let mut desk = self.desk.lock(rt);
        let back = desk.park_as_is(&self.history, me, session);
        self.soonest.store(desk.soonest(), SeqCst);
        back
    }

    /// An ending session is kept until a sweep hands it out again. Handed back is one that the desk does not know to be ending.
    pub fn keep<R: Wait>(
        &self,
        rt: &R,
        me: &mut DeskCaller<P, D>,
        session: Session<Envelope, P>,
    ) -> Option<Session<Envelope, P>>
        requires { IsOutAtPlace P.has_out session }
        ensures same { IfSome result (λ back. back ≡ session) }
        ensures told { AddsCall P.has_out P.slot_of P.number_of me.old (Keep session result) me.new }
    {
        let mut desk = self.desk.lock(rt);
        let back = desk.keep(&self.history, me, session);
        self.soonest.store(desk.soonest(), SeqCst);
        back
    }

    /// An ending session that holds nothing is gone, as [`Desk::bury`] has it, and its place is free. Handed back is one that may not be buried.
    pub fn bury<R: Wait>(
        &self,
        rt: &R,
        me: &mut DeskCaller<P, D>,
        session: Session<Envelope, P>,
    ) -> Option<Session<Envelope, P>>
        requires { IsOutAtPlace P.has_out session }
        ensures same { IfSome result (λ back. back ≡ session) }
        ensures told { AddsCall P.has_out P.slot_of P.number_of me.old (Bury session result) me.new }
    {
        self.desk.lock(rt).bury(&self.history, me, session)
    }

    /// A session that is to be retired at this moment. The lock is taken only where there may be one: before the moment that the desk told last it is not.
    pub fn sweep<R: Wait>(
        &self,
        rt: &R,
        me: &mut DeskCaller<P, D>,
        now: u64,
    ) -> Option<Session<Envelope, P>>
        ensures out { IfSome result (IsOutAtPlace P.has_out) }
        ensures told { ((result ≡ None) × (me.new ≡ me.old)) ⊎ AddsCall P.has_out P.slot_of P.number_of me.old (Sweep now result) me.new }
    {
        if now < self.soonest.load(SeqCst) {
            return None;
        }
        let mut desk = self.desk.lock(rt);
        let session = desk.sweep(&self.history, me, now);
        self.soonest.store(desk.soonest(), SeqCst);
        session
    }

    /// Lends the least free place of the group of this slot.
    pub fn lend_place<R: Wait>(&self, rt: &R, me: &mut DeskCaller<P, D>, slot: u8) -> Option<P>
        ensures own { IfSome result (IsOfSlot P.slot_of P.number_of slot) }
        ensures out { IfSome result (λ place. P.has_out place []) }
        ensures told { AddsCall P.has_out P.slot_of P.number_of me.old (LendPlace slot result) me.new }
    {
        self.desk.lock(rt).lend_place(&self.history, me, slot)
    }

    /// A place is free from now on. It is handed back where a place of the same group with the same number is free already.
    pub fn take_place<R: Wait>(&self, rt: &R, me: &mut DeskCaller<P, D>, place: P) -> Option<P>
        requires { P.has_out place [] }
        ensures same { IfSome result (λ back. back ≡ place) }
        ensures told { AddsCall P.has_out P.slot_of P.number_of me.old (TakePlace place result) me.new }
    {
        self.desk.lock(rt).take_place(&self.history, me, place)
    }

    /// A further caller, which has one part of the right to call, and knows the same.
    pub fn share(&self, me: &mut DeskCaller<P, D>) -> DeskCaller<P, D>
        requires { 1 < me.old.parts }
        ensures kept { me.new ≡ record me.old { parts = me.old.parts - 1 } }
        ensures new { result ≡ new_caller me.old.calls }
    {
        let caller = me.caller.share(&self.history);
        DeskCaller { caller }
    }

    /// Two callers become one, which knows the longer of what they knew: it goes on from either, and has the calls and the right to call of both.
    pub fn agree(&self, me: &mut DeskCaller<P, D>, other: DeskCaller<P, D>)
        ensures joined { me.new ≡ joined me.old other me.new.calls }
        ensures mine { IsPrefix me.old.calls me.new.calls }
        ensures others { IsPrefix other.calls me.new.calls }
        ensures legal { IsHistory P.has_out P.slot_of P.number_of me.new.calls }
    {
        let DeskCaller { caller } = other;
        me.caller.agree(&self.history, caller);
    }

    /// The desk, once no other thread has it.
    pub fn into_desk(self) -> Desk<Envelope, P>
        ensures { IsLawful P.has_out result }
    {
        let SharedDesk {
            desk,
            history: _,
            soonest: _,
            marks: _,
            newcomers: _,
        } = self;
        desk.into_inner().into_desk()
    }

    /// The desk, once no other thread has it, and lets a caller know all calls that were made of it: what the caller knew is the beginning of them. Where it has the whole right to
    /// call, each of them is its own, or of a caller that it took in (`once`).
    pub fn finish(self, me: &mut DeskCaller<P, D>) -> Desk<Envelope, P>
        ensures lawful { IsLawful P.has_out result }
        ensures before { IsPrefix me.old.calls me.new.calls }
        ensures same { me.new ≡ record me.old { calls = me.new.calls } }
        ensures all { Leads P.has_out P.slot_of P.number_of me.new.calls result }
        ensures once { me.old.parts ≡ all_parts → IsEachOnce me.old.own (length me.new.calls) }
    {
        let SharedDesk {
            desk,
            history,
            soonest: _,
            marks: _,
            newcomers: _,
        } = self;
        desk.into_inner().finish(&history, me)
    }
}

impl<P: HoldingPlace + Drop, D: HistoryName> SharedDesk<P, D> {
    /// Places are free from now on, one after the other, the last one first. One of which a place of the same group with the same number is free already is
    /// let go.
    pub fn take_places<R: Wait>(&self, rt: &R, me: &mut DeskCaller<P, D>, places: Vec<P>)
        requires { All (λ place. P.has_out place []) places.items }
        ensures taken { TakesEach P.has_out P.slot_of P.number_of me.old (reverse places.items) me.new }
        ensures right { me.new.parts ≡ me.old.parts }
    {
        let mut places = places;
        'places: while let Some(place) = places.pop() {
            let _back = self.take_place(rt, me, place);
        }
    }
}

/// No connection's session was asked for.
fn no_marks(alloc: Global) -> Result<Vec<AtomicBool>, DeskError> {
    let Ok(mut marks) = Vec::with_capacity(alloc, usize::from(MOST_CONNECTIONS)) else {
        return Err(DeskError::Memory);
    };
    for _ in 0..MOST_CONNECTIONS {
        let Ok(()) = marks.push(AtomicBool::new(false)) else {
            return Err(DeskError::Memory);
        };
    }
    Ok(marks)
}
