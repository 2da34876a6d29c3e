//! A desk whose sessions have out at their places what they hold, and whose keeper knows all calls that were made of it.
ghost use Rattle.std.specs.Prelude.{◌≡◌, ◌<◌, ◌≤◌, ◌++◌, ◌↔◌, ℕ, [], ◌∷◌, true, length, IfOk, IfSome, IsTrue};
ghost use Rattle.limits.specs.Limits.{most_connections};
ghost use mathlib.Core.List.{IsPrefix};
ghost use Rattle.group_jobs.specs.Stamps.{Held};
ghost use Rattle.session_desk.specs.Attaching.{Request, asked};
ghost use Rattle.session_desk.specs.Books.{Books, IsKicked, new_books};
ghost use Rattle.session_desk.specs.Calls.{Attach, Withdraw, Kicked, Park, ParkAsIs, Keep, Bury, Sweep, LendPlace, TakePlace};
ghost use Rattle.session_desk.specs.Places.{IsOfSlot};
ghost use Rattle.session_desk.specs.declared.session.Session as Sessions;
ghost use Rattle.conn_supply.specs.Holding.{IsOutAtPlace};
ghost use Rattle.conn_supply.specs.Ready.{IsReady, IsSoundSession};
ghost use Rattle.call_history.specs.Callers.{all_parts, calling};
ghost use Rattle.call_history.specs.Numbers.{IsEachOnce};
ghost use Rattle.shared_desk.specs.Books.{IsLawful};
ghost use Rattle.shared_desk.specs.Histories.{AddsCall, Leads};

use crate::caller::{DeskCall, DeskCaller, DeskHistory};
use bytes::Bytes;
use call_history::{Caller, Entries, HistoryName, Keeper};
use conn_supply::HoldingPlace;
use group_jobs::Envelope;
use session_desk::{Attached, Desk, DeskError, Newcomers, Session};
use std::marker::{Brand, Model};

/// A desk, with the keeper of its history, which has led to what the desk knows. So it keeps the desk law, each session in it has out at its place just what
/// it holds, and at each free place nothing is out.
///
/// Contracts see it as its books.
pub(crate) struct LawfulDesk<P: HoldingPlace, D: HistoryName> {
    desk: Desk<Envelope, P>,
    keeper: Keeper<DeskCall<P>, D>,
}

impl<P: HoldingPlace, D: HistoryName> Model for LawfulDesk<P, D> {
    ghost use Rattle.std.specs.Coded.{codes};
    ghost use Rattle.group_jobs.specs.Stamps.{Held};
    ghost use Rattle.session_desk.specs.Books.{Books};
    ghost use Rattle.session_desk.specs.Layout.{books_code};
    ghost use Rattle.shared_desk.specs.Histories.{Leads};

    ghost Value = { Books Held P };

    ghost coded = { books_code P.code (Prim.hlevel codes) };

    ghost view = { λ d. d.desk };

    ghost invariant = { λ d. Leads P.has_out P.slot_of P.number_of d.keeper d.desk };
}

/// Notes a call of a caller, with what was asked and answered, which the proof of a call of this one says, and lets it know all calls so far.
fn note<P: HoldingPlace, D: HistoryName, A, B, J: Entries<DeskCall<P>>>(
    keeper: &mut Keeper<DeskCall<P>, D>,
    history: &DeskHistory<P, D>,
    caller: &mut Caller<DeskCall<P>, D>,
    _asked: &A,
    _answer: &B,
)
    ensures added { keeper.new ≡ keeper.old ++ J.added }
    ensures told { caller.new ≡ calling caller.old keeper.old J.added }
    ensures before { IsPrefix caller.old.calls keeper.old }
    ensures once { caller.old.parts ≡ all_parts → IsEachOnce caller.old.own (length keeper.old) }
{
    keeper.add::<J>(history, caller);
}

impl<P: HoldingPlace, D: HistoryName> LawfulDesk<P, D> {
    /// A new desk, with the keeper of its empty history.
    pub fn new(desk: Desk<Envelope, P>, keeper: Keeper<DeskCall<P>, D>) -> LawfulDesk<P, D>
        requires desk { desk ≡ new_books }
        requires keeper { keeper ≡ [] }
    {
        LawfulDesk { desk, keeper }
    }

    pub fn attach(
        &mut self,
        history: &DeskHistory<P, D>,
        me: &mut DeskCaller<P, D>,
        newcomers: Newcomers,
        connection: u16,
        client: &Bytes,
        clean: bool,
        now: u64,
    ) -> Result<Attached<Envelope, P>, DeskError>
        ghost request: { Request }
        requires asked { request ≡ asked connection client.now clean now }
        requires known { connection < most_connections }
        requires short { length client.now ≤ 128 }
        ensures ready { IfOk result (IsReady P.has_out) }
        ensures told { AddsCall P.has_out P.slot_of P.number_of me.old (Attach newcomers request result) me.new }
    {
        let answer = self.desk.attach(newcomers, connection, client, clean, now);
        note::<P, D, Newcomers, Result<Attached<Envelope, P>, DeskError>, Brand>(
            &mut self.keeper,
            history,
            &mut me.caller,
            &newcomers,
            &answer,
        );
        answer
    }

    pub fn withdraw(
        &mut self,
        history: &DeskHistory<P, D>,
        me: &mut DeskCaller<P, D>,
        connection: u16,
    )
        ensures told { AddsCall P.has_out P.slot_of P.number_of me.old (Withdraw connection) me.new }
    {
        self.desk.withdraw(connection);
        note::<P, D, u16, (), Brand>(&mut self.keeper, history, &mut me.caller, &connection, &());
    }

    pub fn kicked(
        &mut self,
        history: &DeskHistory<P, D>,
        me: &mut DeskCaller<P, D>,
        connection: u16,
    ) -> bool
        ensures yes { result ≡ true → (books : Books Held P) × IsLawful P.has_out books × IsKicked books connection }
        ensures told { AddsCall P.has_out P.slot_of P.number_of me.old (Kicked connection result) me.new }
    {
        let is_kicked = self.desk.kicked(connection);
        note::<P, D, u16, bool, Brand>(
            &mut self.keeper,
            history,
            &mut me.caller,
            &connection,
            &is_kicked,
        );
        is_kicked
    }

    pub fn park(
        &mut self,
        history: &DeskHistory<P, D>,
        me: &mut DeskCaller<P, D>,
        session: Session<Envelope, P>,
        now: u64,
    ) -> Option<Session<Envelope, P>>
        ghost before: { Sessions.Session Held P }
        requires before { before ≡ session }
        requires sound { IsSoundSession P.has_out session }
        ensures same { IfSome result (λ back. back ≡ session) }
        ensures told { AddsCall P.has_out P.slot_of P.number_of me.old (Park session now result) me.new }
    {
        let back = self.desk.park(session, now);
        note::<P, D, u64, Option<Session<Envelope, P>>, Brand>(
            &mut self.keeper,
            history,
            &mut me.caller,
            &now,
            &back,
        );
        back
    }

    pub fn park_as_is(
        &mut self,
        history: &DeskHistory<P, D>,
        me: &mut DeskCaller<P, D>,
        session: Session<Envelope, P>,
    ) -> Option<Session<Envelope, P>>
        ghost before: { Sessions.Session Held P }
        requires before { before ≡ session }
        requires sound { IsSoundSession P.has_out session }
        ensures same { IfSome result (λ back. back ≡ session) }
        ensures told { AddsCall P.has_out P.slot_of P.number_of me.old (ParkAsIs session result) me.new }
    {
        let back = self.desk.park_as_is(session);
        note::<P, D, (), Option<Session<Envelope, P>>, Brand>(
            &mut self.keeper,
            history,
            &mut me.caller,
            &(),
            &back,
        );
        back
    }

    pub fn keep(
        &mut self,
        history: &DeskHistory<P, D>,
        me: &mut DeskCaller<P, D>,
        session: Session<Envelope, P>,
    ) -> Option<Session<Envelope, P>>
        ghost before: { Sessions.Session Held P }
        requires before { before ≡ session }
        requires out { IsOutAtPlace P.has_out session }
        ensures same { IfSome result (λ back. back ≡ session) }
        ensures told { AddsCall P.has_out P.slot_of P.number_of me.old (Keep session result) me.new }
    {
        let back = self.desk.keep(session);
        note::<P, D, (), Option<Session<Envelope, P>>, Brand>(
            &mut self.keeper,
            history,
            &mut me.caller,
            &(),
            &back,
        );
        back
    }

    pub fn bury(
        &mut self,
        history: &DeskHistory<P, D>,
        me: &mut DeskCaller<P, D>,
        session: Session<Envelope, P>,
    ) -> Option<Session<Envelope, P>>
        ghost before: { Sessions.Session Held P }
        requires before { before ≡ session }
        requires out { IsOutAtPlace P.has_out session }
        ensures same { IfSome result (λ back. back ≡ session) }
        ensures told { AddsCall P.has_out P.slot_of P.number_of me.old (Bury session result) me.new }
    {
        let back = self.desk.bury(session);
        note::<P, D, (), Option<Session<Envelope, P>>, Brand>(
            &mut self.keeper,
            history,
            &mut me.caller,
            &(),
            &back,
        );
        back
    }

    pub fn sweep(
        &mut self,
        history: &DeskHistory<P, D>,
        me: &mut DeskCaller<P, D>,
        now: u64,
    ) -> Option<Session<Envelope, P>>
        ensures out { IfSome result (IsOutAtPlace P.has_out) }
        ensures told { AddsCall P.has_out P.slot_of P.number_of me.old (Sweep now result) me.new }
    {
        let session = self.desk.sweep(now);
        note::<P, D, u64, Option<Session<Envelope, P>>, Brand>(
            &mut self.keeper,
            history,
            &mut me.caller,
            &now,
            &session,
        );
        session
    }

    pub fn lend_place(
        &mut self,
        history: &DeskHistory<P, D>,
        me: &mut DeskCaller<P, D>,
        slot: u8,
    ) -> Option<P>
        ensures own { IfSome result (IsOfSlot P.slot_of P.number_of slot) }
        ensures out { IfSome result (λ place. P.has_out place []) }
        ensures told { AddsCall P.has_out P.slot_of P.number_of me.old (LendPlace slot result) me.new }
    {
        let place = self.desk.lend_place(slot);
        note::<P, D, u8, Option<P>, Brand>(
            &mut self.keeper,
            history,
            &mut me.caller,
            &slot,
            &place,
        );
        place
    }

    pub fn take_place(
        &mut self,
        history: &DeskHistory<P, D>,
        me: &mut DeskCaller<P, D>,
        place: P,
    ) -> Option<P>
        ghost before: { P }
        requires before { before ≡ place }
        requires out { P.has_out place [] }
        ensures same { IfSome result (λ back. back ≡ place) }
        ensures told { AddsCall P.has_out P.slot_of P.number_of me.old (TakePlace place result) me.new }
    {
        let back = self.desk.take_place(place);
        note::<P, D, (), Option<P>, Brand>(&mut self.keeper, history, &mut me.caller, &(), &back);
        back
    }

    pub fn soonest(&self) -> u64 {
        self.desk.soonest()
    }

    pub fn into_desk(self) -> Desk<Envelope, P>
        ensures { IsLawful P.has_out result }
    {
        let LawfulDesk { desk, keeper: _ } = self;
        desk
    }

    /// The desk, and lets a caller know all calls that were made of it.
    pub fn finish(self, history: &DeskHistory<P, D>, me: &mut DeskCaller<P, D>) -> Desk<Envelope, P>
        ensures lawful { IsLawful P.has_out result }
        ensures before { IsPrefix me.old.calls me.new.calls }
        ensures same { me.new ≡ record me.old { calls = me.new.calls } }
        ensures all { Leads P.has_out P.slot_of P.number_of me.new.calls result }
        ensures once { me.old.parts ≡ all_parts → IsEachOnce me.old.own (length me.new.calls) }
    {
        let LawfulDesk { desk, mut keeper } = self;
        note::<P, D, (), (), Brand>(&mut keeper, history, &mut me.caller, &(), &());
        desk
    }
}
