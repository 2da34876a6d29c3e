//! Rounds: a connection goes on as far as it can without waiting.
ghost use Rattle.std.specs.Prelude.{◌≡◌, ◌≢◌, ◌⊎◌, ◌<◌, ◌≤◌, [], length, if◌then◌else◌, None, Some, Ok, Err, true, false, OnOk, IfOk, IfErr};
ghost use Rattle.conn_engine.specs.declared.phase.ConnPhase.TheVariants.{Ended};
ghost use Rattle.conn_engine.specs.Looking.{IsSilentTooLong};
ghost use Rattle.conn_service.specs.declared.served.Round.TheVariants as rounds;
ghost use Rattle.conn_service.specs.declared.served.Served.TheVariants as endings;
ghost use Rattle.conn_service.specs.Crossings.{RefusesAlways};
ghost use Rattle.conn_supply.specs.SupplyCalls.SupplyCall.{Kicked};
ghost use Rattle.conn_engine.specs.declared.input.Input.TheVariants as inputs;
ghost use Rattle.conn_service.specs.Moments.{is_tick_for, still_drained};
ghost use Rattle.conn_service.specs.Services.{HasNoMore, IsAnswered, IsOnTime, IsServed, Describes, IdlesTick, KeepsEdge, KeepsEdgeAt, KeepsEnough, most_packets};
ghost use Rattle.conn_service.specs.Acts.{packets_in};
ghost use Rattle.conn_service.specs.Directions.{Follows, reads, writes};
ghost use Rattle.conn_service.specs.Visits.{Behind, Inside, Outside};
ghost use Rattle.conn_service.specs.Lives.{IsDue};
ghost use Rattle.conn_service.specs.Advances.{CountsPackets, IsDoneOrAdvances, LeadsBy, RoundsTo, TellsOfRound, TellsOfVisit, WritesFirst};

use crate::served::{Direction, Round, Served};
use crate::service::Service;
use conn_engine::Input;
use conn_supply::{HoldingPlace, Supply};
use transport::{Crossing, Got, Transport};

/// After how many milliseconds without a Tick a round makes one.
const TICK_PERIOD: u64 = 50;

/// How many packets a round steps at most, so that a client that floods with small packets does not hold up those that are served beside it. What is left is stepped in
/// the next rounds, before more is read.
const MOST_PACKETS: usize = 64;

impl<P: HoldingPlace, T: Transport> Service<P, T> {
    /// Goes on as far as it can without waiting, at this moment in milliseconds, and tells what it waits for: what waits is written, what came is read,
    /// once, into the buffer, which has room, and stepped packet by packet, and what that says is written.
    ///
    /// It steps 64 packets at most. What is left of what came is stepped in the next rounds, before anything more is read, and until then it tells
    /// [`Round::More`], where nothing waits to be written.
    ///
    /// Inbound, what that says is left to a later round. Outbound, nothing is read, and it ticks instead, so that its client is handed what it has room for.
    pub fn round<S: Supply<P>, X: Crossing>(
        &mut self,
        supply: &mut S,
        crossing: &X,
        worker: u32,
        now: u64,
        buffer: &mut [u8],
        direction: Direction,
    ) -> Round
        requires going { self.old.ending ≡ None }
        requires room { 0 < length buffer.old }
        ensures led { RoundsTo S.call S.begins S.ends S.visiting P.slot_of T.counts T.given T.accepted direction result now self.old supply.old self.new supply.new }
        ensures told { Describes result self.new now }
        ensures idles { IdlesTick T.counts now self.old self.new }
        ensures way { Follows T.given T.accepted direction now self.old self.new }
        ensures crossing { result ≡ rounds.Ended endings.NoCrossing → RefusesAlways X.refuses crossing.now worker }
    {
        match self.go_on(supply, crossing, worker, now, buffer, direction) {
            Ok(all) => self.waits_for(all, now),
            Err(served) => {
                self.give_up(supply, now);
                Round::Ended(served)
            }
        }
    }

    /// What it waits for, after a round in which all that is whole was stepped, or not.
    fn waits_for(&self, all: bool, now: u64) -> Round
        requires going { self.now.ending ≡ None }
        requires not_over { self.now.outgoing ≡ [] → self.now.client.conn.phase ≢ Ended }
        requires timely { self.now.outgoing ≡ [] → IsOnTime self.now now }
        requires all { all ≡ true → IsServed self.now now }
        ensures told { Describes result self.now now }
        ensures more { result ≡ rounds.More → (self.now.outgoing ≡ []) × (all ≡ true → ¬ HasNoMore self.now) }
    {
        if !self.outgoing.is_empty() {
            Round::Writing
        } else if all && self.drained {
            Round::Reading
        } else if all && self.keeps_enough() {
            Round::Waiting
        } else {
            Round::More
        }
    }

    /// Writes, steps, and writes what that said; where not all was taken before, the transport is not asked again. Whether all that is whole was stepped.
    fn go_on<S: Supply<P>, X: Crossing>(
        &mut self,
        supply: &mut S,
        crossing: &X,
        worker: u32,
        now: u64,
        buffer: &mut [u8],
        direction: Direction,
    ) -> Result<bool, Served>
        requires going { self.old.ending ≡ None }
        requires room { 0 < length buffer.old }
        ensures led { LeadsBy S.call S.begins S.ends S.visiting P.slot_of T.counts T.given T.accepted (λ acts. (packets_in acts ≤ most_packets) × WritesFirst self.old self.new acts × (reads direction ≡ true → TellsOfRound result self.new acts)) now Outside Behind self.old supply.old self.new supply.new }
        ensures all { result ≡ Ok true → IsServed self.new now }
        ensures not_over { OnOk result (self.new.outgoing ≡ [] → self.new.client.conn.phase ≢ Ended) }
        ensures timely { OnOk result (self.new.outgoing ≡ [] → IsOnTime self.new now) }
        ensures going { OnOk result (self.new.ending ≡ None) }
        ensures ended { IfErr result (λ served. self.new.ending ≡ Some served) }
        ensures idles { IdlesTick T.counts now self.old self.new }
        ensures ticks { reads direction ≡ false → OnOk result (self.new.outgoing ≡ [] → self.new.ticked ≡ now) }
        ensures unread { reads direction ≡ false → T.given self.new.transport ≡ T.given self.old.transport }
        ensures unwritten { writes direction ≡ false → self.old.outgoing ≡ [] → T.accepted self.new.transport ≡ T.accepted self.old.transport }
        ensures crossing { result ≡ Err endings.NoCrossing → RefusesAlways X.refuses crossing.now worker }
    {
        self.send(crossing, worker, now)?;
        let taken = self.outgoing.is_empty();
        let all = self.visit(supply, now, buffer, direction.reads())?;
        self.send_if(crossing, worker, now, taken && direction.writes())?;
        self.conclude(now)?;
        Ok(all)
    }

    /// One visit of the supply, in which it is stepped; or its close, where the supply is shut. Whether all that is whole was stepped.
    fn visit<S: Supply<P>>(
        &mut self,
        supply: &mut S,
        now: u64,
        buffer: &mut [u8],
        reads: bool,
    ) -> Result<bool, Served>
        requires going { self.old.ending ≡ None }
        requires room { 0 < length buffer.old }
        ensures led { LeadsBy S.call S.begins S.ends S.visiting P.slot_of T.counts T.given T.accepted (λ acts. (packets_in acts ≤ most_packets) × (reads ≡ true → TellsOfVisit result self.new acts)) now Outside Behind self.old supply.old self.new supply.new }
        ensures all { result ≡ Ok true → IsServed self.new now }
        ensures timely { result ≡ Ok false → self.old.outgoing ≡ [] → IsOnTime self.new now }
        ensures waits { OnOk result (self.old.outgoing ≢ [] → self.new.outgoing ≢ []) }
        ensures no_crossing { result ≢ Err endings.NoCrossing }
        ensures going { OnOk result (self.new.ending ≡ None) }
        ensures ended { IfErr result (λ served. self.new.ending ≡ Some served) }
        ensures idles { IdlesTick T.counts now self.old self.new }
        ensures ticks { reads ≡ false → self.old.outgoing ≡ [] → OnOk result ((self.new.client.conn.phase ≡ Ended) ⊎ (self.new.ticked ≡ now)) }
        ensures unread { reads ≡ false → T.given self.new.transport ≡ T.given self.old.transport }
        ensures unwritten { T.accepted self.new.transport ≡ T.accepted self.old.transport }
    {
        if self.client.has_ended() {
            return Ok(true);
        }
        let open = supply.begin();
        self.drained = is_still_drained(self.drained, reads);
        let all = self.step_within(supply, now, buffer, reads, open);
        supply.end();
        all
    }

    /// It is stepped within a visit, or closed where the supply is shut.
    fn step_within<S: Supply<P>>(
        &mut self,
        supply: &mut S,
        now: u64,
        buffer: &mut [u8],
        reads: bool,
        is_open: bool,
    ) -> Result<bool, Served>
        requires going { self.old.ending ≡ None }
        requires not_over { self.old.client.conn.phase ≢ Ended }
        requires visiting { S.visiting supply.old ≡ is_open }
        requires room { 0 < length buffer.old }
        ensures led { LeadsBy S.call S.begins S.ends S.visiting P.slot_of T.counts T.given T.accepted (λ acts. (packets_in acts ≤ most_packets) × (reads ≡ true → IfOk result (λ all. IsDoneOrAdvances all self.new acts))) now (Inside is_open) (Inside is_open) self.old supply.old self.new supply.new }
        ensures all { result ≡ Ok true → IsServed self.new now }
        ensures timely { result ≡ Ok false → self.old.outgoing ≡ [] → IsOnTime self.new now }
        ensures waits { OnOk result (self.old.outgoing ≢ [] → self.new.outgoing ≢ []) }
        ensures no_crossing { result ≢ Err endings.NoCrossing }
        ensures going { OnOk result (self.new.ending ≡ None) }
        ensures ended { IfErr result (λ served. self.new.ending ≡ Some served) }
        ensures idles { IdlesTick T.counts now self.old self.new }
        ensures ticks { reads ≡ false → self.old.outgoing ≡ [] → OnOk result ((self.new.client.conn.phase ≡ Ended) ⊎ (self.new.ticked ≡ now)) }
        ensures unread { reads ≡ false → T.given self.new.transport ≡ T.given self.old.transport }
        ensures unwritten { T.accepted self.new.transport ≡ T.accepted self.old.transport }
    {
        if is_open {
            self.proceed(supply, now, buffer, reads)
        } else {
            self.close(supply, now)
        }
    }

    /// The broker closes.
    fn close<S: Supply<P>>(&mut self, supply: &mut S, now: u64) -> Result<bool, Served>
        requires going { self.old.ending ≡ None }
        requires not_over { self.old.client.conn.phase ≢ Ended }
        requires shut { S.visiting supply.old ≡ false }
        ensures led { LeadsBy S.call S.begins S.ends S.visiting P.slot_of T.counts T.given T.accepted (λ acts. (packets_in acts ≡ 0) × IfOk result (λ all. IsDoneOrAdvances all self.new acts)) now (Inside false) (Inside false) self.old supply.old self.new supply.new }
        ensures all { result ≡ Ok true → IsServed self.new now }
        ensures timely { result ≡ Ok false → self.old.outgoing ≡ [] → IsOnTime self.new now }
        ensures waits { OnOk result (self.old.outgoing ≢ [] → self.new.outgoing ≢ []) }
        ensures no_crossing { result ≢ Err endings.NoCrossing }
        ensures going { OnOk result (self.new.ending ≡ None) }
        ensures ended { IfErr result (λ served. self.new.ending ≡ Some served) }
        ensures idles { IdlesTick T.counts now self.old self.new }
        ensures over { OnOk result (self.new.client.conn.phase ≡ Ended) }
        ensures transport { self.new.transport ≡ self.old.transport }
    {
        self.step(supply, now, Input::Closing)?;
        Ok(true)
    }

    /// Where something waits to be written, it is stepped only if it is taken over or overdue. Else it ticks, if it is time or it is not to be read;
    /// and then what is left from the round before is stepped, and what comes is read and stepped, 64 packets at most in all.
    fn proceed<S: Supply<P>>(
        &mut self,
        supply: &mut S,
        now: u64,
        buffer: &mut [u8],
        reads: bool,
    ) -> Result<bool, Served>
        requires going { self.old.ending ≡ None }
        requires not_over { self.old.client.conn.phase ≢ Ended }
        requires visiting { S.visiting supply.old ≡ true }
        requires room { 0 < length buffer.old }
        ensures led { LeadsBy S.call S.begins S.ends S.visiting P.slot_of T.counts T.given T.accepted (λ acts. (packets_in acts ≤ most_packets) × (reads ≡ true → IfOk result (λ all. IsDoneOrAdvances all self.new acts))) now (Inside true) (Inside true) self.old supply.old self.new supply.new }
        ensures all { result ≡ Ok true → IsServed self.new now }
        ensures timely { result ≡ Ok false → self.old.outgoing ≡ [] → IsOnTime self.new now }
        ensures waits { OnOk result (self.old.outgoing ≢ [] → self.new.outgoing ≢ []) }
        ensures no_crossing { result ≢ Err endings.NoCrossing }
        ensures going { OnOk result (self.new.ending ≡ None) }
        ensures ended { IfErr result (λ served. self.new.ending ≡ Some served) }
        ensures idles { IdlesTick T.counts now self.old self.new }
        ensures ticks { reads ≡ false → self.old.outgoing ≡ [] → OnOk result (self.new.ticked ≡ now) }
        ensures unread { reads ≡ false → T.given self.new.transport ≡ T.given self.old.transport }
        ensures unwritten { T.accepted self.new.transport ≡ T.accepted self.old.transport }
        ensures visiting { S.visiting supply.new ≡ S.visiting supply.old }
    {
        if !self.outgoing.is_empty() {
            let urgent = self.is_urgent(supply, now);
            self.tick_if(supply, now, urgent)?;
            return Ok(false);
        }
        let due = !reads || self.is_tick_due(now);
        self.tick_if(supply, now, due)?;
        let mut left = MOST_PACKETS;
        if !self.step_each(supply, now, &mut left)? {
            return Ok(false);
        }
        if !self.read(supply, now, buffer, reads, &mut left)? {
            return Ok(false);
        }
        self.end_input(supply, now)?;
        Ok(true)
    }

    /// Reads, if it is to be read and may be, and steps by what came, as many packets as are left to be stepped: a read that gives nothing is a Tick, and so is each one
    /// while the connection waits for its session. Whether all that is whole was stepped.
    fn read<S: Supply<P>>(
        &mut self,
        supply: &mut S,
        now: u64,
        buffer: &mut [u8],
        reads: bool,
        left: &mut usize,
    ) -> Result<bool, Served>
        requires going { self.old.ending ≡ None }
        requires answered { IsAnswered self.old }
        requires visiting { S.visiting supply.old ≡ true }
        requires room { 0 < length buffer.old }
        requires on_time { IsOnTime self.old now }
        ensures led { LeadsBy S.call S.begins S.ends S.visiting P.slot_of T.counts T.given T.accepted (λ acts. CountsPackets result left.old left.new acts × (reads ≡ true → result ≡ Ok true → self.new.at_end ≡ false → IsDoneOrAdvances true self.new acts)) now (Inside true) (Inside true) self.old supply.old self.new supply.new }
        ensures all { result ≡ Ok true → IsServed self.new now }
        ensures full { result ≡ Ok false → (self.new.outgoing ≢ []) ⊎ (left.new ≡ 0) }
        ensures timely { OnOk result (IsOnTime self.new now) }
        ensures no_crossing { result ≢ Err endings.NoCrossing }
        ensures going { OnOk result (self.new.ending ≡ None) }
        ensures ended { IfErr result (λ served. self.new.ending ≡ Some served) }
        ensures idles { IdlesTick T.counts now self.old self.new }
        ensures still { reads ≡ false → self.new.ticked ≡ self.old.ticked }
        ensures unread { reads ≡ false → T.given self.new.transport ≡ T.given self.old.transport }
        ensures unwritten { T.accepted self.new.transport ≡ T.accepted self.old.transport }
        ensures visiting { S.visiting supply.new ≡ S.visiting supply.old }
    {
        if !self.may_read(reads) {
            return Ok(true);
        }
        let got = self.read_once(buffer)?;
        let due = is_tick(got, !self.client.wants_input());
        self.tick_if(supply, now, due)?;
        self.step_each(supply, now, left)
    }

    /// Where the stream has ended, and all that is whole was stepped, its end is stepped, unless the connection is over.
    fn end_input<S: Supply<P>>(&mut self, supply: &mut S, now: u64) -> Result<(), Served>
        requires going { self.old.ending ≡ None }
        requires answered { IsAnswered self.old }
        requires visiting { S.visiting supply.old ≡ true }
        ensures led { LeadsBy S.call S.begins S.ends S.visiting P.slot_of T.counts T.given T.accepted (λ acts. packets_in acts ≡ 0) now (Inside true) (Inside true) self.old supply.old self.new supply.new }
        ensures over { OnOk result ((self.new.client.conn.phase ≡ Ended) ⊎ ((self.new ≡ self.old) × (self.old.at_end ≡ false))) }
        ensures no_crossing { result ≢ Err endings.NoCrossing }
        ensures going { OnOk result (self.new.ending ≡ None) }
        ensures ended { IfErr result (λ served. self.new.ending ≡ Some served) }
        ensures stays { KeepsEdge self.old self.new }
        ensures visiting { S.visiting supply.new ≡ S.visiting supply.old }
    {
        if self.at_end && !self.client.has_ended() {
            return self.step(supply, now, Input::EndOfInput);
        }
        Ok(())
    }

    /// A Tick, where one is due.
    fn tick_if<S: Supply<P>>(&mut self, supply: &mut S, now: u64, due: bool) -> Result<(), Served>
        requires due { due ≡ true → IsDue S.call S.begins S.ends S.visiting P.slot_of T.counts T.given T.accepted inputs.Tick now self.old supply.old }
        requires going { self.old.ending ≡ None }
        requires visiting { S.visiting supply.old ≡ true }
        ensures led { LeadsBy S.call S.begins S.ends S.visiting P.slot_of T.counts T.given T.accepted (λ acts. packets_in acts ≡ 0) now (Inside true) (Inside true) self.old supply.old self.new supply.new }
        ensures no_crossing { result ≢ Err endings.NoCrossing }
        ensures going { OnOk result (self.new.ending ≡ None) }
        ensures ended { IfErr result (λ served. self.new.ending ≡ Some served) }
        ensures waits { OnOk result (self.old.outgoing ≢ [] → self.new.outgoing ≢ []) }
        ensures stays { KeepsEdgeAt (if due then now else self.old.ticked) self.old self.new }
        ensures visiting { S.visiting supply.new ≡ S.visiting supply.old }
    {
        if due {
            self.step(supply, now, Input::Tick)
        } else {
            Ok(())
        }
    }

    /// Whether more is read now, where it is to be read: all that was said is written, and it is not over; and if it waits for its session, it has not kept enough.
    fn may_read(&self, reads: bool) -> bool
        ensures wanted { result ≡ true → reads ≡ true }
        ensures yes { result ≡ true → (self.now.client.conn.phase ≢ Ended) × (self.now.outgoing ≡ []) × (self.now.at_end ≡ false) × ¬ KeepsEnough self.now }
        ensures no { reads ≡ true → result ≡ false → self.now.outgoing ≡ [] → self.now.at_end ≡ false → HasNoMore self.now }
    {
        reads
            && !self.at_end
            && !self.client.has_ended()
            && self.outgoing.is_empty()
            && !self.keeps_enough()
    }

    /// Whether a Tick can't wait until the transport takes more: it is overdue, or another connection asked for its session, which the supply says.
    fn is_urgent<S: Supply<P>>(&self, supply: &mut S, now: u64) -> bool
        ensures led { LeadsBy S.call S.begins S.ends S.visiting P.slot_of T.counts T.given T.accepted (λ acts. packets_in acts ≡ 0) now (Inside true) (Inside true) self.now supply.old self.now supply.new }
        ensures urgent { result ≡ true → IsSilentTooLong self.now.client.conn.phase now ⊎ ((asked : S) × S.call asked (Kicked self.now.client.conn.number true) supply.new) }
        ensures visiting { S.visiting supply.new ≡ S.visiting supply.old }
    {
        if self.is_overdue(now) {
            return true;
        }
        self.client.is_kicked(supply)
    }

    /// Whether it is time for a Tick.
    fn is_tick_due(&self, now: u64) -> bool
        ensures { result ≡ false → IsOnTime self.now now }
    {
        now.saturating_sub(self.ticked) >= TICK_PERIOD
    }

    /// Whether a Tick at this moment ends it for silence.
    fn is_overdue(&self, now: u64) -> bool
        ensures { result ≡ true → IsSilentTooLong self.now.client.conn.phase now }
    {
        matches!(self.client.deadline(), Some(deadline) if deadline <= now)
    }
}

/// Whether there is still nothing to read after the beginning of a visit: where it is to be read, that is asked again.
fn is_still_drained(drained: bool, reads: bool) -> bool
    ensures { result ≡ still_drained reads drained }
{
    drained && !reads
}

/// Whether what a read gave is a Tick: nothing is one, and anything while the connection waits for its session.
fn is_tick(got: Got, waits: bool) -> bool
    ensures { result ≡ is_tick_for got waits }
{
    match got {
        Got::Bytes(_) => waits,
        Got::Idle => true,
        Got::End | Got::Failed => false,
    }
}
