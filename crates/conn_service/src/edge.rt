//! What a connection does with its transport: it reads, and writes what waits.
ghost use Rattle.std.specs.Prelude.{◌≡◌, ◌≢◌, ◌⊎◌, ◌↔◌, ◌<◌, ◌≤◌, ◌+◌, min, true, false, [], List, ℕ, length, None, Some, Err, Ok, MatchResult, OnOk, OnErr, IfErr, if◌then◌else◌};
ghost use Rattle.transport.specs.declared.answers.Got.TheVariants as gots;
ghost use Rattle.conn_service.specs.declared.served.Served.TheVariants as endings;
ghost use Rattle.conn_service.specs.Crossings.{RefusesAlways};
ghost use Rattle.conn_engine.specs.declared.phase.ConnPhase.TheVariants.{Ended};
ghost use Rattle.conn_service.specs.Services.{KeepsEnough, KeepsIdles, kept_room, most_refused};
ghost use Rattle.conn_service.specs.Advances.{IsWrittenOn, LeadsAtEdgeBy, LeadsBy, WritesFirst};
ghost use Rattle.conn_service.specs.Acts.{packets_in};
ghost use Rattle.conn_service.specs.Visits.{Behind, Inside, Outside};
ghost use Rattle.conn_service.specs.Edges.{MayRead, ReadsOnce, WritesOnce, LeadsAtEdge};

use crate::crossing::may_pass;
use crate::served::Served;
use crate::service::Service;
use conn_supply::{HoldingPlace, NoMemory, Supply};
use transport::{Crossing, Got, Put, Transport};

/// For how many milliseconds a transport may take nothing of what waits.
const PATIENCE: u64 = 60_000;

/// And where the connection has ended.
const LINGER: u64 = 1_000;

/// How many bytes of its stream are kept at least, while a connection waits for its session, before it is not read any more: 64 KiB.
const KEPT_ROOM: usize = 65_536;

/// How many writes in a row may give nothing, where each of them waits.
pub(crate) const MOST_REFUSED: u32 = 600;

impl<P: HoldingPlace, T: Transport> Service<P, T> {
    /// Whether it waits for its session, and has kept as much of its stream meanwhile as it may.
    pub(crate) fn keeps_enough(&self) -> bool
        ensures yes { result ≡ true → KeepsEnough self.now }
        ensures no { result ≡ false → ¬ KeepsEnough self.now }
    {
        self.kept >= KEPT_ROOM && !self.client.wants_input()
    }

    /// Reads once, into a buffer with room, and keeps what came for the client.
    pub(crate) fn read_once(&mut self, buffer: &mut [u8]) -> Result<Got, Served>
        requires may { MayRead T.counts T.given T.accepted self.old }
        requires room { 0 < length buffer.old }
        ensures read { MatchResult result
            (λ got. (bytes : List ℕ) × ReadsOnce T.counts T.given T.accepted (length buffer.old) got bytes self.old self.new)
            (λ served. ((now : ℕ) → LeadsAtEdge T.counts T.given T.accepted now (Inside true) self.old self.new) × (self.new.ending ≡ Some served)) }
        ensures whole { result ≢ Ok gots.Failed }
        ensures idles { OnErr result (KeepsIdles T.counts self.old self.new) }
        ensures no_crossing { result ≢ Err endings.NoCrossing }
        ensures unwritten { T.accepted self.new.transport ≡ T.accepted self.old.transport }
    {
        let size = buffer.len();
        let got = self.transport.read(buffer);
        match got {
            Got::Bytes(count) => {
                if let Err(NoMemory) = self.client.feed(&buffer[..count]) {
                    self.ending = Some(Served::Memory);
                    return Err(Served::Memory);
                }
                self.drained = count < size;
                self.kept = kept_after(self.kept, count, self.client.wants_input());
            }
            Got::Idle => self.drained = true,
            Got::End => {
                self.drained = true;
                self.at_end = true;
            }
            Got::Failed => {
                self.drained = true;
                self.ending = Some(Served::Read);
                return Err(Served::Read);
            }
        }
        Ok(got)
    }

    /// Writes once of what waits.
    fn write_once(&mut self, now: u64) -> Put
        requires going { self.old.ending ≡ None }
        requires waits { self.old.outgoing ≢ [] }
        ensures { WritesOnce T.counts T.given T.accepted now result self.old self.new }
    {
        let bytes = self.outgoing.bytes();
        let put = self.transport.write(bytes);
        match put {
            Put::Wrote(count) => {
                self.outgoing.take_front(count);
                self.since = now;
                self.refused = 0;
            }
            Put::Idle => self.refused = self.refused.saturating_add(1).min(MOST_REFUSED),
            Put::Failed => self.ending = Some(Served::Write),
        }
        put
    }

    /// Writes what waits, as far as the transport takes it.
    pub(crate) fn send<X: Crossing>(
        &mut self,
        crossing: &X,
        worker: u32,
        now: u64,
    ) -> Result<(), Served>
        requires going { self.old.ending ≡ None }
        ensures led { LeadsAtEdgeBy T.counts T.given T.accepted (λ acts. WritesFirst self.old self.new acts × IsWrittenOn self.old self.new acts) now Outside self.old self.new }
        ensures client { self.new.client ≡ self.old.client }
        ensures ticked { self.new.ticked ≡ self.old.ticked }
        ensures idles { KeepsIdles T.counts self.old self.new }
        ensures unread { T.given self.new.transport ≡ T.given self.old.transport }
        ensures nothing { self.old.outgoing ≡ [] → self.new ≡ self.old }
        ensures sent { OnOk result (self.new.ending ≡ None) }
        ensures ended { IfErr result (λ served. self.new.ending ≡ Some served) }
        ensures crossing { result ≡ Err endings.NoCrossing → RefusesAlways X.refuses crossing.now worker }
    {
        'writes: while !self.outgoing.is_empty() {
            if !may_pass(crossing, worker) {
                self.ending = Some(Served::NoCrossing);
                return Err(Served::NoCrossing);
            }
            match self.write_once(now) {
                Put::Wrote(_) => {}
                Put::Idle => return Ok(()),
                Put::Failed => return Err(Served::Write),
            }
        }
        Ok(())
    }

    /// Writes what waits, where that is wanted.
    pub(crate) fn send_if<X: Crossing>(
        &mut self,
        crossing: &X,
        worker: u32,
        now: u64,
        wanted: bool,
    ) -> Result<(), Served>
        requires going { self.old.ending ≡ None }
        ensures led { LeadsAtEdgeBy T.counts T.given T.accepted (λ acts. IsWrittenOn self.old self.new acts) now Behind self.old self.new }
        ensures client { self.new.client ≡ self.old.client }
        ensures ticked { self.new.ticked ≡ self.old.ticked }
        ensures idles { KeepsIdles T.counts self.old self.new }
        ensures unread { T.given self.new.transport ≡ T.given self.old.transport }
        ensures sent { OnOk result (self.new.ending ≡ None) }
        ensures unasked { wanted ≡ false → self.new ≡ self.old }
        ensures ended { IfErr result (λ served. self.new.ending ≡ Some served) }
        ensures crossing { result ≡ Err endings.NoCrossing → RefusesAlways X.refuses crossing.now worker }
    {
        if wanted {
            self.send(crossing, worker, now)
        } else {
            Ok(())
        }
    }

    /// Whether 600 writes in a row gave nothing: where each of them waits, too many.
    pub fn is_refused(&self) -> bool
        ensures { result ≡ true ↔ most_refused ≤ self.now.refused }
    {
        self.refused >= MOST_REFUSED
    }

    /// Gives it up, since its transport takes nothing of what waits, in too many writes.
    pub fn stall<S: Supply<P>>(&mut self, supply: &mut S, now: u64)
        requires going { self.old.ending ≡ None }
        requires waits { self.old.outgoing ≢ [] }
        requires refused { most_refused ≤ self.old.refused }
        ensures led { LeadsBy S.call S.begins S.ends S.visiting P.slot_of T.counts T.given T.accepted (λ acts. packets_in acts ≡ 0) now Outside Behind self.old supply.old self.new supply.new }
        ensures ended { self.new.ending ≡ Some endings.Stalled }
        ensures over { self.new.client.conn.phase ≡ Ended }
    {
        self.ending = Some(Served::Stalled);
        self.give_up(supply, now);
    }

    /// Whether it has ended by now: all that it said is written, or the transport took nothing of it for too long, and was asked to since.
    pub(crate) fn conclude(&mut self, now: u64) -> Result<(), Served>
        requires going { self.old.ending ≡ None }
        ensures led { LeadsAtEdge T.counts T.given T.accepted now Behind self.old self.new }
        ensures client { self.new.client ≡ self.old.client }
        ensures idles { KeepsIdles T.counts self.old self.new }
        ensures transport { self.new.transport ≡ self.old.transport }
        ensures goes_on { OnOk result ((self.new ≡ self.old) × (self.old.outgoing ≡ [] → self.old.client.conn.phase ≢ Ended)) }
        ensures ended { IfErr result (λ served. self.new.ending ≡ Some served) }
        ensures no_crossing { result ≢ Err endings.NoCrossing }
    {
        let over = self.client.has_ended();
        if self.outgoing.is_empty() {
            if over {
                self.ending = Some(Served::Ended);
                return Err(Served::Ended);
            }
        } else if self.refused > 0 && now.saturating_sub(self.since) >= patience(over) {
            self.ending = Some(Served::Stalled);
            return Err(Served::Stalled);
        }
        Ok(())
    }
}

/// For how many milliseconds a transport may take nothing of what waits, where the connection has ended or not.
fn patience(over: bool) -> u64
    ensures { result ≡ (if over then 1000 else 60000) }
{
    if over { LINGER } else { PATIENCE }
}

/// How many bytes of the stream are kept since the connection waits for its session, after so many more; none where it does not wait.
fn kept_after(kept: usize, count: usize, wants_input: bool) -> usize
    ensures { result ≡ (if wants_input then 0 else min (kept + count) kept_room) }
{
    if wants_input {
        0
    } else {
        kept.saturating_add(count).min(KEPT_ROOM)
    }
}
