//! The steps of a connection that is served.
ghost use Rattle.std.specs.Prelude.{◌≡◌, Bool, ◌≢◌, ◌⊎◌, ◌<◌, length, [], None, Some, Ok, true, false, OnOk, IfErr};
ghost use Rattle.conn_supply.specs.declared.reply.Then.TheVariants.{Go};
ghost use Rattle.conn_engine.specs.Step.{IsNoPacket};
ghost use Rattle.conn_engine.specs.declared.phase.ConnPhase.TheVariants.{Ended};
ghost use Rattle.conn_laws.specs.Behind.{IsLast};
ghost use Rattle.conn_service.specs.Services.{write_room, IsAnswered, KeepsEdge, KeepsEdgeAt};
ghost use Rattle.conn_service.specs.declared.served.Served.TheVariants as endings;
ghost use Rattle.conn_service.specs.Moments.{ticked_by};
ghost use Rattle.conn_service.specs.Visits.{Behind, Inside};
ghost use Rattle.conn_service.specs.Acts.{packets_in};
ghost use Rattle.conn_service.specs.Lives.{IsDue};
ghost use Rattle.conn_service.specs.Advances.{CountsPackets, LeadsBy};

use crate::outgoing::{WRITE_ROOM, put_down};
use crate::served::Served;
use crate::service::Service;
use conn_engine::Input;
use conn_supply::{HoldingPlace, NoMemory, Supply, Then};
use transport::Transport;

/// The moment of the latest Tick, after this input.
fn ticked_at(input: &Input, now: u64, ticked: u64) -> u64
    ensures { result ≡ ticked_by input.now now ticked }
{
    match input {
        Input::Tick => now,
        Input::Packet(_) | Input::Fault(_) | Input::EndOfInput | Input::Closing => ticked,
    }
}

/// Whether the connection goes on after a step.
fn goes_on(next: Then) -> bool
    ensures yes { result ≡ true → next ≡ Go }
    ensures no { result ≡ false → next ≢ Go }
{
    match next {
        Then::Go => true,
        Then::Close | Then::Kicked => false,
    }
}

impl<P: HoldingPlace, T: Transport> Service<P, T> {
    /// Steps by time, by the end of the stream or by the close of the broker; what is said waits to be written.
    pub(crate) fn step<S: Supply<P>>(
        &mut self,
        supply: &mut S,
        now: u64,
        input: Input,
    ) -> Result<(), Served>
        requires no_packet { IsNoPacket input }
        requires due { IsDue S.call S.begins S.ends S.visiting P.slot_of T.counts T.given T.accepted input now self.old supply.old }
        ensures led { (is_open : Bool) → S.visiting supply.old ≡ is_open → LeadsBy S.call S.begins S.ends S.visiting P.slot_of T.counts T.given T.accepted (λ acts. packets_in acts ≡ 0) now (Inside is_open) (Inside is_open) self.old supply.old self.new supply.new }
        ensures goes_on { OnOk result (self.new.ending ≡ None) }
        ensures last { OnOk result (IsLast input → self.new.client.conn.phase ≡ Ended) }
        ensures waits { OnOk result (self.old.outgoing ≢ [] → self.new.outgoing ≢ []) }
        ensures ended { IfErr result (λ served. (served ≡ endings.Memory) × (self.new.ending ≡ Some served)) }
        ensures stays { KeepsEdgeAt (ticked_by input now self.old.ticked) self.old self.new }
        ensures visiting { S.visiting supply.new ≡ S.visiting supply.old }
    {
        self.ticked = ticked_at(&input, now, self.ticked);
        match self.client.step_by(supply, now, input, &mut self.packets) {
            Ok(_next) => match put_down(
                &mut self.outgoing,
                &mut self.answered,
                &self.packets,
                self.since,
                now,
            ) {
                Ok(since) => {
                    self.since = since;
                    Ok(())
                }
                Err(NoMemory) => {
                    self.ending = Some(Served::Memory);
                    Err(Served::Memory)
                }
            },
            Err(NoMemory) => {
                self.ending = Some(Served::Memory);
                Err(Served::Memory)
            }
        }
    }

    /// Steps by the packet or the fault that stands in front, where one does; what is said waits to be written, and one fewer is left to be stepped in this round.
    /// Whether one did, and the connection goes on.
    fn step_front<S: Supply<P>>(
        &mut self,
        supply: &mut S,
        now: u64,
        left: &mut usize,
    ) -> Result<bool, Served>
        requires some_left { 0 < left.old }
        requires going { self.old.ending ≡ None }
        requires not_over { self.old.client.conn.phase ≢ Ended }
        requires room { length self.old.outgoing < write_room }
        requires visiting { S.visiting supply.old ≡ true }
        ensures led { LeadsBy S.call S.begins S.ends S.visiting P.slot_of T.counts T.given T.accepted (λ acts. CountsPackets result left.old left.new acts) now (Inside true) (Inside true) self.old supply.old self.new supply.new }
        ensures goes_on { result ≡ Ok true → (self.new.client.conn.phase ≢ Ended) × (length self.new.client.unread.bytes < length self.old.client.unread.bytes) }
        ensures all { result ≡ Ok false → IsAnswered self.new }
        ensures going { OnOk result (self.new.ending ≡ None) }
        ensures ended { IfErr result (λ served. (served ≡ endings.Memory) × (self.new.ending ≡ Some served)) }
        ensures stays { KeepsEdge self.old self.new }
        ensures visiting { S.visiting supply.new ≡ S.visiting supply.old }
    {
        match self.client.step_front(supply, now, &mut self.packets) {
            Ok(None) => Ok(false),
            Ok(Some(next)) => {
                *left -= 1;
                match put_down(
                    &mut self.outgoing,
                    &mut self.answered,
                    &self.packets,
                    self.since,
                    now,
                ) {
                    Ok(since) => {
                        self.since = since;
                        Ok(goes_on(next))
                    }
                    Err(NoMemory) => {
                        self.ending = Some(Served::Memory);
                        Err(Served::Memory)
                    }
                }
            }
            Err(NoMemory) => {
                self.ending = Some(Served::Memory);
                Err(Served::Memory)
            }
        }
    }

    /// Steps by each packet that is whole, as many as are left to be stepped in this round, while there is room for what is said. Whether all were stepped; it is not
    /// known, and told as `false`, where none is left.
    pub(crate) fn step_each<S: Supply<P>>(
        &mut self,
        supply: &mut S,
        now: u64,
        left: &mut usize,
    ) -> Result<bool, Served>
        requires going { self.old.ending ≡ None }
        requires visiting { S.visiting supply.old ≡ true }
        ensures led { LeadsBy S.call S.begins S.ends S.visiting P.slot_of T.counts T.given T.accepted (λ acts. CountsPackets result left.old left.new acts) now (Inside true) (Inside true) self.old supply.old self.new supply.new }
        ensures all { result ≡ Ok true → IsAnswered self.new }
        ensures full { result ≡ Ok false → (self.new.outgoing ≢ []) ⊎ (left.new ≡ 0) }
        ensures going { OnOk result (self.new.ending ≡ None) }
        ensures ended { IfErr result (λ served. (served ≡ endings.Memory) × (self.new.ending ≡ Some served)) }
        ensures stays { KeepsEdge self.old self.new }
        ensures visiting { S.visiting supply.new ≡ S.visiting supply.old }
    {
        if self.client.has_ended() {
            return Ok(true);
        }
        'packets: while *left > 0 && self.outgoing.len() < WRITE_ROOM {
            if !self.step_front(supply, now, left)? {
                return Ok(true);
            }
        }
        Ok(false)
    }

    /// After an end without its last step, the connection is given up: its session is parked.
    pub(crate) fn give_up<S: Supply<P>>(&mut self, supply: &mut S, now: u64)
        requires ended { self.old.ending ≢ None }
        ensures led { LeadsBy S.call S.begins S.ends S.visiting P.slot_of T.counts T.given T.accepted (λ acts. packets_in acts ≡ 0) now Behind Behind self.old supply.old self.new supply.new }
        ensures over { self.new.client.conn.phase ≡ Ended }
        ensures ending { self.new.ending ≡ self.old.ending }
        ensures edge { (self.new.transport ≡ self.old.transport) × (self.new.ticked ≡ self.old.ticked) }
    {
        if self.client.has_ended() {
            return;
        }
        let _open = supply.begin();
        self.drained = false;
        let _said = self
            .client
            .step_by(supply, now, Input::EndOfInput, &mut self.packets);
        supply.end();
    }
}
