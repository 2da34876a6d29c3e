//! A connection, step by step.
ghost use Rattle.std.specs.Prelude.{◌≡◌, ◌<◌, ◌≤◌, ◌^◌, ◌↔◌, ◌++◌, [], true, ℕ, List, IsTrue, MatchOption, MatchResult, max, vec_capacity, vec_len};
ghost use Rattle.limits.specs.Limits.{most_connections};
ghost use Rattle.mqtt_packet.specs.declared.packet.Packet.{Packet};
ghost use Rattle.conn_supply.specs.Ready.{IsSoundSession};
ghost use Rattle.conn_engine.specs.declared.phase.ConnPhase.TheVariants as phases;
ghost use Rattle.conn_engine.specs.Phases.{IsSoundPhase, IsWaiting, IsConnected};
ghost use Rattle.std.specs.Option.{option_to_list};
ghost use Rattle.conn_supply.specs.HandOuts.{HandsSome};
ghost use Rattle.conn_engine.specs.Looking.{IsSilentTooLong, TakesAt, held_by};
ghost use Rattle.conn_engine.specs.Step.{IsWanted, NeedsVisit, Hands, HandsLess, Steps, FailsToStep, after_hand_out, hand_out_terms};

use crate::connecting::is_waiting;
use crate::ending::{cut_off, give_up};
use crate::input::Input;
use crate::phase::{ConnPhase, ConnectedClient, Opening};
use crate::reacting::react;
use conn_supply::{HoldingPlace, NoMemory, Reply, Supply, Then, hand_out};
use mqtt_packet::Packet;
use std::alloc::Global;
use std::marker::Model;

/// How many packets there is room for from the start: most steps send a reply, a message, or both, and there is room for one more before
/// it is asked for.
const ROOM_AT_FIRST: usize = 3;

/// A connection to a client. `P` is a place in a group.
///
/// It has a session while its client does, so it can't be dropped until it has ended.
pub struct Conn<P: HoldingPlace> {
    number: u16,
    // The latest moment at which something came to it, in milliseconds.
    latest: u64,
    phase: ConnPhase<P>,
    alloc: Global,
}

impl<P: HoldingPlace> Model for Conn<P> {
    ghost use Rattle.std.specs.Prelude.{◌<◌};
    ghost use Rattle.limits.specs.Limits.{most_connections};
    ghost use Rattle.conn_engine.specs.Phases.{ConnState, IsSoundPhase};

    ghost Value = { ConnState P };

    ghost view = { λ c. record { number = c.number; latest = c.latest; phase = c.phase } };

    ghost invariant = { λ c. (c.number < most_connections) × IsSoundPhase P.has_out c.phase };
}

impl<P: HoldingPlace> Conn<P> {
    /// A connection that is opened so. Its number, below 1,024, tells it apart from the other connections of the broker.
    pub fn open(alloc: Global, number: u16, opening: Opening) -> Conn<P>
        requires { number < most_connections }
        ensures { result ≡ record { number = number; latest = opening.at; phase = phases.Unconnected opening } }
    {
        let at = opening.at;
        Conn {
            number,
            latest: at,
            phase: ConnPhase::Unconnected { opened: opening },
            alloc,
        }
    }

    /// Whether the connection has ended.
    pub fn has_ended(&self) -> bool
        ensures { IsTrue result ↔ (self.now.phase ≡ phases.Ended) }
    {
        matches!(self.phase, ConnPhase::Ended)
    }

    /// Whether it takes packets and faults: not while it waits for a session. What comes then is kept by the caller, and
    /// stepped once the wait is over.
    pub fn wants_input(&self) -> bool
        ensures { IsTrue result ↔ ¬ IsWaiting self.now.phase }
    {
        !is_waiting(&self.phase)
    }

    /// The moment, in milliseconds, from which a Tick ends the connection, where no packet comes before: ten seconds after it was opened, or one and
    /// a half times its keep alive after its last packet (sections 3.1.2.10 and 3.1.4). `None` where there is no such moment below 2^64.
    pub fn deadline(&self) -> Option<u64>
        ensures { MatchOption result
            ((now : ℕ) → now < 2 ^ 64 → ¬ IsSilentTooLong self.now.phase now)
            (λ deadline. (now : ℕ) → IsSilentTooLong self.now.phase now ↔ deadline ≤ now) }
    {
        self.phase.deadline()
    }

    /// The identifier of its client, where that has its session: the one that it connected with, or the one that was assigned to it (sections
    /// 3.1.3.1 and 3.2.2.3.7).
    pub fn client_identifier(&self) -> Option<&[u8]> {
        self.phase.client_identifier()
    }

    /// Lets go of a connection that has ended, as [`Conn::has_ended`] tells.
    pub fn end(self)
        requires { self.phase ≡ phases.Ended }
    {
        let Conn {
            number: _,
            latest: _,
            phase,
            alloc: _,
        } = self;
        phase.discard();
    }
}

impl<P: HoldingPlace> Conn<P> {
    /// How many messages its client has not acknowledged.
    pub fn held(&self) -> usize
        ensures { result ≡ held_by self.now.phase }
    {
        self.phase.held()
    }

    /// The slot of the group that its client would be handed a message of now: it is a member there, and has room for one.
    pub fn takes_from(&self) -> Option<u8>
        ensures { MatchOption result
            ((place : P) → ¬ TakesAt self.now.phase place)
            (λ slot. (place : P) × TakesAt self.now.phase place × (P.slot_of place ≡ slot)) }
    {
        self.phase.takes_from()
    }

    /// What comes to the connection at this moment, in milliseconds: the packets that are sent, in their order, take the place of
    /// those in the list. Where the moment is less than an earlier one of this connection, the latest of those stands.
    ///
    /// A packet or a fault may come while [`Conn::wants_input`] says so, a packet or a Tick within a visit of the supply.
    ///
    /// # Errors
    ///
    /// 801 [`NoMemory`]: no packet is sent, the connection has ended, and its session is parked or ending, with all that it holds;
    /// where the broker closes, it is parked as it is.
    pub fn step<S: Supply<P>>(
        &mut self,
        supply: &mut S,
        now: u64,
        input: Input,
        packets: &mut Vec<Packet>,
    ) -> Result<Then, NoMemory>
        requires wanted { IsWanted self.old.phase input }
        requires visiting { NeedsVisit input → S.visiting supply.old ≡ true }
        ensures number { self.new.number ≡ self.old.number }
        ensures latest { self.new.latest ≡ max self.old.latest now }
        ensures stepped { MatchResult result
            (λ next. Steps S.call P.slot_of supply.old self.old.number self.old.phase (max self.old.latest now) input packets.new.items next self.new.phase supply.new)
            (λ _. (self.new.phase ≡ phases.Ended) × (packets.new.items ≡ [])
            × FailsToStep S.call P.slot_of supply.old self.old.number self.old.phase (max self.old.latest now) input supply.new) }
        ensures visiting { S.visiting supply.new ≡ S.visiting supply.old }
    {
        let now = self.latest.max(now);
        self.latest = now;
        self.step_at(supply, now, input, packets)
    }

    /// What comes to the connection at a moment that is not less than an earlier one.
    fn step_at<S: Supply<P>>(
        &mut self,
        supply: &mut S,
        now: u64,
        input: Input,
        packets: &mut Vec<Packet>,
    ) -> Result<Then, NoMemory>
        requires wanted { IsWanted self.old.phase input }
        requires visiting { NeedsVisit input → S.visiting supply.old ≡ true }
        ensures number { self.new.number ≡ self.old.number }
        ensures latest { self.new.latest ≡ self.old.latest }
        ensures stepped { MatchResult result
            (λ next. Steps S.call P.slot_of supply.old self.old.number self.old.phase now input packets.new.items next self.new.phase supply.new)
            (λ _. (self.new.phase ≡ phases.Ended) × (packets.new.items ≡ [])
            × FailsToStep S.call P.slot_of supply.old self.old.number self.old.phase now input supply.new) }
        ensures visiting { S.visiting supply.new ≡ S.visiting supply.old }
    {
        packets.clear();
        if packets.reserve_exact(ROOM_AT_FIRST).is_err() {
            cut_off(supply, self.number, &mut self.phase, now, input);
            return Err(NoMemory);
        }
        match react(supply, self.alloc, self.number, &mut self.phase, now, input) {
            Ok(reply) => {
                let next = write(reply, packets);
                match hand(supply, self.number, &mut self.phase, now, packets) {
                    Ok(()) => Ok(next),
                    Err(NoMemory) => {
                        packets.clear();
                        Err(NoMemory)
                    }
                }
            }
            Err(NoMemory) => Err(NoMemory),
        }
    }
}

/// Writes the packet of a reply into the list, which has room for it, and says what becomes of the connection.
fn write(reply: Reply, packets: &mut Vec<Packet>) -> Then
    requires { vec_len packets.old < vec_capacity packets.old }
    ensures written { packets.new.items ≡ packets.old.items ++ option_to_list reply.packet }
    ensures followed { result ≡ reply.next }
{
    let Reply { packet, next } = reply;
    if let Some(packet) = packet {
        packets.push_reserved(packet);
    }
    next
}

/// Hands out what is due to a connection with this phase at this moment.
fn hand<P: HoldingPlace, S: Supply<P>>(
    supply: &mut S,
    number: u16,
    phase: &mut ConnPhase<P>,
    now: u64,
    packets: &mut Vec<Packet>,
) -> Result<(), NoMemory>
    requires sound { IsSoundPhase P.has_out phase.old }
    requires visiting { IsConnected phase.old → S.visiting supply.old ≡ true }
    ensures handed { MatchResult result
        (λ _. (sent : List Packet) × (packets.new.items ≡ packets.old.items ++ sent) × Hands S.call P.slot_of supply.old phase.old now sent phase.new supply.new)
        (λ _. (phase.new ≡ phases.Ended) × HandsLess S.call P.slot_of supply.old phase.old now supply.new) }
    ensures sound { IsSoundPhase P.has_out phase.new }
    ensures visiting { S.visiting supply.new ≡ S.visiting supply.old }
{
    let ConnPhase::Connected(connected) = phase else {
        return Ok(());
    };
    match hand_to(supply, connected, now, packets) {
        Ok(()) => Ok(()),
        Err(NoMemory) => {
            give_up(supply, number, phase, now);
            Err(NoMemory)
        }
    }
}

/// Hands out what is due at this moment to a client that has its session.
fn hand_to<P: HoldingPlace, S: Supply<P>>(
    supply: &mut S,
    connected: &mut ConnectedClient<P>,
    now: u64,
    packets: &mut Vec<Packet>,
) -> Result<(), NoMemory>
    requires sound { IsSoundSession P.has_out connected.old.session }
    requires visiting { S.visiting supply.old ≡ true }
    ensures handed { MatchResult result
        (λ _. (sent : List Packet) × (packets.new.items ≡ packets.old.items ++ sent)
        × Hands S.call P.slot_of supply.old (phases.Connected connected.old) now sent (phases.Connected connected.new) supply.new)
        (λ _. HandsSome S.call (hand_out_terms connected.old now) supply.old connected.old.session.membership connected.old.session.window connected.new.session.membership connected.new.session.window supply.new
        × (connected.new ≡ after_hand_out connected.old connected.new.session.membership connected.new.session.window)) }
    ensures sound { IsSoundSession P.has_out connected.new.session }
    ensures visiting { S.visiting supply.new ≡ S.visiting supply.old }
{
    let terms = connected.hand_out_terms(now);
    let session = &mut connected.session;
    hand_out(
        supply,
        &mut session.membership,
        &terms,
        &mut session.window,
        packets,
    )
}
