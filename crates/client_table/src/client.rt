//! A client: its connection, and the stream of its bytes.
ghost use Rattle.std.specs.Prelude.{◌≡◌, ◌<◌, ◌≤◌, ◌^◌, ◌↔◌, [], ℕ, IsTrue, OnOk, OnErr, MatchOption, MatchResult, true};
ghost use Rattle.limits.specs.Limits.{most_connections};
ghost use Rattle.mqtt_wire.specs.Stream.{ReadAnswers};
ghost use Rattle.conn_supply.specs.SupplyCalls.SupplyCall.{Kicked};
ghost use Rattle.conn_engine.specs.Step.{IsNoPacket, IsWanted, NeedsVisit};
ghost use Rattle.conn_engine.specs.declared.input.Input.{Input as Asked};
ghost use Rattle.conn_engine.specs.Looking.{IsSilentTooLong, TakesAt, held_by};
ghost use Rattle.conn_engine.specs.Phases.{IsWaiting};
ghost use Rattle.conn_engine.specs.declared.phase.ConnPhase.TheVariants as phases;
ghost use Rattle.client_table.specs.Clients.{ClientState, step_output, arrived, ClientSteps, ClientFailsToStep, IsGivenUp};
ghost use Rattle.client_table.specs.Streams.{fed, IsRead, IsInFront, FailsToReadOne};

mod reading;

use conn_engine::{Conn, Input, Opening};
use conn_supply::{HoldingPlace, NoMemory, Supply, Then};
use mqtt_fields::Fault;
use mqtt_packet::Packet;
use mqtt_wire::{ReadFault, Splitter};
use std::alloc::Global;
use std::io::Read;
use std::marker::Model;

/// A client of the broker. `P` is a place in a group.
///
/// Its connection may have a session, so it can't be dropped until the connection has ended.
pub struct Client<P: HoldingPlace> {
    number: u16,
    conn: Conn<P>,
    stream: Splitter,
    // Nothing whole stood in front of the stream when it was last looked at, and no piece came since. So a round that begins where the last one
    // ended does not look again.
    is_drained: bool,
    // The packets of a step that is told in a list. Where it writes none, their room serves the next one.
    packets: Vec<Packet>,
    alloc: Global,
}

impl<P: HoldingPlace> Model for Client<P> {
    ghost use Rattle.std.specs.Prelude.{◌≡◌, IsTrue};
    ghost use Rattle.client_table.specs.Clients.{ClientState};
    ghost use Rattle.client_table.specs.Streams.{HasNothingWhole};

    ghost Value = { ClientState P };

    ghost view = { λ c. record { conn = c.conn; unread = c.stream } };

    ghost invariant = { λ c. (c.conn.number ≡ c.number) × (IsTrue c.is_drained → HasNothingWhole c.stream) };
}

impl<P: HoldingPlace> Client<P> {
    /// A client whose connection, of this number, below 1,024, is opened so.
    pub fn open(alloc: Global, number: u16, opening: Opening) -> Client<P>
        requires { number < most_connections }
        ensures { result ≡ arrived (record { number = number; latest = opening.at; phase = phases.Unconnected opening }) }
    {
        Client {
            number,
            conn: Conn::open(alloc, number, opening),
            stream: Splitter::new(alloc),
            is_drained: false,
            packets: Vec::new(alloc),
            alloc,
        }
    }

    /// Whether its connection has ended.
    pub fn has_ended(&self) -> bool
        ensures { IsTrue result ↔ (self.now.conn.phase ≡ phases.Ended) }
    {
        self.conn.has_ended()
    }

    /// Lets go of a client whose connection has ended.
    pub fn end(self)
        requires { self.conn.phase ≡ phases.Ended }
    {
        let Client {
            number: _,
            conn,
            stream: _,
            is_drained: _,
            packets: _,
            alloc: _,
        } = self;
        conn.end();
    }
}

impl<P: HoldingPlace> Client<P> {
    /// Takes a further piece of its stream, which may be empty, to be read step by step.
    ///
    /// # Errors
    ///
    /// [`NoMemory`]: nothing has changed; [`Client::step_by`] with [`Input::EndOfInput`] ends the connection.
    pub fn feed(&mut self, piece: &[u8]) -> Result<(), NoMemory>
        ensures taken { OnOk result (self.new ≡ fed self.old piece.now) }
        ensures unchanged { OnErr result (self.new ≡ self.old) }
    {
        self.is_drained = false;
        match self.stream.feed(piece) {
            Ok(()) => Ok(()),
            Err(Fault::Stream(_)) => Ok(()),
            Err(Fault::Memory) => Err(NoMemory),
        }
    }

    /// Takes what one read of a reader gives of its stream, to be read step by step; `Ok(0)` tells the reader's end. See
    /// [`Splitter::read_from`].
    ///
    /// # Errors
    ///
    /// As there: the reader failed; an allocation failed, and the reader was not asked; or a fault stands in the stream, which is read no more.
    /// Nothing has changed then.
    pub fn read_from<R: Read>(&mut self, reader: &mut R) -> Result<usize, ReadFault>
        ensures read { ReadAnswers self.old.unread (R.remaining reader.old) result self.new.unread (R.remaining reader.new) }
        ensures conn { self.new.conn ≡ self.old.conn }
    {
        self.is_drained = false;
        self.stream.read_from(reader)
    }

    /// Steps its connection by what stands in front of its stream, the packet or the fault, at this moment in milliseconds, within a visit of the
    /// supply. The packets that are sent take the place of those in the list. `None` where nothing whole stands in front, or the connection
    /// waits for a session: nothing is sent then, and nothing done.
    ///
    /// So what one step sends can be written before the next one is made.
    ///
    /// # Errors
    ///
    /// [`NoMemory`]: the connection has ended, and its session is parked or ending, with all that it holds; nothing is sent.
    #[tactic(auto, using(crate::proofs::Waits::waits))]
    pub fn step_front<S: Supply<P>>(
        &mut self,
        supply: &mut S,
        now: u64,
        packets: &mut Vec<Packet>,
    ) -> Result<Option<Then>, NoMemory>
        requires visiting { S.visiting supply.old ≡ true }
        ensures stepped { MatchResult result
            (λ stepped. MatchOption stepped
            ((packets.new.items ≡ []) × IsRead self.old × (self.new ≡ self.old) × (supply.new ≡ supply.old))
            (λ next. (input : Asked) × IsInFront self.old.unread input self.new.unread
            × ClientSteps S.call P.slot_of supply.old self.old now input (step_output self.old.conn.number packets.new.items next) self.new supply.new))
            (λ _. (packets.new.items ≡ []) × FailsToReadOne S.call P.slot_of supply.old self.old now self.new supply.new) }
        ensures visiting { S.visiting supply.new ≡ S.visiting supply.old }
    {
        clear(packets);
        if self.is_drained {
            return Ok(None);
        }
        if !self.conn.wants_input() {
            return Ok(None);
        }
        match self.stream.next() {
            Ok(None) => {
                self.is_drained = true;
                Ok(None)
            }
            Ok(Some(packet)) => match self.step_into(supply, now, Input::Packet(packet), packets) {
                Ok(next) => Ok(Some(next)),
                Err(NoMemory) => Err(NoMemory),
            },
            Err(Fault::Stream(fault)) => {
                match self.step_into(supply, now, Input::Fault(fault), packets) {
                    Ok(next) => Ok(Some(next)),
                    Err(NoMemory) => Err(NoMemory),
                }
            }
            Err(Fault::Memory) => Err(self.give_up(supply, now, Input::EndOfInput)),
        }
    }

    /// Steps its connection by a Tick, within a visit of the supply, by the end of its stream or by the close of the broker, at this moment in
    /// milliseconds. The packets that are sent take the place of those in the list.
    ///
    /// # Errors
    ///
    /// As [`Client::step_front`].
    pub fn step_by<S: Supply<P>>(
        &mut self,
        supply: &mut S,
        now: u64,
        input: Input,
        packets: &mut Vec<Packet>,
    ) -> Result<Then, NoMemory>
        requires wanted { IsNoPacket input }
        requires visiting { NeedsVisit input → S.visiting supply.old ≡ true }
        ensures stepped { MatchResult result
            (λ next. ClientSteps S.call P.slot_of supply.old self.old now input (step_output self.old.conn.number packets.new.items next) self.new supply.new)
            (λ _. (packets.new.items ≡ []) × ClientFailsToStep S.call P.slot_of supply.old self.old now input self.new supply.new) }
        ensures unread { self.new.unread ≡ self.old.unread }
        ensures visiting { S.visiting supply.new ≡ S.visiting supply.old }
    {
        self.step_into(supply, now, input, packets)
    }

    /// Whether its connection takes what stands in front of its stream: not while it waits for a session.
    pub fn wants_input(&self) -> bool
        ensures { IsTrue result ↔ ¬ IsWaiting self.now.conn.phase }
    {
        self.conn.wants_input()
    }

    /// The moment, in milliseconds, from which a Tick ends the connection for silence: see [`Conn::deadline`].
    pub fn deadline(&self) -> Option<u64>
        ensures { MatchOption result
            ((now : ℕ) → now < 2 ^ 64 → ¬ IsSilentTooLong self.now.conn.phase now)
            (λ deadline. (now : ℕ) → IsSilentTooLong self.now.conn.phase now ↔ deadline ≤ now) }
    {
        self.conn.deadline()
    }

    /// Its identifier, where it has its session: see [`Conn::client_identifier`].
    pub fn identifier(&self) -> Option<&[u8]> {
        self.conn.client_identifier()
    }

    /// How many messages it has not acknowledged.
    pub fn held(&self) -> usize
        ensures { result ≡ held_by self.now.conn.phase }
    {
        self.conn.held()
    }

    /// The slot of the group that it would be handed a message of now: see [`Conn::takes_from`].
    pub fn takes_from(&self) -> Option<u8>
        ensures { MatchOption result
            ((place : P) → ¬ TakesAt self.now.conn.phase place)
            (λ slot. (place : P) × TakesAt self.now.conn.phase place × (P.slot_of place ≡ slot)) }
    {
        self.conn.takes_from()
    }

    /// Whether another connection asked for the session of this one: a packet or a Tick ends it then.
    pub fn is_kicked<S: Supply<P>>(&self, supply: &mut S) -> bool
        ensures called { S.call supply.old (Kicked self.now.conn.number result) supply.new }
        ensures visiting { S.visiting supply.new ≡ S.visiting supply.old }
    {
        supply.kicked(self.number)
    }

    /// One step of its connection.
    fn step_into<S: Supply<P>>(
        &mut self,
        supply: &mut S,
        now: u64,
        input: Input,
        packets: &mut Vec<Packet>,
    ) -> Result<Then, NoMemory>
        requires wanted { IsWanted self.old.conn.phase input }
        requires visiting { NeedsVisit input → S.visiting supply.old ≡ true }
        ensures stepped { MatchResult result
            (λ next. ClientSteps S.call P.slot_of supply.old self.old now input (step_output self.old.conn.number packets.new.items next) self.new supply.new)
            (λ _. (packets.new.items ≡ []) × ClientFailsToStep S.call P.slot_of supply.old self.old now input self.new supply.new) }
        ensures unread { self.new.unread ≡ self.old.unread }
        ensures visiting { S.visiting supply.new ≡ S.visiting supply.old }
    {
        self.conn.step(supply, now, input, packets)
    }

    /// This input ends its connection, since an allocation failed.
    #[inline(never)]
    #[tactic(auto, using(crate::proofs::Given::unsaid))]
    fn give_up<S: Supply<P>>(&mut self, supply: &mut S, now: u64, input: Input) -> NoMemory
        requires wanted { IsNoPacket input }
        requires quiet { ¬ NeedsVisit input }
        ensures given { IsGivenUp S.call P.slot_of supply.old self.old now input self.new supply.new }
        ensures visiting { S.visiting supply.new ≡ S.visiting supply.old }
    {
        let mut packets = Vec::new(self.alloc);
        match self.conn.step(supply, now, input, &mut packets) {
            Ok(_unsaid) => NoMemory,
            Err(refused) => refused,
        }
    }
}

/// Empties the list of packets, which is most often empty: it is looked at first, since to let packets go is a call.
fn clear(packets: &mut Vec<Packet>)
    ensures { packets.new.items ≡ [] }
{
    if packets.is_empty() {
        return;
    }
    packets.clear();
}
