//! The stream of a client, read as far as it goes.
ghost use Rattle.std.specs.Prelude.{◌≡◌, ◌<◌, ◌++◌, ◌⊎◌, ◌∷◌, [], List, MatchResult, true, vec_capacity, vec_len};
ghost use Rattle.conn_engine.specs.Step.{IsNoPacket, IsWanted, NeedsVisit};
ghost use Rattle.conn_engine.specs.declared.input.Input.TheVariants as inputs;
ghost use Rattle.client_table.specs.Clients.{ClientState, StepOutput as Output, ClientSteps, ClientFailsToStep, IsGivenUp};
ghost use Rattle.client_table.specs.Streams.{fed, reading_behind, ReadsAs, FailsToReadOne, Reads, FailsToRead, Ticks, FailsToTick, Leaves};

use crate::client::Client;
use crate::step_output::StepOutput;
use conn_engine::Input;
use conn_supply::{HoldingPlace, NoMemory, Supply, Then};
use mqtt_fields::Fault;
use mqtt_packet::Packet;
use std::alloc::Global;
use std::mem;

/// What came of reading once.
enum Reading {
    /// Nothing was to be read.
    Nothing,
    /// A packet was read, and the connection goes on.
    GoesOn,
    /// What was read closed the connection.
    Closed,
}

impl Reading {
    /// What comes of a packet, by what became of the connection.
    fn behind(next: Then) -> Reading
        ensures { result ≡ reading_behind next }
    {
        match next {
            Then::Go => Reading::GoesOn,
            Then::Close | Then::Kicked => Reading::Closed,
        }
    }
}

impl<P: HoldingPlace> Client<P> {
    /// Takes a further piece of its stream, which may be empty, and steps its connection by each packet that is whole, at this
    /// moment in milliseconds, within a visit of the supply. What each step wrote goes after what was said before.
    ///
    /// # Errors
    ///
    /// [`NoMemory`]: the connection has ended, and its session is parked or ending, with all that it holds. The step that wanted
    /// memory wrote nothing; what was said before it stays.
    pub fn receive<S: Supply<P>>(
        &mut self,
        supply: &mut S,
        now: u64,
        piece: &[u8],
        outputs: &mut Vec<StepOutput>,
    ) -> Result<(), NoMemory>
        requires visiting { S.visiting supply.old ≡ true }
        ensures received { (more : List Output) × (outputs.new.items ≡ outputs.old.items ++ more)
            × MatchResult result
            (λ _. Reads S.call P.slot_of supply.old (fed self.old piece.now) now more self.new supply.new)
            (λ _. (IsGivenUp S.call P.slot_of supply.old self.old now inputs.EndOfInput self.new supply.new × (more ≡ []))
            ⊎ FailsToRead S.call P.slot_of supply.old (fed self.old piece.now) now more self.new supply.new) }
        ensures visiting { S.visiting supply.new ≡ S.visiting supply.old }
    {
        self.is_drained = false;
        match self.stream.feed(piece) {
            Ok(()) => self.read(supply, now, outputs),
            Err(Fault::Stream(_)) => self.read(supply, now, outputs),
            Err(Fault::Memory) => Err(self.give_up(supply, now, Input::EndOfInput)),
        }
    }

    /// Steps its connection by each packet that is whole, at this moment in milliseconds.
    ///
    /// # Errors
    ///
    /// As [`Client::receive`].
    #[tactic(auto, using(crate::proofs::Reading::from_the_start, crate::proofs::Reading::one_more))]
    pub fn read<S: Supply<P>>(
        &mut self,
        supply: &mut S,
        now: u64,
        outputs: &mut Vec<StepOutput>,
    ) -> Result<(), NoMemory>
        requires visiting { S.visiting supply.old ≡ true }
        ensures read { (more : List Output) × (outputs.new.items ≡ outputs.old.items ++ more)
            × MatchResult result
            (λ _. Reads S.call P.slot_of supply.old self.old now more self.new supply.new)
            (λ _. FailsToRead S.call P.slot_of supply.old self.old now more self.new supply.new) }
        ensures visiting { S.visiting supply.new ≡ S.visiting supply.old }
    {
        'packets: loop {
            match self.read_one(supply, now, outputs) {
                Ok(Reading::GoesOn) => {}
                Ok(Reading::Nothing) => return Ok(()),
                Ok(Reading::Closed) => return Ok(()),
                Err(NoMemory) => return Err(NoMemory),
            }
        }
    }

    /// Steps its connection by the packet, or the fault, that stands in front.
    #[tactic(auto, using(crate::proofs::Waits::waits, crate::proofs::Reading::packet_read))]
    fn read_one<S: Supply<P>>(
        &mut self,
        supply: &mut S,
        now: u64,
        outputs: &mut Vec<StepOutput>,
    ) -> Result<Reading, NoMemory>
        requires visiting { S.visiting supply.old ≡ true }
        ensures read { MatchResult result
            (λ reading. ReadsAs S.call P.slot_of reading supply.old self.old now outputs.old.items outputs.new.items self.new supply.new)
            (λ _. (outputs.new.items ≡ outputs.old.items) × FailsToReadOne S.call P.slot_of supply.old self.old now self.new supply.new) }
        ensures visiting { S.visiting supply.new ≡ S.visiting supply.old }
    {
        if self.is_drained {
            return Ok(Reading::Nothing);
        }
        if !self.conn.wants_input() {
            return Ok(Reading::Nothing);
        }
        if outputs.reserve(1).is_err() {
            return Err(self.give_up(supply, now, Input::EndOfInput));
        }
        match self.stream.next() {
            Ok(None) => {
                self.is_drained = true;
                Ok(Reading::Nothing)
            }
            Ok(Some(packet)) => match self.step(supply, now, Input::Packet(packet), outputs) {
                Ok(next) => Ok(Reading::behind(next)),
                Err(NoMemory) => Err(NoMemory),
            },
            Err(Fault::Stream(fault)) => match self.step(
                supply,
                now,
                Input::Fault(fault),
                outputs,
            ) {
                Ok(_) => Ok(Reading::Closed),
                Err(NoMemory) => Err(NoMemory),
            },
            Err(Fault::Memory) => Err(self.give_up(supply, now, Input::EndOfInput)),
        }
    }

    /// One step of its connection; there is room for what it says.
    fn step<S: Supply<P>>(
        &mut self,
        supply: &mut S,
        now: u64,
        input: Input,
        outputs: &mut Vec<StepOutput>,
    ) -> Result<Then, NoMemory>
        requires wanted { IsWanted self.old.conn.phase input }
        requires room { vec_len outputs.old < vec_capacity outputs.old }
        requires visiting { NeedsVisit input → S.visiting supply.old ≡ true }
        ensures stepped { MatchResult result
            (λ next. (output : Output) × (output.next ≡ next) × (outputs.new.items ≡ outputs.old.items ++ (output ∷ []))
            × ClientSteps S.call P.slot_of supply.old self.old now input output self.new supply.new)
            (λ _. (outputs.new ≡ outputs.old) × ClientFailsToStep S.call P.slot_of supply.old self.old now input self.new supply.new) }
        ensures unread { self.new.unread ≡ self.old.unread }
        ensures visiting { S.visiting supply.new ≡ S.visiting supply.old }
    {
        match self.conn.step(supply, now, input, &mut self.packets) {
            Ok(next) => {
                let packets = take_all(self.alloc, &mut self.packets);
                outputs.push_reserved(StepOutput::new(self.number, packets, next));
                Ok(next)
            }
            Err(NoMemory) => Err(NoMemory),
        }
    }

    /// Time has gone on, to this moment in milliseconds. Where its connection does not wait any more, what came meanwhile is
    /// read.
    ///
    /// # Errors
    ///
    /// As [`Client::receive`].
    #[tactic(auto, using(crate::proofs::Ticking::last_tick, crate::proofs::Ticking::tick_and_more, crate::proofs::Ticking::fails_at_tick, crate::proofs::Ticking::fails_behind_tick))]
    pub fn tick<S: Supply<P>>(
        &mut self,
        supply: &mut S,
        now: u64,
        outputs: &mut Vec<StepOutput>,
    ) -> Result<(), NoMemory>
        requires visiting { S.visiting supply.old ≡ true }
        ensures ticked { (more : List Output) × (outputs.new.items ≡ outputs.old.items ++ more)
            × MatchResult result
            (λ _. Ticks S.call P.slot_of supply.old self.old now more self.new supply.new)
            (λ _. FailsToTick S.call P.slot_of supply.old self.old now more self.new supply.new) }
        ensures visiting { S.visiting supply.new ≡ S.visiting supply.old }
    {
        if outputs.reserve(1).is_err() {
            return Err(self.give_up(supply, now, Input::EndOfInput));
        }
        match self.step(supply, now, Input::Tick, outputs) {
            Ok(Then::Go) => self.read(supply, now, outputs),
            Ok(Then::Close) => Ok(()),
            Ok(Then::Kicked) => Ok(()),
            Err(NoMemory) => Err(NoMemory),
        }
    }

    /// Its stream has ended, at this moment in milliseconds.
    ///
    /// # Errors
    ///
    /// As [`Client::receive`].
    pub fn end_of_input<S: Supply<P>>(
        &mut self,
        supply: &mut S,
        now: u64,
        outputs: &mut Vec<StepOutput>,
    ) -> Result<(), NoMemory>
        ensures ended { Leaves S.call P.slot_of supply.old self.old now inputs.EndOfInput outputs.old.items result outputs.new.items self.new supply.new }
        ensures visiting { S.visiting supply.new ≡ S.visiting supply.old }
    {
        self.leave(supply, now, Input::EndOfInput, outputs)
    }

    /// The broker closes, at this moment in milliseconds.
    ///
    /// # Errors
    ///
    /// As [`Client::receive`].
    pub fn closing<S: Supply<P>>(
        &mut self,
        supply: &mut S,
        now: u64,
        outputs: &mut Vec<StepOutput>,
    ) -> Result<(), NoMemory>
        ensures closed { Leaves S.call P.slot_of supply.old self.old now inputs.Closing outputs.old.items result outputs.new.items self.new supply.new }
        ensures visiting { S.visiting supply.new ≡ S.visiting supply.old }
    {
        self.leave(supply, now, Input::Closing, outputs)
    }

    /// Lets go of a client: its connection ends as where the broker closes, and nothing is written of it.
    #[tactic(auto, using(crate::proofs::Over::is_over))]
    pub fn abandon<S: Supply<P>>(mut self, supply: &mut S, now: u64)
        ensures abandoned { (client : ClientState P) × IsGivenUp S.call P.slot_of supply.old self now inputs.Closing client supply.new }
        ensures visiting { S.visiting supply.new ≡ S.visiting supply.old }
    {
        let _unsaid = self.give_up(supply, now, Input::Closing);
        self.end();
    }

    /// One last step of its connection.
    fn leave<S: Supply<P>>(
        &mut self,
        supply: &mut S,
        now: u64,
        input: Input,
        outputs: &mut Vec<StepOutput>,
    ) -> Result<(), NoMemory>
        requires wanted { IsNoPacket input }
        requires quiet { ¬ NeedsVisit input }
        ensures left { Leaves S.call P.slot_of supply.old self.old now input outputs.old.items result outputs.new.items self.new supply.new }
        ensures visiting { S.visiting supply.new ≡ S.visiting supply.old }
    {
        if outputs.reserve(1).is_err() {
            return Err(self.give_up(supply, now, input));
        }
        match self.step(supply, now, input, outputs) {
            Ok(_) => Ok(()),
            Err(NoMemory) => Err(NoMemory),
        }
    }
}

/// Takes the packets out of a list. Where it has none, it keeps its room.
fn take_all(alloc: Global, packets: &mut Vec<Packet>) -> Vec<Packet>
    ensures { result.items ≡ packets.old.items }
{
    if packets.is_empty() {
        return Vec::new(alloc);
    }
    mem::replace(packets, Vec::new(alloc))
}
