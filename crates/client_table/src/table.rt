//! The clients of a broker, by the numbers of their connections.
ghost use Rattle.std.specs.Prelude.{◌≡◌, ◌<◌, ◌++◌, List, IfOk, None, replicate, true};
ghost use Rattle.limits.specs.Limits.{most_ports};
ghost use Rattle.conn_engine.specs.declared.input.Input.TheVariants as inputs;
ghost use Rattle.client_table.specs.Clients.{StepOutput as Output};
ghost use Rattle.client_table.specs.Cells.{Abandons, AbandonsEach, InCell, Opens, Receives, TicksFor, EndsFor};

use crate::cell;
use crate::client::Client;
use crate::step_output::StepOutput;
use conn_engine::Opening;
use conn_supply::{HoldingPlace, NoMemory, Supply};
use std::alloc::Global;
use std::marker::Model;

/// How many connections a table has room for: their numbers are below that.
pub const CLIENTS: usize = 64;

/// The clients of a broker, each at the number of its connection. `P` is a place in a group.
///
/// What happens to a connection that is not open is passed over, and so is the opening of one that is.
pub struct ClientTable<P: HoldingPlace> {
    cells: Vec<Option<Client<P>>>,
    alloc: Global,
}

impl<P: HoldingPlace> Model for ClientTable<P> {
    ghost use Rattle.std.specs.Prelude.{◌≡◌, List, Option, length};
    ghost use Rattle.client_table.specs.Clients.{ClientState};

    ghost Value = { List (Option (ClientState P)) };

    ghost view = { λ t. t.cells.items };

    ghost invariant = { λ t. length t.cells.items ≡ 64 };
}

impl<P: HoldingPlace> ClientTable<P> {
    /// No connection is open. Takes the memory for [`CLIENTS`] connections.
    pub fn new(alloc: Global) -> Result<ClientTable<P>, NoMemory>
        ensures { IfOk result (λ table. table ≡ replicate 64 None) }
    {
        let mut cells = Vec::with_capacity(alloc, CLIENTS)?;
        'cells: for _ in 0..CLIENTS {
            cells.push_reserved(None);
        }
        Ok(ClientTable { cells, alloc })
    }

    /// The connection of this number, below [`CLIENTS`], is opened so.
    pub fn open(&mut self, number: u8, opening: Opening)
        requires { number < most_ports }
        ensures { InCell self.old number (Opens number opening) self.new }
    {
        cell::open(
            &mut self.cells[usize::from(number)],
            self.alloc,
            u16::from(number),
            opening,
        );
    }
}

impl<P: HoldingPlace> ClientTable<P> {
    /// A piece of a client's stream has come, at this moment in milliseconds: its connection is stepped by each packet that is
    /// whole. What each step wrote goes after what was said before.
    ///
    /// # Errors
    ///
    /// [`NoMemory`]: this connection has ended, and its session is parked or ending, with all that it holds. The step that
    /// wanted memory wrote nothing; what was said before it stays.
    pub fn receive<S: Supply<P>>(
        &mut self,
        supply: &mut S,
        number: u8,
        now: u64,
        piece: &[u8],
        outputs: &mut Vec<StepOutput>,
    ) -> Result<(), NoMemory>
        requires known { number < most_ports }
        requires visiting { S.visiting supply.old ≡ true }
        ensures received { (more : List Output) × (outputs.new.items ≡ outputs.old.items ++ more)
            × InCell self.old number
            (λ before after. Receives S.call P.slot_of supply.old before now piece.now more result after supply.new) self.new }
        ensures visiting { S.visiting supply.new ≡ S.visiting supply.old }
    {
        cell::receive(
            &mut self.cells[usize::from(number)],
            supply,
            now,
            piece,
            outputs,
        )
    }

    /// Time has gone on for a connection, to this moment in milliseconds.
    ///
    /// # Errors
    ///
    /// As [`ClientTable::receive`].
    pub fn tick<S: Supply<P>>(
        &mut self,
        supply: &mut S,
        number: u8,
        now: u64,
        outputs: &mut Vec<StepOutput>,
    ) -> Result<(), NoMemory>
        requires known { number < most_ports }
        requires visiting { S.visiting supply.old ≡ true }
        ensures ticked { (more : List Output) × (outputs.new.items ≡ outputs.old.items ++ more)
            × InCell self.old number (λ before after. TicksFor S.call P.slot_of supply.old before now more result after supply.new) self.new }
        ensures visiting { S.visiting supply.new ≡ S.visiting supply.old }
    {
        cell::tick(&mut self.cells[usize::from(number)], supply, now, outputs)
    }

    /// A client's stream has ended, at this moment in milliseconds.
    ///
    /// # Errors
    ///
    /// As [`ClientTable::receive`].
    pub fn end_of_input<S: Supply<P>>(
        &mut self,
        supply: &mut S,
        number: u8,
        now: u64,
        outputs: &mut Vec<StepOutput>,
    ) -> Result<(), NoMemory>
        requires { number < most_ports }
        ensures ended { (more : List Output) × (outputs.new.items ≡ outputs.old.items ++ more)
            × InCell self.old number
            (λ before after. EndsFor S.call P.slot_of supply.old before now inputs.EndOfInput more result after supply.new) self.new }
        ensures visiting { S.visiting supply.new ≡ S.visiting supply.old }
    {
        cell::end_of_input(&mut self.cells[usize::from(number)], supply, now, outputs)
    }

    /// The broker closes, at this moment in milliseconds: this connection is told so, and ends.
    ///
    /// # Errors
    ///
    /// As [`ClientTable::receive`].
    pub fn closing<S: Supply<P>>(
        &mut self,
        supply: &mut S,
        number: u8,
        now: u64,
        outputs: &mut Vec<StepOutput>,
    ) -> Result<(), NoMemory>
        requires { number < most_ports }
        ensures closed { (more : List Output) × (outputs.new.items ≡ outputs.old.items ++ more)
            × InCell self.old number
            (λ before after. EndsFor S.call P.slot_of supply.old before now inputs.Closing more result after supply.new) self.new }
        ensures visiting { S.visiting supply.new ≡ S.visiting supply.old }
    {
        cell::closing(&mut self.cells[usize::from(number)], supply, now, outputs)
    }

    /// Lets go of the clients: each connection that is open ends as where the broker closes, that of the greatest number first,
    /// and nothing is written of it.
    pub fn abandon<S: Supply<P>>(self, supply: &mut S, now: u64)
        ensures abandoned { AbandonsEach S.call P.slot_of supply.old self now supply.new }
        ensures visiting { S.visiting supply.new ≡ S.visiting supply.old }
    {
        let ClientTable { cells, alloc: _ } = self;
        abandon_each(cells, supply, now);
    }
}

/// Lets go of the clients in these cells, the last one first.
#[tactic(auto, using(crate::proofs::Leaving::last_first))]
fn abandon_each<P: HoldingPlace, S: Supply<P>>(
    mut cells: Vec<Option<Client<P>>>,
    supply: &mut S,
    now: u64,
)
    ensures abandoned { AbandonsEach S.call P.slot_of supply.old cells.items now supply.new }
    ensures visiting { S.visiting supply.new ≡ S.visiting supply.old }
{
    match cells.pop() {
        None => cells.destroy_empty(),
        Some(cell) => {
            abandon(cell, supply, now);
            abandon_each(cells, supply, now);
        }
    }
}

/// Lets go of the client in a cell.
fn abandon<P: HoldingPlace, S: Supply<P>>(cell: Option<Client<P>>, supply: &mut S, now: u64)
    ensures abandoned { Abandons S.call P.slot_of supply.old cell now supply.new }
    ensures visiting { S.visiting supply.new ≡ S.visiting supply.old }
{
    if let Some(client) = cell {
        client.abandon(supply, now);
    }
}
