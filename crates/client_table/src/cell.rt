//! The cell of a number, in which a client may be.
ghost use Rattle.std.specs.Prelude.{◌≡◌, ◌<◌, ◌++◌, List, Some, true};
ghost use Rattle.limits.specs.Limits.{most_connections};
ghost use Rattle.conn_engine.specs.declared.input.Input.TheVariants as inputs;
ghost use Rattle.client_table.specs.Clients.{ClientState, StepOutput as Output};
ghost use Rattle.client_table.specs.Cells.{kept, Opens, Receives, TicksFor, EndsFor};

use crate::client::Client;
use crate::step_output::StepOutput;
use conn_engine::Opening;
use conn_supply::{HoldingPlace, NoMemory, Supply};
use std::alloc::Global;

/// Lets go of the client in a cell where its connection has ended.
fn let_go_of_ended<P: HoldingPlace>(cell: &mut Option<Client<P>>)
    ensures { (client : ClientState P) → cell.old ≡ Some client → cell.new ≡ kept client }
{
    let Some(client) = cell else { return };
    if !client.has_ended() {
        return;
    }
    if let Some(client) = cell.take() {
        client.end();
    }
}

/// A connection is opened, where none is.
pub(crate) fn open<P: HoldingPlace>(
    cell: &mut Option<Client<P>>,
    alloc: Global,
    number: u16,
    opening: Opening,
)
    requires { number < most_connections }
    ensures { Opens number opening cell.old cell.new }
{
    if cell.is_none() {
        match cell.replace(Client::open(alloc, number, opening)) {
            None => {}
            Some(_other) => unreachable!(),
        }
    }
}

/// A piece of the client's stream comes.
pub(crate) fn receive<P: HoldingPlace, S: Supply<P>>(
    cell: &mut Option<Client<P>>,
    supply: &mut S,
    now: u64,
    piece: &[u8],
    outputs: &mut Vec<StepOutput>,
) -> Result<(), NoMemory>
    requires visiting { S.visiting supply.old ≡ true }
    ensures received { (more : List Output) × (outputs.new.items ≡ outputs.old.items ++ more)
        × Receives S.call P.slot_of supply.old cell.old now piece.now more result cell.new supply.new }
    ensures visiting { S.visiting supply.new ≡ S.visiting supply.old }
{
    let Some(client) = cell else {
        return Ok(());
    };
    let received = client.receive(supply, now, piece, outputs);
    let_go_of_ended(cell);
    received
}

/// Time has gone on.
pub(crate) fn tick<P: HoldingPlace, S: Supply<P>>(
    cell: &mut Option<Client<P>>,
    supply: &mut S,
    now: u64,
    outputs: &mut Vec<StepOutput>,
) -> Result<(), NoMemory>
    requires visiting { S.visiting supply.old ≡ true }
    ensures ticked { (more : List Output) × (outputs.new.items ≡ outputs.old.items ++ more)
        × TicksFor S.call P.slot_of supply.old cell.old now more result cell.new supply.new }
    ensures visiting { S.visiting supply.new ≡ S.visiting supply.old }
{
    let Some(client) = cell else {
        return Ok(());
    };
    let ticked = client.tick(supply, now, outputs);
    let_go_of_ended(cell);
    ticked
}

/// The client's stream has ended.
pub(crate) fn end_of_input<P: HoldingPlace, S: Supply<P>>(
    cell: &mut Option<Client<P>>,
    supply: &mut S,
    now: u64,
    outputs: &mut Vec<StepOutput>,
) -> Result<(), NoMemory>
    ensures ended { (more : List Output) × (outputs.new.items ≡ outputs.old.items ++ more)
        × EndsFor S.call P.slot_of supply.old cell.old now inputs.EndOfInput more result cell.new supply.new }
    ensures visiting { S.visiting supply.new ≡ S.visiting supply.old }
{
    let Some(client) = cell else {
        return Ok(());
    };
    let ended = client.end_of_input(supply, now, outputs);
    let_go_of_ended(cell);
    ended
}

/// The broker closes.
pub(crate) fn closing<P: HoldingPlace, S: Supply<P>>(
    cell: &mut Option<Client<P>>,
    supply: &mut S,
    now: u64,
    outputs: &mut Vec<StepOutput>,
) -> Result<(), NoMemory>
    ensures closed { (more : List Output) × (outputs.new.items ≡ outputs.old.items ++ more)
        × EndsFor S.call P.slot_of supply.old cell.old now inputs.Closing more result cell.new supply.new }
    ensures visiting { S.visiting supply.new ≡ S.visiting supply.old }
{
    let Some(client) = cell else {
        return Ok(());
    };
    let closed = client.closing(supply, now, outputs);
    let_go_of_ended(cell);
    closed
}
