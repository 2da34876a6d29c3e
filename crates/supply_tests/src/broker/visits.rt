//! Pieces and moments of a worker's clients, each in a visit of its own. Once the gate was shut, nothing happens.
ghost use Rattle.std.specs.Prelude.{◌<◌};

use client_table::{ClientTable, StepOutput};
use conn_supply::{HoldingPlace, NoMemory, Supply};

/// A piece comes over a connection.
///
/// # Errors
///
/// Out of memory.
pub(crate) fn receive<P: HoldingPlace, S: Supply<P>>(
    supply: &mut S,
    table: &mut ClientTable<P>,
    connection: u8,
    piece: &[u8],
    outputs: &mut Vec<StepOutput>,
) -> Result<(), NoMemory>
    requires { connection < 64 }
{
    if !supply.begin() {
        return Ok(());
    }
    let received = table.receive(supply, connection, 0, piece, outputs);
    supply.end();
    received
}

/// Time goes on for a connection.
///
/// # Errors
///
/// Out of memory.
pub(crate) fn tick<P: HoldingPlace, S: Supply<P>>(
    supply: &mut S,
    table: &mut ClientTable<P>,
    connection: u8,
    outputs: &mut Vec<StepOutput>,
) -> Result<(), NoMemory>
    requires { connection < 64 }
{
    if !supply.begin() {
        return Ok(());
    }
    let ticked = table.tick(supply, connection, 0, outputs);
    supply.end();
    ticked
}
