//! What a round made of a cell.
use conn_service::{Round, Served};

/// What a round made of a cell, with the transport of a connection that ended.
pub enum CellOutcome<T> {
    /// There is no connection in it.
    Vacant,
    /// Its connection goes on, and waits for this; it is no ending.
    Goes(Round),
    /// Its connection has ended so, and this is its transport; the cell is free.
    Ended(Served, T),
}
