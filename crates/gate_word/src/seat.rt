//! What a thread holds of a gate: its seat, a turn while it is inside, and the token that nobody is inside any more.
use crate::word::Pass;
use std::fmt;
use std::fmt::{Debug, Formatter};
use std::marker::Model;

/// One of a gate's seats, outside the gate. It takes no bytes, and may go to another thread: it is `Send`, and not
/// `Sync`, so what keeps a seat and is shared by threads keeps it under a lock.
///
/// Contracts see it as a `Seat`: the gate that it is of, its number, and the steps that it has made, the newest first,
/// each with the number that it found in the gate's word.
#[derive(Drop)]
pub struct GateSeat {
    pub(crate) pass: Pass,
}

impl Model for GateSeat {
    ghost use Rattle.gate_word.specs.Seats.{Seat, seat_of};
    ghost use Rattle.gate_word.specs.Rule.{IsSeat};

    ghost Value = { Seat };

    ghost view = { λ s. seat_of s.pass.table_id s.pass.me.0 };

    ghost invariant = { λ s. IsSeat s.pass.me };
}

impl Debug for GateSeat {
    fn fmt<W: fmt::Write>(&self, f: &mut Formatter<W>) -> fmt::Result {
        f.write_str("GateSeat")
    }
}

/// A seat that is inside its gate. It takes no bytes, and may go to another thread: it is `Send`, and not `Sync`. It
/// can't be dropped: it ends in [`Gate::leave`](crate::Gate::leave).
///
/// Contracts see it as they see the seat.
pub struct Turn {
    pub(crate) pass: Pass,
}

impl Model for Turn {
    ghost use Rattle.gate_word.specs.Seats.{Seat, seat_of};
    ghost use Rattle.gate_word.specs.Rule.{IsTurn};

    ghost Value = { Seat };

    ghost view = { λ s. seat_of s.pass.table_id s.pass.me.0 };

    ghost invariant = { λ s. IsTurn s.pass.me };
}

/// A seat that was refused, and has still to take off what it added to the word. It can't be dropped either.
pub(crate) struct Bounced {
    pub(crate) pass: Pass,
}

impl Model for Bounced {
    ghost use Rattle.gate_word.specs.Seats.{Seat, seat_of};
    ghost use Rattle.gate_word.specs.Rule.{IsBounced};

    ghost Value = { Seat };

    ghost view = { λ s. seat_of s.pass.table_id s.pass.me.0 };

    ghost invariant = { λ s. IsBounced s.pass.me };
}

/// The token that a gate is shut and nobody is inside it, now and for ever: where there is one, there is no [`Turn`]
/// of its gate ([`Gate::refute`](crate::Gate::refute)). It takes no bytes, and may go to another thread: it is `Send`,
/// and not `Sync`.
///
/// Contracts see it as the gate that it is of.
#[derive(Drop)]
pub struct Drained {
    pub(crate) pass: Pass,
}

impl Model for Drained {
    ghost use Rattle.gate_word.specs.Seats.{GateId, gate_of};
    ghost use Rattle.gate_word.specs.Rule.{IsToken};

    ghost Value = { GateId };

    ghost view = { λ d. gate_of d.pass.table_id d.pass.me.0 };

    ghost invariant = { λ d. IsToken d.pass.me };
}
