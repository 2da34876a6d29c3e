//! What a worker enters a broker's gate with.
ghost use Rattle.std.specs.Prelude.{◌≡◌};
ghost use Rattle.gate_word.specs.Visits.{seat_in};
ghost use Rattle.gate_word.specs.declared.visitor.Visitor.TheVariants as visitor;

use crate::broker::Broker;
use gate_word::{GateSeat, Visitor};
use std::marker::{Model, PhantomData};

/// A seat of a broker's gate. It takes no bytes, and may go to another thread.
///
/// Contracts see it as its `Seat`.
#[derive(Drop)]
pub struct Key<B: Broker> {
    seat: GateSeat,
    of: PhantomData<B>,
}

impl<B: Broker> Model for Key<B> {
    ghost use Rattle.std.specs.Prelude.{◌≡◌};
    ghost use Rattle.gate_word.specs.Seats.{Seat};

    ghost Value = { Seat };

    ghost view = { λ k. k.seat };

    ghost invariant = { λ k. k.seat.gate ≡ B.gate };
}

impl<B: Broker> Key<B> {
    /// The key that a seat of the broker's gate is.
    pub fn of(seat: GateSeat) -> Key<B>
        requires { seat.gate ≡ B.gate }
        ensures { result ≡ seat }
    {
        Key {
            seat,
            of: PhantomData,
        }
    }

    /// Its seat.
    pub fn into_seat(self) -> GateSeat
        ensures seat { result ≡ self }
        ensures gate { result.gate ≡ B.gate }
    {
        self.seat
    }

    /// A visitor of the broker's gate, who is outside.
    pub fn into_visitor(self) -> Visitor
        ensures visitor { result ≡ visitor.Outside self }
        ensures gate { (seat_in result).gate ≡ B.gate }
    {
        Visitor::Outside(self.seat)
    }
}
