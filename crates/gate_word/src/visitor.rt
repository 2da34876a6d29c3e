//! A visitor: outside a gate with its seat, or inside with its turn.
ghost use Rattle.std.specs.Prelude.{◌≡◌};
ghost use Rattle.gate_word.specs.Visits.{seat_in, Tries, Ends};

use crate::gate::Gate;
use crate::seat::{GateSeat, Turn};

/// Who goes in and out of one gate, with what it holds of it. It is `Send`, and not `Sync`.
///
/// A type that keeps a visitor can say of which gate it is, wherever it stands: contracts see the seat of both as a
/// `Seat`, which shows its gate (`seat_in`). It can't be dropped, since a turn can't be: it ends in
/// [`Visitor::leave`].
pub enum Visitor {
    /// It is outside.
    Outside(GateSeat),
    /// It is inside.
    Inside(Turn),
}

impl Visitor {
    /// Goes in, as [`Gate::enter`] does: the visitor is outside afterwards where the gate was shut. Who is inside
    /// already stays inside, and makes no step.
    pub fn enter(self, gate: &Gate) -> Visitor
        requires { (seat_in self).gate ≡ gate.now }
        ensures gate { (seat_in result).gate ≡ gate.now }
        ensures tried { Tries self result }
    {
        match self {
            Visitor::Inside(turn) => Visitor::Inside(turn),
            Visitor::Outside(seat) => match gate.enter(seat) {
                Ok(turn) => Visitor::Inside(turn),
                Err(refused) => Visitor::Outside(refused.seat),
            },
        }
    }

    /// Comes out, as [`Gate::leave`] does, and gives the seat. Who is outside already makes no step.
    pub fn leave(self, gate: &Gate) -> GateSeat
        requires { (seat_in self).gate ≡ gate.now }
        ensures gate { result.gate ≡ gate.now }
        ensures ended { Ends self result }
    {
        match self {
            Visitor::Inside(turn) => gate.leave(turn),
            Visitor::Outside(seat) => seat,
        }
    }
}
