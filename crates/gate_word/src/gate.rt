//! The gate, and the calls of it.
ghost use Rattle.std.specs.Prelude.{◌≡◌, ◌≢◌, ◌≤◌, true, IfOk, IsErr, MatchResult};
ghost use Rattle.gate_word.specs.Steps.{knows_shut, saw_drained};
ghost use Rattle.gate_word.specs.Seats.{AreNewSeats, AreSeatsOf};
ghost use Rattle.gate_word.specs.Kinds.Kind.{Enter, Bounce, TakeOff, LookDrained, Look};
ghost use Rattle.gate_word.specs.Calls.{Makes, Enters, IsRefused, Leaves, Shuts, Looks};

use crate::error::{GateError, Refused};
use crate::seat::{Bounced, Drained, GateSeat, Turn};
use crate::word;
use crate::word::{SHUT, Word};
use std::alloc::Global;
use std::marker::Model;

/// The most seats that a gate has: 80.
pub const MOST_SEATS: usize = 80;

/// A gate, which threads share by reference.
///
/// Contracts see it as its identity, which no other gate has, and which says how many seats it has. Its seats, turns
/// and tokens show the gate that they are of. A gate is `Send` and `Sync`.
#[derive(Drop)]
pub struct Gate {
    word: Word,
}

impl Model for Gate {
    ghost use Rattle.std.specs.Prelude.{◌≡◌};
    ghost use Rattle.gate_word.specs.Seats.{GateId};

    ghost Value = { GateId };

    ghost view = { λ g. record { word = g.word.shared.table_id; seats = g.word.shared.key } };

    ghost invariant = { λ g. g.word.shared.table_id.words ≡ 1 };
}

impl Gate {
    /// An open gate with nobody inside, and its seats, of which there are 1 to [`MOST_SEATS`]. They are numbered from
    /// 0 on, in the order of the list, and there are no others, so that nobody else can shut the gate or stand inside.
    /// Takes the memory for the word and for the list.
    ///
    /// # Errors
    ///
    /// 402 [`GateError::Memory`] where there is none.
    #[tactic(auto, using(crate::proofs::EachKind::starts))]
    pub fn open(alloc: Global, seats: usize) -> Result<(Gate, Vec<GateSeat>), GateError>
        requires { (1 ≤ seats) × (seats ≤ MOST_SEATS) }
        ensures total { IfOk result (λ opened. opened.0.seats ≡ seats) }
        ensures seats { IfOk result (λ opened. AreNewSeats opened.0 seats opened.1.items) }
        ensures gate { IfOk result (λ opened. AreSeatsOf opened.0 opened.1.items) }
    {
        let mut row = Vec::with_capacity(alloc, seats).map_err(|_| GateError::Memory)?;
        let (word, mut pass) = Word::of_words(alloc, &[0], &seats).map_err(|_| GateError::Memory)?;
        for _ in 1..seats {
            row.push_reserved(GateSeat {
                pass: word::cut(&word, &mut pass),
            });
        }
        row.push_reserved(GateSeat { pass });
        Ok((Gate { word }, row))
    }

    /// Goes in. The turn that is given must be spent by [`Gate::leave`].
    ///
    /// One step, which adds the seat to the word; a refused seat is taken off again by a second one.
    ///
    /// # Errors
    ///
    /// 401 [`Refused`]: the gate was shut at the step. The seat is handed back, and knows that the gate is shut. This
    /// comes to every seat that shut the gate or found it shut before.
    pub fn enter(&self, seat: GateSeat) -> Result<Turn, Refused>
        requires { seat.gate ≡ self.now }
        ensures answer { MatchResult result (Enters seat) (λ refused. IsRefused seat refused.seat) }
        ensures kept_out { knows_shut seat.steps ≡ true → IsErr result }
    {
        match self.step_in(seat) {
            Ok(turn) => Ok(turn),
            Err(bounced) => Err(Refused {
                seat: self.take_off(bounced),
            }),
        }
    }

    // Adds the seat to the word. It is inside where the gate was open.
    fn step_in(&self, seat: GateSeat) -> Result<Turn, Bounced>
        requires { seat.gate ≡ self.now }
        ensures step { MatchResult result (Makes Enter seat) (Makes Bounce seat) }
        ensures kept_out { knows_shut seat.steps ≡ true → IsErr result }
    {
        let GateSeat { mut pass } = seat;
        if word::add(&self.word, &mut pass) % 2 == 0 {
            Ok(Turn { pass })
        } else {
            Err(Bounced { pass })
        }
    }

    // Takes a refused seat off the word again.
    fn take_off(&self, bounced: Bounced) -> GateSeat
        requires { bounced.gate ≡ self.now }
        ensures { Makes TakeOff bounced result }
    {
        let Bounced { mut pass } = bounced;
        word::take_off(&self.word, &mut pass);
        GateSeat { pass }
    }

    /// Comes out again.
    pub fn leave(&self, turn: Turn) -> GateSeat
        requires { turn.gate ≡ self.now }
        ensures { Leaves turn result }
    {
        let Turn { mut pass } = turn;
        word::leave(&self.word, &mut pass);
        GateSeat { pass }
    }

    /// Shuts the gate for good: from now on every [`Gate::enter`] is refused. Where it is shut already this leaves the
    /// word as it is.
    pub fn shut(&self, seat: &mut GateSeat)
        requires { seat.old.gate ≡ self.now }
        ensures { Shuts seat.old seat.new }
    {
        word::shut(&self.word, &mut seat.pass);
    }

    /// Looks whether the gate is shut and everybody is outside. `None` where it is open, or where some seat is inside
    /// or has been refused and not yet taken off what it added: a later look may find it drained.
    pub fn drained(&self, seat: &mut GateSeat) -> Option<Drained>
        requires { seat.old.gate ≡ self.now }
        ensures { Looks seat.old result seat.new }
    {
        if self.look(seat) != SHUT {
            return None;
        }
        Some(self.witness(seat))
    }

    // The number that the seat finds.
    fn look(&self, seat: &mut GateSeat) -> u64
        requires { seat.old.gate ≡ self.now }
        ensures drained { result ≡ 1 → Makes LookDrained seat.old seat.new }
        ensures other { result ≢ 1 → Makes Look seat.old seat.new }
        ensures mark { result ≡ 1 → saw_drained seat.new.steps ≡ true }
    {
        word::look_at(&self.word, &mut seat.pass)
    }

    // A token, by a seat that saw the gate drained.
    fn witness(&self, seat: &mut GateSeat) -> Drained
        requires gate { seat.old.gate ≡ self.now }
        requires mark { saw_drained seat.old.steps ≡ true }
        ensures same { seat.new ≡ seat.old }
        ensures token { result ≡ self.now }
    {
        Drained {
            pass: word::witness(&self.word, &mut seat.pass),
        }
    }

    /// No turn is out once a token was given. What this ensures is false, so there is no call of it in any run; a
    /// caller that holds both has what it needs to show that it is not reached.
    pub fn refute(&self, drained: &mut Drained, turn: &mut Turn)
        requires drained { drained.old ≡ self.now }
        requires turn { turn.old.gate ≡ self.now }
        ensures { ⊥ }
    {
        let witness = word::witness(&self.word, &mut drained.pass);
        word::refute(&self.word, &mut turn.pass, witness);
    }
}
