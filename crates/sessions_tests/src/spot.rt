//! Places for tests.
use conn_supply::HoldingPlace;
use session_desk::Place;

/// One of two places of the group with slot 3, which keep no account of what is out at them.
#[derive(Clone, Copy, Debug, PartialEq, Eq)]
pub enum Spot {
    First,
    Second,
}

impl Place for Spot {
    ghost use Rattle.sessions_tests.specs.Spots.{number_of_spot};

    ghost slot_of = { λ _. 3 };

    ghost number_of = { number_of_spot };

    fn slot(&self) -> u8 {
        3
    }

    fn number(&self) -> u8 {
        match self {
            Spot::First => 0,
            Spot::Second => 1,
        }
    }
}

impl HoldingPlace for Spot {
    ghost use Rattle.sessions_tests.specs.Spots.{any_out};

    ghost has_out = { any_out };
}
