//! Places of the groups.

use conn_supply::HoldingPlace;
use session_desk::Place;
use std::marker::Model;

/// A place in one of the eight groups, each of which has 32. There is one of each, which is free or a member's: so it can be
/// neither copied nor made by anybody but the supply.
///
/// Contracts see it as a `GroupPlace`.
#[derive(Debug, Drop)]
pub struct LocalPlace {
    slot: u8,
    number: u8,
}

impl Model for LocalPlace {
    ghost use Rattle.std.specs.Prelude.{◌<◌};
    ghost use Rattle.limits.specs.Limits.{most_groups, most_members};
    ghost use Rattle.local_broker.specs.Places.{GroupPlace};

    ghost Value = { GroupPlace };

    ghost view = { λ p. record { slot = p.slot; number = p.number } };

    ghost invariant = { λ p. (p.slot < most_groups) × (p.number < most_members) };
}

impl LocalPlace {
    ghost use Rattle.std.specs.Prelude.{◌≡◌};
    ghost use Rattle.local_broker.specs.Places.{place_at};

    /// The place in this cell: 32 cells of each group, one group after the other.
    pub(crate) fn at(cell: u8) -> LocalPlace
        ensures { result ≡ place_at cell }
    {
        LocalPlace {
            slot: cell / 32,
            number: cell % 32,
        }
    }
}

impl Place for LocalPlace {
    ghost slot_of = { λ p. p.slot };

    ghost number_of = { λ p. p.number };

    fn slot(&self) -> u8 {
        self.slot
    }

    fn number(&self) -> u8 {
        self.number
    }
}

impl HoldingPlace for LocalPlace {
    ghost use Rattle.local_broker.specs.Places.{has_out};

    ghost has_out = { has_out };
}
