//! The cells of the table.
ghost use Rattle.std.specs.Prelude.{◌≡◌, length, map, IfOk};
ghost use Rattle.limits.specs.Limits.{most_groups};
ghost use Rattle.shared_routes.specs.Cells.{unknown};

use crate::cell::KnownCell;
use crate::new_shares::NewShares;
use limits::MOST_GROUPS;
use mqtt_topic::Share;
use once_cell::race::OnceBox;
use std::alloc::{AllocError, Global};
use std::marker::Model;

/// The most shares that are bound.
pub(crate) const MOST_ROUTES: usize = MOST_GROUPS as usize;

/// Up to eight shares, each bound to a slot from 0 to 7 for good, which threads share by reference.
///
/// Contracts see it as a `RoutesId`: the names of its eight cells, which no other table has, and what it does with a share that nobody declared.
#[derive(Drop)]
pub struct SharedRoutes {
    cells: [OnceBox<Share>; MOST_ROUTES],
    new_shares: NewShares,
}

impl Model for SharedRoutes {
    ghost use Rattle.std.specs.Prelude.{map};
    ghost use Rattle.once_cell.specs.Once.{cell_name};
    ghost use Rattle.shared_routes.specs.Cells.{RoutesId};

    ghost Value = { RoutesId };

    ghost view = { λ routes. record { cells = map (λ cell. cell_name cell) routes.cells; new_shares = routes.new_shares } };
}

impl SharedRoutes {
    /// A table in which nothing is bound, and which does this with a share that nobody declared. It takes no memory; each share that is bound takes a box of it.
    pub fn new(alloc: Global, new_shares: NewShares) -> SharedRoutes
        ensures { result.new_shares ≡ new_shares }
    {
        SharedRoutes {
            new_shares,
            cells: [
                OnceBox::new(alloc),
                OnceBox::new(alloc),
                OnceBox::new(alloc),
                OnceBox::new(alloc),
                OnceBox::new(alloc),
                OnceBox::new(alloc),
                OnceBox::new(alloc),
                OnceBox::new(alloc),
            ],
        }
    }

    /// What it does with a share that nobody declared.
    pub(crate) fn new_shares(&self) -> NewShares
        ensures { result ≡ self.now.new_shares }
    {
        self.new_shares
    }

    /// Its eight cells, to a worker that knows nothing of them.
    pub(crate) fn cells(&self, alloc: Global) -> Result<Vec<KnownCell<'_>>, AllocError>
        ensures unknown { IfOk result (λ cells. cells.items ≡ map unknown self.now.cells) }
        ensures eight { IfOk result (λ cells. length cells.items ≡ most_groups) }
    {
        self.cells
            .iter()
            .map(|cell| KnownCell::of(cell))
            .collect(alloc)
    }
}
