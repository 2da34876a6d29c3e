//! A cell of the table, as a worker knows it.
ghost use Rattle.std.specs.Prelude.{◌≡◌, None, Some, IfSome, MatchOption};
ghost use Rattle.once_cell.specs.Once.{cell_name, Agrees};
ghost use Rattle.mqtt_topic.specs.Names.{Share as share_type};
ghost use Rattle.shared_routes.specs.Cells.{unknown};

use mqtt_topic::Share;
use once_cell::race::{Note, OnceBox};
use std::marker::Model;

/// A cell, and what a worker knows of it: nothing, or the share that stands in it.
#[derive(Drop)]
pub(crate) struct KnownCell<'a> {
    cell: &'a OnceBox<Share>,
    note: Note<Share>,
}

impl<'a> Model for KnownCell<'a> {
    ghost use Rattle.std.specs.Prelude.{◌≡◌};
    ghost use Rattle.once_cell.specs.Once.{cell_name};
    ghost use Rattle.shared_routes.specs.Cells.{CellState};

    ghost Value = { CellState };

    ghost view = { λ known. record { name = cell_name known.cell.now; share = known.note.known } };

    ghost invariant = { λ known. known.note.cell ≡ cell_name known.cell.now };
}

impl<'a> KnownCell<'a> {
    /// Nothing is known of the cell.
    pub(crate) fn of(cell: &'a OnceBox<Share>) -> KnownCell<'a>
        ensures { result ≡ unknown (cell_name cell.now) }
    {
        KnownCell {
            cell,
            note: cell.note(),
        }
    }

    /// The share that stands in the cell. One that is known is always found.
    pub(crate) fn look(&mut self) -> Option<&'a Share>
        ensures { MatchOption result ((self.old.share ≡ None) × (self.new ≡ self.old))
            (λ share. (self.new ≡ record self.old { share = Some share.now }) × Agrees self.old.share share.now) }
    {
        self.cell.get_as(&mut self.note)
    }

    /// Writes the share into the cell, unless another stands there: then it comes back. What stands there is known then.
    pub(crate) fn write(&mut self, share: Box<Share>) -> Option<Box<Share>>
        ensures { (bound : share_type) × (self.new ≡ record self.old { share = Some bound }) × Agrees self.old.share bound
            × MatchOption result (bound ≡ share.value) (λ back. back.value ≡ share.value) }
    {
        self.cell.set_as(share, &mut self.note).err()
    }

    /// Tells another worker of the share.
    pub(crate) fn publish(&mut self, other: &mut KnownCell<'_>)
        requires { other.old.name ≡ self.old.name }
        ensures same { self.new ≡ self.old }
        ensures told { other.new ≡ self.old }
        ensures agreed { IfSome self.old.share (Agrees other.old.share) }
    {
        other.note.compare(self.note.again());
        other.note = self.note.again();
    }
}
