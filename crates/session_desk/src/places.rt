//! The free places of the groups.
ghost use Rattle.std.specs.Prelude.{◌≡◌, ℕ, ◌+◌, ◌<◌, ◌≤◌, ◌↔◌, sum_by, vec_capacity, IfOk, IfSome, IsTrue, MatchOption, None, Some, length, slice_get, slice_set, replicate};
ghost use Rattle.limits.specs.Limits.{most_groups, most_members};
ghost use Rattle.session_desk.specs.Everything.{free_in};
ghost use Rattle.session_desk.specs.Places.{cell_at, IsLeast, IsOfSlot, NoneFree, LendsPlace, TakesPlace};

use crate::drained::drain_cells;
use crate::session::Membership;
use limits::{MOST_GROUPS, MOST_MEMBERS};
use std::alloc::{AllocError, Global};
use std::marker::Model;

/// How many cells there are, one for each place of each group.
pub(crate) const CELLS: usize = MOST_GROUPS as usize * MOST_MEMBERS as usize;

/// A place of a member in a group, which tells its group's slot and its own number.
pub trait Place {
    /// The slot of its group.
    ghost slot_of: { Self → ℕ };

    /// Its number in the group.
    ghost number_of: { Self → ℕ };

    /// The slot of its group, below [`MOST_GROUPS`].
    fn slot(&self) -> u8
        ensures value { result ≡ slot_of self.now }
        ensures small { result < most_groups };

    /// Its number in the group, below [`MOST_MEMBERS`].
    fn number(&self) -> u8
        ensures value { result ≡ number_of self.now }
        ensures small { result < most_members };
}

/// The places that nobody has, each in the cell of its own slot and number.
pub(crate) struct FreePlaces<P: Place> {
    // The place of slot s with number n, where it is free, is at 32 s + n.
    cells: Vec<Option<P>>,
}

impl<P: Place> Model for FreePlaces<P> {
    ghost use Rattle.std.specs.Prelude.{◌≡◌, List, Option, length};
    ghost use Rattle.std.specs.Coded.{coded_list, coded_option};
    ghost use Rattle.session_desk.specs.Places.{LieInOwnCells};

    ghost Value = { List (Option P) };

    ghost coded = { coded_list (coded_option P.code) };

    ghost view = { λ f. f.cells.items };

    ghost invariant = { λ f. (length f.cells.items ≡ 256) × LieInOwnCells P.slot_of P.number_of f.cells.items };
}

impl<P: Place> FreePlaces<P> {
    /// None is free.
    pub(crate) fn new(alloc: Global) -> Result<FreePlaces<P>, AllocError>
        ensures { IfOk result (λ free. free ≡ replicate 256 None) }
    {
        let mut cells = Vec::with_capacity(alloc, CELLS)?;
        'cells: for _ in 0..CELLS {
            cells.push_reserved(None);
        }
        Ok(FreePlaces { cells })
    }

    /// Takes the free places out, and ends the cells.
    pub(crate) fn drain(self, places: &mut Vec<P>)
        requires { length places.old.items + 256 ≤ vec_capacity places.old }
        ensures { (measure : P → ℕ) → sum_by measure places.new.items
            ≡ sum_by measure places.old.items + sum_by (λ cell. sum_by measure (free_in cell)) self }
    {
        let FreePlaces { cells } = self;
        drain_cells(cells, places);
    }

    /// Lends the least free place of the group with this slot.
    pub(crate) fn lend(&mut self, slot: u8) -> Option<P>
        ensures lends { LendsPlace self.old slot result self.new }
        ensures own { IfSome result (IsOfSlot P.slot_of P.number_of slot) }
    {
        let cell = self.least(slot)?;
        self.cells[cell].take()
    }

    /// The cell of the least free place of the group with this slot.
    fn least(&self, slot: u8) -> Option<usize>
        ensures { MatchOption result (NoneFree self.now slot) (IsLeast self.now slot) }
    {
        'numbers: for number in 0..MOST_MEMBERS {
            let cell = cell_of(slot, number);
            if let Some(Some(_)) = self.cells.get(cell) {
                return Some(cell);
            }
        }
        None
    }
}

/// The cell of the place with this number, of the group with this slot.
fn cell_of(slot: u8, number: u8) -> usize
    ensures { result ≡ cell_at slot number }
{
    usize::from(MOST_MEMBERS) * usize::from(slot) + usize::from(number)
}

impl<P: Place> FreePlaces<P> {
    ghost use Rattle.session_desk.specs.Keeping.{HasCell, freed};

    /// Whether a place's cell is empty.
    pub(crate) fn lacks(&self, place: &P) -> bool
        ensures value { IsTrue result
            ↔ (slice_get self.now (cell_at (P.slot_of place.now) (P.number_of place.now)) ≡ Some None) }
        ensures within { cell_at (P.slot_of place.now) (P.number_of place.now) < length self.now }
    {
        self.cells[cell_of(place.slot(), place.number())].is_none()
    }

    /// Frees a place; hands it back where its cell is taken.
    pub(crate) fn take(&mut self, place: P) -> Option<P>
        ensures { TakesPlace self.old (cell_at (P.slot_of place) (P.number_of place)) place result self.new }
    {
        if !self.lacks(&place) {
            return Some(place);
        }
        let cell = cell_of(place.slot(), place.number());
        self.cells[cell].replace(place)
    }

    /// Whether the cell of a member's place is empty.
    pub(crate) fn has_cell(&self, membership: &Membership<P>) -> bool
        ensures { IsTrue result
            ↔ HasCell (λ place. cell_at (P.slot_of place) (P.number_of place)) self.now membership.now }
    {
        match membership {
            Membership::NotMember => true,
            Membership::Member(place) => self.lacks(place),
            Membership::Leaving(place) => self.lacks(place),
        }
    }

    /// Frees a member's place.
    pub(crate) fn take_back(&mut self, membership: Membership<P>)
        requires { HasCell (λ place. cell_at (P.slot_of place) (P.number_of place)) self.old membership }
        ensures { self.new
            ≡ freed (λ place. cell_at (P.slot_of place) (P.number_of place)) self.old membership }
    {
        match membership {
            Membership::NotMember => {}
            Membership::Member(place) => self.put(place),
            Membership::Leaving(place) => self.put(place),
        }
    }

    /// Frees a place whose cell is empty.
    fn put(&mut self, place: P)
        requires { slice_get self.old (cell_at (P.slot_of place) (P.number_of place)) ≡ Some None }
        ensures { self.new
            ≡ slice_set self.old (cell_at (P.slot_of place) (P.number_of place)) (Some place) }
    {
        match self.take(place) {
            None => {}
            Some(_back) => unreachable!(),
        }
    }
}

impl<P: Place + Drop> FreePlaces<P> {
    /// Lets go of the free places, and ends the cells.
    pub(crate) fn abandon(self) {
        let FreePlaces { cells: _ } = self;
    }
}
