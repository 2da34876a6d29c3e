//! The entries of a window, in order of first sending, and the identifiers that none of them has.
ghost use Rattle.std.specs.Prelude.{◌≡◌, ℕ, ◌+◌, ◌-◌, ◌<◌, ◌≤◌, [], ◌∷◌, ◌++◌, length, slice_get, nat_lt, ◌==◌, if◌then◌else◌, Some, Contains, MatchOption, IfOk};
ghost use Rattle.std.specs.List.{remove, position, HoldsAt};
ghost use Rattle.limits.specs.Limits.{most_unacknowledged};
ghost use Rattle.member_window.specs.Identifiers.{identifiers, IsLeastFree};
ghost use Rattle.member_window.specs.Calls.{lent_entry};

use crate::free::FreeIdentifiers;
use limits::MOST_UNACKNOWLEDGED;
use std::alloc::{AllocError, Global};
use std::collections::VecDeque;
use std::marker::Model;

/// Up to 256 items, in order of first sending, each under an identifier of its own; the first of them are owed.
#[derive(Drop)]
pub(crate) struct Entries<T> {
    // In order of first sending, with room for all from the start.
    held: VecDeque<(u16, T)>,
    // Which identifiers none of these has.
    free: FreeIdentifiers,
    // How many of these, from the oldest on, are owed.
    owed: usize,
}

impl<T> Model for Entries<T> {
    ghost use Rattle.std.specs.VecDeque.{deque_capacity};
    ghost use Rattle.member_window.specs.Order.{Held, held_code, IsOrder};

    ghost Value = { Held T };

    ghost coded = { held_code T.code };

    ghost view = { λ e. record { all = e.held.items; owed = e.owed } };

    ghost invariant = { λ e. IsOrder e.held.items e.free.words e.owed (deque_capacity e.held) };
}

impl<T> Entries<T> {
    ghost use Rattle.member_window.specs.Order.{Held};

    /// None. Takes the memory for 256.
    pub(crate) fn new(alloc: Global) -> Result<Entries<T>, AllocError>
        ensures { IfOk result (λ entries. (entries.all ≡ []) × (entries.owed ≡ 0)) }
    {
        Ok(Entries {
            held: VecDeque::with_capacity(alloc, MOST_UNACKNOWLEDGED)?,
            free: FreeIdentifiers::all(),
            owed: 0,
        })
    }

    /// How many there are.
    pub(crate) fn len(&self) -> usize
        ensures { result ≡ length self.now.all }
    {
        self.held.len()
    }

    /// How many of these are owed.
    pub(crate) fn owed(&self) -> usize
        ensures value { result ≡ self.now.owed }
        ensures within { result ≤ length self.now.all }
    {
        self.owed
    }

    /// The place of the entry with this identifier, if there is one.
    pub(crate) fn place_of(&self, identifier: u16) -> Option<usize>
        ensures { MatchOption result (¬ Contains (identifiers self.now.all) identifier)
            (λ place. (place < length self.now.all)
            × HoldsAt (λ entry. entry.0 ≡ identifier) self.now.all place) }
    {
        let (front, back) = self.held.as_slices();
        if let Some(place) = place_in(front, identifier) {
            return Some(place);
        }
        let place = place_in(back, identifier)?;
        Some(front.len() + place)
    }

    /// Puts an item after the others, which are all owed, under the least free identifier, and owes it.
    pub(crate) fn push(&mut self, item: T) -> u16
        requires few { length self.old.all < most_unacknowledged }
        requires owed { self.old.owed ≡ length self.old.all }
        ensures identifier { IsLeastFree (identifiers self.old.all) result }
        ensures all { self.new.all ≡ self.old.all ++ (result, item) ∷ [] }
        ensures owed { self.new.owed ≡ self.old.owed + 1 }
    {
        let identifier = self.free.least();
        self.held.push_back_reserved((identifier, item));
        self.free.take(identifier);
        self.owed += 1;
        identifier
    }

    /// Puts an item in front of the others, of which none is owed.
    pub(crate) fn push_front(&mut self, identifier: u16, item: T)
        requires few { length self.old.all < most_unacknowledged }
        requires owed { self.old.owed ≡ 0 }
        requires in_range { (1 ≤ identifier) × (identifier ≤ most_unacknowledged) }
        requires free { ¬ Contains (identifiers self.old.all) identifier }
        ensures all { self.new.all ≡ (identifier, item) ∷ self.old.all }
        ensures owed { self.new.owed ≡ self.old.owed }
    {
        self.held.push_front_reserved((identifier, item));
        self.free.take(identifier);
    }

    /// Takes the entry at this place out.
    pub(crate) fn remove(&mut self, place: usize) -> (u16, T)
        requires { place < length self.old.all }
        ensures value { slice_get self.old.all place ≡ Some result }
        ensures all { self.new.all ≡ remove self.old.all place }
        ensures owed { self.new.owed ≡ self.old.owed - (if nat_lt place self.old.owed then 1 else 0) }
    {
        let Some((identifier, item)) = self.held.remove(place) else {
            unreachable!()
        };
        self.free.give(identifier);
        self.owed -= usize::from(place < self.owed);
        (identifier, item)
    }

    /// A look at the entry at this place; `None` from the length on.
    pub(crate) fn get(&self, place: usize) -> Option<(u16, &T)>
        ensures { lent_entry result ≡ slice_get self.now.all place }
    {
        let (identifier, item) = self.held.get(place)?;
        Some((*identifier, item))
    }

    /// Owes the first of those that wait.
    pub(crate) fn owe_next(&mut self)
        requires { self.old.owed < length self.old.all }
        ensures { self.new ≡ record { all = self.old.all; owed = self.old.owed + 1 } }
    {
        self.owed += 1;
    }

    /// Lets all wait.
    pub(crate) fn wait(&mut self)
        ensures { self.new ≡ record { all = self.old.all; owed = 0 } }
    {
        self.owed = 0;
    }

    /// Ends it where there are none.
    pub(crate) fn destroy_empty(self)
        requires { self.all ≡ [] }
    {
        let Entries {
            held,
            free: _,
            owed: _,
        } = self;
        held.destroy_empty();
    }
}

/// The place of the first of these entries with this identifier, if there is one.
fn place_in<T>(entries: &[(u16, T)], identifier: u16) -> Option<usize>
    ensures { result ≡ position (λ entry. entry.0 == identifier) entries.now }
{
    entries.iter().position(|entry| entry.0 == identifier)
}
