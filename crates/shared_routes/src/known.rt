//! What a worker knows of the table.
ghost use Rattle.std.specs.Prelude.{◌≡◌, ◌<◌, ◌≤◌, ◌+◌, ◌∷◌, ◌++◌, [], true, false, bytes_eq, length, map, take, slice_get, position, All, Some, None, IfOk, IfSome, MatchOption, MatchResult};
ghost use Rattle.limits.specs.Limits.{most_groups};
ghost use Rattle.mqtt_topic.specs.Names.{Share as share_type};
ghost use Rattle.mqtt_topic.specs.Routes.{slot_of, routed, byte_of, sets_of, places_of};
ghost use Rattle.shared_routes.specs.Known.{AreFirst, Learns, Grows, PublishesTo, IsBoundBehind, BindAnswers, DeclareAnswers};

use crate::cell::KnownCell;
use crate::error::BindError;
use crate::new_shares::NewShares;
use crate::table::{MOST_ROUTES, SharedRoutes};
use mqtt_topic::{Share, Slots, TopicName};
use std::alloc::{AllocError, Global};
use std::marker::Model;

/// What a worker has seen of the table: the shares of the first slots. It only grows. Whoever binds a share knows it; what others bound, a worker
/// knows from its next [`KnownRoutes::refresh`] on, and so what it was told of.
///
/// Contracts see it as a `KnownState`.
#[derive(Drop)]
pub struct KnownRoutes<'a> {
    cells: Vec<KnownCell<'a>>,
    seen: Vec<&'a Share>,
    new_shares: NewShares,
}

impl<'a> Model for KnownRoutes<'a> {
    ghost use Rattle.std.specs.Prelude.{◌≡◌, ◌≤◌, length, map, vec_capacity};
    ghost use Rattle.limits.specs.Limits.{most_groups};
    ghost use Rattle.shared_routes.specs.Cells.{names_of, known_of};
    ghost use Rattle.shared_routes.specs.Known.{KnownState, AreFirst};

    ghost Value = { KnownState };

    ghost view = { λ known. record {
      table = record { cells = names_of known.cells.items; new_shares = known.new_shares };
      shares = map (λ share. share.now) known.seen.items;
      told = known_of known.cells.items;
    } };

    ghost invariant = { λ known. AreFirst (map (λ share. share.now) known.seen.items) (known_of known.cells.items)
        × (length known.cells.items ≡ most_groups) × (length known.seen.items ≤ most_groups) × (most_groups ≤ vec_capacity known.seen) };
}

impl<'a> KnownRoutes<'a> {
    /// Nothing is known of the table, and nothing was told.
    ///
    /// # Errors
    ///
    /// Lack of memory. Of the other calls only [`declare`](KnownRoutes::declare) and [`bind`](KnownRoutes::bind) take any.
    pub fn new(alloc: Global, routes: &'a SharedRoutes) -> Result<KnownRoutes<'a>, AllocError>
        ensures { IfOk result (λ known. known ≡ record { table = routes.now; shares = []; told = [] }) }
    {
        Ok(KnownRoutes {
            cells: routes.cells(alloc)?,
            seen: Vec::with_capacity(alloc, MOST_ROUTES)?,
            new_shares: routes.new_shares(),
        })
    }

    /// Learns what was bound since: all that it was told of, and what else it finds. It takes no memory.
    pub fn refresh(&mut self)
        ensures grows { Grows self.old self.new }
        ensures told { AreFirst self.old.told self.new.shares }
        ensures all { self.new.told ≡ self.new.shares }
    {
        if self.refresh_one() {
            self.refresh();
        }
    }

    /// Learns of the next slot, and says whether there was something to learn.
    fn refresh_one(&mut self) -> bool
        ensures grows { Grows self.old self.new }
        ensures more { result ≡ true → length self.new.shares ≡ length self.old.shares + 1 }
        ensures all { result ≡ false → self.new.told ≡ self.new.shares }
        ensures few { length self.new.shares ≤ most_groups }
    {
        if self.seen.len() == MOST_ROUTES {
            return false;
        }
        self.see_next().is_some()
    }

    /// Sees the share that stands in the next cell. It finds none only where it was told of none.
    fn see_next(&mut self) -> Option<&'a Share>
        requires { length self.old.shares < MOST_ROUTES }
        ensures { MatchOption result ((self.new ≡ self.old) × (self.old.told ≡ self.old.shares))
            (λ share. Learns self.old (share.now ∷ []) self.new × AreFirst self.new.shares self.new.told) }
    {
        let slot = self.seen.len();
        let share = self.cells[slot].look()?;
        self.seen.push_reserved(share);
        Some(share)
    }

    /// Tells another worker of all that this one knows: that knows it from its next [`refresh`](KnownRoutes::learn) on. It looks at no cell.
    pub fn publish(&mut self, other: &mut KnownRoutes<'_>)
        requires { other.old.table ≡ self.old.table }
        ensures same { self.new ≡ self.old }
        ensures told { PublishesTo other.old self.old.shares other.new }
    {
        self.publish_from(other, 0);
    }

    /// Tells another worker, which was told of the shares before this slot, of the others.
    fn publish_from(&mut self, other: &mut KnownRoutes<'_>, slot: usize)
        requires table { other.old.table ≡ self.old.table }
        requires told { AreFirst (take slot self.old.shares) other.old.told }
        ensures same { self.new ≡ self.old }
        ensures told { PublishesTo other.old self.old.shares other.new }
    {
        if slot < self.seen.len() {
            self.publish_one(other, slot);
            self.publish_from(other, slot + 1);
        }
    }

    /// Tells another worker, which was told of the shares before this slot, of that of the slot.
    fn publish_one(&mut self, other: &mut KnownRoutes<'_>, slot: usize)
        requires table { other.old.table ≡ self.old.table }
        requires told { AreFirst (take slot self.old.shares) other.old.told }
        requires known { slot < length self.old.shares }
        ensures same { self.new ≡ self.old }
        ensures told { PublishesTo other.old (take (slot + 1) self.old.shares) other.new }
    {
        self.cells[slot].publish(&mut other.cells[slot]);
    }

    /// The slot that the share is bound to, as far as is known.
    pub fn find(&self, share: &Share) -> Option<u8>
        ensures value { result ≡ slot_of share.now.text self.now.shares }
        ensures small { IfSome result (λ slot. slot < most_groups) }
    {
        let slot = place_of(self.seen.as_slice(), share.text())?;
        Some(slot as u8)
    }

    /// The bound slots whose filter matches the name, as far as is known. It takes no memory.
    pub fn matching(&self, name: &TopicName) -> Slots
        ensures value { result ≡ places_of 0 (routed name.now self.now.shares) }
        ensures small { All (λ slot. slot < most_groups) result }
    {
        Slots::from_byte(byte_of(self.seen.as_slice(), name))
    }

    /// The share that is bound to a slot, as far as is known.
    pub fn share(&self, slot: u8) -> Option<&'a Share>
        ensures { MatchOption result (slice_get self.now.shares slot ≡ None) (λ share. slice_get self.now.shares slot ≡ Some share.now) }
    {
        self.seen.get(usize::from(slot)).copied()
    }

    /// Binds a share that a client asks for: as [`declare`](KnownRoutes::declare), or, where the table refuses shares that nobody declared, only where it is known.
    ///
    /// # Errors
    ///
    /// 207 [`BindError::NotDeclared`]: the table refuses it, and nothing has changed. Else those of [`declare`](KnownRoutes::declare).
    pub fn bind(&mut self, alloc: Global, share: Share) -> Result<u8, BindError>
        ensures answer { BindAnswers self.old.table.new_shares self.old share result self.new }
        ensures grows { Grows self.old self.new }
        ensures small { IfOk result (λ slot. slot < most_groups) }
    {
        match self.new_shares {
            NewShares::Bound => self.declare(alloc, share),
            NewShares::Refused => self.find(&share).ok_or(BindError::NotDeclared),
        }
    }

    /// Binds the share: the slot that it is bound to already, or the least free one. Of two workers that bind it at once the one is given the slot
    /// that the other bound. It never waits. For a share that is not known it takes the memory of a box.
    ///
    /// # Errors
    ///
    /// 205 [`BindError::NoSlot`]: all eight slots are bound to other shares. 206 [`BindError::Memory`]: nothing has changed.
    pub fn declare(&mut self, alloc: Global, share: Share) -> Result<u8, BindError>
        ensures answer { DeclareAnswers self.old share result self.new }
        ensures grows { Grows self.old self.new }
        ensures small { IfOk result (λ slot. slot < most_groups) }
    {
        if let Some(slot) = self.find(&share) {
            return Ok(slot);
        }
        let share = Box::new(alloc, share)?;
        self.bind_behind(share).ok_or(BindError::NoSlot)
    }

    /// Binds a share that is not known.
    fn bind_behind(&mut self, share: Box<Share>) -> Option<u8>
        requires { slot_of share.value.text self.old.shares ≡ None }
        ensures answer { IsBoundBehind self.old share.value result self.new }
        ensures grows { Grows self.old self.new }
        ensures small { IfSome result (λ slot. slot < most_groups) }
    {
        let slot = self.seen.len();
        if slot == MOST_ROUTES {
            return None;
        }
        match self.write(share) {
            None => Some(slot as u8),
            Some(share) => self.bind_behind(share),
        }
    }

    /// Binds the share to the next slot, unless another share is bound to that: then it comes back. What stands there is known then.
    fn write(&mut self, share: Box<Share>) -> Option<Box<Share>>
        requires room { length self.old.shares < MOST_ROUTES }
        ensures { (bound : share_type) × Learns self.old (bound ∷ []) self.new
            × MatchOption result (bound.text ≡ share.value.text) (λ back. (back.value ≡ share.value) × (bytes_eq bound.text share.value.text ≡ false)) }
    {
        let offered = self.offer(share);
        let Some(bound) = self.see_next() else {
            unreachable!()
        };
        let share = offered?;
        if bound.text() == share.text() {
            return None;
        }
        Some(share)
    }

    /// Writes the share to the next cell, unless a share stands there: then it comes back. The worker has not seen what stands there, but was told of it.
    fn offer(&mut self, share: Box<Share>) -> Option<Box<Share>>
        requires room { length self.old.shares < MOST_ROUTES }
        ensures { (bound : share_type) × PublishesTo self.old (self.old.shares ++ bound ∷ []) self.new
            × MatchOption result (bound ≡ share.value) (λ back. back.value ≡ share.value) }
    {
        let slot = self.seen.len();
        self.cells[slot].write(share)
    }
}

/// Where the share of that text stands.
fn place_of(seen: &[&Share], text: &[u8]) -> Option<usize>
    ensures { result ≡ position (λ one. bytes_eq one.now.text text.now) seen.now }
{
    seen.iter().position(|one| one.text() == text)
}

/// The set of the slots whose share's filter matches the name, as a byte.
fn byte_of(seen: &[&Share], name: &TopicName) -> u8
    requires { length seen.now ≤ most_groups }
    ensures value { result ≡ byte_of (routed name.now (map (λ share. share.now) seen.now)) }
    ensures bound { result < sets_of (length seen.now) }
{
    match seen {
        [] => 0,
        [one, others @ ..] => u8::from(one.matches(name)) + 2 * byte_of(others, name),
    }
}
