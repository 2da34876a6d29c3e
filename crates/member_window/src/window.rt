//! The window of a session.
ghost use Rattle.std.specs.Prelude.{◌≡◌, ◌↔◌, ℕ, false, [], length, IfOk, IfSome, IsSome, IsTrue, MatchBool, MatchOption, slice_get};

use crate::entries::Entries;
use crate::error::WindowError;
use limits::MOST_UNACKNOWLEDGED;
use std::alloc::Global;
use std::marker::Model;

/// What one session was sent with QoS 1 and has not acknowledged: up to [`MOST_UNACKNOWLEDGED`] items, in
/// order of first sending, each under a packet identifier of its own from 1 to 256. That is also the
/// greatest quota.
///
/// Contracts see a window as `Contents`: the entries that are *owed*, which were sent on this
/// connection; those that *wait*, which were sent on an earlier one and are sent again first; the
/// *quota*, how many may be owed at once, or none while no connection is up; and whether the
/// session is ending.
///
/// A window whose items can't be dropped can't be dropped either: [`Window::end`] ends an empty one.
#[derive(Drop)]
pub struct Window<T> {
    // What is held, in order of first sending. Resends go oldest first, and a fresh item is sent only when none waits,
    // so those that were sent on this connection are always the first.
    entries: Entries<T>,
    // How many may be owed at once, while a connection is up.
    quota: Option<usize>,
    // The session is ending.
    retired: bool,
}

impl<T> Model for Window<T> {
    ghost use Rattle.member_window.specs.Contents.{Contents};
    ghost use Rattle.member_window.specs.Layout.{contents_code, contents_of, IsKept};

    ghost Value = { Contents T };

    ghost coded = { contents_code T.code };

    ghost view = { λ w. contents_of w.entries.all w.entries.owed w.quota w.retired };

    ghost invariant = { λ w. IsKept w.entries.all w.entries.owed w.quota w.retired };
}

impl<T> Window<T> {
    ghost use Rattle.std.specs.Borrow.{sem};
    ghost use Rattle.member_window.specs.contracts.window.Window.{the_row};
    ghost use Rattle.member_window.specs.Contents.{new_contents, held_of, HasQuota, HasRoom, IsDown, IsNextResend, IsSound, after_up, after_down, after_resend, after_restore};
    ghost use Rattle.member_window.specs.Calls.{Puts, Acks, Takes, MayRestore, lent_entry};
    ghost use Rattle.member_window.specs.Loan.{EndsAs};

    /// An empty window of a new session, while no connection is up. Takes the memory for
    /// [`MOST_UNACKNOWLEDGED`] items.
    ///
    /// # Errors
    ///
    /// 602 [`WindowError::Memory`] where there is none.
    pub fn new(alloc: Global) -> Result<Window<T>, WindowError>
        ensures { IfOk result (λ window. window ≡ new_contents) }
    {
        let Ok(entries) = Entries::new(alloc) else {
            return Err(WindowError::Memory);
        };
        Ok(Window {
            entries,
            quota: None,
            retired: false,
        })
    }

    /// A connection begins, with the Receive Maximum of its CONNECT (3.1.2.11.3): 65,535 where that
    /// has none. The quota is that number, cut to 256; nothing is owed, and every item waits to be
    /// sent again (4.4, 4.9). A connection that is still up ends with this.
    ///
    /// The session may not be ending: [`Window::retired`] tells.
    pub fn up(&mut self, receive_maximum: u16)
        requires { self.old.retired ≡ false }
        ensures begun { self.new ≡ after_up self.old receive_maximum }
        ensures sound { IsSound self.old }
    {
        self.quota = Some(usize::from(receive_maximum).min(MOST_UNACKNOWLEDGED));
        self.entries.wait(); // every item waits again
    }

    /// The connection ends. Nothing is owed, every item waits, and there is no quota. Where no
    /// connection is up this changes nothing.
    pub fn down(&mut self)
        ensures { self.new ≡ after_down self.old }
    {
        self.quota = None;
        self.entries.wait(); // nothing is owed without a connection
    }

    /// Whether a fresh item may be sent: a connection is up, no item waits, and fewer items are owed
    /// than the quota (4.4, 4.9).
    pub fn room(&self) -> bool
        ensures { IsTrue result ↔ HasRoom self.now }
    {
        self.has_quota() && self.entries.owed() == self.entries.len()
    }

    /// A fresh item is sent, with DUP 0, under the packet identifier that is given: the least from 1
    /// that no item has (2.2.1, profile).
    ///
    /// # Errors
    ///
    /// 601: there is no room. The item is handed back, and nothing has changed. This comes exactly
    /// where [`Window::room`] is false.
    pub fn put(&mut self, item: T) -> Result<u16, T>
        ensures { Puts self.old item result self.new }
    {
        if !self.room() {
            return Err(item);
        }
        Ok(self.entries.push(item))
    }

    /// The first waiting item is sent again, with DUP 1, under its own packet identifier, and is
    /// owed from then on (3.3.1.1, 4.4). `None` where no connection is up, nothing waits or the quota
    /// is used up; nothing has changed then.
    pub fn next_resend(&mut self) -> Option<(u16, &T)>
        ensures next { IsNextResend self.old (lent_entry result) }
        ensures* leaves { sem 𝓛 (EndsAs (the_row T.row) self.entry (after_resend self.old (lent_entry result))) }
    {
        let place = self.owe_next()?;
        self.get(place)
    }

    /// A PUBACK with this packet identifier is taken, whatever its reason code (3.4). The item is
    /// taken out, and is no longer owed if it was. `None` where no item has the identifier; nothing
    /// has changed then.
    ///
    /// The session may not be ending: [`Window::retired`] tells.
    pub fn ack(&mut self, identifier: u16) -> Option<T>
        requires { self.old.retired ≡ false }
        ensures acked { Acks self.old identifier result self.new }
        ensures sound { IsSound self.old }
    {
        let place = self.entries.place_of(identifier)?;
        let (_, item) = self.entries.remove(place);
        Some(item)
    }

    /// Takes the oldest item out, with its packet identifier; `None` where nothing is held. The
    /// session is ending from then on, whatever the answer: no [`Window::up`] and no [`Window::ack`]
    /// may follow.
    ///
    /// No connection may be up: [`Window::is_up`] tells.
    pub fn take_first(&mut self) -> Option<(u16, T)>
        requires { IsDown self.old }
        ensures taken { Takes self.old result self.new }
        ensures restorable { IfSome result (λ entry. MayRestore self.new entry.0) }
    {
        self.retired = true;
        if self.entries.len() == 0 {
            return None;
        }
        Some(self.entries.remove(0))
    }

    /// Puts an item back in front of the others.
    ///
    /// The session is ending, fewer than 256 items are held, and the identifier is one from 1 to 256
    /// that none of them has: so it is for what [`Window::take_first`] has just given.
    pub fn restore(&mut self, identifier: u16, item: T)
        requires { MayRestore self.old identifier }
        ensures { self.new ≡ after_restore self.old identifier item }
    {
        self.entries.push_front(identifier, item);
    }

    /// Whether the session is ending: [`Window::take_first`] was called. No connection is up then.
    pub fn retired(&self) -> bool
        ensures value { result ≡ self.now.retired }
        ensures down { IsTrue result → IsDown self.now }
    {
        self.retired
    }

    /// Whether a connection is up.
    pub fn is_up(&self) -> bool
        ensures { MatchBool result (IsSome self.now.quota) (IsDown self.now) }
    {
        self.quota.is_some()
    }

    /// How many items are held: 256 at most.
    pub fn len(&self) -> usize
        ensures value { result ≡ length (held_of self.now) }
        ensures sound { IsSound self.now }
    {
        self.entries.len()
    }

    /// Whether nothing is held.
    pub fn is_empty(&self) -> bool
        ensures { IsTrue result ↔ (held_of self.now ≡ []) }
    {
        self.entries.len() == 0
    }

    /// A look at the item at this place in order of first sending, from 0, with its packet
    /// identifier; `None` from [`Window::len`] on.
    pub fn get(&self, place: usize) -> Option<(u16, &T)>
        ensures { lent_entry result ≡ slice_get (held_of self.now) place }
    {
        self.entries.get(place)
    }

    /// Ends a window that holds nothing, as [`Window::is_empty`] tells.
    pub fn end(self)
        requires { held_of self ≡ [] }
    {
        let Window {
            entries,
            quota: _,
            retired: _,
        } = self;
        entries.destroy_empty();
    }

    /// Whether the quota lets one more item be owed.
    fn has_quota(&self) -> bool
        ensures { IsTrue result ↔ HasQuota self.now }
    {
        let owed = self.entries.owed();
        self.quota.is_some_and(|quota| owed < quota)
    }

    /// Owes the first waiting item, and gives its place.
    fn owe_next(&mut self) -> Option<usize>
        ensures { MatchOption result (IsNextResend self.old None × (self.new ≡ self.old))
            (λ place. (entry : ℕ × T) × IsNextResend self.old (Some entry)
            × (self.new ≡ after_resend self.old (Some entry))
            × (slice_get (held_of self.new) place ≡ Some entry)) }
    {
        let place = self.entries.owed();
        if !self.has_quota() || place == self.entries.len() {
            return None;
        }
        self.entries.owe_next();
        Some(place)
    }
}
