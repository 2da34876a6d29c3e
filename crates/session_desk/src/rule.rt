//! A rule of what a desk has.
ghost use Rattle.std.specs.Prelude.{◌≡◌, ℕ, []};
ghost use Rattle.member_window.specs.Contents.{held_of};
ghost use Rattle.session_desk.specs.Books.{new_session};
ghost use Rattle.session_desk.specs.Everywhere.{IfMember};
ghost use Rattle.session_desk.specs.Keeping.{parked_at};
ghost use Rattle.session_desk.specs.Sessions.{Who};
ghost use Rattle.session_desk.specs.declared.session.Session.{Session};

/// A property of sessions and one of free places, for [`laws::everywhere_law`](crate::laws::everywhere_law): as that what a session holds
/// is out at its place, and that nothing is out at a free one. It has no method, and says nothing at run time.
pub trait Rule<E, P> {
    /// The property of sessions.
    ghost holds: { Session E P → Type 0 };

    /// The property of free places.
    ghost fits: { P → Type 0 };

    /// A new session has it.
    ghost begins: { (who : Who) → holds (new_session who) };

    /// It does not look at the moment at which a session was parked.
    ghost timeless: { (session : Session E P) (now : ℕ) → holds session → holds (parked_at session now) };

    /// Once such a session holds nothing, its place, if it has one, may be free.
    ghost frees: { (session : Session E P) → holds session → held_of session.window ≡ [] → IfMember fits session.membership };
}
