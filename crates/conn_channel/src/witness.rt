//! What a call saw of the channel: a part of its rule of which a call that receives knows nothing.
//!
//! A channel may be opened with a witness. An end that receives knows of it only that what it saw still holds when this end receives something. So where
//! an end answers that the channel was empty, as the witness saw it, it has looked: it might have seen nothing of the kind. A channel that is opened with
//! no witness has [`Nobody`].

/// What was seen of the channel, and of what each pass knew, for contracts alone.
pub trait Witness<T> {
    ghost use Rattle.std.specs.Prelude.{List};
    ghost use Rattle.conn_channel.specs.declared.sent.Sent.{Sent};
    ghost use Rattle.conn_channel.specs.declared.view.PassView.{PassView};

    /// It saw this in the channel, when the passes knew this.
    ghost saw: { List (Sent T) → List (PassView T) → Type 0 };
}

/// A witness that follows each step of each pass, from the opening on. What opens a channel, sends and settles knows that of it, and what receives
/// does not.
pub trait LawfulWitness<T>: Witness<T> {
    ghost use Rattle.conn_channel.specs.Witnesses.{FollowsAll};

    ghost follows: { FollowsAll Self.saw };
}

/// No witness: whatever is in the channel counts as seen.
pub struct Nobody;

impl<T> Witness<T> for Nobody {
    ghost use Rattle.std.specs.Prelude.{⊤};

    ghost saw = { λ items views. ⊤ };
}

impl<T> LawfulWitness<T> for Nobody {
    ghost use Rattle.conn_channel.specs.Witnesses.{any_witness};

    ghost follows = { any_witness };
}
