//! A history, its keeper, and those who call.
ghost use Rattle.std.specs.Prelude.{◌≡◌, ◌<◌, ◌-◌, ◌++◌, ◌⊎◌, [], length, IfOk};
ghost use mathlib.Core.List.{IsPrefix};
ghost use Rattle.call_history.specs.Callers.{all_parts, calling, first_caller, joined, new_caller};
ghost use Rattle.call_history.specs.Numbers.{IsEachOnce};

use crate::names::{Entries, HistoryName};
use crate::word;
use crate::word::{Pass, Word};
use std::alloc::Global;
use std::marker::{Model, PhantomData};
use thiserror::Error;

/// Why a history was not opened.
#[derive(Clone, Copy, Debug, PartialEq, Eq, Error)]
pub enum HistoryError {
    /// There is no memory for its word.
    #[error("no memory for a history")]
    Memory,
}

/// An empty history, which has no name yet. Contracts see it as its table.
#[derive(Drop)]
pub struct OpenedHistory<E> {
    word: Word<E>,
    pass: Pass<E>,
}

impl<E> Model for OpenedHistory<E> {
    ghost use Rattle.std.specs.Prelude.{◌≡◌, []};
    ghost use Rattle.atomic_table.specs.Seated.{TableId};
    ghost use Rattle.call_history.specs.Rule.{IsPassOf, first};

    ghost Value = { TableId };

    ghost view = { λ o. o.word.shared.table_id };

    ghost invariant = { λ o. IsPassOf o.word.shared.table_id o.pass.table_id × (o.pass.me ≡ (first, [])) };
}

impl<E> OpenedHistory<E> {
    /// An empty history. Takes the memory for its word; no other call takes any.
    ///
    /// # Errors
    ///
    /// [`HistoryError::Memory`] where there is none.
    pub fn open(alloc: Global) -> Result<OpenedHistory<E>, HistoryError> {
        let (word, pass) = Word::of_words(alloc, &[0], &()).map_err(|_| HistoryError::Memory)?;
        Ok(OpenedHistory { word, pass })
    }

    /// The history under a name, with its keeper, and the caller that has the whole right to call.
    pub fn name<N: HistoryName>(self) -> (CallHistory<E, N>, Keeper<E, N>, Caller<E, N>)
        requires { self ≡ N.history }
        ensures keeper { result.1 ≡ [] }
        ensures caller { result.2 ≡ first_caller }
    {
        let OpenedHistory { word, mut pass } = self;
        let right = word::give(&word, &mut pass);
        (
            CallHistory {
                word,
                of: PhantomData,
            },
            Keeper {
                pass,
                of: PhantomData,
            },
            Caller {
                pass: right,
                of: PhantomData,
            },
        )
    }
}

/// A history, which threads share by reference. Contracts see it as its table.
#[derive(Drop)]
pub struct CallHistory<E, N: HistoryName> {
    word: Word<E>,
    of: PhantomData<N>,
}

impl<E, N: HistoryName> Model for CallHistory<E, N> {
    ghost use Rattle.std.specs.Prelude.{◌≡◌};
    ghost use Rattle.atomic_table.specs.Seated.{TableId};

    ghost Value = { TableId };

    ghost view = { λ h. h.word.shared.table_id };

    ghost invariant = { λ h. (h.word.shared.table_id ≡ N.history) × (h.word.shared.table_id.words ≡ 1) };
}

/// Who writes a history, and knows all of it. Contracts see it as the history, in the order of its calls.
#[derive(Drop)]
pub struct Keeper<E, N: HistoryName> {
    pass: Pass<E>,
    of: PhantomData<N>,
}

impl<E, N: HistoryName> Model for Keeper<E, N> {
    ghost use Rattle.std.specs.Prelude.{◌≡◌, List, []};
    ghost use Rattle.call_history.specs.Rule.{keeper};

    ghost Value = { List E };

    ghost view = { λ k. k.pass.me.0.calls };

    ghost invariant = { λ k. (k.pass.table_id ≡ N.history) × (k.pass.me ≡ (keeper k.pass.me.0.calls, [])) };
}

/// Who calls: it knows a beginning of the history, and which of its calls are its own; each call is one caller's own. It may go to another thread: it is `Send`, and not
/// `Sync`.
///
/// There are 128 parts of the right to call, and each caller has one at least. Who has them all has made, or taken over, each call that there was.
#[derive(Drop)]
pub struct Caller<E, N: HistoryName> {
    pass: Pass<E>,
    of: PhantomData<N>,
}

impl<E, N: HistoryName> Model for Caller<E, N> {
    ghost use Rattle.std.specs.Prelude.{◌≡◌, ◌<◌, []};
    ghost use Rattle.call_history.specs.Callers.{CallerState};
    ghost use Rattle.call_history.specs.Rule.{caller, caller_of};

    ghost Value = { CallerState E };

    ghost view = { λ c. caller_of c.pass.me.0 };

    ghost invariant = { λ c. (c.pass.table_id ≡ N.history) × (c.pass.me ≡ (caller (caller_of c.pass.me.0), [])) × (0 < c.pass.me.0.parts) };
}

impl<E, N: HistoryName> Keeper<E, N> {
    /// Adds to the history what a caller did, and lets it know all of it: what it knew was a beginning of what the history was before. Where it has the whole right to call, all calls
    /// before were its own.
    pub fn add<J: Entries<E>>(&mut self, history: &CallHistory<E, N>, caller: &mut Caller<E, N>)
        ensures added { self.new ≡ self.old ++ J.added }
        ensures told { caller.new ≡ calling caller.old self.old J.added }
        ensures before { IsPrefix caller.old.calls self.old }
        ensures once { caller.old.parts ≡ all_parts → IsEachOnce caller.old.own (length self.old) }
    {
        let right = word::give(&history.word, &mut caller.pass);
        word::show(&history.word, &mut self.pass, right);
        word::add::<E, J>(&history.word, &mut self.pass);
        caller.pass = word::give(&history.word, &mut self.pass);
    }
}

impl<E, N: HistoryName> Caller<E, N> {
    /// A further caller, which has one part of the right to call, and knows the same.
    pub fn share(&mut self, history: &CallHistory<E, N>) -> Caller<E, N>
        requires { 1 < self.old.parts }
        ensures kept { self.new ≡ record self.old { parts = self.old.parts - 1 } }
        ensures new { result ≡ new_caller self.old.calls }
    {
        let pass = word::share(&history.word, &mut self.pass);
        Caller {
            pass,
            of: PhantomData,
        }
    }

    /// Takes in another: the longer of two beginnings, which the other begins, and its calls and its right to call.
    pub fn agree(&mut self, history: &CallHistory<E, N>, other: Caller<E, N>)
        ensures joined { self.new ≡ joined self.old other self.new.calls }
        ensures one { (self.new.calls ≡ self.old.calls) ⊎ (self.new.calls ≡ other.calls) }
        ensures mine { IsPrefix self.old.calls self.new.calls }
        ensures others { IsPrefix other.calls self.new.calls }
    {
        let Caller { pass, of: _ } = other;
        word::agree(&history.word, &mut self.pass, pass);
    }
}
