//! The table of a history: one word that never changes, under a rule on what its passes know; and the steps on it.
ghost use Rattle.std.specs.Prelude.{◌≡◌, ◌<◌, ◌++◌, ◌⊎◌, [], length, true};
ghost use mathlib.Core.List.{IsPrefix};
ghost use Rattle.call_history.specs.Callers.{all_parts, new_caller};
ghost use Rattle.call_history.specs.Numbers.{IsEachOnce};
ghost use Rattle.call_history.specs.Rule.{IsPassOf, adding, caller, caller_of, less_one, met, shown, without_right};

use crate::names::Entries;
use atomic_table::{Join, Play, Seat, Split, Table, TableRule};
use std::alloc::Global;
use std::collections::LinkedList;
use std::marker::PhantomData;

/// What a pass knows. No value of it is made.
pub struct HistoryView<E> {
    /// Whether it is the keeper, which knows the whole history.
    pub keeps: bool,
    /// The history, or a beginning of it.
    pub calls: LinkedList<E>,
    /// Another beginning of it, which is to be compared with that one.
    pub other: LinkedList<E>,
    /// The numbers of the calls that it made itself, or that those made whose right to call it took over, counted from 0.
    pub own: LinkedList<u64>,
    /// How many parts of the right to call it has.
    pub parts: u64,
}

/// There is one history, of which all views have beginnings; at most one has it whole; and each call in it is one view's own.
pub struct OneHistory<E> {
    of: PhantomData<E>,
}

impl<E> TableRule<(), HistoryView<E>, ()> for OneHistory<E> {
    ghost use Rattle.call_history.specs.Rule.{IsOne, first};

    ghost holds = { λ _. IsOne };

    ghost first = { λ _. first };
}

pub type Word<E> = Table<(), HistoryView<E>, (), OneHistory<E>, Global>;

pub type Pass<E> = Seat<(), HistoryView<E>>;

/// The keeper adds entries, and learns that what it was shown is a beginning of what it had.
pub struct AddingEntries<J> {
    of: PhantomData<J>,
}

impl<E, J: Entries<E>> Play<(), HistoryView<E>> for AddingEntries<J> {
    ghost use Rattle.call_history.specs.Rule.{Adds};

    ghost then = { λ _ before _ after. Adds J.added before after };
}

/// A pass gives its right to call away, with what it knows.
pub struct Giving;

impl<E> Split<HistoryView<E>> for Giving {
    ghost use Rattle.call_history.specs.Rule.{caller, caller_of, without_right};

    ghost left = { without_right };

    ghost right = { λ v. caller (caller_of v) };
}

/// One part of the right to call goes to a new caller, which knows the same.
pub struct Sharing;

impl<E> Split<HistoryView<E>> for Sharing {
    ghost use Rattle.call_history.specs.Callers.{new_caller};
    ghost use Rattle.call_history.specs.Rule.{caller, less_one};

    ghost left = { less_one };

    ghost right = { λ v. caller (new_caller v.calls) };
}

/// A pass is shown what another knows, and takes over its right to call.
pub struct Showing;

impl<E> Join<HistoryView<E>> for Showing {
    ghost use Rattle.call_history.specs.Rule.{shown, spent};

    ghost both = { shown };

    ghost spent = { spent };
}

/// Two callers become one, which knows the longer of what both knew.
pub struct Meeting;

impl<E> Join<HistoryView<E>> for Meeting {
    ghost use Rattle.call_history.specs.Rule.{met, spent};

    ghost both = { met };

    ghost spent = { spent };
}

/// A pass learns that the shorter of two beginnings begins the longer.
pub struct Comparing;

impl<E> Play<(), HistoryView<E>> for Comparing {
    ghost use Rattle.call_history.specs.Rule.{Compares};

    ghost then = { λ _ before _ after. Compares before after };
}

/// The keeper is shown what another pass knows, and has its right to call from then on.
pub fn show<E>(word: &Word<E>, pass: &mut Pass<E>, other: Pass<E>)
    requires word { IsPassOf word.now.shared.table_id pass.old.table_id }
    requires other { (other.table_id ≡ word.now.shared.table_id) × (other.me.1 ≡ []) }
    ensures same { pass.new.table_id ≡ pass.old.table_id }
    ensures shown { pass.new.me ≡ (shown pass.old.me.0 other.me.0, pass.old.me.1) }
{
    word.shared.join_seat::<Showing>(pass, other);
}

/// The keeper adds entries to the history, by the right to call that it has; and where it has all of that right, each call that there was is by it.
pub fn add<E, J: Entries<E>>(word: &Word<E>, pass: &mut Pass<E>)
    requires word { IsPassOf word.now.shared.table_id pass.old.table_id }
    requires keeps { pass.old.me.0.keeps ≡ true }
    requires part { 0 < pass.old.me.0.parts }
    ensures same { pass.new.table_id ≡ pass.old.table_id }
    ensures added { pass.new.me ≡ (adding pass.old.me.0 J.added, pass.old.me.1) }
    ensures shown { IsPrefix pass.old.me.0.other pass.old.me.0.calls }
    ensures once { pass.old.me.0.parts ≡ all_parts → IsEachOnce pass.old.me.0.own (length pass.old.me.0.calls) }
{
    word.shared.load::<AddingEntries<J>>(pass, 0);
}

/// The right to call goes to another pass, with what this one knows.
pub fn give<E>(word: &Word<E>, pass: &mut Pass<E>) -> Pass<E>
    requires word { IsPassOf word.now.shared.table_id pass.old.table_id }
    ensures same { (pass.new.table_id ≡ pass.old.table_id) × (result.table_id ≡ pass.old.table_id) }
    ensures old { pass.new.me ≡ (without_right pass.old.me.0, pass.old.me.1) }
    ensures new { result.me ≡ (caller (caller_of pass.old.me.0), []) }
{
    word.shared.split_seat::<Giving>(pass)
}

/// One part of the right to call goes to a new pass, which knows the same.
pub fn share<E>(word: &Word<E>, pass: &mut Pass<E>) -> Pass<E>
    requires word { IsPassOf word.now.shared.table_id pass.old.table_id }
    requires parts { 1 < pass.old.me.0.parts }
    ensures same { (pass.new.table_id ≡ pass.old.table_id) × (result.table_id ≡ pass.old.table_id) }
    ensures old { pass.new.me ≡ (less_one pass.old.me.0, pass.old.me.1) }
    ensures new { result.me ≡ (caller (new_caller pass.old.me.0.calls), []) }
{
    word.shared.split_seat::<Sharing>(pass)
}

/// A pass takes in another: it knows the longer of what both knew, which the other begins, and has the right to call of both.
pub fn agree<E>(word: &Word<E>, pass: &mut Pass<E>, other: Pass<E>)
    requires word { IsPassOf word.now.shared.table_id pass.old.table_id }
    requires other { (other.table_id ≡ word.now.shared.table_id) × (other.me.1 ≡ []) }
    ensures same { pass.new.table_id ≡ pass.old.table_id }
    ensures known { pass.new.me ≡ (caller (caller_of (met pass.old.me.0 other.me.0)), pass.old.me.1) }
    ensures one { (pass.new.me.0.calls ≡ pass.old.me.0.calls) ⊎ (pass.new.me.0.calls ≡ other.me.0.calls) }
    ensures mine { IsPrefix pass.old.me.0.calls pass.new.me.0.calls }
    ensures others { IsPrefix other.me.0.calls pass.new.me.0.calls }
    ensures own { pass.new.me.0.own ≡ pass.old.me.0.own ++ other.me.0.own }
{
    word.shared.join_seat::<Meeting>(pass, other);
    word.shared.load::<Comparing>(pass, 0);
}
