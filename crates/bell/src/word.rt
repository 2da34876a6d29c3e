//! The word: a table of `atomic_table` with one word and no slot, under a rule, and the steps on it. The bits from 32
//! on count the rings, the bits below tell which workers are idle. The rule is that some history leads to what is
//! there; each step is one more of it, and tells what the word was.
ghost use Rattle.std.specs.Prelude.{◌≡◌, ◌<◌, ◌==◌, ◌/◌, []};
ghost use Rattle.std.specs.Int.{bit_at};
ghost use Rattle.bell.specs.declared.step.BellStep.TheVariants.{Listened, Settled, Rang, Called};
ghost use Rattle.bell.specs.Handles.{turn};
ghost use Rattle.bell.specs.Rule.{IsPassOf, Tells};
ghost use Rattle.bell.specs.Calls.{is_due as is_due_by};

use crate::step::BellView;
use atomic_table::{Play, Seat, Split, Table, TableRule};
use std::alloc::Global;

/// Some history leads to what the word is.
pub struct Past;

impl TableRule<(), BellView, usize> for Past {
    ghost use Rattle.std.specs.Prelude.{[]};
    ghost use Rattle.bell.specs.Rule.{HasPast};

    ghost holds = { λ _. HasPast };

    ghost first = { λ _. record { history = [] } };
}

pub type Word = Table<(), BellView, usize, Past, Global>;

pub type Pass = Seat<(), BellView>;

/// Clears the bit of a worker that listens.
pub struct ClearingBit;

impl Play<(), BellView> for ClearingBit {
    ghost use Rattle.bell.specs.declared.step.BellStep.TheVariants.{Listened};
    ghost use Rattle.bell.specs.Rule.{all_but, TellsOfOne};

    ghost then = { λ operation. TellsOfOne Listened all_but operation.first };
}

/// Sets the bit of a worker that settles.
pub struct SettingBit;

impl Play<(), BellView> for SettingBit {
    ghost use Rattle.bell.specs.declared.step.BellStep.TheVariants.{Settled};
    ghost use Rattle.bell.specs.Rule.{bit_of, TellsOfOne};

    ghost then = { λ operation. TellsOfOne Settled bit_of operation.first };
}

/// Counts a ring.
pub struct CountingRing;

impl Play<(), BellView> for CountingRing {
    ghost use Rattle.bell.specs.declared.step.BellStep.TheVariants.{Rang};
    ghost use Rattle.bell.specs.Rule.{Tells};

    ghost then = { λ _. Tells Rang };
}

/// Clears the bit of a worker that is called.
pub struct Calling;

impl Play<(), BellView> for Calling {
    ghost use Rattle.bell.specs.declared.step.BellStep.TheVariants.{Called};
    ghost use Rattle.bell.specs.Rule.{all_but, TellsOfOne};

    ghost then = { λ operation. TellsOfOne Called all_but operation.first };
}

/// Makes one more who knows the same.
pub struct Telling;

impl Split<BellView> for Telling {
    ghost left = { λ v. v };

    ghost right = { λ v. v };
}

// A ring, in the bits that count them.
const RING: u64 = 4_294_967_296;

/// Clears the bit of a worker that listens, and answers the number that was there.
pub fn listen(word: &Word, pass: &mut Pass, worker: usize) -> u64
    requires word { IsPassOf word.now.shared.table_id pass.old.table_id }
    requires few { worker < 32 }
    ensures same { pass.new.table_id ≡ pass.old.table_id }
    ensures told { Tells (Listened worker) pass.old.me result pass.new.me }
{
    word.shared
        .fetch_and::<ClearingBit>(pass, 0, !(1 << worker))
}

/// Sets the bit of a worker that settles, and answers the number that was there.
pub fn settle(word: &Word, pass: &mut Pass, worker: usize) -> u64
    requires word { IsPassOf word.now.shared.table_id pass.old.table_id }
    requires few { worker < 32 }
    ensures same { pass.new.table_id ≡ pass.old.table_id }
    ensures told { Tells (Settled worker) pass.old.me result pass.new.me }
{
    word.shared.fetch_or::<SettingBit>(pass, 0, 1 << worker)
}

/// Counts a ring, and answers the number that was there.
pub fn ring(word: &Word, pass: &mut Pass) -> u64
    requires word { IsPassOf word.now.shared.table_id pass.old.table_id }
    ensures same { pass.new.table_id ≡ pass.old.table_id }
    ensures told { Tells Rang pass.old.me result pass.new.me }
{
    word.shared.fetch_add::<CountingRing>(pass, 0, RING)
}

/// Clears the bit of a worker that is called, and answers the number that was there.
pub fn call(word: &Word, pass: &mut Pass, worker: usize) -> u64
    requires word { IsPassOf word.now.shared.table_id pass.old.table_id }
    requires few { worker < 32 }
    ensures same { pass.new.table_id ≡ pass.old.table_id }
    ensures told { Tells (Called worker) pass.old.me result pass.new.me }
{
    word.shared.fetch_and::<Calling>(pass, 0, !(1 << worker))
}

/// One more who knows the same.
pub fn tell(word: &Word, pass: &mut Pass) -> Pass
    requires word { IsPassOf word.now.shared.table_id pass.old.table_id }
    ensures same { (pass.new.table_id ≡ pass.old.table_id) × (result.table_id ≡ pass.old.table_id) }
    ensures old { pass.new.me ≡ pass.old.me }
    ensures new { result.me ≡ (pass.old.me.0, []) }
{
    word.shared.split_seat::<Telling>(pass)
}

/// How often the bell rang by this number, counted from 0 again at 2^32.
pub fn count_of(word: u64) -> u64
    ensures { result ≡ word / turn }
{
    word / RING
}

/// Whether the worker is idle by this number.
pub fn has_idle(word: u64, worker: usize) -> bool
    requires { worker < 32 }
    ensures { result ≡ (bit_at word worker == 1) }
{
    word >> worker & 1 == 1
}

/// Whether the worker is idle by the number that was found, and is named by the other number, or is not named.
pub fn is_due(found: u64, first: u64, named: bool, worker: usize) -> bool
    requires { worker < 32 }
    ensures { result ≡ is_due_by found first named worker }
{
    if named {
        has_idle(found, worker) && has_idle(first, worker)
    } else {
        has_idle(found, worker) && !has_idle(first, worker)
    }
}
