//! The word: a table of `atomic_table` with one word and no slot, under a rule, and the steps on it. The rule is that
//! some schedule leads to what is there, so each step owes the table that it is one of a schedule. It tells which one
//! it was.
ghost use Rattle.std.specs.Prelude.{◌≡◌, ◌≤◌, ◌%◌, true, []};
ghost use Rattle.gate_word.specs.Steps.{seat_state, knows_shut, saw_drained};
ghost use Rattle.gate_word.specs.Steps.SeatState.{Outside, Inside, Bouncing};
ghost use Rattle.gate_word.specs.Seats.{cut_seat, rest_after_cut, token};
ghost use Rattle.gate_word.specs.Kinds.Kind.{TakeOff, Leave, SetBit};
ghost use Rattle.gate_word.specs.Rule.{IsPassOf, IsToken, entry, look, Tells, clash};

use crate::step::GateView;
use atomic_table::{Join, Play, Seat, Split, Table, TableRule};
use std::alloc::Global;

/// Some schedule of steps leads to what the word and the views are. The table is told how many seats there are.
pub struct Past;

impl TableRule<(), GateView, usize> for Past {
    ghost use Rattle.gate_word.specs.Seats.{all_seats};
    ghost use Rattle.gate_word.specs.Rule.{HasPast};

    ghost holds = { HasPast };

    ghost first = { all_seats };
}

pub type Word = Table<(), GateView, usize, Past, Global>;

pub type Pass = Seat<(), GateView>;

/// Adds 2.
pub struct Entering;

impl Play<(), GateView> for Entering {
    ghost use Rattle.gate_word.specs.Rule.{entry, Tells};

    ghost then = { λ _. Tells entry };
}

/// Takes 2 off that were added at a shut gate.
pub struct TakingOff;

impl Play<(), GateView> for TakingOff {
    ghost use Rattle.gate_word.specs.Kinds.Kind.{TakeOff};
    ghost use Rattle.gate_word.specs.Rule.{Tells};

    ghost then = { λ _. Tells (λ _. TakeOff) };
}

/// Takes 2 off that were added at an open gate.
pub struct Leaving;

impl Play<(), GateView> for Leaving {
    ghost use Rattle.gate_word.specs.Kinds.Kind.{Leave};
    ghost use Rattle.gate_word.specs.Rule.{Tells};

    ghost then = { λ _. Tells (λ _. Leave) };
}

/// Sets the shut bit.
pub struct Shutting;

impl Play<(), GateView> for Shutting {
    ghost use Rattle.gate_word.specs.Kinds.Kind.{SetBit};
    ghost use Rattle.gate_word.specs.Rule.{Tells};

    ghost then = { λ _. Tells (λ _. SetBit) };
}

/// Reads the word.
pub struct Looking;

impl Play<(), GateView> for Looking {
    ghost use Rattle.gate_word.specs.Rule.{look, Tells};

    ghost then = { λ _. Tells look };
}

/// Cuts the lowest seat off those that `open` still has.
pub struct Cutting;

impl Split<GateView> for Cutting {
    ghost use Rattle.gate_word.specs.Seats.{cut_seat, rest_after_cut};

    ghost left = { rest_after_cut };

    ghost right = { cut_seat };
}

/// Makes a token of a view that saw the gate drained.
pub struct Witnessing;

impl Split<GateView> for Witnessing {
    ghost use Rattle.gate_word.specs.Seats.{token};

    ghost left = { λ v. v };

    ghost right = { λ v. token v.seats };
}

/// Puts a turn's view and a token's into one, which the law allows nobody to have.
pub struct Clashing;

impl Join<GateView> for Clashing {
    ghost use Rattle.gate_word.specs.Seats.{token};
    ghost use Rattle.gate_word.specs.Rule.{clash};

    ghost both = { clash };

    ghost spent = { token 0 };
}

/// A step that nobody can make.
pub struct Never;

impl Play<(), GateView> for Never {
    ghost then = { λ _ _ _ _. ⊥ };
}

// What a seat that is not outside has added to the word.
const AWAY: u64 = 2;

// The shut bit.
pub const SHUT: u64 = 1;

/// Adds 2, and answers the number that was there.
pub fn add(word: &Word, pass: &mut Pass) -> u64
    requires word { IsPassOf word.now.shared.table_id pass.old.table_id }
    requires seat { (pass.old.me.0.count ≡ 1) × (seat_state pass.old.me.0.steps ≡ Outside) }
    ensures same { pass.new.table_id ≡ pass.old.table_id }
    ensures told { Tells entry pass.old.me result pass.new.me }
    ensures shut { knows_shut pass.old.me.0.steps ≡ true → result % 2 ≡ 1 }
{
    word.shared.fetch_add::<Entering>(pass, 0, AWAY)
}

/// Takes 2 off that were added at a shut gate, and answers the number that was there.
pub fn take_off(word: &Word, pass: &mut Pass) -> u64
    requires word { IsPassOf word.now.shared.table_id pass.old.table_id }
    requires seat { seat_state pass.old.me.0.steps ≡ Bouncing }
    ensures same { pass.new.table_id ≡ pass.old.table_id }
    ensures told { Tells (λ _. TakeOff) pass.old.me result pass.new.me }
{
    word.shared.fetch_sub::<TakingOff>(pass, 0, AWAY)
}

/// Takes 2 off that were added at an open gate, and answers the number that was there.
pub fn leave(word: &Word, pass: &mut Pass) -> u64
    requires word { IsPassOf word.now.shared.table_id pass.old.table_id }
    requires seat { seat_state pass.old.me.0.steps ≡ Inside }
    ensures same { pass.new.table_id ≡ pass.old.table_id }
    ensures told { Tells (λ _. Leave) pass.old.me result pass.new.me }
{
    word.shared.fetch_sub::<Leaving>(pass, 0, AWAY)
}

/// Sets the shut bit, and answers the number that was there.
pub fn shut(word: &Word, pass: &mut Pass) -> u64
    requires word { IsPassOf word.now.shared.table_id pass.old.table_id }
    requires seat { pass.old.me.0.count ≡ 1 }
    ensures same { pass.new.table_id ≡ pass.old.table_id }
    ensures told { Tells (λ _. SetBit) pass.old.me result pass.new.me }
{
    word.shared.fetch_or::<Shutting>(pass, 0, SHUT)
}

/// The number that is there.
pub fn look_at(word: &Word, pass: &mut Pass) -> u64
    requires word { IsPassOf word.now.shared.table_id pass.old.table_id }
    requires seat { pass.old.me.0.count ≡ 1 }
    ensures same { pass.new.table_id ≡ pass.old.table_id }
    ensures told { Tells look pass.old.me result pass.new.me }
{
    word.shared.load::<Looking>(pass, 0)
}

/// Cuts the first seat off.
pub fn cut(word: &Word, pass: &mut Pass) -> Pass
    requires word { IsPassOf word.now.shared.table_id pass.old.table_id }
    requires seats { (2 ≤ pass.old.me.0.count) × (seat_state pass.old.me.0.steps ≡ Outside) }
    ensures same { (pass.new.table_id ≡ pass.old.table_id) × (result.table_id ≡ pass.old.table_id) }
    ensures rest { pass.new.me ≡ (rest_after_cut pass.old.me.0, pass.old.me.1) }
    ensures seat { result.me ≡ (cut_seat pass.old.me.0, []) }
{
    word.shared.split_seat::<Cutting>(pass)
}

/// Makes a token.
pub fn witness(word: &Word, pass: &mut Pass) -> Pass
    requires word { IsPassOf word.now.shared.table_id pass.old.table_id }
    requires seat { saw_drained pass.old.me.0.steps ≡ true }
    ensures same { (pass.new.table_id ≡ pass.old.table_id) × (result.table_id ≡ pass.old.table_id) }
    ensures rest { pass.new.me ≡ pass.old.me }
    ensures token { result.me ≡ (token pass.old.me.0.seats, []) }
{
    word.shared.split_seat::<Witnessing>(pass)
}

/// A turn and a token are never both there.
pub fn refute(word: &Word, turn: &mut Pass, drained: Pass)
    requires turn { IsPassOf word.now.shared.table_id turn.old.table_id × (seat_state turn.old.me.0.steps ≡ Inside) }
    requires drained { IsPassOf word.now.shared.table_id drained.table_id × IsToken drained.me }
    ensures { ⊥ }
{
    word.shared.join_seat::<Clashing>(turn, drained);
    word.shared.load::<Never>(turn, 0);
}
