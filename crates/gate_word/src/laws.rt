//! Laws of the gate. Each is the contract of a function that does nothing, stated over the kinds of step that the
//! contracts of [`Gate`](crate::Gate) cite.
ghost use Rattle.std.specs.Prelude.{◌≡◌, ◌↔◌, ℕ, true, List, All};
ghost use mathlib.Core.Option.{some};
ghost use lib.ListN.{get_elem?};
ghost use Rattle.gate_word.specs.declared.step.GateView.{GateView};
ghost use Rattle.gate_word.specs.Steps.{is_shut, has_shut, found_shut, knows_shut, saw_drained};
ghost use Rattle.gate_word.specs.Seats.{Seat};
ghost use Rattle.gate_word.specs.GateLaw.{GateLaw, IsOutside};
ghost use Rattle.gate_word.specs.Kinds.{Kind, May, word_after};
ghost use Rattle.gate_word.specs.Kinds.Kind.{Enter, Bounce, SetBit, LookDrained};
ghost use Rattle.gate_word.specs.Schedules.{Reaches};
ghost use Rattle.gate_word.specs.Calls.{Makes};

/// **The gate law.** Whatever steps the seats of a gate make, in whatever order, between any two of them the word is
/// twice the number of seats that are not outside, plus the shut bit; each number below that of the gate's seats is
/// one seat's, and no seat has another, so that none is hidden and none is there twice; the bit is set where one of
/// them shut the gate, and nowhere else, and who shut it or found it shut knows that; and once somebody saw it
/// drained, the bit is set and nobody is inside (`holds`). The word is 1 exactly where the gate is shut and everybody
/// is outside (`drained`). A gate that is shut is never open again (`stays_shut`).
pub fn gate_law()
    ensures holds { (seats word : ℕ) (views : List GateView) → Reaches seats word views → GateLaw seats word views }
    ensures drained { (seats word : ℕ) (views : List GateView) → Reaches seats word views →
        (word ≡ 1) ↔ ((is_shut word ≡ true) × All IsOutside views) }
    ensures stays_shut { (kind : Kind) (seats word : ℕ) (views : List GateView) (place : ℕ) (v : GateView) →
        GateLaw seats word views → get_elem? views place ≡ some v → May kind word v →
        is_shut word ≡ true → is_shut (word_after kind word) ≡ true }
{}

/// The marks of a seat. Who was refused found the gate shut, who shut it has shut it, and who found the word 1 saw it
/// drained (`refused`, `shut`, `drained`); no step takes a mark away (`shut_stays`, `found_stays`, `drained_stays`);
/// and who shut the gate or found it shut doesn't get in again (`kept_out`).
pub fn marks()
    ensures refused { (old new : Seat) → Makes Bounce old new → found_shut new.steps ≡ true }
    ensures shut { (old new : Seat) → Makes SetBit old new → has_shut new.steps ≡ true }
    ensures drained { (old new : Seat) → Makes LookDrained old new → saw_drained new.steps ≡ true }
    ensures shut_stays { (kind : Kind) (old new : Seat) → Makes kind old new →
        has_shut old.steps ≡ true → has_shut new.steps ≡ true }
    ensures found_stays { (kind : Kind) (old new : Seat) → Makes kind old new →
        found_shut old.steps ≡ true → found_shut new.steps ≡ true }
    ensures drained_stays { (kind : Kind) (old new : Seat) → Makes kind old new →
        saw_drained old.steps ≡ true → saw_drained new.steps ≡ true }
    ensures kept_out { (old new : Seat) → knows_shut old.steps ≡ true → ¬ Makes Enter old new }
{}
