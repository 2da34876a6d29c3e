//! The law of the bell. It is the contract of a function that does nothing, stated over the steps that the contracts
//! of [`Bell`](crate::Bell) cite.
ghost use Rattle.std.specs.Prelude.{◌≡◌, ◌<◌, ◌%◌, ℕ, true, false, List, ◌∷◌, ◌++◌};
ghost use Rattle.bell.specs.declared.step.BellStep.{BellStep};
ghost use Rattle.bell.specs.declared.step.BellStep.TheVariants.{Rang, Settled};
ghost use Rattle.bell.specs.Handles.{turn};
ghost use Rattle.bell.specs.History.{is_idle, rings, was_roused};

/// **No bell is slept through.** Let a worker have settled after `since`, which was done after it had listened; let it
/// be allowed to wait, and let fewer than 2^32 rings stand in `since`. Then each ring that was rung after it had
/// listened found it idle, until it listens again or is called (`heard`). Who is idle stays idle until it listens or is
/// called (`stays`), so that one who isn't idle any more listened or was called (`roused`).
pub fn never_slept_through()
    ensures heard { (worker : ℕ) (known since after later earlier : List BellStep) →
        rings since % turn ≡ 0 → rings since < turn →
        after ++ Settled worker ∷ since ≡ later ++ Rang ∷ earlier → was_roused worker after ≡ false →
        is_idle worker (earlier ++ known) ≡ true }
    ensures stays { (worker : ℕ) (since before : List BellStep) →
        is_idle worker before ≡ true → was_roused worker since ≡ false → is_idle worker (since ++ before) ≡ true }
    ensures roused { (worker : ℕ) (since before : List BellStep) →
        is_idle worker before ≡ true → is_idle worker (since ++ before) ≡ false → was_roused worker since ≡ true }
{}
