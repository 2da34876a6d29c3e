//! What a call saw of a queue: a part of the queues' rules that the calls' bodies know nothing of.
//!
//! A group may be opened with a witness, of which its calls know nothing but that what it saw still holds when their own port
//! or place makes a step. So a call that answers that a queue was empty, or full, as the witness saw it, has looked: it might have seen
//! nothing of the kind. A group that is opened with no witness has [`Nobody`].
use shared_ledger::{LawfulLedgerWitness, LedgerWitness};

/// What was seen of the queues of a group and of its ledger's, and of what each pass knew, for contracts alone.
pub trait Witness: LedgerWitness {
    ghost use Rattle.std.specs.Prelude.{List};
    ghost use Rattle.group_queue.specs.declared.posted.Posted.{Posted};
    ghost use Rattle.group_queue.specs.declared.view.Bag.{Bag};
    ghost use Rattle.group_queue.specs.declared.view.View.{View};

    /// It saw this in the main queue, when the passes knew this.
    ghost saw_main: { List Posted → List View → Type 0 };

    /// It saw this in the returns queue, when the passes knew this.
    ghost saw_returns: { List Posted → List Bag → Type 0 };
}

/// A witness that follows each step of each pass, from the opening on. Calls that open a group or end it know that of it, and
/// the others do not.
pub trait LawfulWitness: Witness + LawfulLedgerWitness {
    ghost use Rattle.group_queue.specs.Witnesses.{FollowsMain, FollowsReturns};

    ghost main: { FollowsMain Self.saw_main };

    ghost returns: { FollowsReturns Self.saw_returns };
}

/// No witness: whatever stands in the queues counts as seen.
pub struct Nobody;

impl Witness for Nobody {
    ghost use Rattle.std.specs.Prelude.{⊤};

    ghost saw_main = { λ items views. ⊤ };

    ghost saw_returns = { λ items views. ⊤ };
}

impl LawfulWitness for Nobody {
    ghost use Rattle.group_queue.specs.Witnesses.{any_main, any_returns};

    ghost main = { any_main };

    ghost returns = { any_returns };
}

impl LedgerWitness for Nobody {
    ghost use Rattle.std.specs.Prelude.{⊤};

    ghost saw_ledger = { λ items views. ⊤ };
}

impl LawfulLedgerWitness for Nobody {
    ghost use Rattle.shared_ledger.specs.Witnesses.{any_ledger};

    ghost ledger = { any_ledger };
}
