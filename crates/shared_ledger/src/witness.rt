//! What a call saw of the queue in which a ledger lies: a part of its rule that the calls' bodies know nothing of.
//!
//! A call knows nothing of the witness but that what it saw still holds when its own giver takes the ledger up or puts it
//! down. So a call that answers that the queue was empty, as the witness saw it, has looked.

/// What was seen of the queue of a ledger, and of what each pass knew, for contracts alone.
pub trait LedgerWitness {
    ghost use Rattle.std.specs.Prelude.{List};
    ghost use Rattle.group_jobs.specs.declared.ledger.Ledger.{Ledger};
    ghost use Rattle.shared_ledger.specs.declared.share.LedgerShare.{LedgerShare};

    /// It saw this in the queue, when the passes knew this.
    ghost saw_ledger: { List Ledger → List LedgerShare → Type 0 };
}

/// A witness that follows each step of each pass, from the opening on. The calls that open a ledger, share it out and end it
/// know that of it, and `gather` does not.
pub trait LawfulLedgerWitness: LedgerWitness {
    ghost use Rattle.shared_ledger.specs.Witnesses.{FollowsLedger};

    ghost ledger: { FollowsLedger Self.saw_ledger };
}
