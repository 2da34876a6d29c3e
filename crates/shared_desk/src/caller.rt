//! The history of a desk, and what a thread knows of it.
ghost use Rattle.shared_desk.specs.Histories.{IsHistory};

use call_history::{CallHistory, Caller, HistoryName};
use conn_supply::HoldingPlace;
use std::marker::{Model, PhantomData};

/// A call of a desk, with its arguments and its answer, for contracts alone: no value of it is made.
pub struct DeskCall<P> {
    of: PhantomData<P>,
}

impl<P> Model for DeskCall<P> {
    ghost use Rattle.group_jobs.specs.Stamps.{Held};
    ghost use Rattle.session_desk.specs.Calls.{Call, Withdraw};

    ghost Value = { Call Held P };

    ghost view = { λ _. Withdraw 0 };
}

/// The calls of a desk, in the order of its lock.
pub(crate) type DeskHistory<P, D> = CallHistory<DeskCall<P>, D>;

/// Who calls a desk: it knows the desk's calls up to its own last one, in the order of the lock, and which of them are its own. Each call of a desk takes it. It may go to another
/// thread: it is `Send`, and not `Sync`.
///
/// Contracts see it as these calls, with the numbers of its own, and its parts of the right to call.
#[derive(Drop)]
pub struct DeskCaller<P: HoldingPlace, D: HistoryName> {
    pub(crate) caller: Caller<DeskCall<P>, D>,
}

impl<P: HoldingPlace, D: HistoryName> Model for DeskCaller<P, D> {
    ghost use Rattle.group_jobs.specs.Stamps.{Held};
    ghost use Rattle.session_desk.specs.Calls.{Call};
    ghost use Rattle.call_history.specs.Callers.{CallerState};
    ghost use Rattle.shared_desk.specs.Histories.{IsHistory};

    ghost Value = { CallerState (Call Held P) };

    ghost view = { λ d. d.caller };

    ghost invariant = { λ d. IsHistory P.has_out P.slot_of P.number_of d.caller.calls };
}

impl<P: HoldingPlace, D: HistoryName> DeskCaller<P, D> {
    /// What it knows is a history of a desk.
    pub fn is_history(&self)
        ensures { IsHistory P.has_out P.slot_of P.number_of self.now.calls }
    {
        let _caller = &self.caller;
    }
}
