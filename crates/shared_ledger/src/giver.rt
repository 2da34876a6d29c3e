//! Who gives to a shared ledger, and who has it in hands.
ghost use Rattle.std.specs.Prelude.{◌≡◌, ◌≤◌, min, OnOk};
ghost use Rattle.group_jobs.specs.Settled.{KeepsSettled, least_spare};
ghost use Rattle.shared_ledger.specs.Giving.{jobs_in};

use crate::queue::LedgerPass;
use crate::witness::LedgerWitness;
use group_jobs::{JobError, Ledger};
use std::marker::{Model, PhantomData};

/// The right to give to a shared ledger. Contracts see it as a `GiverState`: which ledger it is, how many of its 64 parts this
/// is, and the ledgers that were given, in order.
#[derive(Drop)]
pub struct Giver<W: LedgerWitness> {
    pub(crate) pass: LedgerPass,
    pub(crate) witness: PhantomData<W>,
}

impl<W: LedgerWitness> Model for Giver<W> {
    ghost use Rattle.shared_ledger.specs.Givers.{GiverState};
    ghost use Rattle.shared_ledger.specs.Behind.{giver_of, IsFree};
    ghost use Rattle.shared_ledger.specs.Witnesses.{FollowsGiver};

    ghost Value = { GiverState };

    ghost view = { λ g. giver_of g.pass };

    ghost invariant = { λ g. IsFree g.pass × FollowsGiver W.saw_ledger g.pass.id };
}

/// A shared ledger in hands. Contracts see it as a `HolderState`: which ledger it is, how many of its parts came together here,
/// the ledgers that were given with them, and the ledger itself.
#[derive(Drop)]
pub struct Holder {
    pub(crate) pass: LedgerPass,
    pub(crate) ledger: Ledger,
}

impl Model for Holder {
    ghost use Rattle.shared_ledger.specs.Givers.{HolderState};
    ghost use Rattle.shared_ledger.specs.Behind.{holder_of, IsHeld};

    ghost Value = { HolderState };

    ghost view = { λ h. holder_of h.pass h.ledger };

    ghost invariant = { λ h. IsHeld h.pass h.ledger };
}

impl Holder {
    /// How many jobs are in the ledger, of whatever fate, or 2^128 - 1 where there are more.
    pub fn len(&self) -> u128
        ensures { result ≡ min (jobs_in self.now.settled) u128.MAX }
    {
        self.ledger.len()
    }

    /// Makes room for so many more runs of each fate. It asks for no memory where there is so much room.
    ///
    /// # Errors
    ///
    /// 503 [`JobError::Memory`]. The jobs stay, and there is no less room than before.
    pub fn reserve(&mut self, count: usize) -> Result<(), JobError>
        ensures ok { OnOk result (count ≤ least_spare self.new.settled) }
        ensures full { count ≤ least_spare self.old.settled → result ≡ Ok tt }
        ensures kept { KeepsSettled self.old.settled self.new.settled }
        ensures same { self.new ≡ record self.old { settled = self.new.settled } }
    {
        self.ledger.reserve(count)
    }
}
