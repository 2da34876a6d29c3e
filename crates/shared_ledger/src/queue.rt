//! The queue in which a shared ledger lies: a bounded queue of `crossbeam_queue` with room for one item, under the rule that
//! there is one ledger, in the queue or in somebody's hands, which has what all gave.
ghost use Rattle.std.specs.Prelude.{◌≡◌, ◌≤◌, ◌+◌, ◌-◌, List, [], ◌∷◌, ◌++◌, length, IfOk, MatchOption};
ghost use Rattle.crossbeam_queue.specs.Fifo.{Held};
ghost use Rattle.crossbeam_queue.specs.Passes.{view, IsPassOf, ruled_capacity};
ghost use Rattle.dispatch_core.specs.declared.event.Job.{Job};
ghost use Rattle.group_jobs.specs.declared.fate.Fate.{Fate};
ghost use Rattle.group_jobs.specs.declared.ledger.Ledger.{Ledger as ledger_type};
ghost use Rattle.shared_ledger.specs.Giving.{share, joined, times_in, Stands, GivesMore, IsGivenMore};
ghost use Rattle.shared_ledger.specs.Witnesses.{FollowsGiver, SawLedger};

use crate::share::LedgerShare;
use crate::witness::{LawfulLedgerWitness, LedgerWitness};
use crossbeam_queue::protocol::{Join, Lesson, Outcome, Protocol, Split};
use crossbeam_queue::{Pass, RuledArrayQueue};
use group_jobs::{JobError, Ledger};
use std::alloc::Global;
use std::marker::PhantomData;
use std::sync::Wait;

/// There is one ledger, which has what all gave, and the witness sees it.
pub struct Gathering<W> {
    of: PhantomData<W>,
}

impl<W: LedgerWitness> Protocol<Ledger, LedgerShare> for Gathering<W> {
    ghost use Rattle.std.specs.Prelude.{[], ◌∷◌};
    ghost use Rattle.shared_ledger.specs.Giving.{share, no_jobs, Gives};

    ghost holds = { λ items views. Gives items views × W.saw_ledger items views };

    ghost first = { share 64 (no_jobs ∷ []) [] };
}

pub type LedgerQueue<W> = RuledArrayQueue<Ledger, LedgerShare, Gathering<W>, Global>;

pub type LedgerPass = Pass<Ledger, LedgerShare>;

/// The ledger is taken up, or a look at an empty queue.
pub struct TakingUp<W> {
    of: PhantomData<W>,
}

impl<W: LedgerWitness> Outcome<Ledger, LedgerShare> for TakingUp<W> {
    ghost use Rattle.shared_ledger.specs.Giving.{TakesUp};

    ghost then = { TakesUp };
}

impl<W: LedgerWitness> Lesson<Ledger, LedgerShare> for TakingUp<W> {
    ghost use Rattle.shared_ledger.specs.Witnesses.{SawLedger};

    ghost fact = { SawLedger W.saw_ledger };
}

/// A look at the queue.
pub struct LookingAtLedger;

impl Lesson<Ledger, LedgerShare> for LookingAtLedger {
    ghost use Rattle.shared_ledger.specs.Giving.{Stands};

    ghost fact = { Stands };
}

/// The ledger is put down as it was.
pub struct PuttingBack;

impl Outcome<Ledger, LedgerShare> for PuttingBack {
    ghost use Rattle.shared_ledger.specs.Giving.{PutsBack};

    ghost then = { PutsBack };
}

impl Lesson<Ledger, LedgerShare> for PuttingBack {
    ghost use Rattle.shared_ledger.specs.Giving.{Stands};

    ghost fact = { Stands };
}

/// The ledger is put down with more in it.
pub struct GivingMore;

impl Outcome<Ledger, LedgerShare> for GivingMore {
    ghost use Rattle.shared_ledger.specs.Giving.{GivesMore};

    ghost then = { GivesMore };
}

impl Lesson<Ledger, LedgerShare> for GivingMore {
    ghost use Rattle.shared_ledger.specs.Giving.{Stands};

    ghost fact = { Stands };
}

/// Gives one part away.
pub struct CutPart;

impl Split<LedgerShare> for CutPart {
    ghost use Rattle.std.specs.Prelude.{◌-◌, []};
    ghost use Rattle.shared_ledger.specs.Giving.{share};

    ghost left = { λ v. share (v.parts - 1) v.hand v.gave };

    ghost right = { λ v. share 1 [] [] };
}

/// Makes a pass with no part, which gives nothing.
pub struct CutNone;

impl Split<LedgerShare> for CutNone {
    ghost use Rattle.std.specs.Prelude.{[]};
    ghost use Rattle.shared_ledger.specs.Giving.{share};

    ghost left = { λ v. v };

    ghost right = { λ v. share 0 [] [] };
}

/// Takes in another pass, with its parts.
pub struct TakeParts;

impl Join<LedgerShare> for TakeParts {
    ghost use Rattle.std.specs.Prelude.{[]};
    ghost use Rattle.shared_ledger.specs.Giving.{share, joined};

    ghost both = { joined };

    ghost spent = { share 0 [] [] };
}

/// A queue with a ledger in which nothing is settled, and the pass of who opened it.
///
/// # Errors
///
/// 503 [`JobError::Memory`].
pub fn open<W: LawfulLedgerWitness>(alloc: Global) -> Result<(LedgerQueue<W>, LedgerPass), JobError>
    ensures queue { IfOk result (λ q. IsPassOf q.0 q.1 × (ruled_capacity q.0 ≡ 1)) }
    ensures pass { IfOk result (λ q. view q.1 ≡ share 64 [] []) }
{
    let (queue, mut pass) = LedgerQueue::<W>::ruled(alloc, 1)?;
    // A queue that nobody else has takes the push at its one attempt.
    match queue.try_push_as::<PuttingBack>(&mut pass, Ledger::new(alloc)) {
        Ok(()) => Ok((queue, pass)),
        Err(_) => Err(JobError::Memory),
    }
}

/// Gives one part away.
pub fn cut<W: LawfulLedgerWitness>(queue: &LedgerQueue<W>, pass: &mut LedgerPass) -> LedgerPass
    requires queue { IsPassOf queue.now pass.old }
    requires parts { 2 ≤ (view pass.old).parts }
    ensures queue { IsPassOf queue.now pass.new × IsPassOf queue.now result }
    ensures rest { view pass.new ≡ share ((view pass.old).parts - 1) (view pass.old).hand (view pass.old).gave }
    ensures part { view result ≡ share 1 [] [] }
{
    queue.another::<CutPart>(pass)
}

/// Makes a pass with no part.
pub fn cut_none<W: LawfulLedgerWitness>(queue: &LedgerQueue<W>, pass: &mut LedgerPass) -> LedgerPass
    requires queue { IsPassOf queue.now pass.old }
    ensures queue { IsPassOf queue.now pass.new × IsPassOf queue.now result }
    ensures same { view pass.new ≡ view pass.old }
    ensures none { view result ≡ share 0 [] [] }
{
    queue.another::<CutNone>(pass)
}

/// Takes the ledger up. `None` only where the witness saw that another had it in hands. A step of the queue may wait for
/// another thread's.
pub fn take_up<W: LedgerWitness, R: Wait>(
    rt: &R,
    queue: &LedgerQueue<W>,
    pass: &mut LedgerPass,
) -> Option<Ledger>
    requires queue { IsPassOf queue.now pass.old }
    requires hand { (view pass.old).hand ≡ [] }
    requires follows { FollowsGiver W.saw_ledger pass.old.id }
    ensures queue { IsPassOf queue.now pass.new }
    ensures id { pass.new.id ≡ pass.old.id }
    ensures answer { MatchOption result ((view pass.new ≡ view pass.old) × Held 0 (SawLedger W.saw_ledger (view pass.old)))
        (λ ledger. view pass.new ≡ share (view pass.old).parts (ledger ∷ []) (view pass.old).gave) }
{
    queue.pop_as::<TakingUp<W>, R>(rt, pass)
}

/// Takes the ledger up, once nobody else has it in hands.
pub fn wait_for<W: LawfulLedgerWitness, R: Wait>(
    rt: &R,
    queue: &LedgerQueue<W>,
    pass: &mut LedgerPass,
) -> Ledger
    requires queue { IsPassOf queue.now pass.old }
    requires hand { (view pass.old).hand ≡ [] }
    ensures queue { IsPassOf queue.now pass.new }
    ensures hand { view pass.new ≡ share (view pass.old).parts (result ∷ []) (view pass.old).gave }
{
    'looks: for _ in rt.forever() {
        if let Some(ledger) = take_up(rt, queue, pass) {
            return ledger;
        }
    }
    unreachable!()
}

/// Puts the ledger down with the jobs that it had. Its room may have grown.
pub fn put_back<W: LedgerWitness, R: Wait>(
    rt: &R,
    queue: &LedgerQueue<W>,
    pass: &mut LedgerPass,
    ledger: Ledger,
)
    requires queue { IsPassOf queue.now pass.old }
    requires capacity { ruled_capacity queue.now ≡ 1 }
    requires hand { length (view pass.old).hand ≡ 1 }
    requires same { (fate : Fate) (job : Job) → times_in (ledger ∷ []) fate job ≡ times_in (view pass.old).hand fate job }
    requires follows { FollowsGiver W.saw_ledger pass.old.id }
    ensures queue { IsPassOf queue.now pass.new }
    ensures id { pass.new.id ≡ pass.old.id }
    ensures back { view pass.new ≡ share (view pass.old).parts [] (view pass.old).gave }
{
    match queue.push_as::<PuttingBack, R>(rt, pass, ledger) {
        Ok(()) => (),
        Err(_) => unreachable!(),
    }
}

/// Puts the ledger down with more in it.
pub fn give<W: LedgerWitness, R: Wait>(
    rt: &R,
    queue: &LedgerQueue<W>,
    pass: &mut LedgerPass,
    ledger: Ledger,
)
    requires queue { IsPassOf queue.now pass.old }
    requires capacity { ruled_capacity queue.now ≡ 1 }
    requires parts { 1 ≤ (view pass.old).parts }
    requires hand { length (view pass.old).hand ≡ 1 }
    requires more { (more : ledger_type) × IsGivenMore (view pass.old) ledger more }
    requires follows { FollowsGiver W.saw_ledger pass.old.id }
    ensures queue { IsPassOf queue.now pass.new }
    ensures id { pass.new.id ≡ pass.old.id }
    ensures gave { GivesMore (view pass.old) ledger (view pass.new) }
{
    match queue.push_as::<GivingMore, R>(rt, pass, ledger) {
        Ok(()) => (),
        Err(_) => unreachable!(),
    }
}

/// Takes in another pass, with its parts and what it gave.
pub fn join<W: LawfulLedgerWitness>(
    queue: &LedgerQueue<W>,
    pass: &mut LedgerPass,
    other: LedgerPass,
)
    requires queue { IsPassOf queue.now pass.old × IsPassOf queue.now other }
    requires parts { 1 ≤ (view other).parts }
    ensures queue { IsPassOf queue.now pass.new }
    ensures all { view pass.new ≡ joined (view pass.old) (view other) }
{
    queue.absorb::<TakeParts>(pass, other);
}

/// Looks at the queue.
pub fn look<W: LedgerWitness>(queue: &LedgerQueue<W>, pass: &mut LedgerPass)
    requires queue { IsPassOf queue.now pass.old }
    ensures queue { IsPassOf queue.now pass.new }
    ensures same { view pass.new ≡ view pass.old }
    ensures stands { (items : List ledger_type) × Stands (view pass.old) items }
{
    queue.learn_as::<LookingAtLedger>(pass);
}
