//! The returns queue: what was given back and not handed out again. It is an unbounded queue of `crossbeam_queue` under the
//! rule that nothing comes from nowhere and nothing is lost: whatever one counts, what was pushed is what was popped and what
//! stands in the queue.
ghost use Rattle.std.specs.Prelude.{◌≡◌, ◌<◌, ◌≤◌, ◌+◌, ◌-◌, [], IfOk, MatchResult, MatchOption};
ghost use Rattle.crossbeam_queue.specs.SegTies.{IsSegPassOf};
ghost use Rattle.group_queue.specs.Returns.{bag, bag_of, joined, PushesBack, PopsBack};
ghost use Rattle.group_queue.specs.Witnesses.{FollowsPart, SawReturns};

use crate::posted::Posted;
use crate::view::Bag;
use crate::witness::{LawfulWitness, Witness};
use crossbeam_queue::protocol::{Join, Lesson, Outcome, Protocol, Split};
use crossbeam_queue::{RuledSegQueue, SegPass};
use std::alloc::{AllocError, Global};
use std::marker::PhantomData;
use std::sync::Wait;

/// What was pushed was popped or stands in the queue, and the witness sees it.
pub struct Keeping<W> {
    of: PhantomData<W>,
}

impl<W: Witness> Protocol<Posted, Bag> for Keeping<W> {
    ghost use Rattle.std.specs.Prelude.{[]};
    ghost use Rattle.group_queue.specs.Returns.{bag, Gives};

    ghost holds = { λ items views. Gives items views × W.saw_returns items views };

    ghost first = { bag 64 [] [] };
}

pub type ReturnsQueue<W> = RuledSegQueue<Posted, Bag, Keeping<W>, Global>;

pub type ReturnsPass = SegPass<Posted, Bag, Global>;

/// A push at the back.
pub struct PuttingBack;

impl Outcome<Posted, Bag> for PuttingBack {
    ghost use Rattle.group_queue.specs.Returns.{PushesBack};

    ghost then = { PushesBack };
}

/// A pop at the front, or a look at an empty queue.
pub struct TakingAgain<W> {
    of: PhantomData<W>,
}

impl<W: Witness> Outcome<Posted, Bag> for TakingAgain<W> {
    ghost use Rattle.group_queue.specs.Returns.{PopsBack};

    ghost then = { PopsBack };
}

impl<W: Witness> Lesson<Posted, Bag> for TakingAgain<W> {
    ghost use Rattle.group_queue.specs.Witnesses.{SawReturns};

    ghost fact = { SawReturns W.saw_returns };
}

/// Gives one part away.
pub struct CutPart;

impl Split<Bag> for CutPart {
    ghost use Rattle.std.specs.Prelude.{◌-◌, []};
    ghost use Rattle.group_queue.specs.Returns.{bag};

    ghost left = { λ v. bag (v.parts - 1) v.pushed v.popped };

    ghost right = { λ v. bag 1 [] [] };
}

/// Takes in another pass, with its parts.
pub struct TakeParts;

impl Join<Bag> for TakeParts {
    ghost use Rattle.std.specs.Prelude.{[]};
    ghost use Rattle.group_queue.specs.Returns.{bag, joined};

    ghost both = { joined };

    ghost spent = { bag 0 [] [] };
}

/// An empty queue, with the pass of who opened it.
pub fn open<W: LawfulWitness>(alloc: Global) -> Result<(ReturnsQueue<W>, ReturnsPass), AllocError>
    ensures { IfOk result (λ q. IsSegPassOf q.0 q.1 × (bag_of q.1 ≡ bag 64 [] [])) }
{
    ReturnsQueue::<W>::with_rule(alloc)
}

/// Gives one part away.
pub fn cut<W: LawfulWitness>(queue: &ReturnsQueue<W>, pass: &mut ReturnsPass) -> ReturnsPass
    requires queue { IsSegPassOf queue.now pass.old }
    requires parts { 2 ≤ (bag_of pass.old).parts }
    ensures queue { IsSegPassOf queue.now pass.new × IsSegPassOf queue.now result }
    ensures rest { bag_of pass.new ≡ bag ((bag_of pass.old).parts - 1) (bag_of pass.old).pushed (bag_of pass.old).popped }
    ensures part { bag_of result ≡ bag 1 [] [] }
{
    queue.another::<CutPart>(pass)
}

/// Pushes what is given back. It comes back where there is no memory.
pub fn push<W: Witness, R: Wait>(
    rt: &R,
    queue: &ReturnsQueue<W>,
    pass: &mut ReturnsPass,
    posted: Posted,
) -> Result<(), Posted>
    requires queue { IsSegPassOf queue.now pass.old }
    requires parts { 1 ≤ (bag_of pass.old).parts }
    requires small { posted.job.number < u64.MAX }
    requires follows { FollowsPart W.saw_returns pass.old.id }
    ensures queue { IsSegPassOf queue.now pass.new }
    ensures id { pass.new.id ≡ pass.old.id }
    ensures answer { MatchResult result (λ _. PushesBack (bag_of pass.old) posted (bag_of pass.new))
        (λ back. (back ≡ posted) × (bag_of pass.new ≡ bag_of pass.old)) }
{
    queue.push_as::<PuttingBack, R>(rt, pass, posted)
}

/// Pops the front.
pub fn pop<W: Witness, R: Wait>(
    rt: &R,
    queue: &ReturnsQueue<W>,
    pass: &mut ReturnsPass,
) -> Option<Posted>
    requires queue { IsSegPassOf queue.now pass.old }
    requires parts { 1 ≤ (bag_of pass.old).parts }
    requires follows { FollowsPart W.saw_returns pass.old.id }
    ensures queue { IsSegPassOf queue.now pass.new }
    ensures id { pass.new.id ≡ pass.old.id }
    ensures answer { MatchOption result ((bag_of pass.new ≡ bag_of pass.old) × SawReturns W.saw_returns (bag_of pass.old) [])
        (λ posted. PopsBack (bag_of pass.old) posted (bag_of pass.new)) }
{
    queue.pop_as::<TakingAgain<W>, R>(rt, pass)
}

/// Takes in another pass, with its parts and what it knows.
pub fn join<W: LawfulWitness>(queue: &ReturnsQueue<W>, pass: &mut ReturnsPass, other: ReturnsPass)
    requires queue { IsSegPassOf queue.now pass.old × IsSegPassOf queue.now other }
    requires parts { 1 ≤ (bag_of pass.old).parts }
    ensures queue { IsSegPassOf queue.now pass.new }
    ensures all { bag_of pass.new ≡ joined (bag_of pass.old) (bag_of other) }
{
    queue.absorb::<TakeParts>(pass, other);
}
