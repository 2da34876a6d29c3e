//! The main queue: what was accepted and never handed out, the oldest first. It is a bounded queue of `crossbeam_queue`
//! under the rule that it has a past: whoever pushed and popped, in whatever order, what each of them did is read off that
//! one past. So each step owes the queue that the past goes on, and tells what it added to it.
ghost use Rattle.std.specs.Prelude.{◌≡◌, ◌<◌, ◌+◌, ◌++◌, true, false, List, [], ◌∷◌, length, IfOk, MatchResult, MatchOption};
ghost use Rattle.limits.specs.Limits.{most_accepted};
ghost use Rattle.group_queue.specs.declared.posted.Posted.{Posted as posted_type};
ghost use Rattle.crossbeam_queue.specs.Fifo.{Held};
ghost use Rattle.crossbeam_queue.specs.Passes.{view, IsPassOf, IsSamePass, ruled_capacity};
ghost use Rattle.group_queue.specs.declared.view.Name.TheVariants as names;
ghost use Rattle.group_queue.specs.Views.{one, keeper, joined, IsOf, IsEnding, list_in};
ghost use Rattle.group_queue.specs.Past.{Stands, Adds, Takes};
ghost use Rattle.group_queue.specs.Witnesses.{FollowsPort, FollowsPlace, SawMain};

use crate::posted::Posted;
use crate::view::View;
use crate::witness::{LawfulWitness, Witness};
use crossbeam_queue::protocol::{Join, Lesson, Outcome, Protocol, Split};
use crossbeam_queue::{Pass, RuledArrayQueue};
use std::alloc::{AllocError, Global};
use std::marker::PhantomData;
use std::sync::Wait;

/// The queue has a past, and the witness sees it.
pub struct Past<W> {
    of: PhantomData<W>,
}

impl<W: Witness> Protocol<Posted, View> for Past<W> {
    ghost use Rattle.group_queue.specs.Views.{keeper};
    ghost use Rattle.group_queue.specs.Past.{HasPast};

    ghost holds = { λ items views. HasPast items views × W.saw_main items views };

    ghost first = { keeper 0 0 };
}

pub type MainQueue<W> = RuledArrayQueue<Posted, View, Past<W>, Global>;

pub type MainPass = Pass<Posted, View>;

/// A push at the back, or a look at a full queue.
pub struct Adding<W> {
    of: PhantomData<W>,
}

impl<W: Witness> Outcome<Posted, View> for Adding<W> {
    ghost use Rattle.group_queue.specs.Past.{Adds};

    ghost then = { Adds };
}

impl<W: Witness> Lesson<Posted, View> for Adding<W> {
    ghost use Rattle.group_queue.specs.Witnesses.{SawMain};

    ghost fact = { SawMain W.saw_main };
}

/// A pop at the front, or a look at an empty queue.
pub struct Taking<W> {
    of: PhantomData<W>,
}

impl<W: Witness> Outcome<Posted, View> for Taking<W> {
    ghost use Rattle.group_queue.specs.Past.{Takes};

    ghost then = { Takes };
}

impl<W: Witness> Lesson<Posted, View> for Taking<W> {
    ghost use Rattle.group_queue.specs.Witnesses.{SawMain};

    ghost fact = { SawMain W.saw_main };
}

/// A pop at the front at the end of a group, or a look.
pub struct TakingLeft;

impl Outcome<Posted, View> for TakingLeft {
    ghost use Rattle.group_queue.specs.Past.{Takes};

    ghost then = { Takes };
}

impl Lesson<Posted, View> for TakingLeft {
    ghost use Rattle.group_queue.specs.Past.{Stands};

    ghost fact = { Stands };
}

/// Gives the next port away.
pub struct CutPort;

impl Split<View> for CutPort {
    ghost use Rattle.std.specs.Prelude.{◌+◌, []};
    ghost use Rattle.group_queue.specs.declared.view.Name.TheVariants.{Port};
    ghost use Rattle.group_queue.specs.Views.{one, keeper};

    ghost left = { λ v. keeper (v.ports + 1) v.places };

    ghost right = { λ v. one (Port v.ports) [] };
}

/// Gives the next place away.
pub struct CutPlace;

impl Split<View> for CutPlace {
    ghost use Rattle.std.specs.Prelude.{◌+◌, []};
    ghost use Rattle.group_queue.specs.declared.view.Name.TheVariants.{Place};
    ghost use Rattle.group_queue.specs.Views.{one, keeper};

    ghost left = { λ v. keeper v.ports (v.places + 1) };

    ghost right = { λ v. one (Place v.places) [] };
}

/// Takes in what another pass knows.
pub struct TakeIn;

impl Join<View> for TakeIn {
    ghost use Rattle.group_queue.specs.Views.{joined, nobody};

    ghost both = { joined };

    ghost spent = { nobody };
}

/// An empty queue of this capacity, with the pass of who opened it.
pub fn open<W: LawfulWitness>(
    alloc: Global,
    capacity: usize,
) -> Result<(MainQueue<W>, MainPass), AllocError>
    requires { 0 < capacity }
    ensures { IfOk result (λ q. (ruled_capacity q.0 ≡ capacity) × IsPassOf q.0 q.1 × (view q.1 ≡ keeper 0 0)) }
{
    MainQueue::<W>::ruled(alloc, capacity)
}

/// Gives the next port away.
pub fn cut_port<W: LawfulWitness>(queue: &MainQueue<W>, pass: &mut MainPass) -> MainPass
    requires queue { IsPassOf queue.now pass.old }
    requires keeper { view pass.old ≡ keeper (view pass.old).ports (view pass.old).places }
    ensures queue { IsPassOf queue.now pass.new × IsPassOf queue.now result }
    ensures rest { view pass.new ≡ keeper ((view pass.old).ports + 1) (view pass.old).places }
    ensures port { view result ≡ one (names.Port (view pass.old).ports) [] }
{
    queue.another::<CutPort>(pass)
}

/// Gives the next place away.
pub fn cut_place<W: LawfulWitness>(queue: &MainQueue<W>, pass: &mut MainPass) -> MainPass
    requires queue { IsPassOf queue.now pass.old }
    requires keeper { view pass.old ≡ keeper (view pass.old).ports (view pass.old).places }
    ensures queue { IsPassOf queue.now pass.new × IsPassOf queue.now result }
    ensures rest { view pass.new ≡ keeper (view pass.old).ports ((view pass.old).places + 1) }
    ensures place { view result ≡ one (names.Place (view pass.old).places) [] }
{
    queue.another::<CutPlace>(pass)
}

/// Pushes a port's next message.
pub fn push<W: Witness, R: Wait>(
    rt: &R,
    queue: &MainQueue<W>,
    pass: &mut MainPass,
    posted: Posted,
) -> Result<(), Posted>
    requires queue { IsPassOf queue.now pass.old }
    requires port { IsOf (names.Port posted.job.port) (view pass.old) }
    requires next { posted.job.number ≡ length (list_in (view pass.old)) }
    requires few { posted.job.number < most_accepted }
    requires follows { FollowsPort W.saw_main posted.job.port }
    ensures queue { IsPassOf queue.now pass.new }
    ensures answer { MatchResult result (λ _. Adds (view pass.old) posted (view pass.new))
        (λ back. (back ≡ posted) × (view pass.new ≡ view pass.old) × Held (ruled_capacity queue.now) (SawMain W.saw_main (view pass.old))) }
{
    queue.push_as::<Adding<W>, R>(rt, pass, posted)
}

/// Pops the front for a place.
pub fn pop<W: Witness, R: Wait>(
    rt: &R,
    queue: &MainQueue<W>,
    pass: &mut MainPass,
    place: u8,
) -> Option<Posted>
    requires queue { IsPassOf queue.now pass.old }
    requires place { IsOf (names.Place place) (view pass.old) }
    requires follows { FollowsPlace W.saw_main place }
    ensures queue { IsPassOf queue.now pass.new }
    ensures answer { MatchOption result ((view pass.new ≡ view pass.old) × Held 0 (SawMain W.saw_main (view pass.old)))
        (λ posted. Takes (view pass.old) posted (view pass.new)) }
{
    let _ = place;
    queue.pop_as::<Taking<W>, R>(rt, pass)
}

/// Takes in another pass, with what it knows.
pub fn join<W: LawfulWitness>(queue: &MainQueue<W>, pass: &mut MainPass, other: MainPass)
    requires queue { IsPassOf queue.now pass.old × IsPassOf queue.now other }
    requires given { (view other).keeps ≡ false }
    ensures queue { IsPassOf queue.now pass.new }
    ensures all { view pass.new ≡ joined (view pass.old) (view other) }
{
    queue.absorb::<TakeIn>(pass, other);
}

/// Pops the front for who ends the group.
pub fn pop_left<W: LawfulWitness, R: Wait>(
    rt: &R,
    queue: &MainQueue<W>,
    pass: &mut MainPass,
) -> Option<Posted>
    requires queue { IsPassOf queue.now pass.old }
    requires ending { IsEnding (view pass.old) }
    ensures queue { IsPassOf queue.now pass.new }
    ensures answer { MatchOption result ((view pass.new ≡ view pass.old) × Held 0 (Stands (view pass.old)))
        (λ posted. Takes (view pass.old) posted (view pass.new)) }
{
    queue.pop_as::<TakingLeft, R>(rt, pass)
}

/// Looks at the queue, which holds something or nothing.
pub fn look<W: LawfulWitness>(queue: &MainQueue<W>, pass: &mut MainPass)
    requires queue { IsPassOf queue.now pass.old }
    ensures queue { IsPassOf queue.now pass.new }
    ensures same { view pass.new ≡ view pass.old }
    ensures stands { (items : List posted_type) × Stands (view pass.old) items }
{
    queue.learn_as::<TakingLeft>(pass);
}
