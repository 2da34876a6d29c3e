//! Places: where a group hands messages out.
ghost use Rattle.std.specs.Prelude.{◌≡◌, ◌<◌, ◌≤◌, ◌↔◌, IsTrue, All, OnOk, OnErr};
ghost use Rattle.limits.specs.Limits.{most_members};
ghost use Rattle.group_jobs.specs.Stamps.{stamp_of, job_of};

use crate::main_queue::MainPass;
use crate::returns_queue::ReturnsPass;
use crate::witness::{Nobody, Witness};
use dispatch_core::Job;
use group_jobs::{Docket, Envelope, Fate, JobError, Stamp};
use shared_ledger::Giver;
use std::collections::VecDeque;
use std::marker::{Model, PhantomData};

/// Who has it alone takes messages at it. A place belongs to the group that it was opened with, may go to another thread,
/// and keeps in its docket what it has out and what it settled.
///
/// Contracts see it as a `PlaceState`: the group's slot, the place's number, its docket, the messages that it was the first
/// to be handed, those that it was handed again and those that it gave back, in order, what it gave to the group's ledger, and,
/// of the group's last place, how many ports and places there are.
#[derive(Drop)]
pub struct Place<W: Witness = Nobody> {
    pub(crate) group: u8,
    pub(crate) number: u8,
    pub(crate) docket: Docket,
    pub(crate) passes: Passes,
    // Its right to give to the group's ledger what it settled.
    pub(crate) giver: Giver<W>,
    // What is left of the passes of who opened the group, which ends it: it is in the last place.
    pub(crate) keeper: Option<Passes>,
    pub(crate) witness: PhantomData<W>,
}

/// A pass of each of a group's queues.
#[derive(Drop)]
pub struct Passes {
    pub main: MainPass,
    pub returns: ReturnsPass,
}

impl<W: Witness> Model for Place<W> {
    ghost use Rattle.group_queue.specs.Places.{PlaceState};

    ghost Value = { PlaceState };

    ghost use Rattle.group_queue.specs.Takers.{place_of, IsInHands, IsKept};
    ghost use Rattle.group_queue.specs.Witnesses.{FollowsPart, FollowsPlace};

    ghost view = { λ p. place_of p.group p.number p.docket p.passes p.keeper p.giver };

    ghost invariant = { λ p. IsInHands p.number p.docket p.passes p.giver × IsKept p.passes p.keeper × FollowsPart W.saw_returns p.passes.returns.id × FollowsPlace W.saw_main p.number };
}

impl<W: Witness> Place<W> {
    ghost use Rattle.group_queue.specs.Ports.{GroupId};
    ghost use Rattle.group_queue.specs.Places.{Holds, IsBalanced, IsPlaceOf, IsSamePlace, KeepsPlace, KeepsRoom, SettlesHeld};

    /// The slot of its group.
    pub fn slot(&self) -> u8
        ensures { result ≡ self.now.group }
    {
        self.group
    }

    /// Its number in its group, from 0 to 31.
    pub fn number(&self) -> u8
        ensures value { result ≡ self.now.number }
        ensures few { result < most_members }
    {
        self.number
    }

    /// Makes room in its docket for a hand-out and its end, where there is none: then the next
    /// [`SharedGroup::take`](crate::SharedGroup::take) or [`take_back`](crate::SharedGroup::take_back) needs no memory.
    ///
    /// # Errors
    ///
    /// 503 [`JobError::Memory`]. There was no such room.
    pub fn reserve(&mut self) -> Result<(), JobError>
        ensures ok { OnOk result (1 ≤ self.new.docket.room) }
        ensures full { OnErr result (self.old.docket.room ≡ 0) }
        ensures same { KeepsPlace self.old self.new }
        ensures room { KeepsRoom self.old self.new }
        ensures of { (group : GroupId) → IsPlaceOf group self.old → IsPlaceOf group self.new }
    {
        self.docket.reserve()
    }

    /// What it has out, and what it settled and did not gather: each hand-out of a job to it ended once, by a fate or by being given back, or the
    /// job is out.
    pub fn docket(&self) -> &Docket
        ensures value { result.now ≡ self.now.docket }
        ensures balance { IsBalanced self.now }
    {
        &self.docket
    }

    /// The jobs that it has out. Their numbers are those that a run can have.
    pub(crate) fn out(&self) -> &VecDeque<Job>
        ensures value { result.now.items ≡ self.now.docket.out }
        ensures small { All (λ job. job.number < u64.MAX) result.now.items }
    {
        self.docket.out()
    }

    /// Whether an envelope is one that this place has out.
    pub fn holds(&self, envelope: &Envelope) -> bool
        ensures { IsTrue result ↔ Holds self.now envelope.now }
    {
        envelope.stamp().group == self.group
            && envelope.place() == self.number
            && self.docket.has_out(envelope.stamp().job())
    }

    /// Settles a message that this place holds, for good. It waits for nobody and takes no memory.
    pub fn settle(&mut self, envelope: Envelope, fate: Fate) -> Stamp
        requires { Holds self.old envelope }
        ensures stamp { result ≡ envelope.stamp }
        ensures settled { SettlesHeld self.old (job_of envelope.stamp) fate self.new }
        ensures same { IsSamePlace self.old self.new }
        ensures of { (group : GroupId) → IsPlaceOf group self.old → IsPlaceOf group self.new }
    {
        let (stamp, _message) = envelope.open();
        self.docket.settle(stamp.job(), fate);
        stamp
    }
}
