//! Where a group stands, and one step of it.
ghost use Rattle.std.specs.Prelude.{◌≡◌, ◌≢◌, ◌<◌, IsSome, OnOk, OnErr, IfOk, IfErr};
ghost use Rattle.limits.specs.Limits.{most_members, most_ports};
ghost use Rattle.dispatch_core.specs.GroupState.{IsEmpty, spot_of, firsts_of, accepted_of};
ghost use Rattle.dispatch_core.specs.Step.{Step, MayHappen, Moves, KeepsFirsts, KeepsMark};
ghost use Rattle.dispatch_core.specs.Reasons.{IsRefused, IsStuck};
ghost use Rattle.dispatch_core.specs.Lawful.{IsLawful};
ghost use Rattle.dispatch_core.specs.Layout.{AreEmpty};

use crate::error::{RoomError, StepError, Why};
use crate::event::{Event, Job, Spot};
use crate::member::Member;
use crate::port::Port;
use limits::{MOST_MEMBERS, MOST_PORTS};
use std::alloc::{AllocError, Global};
use std::marker::Model;

/// Where a group stands: where each accepted job is, which first hand-outs each member had, and
/// whether the group is closed.
///
/// Contracts see it as a `GroupState`. Each state that there is obeys the laws of a group, `IsLawful`:
/// it has come about by steps.
///
/// It takes a few bytes for each job that was accepted, and for each first hand-out.
#[derive(Debug, Drop)]
pub struct State {
    ports: Vec<Port>,
    members: Vec<Member>,
    closed: bool,
}

impl Model for State {
    ghost use Rattle.dispatch_core.specs.GroupState.{GroupState};
    ghost use Rattle.dispatch_core.specs.Layout.{state_of, IsKept};

    ghost Value = { GroupState };

    ghost view = { λ state. state_of state.ports.items state.members.items state.closed };

    ghost invariant = { λ state. IsKept state.ports.items state.members.items state.closed };
}

impl State {
    /// A group before its first event: nothing was accepted or handed out, and it is open.
    ///
    /// # Errors
    ///
    /// 302 [`RoomError::Memory`] where there is no memory for its ports and members.
    pub fn new(alloc: Global) -> Result<State, RoomError>
        ensures { IfOk result IsEmpty }
    {
        Ok(State {
            ports: empty_ports(alloc)?,
            members: empty_members(alloc)?,
            closed: false,
        })
    }

    /// Does one event. It takes memory for `Accept` and `First` alone, and the time does not depend on
    /// the number of jobs, but for the growth of a list now and then.
    ///
    /// # Errors
    ///
    /// 301 [`StepError::Stuck`] where the event may not happen, with the first reason that holds. 302
    /// [`StepError::Memory`] where it may, and memory was refused. The state is unchanged then.
    pub fn step(&mut self, event: Event) -> Result<(), StepError>
        ensures ok { OnOk result (Step self.old event self.new) }
        ensures refused { IfErr result (IsRefused self.old event) }
        ensures unchanged { OnErr result (self.new ≡ self.old) }
    {
        if let Err(why) = self.check(event) {
            return Err(StepError::Stuck { why });
        }
        match event {
            Event::Accept { port } => self.accept(port)?,
            Event::First { member, job } => self.hand_out(member, job)?,
            Event::Ack { member, job } => self.put(job, Spot::Acked(member)),
            Event::Refuse { member, job } => self.put(job, Spot::Refused(member)),
            Event::Discard { member, job } => self.put(job, Spot::Discarded(member)),
            Event::Back { job, .. } => self.put(job, Spot::Returned),
            Event::Again { member, job } => self.put(job, Spot::Held(member)),
            Event::Close => self.closed = true,
        }
        Ok(())
    }

    /// Where a job is; `None` where it was not accepted. It takes no memory.
    pub fn spot(&self, job: Job) -> Option<Spot>
        ensures value { result ≡ spot_of self.now job }
        ensures lawful { IsLawful self.now }
    {
        self.ports.get(usize::from(job.port))?.get(job.number)
    }

    /// The jobs whose first hand-out was to this member, in that order; none for a member from 32 on. It
    /// takes no memory.
    pub fn firsts(&self, member: u8) -> &[Job]
        ensures value { result.now ≡ firsts_of self.now member }
        ensures lawful { IsLawful self.now }
    {
        match self.members.get(usize::from(member)) {
            Some(member) => member.firsts(),
            None => &[],
        }
    }

    /// How many jobs a port accepted: their numbers are those below. None for a port from 64 on. It takes
    /// no memory.
    pub fn accepted(&self, port: u8) -> u64
        ensures value { result ≡ accepted_of self.now port }
        ensures lawful { IsLawful self.now }
    {
        match self.ports.get(usize::from(port)) {
            Some(port) => port.len(),
            None => 0,
        }
    }

    /// Whether the group is closed: nothing is accepted or handed out any more.
    pub fn closed(&self) -> bool
        ensures value { result ≡ self.now.closed }
        ensures lawful { IsLawful self.now }
    {
        self.closed
    }

    /// A port accepts its next job. Nothing has changed where memory is refused.
    fn accept(&mut self, port: u8) -> Result<(), AllocError>
        requires { MayHappen self.old (Event.Accept port) }
        ensures ok { OnOk result (Step self.old (Event.Accept port) self.new) }
        ensures err { OnErr result (self.new ≡ self.old) }
    {
        self.ports[usize::from(port)].accept()
    }

    /// A member is handed a job for the first time. Nothing has changed where memory is refused.
    fn hand_out(&mut self, member: u8, job: Job) -> Result<(), AllocError>
        requires { MayHappen self.old (Event.First member job) }
        ensures ok { OnOk result (Step self.old (Event.First member job) self.new) }
        ensures err { OnErr result (self.new ≡ self.old) }
    {
        self.members[usize::from(member)].note(job)?;
        self.ports[usize::from(job.port)].hand_out(job.number, member);
        Ok(())
    }

    /// A job that was handed out comes to another such spot.
    fn put(&mut self, job: Job, spot: Spot)
        requires in_range { job.port < most_ports }
        requires accepted { IsSome (spot_of self.old job) }
        requires was { spot_of self.old job ≢ Some Spot.Queued }
        requires is { spot ≢ Spot.Queued }
        ensures moved { Moves self.old job spot self.new }
        ensures firsts { KeepsFirsts self.old self.new }
        ensures mark { KeepsMark self.old self.new }
    {
        self.ports[usize::from(job.port)].put(job.number, spot);
    }

    /// Whether an event may happen.
    ///
    /// # Errors
    ///
    /// The first reason that holds where it may not.
    fn check(&self, event: Event) -> Result<(), Why>
        ensures ok { OnOk result (MayHappen self.now event) }
        ensures err { IfErr result (IsStuck self.now event) }
    {
        if !event.is_in_range() {
            return Err(Why::Range);
        }
        if self.closed && event.needs_open() {
            return Err(Why::Closed);
        }
        match event {
            Event::Accept { .. } | Event::Close => Ok(()),
            Event::First { job, .. } => self.ports[usize::from(job.port)].check_oldest(job.number),
            Event::Ack { member, job }
            | Event::Refuse { member, job }
            | Event::Discard { member, job }
            | Event::Back { member, job } => match self.spot(job) {
                Some(Spot::Held(holder)) if holder == member => Ok(()),
                _ => Err(Why::NotHeld),
            },
            Event::Again { job, .. } => match self.spot(job) {
                Some(Spot::Returned) => Ok(()),
                _ => Err(Why::NotReturned),
            },
        }
    }
}

/// The rows of 64 ports that accepted nothing.
fn empty_ports(alloc: Global) -> Result<Vec<Port>, AllocError>
    ensures { IfOk result (λ ports. AreEmpty ports.items most_ports) }
{
    let mut ports = Vec::with_capacity(alloc, usize::from(MOST_PORTS))?;
    for _port in 0..MOST_PORTS {
        ports.push(Port::new(alloc))?;
    }
    Ok(ports)
}

/// The lists of 32 members that were handed nothing.
fn empty_members(alloc: Global) -> Result<Vec<Member>, AllocError>
    ensures { IfOk result (λ members. AreEmpty members.items most_members) }
{
    let mut members = Vec::with_capacity(alloc, usize::from(MOST_MEMBERS))?;
    for _member in 0..MOST_MEMBERS {
        members.push(Member::new(alloc))?;
    }
    Ok(members)
}
