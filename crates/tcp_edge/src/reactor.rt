//! Where a worker waits for its connections and for its bell.
ghost use Rattle.std.specs.Prelude.{◌≡◌, ◌<◌, ◌≤◌, ◌+◌, ◌++◌, [], false, length, replicate, position, not, vec_len, vec_capacity, ◌⊎◌, IfOk, OnErr, OnOk};
ghost use Rattle.std.specs.List.{cons_option, list_any};
ghost use Rattle.mio.specs.Events.{items, capacity as events_capacity};
ghost use Rattle.tcp_edge.specs.Reactors.{AreFree, IsSeated, LetsGo, Registers, Takes, Waits, is_alarm, is_taken, most_sources, reactor_error_of, readies, tell};
ghost use Rattle.tcp_edge.specs.declared.reactor.ReactorError.TheVariants.{Full};

use crate::source::is_without_descriptors;
use bell::Wake;
use mio::event::{Event, Source};
use mio::{Events, Interest, Poll, Token, Waker};
use std::alloc::Global;
use std::io;
use std::io::ErrorKind;
use std::marker::Model;
use std::net::Net;
use std::sync::Wait;
use std::time::Duration;
use thiserror::Error;

/// The most that one reactor watches: 1,024 connections and a listener.
pub const MOST_SOURCES: usize = 1_025;

// The token of what wakes the worker: no number of a source.
const ALARM: usize = 1_025;

// What one wait can tell of: each source, and the alarm.
const MOST_EVENTS: usize = 1_026;

/// Why a reactor did not do what was asked.
#[derive(Clone, Copy, Debug, PartialEq, Eq, Error)]
pub enum ReactorError {
    /// It watches as many sources as it can.
    #[error("the reactor is full")]
    Full,
    /// The process, or the system, has as many file descriptors as it may.
    #[error("too few file descriptors")]
    TooFewDescriptors,
    /// The system refused.
    #[error("the system refused")]
    System,
    /// There is no memory.
    #[error("no memory for a reactor")]
    Memory,
}

impl ReactorError {
    /// What it means that the system gave no place to wait at, or refused a source.
    pub fn of(error: &io::Error) -> ReactorError
        ensures { result ≡ reactor_error_of error.now }
    {
        if is_without_descriptors(error) {
            ReactorError::TooFewDescriptors
        } else {
            ReactorError::System
        }
    }
}

/// What a source is ready for, as the system told. A call of it may still be idle.
#[derive(Clone, Copy, Debug, PartialEq, Eq)]
pub struct Ready {
    /// The number under which it was registered.
    pub number: usize,
    /// Something may be read, or the end.
    pub readable: bool,
    /// Something may be written.
    pub writable: bool,
    /// The peer has ended its stream, or the source failed: nothing tells of it again, so go on reading until it has ended. Where
    /// this was not told, a read that gives less than its buffer has room for is the last one that is worth a call.
    pub closed: bool,
}

/// Wakes the worker of a reactor, from any thread.
#[derive(Drop)]
pub struct Alarm {
    waker: Waker,
}

impl Wake for Alarm {
    fn wake(&self) {
        let _refused = self.waker.wake();
    }
}

/// The one place where a worker waits: for up to [`MOST_SOURCES`] sources, and for its [`Alarm`].
///
/// Contracts see it as a `ReactorState`: which numbers are taken, and what the last wait told that was not taken up.
#[derive(Drop)]
pub struct Reactor {
    poll: Poll,
    events: Events,
    seats: Vec<bool>,
    ready: Vec<Ready>,
}

impl Model for Reactor {
    ghost use Rattle.std.specs.Prelude.{◌≡◌, ◌≤◌, length, vec_capacity};
    ghost use Rattle.mio.specs.Events.{capacity as events_capacity};
    ghost use Rattle.tcp_edge.specs.Reactors.{ReactorState, most_sources};

    ghost Value = { ReactorState };

    ghost view = { λ r. record { seats = r.seats.items; ready = r.ready.items } };

    ghost invariant = { λ r. (length r.seats.items ≡ most_sources) × (events_capacity r.events ≡ 1026) × (1026 ≤ vec_capacity r.ready) };
}

/// Whether this number is taken.
fn is_taken_in(seats: &[bool], number: usize) -> bool
    ensures { result ≡ is_taken seats.now number }
{
    match seats.get(number) {
        Some(taken) => *taken,
        None => false,
    }
}

/// The least number that is not taken.
fn free_seat(seats: &[bool]) -> Option<usize>
    ensures { result ≡ position not seats.now }
{
    seats.iter().position(|taken| !*taken)
}

/// Whether the alarm is among these.
fn rang(events: &Events) -> bool
    ensures { result ≡ list_any is_alarm (items events.now) }
{
    events.iter().any(|event| event.token() == Token(ALARM))
}

/// What an event tells, where its number is taken.
fn told(event: &Event, seats: &[bool]) -> Option<Ready>
    ensures { result ≡ tell seats.now event.now }
{
    let number = event.token().0;
    if is_taken_in(seats, number) {
        Some(Ready {
            number,
            readable: event.is_readable() || event.is_read_closed() || event.is_error(),
            writable: event.is_writable() || event.is_write_closed(),
            closed: event.is_read_closed() || event.is_error(),
        })
    } else {
        None
    }
}

/// Puts down what an event tells.
fn tell_one(event: &Event, seats: &[bool], ready: &mut Vec<Ready>)
    requires room { vec_len ready.old < vec_capacity ready.old }
    ensures told { ready.new.items ≡ ready.old.items ++ cons_option (tell seats.now event.now) [] }
    ensures one { vec_len ready.new ≤ vec_len ready.old + 1 }
    ensures room { vec_capacity ready.new ≡ vec_capacity ready.old }
{
    if let Some(one) = told(event, seats) {
        ready.push_reserved(one);
    }
}

/// Puts down what events tell.
#[tactic(auto, using(crate::proofs::Telling::one_more_told))]
fn tell_all(events: &[Event], seats: &[bool], ready: &mut Vec<Ready>)
    requires empty { ready.old.items ≡ [] }
    requires room { length events.now ≤ vec_capacity ready.old }
    ensures told { ready.new.items ≡ readies seats.now events.now }
    ensures room { vec_capacity ready.new ≡ vec_capacity ready.old }
{
    for event in events {
        tell_one(event, seats, ready);
    }
}

/// As many seats as there are numbers, of which none is taken.
fn free_seats(alloc: Global) -> Result<Vec<bool>, ReactorError>
    ensures { IfOk result (λ seats. seats.items ≡ replicate most_sources false) }
{
    match vec![in alloc; false; MOST_SOURCES] {
        Ok(seats) => Ok(seats),
        Err(_) => Err(ReactorError::Memory),
    }
}

/// Room for what a wait tells.
fn room(alloc: Global) -> Result<(Vec<Ready>, Events), ReactorError>
    ensures ready { IfOk result (λ room. (room.0.items ≡ []) × (1026 ≤ vec_capacity room.0)) }
    ensures events { IfOk result (λ room. events_capacity room.1 ≡ 1026) }
{
    let ready = Vec::with_capacity(alloc, MOST_EVENTS).map_err(|_| ReactorError::Memory)?;
    let events = Events::with_capacity(alloc, MOST_EVENTS).map_err(|_| ReactorError::Memory)?;
    Ok((ready, events))
}

impl Reactor {
    /// A reactor that watches nothing, and what wakes its worker. Takes all the memory that it needs.
    ///
    /// # Errors
    ///
    /// [`ReactorError::Memory`], [`ReactorError::TooFewDescriptors`], [`ReactorError::System`].
    pub fn open(net: &impl Net, alloc: Global) -> Result<(Reactor, Alarm), ReactorError>
        ensures { IfOk result (λ opened. AreFree opened.0) }
    {
        let seats = free_seats(alloc)?;
        let (ready, events) = room(alloc)?;
        let poll = Poll::new(net).map_err(|e| ReactorError::of(&e))?;
        let waker = Waker::new(poll.registry(), Token(ALARM)).map_err(|e| ReactorError::of(&e))?;
        let reactor = Reactor {
            poll,
            events,
            seats,
            ready,
        };
        Ok((reactor, Alarm { waker }))
    }

    /// Whether a source is watched under this number.
    pub fn has(&self, number: usize) -> bool
        ensures { result ≡ is_taken self.now.seats number }
    {
        is_taken_in(&self.seats, number)
    }

    /// Watches a source, under the least number that is not taken.
    ///
    /// # Errors
    ///
    /// [`ReactorError::Full`] where all are taken, [`ReactorError::System`]. Nothing has changed then.
    pub fn register<S: Source>(&mut self, source: &mut S) -> Result<usize, ReactorError>
        ensures registers { Registers self.old result self.new }
        ensures kept { OnOk result (S.keeps source.old source.new) }
        ensures refused { OnErr result ((source.new ≡ source.old) ⊎ S.keeps source.old source.new) }
    {
        let Some(number) = free_seat(&self.seats) else {
            return Err(ReactorError::Full);
        };
        let both = Interest::READABLE | Interest::WRITABLE;
        let answer = self.poll.registry().register(source, Token(number), both);
        match answer {
            Ok(()) => {
                self.seats[number] = true;
                Ok(number)
            }
            Err(_) => Err(ReactorError::System),
        }
    }

    /// Watches a source no more. Its number is free from then on, also where the system refused; it may still stand in what
    /// the last wait told.
    ///
    /// # Errors
    ///
    /// [`ReactorError::System`]: the source watches nothing once it is dropped.
    pub fn unwatch<S: Source>(&mut self, number: usize, source: &mut S) -> Result<(), ReactorError>
        requires { IsSeated self.old.seats number }
        ensures lets_go { LetsGo number self.old self.new }
        ensures kept { S.keeps source.old source.new }
    {
        self.seats[number] = false;
        let answer = self.poll.registry().deregister(source);
        answer.map_err(|_| ReactorError::System)
    }

    /// Waits until a source is ready, or the alarm rang, or the time is up, or for less, as at a signal. Answers whether the
    /// alarm rang.
    ///
    /// A source is told of when it becomes ready, and once: go on with it until it is idle, or as [`Ready::closed`] says.
    ///
    /// # Errors
    ///
    /// [`ReactorError::System`]: nothing is told of then.
    pub fn wait(&mut self, _rt: &impl Wait, at_most: Duration) -> Result<bool, ReactorError>
        ensures { Waits self.old result self.new }
    {
        self.ready.clear();
        match self.poll.poll(&mut self.events, Some(at_most)) {
            Ok(()) => {
                tell_all(self.events.iter().as_slice(), &self.seats, &mut self.ready);
                Ok(rang(&self.events))
            }
            Err(e) if e.kind() == ErrorKind::Interrupted => Ok(false),
            Err(_) => Err(ReactorError::System),
        }
    }

    /// Takes up one of the sources that the last wait told of, the last one first.
    pub fn take_ready(&mut self) -> Option<Ready>
        ensures { Takes self.old result self.new }
    {
        self.ready.pop()
    }
}
