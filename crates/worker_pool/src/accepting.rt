//! How connections are taken from a source and sent to workers.
ghost use Rattle.std.specs.Prelude.{◌≡◌, ◌≢◌, ◌+◌, ◌≤◌, ◌++◌, [], ◌∷◌, length, IfSome, MatchOption};
ghost use Rattle.gate_word.specs.Calls.{Looks, Shuts};
ghost use Rattle.gate_word.specs.Seats.{AreSeatsOf};
ghost use Rattle.worker_pool.specs.Accepting.{EndedAs, HasAccepted, OnlyMarks, TellsEnd};

use crate::network::Network;
use bell::Wake;
use broker_groups::Broker;
use broker_worker::Mailboxes;
use conn_channel::Sender;
use conn_rules::ClientLimits;
use gate_word::{Drained, Gate, GateSeat};
use std::marker::{Model, PhantomData};
use std::rt::Clock;
use std::sync::Wait;
use std::thread;
use std::time::Duration;
use transport::{Arrival, Source, Transport};
use worker_connections::Arrived;

/// For how many milliseconds nothing is taken where every worker has as many connections as it may have.
const FULL_PAUSE: u64 = 10;

/// For how many milliseconds it is waited, again and again, for every worker to begin; and how often.
const BEGIN_PAUSE: u64 = 10;

const MOST_BEGIN_PAUSES: u32 = 1_000;

/// How the source ended.
#[derive(Clone, Copy, Debug, PartialEq, Eq)]
pub enum SourceEnd {
    /// It had ended.
    Ended,
    /// It failed.
    Failed,
    /// Nothing was taken from it: a worker did not begin within ten seconds, as the system made no thread for it.
    Untouched,
}

/// A source, and how many connections were taken from it.
#[derive(Drop)]
pub struct Taken<S> {
    pub source: S,
    /// How it ended.
    pub end: SourceEnd,
    /// How many connections came.
    pub came: u64,
}

/// Who shuts the gate of a broker. Contracts see it as its seat.
#[derive(Drop)]
pub struct Closer<'a, B: Broker> {
    gate: &'a Gate,
    seat: GateSeat,
    of: PhantomData<B>,
}

impl<'a, B: Broker> Model for Closer<'a, B> {
    ghost use Rattle.std.specs.Prelude.{◌≡◌};
    ghost use Rattle.gate_word.specs.Seats.{Seat};

    ghost Value = { Seat };

    ghost view = { λ c. c.seat };

    ghost invariant = { λ c. (c.seat.gate ≡ B.gate) × (c.gate.now ≡ B.gate) };
}

impl<'a, B: Broker> Closer<'a, B> {
    /// Who shuts this gate, by a seat of it.
    pub fn new(gate: &'a Gate, seat: GateSeat) -> Closer<'a, B>
        requires seat { seat.gate ≡ gate.now }
        requires gate { gate.now ≡ B.gate }
        ensures { result ≡ seat }
    {
        Closer {
            gate,
            seat,
            of: PhantomData,
        }
    }

    /// Who shuts this gate, by the last of its seats that are left.
    pub fn take(gate: &'a Gate, seats: &mut Vec<GateSeat>) -> Closer<'a, B>
        requires seats { AreSeatsOf gate.now seats.old.items × (1 ≤ length seats.old.items) }
        requires gate { gate.now ≡ B.gate }
        ensures others { AreSeatsOf gate.now seats.new.items × (length seats.new.items + 1 ≡ length seats.old.items) }
    {
        let Some(seat) = seats.pop() else {
            unreachable!()
        };
        Closer::new(gate, seat)
    }

    /// Shuts it.
    pub fn shut(&mut self)
        ensures { Shuts self.old self.new }
    {
        self.gate.shut(&mut self.seat);
    }

    /// Looks whether it is shut, and nobody is inside.
    pub fn drained(&mut self) -> Option<Drained>
        ensures looks { Looks self.old result self.new }
        ensures gate { IfSome result (λ drained. drained ≡ B.gate) }
    {
        self.gate.drained(&mut self.seat)
    }
}

/// Who takes connections from a source, and says what the client of each is granted at most.
///
/// Contracts see it as an `AcceptorState`.
#[derive(Drop)]
pub(crate) struct Acceptor<'a, B: Broker, W: Network> {
    source: W::Source,
    sender: Sender<Arrived<W::Transport>>,
    mailboxes: &'a Mailboxes<W::Alarm>,
    closer: Closer<'a, B>,
    limits: ClientLimits,
    is_closed: bool,
    // How many connections came.
    came: u64,
    // How the source ended, once it has.
    end: SourceEnd,
}

impl<'a, B: Broker, W: Network> Model for Acceptor<'a, B, W> {
    ghost use Rattle.std.specs.Prelude.{◌≡◌, ◌≤◌, false, length};
    ghost use Rattle.worker_pool.specs.Accepting.{AcceptorState};

    ghost Value = { AcceptorState W.Transport W.Source };

    ghost view = { λ a. record { source = a.source; sender = a.sender; limits = a.limits; end = a.end } };

    ghost invariant = { λ a. (a.is_closed ≡ false → a.sender.end_marks_sent ≡ 0) × (a.came ≡ length a.sender.sent) × (a.came ≤ (W.Source.tally a.source).arrivals) };
}

impl<'a, B: Broker, W: Network> Acceptor<'a, B, W> {
    /// Takes from this source, and sends through this end; the client of each is granted so much at most.
    pub(crate) fn new(
        source: W::Source,
        sender: Sender<Arrived<W::Transport>>,
        mailboxes: &'a Mailboxes<W::Alarm>,
        closer: Closer<'a, B>,
        limits: ClientLimits,
    ) -> Acceptor<'a, B, W>
        requires { (sender.sent ≡ []) × (sender.end_marks_sent ≡ 0) }
        ensures { result ≡ record { source = source; sender = sender; limits = limits; end = SourceEnd.Untouched } }
    {
        Acceptor {
            source,
            sender,
            mailboxes,
            closer,
            limits,
            is_closed: false,
            came: 0,
            end: SourceEnd::Untouched,
        }
    }

    /// The end of the channel.
    pub(crate) fn sender(&self) -> &Sender<Arrived<W::Transport>>
        ensures { result.now ≡ self.now.sender }
    {
        &self.sender
    }

    /// The end of the channel, and what became of the source.
    pub(crate) fn into_parts(self) -> (Sender<Arrived<W::Transport>>, Taken<W::Source>)
        ensures sender { result.0 ≡ self.entry.sender }
        ensures source { result.1.source ≡ self.entry.source }
        ensures came { result.1.came ≡ length self.entry.sender.sent }
        ensures ends { result.1.end ≡ self.entry.end }
    {
        let Acceptor {
            source,
            sender,
            mailboxes: _,
            closer: _,
            limits: _,
            is_closed: _,
            came,
            end,
        } = self;
        (sender, Taken { source, end, came })
    }

    /// Once every worker has begun, takes connections from the source until it has ended or failed, and sends each for the worker that has the fewest. Then the
    /// broker closes: where the source had not ended, the gate is shut; every worker is called, and is sent its end mark.
    pub(crate) fn accept_all<R: Wait + Clock>(&mut self, rt: &R)
        ensures accepted { HasAccepted W.Source.tally W.Source.arrived self.old self.new }
        ensures ends { TellsEnd W.Source.tally self.old self.new }
    {
        self.accept_begun(rt);
        self.shut_unless_ended();
        self.close(rt);
    }

    /// Once every worker has begun, takes connections until the source has ended or failed; none where a worker does not begin in time.
    fn accept_begun<R: Wait + Clock>(&mut self, rt: &R)
        ensures accepted { HasAccepted W.Source.tally W.Source.arrived self.old self.new }
        ensures ends { TellsEnd W.Source.tally self.old self.new }
    {
        if all_begin(rt, self.mailboxes) {
            self.end = self.accept(rt);
        }
    }

    /// Shuts the gate, where the source had not ended.
    fn shut_unless_ended(&mut self)
        ensures { self.new ≡ self.old }
    {
        if self.end != SourceEnd::Ended {
            self.closer.shut();
        }
    }

    /// Takes connections until the source has ended or failed.
    fn accept<R: Wait + Clock>(&mut self, rt: &R) -> SourceEnd
        ensures accepted { HasAccepted W.Source.tally W.Source.arrived self.old self.new }
        ensures ends { EndedAs W.Source.tally result self.old.source self.new.source }
    {
        'arrivals: for _ in rt.forever() {
            match self.mailboxes.least_full() {
                Some(worker) => {
                    if let Some(end) = self.accept_one(rt, worker) {
                        return end;
                    }
                }
                None => thread::sleep(rt, Duration::from_millis(FULL_PAUSE)),
            }
        }
        unreachable!()
    }

    /// Takes what the source gives next, and sends it for this worker. How the source ended, if it did.
    fn accept_one<R: Wait>(&mut self, rt: &R, worker: usize) -> Option<SourceEnd>
        ensures accepted { HasAccepted W.Source.tally W.Source.arrived self.old self.new }
        ensures ends { MatchOption result ((W.Source.tally self.new.source).failures ≡ (W.Source.tally self.old.source).failures) (λ end. EndedAs W.Source.tally end self.old.source self.new.source) }
        ensures asked { IfSome result (λ end. end ≢ SourceEnd.Untouched) }
    {
        if self.is_closed {
            return Some(SourceEnd::Ended);
        }
        if self.source.failures() == u64::MAX || self.source.arrivals() == u64::MAX {
            return Some(SourceEnd::Failed);
        }
        // The users have an owner for each connection that came, so never as many as can be counted.
        let Ok(limits) = self.limits.share() else {
            return None;
        };
        match self.source.next() {
            Arrival::Came(transport) => {
                self.came += 1;
                let arrived = Arrived::new(transport, limits);
                deliver(rt, &mut self.sender, arrived);
                self.mailboxes.invite(worker);
                None
            }
            Arrival::Idle => {
                drop(limits);
                None
            }
            Arrival::End => {
                drop(limits);
                Some(SourceEnd::Ended)
            }
            Arrival::Failed => {
                drop(limits);
                Some(SourceEnd::Failed)
            }
        }
    }

    /// Tells every worker that the broker closes, and sends each its end mark.
    fn close<R: Wait>(&mut self, rt: &R)
        ensures accepted { HasAccepted W.Source.tally W.Source.arrived self.old self.new }
        ensures same { self.new ≡ record self.old { sender = self.new.sender } }
    {
        self.is_closed = true;
        self.mailboxes.close();
        send_marks(rt, &mut self.sender, self.mailboxes.len());
    }
}

/// Waits until every worker has begun, but no longer than ten seconds. Whether they have.
fn all_begin<W: Wake, R: Clock>(rt: &R, mailboxes: &Mailboxes<W>) -> bool {
    for _ in 0..MOST_BEGIN_PAUSES {
        if mailboxes.has_begun() {
            return true;
        }
        thread::sleep(rt, Duration::from_millis(BEGIN_PAUSE));
    }
    false
}

/// Sends a connection. As long as there are workers, there is an end that receives it.
fn deliver<T: Transport + Drop, R: Wait>(
    rt: &R,
    sender: &mut Sender<Arrived<T>>,
    arrived: Arrived<T>,
)
    requires { sender.old.end_marks_sent ≡ 0 }
    ensures { sender.new ≡ record sender.old { sent = sender.old.sent ++ arrived ∷ [] } }
{
    let mut arrived = arrived;
    'tries: for _ in rt.forever() {
        match sender.send(rt, arrived) {
            Ok(()) => return,
            Err(back) => arrived = back,
        }
    }
    unreachable!()
}

/// Sends so many end marks.
fn send_marks<T: Transport + Drop, R: Wait>(rt: &R, sender: &mut Sender<Arrived<T>>, count: usize)
    ensures { OnlyMarks sender.old sender.new }
{
    'marks: for _ in 0..count {
        let _sent = sender.end(rt);
    }
}
