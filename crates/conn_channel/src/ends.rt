//! The ends of the channel.
ghost use Rattle.std.specs.Prelude.{◌≡◌, ◌≤◌, ◌+◌, ◌-◌, ◌++◌, [], ◌∷◌, if◌then◌else◌, length, vec_capacity, IfOk, MatchResult};
ghost use Rattle.crossbeam_channel.specs.Claims.{view, IsSeatAt};
ghost use Rattle.crossbeam_channel.specs.Ends.{sends_on, receives_on};
ghost use Rattle.conn_channel.specs.Rule.{first_pass_view, pass_view, joined};
ghost use Rattle.conn_channel.specs.Ends.{AreOf, AreReceivers, IsBalanced, IsSettled, Receives, channel_of, end_marks_received_by, lists_of, new_receiver};

use crate::queue;
use crate::queue::{ChannelPass, Receiving, Sending};
use crate::sent::{Received, Sent};
use crate::witness::{LawfulWitness, Nobody, Witness};
use std::alloc::{AllocError, Global};
use std::marker::Model;
use std::sync::Wait;

/// The end that sends connections. It may go to another thread.
///
/// Contracts see it as a `SenderState`: which channel it is, how many ends receive, the connections that were sent, in order, and how many end marks.
#[derive(Drop)]
pub struct Sender<T: Drop, W: LawfulWitness<T> = Nobody> {
    ends: Sending<T, W>,
    pass: ChannelPass<T>,
    receivers: usize,
}

impl<T: Drop, W: LawfulWitness<T>> Model for Sender<T, W> {
    ghost use Rattle.std.specs.Prelude.{◌≡◌, ◌≤◌, ◌-◌, []};
    ghost use Rattle.crossbeam_channel.specs.Claims.{view as known, IsSeatAt};
    ghost use Rattle.crossbeam_channel.specs.Ends.{sends_on};
    ghost use Rattle.conn_channel.specs.Rule.{pass_view};
    ghost use Rattle.conn_channel.specs.Ends.{SenderState, channel_of};

    ghost Value = { SenderState T };

    ghost view = { λ s. record { channel = channel_of s.pass; receivers = s.receivers; sent = (known s.pass).sent; end_marks_sent = (known s.pass).end_marks_sent } };

    ghost invariant = { λ s. IsSeatAt (sends_on s.ends) s.pass × (s.receivers ≤ 64)
        × (known s.pass ≡ pass_view (128 - s.receivers) 1 (known s.pass).sent (known s.pass).end_marks_sent [] 0) };
}

/// An end that receives. It may go to another thread.
///
/// Contracts see it as a `ReceiverState`: which channel it is, the connections that were received by it, in order, and how many end marks, at most one.
#[derive(Drop)]
pub struct Receiver<T: Drop, W: Witness<T> = Nobody> {
    ends: Receiving<T, W>,
    pass: ChannelPass<T>,
    is_ended: bool,
}

impl<T: Drop, W: Witness<T>> Model for Receiver<T, W> {
    ghost use Rattle.std.specs.Prelude.{◌≡◌, if◌then◌else◌};
    ghost use Rattle.crossbeam_channel.specs.Claims.{view as known, IsSeatAt};
    ghost use Rattle.crossbeam_channel.specs.Ends.{receives_on};
    ghost use Rattle.conn_channel.specs.Rule.{receiving_pass_view};
    ghost use Rattle.conn_channel.specs.Ends.{ReceiverState, channel_of, one_list};
    ghost use Rattle.conn_channel.specs.Witnesses.{FollowsReceiver};

    ghost Value = { ReceiverState T };

    ghost view = { λ r. record { channel = channel_of r.pass; received = one_list (known r.pass).received; end_marks_received = (known r.pass).end_marks_received } };

    ghost invariant = { λ r. IsSeatAt (receives_on r.ends) r.pass
        × (known r.pass ≡ receiving_pass_view (one_list (known r.pass).received) (known r.pass).end_marks_received)
        × ((known r.pass).end_marks_received ≡ (if r.is_ended then 1 else 0)) × FollowsReceiver W.saw r.pass.id };
}

/// An empty channel, for [`CAPACITY`](crate::CAPACITY) connections: the end that sends, and so many that receive, at most 64. Takes all the memory
/// that it needs.
///
/// # Errors
///
/// Out of memory.
pub fn open<T: Drop>(
    alloc: Global,
    receivers: usize,
) -> Result<(Sender<T>, Vec<Receiver<T>>), AllocError>
    requires { receivers ≤ 64 }
    ensures sender { IfOk result (λ made. (made.0.receivers ≡ receivers) × (made.0.sent ≡ []) × (made.0.end_marks_sent ≡ 0)) }
    ensures receivers { IfOk result (λ made. AreReceivers made.0.channel receivers made.1.items) }
{
    open_with_witness(alloc, receivers)
}

/// The same as [`open`], of a channel with a witness.
///
/// # Errors
///
/// Out of memory.
pub fn open_with_witness<T: Drop, W: LawfulWitness<T>>(
    alloc: Global,
    receivers: usize,
) -> Result<(Sender<T, W>, Vec<Receiver<T, W>>), AllocError>
    requires { receivers ≤ 64 }
    ensures sender { IfOk result (λ made. (made.0.receivers ≡ receivers) × (made.0.sent ≡ []) × (made.0.end_marks_sent ≡ 0)) }
    ensures receivers { IfOk result (λ made. AreReceivers made.0.channel receivers made.1.items) }
{
    let row = Vec::with_capacity(alloc, receivers)?;
    let (sending, receiving, mut pass) = queue::open(alloc)?;
    let row = seat_receivers(&sending, &receiving, &mut pass, row, receivers)?;
    let sender = Sender {
        ends: sending,
        pass,
        receivers,
    };
    Ok((sender, row))
}

/// Puts so many ends that receive into an empty row that has room for them.
fn seat_receivers<T: Drop, W: LawfulWitness<T>>(
    sending: &Sending<T, W>,
    receiving: &Receiving<T, W>,
    pass: &mut ChannelPass<T>,
    row: Vec<Receiver<T, W>>,
    count: usize,
) -> Result<Vec<Receiver<T, W>>, AllocError>
    requires one { receives_on receiving.now ≡ sends_on sending.now }
    requires pass { IsSeatAt (sends_on sending.now) pass.old × (view pass.old ≡ first_pass_view) }
    requires row { (row.items ≡ []) × (count ≤ vec_capacity row) × (count ≤ 64) }
    ensures pass { IfOk result (λ _. IsSeatAt (sends_on sending.now) pass.new × (view pass.new ≡ pass_view (128 - count) 1 [] 0 [] 0)) }
    ensures channel { IfOk result (λ _. channel_of pass.new ≡ channel_of pass.old) }
    ensures receivers { IfOk result (λ seated. AreReceivers (channel_of pass.old) count seated.items) }
{
    let mut row = row;
    'receivers: for _ in 0..count {
        row.push_reserved(receiver_of(sending, receiving, pass)?);
    }
    Ok(row)
}

/// One more end that receives.
fn receiver_of<T: Drop, W: LawfulWitness<T>>(
    sending: &Sending<T, W>,
    receiving: &Receiving<T, W>,
    pass: &mut ChannelPass<T>,
) -> Result<Receiver<T, W>, AllocError>
    requires one { receives_on receiving.now ≡ sends_on sending.now }
    requires pass { IsSeatAt (sends_on sending.now) pass.old × (2 ≤ (view pass.old).parts) }
    ensures pass { IfOk result (λ _. IsSeatAt (sends_on sending.now) pass.new × (view pass.new ≡ record (view pass.old) { parts = (view pass.old).parts - 1 })) }
    ensures channel { channel_of pass.new ≡ channel_of pass.old }
    ensures receiver { IfOk result (λ receiver. receiver ≡ new_receiver (channel_of pass.old)) }
{
    let ends = receiving.try_clone()?;
    let pass = queue::cut(sending, pass);
    Ok(Receiver {
        ends,
        pass,
        is_ended: false,
    })
}

impl<T: Drop, W: LawfulWitness<T>> Sender<T, W> {
    /// Sends a connection. Waits while the channel is full.
    ///
    /// # Errors
    ///
    /// The connection, where no end that receives is left. Nothing has changed then.
    pub fn send<R: Wait>(&mut self, rt: &R, connection: T) -> Result<(), T>
        requires { self.old.end_marks_sent ≡ 0 }
        ensures { MatchResult result (λ _. self.new ≡ record self.old { sent = self.old.sent ++ connection ∷ [] }) (λ back. (back ≡ connection) × (self.new ≡ self.old)) }
    {
        match queue::send(rt, &self.ends, &mut self.pass, Sent::Connection(connection)) {
            Ok(()) => Ok(()),
            Err(Sent::Connection(connection)) => Err(connection),
            Err(Sent::EndMark) => unreachable!(),
        }
    }

    /// Sends an end mark, after which no connection is sent. Waits while the channel is full. Whether it was sent: it was not where no end that receives
    /// is left.
    pub fn end<R: Wait>(&mut self, rt: &R) -> bool
        ensures { self.new ≡ (if result then record self.old { end_marks_sent = self.old.end_marks_sent + 1 } else self.old) }
    {
        queue::send(rt, &self.ends, &mut self.pass, Sent::EndMark).is_ok()
    }

    /// Takes back all ends that receive. What was sent, in order, is what was received, and after it what is left; what was received is an interleaving of
    /// what each of them received; and nothing is left where one received an end mark.
    pub fn settle(self, receivers: Vec<Receiver<T, W>>)
        requires of { AreOf self.channel receivers.items }
        requires all { length receivers.items ≡ self.receivers }
        ensures settled { IsSettled self receivers.items }
        ensures balance { IsBalanced (length self.sent) receivers.items }
    {
        let Sender {
            ends,
            mut pass,
            receivers: _,
        } = self;
        join_all(&ends, &mut pass, receivers);
        queue::learn(&ends, &mut pass);
    }
}

/// Takes in the passes of all ends that receive.
fn join_all<T: Drop, W: LawfulWitness<T>>(
    ends: &Sending<T, W>,
    pass: &mut ChannelPass<T>,
    receivers: Vec<Receiver<T, W>>,
)
    requires pass { IsSeatAt (sends_on ends.now) pass.old × (1 ≤ (view pass.old).parts) }
    requires of { AreOf (channel_of pass.old) receivers.items }
    ensures pass { IsSeatAt (sends_on ends.now) pass.new }
    ensures all { view pass.new ≡ joined (view pass.old) (pass_view (length receivers.items) 0 [] 0 (lists_of receivers.items) (end_marks_received_by receivers.items)) }
{
    let mut receivers = receivers;
    if let Some(receiver) = receivers.pop() {
        let Receiver {
            ends: _,
            pass: other,
            is_ended: _,
        } = receiver;
        queue::join(ends, pass, other);
        join_all(ends, pass, receivers);
    }
}

impl<T: Drop, W: Witness<T>> Receiver<T, W> {
    /// Whether it received its end mark, after which it receives nothing more.
    pub fn is_ended(&self) -> bool
        ensures { self.now.end_marks_received ≡ (if result then 1 else 0) }
    {
        self.is_ended
    }

    /// Receives what is in front of the channel. [`Received::Nothing`] only where the [`Witness`] saw the channel empty. It waits for nobody but a thread
    /// in the middle of its step.
    pub fn receive<R: Wait>(&mut self, rt: &R) -> Received<T>
        requires { self.old.end_marks_received ≡ 0 }
        ensures { Receives W.saw self.old result self.new }
    {
        match queue::receive(rt, &self.ends, &mut self.pass) {
            Some(Sent::Connection(connection)) => Received::Connection(connection),
            Some(Sent::EndMark) => {
                self.is_ended = true;
                Received::EndMark
            }
            None => Received::Nothing,
        }
    }
}
