//! The channel: one of `crossbeam_channel`, under the rule that what was sent, in order, is what was received and after it what is in the channel, and that
//! no connection is after an end mark.
ghost use Rattle.std.specs.Prelude.{◌≡◌, ◌≤◌, ◌-◌, List, [], IfOk, MatchOption, MatchResult};
ghost use Rattle.crossbeam_channel.specs.Claims.{view, IsSeatAt};
ghost use Rattle.crossbeam_channel.specs.Ends.{sends_on, receives_on};
ghost use Rattle.crossbeam_channel.specs.Err.{send_message};
ghost use Rattle.conn_channel.specs.Rule.{first_pass_view, receiving_pass_view, joined, sending, receiving, KnowsAll, MaySend, MayReceive};
ghost use Rattle.conn_channel.specs.Witnesses.{FollowsReceiver, Saw};
ghost use Rattle.conn_channel.specs.declared.sent.Sent.{Sent as Item};

use crate::sent::Sent;
use crate::view::PassView;
use crate::witness::{LawfulWitness, Witness};
use crossbeam_channel::protocol::{Join, Lesson, Outcome, Protocol, Split};
use crossbeam_channel::{Pass, RuledReceiver, RuledSender, SendError, TryRecvError, bounded_with};
use std::alloc::{AllocError, Global};
use std::marker::PhantomData;
use std::sync::Wait;

/// How many connections may wait in the channel.
pub const CAPACITY: usize = 64;

/// What was sent, in order, is what was received and after it what is in the channel, and no connection is after an end mark; and the witness sees it.
pub struct Conserving<W> {
    of: PhantomData<W>,
}

impl<T, W: Witness<T>> Protocol<Sent<T>, PassView<T>> for Conserving<W> {
    ghost use Rattle.conn_channel.specs.Rule.{Conserves, first_pass_view};

    ghost holds = { λ items views. Conserves items views × W.saw items views };

    ghost first = { first_pass_view };
}

pub(crate) type Sending<T, W> = RuledSender<Sent<T>, PassView<T>, Conserving<W>>;

pub(crate) type Receiving<T, W> = RuledReceiver<Sent<T>, PassView<T>, Conserving<W>>;

pub(crate) type ChannelPass<T> = Pass<Sent<T>, PassView<T>>;

/// Something is sent.
pub(crate) struct Putting;

impl<T> Outcome<Sent<T>, PassView<T>> for Putting {
    ghost use Rattle.std.specs.Prelude.{◌≡◌};
    ghost use Rattle.conn_channel.specs.Rule.{sending};

    ghost then = { λ v x w. w ≡ sending v x };
}

impl<T> Lesson<Sent<T>, PassView<T>> for Putting {
    ghost use Rattle.std.specs.Prelude.{⊤};

    ghost fact = { λ _ _. ⊤ };
}

/// Something is received, or a look at an empty channel.
pub(crate) struct Getting<W> {
    of: PhantomData<W>,
}

impl<T, W: Witness<T>> Outcome<Sent<T>, PassView<T>> for Getting<W> {
    ghost use Rattle.std.specs.Prelude.{◌≡◌};
    ghost use Rattle.conn_channel.specs.Rule.{receiving};

    ghost then = { λ v x w. w ≡ receiving v x };
}

impl<T, W: Witness<T>> Lesson<Sent<T>, PassView<T>> for Getting<W> {
    ghost use Rattle.conn_channel.specs.Witnesses.{Saw};

    ghost fact = { Saw W.saw };
}

/// Who has every part knows of all.
pub(crate) struct Totals;

impl<T> Lesson<Sent<T>, PassView<T>> for Totals {
    ghost use Rattle.conn_channel.specs.Rule.{KnowsAll};

    ghost fact = { KnowsAll };
}

/// Gives one part away, to an end that receives.
pub(crate) struct CutPart;

impl<T> Split<PassView<T>> for CutPart {
    ghost use Rattle.std.specs.Prelude.{◌-◌, []};
    ghost use Rattle.conn_channel.specs.Rule.{receiving_pass_view};

    ghost left = { λ v. record v { parts = v.parts - 1 } };

    ghost right = { λ v. receiving_pass_view [] 0 };
}

/// Takes in another pass.
pub(crate) struct TakeParts;

impl<T> Join<PassView<T>> for TakeParts {
    ghost use Rattle.conn_channel.specs.Rule.{joined, no_pass_view};

    ghost both = { joined };

    ghost spent = { no_pass_view };
}

/// The two ends of an empty channel, with the pass of who opened it.
pub(crate) fn open<T: Drop, W: LawfulWitness<T>>(
    alloc: Global,
) -> Result<(Sending<T, W>, Receiving<T, W>, ChannelPass<T>), AllocError>
    ensures { IfOk result (λ made. (receives_on made.1 ≡ sends_on made.0) × IsSeatAt (sends_on made.0) made.2 × (view made.2 ≡ first_pass_view)) }
{
    bounded_with(alloc, CAPACITY)
}

/// Gives one part away, to an end that receives.
pub(crate) fn cut<T: Drop, W: LawfulWitness<T>>(
    ends: &Sending<T, W>,
    pass: &mut ChannelPass<T>,
) -> ChannelPass<T>
    requires channel { IsSeatAt (sends_on ends.now) pass.old }
    requires parts { 2 ≤ (view pass.old).parts }
    ensures channel { IsSeatAt (sends_on ends.now) pass.new × IsSeatAt (sends_on ends.now) result }
    ensures left { view pass.new ≡ record (view pass.old) { parts = (view pass.old).parts - 1 } }
    ensures right { view result ≡ receiving_pass_view [] 0 }
{
    ends.another::<CutPart>(pass)
}

/// Sends, and waits while the channel is full. What was to be sent comes back where nobody receives any more.
pub(crate) fn send<T: Drop, W: LawfulWitness<T>, R: Wait>(
    rt: &R,
    ends: &Sending<T, W>,
    pass: &mut ChannelPass<T>,
    item: Sent<T>,
) -> Result<(), Sent<T>>
    requires channel { IsSeatAt (sends_on ends.now) pass.old }
    requires right { (view pass.old).sends ≡ 1 }
    requires parts { 1 ≤ (view pass.old).parts }
    requires may { MaySend (view pass.old) item }
    ensures channel { IsSeatAt (sends_on ends.now) pass.new }
    ensures sent { MatchResult result (λ _. view pass.new ≡ sending (view pass.old) item) (λ back. (back ≡ item) × (view pass.new ≡ view pass.old)) }
{
    match ends.send_as::<Putting, R>(rt, pass, item) {
        Ok(()) => Ok(()),
        Err(refused) => Err(back_of(refused)),
    }
}

/// What was to be sent.
fn back_of<T: Drop>(refused: SendError<Sent<T>>) -> Sent<T>
    ensures { result ≡ send_message refused }
{
    match refused {
        SendError::Disconnected(item) => item,
        SendError::OutOfMemory(item) => item,
    }
}

/// Receives what is in front. `None` only where the witness saw the channel empty.
#[tactic(auto, using(crate::proofs::Witnessed::empty))]
pub(crate) fn receive<T: Drop, W: Witness<T>, R: Wait>(
    rt: &R,
    ends: &Receiving<T, W>,
    pass: &mut ChannelPass<T>,
) -> Option<Sent<T>>
    requires channel { IsSeatAt (receives_on ends.now) pass.old }
    requires parts { 1 ≤ (view pass.old).parts }
    requires may { MayReceive (view pass.old) }
    requires follows { FollowsReceiver W.saw pass.old.id }
    ensures channel { IsSeatAt (receives_on ends.now) pass.new }
    ensures id { pass.new.id ≡ pass.old.id }
    ensures received { MatchOption result ((view pass.new ≡ view pass.old) × Saw W.saw (view pass.old) []) (λ item. view pass.new ≡ receiving (view pass.old) item) }
{
    match ends.try_recv_as::<Getting<W>, R>(rt, pass) {
        Ok(item) => Some(item),
        Err(TryRecvError::Empty) => None,
        Err(TryRecvError::Disconnected) => None,
    }
}

/// Takes in another pass, with its parts and what it received.
pub(crate) fn join<T: Drop, W: LawfulWitness<T>>(
    ends: &Sending<T, W>,
    pass: &mut ChannelPass<T>,
    other: ChannelPass<T>,
)
    requires channel { IsSeatAt (sends_on ends.now) pass.old × IsSeatAt (sends_on ends.now) other }
    requires parts { 1 ≤ (view pass.old).parts }
    requires no_right { (view other).sends ≡ 0 }
    ensures channel { IsSeatAt (sends_on ends.now) pass.new }
    ensures all { view pass.new ≡ joined (view pass.old) (view other) }
{
    ends.absorb::<TakeParts>(pass, other);
}

/// Learns of all, with every part.
pub(crate) fn learn<T: Drop, W: LawfulWitness<T>>(ends: &Sending<T, W>, pass: &mut ChannelPass<T>)
    requires channel { IsSeatAt (sends_on ends.now) pass.old }
    requires parts { (view pass.old).parts ≡ 128 }
    requires right { (view pass.old).sends ≡ 1 }
    ensures channel { IsSeatAt (sends_on ends.now) pass.new }
    ensures same { view pass.new ≡ view pass.old }
    ensures learnt { (items : List (Item T)) × KnowsAll (view pass.old) items }
{
    ends.learn_as::<Totals>(pass);
}
