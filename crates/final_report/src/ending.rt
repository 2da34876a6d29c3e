//! How a broker ends whose gate is shut and drained, and what it then promises of every message that it accepted.
ghost use Rattle.std.specs.Prelude.{◌≡◌, List, length, IfOk, IfErr};
ghost use mathlib.Core.List.{IsPrefix};
ghost use Rattle.call_history.specs.Callers.{all_parts};
ghost use Rattle.call_history.specs.Numbers.{IsEachOnce};
ghost use Rattle.group_jobs.specs.Stamps.{Held};
ghost use Rattle.session_desk.specs.Calls.{Call};
ghost use Rattle.group_queue.specs.Places.{PlaceState};
ghost use Rattle.shared_supply.specs.Endings.{IsAllBehind, IsLeft};
ghost use Rattle.broker_groups.specs.Endings.{AreEnded, held_slot};
ghost use Rattle.broker_groups.specs.Sorting.{at_slot};
ghost use Rattle.final_report.specs.Promises.{IsFirstHandedOnce, KeepsOrder, RefusesForGood, DiscardsForGood, GivesOneFate, TellsWhatHappened, EndsLawfully};
ghost use Rattle.final_report.specs.Brokers.{KeptItsPromisesBehind, NoneLacksAMessage, OfEachReport};

use broker_groups::{Broker, BrokerGroups, BrokerPlace, Ended, Ports, Unended};
use call_history::HistoryName;
use gate_word::{Drained, Turn};
use group_jobs::Envelope;
use group_jobs::laws::{lawful_end_law, one_fate_law};
use group_queue::LawfulWitness;
use shared_desk::DeskCaller;
use shared_supply::{SharedBroker, StillOpen};
use std::alloc::Global;
use std::sync::Wait;

/// Ends the groups of a broker whose gate was drained, with all of its ports and places, and the messages that are out. Of each
/// group whose report is given, whatever threads did with these ports and places before, in whatever order:
///
/// - `first_once`: each message that was accepted was first handed to at most one member, once;
/// - `in_order`: each member's first hand-outs from a publisher keep that publisher's order;
/// - `refused_for_good`: a refused message went to nobody else;
/// - `discarded_for_good`: nor did a discarded one;
/// - `one_fate`: the report gives each accepted message exactly one fate, and nothing else any;
/// - `what_happened`: that fate is the one that it had;
/// - `lawful`: the report and the first hand-outs are a lawful state of a group.
///
/// And where these places and messages were all that a broker's desk had, as [`SharedBroker::empty`] gives them, no group lacks a message at its end (`none_lacks`).
///
/// Nothing is accepted or handed out any more: for that a turn of the gate is wanted, and there is none ([`refute`]).
///
/// A step of a queue may wait for another thread's.
///
/// # Errors
///
/// [`Unended`]: an allocation failed. All that was given comes back. Why a group has no report its answer says.
pub fn end_groups<'g, B: Broker, R: Wait>(
    rt: &R,
    alloc: Global,
    drained: &Drained,
    groups: BrokerGroups<'g, B>,
    ports: Vec<Ports<B>>,
    places: Vec<BrokerPlace<B>>,
    held: Vec<Envelope>,
) -> Result<Ended<'g, B::Seen>, Unended<'g, B>>
where
    B::Seen: LawfulWitness,
    requires drained { drained.now ≡ B.gate }
    ensures first_once { IfOk result (λ ended. OfEachReport IsFirstHandedOnce ports.items places.items held.items ended.answers.items) }
    ensures in_order { IfOk result (λ ended. OfEachReport KeepsOrder ports.items places.items held.items ended.answers.items) }
    ensures refused_for_good { IfOk result (λ ended. OfEachReport RefusesForGood ports.items places.items held.items ended.answers.items) }
    ensures discarded_for_good { IfOk result (λ ended. OfEachReport DiscardsForGood ports.items places.items held.items ended.answers.items) }
    ensures one_fate { IfOk result (λ ended. OfEachReport GivesOneFate ports.items places.items held.items ended.answers.items) }
    ensures what_happened { IfOk result (λ ended. OfEachReport TellsWhatHappened ports.items places.items held.items ended.answers.items) }
    ensures lawful { IfOk result (λ ended. OfEachReport EndsLawfully ports.items places.items held.items ended.answers.items) }
    ensures none_lacks { IfOk result (λ ended. (calls : List (Call Held PlaceState)) → IsAllBehind calls places.items held.items → NoneLacksAMessage ended.answers.items) }
    ensures ended { IfOk result (λ ended. AreEnded B.group ports.items places.items held.items ended.answers.items) }
    ensures strangers { IfOk result (λ ended. ended.strangers.items ≡ at_slot held_slot 8 held.items) }
    ensures left { IfErr result (λ left. (left.groups ≡ groups.entry) × (left.ports.items ≡ ports.items) × (left.places.items ≡ places.items) × (left.held.items ≡ held.items)) }
{
    let _ = drained;
    one_fate_law();
    lawful_end_law();
    groups.finish(rt, alloc, ports, places, held)
}

/// Ends a broker whose gate was drained, with the ports of all its workers: the same, of the places, and the messages that
/// sessions held, that its desk has. These are just the messages that are out at these places, so no group lacks one at its end
/// (`none_lacks`): where one has no report, a port or a place of it is not there, or an allocation failed.
///
/// The caller knows all calls that were made of the desk then, of which what it knew is the beginning (`before`). They lead to the sessions, places and messages
/// that the groups end with (`kept`). Where it has the whole right to call, each of them is its own, or of one that it took in (`once`).
///
/// # Errors
///
/// [`StillOpen`]: an allocation failed. All that was given comes back.
pub fn end_broker<'g, B: Broker, N: HistoryName, R: Wait>(
    rt: &R,
    alloc: Global,
    drained: &Drained,
    shared_broker: SharedBroker<'g, B, N>,
    ports: Vec<Ports<B>>,
    me: &mut DeskCaller<BrokerPlace<B>, N>,
) -> Result<Ended<'g, B::Seen>, StillOpen<'g, B>>
where
    B::Seen: LawfulWitness,
    requires drained { drained.now ≡ B.gate }
    ensures before { IsPrefix me.old.calls me.new.calls }
    ensures same { me.new ≡ record me.old { calls = me.new.calls } }
    ensures once { me.old.parts ≡ all_parts → IsEachOnce me.old.own (length me.new.calls) }
    ensures kept { IfOk result (λ ended. KeptItsPromisesBehind B.group me.new.calls ports.items ended.answers.items ended.strangers.items) }
    ensures left { IfErr result (IsLeft me.new.calls shared_broker.entry ports.items) }
{
    let _ = drained;
    one_fate_law();
    lawful_end_law();
    shared_broker.finish(rt, alloc, ports, me)
}

/// **Nothing is accepted or handed out after close.** Who has the token that a broker's gate was drained, and a turn of it,
/// as each message that is accepted and each hand-out wants one, has what is false: so there is no such call in any run from
/// then on.
pub fn refute<B: Broker>(groups: &BrokerGroups<'_, B>, drained: &mut Drained, turn: &mut Turn)
    requires drained { drained.old ≡ B.gate }
    requires turn { turn.old.gate ≡ B.gate }
    ensures { ⊥ }
{
    groups.group(0).refute(drained, turn);
}
