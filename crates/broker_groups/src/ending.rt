//! How a broker's groups end: each with its own ports, places and envelopes.
ghost use Rattle.std.specs.Prelude.{◌≡◌, ℕ, ◌≤◌, [], length, slice_get, Some, All, IfOk, IfErr, IfSome, vec_capacity};
ghost use Rattle.std.specs.Global.{Vec};
ghost use Rattle.limits.specs.Limits.{most_groups};
ghost use Rattle.group_queue.specs.Ports.{PortState, IsPortOf};
ghost use Rattle.group_queue.specs.Places.{PlaceState, IsPlaceOf};
ghost use Rattle.broker_groups.specs.Brokers.{AreBrokerGroups};
ghost use Rattle.broker_groups.specs.Sorting.{at_slot, IsEmptyRow};
ghost use Rattle.broker_groups.specs.Endings.{held_slot, joined, AreAgain, AreEnded, AreFinished, IsAgain, IsItsOwn};

use crate::broker::Broker;
use crate::groups::BrokerGroups;
use crate::place::BrokerPlace;
use crate::ports::Ports;
use crate::sorting::{empty_rows, sort_held, sort_places, sort_ports};
use group_jobs::{Envelope, Report};
use group_queue::{
    FinishError, LawfulWitness, Nobody, Place, Port, SharedGroup, Unfinished, Witness,
};
use limits::MOST_GROUPS;
use std::alloc::{AllocError, Global};
use std::sync::Wait;

/// What became of a broker's groups.
pub struct Ended<'a, W: Witness = Nobody> {
    /// The report of each group, in the order of slots, or why there is none.
    pub answers: Vec<Result<Report, Unfinished<'a, W>>>,
    /// Envelopes whose stamp names no group of a broker.
    pub strangers: Vec<Envelope>,
}

/// A broker whose groups were not ended, for lack of memory, with all that was given to end them.
pub struct Unended<'a, B: Broker> {
    pub groups: BrokerGroups<'a, B>,
    pub ports: Vec<Ports<B>>,
    pub places: Vec<BrokerPlace<B>>,
    pub held: Vec<Envelope>,
}

impl<'a, B: Broker> Unended<'a, B> {
    /// Gives all of it up, without a word of what became of the messages.
    pub fn abandon(self) {
        let Unended {
            groups,
            ports: _,
            places: _,
            held,
        } = self;
        spend(held);
        groups.abandon();
    }
}

/// Spends envelopes, whose messages are let go.
fn spend(held: Vec<Envelope>) {
    let mut held = held;
    'held: while let Some(envelope) = held.pop() {
        let (_stamp, _message) = envelope.open();
    }
    held.destroy_empty();
}

/// Where ports, places and envelopes are sorted into, by slot.
struct Rows<W: Witness> {
    ports: Vec<Vec<Port<W>>>,
    places: Vec<Vec<Place<W>>>,
    held: Vec<Vec<Envelope>>,
}

/// Where the answer of each group stands: once all were ended, and once it was tried again.
struct AnswerRows<'a, W: Witness> {
    first: Vec<Result<Report, Unfinished<'a, W>>>,
    last: Vec<Result<Report, Unfinished<'a, W>>>,
}

impl<'a, B: Broker> BrokerGroups<'a, B>
where
    B::Seen: LawfulWitness,
{
    /// Ends each group with those of these ports, places and envelopes that are of its slot, as
    /// [`SharedGroup::finish`](group_queue::SharedGroup::finish) says. A group that has not the memory for its report is ended
    /// once more when all others were, since what they had is free by then. A step of a queue may wait for another thread's.
    ///
    /// # Errors
    ///
    /// [`Unended`]: an allocation failed before any group was ended. All that was given comes back.
    pub fn finish<R: Wait>(
        self,
        rt: &R,
        alloc: Global,
        ports: Vec<Ports<B>>,
        places: Vec<BrokerPlace<B>>,
        held: Vec<Envelope>,
    ) -> Result<Ended<'a, B::Seen>, Unended<'a, B>>
        ensures ended { IfOk result (λ ended. AreEnded B.group ports.items places.items held.items ended.answers.items) }
        ensures strangers { IfOk result (λ ended. ended.strangers.items ≡ at_slot held_slot most_groups held.items) }
        ensures left { IfErr result (λ left. (left.groups ≡ self.entry) × (left.ports.items ≡ ports.items) × (left.places.items ≡ places.items) × (left.held.items ≡ held.items)) }
    {
        match make_rows(alloc, &ports, places.len(), held.len()) {
            Ok((rows, answers)) => Ok(end(rt, alloc, self, rows, answers, ports, places, held)),
            Err(_) => Err(Unended {
                groups: self,
                ports,
                places,
                held,
            }),
        }
    }
}

/// Makes all room that sorting wants.
fn make_rows<'a, B: Broker>(
    alloc: Global,
    ports: &[Ports<B>],
    places: usize,
    held: usize,
) -> Result<(Rows<B::Seen>, AnswerRows<'a, B::Seen>), AllocError>
    ensures ports { IfOk result (λ made. (length made.0.ports.items ≡ most_groups) × All (IsEmptyRow (length (joined ports.now))) made.0.ports.items) }
    ensures places { IfOk result (λ made. (length made.0.places.items ≡ most_groups) × All (IsEmptyRow places) made.0.places.items) }
    ensures held { IfOk result (λ made. (length made.0.held.items ≡ 9) × All (IsEmptyRow held) made.0.held.items) }
    ensures first { IfOk result (λ made. (made.1.first.items ≡ []) × (most_groups ≤ vec_capacity made.1.first)) }
    ensures last { IfOk result (λ made. (made.1.last.items ≡ []) × (most_groups ≤ vec_capacity made.1.last)) }
{
    let count = count_ports(ports).ok_or(AllocError)?;
    let port_rows = empty_rows(alloc, MOST_GROUPS, count)?;
    let place_rows = empty_rows(alloc, MOST_GROUPS, places)?;
    let answers = answer_rows(alloc)?;
    match empty_rows(alloc, MOST_GROUPS + 1, held) {
        Ok(held_rows) => Ok((
            Rows {
                ports: port_rows,
                places: place_rows,
                held: held_rows,
            },
            answers,
        )),
        Err(error) => {
            let AnswerRows { first, last } = answers;
            first.destroy_empty();
            last.destroy_empty();
            Err(error)
        }
    }
}

/// Makes the room that the answers want.
fn answer_rows<'a, W: Witness>(alloc: Global) -> Result<AnswerRows<'a, W>, AllocError>
    ensures first { IfOk result (λ made. (made.first.items ≡ []) × (most_groups ≤ vec_capacity made.first)) }
    ensures last { IfOk result (λ made. (made.last.items ≡ []) × (most_groups ≤ vec_capacity made.last)) }
{
    let first = Vec::with_capacity(alloc, usize::from(MOST_GROUPS))?;
    match Vec::with_capacity(alloc, usize::from(MOST_GROUPS)) {
        Ok(last) => Ok(AnswerRows { first, last }),
        Err(error) => {
            first.destroy_empty();
            Err(error)
        }
    }
}

/// How many ports there are in all.
fn count_ports<B: Broker>(all: &[Ports<B>]) -> Option<usize>
    ensures { IfSome result (λ count. count ≡ length (joined all.now)) }
{
    let mut count = 0usize;
    for ports in all {
        count = count.checked_add(ports.ports.len())?;
    }
    Some(count)
}

/// Sorts all that is given, and ends each group; and those again that had not the memory for it.
fn end<'a, B: Broker, R: Wait>(
    rt: &R,
    alloc: Global,
    groups: BrokerGroups<'a, B>,
    rows: Rows<B::Seen>,
    answers: AnswerRows<'a, B::Seen>,
    ports: Vec<Ports<B>>,
    places: Vec<BrokerPlace<B>>,
    held: Vec<Envelope>,
) -> Ended<'a, B::Seen>
where
    B::Seen: LawfulWitness,
    requires ports { (length rows.ports.items ≡ most_groups) × All (IsEmptyRow (length (joined ports.items))) rows.ports.items }
    requires places { (length rows.places.items ≡ most_groups) × All (IsEmptyRow (length places.items)) rows.places.items }
    requires held { (length rows.held.items ≡ 9) × All (IsEmptyRow (length held.items)) rows.held.items }
    requires first { (answers.first.items ≡ []) × (most_groups ≤ vec_capacity answers.first) }
    requires last { (answers.last.items ≡ []) × (most_groups ≤ vec_capacity answers.last) }
    ensures ended { AreEnded B.group ports.items places.items held.items result.answers.items }
    ensures strangers { result.strangers.items ≡ at_slot held_slot most_groups held.items }
{
    let Rows {
        ports: mut port_rows,
        places: mut place_rows,
        held: mut held_rows,
    } = rows;
    sort_ports(ports, &mut port_rows);
    sort_places(places, &mut place_rows);
    sort_held(held, &mut held_rows);
    let Some(strangers) = held_rows.pop() else {
        unreachable!()
    };
    let groups = groups.into_groups();
    let AnswerRows { first, last } = answers;
    let first = finish_each::<B, R>(rt, alloc, groups, port_rows, place_rows, held_rows, first);
    let answers = finish_again(rt, alloc, first, last);
    Ended { answers, strangers }
}

/// Ends each group with the row of its slot.
fn finish_each<'a, B: Broker, R: Wait>(
    rt: &R,
    alloc: Global,
    groups: Vec<SharedGroup<'a, B::Seen>>,
    ports: Vec<Vec<Port<B::Seen>>>,
    places: Vec<Vec<Place<B::Seen>>>,
    held: Vec<Vec<Envelope>>,
    answers: Vec<Result<Report, Unfinished<'a, B::Seen>>>,
) -> Vec<Result<Report, Unfinished<'a, B::Seen>>>
where
    B::Seen: LawfulWitness,
    requires groups { AreBrokerGroups B.gate B.group groups.items }
    requires many { (length ports.items ≡ most_groups) × (length places.items ≡ most_groups) × (length held.items ≡ most_groups) }
    requires ports { (slot : ℕ) (row : Vec PortState) → slice_get ports.items slot ≡ Some row → All (IsPortOf (B.group slot)) row.items }
    requires places { (slot : ℕ) (row : Vec PlaceState) → slice_get places.items slot ≡ Some row → All (IsPlaceOf (B.group slot)) row.items }
    requires answers { (answers.items ≡ []) × (most_groups ≤ vec_capacity answers) }
    ensures { AreFinished B.group ports.items places.items held.items result.items }
{
    let mut answers = answers;
    let mut next_groups = groups.into_iter();
    let mut next_ports = ports.into_iter();
    let mut next_places = places.into_iter();
    let mut next_held = held.into_iter();
    'slots: while let Some(group) = next_groups.next() {
        let Some(its_ports) = next_ports.next() else {
            unreachable!()
        };
        let Some(its_places) = next_places.next() else {
            unreachable!()
        };
        let Some(its_held) = next_held.next() else {
            unreachable!()
        };
        answers.push_reserved(group.finish(rt, alloc, its_ports, its_places, its_held));
    }
    next_groups.destroy_empty();
    next_held.destroy_empty();
    answers
}

/// Ends those groups again that had not the memory for it.
fn finish_again<'a, W: LawfulWitness, R: Wait>(
    rt: &R,
    alloc: Global,
    first: Vec<Result<Report, Unfinished<'a, W>>>,
    answers: Vec<Result<Report, Unfinished<'a, W>>>,
) -> Vec<Result<Report, Unfinished<'a, W>>>
    requires own { All IsItsOwn first.items }
    requires answers { (answers.items ≡ []) × (length first.items ≤ vec_capacity answers) }
    ensures { AreAgain first.entry.items result.items }
{
    let mut answers = answers;
    let mut rest = first.into_iter();
    'slots: while let Some(answer) = rest.next() {
        answers.push_reserved(try_again(rt, alloc, answer));
    }
    rest.destroy_empty();
    answers
}

/// Ends a group again that had not the memory for it, with what came back.
fn try_again<'a, W: LawfulWitness, R: Wait>(
    rt: &R,
    alloc: Global,
    answer: Result<Report, Unfinished<'a, W>>,
) -> Result<Report, Unfinished<'a, W>>
    requires { IsItsOwn answer }
    ensures { IsAgain answer.entry result }
{
    match answer {
        Ok(report) => Ok(report),
        Err(left) => {
            if left.error != FinishError::Memory {
                return Err(left);
            }
            let Unfinished {
                error: _,
                group,
                ports,
                places,
                held,
            } = left;
            group.finish(rt, alloc, ports, places, held)
        }
    }
}
