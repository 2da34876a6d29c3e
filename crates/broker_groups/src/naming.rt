//! How opened groups get a broker's name: what each worker publishes through, and all places.
ghost use Rattle.std.specs.Prelude.{◌≡◌, ℕ, ◌+◌, ◌++◌, length, sum_by, All, IfOk};
ghost use Rattle.limits.specs.Limits.{most_groups};
ghost use Rattle.group_queue.specs.Ports.{PortState};
ghost use Rattle.broker_groups.specs.Brokers.{IsBrokerPlace, IsBrokerPort};
ghost use Rattle.broker_groups.specs.Naming.{in_a_row, worth_of_all, worth_of_rows, AreNewPlacesOf, AreRows, AreUnsent, HasNoneOut, IsHand, IsOfBroker};

use crate::broker::Broker;
use crate::groups::BrokerGroups;
use crate::opening::{Opened, abandon_all};
use crate::place::BrokerPlace;
use crate::ports::Ports;
use group_jobs::JobError;
use group_queue::{Place, Port, Witness};
use std::alloc::Global;
use std::marker::PhantomData;

/// The groups of a broker under its name, with what each worker publishes through, and all places, in the order of slots and
/// numbers.
pub struct Named<'a, B: Broker> {
    pub groups: BrokerGroups<'a, B>,
    pub ports: Vec<Ports<B>>,
    pub places: Vec<BrokerPlace<B>>,
}

impl<'a, W: Witness> Opened<'a, W> {
    /// Gives what was opened the name of a broker. Each worker gets a port of each group.
    ///
    /// # Errors
    ///
    /// 503 [`JobError::Memory`]. The groups are given up.
    pub fn name<B: Broker<Seen = W>>(
        self,
        alloc: Global,
        workers: u8,
    ) -> Result<Named<'a, B>, JobError>
        requires { IsOfBroker B.gate B.group workers self }
        ensures groups { IfOk result (λ named. named.groups ≡ self.entry.groups.items) }
        ensures workers { IfOk result (λ named. length named.ports.items ≡ workers) }

        // Each port is some worker's.
        ensures ports { IfOk result (λ named. (worth : PortState → ℕ) → worth_of_all worth named.ports.items ≡ worth_of_rows worth self.entry.ports.items) }
        ensures unsent { IfOk result (λ named. All AreUnsent named.ports.items) }
        ensures places { IfOk result (λ named. named.places.items ≡ in_a_row self.entry.places.items) }
        ensures fresh { IfOk result (λ named. All HasNoneOut named.places.items) }
        ensures new { IfOk result (λ named. AreNewPlacesOf B.group named.places.items) }
    {
        let Opened {
            groups,
            ports,
            places,
        } = self;
        match name_members(alloc, workers, ports, places) {
            Ok((ports, places)) => Ok(Named {
                groups: BrokerGroups {
                    groups,
                    of: PhantomData,
                },
                ports,
                places,
            }),
            Err(error) => {
                abandon_all(groups);
                Err(error)
            }
        }
    }
}

/// Names ports and places.
fn name_members<B: Broker>(
    alloc: Global,
    workers: u8,
    ports: Vec<Vec<Port<B::Seen>>>,
    places: Vec<Vec<Place<B::Seen>>>,
) -> Result<(Vec<Ports<B>>, Vec<BrokerPlace<B>>), JobError>
    requires rows { length ports.items ≡ most_groups }
    requires ports { AreRows B.group workers 0 ports.items }
    requires places { All (λ row. All (IsBrokerPlace B.group) row.items) places.items }
    ensures workers { IfOk result (λ named. length named.0.items ≡ workers) }
    ensures ports { IfOk result (λ named. (worth : PortState → ℕ) → worth_of_all worth named.0.items ≡ worth_of_rows worth ports.items) }
    ensures places { IfOk result (λ named. named.1.items ≡ in_a_row places.items) }
{
    let hands = take_ports::<B>(alloc, workers, ports)?;
    let ports = name_hands(alloc, hands)?;
    let places = name_places(alloc, places)?;
    Ok((ports, places))
}

/// Gives each worker a port of each group.
fn take_ports<B: Broker>(
    alloc: Global,
    workers: u8,
    rows: Vec<Vec<Port<B::Seen>>>,
) -> Result<Vec<Vec<Port<B::Seen>>>, JobError>
    requires all { length rows.items ≡ most_groups }
    requires rows { AreRows B.group workers 0 rows.items }
    ensures hands { IfOk result (λ hands. All (IsHand B.group most_groups) hands.items) }
    ensures many { IfOk result (λ hands. length hands.items ≡ workers) }
    ensures ports { IfOk result (λ hands. (worth : PortState → ℕ) → worth_of_rows worth hands.items ≡ worth_of_rows worth rows.items) }
{
    let mut hands = empty_hands::<B>(alloc, workers)?;
    let mut slot = 0u8;
    for row in rows {
        hands = take_row::<B>(alloc, slot, hands, row)?;
        slot += 1;
    }
    Ok(hands)
}

/// No port for each worker.
fn empty_hands<B: Broker>(alloc: Global, workers: u8) -> Result<Vec<Vec<Port<B::Seen>>>, JobError>
    ensures hands { IfOk result (λ hands. All (IsHand B.group 0) hands.items) }
    ensures many { IfOk result (λ hands. length hands.items ≡ workers) }
    ensures ports { IfOk result (λ hands. (worth : PortState → ℕ) → worth_of_rows worth hands.items ≡ 0) }
{
    let mut hands = Vec::with_capacity(alloc, usize::from(workers))?;
    'workers: for _ in 0..workers {
        hands.push_reserved(Vec::new(alloc));
    }
    Ok(hands)
}

/// Gives each worker a port of the group of a slot.
fn take_row<B: Broker>(
    alloc: Global,
    slot: u8,
    hands: Vec<Vec<Port<B::Seen>>>,
    row: Vec<Port<B::Seen>>,
) -> Result<Vec<Vec<Port<B::Seen>>>, JobError>
    requires hands { All (IsHand B.group slot) hands.items }
    requires row { All (IsBrokerPort B.group slot) row.items }
    requires many { length hands.items ≡ length row.items }
    ensures hands { IfOk result (λ dealt. All (IsHand B.group (slot + 1)) dealt.items) }
    ensures many { IfOk result (λ dealt. length dealt.items ≡ length hands.items) }
    ensures ports { IfOk result (λ dealt. (worth : PortState → ℕ) → worth_of_rows worth dealt.items ≡ worth_of_rows worth hands.items + sum_by worth row.items) }
{
    let mut hands = hands;
    let mut row = row;
    let mut dealt = Vec::new(alloc);
    'hands: while let Some(hand) = hands.pop() {
        let Some(port) = row.pop() else {
            unreachable!()
        };
        let mut hand = hand;
        hand.push(port)?;
        dealt.push(hand)?;
    }
    Ok(dealt)
}

/// Names what workers publish through.
fn name_hands<B: Broker>(
    alloc: Global,
    hands: Vec<Vec<Port<B::Seen>>>,
) -> Result<Vec<Ports<B>>, JobError>
    requires { All (IsHand B.group most_groups) hands.items }
    ensures many { IfOk result (λ named. length named.items ≡ length hands.items) }
    ensures ports { IfOk result (λ named. (worth : PortState → ℕ) → worth_of_all worth named.items ≡ worth_of_rows worth hands.items) }
{
    let mut hands = hands;
    let mut named = Vec::new(alloc);
    'hands: while let Some(ports) = hands.pop() {
        named.push(Ports {
            ports,
            of: PhantomData,
        })?;
    }
    Ok(named)
}

/// Names all places.
fn name_places<B: Broker>(
    alloc: Global,
    rows: Vec<Vec<Place<B::Seen>>>,
) -> Result<Vec<BrokerPlace<B>>, JobError>
    requires { All (λ row. All (IsBrokerPlace B.group) row.items) rows.items }
    ensures { IfOk result (λ named. named.items ≡ in_a_row rows.items) }
{
    let mut named = Vec::new(alloc);
    for row in rows {
        name_row(&mut named, row)?;
    }
    Ok(named)
}

/// Names the places of one group, after those of others.
fn name_row<B: Broker>(
    named: &mut Vec<BrokerPlace<B>>,
    row: Vec<Place<B::Seen>>,
) -> Result<(), JobError>
    requires { All (IsBrokerPlace B.group) row.items }
    ensures { IfOk result (λ _. named.new.items ≡ named.old.items ++ row.items) }
{
    for place in row {
        named.push(BrokerPlace {
            place,
            of: PhantomData,
        })?;
    }
    Ok(())
}
