//! How ports, places and envelopes are sorted by the slots of their groups, into rows whose room was made before.
ghost use Rattle.std.specs.Prelude.{◌≡◌, ◌<◌, ◌++◌, List, [], length, slice_get, Some, All, IfOk, vec_len, vec_capacity};
ghost use Rattle.std.specs.Global.{Vec};
ghost use Rattle.limits.specs.Limits.{most_groups};
ghost use Rattle.group_queue.specs.Ports.{PortState};
ghost use Rattle.broker_groups.specs.Brokers.{IsBrokerPort};
ghost use Rattle.broker_groups.specs.Sorting.{AreSorted, IsEmptyRow, Puts};
ghost use Rattle.broker_groups.specs.Endings.{held_slot, joined, place_slot, port_slot, IsAny, IsPlaceAt};

use crate::broker::Broker;
use crate::place::BrokerPlace;
use crate::ports::Ports;
use group_jobs::Envelope;
use group_queue::{Place, Port};
use limits::MOST_GROUPS;
use std::alloc::{AllocError, Global};

/// So many empty rows, each with room for so many.
pub(crate) fn empty_rows<T>(
    alloc: Global,
    count: u8,
    room: usize,
) -> Result<Vec<Vec<T>>, AllocError>
    ensures many { IfOk result (λ rows. length rows.items ≡ count) }
    ensures empty { IfOk result (λ rows. All (IsEmptyRow room) rows.items) }
{
    let mut rows = Vec::with_capacity(alloc, usize::from(count))?;
    'rows: for _ in 0..count {
        match Vec::with_capacity(alloc, room) {
            Ok(row) => rows.push_reserved(row),
            Err(error) => {
                destroy_rows(rows);
                return Err(error);
            }
        }
    }
    Ok(rows)
}

/// Ends empty rows.
fn destroy_rows<T>(rows: Vec<Vec<T>>)
    requires { All (λ row. vec_len row ≡ 0) rows.items }
{
    let mut rows = rows;
    'rows: while let Some(row) = rows.pop() {
        row.destroy_empty();
    }
    rows.destroy_empty();
}

/// Puts one thing more at the end of a row.
fn put<T>(rows: &mut Vec<Vec<T>>, at: usize, item: T)
    requires within { at < length rows.old.items }
    requires room { (row : Vec T) → slice_get rows.old.items at ≡ Some row → vec_len row < vec_capacity row }
    ensures { Puts rows.old.items at item rows.new.items }
{
    rows[at].push_reserved(item);
}

/// Sorts places.
pub(crate) fn sort_places<B: Broker>(
    places: Vec<BrokerPlace<B>>,
    rows: &mut Vec<Vec<Place<B::Seen>>>,
)
    requires { AreSorted (IsPlaceAt B.group) place_slot most_groups places.items places.items rows.old.items }
    ensures { AreSorted (IsPlaceAt B.group) place_slot most_groups places.items [] rows.new.items }
{
    for place in places {
        let place = place.into_place();
        put(rows, usize::from(place.slot()), place);
    }
}

/// Sorts the ports of all workers.
pub(crate) fn sort_ports<B: Broker>(all: Vec<Ports<B>>, rows: &mut Vec<Vec<Port<B::Seen>>>)
    requires { AreSorted (IsBrokerPort B.group) port_slot most_groups (joined all.items) (joined all.items) rows.old.items }
    ensures { AreSorted (IsBrokerPort B.group) port_slot most_groups (joined all.items) [] rows.new.items }
{
    for ports in all {
        put_ports(ports, rows);
    }
}

/// Sorts the ports of a worker, before those of others.
fn put_ports<B: Broker>(ports: Ports<B>, rows: &mut Vec<Vec<Port<B::Seen>>>)
    requires { (all rest : List PortState) × AreSorted (IsBrokerPort B.group) port_slot most_groups all (ports ++ rest) rows.old.items }
    ensures { (all rest : List PortState) → AreSorted (IsBrokerPort B.group) port_slot most_groups all (ports ++ rest) rows.old.items
        → AreSorted (IsBrokerPort B.group) port_slot most_groups all rest rows.new.items }
{
    for port in ports.into_ports() {
        put(rows, usize::from(port.slot()), port);
    }
}

/// Sorts envelopes. Those of no group stand in the last row.
pub(crate) fn sort_held(held: Vec<Envelope>, rows: &mut Vec<Vec<Envelope>>)
    requires { AreSorted IsAny held_slot 9 held.items held.items rows.old.items }
    ensures { AreSorted IsAny held_slot 9 held.items [] rows.new.items }
{
    let mut rest = held.into_iter();
    'held: while let Some(envelope) = rest.next() {
        let slot = envelope.stamp().group.min(MOST_GROUPS);
        put(rows, usize::from(slot), envelope);
    }
    rest.destroy_empty();
}
