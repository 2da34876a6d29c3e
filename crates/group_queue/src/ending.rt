//! How the passes of all ports and places become one, and how what is left is popped.
ghost use Rattle.std.specs.Prelude.{◌≡◌, ◌≤◌, ◌<◌, ◌+◌, ◌++◌, List, [], map, length, vec_len, vec_capacity, All};
ghost use Rattle.crossbeam_queue.specs.Passes.{view, IsPassOf};
ghost use Rattle.crossbeam_queue.specs.SegTies.{IsSegPassOf};
ghost use Rattle.group_queue.specs.declared.posted.Posted.{Posted as posted_type};
ghost use Rattle.group_queue.specs.declared.view.Name.TheVariants as names;
ghost use Rattle.group_queue.specs.Views.{one, joined, with_entries, popping, IsEnding, list_in};
ghost use Rattle.group_queue.specs.Past.{Stands};
ghost use Rattle.group_queue.specs.Returns.{bag, bag_of, joined as joined_bags, popping_back, StandsBack};
ghost use Rattle.group_queue.specs.Ports.{PortState};
ghost use Rattle.group_queue.specs.Places.{PlaceState, Hands, IsBalanced, jobs_in};
ghost use Rattle.group_queue.specs.Known.{port_entry, place_entry, TakesInParts, TakesInGivers};

use crate::main_queue::{MainPass, MainQueue};
use crate::place::{Passes, Place};
use crate::port::Port;
use crate::returns_queue::{ReturnsPass, ReturnsQueue};
use crate::witness::LawfulWitness;
use crate::{main_queue, returns_queue};
use dispatch_core::Job;
use group_jobs::Docket;
use shared_ledger::{Giver, Holder, SharedLedger};
use std::sync::Wait;

/// Takes in the passes of these ports.
pub fn join_ports<W: LawfulWitness>(queue: &MainQueue<W>, pass: &mut MainPass, ports: Vec<Port<W>>)
    requires queue { IsPassOf queue.now pass.old }
    requires ports { All (λ port. port.queue ≡ queue.now.table.shared.table_id) ports.items }
    ensures queue { IsPassOf queue.now pass.new }
    ensures all { view pass.new ≡ with_entries (view pass.old) (map port_entry ports.items) }
{
    for port in ports {
        main_queue::join(queue, pass, port.pass);
    }
}

/// Takes in the passes and the givers of these places, and keeps their dockets.
pub fn join_places<W: LawfulWitness>(
    main: &MainQueue<W>,
    returns: &ReturnsQueue<W>,
    ledger: &SharedLedger<W>,
    passes: &mut Passes,
    holder: &mut Holder,
    places: Vec<Place<W>>,
    dockets: &mut Vec<Docket>,
)
    requires main { IsPassOf main.now passes.old.main }
    requires returns { IsSegPassOf returns.now passes.old.returns }
    requires parts { 1 ≤ (bag_of passes.old.returns).parts }
    requires places { All (λ place. place.hands ≡ record { main = main.now.table.shared.table_id; returns = returns.now }) places.items }
    requires holder { holder.old.ledger ≡ ledger.now }
    requires givers { All (λ place. (place.giver.ledger ≡ ledger.now) × (1 ≤ place.giver.parts)) places.items }
    requires room { vec_len dockets.old + length places.items ≤ vec_capacity dockets.old }
    ensures main { IsPassOf main.now passes.new.main }
    ensures returns { IsSegPassOf returns.now passes.new.returns }
    ensures names { view passes.new.main ≡ with_entries (view passes.old.main) (map place_entry places.items) }
    ensures parts { TakesInParts (bag_of passes.old.returns) places.items (bag_of passes.new.returns) }
    ensures givers { TakesInGivers holder.old places.items holder.new }
    ensures dockets { dockets.new.items ≡ dockets.old.items ++ map (λ place. place.docket) places.items }
    ensures balanced { All IsBalanced places.items }
{
    for place in places {
        let (docket, giver) = join_place(main, returns, passes, place);
        ledger.take_in(holder, giver);
        dockets.push_reserved(docket);
    }
}

/// Takes in the passes of a place, and gives its docket and its giver.
pub fn join_place<W: LawfulWitness>(
    main: &MainQueue<W>,
    returns: &ReturnsQueue<W>,
    passes: &mut Passes,
    place: Place<W>,
) -> (Docket, Giver<W>)
    requires main { IsPassOf main.now passes.old.main }
    requires returns { IsSegPassOf returns.now passes.old.returns }
    requires parts { 1 ≤ (bag_of passes.old.returns).parts }
    requires place { place.hands ≡ record { main = main.now.table.shared.table_id; returns = returns.now } }
    ensures main { IsPassOf main.now passes.new.main }
    ensures returns { IsSegPassOf returns.now passes.new.returns }
    ensures names { view passes.new.main ≡ joined (view passes.old.main) (one (names.Place place.number) place.firsts) }
    ensures parts { bag_of passes.new.returns ≡ joined_bags (bag_of passes.old.returns) (bag 1 place.given place.agains) }
    ensures docket { result.0 ≡ place.docket }
    ensures giver { result.1 ≡ place.giver }
    ensures balanced { IsBalanced place }
{
    let Place {
        passes: own,
        docket,
        giver,
        ..
    } = place;
    main_queue::join(main, &mut passes.main, own.main);
    returns_queue::join(returns, &mut passes.returns, own.returns);
    (docket, giver)
}

/// Pops what is left of the main queue.
pub fn pop_queued<W: LawfulWitness, R: Wait>(
    rt: &R,
    queue: &MainQueue<W>,
    pass: &mut MainPass,
    queued: &mut Vec<Job>,
)
    requires queue { IsPassOf queue.now pass.old }
    requires ending { IsEnding (view pass.old) }
    requires none { (list_in (view pass.old) ≡ []) × (queued.old.items ≡ []) }
    requires room { (left items : List posted_type) → Stands (popping (view pass.old) left) items → length left ≤ vec_capacity queued.old }
    ensures { (left : List posted_type) × (view pass.new ≡ popping (view pass.old) left) × (queued.new.items ≡ jobs_in left) × Stands (view pass.new) [] }
{
    'pops: for _ in rt.forever() {
        match main_queue::pop_left(rt, queue, pass) {
            Some(posted) => queued.push_reserved(posted.into_job()),
            None => return,
        }
    }
}

/// Pops what is left of the returns queue.
pub fn pop_returned<W: LawfulWitness, R: Wait>(
    rt: &R,
    queue: &ReturnsQueue<W>,
    pass: &mut ReturnsPass,
    returned: &mut Vec<Job>,
)
    requires queue { IsSegPassOf queue.now pass.old }
    requires parts { 1 ≤ (bag_of pass.old).parts }
    requires none { returned.old.items ≡ [] }
    requires room { (left items : List posted_type) → StandsBack (popping_back (bag_of pass.old) left) items → length left ≤ vec_capacity returned.old }
    ensures { (left : List posted_type) × (bag_of pass.new ≡ popping_back (bag_of pass.old) left) × (returned.new.items ≡ jobs_in left) × StandsBack (bag_of pass.new) [] }
{
    'pops: for _ in rt.forever() {
        match returns_queue::pop(rt, queue, pass) {
            Some(posted) => returned.push_reserved(posted.into_job()),
            None => return,
        }
    }
}
