//! One thread: that a gate opens, the way from open to drained, and a visitor.
ghost use Rattle.std.specs.Prelude.{◌≡◌, IfSome};
ghost use Rattle.gate_word.specs.Seats.{AreSeatsOf};
ghost use Rattle.gate_word.specs.Visits.{seat_in};

use crate::asserting::assert_same;
use gate_word::{Drained, Gate, GateError, GateSeat, MOST_SEATS, Turn, Visitor};
use std::test::Fail;

/// The last of these seats.
pub fn take_seat(gate: &Gate, seats: &mut Vec<GateSeat>) -> Option<GateSeat>
    requires { AreSeatsOf gate.now seats.old.items }
    ensures seat { IfSome result (λ seat. seat.gate ≡ gate.now) }
    ensures others { AreSeatsOf gate.now seats.new.items }
{
    seats.pop()
}

/// Goes in and comes out again, and says whether it got in.
fn visit(gate: &Gate, seat: GateSeat) -> (bool, GateSeat)
    requires { seat.gate ≡ gate.now }
    ensures { result.1.gate ≡ gate.now }
{
    match gate.enter(seat) {
        Ok(turn) => (true, gate.leave(turn)),
        Err(refused) => (false, refused.seat),
    }
}

#[test]
fn one_gate_from_open_to_drained(rt: HostRuntime) -> Result<(), Fail> {
    let (gate, mut seats) = Gate::open(rt.alloc(), 3)?;
    let third = take_seat(&gate, &mut seats).ok_or("a third seat")?;
    let mut second = take_seat(&gate, &mut seats).ok_or("a second seat")?;
    let first = take_seat(&gate, &mut seats).ok_or("a first seat")?;
    assert!(rt; seats.is_empty());
    let turn = gate.enter(first)?;
    gate.shut(&mut second);
    assert!(rt; gate.drained(&mut second).is_none());
    let (got_in, third) = visit(&gate, third);
    assert!(rt; !got_in);
    let first = gate.leave(turn);
    assert!(rt; gate.drained(&mut second).is_some());
    gate.shut(&mut second);
    assert!(rt; gate.drained(&mut second).is_some());
    assert!(rt; !visit(&gate, first).0);
    assert!(rt; !visit(&gate, third).0);
    Ok(())
}

/// Whether a visitor is inside after each of four calls: it enters twice and leaves, and enters a gate that was shut.
fn visits(gate: &Gate, seat: GateSeat, shutter: &mut GateSeat) -> [bool; 3]
    requires seat { seat.gate ≡ gate.now }
    requires shutter { shutter.old.gate ≡ gate.now }
{
    let visitor = Visitor::Outside(seat).enter(gate);
    let first = is_inside(&visitor);
    let visitor = visitor.enter(gate);
    let again = is_inside(&visitor);
    let seat = visitor.leave(gate);
    gate.shut(shutter);
    let visitor = Visitor::Outside(seat).enter(gate);
    let late = is_inside(&visitor);
    let _seat = visitor.leave(gate);
    [first, again, late]
}

fn is_inside(visitor: &Visitor) -> bool {
    matches!(visitor, Visitor::Inside(_))
}

#[test]
fn a_visitor_enters_until_the_gate_is_shut(rt: HostRuntime) -> Result<(), Fail> {
    let (gate, mut seats) = Gate::open(rt.alloc(), 2)?;
    let mut shutter = take_seat(&gate, &mut seats).ok_or("a second seat")?;
    let seat = take_seat(&gate, &mut seats).ok_or("a first seat")?;
    assert_same(
        &rt,
        &visits(&gate, seat, &mut shutter),
        &[true, true, false],
    );
    Ok(())
}

#[test]
fn a_gate_has_eighty_seats_at_most(rt: HostRuntime) {
    match Gate::open(rt.alloc(), MOST_SEATS) {
        Ok((_gate, seats)) => assert_same(&rt, &seats.len(), &80),
        Err(GateError::Memory) => assert_same(&rt, &GateError::Memory.number(), &402),
    }
}

fn crosses_threads<T: Send>() {}

fn is_shared_by_threads<T: Sync>() {}

#[test]
fn what_threads_may_do_with_it() {
    is_shared_by_threads::<Gate>();
    crosses_threads::<Gate>();
    crosses_threads::<GateSeat>();
    crosses_threads::<Turn>();
    crosses_threads::<Drained>();
    crosses_threads::<Visitor>();
}
