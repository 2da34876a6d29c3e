//! What becomes of a session whose connection has ended, or whose time is over.
ghost use Rattle.std.specs.Prelude.{◌≡◌, ℕ, List};
ghost use Rattle.limits.specs.Limits.{most_retired};
ghost use Rattle.conn_engine.specs.declared.phase.ConnPhase.TheVariants as phases;
ghost use Rattle.group_jobs.specs.Stamps.{Held};
ghost use Rattle.member_window.specs.Contents.{held_of, IsDown};
ghost use Rattle.conn_supply.specs.SupplyCalls.SupplyCall.{ParkAsIs};
ghost use Rattle.conn_supply.specs.Holding.{messages, IsOutAtPlace};
ghost use Rattle.conn_supply.specs.Ready.{IsSoundSession};
ghost use Rattle.conn_engine.specs.Ending.{down, ending, GivesBack, Ends, Retires, Parts, Sweeps};
ghost use Rattle.conn_engine.specs.Phases.{IsSoundPhase};
ghost use Rattle.conn_engine.specs.Step.{GivesUp, ShutsDown, CutsOff};

use crate::input::Input;
use crate::phase::ConnPhase;
use conn_supply::{HoldingPlace, Supply};
use group_jobs::Envelope;
use limits::MOST_RETIRED;
use member_window::Window;
use session_desk::{Membership, Session};
use std::mem;

/// A connection is given up.
pub(crate) fn give_up<P: HoldingPlace, S: Supply<P>>(
    supply: &mut S,
    number: u16,
    phase: &mut ConnPhase<P>,
    now: u64,
)
    requires { IsSoundPhase P.has_out phase.old }
    ensures given { GivesUp S.call P.slot_of supply.old number phase.old now supply.new }
    ensures over { phase.new ≡ phases.Ended }
    ensures visiting { S.visiting supply.new ≡ S.visiting supply.old }
{
    match mem::replace(phase, ConnPhase::Ended) {
        ConnPhase::Unconnected { opened: _opened } => {}
        ConnPhase::Waiting {
            request: _request,
            ticks: _ticks,
        } => supply.withdraw(number),
        ConnPhase::Connected(connected) => part(supply, connected.into_session(), now),
        ConnPhase::Ended => {}
    }
}

/// A connection is cut off at an input that there is no memory to answer. Where the broker closes, its session is kept as it is.
pub(crate) fn cut_off<P: HoldingPlace, S: Supply<P>>(
    supply: &mut S,
    number: u16,
    phase: &mut ConnPhase<P>,
    now: u64,
    input: Input,
)
    requires { IsSoundPhase P.has_out phase.old }
    ensures cut { CutsOff S.call P.slot_of supply.old number phase.old now input supply.new }
    ensures over { phase.new ≡ phases.Ended }
    ensures visiting { S.visiting supply.new ≡ S.visiting supply.old }
{
    match input {
        Input::Packet(packet) => {
            drop(packet);
            give_up(supply, number, phase, now);
        }
        Input::Fault(_) => give_up(supply, number, phase, now),
        Input::Tick => give_up(supply, number, phase, now),
        Input::EndOfInput => give_up(supply, number, phase, now),
        Input::Closing => shut_down(supply, number, phase),
    }
}

/// A connection ends as the broker closes.
fn shut_down<P: HoldingPlace, S: Supply<P>>(supply: &mut S, number: u16, phase: &mut ConnPhase<P>)
    requires { IsSoundPhase P.has_out phase.old }
    ensures shut { ShutsDown S.call P.slot_of supply.old number phase.old supply.new }
    ensures over { phase.new ≡ phases.Ended }
    ensures visiting { S.visiting supply.new ≡ S.visiting supply.old }
{
    match mem::replace(phase, ConnPhase::Ended) {
        ConnPhase::Unconnected { opened: _opened } => {}
        ConnPhase::Waiting {
            request: _request,
            ticks: _ticks,
        } => supply.withdraw(number),
        ConnPhase::Connected(connected) => part_as_is(supply, connected.into_session()),
        ConnPhase::Ended => {}
    }
}

/// The connection of a session has ended: the desk parks it, and it is retired where it ends with its connection.
pub(crate) fn part<P: HoldingPlace, S: Supply<P>>(
    supply: &mut S,
    mut session: Session<Envelope, P>,
    now: u64,
)
    requires { IsSoundSession P.has_out session }
    ensures parted { Parts S.call supply.old session now supply.new }
    ensures visiting { S.visiting supply.new ≡ S.visiting supply.old }
{
    session.window.down();
    if let Some(session) = supply.park(session, now) {
        retire(supply, session);
    }
}

/// The broker closes: the session of a connection is kept as it is.
pub(crate) fn part_as_is<P: HoldingPlace, S: Supply<P>>(
    supply: &mut S,
    mut session: Session<Envelope, P>,
)
    requires { IsSoundSession P.has_out session }
    ensures parked { S.call supply.old (ParkAsIs (down session)) supply.new }
    ensures visiting { S.visiting supply.new ≡ S.visiting supply.old }
{
    session.window.down();
    supply.park_as_is(session);
}

/// Retires the sessions that are due at this moment, in milliseconds: those whose time is over, and those that were kept earlier for lack of memory. It stops after [`MOST_RETIRED`](limits::MOST_RETIRED),
/// where none is handed out, or where an allocation failed. A Tick of a connection does the same.
pub fn retire_due<P: HoldingPlace, S: Supply<P>>(supply: &mut S, now: u64)
    ensures swept { Sweeps S.call supply.old now most_retired supply.new }
    ensures visiting { S.visiting supply.new ≡ S.visiting supply.old }
{
    retire_most(supply, now, MOST_RETIRED);
}

/// Retires the sessions that are due at this moment, so many at most.
fn retire_most<P: HoldingPlace, S: Supply<P>>(supply: &mut S, now: u64, most: usize)
    ensures swept { Sweeps S.call supply.old now most supply.new }
    ensures visiting { S.visiting supply.new ≡ S.visiting supply.old }
{
    if most == 0 {
        return;
    }
    if let Some(session) = supply.sweep(now) {
        if retire(supply, session) {
            retire_most(supply, now, most - 1);
        }
    }
}

/// Retires a session: it gives back what it holds, the oldest first, and is gone. Where an allocation fails, it is kept with the
/// rest, to be retired later. Says whether it is gone.
pub fn retire<P: HoldingPlace, S: Supply<P>>(supply: &mut S, session: Session<Envelope, P>) -> bool
    requires { IsOutAtPlace P.has_out session }
    ensures retired { Retires S.call supply.old session result supply.new }
    ensures visiting { S.visiting supply.new ≡ S.visiting supply.old }
{
    let Session {
        identity,
        expiry,
        mut window,
        membership,
        subscription,
    } = session;
    window.down();
    let membership = match membership {
        Membership::NotMember => Membership::NotMember,
        Membership::Member(mut place) => {
            give_back(supply, &mut place, &mut window);
            Membership::Member(place)
        }
        Membership::Leaving(mut place) => {
            give_back(supply, &mut place, &mut window);
            Membership::Leaving(place)
        }
    };
    end(
        supply,
        Session {
            identity,
            expiry,
            window,
            membership,
            subscription,
        },
    )
}

/// A place gives back what the window holds, the oldest first, until an allocation fails: what is left stays in the window.
fn give_back<P: HoldingPlace, S: Supply<P>>(
    supply: &mut S,
    place: &mut P,
    window: &mut Window<Envelope>,
)
    requires down { IsDown window.old }
    requires out { P.has_out place.old (messages window.old) }
    ensures given { (left : List (ℕ × Held)) × GivesBack S.call supply.old place.old (held_of window.old) place.new left supply.new
        × (window.new ≡ ending left) }
    ensures out { P.has_out place.new (messages window.new) }
    ensures visiting { S.visiting supply.new ≡ S.visiting supply.old }
{
    let Some((identifier, envelope)) = window.take_first() else {
        return;
    };
    match supply.give_back(place, envelope) {
        Ok(()) => give_back(supply, place, window),
        Err(envelope) => window.restore(identifier, envelope),
    }
}

/// An ending session that holds nothing is gone, and any other is kept. Says whether it is gone.
fn end<P: HoldingPlace, S: Supply<P>>(supply: &mut S, session: Session<Envelope, P>) -> bool
    requires { IsOutAtPlace P.has_out session }
    ensures ended { Ends S.call supply.old session result supply.new }
    ensures visiting { S.visiting supply.new ≡ S.visiting supply.old }
{
    if session.window.is_empty() {
        supply.bury(session);
        true
    } else {
        supply.keep(session);
        false
    }
}
