//! What an input does to a connection, before anything is handed out.
ghost use Rattle.std.specs.Prelude.{◌≡◌, ◌<◌, ◌≤◌, ◌↔◌, Ok, false, length, IfOk, IsOk, IsTrue, MatchResult, true};
ghost use Rattle.limits.specs.Limits.{most_connections};
ghost use Rattle.conn_rules.specs.Connecting.{first_answer};
ghost use Rattle.conn_rules.specs.Packets.{disconnect};
ghost use Rattle.conn_rules.specs.declared.connecting.FirstAnswer.TheVariants as first;
ghost use Rattle.conn_supply.specs.SupplyCalls.SupplyCall.{ParkAsIs};
ghost use Rattle.conn_supply.specs.Replies.{taken_over};
ghost use Rattle.conn_engine.specs.declared.phase.ConnPhase.TheVariants as phases;
ghost use Rattle.conn_engine.specs.Ending.{down};
ghost use Rattle.conn_engine.specs.Phases.{IsSoundPhase, IsConnected};
ghost use Rattle.conn_engine.specs.Step.{request_of, IsNoPacket, IsWanted, NeedsVisit, IsClosed, AnswersFirst, AnswersPacket, AnswersTick, GoesOn, Reacts, FailsOnPacket, FailsFirst, FailsToReact};

use crate::answering::answer;
use crate::connecting::{attach, refuse, try_again};
use crate::ending::{give_up, part_as_is, retire_due};
use crate::input::Input;
use crate::phase::{ConnPhase, ConnectRequest, ConnectedClient, Opening};
use conn_rules::{
    ClientLimits, FirstAnswer, answer_to_first, client_rights, disconnect, fault_code,
    fault_refusal, is_late, is_overdue, overrides_of, terms_of,
};
use conn_supply::{HoldingPlace, NoMemory, Reply, Supply, Then};
use mqtt_packet::{Connect, Packet, ReasonCode};
use std::alloc::Global;
use std::mem;

/// What an input does to the phase of a connection, and its reply.
///
/// # Errors
///
/// Lack of memory. The connection has ended then, and its session is parked or ending.
pub(crate) fn react<P: HoldingPlace, S: Supply<P>>(
    supply: &mut S,
    alloc: Global,
    number: u16,
    phase: &mut ConnPhase<P>,
    now: u64,
    input: Input,
) -> Result<Reply, NoMemory>
    requires known { number < most_connections }
    requires sound { IsSoundPhase P.has_out phase.old }
    requires wanted { IsWanted phase.old input }
    requires visiting { NeedsVisit input → S.visiting supply.old ≡ true }
    ensures reacted { MatchResult result
        (λ reply. Reacts S.call P.slot_of supply.old number phase.old now input phase.new reply supply.new)
        (λ _. (phase.new ≡ phases.Ended) × FailsToReact S.call P.slot_of supply.old number phase.old now input supply.new) }
    ensures visited { IsConnected phase.new → NeedsVisit input }
    ensures sound { IsSoundPhase P.has_out phase.new }
    ensures visiting { S.visiting supply.new ≡ S.visiting supply.old }
{
    if phase.is_connected() {
        return react_connected(supply, alloc, number, phase, now, input);
    }
    let before = mem::replace(phase, ConnPhase::Ended);
    let (behind, replied) = react_before(supply, number, before, now, input);
    phase.put(behind);
    replied
}

/// Before its client has its session, and where it has ended.
fn react_before<P: HoldingPlace, S: Supply<P>>(
    supply: &mut S,
    number: u16,
    phase: ConnPhase<P>,
    now: u64,
    input: Input,
) -> (ConnPhase<P>, Result<Reply, NoMemory>)
    requires known { number < most_connections }
    requires sound { IsSoundPhase P.has_out phase }
    requires wanted { IsWanted phase input }
    requires before { ¬ IsConnected phase }
    requires visiting { NeedsVisit input → S.visiting supply.old ≡ true }
    ensures reacted { MatchResult result.1
        (λ reply. Reacts S.call P.slot_of supply.old number phase now input result.0 reply supply.new)
        (λ _. (result.0 ≡ phases.Ended) × FailsToReact S.call P.slot_of supply.old number phase now input supply.new) }
    ensures visited { IsConnected result.0 → NeedsVisit input }
    ensures sound { IsSoundPhase P.has_out result.0 }
    ensures visiting { S.visiting supply.new ≡ S.visiting supply.old }
{
    match phase {
        ConnPhase::Unconnected { opened } => {
            react_unconnected(supply, number, opened, now, input)
        }
        ConnPhase::Waiting { request, ticks } => {
            react_waiting(supply, number, request, ticks, now, input)
        }
        ConnPhase::Ended => {
            drop(input);
            close()
        }
        _other => unreachable!(),
    }
}

/// The connection is closed with no answer.
fn close<P>() -> (ConnPhase<P>, Result<Reply, NoMemory>)
    ensures over { result.0 ≡ phases.Ended }
    ensures told { IfOk result.1 (IsClosed result.0) }
    ensures fine { IsOk result.1 }
{
    (ConnPhase::Ended, Ok(Reply::closed(None)))
}

/// Before the first packet.
fn react_unconnected<P: HoldingPlace, S: Supply<P>>(
    supply: &mut S,
    number: u16,
    opened: Opening,
    now: u64,
    input: Input,
) -> (ConnPhase<P>, Result<Reply, NoMemory>)
    requires known { number < most_connections }
    requires visiting { NeedsVisit input → S.visiting supply.old ≡ true }
    ensures reacted { MatchResult result.1
        (λ reply. Reacts S.call P.slot_of supply.old number (phases.Unconnected opened) now input result.0 reply supply.new)
        (λ _. (result.0 ≡ phases.Ended) × FailsToReact S.call P.slot_of supply.old number (phases.Unconnected opened) now input supply.new) }
    ensures visited { IsConnected result.0 → NeedsVisit input }
    ensures sound { IsSoundPhase P.has_out result.0 }
    ensures visiting { S.visiting supply.new ≡ S.visiting supply.old }
{
    match input {
        Input::Packet(packet) => answer_first(supply, number, opened.limits, now, packet),
        Input::Fault(fault) => match fault_refusal(fault) {
            Some(refusal) => refuse(refusal),
            None => close(),
        },
        Input::Tick => {
            retire_due(supply, now);
            if is_late(now.saturating_sub(opened.at)) {
                close()
            } else {
                (ConnPhase::Unconnected { opened }, Ok(Reply::going_on(None)))
            }
        }
        Input::EndOfInput => close(),
        Input::Closing => close(),
    }
}

/// Answers the first packet.
fn answer_first<P: HoldingPlace, S: Supply<P>>(
    supply: &mut S,
    number: u16,
    limits: ClientLimits,
    now: u64,
    packet: Packet,
) -> (ConnPhase<P>, Result<Reply, NoMemory>)
    requires known { number < most_connections }
    ensures answered { MatchResult result.1
        (λ reply. AnswersFirst S.call P.slot_of (first_answer limits.users packet) supply.old number limits now packet result.0 reply supply.new)
        (λ _. (result.0 ≡ phases.Ended) × FailsFirst S.call P.slot_of supply.old number limits now packet supply.new) }
    ensures sound { IsSoundPhase P.has_out result.0 }
    ensures visiting { S.visiting supply.new ≡ S.visiting supply.old }
{
    match answer_to_first(&limits, &packet) {
        FirstAnswer::Close => {
            drop(packet);
            close()
        }
        FirstAnswer::Refuse(refusal) => {
            drop(packet);
            refuse(refusal)
        }
        FirstAnswer::Attach => connect(supply, number, limits, now, packet),
    }
}

/// Asks for the session of the client of a CONNECT.
#[tactic(auto, using(crate::proofs::First::first_is_short))]
fn connect<P: HoldingPlace, S: Supply<P>>(
    supply: &mut S,
    number: u16,
    limits: ClientLimits,
    now: u64,
    packet: Packet,
) -> (ConnPhase<P>, Result<Reply, NoMemory>)
    requires known { number < most_connections }
    requires opens { first_answer limits.users packet ≡ first.Attach }
    ensures answered { MatchResult result.1
        (λ reply. AnswersFirst S.call P.slot_of first.Attach supply.old number limits now packet result.0 reply supply.new)
        (λ _. (result.0 ≡ phases.Ended) × FailsFirst S.call P.slot_of supply.old number limits now packet supply.new) }
    ensures sound { IsSoundPhase P.has_out result.0 }
    ensures visiting { S.visiting supply.new ≡ S.visiting supply.old }
{
    match packet {
        Packet::Connect(connect) => {
            attach(
                supply,
                number,
                now,
                request_of(limits, connect.into_inner(), now),
                0,
            )
        }
        _other => unreachable!(),
    }
}

/// What a CONNECT asks for that comes at this moment.
fn request_of(limits: ClientLimits, connect: Connect, now: u64) -> ConnectRequest
    ensures { result ≡ request_of limits connect now }
{
    let terms = terms_of(&limits, &connect);
    let overrides = overrides_of(&limits, &connect);
    let rights = client_rights(limits.users, &connect);
    ConnectRequest {
        client: connect.client_identifier,
        clean_start: connect.clean_start,
        terms,
        overrides,
        rights,
        came: now,
    }
}

/// While it waits for a session.
fn react_waiting<P: HoldingPlace, S: Supply<P>>(
    supply: &mut S,
    number: u16,
    request: ConnectRequest,
    ticks: u8,
    now: u64,
    input: Input,
) -> (ConnPhase<P>, Result<Reply, NoMemory>)
    requires known { number < most_connections }
    requires short { length request.client ≤ 128 }
    requires few { ticks < 100 }
    requires wanted { IsNoPacket input }
    requires visiting { NeedsVisit input → S.visiting supply.old ≡ true }
    ensures reacted { MatchResult result.1
        (λ reply. Reacts S.call P.slot_of supply.old number (phases.Waiting request ticks) now input result.0 reply supply.new)
        (λ _. (result.0 ≡ phases.Ended) × FailsToReact S.call P.slot_of supply.old number (phases.Waiting request ticks) now input supply.new) }
    ensures visited { IsConnected result.0 → NeedsVisit input }
    ensures sound { IsSoundPhase P.has_out result.0 }
    ensures visiting { S.visiting supply.new ≡ S.visiting supply.old }
{
    match input {
        Input::Tick => {
            retire_due(supply, now);
            try_again(supply, number, now, request, ticks)
        }
        Input::EndOfInput => {
            supply.withdraw(number);
            close()
        }
        Input::Closing => {
            supply.withdraw(number);
            close()
        }
        Input::Packet(_) => unreachable!(),
        Input::Fault(_) => unreachable!(),
    }
}

/// While its client has its session.
fn react_connected<P: HoldingPlace, S: Supply<P>>(
    supply: &mut S,
    alloc: Global,
    number: u16,
    phase: &mut ConnPhase<P>,
    now: u64,
    input: Input,
) -> Result<Reply, NoMemory>
    requires sound { IsSoundPhase P.has_out phase.old }
    requires connected { IsConnected phase.old }
    requires visiting { NeedsVisit input → S.visiting supply.old ≡ true }
    ensures reacted { MatchResult result
        (λ reply. Reacts S.call P.slot_of supply.old number phase.old now input phase.new reply supply.new)
        (λ _. (phase.new ≡ phases.Ended) × FailsToReact S.call P.slot_of supply.old number phase.old now input supply.new) }
    ensures visited { IsConnected phase.new → NeedsVisit input }
    ensures sound { IsSoundPhase P.has_out phase.new }
    ensures visiting { S.visiting supply.new ≡ S.visiting supply.old }
{
    match input {
        Input::Packet(packet) => {
            if supply.kicked(number) {
                drop(packet);
                give_up(supply, number, phase, now);
                return Ok(taken_over(alloc));
            }
            answer_packet(supply, alloc, number, phase, now, packet)
        }
        Input::Tick => {
            if supply.kicked(number) {
                give_up(supply, number, phase, now);
                return Ok(taken_over(alloc));
            }
            Ok(tick(supply, alloc, number, phase, now))
        }
        Input::Fault(fault) => {
            give_up(supply, number, phase, now);
            Ok(Reply::closing_with(alloc, fault_code(fault)))
        }
        Input::EndOfInput => {
            give_up(supply, number, phase, now);
            Ok(Reply::closed(None))
        }
        Input::Closing => {
            shut_down(supply, phase);
            Ok(Reply::closing_with(alloc, ReasonCode::SERVER_SHUTTING_DOWN))
        }
    }
}

/// Another connection has asked for the session.
fn taken_over(alloc: Global) -> Reply
    ensures { result ≡ taken_over (disconnect 0x8E) }
{
    Reply {
        packet: Some(disconnect(alloc, ReasonCode::SESSION_TAKEN_OVER)),
        next: Then::Kicked,
    }
}

/// The server closes: the session is parked as it is.
fn shut_down<P: HoldingPlace, S: Supply<P>>(supply: &mut S, phase: &mut ConnPhase<P>)
    requires sound { IsSoundPhase P.has_out phase.old }
    requires connected { IsConnected phase.old }
    ensures parked { (connected : ConnectedClient P) → phase.old ≡ phases.Connected connected → S.call supply.old (ParkAsIs (down connected.session)) supply.new }
    ensures over { phase.new ≡ phases.Ended }
    ensures visiting { S.visiting supply.new ≡ S.visiting supply.old }
{
    match mem::replace(phase, ConnPhase::Ended) {
        ConnPhase::Connected(connected) => part_as_is(supply, connected.into_session()),
        _other => unreachable!(),
    }
}

/// Answers a packet.
fn answer_packet<P: HoldingPlace, S: Supply<P>>(
    supply: &mut S,
    alloc: Global,
    number: u16,
    phase: &mut ConnPhase<P>,
    now: u64,
    packet: Packet,
) -> Result<Reply, NoMemory>
    requires sound { IsSoundPhase P.has_out phase.old }
    requires connected { IsConnected phase.old }
    requires visiting { S.visiting supply.old ≡ true }
    ensures answered { (connected : ConnectedClient P) → phase.old ≡ phases.Connected connected → MatchResult result
        (λ reply. AnswersPacket S.call P.slot_of supply.old number connected now packet phase.new reply supply.new)
        (λ _. (phase.new ≡ phases.Ended) × FailsOnPacket S.call P.slot_of supply.old number connected now packet supply.new) }
    ensures sound { IsSoundPhase P.has_out phase.new }
    ensures visiting { S.visiting supply.new ≡ S.visiting supply.old }
{
    let ConnPhase::Connected(connected) = phase else {
        unreachable!()
    };
    connected.heard = connected.heard.max(now);
    let replied = answer(supply, alloc, number, connected, now, packet);
    if !goes_on(&replied) {
        give_up(supply, number, phase, now);
    }
    replied
}

/// Whether the connection goes on after a reply.
fn goes_on(replied: &Result<Reply, NoMemory>) -> bool
    ensures { IsTrue result ↔ GoesOn replied.now }
{
    match replied {
        Ok(reply) => matches!(reply.next, Then::Go),
        Err(NoMemory) => false,
    }
}

/// Time has gone on: what is due is swept, and a client that was silent for too long is closed (section 3.1.2.10).
fn tick<P: HoldingPlace, S: Supply<P>>(
    supply: &mut S,
    alloc: Global,
    number: u16,
    phase: &mut ConnPhase<P>,
    now: u64,
) -> Reply
    requires sound { IsSoundPhase P.has_out phase.old }
    requires connected { IsConnected phase.old }
    ensures ticked { (connected : ConnectedClient P) → phase.old ≡ phases.Connected connected → AnswersTick S.call P.slot_of supply.old connected now phase.new result supply.new }
    ensures sound { IsSoundPhase P.has_out phase.new }
    ensures visiting { S.visiting supply.new ≡ S.visiting supply.old }
{
    retire_due(supply, now);
    let ConnPhase::Connected(connected) = phase else {
        unreachable!()
    };
    if is_overdue(
        connected.terms.keep_alive,
        now.saturating_sub(connected.heard),
    ) {
        give_up(supply, number, phase, now);
        return Reply::closing_with(alloc, ReasonCode::KEEP_ALIVE_TIMEOUT);
    }
    Reply::going_on(None)
}
