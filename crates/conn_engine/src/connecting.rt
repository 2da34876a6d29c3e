//! The answer to a CONNECT, and to a Tick while a connection waits for a session (sections 3.1 and 3.2).
ghost use Rattle.std.specs.Prelude.{◌≡◌, ◌<◌, ◌≤◌, ◌↔◌, ℕ, nat_lt, length, slice_get, Some, IfOk, IfSome, IsOk, IsTrue, MatchResult};
ghost use Rattle.limits.specs.Limits.{most_connections};
ghost use Rattle.group_jobs.specs.Stamps.{Held};
ghost use Rattle.member_window.specs.Contents.{held_of};
ghost use Rattle.conn_rules.specs.HandOuts.{is_message_too_long};
ghost use Rattle.conn_supply.specs.Holding.{IsOutAtPlace};
ghost use Rattle.conn_supply.specs.Ready.{IsSoundSession};
ghost use Rattle.conn_engine.specs.Connecting.{opened, assigned, holds_message_too_long, IsRefused, Accepts, RetiresEarlier, ResumesAs, Attaches, FailsToAttach, most_ticks, WaitsAs, TriesAgain, FailsAgain};
ghost use Rattle.conn_engine.specs.Ending.{Parts};
ghost use Rattle.conn_engine.specs.Phases.{IsSoundPhase, IsWaiting};
ghost use Rattle.conn_engine.specs.declared.phase.ConnPhase.TheVariants.{Ended};

use crate::ending::{part, part_as_is, retire};
use crate::phase::{ConnPhase, ConnectRequest, ConnectedClient};
use conn_rules::{Terms, accepting, is_message_too_long, refusing};
use conn_supply::{HoldingPlace, NoMemory, Reply, Supply};
use group_jobs::Envelope;
use member_window::Window;
use mqtt_packet::{ConnectRefusal, Text};
use session_desk::{Attached, DeskError, Identity, Session, SessionExpiry};

/// For how many Ticks a connection waits for a session.
const MOST_TICKS: u8 = 100;

/// Asks for the session of a client that connects, and has found it lent at so many Ticks before, and answers.
///
/// # Errors
///
/// Lack of memory. The connection has ended then, and a session that was lent is parked or ending.
pub(crate) fn attach<P: HoldingPlace, S: Supply<P>>(
    supply: &mut S,
    number: u16,
    now: u64,
    request: ConnectRequest,
    ticks: u8,
) -> (ConnPhase<P>, Result<Reply, NoMemory>)
    requires known { number < most_connections }
    requires short { length request.client ≤ 128 }
    ensures answered { MatchResult result.1
        (λ reply. Attaches S.call supply.old number now request ticks result.0 reply supply.new)
        (λ _. (result.0 ≡ Ended) × FailsToAttach S.call supply.old number now request supply.new) }
    ensures sound { IsSoundPhase P.has_out result.0 }
    ensures visiting { S.visiting supply.new ≡ S.visiting supply.old }
{
    match supply.attach(number, &request.client, request.clean_start, now) {
        Ok(Attached::New { session, ended }) => {
            retire_earlier(supply, ended);
            accept(supply, now, request, session, false)
        }
        Ok(Attached::Resumed(session)) => resume(supply, now, request, session),
        Ok(Attached::Replace(_)) => wait(request, ticks),
        Ok(Attached::Busy) => refuse(ConnectRefusal::ServerBusy),
        Err(DeskError::Full | DeskError::NoPlace) => refuse(ConnectRefusal::ServerBusy),
        Err(DeskError::NoName) => refuse(ConnectRefusal::ClientIdentifierNotValid),
        Err(DeskError::Memory) => (ConnPhase::Ended, Err(NoMemory)),
    }
}

/// A connection that waits, and has found its session lent at so many Ticks, asks for it again. It waits for 100 Ticks at most.
///
/// # Errors
///
/// Lack of memory. The connection has ended then, and a session that was lent is parked or ending.
pub(crate) fn try_again<P: HoldingPlace, S: Supply<P>>(
    supply: &mut S,
    number: u16,
    now: u64,
    request: ConnectRequest,
    ticks: u8,
) -> (ConnPhase<P>, Result<Reply, NoMemory>)
    requires known { number < most_connections }
    requires short { length request.client ≤ 128 }
    requires few { ticks < 100 }
    ensures answered { MatchResult result.1
        (λ reply. TriesAgain S.call supply.old number now request ticks result.0 reply supply.new)
        (λ _. (result.0 ≡ Ended) × FailsAgain S.call supply.old number now request supply.new) }
    ensures sound { IsSoundPhase P.has_out result.0 }
    ensures visiting { S.visiting supply.new ≡ S.visiting supply.old }
{
    let (phase, replied) = attach(supply, number, now, request, ticks + 1);
    if !is_waiting(&phase) {
        supply.withdraw(number);
    }
    (phase, replied)
}

/// Whether a connection waits for a session.
pub(crate) fn is_waiting<P>(phase: &ConnPhase<P>) -> bool
    ensures { IsTrue result ↔ IsWaiting phase.now }
{
    matches!(phase, ConnPhase::Waiting { .. })
}

/// Another connection has the session: this one waits for it, unless it has waited long enough.
fn wait<P: HoldingPlace>(
    request: ConnectRequest,
    ticks: u8,
) -> (ConnPhase<P>, Result<Reply, NoMemory>)
    requires { length request.client ≤ 128 }
    ensures answered { IfOk result.1 (WaitsAs (nat_lt ticks most_ticks) request ticks result.0) }
    ensures fine { IsOk result.1 }
    ensures sound { IsSoundPhase P.has_out result.0 }
{
    if ticks < MOST_TICKS {
        (
            ConnPhase::Waiting { request, ticks },
            Ok(Reply::going_on(None)),
        )
    } else {
        refuse(ConnectRefusal::ServerBusy)
    }
}

/// The connection is refused, and closed.
pub(crate) fn refuse<P>(refusal: ConnectRefusal) -> (ConnPhase<P>, Result<Reply, NoMemory>)
    ensures over { result.0 ≡ Ended }
    ensures told { IfOk result.1 (IsRefused refusal result.0) }
    ensures fine { IsOk result.1 }
{
    (ConnPhase::Ended, Ok(Reply::closed(Some(refusing(refusal)))))
}

/// Retires the session that a client had, where it had one.
fn retire_earlier<P: HoldingPlace, S: Supply<P>>(
    supply: &mut S,
    ended: Option<Session<Envelope, P>>,
)
    requires { IfSome ended (IsOutAtPlace P.has_out) }
    ensures retired { RetiresEarlier S.call supply.old ended supply.new }
    ensures visiting { S.visiting supply.new ≡ S.visiting supply.old }
{
    if let Some(ended) = ended {
        retire(supply, ended);
    }
}

/// The connection begins with the session that the client had; but one that holds what is too long for the client is not for it, and stays as it was.
fn resume<P: HoldingPlace, S: Supply<P>>(
    supply: &mut S,
    now: u64,
    request: ConnectRequest,
    session: Session<Envelope, P>,
) -> (ConnPhase<P>, Result<Reply, NoMemory>)
    requires { IsSoundSession P.has_out session }
    ensures answered { MatchResult result.1
        (λ reply. ResumesAs S.call (holds_message_too_long request.terms.maximum_packet_size session.window) supply.old request session result.0 reply supply.new)
        (λ _. (result.0 ≡ Ended) × Parts S.call supply.old (opened session request.terms) now supply.new) }
    ensures sound { IsSoundPhase P.has_out result.0 }
    ensures visiting { S.visiting supply.new ≡ S.visiting supply.old }
{
    match holds_message_too_long(&session.window, &request.terms) {
        Ok(true) => {
            part_as_is(supply, session);
            refuse(ConnectRefusal::ImplementationSpecificError)
        }
        Ok(false) => accept(supply, now, request, session, true),
        Err(NoMemory) => {
            let session = open(session, &request.terms);
            part(supply, session, now);
            (ConnPhase::Ended, Err(NoMemory))
        }
    }
}

/// Whether a window holds a message whose PUBLISH, as it was sent first, is longer than a client of these terms takes (section 3.1.2.11.4).
fn holds_message_too_long(window: &Window<Envelope>, terms: &Terms) -> Result<bool, NoMemory>
    ensures { IfOk result (λ holds. holds ≡ holds_message_too_long terms.now.maximum_packet_size window.now) }
{
    'held: for place in 0..window.len() {
        if is_too_long_at(window, place, terms)? {
            return Ok(true);
        }
    }
    Ok(false)
}

/// Whether the message at this place of a window is too long for a client of these terms; not where there is none.
fn is_too_long_at(window: &Window<Envelope>, place: usize, terms: &Terms) -> Result<bool, NoMemory>
    ensures { IfOk result (λ too_long. (entry : ℕ × Held) → slice_get (held_of window.now) place ≡ Some entry → too_long ≡ is_message_too_long terms.now.maximum_packet_size entry.1.subscription entry.1.message) }
{
    match window.get(place) {
        Some((_, envelope)) => Ok(is_message_too_long(
            envelope.message(),
            envelope.subscription(),
            terms.maximum_packet_size,
        )?),
        None => Ok(false),
    }
}

/// A session that begins under these terms.
fn open<P: HoldingPlace>(mut session: Session<Envelope, P>, terms: &Terms) -> Session<Envelope, P>
    requires { IsSoundSession P.has_out session }
    ensures opened { result ≡ opened session terms.now }
    ensures sound { IsSoundSession P.has_out result }
{
    session.window.up(terms.receive_maximum);
    session.expiry = SessionExpiry {
        seconds: terms.session_expiry_interval,
        parked: None,
    };
    session
}

/// The connection begins with this session.
fn accept<P: HoldingPlace, S: Supply<P>>(
    supply: &mut S,
    now: u64,
    request: ConnectRequest,
    session: Session<Envelope, P>,
    present: bool,
) -> (ConnPhase<P>, Result<Reply, NoMemory>)
    requires { IsSoundSession P.has_out session }
    ensures answered { MatchResult result.1
        (λ reply. Accepts request present session result.0 reply × (supply.new ≡ supply.old))
        (λ _. (result.0 ≡ Ended) × Parts S.call supply.old (opened session request.terms) now supply.new) }
    ensures sound { IsSoundPhase P.has_out result.0 }
    ensures visiting { S.visiting supply.new ≡ S.visiting supply.old }
{
    let session = open(session, &request.terms);
    match assigned(&request.client, &session.identity) {
        Ok(name) => {
            let ConnectRequest {
                client: _,
                clean_start: _,
                terms,
                overrides,
                rights,
                came,
            } = request;
            let connected = ConnectedClient {
                session,
                terms,
                rights,
                heard: came,
            };
            (
                ConnPhase::Connected(connected),
                Ok(Reply::going_on(Some(accepting(present, name, overrides)))),
            )
        }
        Err(NoMemory) => {
            part(supply, session, now);
            (ConnPhase::Ended, Err(NoMemory))
        }
    }
}

/// The identifier that a client without one was given.
fn assigned(client: &Text, identity: &Identity) -> Result<Option<Text>, NoMemory>
    ensures { IfOk result (λ name. name ≡ assigned client.now identity.now) }
{
    if client.as_bytes().is_empty() {
        Ok(Text::parse(identity.client().clone()?))
    } else {
        Ok(None)
    }
}
