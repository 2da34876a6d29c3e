//! A broker on TCP, and its log.
ghost use Rattle.std.specs.Prelude.{◌≡◌, IfOk, IsErr};
ghost use Rattle.std.specs.Io.KnownBytes.{IsAtEnd};
ghost use Rattle.broker_log.specs.Lines.{BeginsToLog};
ghost use Rattle.program.specs.Ending.{HasRead, IsLoggedFor, IsLoggedUnread, IsServedFor, IsServedWith, limits_of};
ghost use Rattle.program.specs.Newcomers.{newcomers_of};

use crate::endless::Endless;
use crate::users_file::users_for;
use arguments::{ServeOptions, ServeUntil};
use broker_log::{Level, Log};
use conn_rules::ClientLimits;
use session_desk::Newcomers;
use shared_routes::NewShares;
use std::alloc::Global;
use std::io::{Read, Write};
use std::net::Net;
use std::rt::{Clock, Files};
use std::sync::Wait;
use std::thread;
use std::thread::Threads;
use tcp_server::{ListenAt, ServeSettings, serve_at};
use text_io::RunError;
use users::SharedUsers;

/// What is asked of a broker, what it grants a client, and its log.
#[derive(Clone, Copy)]
struct Serving<'s, 'l, 'g> {
    service: &'s ServeOptions,
    limits: &'l ClientLimits,
    log: &'g Log,
}

/// Serves as was asked for, and writes what the log has of it. Where the file with the users gives none, it serves nobody.
pub(crate) fn serve<
    H: Threads + Wait + Net + Clock + Files + Sync,
    R: Read + Send,
    W: Write,
    E: Write + Send,
>(
    rt: &H,
    alloc: Global,
    service: &ServeOptions,
    reader: &mut R,
    output: &mut W,
    errors: &mut E,
) -> Result<(), RunError>
    ensures written { IsServedFor service.now result (W.contents output.old) (W.contents output.new) }
    ensures read { HasRead service.now.until result (R.remaining reader.old) (R.remaining reader.new) }
    ensures logged { IsLoggedFor service.now.until service.now.log (E.contents errors.old) (E.contents errors.new) }
{
    match users_for(rt, alloc, &service.users) {
        Ok(users) => {
            let limits = limits_of(service, users);
            serve_limited(rt, alloc, service, &limits, reader, output, errors)
        }
        Err(error) => Err(error),
    }
}

/// What a broker grants a client at most, and which clients it serves.
fn limits_of(service: &ServeOptions, users: Option<SharedUsers>) -> ClientLimits
    ensures { result ≡ limits_of service.now users }
{
    ClientLimits {
        max_inflight: service.max_inflight,
        max_expiry: service.max_expiry,
        max_keep_alive: service.max_keep_alive,
        users,
    }
}

/// Serves with these limits, and writes what the log has of it.
fn serve_limited<H: Threads + Wait + Net + Clock + Sync, R: Read + Send, W: Write, E: Write + Send>(
    rt: &H,
    alloc: Global,
    service: &ServeOptions,
    limits: &ClientLimits,
    reader: &mut R,
    output: &mut W,
    errors: &mut E,
) -> Result<(), RunError>
    ensures written { IsServedWith service.now limits.now result (W.contents output.old) (W.contents output.new) }
    ensures read { HasRead service.now.until result (R.remaining reader.old) (R.remaining reader.new) }
    ensures logged { IsLoggedFor service.now.until service.now.log (E.contents errors.old) (E.contents errors.new) }
{
    match Log::open(alloc, service.log) {
        Ok(log) => {
            let serving = Serving {
                service,
                limits,
                log: &log,
            };
            serve_until(rt, alloc, serving, reader, output, errors)
        }
        Err(_) => Err(RunError::Memory),
    }
}

/// Serves until its input ends, or until it is killed.
fn serve_until<H: Threads + Wait + Net + Clock + Sync, R: Read + Send, W: Write, E: Write + Send>(
    rt: &H,
    alloc: Global,
    serving: Serving<'_, '_, '_>,
    reader: &mut R,
    output: &mut W,
    errors: &mut E,
) -> Result<(), RunError>
    requires { serving.log.now ≡ serving.service.now.log }
    ensures written { IsServedWith serving.entry.service.now serving.entry.limits.now result (W.contents output.old) (W.contents output.new) }
    ensures read { HasRead serving.entry.service.now.until result (R.remaining reader.old) (R.remaining reader.new) }
    ensures logged { IsLoggedFor serving.entry.service.now.until serving.entry.service.now.log (E.contents errors.old) (E.contents errors.new) }
{
    match serving.service.until {
        ServeUntil::Stdin => serve_logged(rt, alloc, serving, reader, output, errors),
        ServeUntil::Killed => serve_unread(rt, alloc, serving, output, errors),
    }
}

/// Serves until it is killed, and reads nothing.
fn serve_unread<H: Threads + Wait + Net + Clock + Sync, W: Write, E: Write + Send>(
    rt: &H,
    alloc: Global,
    serving: Serving<'_, '_, '_>,
    output: &mut W,
    errors: &mut E,
) -> Result<(), RunError>
    ensures written { IsServedWith serving.entry.service.now serving.entry.limits.now result (W.contents output.old) (W.contents output.new) }
    ensures failed { IsErr result }
    ensures logged { IsLoggedUnread serving.entry.log.now (E.contents errors.old) (E.contents errors.new) }
{
    let mut endless = Endless { rt };
    if serving.log.level() == Level::Off {
        serve_reading(rt, alloc, serving, &mut endless, output)
    } else {
        serve_logged(rt, alloc, serving, &mut endless, output, errors)
    }
}

/// Serves until this reader has ended, and writes what is said to the log: in a thread of its own meanwhile, or, where the log is off, once all is done.
fn serve_logged<H: Threads + Wait + Net + Clock + Sync, R: Read + Send, W: Write, E: Write + Send>(
    rt: &H,
    alloc: Global,
    serving: Serving<'_, '_, '_>,
    reader: &mut R,
    output: &mut W,
    errors: &mut E,
) -> Result<(), RunError>
    ensures written { IsServedWith serving.entry.service.now serving.entry.limits.now result (W.contents output.old) (W.contents output.new) }
    ensures read { IfOk result (λ _. IsAtEnd (R.remaining reader.new)) }
    ensures logged { BeginsToLog serving.entry.log.now (E.contents errors.old) (E.contents errors.new) }
{
    if serving.log.level() == Level::Off {
        let ended = serve_reading(rt, alloc, serving, reader, output);
        serving.log.close();
        serving.log.run(rt, alloc, errors);
        ended
    } else {
        serve_beside(rt, alloc, serving, reader, output, errors)
    }
}

/// Serves in this thread, and writes what is said to the log in another one. Where the system makes none, that is written once all is done.
fn serve_beside<H: Threads + Wait + Net + Clock + Sync, R: Read + Send, W: Write, E: Write + Send>(
    rt: &H,
    alloc: Global,
    serving: Serving<'_, '_, '_>,
    reader: &mut R,
    output: &mut W,
    errors: &mut E,
) -> Result<(), RunError>
    ensures written { IsServedWith serving.entry.service.now serving.entry.limits.now result (W.contents output.old) (W.contents output.new) }
    ensures read { IfOk result (λ _. IsAtEnd (R.remaining reader.new)) }
    ensures logged { BeginsToLog serving.entry.log.now (E.contents errors.old) (E.contents errors.new) }
{
    let Serving {
        service,
        limits,
        log,
    } = serving;
    let mut logging = || log.run(rt, alloc, errors);
    let mut serve = ||
        ensures written { IsServedWith service.entry.now limits.entry.now result (W.contents output.entry.now) (W.contents output.exit.now) }
        ensures read { IfOk result (λ _. IsAtEnd (R.remaining reader.exit.now)) }
    { serve_closing(rt, alloc, service, limits, log, reader, output) };
    let (_written, ended) = thread::join_mut(rt, &mut logging, &mut serve);
    ended
}

/// Serves until this reader has ended, and closes the log.
fn serve_closing<H: Threads + Wait + Net + Clock + Sync, R: Read + Send, W: Write>(
    rt: &H,
    alloc: Global,
    service: &ServeOptions,
    limits: &ClientLimits,
    log: &Log,
    reader: &mut R,
    output: &mut W,
) -> Result<(), RunError>
    ensures written { IsServedWith service.now limits.now result (W.contents output.old) (W.contents output.new) }
    ensures read { IfOk result (λ _. IsAtEnd (R.remaining reader.new)) }
{
    let serving = Serving {
        service,
        limits,
        log,
    };
    let ended = serve_reading(rt, alloc, serving, reader, output);
    log.close();
    ended
}

/// Serves until this reader has ended.
fn serve_reading<H: Threads + Wait + Net + Clock + Sync, R: Read + Send, W: Write>(
    rt: &H,
    alloc: Global,
    serving: Serving<'_, '_, '_>,
    reader: &mut R,
    output: &mut W,
) -> Result<(), RunError>
    ensures written { IsServedWith serving.entry.service.now serving.entry.limits.now result (W.contents output.old) (W.contents output.new) }
    ensures read { IfOk result (λ _. IsAtEnd (R.remaining reader.new)) }
{
    let service = serving.service;
    let settings = ServeSettings {
        capacity: service.capacity.get() as usize,
        workers: service.workers,
        limits: serving.limits.share()?,
        drain: service.drain,
        newcomers: newcomers_of(service),
        new_shares: new_shares_of(service.declared_groups),
        per_address: service.per_address,
    };
    let at = ListenAt {
        address: service.address,
        port: service.port,
        metrics: service.metrics,
    };
    serve_at(
        rt,
        alloc,
        settings,
        &service.groups,
        at,
        serving.log,
        reader,
        output,
    )
}

/// What a broker does for a client that has no session.
fn newcomers_of(service: &ServeOptions) -> Newcomers
    ensures { result ≡ newcomers_of service.now }
{
    if service.keep_parked {
        Newcomers::IfRoom(service.sessions)
    } else {
        Newcomers::Displace(service.sessions)
    }
}

/// What a broker does for a client that asks for the group of a share that was not given.
fn new_shares_of(declared_groups: bool) -> NewShares {
    if declared_groups {
        NewShares::Refused
    } else {
        NewShares::Bound
    }
}
