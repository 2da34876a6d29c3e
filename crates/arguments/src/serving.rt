//! What a broker on TCP begins with, by the options of `serve`.
ghost use Rattle.std.specs.Prelude.{◌≡◌, ◌≢◌, ◌≤◌, ◌⊎◌, Bool, ℕ, codes, IfOk, IfErr, MatchOption, Option, Some, IfSome};
ghost use Rattle.clap.specs.Words.{first_of, found_of, kind_of, rows_of};
ghost use Rattle.clap.specs.declared.error.kind.ErrorKind.TheVariants as kinds;
ghost use Rattle.arguments.specs.Options.{HasNumber, HasNumberIf, HaveCapacity, HaveMaxInflight};
ghost use Rattle.arguments.specs.CommandLine.{IsServiceBy, flag_word, level_word, word_of};
ghost use Rattle.arguments.specs.declared.service.ServeOptions.{ServeOptions as AnyService};

use crate::command::{refused_value, serve_command};
use crate::groups::groups_of;
use crate::service::{ServeOptions, ServeUntil};
use crate::setup::{capacity_of, limit_of};
use crate::texts::FilePath;
use broker_log::Level;
use clap::{ArgMatches, Error};
use conn_rules::{ExpiryLimit, KeepAliveLimit, MaxInflight, QueueCapacity};
use std::alloc::{AllocError, Global};
use std::net::Ipv4Addr;

/// The numbers among the options, each in its range.
#[derive(Clone, Copy)]
struct Numbers {
    port: u16,
    workers: u8,
    drain: u32,
    metrics: u16,
    sessions: u32,
    per_address: u32,
    max_expiry: Option<ExpiryLimit>,
    max_keep_alive: Option<KeepAliveLimit>,
    capacity: QueueCapacity,
    max_inflight: MaxInflight,
}

/// What a broker begins with, by the options.
pub(crate) fn service_of(alloc: Global, options: &ArgMatches) -> Result<ServeOptions, Error>
    ensures ok { IfOk result (IsServiceBy (rows_of (found_of options.now))) }
    ensures err { IfErr result (λ error. (kind_of error ≡ kinds.OutOfMemory)
        ⊎ ((kind_of error ≡ kinds.ValueValidation)
        × ((service : AnyService) → ¬ IsServiceBy (rows_of (found_of options.now)) service))) }
{
    let Some(address) = options.get_one::<Ipv4Addr>("address") else {
        return Err(wrong(
            alloc,
            "an address is four numbers from 0 to 255 with dots between",
        )?);
    };
    let Some(numbers) = numbers_of(options) else {
        return Err(wrong(alloc, "a number is out of its range")?);
    };
    let Some(until) = until_of(options) else {
        return Err(wrong(alloc, "--until is stdin or killed")?);
    };
    let Some(log) = level_of(options) else {
        return Err(wrong(alloc, "--log is off, error, info or debug")?);
    };
    let Some(keep_parked) = flag_of(options, "keep-parked") else {
        return Err(wrong(alloc, "--keep-parked has no value")?);
    };
    let Some(declared_groups) = flag_of(options, "declared-groups") else {
        return Err(wrong(alloc, "--declared-groups has no value")?);
    };
    let users = users_of(alloc, options)?;
    match groups_of(alloc, options.get_strs("group").unwrap_or(&[]))? {
        Ok(groups) => Ok(ServeOptions {
            address,
            port: numbers.port,
            workers: numbers.workers,
            until,
            drain: numbers.drain,
            metrics: numbers.metrics,
            log,
            sessions: numbers.sessions,
            keep_parked,
            declared_groups,
            per_address: numbers.per_address,
            max_expiry: numbers.max_expiry,
            max_keep_alive: numbers.max_keep_alive,
            users,
            capacity: numbers.capacity,
            max_inflight: numbers.max_inflight,
            groups,
        }),
        Err(refused) => Err(wrong(alloc, refused.text.as_str())?),
    }
}

/// The error of a value that is refused.
fn wrong(alloc: Global, text: &str) -> Result<Error, AllocError>
    ensures { IfOk result (λ error. kind_of error ≡ kinds.ValueValidation) }
{
    refused_value(serve_command(alloc)?, "share_broker serve", text)
}

/// Until when it serves.
fn until_of(options: &ArgMatches) -> Option<ServeUntil>
    ensures { MatchOption result
        ((service : AnyService) → ¬ IsServiceBy (rows_of (found_of options.now)) service)
        (λ until. first_of (codes "until") (rows_of (found_of options.now)) ≡ Some (word_of until)) }
{
    match options.get_str("until")? {
        "stdin" => Some(ServeUntil::Stdin),
        "killed" => Some(ServeUntil::Killed),
        _ => None,
    }
}

/// Whether an option that has no value is given.
fn flag_of(options: &ArgMatches, id: &str) -> Option<bool>
    ensures { MatchOption result
        ((given : Bool) → first_of id.now (rows_of (found_of options.now)) ≢ Some (flag_word given))
        (λ given. first_of id.now (rows_of (found_of options.now)) ≡ Some (flag_word given)) }
{
    match options.get_str(id)? {
        "true" => Some(true),
        "false" => Some(false),
        _ => None,
    }
}

/// How much its log has.
fn level_of(options: &ArgMatches) -> Option<Level>
    ensures { MatchOption result
        ((service : AnyService) → ¬ IsServiceBy (rows_of (found_of options.now)) service)
        (λ log. first_of (codes "log") (rows_of (found_of options.now)) ≡ Some (level_word log)) }
{
    match options.get_str("log")? {
        "off" => Some(Level::Off),
        "error" => Some(Level::Error),
        "info" => Some(Level::Info),
        "debug" => Some(Level::Debug),
        _ => None,
    }
}

/// The file with the users, where one is given.
fn users_of(alloc: Global, options: &ArgMatches) -> Result<Option<FilePath>, AllocError>
    ensures { IfOk result (λ users. first_of (codes "users") (rows_of (found_of options.now)) ≡ users) }
{
    match options.get_str("users") {
        Some(path) => Ok(Some(FilePath::new(alloc, path)?)),
        None => Ok(None),
    }
}

/// The numbers that the options have, where each is in its range.
fn numbers_of(options: &ArgMatches) -> Option<Numbers>
    ensures { MatchOption result
        ((service : AnyService) → ¬ IsServiceBy (rows_of (found_of options.now)) service)
        (λ numbers. HasNumber (codes "port") 0 65535 (rows_of (found_of options.now)) numbers.port
        × HasNumber (codes "workers") 1 64 (rows_of (found_of options.now)) numbers.workers
        × HasNumber (codes "drain") 0 86400 (rows_of (found_of options.now)) numbers.drain
        × HasNumber (codes "metrics") 0 65535 (rows_of (found_of options.now)) numbers.metrics
        × HasNumber (codes "sessions") 1 65536 (rows_of (found_of options.now)) numbers.sessions
        × HasNumber (codes "per-address") 0 65535 (rows_of (found_of options.now)) numbers.per_address
        × HasNumberIf (codes "max-expiry") 1 4294967295 (rows_of (found_of options.now)) numbers.max_expiry
        × HasNumberIf (codes "max-keep-alive") 1 65535 (rows_of (found_of options.now)) numbers.max_keep_alive
        × HaveCapacity (rows_of (found_of options.now)) numbers.capacity
        × HaveMaxInflight (rows_of (found_of options.now)) numbers.max_inflight) }
{
    let port = number(options, "port", 0, 65_535)?;
    let workers = number(options, "workers", 1, 64)?;
    let drain = number(options, "drain", 0, 86_400)?;
    let metrics = number(options, "metrics", 0, 65_535)?;
    let sessions = number(options, "sessions", 1, 65_536)?;
    let per_address = number(options, "per-address", 0, 65_535)?;
    let max_expiry = number_if(options, "max-expiry", 1, 4_294_967_295)?;
    let max_keep_alive = number_if(options, "max-keep-alive", 1, 65_535)?;
    let messages = number(options, "capacity", 1, 65_536)?;
    let packets = number(options, "max-inflight", 1, 256)?;
    Some(Numbers {
        port: port as u16,
        workers: workers as u8,
        drain,
        metrics: metrics as u16,
        sessions,
        per_address,
        max_expiry: expiry_of(max_expiry),
        max_keep_alive: keep_alive_of(max_keep_alive),
        capacity: capacity_of(messages),
        max_inflight: limit_of(packets),
    })
}

/// The limit of so many seconds of an expiry, where there is one.
fn expiry_of(seconds: Option<u32>) -> Option<ExpiryLimit>
    requires { IfSome seconds (λ seconds. 1 ≤ seconds) }
    ensures { result ≡ seconds }
{
    match seconds {
        Some(seconds) => ExpiryLimit::new(seconds),
        None => None,
    }
}

/// The limit of so many seconds of a keep alive, where there is one.
fn keep_alive_of(seconds: Option<u32>) -> Option<KeepAliveLimit>
    requires { IfSome seconds (λ seconds. (1 ≤ seconds) × (seconds ≤ 65535)) }
    ensures { result ≡ seconds }
{
    match seconds {
        Some(seconds) => KeepAliveLimit::new(seconds as u16),
        None => None,
    }
}

/// The number in this range that an option has, as it was given or is left out.
pub(crate) fn number(options: &ArgMatches, id: &str, least: u32, most: u32) -> Option<u32>
    ensures { MatchOption result
        ((number : ℕ) → ¬ HasNumber id.now least most (rows_of (found_of options.now)) number)
        (HasNumber id.now least most (rows_of (found_of options.now))) }
{
    match options.get_one::<u32>(id) {
        Some(number) if least <= number && number <= most => Some(number),
        _ => None,
    }
}

/// The number in this range that an option has; `None` where it is not given.
fn number_if(options: &ArgMatches, id: &str, least: u32, most: u32) -> Option<Option<u32>>
    ensures { MatchOption result
        ((number : Option ℕ) → ¬ HasNumberIf id.now least most (rows_of (found_of options.now)) number)
        (HasNumberIf id.now least most (rows_of (found_of options.now))) }
{
    match options.get_str(id) {
        None => Some(None),
        Some(_) => Some(Some(number(options, id, least, most)?)),
    }
}
