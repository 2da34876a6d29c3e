//! What a server begins with, by the options of a command.
ghost use Rattle.std.specs.Prelude.{◌≡◌, ◌≤◌, ◌⊎◌, ℕ, IfOk, IfErr, []};
ghost use Rattle.clap.specs.Words.{found_of, kind_of, rows_of};
ghost use Rattle.clap.specs.declared.error.kind.ErrorKind.TheVariants as kinds;
ghost use Rattle.arguments.specs.Groups.{RefusesOne};
ghost use Rattle.arguments.specs.Options.{pairs_in, HaveCapacity, HaveMaxInflight};
ghost use Rattle.arguments.specs.CommandLine.{IsSetupBy};

use crate::command::{command_named, refused_value};
use crate::groups::groups_of;
use clap::{ArgMatches, Error};
use conn_rules::{MaxInflight, QueueCapacity, Setup};
use std::alloc::{AllocError, Global};

/// What a server begins with, by the options of the command of this name, `solo` or `drive`.
pub(crate) fn setup_of(alloc: Global, name: &str, options: &ArgMatches) -> Result<Setup, Error>
    requires capacity { (number : ℕ) × HaveCapacity (rows_of (found_of options.now)) number }
    requires max_inflight { (number : ℕ) × HaveMaxInflight (rows_of (found_of options.now)) number }
    ensures ok { IfOk result (IsSetupBy (rows_of (found_of options.now))) }
    ensures err { IfErr result (λ error. (kind_of error ≡ kinds.OutOfMemory)
        ⊎ ((kind_of error ≡ kinds.ValueValidation)
        × ((refusal : _) × RefusesOne [] (pairs_in (rows_of (found_of options.now))) refusal))) }
{
    let messages = messages(options);
    let packets = packets(options);
    match groups_of(alloc, options.get_strs("group").unwrap_or(&[]))? {
        Ok(groups) => Ok(Setup {
            capacity: capacity_of(messages),
            max_inflight: limit_of(packets),
            groups,
        }),
        Err(refused) => Err(wrong(alloc, name, refused.text.as_str())?),
    }
}

/// The error of a value of the command of this name that is refused.
fn wrong(alloc: Global, name: &str, text: &str) -> Result<Error, AllocError>
    ensures { IfOk result (λ error. kind_of error ≡ kinds.ValueValidation) }
{
    let words = format!(in alloc; "share_broker {name}")?;
    refused_value(command_named(alloc, name, "")?, words.as_str(), text)
}

/// The capacity of a queue for so many messages.
pub(crate) fn capacity_of(messages: u32) -> QueueCapacity
    requires { (1 ≤ messages) × (messages ≤ 65536) }
    ensures { result ≡ messages }
{
    match QueueCapacity::new(messages) {
        Some(capacity) => capacity,
        None => unreachable!(),
    }
}

/// The limit of so many unacknowledged messages.
pub(crate) fn limit_of(packets: u32) -> MaxInflight
    requires { (1 ≤ packets) × (packets ≤ 256) }
    ensures { result ≡ packets }
{
    match MaxInflight::new(packets as u16) {
        Some(max_inflight) => max_inflight,
        None => unreachable!(),
    }
}

/// The number of `--capacity`.
fn messages(options: &ArgMatches) -> u32
    requires { (number : ℕ) × HaveCapacity (rows_of (found_of options.now)) number }
    ensures { HaveCapacity (rows_of (found_of options.now)) result }
{
    options.get_one::<u32>("capacity").unwrap_or(1_024)
}

/// The number of `--max-inflight`.
fn packets(options: &ArgMatches) -> u32
    requires { (number : ℕ) × HaveMaxInflight (rows_of (found_of options.now)) number }
    ensures { HaveMaxInflight (rows_of (found_of options.now)) result }
{
    options.get_one::<u32>("max-inflight").unwrap_or(256)
}
