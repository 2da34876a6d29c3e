//! The command line: its commands, and what its words ask for.
ghost use Rattle.std.specs.Prelude.{◌≡◌, ◌⊎◌, IfOk, IfErr, map};
ghost use Rattle.std.specs.String.{string_bytes};
ghost use Rattle.clap.specs.Words.{app_of, kind_of};
ghost use Rattle.arguments.specs.CommandLine.{command_line, command_named, password_command, serve_command, AskFor, SpellNoRequest};

use crate::hashing::password_of;
use crate::options::{
    address, capacity, declared_groups, drain, group, iterations, keep_parked, log, max_expiry,
    max_inflight, max_keep_alive, metrics, name, per_address, port, sessions, until, users,
    workers,
};
use crate::password::PasswordOptions;
use crate::service::ServeOptions;
use crate::serving::service_of;
use crate::setup::setup_of;
use clap::error::ErrorKind;
use clap::{Command, Error};
use conn_rules::Setup;
use std::alloc::{AllocError, Global};

/// What the words ask for.
#[derive(Drop)]
pub enum Request {
    /// One client against a server.
    Solo(Setup),
    /// A server that is driven by events.
    Drive(Setup),
    /// A broker on TCP.
    Serve(ServeOptions),
    /// The line of a user.
    HashPassword(PasswordOptions),
}

/// What the words of a command line ask for, the program's name in front.
///
/// # Errors
///
/// The text of a fault, of the help, or of the version, as clap has them; of a `--group` or a `NAME` that is refused the text names it, and says why.
/// [`ErrorKind::OutOfMemory`] for lack of memory.
pub fn arguments(alloc: Global, words: &[String]) -> Result<Request, Error>
    ensures ok { IfOk result (AskFor (map string_bytes words.now)) }
    ensures err { IfErr result (λ error. (kind_of error ≡ ErrorKind.OutOfMemory)
        ⊎ SpellNoRequest (map string_bytes words.now) (kind_of error)) }
{
    let matches = command(alloc)?.try_get_matches_from(words)?;
    let Some((name, options)) = matches.subcommand() else {
        return Err(command(alloc)?.error(ErrorKind::MissingSubcommand, "a command is wanted")?);
    };
    if name == "serve" {
        let service = service_of(alloc, options)?;
        return Ok(Request::Serve(service));
    }
    if name == "hash-password" {
        let password = password_of(alloc, options)?;
        return Ok(Request::HashPassword(password));
    }
    let setup = setup_of(alloc, name, options)?;
    if name == "drive" {
        Ok(Request::Drive(setup))
    } else {
        Ok(Request::Solo(setup))
    }
}

/// The error of a value that is refused, with the usage of the command, which is called by these words.
pub(crate) fn refused_value(
    command: Command<'_>,
    words: &str,
    text: &str,
) -> Result<Error, AllocError>
    ensures { IfOk result (λ error. kind_of error ≡ ErrorKind.ValueValidation) }
{
    command
        .bin_name(words)?
        .error(ErrorKind::ValueValidation, text)
}

/// The commands and their options.
fn command<'a>(alloc: Global) -> Result<Command<'a>, AllocError>
    ensures { IfOk result (λ command. app_of command ≡ command_line) }
{
    let solo = command_named(
        alloc,
        "solo",
        "Runs one MQTT client, whose bytes stand on standard input as lines of hex digits",
    )?;
    let drive = command_named(
        alloc,
        "drive",
        "Runs the events on standard input, one a line, over up to 64 connections",
    )?;
    let serve = serve_command(alloc)?;
    let password = password_command(alloc)?;
    Command::new(alloc, "share_broker")
        .about("A dispatcher for MQTT 5.0 shared subscriptions")
        .version("0.1.0")
        .subcommand_required(true)
        .subcommand(solo)?
        .subcommand(drive)?
        .subcommand(serve)?
        .subcommand(password)
}

/// A command with the three options of a server.
pub(crate) fn command_named<'a>(
    alloc: Global,
    name: &'a str,
    about: &'a str,
) -> Result<Command<'a>, AllocError>
    ensures { IfOk result (λ command. app_of command ≡ command_named name.now) }
{
    Command::new(alloc, name)
        .about(about)
        .arg(capacity(alloc))?
        .arg(max_inflight(alloc))?
        .arg(group(alloc))
}

/// `serve` and its seventeen options.
pub(crate) fn serve_command<'a>(alloc: Global) -> Result<Command<'a>, AllocError>
    ensures { IfOk result (λ command. app_of command ≡ serve_command) }
{
    Command::new(alloc, "serve")
        .about(
            "Serves MQTT clients on TCP: prints the port that it listens at, and once standard input has ended what became of the jobs of each group",
        )
        .arg(port(alloc))?
        .arg(address(alloc))?
        .arg(workers(alloc))?
        .arg(until(alloc))?
        .arg(drain(alloc))?
        .arg(metrics(alloc))?
        .arg(log(alloc))?
        .arg(sessions(alloc))?
        .arg(keep_parked(alloc))?
        .arg(declared_groups(alloc))?
        .arg(per_address(alloc))?
        .arg(max_expiry(alloc))?
        .arg(max_keep_alive(alloc))?
        .arg(users(alloc))?
        .arg(capacity(alloc))?
        .arg(max_inflight(alloc))?
        .arg(group(alloc))
}

/// `hash-password`, its name and its option.
pub(crate) fn password_command<'a>(alloc: Global) -> Result<Command<'a>, AllocError>
    ensures { IfOk result (λ command. app_of command ≡ password_command) }
{
    Command::new(alloc, "hash-password")
        .about(
            "Writes the line of a user for the file of serve --users; the password is the first line of standard input",
        )
        .arg(name(alloc))?
        .arg(iterations(alloc))
}
