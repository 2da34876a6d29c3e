//! The options of the commands.
ghost use Rattle.std.specs.Prelude.{◌≡◌};
ghost use Rattle.clap.specs.Words.{rule_of};
ghost use Rattle.arguments.specs.Options.{address_option, capacity_option, declared_groups_option, drain_option, group_option, keep_parked_option, log_option, max_expiry_option, max_inflight_option, max_keep_alive_option, metrics_option, iterations_option, name_option, per_address_option, port_option, sessions_option, until_option, users_option, workers_option};

use clap::{Arg, ArgAction, value_parser};
use std::alloc::Global;

/// `--capacity N`.
pub(crate) fn capacity<'a>(alloc: Global) -> Arg<'a>
    ensures { rule_of result ≡ capacity_option }
{
    Arg::new(alloc, "capacity")
        .long("capacity")
        .value_name("N")
        .value_parser(value_parser!(u32).range(1..=65_536))
        .default_value("1024")
        .help("How many messages may wait in the queue of a group, 1 to 65536")
}

/// `--max-inflight M`.
pub(crate) fn max_inflight<'a>(alloc: Global) -> Arg<'a>
    ensures { rule_of result ≡ max_inflight_option }
{
    Arg::new(alloc, "max-inflight")
        .long("max-inflight")
        .value_name("M")
        .value_parser(value_parser!(u32).range(1..=256))
        .default_value("256")
        .help("How many messages a client has unacknowledged at most, 1 to 256")
}

/// `--group NAME:FILTER`.
pub(crate) fn group<'a>(alloc: Global) -> Arg<'a>
    ensures { rule_of result ≡ group_option }
{
    Arg::new(alloc, "group")
        .long("group")
        .value_name("NAME:FILTER")
        .action(ArgAction::Append)
        .help("A group that is there from the start: $share/NAME/FILTER; at most eight")
}

/// `--port P`.
pub(crate) fn port<'a>(alloc: Global) -> Arg<'a>
    ensures { rule_of result ≡ port_option }
{
    Arg::new(alloc, "port")
        .long("port")
        .value_name("P")
        .required(true)
        .value_parser(value_parser!(u32).range(0..=65_535))
        .help(
            "The port to listen at, 0 to 65535; at 0 the system chooses one, and the first line printed tells which",
        )
}

/// `--address IP`.
pub(crate) fn address<'a>(alloc: Global) -> Arg<'a>
    ensures { rule_of result ≡ address_option }
{
    Arg::new(alloc, "address")
        .long("address")
        .value_name("IP")
        .default_value("127.0.0.1")
        .help(
            "The IPv4 address of this machine to listen at, or 0.0.0.0 for each of them. Without --users nobody is asked for a password",
        )
}

/// `--workers W`.
pub(crate) fn workers<'a>(alloc: Global) -> Arg<'a>
    ensures { rule_of result ≡ workers_option }
{
    Arg::new(alloc, "workers")
        .long("workers")
        .value_name("W")
        .value_parser(value_parser!(u32).range(1..=64))
        .default_value("8")
        .help("How many threads serve connections, 1 to 64")
}

/// `--until WHEN`.
pub(crate) fn until<'a>(alloc: Global) -> Arg<'a>
    ensures { rule_of result ≡ until_option }
{
    Arg::new(alloc, "until")
        .long("until")
        .value_name("WHEN")
        .default_value("stdin")
        .help(
            "stdin: serve until standard input has ended; killed: read nothing there, and serve until the process is killed",
        )
}

/// `--drain SECONDS`.
pub(crate) fn drain<'a>(alloc: Global) -> Arg<'a>
    ensures { rule_of result ≡ drain_option }
{
    Arg::new(alloc, "drain")
        .long("drain")
        .value_name("SECONDS")
        .value_parser(value_parser!(u32).range(0..=86_400))
        .default_value("0")
        .help(
            "For how many seconds at most, once standard input has ended, no new job is accepted, and those that were accepted are still handed out, 0 to 86400",
        )
}

/// `--metrics PORT`.
pub(crate) fn metrics<'a>(alloc: Global) -> Arg<'a>
    ensures { rule_of result ≡ metrics_option }
{
    Arg::new(alloc, "metrics")
        .long("metrics")
        .value_name("PORT")
        .value_parser(value_parser!(u32).range(0..=65_535))
        .default_value("0")
        .help(
            "The port of the same address at which HTTP gets metrics, as text for Prometheus at /metrics and as a page at /, 0 to 65535; at 0 there are none",
        )
}

/// `--log LEVEL`.
pub(crate) fn log<'a>(alloc: Global) -> Arg<'a>
    ensures { rule_of result ≡ log_option }
{
    Arg::new(alloc, "log")
        .long("log")
        .value_name("LEVEL")
        .default_value("off")
        .help(
            "What is said on standard error while it serves: off, error, info (connections, shares, full queues and the end) or debug",
        )
}

/// `--sessions N`.
pub(crate) fn sessions<'a>(alloc: Global) -> Arg<'a>
    ensures { rule_of result ≡ sessions_option }
{
    Arg::new(alloc, "sessions")
        .long("sessions")
        .value_name("N")
        .value_parser(value_parser!(u32).range(1..=65_536))
        .default_value("256")
        .help(
            "How many sessions are kept, 1 to 65536: one for each client that is connected or comes back",
        )
}

/// `--keep-parked`.
pub(crate) fn keep_parked<'a>(alloc: Global) -> Arg<'a>
    ensures { rule_of result ≡ keep_parked_option }
{
    Arg::new(alloc, "keep-parked")
        .long("keep-parked")
        .action(ArgAction::SetTrue)
        .help(
            "Where as many sessions are kept as --sessions has, none that is parked goes for a client that has none: that one is refused, also where a session holds nothing and has no place in a group",
        )
}

/// `--declared-groups`.
pub(crate) fn declared_groups<'a>(alloc: Global) -> Arg<'a>
    ensures { rule_of result ≡ declared_groups_option }
{
    Arg::new(alloc, "declared-groups")
        .long("declared-groups")
        .action(ArgAction::SetTrue)
        .help(
            "A client may subscribe to the groups that --group gives, and to no other: a SUBSCRIBE to another share is answered by 0x87 (Not authorized)",
        )
}

/// `--per-address N`.
pub(crate) fn per_address<'a>(alloc: Global) -> Arg<'a>
    ensures { rule_of result ≡ per_address_option }
{
    Arg::new(alloc, "per-address")
        .long("per-address")
        .value_name("N")
        .value_parser(value_parser!(u32).range(0..=65_535))
        .default_value("0")
        .help(
            "How many connections an address may have at once, 0 to 65535; one more is closed as it comes; at 0 as many as there are",
        )
}

/// `--max-expiry SECONDS`.
pub(crate) fn max_expiry<'a>(alloc: Global) -> Arg<'a>
    ensures { rule_of result ≡ max_expiry_option }
{
    Arg::new(alloc, "max-expiry")
        .long("max-expiry")
        .value_name("SECONDS")
        .value_parser(value_parser!(u32).range(1..=4_294_967_295))
        .help(
            "The longest Session Expiry Interval, 1 to 4294967295 seconds, of which the last limits nothing: a longer one is cut to that, and CONNACK says so; without this option there is no limit",
        )
}

/// `--max-keep-alive SECONDS`.
pub(crate) fn max_keep_alive<'a>(alloc: Global) -> Arg<'a>
    ensures { rule_of result ≡ max_keep_alive_option }
{
    Arg::new(alloc, "max-keep-alive")
        .long("max-keep-alive")
        .value_name("SECONDS")
        .value_parser(value_parser!(u32).range(1..=65_535))
        .help(
            "The longest Keep Alive of a client, 1 to 65535 seconds: one that asks for a longer one, or for none, has this one, as the Server Keep Alive of CONNACK says; without this option there is no limit",
        )
}

/// `--users FILE`.
pub(crate) fn users<'a>(alloc: Global) -> Arg<'a>
    ensures { rule_of result ≡ users_option }
{
    Arg::new(alloc, "users")
        .long("users")
        .value_name("FILE")
        .help(
            "A file with a line for each user, as hash-password makes it: only clients with the User Name and the Password of one are served, and every other gets CONNACK 0x86 (Bad User Name or Password); without this option all are",
        )
}

/// `NAME`.
pub(crate) fn name<'a>(alloc: Global) -> Arg<'a>
    ensures { rule_of result ≡ name_option }
{
    Arg::new(alloc, "name")
        .value_name("NAME")
        .required(true)
        .help(
            "The User Name: 1 to 128 bytes, without a colon or a control character, and with no # or space in front",
        )
}

/// `--iterations N`.
pub(crate) fn iterations<'a>(alloc: Global) -> Arg<'a>
    ensures { rule_of result ≡ iterations_option }
{
    Arg::new(alloc, "iterations")
        .long("iterations")
        .value_name("N")
        .value_parser(value_parser!(u32).range(1..=1_000_000))
        .default_value("1000")
        .help(
            "How often the password is hashed, 1 to 1000000: a password is harder to guess from the file then, and each CONNECT takes longer",
        )
}
