//! The connections and sessions of clients.
use crate::counts::{TurnedAway, WorkerCounts};
use crate::exposition::{Kind, Label, add_family, add_number, add_sample};
use conn_service::Answer;
use mqtt_packet::ReasonCode;
use std::alloc::AllocError;
use worker_connections::ServedCounts;

/// Adds the connections that workers took up.
pub(crate) fn add_connections(text: &mut Vec<u8>, counts: &WorkerCounts) -> Result<(), AllocError> {
    add_number(
        text,
        "share_broker_connections",
        "Connections that have not ended.",
        Kind::Gauge,
        counts.live(),
    )?;
    add_number(
        text,
        "share_broker_connections_connected",
        "Of these, connections whose client has its session.",
        Kind::Gauge,
        counts.connected,
    )?;
    add_number(
        text,
        "share_broker_connections_opened_total",
        "Connections that a worker took up.",
        Kind::Counter,
        counts.opened,
    )?;
    add_ended(text, &counts.served)
}

/// Adds how many connections ended, by what ended them.
fn add_ended(text: &mut Vec<u8>, served: &ServedCounts) -> Result<(), AllocError> {
    let name = "share_broker_connections_ended_total";
    let help = "Connections that ended, by what ended them.";
    let causes = [
        ("closed", served.ended),
        ("read_failed", served.read),
        ("write_failed", served.write),
        ("no_memory", served.memory),
        ("not_let_in", served.no_crossing),
        ("stalled", served.stalled),
    ];
    add_by_label(text, name, help, "cause", &causes)
}

/// Adds the connections that no worker took up.
pub(crate) fn add_turned_away(
    text: &mut Vec<u8>,
    turned_away: &TurnedAway,
) -> Result<(), AllocError> {
    let name = "share_broker_connections_turned_away_total";
    let help = "Connections that were closed before their first packet was read, by why.";
    let reasons = [
        ("address", turned_away.of_address),
        ("newcomer", turned_away.for_newcomer),
        ("late", turned_away.late),
    ];
    add_by_label(text, name, help, "reason", &reasons)
}

/// Adds a counter with a number for each value of a label.
fn add_by_label(
    text: &mut Vec<u8>,
    name: &str,
    help: &str,
    label: &'static str,
    numbers: &[(&str, u64)],
) -> Result<(), AllocError> {
    add_family(text, name, help, Kind::Counter)?;
    for (value, number) in numbers {
        let part = Label {
            name: label,
            value: value.as_bytes(),
        };
        add_sample(text, name, &[part], *number)?;
    }
    Ok(())
}

/// Adds the sessions of clients.
pub(crate) fn add_sessions(text: &mut Vec<u8>, counts: &WorkerCounts) -> Result<(), AllocError> {
    let sessions = &counts.supply.sessions;
    add_number(
        text,
        "share_broker_sessions",
        "Sessions that have not ended, with their client connected or away.",
        Kind::Gauge,
        sessions.live(),
    )?;
    add_number(
        text,
        "share_broker_sessions_begun_total",
        "Sessions that began new.",
        Kind::Counter,
        sessions.begun,
    )?;
    add_number(
        text,
        "share_broker_sessions_resumed_total",
        "How often a client was lent the session that it had before.",
        Kind::Counter,
        sessions.resumed,
    )?;
    add_number(
        text,
        "share_broker_sessions_taken_over_total",
        "How often a connection was told to end, as its client connected anew and took its session over.",
        Kind::Counter,
        counts
            .answers
            .of(&Answer::Disconnect(ReasonCode::SESSION_TAKEN_OVER)),
    )?;
    add_number(
        text,
        "share_broker_sessions_refused_total",
        "How often a client was refused a session.",
        Kind::Counter,
        sessions.refused,
    )?;
    add_number(
        text,
        "share_broker_sessions_ended_total",
        "Sessions that ended.",
        Kind::Counter,
        sessions.ended,
    )
}
