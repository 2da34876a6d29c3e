//! What was answered to clients, by Reason Code (section 2.4).
use crate::exposition::{Kind, Label, add_family, add_sample};
use conn_service::{Answer, AnswerCounts};
use mqtt_packet::ReasonCode;
use std::alloc::{AllocError, Global};

/// Adds how often each Reason Code was sent.
pub(crate) fn add_all_answers(
    alloc: Global,
    text: &mut Vec<u8>,
    answers: &AnswerCounts,
) -> Result<(), AllocError> {
    add_answers(
        alloc,
        text,
        "share_broker_connacks_total",
        "CONNACK packets that were sent, by their Reason Code.",
        answers,
        |answer| match answer {
            Answer::Connack(code) => Some(code),
            _ => None,
        },
    )?;
    add_answers(
        alloc,
        text,
        "share_broker_pubacks_total",
        "PUBACK packets that were sent, by their Reason Code.",
        answers,
        |answer| match answer {
            Answer::Puback(code) => Some(code),
            _ => None,
        },
    )?;
    add_answers(
        alloc,
        text,
        "share_broker_subacks_total",
        "Entries of SUBACK packets that were sent, by their Reason Code.",
        answers,
        |answer| match answer {
            Answer::Suback(code) => Some(code),
            _ => None,
        },
    )?;
    add_answers(
        alloc,
        text,
        "share_broker_disconnects_total",
        "DISCONNECT packets that were sent, by their Reason Code.",
        answers,
        |answer| match answer {
            Answer::Disconnect(code) => Some(code),
            _ => None,
        },
    )
}

/// Adds how often a kind of packet was sent, by its Reason Codes.
fn add_answers<F: Fn(Answer) -> Option<ReasonCode>>(
    alloc: Global,
    text: &mut Vec<u8>,
    name: &str,
    help: &str,
    answers: &AnswerCounts,
    code_of: F,
) -> Result<(), AllocError>
    requires { F.IsAlwaysCallable code_of }
{
    add_family(text, name, help, Kind::Counter)?;
    for (answer, count) in answers.all() {
        if let Some(code) = code_of(answer) {
            let code = format!(in alloc; "0x{:02X}", code.get())?;
            let label = Label {
                name: "code",
                value: code.as_bytes(),
            };
            add_sample(text, name, &[label], count)?;
        }
    }
    Ok(())
}
