//! What is answered to a client by Reason Codes (section 2.4), as it is counted. No contract speaks of it.
use mqtt_packet::{Connack, ConnectRefusal, Packet, ReasonCode};

/// An answer: a kind of packet, with a Reason Code.
#[derive(Clone, Copy, Debug, PartialEq, Eq)]
pub enum Answer {
    /// PUBACK (section 3.4).
    Puback(ReasonCode),
    /// An entry of a SUBACK (section 3.9).
    Suback(ReasonCode),
    /// CONNACK (section 3.2).
    Connack(ReasonCode),
    /// DISCONNECT (section 3.14).
    Disconnect(ReasonCode),
}

/// How many answers there are.
const ANSWER_COUNT: usize = 27;

/// How many numbers count them: one for each, and the last for any other.
const PLACES: usize = ANSWER_COUNT + 1;

/// Each answer that this broker gives. The first one is the most frequent.
const ANSWERS: [Answer; ANSWER_COUNT] = [
    Answer::Puback(ReasonCode::SUCCESS),
    Answer::Puback(ReasonCode::NO_MATCHING_SUBSCRIBERS),
    Answer::Puback(ReasonCode::NOT_AUTHORIZED),
    Answer::Puback(ReasonCode::QUOTA_EXCEEDED),
    Answer::Suback(ReasonCode::GRANTED_QOS_1),
    Answer::Suback(ReasonCode::IMPLEMENTATION_SPECIFIC_ERROR),
    Answer::Suback(ReasonCode::NOT_AUTHORIZED),
    Answer::Suback(ReasonCode::TOPIC_FILTER_INVALID),
    Answer::Suback(ReasonCode::QUOTA_EXCEEDED),
    Answer::Connack(ReasonCode::SUCCESS),
    Answer::Connack(ReasonCode::PROTOCOL_ERROR),
    Answer::Connack(ReasonCode::IMPLEMENTATION_SPECIFIC_ERROR),
    Answer::Connack(ReasonCode::UNSUPPORTED_PROTOCOL_VERSION),
    Answer::Connack(ReasonCode::CLIENT_IDENTIFIER_NOT_VALID),
    Answer::Connack(ReasonCode::BAD_USER_NAME_OR_PASSWORD),
    Answer::Connack(ReasonCode::SERVER_BUSY),
    Answer::Connack(ReasonCode::BAD_AUTHENTICATION_METHOD),
    Answer::Disconnect(ReasonCode::MALFORMED_PACKET),
    Answer::Disconnect(ReasonCode::PROTOCOL_ERROR),
    Answer::Disconnect(ReasonCode::IMPLEMENTATION_SPECIFIC_ERROR),
    Answer::Disconnect(ReasonCode::SERVER_SHUTTING_DOWN),
    Answer::Disconnect(ReasonCode::KEEP_ALIVE_TIMEOUT),
    Answer::Disconnect(ReasonCode::SESSION_TAKEN_OVER),
    Answer::Disconnect(ReasonCode::TOPIC_ALIAS_INVALID),
    Answer::Disconnect(ReasonCode::PACKET_TOO_LARGE),
    Answer::Disconnect(ReasonCode::RETAIN_NOT_SUPPORTED),
    Answer::Disconnect(ReasonCode::QOS_NOT_SUPPORTED),
];

/// Where an answer stands among [`ANSWERS`]; behind them, where it does not.
fn place_of(answer: &Answer) -> usize {
    ANSWERS
        .iter()
        .position(|one| one == answer)
        .unwrap_or(ANSWER_COUNT)
}

/// The Reason Code of a refusal (section 3.2.2.2).
fn refusal_code(refusal: ConnectRefusal) -> ReasonCode {
    match refusal {
        ConnectRefusal::ProtocolError => ReasonCode::PROTOCOL_ERROR,
        ConnectRefusal::ImplementationSpecificError => ReasonCode::IMPLEMENTATION_SPECIFIC_ERROR,
        ConnectRefusal::UnsupportedProtocolVersion => ReasonCode::UNSUPPORTED_PROTOCOL_VERSION,
        ConnectRefusal::ClientIdentifierNotValid => ReasonCode::CLIENT_IDENTIFIER_NOT_VALID,
        ConnectRefusal::BadUserNameOrPassword => ReasonCode::BAD_USER_NAME_OR_PASSWORD,
        ConnectRefusal::ServerBusy => ReasonCode::SERVER_BUSY,
        ConnectRefusal::BadAuthenticationMethod => ReasonCode::BAD_AUTHENTICATION_METHOD,
    }
}

/// How often each answer was given. Each number begins at 0 again at 2^64.
#[derive(Clone, Copy, Debug, PartialEq, Eq)]
pub struct AnswerCounts {
    counts: [u64; PLACES],
}

impl AnswerCounts {
    /// None was given yet.
    pub const NONE: AnswerCounts = AnswerCounts {
        counts: [0; PLACES],
    };

    /// Each answer that this broker gives, with how often it was given, also where that is never.
    pub fn all(&self) -> [(Answer, u64); ANSWER_COUNT] {
        ANSWERS.map(|answer| {
            let count = self.of(&answer);
            (answer, count)
        })
    }

    /// How often this answer was given; where this broker never gives it, how often it gave any such answer.
    pub fn of(&self, answer: &Answer) -> u64 {
        self.counts.get(place_of(answer)).copied().unwrap_or(0)
    }

    /// Adds others to them.
    pub fn add(&mut self, other: &AnswerCounts) {
        for (count, more) in self.counts.iter_mut().zip(other.counts.iter()) {
            *count = count.wrapping_add(*more);
        }
    }
}

/// The latest CONNACK or DISCONNECT that was sent to a client.
#[derive(Clone, Copy, Debug, PartialEq, Eq)]
pub enum LastWord {
    /// A CONNACK that accepted the connection.
    Accepted {
        /// Session Present (section 3.2.2.1.1).
        session_present: bool,
    },
    /// A CONNACK that refused it.
    Refused(ConnectRefusal),
    /// A DISCONNECT with this Reason Code.
    Disconnected(ReasonCode),
}

impl LastWord {
    /// Its Reason Code.
    pub fn code(&self) -> ReasonCode {
        match self {
            LastWord::Accepted { .. } => ReasonCode::SUCCESS,
            LastWord::Refused(refusal) => refusal_code(*refusal),
            LastWord::Disconnected(code) => *code,
        }
    }
}

/// What was answered on one connection: the latest CONNACK or DISCONNECT, and how often each answer was given since that was taken up.
#[derive(Drop)]
pub(crate) struct Answered {
    last_word: Option<LastWord>,
    is_any: bool,
    counts: [u32; PLACES],
}

impl Answered {
    /// Nothing was answered yet.
    pub(crate) const NOTHING: Answered = Answered {
        last_word: None,
        is_any: false,
        counts: [0; PLACES],
    };

    /// The latest CONNACK or DISCONNECT.
    pub(crate) fn last_word(&self) -> Option<LastWord> {
        self.last_word
    }

    /// These packets are sent.
    pub(crate) fn note(&mut self, packets: &[Packet]) {
        for packet in packets {
            self.note_one(packet);
        }
    }

    /// Adds up what was counted, and begins again.
    pub(crate) fn take(&mut self, sum: &mut AnswerCounts) {
        if !self.is_any {
            return;
        }
        for (count, more) in sum.counts.iter_mut().zip(self.counts.iter()) {
            *count = count.wrapping_add(u64::from(*more));
        }
        self.is_any = false;
        self.counts = [0; PLACES];
    }

    /// This packet is sent.
    fn note_one(&mut self, packet: &Packet) {
        match packet {
            Packet::Puback(puback) => self.count(&Answer::Puback(puback.reason_code)),
            Packet::Suback(suback) => {
                for code in suback.reason_codes.as_slice() {
                    self.count(&Answer::Suback(*code));
                }
            }
            Packet::Connack(connack) => self.note_word(word_of(connack)),
            Packet::Disconnect(disconnect) => {
                self.note_word(LastWord::Disconnected(disconnect.reason_code));
            }
            _ => {}
        }
    }

    /// This word is sent.
    fn note_word(&mut self, word: LastWord) {
        self.count(&match &word {
            LastWord::Accepted { .. } | LastWord::Refused(_) => Answer::Connack(word.code()),
            LastWord::Disconnected(code) => Answer::Disconnect(*code),
        });
        self.last_word = Some(word);
    }

    /// This answer is given.
    fn count(&mut self, answer: &Answer) {
        self.is_any = true;
        if let Some(count) = self.counts.get_mut(place_of(answer)) {
            *count = count.wrapping_add(1);
        }
    }
}

/// What a CONNACK tells.
fn word_of(connack: &Connack) -> LastWord {
    match connack {
        Connack::Accepted(acceptance) => LastWord::Accepted {
            session_present: acceptance.session_present,
        },
        Connack::Refused(refusal) => LastWord::Refused(*refusal),
    }
}
