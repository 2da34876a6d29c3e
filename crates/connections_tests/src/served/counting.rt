//! What is answered to clients is counted under its Reason Codes, and the last word to each is kept.
ghost use Rattle.std.specs.Prelude.{◌≡◌, None};

use crate::served::acting::{CONNECT, Scenario, broker, scripted};
use crate::served::together::{goes_on, open};
use conn_service::{Answer, AnswerCounts, Direction, LastWord, Round, Service};
use local_broker::{LocalPlace, LocalSupply};
use mqtt_packet::{ConnectRefusal, ReasonCode};
use mqtt_topic::Routes;
use scripted_transport::{ReadTurn, Scripted};
use std::alloc::{AllocError, Global};
use std::process::Abort;
use std::test::Fail;
use transport::OpenCrossing;

/// What was answered on a connection.
#[derive(Drop)]
struct Answers {
    counts: Vec<(Answer, u64)>,
    last_word: Option<LastWord>,
}

/// The answers that were given, each with how often it was.
fn given(alloc: Global, counts: &AnswerCounts) -> Result<Vec<(Answer, u64)>, AllocError> {
    let mut given = Vec::new(alloc);
    for (answer, count) in counts.all() {
        if count > 0 {
            given.push((answer, count))?;
        }
    }
    Ok(given)
}

/// The round in which a connection ends; what was answered on it.
fn last_round(
    rt: &impl Abort,
    alloc: Global,
    mut service: Service<LocalPlace, Scripted>,
    supply: &mut LocalSupply,
) -> Result<Answers, AllocError>
    requires { service.ending ≡ None }
{
    let mut buffer = [0; 4_096];
    match service.round(supply, &OpenCrossing, 0, 0, &mut buffer, Direction::Both) {
        Round::Ended(_) => {
            let mut counts = AnswerCounts::NONE;
            service.take_answers(&mut counts);
            let last_word = service.last_word();
            drop(service.end());
            Ok(Answers {
                counts: given(alloc, &counts)?,
                last_word,
            })
        }
        Round::More | Round::Reading | Round::Writing | Round::Waiting => panic!(rt; "it goes on"),
    }
}

/// A connection on which all this comes at once, and ends it.
fn answered(
    rt: &impl Abort,
    alloc: Global,
    supply: &mut LocalSupply,
    input: &[u8],
) -> Result<Answers, AllocError> {
    let scenario = Scenario {
        input,
        reads: &[ReadTurn::AtMost(256)],
        ..Scenario::whole()
    };
    let service = open(rt, alloc, 0, scripted(rt, alloc, scenario));
    last_round(rt, alloc, service, supply)
}

/// These answers were given, and no others, and this was the last word.
fn assert_answers(rt: &impl Abort, answers: &Answers, counts: &[(Answer, u64)], word: LastWord) {
    assert_eq!(rt; answers.counts.as_slice(), counts);
    assert_eq!(rt; answers.last_word, Some(word));
}

/// A CONNECT of MQTT 3.1.1.
const OLDER: &[u8] = b"\x10\x0E\x00\x04MQTT\x04\x02\x00\x3C\x00\x02w1";

#[test]
fn refused_connect(rt: HostRuntime) -> Result<(), Fail> {
    let mut supply = broker(&rt, rt.alloc());
    let answers = answered(&rt, rt.alloc(), &mut supply, OLDER);
    supply.abandon();
    let counts = [(Answer::Connack(ReasonCode::UNSUPPORTED_PROTOCOL_VERSION), 1)];
    let word = LastWord::Refused(ConnectRefusal::UnsupportedProtocolVersion);
    assert_answers(&rt, &answers?, &counts, word);
    assert_eq!(&rt; word.code(), ReasonCode::UNSUPPORTED_PROTOCOL_VERSION);
    Ok(())
}

/// A CONNECT, a PUBLISH of QoS 1 to `job`, and a DISCONNECT.
const NO_GROUP: &[u8] =
    b"\x10\x0F\x00\x04MQTT\x05\x02\x00\x3C\x00\x00\x02w1\x32\x09\x00\x03job\x00\x07\x00A\xE0\x00";

#[test]
fn no_matching_subscribers(rt: HostRuntime) -> Result<(), Fail> {
    let mut supply = broker(&rt, rt.alloc());
    let answers = answered(&rt, rt.alloc(), &mut supply, NO_GROUP);
    supply.abandon();
    let counts = [
        (Answer::Puback(ReasonCode::NO_MATCHING_SUBSCRIBERS), 1),
        (Answer::Connack(ReasonCode::SUCCESS), 1),
    ];
    let word = LastWord::Accepted {
        session_present: false,
    };
    assert_answers(&rt, &answers?, &counts, word);
    Ok(())
}

/// A CONNECT; a SUBSCRIBE to `job`, to `#x` and to `$share/g/job`; an UNSUBSCRIBE from that; three of those PUBLISH packets; and a PUBLISH of QoS 0.
const REFUSED: &[u8] =
    b"\x10\x0F\x00\x04MQTT\x05\x02\x00\x3C\x00\x00\x02w1\x82\x1D\x00\x01\x00\x00\x03job\x01\x00\x02#x\x01\x00\x0C$share/g/job\x01\xA2\x11\x00\x02\x00\x00\x0C$share/g/job\x32\x09\x00\x03job\x00\x07\x00A\x32\x09\x00\x03job\x00\x07\x00A\x32\x09\x00\x03job\x00\x07\x00A\x30\x07\x00\x03job\x00A";

// In the queue there is room for one message.
#[test]
fn refused_requests(rt: HostRuntime) -> Result<(), Fail> {
    let Ok(mut supply) = LocalSupply::open(rt.alloc(), 1, Routes::new(rt.alloc())) else {
        panic!(&rt; "out of memory");
    };
    let answers = answered(&rt, rt.alloc(), &mut supply, REFUSED);
    supply.abandon();
    let counts = [
        (Answer::Puback(ReasonCode::SUCCESS), 1),
        (Answer::Puback(ReasonCode::QUOTA_EXCEEDED), 2),
        (Answer::Suback(ReasonCode::GRANTED_QOS_1), 1),
        (Answer::Suback(ReasonCode::IMPLEMENTATION_SPECIFIC_ERROR), 1),
        (Answer::Suback(ReasonCode::TOPIC_FILTER_INVALID), 1),
        (Answer::Connack(ReasonCode::SUCCESS), 1),
        (
            Answer::Disconnect(ReasonCode::IMPLEMENTATION_SPECIFIC_ERROR),
            1,
        ),
    ];
    let word = LastWord::Disconnected(ReasonCode::IMPLEMENTATION_SPECIFIC_ERROR);
    assert_answers(&rt, &answers?, &counts, word);
    Ok(())
}

/// A CONNECT of client `w1`, and nothing more.
fn connects() -> Scenario<'static> {
    Scenario {
        input: CONNECT,
        reads: &[ReadTurn::AtMost(17), ReadTurn::Idle],
        ..Scenario::whole()
    }
}

#[test]
fn taken_over(rt: HostRuntime) -> Result<(), Fail> {
    let mut supply = broker(&rt, rt.alloc());
    let mut first = open(&rt, rt.alloc(), 0, scripted(&rt, rt.alloc(), connects()));
    let mut second = open(&rt, rt.alloc(), 1, scripted(&rt, rt.alloc(), connects()));
    goes_on(&rt, &mut first, &mut supply, 0, Round::Reading);
    assert_eq!(&rt; first.client_identifier(), Some(b"w1".as_slice()));
    goes_on(&rt, &mut second, &mut supply, 0, Round::Reading);
    assert_eq!(&rt; second.client_identifier(), None);
    let answers = last_round(&rt, rt.alloc(), first, &mut supply);
    drop(second.abandon(&mut supply, 0));
    supply.abandon();
    let counts = [
        (Answer::Connack(ReasonCode::SUCCESS), 1),
        (Answer::Disconnect(ReasonCode::SESSION_TAKEN_OVER), 1),
    ];
    let word = LastWord::Disconnected(ReasonCode::SESSION_TAKEN_OVER);
    assert_answers(&rt, &answers?, &counts, word);
    Ok(())
}
