//! Memory refused in turn for each message that is offered, taken and given back: nothing is lost, and nothing is doubled unseen. And a clock that
//! goes back.
use crate::refused::acting::SharedBroker;
use crate::refused::refusing::Refused;

/// A CONNECT of client `w1`, whose session ends with its connection.
const MEMBER: &[u8] = b"\x10\x0F\x00\x04MQTT\x05\x02\x00\x3C\x00\x00\x02w1";

/// A CONNECT of client `w1`, whose session is kept for an hour.
const KEPT_MEMBER: &[u8] =
    b"\x10\x14\x00\x04MQTT\x05\x00\x00\x3C\x05\x11\x00\x00\x0E\x10\x00\x02w1";

/// A CONNECT of client `w2`.
const OTHER_MEMBER: &[u8] = b"\x10\x0F\x00\x04MQTT\x05\x02\x00\x3C\x00\x00\x02w2";

/// A CONNECT of client `p`.
const PUBLISHER: &[u8] = b"\x10\x0E\x00\x04MQTT\x05\x02\x00\x3C\x00\x00\x01p";

/// The CONNACK of a session that is new, and of one that is resumed (3.2.2.1.1).
const NEW: &[u8] = b"\x20\x0C\x00\x00\x09\x24\x01\x25\x00\x27\x00\x01\x00\x00";

const RESUMED: &[u8] = b"\x20\x0C\x01\x00\x09\x24\x01\x25\x00\x27\x00\x01\x00\x00";

/// A SUBSCRIBE to `$share/g/job`, and its SUBACK.
const SUBSCRIBE: &[u8] = b"\x82\x12\x00\x01\x00\x00\x0C$share/g/job\x01";

const SUBACK: &[u8] = b"\x90\x04\x00\x01\x00\x01";

/// Three PUBLISH packets with the payloads A, B and C.
const JOBS: &[u8] =
    b"\x32\x09\x00\x03job\x00\x01\x00A\x32\x09\x00\x03job\x00\x02\x00B\x32\x09\x00\x03job\x00\x03\x00C";

/// Their PUBACKs.
const TAKEN: [&[u8]; 3] = [
    b"\x40\x02\x00\x01",
    b"\x40\x02\x00\x02",
    b"\x40\x02\x00\x03",
];

/// The three jobs as they are handed out, which is as they came.
const FRESH: &[u8] = JOBS;

/// The same, of which the first none, one and two are sent again.
const AGAIN: [&[u8]; 3] = [
    JOBS,
    b"\x3A\x09\x00\x03job\x00\x01\x00A\x32\x09\x00\x03job\x00\x02\x00B\x32\x09\x00\x03job\x00\x03\x00C",
    b"\x3A\x09\x00\x03job\x00\x01\x00A\x3A\x09\x00\x03job\x00\x02\x00B\x32\x09\x00\x03job\x00\x03\x00C",
];

/// A PINGREQ, and its PINGRESP.
const PINGREQ: &[u8] = b"\xC0\x00";

const PINGRESP: &[u8] = b"\xD0\x00";

/// A DISCONNECT.
const DISCONNECT: &[u8] = b"\xE0\x00";

// w1 is handed three jobs and goes. Its session ends with its connection and gives them back, the oldest first; memory is refused for the n-th.
// What is left is given back at the next Tick of another client, and no sooner, in the same order.
#[test]
fn each_give_back(rt: HostRuntime) {
    let rows = [
        (
            1,
            "$share/g/job accepted 3 acknowledged 0 refused 0 held 3 queued 0 returned 0 discarded 0\n",
        ),
        (
            2,
            "$share/g/job accepted 3 acknowledged 0 refused 0 held 2 queued 0 returned 1 discarded 0\n",
        ),
        (
            3,
            "$share/g/job accepted 3 acknowledged 0 refused 0 held 1 queued 0 returned 2 discarded 0\n",
        ),
    ];
    for (number, left) in rows.iter() {
        let refused = Refused {
            give_back: *number,
            ..Refused::NONE
        };
        let mut shared_broker = SharedBroker::open(&rt, rt.alloc(), refused);
        shared_broker.bytes(&rt, 0, MEMBER, &[NEW]);
        shared_broker.bytes(&rt, 0, SUBSCRIBE, &[SUBACK]);
        shared_broker.bytes(&rt, 2, PUBLISHER, &[NEW]);
        shared_broker.bytes(&rt, 2, JOBS, &TAKEN);
        shared_broker.tick(&rt, 0, &[FRESH]);
        shared_broker.bytes(&rt, 0, DISCONNECT, &[]);
        shared_broker.report(&rt, left);
        shared_broker.bytes(&rt, 1, OTHER_MEMBER, &[NEW]);
        shared_broker.bytes(&rt, 2, PINGREQ, &[PINGRESP]);
        shared_broker.report(&rt, left);
        shared_broker.tick(&rt, 2, &[]);
        shared_broker.report(
            &rt,
            "$share/g/job accepted 3 acknowledged 0 refused 0 held 0 queued 0 returned 3 discarded 0\n",
        );
        shared_broker.bytes(&rt, 1, SUBSCRIBE, &[SUBACK, FRESH]);
        shared_broker.report(
            &rt,
            "$share/g/job accepted 3 acknowledged 0 refused 0 held 3 queued 0 returned 0 discarded 0\n",
        );
        shared_broker.abandon();
    }
}

// w1, whose session is kept, is to be handed three jobs, and memory is refused for the n-th: nothing is written, and the connection has ended. When
// it comes back, those that it was handed before are sent again, and the others for the first time. The first take of all, which finds nothing, is
// that after its SUBSCRIBE.
#[test]
fn each_take(rt: HostRuntime) {
    for (take, again) in (2..=4).zip(AGAIN) {
        let refused = Refused {
            take,
            ..Refused::NONE
        };
        let mut shared_broker = SharedBroker::open(&rt, rt.alloc(), refused);
        shared_broker.bytes(&rt, 0, KEPT_MEMBER, &[NEW]);
        shared_broker.bytes(&rt, 0, SUBSCRIBE, &[SUBACK]);
        shared_broker.bytes(&rt, 2, PUBLISHER, &[NEW]);
        shared_broker.bytes(&rt, 2, JOBS, &TAKEN);
        shared_broker.tick_refused(&rt, 0);
        shared_broker.reopen(0);
        shared_broker.bytes(&rt, 0, KEPT_MEMBER, &[RESUMED, again]);
        shared_broker.report(
            &rt,
            "$share/g/job accepted 3 acknowledged 0 refused 0 held 3 queued 0 returned 0 discarded 0\n",
        );
        shared_broker.abandon();
    }
}

// Memory is refused for the n-th of three PUBLISH packets: its publisher is told nothing of it and is disconnected, and those before it stand.
#[test]
fn each_offer(rt: HostRuntime) {
    let rows: [(&[&[u8]], &str); 3] = [
        (
            &[],
            "$share/g/job accepted 0 acknowledged 0 refused 0 held 0 queued 0 returned 0 discarded 0\n",
        ),
        (
            &[TAKEN[0]],
            "$share/g/job accepted 1 acknowledged 0 refused 0 held 0 queued 1 returned 0 discarded 0\n",
        ),
        (
            &[TAKEN[0], TAKEN[1]],
            "$share/g/job accepted 2 acknowledged 0 refused 0 held 0 queued 2 returned 0 discarded 0\n",
        ),
    ];
    for (number, (written, report)) in (1..=3).zip(rows.iter()) {
        let refused = Refused {
            offer: number,
            ..Refused::NONE
        };
        let mut shared_broker = SharedBroker::open(&rt, rt.alloc(), refused);
        shared_broker.bytes(&rt, 0, MEMBER, &[NEW]);
        shared_broker.bytes(&rt, 0, SUBSCRIBE, &[SUBACK]);
        shared_broker.bytes(&rt, 2, PUBLISHER, &[NEW]);
        shared_broker.bytes_refused(&rt, 2, JOBS, written);
        shared_broker.report(&rt, report);
        shared_broker.abandon();
    }
}

// A client with a keep alive of 60 seconds, whose clock goes back: its PINGREQ counts as of the latest moment before it, so it is silent from 89,999 on,
// and is told so when 90 seconds have gone by since.
#[test]
fn a_clock_that_goes_back(rt: HostRuntime) {
    let mut shared_broker = SharedBroker::open(&rt, rt.alloc(), Refused::NONE);
    shared_broker.bytes(&rt, 2, PUBLISHER, &[NEW]);
    shared_broker.at(89_999);
    shared_broker.tick(&rt, 2, &[]);
    shared_broker.at(50_000);
    shared_broker.bytes(&rt, 2, PINGREQ, &[PINGRESP]);
    shared_broker.at(140_000);
    shared_broker.tick(&rt, 2, &[]);
    shared_broker.at(179_998);
    shared_broker.tick(&rt, 2, &[]);
    shared_broker.at(179_999);
    shared_broker.tick(&rt, 2, &[b"\xE0\x01\x8D"]);
    shared_broker.abandon();
}
