//! What single packets are answered.

use crate::scenario::Scenario;

pub(crate) const SCENARIOS: [Scenario<'static>; 11] = [
    // MQTT 3.1.1
    Scenario {
        name: "first_packets",
        capacity: 1_024,
        shares: &[],
        lines: "\
0 open 0
0 bytes 0 100E00044D5154540402003C00027731
> 0 2003008400
> 0 close
",
    },
    // no CONNECT
    Scenario {
        name: "first_packets",
        capacity: 1_024,
        shares: &[],
        lines: "\
0 open 0
0 bytes 0 C000
> 0 close
",
    },
    // ten seconds without a packet
    Scenario {
        name: "first_packets",
        capacity: 1_024,
        shares: &[],
        lines: "\
0 open 0
9999 tick 0
10000 tick 0
> 0 close
",
    },
    // no identifier, a PINGREQ, and a second CONNECT
    Scenario {
        name: "first_packets",
        capacity: 1_024,
        shares: &[],
        lines: "\
0 open 0
0 bytes 0 100D00044D5154540502003C000000
> 0 201c00001912000d6175746f2d3030303030303031240125002700010000
0 bytes 0 C000
> 0 d000
0 bytes 0 100F00044D5154540502003C0000027731
> 0 e00182
> 0 close
",
    },
    // After a CONNECT: what closes the connection, and with which DISCONNECT.
    // QoS 0, QoS 2, RETAIN
    Scenario {
        name: "what_closes",
        capacity: 1_024,
        shares: &[],
        lines: "\
0 open 0
0 bytes 0 100F00044D5154540502003C0000027731300700036A6F620041
> 0 200c000009240125002700010000
> 0 e00183
> 0 close
",
    },
    Scenario {
        name: "what_closes",
        capacity: 1_024,
        shares: &[],
        lines: "\
0 open 0
0 bytes 0 100F00044D5154540502003C0000027731340900036A6F6200070041
> 0 200c000009240125002700010000
> 0 e0019b
> 0 close
",
    },
    Scenario {
        name: "what_closes",
        capacity: 1_024,
        shares: &[],
        lines: "\
0 open 0
0 bytes 0 100F00044D5154540502003C0000027731330900036A6F6200070041
> 0 200c000009240125002700010000
> 0 e0019a
> 0 close
",
    },
    // a length that is not minimal, and one of 65,537 bytes in all
    Scenario {
        name: "what_closes",
        capacity: 1_024,
        shares: &[],
        lines: "\
0 open 0
0 bytes 0 100F00044D5154540502003C0000027731829200
> 0 200c000009240125002700010000
> 0 e00181
> 0 close
",
    },
    Scenario {
        name: "what_closes",
        capacity: 1_024,
        shares: &[],
        lines: "\
0 open 0
0 bytes 0 100F00044D5154540502003C000002773132FDFF03
> 0 200c000009240125002700010000
> 0 e00195
> 0 close
",
    },
    // What is forwarded stands in rising order.
    Scenario {
        name: "properties",
        capacity: 1_024,
        shares: &[],
        lines: "\
0 open 0
0 bytes 0 100F00044D5154540502003C0000027731
> 0 200c000009240125002700010000
0 bytes 0 8212000100000C2473686172652F672F6A6F6201
> 0 900400010001
0 bytes 0 321400036A6F6200070B2600016B0001760300016141
> 0 40020007
> 0 321400036a6f6200010b030001612600016b00017641
0 bytes 0 321400036A6F6200080B03000161020000000A010141
> 0 40020008
> 0 321400036a6f6200020b0101020000000a0300016141
0 end 0
> 0 close
> $share/g/job accepted 2 acknowledged 0 refused 0 held 0 queued 0 returned 2 discarded 0
",
    },
    // A stream in pieces, several packets in one, and a number that is opened again.
    Scenario {
        name: "pieces_and_packets",
        capacity: 1_024,
        shares: &[],
        lines: "\
0 bytes 0 100F00044D5154540502003C0000027731
0 open 0
0 bytes 0 100F00044D51545405
0 tick 0
0 bytes 0 02003C0000027731
> 0 200c000009240125002700010000
0 open 0
0 bytes 0 8212000100000C2473686172652F672F6A6F62013209
> 0 900400010001
1 bytes 0 00036A6F6200070041
> 0 40020007
> 0 320900036a6f6200010041
2 bytes 0 C000C00040020001
> 0 d000
> 0 d000
3 bytes 0 C00000
> 0 d000
> 0 e00181
> 0 close
3 bytes 0 C000
3 end 0
4 open 0
4 bytes 0 100F00044D5154540502003C0000027731
> 0 200c000009240125002700010000
5 end 0
> 0 close
> $share/g/job accepted 1 acknowledged 1 refused 0 held 0 queued 0 returned 0 discarded 0
",
    },
];
