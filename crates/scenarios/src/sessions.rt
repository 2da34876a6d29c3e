//! Sessions: resumed, taken over, and given up.

use crate::scenario::Scenario;
use std::alloc::Global;

pub(crate) const SCENARIOS: [Scenario<'static>; 7] = [
    Scenario {
        name: "resume",
        capacity: 1_024,
        shares: &[],
        lines: "\
0 open 0
0 bytes 0 101700044D5154540502003C081100000E1021000A00027731
> 0 200c000009240125002700010000
0 bytes 0 8212000100000C2473686172652F672F6A6F6201
> 0 900400010001
0 bytes 0 320900036A6F6200010041
> 0 40020001
> 0 320900036a6f6200010041
0 bytes 0 320900036A6F6200020042
> 0 40020002
> 0 320900036a6f6200020042
0 bytes 0 320900036A6F6200030043
> 0 40020003
> 0 320900036a6f6200030043
0 bytes 0 320900036A6F6200040044
> 0 40020004
> 0 320900036a6f6200040044
0 bytes 0 320900036A6F6200050045
> 0 40020005
> 0 320900036a6f6200050045
0 end 0
> 0 close
5 open 1
5 bytes 1 101700044D5154540500003C081100000E1021000200027731
> 1 200c010009240125002700010000
> 1 3a0900036a6f6200010041
> 1 3a0900036a6f6200020042
5 bytes 1 40020005
5 bytes 1 40020001
> 1 3a0900036a6f6200030043
5 bytes 1 40020002
> 1 3a0900036a6f6200040044
5 bytes 1 40020003
6 close
> 1 e0018b
> 1 close
> $share/g/job accepted 5 acknowledged 4 refused 0 held 1 queued 0 returned 0 discarded 0
",
    },
    Scenario {
        name: "takeover",
        capacity: 1_024,
        shares: &[],
        lines: "\
0 open 0
0 bytes 0 100F00044D5154540502003C0000027731
> 0 200c000009240125002700010000
0 bytes 0 8212000100000C2473686172652F672F6A6F6201
> 0 900400010001
0 open 1
5 bytes 1 100F00044D5154540502003C0000027731
6 tick 1
6 tick 0
> 0 e0018e
> 0 kicked
7 tick 1
> 1 200c000009240125002700010000
9 close
> 1 e0018b
> 1 close
> $share/g/job accepted 0 acknowledged 0 refused 0 held 0 queued 0 returned 0 discarded 0
",
    },
    // What comes while a connection waits for its session is read after the Tick that gives it.
    Scenario {
        name: "what_comes_during_a_takeover",
        capacity: 1_024,
        shares: &[],
        lines: "\
0 open 0
0 open 63
0 bytes 0 100F00044D5154540502003C0000027731
> 0 200c000009240125002700010000
0 bytes 0 8212000100000C2473686172652F672F6A6F6201
> 0 900400010001
5 bytes 63 100F00044D5154540502003C0000027731
5 bytes 63 8212000100000C2473686172652F672F6A6F6201
5 bytes 63 320900036A6F6200070041
6 tick 63
6 tick 0
> 0 e0018e
> 0 kicked
7 tick 63
> 63 200c000009240125002700010000
> 63 900400010001
> 63 40020007
> 63 320900036a6f6200010041
9 tick 0
9 close
> 63 e0018b
> 63 close
> $share/g/job accepted 1 acknowledged 0 refused 0 held 1 queued 0 returned 0 discarded 0
",
    },
    // A moment that is less than an earlier one is that one: no time goes on.
    Scenario {
        name: "clock_that_goes_back",
        capacity: 1_024,
        shares: &[],
        lines: "\
100000 open 0
0 bytes 0 100F00044D5154540502003C0000027731
> 0 200c000009240125002700010000
50000 tick 0
189999 tick 0
190000 tick 0
> 0 e0018d
> 0 close
",
    },
    // A session of 3,600 seconds is there up to the last of their milliseconds.
    Scenario {
        name: "expiry",
        capacity: 1_024,
        shares: &[],
        lines: "\
0 open 0
0 bytes 0 101700044D5154540502003C081100000E1021000A00027731
> 0 200c000009240125002700010000
1000 end 0
> 0 close
3600999 open 1
3600999 bytes 1 101700044D5154540500003C081100000E1021000200027731
> 1 200c010009240125002700010000
",
    },
    Scenario {
        name: "expiry",
        capacity: 1_024,
        shares: &[],
        lines: "\
0 open 0
0 bytes 0 101700044D5154540502003C081100000E1021000A00027731
> 0 200c000009240125002700010000
1000 end 0
> 0 close
3601000 open 1
3601000 bytes 1 101700044D5154540500003C081100000E1021000200027731
> 1 200c000009240125002700010000
",
    },
    // What a client holds at the close is held, though its session's expiry is 0.
    Scenario {
        name: "held_at_the_close",
        capacity: 1_024,
        shares: &[],
        lines: "\
0 open 0
0 bytes 0 100F00044D5154540502003C0000027731
> 0 200c000009240125002700010000
0 bytes 0 8212000100000C2473686172652F672F6A6F6201
> 0 900400010001
0 bytes 0 320900036A6F6200070041
> 0 40020007
> 0 320900036a6f6200010041
0 close
> 0 e0018b
> 0 close
> $share/g/job accepted 1 acknowledged 0 refused 0 held 1 queued 0 returned 0 discarded 0
",
    },
];

/// The lines of a scenario that are longer than the others. Nobody ticks the connection that has the session: the one that waits for it is told so at its
/// hundredth Tick. `None` where an allocation fails.
pub fn longest_wait(alloc: Global) -> Option<String> {
    let mut lines = String::from_str(
        alloc,
        "\
0 open 0
0 bytes 0 100F00044D5154540502003C0000027731
> 0 200c000009240125002700010000
0 open 1
0 bytes 1 100F00044D5154540502003C0000027731
",
    )
    .ok()?;
    for _ in 0..100u32 {
        lines.push_str("1 tick 1\n").ok()?;
    }
    lines.push_str("> 1 2003008900\n> 1 close\n").ok()?;
    Some(lines)
}
