//! Under which Subscription Identifier jobs are sent (sections 3.3.2.3.8, 3.8.2.1.2 and 3.8.4).

use crate::scenario::Scenario;

pub(crate) const SCENARIOS: [Scenario<'static>; 3] = [
    // Each job has the identifier of the SUBSCRIBE that was granted last; one that was refused changes nothing.
    Scenario {
        name: "identifiers_of_subscriptions",
        capacity: 1_024,
        shares: &[],
        lines: "\
0 open 0
0 bytes 0 100F00044D5154540502003C0000027731
> 0 200c000009240125002700010000
0 bytes 0 82140001020B05000C2473686172652F672F6A6F6201
> 0 900400010001
0 bytes 0 320900036A6F6200070041
> 0 40020007
> 0 320b00036a6f620001020b0541
0 bytes 0 82090002020B0700016101
> 0 900400020083
0 bytes 0 320900036A6F6200080042
> 0 40020008
> 0 320b00036a6f620002020b0542
0 bytes 0 82150003030BC801000C2473686172652F672F6A6F6201
> 0 900400030001
0 bytes 0 320900036A6F6200090043
> 0 40020009
> 0 320c00036a6f620003030bc80143
0 bytes 0 8212000400000C2473686172652F672F6A6F6201
> 0 900400040001
0 bytes 0 320900036A6F62000A0044
> 0 4002000a
> 0 320900036a6f6200040044
0 end 0
> 0 close
> $share/g/job accepted 4 acknowledged 0 refused 0 held 0 queued 0 returned 4 discarded 0
",
    },
    // A job that is sent again has the identifier of its first sending, and the session keeps its own.
    Scenario {
        name: "identifier_sent_again",
        capacity: 1_024,
        shares: &[],
        lines: "\
0 open 0
0 bytes 0 101400044D5154540500003C05110000003C00027731
> 0 200c000009240125002700010000
0 bytes 0 82140001020B05000C2473686172652F672F6A6F6201
> 0 900400010001
0 bytes 0 320900036A6F6200070041
> 0 40020007
> 0 320b00036a6f620001020b0541
0 end 0
> 0 close
0 open 1
0 bytes 1 101400044D5154540500003C05110000003C00027731
> 1 200c010009240125002700010000
> 1 3a0b00036a6f620001020b0541
0 bytes 1 320900036A6F6200080042
> 1 40020008
> 1 320b00036a6f620002020b0542
0 bytes 1 8212000200000C2473686172652F672F6A6F6201
> 1 900400020001
0 bytes 1 320900036A6F6200090043
> 1 40020009
> 1 320900036a6f6200030043
0 end 1
> 1 close
> $share/g/job accepted 3 acknowledged 0 refused 0 held 3 queued 0 returned 0 discarded 0
",
    },
    // A job that was given back has the identifier of whoever is handed it then.
    Scenario {
        name: "identifier_given_back",
        capacity: 1_024,
        shares: &[],
        lines: "\
0 open 0
0 bytes 0 100F00044D5154540502003C0000027731
> 0 200c000009240125002700010000
0 bytes 0 82140001020B05000C2473686172652F672F6A6F6201
> 0 900400010001
0 bytes 0 320900036A6F6200070041
> 0 40020007
> 0 320b00036a6f620001020b0541
0 end 0
> 0 close
0 open 1
0 bytes 1 100F00044D5154540502003C0000027732
> 1 200c000009240125002700010000
0 bytes 1 8212000100000C2473686172652F672F6A6F6201
> 1 900400010001
> 1 320900036a6f6200010041
0 end 1
> 1 close
> $share/g/job accepted 1 acknowledged 0 refused 0 held 0 queued 0 returned 1 discarded 0
",
    },
];
