//! Messages that expire (section 3.3.2.3.3).

use crate::scenario::Scenario;

pub(crate) const SCENARIOS: [Scenario<'static>; 4] = [
    // A message goes out with what is left of its interval: ten seconds, less the whole seconds that it has waited.
    Scenario {
        name: "interval_left",
        capacity: 1_024,
        shares: &["$share/g/job"],
        lines: "\
0 open 1
0 bytes 1 100F00044D5154540502003C0000027731
> 1 200c000009240125002700010000
0 bytes 1 320E00036A6F62000705020000000A41
> 1 40020007
0 bytes 1 320E00036A6F62000805020000000F42
> 1 40020008
4999 open 0
4999 bytes 0 101200044D5154540502003C0321000100027732
> 0 200c000009240125002700010000
4999 bytes 0 8212000100000C2473686172652F672F6A6F6201
> 0 900400010001
> 0 320e00036a6f62000105020000000641
14999 bytes 0 40020001
> 0 320e00036a6f62000105020000000142
15000 end 0
> 0 close
15000 end 1
> 1 close
> $share/g/job accepted 2 acknowledged 1 refused 0 held 0 queued 0 returned 1 discarded 0
",
    },
    // Once it has waited that long, and at once with an interval of 0, it goes to nobody, and what is behind it goes out.
    Scenario {
        name: "expired",
        capacity: 1_024,
        shares: &["$share/g/job"],
        lines: "\
0 open 1
0 bytes 1 100F00044D5154540502003C0000027731
> 1 200c000009240125002700010000
0 bytes 1 320E00036A6F62000705020000000A41
> 1 40020007
0 bytes 1 320E00036A6F62000805020000000042
> 1 40020008
0 bytes 1 320900036A6F6200090043
> 1 40020009
10000 open 0
10000 bytes 0 100F00044D5154540502003C0000027732
> 0 200c000009240125002700010000
10000 bytes 0 8212000100000C2473686172652F672F6A6F6201
> 0 900400010001
> 0 320900036a6f6200010043
10000 bytes 0 320E00036A6F62000905020000000044
> 0 40020009
10000 end 0
> 0 close
10000 end 1
> 1 close
> $share/g/job accepted 4 acknowledged 0 refused 0 held 0 queued 0 returned 1 discarded 3
",
    },
    // A message that was given back expires like one that is queued.
    Scenario {
        name: "expired_after_it_was_given_back",
        capacity: 1_024,
        shares: &[],
        lines: "\
0 open 0
0 bytes 0 100F00044D5154540502003C0000027732
> 0 200c000009240125002700010000
0 bytes 0 8212000100000C2473686172652F672F6A6F6201
> 0 900400010001
0 bytes 0 320E00036A6F62000705020000000A41
> 0 40020007
> 0 320e00036a6f62000105020000000a41
0 end 0
> 0 close
10000 open 1
10000 bytes 1 100F00044D5154540502003C0000027731
> 1 200c000009240125002700010000
10000 bytes 1 8212000100000C2473686172652F672F6A6F6201
> 1 900400010001
10000 end 1
> 1 close
> $share/g/job accepted 1 acknowledged 0 refused 0 held 0 queued 0 returned 0 discarded 1
",
    },
    // What was sent once is sent again, also where it has expired since: with an interval of 0 then.
    Scenario {
        name: "sent_again_though_expired",
        capacity: 1_024,
        shares: &[],
        lines: "\
0 open 0
0 bytes 0 101400044D5154540500003C05110000003C00027731
> 0 200c000009240125002700010000
0 bytes 0 8212000100000C2473686172652F672F6A6F6201
> 0 900400010001
0 bytes 0 320E00036A6F62000705020000000A41
> 0 40020007
> 0 320e00036a6f62000105020000000a41
1000 end 0
> 0 close
3999 open 1
3999 bytes 1 101400044D5154540500003C05110000003C00027731
> 1 200c010009240125002700010000
> 1 3a0e00036a6f62000105020000000741
3999 end 1
> 1 close
12000 open 2
12000 bytes 2 101400044D5154540500003C05110000003C00027731
> 2 200c010009240125002700010000
> 2 3a0e00036a6f62000105020000000041
12000 end 2
> 2 close
> $share/g/job accepted 1 acknowledged 0 refused 0 held 1 queued 0 returned 0 discarded 0
",
    },
];
