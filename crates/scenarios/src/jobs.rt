//! What becomes of jobs.

use crate::scenario::Scenario;

pub(crate) const SCENARIOS: [Scenario<'static>; 9] = [
    Scenario {
        name: "first_job",
        capacity: 1_024,
        shares: &[],
        lines: "\
0 open 0
0 bytes 0 100F00044D5154540502003C0000027731
> 0 200c000009240125002700010000
0 bytes 0 8212000100000C2473686172652F672F6A6F6201
> 0 900400010001
0 bytes 0 320900036A6F6200070041
> 0 40020007
> 0 320900036a6f6200010041
0 end 0
> 0 close
> $share/g/job accepted 1 acknowledged 0 refused 0 held 0 queued 0 returned 1 discarded 0
",
    },
    Scenario {
        name: "receive_maximum_of_one",
        capacity: 1_024,
        shares: &[],
        lines: "\
0 open 0
0 bytes 0 101200044D5154540502003C0321000100027731
> 0 200c000009240125002700010000
0 bytes 0 8212000100000C2473686172652F672F6A6F6201
> 0 900400010001
0 bytes 0 320900036A6F6200070041
> 0 40020007
> 0 320900036a6f6200010041
0 bytes 0 320900036A6F6200080042
> 0 40020008
0 bytes 0 320900036A6F6200090043
> 0 40020009
0 bytes 0 40020001
> 0 320900036a6f6200010042
0 end 0
> 0 close
> $share/g/job accepted 3 acknowledged 1 refused 0 held 0 queued 1 returned 1 discarded 0
",
    },
    Scenario {
        name: "refused_job",
        capacity: 1_024,
        shares: &[],
        lines: "\
0 open 0
0 bytes 0 100F00044D5154540502003C0000027731
> 0 200c000009240125002700010000
0 bytes 0 8212000100000C2473686172652F672F6A6F6201
> 0 900400010001
0 bytes 0 320900036A6F6200070041
> 0 40020007
> 0 320900036a6f6200010041
0 bytes 0 4003000180
0 close
> 0 e0018b
> 0 close
> $share/g/job accepted 1 acknowledged 0 refused 1 held 0 queued 0 returned 0 discarded 0
",
    },
    // w1 is handed the first job of p and goes; its session is given up, and w2 is handed the job.
    Scenario {
        name: "returned_job",
        capacity: 1_024,
        shares: &[],
        lines: "\
0 open 0
0 bytes 0 101700044D5154540502003C081100000E1021000A00027731
> 0 200c000009240125002700010000
0 bytes 0 8212000100000C2473686172652F672F6A6F6201
> 0 900400010001
0 open 1
0 bytes 1 100F00044D5154540502003C0000027732
> 1 200c000009240125002700010000
0 bytes 1 8212000100000C2473686172652F672F6A6F6201
> 1 900400010001
0 open 2
0 bytes 2 100E00044D5154540502003C00000170
> 2 200c000009240125002700010000
0 bytes 2 320900036A6F6200010041
> 2 40020001
1 tick 0
> 0 320900036a6f6200010041
2 end 0
> 0 close
3 open 0
3 bytes 0 100F00044D5154540502003C0000027731
> 0 200c000009240125002700010000
3 bytes 0 E000
> 0 close
4 tick 1
> 1 320900036a6f6200010041
5 close
> 1 e0018b
> 1 close
> 2 e0018b
> 2 close
> $share/g/job accepted 1 acknowledged 0 refused 0 held 1 queued 0 returned 0 discarded 0
",
    },
    // The same, but w2 is handed a second job before: the first one comes to it out of order.
    Scenario {
        name: "returned_out_of_order",
        capacity: 1_024,
        shares: &[],
        lines: "\
0 open 0
0 bytes 0 101700044D5154540502003C081100000E1021000A00027731
> 0 200c000009240125002700010000
0 bytes 0 8212000100000C2473686172652F672F6A6F6201
> 0 900400010001
0 open 1
0 bytes 1 100F00044D5154540502003C0000027732
> 1 200c000009240125002700010000
0 bytes 1 8212000100000C2473686172652F672F6A6F6201
> 1 900400010001
0 open 2
0 bytes 2 100E00044D5154540502003C00000170
> 2 200c000009240125002700010000
0 bytes 2 320900036A6F6200010041
> 2 40020001
1 tick 0
> 0 320900036a6f6200010041
2 end 0
> 0 close
2 bytes 2 320900036A6F6200020042
> 2 40020002
2 tick 1
> 1 320900036a6f6200010042
3 open 0
3 bytes 0 100F00044D5154540502003C0000027731
> 0 200c000009240125002700010000
3 bytes 0 E000
> 0 close
4 tick 1
> 1 320900036a6f6200020041
4 bytes 1 40020002
5 close
> 1 e0018b
> 1 close
> 2 e0018b
> 2 close
> $share/g/job accepted 2 acknowledged 1 refused 0 held 1 queued 0 returned 0 discarded 0
",
    },
    Scenario {
        name: "full_queue",
        capacity: 2,
        shares: &["$share/g/job"],
        lines: "\
0 open 0
0 bytes 0 100F00044D5154540502003C0000027731
> 0 200c000009240125002700010000
0 bytes 0 320900036A6F6200070041
> 0 40020007
0 bytes 0 320900036A6F6200080042
> 0 40020008
0 bytes 0 320900036A6F6200090043
> 0 4003000997
0 end 0
> 0 close
> $share/g/job accepted 2 acknowledged 0 refused 0 held 0 queued 2 returned 0 discarded 0
",
    },
    // Two groups match job. The second job finds one of them full: the other one has it, and its publisher hears of the one that has it
    // not. A third group matches nothing.
    Scenario {
        name: "two_groups",
        capacity: 1,
        shares: &["$share/g/job", "$share/h/#", "$share/i/other"],
        lines: "\
0 open 0
0 bytes 0 100F00044D5154540502003C0000027731
> 0 200c000009240125002700010000
0 bytes 0 320900036A6F6200070041
> 0 40020007
0 bytes 0 8212000100000C2473686172652F672F6A6F6201
> 0 900400010001
> 0 320900036a6f6200010041
0 bytes 0 320900036A6F6200080042
> 0 4003000897
> 0 320900036a6f6200020042
0 bytes 0 320A00046E6F6E6500090041
> 0 4003000997
0 end 0
> 0 close
> $share/g/job accepted 2 acknowledged 0 refused 0 held 0 queued 0 returned 2 discarded 0
> $share/h/# accepted 1 acknowledged 0 refused 0 held 0 queued 1 returned 0 discarded 0
> $share/i/other accepted 0 acknowledged 0 refused 0 held 0 queued 0 returned 0 discarded 0
",
    },
    // Eight groups have names: each takes the job, a ninth gets none, and a member of the eighth is handed it.
    Scenario {
        name: "eight_groups",
        capacity: 1_024,
        shares: &[
            "$share/a/job",
            "$share/b/job",
            "$share/c/job",
            "$share/d/job",
            "$share/e/job",
            "$share/f/job",
            "$share/g/job",
            "$share/h/job",
        ],
        lines: "\
0 open 0
0 bytes 0 100F00044D5154540502003C0000027731
> 0 200c000009240125002700010000
0 bytes 0 320900036A6F6200070041
> 0 40020007
0 bytes 0 8212000100000C2473686172652F692F6A6F6201
> 0 900400010097
0 bytes 0 8212000200000C2473686172652F682F6A6F6201
> 0 900400020001
> 0 320900036a6f6200010041
0 bytes 0 40020001
0 end 0
> 0 close
> $share/a/job accepted 1 acknowledged 0 refused 0 held 0 queued 1 returned 0 discarded 0
> $share/b/job accepted 1 acknowledged 0 refused 0 held 0 queued 1 returned 0 discarded 0
> $share/c/job accepted 1 acknowledged 0 refused 0 held 0 queued 1 returned 0 discarded 0
> $share/d/job accepted 1 acknowledged 0 refused 0 held 0 queued 1 returned 0 discarded 0
> $share/e/job accepted 1 acknowledged 0 refused 0 held 0 queued 1 returned 0 discarded 0
> $share/f/job accepted 1 acknowledged 0 refused 0 held 0 queued 1 returned 0 discarded 0
> $share/g/job accepted 1 acknowledged 0 refused 0 held 0 queued 1 returned 0 discarded 0
> $share/h/job accepted 1 acknowledged 1 refused 0 held 0 queued 0 returned 0 discarded 0
",
    },
    // A client that leaves its group keeps what it holds, and is handed nothing fresh; the group stays.
    Scenario {
        name: "unsubscribe",
        capacity: 1_024,
        shares: &[],
        lines: "\
0 open 0
0 bytes 0 100F00044D5154540502003C0000027731
> 0 200c000009240125002700010000
0 bytes 0 8212000100000C2473686172652F672F6A6F6201
> 0 900400010001
0 bytes 0 A211000200000C2473686172652F672F6A6F62
> 0 b00400020000
0 bytes 0 A211000300000C2473686172652F672F6A6F62
> 0 b00400030011
0 bytes 0 320900036A6F6200070041
> 0 40020007
0 bytes 0 320A00046E6F6E6500080041
> 0 4003000810
90000 tick 0
> 0 e0018d
> 0 close
> $share/g/job accepted 1 acknowledged 0 refused 0 held 0 queued 1 returned 0 discarded 0
",
    },
];
