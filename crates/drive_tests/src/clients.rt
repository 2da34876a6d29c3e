//! Runs of one client whose bytes are known.
use crate::acting::{answered, assert_same_bytes, setup};
use crate::subscriptions::SUBSCRIPTIONS;
use conn_rules::Setup;
use std::alloc::{AllocError, Global};
use std::process::Abort;

/// `w1` connects.
pub(crate) const CONNECT: &[u8] = b"100F00044D5154540502003C0000027731\n";

pub(crate) const CONNACK: &[u8] = b"200c000009240125002700010000\n";

/// It joins the group `g` of `job`, at least once.
pub(crate) const SUBSCRIBE: &[u8] = b"8212000100000C2473686172652F672F6A6F6201\n";

pub(crate) const SUBACK: &[u8] = b"900400010001\n";

/// It publishes `A` to `job`, under 7.
pub(crate) const JOB: &[u8] = b"320900036A6F6200070041\n";

/// What goes out for a CONNECT and a SUBSCRIBE.
pub(crate) const MEMBER_OUT: &[u8] = b"\
200c000009240125002700010000
900400010001
$share/g/job accepted 0 acknowledged 0 refused 0 held 0 queued 0 returned 0 discarded 0
";

/// What goes out for a CONNECT, a SUBSCRIBE and a PUBLISH.
pub(crate) const FIRST_JOB_OUT: &[u8] = b"\
200c000009240125002700010000
900400010001
40020007
320900036a6f6200010041
$share/g/job accepted 1 acknowledged 0 refused 0 held 0 queued 0 returned 1 discarded 0
";

// Each run has a name, and below it the lines that come in, each with what goes out for it after `> `.
const RUNS: &str = "\
empty_and_bad_input

connect
100F00044D5154540502003C0000027731
> 200c000009240125002700010000

subscribe
100F00044D5154540502003C0000027731
> 200c000009240125002700010000
8212000100000C2473686172652F672F6A6F6201
> 900400010001
> $share/g/job accepted 0 acknowledged 0 refused 0 held 0 queued 0 returned 0 discarded 0

first_job
100F00044D5154540502003C0000027731
> 200c000009240125002700010000
8212000100000C2473686172652F672F6A6F6201
> 900400010001
320900036A6F6200070041
> 40020007
> 320900036a6f6200010041
> $share/g/job accepted 1 acknowledged 0 refused 0 held 0 queued 0 returned 1 discarded 0

no_group_matches
100F00044D5154540502003C0000027731
> 200c000009240125002700010000
8212000100000C2473686172652F672F6A6F6201
> 900400010001
320A00046E6F6E6500070041
> 4003000710
> $share/g/job accepted 0 acknowledged 0 refused 0 held 0 queued 0 returned 0 discarded 0

acknowledged_job
100F00044D5154540502003C0000027731
> 200c000009240125002700010000
8212000100000C2473686172652F672F6A6F6201
> 900400010001
320900036A6F6200070041
> 40020007
> 320900036a6f6200010041
40020001
> $share/g/job accepted 1 acknowledged 1 refused 0 held 0 queued 0 returned 0 discarded 0

refused_job
100F00044D5154540502003C0000027731
> 200c000009240125002700010000
8212000100000C2473686172652F672F6A6F6201
> 900400010001
320900036A6F6200070041
> 40020007
> 320900036a6f6200010041
4003000180
> $share/g/job accepted 1 acknowledged 0 refused 1 held 0 queued 0 returned 0 discarded 0

unknown_identifier
100F00044D5154540502003C0000027731
> 200c000009240125002700010000
8212000100000C2473686172652F672F6A6F6201
> 900400010001
320900036A6F6200070041
> 40020007
> 320900036a6f6200010041
40020002
> $share/g/job accepted 1 acknowledged 0 refused 0 held 0 queued 0 returned 1 discarded 0

disconnect
100F00044D5154540502003C0000027731
> 200c000009240125002700010000
8212000100000C2473686172652F672F6A6F6201
> 900400010001
320900036A6F6200070041
> 40020007
> 320900036a6f6200010041
E000
> $share/g/job accepted 1 acknowledged 0 refused 0 held 0 queued 0 returned 1 discarded 0

nothing_after_a_close
100F00044D5154540502003C0000027731
> 200c000009240125002700010000
8212000100000C2473686172652F672F6A6F6201
> 900400010001
E000
320900036A6F6200070041
> $share/g/job accepted 0 acknowledged 0 refused 0 held 0 queued 0 returned 0 discarded 0

ping_and_second_connect
100F00044D5154540502003C0000027731
> 200c000009240125002700010000
C000
> d000
100F00044D5154540502003C0000027731
> e00182
C000

nothing_after_a_fault
100F00044D5154540502003C0000027731
> 200c000009240125002700010000
8212000100000C2473686172652F672F6A6F6201
> 900400010001
00
> e00181
320900036A6F6200070041
> $share/g/job accepted 0 acknowledged 0 refused 0 held 0 queued 0 returned 0 discarded 0

same_share_and_another
100F00044D5154540502003C0000027731
> 200c000009240125002700010000
8212000100000C2473686172652F672F6A6F6201
> 900400010001
8212000100000C2473686172652F672F6A6F6201
> 900400010001
8212000200000C2473686172652F682F6A6F6201
> 900400020097
> $share/g/job accepted 0 acknowledged 0 refused 0 held 0 queued 0 returned 0 discarded 0

share_and_plain_filter
100F00044D5154540502003C0000027731
> 200c000009240125002700010000
8218000100000C2473686172652F672F6A6F620100036A6F6201
> 90050001000183
> $share/g/job accepted 0 acknowledged 0 refused 0 held 0 queued 0 returned 0 discarded 0

leaving_with_a_job: free for another group once the job is acknowledged
100F00044D5154540502003C0000027731
> 200c000009240125002700010000
8212000100000C2473686172652F672F6A6F6201
> 900400010001
320900036A6F6200070041
> 40020007
> 320900036a6f6200010041
A211000200000C2473686172652F672F6A6F62
> b00400020000
8212000300000C2473686172652F682F6A6F6201
> 900400030097
40020001
8212000300000C2473686172652F682F6A6F6201
> 900400030001
> $share/g/job accepted 1 acknowledged 1 refused 0 held 0 queued 0 returned 0 discarded 0
> $share/h/job accepted 0 acknowledged 0 refused 0 held 0 queued 0 returned 0 discarded 0

property_order
100F00044D5154540502003C0000027731
> 200c000009240125002700010000
8212000100000C2473686172652F672F6A6F6201
> 900400010001
321400036A6F6200070B2600016B0001760300016141
> 40020007
> 321400036a6f6200010b030001612600016b00017641
> $share/g/job accepted 1 acknowledged 0 refused 0 held 0 queued 0 returned 1 discarded 0

subscription_identifier: that of the SUBSCRIBE that was granted last
100F00044D5154540502003C0000027731
> 200c000009240125002700010000
82140001020B05000C2473686172652F672F6A6F6201
> 900400010001
320900036A6F6200070041
> 40020007
> 320b00036a6f620001020b0541
40020001
8212000200000C2473686172652F672F6A6F6201
> 900400020001
320900036A6F6200080042
> 40020008
> 320900036a6f6200010042
> $share/g/job accepted 2 acknowledged 1 refused 0 held 0 queued 0 returned 1 discarded 0

receive_maximum_of_one
101200044D5154540502003C0321000100027731
> 200c000009240125002700010000
8212000100000C2473686172652F672F6A6F6201
> 900400010001
320900036A6F6200070041
> 40020007
> 320900036a6f6200010041
320900036A6F6200080042
> 40020008
320900036A6F6200090043
> 40020009
40020001
> 320900036a6f6200010042
> $share/g/job accepted 3 acknowledged 1 refused 0 held 0 queued 1 returned 1 discarded 0

session_that_goes_on
101700044D5154540502003C081100000E1021000A00027731
> 200c000009240125002700010000
8212000100000C2473686172652F672F6A6F6201
> 900400010001
320900036A6F6200070041
> 40020007
> 320900036a6f6200010041
> $share/g/job accepted 1 acknowledged 0 refused 0 held 1 queued 0 returned 0 discarded 0

session_ended_at_the_end
101700044D5154540502003C081100000E1021000A00027731
> 200c000009240125002700010000
8212000100000C2473686172652F672F6A6F6201
> 900400010001
320900036A6F6200070041
> 40020007
> 320900036a6f6200010041
E00700051100000000
> $share/g/job accepted 1 acknowledged 0 refused 0 held 0 queued 0 returned 1 discarded 0

client_of_small_packets
101400044D5154540502003C05270000004000027731
> 200c000009240125002700010000
8212000100000C2473686172652F672F6A6F6201
> 900400010001
323F00036A6F620007004B4B4B4B4B4B4B4B4B4B4B4B4B4B4B4B4B4B4B4B4B4B4B4B4B4B4B4B4B4B4B4B4B4B4B4B4B4B4B4B4B4B4B4B4B4B4B4B4B4B4B4B4B4B4B
> 40020007
320900036A6F6200080041
> 40020008
> 320900036a6f6200010041
> $share/g/job accepted 2 acknowledged 0 refused 0 held 0 queued 0 returned 1 discarded 1

message_expiry_interval: whole, as all happens at one moment; with 0 a message goes to nobody
100F00044D5154540502003C0000027731
> 200c000009240125002700010000
8212000100000C2473686172652F672F6A6F6201
> 900400010001
320E00036A6F62000705020000000A41
> 40020007
> 320e00036a6f62000105020000000a41
320E00036A6F62000805020000000042
> 40020008
320900036A6F6200090043
> 40020009
> 320900036a6f6200020043
> $share/g/job accepted 3 acknowledged 0 refused 0 held 0 queued 0 returned 2 discarded 1

no_connect_first
8212000100000C2473686172652F672F6A6F6201
100F00044D5154540502003C0000027731
";

pub(crate) fn join(alloc: Global, parts: &[&[u8]]) -> Result<Vec<u8>, AllocError> {
    let mut all = Vec::new(alloc);
    for part in parts {
        all.extend_from_slice(part)?;
    }
    Ok(all)
}

/// The lines of a run that come in, with a line's end after each but the last.
fn input_of(alloc: Global, run: &str) -> Result<Vec<u8>, AllocError> {
    let mut input = Vec::new(alloc);
    for line in run.lines().skip(1) {
        if !line.starts_with('>') {
            if !input.is_empty() {
                input.push(b'\n')?;
            }
            input.extend_from_slice(line.as_bytes())?;
        }
    }
    Ok(input)
}

/// The lines of a run that go out.
fn output_of(alloc: Global, run: &str) -> Result<Vec<u8>, AllocError> {
    let mut output = Vec::new(alloc);
    for line in run.lines() {
        if let Some(told) = line.strip_prefix("> ") {
            output.extend_from_slice(told.as_bytes())?;
            output.push(b'\n')?;
        }
    }
    Ok(output)
}

/// Compares what goes out for these lines.
fn compare(rt: &impl Abort, alloc: Global, setup: Setup, input: &[u8], run: &str) {
    let output = output_of(alloc, run).ok().expect(rt, "memory");
    let written = answered(alloc, setup, input).ok().expect(rt, "a run");
    assert_same_bytes(rt, &written, &output, run);
}

/// Compares all that is written in a run, with and without a line's end after its last line.
fn run_scenario(rt: &impl Abort, alloc: Global, capacity: u32, shares: &[&'static str], run: &str) {
    let input = input_of(alloc, run).ok().expect(rt, "memory");
    compare(rt, alloc, setup(rt, alloc, capacity, shares), &input, run);
    let ended = join(alloc, &[&input, b"\n"]).ok().expect(rt, "memory");
    compare(rt, alloc, setup(rt, alloc, capacity, shares), &ended, run);
}

/// The runs of a list, which stand apart by an empty line, over a server on which no share is bound.
fn run_all(rt: &impl Abort, alloc: Global, runs: &str) {
    for run in runs.split("\n\n") {
        run_scenario(rt, alloc, 1_024, &[], run);
    }
}

#[test]
fn runs(rt: HostRuntime) {
    run_all(&rt, rt.alloc(), RUNS);
    run_all(&rt, rt.alloc(), SUBSCRIPTIONS);
}

/// Two messages may wait in the one group: the third job is refused.
#[test]
fn full_queue(rt: HostRuntime) {
    run_scenario(
        &rt,
        rt.alloc(),
        2,
        &["$share/g/job"],
        "full_queue
100F00044D5154540502003C0000027731
> 200c000009240125002700010000
320900036A6F6200070041
> 40020007
320900036A6F6200080042
> 40020008
320900036A6F6200090043
> 4003000997
> $share/g/job accepted 2 acknowledged 0 refused 0 held 0 queued 2 returned 0 discarded 0",
    );
}

/// The second group is full of a job that the first one does not match.
#[test]
fn two_groups(rt: HostRuntime) {
    run_scenario(
        &rt,
        rt.alloc(),
        1,
        &["$share/a/job", "$share/g/+"],
        "two_groups
100F00044D5154540502003C0000027731
> 200c000009240125002700010000
320A00046E6F6E6500070041
> 40020007
320900036A6F6200080042
> 4003000897
> $share/a/job accepted 1 acknowledged 0 refused 0 held 0 queued 1 returned 0 discarded 0
> $share/g/+ accepted 1 acknowledged 0 refused 0 held 0 queued 1 returned 0 discarded 0",
    );
}

/// Eight groups have names: a ninth gets none.
#[test]
fn ninth_share(rt: HostRuntime) {
    let shares = [
        "$share/1/a",
        "$share/2/a",
        "$share/3/a",
        "$share/4/a",
        "$share/5/a",
        "$share/6/a",
        "$share/7/a",
        "$share/8/a",
    ];
    run_scenario(
        &rt,
        rt.alloc(),
        1_024,
        &shares,
        "ninth_share
100F00044D5154540502003C0000027731
> 200c000009240125002700010000
8212000100000C2473686172652F672F6A6F6201
> 900400010097
> $share/1/a accepted 0 acknowledged 0 refused 0 held 0 queued 0 returned 0 discarded 0
> $share/2/a accepted 0 acknowledged 0 refused 0 held 0 queued 0 returned 0 discarded 0
> $share/3/a accepted 0 acknowledged 0 refused 0 held 0 queued 0 returned 0 discarded 0
> $share/4/a accepted 0 acknowledged 0 refused 0 held 0 queued 0 returned 0 discarded 0
> $share/5/a accepted 0 acknowledged 0 refused 0 held 0 queued 0 returned 0 discarded 0
> $share/6/a accepted 0 acknowledged 0 refused 0 held 0 queued 0 returned 0 discarded 0
> $share/7/a accepted 0 acknowledged 0 refused 0 held 0 queued 0 returned 0 discarded 0
> $share/8/a accepted 0 acknowledged 0 refused 0 held 0 queued 0 returned 0 discarded 0",
    );
}
