//! The scenarios of a server, played through `drive`: what is written after each event, and the whole output.
use crate::acting::{assert_same_bytes, limited, written};
use conn_rules::MaxInflight;
use scenarios::{Scenario, all_scenarios, longest_wait};
use std::alloc::Global;
use std::process::Abort;
use std::test::Fail;

/// A client that says nothing of a Receive Maximum, on a server that lets it have two messages.
const LIMIT_OF_TWO: Scenario<'static> = Scenario {
    name: "limit_of_two",
    capacity: 1_024,
    shares: &[],
    lines: "\
0 open 0
0 bytes 0 100F00044D5154540502003C0000027731
> 0 200c000009240125002700010000
0 bytes 0 8212000100000C2473686172652F672F6A6F6201
> 0 900400010001
0 bytes 0 320900036A6F6200070041
> 0 40020007
> 0 320900036a6f6200010041
0 bytes 0 320900036A6F6200080042
> 0 40020008
> 0 320900036a6f6200020042
0 bytes 0 320900036A6F6200090043
> 0 40020009
0 bytes 0 40020001
> 0 320900036a6f6200010043
0 end 0
> 0 close
> $share/g/job accepted 3 acknowledged 1 refused 0 held 0 queued 0 returned 2 discarded 0
",
};

/// Adds a line.
fn add(rt: &impl Abort, text: &mut String, line: &str) {
    text.push_str(line).ok().expect(rt, "memory");
    text.push('\n').ok().expect(rt, "memory");
}

/// What `drive` writes of these events, on the server of a scenario, where a client has so many messages unacknowledged at most.
fn driven(
    rt: &impl Abort,
    alloc: Global,
    scenario: &Scenario<'_>,
    max_inflight: MaxInflight,
    events: &str,
) -> Vec<u8> {
    let setup = limited(rt, alloc, scenario.capacity, max_inflight, scenario.shares);
    written(alloc, setup, events).ok().expect(rt, "a run")
}

/// This much is written, and after it nothing but reports.
fn assert_begins(rt: &impl Abort, output: &[u8], expected: &str, name: &str) {
    assert!(rt; output.starts_with(expected.as_bytes()), "{name}");
    let rest = &output[expected.len()..];
    assert!(rt; rest.is_empty() || rest.starts_with(b"$share"), "{name}");
}

/// Plays a scenario: up to each of its events, and whole. What is written after an event is all that is new in the output, but for
/// the reports.
fn play(rt: &impl Abort, alloc: Global, scenario: &Scenario<'_>, max_inflight: MaxInflight) {
    let mut events = String::new(alloc);
    let mut wanted = String::new(alloc);
    for line in scenario.lines.lines() {
        match line.strip_prefix("> ") {
            Some(told) => add(rt, &mut wanted, told),
            None => {
                let output = driven(rt, alloc, scenario, max_inflight, &events);
                assert_begins(rt, &output, &wanted, scenario.name);
                add(rt, &mut events, line);
            }
        }
    }
    let script = scenario.script(alloc).expect(rt, "memory");
    let output = driven(rt, alloc, scenario, max_inflight, &script);
    assert_same_bytes(rt, &output, wanted.as_bytes(), scenario.name);
}

/// Plays each of these.
fn play_all(rt: &impl Abort, alloc: Global, scenarios: &[Scenario<'_>]) {
    for scenario in scenarios {
        play(rt, alloc, scenario, MaxInflight::most());
    }
}

#[test]
fn scenarios(rt: HostRuntime) {
    for scenarios in all_scenarios() {
        play_all(&rt, rt.alloc(), scenarios);
    }
}

#[test]
fn longest(rt: HostRuntime) -> Result<(), Fail> {
    let lines = longest_wait(rt.alloc()).ok_or("memory")?;
    let scenario = Scenario {
        name: "longest_wait",
        capacity: 1_024,
        shares: &[],
        lines: lines.as_str(),
    };
    play(&rt, rt.alloc(), &scenario, MaxInflight::most());
    Ok(())
}

#[test]
fn limit_of_two(rt: HostRuntime) -> Result<(), Fail> {
    let two = MaxInflight::new(2).ok_or("2 is a limit")?;
    play(&rt, rt.alloc(), &LIMIT_OF_TWO, two);
    Ok(())
}
