//! The scenarios of `scenarios`, each connection over a scripted transport: what is written to it is what `drive` writes.
ghost use Rattle.std.specs.Prelude.{◌≡◌, ◌<◌, IfSome};
ghost use Rattle.transport.specs.Counting.{no_counts};

use bytes::Bytes;
use conn_engine::Opening;
use conn_rules::{MaxInflight, QueueCapacity, Setup};
use conn_service::{Direction, Round, Service};
use conn_supply::{HoldingPlace, Supply};
use drive::drive_lines;
use local_broker::{LocalPlace, LocalSupply};
use mqtt_packet::Text;
use mqtt_topic::{Routes, Share};
use scenarios::{Scenario, ScenarioEvent, What, all_scenarios};
use scripted_transport::{ReadTurn, Scripted};
use std::alloc::Global;
use std::marker::Model;
use std::process::Abort;
use transport::{OpenCrossing, Transport};

/// A connection that goes on.
struct Line<P: HoldingPlace, T: Transport> {
    service: Service<P, T>,
}

impl<P: HoldingPlace, T: Transport> Model for Line<P, T> {
    ghost use Rattle.std.specs.Prelude.{◌≡◌, None};
    ghost use Rattle.conn_service.specs.Services.{ServiceState};

    ghost Value = { ServiceState P T };

    ghost view = { λ l. l.service };

    ghost invariant = { λ l. l.service.ending ≡ None };
}

/// What became of it after a round.
enum Next<P: HoldingPlace, T: Transport> {
    GoesOn(Line<P, T>),
    Over(T),
}

impl<P: HoldingPlace, T: Transport> Line<P, T> {
    /// One that was opened at this moment.
    fn open(rt: &impl Abort, alloc: Global, number: u16, now: u64, transport: T) -> Line<P, T>
    where
        T: Drop,
        requires number { number < 1024 }
        requires new { T.counts transport ≡ no_counts }
    {
        match Service::open(alloc, number, Opening::plain(now), transport) {
            Ok(service) => Line { service },
            Err(_) => panic!(rt; "out of memory"),
        }
    }

    /// One round.
    fn go_on<S: Supply<P>>(self, supply: &mut S, now: u64) -> Next<P, T> {
        let Line { mut service } = self;
        let mut buffer = [0; 65_536];
        match service.round(supply, &OpenCrossing, 0, now, &mut buffer, Direction::Both) {
            Round::More | Round::Reading | Round::Writing | Round::Waiting => {
                Next::GoesOn(Line { service })
            }
            Round::Ended(_) => Next::Over(service.end()),
        }
    }
}

/// A transport that gives what happens to a connection from here on, an event with each read.
fn script_of(alloc: Global, connection: u8, events: &[ScenarioEvent]) -> Option<Scripted>
    ensures { IfSome result (λ scripted. scripted.counts ≡ no_counts) }
{
    let mut input = Vec::new(alloc);
    let mut reads = Vec::new(alloc);
    for event in events {
        if event.connection == connection {
            match &event.what {
                What::Open => {}
                What::Bytes(piece) => {
                    input.extend_from_slice(piece).ok()?;
                    reads.push(ReadTurn::AtMost(piece.len())).ok()?;
                }
                What::Tick => reads.push(ReadTurn::Idle).ok()?,
                What::End => reads.push(ReadTurn::End).ok()?,
            }
        }
    }
    Scripted::new(alloc, input, reads, Vec::new(alloc), 4_096).ok()
}

/// The number of a connection, the connection as long as it goes on, and all that was written to those that had the number.
struct Lane {
    number: u8,
    line: Option<Line<LocalPlace, Scripted>>,
    text: Vec<u8>,
}

impl Lane {
    /// A connection is opened, where none is.
    fn open(&mut self, rt: &impl Abort, alloc: Global, now: u64, events: &[ScenarioEvent]) {
        if self.line.is_none() {
            let script = script_of(alloc, self.number, events).expect(rt, "memory");
            let line = Line::open(rt, alloc, u16::from(self.number), now, script);
            match self.line.replace(line) {
                None => {}
                Some(_other) => unreachable!(),
            }
        }
    }

    /// A round, where one is open.
    fn go_on(&mut self, rt: &impl Abort, supply: &mut LocalSupply, now: u64) {
        if let Some(line) = self.line.take() {
            match line.go_on(supply, now) {
                Next::GoesOn(line) => match self.line.replace(line) {
                    None => {}
                    Some(_other) => unreachable!(),
                },
                Next::Over(transport) => {
                    let added = self.text.extend_from_slice(transport.output());
                    added.ok().expect(rt, "memory");
                }
            }
        }
    }
}

/// A lane for each connection of these events.
fn lanes_of(rt: &impl Abort, alloc: Global, events: &[ScenarioEvent]) -> Vec<Lane> {
    let mut lanes: Vec<Lane> = Vec::new(alloc);
    for event in events {
        if !lanes.iter().any(|lane| lane.number == event.connection) {
            let lane = Lane {
                number: event.connection,
                line: None,
                text: Vec::new(alloc),
            };
            if let Err(_full) = lanes.push(lane) {
                panic!(rt; "out of memory");
            }
        }
    }
    lanes
}

/// The events happen, each in a round of its connection, and then the broker closes.
fn act(
    rt: &impl Abort,
    alloc: Global,
    supply: &mut LocalSupply,
    lanes: &mut [Lane],
    events: &[ScenarioEvent],
) {
    let mut now = 0;
    for (place, event) in events.iter().enumerate() {
        now = event.moment.max(now);
        for lane in lanes.iter_mut() {
            if lane.number == event.connection {
                match event.what {
                    What::Open => lane.open(rt, alloc, now, &events[place..]),
                    What::Bytes(_) | What::Tick | What::End => lane.go_on(rt, supply, now),
                }
            }
        }
    }
    supply.close();
    for lane in lanes.iter_mut() {
        lane.go_on(rt, supply, now);
    }
}

/// All that `drive` writes to a connection, in these lines.
fn wanted_of(alloc: Global, number: u8, lines: &str) -> Option<Vec<u8>> {
    let mut wanted = Vec::new(alloc);
    for line in lines.lines() {
        let mut words = line.split(' ');
        if words.next()?.parse::<u8>().ok() == Some(number) {
            let word = words.next()?;
            if word != "close" && word != "kicked" {
                let bytes = hex::decode(alloc, word.as_bytes()).ok()?;
                wanted.extend_from_slice(&bytes).ok()?;
            }
        }
    }
    Some(wanted)
}

/// What was written to each connection is what `drive` writes in these lines, and each has ended.
fn compare_each(rt: &impl Abort, alloc: Global, name: &str, mut lanes: Vec<Lane>, lines: &str) {
    match lanes.pop() {
        None => lanes.destroy_empty(),
        Some(lane) => {
            let Lane { number, line, text } = lane;
            if let Some(_line) = line {
                panic!(rt; "it goes on");
            }
            let wanted = wanted_of(alloc, number, lines).expect(rt, "a transcript");
            assert_eq!(rt; text.as_slice(), wanted.as_slice(), "{name}: {number}");
            compare_each(rt, alloc, name, lanes, lines);
        }
    }
}

/// The reports of the broker are those in these lines.
fn compare_reports(rt: &impl Abort, alloc: Global, supply: &LocalSupply, name: &str, lines: &str) {
    let mut slot = 0u8;
    for line in lines.lines() {
        if line.starts_with("$share") {
            let told = supply.line(alloc, slot).ok().expect(rt, "memory");
            let told = told.expect(rt, "a share");
            assert_eq!(rt; told.trim_ascii(), line.as_bytes(), "{name}");
            slot = slot.saturating_add(1);
        }
    }
}

/// The routes of these shares.
fn routes_of(alloc: Global, shares: &[&str]) -> Option<Routes> {
    let mut routes = Routes::new(alloc);
    for text in shares {
        let bytes = Vec::from_slice(alloc, text.as_bytes()).ok()?;
        let text = Text::parse(Bytes::from_vec(bytes).ok()?)?;
        let _slot = routes.bind(Share::parse(text).ok()?).ok()?;
    }
    Some(routes)
}

/// What `drive` writes of a scenario after which the broker closes.
fn driven(alloc: Global, scenario: &Scenario<'_>) -> Option<Vec<u8>> {
    let setup = Setup {
        capacity: QueueCapacity::new(scenario.capacity)?,
        max_inflight: MaxInflight::most(),
        groups: routes_of(alloc, scenario.shares)?,
    };
    let mut script = scenario.script(alloc)?;
    script.push_str("0 close\n").ok()?;
    let mut written = Vec::new(alloc);
    drive_lines(alloc, setup, &mut script.as_bytes(), &mut written).ok()?;
    Some(written)
}

/// A scenario writes to each connection what `drive` does, and the broker reports the same.
fn compare(rt: &impl Abort, alloc: Global, scenario: &Scenario<'_>) {
    let written = driven(alloc, scenario).expect(rt, "a run");
    let lines = std::str::from_utf8(&written).ok().expect(rt, "text");
    let events = scenario.events(alloc).expect(rt, "events");
    let routes = routes_of(alloc, scenario.shares).expect(rt, "routes");
    let supply = LocalSupply::open(alloc, scenario.capacity as usize, routes);
    let mut supply = supply.ok().expect(rt, "a broker");
    let mut lanes = lanes_of(rt, alloc, &events);
    act(rt, alloc, &mut supply, &mut lanes, &events);
    compare_each(rt, alloc, scenario.name, lanes, lines);
    compare_reports(rt, alloc, &supply, scenario.name, lines);
    supply.abandon();
}

/// Compares each of these.
fn compare_all(rt: &impl Abort, alloc: Global, scenarios: &[Scenario<'_>]) {
    for scenario in scenarios {
        compare(rt, alloc, scenario);
    }
}

#[test]
fn scenarios(rt: HostRuntime) {
    for scenarios in all_scenarios() {
        compare_all(&rt, rt.alloc(), scenarios);
    }
}
