//! Scenarios over the supply that threads share, and over the server on one thread: both write the same.
ghost use Rattle.std.specs.Prelude.{◌≡◌, true};

use crate::broker::ending::Counts;
use crate::broker::opening::shut;
use crate::broker::shares::{bind, share_of};
use crate::broker::worker::{Shift, work_alone};
use crate::one_thread::telling::tell;
use broker_groups::{Broker, BrokerPlace, Key};
use client_table::{CLIENTS, ClientTable, StepOutput};
use conn_engine::Opening;
use conn_rules::{MaxInflight, QueueCapacity, Setup};
use conn_supply::{HoldingPlace, NoMemory, Supply};
use drive::drive_lines;
use gate_word::Gate;
use mqtt_topic::Routes;
use scenarios::{Scenario, ScenarioEvent, What, all_scenarios, longest_wait};
use std::alloc::Global;
use std::process::Abort;
use std::sync::Wait;
use std::test::Fail;

/// An event happens, within a visit.
fn serve<P: HoldingPlace, S: Supply<P>>(
    supply: &mut S,
    clients: &mut ClientTable<P>,
    outputs: &mut Vec<StepOutput>,
    now: u64,
    event: &ScenarioEvent,
) -> Result<(), NoMemory>
    requires { S.visiting supply.old ≡ true }
{
    let number = event.connection;
    if usize::from(number) >= CLIENTS {
        return Ok(());
    }
    match &event.what {
        What::Open => {
            clients.open(number, Opening::plain(now));
            Ok(())
        }
        What::Bytes(piece) => clients.receive(supply, number, now, piece, outputs),
        What::Tick => clients.tick(supply, number, now, outputs),
        What::End => clients.end_of_input(supply, number, now, outputs),
    }
}

/// An event happens in a visit of its own, unless the broker was closed.
fn visit<P: HoldingPlace, S: Supply<P>>(
    supply: &mut S,
    clients: &mut ClientTable<P>,
    outputs: &mut Vec<StepOutput>,
    now: u64,
    event: &ScenarioEvent,
) -> Result<(), NoMemory> {
    if !supply.begin() {
        return Ok(());
    }
    let served = serve(supply, clients, outputs, now, event);
    supply.end();
    served
}

/// A scenario on one worker, and what was written in it. `None` where an allocation fails.
#[derive(Drop)]
struct Stage<'t> {
    scenario: &'t Scenario<'t>,
    now: u64,
    outputs: Vec<StepOutput>,
    text: Vec<u8>,
}

impl<'t> Stage<'t> {
    /// One on which nothing happened yet.
    fn of(alloc: Global, scenario: &'t Scenario<'t>) -> Stage<'t> {
        Stage {
            scenario,
            now: 0,
            outputs: Vec::new(alloc),
            text: Vec::new(alloc),
        }
    }

    /// An event happens.
    fn happen<P: HoldingPlace, S: Supply<P>>(
        &mut self,
        alloc: Global,
        supply: &mut S,
        clients: &mut ClientTable<P>,
        event: &ScenarioEvent,
    ) -> Option<()> {
        self.now = self.now.max(event.moment);
        self.outputs.clear();
        visit(supply, clients, &mut self.outputs, self.now, event).ok()?;
        tell(alloc, &mut self.text, &self.outputs)
    }

    /// All events happen, up to the one that closes the broker.
    fn go_on<P: HoldingPlace, S: Supply<P>>(
        &mut self,
        alloc: Global,
        supply: &mut S,
        clients: &mut ClientTable<P>,
    ) -> Option<()> {
        let events = self.scenario.events(alloc)?;
        for event in &events {
            self.happen(alloc, supply, clients, event)?;
        }
        Some(())
    }

    /// The broker was closed.
    fn close<P: HoldingPlace, S: Supply<P>>(
        &mut self,
        alloc: Global,
        supply: &mut S,
        clients: &mut ClientTable<P>,
    ) -> Option<()> {
        self.outputs.clear();
        for number in 0..CLIENTS as u8 {
            let _told = clients.closing(supply, number, self.now, &mut self.outputs);
        }
        tell(alloc, &mut self.text, &self.outputs)
    }

    /// The scenario with these clients.
    fn act<B: Broker, S: Supply<BrokerPlace<B>>>(
        &mut self,
        alloc: Global,
        supply: &mut S,
        clients: &mut ClientTable<BrokerPlace<B>>,
        gate: &Gate,
        spare: Key<B>,
    ) -> Option<()>
        requires { gate.now ≡ B.gate }
    {
        bind(alloc, supply, self.scenario.shares)?;
        self.go_on(alloc, supply, clients)?;
        if let Some(moment) = self.scenario.close() {
            self.now = self.now.max(moment);
            let _is_drained = shut(gate, spare);
            self.close(alloc, supply, clients)?;
        }
        Some(())
    }
}

impl<'t> Shift for Stage<'t> {
    fn work<B: Broker, S: Supply<BrokerPlace<B>>>(
        &mut self,
        alloc: Global,
        supply: &mut S,
        gate: &Gate,
        spare: Key<B>,
    ) {
        if let Ok(mut clients) = ClientTable::new(alloc) {
            if self.act(alloc, supply, &mut clients, gate, spare).is_none() {
                self.text.clear();
            }
            clients.abandon(supply, self.now);
        }
    }
}

/// What a server begins with.
fn setup(alloc: Global, scenario: &Scenario<'_>) -> Option<Setup> {
    let mut groups = Routes::new(alloc);
    for text in scenario.shares {
        let _slot = groups.bind(share_of(alloc, *text)?).ok()?;
    }
    Some(Setup {
        capacity: QueueCapacity::new(scenario.capacity)?,
        max_inflight: MaxInflight::most(),
        groups,
    })
}

/// What is written of a scenario over the server on one thread.
fn by_server(alloc: Global, scenario: &Scenario<'_>) -> Option<Vec<u8>> {
    let script = scenario.script(alloc)?;
    let setup = setup(alloc, scenario)?;
    let mut written = Vec::new(alloc);
    drive_lines(alloc, setup, &mut script.as_bytes(), &mut written).ok()?;
    Some(written)
}

/// The end of the line of a report.
fn counts_line(alloc: Global, counts: &Counts) -> Option<String> {
    let Counts {
        accepted,
        acknowledged,
        refused,
        held,
        queued,
        returned,
        discarded,
    } = *counts;
    format!(in alloc;
        " accepted {accepted} acknowledged {acknowledged} refused {refused} held {held} queued {queued} returned {returned} discarded {discarded}"
    ).ok()
}

/// These lines end as the reports of the groups count, which stand with the last one first.
fn compare_reports(rt: &impl Abort, alloc: Global, name: &str, lines: &str, counts: &[Counts]) {
    for (line, counts) in lines.lines().zip(counts.iter().rev()) {
        let end = counts_line(alloc, counts).expect(rt, "memory");
        assert!(rt; line.ends_with(end.as_str()), "{name}: {line}");
    }
    assert!(rt; lines.lines().count() <= counts.len(), "{name}");
}

/// A scenario writes the same over both, and each group's report counts the same.
fn compare<R: Wait + Abort>(rt: &R, alloc: Global, scenario: &Scenario<'_>) {
    let mut stage = Stage::of(alloc, scenario);
    let capacity = QueueCapacity::new(scenario.capacity).expect(rt, "a capacity");
    let counts = work_alone(rt, alloc, capacity.get() as usize, &mut stage).expect(rt, "a day");
    let wanted = by_server(alloc, scenario).expect(rt, "a run");
    assert!(rt; wanted.starts_with(&stage.text), "{}", scenario.name);
    let lines = wanted.get(stage.text.len()..).unwrap_or(b"");
    let lines = std::str::from_utf8(lines).ok().expect(rt, "text");
    assert!(rt;
        lines.is_empty() || lines.starts_with("$share"),
        "{}",
        scenario.name
    );
    compare_reports(rt, alloc, scenario.name, lines, &counts);
}

/// Compares each of these.
fn compare_all<R: Wait + Abort>(rt: &R, alloc: Global, scenarios: &[Scenario<'_>]) {
    for scenario in scenarios {
        compare(rt, alloc, scenario);
    }
}

#[test]
fn scenarios(rt: HostRuntime) {
    for scenarios in all_scenarios() {
        compare_all(&rt, rt.alloc(), scenarios);
    }
}

#[test]
fn longest(rt: HostRuntime) -> Result<(), Fail> {
    let lines = longest_wait(rt.alloc()).ok_or("memory")?;
    let scenario = Scenario {
        name: "longest_wait",
        capacity: 8,
        shares: &[],
        lines: lines.as_str(),
    };
    compare(&rt, rt.alloc(), &scenario);
    Ok(())
}
