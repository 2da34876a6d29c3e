//! A server on one thread.
ghost use Rattle.std.specs.Prelude.{◌≡◌, ◌≤◌, ◌++◌, length, List, MatchOption, IfOk, None, true, slice_get};
ghost use Rattle.limits.specs.Limits.{most_groups};
ghost use Rattle.client_table.specs.Clients.{StepOutput as Output};
ghost use Rattle.local_broker.specs.Broker.{is_open};
ghost use Rattle.local_broker.specs.Reporting.{TellsLine};
ghost use Rattle.local_server.specs.Servers.{IsNewServer};
ghost use Rattle.local_server.specs.Happening.{ClosesAll, Does, Happens};

use crate::event::ServerEvent;
use client_table::{CLIENTS, ClientTable, StepOutput};
use conn_engine::Opening;
use conn_rules::{ClientLimits, MaxInflight, Setup};
use conn_supply::{NoMemory, Supply};
use local_broker::{LocalPlace, LocalSupply};
use mqtt_topic::Share;
use std::alloc::Global;
use std::marker::Model;

/// A server on one thread: up to [`CLIENTS`] connections, and what they share.
pub struct Server {
    supply: LocalSupply,
    clients: ClientTable<LocalPlace>,
    clock: u64,
    max_inflight: MaxInflight,
}

impl Model for Server {
    ghost use Rattle.std.specs.Coded.{codes};
    ghost use Rattle.session_desk.specs.Layout.{books_code};
    ghost use Rattle.local_broker.specs.Broker.{broker_code};
    ghost use Rattle.local_server.specs.Servers.{ServerState, server_code};

    ghost Value = { ServerState };

    ghost coded = { server_code (broker_code (books_code (Prim.hlevel codes) (Prim.hlevel codes)) (Prim.hlevel codes) (Prim.hlevel codes)) (Prim.hlevel codes) };

    ghost view = { λ s. record { broker = s.supply; clients = s.clients; clock = s.clock; max_inflight = s.max_inflight } };
}

impl Server {
    /// A server without connections.
    ///
    /// # Errors
    ///
    /// Out of memory.
    pub fn open(alloc: Global, setup: Setup) -> Result<Server, NoMemory>
        ensures { IfOk result (IsNewServer setup) }
    {
        let Setup {
            capacity,
            max_inflight,
            groups,
        } = setup;
        let supply = LocalSupply::open(alloc, capacity.get() as usize, groups)?;
        match ClientTable::new(alloc) {
            Ok(clients) => Ok(Server {
                supply,
                clients,
                clock: 0,
                max_inflight,
            }),
            Err(refused) => {
                supply.abandon();
                Err(refused)
            }
        }
    }

    /// An event, at this moment in milliseconds; where that is less than an earlier one, the earlier one stands. What each step
    /// of a connection wrote goes after what was said before.
    ///
    /// What happens to a connection that is not open is passed over, and so is the opening of one that is, and all that happens
    /// after [`ServerEvent::Close`].
    ///
    /// # Errors
    ///
    /// 803 [`NoMemory`]: the connection has ended, and its session is parked or ending, with all that it holds; what was said
    /// before stays. In [`ServerEvent::Close`] that may befall several connections; the others are told all the same.
    pub fn happen(
        &mut self,
        moment: u64,
        event: &ServerEvent,
        outputs: &mut Vec<StepOutput>,
    ) -> Result<(), NoMemory>
        ensures { (more : List Output) × (outputs.new.items ≡ outputs.old.items ++ more) × Happens self.old moment event.now more result self.new }
    {
        self.clock = self.clock.max(moment);
        if !self.supply.begin() {
            return Ok(());
        }
        let served = serve(
            &mut self.supply,
            &mut self.clients,
            self.clock,
            self.max_inflight,
            event,
            outputs,
        );
        self.supply.end();
        served
    }

    /// The shares that are bound, the one of slot n at place n.
    pub fn shares(&self) -> &[Share]
        ensures value { result.now ≡ self.now.broker.routes }
        ensures few { length result.now ≤ most_groups }
    {
        self.supply.shares()
    }

    /// The line of the report of the share that is bound to this slot; `None` where none is.
    ///
    /// # Errors
    ///
    /// Out of memory.
    pub fn line(&self, alloc: Global, slot: u8) -> Result<Option<Vec<u8>>, NoMemory>
        ensures { IfOk result (λ told. MatchOption told (slice_get self.now.broker.routes slot ≡ None) (λ line. TellsLine self.now.broker slot line.items)) }
    {
        self.supply.line(alloc, slot)
    }

    /// Lets go of the server: connections that are open end, and nothing is written of that.
    pub fn end(self) {
        let Server {
            mut supply,
            clients,
            clock,
            max_inflight: _,
        } = self;
        clients.abandon(&mut supply, clock);
        supply.abandon();
    }
}

/// An event at this moment, where the server is open; a connection is opened with this limit, and no other.
fn serve(
    supply: &mut LocalSupply,
    clients: &mut ClientTable<LocalPlace>,
    now: u64,
    max_inflight: MaxInflight,
    event: &ServerEvent,
    outputs: &mut Vec<StepOutput>,
) -> Result<(), NoMemory>
    requires { is_open supply.old ≡ true }
    ensures { (more : List Output) × (outputs.new.items ≡ outputs.old.items ++ more)
        × Does event.now max_inflight supply.old clients.old now more result clients.new supply.new }
{
    match event {
        ServerEvent::Open(number) => {
            let opening = Opening {
                at: now,
                limits: ClientLimits::inflight_alone(max_inflight),
            };
            clients.open(number.get(), opening);
            Ok(())
        }
        ServerEvent::Bytes(number, piece) => clients.receive(
            supply,
            number.get(),
            now,
            piece,
            outputs,
        ),
        ServerEvent::Tick(number) => clients.tick(supply, number.get(), now, outputs),
        ServerEvent::End(number) => clients.end_of_input(supply, number.get(), now, outputs),
        ServerEvent::Close => close(supply, clients, now, outputs),
    }
}

/// The server closes: the groups first, and then each connection ends, that of the least number first; memory that was wanted for one
/// keeps no other from being told.
#[tactic(auto, using(crate::proofs::Closing::none_ended))]
fn close(
    supply: &mut LocalSupply,
    clients: &mut ClientTable<LocalPlace>,
    now: u64,
    outputs: &mut Vec<StepOutput>,
) -> Result<(), NoMemory>
    ensures { (more : List Output) × (outputs.new.items ≡ outputs.old.items ++ more)
        × ClosesAll supply.old clients.old now more result clients.new supply.new }
{
    supply.close();
    let mut ended = Ok(());
    'numbers: for number in 0..CLIENTS as u8 {
        ended = ended.and(clients.closing(supply, number, now, outputs));
    }
    ended
}
