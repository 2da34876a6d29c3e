//! A connection that is served.
ghost use Rattle.std.specs.Prelude.{◌≡◌, ◌<◌, ◌≤◌, ◌^◌, ◌↔◌, ℕ, IsTrue, MatchOption, MatchResult};
ghost use Rattle.limits.specs.Limits.{most_connections};
ghost use Rattle.transport.specs.Counting.{no_counts};
ghost use Rattle.conn_engine.specs.Looking.{IsSilentTooLong, TakesAt, held_by};
ghost use Rattle.conn_engine.specs.Phases.{IsWaiting};
ghost use Rattle.conn_engine.specs.declared.phase.ConnPhase.TheVariants as phases;
ghost use Rattle.conn_service.specs.Services.{opened};

use crate::answers::{AnswerCounts, Answered, LastWord};
use crate::outgoing::Outgoing;
use crate::served::Served;
use client_table::Client;
use conn_engine::Opening;
use conn_supply::{HoldingPlace, Supply};
use mqtt_packet::Packet;
use std::alloc::Global;
use std::marker::Model;
use transport::Transport;

/// A connection that is served: its client, its transport, and what is still to be written. `P` is a place in a group.
///
/// Its client may have a session, so it can't be dropped until the connection has ended.
pub struct Service<P: HoldingPlace, T: Transport> {
    pub(crate) client: Client<P>,
    pub(crate) transport: T,
    pub(crate) outgoing: Outgoing,
    // The packets of a step, until they are put down.
    pub(crate) packets: Vec<Packet>,
    // What was answered to its client. No contract speaks of it.
    pub(crate) answered: Answered,
    // Since when the transport has taken nothing of what waits.
    pub(crate) since: u64,
    // How many writes gave nothing since then, counted up to 600.
    pub(crate) refused: u32,
    pub(crate) ticked: u64,
    // How many bytes of its stream were kept since it waits for its session, counted up to 65,536.
    pub(crate) kept: usize,
    pub(crate) drained: bool,
    pub(crate) at_end: bool,
    pub(crate) ending: Option<Served>,
}

impl<P: HoldingPlace, T: Transport> Model for Service<P, T> {
    ghost use Rattle.conn_service.specs.Services.{ServiceState, IsCounted};

    ghost Value = { ServiceState P T };

    ghost view = { λ s. record {
      client = s.client;
      transport = s.transport;
      outgoing = s.outgoing;
      since = s.since;
      refused = s.refused;
      ticked = s.ticked;
      kept = s.kept;
      drained = s.drained;
      at_end = s.at_end;
      ending = s.ending;
    } };

    ghost invariant = { λ s. IsCounted (T.counts s.transport) s.at_end s.ending };
}

impl<P: HoldingPlace, T: Transport> Service<P, T> {
    /// A connection of this number, below 1,024, that is opened so over a transport of which nothing was asked yet.
    /// Takes the memory for what waits to be written. A lack of memory hands the transport back.
    pub fn open(
        alloc: Global,
        number: u16,
        opening: Opening,
        transport: T,
    ) -> Result<Service<P, T>, T>
        requires number { number < most_connections }
        requires new { T.counts transport ≡ no_counts }
        ensures { MatchResult result (λ service. service ≡ opened number opening transport) (λ back. back ≡ transport) }
    {
        let at = opening.at;
        match Outgoing::new(alloc) {
            Ok(outgoing) => Ok(Service {
                client: Client::open(alloc, number, opening),
                transport,
                outgoing,
                packets: Vec::new(alloc),
                answered: Answered::NOTHING,
                since: at,
                refused: 0,
                ticked: at,
                kept: 0,
                drained: false,
                at_end: false,
                ending: None,
            }),
            Err(_) => Err(transport),
        }
    }

    /// The moment, in milliseconds, from which a Tick ends the connection for silence: see [`Conn::deadline`](conn_engine::Conn::deadline).
    pub fn deadline(&self) -> Option<u64>
        ensures { MatchOption result
            ((now : ℕ) → now < 2 ^ 64 → ¬ IsSilentTooLong self.now.client.conn.phase now)
            (λ deadline. (now : ℕ) → IsSilentTooLong self.now.client.conn.phase now ↔ deadline ≤ now) }
    {
        self.client.deadline()
    }

    /// How many messages its client has not acknowledged.
    pub fn held(&self) -> usize
        ensures { result ≡ held_by self.now.client.conn.phase }
    {
        self.client.held()
    }

    /// The slot of the group that its client would be handed a message of now: see [`Conn::takes_from`](conn_engine::Conn::takes_from).
    pub fn takes_from(&self) -> Option<u8>
        ensures { MatchOption result
            ((place : P) → ¬ TakesAt self.now.client.conn.phase place)
            (λ slot. (place : P) × TakesAt self.now.client.conn.phase place × (P.slot_of place ≡ slot)) }
    {
        self.client.takes_from()
    }

    /// Whether its client waits for a session that another connection has.
    pub fn is_waiting(&self) -> bool
        ensures { IsTrue result ↔ IsWaiting self.now.client.conn.phase }
    {
        !self.client.wants_input()
    }

    /// The identifier of its client, where that has its session: the one that it connected with, or the one that was assigned to it (sections 3.1.3.1 and
    /// 3.2.2.3.7).
    pub fn client_identifier(&self) -> Option<&[u8]> {
        self.client.identifier()
    }

    /// The latest CONNACK or DISCONNECT that was sent to its client: also where it still waits to be written.
    pub fn last_word(&self) -> Option<LastWord> {
        self.answered.last_word()
    }

    /// Adds up what was answered to its client since this was called last. Where that is nothing, it costs nothing.
    pub fn take_answers(&mut self, sum: &mut AnswerCounts)
        ensures { self.new ≡ self.old }
    {
        self.answered.take(sum);
    }

    /// Lets go of a connection wherever it stands, and gives its transport: its client ends as where the broker closes, and nothing is written any more.
    pub fn abandon<S: Supply<P>>(self, supply: &mut S, now: u64) -> T
        ensures transport { result ≡ self.transport }
        ensures visiting { S.visiting supply.new ≡ S.visiting supply.old }
    {
        let Service {
            client,
            transport,
            outgoing: _,
            packets: _,
            answered: _,
            since: _,
            refused: _,
            ticked: _,
            kept: _,
            drained: _,
            at_end: _,
            ending: _,
        } = self;
        client.abandon(supply, now);
        transport
    }

    /// Lets go of a connection that has ended, as [`Round::Ended`](crate::Round::Ended) tells, and gives its transport.
    pub fn end(self) -> T
        requires { self.client.conn.phase ≡ phases.Ended }
        ensures { result ≡ self.transport }
    {
        let Service {
            client,
            transport,
            outgoing: _,
            packets: _,
            answered: _,
            since: _,
            refused: _,
            ticked: _,
            kept: _,
            drained: _,
            at_end: _,
            ending: _,
        } = self;
        client.end();
        transport
    }
}
