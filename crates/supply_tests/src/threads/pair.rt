//! The clients of a worker: a publisher, and a member of a group.
ghost use Rattle.std.specs.Prelude.{◌<◌};

use crate::broker::packets::{DISCONNECT, acknowledge, connect, publish, refuse, subscribe};
use crate::broker::seen::Seen;
use crate::broker::visits::{receive, tick};
use client_table::{ClientTable, StepOutput};
use conn_engine::Opening;
use conn_supply::{HoldingPlace, Supply};
use std::alloc::Global;

/// How many jobs the publisher publishes.
const ROUNDS: u32 = 400;

/// After so many jobs the member goes, with what it holds, and comes again.
const STAY: u32 = 64;

/// A publisher with the connection of an even number, and a member with the next one, over a supply with so many groups; and what they saw.
#[derive(Drop)]
pub(crate) struct Pair {
    number: u8,
    groups: u8,
    seen: Seen,
    // What the member was handed, and has not answered.
    identifiers: Vec<u16>,
    answers: u32,
    outputs: Vec<StepOutput>,
}

impl Pair {
    /// Those of this number, of which none came yet.
    pub(crate) fn of(alloc: Global, number: u8, groups: u8) -> Pair {
        Pair {
            number,
            groups,
            seen: Seen::NOTHING,
            identifiers: Vec::new(alloc),
            answers: 0,
            outputs: Vec::new(alloc),
        }
    }

    /// What they saw.
    pub(crate) fn seen(&self) -> Seen {
        self.seen
    }

    fn publisher(&self) -> u8
        ensures { result < 64 }
    {
        self.number % 32 * 2
    }

    fn member(&self) -> u8
        ensures { result < 64 }
    {
        self.number % 32 * 2 + 1
    }

    /// Reads what they were told.
    fn read(&mut self) -> Option<()> {
        self.seen.read(&self.outputs, &mut self.identifiers)
    }

    /// A piece comes from one of the clients, in a visit of its own.
    fn say<P: HoldingPlace, S: Supply<P>>(
        &mut self,
        supply: &mut S,
        table: &mut ClientTable<P>,
        connection: u8,
        piece: &[u8],
    ) -> Option<()>
        requires { connection < 64 }
    {
        self.outputs.clear();
        receive(supply, table, connection, piece, &mut self.outputs).ok()?;
        self.read()
    }

    /// Time goes on for the member, in a visit of its own.
    fn tick<P: HoldingPlace, S: Supply<P>>(
        &mut self,
        supply: &mut S,
        table: &mut ClientTable<P>,
    ) -> Option<()> {
        self.outputs.clear();
        tick(supply, table, self.member(), &mut self.outputs).ok()?;
        self.read()
    }

    /// The member comes.
    fn come<P: HoldingPlace, S: Supply<P>>(
        &mut self,
        supply: &mut S,
        table: &mut ClientTable<P>,
    ) -> Option<()> {
        let (member, number) = (self.member(), self.number);
        let group = number % self.groups.max(1);
        table.open(member, Opening::plain(0));
        self.say(supply, table, member, &connect(b'm', number))?;
        self.say(supply, table, member, &subscribe(group))
    }

    /// The member goes, with what it holds.
    fn go<P: HoldingPlace, S: Supply<P>>(
        &mut self,
        supply: &mut S,
        table: &mut ClientTable<P>,
    ) -> Option<()> {
        self.identifiers.clear();
        self.say(supply, table, self.member(), DISCONNECT)
    }

    /// The member answers the job that it was handed last, by the number of its answer: each seventh not at all, each fifth of the others by a
    /// refusal.
    fn answer<P: HoldingPlace, S: Supply<P>>(
        &mut self,
        supply: &mut S,
        table: &mut ClientTable<P>,
    ) -> Option<()> {
        let Some(identifier) = self.identifiers.pop() else {
            return Some(());
        };
        self.answers = self.answers.wrapping_add(1);
        if self.answers % 7 == 0 {
            return Some(());
        }
        let member = self.member();
        if self.answers % 5 == 0 {
            self.seen.refused = self.seen.refused.saturating_add(1);
            return self.say(supply, table, member, &refuse(identifier));
        }
        self.seen.acknowledged = self.seen.acknowledged.saturating_add(1);
        self.say(supply, table, member, &acknowledge(identifier))
    }

    /// A job is published, and the member takes and answers.
    fn round<P: HoldingPlace, S: Supply<P>>(
        &mut self,
        supply: &mut S,
        table: &mut ClientTable<P>,
        round: u32,
    ) -> Option<()> {
        let group = (round % u32::from(self.groups.max(1))) as u8;
        self.say(supply, table, self.publisher(), &publish(group))?;
        self.tick(supply, table)?;
        self.answer(supply, table)?;
        self.answer(supply, table)?;
        if round % STAY == STAY - 1 {
            self.go(supply, table)?;
            self.come(supply, table)?;
        }
        Some(())
    }

    /// Both come, and all rounds.
    pub(crate) fn work<P: HoldingPlace, S: Supply<P>>(
        &mut self,
        supply: &mut S,
        table: &mut ClientTable<P>,
    ) -> Option<()> {
        let (publisher, number) = (self.publisher(), self.number);
        table.open(publisher, Opening::plain(0));
        self.say(supply, table, publisher, &connect(b'p', number))?;
        self.come(supply, table)?;
        for round in 0..ROUNDS {
            self.round(supply, table, round)?;
        }
        Some(())
    }
}
