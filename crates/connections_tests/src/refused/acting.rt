//! A broker with its clients, and what they are written.
ghost use Rattle.std.specs.Prelude.{◌<◌};

use crate::refused::refusing::{Refused, Refusing};
use client_table::{ClientTable, StepOutput};
use conn_engine::Opening;
use conn_supply::{NoMemory, Supply};
use local_broker::LocalPlace;
use mqtt_topic::Routes;
use mqtt_wire::encode_into;
use std::alloc::Global;
use std::process::Abort;

/// How many clients there are: two members and a publisher.
const CLIENTS: u8 = 3;

/// A broker with its clients, and what was said in the last event.
pub(crate) struct SharedBroker {
    supply: Refusing,
    clients: ClientTable<LocalPlace>,
    outputs: Vec<StepOutput>,
    // The moment of what happens next, in milliseconds.
    now: u64,
    alloc: Global,
}

impl SharedBroker {
    /// A new broker, which refuses these calls, and three connections.
    pub(crate) fn open(rt: &impl Abort, alloc: Global, refused: Refused) -> SharedBroker {
        let mut clients = ClientTable::new(alloc).expect(rt, "memory");
        for number in 0..CLIENTS {
            clients.open(number, Opening::plain(0));
        }
        SharedBroker {
            supply: Refusing::open(alloc, Routes::new(alloc), refused).expect(rt, "memory"),
            clients,
            outputs: Vec::new(alloc),
            now: 0,
            alloc,
        }
    }

    /// What happens from now on happens at this moment, in milliseconds.
    pub(crate) fn at(&mut self, now: u64) {
        self.now = now;
    }

    /// A connection of this number is opened anew.
    pub(crate) fn reopen(&mut self, number: u8)
        requires { number < 64 }
    {
        self.clients.open(number, Opening::plain(self.now));
    }

    /// A piece of a client's stream comes, and these bytes are written.
    pub(crate) fn bytes(&mut self, rt: &impl Abort, number: u8, piece: &[u8], written: &[&[u8]])
        requires { number < 64 }
    {
        let received = self.receive(number, piece);
        assert!(rt; received.is_ok());
        self.compare(rt, written);
    }

    /// A piece comes, and an allocation fails for one of its packets: these bytes are written of those before it.
    pub(crate) fn bytes_refused(
        &mut self,
        rt: &impl Abort,
        number: u8,
        piece: &[u8],
        written: &[&[u8]],
    )
        requires { number < 64 }
    {
        let received = self.receive(number, piece);
        assert!(rt; received.is_err());
        self.compare(rt, written);
    }

    /// Time goes on for a connection, and these bytes are written.
    pub(crate) fn tick(&mut self, rt: &impl Abort, number: u8, written: &[&[u8]])
        requires { number < 64 }
    {
        let ticked = self.advance(number);
        assert!(rt; ticked.is_ok());
        self.compare(rt, written);
    }

    /// Time goes on for a connection, and an allocation fails for what it is handed: nothing is written.
    pub(crate) fn tick_refused(&mut self, rt: &impl Abort, number: u8)
        requires { number < 64 }
    {
        let ticked = self.advance(number);
        assert!(rt; ticked.is_err());
        self.compare(rt, &[]);
    }

    /// A piece comes.
    fn receive(&mut self, number: u8, piece: &[u8]) -> Result<(), NoMemory>
        requires { number < 64 }
    {
        self.outputs.clear();
        if !self.supply.begin() {
            return Ok(());
        }
        let received = self.clients.receive(
            &mut self.supply,
            number,
            self.now,
            piece,
            &mut self.outputs,
        );
        self.supply.end();
        received
    }

    /// Time goes on.
    fn advance(&mut self, number: u8) -> Result<(), NoMemory>
        requires { number < 64 }
    {
        self.outputs.clear();
        if !self.supply.begin() {
            return Ok(());
        }
        let ticked = self
            .clients
            .tick(&mut self.supply, number, self.now, &mut self.outputs);
        self.supply.end();
        ticked
    }

    /// What was said in the last event is written as these bytes, one part after the other.
    fn compare(&self, rt: &impl Abort, written: &[&[u8]]) {
        let mut bytes = Vec::new(self.alloc);
        for words in &self.outputs {
            for packet in words.packets() {
                encode_into(&mut bytes, packet).expect(rt, "memory");
            }
        }
        let mut wanted = Vec::new(self.alloc);
        for part in written {
            wanted.extend_from_slice(part).expect(rt, "memory");
        }
        assert_eq!(rt; bytes.as_slice(), wanted.as_slice());
    }

    /// The report of the first share is this.
    pub(crate) fn report(&self, rt: &impl Abort, report: &str) {
        let line = self.supply.line(self.alloc, 0).expect(rt, "memory");
        assert_eq!(rt; line.as_slice(), report.as_bytes());
    }

    /// Lets go of the broker and its clients.
    pub(crate) fn abandon(self) {
        let SharedBroker {
            mut supply,
            clients,
            outputs: _,
            now,
            alloc: _,
        } = self;
        clients.abandon(&mut supply, now);
        supply.abandon();
    }
}
