//! A transport that plays a script, for tests of what a connection may meet.
ghost use Rattle.std.specs.Prelude.{◌≡◌, ◌<◌, ◌≤◌, ◌-◌, ℕ, Option, Some, length, take, drop, IfOk};
ghost use Rattle.transport.specs.Counting.{MayGoOn, after_got, after_put, got_count};
ghost use Rattle.scripted_transport.specs.Scripts.{Script, new_script, played_read, played_write, read_answer, write_answer};
ghost use Rattle.transport.specs.Streams.{GivesWithin, TakesWithin, after_read, after_write};

use crate::turns::{ReadTurn, WriteTurn, next_turn, read_at, write_at};
use std::alloc::{AllocError, Global};
use std::marker::Model;
use transport::{Counts, Got, Put, Transport};

/// A transport whose peer sends these bytes, and whose calls answer as a script says, turn by turn. After its last turn a
/// read gives what is left and then the end, and a write takes what there is memory for and then fails.
#[derive(Drop)]
pub struct Scripted {
    input: Vec<u8>,
    given: usize,
    reads: Vec<ReadTurn>,
    reads_made: usize,
    writes: Vec<WriteTurn>,
    writes_made: usize,
    output: Vec<u8>,
    room: usize,
    counts: Counts,
}

impl Model for Scripted {
    ghost use Rattle.std.specs.Prelude.{◌+◌, ◌≤◌, length, vec_capacity};
    ghost use Rattle.scripted_transport.specs.Scripts.{Script};

    ghost Value = { Script };

    ghost view = { λ s. record {
      input = s.input.items;
      given = s.given;
      reads = s.reads.items;
      reads_made = s.reads_made;
      writes = s.writes.items;
      writes_made = s.writes_made;
      output = s.output.items;
      room = s.room;
      counts = s.counts;
    } };

    ghost invariant = { λ s. (s.given ≤ length s.input.items)
        × (length s.output.items + s.room ≤ vec_capacity s.output) };
}

impl Scripted {
    /// A script that was not played yet. Takes the memory for so many bytes of output.
    pub fn new(
        alloc: Global,
        input: Vec<u8>,
        reads: Vec<ReadTurn>,
        writes: Vec<WriteTurn>,
        room: usize,
    ) -> Result<Scripted, AllocError>
        ensures { IfOk result (λ scripted. scripted ≡ new_script input.items reads.items writes.items room) }
    {
        let output = Vec::with_capacity(alloc, room)?;
        Ok(Scripted {
            input,
            given: 0,
            reads,
            reads_made: 0,
            writes,
            writes_made: 0,
            output,
            room,
            counts: Counts::NONE,
        })
    }

    /// All that was taken.
    pub fn output(&self) -> &[u8]
        ensures { result.now ≡ self.now.output }
    {
        &self.output
    }
}

impl Transport for Scripted {
    ghost counts = { λ s. s.counts };

    ghost refusals = { λ s. s.writes_made };

    ghost given = { λ s. Some (take s.given s.input) };

    ghost accepted = { λ s. Some s.output };

    fn read(&mut self, buffer: &mut [u8]) -> Got
        requires goes_on { MayGoOn self.old.counts }
        requires room { 0 < length buffer.old }
        ensures within { GivesWithin result buffer.new }
        ensures given { Some (take self.new.given self.new.input) ≡ after_read (Some (take self.old.given self.old.input)) result buffer.new }
        ensures accepted { Some self.new.output ≡ Some self.old.output }
        ensures counts { self.new.counts ≡ after_got result self.old.counts }
        ensures refusals { self.old.writes_made ≤ self.new.writes_made }
        ensures answer { result ≡ read_answer self.old (length buffer.old) }
        ensures played { self.new ≡ played_read self.old result }
        ensures bytes { take (got_count result) buffer.new ≡ take (got_count result) (drop self.old.given self.old.input) }
    {
        let turn = next_turn(&self.reads, &mut self.reads_made);
        let got = read_at(turn, buffer.len(), self.input.len() - self.given);
        self.counts.count_got(got);
        if let Got::Bytes(count) = got {
            let end = self.given + count;
            buffer[..count].copy_from_slice(&self.input[self.given..end]);
            self.given = end;
        }
        got
    }

    fn write(&mut self, bytes: &[u8]) -> Put
        requires goes_on { MayGoOn self.old.counts }
        requires some { 0 < length bytes.now }
        ensures within { TakesWithin result bytes.now }
        ensures given { Some (take self.new.given self.new.input) ≡ Some (take self.old.given self.old.input) }
        ensures accepted { Some self.new.output ≡ after_write (Some self.old.output) result bytes.now }
        ensures counts { self.new.counts ≡ after_put result self.old.counts }
        ensures refusals { self.old.writes_made ≤ self.new.writes_made }
        ensures refused { result ≡ Put.Idle → self.old.writes_made < self.new.writes_made }
        ensures answer { result ≡ write_answer self.old (length bytes.now) }
        ensures played { self.new ≡ played_write self.old result bytes.now }
    {
        let turn = next_turn(&self.writes, &mut self.writes_made);
        let put = write_at(turn, bytes.len(), self.room);
        self.counts.count_put(put);
        if let Put::Wrote(count) = put {
            match self.output.extend_from_slice(&bytes[..count]) {
                Ok(()) => self.room -= count,
                Err(_) => unreachable!(),
            }
        }
        put
    }

    fn failures(&self) -> u64 {
        self.counts.failures
    }

    fn ends(&self) -> u64 {
        self.counts.ends
    }

    fn idles(&self) -> u64 {
        self.counts.idles
    }
}
