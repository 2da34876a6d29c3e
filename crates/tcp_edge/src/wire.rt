//! A stream of bytes as the system has it, and what its calls come to.
ghost use Rattle.std.specs.Prelude.{◌≡◌, ◌<◌, List, Option, None, length, ℕ};
ghost use Rattle.tcp_edge.specs.declared.wire.IoOutcome.{IoOutcome};
ghost use Rattle.tcp_edge.specs.Outcomes.{CountsWithin, outcome_of, passed_on};

use mio::net::TcpStream;
use std::io;
use std::io::{ErrorKind, Read, Write};

/// What a call of a stream that never waits comes to.
#[derive(Clone, Copy, Debug, PartialEq, Eq)]
pub enum IoOutcome {
    /// So many bytes came or went.
    Count(usize),
    /// None may come or go by now.
    NotNow,
    /// The stream failed.
    Broken,
}

/// A stream of bytes to a peer and one from it, of which no call waits.
pub trait Wire {
    /// All that came, where that is known.
    ghost came: { Self → Option (List ℕ) } = { λ _. None };

    /// All that went, where that is known.
    ghost went: { Self → Option (List ℕ) } = { λ _. None };

    /// Holds of a wire before and after a call that receives, and what that came to.
    ghost receives: { Self → IoOutcome → Self → Type 0 };

    /// Holds of a wire before and after a call that sends, and what that came to.
    ghost sends: { Self → IoOutcome → Self → Type 0 };

    /// Takes what came, at the front of the buffer. Of a buffer with room none is the end of the stream.
    fn receive(&mut self, buffer: &mut [u8]) -> IoOutcome
        ensures within { CountsWithin result buffer.new }
        ensures came { came self.new ≡ passed_on (came self.old) result buffer.new }
        ensures went { went self.new ≡ went self.old }
        ensures receives { receives self.old result self.new };

    /// Sends bytes off the front.
    fn send(&mut self, bytes: &[u8]) -> IoOutcome
        ensures within { CountsWithin result bytes.now }
        ensures came { came self.new ≡ came self.old }
        ensures went { went self.new ≡ passed_on (went self.old) result bytes.now }
        ensures sends { sends self.old result self.new };
}

/// What an answer of the system's means: an interrupted call may be made again later, as one that would wait.
pub(crate) fn came_to(answer: io::Result<usize>) -> IoOutcome
    ensures { result ≡ outcome_of answer }
{
    match answer {
        Ok(count) => IoOutcome::Count(count),
        Err(e) => match e.kind() {
            ErrorKind::WouldBlock => IoOutcome::NotNow,
            ErrorKind::Interrupted => IoOutcome::NotNow,
            _ => IoOutcome::Broken,
        },
    }
}

impl Wire for TcpStream {
    ghost use Rattle.std.specs.Prelude.{◌≡◌, refl};

    ghost receives = { λ old _ new. new ≡ old };

    ghost sends = { λ old _ new. new ≡ old };

    fn receive(&mut self, buffer: &mut [u8]) -> IoOutcome {
        came_to(self.read(buffer))
    }

    fn send(&mut self, bytes: &[u8]) -> IoOutcome {
        came_to(self.write(bytes))
    }
}
