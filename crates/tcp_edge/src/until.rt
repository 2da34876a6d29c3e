//! A source that ends once a flag is set.
ghost use Rattle.std.specs.Prelude.{◌≡◌};
ghost use Rattle.transport.specs.Counting.{ComesNew, MayCome, after_arrival, after_came};

use std::marker::Model;
use std::sync::atomic::{AtomicBool, Ordering};
use transport::{Arrival, Source, Transport};

/// A source that gives what another one gives, until a flag that threads share is set: it has ended from then on, and asks no more.
///
/// Contracts see it as the source below.
#[derive(Drop)]
pub struct Until<'a, S> {
    source: S,
    ends: &'a AtomicBool,
}

impl<'a, S> Model for Until<'a, S> {
    ghost Value = { S };

    ghost view = { λ u. u.source };
}

impl<'a, S> Until<'a, S> {
    /// A source that ends once this flag is set.
    pub fn new(source: S, ends: &'a AtomicBool) -> Until<'a, S>
        ensures { result ≡ source }
    {
        Until { source, ends }
    }

    /// The source below.
    pub fn into_source(self) -> S
        ensures { result ≡ self.entry }
    {
        self.source
    }
}

impl<'a, T: Transport, S: Source<T>> Source<T> for Until<'a, S> {
    ghost tally = { λ s. S.tally s };

    ghost arrived = { λ s. S.arrived s };

    fn next(&mut self) -> Arrival<T>
        requires { MayCome (S.tally self.old) }
        ensures tally { S.tally self.new ≡ after_arrival result (S.tally self.old) }
        ensures arrived { S.arrived self.new ≡ after_came result (S.arrived self.old) }
        ensures new { ComesNew T.counts result }
    {
        if self.ends.load(Ordering::SeqCst) {
            Arrival::End
        } else {
            self.source.next()
        }
    }

    fn failures(&self) -> u64 {
        self.source.failures()
    }

    fn arrivals(&self) -> u64 {
        self.source.arrivals()
    }
}

impl<'a, S: mio::event::Source> mio::event::Source for Until<'a, S> {
    ghost keeps = { S.keeps };

    fn register(
        &mut self,
        registry: &mio::Registry,
        token: mio::Token,
        interests: mio::Interest,
    ) -> std::io::Result<()> {
        self.source.register(registry, token, interests)
    }

    fn reregister(
        &mut self,
        registry: &mio::Registry,
        token: mio::Token,
        interests: mio::Interest,
    ) -> std::io::Result<()> {
        self.source.reregister(registry, token, interests)
    }

    fn deregister(&mut self, registry: &mio::Registry) -> std::io::Result<()> {
        self.source.deregister(registry)
    }
}
