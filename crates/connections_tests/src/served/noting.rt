//! A transport that notes what is asked of the one below it.
ghost use Rattle.std.specs.Prelude.{◌≡◌};

use transport::{Got, Put, Transport};

/// A transport, how often it was read, and how many bytes one write was given at most.
#[derive(Drop)]
pub(crate) struct Noting<T> {
    pub(crate) inner: T,
    pub(crate) reads: u32,
    pub(crate) most: usize,
}

impl<T> Noting<T> {
    /// One of which nothing was asked yet.
    pub(crate) fn over(inner: T) -> Noting<T>
        ensures { result.inner ≡ inner }
    {
        Noting {
            inner,
            reads: 0,
            most: 0,
        }
    }
}

impl<T: Transport> Transport for Noting<T> {
    ghost counts = { λ n. T.counts n.inner };

    ghost refusals = { λ n. T.refusals n.inner };

    ghost given = { λ n. T.given n.inner };

    ghost accepted = { λ n. T.accepted n.inner };

    fn read(&mut self, buffer: &mut [u8]) -> Got {
        self.reads = self.reads.saturating_add(1);
        self.inner.read(buffer)
    }

    fn write(&mut self, bytes: &[u8]) -> Put {
        self.most = self.most.max(bytes.len());
        self.inner.write(bytes)
    }

    fn failures(&self) -> u64 {
        self.inner.failures()
    }

    fn ends(&self) -> u64 {
        self.inner.ends()
    }

    fn idles(&self) -> u64 {
        self.inner.idles()
    }
}
