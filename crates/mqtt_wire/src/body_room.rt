//! The bytes that the body of a packet gets when it is taken off a stream.

ghost use Rattle.std.specs.Prelude.{◌≡◌, ◌≤◌, take, drop, length, IsSome, IfSome, IfOk, OnOk, OnErr};

use crate::header::FixedHeader;
use crate::kind::Kind;
use bytes::{Bytes, BytesMut};
use std::alloc::{AllocError, Global};

/// How many bytes small bodies share, one after the other.
const BLOCK: usize = 512;

/// How many bytes a small body has at most.
const SMALL: usize = 128;

/// Where the bodies of a stream's packets get their bytes.
///
/// What is kept of a packet shares the bytes of its body, and may wait long. So a body of which something may be kept shares the bytes of the
/// stream only where it is at least half of the stream's buffer. Else it is copied: a small one into a block of 512 bytes, which it shares
/// with the small bodies before and after it, and a larger one into bytes of its own.
#[derive(Drop)]
pub(crate) struct BodyRoom {
    alloc: Global,
    // The most bytes that the stream's buffer had room for.
    stream_room: usize,
    // What is left of the block of small bodies.
    block: BytesMut,
}

impl BodyRoom {
    /// Room for the bodies of a stream whose buffer has none yet.
    pub(crate) fn new(alloc: Global) -> BodyRoom {
        BodyRoom {
            alloc,
            stream_room: 0,
            block: BytesMut::new(alloc),
        }
    }

    /// The stream's buffer has room for so many bytes.
    pub(crate) fn note(&mut self, stream_room: usize) {
        self.stream_room = self.stream_room.max(stream_room);
    }

    /// Takes the body of a packet of this kind off the stream: so many bytes. An `Err` changes nothing of the stream.
    pub(crate) fn take(
        &mut self,
        kind: Kind,
        size: usize,
        stream: &mut BytesMut,
    ) -> Result<Bytes, AllocError>
        requires { size ≤ length stream.old.items }
        ensures body { IfOk result (λ body. body ≡ take size stream.old.items) }
        ensures rest { OnOk result (stream.new.items ≡ drop size stream.old.items) }
        ensures same { OnErr result (stream.new.items ≡ stream.old.items) }
    {
        if !self.copies(kind, size) {
            return stream.freeze_to(size);
        }
        let body = self.copy(&stream.as_slice()[..size])?;
        stream.advance(size);
        Ok(body)
    }

    /// A copy of a small body that stands in front of these bytes, after its header; `None` where it is not whole, is not small, or is not to be
    /// copied, and where memory is refused.
    pub(crate) fn copy_small(&mut self, header: FixedHeader, bytes: &[u8]) -> Option<Bytes>
        ensures whole { IsSome result → header.remaining ≤ length bytes.now }
        ensures body { IfSome result (λ body. body ≡ take header.remaining bytes.now) }
    {
        let FixedHeader { kind, remaining } = header;
        if bytes.len() < remaining || remaining > SMALL || !self.copies(kind, remaining) {
            return None;
        }
        self.copy(&bytes[..remaining]).ok()
    }

    /// Whether the body of a packet of this kind and size gets a copy.
    fn copies(&self, kind: Kind, size: usize) -> bool {
        size < self.stream_room / 2 && may_be_kept(kind)
    }

    /// A copy of these bytes.
    #[inline(always)]
    fn copy(&mut self, bytes: &[u8]) -> Result<Bytes, AllocError>
        ensures { IfOk result (λ body. body ≡ bytes.now) }
    {
        if bytes.len() > SMALL {
            return Bytes::copy_from_slice(self.alloc, bytes);
        }
        self.block.clear();
        if self.block.capacity() < bytes.len() {
            self.block = BytesMut::with_capacity(self.alloc, BLOCK)?;
        }
        self.block.extend_reserved(bytes);
        self.block.freeze_to(bytes.len())
    }
}

/// Whether a text or a payload of such a packet may be kept: an identifier, a filter, a message.
fn may_be_kept(kind: Kind) -> bool {
    matches!(kind, Kind::Connect | Kind::Publish(_) | Kind::Subscribe)
}
