//! The shares that a broker has bound.
ghost use Rattle.std.specs.Prelude.{◌≡◌, All, take, IfOk, OnOk};
ghost use Rattle.shared_routes.specs.Known.{Grows};
ghost use Rattle.threaded_broker.specs.Shares.{IsBoundIn};

use bytes::Bytes;
use conn_supply::NoMemory;
use mqtt_packet::Text;
use mqtt_topic::Share;
use shared_routes::{BindError, KnownRoutes};
use std::alloc::Global;

/// Declares shares: binds each to the least slot that is free; where none is, those that are left are not bound.
pub(crate) fn declare_all(
    alloc: Global,
    known: &mut KnownRoutes<'_>,
    shares: &[Share],
) -> Result<(), NoMemory>
    ensures grows { Grows known.old known.new }
    ensures bound { OnOk result (All (IsBoundIn known.new.shares) shares.now) }
{
    match shares {
        [] => Ok(()),
        [share, others @ ..] => {
            let copy = copy_of(alloc, share)?;
            declare(alloc, known, copy)?;
            declare_all(alloc, known, others)
        }
    }
}

/// Declares a share, where a slot is free.
fn declare(alloc: Global, known: &mut KnownRoutes<'_>, share: Share) -> Result<(), NoMemory>
    ensures grows { Grows known.old known.new }
    ensures bound { OnOk result (IsBoundIn known.new.shares share) }
{
    match known.declare(alloc, share) {
        Ok(_) => Ok(()),
        Err(BindError::NoSlot) => Ok(()),
        Err(BindError::Memory) => Err(NoMemory),
        Err(BindError::NotDeclared) => unreachable!(),
    }
}

/// Copies of the shares that are bound, in the order of their slots.
pub(crate) fn copy_all(alloc: Global, known: &KnownRoutes<'_>) -> Result<Vec<Share>, NoMemory>
    ensures { IfOk result (λ shares. shares.items ≡ take 8 known.now.shares) }
{
    let mut shares = Vec::new(alloc);
    for slot in 0..8u8 {
        if let Some(share) = known.share(slot) {
            shares.push(copy_of(alloc, share)?)?;
        }
    }
    Ok(shares)
}

/// A copy of a share.
fn copy_of(alloc: Global, share: &Share) -> Result<Share, NoMemory>
    ensures { IfOk result (λ copy. copy ≡ share.now) }
{
    let text = Bytes::copy_from_slice(alloc, share.text())?;
    match Text::parse(text) {
        Some(text) => Share::parse(text).map_err(|_| NoMemory),
        None => Err(NoMemory),
    }
}
