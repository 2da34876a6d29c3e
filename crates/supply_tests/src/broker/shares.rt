//! Shares by their texts.

use bytes::Bytes;
use conn_supply::{HoldingPlace, Supply};
use mqtt_packet::Text;
use mqtt_topic::Share;
use std::alloc::Global;

/// The share of this text.
pub(crate) fn share_of(alloc: Global, text: &str) -> Option<Share> {
    let bytes = Vec::from_slice(alloc, text.as_bytes()).ok()?;
    let text = Text::parse(Bytes::from_vec(bytes).ok()?)?;
    Share::parse(text).ok()
}

/// Binds these shares.
pub(crate) fn bind<P: HoldingPlace, S: Supply<P>>(
    alloc: Global,
    supply: &mut S,
    shares: &[&str],
) -> Option<()> {
    for text in shares {
        let _slot = supply.bind(share_of(alloc, *text)?).ok()?;
    }
    Some(())
}
