//! How many connections there are of each address.
use indexmap::IndexMap;
use std::alloc::Global;
use std::net::IpAddr;
use std::sync::Arc;

/// So many addresses are kept at most before those are looked for that have no connection any more: more than there are connections.
const MOST_KEPT: usize = 2_048;

/// What a connection has of its address as long as it is there: it is counted by its owners.
pub(crate) type Claim = Arc<(), Global>;

/// The addresses that have connections, and how many of them each may have at once.
#[derive(Drop)]
pub(crate) struct Addresses {
    alloc: Global,
    most: usize,
    // Beside those of its connections there is one owner here.
    claims: IndexMap<IpAddr, Claim>,
}

impl Addresses {
    /// None has a connection, and each may have so many.
    pub(crate) fn new(alloc: Global, most: usize) -> Addresses {
        Addresses {
            alloc,
            most,
            claims: IndexMap::new(alloc),
        }
    }

    /// What one more connection from an address has of it; `None` where it has as many as it may, or an allocation fails.
    pub(crate) fn claim(&mut self, address: IpAddr) -> Option<Claim> {
        if let Some(claim) = self.claims.get(&address) {
            return another(claim, self.most);
        }
        if self.claims.len() >= MOST_KEPT {
            self.claims.retain(|_, claim| Arc::strong_count(claim) > 1);
        }
        let first = Arc::new(self.alloc, ()).ok()?;
        let claim = another(&first, self.most)?;
        self.claims.insert(address, first).ok()?;
        Some(claim)
    }
}

/// One more claim on an address of which this is one that no connection has; `None` where there are as many as there may be.
fn another(claim: &Claim, most: usize) -> Option<Claim> {
    if Arc::strong_count(claim) > most {
        return None;
    }
    claim.clone().ok()
}
