//! What a connection asks of sessions, routes and groups, and what it does with them for its client.
//!
//! It asks them of a [`Supply`], which one thread or many may stand behind. With a supply it takes a PUBLISH, a SUBSCRIBE, an
//! UNSUBSCRIBE and a PUBACK of its client, each by one call, and hands out to it what is due. There is no clock, socket or thread
//! in it, and it does not know which packet comes when.
//!
//! ```
//! let reply = publish(&mut supply, alloc, number, packet)?; // to each group that matches, and a PUBACK
//! acknowledge(&mut supply, &mut session, identifier, code); // the message under this identifier is settled
//! hand_out(&mut supply, &mut session.membership, &mut session.window, &mut packets)?; // what waits, and then what is fresh
//! ```
#![tactic(auto)]

mod acknowledging;
mod hand_outs;
mod publishing;
mod reply;
mod subscribing;
mod supply;

pub use acknowledging::acknowledge;
pub use hand_outs::hand_out;
pub use publishing::publish;
pub use reply::{Reply, Then};
pub use subscribing::{subscribe, unsubscribe};
pub use supply::{BindRefusal, HoldingPlace, NoMemory, OfferRefusal, Supply};
