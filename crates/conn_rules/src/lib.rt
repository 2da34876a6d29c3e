//! What a connection answers by itself: rules of MQTT 5.0 and of this broker that ask no session, no routes and no group.
//!
//! ```
//! match answer_to_first(&packet) {
//!     FirstAnswer::Attach => {} // a CONNECT that may open the connection: the client's session is looked for
//!     FirstAnswer::Refuse(refusal) => {} // the CONNACK with which the connection is closed
//!     FirstAnswer::Close => {} // it is closed with no answer
//! }
//! ```
#![tactic(auto)]

mod acknowledging;
mod client_limits;
mod connecting;
mod expiring;
mod faults;
mod hand_outs;
mod keep_alive;
mod packets;
mod publishing;
mod setup;
mod subscribing;
mod terms;

pub use acknowledging::fate_of;
pub use client_limits::{ClientLimits, ExpiryLimit, KeepAliveLimit, MaxInflight};
pub use connecting::{FirstAnswer, answer_to_connect, answer_to_first, client_rights, offer};
pub use expiring::{interval_left, is_expired};
pub use faults::{fault_code, fault_refusal};
pub use hand_outs::{HandOutTerms, is_discarded, is_message_too_long};
pub use keep_alive::{CONNECT_TIMEOUT, is_late, is_overdue, longest_silence};
pub use packets::{accepting, disconnect, job, message_of, puback, refusing, suback, unsuback};
pub use publishing::{PublishAnswer, answer_to_publish, closing_code, puback_code};
pub use setup::{QueueCapacity, Setup};
pub use subscribing::{EntryAnswer, answer_to_entry, subscribe_refusal, unsubscribe_refusal};
pub use terms::{Overrides, Terms, overrides_of, terms_of};
