//! One connection of a broker: its unread bytes, its untaken output, and how far it is.
//!
//! A [`Connection`] is fed pieces and takes turns: in each it reads the request in front (Kafka protocol guide, "Request
//! Header") and reacts. One that greets is served the versions and the SASL messages (Kafka protocol guide, "SASL Authentication
//! Sequence"; RFC 4616), by what is fixed in a [`Setup`], and after a handshake of version 0 takes the next frame for PLAIN's message
//! itself; of one that is bound to a tenant the tenant's requests are handed out,
//! and answered by the tenant's own answer to them. Where that is to wait, for records or for the request's group, the connection
//! keeps what it takes to answer and takes no turn until it is woken with a reply. A contract sees it as a line of `kb_isolation_spec`'s
//! worlds, so each call is a word of the one-tenant machine.
#![tactic(auto)]

mod connection;
mod greeting;
mod reaction;
mod reply;
mod request;
mod room;
mod setup;
mod stage;
mod tenant_node;
mod version;

pub use connection::Connection;
pub use greeting::Greeting;
pub use setup::{Account, Setup};
pub use stage::{Awaited, Phase, Waiting};
pub use tenant_node::TenantNode;
