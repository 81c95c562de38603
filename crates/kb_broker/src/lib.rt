//! A broker of many tenants in one event loop, which speaks the Kafka protocol.
//!
//! [`Broker`] takes events: a connection opens, bytes come on it, it closes, time passes. What it sends on each connection is
//! taken from it. [`Broker::run`] takes a list of events and carries the isolation theorem; [`run_script`] reads the events
//! from a text, and [`run_script_on`] does so on a broker that is there. A connection greets and logs in (Kafka protocol guide,
//! "SASL Authentication Sequence"; RFC 4616); then it is served the requests of its tenant, over any store.
//!
//! The definitions that the contracts speak of are those of `kb_isolation_spec`, seen through `specs/`.
#![tactic(auto)]

mod able;
mod broker;
mod count;
mod deadline;
mod engine;
mod limits;
mod nodes;
mod opening;
mod parking;
mod promises;
mod run;
mod script;
mod serving;
mod speakers;

pub use broker::Broker;
pub use kb_settings::{Settings, User};
pub use kb_tenants::TenantView;
pub use limits::group_limits;
pub use opening::{Listing, OpenFault, OpenRefused, Opened, names_in_order, places_of_names};
pub use promises::{
    connections_are_in_the_view, limits_are_kept, listings_are_coherent, nobody_is_stranded,
    opened_alone_is_the_same,
};
pub use run::{Event, Written, run_both};
pub use script::{ScriptFault, run_script, run_script_on};
