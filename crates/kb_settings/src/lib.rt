//! The settings of a broker, whose types keep their limits.
//!
//! [`Settings::read`] reads them from a TOML text: exactly the values that the text spells, or its first wrong key.
//! [`Settings::standard`] are those of a broker that nobody has set up: two users of two tenants on `localhost`. The contracts
//! see settings as bytes and numbers, by `specs/Values.antt`, and a text by `specs/Document.antt`.
#![tactic(auto)]

mod address;
mod document;
mod endpoint;
mod fault;
mod limits;
mod metrics;
mod names;
mod read;
mod requests;
mod settings;
mod sync;
mod tenant_limits;
mod tenants;
mod users;

pub use address::is_endpoint;
pub use endpoint::Endpoint;
pub use fault::SettingsFault;
pub use metrics::MetricsSettings;
pub use names::tenant_names;
pub use requests::RequestLimits;
pub use settings::{Settings, User};
pub use sync::Sync;
pub use tenant_limits::{ConnectionLimits, DataLimits, GroupLimits, TenantLimits};
