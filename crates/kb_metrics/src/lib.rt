//! What the broker does, as text that Prometheus reads and as pages for people, without a socket.
//!
//! [`push_tenants`], [`push_partitions`], [`push_server`] and [`push_process`] write the text format 0.0.4: each number as `specs/` defines
//! it over a tenant's own state ([`TenantGauges`]) or over the numbers of the edge ([`ServerGauges`], [`ProcessGauges`]). A label's value
//! is read back from its text as it was, whatever bytes it has ([`label_values_are_read_back`]). What is said of a tenant is a function of
//! what is observed of it alone ([`lines_of_a_tenant_are_its_own`], [`rows_of_a_tenant_are_its_own`]). [`push_status`] and
//! [`push_tenant_status`] write HTML without scripts, in which no byte of a name begins a tag ([`names_begin_no_tag`]). [`Rates`] keeps the
//! bytes of each of the last 120 seconds.
//!
//! Rows are gathered from the state first (`gather`), and then written. What is written of a row stands in its `impl` of `Row`.
#![tactic(auto)]

mod causes;
mod families;
mod gather;
mod gauges;
mod lag;
mod laws;
mod limits;
mod markup;
mod overs;
mod pages;
mod rates;
mod row;
mod rows;
mod server;
mod status;
mod text;

pub use gauges::{TenantGauges, Traffic, push_partitions, push_tenants};
pub use laws::{label_values_are_read_back, lines_of_a_tenant_are_its_own, names_begin_no_tag};
pub use limits::Limits;
pub use pages::{push_status, push_tenant_status};
pub use rates::{Noted, PerSecond, Rates};
pub use server::{Closed, ProcessGauges, ServerGauges, push_process, push_server};
pub use text::{Figure, Kind, Label, Value, push_figures, push_number, push_sample};
