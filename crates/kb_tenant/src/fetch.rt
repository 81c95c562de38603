//! Fetch, versions 4 to 9 (Kafka protocol guide): records from offsets on, at once or once there are enough.

mod asked;
mod given;
mod now;
mod partition;
mod version;
mod waiting;
mod waiting_fetch;
mod waits;

pub(crate) use asked::{AskedFetch, AskedTopic};
pub(crate) use given::not_negative;
pub(crate) use version::{Asked, begin_reply, has_starts, read_request_within};
pub(crate) use waiting::{Fetching, look, serve_fetch};
pub use waiting_fetch::WaitingFetch;
