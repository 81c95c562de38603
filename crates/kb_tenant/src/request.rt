//! A request of a tenant.

use crate::fetch::WaitingFetch;

/// A request of a tenant: the number of the connection that it came on, the key of its API and the version, its correlation
/// id, and the body behind the header.
#[derive(Clone, Copy)]
pub struct Request<'a> {
    pub connection: u64,
    pub api_key: i16,
    pub api_version: i16,
    pub correlation_id: i32,
    pub body: &'a [u8],
}

/// A fetch that waits for its answer: its correlation id, the moment after which it waits no longer, and what was kept of it.
#[derive(Clone, Copy)]
pub struct Wait<'a> {
    pub correlation_id: i32,
    pub deadline: u64,
    pub fetch: &'a WaitingFetch,
}
