//! A fetch that waits, with all that a look at it needs.
ghost use Rattle.std.specs.Prelude.{◌≡◌, IfOk};
ghost use Rattle.kb_api_data.specs.Layouts.{fetch_request};
ghost use Rattle.kb_tenant.specs.FetchWait.{FetchWait, AsksWithin};

use crate::fetch::asked::AskedFetch;
use std::alloc::{AllocError, Global};
use std::marker::Model;

/// A fetch that waits, as it was read: its version, the body behind its header, and how many bytes of records its reply has at most.
///
/// What the body asks within that limit is kept beside it, so a look reads nothing of the request again.
#[derive(Drop)]
pub struct WaitingFetch {
    version: i16,
    body: Vec<u8>,
    limit: Option<u64>,
    asked: AskedFetch,
}

impl Model for WaitingFetch {
    ghost use Rattle.kb_tenant.specs.FetchWait.{FetchWait, AsksWithin};

    ghost Value = { FetchWait };

    ghost view = { λ f. record { version = f.version; body = f.body.items; limit = f.limit } };

    ghost invariant = { λ f. AsksWithin (record { version = f.version; body = f.body.items; limit = f.limit }) f.asked };
}

impl WaitingFetch {
    /// A fetch whose body, which is copied, asks that within that limit. None is no limit.
    pub(crate) fn new(
        alloc: Global,
        version: i16,
        body: &[u8],
        limit: Option<u64>,
        asked: AskedFetch,
    ) -> Result<WaitingFetch, AllocError>
        requires { AsksWithin (record { version = version; body = body.now; limit = limit }) asked }
        ensures { IfOk result (λ fetch. fetch ≡ record { version = version; body = body.now; limit = limit }) }
    {
        Ok(WaitingFetch {
            version,
            body: Vec::from_slice(alloc, body)?,
            limit,
            asked,
        })
    }

    /// Its version.
    pub fn version(&self) -> i16
        ensures { result ≡ self.now.version }
    {
        self.version
    }

    /// What its body asks, within its limit.
    pub(crate) fn asked(&self) -> &AskedFetch
        ensures asked { AsksWithin self.now result.now }
        ensures fits { fetch_request.Fits result.now }
    {
        &self.asked
    }
}
