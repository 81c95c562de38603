//! What a fetch asks, in memory of its own. A clause sees it as the request of version 4.
ghost use Rattle.std.specs.Prelude.{◌≡◌, IfOk};
ghost use Rattle.kb_api_data.specs.Layouts.{fetch_request};
ghost use Rattle.kb_tenant.specs.Fetch.{bounded, lesser};

use kb_api_data::FetchPartition;
use kb_wire::Array;
use std::alloc::{AllocError, Global};
use std::marker::Model;

/// A topic that a fetch asks for.
#[derive(Drop)]
pub(crate) struct AskedTopic {
    name: String,
    partitions: Array<FetchPartition>,
}

impl Model for AskedTopic {
    ghost use Rattle.std.specs.String.{string_bytes};
    ghost use Rattle.kb_api_data.specs.declared.fetch.FetchTopic.{FetchTopic};

    ghost Value = { FetchTopic };

    ghost view = { λ t. record { topic = string_bytes t.name; partitions = t.partitions } };
}

impl AskedTopic {
    /// A topic of a name, which is copied, with these entries.
    pub(crate) fn new(
        alloc: Global,
        name: &str,
        partitions: Array<FetchPartition>,
    ) -> Result<AskedTopic, AllocError>
        ensures { IfOk result (λ t. t ≡ record { topic = name.now; partitions = partitions }) }
    {
        Ok(AskedTopic {
            name: String::from_str(alloc, name)?,
            partitions,
        })
    }

    /// Its name.
    pub(crate) fn name(&self) -> &str
        ensures { result.now ≡ self.now.topic }
    {
        self.name.as_str()
    }

    /// Its entries.
    pub(crate) fn partitions(&self) -> &[FetchPartition]
        ensures { result.now ≡ self.now.partitions }
    {
        self.partitions.as_slice()
    }
}

/// What a fetch asks.
#[derive(Drop)]
pub(crate) struct AskedFetch {
    pub(crate) replica_id: i32,
    pub(crate) max_wait_ms: i32,
    pub(crate) min_bytes: i32,
    pub(crate) max_bytes: i32,
    pub(crate) isolation_level: i8,
    pub(crate) topics: Array<AskedTopic>,
}

impl Model for AskedFetch {
    ghost use Rattle.kb_api_data.specs.declared.fetch.FetchRequest.{FetchRequest};

    ghost Value = { FetchRequest };

    ghost view = { λ f. record {
      replica_id = f.replica_id;
      max_wait_ms = f.max_wait_ms;
      min_bytes = f.min_bytes;
      max_bytes = f.max_bytes;
      isolation_level = f.isolation_level;
      topics = f.topics;
    } };
}

/// The lesser of a number and a limit. None is no limit.
fn lesser(n: i32, limit: Option<u64>) -> i32
    ensures { result ≡ lesser n limit }
{
    match limit {
        Some(limit) => n.min(limit.min(i32::MAX as u64) as i32),
        None => n,
    }
}

impl AskedFetch {
    /// How long it waits at most, in milliseconds. A time below 0 counts as 0.
    pub(crate) fn max_wait_ms(&self) -> i32
        ensures { result ≡ self.now.max_wait_ms }
    {
        self.max_wait_ms
    }

    /// How many bytes of records it waits for. A number below 0 counts as 0.
    pub(crate) fn min_bytes(&self) -> i32
        ensures { result ≡ self.now.min_bytes }
    {
        self.min_bytes
    }

    /// How many bytes of records its whole reply has at most. A number below 0 counts as 0.
    pub(crate) fn max_bytes(&self) -> i32
        ensures { result ≡ self.now.max_bytes }
    {
        self.max_bytes
    }

    /// Its topics.
    pub(crate) fn topics(&self) -> &[AskedTopic]
        ensures { result.now ≡ self.now.topics }
    {
        self.topics.as_slice()
    }

    /// Bounds it: its whole reply has at most so many bytes of records. None is no limit.
    pub(crate) fn bound(&mut self, limit: Option<u64>)
        ensures exact { self.new ≡ bounded limit self.old }
        ensures fits { fetch_request.Fits self.old → fetch_request.Fits self.new }
    {
        self.max_bytes = lesser(self.max_bytes, limit);
    }
}
