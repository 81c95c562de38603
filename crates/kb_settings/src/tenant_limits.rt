//! How many connections a tenant may have, what its groups may take, what it may have, and what its clients are told.

ghost use Rattle.std.specs.Prelude.{◌≡◌, ◌≤◌, IfOk, IfSome, IsTrue, false, string_bytes};
ghost use Rattle.std.proofs.Props.{props};
ghost use Rattle.kb_settings.specs.Settings.{is_tenant};

use crate::endpoint::Endpoint;
use std::alloc::{AllocError, Global};

/// What a tenant's groups may take.
#[derive(Clone, Copy, Debug, PartialEq, Eq)]
pub struct GroupLimits {
    /// At most so many groups: up to 1,000.
    pub groups: u32,
    /// So many bytes of what they keep: 1,048,576 to 9,223,372,036,854,775,807. The texts of committed offsets may have as many again.
    pub bytes: u64,
}

impl GroupLimits {
    ghost use Rattle.kb_settings.specs.Limits.{standard_groups};

    /// Those of a tenant that no limits name: 1,000 groups, and 67,108,864 bytes.
    pub fn standard() -> GroupLimits
        ensures { result ≡ standard_groups }
    {
        GroupLimits {
            groups: 1000,
            bytes: 67_108_864,
        }
    }
}

/// What a tenant may have. None is no limit of its own.
#[derive(Clone, Copy, Debug, PartialEq, Eq)]
pub struct DataLimits {
    /// At most so many topics: up to 1,000.
    pub topics: Option<u64>,
    /// At most so many partitions of all its topics: up to 64,000.
    pub partitions: Option<u64>,
    /// At most so many committed offsets: up to 1,000,000.
    pub offsets: u64,
    /// So many bytes of its logs: 1,048,576 to 9,223,372,036,854,775,807.
    pub bytes: Option<u64>,
    /// So many bytes of records in a reply of Fetch: 65,536 to 8,388,608.
    pub fetch_bytes: Option<u64>,
}

impl DataLimits {
    ghost use Rattle.kb_settings.specs.Limits.{standard_data};

    /// Those of a tenant that no limits name: 1,000,000 committed offsets.
    pub fn standard() -> DataLimits
        ensures { result ≡ standard_data }
    {
        DataLimits {
            topics: None,
            partitions: None,
            offsets: 1_000_000,
            bytes: None,
            fetch_bytes: None,
        }
    }
}

/// What the settings say of a tenant.
#[derive(Drop)]
pub struct TenantLimits {
    /// The tenant's name: 1 to 64 of the characters `a-z A-Z 0-9 . _ -`. A user names it, and no other limits do.
    pub name: String,
    /// How many sockets the tenant has at most at a time: from 1.
    pub connections: u32,
    /// How many sockets are kept free for it: no more than it may have.
    pub reserved_connections: u32,
    /// What its groups may take.
    pub groups: GroupLimits,
    /// What it may have.
    pub data_limits: DataLimits,
    /// What its clients are told to connect to, where it is another host or port than the broker's.
    pub advertise: Option<Endpoint>,
    pub ghost name_fits: { IsTrue (is_tenant (string_bytes name)) },
    pub ghost connections_fit: { (1 ≤ connections) × (connections ≤ 1000000) },
    pub ghost reserved_fit: { reserved_connections ≤ connections },
    pub ghost groups_fit: { groups.groups ≤ 1000 },
    pub ghost group_bytes_fit: { (1048576 ≤ groups.bytes) × (groups.bytes ≤ 9223372036854775807) },
    pub ghost topics_fit: { IfSome data_limits.topics (λ n. n ≤ 1000) } by { Prim.hlevel props },
    pub ghost partitions_fit: { IfSome data_limits.partitions (λ n. n ≤ 64000) } by { Prim.hlevel props },
    pub ghost offsets_fit: { data_limits.offsets ≤ 1000000 },
    pub ghost bytes_fit: { IfSome data_limits.bytes (λ n. (1048576 ≤ n) × (n ≤ 9223372036854775807)) } by { Prim.hlevel props },
    pub ghost fetch_bytes_fit: { IfSome data_limits.fetch_bytes (λ n. (65536 ≤ n) × (n ≤ 8388608)) } by { Prim.hlevel props },
}

/// How many connections a tenant may have.
#[derive(Clone, Copy, Debug, PartialEq, Eq)]
pub struct ConnectionLimits {
    /// At most so many at a time.
    pub most: u32,
    /// So many are kept free for it.
    pub reserved: u32,
}
