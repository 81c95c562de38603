//! How far a tenant's groups may grow.
ghost use Rattle.std.specs.Prelude.{◌≡◌};
ghost use Rattle.kb_coordinator.specs.Groups.{standard};

/// How many groups a tenant has at most, and how many bytes they keep.
#[derive(Clone, Copy)]
pub struct Limits {
    /// Groups that were joined.
    pub groups: u64,
    /// Bytes: each group's id and protocol type, and for each member its id, protocols and assignment.
    pub bytes: u64,
}

impl Limits {
    /// 1,000 groups, and 64 MiB.
    pub fn standard() -> Limits
        ensures { result ≡ standard }
    {
        Limits {
            groups: 1_000,
            bytes: 67_108_864,
        }
    }
}
