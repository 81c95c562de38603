//! What a request waits for.
ghost use Rattle.std.specs.Prelude.{◌≡◌};

use std::alloc::AllocError;
use std::cmp::Ordering;
use std::marker::Model;

/// The id of a consumer group: its bytes.
#[derive(Debug, Drop)]
pub struct GroupId {
    bytes: Vec<u8>,
}

impl Model for GroupId {
    ghost use Rattle.std.specs.Prelude.{ℕ, List};

    ghost Value = { List ℕ };

    ghost view = { λ g. g.bytes.items };
}

impl GroupId {
    /// The id of these bytes. Takes no memory.
    pub fn new(bytes: Vec<u8>) -> Self
        ensures { result ≡ bytes.items }
    {
        GroupId { bytes }
    }

    /// The id's bytes.
    pub fn as_slice(&self) -> &[u8]
        ensures { result.now ≡ self.now }
    {
        self.bytes.as_slice()
    }
}

impl Clone for GroupId {
    ghost use Rattle.std.specs.Prelude.{◌≡◌};

    ghost is_clone = { λ a b. b ≡ a };

    fn clone(&self) -> Result<GroupId, AllocError> {
        let bytes = Vec::from_slice(*self.bytes.allocator(), self.bytes.as_slice())?;
        Ok(GroupId { bytes })
    }
}

impl PartialEq for GroupId {
    ghost use Rattle.std.specs.Prelude.{nat_eq};
    ghost use Rattle.std.specs.Cmp.{partial_equiv_from_equiv};
    ghost use Rattle.std.specs.Cmp.Lexicographic.{pointwise, nat_list_eq_equiv};

    ghost eq = { pointwise nat_eq };

    ghost laws = { partial_equiv_from_equiv nat_list_eq_equiv };

    fn eq(&self, other: &GroupId) -> bool {
        self.bytes == other.bytes
    }
}

impl Eq for GroupId {
    ghost use Rattle.std.specs.Cmp.Lexicographic.{nat_list_eq_equiv};

    ghost laws = { nat_list_eq_equiv };
}

impl PartialOrd for GroupId {
    ghost use Rattle.std.specs.Prelude.{Some};
    ghost use Rattle.std.specs.Cmp.Lexicographic.{slice_cmp, texts_po};
    ghost use Rattle.std.specs.Ordering.{nat_cmp};

    ghost partial_cmp = { λ x y. Some (slice_cmp nat_cmp x y) };

    ghost laws = { texts_po };

    fn partial_cmp(&self, other: &GroupId) -> Option<Ordering> {
        Some(self.cmp(other))
    }
}

impl Ord for GroupId {
    ghost use Rattle.std.specs.Prelude.{refl};
    ghost use Rattle.std.specs.Cmp.Lexicographic.{slice_cmp, nat_list_cmp_total, texts_ties};
    ghost use Rattle.std.specs.Ordering.{nat_cmp};

    ghost cmp = { slice_cmp nat_cmp };

    ghost total = { nat_list_cmp_total };

    ghost matches_partial_cmp = { λ x y. refl };

    ghost matches_eq = { texts_ties };

    fn cmp(&self, other: &GroupId) -> Ordering {
        self.bytes.cmp(&other.bytes)
    }
}

/// What a request waits for: a change of one partition, of one group, or of anything of one tenant.
///
/// A group's key owns its id's bytes; the others take no memory.
#[derive(PartialEq, Eq, PartialOrd, Ord, Debug, Drop)]
pub enum WaitKey {
    /// A partition of a topic.
    Partition {
        /// The tenant's number in byte order of the tenants' names.
        tenant: usize,
        /// The instance of the topic.
        instance: u64,
        /// The partition's index.
        partition: usize,
    },
    /// A consumer group.
    Group {
        /// The tenant's number in byte order of the tenants' names.
        tenant: usize,
        /// The group's id.
        group: GroupId,
    },
    /// Anything of a tenant.
    Tenant {
        /// The tenant's number in byte order of the tenants' names.
        tenant: usize,
    },
}

impl Clone for WaitKey {
    ghost use Rattle.std.specs.Prelude.{◌≡◌};

    ghost is_clone = { λ a b. b ≡ a };

    fn clone(&self) -> Result<WaitKey, AllocError> {
        match self {
            WaitKey::Partition {
                tenant,
                instance,
                partition,
            } => Ok(WaitKey::Partition {
                tenant: *tenant,
                instance: *instance,
                partition: *partition,
            }),
            WaitKey::Group { tenant, group } => Ok(WaitKey::Group {
                tenant: *tenant,
                group: group.clone()?,
            }),
            WaitKey::Tenant { tenant } => Ok(WaitKey::Tenant { tenant: *tenant }),
        }
    }
}
