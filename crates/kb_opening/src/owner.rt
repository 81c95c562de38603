//! Whose a file is.
ghost use Rattle.std.specs.Prelude.{◌≡◌, map};
ghost use Rattle.std.specs.List.Sorted.{IsStrictlySortedBy};
ghost use Rattle.std.specs.Ordering.{nat_cmp};
ghost use Rattle.std.specs.Cmp.Lexicographic.{slice_cmp};
ghost use Rattle.kb_batch.specs.Batch.{natural};
ghost use Rattle.kb_opening.specs.Owners.{owner_by, owner_of, owner_at, place_among};

use kb_segment::SegmentHeader;

/// The log that a file is of: a generation of a tenant's catalog, or one of its partitions. Tenants go by their places among the
/// names.
#[derive(Clone, Copy, PartialEq, Eq, PartialOrd, Ord)]
pub(crate) enum Owner {
    /// A generation of the tenant's catalog.
    Catalog {
        /// The tenant's place among the names.
        tenant: usize,
        /// The generation.
        generation: u64,
    },
    /// A partition of a topic.
    Partition {
        /// The tenant's place among the names.
        tenant: usize,
        /// The topic's instance.
        instance: u64,
        /// The partition's number in its topic.
        number: u64,
    },
}

/// Whose a file is, by the header that was read: nobody's where none is readable.
pub(crate) fn owner_by(names: &[&str], header: Option<SegmentHeader>) -> Option<Owner>
    requires { IsStrictlySortedBy (slice_cmp nat_cmp) (map (λ name. name.now) names.now) }
    ensures { result ≡ owner_by (map (λ name. name.now) names.now) header }
{
    owner_of(names, &header?)
}

/// Whose a file with this header is: nobody's where its tenant is not named.
fn owner_of(names: &[&str], header: &SegmentHeader) -> Option<Owner>
    requires { IsStrictlySortedBy (slice_cmp nat_cmp) (map (λ name. name.now) names.now) }
    ensures { result ≡ owner_of (map (λ name. name.now) names.now) header.now }
{
    let tenant = place_of(names, header.tenant())?;
    Some(owner_at(header, tenant))
}

/// The log of the tenant at a place that a header names.
fn owner_at(header: &SegmentHeader, tenant: usize) -> Owner
    ensures { result ≡ owner_at header.now tenant }
{
    if header.kind() != 0 {
        return Owner::Catalog {
            tenant,
            generation: natural(header.generation()),
        };
    }
    Owner::Partition {
        tenant,
        instance: natural(header.instance()),
        number: natural(i64::from(header.partition())),
    }
}

/// A number of a header, which is never negative.
fn natural(number: i64) -> u64
    ensures { result ≡ natural number }
{
    number.max(0) as u64
}

/// The place of a name among rising names, by halving.
fn place_of<'a>(names: &[&'a str], name: &'a str) -> Option<usize>
    requires { IsStrictlySortedBy (slice_cmp nat_cmp) (map (λ name. name.now) names.now) }
    ensures { result ≡ place_among name.now (map (λ name. name.now) names.now) }
{
    names.binary_search(&name).ok()
}
