//! The limits of a tenant.

ghost use Rattle.std.specs.Prelude.{◌≡◌, ◌++◌, Some, map, OnOk};
ghost use Rattle.kb_metrics.specs.Limits.{each_limit, limit_row, limit_text, most_text};

use crate::row::Row;
use crate::text::{Label, push_behind};
use std::alloc::AllocError;

/// What a tenant may have. None is no limit.
#[derive(Clone, Copy, Debug, PartialEq, Eq)]
pub struct Limits {
    /// How many topics.
    pub topics: Option<u64>,
    /// How many partitions, of all its topics.
    pub partitions: Option<u64>,
    /// How many committed offsets: one a group and a partition.
    pub offsets: Option<u64>,
    /// How many bytes of batches, in all of its logs.
    pub bytes: Option<u64>,
    /// How many bytes of records a reply of Fetch has.
    pub fetch_bytes: Option<u64>,
    /// How many groups.
    pub groups: Option<u64>,
    /// How many bytes its groups take.
    pub group_bytes: Option<u64>,
}

/// A limit with what it is of; none where there is no limit.
#[derive(Clone, Copy)]
pub(crate) struct LimitRow {
    pub(crate) what: &'static str,
    pub(crate) most: Option<u64>,
}

/// A row for each limit.
#[tactic(auto, unfolding(crate::specs::Limits::each_limit))]
pub(crate) fn limit_rows(limits: &Limits) -> [LimitRow; 7]
    ensures { map limit_row result ≡ each_limit limits.now }
{
    [
        limit_row("topics", limits.topics),
        limit_row("partitions", limits.partitions),
        limit_row("offsets", limits.offsets),
        limit_row("bytes", limits.bytes),
        limit_row("fetch_bytes", limits.fetch_bytes),
        limit_row("groups", limits.groups),
        limit_row("group_bytes", limits.group_bytes),
    ]
}

fn limit_row(what: &'static str, most: Option<u64>) -> LimitRow
    ensures { limit_row result ≡ (what.now, most) }
{
    LimitRow { what, most }
}

/// A limit, where there is one.
impl<'b> Row<&'b [u8]> for LimitRow {
    ghost use Rattle.std.specs.Prelude.{List, Option, ℕ};

    ghost Seen = { List ℕ × Option ℕ };

    ghost seen = { limit_row };

    ghost text = { λ front. limit_text front.now };

    fn push(&self, out: &mut Vec<u8>, front: &'b [u8]) -> Result<(), AllocError> {
        match self.most {
            Some(most) => push_most(out, front, self.what, most),
            None => Ok(()),
        }
    }
}

/// Writes a limit.
fn push_most(out: &mut Vec<u8>, front: &[u8], what: &str, most: u64) -> Result<(), AllocError>
    ensures { OnOk result (out.new.items ≡ out.old.items ++ most_text front.now what.now (Some most)) }
{
    let more = [Label {
        name: "what",
        value: what.as_bytes(),
    }];
    push_behind(out, front, &more, most)
}
