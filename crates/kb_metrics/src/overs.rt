//! How often a tenant was told that it is past a limit, by what is limited.

ghost use Rattle.std.specs.Prelude.{◌≡◌, ◌++◌, map, OnOk};
ghost use Rattle.kb_metrics.specs.Overs.{each_over, over_row, over_text};

use crate::row::Row;
use crate::text::{Label, push_behind};
use kb_over_limit::OverLimit;
use std::alloc::AllocError;

/// How often a limit was passed.
#[derive(Clone, Copy)]
pub(crate) struct OverRow {
    pub(crate) what: &'static str,
    pub(crate) count: u64,
}

/// A row for each limit.
#[tactic(auto, unfolding(crate::specs::Overs::each_over))]
pub(crate) fn over_rows(over: OverLimit) -> [OverRow; 6]
    ensures { map over_row result ≡ each_over over }
{
    [
        over_row("topics", over.topics),
        over_row("partitions", over.partitions),
        over_row("offsets", over.offsets),
        over_row("bytes", over.bytes),
        over_row("groups", over.groups),
        over_row("group_bytes", over.group_bytes),
    ]
}

fn over_row(what: &'static str, count: u64) -> OverRow
    ensures { over_row result ≡ (what.now, count) }
{
    OverRow { what, count }
}

/// How often a limit was passed.
impl<'b> Row<&'b [u8]> for OverRow {
    ghost use Rattle.std.specs.Prelude.{List, ℕ};

    ghost Seen = { List ℕ × ℕ };

    ghost seen = { over_row };

    ghost text = { λ front. over_text front.now };

    fn push(&self, out: &mut Vec<u8>, front: &'b [u8]) -> Result<(), AllocError> {
        let more = [Label {
            name: "what",
            value: self.what.as_bytes(),
        }];
        push_behind(out, front, &more, self.count)
    }
}
