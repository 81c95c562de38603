//! The refusals of a tenant, by cause.

ghost use Rattle.std.specs.Prelude.{◌≡◌, ◌++◌, map, OnOk};
ghost use Rattle.kb_metrics.specs.Causes.{cause_row, cause_text, each_cause};

use crate::row::Row;
use crate::text::{Label, push_behind};
use std::alloc::AllocError;

/// How many refusals have a cause.
#[derive(Clone, Copy)]
pub(crate) struct CauseRow {
    pub(crate) cause: &'static str,
    pub(crate) count: u64,
}

/// A row for each cause, of so many refusals of which so many are the store's.
#[tactic(auto, unfolding(crate::specs::Causes::each_cause))]
pub(crate) fn cause_rows(all: u64, store: u64) -> [CauseRow; 2]
    ensures { map cause_row result ≡ each_cause all store }
{
    [
        cause_row("memory", all.saturating_sub(store)),
        cause_row("store", store),
    ]
}

fn cause_row(cause: &'static str, count: u64) -> CauseRow
    ensures { cause_row result ≡ (cause.now, count) }
{
    CauseRow { cause, count }
}

/// How many refusals have a cause.
impl<'b> Row<&'b [u8]> for CauseRow {
    ghost use Rattle.std.specs.Prelude.{List, ℕ};

    ghost Seen = { List ℕ × ℕ };

    ghost seen = { cause_row };

    ghost text = { λ front. cause_text front.now };

    fn push(&self, out: &mut Vec<u8>, front: &'b [u8]) -> Result<(), AllocError> {
        let more = [Label {
            name: "cause",
            value: self.cause.as_bytes(),
        }];
        push_behind(out, front, &more, self.count)
    }
}
