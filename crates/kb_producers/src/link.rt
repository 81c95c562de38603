//! What the table has of a batch.
ghost use Rattle.std.specs.Prelude.{◌≡◌, int_le};

use crate::judge::last_sequence;
use crate::kept::Kept;

/// What is kept of a batch, but for the last sequence, which the others tell, and where its producer's batch before it stands.
///
/// It has 32 bytes.
#[derive(Clone, Copy)]
pub struct Link {
    pub producer_id: i64,
    pub base_offset: i64,
    pub base_sequence: i32,
    pub record_count: u32,
    /// How many places in front of it the producer's batch before it stands. It leads in front of the list where there was none, or where
    /// that is gone.
    pub before: u32,
    pub producer_epoch: i16,
}

impl Link {
    ghost use Rattle.kb_producers.specs.Table.{kept_from, end_of};
    ghost use Rattle.kb_producers.specs.Verdict.{last_sequence};

    /// The link of a batch, which leads back so far.
    pub fn of(batch: Kept, before: u32) -> Link
        requires { batch.last_sequence ≡ last_sequence batch.base_sequence batch.record_count }
        ensures kept { kept_from result ≡ batch }
        ensures before { result.before ≡ before }
    {
        Link {
            producer_id: batch.producer_id,
            base_offset: batch.base_offset,
            base_sequence: batch.base_sequence,
            record_count: batch.record_count,
            before,
            producer_epoch: batch.producer_epoch,
        }
    }

    /// What is kept of its batch.
    pub fn kept(&self) -> Kept
        ensures { result ≡ kept_from self.now }
    {
        Kept {
            producer_id: self.producer_id,
            producer_epoch: self.producer_epoch,
            base_sequence: self.base_sequence,
            last_sequence: last_sequence(self.base_sequence, self.record_count),
            base_offset: self.base_offset,
            record_count: self.record_count,
        }
    }

    /// Whether its batch ends at that offset or below, so that no record of it is at the offset or above.
    pub fn ends_by(&self, offset: i64) -> bool
        ensures { result ≡ int_le (end_of (kept_from self.now)) offset }
    {
        // The end may lie above the greatest offset.
        self.base_offset as i128 + self.record_count as i128 <= offset as i128
    }
}
