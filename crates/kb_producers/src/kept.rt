//! What idempotence keeps of a batch.
ghost use Rattle.std.specs.Prelude.{◌≡◌};

/// A batch of an idempotent producer, as far as later batches of it are judged by it.
#[derive(Clone, Copy, Debug, PartialEq, Eq)]
pub struct Kept {
    /// The producer, 0 or above.
    pub producer_id: i64,
    pub producer_epoch: i16,
    /// The sequence of the batch's first record.
    pub base_sequence: i32,
    /// The sequence of its last record. After 2147483647 comes 0.
    pub last_sequence: i32,
    /// The offset of its first record in the partition.
    pub base_offset: i64,
    /// How many records it has.
    pub record_count: u32,
}

impl Kept {
    /// The same batch, at another offset.
    pub(crate) fn at(self, base_offset: i64) -> Kept
        ensures { result ≡ record self { base_offset = base_offset } }
    {
        Kept {
            producer_id: self.producer_id,
            producer_epoch: self.producer_epoch,
            base_sequence: self.base_sequence,
            last_sequence: self.last_sequence,
            base_offset,
            record_count: self.record_count,
        }
    }
}
