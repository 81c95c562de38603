//! What becomes of a batch.
ghost use Rattle.std.specs.Prelude.{◌≡◌};

use crate::kept::Kept;

/// What becomes of a batch.
#[derive(Clone, Copy, Debug, PartialEq, Eq)]
pub enum Verdict {
    /// It is appended.
    Append,
    /// It is in the list, at that base offset: it is answered so, and nothing is appended.
    Repeat(i64),
    /// It is refused with that error code.
    Refuse(i16),
}

/// The producer has no batch here, and this one is not its first.
pub const UNKNOWN_PRODUCER_ID: i16 = 59;
/// The epoch is below that of the producer's last batch.
pub const INVALID_PRODUCER_EPOCH: i16 = 47;
/// The sequence does not follow the producer's last one.
pub const OUT_OF_ORDER_SEQUENCE_NUMBER: i16 = 45;
