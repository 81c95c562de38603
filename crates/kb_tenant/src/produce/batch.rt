//! The batch that an entry offers.
ghost use Rattle.std.specs.Prelude.{◌≡◌};
ghost use Rattle.kb_tenant.specs.Produce.{batch_in, error_of as error_for};

use kb_batch::{BatchFault, BatchView};
use kb_wire::{Blob, ErrorCode};

/// The error for the first test that a batch fails.
fn error_of(fault: BatchFault) -> ErrorCode
    ensures { result ≡ error_for fault }
{
    match fault {
        BatchFault::Short | BatchFault::Length | BatchFault::Checksum => ErrorCode::CorruptMessage,
        BatchFault::Trailing | BatchFault::Attributes | BatchFault::Record => {
            ErrorCode::InvalidRecord
        }
        BatchFault::Magic => ErrorCode::UnsupportedForMessageFormat,
        BatchFault::TooLarge => ErrorCode::MessageTooLarge,
        BatchFault::Compression => ErrorCode::UnsupportedCompressionType,
    }
}

/// The batch that the records of an entry are, or an error code.
pub(super) fn read_batch<'a>(records: &Option<Blob<'a>>) -> Result<BatchView<'a>, i16>
    ensures { result ≡ batch_in records.now }
{
    let Some(records) = records else {
        return Err(ErrorCode::CorruptMessage.code());
    };
    match BatchView::read(records.as_slice()) {
        Ok(batch) => Ok(batch),
        Err(fault) => Err(error_of(fault).code()),
    }
}
