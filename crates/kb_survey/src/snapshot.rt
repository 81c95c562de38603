//! How far a catalog's snapshot reaches.
ghost use Rattle.std.specs.Prelude.{◌≡◌};
ghost use Rattle.kb_survey.specs.Snapshot.{end_by, end_told, snapshot_end};

use kb_batch::BatchView;

/// The offset behind the last command of the snapshot that some bytes begin with, as its first command tells it. It is 0 where they
/// begin with no such command.
pub fn snapshot_end(bytes: &[u8]) -> u64
    ensures { result ≡ snapshot_end bytes.now }
{
    match BatchView::in_front(bytes) {
        Some(batch) => end_by(&batch),
        None => 0,
    }
}

/// The same by the batch of its first command.
fn end_by(batch: &BatchView<'_>) -> u64
    ensures { result ≡ end_by batch.now }
{
    let mut records = batch.records();
    match records.next() {
        Some(record) => match record.value {
            Some(value) => end_told(value.as_slice()),
            None => 0,
        },
        None => 0,
    }
}

/// The same by the value of that command: its kind, 6, and how many commands follow.
fn end_told(value: &[u8]) -> u64
    ensures { result ≡ end_told value.now }
{
    match value {
        [6, a, b, c, d, ..] => 1 + u64::from(u32::from_be_bytes([*a, *b, *c, *d])),
        _ => 0,
    }
}
