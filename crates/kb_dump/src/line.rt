//! The lines of a dump.
ghost use Rattle.std.specs.Prelude.{◌≡◌, IfOk, string_bytes};
ghost use Rattle.kb_batch.specs.Batch.{is_natural};
ghost use Rattle.kb_segment.specs.Segment.{IsStored};
ghost use Rattle.kb_dump.specs.Dump.{kind_text, header_line, stray_line, batch_words, batch_line, damaged_line};

use kb_segment::{SegmentHeader, StoredBatch};
use std::alloc::{AllocError, Global};

/// Whether a header is of a partition's file.
fn is_partition(header: &SegmentHeader) -> bool
    ensures { result ≡ is_natural 0 header.now.kind }
{
    header.kind() == 0
}

/// Whether a header says no generation, or the first one.
fn is_first(header: &SegmentHeader) -> bool
    ensures { result ≡ is_natural 0 header.now.generation }
{
    header.generation() == 0
}

/// What a header says between the tenant and the base.
fn kind_text(alloc: Global, header: &SegmentHeader) -> Result<String, AllocError>
    ensures { IfOk result (λ text. string_bytes text ≡ kind_text header.now) }
{
    if is_partition(header) {
        let instance = header.instance();
        let partition = header.partition();
        return format!(in alloc; " instance {instance} partition {partition}");
    }
    if is_first(header) {
        return String::from_str(alloc, " meta");
    }
    let generation = header.generation();
    format!(in alloc; " meta generation {generation}")
}

/// The first line of a file with that header.
pub fn header_line(alloc: Global, number: u64, header: &SegmentHeader) -> Result<String, AllocError>
    ensures { IfOk result (λ line. string_bytes line ≡ header_line number header.now) }
{
    let kind = kind_text(alloc, header)?;
    let tenant = header.tenant();
    let base = header.base();
    format!(in alloc; "file {number} tenant {tenant}{kind} base {base}\n")
}

/// The line of a file with no readable header.
pub fn stray_line(alloc: Global, number: u64) -> Result<String, AllocError>
    ensures { IfOk result (λ line. string_bytes line ≡ stray_line number) }
{
    format!(in alloc; "file {number} stray\n")
}

/// The line of a batch with these numbers.
fn batch_words(alloc: Global, base: i64, count: u32, size: usize) -> Result<String, AllocError>
    ensures { IfOk result (λ line. string_bytes line ≡ batch_words base count size) }
{
    format!(in alloc; "batch base {base} count {count} size {size}\n")
}

/// The line of a batch.
pub fn batch_line(alloc: Global, batch: &StoredBatch) -> Result<String, AllocError>
    requires { IsStored batch.now }
    ensures { IfOk result (λ line. string_bytes line ≡ batch_line batch.now.bytes.items) }
{
    batch_words(alloc, batch.base, batch.count, batch.bytes.len())
}

/// The line of bytes that begin with no accepted batch.
pub fn damaged_line(alloc: Global, place: u64) -> Result<String, AllocError>
    ensures { IfOk result (λ line. string_bytes line ≡ damaged_line place) }
{
    format!(in alloc; "damaged at {place}\n")
}
