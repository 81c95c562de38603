//! Batches of records: accepted, refused, stamped and built.

use crate::said::Field::{Count, Letters, Number};
use crate::said::Said;
use kb_batch::{BatchBuilder, BatchFault, BatchView, BuildFault, stamp};
use kb_wire::Blob;
use std::alloc::{AllocError, Global};

/// `batch`: its header and its records, or why it is refused.
pub fn batch(alloc: Global, bytes: &[u8], said: &mut Said) -> Result<(), AllocError> {
    match BatchView::read(bytes) {
        Ok(view) => {
            header(&view, said)?;
            producer(&view, said)?;
            records(&view, said)
        }
        Err(fault) => said.line(&format!(in alloc; "{fault}")?),
    }
}

fn header(view: &BatchView<'_>, said: &mut Said) -> Result<(), AllocError> {
    said.fields(&[
        ("size", Count(view.size())),
        ("base_offset", Number(view.base_offset())),
        (
            "partition_leader_epoch",
            Number(view.partition_leader_epoch() as i64),
        ),
        ("last_offset_delta", Number(view.last_offset_delta() as i64)),
        ("base_timestamp", Number(view.base_timestamp())),
        ("max_timestamp", Number(view.max_timestamp())),
    ])
}

fn producer(view: &BatchView<'_>, said: &mut Said) -> Result<(), AllocError> {
    said.fields(&[
        ("producer_id", Number(view.producer_id())),
        ("producer_epoch", Number(view.producer_epoch() as i64)),
        ("base_sequence", Number(view.base_sequence() as i64)),
        ("records", Number(view.record_count() as i64)),
        ("greatest_timestamp", Number(view.greatest_timestamp())),
    ])
}

fn records(view: &BatchView<'_>, said: &mut Said) -> Result<(), AllocError> {
    for record in view.records() {
        said.fields(&[
            ("timestamp", Number(record.timestamp)),
            ("key", Letters(letters(&record.key))),
            ("value", Letters(letters(&record.value))),
        ])?;
        said.bytes(record.headers.as_slice())?;
    }
    Ok(())
}

/// The bytes of a key or a value, and `null` where there are none.
fn letters<'a>(blob: &Option<Blob<'a>>) -> &'a [u8] {
    match blob {
        Some(blob) => blob.as_slice(),
        None => b"null",
    }
}

/// `fronts`: why each front of a batch is refused, a line from each length on where the reason is another one.
pub fn fronts(alloc: Global, bytes: &[u8], said: &mut Said) -> Result<(), AllocError> {
    let mut last = None;
    for length in 0..bytes.len() {
        let fault = BatchView::read(&bytes[..length]).err();
        if fault != last {
            say_front(alloc, length, fault, said)?;
        }
        last = fault;
    }
    Ok(())
}

fn say_front(
    alloc: Global,
    length: usize,
    fault: Option<BatchFault>,
    said: &mut Said,
) -> Result<(), AllocError> {
    match fault {
        Some(fault) => said.line(&format!(in alloc; "from {length}: {fault}")?),
        None => said.line(&format!(in alloc; "from {length}: a batch")?),
    }
}

/// `stamp`: the batch with the base offset 258.
pub fn stamped(alloc: Global, bytes: &[u8], said: &mut Said) -> Result<(), AllocError> {
    let mut bytes = Vec::from_slice(alloc, bytes)?;
    if bytes.len() >= 16 {
        stamp(&mut bytes, 258);
    }
    said.bytes(&bytes)
}

/// `build`: a batch of no producer, of records `TIMESTAMP=VALUE`.
pub fn build(alloc: Global, text: &str, said: &mut Said) -> Result<(), AllocError> {
    let mut builder = BatchBuilder::new(alloc, -1, -1, -1);
    push_all(alloc, &mut builder, text, said)?;
    match builder.finish() {
        Ok(batch) => said.bytes(&batch),
        Err(fault) => refused(alloc, fault, said),
    }
}

fn push_all(
    alloc: Global,
    builder: &mut BatchBuilder,
    text: &str,
    said: &mut Said,
) -> Result<(), AllocError> {
    for record in text.split(' ') {
        if let Some((timestamp, value)) = record.split_once('=') {
            push(alloc, builder, timestamp, value, said)?;
        }
    }
    Ok(())
}

fn push(
    alloc: Global,
    builder: &mut BatchBuilder,
    timestamp: &str,
    value: &str,
    said: &mut Said,
) -> Result<(), AllocError> {
    let timestamp = timestamp.parse::<i64>().unwrap_or(0);
    match builder.push(timestamp, None, Some(value.as_bytes())) {
        Ok(()) => Ok(()),
        Err(fault) => refused(alloc, fault, said),
    }
}

fn refused(alloc: Global, fault: BuildFault, said: &mut Said) -> Result<(), AllocError> {
    let text = format!(in alloc; "{fault}")?;
    said.line(&text)
}
