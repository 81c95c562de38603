//! Single values: those of fixed size, texts and bytes, numbers of groups of seven bits, checksums, and members' ids.

use crate::bodies::{Describe, name, read_back};
use crate::said::Field::{Count, Letters, Number, Text as Words};
use crate::said::Said;
use kb_batch::{Crc, crc32c};
use kb_groups::{member_id, member_number};
use kb_wire::{Array, Blob, Cursor, ReadFault, Sink, Text, WireFault};
use std::alloc::{AllocError, Global};

fn fault(fault: WireFault, said: &mut Said) -> Result<(), AllocError> {
    said.line(name(ReadFault::Wire(fault)))
}

/// `VARINT`: the number in front of some bytes, and how it is written.
pub fn varint(alloc: Global, bytes: &[u8], said: &mut Said) -> Result<(), AllocError> {
    match Cursor::new(bytes).varint() {
        Ok(number) => {
            (number as i64).describe(said)?;
            say_varint(alloc, number, said)
        }
        Err(short) => fault(short, said),
    }
}

fn say_varint(alloc: Global, number: i32, said: &mut Said) -> Result<(), AllocError> {
    let mut sink = Sink::new(alloc);
    sink.put_varint(number)?;
    said.bytes(sink.as_slice())
}

/// `VARLONG`: the long number in front of some bytes, and how it is written.
pub fn varlong(alloc: Global, bytes: &[u8], said: &mut Said) -> Result<(), AllocError> {
    match Cursor::new(bytes).varlong() {
        Ok(number) => {
            number.describe(said)?;
            say_varlong(alloc, number, said)
        }
        Err(short) => fault(short, said),
    }
}

fn say_varlong(alloc: Global, number: i64, said: &mut Said) -> Result<(), AllocError> {
    let mut sink = Sink::new(alloc);
    sink.put_varlong(number)?;
    said.bytes(sink.as_slice())
}

/// `crc32c`: the CRC-32C of some bytes, whole, and from two pieces cut anywhere.
pub fn checksum(bytes: &[u8], said: &mut Said) -> Result<(), AllocError> {
    let whole = crc32c(bytes);
    said.bytes(&whole.to_be_bytes())?;
    for cut in 0..bytes.len() {
        if checksum_of_two(&bytes[..cut], &bytes[cut..]) != whole {
            said.line("pieces have another one")?;
        }
    }
    Ok(())
}

fn checksum_of_two(front: &[u8], rest: &[u8]) -> u32 {
    let mut crc = Crc::default();
    crc.update(front);
    crc.update(b"");
    crc.update(rest);
    crc.value()
}

/// `member`: the number in a member's id, and the id of that number.
pub fn member(alloc: Global, text: &str, said: &mut Said) -> Result<(), AllocError> {
    match member_number(text) {
        Some(number) => {
            let id = member_id(alloc, number)?;
            said.fields(&[("number", Letters(id.as_slice()))])
        }
        None => said.line("no id of a member"),
    }
}

/// Values of fixed size, by the protocol guide's names of types, and other kinds.
pub fn read_fixed(
    alloc: Global,
    kind: &str,
    longer: &[u8],
    said: &mut Said,
) -> Result<(), AllocError> {
    match kind {
        "INT8" => read_back::<i8>(alloc, longer, said),
        "INT16" => read_back::<i16>(alloc, longer, said),
        "INT32" => read_back::<i32>(alloc, longer, said),
        "INT64" => read_back::<i64>(alloc, longer, said),
        "BOOLEAN" => read_back::<bool>(alloc, longer, said),
        _ => read_sized(alloc, kind, longer, said),
    }
}

/// Values with a length or a count in front; the arrays are of `STRING`. There is no other kind.
fn read_sized(alloc: Global, kind: &str, longer: &[u8], said: &mut Said) -> Result<(), AllocError> {
    match kind {
        "STRING" => read_back::<Text>(alloc, longer, said),
        "NULLABLE_STRING" => read_back::<Option<Text>>(alloc, longer, said),
        "BYTES" => read_back::<Blob>(alloc, longer, said),
        "NULLABLE_BYTES" => read_back::<Option<Blob>>(alloc, longer, said),
        "ARRAY" => read_back::<Array<Text>>(alloc, longer, said),
        "NULLABLE_ARRAY" => read_back::<Option<Array<Text>>>(alloc, longer, said),
        _ => said.line("no such kind"),
    }
}

impl Describe for i8 {
    fn describe(&self, said: &mut Said) -> Result<(), AllocError> {
        said.fields(&[("value", Number(*self as i64))])
    }
}

impl Describe for i16 {
    fn describe(&self, said: &mut Said) -> Result<(), AllocError> {
        said.fields(&[("value", Number(*self as i64))])
    }
}

impl Describe for i32 {
    fn describe(&self, said: &mut Said) -> Result<(), AllocError> {
        said.fields(&[("value", Number(*self as i64))])
    }
}

impl Describe for i64 {
    fn describe(&self, said: &mut Said) -> Result<(), AllocError> {
        said.fields(&[("value", Number(*self))])
    }
}

impl Describe for bool {
    fn describe(&self, said: &mut Said) -> Result<(), AllocError> {
        said.line(if *self { "true" } else { "false" })
    }
}

impl Describe for Text<'_> {
    fn describe(&self, said: &mut Said) -> Result<(), AllocError> {
        said.fields(&[("text", Words(self.as_str()))])
    }
}

impl Describe for Option<Text<'_>> {
    fn describe(&self, said: &mut Said) -> Result<(), AllocError> {
        match self {
            Some(text) => said.fields(&[("text", Words(text.as_str()))]),
            None => said.line("null"),
        }
    }
}

impl Describe for Blob<'_> {
    fn describe(&self, said: &mut Said) -> Result<(), AllocError> {
        said.bytes(self.as_slice())
    }
}

impl Describe for Option<Blob<'_>> {
    fn describe(&self, said: &mut Said) -> Result<(), AllocError> {
        match self {
            Some(bytes) => said.bytes(bytes.as_slice()),
            None => said.line("null"),
        }
    }
}

impl Describe for Array<Text<'_>> {
    fn describe(&self, said: &mut Said) -> Result<(), AllocError> {
        said.fields(&[("items", Count(self.len()))])
    }
}

impl Describe for Option<Array<Text<'_>>> {
    fn describe(&self, said: &mut Said) -> Result<(), AllocError> {
        match self {
            Some(items) => said.fields(&[("items", Count(items.len()))]),
            None => said.line("null"),
        }
    }
}
