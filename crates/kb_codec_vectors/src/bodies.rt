//! Bodies of requests and replies, and the values in them, each read and written back.

use crate::data::read_request;
use crate::said::Field::Number;
use crate::said::Said;
use kb_api_group::{FrameFeed, Next, REPLY_LIMIT, RequestHeader, RequestStart};
use kb_wire::{Layout, ReadFault, Sink, WireFault};
use std::alloc::{AllocError, Global};

/// What is said of a value that was read.
pub trait Describe {
    /// Says its fields by their names. One of which nothing more is known comes back, and that is all.
    fn describe(&self, said: &mut Said) -> Result<(), AllocError> {
        said.line("comes back")
    }
}

/// A kind is a type's name, or `frame` with one behind a request's header, or `start`.
pub fn read(alloc: Global, kind: &str, bytes: &[u8], said: &mut Said) -> Result<(), AllocError> {
    if kind == "start" {
        return start(bytes, said);
    }
    match kind.strip_prefix("frame/") {
        Some(body) => frame(alloc, body, bytes, said),
        None => read_body(alloc, kind, bytes, said),
    }
}

/// The kinds that are a type's name.
fn read_body(alloc: Global, kind: &str, bytes: &[u8], said: &mut Said) -> Result<(), AllocError> {
    let mut longer = Vec::from_slice(alloc, bytes)?;
    longer.push(0)?;
    read_request(alloc, kind, &longer, said)
}

/// Reads all but the last byte and says what is found, or the fault. What is read must be written as it stood, be too short
/// without its own last byte, and be refused with one byte more.
pub fn read_back<'a, T: Layout<'a> + Describe>(
    alloc: Global,
    longer: &'a [u8],
    said: &mut Said,
) -> Result<(), AllocError> {
    let Some((_, bytes)) = longer.split_last() else {
        return said.line("there is no last byte");
    };
    match T::read(alloc, bytes) {
        Ok(value) => {
            is_written::<T>(alloc, &value, bytes, said)?;
            value.describe(said)?;
        }
        Err(fault) => return said.line(name(fault)),
    }
    if let Some((_, shorter)) = bytes.split_last() {
        expect::<T>(alloc, shorter, WireFault::Short, said)?;
    }
    expect::<T>(alloc, longer, WireFault::Bad, said)
}

/// Says how a value is written where it is not written so.
fn is_written<'a, T: Layout<'a>>(
    alloc: Global,
    value: &T,
    bytes: &[u8],
    said: &mut Said,
) -> Result<(), AllocError>
    requires { T.codec.Fits value.now }
{
    let mut sink = Sink::new(alloc);
    value.write(&mut sink)?;
    if sink.as_slice() == bytes {
        return Ok(());
    }
    said.bytes(sink.as_slice())
}

/// Says so where reading does not end in this fault.
fn expect<'a, T: Layout<'a>>(
    alloc: Global,
    bytes: &'a [u8],
    wanted: WireFault,
    said: &mut Said,
) -> Result<(), AllocError> {
    match T::read(alloc, bytes) {
        Ok(_) => said.line("one byte more or less is taken too"),
        Err(fault) if fault == ReadFault::Wire(wanted) => Ok(()),
        Err(_) => said.line("one byte more or less is another fault"),
    }
}

/// The name of a fault.
pub fn name(fault: ReadFault) -> &'static str {
    match fault {
        ReadFault::Wire(WireFault::Short) => "short",
        ReadFault::Wire(WireFault::Bad) => "bad",
        ReadFault::Memory => "out of memory",
    }
}

/// A frame that comes in two pieces: what is asked, and the body behind the header.
fn frame(alloc: Global, body: &str, frame: &[u8], said: &mut Said) -> Result<(), AllocError> {
    let mut feed = FrameFeed::new(alloc);
    is_fed(&mut feed, frame, said)?;
    if let Next::Frame(bytes) = feed.next(REPLY_LIMIT) {
        request(alloc, body, bytes.as_slice(), said)?;
    }
    feed.skip(REPLY_LIMIT);
    if feed.unread() > 0 {
        return said.line("bytes are left");
    }
    Ok(())
}

/// Gives a frame to a feed in two pieces, of which the first has three bytes.
fn is_fed(feed: &mut FrameFeed, frame: &[u8], said: &mut Said) -> Result<(), AllocError> {
    let (front, rest) = frame.split_at_checked(3).unwrap_or((frame, b""));
    feed.push(front)?;
    if !matches!(feed.next(REPLY_LIMIT), Next::More) {
        said.line("three bytes are a frame")?;
    }
    feed.push(rest)
}

/// A request in its frame.
fn request(alloc: Global, kind: &str, frame: &[u8], said: &mut Said) -> Result<(), AllocError> {
    match RequestHeader::read(frame) {
        Ok((header, body)) => {
            said.fields(&[
                ("api_key", Number(header.api_key as i64)),
                ("api_version", Number(header.api_version as i64)),
                ("correlation_id", Number(header.correlation_id as i64)),
            ])?;
            read_body(alloc, kind, body, said)
        }
        Err(_) => said.line("no header"),
    }
}

/// The start of a request of any version.
fn start(bytes: &[u8], said: &mut Said) -> Result<(), AllocError> {
    match RequestStart::read(bytes) {
        Ok((start, _)) => said.fields(&[
            ("api_key", Number(start.api_key as i64)),
            ("api_version", Number(start.api_version as i64)),
            ("correlation_id", Number(start.correlation_id as i64)),
        ]),
        Err(_) => said.line("short"),
    }
}
