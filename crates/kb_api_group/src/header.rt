//! What stands before the body of each request.

use kb_wire::{Cursor, Layout, ReadFault, Sink, Text, WireFault};
use std::alloc::{AllocError, Global};

/// The numbers that every request begins with, whatever its version (Kafka protocol guide, request header version 0).
///
/// An ApiVersions request of any version is answered from these alone.
#[derive(Clone, Copy, Debug, PartialEq, Eq)]
pub struct RequestStart {
    pub api_key: i16,
    pub api_version: i16,
    pub correlation_id: i32,
}

impl<'a> Layout<'a> for RequestStart {
    ghost use Rattle.kb_api_group.specs.Layouts.{request_start};
    ghost use Rattle.kb_api_group.specs.Lawful.{request_start_lawful};

    ghost codec = { request_start };

    ghost lawful = { request_start_lawful };

    #[tactic(auto, unfolding(crate::specs::Layouts::request_start))]
    fn read_from(alloc: Global, cursor: &mut Cursor<'a>) -> Result<RequestStart, ReadFault> {
        Ok(RequestStart {
            api_key: i16::read_from(alloc, cursor)?,
            api_version: i16::read_from(alloc, cursor)?,
            correlation_id: i32::read_from(alloc, cursor)?,
        })
    }

    #[tactic(auto, unfolding(crate::specs::Layouts::request_start))]
    fn write_to(&self, sink: &mut Sink) -> Result<(), AllocError> {
        self.api_key.write_to(sink)?;
        self.api_version.write_to(sink)?;
        self.correlation_id.write_to(sink)
    }
}

impl RequestStart {
    ghost use Rattle.std.specs.Prelude.{◌≤◌, length, IsOk};
    ghost use Rattle.kb_wire.specs.Reads.{Answers};
    ghost use Rattle.kb_api_group.specs.Layouts.{request_start};

    /// The start of a frame, and the bytes behind it. It takes no memory, and 8 bytes are enough.
    #[tactic(auto, unfolding(crate::specs::Layouts::request_start, kb_wire::specs::Codec::int))]
    pub fn read(frame: &[u8]) -> Result<(RequestStart, &[u8]), WireFault>
        ensures exact { Answers (λ x. (x.0, x.1.now)) result (request_start.read frame.now) }
        ensures enough { 8 ≤ length frame.now → IsOk result }
    {
        let mut cursor = Cursor::new(frame);
        let start = RequestStart {
            api_key: cursor.i16()?,
            api_version: cursor.i16()?,
            correlation_id: cursor.i32()?,
        };
        Ok((start, cursor.rest()))
    }
}

/// What stands before the body of each request that is served (Kafka protocol guide, request header version 1).
#[derive(Drop)]
pub struct RequestHeader<'a> {
    pub api_key: i16,
    pub api_version: i16,
    pub correlation_id: i32,
    pub client_id: Option<Text<'a>>,
}

impl<'a> Layout<'a> for RequestHeader<'a> {
    ghost use Rattle.kb_api_group.specs.Layouts.{request_header};
    ghost use Rattle.kb_api_group.specs.Lawful.{request_header_lawful};

    ghost codec = { request_header };

    ghost lawful = { request_header_lawful };

    #[tactic(auto, unfolding(crate::specs::Layouts::request_header))]
    fn read_from(alloc: Global, cursor: &mut Cursor<'a>) -> Result<RequestHeader<'a>, ReadFault> {
        Ok(RequestHeader {
            api_key: i16::read_from(alloc, cursor)?,
            api_version: i16::read_from(alloc, cursor)?,
            correlation_id: i32::read_from(alloc, cursor)?,
            client_id: Option::read_from(alloc, cursor)?,
        })
    }

    #[tactic(auto, unfolding(crate::specs::Layouts::request_header))]
    fn write_to(&self, sink: &mut Sink) -> Result<(), AllocError> {
        self.api_key.write_to(sink)?;
        self.api_version.write_to(sink)?;
        self.correlation_id.write_to(sink)?;
        self.client_id.write_to(sink)
    }
}

impl<'a> RequestHeader<'a> {
    ghost use Rattle.kb_wire.specs.Reads.{Answers};
    ghost use Rattle.kb_api_group.specs.Layouts.{request_header};

    /// The header of a frame, and the body behind it. It takes no memory.
    #[tactic(auto, unfolding(crate::specs::Layouts::request_header))]
    pub fn read(frame: &'a [u8]) -> Result<(RequestHeader<'a>, &'a [u8]), WireFault>
        ensures { Answers (λ x. (x.0, x.1.now)) result (request_header.read frame.now) }
    {
        let mut cursor = Cursor::new(frame);
        let header = RequestHeader {
            api_key: cursor.i16()?,
            api_version: cursor.i16()?,
            correlation_id: cursor.i32()?,
            client_id: cursor.nullable_string()?,
        };
        Ok((header, cursor.rest()))
    }
}
