//! OffsetFetch, version 2 (Kafka protocol guide): no topics, which is null, mean all that the group committed to.

use crate::offset_fetch::{OffsetFetchTopic, OffsetFetchTopicReply};
use kb_wire::{Array, Cursor, Layout, ReadFault, Sink, Text};
use std::alloc::{AllocError, Global};

/// A request of OffsetFetch, version 2: which offsets has the group committed? `None` asks for all of them.
#[derive(Drop)]
pub struct OffsetFetchRequestV2<'a> {
    pub group_id: Text<'a>,
    pub topics: Option<Array<OffsetFetchTopic<'a>>>,
}

impl<'a> Layout<'a> for OffsetFetchRequestV2<'a> {
    ghost use Rattle.kb_api_group.specs.Layouts.{offset_fetch_request_v2};
    ghost use Rattle.kb_api_group.specs.Lawful.{offset_fetch_request_v2_lawful};

    ghost codec = { offset_fetch_request_v2 };

    ghost lawful = { offset_fetch_request_v2_lawful };

    #[tactic(auto, unfolding(crate::specs::Layouts::offset_fetch_request_v2))]
    fn read_from(
        alloc: Global,
        cursor: &mut Cursor<'a>,
    ) -> Result<OffsetFetchRequestV2<'a>, ReadFault> {
        Ok(OffsetFetchRequestV2 {
            group_id: Text::read_from(alloc, cursor)?,
            topics: Option::read_from(alloc, cursor)?,
        })
    }

    #[tactic(auto, unfolding(crate::specs::Layouts::offset_fetch_request_v2))]
    fn write_to(&self, sink: &mut Sink) -> Result<(), AllocError> {
        self.group_id.write_to(sink)?;
        self.topics.write_to(sink)
    }
}

/// The reply of OffsetFetch, version 2. The code behind the topics is that of the whole request.
#[derive(Drop)]
pub struct OffsetFetchReplyV2<'a> {
    pub topics: Array<OffsetFetchTopicReply<'a>>,
    pub error_code: i16,
}

impl<'a> Layout<'a> for OffsetFetchReplyV2<'a> {
    ghost use Rattle.kb_api_group.specs.Layouts.{offset_fetch_reply_v2};
    ghost use Rattle.kb_api_group.specs.Lawful.{offset_fetch_reply_v2_lawful};

    ghost codec = { offset_fetch_reply_v2 };

    ghost lawful = { offset_fetch_reply_v2_lawful };

    #[tactic(auto, unfolding(crate::specs::Layouts::offset_fetch_reply_v2))]
    fn read_from(
        alloc: Global,
        cursor: &mut Cursor<'a>,
    ) -> Result<OffsetFetchReplyV2<'a>, ReadFault> {
        Ok(OffsetFetchReplyV2 {
            topics: Array::read_from(alloc, cursor)?,
            error_code: i16::read_from(alloc, cursor)?,
        })
    }

    #[tactic(auto, unfolding(crate::specs::Layouts::offset_fetch_reply_v2))]
    fn write_to(&self, sink: &mut Sink) -> Result<(), AllocError> {
        self.topics.write_to(sink)?;
        self.error_code.write_to(sink)
    }
}
