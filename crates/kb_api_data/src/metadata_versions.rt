//! Metadata, versions 0 and 2 to 4 (Kafka protocol guide), where they differ from version 1.

use crate::metadata::{MetadataBroker, MetadataPartition, MetadataTopic};
use kb_wire::{Array, Cursor, Layout, ReadFault, Sink, Text};
use std::alloc::{AllocError, Global};

/// A request of Metadata, version 0.
#[derive(Drop)]
pub struct MetadataRequestV0<'a> {
    /// No topics means all topics.
    pub topics: Array<Text<'a>>,
}

impl<'a> Layout<'a> for MetadataRequestV0<'a> {
    ghost use Rattle.kb_api_data.specs.Layouts.{metadata_request_v0};
    ghost use Rattle.kb_api_data.specs.Lawful.{metadata_request_v0_lawful};

    ghost codec = { metadata_request_v0 };

    ghost lawful = { metadata_request_v0_lawful };

    #[tactic(auto, unfolding(crate::specs::Layouts::metadata_request_v0))]
    fn read_from(
        alloc: Global,
        cursor: &mut Cursor<'a>,
    ) -> Result<MetadataRequestV0<'a>, ReadFault> {
        Ok(MetadataRequestV0 {
            topics: Array::read_from(alloc, cursor)?,
        })
    }

    #[tactic(auto, unfolding(crate::specs::Layouts::metadata_request_v0))]
    fn write_to(&self, sink: &mut Sink) -> Result<(), AllocError> {
        self.topics.write_to(sink)
    }
}

/// A request of Metadata, version 4.
#[derive(Drop)]
pub struct MetadataRequestV4<'a> {
    pub topics: Option<Array<Text<'a>>>,
    pub allow_auto_topic_creation: bool,
}

impl<'a> Layout<'a> for MetadataRequestV4<'a> {
    ghost use Rattle.kb_api_data.specs.Layouts.{metadata_request_v4};
    ghost use Rattle.kb_api_data.specs.Lawful.{metadata_request_v4_lawful};

    ghost codec = { metadata_request_v4 };

    ghost lawful = { metadata_request_v4_lawful };

    #[tactic(auto, unfolding(crate::specs::Layouts::metadata_request_v4))]
    fn read_from(
        alloc: Global,
        cursor: &mut Cursor<'a>,
    ) -> Result<MetadataRequestV4<'a>, ReadFault> {
        Ok(MetadataRequestV4 {
            topics: Option::read_from(alloc, cursor)?,
            allow_auto_topic_creation: bool::read_from(alloc, cursor)?,
        })
    }

    #[tactic(auto, unfolding(crate::specs::Layouts::metadata_request_v4))]
    fn write_to(&self, sink: &mut Sink) -> Result<(), AllocError> {
        self.topics.write_to(sink)?;
        self.allow_auto_topic_creation.write_to(sink)
    }
}

/// A broker, in the reply of Metadata, version 0.
#[derive(Drop)]
pub struct MetadataBrokerV0<'a> {
    pub node_id: i32,
    pub host: Text<'a>,
    pub port: i32,
}

impl<'a> Layout<'a> for MetadataBrokerV0<'a> {
    ghost use Rattle.kb_api_data.specs.Layouts.{metadata_broker_v0};
    ghost use Rattle.kb_api_data.specs.Lawful.{metadata_broker_v0_lawful};

    ghost codec = { metadata_broker_v0 };

    ghost lawful = { metadata_broker_v0_lawful };

    #[tactic(auto, unfolding(crate::specs::Layouts::metadata_broker_v0))]
    fn read_from(
        alloc: Global,
        cursor: &mut Cursor<'a>,
    ) -> Result<MetadataBrokerV0<'a>, ReadFault> {
        Ok(MetadataBrokerV0 {
            node_id: i32::read_from(alloc, cursor)?,
            host: Text::read_from(alloc, cursor)?,
            port: i32::read_from(alloc, cursor)?,
        })
    }

    #[tactic(auto, unfolding(crate::specs::Layouts::metadata_broker_v0))]
    fn write_to(&self, sink: &mut Sink) -> Result<(), AllocError> {
        self.node_id.write_to(sink)?;
        self.host.write_to(sink)?;
        self.port.write_to(sink)
    }
}

/// A topic, in the reply of Metadata, version 0.
#[derive(Drop)]
pub struct MetadataTopicV0<'a> {
    pub error_code: i16,
    pub name: Text<'a>,
    pub partitions: Array<MetadataPartition>,
}

impl<'a> Layout<'a> for MetadataTopicV0<'a> {
    ghost use Rattle.kb_api_data.specs.Layouts.{metadata_topic_v0};
    ghost use Rattle.kb_api_data.specs.Lawful.{metadata_topic_v0_lawful};

    ghost codec = { metadata_topic_v0 };

    ghost lawful = { metadata_topic_v0_lawful };

    #[tactic(auto, unfolding(crate::specs::Layouts::metadata_topic_v0))]
    fn read_from(alloc: Global, cursor: &mut Cursor<'a>) -> Result<MetadataTopicV0<'a>, ReadFault> {
        Ok(MetadataTopicV0 {
            error_code: i16::read_from(alloc, cursor)?,
            name: Text::read_from(alloc, cursor)?,
            partitions: Array::read_from(alloc, cursor)?,
        })
    }

    #[tactic(auto, unfolding(crate::specs::Layouts::metadata_topic_v0))]
    fn write_to(&self, sink: &mut Sink) -> Result<(), AllocError> {
        self.error_code.write_to(sink)?;
        self.name.write_to(sink)?;
        self.partitions.write_to(sink)
    }
}

/// The reply of Metadata, version 0.
#[derive(Drop)]
pub struct MetadataReplyV0<'a> {
    pub brokers: Array<MetadataBrokerV0<'a>>,
    pub topics: Array<MetadataTopicV0<'a>>,
}

impl<'a> Layout<'a> for MetadataReplyV0<'a> {
    ghost use Rattle.kb_api_data.specs.Layouts.{metadata_reply_v0};
    ghost use Rattle.kb_api_data.specs.Lawful.{metadata_reply_v0_lawful};

    ghost codec = { metadata_reply_v0 };

    ghost lawful = { metadata_reply_v0_lawful };

    #[tactic(auto, unfolding(crate::specs::Layouts::metadata_reply_v0))]
    fn read_from(alloc: Global, cursor: &mut Cursor<'a>) -> Result<MetadataReplyV0<'a>, ReadFault> {
        Ok(MetadataReplyV0 {
            brokers: Array::read_from(alloc, cursor)?,
            topics: Array::read_from(alloc, cursor)?,
        })
    }

    #[tactic(auto, unfolding(crate::specs::Layouts::metadata_reply_v0))]
    fn write_to(&self, sink: &mut Sink) -> Result<(), AllocError> {
        self.brokers.write_to(sink)?;
        self.topics.write_to(sink)
    }
}

/// The reply of Metadata, version 2.
#[derive(Drop)]
pub struct MetadataReplyV2<'a> {
    pub brokers: Array<MetadataBroker<'a>>,
    pub cluster_id: Option<Text<'a>>,
    pub controller_id: i32,
    pub topics: Array<MetadataTopic<'a>>,
}

impl<'a> Layout<'a> for MetadataReplyV2<'a> {
    ghost use Rattle.kb_api_data.specs.Layouts.{metadata_reply_v2};
    ghost use Rattle.kb_api_data.specs.Lawful.{metadata_reply_v2_lawful};

    ghost codec = { metadata_reply_v2 };

    ghost lawful = { metadata_reply_v2_lawful };

    #[tactic(auto, unfolding(crate::specs::Layouts::metadata_reply_v2))]
    fn read_from(alloc: Global, cursor: &mut Cursor<'a>) -> Result<MetadataReplyV2<'a>, ReadFault> {
        Ok(MetadataReplyV2 {
            brokers: Array::read_from(alloc, cursor)?,
            cluster_id: Option::read_from(alloc, cursor)?,
            controller_id: i32::read_from(alloc, cursor)?,
            topics: Array::read_from(alloc, cursor)?,
        })
    }

    #[tactic(auto, unfolding(crate::specs::Layouts::metadata_reply_v2))]
    fn write_to(&self, sink: &mut Sink) -> Result<(), AllocError> {
        self.brokers.write_to(sink)?;
        self.cluster_id.write_to(sink)?;
        self.controller_id.write_to(sink)?;
        self.topics.write_to(sink)
    }
}

/// The reply of Metadata, versions 3 and 4.
#[derive(Drop)]
pub struct MetadataReplyV3<'a> {
    pub throttle_time_ms: i32,
    pub brokers: Array<MetadataBroker<'a>>,
    pub cluster_id: Option<Text<'a>>,
    pub controller_id: i32,
    pub topics: Array<MetadataTopic<'a>>,
}

impl<'a> Layout<'a> for MetadataReplyV3<'a> {
    ghost use Rattle.kb_api_data.specs.Layouts.{metadata_reply_v3};
    ghost use Rattle.kb_api_data.specs.Lawful.{metadata_reply_v3_lawful};

    ghost codec = { metadata_reply_v3 };

    ghost lawful = { metadata_reply_v3_lawful };

    #[tactic(auto, unfolding(crate::specs::Layouts::metadata_reply_v3))]
    fn read_from(alloc: Global, cursor: &mut Cursor<'a>) -> Result<MetadataReplyV3<'a>, ReadFault> {
        Ok(MetadataReplyV3 {
            throttle_time_ms: i32::read_from(alloc, cursor)?,
            brokers: Array::read_from(alloc, cursor)?,
            cluster_id: Option::read_from(alloc, cursor)?,
            controller_id: i32::read_from(alloc, cursor)?,
            topics: Array::read_from(alloc, cursor)?,
        })
    }

    #[tactic(auto, unfolding(crate::specs::Layouts::metadata_reply_v3))]
    fn write_to(&self, sink: &mut Sink) -> Result<(), AllocError> {
        self.throttle_time_ms.write_to(sink)?;
        self.brokers.write_to(sink)?;
        self.cluster_id.write_to(sink)?;
        self.controller_id.write_to(sink)?;
        self.topics.write_to(sink)
    }
}
