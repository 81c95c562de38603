//! Metadata, version 1 (Kafka protocol guide). The broker, and topics with their partitions.

use kb_wire::{Array, Cursor, Layout, ReadFault, Sink, Text};
use std::alloc::{AllocError, Global};

/// A request of Metadata, version 1.
#[derive(Drop)]
pub struct MetadataRequest<'a> {
    pub topics: Option<Array<Text<'a>>>,
}

impl<'a> Layout<'a> for MetadataRequest<'a> {
    ghost use Rattle.kb_api_data.specs.Layouts.{metadata_request};
    ghost use Rattle.kb_api_data.specs.Lawful.{metadata_request_lawful};

    ghost codec = { metadata_request };

    ghost lawful = { metadata_request_lawful };

    #[tactic(auto, unfolding(crate::specs::Layouts::metadata_request))]
    fn read_from(alloc: Global, cursor: &mut Cursor<'a>) -> Result<MetadataRequest<'a>, ReadFault> {
        Ok(MetadataRequest {
            topics: Option::read_from(alloc, cursor)?,
        })
    }

    #[tactic(auto, unfolding(crate::specs::Layouts::metadata_request))]
    fn write_to(&self, sink: &mut Sink) -> Result<(), AllocError> {
        self.topics.write_to(sink)
    }
}

/// A broker, in the reply of Metadata.
#[derive(Drop)]
pub struct MetadataBroker<'a> {
    pub node_id: i32,
    pub host: Text<'a>,
    pub port: i32,
    pub rack: Option<Text<'a>>,
}

impl<'a> Layout<'a> for MetadataBroker<'a> {
    ghost use Rattle.kb_api_data.specs.Layouts.{metadata_broker};
    ghost use Rattle.kb_api_data.specs.Lawful.{metadata_broker_lawful};

    ghost codec = { metadata_broker };

    ghost lawful = { metadata_broker_lawful };

    #[tactic(auto, unfolding(crate::specs::Layouts::metadata_broker))]
    fn read_from(alloc: Global, cursor: &mut Cursor<'a>) -> Result<MetadataBroker<'a>, ReadFault> {
        Ok(MetadataBroker {
            node_id: i32::read_from(alloc, cursor)?,
            host: Text::read_from(alloc, cursor)?,
            port: i32::read_from(alloc, cursor)?,
            rack: Option::read_from(alloc, cursor)?,
        })
    }

    #[tactic(auto, unfolding(crate::specs::Layouts::metadata_broker))]
    fn write_to(&self, sink: &mut Sink) -> Result<(), AllocError> {
        self.node_id.write_to(sink)?;
        self.host.write_to(sink)?;
        self.port.write_to(sink)?;
        self.rack.write_to(sink)
    }
}

/// A partition, in the reply of Metadata.
#[derive(Drop)]
pub struct MetadataPartition {
    pub error_code: i16,
    pub partition: i32,
    pub leader: i32,
    pub replicas: Array<i32>,
    pub isr: Array<i32>,
}

impl<'a> Layout<'a> for MetadataPartition {
    ghost use Rattle.kb_api_data.specs.Layouts.{metadata_partition};
    ghost use Rattle.kb_api_data.specs.Lawful.{metadata_partition_lawful};

    ghost codec = { metadata_partition };

    ghost lawful = { metadata_partition_lawful };

    #[tactic(auto, unfolding(crate::specs::Layouts::metadata_partition))]
    fn read_from(alloc: Global, cursor: &mut Cursor<'a>) -> Result<MetadataPartition, ReadFault> {
        Ok(MetadataPartition {
            error_code: i16::read_from(alloc, cursor)?,
            partition: i32::read_from(alloc, cursor)?,
            leader: i32::read_from(alloc, cursor)?,
            replicas: Array::read_from(alloc, cursor)?,
            isr: Array::read_from(alloc, cursor)?,
        })
    }

    #[tactic(auto, unfolding(crate::specs::Layouts::metadata_partition))]
    fn write_to(&self, sink: &mut Sink) -> Result<(), AllocError> {
        self.error_code.write_to(sink)?;
        self.partition.write_to(sink)?;
        self.leader.write_to(sink)?;
        self.replicas.write_to(sink)?;
        self.isr.write_to(sink)
    }
}

/// A topic, in the reply of Metadata.
#[derive(Drop)]
pub struct MetadataTopic<'a> {
    pub error_code: i16,
    pub name: Text<'a>,
    pub is_internal: bool,
    pub partitions: Array<MetadataPartition>,
}

impl<'a> Layout<'a> for MetadataTopic<'a> {
    ghost use Rattle.kb_api_data.specs.Layouts.{metadata_topic};
    ghost use Rattle.kb_api_data.specs.Lawful.{metadata_topic_lawful};

    ghost codec = { metadata_topic };

    ghost lawful = { metadata_topic_lawful };

    #[tactic(auto, unfolding(crate::specs::Layouts::metadata_topic))]
    fn read_from(alloc: Global, cursor: &mut Cursor<'a>) -> Result<MetadataTopic<'a>, ReadFault> {
        Ok(MetadataTopic {
            error_code: i16::read_from(alloc, cursor)?,
            name: Text::read_from(alloc, cursor)?,
            is_internal: bool::read_from(alloc, cursor)?,
            partitions: Array::read_from(alloc, cursor)?,
        })
    }

    #[tactic(auto, unfolding(crate::specs::Layouts::metadata_topic))]
    fn write_to(&self, sink: &mut Sink) -> Result<(), AllocError> {
        self.error_code.write_to(sink)?;
        self.name.write_to(sink)?;
        self.is_internal.write_to(sink)?;
        self.partitions.write_to(sink)
    }
}

/// The reply of Metadata, version 1.
#[derive(Drop)]
pub struct MetadataReply<'a> {
    pub brokers: Array<MetadataBroker<'a>>,
    pub controller_id: i32,
    pub topics: Array<MetadataTopic<'a>>,
}

impl<'a> Layout<'a> for MetadataReply<'a> {
    ghost use Rattle.kb_api_data.specs.Layouts.{metadata_reply};
    ghost use Rattle.kb_api_data.specs.Lawful.{metadata_reply_lawful};

    ghost codec = { metadata_reply };

    ghost lawful = { metadata_reply_lawful };

    #[tactic(auto, unfolding(crate::specs::Layouts::metadata_reply))]
    fn read_from(alloc: Global, cursor: &mut Cursor<'a>) -> Result<MetadataReply<'a>, ReadFault> {
        Ok(MetadataReply {
            brokers: Array::read_from(alloc, cursor)?,
            controller_id: i32::read_from(alloc, cursor)?,
            topics: Array::read_from(alloc, cursor)?,
        })
    }

    #[tactic(auto, unfolding(crate::specs::Layouts::metadata_reply))]
    fn write_to(&self, sink: &mut Sink) -> Result<(), AllocError> {
        self.brokers.write_to(sink)?;
        self.controller_id.write_to(sink)?;
        self.topics.write_to(sink)
    }
}
