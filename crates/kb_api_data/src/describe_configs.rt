//! DescribeConfigs (Kafka protocol guide, key 32), version 0: the request and the reply.

use kb_wire::{Array, Cursor, Layout, ReadFault, Sink, Text};
use std::alloc::{AllocError, Global};

/// A resource whose settings are asked, in a request of DescribeConfigs.
#[derive(Drop)]
pub struct ConfigResource<'a> {
    /// 2 is a topic, 4 a broker.
    pub resource_type: i8,
    pub resource_name: Text<'a>,
    /// The names of the settings that are asked; `None` asks for all of them.
    pub configuration_keys: Option<Array<Text<'a>>>,
}

impl<'a> Layout<'a> for ConfigResource<'a> {
    ghost use Rattle.kb_api_data.specs.Layouts.{config_resource};
    ghost use Rattle.kb_api_data.specs.Lawful.{config_resource_lawful};

    ghost codec = { config_resource };

    ghost lawful = { config_resource_lawful };

    #[tactic(auto, unfolding(crate::specs::Layouts::config_resource))]
    fn read_from(alloc: Global, cursor: &mut Cursor<'a>) -> Result<ConfigResource<'a>, ReadFault> {
        Ok(ConfigResource {
            resource_type: i8::read_from(alloc, cursor)?,
            resource_name: Text::read_from(alloc, cursor)?,
            configuration_keys: Option::read_from(alloc, cursor)?,
        })
    }

    #[tactic(auto, unfolding(crate::specs::Layouts::config_resource))]
    fn write_to(&self, sink: &mut Sink) -> Result<(), AllocError> {
        self.resource_type.write_to(sink)?;
        self.resource_name.write_to(sink)?;
        self.configuration_keys.write_to(sink)
    }
}

/// A request of DescribeConfigs: which settings do these resources have?
#[derive(Drop)]
pub struct DescribeConfigsRequest<'a> {
    pub resources: Array<ConfigResource<'a>>,
}

impl<'a> Layout<'a> for DescribeConfigsRequest<'a> {
    ghost use Rattle.kb_api_data.specs.Layouts.{describe_configs_request};
    ghost use Rattle.kb_api_data.specs.Lawful.{describe_configs_request_lawful};

    ghost codec = { describe_configs_request };

    ghost lawful = { describe_configs_request_lawful };

    #[tactic(auto, unfolding(crate::specs::Layouts::describe_configs_request))]
    fn read_from(
        alloc: Global,
        cursor: &mut Cursor<'a>,
    ) -> Result<DescribeConfigsRequest<'a>, ReadFault> {
        Ok(DescribeConfigsRequest {
            resources: Array::read_from(alloc, cursor)?,
        })
    }

    #[tactic(auto, unfolding(crate::specs::Layouts::describe_configs_request))]
    fn write_to(&self, sink: &mut Sink) -> Result<(), AllocError> {
        self.resources.write_to(sink)
    }
}

/// A setting, in the reply of DescribeConfigs.
#[derive(Drop)]
pub struct DescribedConfig<'a> {
    pub name: Text<'a>,
    pub value: Option<Text<'a>>,
    pub read_only: bool,
    pub is_default: bool,
    pub is_sensitive: bool,
}

impl<'a> Layout<'a> for DescribedConfig<'a> {
    ghost use Rattle.kb_api_data.specs.Layouts.{described_config};
    ghost use Rattle.kb_api_data.specs.Lawful.{described_config_lawful};

    ghost codec = { described_config };

    ghost lawful = { described_config_lawful };

    #[tactic(auto, unfolding(crate::specs::Layouts::described_config))]
    fn read_from(alloc: Global, cursor: &mut Cursor<'a>) -> Result<DescribedConfig<'a>, ReadFault> {
        Ok(DescribedConfig {
            name: Text::read_from(alloc, cursor)?,
            value: Option::read_from(alloc, cursor)?,
            read_only: bool::read_from(alloc, cursor)?,
            is_default: bool::read_from(alloc, cursor)?,
            is_sensitive: bool::read_from(alloc, cursor)?,
        })
    }

    #[tactic(auto, unfolding(crate::specs::Layouts::described_config))]
    fn write_to(&self, sink: &mut Sink) -> Result<(), AllocError> {
        self.name.write_to(sink)?;
        self.value.write_to(sink)?;
        self.read_only.write_to(sink)?;
        self.is_default.write_to(sink)?;
        self.is_sensitive.write_to(sink)
    }
}

/// A resource with its settings, in the reply of DescribeConfigs.
#[derive(Drop)]
pub struct DescribedResource<'a> {
    pub error_code: i16,
    pub error_message: Option<Text<'a>>,
    pub resource_type: i8,
    pub resource_name: Text<'a>,
    pub configs: Array<DescribedConfig<'a>>,
}

impl<'a> Layout<'a> for DescribedResource<'a> {
    ghost use Rattle.kb_api_data.specs.Layouts.{described_resource};
    ghost use Rattle.kb_api_data.specs.Lawful.{described_resource_lawful};

    ghost codec = { described_resource };

    ghost lawful = { described_resource_lawful };

    #[tactic(auto, unfolding(crate::specs::Layouts::described_resource))]
    fn read_from(
        alloc: Global,
        cursor: &mut Cursor<'a>,
    ) -> Result<DescribedResource<'a>, ReadFault> {
        Ok(DescribedResource {
            error_code: i16::read_from(alloc, cursor)?,
            error_message: Option::read_from(alloc, cursor)?,
            resource_type: i8::read_from(alloc, cursor)?,
            resource_name: Text::read_from(alloc, cursor)?,
            configs: Array::read_from(alloc, cursor)?,
        })
    }

    #[tactic(auto, unfolding(crate::specs::Layouts::described_resource))]
    fn write_to(&self, sink: &mut Sink) -> Result<(), AllocError> {
        self.error_code.write_to(sink)?;
        self.error_message.write_to(sink)?;
        self.resource_type.write_to(sink)?;
        self.resource_name.write_to(sink)?;
        self.configs.write_to(sink)
    }
}

/// The reply of DescribeConfigs: an answer for each resource that was asked, in the same order.
#[derive(Drop)]
pub struct DescribeConfigsReply<'a> {
    pub throttle_time_ms: i32,
    pub results: Array<DescribedResource<'a>>,
}

impl<'a> Layout<'a> for DescribeConfigsReply<'a> {
    ghost use Rattle.kb_api_data.specs.Layouts.{describe_configs_reply};
    ghost use Rattle.kb_api_data.specs.Lawful.{describe_configs_reply_lawful};

    ghost codec = { describe_configs_reply };

    ghost lawful = { describe_configs_reply_lawful };

    #[tactic(auto, unfolding(crate::specs::Layouts::describe_configs_reply))]
    fn read_from(
        alloc: Global,
        cursor: &mut Cursor<'a>,
    ) -> Result<DescribeConfigsReply<'a>, ReadFault> {
        Ok(DescribeConfigsReply {
            throttle_time_ms: i32::read_from(alloc, cursor)?,
            results: Array::read_from(alloc, cursor)?,
        })
    }

    #[tactic(auto, unfolding(crate::specs::Layouts::describe_configs_reply))]
    fn write_to(&self, sink: &mut Sink) -> Result<(), AllocError> {
        self.throttle_time_ms.write_to(sink)?;
        self.results.write_to(sink)
    }
}
