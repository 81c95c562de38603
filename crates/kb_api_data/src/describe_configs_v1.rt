//! DescribeConfigs, versions 1 and 2, which are alike (Kafka protocol guide). As version 0, with where each value comes from.

use crate::describe_configs::ConfigResource;
use kb_wire::{Array, Cursor, Layout, ReadFault, Sink, Text};
use std::alloc::{AllocError, Global};

/// A request of DescribeConfigs, versions 1 and 2.
#[derive(Drop)]
pub struct DescribeConfigsRequestV1<'a> {
    pub resources: Array<ConfigResource<'a>>,
    /// Whether the reply is to tell under which other names each setting may be given.
    pub include_synonyms: bool,
}

impl<'a> Layout<'a> for DescribeConfigsRequestV1<'a> {
    ghost use Rattle.kb_api_data.specs.Layouts.{describe_configs_request_v1};
    ghost use Rattle.kb_api_data.specs.Lawful.{describe_configs_request_v1_lawful};

    ghost codec = { describe_configs_request_v1 };

    ghost lawful = { describe_configs_request_v1_lawful };

    #[tactic(auto, unfolding(crate::specs::Layouts::describe_configs_request_v1))]
    fn read_from(
        alloc: Global,
        cursor: &mut Cursor<'a>,
    ) -> Result<DescribeConfigsRequestV1<'a>, ReadFault> {
        Ok(DescribeConfigsRequestV1 {
            resources: Array::read_from(alloc, cursor)?,
            include_synonyms: bool::read_from(alloc, cursor)?,
        })
    }

    #[tactic(auto, unfolding(crate::specs::Layouts::describe_configs_request_v1))]
    fn write_to(&self, sink: &mut Sink) -> Result<(), AllocError> {
        self.resources.write_to(sink)?;
        self.include_synonyms.write_to(sink)
    }
}

/// Another setting from which a setting may have its value, in the reply of DescribeConfigs, versions 1 and 2.
#[derive(Drop)]
pub struct ConfigSynonym<'a> {
    pub name: Text<'a>,
    pub value: Option<Text<'a>>,
    pub source: i8,
}

impl<'a> Layout<'a> for ConfigSynonym<'a> {
    ghost use Rattle.kb_api_data.specs.Layouts.{config_synonym};
    ghost use Rattle.kb_api_data.specs.Lawful.{config_synonym_lawful};

    ghost codec = { config_synonym };

    ghost lawful = { config_synonym_lawful };

    #[tactic(auto, unfolding(crate::specs::Layouts::config_synonym))]
    fn read_from(alloc: Global, cursor: &mut Cursor<'a>) -> Result<ConfigSynonym<'a>, ReadFault> {
        Ok(ConfigSynonym {
            name: Text::read_from(alloc, cursor)?,
            value: Option::read_from(alloc, cursor)?,
            source: i8::read_from(alloc, cursor)?,
        })
    }

    #[tactic(auto, unfolding(crate::specs::Layouts::config_synonym))]
    fn write_to(&self, sink: &mut Sink) -> Result<(), AllocError> {
        self.name.write_to(sink)?;
        self.value.write_to(sink)?;
        self.source.write_to(sink)
    }
}

/// A setting, in the reply of DescribeConfigs, versions 1 and 2.
#[derive(Drop)]
pub struct DescribedConfigV1<'a> {
    pub name: Text<'a>,
    pub value: Option<Text<'a>>,
    pub read_only: bool,
    /// Where the value comes from: 1 is the topic itself, 4 the settings of a broker, 5 the default.
    pub config_source: i8,
    pub is_sensitive: bool,
    pub synonyms: Array<ConfigSynonym<'a>>,
}

impl<'a> Layout<'a> for DescribedConfigV1<'a> {
    ghost use Rattle.kb_api_data.specs.Layouts.{described_config_v1};
    ghost use Rattle.kb_api_data.specs.Lawful.{described_config_v1_lawful};

    ghost codec = { described_config_v1 };

    ghost lawful = { described_config_v1_lawful };

    #[tactic(auto, unfolding(crate::specs::Layouts::described_config_v1))]
    fn read_from(
        alloc: Global,
        cursor: &mut Cursor<'a>,
    ) -> Result<DescribedConfigV1<'a>, ReadFault> {
        Ok(DescribedConfigV1 {
            name: Text::read_from(alloc, cursor)?,
            value: Option::read_from(alloc, cursor)?,
            read_only: bool::read_from(alloc, cursor)?,
            config_source: i8::read_from(alloc, cursor)?,
            is_sensitive: bool::read_from(alloc, cursor)?,
            synonyms: Array::read_from(alloc, cursor)?,
        })
    }

    #[tactic(auto, unfolding(crate::specs::Layouts::described_config_v1))]
    fn write_to(&self, sink: &mut Sink) -> Result<(), AllocError> {
        self.name.write_to(sink)?;
        self.value.write_to(sink)?;
        self.read_only.write_to(sink)?;
        self.config_source.write_to(sink)?;
        self.is_sensitive.write_to(sink)?;
        self.synonyms.write_to(sink)
    }
}

/// A resource with its settings, in the reply of DescribeConfigs, versions 1 and 2.
#[derive(Drop)]
pub struct DescribedResourceV1<'a> {
    pub error_code: i16,
    pub error_message: Option<Text<'a>>,
    pub resource_type: i8,
    pub resource_name: Text<'a>,
    pub configs: Array<DescribedConfigV1<'a>>,
}

impl<'a> Layout<'a> for DescribedResourceV1<'a> {
    ghost use Rattle.kb_api_data.specs.Layouts.{described_resource_v1};
    ghost use Rattle.kb_api_data.specs.Lawful.{described_resource_v1_lawful};

    ghost codec = { described_resource_v1 };

    ghost lawful = { described_resource_v1_lawful };

    #[tactic(auto, unfolding(crate::specs::Layouts::described_resource_v1))]
    fn read_from(
        alloc: Global,
        cursor: &mut Cursor<'a>,
    ) -> Result<DescribedResourceV1<'a>, ReadFault> {
        Ok(DescribedResourceV1 {
            error_code: i16::read_from(alloc, cursor)?,
            error_message: Option::read_from(alloc, cursor)?,
            resource_type: i8::read_from(alloc, cursor)?,
            resource_name: Text::read_from(alloc, cursor)?,
            configs: Array::read_from(alloc, cursor)?,
        })
    }

    #[tactic(auto, unfolding(crate::specs::Layouts::described_resource_v1))]
    fn write_to(&self, sink: &mut Sink) -> Result<(), AllocError> {
        self.error_code.write_to(sink)?;
        self.error_message.write_to(sink)?;
        self.resource_type.write_to(sink)?;
        self.resource_name.write_to(sink)?;
        self.configs.write_to(sink)
    }
}

/// The reply of DescribeConfigs, versions 1 and 2.
#[derive(Drop)]
pub struct DescribeConfigsReplyV1<'a> {
    pub throttle_time_ms: i32,
    pub results: Array<DescribedResourceV1<'a>>,
}

impl<'a> Layout<'a> for DescribeConfigsReplyV1<'a> {
    ghost use Rattle.kb_api_data.specs.Layouts.{describe_configs_reply_v1};
    ghost use Rattle.kb_api_data.specs.Lawful.{describe_configs_reply_v1_lawful};

    ghost codec = { describe_configs_reply_v1 };

    ghost lawful = { describe_configs_reply_v1_lawful };

    #[tactic(auto, unfolding(crate::specs::Layouts::describe_configs_reply_v1))]
    fn read_from(
        alloc: Global,
        cursor: &mut Cursor<'a>,
    ) -> Result<DescribeConfigsReplyV1<'a>, ReadFault> {
        Ok(DescribeConfigsReplyV1 {
            throttle_time_ms: i32::read_from(alloc, cursor)?,
            results: Array::read_from(alloc, cursor)?,
        })
    }

    #[tactic(auto, unfolding(crate::specs::Layouts::describe_configs_reply_v1))]
    fn write_to(&self, sink: &mut Sink) -> Result<(), AllocError> {
        self.throttle_time_ms.write_to(sink)?;
        self.results.write_to(sink)
    }
}
