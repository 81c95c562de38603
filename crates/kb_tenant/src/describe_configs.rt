//! DescribeConfigs: the settings of topics and of the broker. Version 0 tells whether a value is the default, 1 and 2 where it comes
//! from (Kafka protocol guide, "The Messages: DescribeConfigs"); any version but 0 is answered as 1.
ghost use Rattle.std.specs.Prelude.{◌≡◌, ◌≤◌, ◌++◌, ◌∷◌, [], pos, All, IfOk, OnOk, length, map};
ghost use Rattle.std.specs.List.{flat_map, list_any};
ghost use Rattle.std.specs.Str.{bytes_eq};
ghost use Rattle.kb_api_data.specs.Layouts.{config_resource, describe_configs_request};
ghost use Rattle.kb_store.specs.Disk.{Files};
ghost use Rattle.kb_wire.specs.Codec.{array, int32, string};
ghost use Rattle.kb_wire.specs.ErrorCode.{code_of};
ghost use Rattle.kb_wire.specs.Reads.{ReadsWhole};
ghost use Rattle.kb_tenant.specs.DescribeConfigs.{answered, asked, asked_configs, broker_settings, config_named, configs_in, configs_of};
ghost use Rattle.kb_tenant.specs.DescribeConfigs.{default_config, described, fixed, is_asked, is_old, limit_setting, resource_as};
ghost use Rattle.kb_tenant.specs.DescribeConfigs.{resources_until, setting_as, settings_as, topic_found, topic_settings, FitsSetting};
ghost use Rattle.kb_tenant.specs.Entries.{describe_configs_entries, within};
ghost use Rattle.kb_tenant.specs.Replies.{AreUntil};
ghost use Rattle.kb_tenant_state.specs.Parts.{world_of};

use crate::within::within;
use itoa::Buffer;
use kb_api_data::{
    ConfigResource, DescribeConfigsRequest, DescribeConfigsRequestV1, DescribedConfig,
    DescribedConfigV1,
};
use kb_log::PartitionLog;
use kb_tenant_state::Parts;
use kb_topics::{ConfigReader, TopicConfig};
use kb_wire::{Array, ErrorCode, Layout, ReadFault, Sink, Text};
use std::alloc::{AllocError, Global};

/// A resource that is a topic (Apache Kafka's numbers of resource types).
const TOPIC: i8 = 2;

/// A resource that is a broker.
const BROKER: i8 = 4;

/// A setting, with its value as text.
#[derive(Drop)]
pub(crate) struct Setting<'a> {
    pub name: Text<'a>,
    pub value: Text<'a>,
    /// The value is the one that is there where nothing is set.
    pub is_default: bool,
}

/// A setting that nobody can set.
fn fixed<'a>(name: &'a str, value: &'a str) -> Setting<'a>
    ensures { result ≡ fixed name.now value.now }
{
    Setting {
        name: Text::new(name),
        value: Text::new(value),
        is_default: true,
    }
}

/// A limit of milliseconds or of bytes, beside the default. Its text stands in the buffer.
fn limit_setting<'a>(name: &'a str, limit: i64, default: i64, buffer: &'a mut Buffer) -> Setting<'a>
    ensures exact { result ≡ limit_setting name.now limit default }
    ensures short { length result.value ≤ 40 }
{
    Setting {
        name: Text::new(name),
        value: Text::new(buffer.format(limit)),
        is_default: limit == default,
    }
}

/// The settings of a topic that was given none.
fn default_config() -> TopicConfig
    ensures { result ≡ default_config }
{
    ConfigReader::new().config()
}

/// Whether a version is the one that does not tell where a value comes from.
fn is_old(version: i16) -> bool
    ensures { result ≡ is_old version }
{
    version == 0
}

/// The request that a body of version 1 or 2 spells. Whether synonyms are asked is not looked at: no setting has any.
#[tactic(auto, using(crate::proofs::Configs::request_fits))]
fn read_v1<'a>(alloc: Global, body: &'a [u8]) -> Result<DescribeConfigsRequest<'a>, ReadFault>
    ensures exact { ReadsWhole (asked_configs (pos 1) body.now) result }
    ensures fits { IfOk result (λ r. describe_configs_request.Fits r) }
{
    let DescribeConfigsRequestV1 { resources, .. } = DescribeConfigsRequestV1::read(alloc, body)?;
    Ok(DescribeConfigsRequest { resources })
}

/// The request that a body spells in a version.
pub fn read_describe_configs<'a>(
    alloc: Global,
    version: i16,
    body: &'a [u8],
) -> Result<DescribeConfigsRequest<'a>, ReadFault>
    ensures exact { ReadsWhole (asked_configs version body.now) result }
    ensures fits { IfOk result (λ r. describe_configs_request.Fits r) }
{
    match version {
        0 => DescribeConfigsRequest::read(alloc, body),
        _ => read_v1(alloc, body),
    }
}

/// The same, unless it names more resources and settings than a limit allows.
pub(crate) fn read_configs_within<'a>(
    alloc: Global,
    limit: Option<u64>,
    version: i16,
    body: &'a [u8],
) -> Result<DescribeConfigsRequest<'a>, ReadFault>
    ensures exact { ReadsWhole (within limit describe_configs_entries (asked_configs version body.now)) result }
    ensures fits { IfOk result (λ r. describe_configs_request.Fits r) }
{
    let asked = read_describe_configs(alloc, version, body)?;
    within(limit, asked)
}

/// Whether a name stands among some.
fn is_among(names: &[Text<'_>], name: &str) -> bool
    ensures { result ≡ list_any (bytes_eq name.now) names.now }
{
    names.iter().any(|other| name == other.as_str())
}

/// Whether a setting is asked. No names ask for all settings.
fn is_asked(names: &Option<Array<Text<'_>>>, name: &str) -> bool
    ensures { result ≡ is_asked names.now name.now }
{
    match names {
        None => true,
        Some(names) => is_among(names.as_slice(), name),
    }
}

/// Writes a setting.
#[tactic(auto, using(crate::proofs::Configs::config_fits, crate::proofs::Configs::config_fits_v1))]
fn put_setting(
    alloc: Global,
    old: bool,
    setting: &Setting<'_>,
    sink: &mut Sink,
) -> Result<(), AllocError>
    requires { FitsSetting setting.now }
    ensures { OnOk result (sink.new.bytes ≡ sink.old.bytes ++ setting_as old setting.now) }
{
    let name = Text::new(setting.name.as_str());
    let value = Some(Text::new(setting.value.as_str()));
    if old {
        let config = DescribedConfig {
            name,
            value,
            read_only: true,
            is_default: setting.is_default,
            is_sensitive: false,
        };
        return config.write(sink);
    }
    let config = DescribedConfigV1 {
        name,
        value,
        read_only: true,
        config_source: if setting.is_default { 5 } else { 1 },
        is_sensitive: false,
        synonyms: Array::new(alloc),
    };
    config.write(sink)
}

/// Writes a setting, where it is asked.
fn put_if_asked(
    alloc: Global,
    old: bool,
    names: &Option<Array<Text<'_>>>,
    setting: &Setting<'_>,
    sink: &mut Sink,
) -> Result<(), AllocError>
    requires { FitsSetting setting.now }
    ensures { OnOk result (sink.new.bytes ≡ sink.old.bytes ++ flat_map (setting_as old) (asked names.now (setting.now ∷ []))) }
{
    if !is_asked(names, setting.name.as_str()) {
        return Ok(());
    }
    put_setting(alloc, old, setting, sink)
}

/// How many settings are asked.
fn count_asked(names: &Option<Array<Text<'_>>>, settings: &[Setting<'_>]) -> usize
    ensures { result ≡ length (asked names.now settings.now) }
{
    settings
        .iter()
        .filter(|setting| is_asked(names, setting.name.as_str()))
        .count()
}

/// Writes those of some settings that are asked, behind their count.
fn put_settings(
    alloc: Global,
    old: bool,
    names: &Option<Array<Text<'_>>>,
    settings: &[Setting<'_>],
    sink: &mut Sink,
) -> Result<(), AllocError>
    requires few { length settings.now ≤ 6 }
    requires fits { All FitsSetting settings.now }
    ensures { OnOk result (sink.new.bytes ≡ sink.old.bytes ++ settings_as old (asked names.now settings.now)) }
{
    sink.put_count(count_asked(names, settings))?;
    for setting in settings {
        put_if_asked(alloc, old, names, setting, sink)?;
    }
    Ok(())
}

/// Writes what is answered of a resource that has these settings.
fn put_answered(
    alloc: Global,
    old: bool,
    error: ErrorCode,
    resource: &ConfigResource<'_>,
    settings: &[Setting<'_>],
    sink: &mut Sink,
) -> Result<(), AllocError>
    requires few { length settings.now ≤ 6 }
    requires fits { All FitsSetting settings.now }
    requires name { string.Fits resource.now.resource_name }
    ensures { OnOk result (sink.new.bytes ≡ sink.old.bytes ++ resource_as old (answered (code_of error) resource.now settings.now)) }
{
    sink.put_i16(error.code())?;
    sink.put_nullable_string(&None)?;
    sink.put_i8(resource.resource_type)?;
    sink.put_string(resource.resource_name.as_str())?;
    put_settings(alloc, old, &resource.configuration_keys, settings, sink)
}

/// Writes what is answered of a topic that is there.
fn put_config(
    alloc: Global,
    old: bool,
    resource: &ConfigResource<'_>,
    config: TopicConfig,
    sink: &mut Sink,
) -> Result<(), AllocError>
    requires { string.Fits resource.now.resource_name }
    ensures { OnOk result (sink.new.bytes ≡ sink.old.bytes ++ resource_as old (answered (pos 0) resource.now (topic_settings config))) }
{
    let default = default_config();
    let mut bytes = Buffer::new();
    let mut time = Buffer::new();
    let settings = [
        fixed("cleanup.policy", "delete"),
        limit_setting(
            "retention.bytes",
            config.retention_bytes,
            default.retention_bytes,
            &mut bytes,
        ),
        limit_setting(
            "retention.ms",
            config.retention_ms,
            default.retention_ms,
            &mut time,
        ),
    ];
    put_answered(alloc, old, ErrorCode::None, resource, &settings, sink)
}

/// Writes what is answered of the broker.
fn put_broker(
    alloc: Global,
    old: bool,
    resource: &ConfigResource<'_>,
    sink: &mut Sink,
) -> Result<(), AllocError>
    requires { string.Fits resource.now.resource_name }
    ensures { OnOk result (sink.new.bytes ≡ sink.old.bytes ++ resource_as old (answered (pos 0) resource.now broker_settings)) }
{
    let default = default_config();
    let mut bytes = Buffer::new();
    let mut time = Buffer::new();
    let settings = [
        fixed("auto.create.topics.enable", "false"),
        fixed("broker.id", "0"),
        fixed("default.replication.factor", "1"),
        fixed("log.cleanup.policy", "delete"),
        fixed("log.retention.bytes", bytes.format(default.retention_bytes)),
        fixed("log.retention.ms", time.format(default.retention_ms)),
    ];
    put_answered(alloc, old, ErrorCode::None, resource, &settings, sink)
}

/// The settings of the topic of that name.
fn config_named<L: PartitionLog + Drop>(parts: &Parts<L>, name: &str) -> Option<TopicConfig>
    ensures { (files : Files) → result ≡ config_named name.now (world_of L.log parts.now files).known.topics }
{
    let Some(instance) = parts.topic_named(name) else {
        return None;
    };
    let Some(topic) = parts.topic(instance) else {
        return None;
    };
    Some(topic.config())
}

/// Writes what is answered of a topic.
fn put_topic<L: PartitionLog + Drop>(
    alloc: Global,
    parts: &Parts<L>,
    old: bool,
    resource: &ConfigResource<'_>,
    sink: &mut Sink,
) -> Result<(), AllocError>
    requires { string.Fits resource.now.resource_name }
    ensures { (files : Files) → OnOk result (sink.new.bytes ≡ sink.old.bytes ++ resource_as old (topic_found resource.now
        (config_named resource.now.resource_name (world_of L.log parts.now files).known.topics))) }
{
    match config_named(parts, resource.resource_name.as_str()) {
        Some(config) => put_config(alloc, old, resource, config, sink),
        None => put_answered(
            alloc,
            old,
            ErrorCode::UnknownTopicOrPartition,
            resource,
            &[],
            sink,
        ),
    }
}

/// Writes what is answered of a resource.
fn put_resource<L: PartitionLog + Drop>(
    alloc: Global,
    parts: &Parts<L>,
    old: bool,
    resource: &ConfigResource<'_>,
    sink: &mut Sink,
) -> Result<(), AllocError>
    requires { string.Fits resource.now.resource_name }
    ensures { (files : Files) → OnOk result (sink.new.bytes ≡ sink.old.bytes
        ++ resource_as old (described (world_of L.log parts.now files).known.topics resource.now)) }
{
    match resource.resource_type {
        TOPIC => put_topic(alloc, parts, old, resource, sink),
        BROKER if resource.resource_name.as_str() == "0" => put_broker(alloc, old, resource, sink),
        _ => put_answered(alloc, old, ErrorCode::InvalidRequest, resource, &[], sink),
    }
}

/// Writes what is answered of resources, in their order and behind their count, until the sink has more than so many bytes.
fn put_resources<L: PartitionLog + Drop>(
    alloc: Global,
    parts: &Parts<L>,
    old: bool,
    resources: &[ConfigResource<'_>],
    most: usize,
    sink: &mut Sink,
) -> Result<(), AllocError>
    requires { (array config_resource).Fits resources.now }
    ensures { (files : Files) → OnOk result (sink.new.bytes ≡ resources_until most old sink.old.bytes
        (map (described (world_of L.log parts.now files).known.topics) resources.now)) }
{
    sink.put_count(resources.len())?;
    for resource in resources {
        if sink.len() > most {
            return Ok(());
        }
        put_resource(alloc, parts, old, resource, sink)?;
    }
    Ok(())
}

/// Serves DescribeConfigs: writes the reply of a version behind what the sink has.
///
/// The writing stops with the resource that takes the sink past so many bytes. An `Err`, which is want of memory for the reply, leaves
/// a part of it written.
pub fn describe_configs<L: PartitionLog + Drop>(
    alloc: Global,
    parts: &Parts<L>,
    version: i16,
    request: &DescribeConfigsRequest<'_>,
    most: usize,
    sink: &mut Sink,
) -> Result<(), AllocError>
    requires { describe_configs_request.Fits request.now }
    ensures exact { (files : Files) → OnOk result (sink.new.bytes ≡ resources_until most (is_old version)
        (sink.old.bytes ++ int32.written (pos 0)) (configs_of (world_of L.log parts.now files).known.topics request.now)) }
    ensures whole { (files : Files) → OnOk result (AreUntil most (sink.old.bytes
        ++ configs_in version (configs_of (world_of L.log parts.now files).known.topics request.now)) sink.new.bytes) }
{
    sink.put_i32(0)?;
    let old = is_old(version);
    put_resources(alloc, parts, old, request.resources.as_slice(), most, sink)
}
