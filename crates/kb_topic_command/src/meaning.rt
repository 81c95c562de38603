//! What an error code says of the words of the command line.

ghost use Rattle.std.specs.Prelude.{◌≡◌, string_bytes, Some, IfOk};
ghost use Rattle.kb_topics.specs.ConfigReading.{entry_of, nothing_read};
ghost use Rattle.kb_topic_command.specs.Meaning.{wanted, wanted_policy, wrong_with, config_text};
ghost use Rattle.kb_topic_command.specs.Meaning.{partitions_meaning, config_meaning, code_meaning, meaning};
ghost use Rattle.kb_topic_command.specs.Wrong.{from_wrong};

use kb_admin::{Setting, Task};
use kb_topics::{ConfigReader, config_entry};
use kb_wire::ErrorCode;
use std::alloc::{AllocError, Global};

/// What an error code says of a task: which word is wrong, and what it may be. Nothing where the code's name says all.
pub(crate) fn meaning(alloc: Global, task: &Task, code: i16) -> Result<String, AllocError>
    ensures { IfOk result (λ text. string_bytes text ≡ meaning task.now code) }
{
    if code == ErrorCode::InvalidPartitions.code() {
        return partitions_meaning(alloc, task);
    }
    if code == ErrorCode::InvalidConfig.code() {
        return config_meaning(alloc, task);
    }
    String::from_str(alloc, code_meaning(code))
}

/// What the number of partitions may be.
fn partitions_meaning(alloc: Global, task: &Task) -> Result<String, AllocError>
    ensures { IfOk result (λ text. string_bytes text ≡ partitions_meaning task.now) }
{
    let Task::Create(topic) = task else {
        return Ok(String::new(alloc));
    };
    let partitions = topic.partitions;
    format!(in alloc; ": --partitions {partitions}: a topic has 1 to 64 partitions")
}

/// What is wrong with the settings.
fn config_meaning(alloc: Global, task: &Task) -> Result<String, AllocError>
    ensures { IfOk result (λ text. string_bytes text ≡ config_meaning task.now) }
{
    let Task::Create(topic) = task else {
        return Ok(String::new(alloc));
    };
    config_text(alloc, wrong_settings(&topic.settings))
}

/// What the codes mean whose names do not say it, whatever was asked.
#[tactic(auto, unfolding(crate::specs::Meaning::code_meaning))]
fn code_meaning(code: i16) -> &'static str
    ensures { result.now ≡ code_meaning code }
{
    if code == ErrorCode::InvalidTopic.code() {
        return ": a name has 1 to 249 of a-z A-Z 0-9 . _ -";
    }
    if code == ErrorCode::PolicyViolation.code() {
        return ": the tenant is at its limit of topics or of partitions";
    }
    if code == ErrorCode::SaslAuthenticationFailed.code() {
        return ": no user has this name and password";
    }
    ""
}

/// Some settings from the first one on that a topic may not be given; none where each may be.
fn wrong_settings(settings: &[Setting]) -> &[Setting]
    ensures { result.now ≡ from_wrong nothing_read settings.now }
{
    from_wrong(ConfigReader::new(), settings)
}

/// The same behind those that were read.
fn from_wrong(reader: ConfigReader, settings: &[Setting]) -> &[Setting]
    ensures { result.now ≡ from_wrong reader settings.now }
{
    let Some((first, behind)) = settings.split_first() else {
        return settings;
    };
    let mut next = reader;
    if !next.read(first.key.as_str(), Some(first.value.as_str())) {
        return settings;
    }
    from_wrong(next, behind)
}

/// What is wrong with the first of some settings.
fn config_text(alloc: Global, wrong: &[Setting]) -> Result<String, AllocError>
    ensures { IfOk result (λ text. string_bytes text ≡ config_text wrong.now) }
{
    let Some((first, _)) = wrong.split_first() else {
        return String::from_str(alloc, ": the broker does not take these settings");
    };
    let key = first.key.as_str();
    let value = first.value.as_str();
    let why = wrong_with(key, value);
    format!(in alloc; ": --config {key}={value}: {why}")
}

/// What is wrong with a setting: one that a topic may be given was read before.
fn wrong_with(key: &str, value: &str) -> &'static str
    ensures { result.now ≡ wrong_with key.now (entry_of key.now (Some value.now)) }
{
    if config_entry(key, Some(value)).is_some() {
        return "it is given twice";
    }
    wanted(key)
}

/// What a setting of that name may be.
#[tactic(auto, unfolding(crate::specs::Meaning::wanted))]
fn wanted(key: &str) -> &'static str
    ensures { result.now ≡ wanted key.now }
{
    if key == "retention.ms" {
        return "it is a number of milliseconds up to 9223372036854775807, or -1 for ever";
    }
    if key == "retention.bytes" {
        return "it is a number of bytes up to 9223372036854775807, or -1 for any number";
    }
    wanted_policy(key)
}

/// What a policy may be, and else which settings there are.
#[tactic(auto, unfolding(crate::specs::Meaning::wanted_policy))]
fn wanted_policy(key: &str) -> &'static str
    ensures { result.now ≡ wanted_policy key.now }
{
    if key == "cleanup.policy" {
        return "it is delete";
    }
    "the settings of a topic are retention.ms, retention.bytes and cleanup.policy"
}
