//! What a person does to topics.

ghost use Rattle.std.specs.Prelude.{◌≡◌, IfOk};
ghost use Rattle.kb_admin.specs.Settings.{SaysSetting};

use crate::short_text::ShortText;
use std::alloc::{AllocError, Global};

/// A setting of a topic, as `retention.ms` with `60000`.
#[derive(Drop)]
pub struct Setting {
    pub key: ShortText,
    pub value: ShortText,
}

impl Setting {
    /// What the text `KEY=VALUE` says, which is split at its first `=`.
    ///
    /// `None`: it has no `=`, or the key or the value has more than 255 bytes.
    pub fn read(alloc: Global, text: &str) -> Result<Option<Setting>, AllocError>
        ensures { IfOk result (λ setting. SaysSetting text.now setting) }
    {
        let Some((key, value)) = text.split_once('=') else {
            return Ok(None);
        };
        let Some(key) = ShortText::new(String::from_str(alloc, key)?) else {
            return Ok(None);
        };
        let Some(value) = ShortText::new(String::from_str(alloc, value)?) else {
            return Ok(None);
        };
        Ok(Some(Setting { key, value }))
    }
}

/// A topic that is to be made. What the broker does not take, it refuses by an error code.
#[derive(Drop)]
pub struct NewTopic {
    pub name: ShortText,
    pub partitions: i32,
    pub settings: Vec<Setting>,
}

/// What a person does to the topics of the tenant that a login belongs to.
#[derive(Drop)]
pub enum Task {
    /// Makes a topic.
    Create(NewTopic),
    /// Deletes the topic of that name.
    Delete(ShortText),
    /// Asks for all topics.
    List,
}
