//! A topic that a broker listed.

ghost use Rattle.std.specs.Prelude.{◌≡◌, IfOk};
ghost use Rattle.kb_admin.specs.Replies.{as_topic};

use kb_api_data::MetadataTopic;
use std::alloc::{AllocError, Global};
use std::marker::Model;

/// A topic that a broker listed. A clause sees its name, how many partitions it has, and its error code, which is 0 for none.
#[derive(Drop)]
pub struct Listed {
    name: String,
    partitions: usize,
    error_code: i16,
}

impl Model for Listed {
    ghost use Rattle.std.specs.Prelude.{string_bytes};
    ghost use Rattle.kb_admin.specs.Outcomes.{Topic};

    ghost Value = { Topic };

    ghost view = { λ t. record { name = string_bytes t.name; partitions = t.partitions; error_code = t.error_code } };
}

impl Listed {
    /// What a reply of Metadata says of a topic.
    pub fn new(alloc: Global, topic: &MetadataTopic<'_>) -> Result<Listed, AllocError>
        ensures { IfOk result (λ it. it ≡ as_topic topic.now) }
    {
        Ok(Listed {
            name: String::from_str(alloc, topic.name.as_str())?,
            partitions: topic.partitions.len(),
            error_code: topic.error_code,
        })
    }

    /// Its name.
    pub fn name(&self) -> &str
        ensures { result.now ≡ self.now.name }
    {
        &self.name
    }

    /// How many partitions it has.
    pub fn partitions(&self) -> usize
        ensures { result ≡ self.now.partitions }
    {
        self.partitions
    }

    /// Its error code, which is 0 for none.
    pub fn error_code(&self) -> i16
        ensures { result ≡ self.now.error_code }
    {
        self.error_code
    }
}
