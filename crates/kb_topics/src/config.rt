//! Settings that a topic may be given when it is made.
ghost use Rattle.std.specs.Prelude.{◌≡◌, ◌≤◌, length, Some, None, true, false};
ghost use Rattle.std.specs.List.{list_all};
ghost use Rattle.std.specs.Char.{is_ascii_digit};
ghost use Rattle.std.specs.Option.{option_copied};
ghost use Rattle.kb_topics.specs.Config.{number_in, limit_in};
ghost use Rattle.kb_topics.specs.ConfigReading.{entry_of, with_entry, config_of, nothing_read};

/// How long a topic keeps its records. A limit of -1 keeps them for good.
#[derive(Clone, Copy, Debug, PartialEq, Eq)]
pub struct TopicConfig {
    /// `retention.ms`, in milliseconds.
    pub retention_ms: i64,
    /// `retention.bytes`, of each partition.
    pub retention_bytes: i64,
}

/// A setting that a topic may be given (Apache Kafka's names of topic settings).
#[derive(Clone, Copy, Debug, PartialEq, Eq)]
pub enum ConfigEntry {
    /// `retention.ms`.
    RetentionMs(i64),
    /// `retention.bytes`.
    RetentionBytes(i64),
    /// `cleanup.policy`, which is `delete`.
    CleanupPolicy,
}

/// Whether all bytes are decimal digits.
fn are_digits(bytes: &[u8]) -> bool
    ensures { result ≡ list_all is_ascii_digit bytes.now }
{
    bytes.iter().all(|digit| digit.is_ascii_digit())
}

/// The number that a text of decimal digits is, if it is an INT64.
fn number_in(text: &str) -> Option<i64>
    requires digits { list_all is_ascii_digit text.now ≡ true }
    requires some { 1 ≤ length text.now }
    ensures { result ≡ number_in text.now }
{
    text.parse::<i64>().ok()
}

/// The limit that a text is: `-1`, or 1 to 19 decimal digits of a number that is an INT64.
fn limit_in(text: &str) -> Option<i64>
    ensures { result ≡ limit_in text.now }
{
    if text == "-1" {
        Some(-1)
    } else if !text.is_empty() && text.len() <= 19 && are_digits(text.as_bytes()) {
        number_in(text)
    } else {
        None
    }
}

/// The setting that a name and a value are, if a topic may be given it.
pub fn config_entry(name: &str, value: Option<&str>) -> Option<ConfigEntry>
    ensures { result ≡ entry_of name.now (option_copied value.entry) }
{
    let value = value?;
    if name == "retention.ms" {
        return Some(ConfigEntry::RetentionMs(limit_in(value)?));
    }
    if name == "retention.bytes" {
        return Some(ConfigEntry::RetentionBytes(limit_in(value)?));
    }
    if name == "cleanup.policy" && value == "delete" {
        return Some(ConfigEntry::CleanupPolicy);
    }
    None
}

/// The settings of a request, one after another, each name once.
#[derive(Clone, Copy, Debug)]
pub struct ConfigReader {
    pub retention_ms: Option<i64>,
    pub retention_bytes: Option<i64>,
    pub cleanup_policy: bool,
}

impl ConfigReader {
    /// No setting was read.
    pub fn new() -> ConfigReader
        ensures { result ≡ nothing_read }
    {
        ConfigReader {
            retention_ms: None,
            retention_bytes: None,
            cleanup_policy: false,
        }
    }

    /// Reads one more setting. It is refused where it is none that a topic may be given, and where its name was read before.
    pub fn read(&mut self, name: &str, value: Option<&str>) -> bool
        ensures taken { result ≡ true → with_entry self.old (entry_of name.now (option_copied value.entry)) ≡ Some self.new }
        ensures refused { result ≡ false → with_entry self.old (entry_of name.now (option_copied value.entry)) ≡ None }
        ensures unchanged { result ≡ false → self.new ≡ self.old }
    {
        match config_entry(name, value) {
            Some(ConfigEntry::RetentionMs(limit)) if self.retention_ms.is_none() => {
                self.retention_ms = Some(limit);
                true
            }
            Some(ConfigEntry::RetentionBytes(limit)) if self.retention_bytes.is_none() => {
                self.retention_bytes = Some(limit);
                true
            }
            Some(ConfigEntry::CleanupPolicy) if !self.cleanup_policy => {
                self.cleanup_policy = true;
                true
            }
            _ => false,
        }
    }

    /// What was read, and the defaults for what was not: seven days, and no limit of bytes.
    pub fn config(&self) -> TopicConfig
        ensures { result ≡ config_of self.now }
    {
        TopicConfig {
            retention_ms: self.retention_ms.unwrap_or(604_800_000),
            retention_bytes: self.retention_bytes.unwrap_or(-1),
        }
    }
}
