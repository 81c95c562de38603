//! Names of topics.
ghost use Rattle.std.specs.Prelude.{◌≡◌};
ghost use Rattle.std.specs.List.{list_all};
ghost use Rattle.kb_topics.specs.Name.{is_name_byte, is_legal};

/// Whether a byte may stand in a name.
fn is_name_byte(byte: u8) -> bool
    ensures { result ≡ is_name_byte byte }
{
    byte.is_ascii_alphanumeric() || byte == b'.' || byte == b'_' || byte == b'-'
}

/// Whether all bytes may stand in a name.
fn are_name_bytes(bytes: &[u8]) -> bool
    ensures { result ≡ list_all is_name_byte bytes.now }
{
    bytes.iter().all(|byte| is_name_byte(*byte))
}

/// Whether a topic may be called so: 1 to 249 letters, digits, dots, underscores and hyphens of ASCII, but neither `.` nor `..`
/// (Apache Kafka's rule for topic names).
pub fn is_legal_name(name: &str) -> bool
    ensures { result ≡ is_legal name.now }
{
    !name.is_empty()
        && name.len() <= 249
        && name != "."
        && name != ".."
        && are_name_bytes(name.as_bytes())
}
