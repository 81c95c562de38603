//! The limits of the texts.

ghost use Rattle.std.specs.Prelude.{◌≡◌};
ghost use Rattle.std.specs.List.{list_all};
ghost use Rattle.kb_settings.specs.Settings.{is_host, is_credential, is_tenant, is_not_nul, is_name_char};
ghost use Rattle.kb_settings.specs.Metrics.{is_token, is_printable};

/// Whether a text is a host: 1 to 255 bytes.
pub fn is_host(text: &str) -> bool
    ensures { result ≡ is_host text.now }
{
    1 <= text.len() && text.len() <= 255
}

/// Whether a text may be a user's name or password: 1 to 255 bytes, none of them NUL.
pub fn is_credential(text: &str) -> bool
    ensures { result ≡ is_credential text.now }
{
    1 <= text.len() && text.len() <= 255 && has_no_nul(text.as_bytes())
}

/// Whether a text may be a tenant's name: 1 to 64 of the characters `a-z A-Z 0-9 . _ -`.
pub fn is_tenant(text: &str) -> bool
    ensures { result ≡ is_tenant text.now }
{
    1 <= text.len() && text.len() <= 64 && are_name_chars(text.as_bytes())
}

/// Whether a text may be the token that who asks for metrics has to name: 16 to 255 printable ASCII characters, none of them a space.
pub fn is_token(text: &str) -> bool
    ensures { result ≡ is_token text.now }
{
    16 <= text.len() && text.len() <= 255 && are_printable(text.as_bytes())
}

fn has_no_nul(bytes: &[u8]) -> bool
    ensures { result ≡ list_all is_not_nul bytes.now }
{
    bytes.iter().all(|byte| *byte != 0)
}

fn are_printable(bytes: &[u8]) -> bool
    ensures { result ≡ list_all is_printable bytes.now }
{
    bytes.iter().all(|byte| is_printable(*byte))
}

fn is_printable(byte: u8) -> bool
    ensures { result ≡ is_printable byte }
{
    byte >= 33 && byte <= 126
}

fn are_name_chars(bytes: &[u8]) -> bool
    ensures { result ≡ list_all is_name_char bytes.now }
{
    bytes.iter().all(|byte| is_name_char(*byte))
}

fn is_name_char(byte: u8) -> bool
    ensures { result ≡ is_name_char byte }
{
    byte.is_ascii_alphanumeric() || byte == b'.' || byte == b'_' || byte == b'-'
}
