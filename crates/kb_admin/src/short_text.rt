//! Texts of at most 255 bytes.

ghost use Rattle.std.specs.Prelude.{◌≡◌, ◌≤◌, ◌<◌, length, string_bytes, MatchOption};

use std::marker::Model;

/// The most bytes of a user, a password, a topic's name, and a setting's key or value.
pub const MAX_TEXT_BYTES: usize = 255;

/// A text of at most 255 bytes. A clause sees the list of its bytes.
#[derive(Drop)]
pub struct ShortText {
    text: String,
}

impl Model for ShortText {
    ghost use Rattle.std.specs.Prelude.{◌≤◌, List, ℕ, length, string_bytes};

    ghost Value = { List ℕ };

    ghost view = { λ t. string_bytes t.text };

    ghost invariant = { λ t. length (string_bytes t.text) ≤ 255 };
}

impl ShortText {
    /// The text, if it has at most 255 bytes.
    pub fn new(text: String) -> Option<ShortText>
        ensures { MatchOption result (255 < length (string_bytes text)) (λ short. short ≡ string_bytes text) }
    {
        if text.len() > MAX_TEXT_BYTES {
            return None;
        }
        Some(ShortText { text })
    }

    /// The text.
    pub fn as_str(&self) -> &str
        ensures value { result.now ≡ self.now }
        ensures short { length result.now ≤ 255 }
    {
        &self.text
    }
}
