//! Texts and bytes that are borrowed from what was read. A clause sees each as the list of its bytes.

ghost use Rattle.std.specs.Prelude.{◌≡◌};

use std::marker::Model;

/// A text (STRING). A clause sees the list of its bytes.
#[derive(Drop)]
pub struct Text<'a> {
    text: &'a str,
}

impl<'a> Model for Text<'a> {
    ghost use Rattle.std.specs.Prelude.{List, ℕ};

    ghost Value = { List ℕ };

    ghost view = { λ a. a.text.now };
}

impl<'a> Text<'a> {
    /// The text, borrowed.
    pub fn new(text: &'a str) -> Text<'a>
        ensures { result ≡ text.now }
    {
        Text { text }
    }

    /// The text, as long as what it was borrowed from.
    pub fn as_str(&self) -> &'a str
        ensures { result.now ≡ self.now }
    {
        self.text
    }
}

/// Bytes (BYTES, or what `Cursor::take` gives). A clause sees their list.
#[derive(Drop)]
pub struct Blob<'a> {
    bytes: &'a [u8],
}

impl<'a> Model for Blob<'a> {
    ghost use Rattle.std.specs.Prelude.{List, ℕ};

    ghost Value = { List ℕ };

    ghost view = { λ a. a.bytes.now };
}

impl<'a> Blob<'a> {
    /// The bytes, borrowed.
    #[inline]
    pub fn new(bytes: &'a [u8]) -> Blob<'a>
        ensures { result ≡ bytes.now }
    {
        Blob { bytes }
    }

    /// The bytes, as long as what they were borrowed from.
    pub fn as_slice(&self) -> &'a [u8]
        ensures { result.now ≡ self.now }
    {
        self.bytes
    }
}
