//! A line of a script, or one that is said.

ghost use Rattle.std.specs.Prelude.{◌<◌};

use crate::words::Words;
use std::alloc::{AllocError, Global};

/// A line: what stands before its bytes, and these as digits.
#[derive(Drop)]
pub struct Line<'a> {
    word: &'a str,
    connection: &'a str,
    digits: String,
}

impl<'a> Line<'a> {
    /// The line of a text. Only behind `in` and `out` and a connection there are bytes.
    pub fn new(alloc: Global, words: &Words<'_>, text: &'a str) -> Result<Line<'a>, AllocError> {
        let mut line = Line {
            word: text,
            connection: "",
            digits: String::new(alloc),
        };
        if let Some((word, rest)) = text.split_once(' ') {
            if let Some((connection, bytes)) = rest.split_once(' ') {
                if word == "in" || word == "out" {
                    line.word = word;
                    line.connection = connection;
                    words.put(alloc, &mut line.digits, bytes)?;
                }
            }
        }
        Ok(line)
    }

    /// Adds the line to a text. Where it has more digits than that, it is cut into several.
    pub fn put(&self, text: &mut Vec<u8>, most: usize) -> Result<(), AllocError>
        requires { 0 < most }
    {
        if self.digits.is_empty() {
            return self.put_piece(text, b"");
        }
        for piece in self.digits.as_bytes().chunks(most) {
            self.put_piece(text, piece)?;
        }
        Ok(())
    }

    /// Adds a line with these digits to a text.
    fn put_piece(&self, text: &mut Vec<u8>, digits: &[u8]) -> Result<(), AllocError> {
        text.extend_from_slice(self.word.as_bytes())?;
        if !self.connection.is_empty() {
            text.push(b' ')?;
            text.extend_from_slice(self.connection.as_bytes())?;
        }
        if !digits.is_empty() {
            text.push(b' ')?;
            text.extend_from_slice(digits)?;
        }
        Ok(text.push(b'\n')?)
    }
}
