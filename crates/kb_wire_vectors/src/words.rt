//! How bytes are written.

use std::alloc::{AllocError, Global};

/// The words that stand for bytes, each with their digits.
#[derive(Drop)]
pub struct Words<'a> {
    known: Vec<(&'a str, String)>,
}

impl<'a> Words<'a> {
    /// No word.
    pub fn new(alloc: Global) -> Words<'a> {
        Words {
            known: Vec::new(alloc),
        }
    }

    /// A text `NAME BYTES` gives one more.
    pub fn learn(&mut self, alloc: Global, text: &'a str) -> Result<(), AllocError> {
        if let Some((name, bytes)) = text.split_once(' ') {
            let mut digits = String::new(alloc);
            self.put(alloc, &mut digits, bytes)?;
            self.known.push((name, digits))?;
        }
        Ok(())
    }

    /// Adds the digits of some bytes.
    pub fn put(&self, alloc: Global, digits: &mut String, bytes: &str) -> Result<(), AllocError> {
        for item in bytes.split(' ') {
            let value = match item.split_once(':') {
                Some((_field, value)) => value,
                None => item,
            };
            match value.strip_prefix('\'') {
                Some(letters) => digits.push_str(&hex::encode(alloc, letters.as_bytes())?)?,
                None => digits.push_str(self.meaning(value))?,
            }
        }
        Ok(())
    }

    /// What a word stands for: itself, where it stands for no other.
    fn meaning<'w>(&'w self, word: &'w str) -> &'w str {
        for (name, digits) in &self.known {
            if *name == word {
                return digits.as_str();
            }
        }
        word
    }
}
