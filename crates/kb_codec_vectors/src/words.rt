//! How bytes are written.

use std::alloc::{AllocError, Global};

/// The words that stand for bytes, each with their digits.
#[derive(Drop)]
pub struct Words<'a> {
    known: Vec<(&'a str, String)>,
}

impl<'a> Words<'a> {
    /// No word.
    pub fn new(alloc: Global) -> Words<'a> {
        Words {
            known: Vec::new(alloc),
        }
    }

    /// A text `NAME BYTES` gives one more.
    pub fn learn(&mut self, alloc: Global, text: &'a str) -> Result<(), AllocError> {
        if let Some((name, bytes)) = text.split_once(' ') {
            let digits = self.digits(alloc, bytes)?;
            self.known.push((name, digits))?;
        }
        Ok(())
    }

    /// The bytes that are written so; none where there is a digit that is none.
    pub fn bytes(&self, alloc: Global, words: &str) -> Result<Vec<u8>, AllocError> {
        let digits = self.digits(alloc, words)?;
        match hex::decode(alloc, digits.as_bytes()) {
            Ok(bytes) => Ok(bytes),
            Err(_) => Ok(Vec::new(alloc)),
        }
    }

    /// The digits of some bytes.
    fn digits(&self, alloc: Global, bytes: &str) -> Result<String, AllocError> {
        let mut digits = String::new(alloc);
        self.put(alloc, &mut digits, bytes)?;
        Ok(digits)
    }

    /// Adds the digits of some bytes.
    fn put(&self, alloc: Global, digits: &mut String, bytes: &str) -> Result<(), AllocError> {
        for item in bytes.split(' ') {
            let value = match item.split_once(':') {
                Some((_field, value)) => value,
                None => item,
            };
            self.put_value(alloc, digits, value)?;
        }
        Ok(())
    }

    /// Adds the digits of letters behind a `'`, or of a word.
    fn put_value(&self, alloc: Global, digits: &mut String, value: &str) -> Result<(), AllocError> {
        match value.strip_prefix('\'') {
            Some(letters) => {
                let letters = hex::encode(alloc, letters.as_bytes())?;
                digits.push_str(&letters)
            }
            None => digits.push_str(self.meaning(value)),
        }
    }

    /// What a word stands for: itself, where it stands for no other.
    fn meaning<'w>(&'w self, word: &'w str) -> &'w str {
        for (name, digits) in &self.known {
            if *name == word {
                return digits.as_str();
            }
        }
        word
    }
}
