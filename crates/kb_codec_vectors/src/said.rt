//! What is said of a case, in lines.

use std::alloc::{AllocError, Global};

/// What a field holds.
#[derive(Clone, Copy)]
pub enum Field<'a> {
    Number(i64),
    Id(u64),
    Count(usize),
    Text(&'a str),
    /// Bytes that are letters.
    Letters(&'a [u8]),
    Numbers(&'a [i32]),
}

/// The lines that were said.
#[derive(Drop)]
pub struct Said {
    alloc: Global,
    text: String,
}

impl Said {
    /// No line.
    pub fn new(alloc: Global) -> Said {
        Said {
            alloc,
            text: String::new(alloc),
        }
    }

    /// All lines.
    pub fn as_str(&self) -> &str {
        self.text.as_str()
    }

    /// One more line.
    pub fn line(&mut self, line: &str) -> Result<(), AllocError> {
        self.text.push_str(line)?;
        self.text.push('\n')
    }

    /// One more line, of the digits of bytes.
    pub fn bytes(&mut self, bytes: &[u8]) -> Result<(), AllocError> {
        let digits = hex::encode(self.alloc, bytes)?;
        self.line(&digits)
    }

    /// One more line, of fields with their names.
    pub fn fields(&mut self, fields: &[(&str, Field<'_>)]) -> Result<(), AllocError> {
        let mut separator = "";
        for (name, field) in fields {
            self.field(separator, name, *field)?;
            separator = ", ";
        }
        self.text.push('\n')
    }

    /// A field behind its name.
    fn field(&mut self, separator: &str, name: &str, field: Field<'_>) -> Result<(), AllocError> {
        self.text.push_str(separator)?;
        self.text.push_str(name)?;
        self.text.push(' ')?;
        self.value(field)
    }

    /// What a field holds.
    fn value(&mut self, field: Field<'_>) -> Result<(), AllocError> {
        match field {
            Field::Number(number) => self.number(number),
            Field::Id(id) => self.id(id),
            Field::Count(count) => self.id(count as u64),
            Field::Text(text) => self.letters(text),
            Field::Letters(bytes) => self.letters(str::from_utf8(bytes).unwrap_or("?")),
            Field::Numbers(numbers) => self.numbers(numbers),
        }
    }

    fn letters(&mut self, letters: &str) -> Result<(), AllocError> {
        self.text
            .push_str(if letters.is_empty() { "empty" } else { letters })
    }

    fn id(&mut self, id: u64) -> Result<(), AllocError> {
        let text = format!(in self.alloc; "{id}")?;
        self.text.push_str(&text)
    }

    fn number(&mut self, number: i64) -> Result<(), AllocError> {
        let text = format!(in self.alloc; "{number}")?;
        self.text.push_str(&text)
    }

    /// Numbers with a `+` between them.
    fn numbers(&mut self, numbers: &[i32]) -> Result<(), AllocError> {
        let mut separator = "";
        for number in numbers {
            self.text.push_str(separator)?;
            self.number(*number as i64)?;
            separator = "+";
        }
        Ok(())
    }
}
