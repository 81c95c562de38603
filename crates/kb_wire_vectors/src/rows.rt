//! Exchanges as they are read.

use crate::line::Line;
use crate::play::Exchange;
use crate::words::Words;
use kb_node::Listing;
use std::alloc::{AllocError, Global};

/// Plays the exchanges of a text, and says what came of each.
pub fn play_all(alloc: Global, text: &str) -> Result<String, AllocError> {
    let mut rows = Rows::new(alloc);
    for line in text.lines() {
        rows.take(alloc, line)?;
    }
    rows.finish(alloc)?;
    Ok(rows.said)
}

/// The words that were given, the exchange that is read now, and what those before it came to.
#[derive(Drop)]
struct Rows<'a> {
    words: Words<'a>,
    exchange: Exchange<'a>,
    said: String,
}

impl<'a> Rows<'a> {
    /// No word, and no exchange.
    fn new(alloc: Global) -> Rows<'a> {
        Rows {
            words: Words::new(alloc),
            exchange: Exchange::new(alloc, ""),
            said: String::new(alloc),
        }
    }

    /// One more line.
    fn take(&mut self, alloc: Global, line: &'a str) -> Result<(), AllocError> {
        if line.is_empty() || line.starts_with('#') {
            return Ok(());
        }
        if let Some(name) = line.strip_prefix("== ") {
            self.finish(alloc)?;
            self.exchange = Exchange::new(alloc, name);
            return Ok(());
        }
        if let Some(word) = line.strip_prefix("word ") {
            return self.words.learn(alloc, word);
        }
        self.take_line(alloc, line)
    }

    /// One more line of the exchange.
    fn take_line(&mut self, alloc: Global, line: &'a str) -> Result<(), AllocError> {
        if let Some(setting) = line.strip_prefix("settings") {
            self.exchange.settings.push_str(setting)?;
            return self.exchange.settings.push('\n');
        }
        if line == "for stock clients" {
            self.exchange.listing = Listing::StockClients;
            return Ok(());
        }
        if let Some(wanted) = line.strip_prefix("> ") {
            return self.want(alloc, wanted);
        }
        if line.starts_with("! ") {
            self.exchange.has_fault = true;
            return self.want(alloc, line);
        }
        let event = Line::new(alloc, &self.words, line)?;
        Ok(self.exchange.script.push(event)?)
    }

    /// One more line that is to be said.
    fn want(&mut self, alloc: Global, line: &str) -> Result<(), AllocError> {
        let line = Line::new(alloc, &self.words, line)?;
        line.put(&mut self.exchange.wanted, usize::MAX)
    }

    /// Plays the exchange that is read, where there is one.
    fn finish(&mut self, alloc: Global) -> Result<(), AllocError> {
        if self.exchange.name.is_empty() {
            return Ok(());
        }
        self.exchange.play(alloc, &mut self.said)
    }
}
