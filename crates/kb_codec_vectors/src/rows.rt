//! Cases as they are read.

use crate::groups::Members;
use crate::producers::Producers;
use crate::said::Said;
use crate::words::Words;
use crate::{batches, bodies, numbers, settings};
use std::alloc::{AllocError, Global};

/// Plays the cases of a text, and says what came of each.
pub fn play_all(alloc: Global, text: &str) -> Result<String, AllocError> {
    let mut rows = Rows::new(alloc);
    rows.take_all(alloc, text)?;
    Ok(rows.played)
}

/// The words that were given, the case that is read now, and what those before it came to.
#[derive(Drop)]
struct Rows<'a> {
    words: Words<'a>,
    name: &'a str,
    members: Members,
    producers: Producers,
    wanted: Said,
    said: Said,
    played: String,
}

impl<'a> Rows<'a> {
    /// No word, and no case.
    fn new(alloc: Global) -> Rows<'a> {
        Rows {
            words: Words::new(alloc),
            name: "",
            members: Members::new(alloc),
            producers: Producers::new(alloc),
            wanted: Said::new(alloc),
            said: Said::new(alloc),
            played: String::new(alloc),
        }
    }

    /// The lines of a text, to the end of its last case.
    fn take_all(&mut self, alloc: Global, text: &'a str) -> Result<(), AllocError> {
        for line in text.lines() {
            self.take(alloc, line)?;
        }
        self.finish()
    }

    /// One more line.
    fn take(&mut self, alloc: Global, line: &'a str) -> Result<(), AllocError> {
        if line.is_empty() || line.starts_with('#') {
            return Ok(());
        }
        if let Some(name) = line.strip_prefix("== ") {
            self.finish()?;
            self.begin(alloc, name);
            return Ok(());
        }
        if let Some(wanted) = line.strip_prefix("> ") {
            return self.wanted.line(wanted);
        }
        if let Some(wanted) = line.strip_prefix(">> ") {
            return self.want_bytes(alloc, wanted);
        }
        let (kind, rest) = line.split_once(' ').unwrap_or((line, ""));
        self.take_case(alloc, kind, rest)
    }

    /// Begins a case.
    fn begin(&mut self, alloc: Global, name: &'a str) {
        self.name = name;
        self.members = Members::new(alloc);
        self.producers = Producers::new(alloc);
        self.wanted = Said::new(alloc);
        self.said = Said::new(alloc);
    }

    /// One more line that is to be said, of the digits of bytes.
    fn want_bytes(&mut self, alloc: Global, words: &str) -> Result<(), AllocError> {
        let bytes = self.words.bytes(alloc, words)?;
        self.wanted.bytes(&bytes)
    }

    /// A line of the case: a call on a group or of producers, a text of settings, a number, or else bytes.
    fn take_case(&mut self, alloc: Global, kind: &'a str, rest: &'a str) -> Result<(), AllocError> {
        if kind == "word" {
            return self.words.learn(alloc, rest);
        }
        if self.members.call(alloc, kind, rest, &mut self.said)? {
            return Ok(());
        }
        self.take_batches(alloc, kind, rest)
    }

    /// A line of the case that is no call on a group.
    fn take_batches(&mut self, alloc: Global, kind: &str, rest: &str) -> Result<(), AllocError> {
        if self.producers.call(alloc, kind, rest, &mut self.said)? {
            return Ok(());
        }
        self.take_text(alloc, kind, rest)
    }

    /// A line of the case that is no call.
    fn take_text(&mut self, alloc: Global, kind: &str, rest: &str) -> Result<(), AllocError> {
        if read_text(alloc, kind, rest, &mut self.said)? {
            return Ok(());
        }
        let bytes = self.words.bytes(alloc, rest)?;
        self.take_bytes(alloc, kind, &bytes)
    }

    /// A line of the case that speaks of bytes.
    fn take_bytes(&mut self, alloc: Global, kind: &str, bytes: &[u8]) -> Result<(), AllocError> {
        if self.producers.read(alloc, kind, bytes, &mut self.said)? {
            return Ok(());
        }
        read_bytes(alloc, kind, bytes, &mut self.said)
    }

    /// Adds the name of the case that is read, where there is one. Else than wanted, what was said stands above it.
    fn finish(&mut self) -> Result<(), AllocError> {
        if self.name.is_empty() {
            return Ok(());
        }
        if self.said.as_str() != self.wanted.as_str() {
            self.played.push_str("WRONG\n")?;
            self.played.push_str(self.said.as_str())?;
        }
        self.played.push_str(self.name)?;
        self.played.push('\n')
    }
}

/// `member`, `build`, and texts of settings. Whether the kind is one of these.
fn read_text(alloc: Global, kind: &str, text: &str, said: &mut Said) -> Result<bool, AllocError> {
    match kind {
        "member" => numbers::member(alloc, text, said)?,
        "build" => batches::build(alloc, text, said)?,
        _ => return settings::read(alloc, kind, text, said),
    }
    Ok(true)
}

/// `batch`, `fronts`, `stamp`, `VARINT`, `VARLONG` and `crc32c`; another kind is read as a body.
fn read_bytes(alloc: Global, kind: &str, bytes: &[u8], said: &mut Said) -> Result<(), AllocError> {
    match kind {
        "batch" => batches::batch(alloc, bytes, said),
        "fronts" => batches::fronts(alloc, bytes, said),
        "stamp" => batches::stamped(alloc, bytes, said),
        "VARINT" => numbers::varint(alloc, bytes, said),
        "VARLONG" => numbers::varlong(alloc, bytes, said),
        "crc32c" => numbers::checksum(bytes, said),
        _ => bodies::read(alloc, kind, bytes, said),
    }
}
