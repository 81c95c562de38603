//! A line that is to be sent.

ghost use Rattle.std.specs.Prelude.{◌≡◌, ◌≤◌, pos, length, IfOk};
ghost use Rattle.kb_wire.specs.declared.clock.TheConstants.{MAX_CLOCK};

use std::alloc::{AllocError, Global};
use std::marker::Model;

/// The greatest number of bytes of a line.
pub const MAX_LINE_BYTES: usize = 1_000_000;

/// A line that is to be sent: its bytes, and the moment at which it was handed in, in milliseconds.
#[derive(Drop)]
pub struct Line {
    bytes: Vec<u8>,
    timestamp: i64,
}

impl Model for Line {
    ghost use Rattle.kb_client.specs.Sent.{Line};

    ghost Value = { Line };

    ghost view = { λ l. record { value = l.bytes.items; timestamp = l.timestamp } };
}

impl Line {
    /// A copy of the bytes, handed in at that moment.
    pub fn new(alloc: Global, bytes: &[u8], now: u64) -> Result<Line, AllocError>
        requires { now ≤ MAX_CLOCK }
        ensures { IfOk result (λ line. line ≡ record { value = bytes.now; timestamp = pos now }) }
    {
        let mut copy = Vec::new(alloc);
        copy.extend_from_slice(bytes)?;
        Ok(Line {
            bytes: copy,
            timestamp: now as i64,
        })
    }

    /// Its bytes.
    pub fn bytes(&self) -> &[u8]
        ensures { result.now ≡ self.now.value }
    {
        &self.bytes
    }

    /// The moment at which it was handed in, in milliseconds.
    pub fn timestamp(&self) -> i64
        ensures { result ≡ self.now.timestamp }
    {
        self.timestamp
    }
}
