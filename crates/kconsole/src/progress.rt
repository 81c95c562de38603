//! How far the work is, told on standard error where that is a terminal.

use std::io::IsTerminal;
use std::time::{Duration, Instant};

/// How often it tells, in seconds.
const PACE_S: u64 = 1;

/// When it told last, if it tells at all.
#[derive(Drop)]
pub struct Progress {
    last: Option<Instant>,
    has_told: bool,
}

impl Progress {
    /// Nothing is told yet. It tells only where standard error is a terminal.
    pub fn new(rt: &HostRuntime) -> Progress {
        let last = if rt.stderr().is_terminal() {
            Instant::now(rt).ok()
        } else {
            None
        };
        Progress {
            last,
            has_told: false,
        }
    }

    /// Tells how many lines were done, once a second at most.
    pub fn tell(&mut self, rt: &HostRuntime, lines: u64) {
        let Some(last) = self.last else {
            return;
        };
        match last.elapsed(rt) {
            Ok(since) if since >= Duration::from_secs(PACE_S) => {
                let _ = eprint!(rt; "\r{lines} lines");
                self.has_told = true;
                self.last = Instant::now(rt).ok();
            }
            Ok(_) | Err(_) => {}
        }
    }

    /// Ends the line that was told.
    pub fn end(&self, rt: &HostRuntime) {
        if self.has_told {
            let _ = eprintln!(rt; "");
        }
    }
}
