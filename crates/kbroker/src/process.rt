//! What the system tells of the process.

use kb_process::soft_limit;
use std::fs;

/// The system's text on the memory of the process, in pages.
const MEMORY: &str = "/proc/self/statm";

/// The folder with an entry for each open file.
const FILES: &str = "/proc/self/fd";

/// The system's text on what the process may have.
const LIMITS: &str = "/proc/self/limits";

/// The system's text on the process, with its time of processors.
const TIMES: &str = "/proc/self/stat";

/// How many bytes a page has on x86-64.
const PAGE: u64 = 4096;

/// How many milliseconds a tick of that time has on Linux.
const TICK: u64 = 10;

/// How many bytes of memory the process takes now, where the system tells.
pub fn resident_bytes(rt: &HostRuntime) -> Option<u64> {
    let text = fs::read_to_string(rt, MEMORY).ok()?;
    let pages: u64 = text.as_str().split_whitespace().nth(1)?.parse().ok()?;
    Some(pages.saturating_mul(PAGE))
}

/// How many files the process has open, where the system tells: the folder that is read is one of them.
pub fn open_files(rt: &HostRuntime) -> Option<u64> {
    let entries = fs::read_dir(rt, FILES).ok()?;
    Some(entries.count() as u64)
}

/// How many files it may have open, where the system tells.
pub fn most_files(rt: &HostRuntime) -> Option<u64> {
    let text = fs::read_to_string(rt, LIMITS).ok()?;
    soft_limit(&text)
}

/// How long processors were at work for it, in milliseconds, where the system tells: by programs and by the system, in ticks, behind the
/// name of the program, which ends with the last `)`.
pub fn cpu_millis(rt: &HostRuntime) -> Option<u64> {
    let text = fs::read_to_string(rt, TIMES).ok()?;
    let (_, rest) = text.as_str().rsplit_once(')')?;
    let mut words = rest.split_whitespace();
    let by_programs: u64 = words.nth(11)?.parse().ok()?;
    let by_system: u64 = words.next()?.parse().ok()?;
    Some(by_programs.saturating_add(by_system).saturating_mul(TICK))
}
