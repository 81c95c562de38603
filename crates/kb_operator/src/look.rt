//! What is looked at when the process is started.

use crate::fault::OperatorFault;
use crate::lines::{LineLog, Lines};
use kb_process::{OpenFiles, hard_limit, judge, soft_limit, to_ask_for};
use kb_server_log::now;
use std::alloc::{AllocError, Global};
use std::fs;
use std::os::unix::fs::MetadataExt;

/// The system's text on the limits of the process.
const LIMITS: &str = "/proc/self/limits";

/// The bits of a mode by which somebody else may do what he should not: others anything, and a file's group more than read it. A service's
/// own group reads its settings, as with 0640.
const OTHERS: u32 = 0o037;

/// How many files the process may have open.
#[derive(Clone, Copy)]
struct Allowed {
    soft: u64,
    /// Up to how many it may raise that.
    hard: u64,
}

/// Looks at how many files the process may have open, and at who may read the settings. Too few files are a fault. Anything else is told,
/// unless it is to be quiet.
pub fn look_at_start(
    rt: &HostRuntime,
    settings: &str,
    connections: u32,
    is_quiet: bool,
    lines: &mut Lines,
) -> Result<(), OperatorFault> {
    if let Some(allowed) = open_files(rt) {
        match judge(allowed.soft, connections) {
            OpenFiles::Enough => {}
            OpenFiles::Few(_) if is_quiet => {}
            OpenFiles::Few(missing) => tell_few(rt, allowed, connections, missing, lines),
            OpenFiles::TooFew(least) => return Err(too_few(
                rt.alloc(),
                allowed,
                connections,
                least,
            )),
        }
    }
    if !is_quiet {
        tell_readable(rt, settings, lines);
    }
    Ok(())
}

/// How many files the process may have open, where the system tells.
fn open_files(rt: &HostRuntime) -> Option<Allowed> {
    let text = fs::read_to_string(rt, LIMITS).ok()?;
    let soft = soft_limit(text.as_str())?;
    let hard = hard_limit(text.as_str()).unwrap_or(soft);
    Some(Allowed { soft, hard })
}

/// Tells that others may read the settings, where they may.
fn tell_readable(rt: &HostRuntime, settings: &str, lines: &mut Lines) {
    if let Ok(found) = fs::metadata(rt, settings)
        && found.mode() & OTHERS != 0
    {
        let mode = found.mode() & 0o777;
        let text = format!(in rt.alloc();
            "settings {settings}: others may read the passwords, mode {mode:o}"
        );
        lines.tell(now(rt), text);
    }
}

fn tell_few(rt: &HostRuntime, allowed: Allowed, connections: u32, missing: u64, lines: &mut Lines) {
    lines.tell(now(rt), few_text(rt.alloc(), allowed, connections, missing));
}

fn few_text(
    alloc: Global,
    allowed: Allowed,
    connections: u32,
    missing: u64,
) -> Result<String, AllocError> {
    let (soft, remedy) = (allowed.soft, remedy(alloc, allowed, connections)?);
    format!(in alloc;
        "open files: at most {soft}, {missing} fewer than {connections} connections and the files of the folder may take: {remedy}"
    )
}

fn too_few(alloc: Global, allowed: Allowed, connections: u32, least: u64) -> OperatorFault {
    match too_few_text(alloc, allowed, connections, least) {
        Ok(text) => OperatorFault::System(text),
        Err(_) => OperatorFault::Memory,
    }
}

fn too_few_text(
    alloc: Global,
    allowed: Allowed,
    connections: u32,
    least: u64,
) -> Result<String, AllocError> {
    let (soft, remedy) = (allowed.soft, remedy(alloc, allowed, connections)?);
    format!(in alloc;
        "open files: at most {soft}, and {connections} connections take at least {least}: {remedy}"
    )
}

/// What is to be done about too few open files.
fn remedy(alloc: Global, allowed: Allowed, connections: u32) -> Result<String, AllocError> {
    let hard = allowed.hard;
    match to_ask_for(hard, connections) {
        Some(limit) if limit > allowed.soft => format!(in alloc;
            "allow more by ulimit -n {limit} in the shell, or LimitNOFILE={limit} in the service"
        ),
        // What the process may have open, it may raise no further.
        _ => {
            let most = to_ask_for(u64::MAX, connections).unwrap_or(u64::MAX);
            format!(in alloc;
                "the hard limit is {hard}, so allow more by LimitNOFILE={most} in the service, or set fewer connections"
            )
        }
    }
}
