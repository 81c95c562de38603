//! A script whose output cannot be handed on, and the texts of the faults that end one, and that end a start.

use kb_broker::ScriptFault;
use kb_node::{NodeFault, StartFault, play_script};
use std::alloc::{AllocError, Global};
use std::fmt::Display;
use std::io;
use std::io::{Error, ErrorKind, Write};
use std::test::Fail;

/// A size that is below a request's shuts the connection.
const SHUT: &[u8] = b"open 1\nin 1 00000007\n";

/// A writer that takes everything, and hands nothing on.
#[derive(Drop)]
struct Held {
    taken: usize,
}

impl Write for Held {
    fn write(&mut self, buf: &[u8]) -> io::Result<usize> {
        self.taken = self.taken.saturating_add(buf.len());
        Ok(buf.len())
    }

    fn flush(&mut self) -> io::Result<()> {
        Err(Error::from(ErrorKind::Other))
    }
}

#[test]
fn output_that_is_not_handed_on_is_a_fault(rt: HostRuntime) -> Result<(), Fail> {
    let mut reader = SHUT;
    let mut writer = Held { taken: 0 };
    let played = play_script(rt.alloc(), &mut reader, &mut writer);
    assert!(rt; played == Err(NodeFault::Write));
    assert!(rt; writer.taken == 7);
    Ok(())
}

/// Whether a fault has that text.
fn is_said<F: Display>(alloc: Global, fault: &F, text: &str) -> Result<bool, AllocError> {
    let written = format!(in alloc; "{fault}")?;
    Ok(written.as_str() == text)
}

/// The faults of a script that no exchange ends in.
const OF_SCRIPTS: [(NodeFault, &str); 6] = [
    (
        NodeFault::Script(ScriptFault::TooLong),
        "kbroker: script too long",
    ),
    (NodeFault::Script(ScriptFault::Read), "kbroker: read fault"),
    (
        NodeFault::Script(ScriptFault::Write),
        "kbroker: write fault",
    ),
    (
        NodeFault::Script(ScriptFault::Memory),
        "kbroker: out of memory",
    ),
    (NodeFault::Write, "kbroker: write fault"),
    (NodeFault::Memory, "kbroker: out of memory"),
];

#[test]
fn faults_have_their_texts(rt: HostRuntime) -> Result<(), Fail> {
    for (fault, text) in &OF_SCRIPTS {
        assert!(rt; is_said(rt.alloc(), fault, text)?);
    }
    assert!(rt; is_said(rt.alloc(), &StartFault::Store, "kbroker: store fault")?);
    assert!(rt; is_said(rt.alloc(), &StartFault::Listen, "kbroker: cannot listen")?);
    assert!(rt; is_said(rt.alloc(), &StartFault::Memory, "kbroker: out of memory")?);
    Ok(())
}
