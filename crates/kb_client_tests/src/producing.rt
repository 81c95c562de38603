//! A producer whose connection ends after each byte of its output in turn.

use crate::consuming::text_of;
use crate::wire::{Cut, Wire, login_of_ann, short, unexpected};
use kb_client::ProducerCore;
use std::alloc::{AllocError, Global};
use std::process::Abort;
use std::test::Fail;

/// How many requests a producer makes at most.
const REQUESTS: usize = 40;

/// A producer of a type with calls of no contract, so that what happens to it is proved without a producer's clauses.
#[derive(Drop)]
struct Writer {
    core: ProducerCore,
}

impl Writer {
    /// One of the partition 0 of `t`, which makes the topic.
    fn new(rt: &impl Abort, alloc: Global) -> Result<Writer, AllocError> {
        let (login, topic) = (login_of_ann(rt, alloc)?, short(rt, alloc, "t")?);
        Ok(Writer {
            core: ProducerCore::new(alloc, login, topic, 0, Some(1)),
        })
    }

    /// A line is handed in.
    fn line(&mut self, rt: &impl Abort, line: &[u8]) -> Result<(), Fail> {
        match self.core.line(line, 5) {
            Ok(()) => Ok(()),
            Err(fault) => Err(unexpected(rt, fault)),
        }
    }

    /// A connection begins.
    fn begin(&mut self) {
        self.core.connected();
    }

    /// What it sends.
    fn send(&mut self, rt: &impl Abort) -> Result<Vec<u8>, Fail> {
        match self.core.take_output() {
            Ok(output) => Ok(output),
            Err(fault) => Err(unexpected(rt, fault)),
        }
    }

    /// Bytes come to it.
    fn hear(&mut self, rt: &impl Abort, bytes: &[u8]) -> Result<(), Fail> {
        match self.core.input(bytes) {
            Ok(()) => Ok(()),
            Err(fault) => Err(unexpected(rt, fault)),
        }
    }

    /// Whether all of it is acknowledged.
    fn is_idle(&self) -> bool {
        self.core.idle()
    }

    /// How many lines are acknowledged.
    fn acknowledged(&self) -> u64 {
        self.core.acknowledged()
    }
}

/// What a producer sends goes to the broker, up to where the connection ends; then what is answered is lost, and another one
/// begins. Else the answer comes, five bytes at a time.
fn exchange(
    rt: &impl Abort,
    wire: &mut Wire,
    writer: &mut Writer,
    cut: &mut Cut,
) -> Result<(), Fail> {
    let mut output = writer.send(rt)?;
    let ends = cut.shorten(&mut output);
    let reply = wire.pass(&output);
    if ends {
        wire.renew(rt)?;
        writer.begin();
        return Ok(());
    }
    for piece in reply.chunks(5) {
        writer.hear(rt, piece)?;
    }
    Ok(())
}

/// A producer of the lines `x` and `y`.
fn producer(rt: &impl Abort, alloc: Global) -> Result<Writer, Fail> {
    let mut writer = Writer::new(rt, alloc)?;
    writer.line(rt, b"x")?;
    writer.line(rt, b"y")?;
    Ok(writer)
}

/// Sends what a producer has, until all of it is acknowledged.
fn deliver(
    rt: &impl Abort,
    wire: &mut Wire,
    writer: &mut Writer,
    cut: &mut Cut,
) -> Result<(), Fail> {
    wire.renew(rt)?;
    writer.begin();
    for _ in 0..REQUESTS {
        if writer.is_idle() {
            break;
        }
        exchange(rt, wire, writer, cut)?;
    }
    assert!(rt; writer.is_idle());
    Ok(())
}

/// The two lines are acknowledged, where the first connection is cut.
fn are_acknowledged(
    rt: &impl Abort,
    alloc: Global,
    wire: &mut Wire,
    cut: &mut Cut,
) -> Result<(), Fail> {
    let mut writer = producer(rt, alloc)?;
    deliver(rt, wire, &mut writer, cut)?;
    assert!(rt; writer.acknowledged() == 2);
    Ok(())
}

/// The two lines come to a new broker, once each, where the first connection ends after so many bytes. Whether it ended.
fn come_once(rt: &impl Abort, alloc: Global, bytes: usize) -> Result<bool, Fail> {
    let mut cut = Cut::after(bytes);
    let mut wire = Wire::new(alloc)?;
    are_acknowledged(rt, alloc, &mut wire, &mut cut)?;
    have_come_once(rt, alloc, &mut wire, bytes)?;
    Ok(cut.is_past())
}

/// The two lines have come, once each.
fn have_come_once(
    rt: &impl Abort,
    alloc: Global,
    wire: &mut Wire,
    bytes: usize,
) -> Result<(), Fail> {
    let text = text_of(rt, alloc, wire, 0, None)?;
    assert!(rt;
        text.as_slice() == b"x\ny\n".as_slice(),
        "after {bytes} bytes"
    );
    Ok(())
}

#[test]
fn each_line_comes_once_whatever_byte_is_the_last(rt: HostRuntime) -> Result<(), Fail> {
    for bytes in 0..10_000 {
        if !come_once(&rt, rt.alloc(), bytes)? {
            assert!(rt; bytes > 200);
            break;
        }
    }
    Ok(())
}
