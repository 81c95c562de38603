//! Consumers, and one whose connection ends after each byte of its input in turn.

use crate::wire::{Cut, Wire, login_of_ann, short, unexpected};
use kb_client::{ClientFault, ConsumerCore};
use kb_wire::ErrorCode;
use std::alloc::{AllocError, Global};
use std::process::Abort;
use std::test::Fail;

/// How many requests a consumer makes at most.
const REQUESTS: usize = 40;

/// What is sent first: SaslHandshake, the login of `ann`, CreateTopics of `t`, and Produce of a batch with the values `a`, `b`
/// and `c`, twice.
const SETUP: [&str; 5] = [
    "000000110011000100000002ffff0005504c41494e",
    "000000160024000000000003ffff0000000800616e6e00707731",
    "00000023001300000000000affff00000001000174000000010001000000000000000000001388",
    ABC,
    ABC,
];

/// Produce of a batch with three records. Its checksum is by another program.
const ABC: &str = "\
    0000007a0000000300000014ffffffff0001000003e800000001000174000000010000000000000055000000000000000000000049\
    ffffffff02f14a015f00000000000200000000000000050000000000000009ffffffffffffffffffffffffffff000000030e000000\
    010261000e000302010262000e00080401026300";

/// From an offset on at most so many lines: what comes.
const PARTS: [(i64, Option<u64>, &str); 8] = [
    (0, None, "a\nb\nc\na\nb\nc\n"),
    (1, None, "b\nc\na\nb\nc\n"),
    (4, None, "b\nc\n"),
    (6, None, ""),
    (0, Some(2), "a\nb\n"),
    (2, Some(3), "c\na\nb\n"),
    (5, Some(9), "c\n"),
    (1, Some(0), ""),
];

/// A broker with those six values.
fn filled(rt: &impl Abort, alloc: Global) -> Result<Wire, Fail> {
    let mut wire = Wire::new(alloc)?;
    wire.renew(rt)?;
    for request in &SETUP {
        is_answered(rt, alloc, &mut wire, request)?;
    }
    Ok(wire)
}

/// A request has an answer.
fn is_answered(rt: &impl Abort, alloc: Global, wire: &mut Wire, request: &str) -> Result<(), Fail> {
    match hex::decode(alloc, request.as_bytes()) {
        Ok(bytes) => assert!(rt; !wire.pass(&bytes).is_empty()),
        Err(hex::FromHexError::OutOfMemory) => return Err(Fail::from(AllocError)),
        Err(_) => panic!(rt; "{request} is not hexadecimal"),
    }
    Ok(())
}

/// A consumer of a type with calls of no contract, so that what happens to it is proved without a consumer's clauses.
#[derive(Drop)]
struct Reader {
    core: ConsumerCore,
}

impl Reader {
    /// One of the partition 0 of a topic.
    fn new(
        rt: &impl Abort,
        alloc: Global,
        topic: &str,
        from: i64,
        max: Option<u64>,
    ) -> Result<Reader, AllocError> {
        let (login, topic) = (login_of_ann(rt, alloc)?, short(rt, alloc, topic)?);
        Ok(Reader {
            core: ConsumerCore::new(alloc, login, topic, 0, from, max, false),
        })
    }

    /// A connection begins.
    fn begin(&mut self) {
        self.core.connected();
    }

    /// What it asks.
    fn ask(&mut self, rt: &impl Abort) -> Result<Vec<u8>, Fail> {
        match self.core.take_output() {
            Ok(output) => Ok(output),
            Err(fault) => Err(unexpected(rt, fault)),
        }
    }

    /// Bytes come to it: the fault that they are.
    fn hear(&mut self, bytes: &[u8]) -> Option<ClientFault> {
        self.core.input(bytes).err()
    }

    /// Adds the lines that came to others.
    fn tell(&mut self, lines: &mut Vec<u8>) -> Result<(), AllocError> {
        lines.extend_from_slice(&self.core.take_lines())
    }

    /// Whether it wants nothing more.
    fn is_finished(&self) -> bool {
        self.core.finished()
    }
}

/// A reply comes to a consumer, and adds lines.
fn hears(
    rt: &impl Abort,
    reader: &mut Reader,
    reply: &[u8],
    lines: &mut Vec<u8>,
) -> Result<(), Fail> {
    if let Some(fault) = reader.hear(reply) {
        return Err(unexpected(rt, fault));
    }
    Ok(reader.tell(lines)?)
}

/// A consumer asks, and what the broker answers comes, up to where the connection ends; then another one begins.
fn exchange(
    rt: &impl Abort,
    wire: &mut Wire,
    reader: &mut Reader,
    cut: &mut Cut,
    lines: &mut Vec<u8>,
) -> Result<(), Fail> {
    let mut reply = wire.pass(&reader.ask(rt)?);
    let ends = cut.shorten(&mut reply);
    hears(rt, reader, &reply, lines)?;
    if ends {
        wire.renew(rt)?;
        reader.begin();
    }
    Ok(())
}

/// Asks until the consumer is finished, and adds the lines.
fn run(
    rt: &impl Abort,
    wire: &mut Wire,
    reader: &mut Reader,
    cut: &mut Cut,
    lines: &mut Vec<u8>,
) -> Result<(), Fail> {
    wire.renew(rt)?;
    reader.begin();
    for _ in 0..REQUESTS {
        if reader.is_finished() {
            break;
        }
        exchange(rt, wire, reader, cut, lines)?;
    }
    assert!(rt; reader.is_finished());
    Ok(())
}

/// The lines of the topic `t` that come over connections of which one is cut.
fn lines_over(
    rt: &impl Abort,
    alloc: Global,
    wire: &mut Wire,
    from: i64,
    max: Option<u64>,
    cut: &mut Cut,
) -> Result<Vec<u8>, Fail> {
    let mut reader = Reader::new(rt, alloc, "t", from, max)?;
    let mut lines = Vec::new(alloc);
    run(rt, wire, &mut reader, cut, &mut lines)?;
    Ok(lines)
}

/// The lines of the topic `t`.
pub(crate) fn text_of(
    rt: &impl Abort,
    alloc: Global,
    wire: &mut Wire,
    from: i64,
    max: Option<u64>,
) -> Result<Vec<u8>, Fail> {
    lines_over(rt, alloc, wire, from, max, &mut Cut::nowhere())
}

/// Each part of the topic `t` is as wanted.
fn has_parts(
    rt: &impl Abort,
    alloc: Global,
    wire: &mut Wire,
    parts: &[(i64, Option<u64>, &str)],
) -> Result<(), Fail> {
    for (from, max, expected) in parts {
        let text = text_of(rt, alloc, wire, *from, *max)?;
        assert!(rt; text.as_slice() == expected.as_bytes(), "from {from}");
    }
    Ok(())
}

#[test]
fn lines_come_from_an_offset_on(rt: HostRuntime) -> Result<(), Fail> {
    let mut wire = filled(&rt, rt.alloc())?;
    has_parts(&rt, rt.alloc(), &mut wire, &PARTS)
}

/// Four lines come to a consumer whose connection ends after so many bytes. Whether it ended.
fn come_at_last(
    rt: &impl Abort,
    alloc: Global,
    wire: &mut Wire,
    bytes: usize,
) -> Result<bool, Fail> {
    let mut cut = Cut::after(bytes);
    let text = lines_over(rt, alloc, wire, 1, Some(4), &mut cut)?;
    assert!(rt;
        text.as_slice() == b"b\nc\na\nb\n".as_slice(),
        "after {bytes} bytes"
    );
    Ok(cut.is_past())
}

#[test]
fn lines_come_whatever_byte_is_the_last(rt: HostRuntime) -> Result<(), Fail> {
    let mut wire = filled(&rt, rt.alloc())?;
    for bytes in 0..10_000 {
        if !come_at_last(&rt, rt.alloc(), &mut wire, bytes)? {
            assert!(rt; bytes > 100);
            break;
        }
    }
    Ok(())
}

/// A consumer asks: the fault that the answer is to it.
fn ask(rt: &impl Abort, wire: &mut Wire, reader: &mut Reader) -> Result<Option<ClientFault>, Fail> {
    let reply = wire.pass(&reader.ask(rt)?);
    Ok(reader.hear(&reply))
}

/// What a new consumer's first fetch of the partition 0 of a topic comes to, behind the handshake and the login.
fn first_fetch(
    rt: &impl Abort,
    alloc: Global,
    wire: &mut Wire,
    topic: &str,
    from: i64,
) -> Result<Option<ClientFault>, Fail> {
    let mut reader = Reader::new(rt, alloc, topic, from, None)?;
    wire.renew(rt)?;
    reader.begin();
    assert!(rt; ask(rt, wire, &mut reader)?.is_none());
    assert!(rt; ask(rt, wire, &mut reader)?.is_none());
    ask(rt, wire, &mut reader)
}

/// A topic and an offset from which there is nothing, and the code of the fault.
const REFUSED: [(&str, i64, ErrorCode); 4] = [
    ("t", 7, ErrorCode::OffsetOutOfRange),
    ("t", -1, ErrorCode::OffsetOutOfRange),
    ("u", 0, ErrorCode::UnknownTopicOrPartition),
    ("", 0, ErrorCode::UnknownTopicOrPartition),
];

/// Each is refused with its code.
fn are_refused(
    rt: &impl Abort,
    alloc: Global,
    wire: &mut Wire,
    refused: &[(&str, i64, ErrorCode)],
) -> Result<(), Fail> {
    for (topic, from, code) in refused {
        let fault = first_fetch(rt, alloc, wire, topic, *from)?;
        assert!(rt;
            fault == Some(ClientFault::Code(code.code())),
            "{topic} from {from}"
        );
    }
    Ok(())
}

#[test]
fn what_is_refused_is_a_fault(rt: HostRuntime) -> Result<(), Fail> {
    let mut wire = filled(&rt, rt.alloc())?;
    are_refused(&rt, rt.alloc(), &mut wire, &REFUSED)
}
