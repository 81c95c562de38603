//! What goes to and fro between a session and a broker.

ghost use Rattle.std.specs.Prelude.{◌≡◌, ◌≤◌, [], length, take, IfOk, IfErr, OnOk, Ok, Err};
ghost use Rattle.std.specs.Io.KnownBytes.{Appends, Consumes};
ghost use Rattle.kb_admin.specs.Session.{asked_text};
ghost use Rattle.kb_topic_command.specs.Exchange.{Answers, Receives, Turns, FailsAt, Waits, BlamesBroker, IsLast, IsOwn};

use crate::fault::TopicFault;
use kb_admin::{Heard, Session};
use std::alloc::Global;
use std::io::{Read, Write};

/// How often a piece of a reply is waited for at most.
const TURNS: u64 = 9_223_372_036_854_775_807;

/// The bytes that are read at once.
const BUFFER_BYTES: usize = 65_536;

/// Sends each request of a session once the reply to the one before came, and gives what the last reply comes to.
pub(crate) fn exchange<R: Read, W: Write>(
    alloc: Global,
    reader: &mut R,
    writer: &mut W,
    session: &mut Session,
) -> Result<Heard, TopicFault>
    ensures answer { IfOk result (λ heard. IsLast heard
        × Answers session.old (Ok heard) (R.remaining reader.old) (R.remaining reader.new)
        (W.contents writer.old) (W.contents writer.new)) }
    ensures fault { IfErr result (BlamesBroker (λ fault.
        Answers session.old (Err fault) (R.remaining reader.old) (R.remaining reader.new)
        (W.contents writer.old) (W.contents writer.new)) (Waits session.old (R.remaining reader.old) (R.remaining reader.new))) }
    ensures task { session.new.task ≡ session.old.task }
{
    let mut buffer = vec![in alloc; 0; BUFFER_BYTES]?;
    send(writer, session)?;
    for _ in 0..TURNS {
        let answer = turn(reader, writer, &mut buffer, session)?;
        match answer {
            Some(heard) => return Ok(heard),
            None => {}
        }
    }
    Err(TopicFault::Silent)
}

/// Takes a piece, and sends the request that it calls for; or gives the answer that it completes.
fn turn<R: Read, W: Write>(
    reader: &mut R,
    writer: &mut W,
    buffer: &mut [u8],
    session: &mut Session,
) -> Result<Option<Heard>, TopicFault>
    ensures turn { IfOk result (λ answer. Turns session.old answer (R.remaining reader.old) (R.remaining reader.new)
        (W.contents writer.old) (W.contents writer.new) session.new) }
    ensures fault { IfErr result (BlamesBroker (λ fault.
        FailsAt session.old fault (R.remaining reader.old) (R.remaining reader.new)
        (W.contents writer.old) (W.contents writer.new) session.new)
        (Waits session.old (R.remaining reader.old) (R.remaining reader.new))) }
    ensures task { session.new.task ≡ session.old.task }
{
    let heard = take_in(reader, buffer, session)?;
    match heard {
        Heard::More => Ok(None),
        Heard::Next => {
            send(writer, session)?;
            Ok(None)
        }
        Heard::Done => Ok(Some(Heard::Done)),
        Heard::Topics(topics) => Ok(Some(Heard::Topics(topics))),
    }
}

/// Sends the request whose turn it is.
fn send<W: Write>(writer: &mut W, session: &Session) -> Result<(), TopicFault>
    ensures sent { OnOk result (Appends (W.contents writer.old) (W.contents writer.new) (asked_text session.now.stage session.now)) }
    ensures fault { IfErr result IsOwn }
{
    let request = session.request()?;
    match writer.write_all(&request) {
        Ok(()) => Ok(()),
        Err(_) => Err(TopicFault::Silent),
    }
}

/// Waits for a piece of what the broker sends, and gives what it comes to.
fn take_in<R: Read>(
    reader: &mut R,
    buffer: &mut [u8],
    session: &mut Session,
) -> Result<Heard, TopicFault>
    ensures heard { IfOk result (λ heard. Receives session.old (Ok heard) (R.remaining reader.old) (R.remaining reader.new) session.new) }
    ensures fault { IfErr result (BlamesBroker (λ fault.
        Receives session.old (Err fault) (R.remaining reader.old) (R.remaining reader.new) session.new)
        (Consumes (R.remaining reader.old) (R.remaining reader.new) [])) }
    ensures task { session.new.task ≡ session.old.task }
{
    let n = receive(reader, buffer)?;
    Ok(session.input(&buffer[..n])?)
}

/// Waits for bytes, and puts them in front of the buffer. There is at least one.
fn receive<R: Read>(reader: &mut R, buffer: &mut [u8]) -> Result<usize, TopicFault>
    ensures room { IfOk result (λ n. n ≤ length buffer.new) }
    ensures came { IfOk result (λ n. Consumes (R.remaining reader.old) (R.remaining reader.new) (take n buffer.new)) }
    ensures fault { IfErr result (λ fault. (fault ≡ TopicFault.Silent) × Consumes (R.remaining reader.old) (R.remaining reader.new) []) }
{
    match reader.read(buffer) {
        Ok(n) if n > 0 => Ok(n),
        Ok(_) | Err(_) => Err(TopicFault::Silent),
    }
}
