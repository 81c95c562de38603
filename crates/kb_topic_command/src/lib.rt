//! `kbroker topic`: makes, deletes and lists topics of a broker that runs.
//!
//! [`topic_command`] is what the command line is read by, and [`topic`] does what it asks for over a connection of its own, by the
//! sessions of `kb_admin`. What comes of it is printed.
//!
//! The contract: its requests are what the words ask for by `specs/Words.antt`. What is printed is `specs/Printing.antt`'s text of what the
//! broker answered to them. Each fault has its cause by `specs/Topic.antt`, and its text by `specs/Faults.antt`.
#![tactic(auto)]

ghost use Rattle.std.specs.Prelude.{◌≡◌, Ok, Err, IfOk, IfErr, OnOk, string_bytes};
ghost use Rattle.std.specs.Io.KnownBytes.{Appends};
ghost use Rattle.clap.specs.Words.{found_of, rows_of, subcommand_rows_of};
ghost use Rattle.kb_topic_command.specs.Telling.{Prints, Explains, TellsFault};
ghost use Rattle.kb_topic_command.specs.Topic.{PrintsAsked, PrintsFor, TellsAsked, TellsFor, Unprinted, IsUnreached, IsNoConnectionTo};

mod command;
mod exchange;
mod fault;
mod meaning;
mod texts;
mod words;

pub use crate::command::topic_command;
use crate::exchange::exchange;
pub use crate::fault::TopicFault;
use crate::meaning::meaning;
use crate::texts::answer_text;
use crate::words::{session_for, value};
use clap::ArgMatches;
use kb_admin::{AdminFault, Session, Task};
use std::alloc::{AllocError, Global};
use std::io;
use std::io::{ErrorKind, Read, Write};
use std::net::TcpStream;
use std::time::Duration;

/// How long a piece of a reply is waited for, in seconds.
const PATIENCE_S: u64 = 30;

/// Makes, deletes or lists topics as the words ask, and prints what came of it.
///
/// Nothing is printed where it fails, but for [`TopicFault::Write`].
pub fn topic<P: Write>(
    rt: &HostRuntime,
    found: &ArgMatches<'_>,
    printer: &mut P,
) -> Result<(), TopicFault>
    ensures printed { OnOk result (PrintsAsked (subcommand_rows_of found.now) (P.contents printer.old) (P.contents printer.new)) }
    ensures fault { IfErr result (TellsAsked (subcommand_rows_of found.now)) }
    ensures unprinted { IfErr result (λ fault. Unprinted fault (P.contents printer.old) (P.contents printer.new)) }
{
    let Some((verb, found)) = found.subcommand() else {
        return Ok(());
    };
    topic_for(rt, verb, found, printer)
}

/// The same for a subcommand and what was matched behind it.
fn topic_for<P: Write>(
    rt: &HostRuntime,
    verb: &str,
    found: &ArgMatches<'_>,
    printer: &mut P,
) -> Result<(), TopicFault>
    ensures printed { OnOk result (PrintsFor verb.now (rows_of (found_of found.now)) (P.contents printer.old) (P.contents printer.new)) }
    ensures fault { IfErr result (TellsFor verb.now (rows_of (found_of found.now))) }
    ensures unprinted { IfErr result (λ fault. Unprinted fault (P.contents printer.old) (P.contents printer.new)) }
{
    let session = session_for(rt.alloc(), verb, found)?;
    let stream = connect(rt, value(found, "broker"))?;
    perform(rt.alloc(), &mut &stream, &mut &stream, session, printer)
}

/// Does the task of a session over a connection, and prints what the broker answered.
fn perform<R: Read, W: Write, P: Write>(
    alloc: Global,
    reader: &mut R,
    writer: &mut W,
    mut session: Session,
    printer: &mut P,
) -> Result<(), TopicFault>
    ensures printed { OnOk result (Prints session (R.remaining reader.old) (R.remaining reader.new) (W.contents writer.old)
        (W.contents writer.new) (P.contents printer.old) (P.contents printer.new)) }
    ensures fault { IfErr result (TellsFault session (R.remaining reader.old) (R.remaining reader.new) (W.contents writer.old)
        (W.contents writer.new)) }
    ensures unprinted { IfErr result (λ fault. Unprinted fault (P.contents printer.old) (P.contents printer.new)) }
{
    match exchange(alloc, reader, writer, &mut session) {
        Ok(heard) => print(&answer_text(alloc, session.task(), &heard)?, printer),
        Err(fault) => Err(explained(alloc, session.task(), fault)),
    }
}

/// Prints a text.
fn print<P: Write>(text: &str, printer: &mut P) -> Result<(), TopicFault>
    ensures printed { OnOk result (Appends (P.contents printer.old) (P.contents printer.new) text.now) }
    ensures fault { IfErr result (λ fault. fault ≡ TopicFault.Write) }
{
    match printer.write_all(text.as_bytes()) {
        Ok(()) => Ok(()),
        Err(_) => Err(TopicFault::Write),
    }
}

/// A fault with what it says of a task.
fn explained(alloc: Global, task: &Task, fault: TopicFault) -> TopicFault
    ensures { Explains task.now fault result }
{
    let TopicFault::Admin(AdminFault::Refused(code), _) = &fault else {
        return fault;
    };
    let refused = AdminFault::Refused(*code);
    match meaning(alloc, task, *code) {
        Ok(meaning) => TopicFault::Admin(refused, Some(meaning)),
        Err(_) => TopicFault::Admin(refused, None),
    }
}

/// A connection to a broker.
fn connect(rt: &HostRuntime, address: &str) -> Result<TcpStream, TopicFault>
    ensures { IfErr result (IsNoConnectionTo address.now) }
{
    match TcpStream::connect(rt, address) {
        Ok(stream) => {
            let _ = stream.set_nodelay(true);
            let _ = stream.set_read_timeout(Some(Duration::from_secs(PATIENCE_S)));
            Ok(stream)
        }
        Err(error) => Err(TopicFault::Connect(why_not(rt.alloc(), address, &error)?)),
    }
}

/// An address, and why there is no connection to it.
fn why_not(alloc: Global, address: &str, error: &io::Error) -> Result<String, AllocError>
    ensures { IfOk result (λ why. IsUnreached address.now (string_bytes why)) }
{
    let reason = reason_text(alloc, error)?;
    format!(in alloc; "{address}: {reason}")
}

/// Why there is no connection.
fn reason_text(alloc: Global, error: &io::Error) -> Result<String, AllocError> {
    match error.kind() {
        ErrorKind::InvalidInput => String::from_str(alloc, "it is no HOST:PORT"),
        ErrorKind::Uncategorized => format!(in alloc; "{error}"),
        kind => format!(in alloc; "{kind}"),
    }
}
