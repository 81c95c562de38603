//! Scripts: lines that say what happens to a broker, and what it says after each.

ghost use Rattle.std.specs.Prelude.{◌≡◌, ◌≤◌, ◌<◌, ◌&&◌, true, not, IfSome, IfErr, OnOk};
ghost use Rattle.kb_wire.specs.declared.clock.TheConstants.{MAX_CLOCK};
ghost use Rattle.std.specs.Io.BufRead.{strip_last};
ghost use Rattle.kb_isolation_spec.specs.Machine.{Opens, Comes, Closes, Moment};
ghost use Rattle.kb_isolation_spec.specs.Broker.{IsReady};
ghost use Rattle.kb_isolation_spec.specs.Calls.{is_calm, is_shut};
ghost use Rattle.kb_broker.specs.Hosts.{is_honest};
ghost use Rattle.kb_broker.specs.Opening.{opening};
ghost use Rattle.kb_broker.specs.Script.{Plays, script, told, told_of, course_of, here, is_placed};
ghost use Rattle.kb_broker.specs.ScriptRun.{IsQuiet, NoneWaits, HappensSilently, IsSpoken, IsLinePlayed, IsBroken, IsPlayed, IsEnded};
ghost use Rattle.kb_broker.specs.ScriptRun.{IsStopped};

mod answer;
mod line;
mod reading;
mod saying;

use crate::broker::Broker;
use answer::{answer_of, write_all};
use kb_log::PartitionLog;
use kb_settings::Settings;
use kb_store::{MemoryStore, Store};
use kb_wire::MAX_CLOCK;
use line::Line;
use reading::next_line;
use saying::{say, shut_places};
use std::alloc::Global;
use std::io::{BufRead, Write};
use thiserror::Error;

/// The most lines of a script.
const LINES: u64 = 1_000_000;

/// The most bytes of a script.
const SCRIPT_BYTES: usize = 1_073_741_824;

/// What ends a script early.
#[derive(Clone, Copy, Debug, PartialEq, Eq, Error)]
pub enum ScriptFault {
    /// A line that is none of a script, or is out of place. Lines count from 1.
    #[error("bad line {0}")]
    BadLine(u64),
    /// It has too many lines or bytes.
    #[error("script too long")]
    TooLong,
    /// The reader failed.
    #[error("read fault")]
    Read,
    /// The writer failed.
    #[error("write fault")]
    Write,
    /// Memory was refused, or the store refused.
    #[error("out of memory")]
    Memory,
}

/// Plays a script on a new broker of those settings, with logs of any kind on a store in memory: reads its lines and writes what the
/// broker says after each.
///
/// A fault ends it; what the lines before it said has been written. The script is read a line at a time.
pub fn run_script<L: PartitionLog + Drop, R: BufRead, W: Write>(
    alloc: Global,
    settings: &Settings,
    reader: &mut R,
    writer: &mut W,
) -> Result<(), ScriptFault>
    ensures ok { OnOk result (IfSome (R.remaining reader.old) (λ text.
        IsPlayed (opening settings.now) (script (opening settings.now) text) (W.contents writer.old) (W.contents writer.new))) }
    ensures err { IfErr result (λ fault. IfSome (R.remaining reader.old) (λ text.
        IsEnded (opening settings.now) (script (opening settings.now) text) fault (W.contents writer.old) (W.contents writer.new))) }
    ensures stopped { IfErr result (λ fault.
        IfSome (R.remaining reader.old) (λ text.
        IsStopped (opening settings.now) text (R.remaining reader.new) fault (W.contents writer.old) (W.contents writer.new))) }
{
    let Ok(mut opened) = Broker::<MemoryStore, L>::open(alloc, settings, MemoryStore::new(alloc))
    else {
        return Err(ScriptFault::Memory);
    };
    run_script_on(alloc, &mut opened.broker, reader, writer)
}

/// Plays a script on a broker that is at rest: no output is untaken, and nothing was refused. It reads its lines and writes what the
/// broker says after each, over any store and logs of any kind.
///
/// A fault ends it; what the lines before it said has been written. The script is read a line at a time.
pub fn run_script_on<S: Store, L: PartitionLog + Drop, R: BufRead, W: Write>(
    alloc: Global,
    broker: &mut Broker<S, L>,
    reader: &mut R,
    writer: &mut W,
) -> Result<(), ScriptFault>
    requires calm { is_honest S.disk broker.old → is_calm broker.old.state ≡ true }
    requires quiet { is_honest S.disk broker.old → IsQuiet broker.old.state }
    requires ready { is_honest S.disk broker.old → IsReady broker.old.state }
    ensures honest { is_honest S.disk broker.new → is_honest S.disk broker.old }
    ensures ok { is_honest S.disk broker.new
        → OnOk result (IfSome (R.remaining reader.old) (λ text.
        IsPlayed broker.old.state (script broker.old.state text) (W.contents writer.old) (W.contents writer.new))) }
    ensures err { is_honest S.disk broker.new
        → IfErr result (λ fault. IfSome (R.remaining reader.old) (λ text.
        IsEnded broker.old.state (script broker.old.state text) fault (W.contents writer.old) (W.contents writer.new))) }
    ensures stopped { is_honest S.disk broker.new
        → IfErr result (λ fault. IfSome (R.remaining reader.old) (λ text.
        IsStopped broker.old.state text (R.remaining reader.new) fault (W.contents writer.old) (W.contents writer.new))) }
{
    let mut text = Vec::new(alloc);
    let mut room = SCRIPT_BYTES;
    for index in 0..LINES {
        let number = index + 1;
        next_line(reader, &mut text, number, room)?;
        if text.is_empty() {
            return Ok(());
        }
        room -= text.len();
        play_line(alloc, broker, writer, &text, number)?;
    }
    next_line(reader, &mut text, LINES + 1, 0)
}

/// Plays a line, with its line feed or without.
fn play_line<S: Store, L: PartitionLog + Drop, W: Write>(
    alloc: Global,
    broker: &mut Broker<S, L>,
    writer: &mut W,
    text: &[u8],
    number: u64,
) -> Result<(), ScriptFault>
    requires calm { is_honest S.disk broker.old → is_calm broker.old.state ≡ true }
    requires quiet { is_honest S.disk broker.old → IsQuiet broker.old.state }
    requires ready { is_honest S.disk broker.old → IsReady broker.old.state }
    ensures honest { is_honest S.disk broker.new → is_honest S.disk broker.old }
    ensures ok { is_honest S.disk broker.new
        → OnOk result (IsLinePlayed (course_of number (here broker.old.state) (told (strip_last 10 text.now)))
        broker.old.state broker.new.state (W.contents writer.old) (W.contents writer.new)) }
    ensures err { is_honest S.disk broker.new
        → IfErr result (λ fault. IsBroken (course_of number (here broker.old.state) (told (strip_last 10 text.now))) fault broker.old.state
        (W.contents writer.old) (W.contents writer.new)) }
{
    let Ok(line) = Line::read(alloc, without_feed(text)) else {
        return Err(ScriptFault::Memory);
    };
    if !is_in_place(broker, &line) {
        return Err(ScriptFault::BadLine(number));
    }
    match line {
        Line::Open(connection) => open(alloc, broker, connection),
        Line::In(connection, piece) => give(alloc, broker, writer, connection, &piece),
        Line::Close(connection) => close(alloc, broker, connection),
        Line::At(now) => pass(alloc, broker, writer, now),
        Line::Empty | Line::Bad => Ok(()),
    }
}

/// The line with no line feed.
fn without_feed(line: &[u8]) -> &[u8]
    ensures { result.now ≡ strip_last 10 line.now }
{
    match line {
        [front @ .., b'\n'] => front,
        _ => line,
    }
}

/// Whether a line says nothing, or what may happen now.
fn is_in_place<S: Store, L: PartitionLog + Drop>(broker: &Broker<S, L>, line: &Line) -> bool
    ensures { result ≡ is_placed (here broker.now.state) (told_of line.now) }
{
    match line {
        Line::Open(connection) => broker.last_connection() < *connection,
        Line::In(connection, _) | Line::Close(connection) => broker.is_open(*connection),
        Line::At(now) => *now <= MAX_CLOCK,
        Line::Empty => true,
        Line::Bad => false,
    }
}

/// A connection opens.
fn open<S: Store, L: PartitionLog + Drop>(
    alloc: Global,
    broker: &mut Broker<S, L>,
    connection: u64,
) -> Result<(), ScriptFault>
    requires calm { is_honest S.disk broker.old → is_calm broker.old.state ≡ true }
    requires quiet { is_honest S.disk broker.old → IsQuiet broker.old.state }
    requires ready { is_honest S.disk broker.old → IsReady broker.old.state }
    requires above { broker.old.state.last < connection }
    ensures honest { is_honest S.disk broker.new → is_honest S.disk broker.old }
    ensures ok { is_honest S.disk broker.new → OnOk result (HappensSilently (Opens connection) broker.old.state broker.new.state) }
    ensures err { IfErr result (λ fault. fault ≡ ScriptFault.Memory) }
{
    match broker.connect(alloc, connection) {
        Ok(()) => Ok(()),
        Err(_) => Err(ScriptFault::Memory),
    }
}

/// A connection closes. It has no output.
fn close<S: Store, L: PartitionLog + Drop>(
    alloc: Global,
    broker: &mut Broker<S, L>,
    connection: u64,
) -> Result<(), ScriptFault>
    requires calm { is_honest S.disk broker.old → is_calm broker.old.state ≡ true }
    requires quiet { is_honest S.disk broker.old → IsQuiet broker.old.state }
    requires ready { is_honest S.disk broker.old → IsReady broker.old.state }
    ensures honest { is_honest S.disk broker.new → is_honest S.disk broker.old }
    ensures ok { is_honest S.disk broker.new → OnOk result (HappensSilently (Closes connection) broker.old.state broker.new.state) }
    ensures err { IfErr result (λ fault. fault ≡ ScriptFault.Memory) }
{
    broker.disconnect(alloc, connection);
    calm(broker)
}

/// A moment passes, and what the broker says is written. Where nobody waits it says nothing.
fn pass<S: Store, L: PartitionLog + Drop, W: Write>(
    alloc: Global,
    broker: &mut Broker<S, L>,
    writer: &mut W,
    now: u64,
) -> Result<(), ScriptFault>
    requires calm { is_honest S.disk broker.old → is_calm broker.old.state ≡ true }
    requires quiet { is_honest S.disk broker.old → IsQuiet broker.old.state }
    requires ready { is_honest S.disk broker.old → IsReady broker.old.state }
    requires in_time { now ≤ MAX_CLOCK }
    ensures honest { is_honest S.disk broker.new → is_honest S.disk broker.old }
    ensures ok { is_honest S.disk broker.new
        → OnOk result (IsSpoken (Moment now) broker.old.state broker.new.state (W.contents writer.old) (W.contents writer.new)) }
    ensures err { is_honest S.disk broker.new
        → IfErr result (λ fault. IsBroken (Plays (Moment now)) fault broker.old.state (W.contents writer.old) (W.contents writer.new)) }
{
    if broker.any_waits() {
        let Ok(were_shut) = shut_places(alloc, broker) else {
            return Err(ScriptFault::Memory);
        };
        broker.moment(alloc, now);
        calm(broker)?;
        return say(alloc, broker, writer, &were_shut);
    }
    broker.moment(alloc, now);
    calm(broker)
}

/// Gives a piece to a connection, and writes what the broker says, to this connection and to those that wait.
fn give<S: Store, L: PartitionLog + Drop, W: Write>(
    alloc: Global,
    broker: &mut Broker<S, L>,
    writer: &mut W,
    connection: u64,
    piece: &[u8],
) -> Result<(), ScriptFault>
    requires calm { is_honest S.disk broker.old → is_calm broker.old.state ≡ true }
    requires quiet { is_honest S.disk broker.old → IsQuiet broker.old.state }
    requires ready { is_honest S.disk broker.old → IsReady broker.old.state }
    ensures honest { is_honest S.disk broker.new → is_honest S.disk broker.old }
    ensures ok { is_honest S.disk broker.new
        → OnOk result (IsSpoken (Comes connection piece.now) broker.old.state broker.new.state (W.contents writer.old)
        (W.contents writer.new)) }
    ensures err { is_honest S.disk broker.new
        → IfErr result (λ fault. IsBroken (Plays (Comes connection piece.now)) fault broker.old.state (W.contents writer.old)
        (W.contents writer.new)) }
{
    if !broker.any_waits() {
        return give_alone(alloc, broker, writer, connection, piece);
    }
    let Ok(were_shut) = shut_places(alloc, broker) else {
        return Err(ScriptFault::Memory);
    };
    broker.input(alloc, connection, piece);
    calm(broker)?;
    say(alloc, broker, writer, &were_shut)
}

/// Gives a piece to a connection where none waits, and writes what the broker says: it says nothing to any other.
fn give_alone<S: Store, L: PartitionLog + Drop, W: Write>(
    alloc: Global,
    broker: &mut Broker<S, L>,
    writer: &mut W,
    connection: u64,
    piece: &[u8],
) -> Result<(), ScriptFault>
    requires calm { is_honest S.disk broker.old → is_calm broker.old.state ≡ true }
    requires quiet { is_honest S.disk broker.old → IsQuiet broker.old.state }
    requires ready { is_honest S.disk broker.old → IsReady broker.old.state }
    requires alone { NoneWaits broker.old.state }
    ensures honest { is_honest S.disk broker.new → is_honest S.disk broker.old }
    ensures ok { is_honest S.disk broker.new
        → OnOk result (IsSpoken (Comes connection piece.now) broker.old.state broker.new.state (W.contents writer.old)
        (W.contents writer.new)) }
    ensures err { is_honest S.disk broker.new
        → IfErr result (λ fault. IsBroken (Plays (Comes connection piece.now)) fault broker.old.state (W.contents writer.old)
        (W.contents writer.new)) }
{
    let was_shut = broker.shut(connection);
    broker.input(alloc, connection, piece);
    calm(broker)?;
    let is_shut = is_newly_shut(broker, connection, was_shut);
    let output = broker.take_output(alloc, connection);
    let Ok(answer) = answer_of(alloc, connection, &output, is_shut) else {
        return Err(ScriptFault::Memory);
    };
    write_all(writer, &answer)
}

/// Whether a connection is shut that was not.
fn is_newly_shut<S: Store, L: PartitionLog + Drop>(
    broker: &Broker<S, L>,
    connection: u64,
    was_shut: bool,
) -> bool
    ensures { result ≡ (is_shut connection broker.now.state && not was_shut) }
{
    broker.shut(connection) && !was_shut
}

/// An `Err` where a refusal has been counted.
fn calm<S: Store, L: PartitionLog + Drop>(broker: &Broker<S, L>) -> Result<(), ScriptFault>
    ensures ok { OnOk result (is_calm broker.now.state ≡ true) }
    ensures err { IfErr result (λ fault. fault ≡ ScriptFault.Memory) }
{
    if broker.is_calm() {
        Ok(())
    } else {
        Err(ScriptFault::Memory)
    }
}
