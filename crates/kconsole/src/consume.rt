//! `kconsole consume`: prints the lines of a partition.

ghost use Rattle.std.specs.Prelude.{◌≡◌, [], OnOk, IfOk};
ghost use Rattle.std.specs.Io.KnownBytes.{Appends};
ghost use Rattle.kb_client.specs.Consumer.{new_consumer, without_text};
ghost use Rattle.kconsole.specs.Console.{IsWithin, address_of, address_text, target_of};
ghost use Rattle.kconsole.specs.Printing.{Gives, Prints, PrintsAll};

use crate::console::ConsoleLine;
use crate::fault::Fault;
use crate::link::Link;
use crate::place::Place;
use kb_client::ConsumerCore;
use std::alloc::{AllocError, Global};
use std::io::Write;

/// How often it asks or waits at most.
const TURNS: u64 = 9_223_372_036_854_775_807;

/// The bytes that are read at once.
const BUFFER_BYTES: usize = 262_144;

/// Prints the lines of a partition from an offset on, at most so many.
pub fn consume<W: Write>(
    rt: &HostRuntime,
    line: ConsoleLine,
    from: i64,
    max: Option<u64>,
    follow: bool,
    writer: &mut W,
) -> Result<(), Fault>
    requires { IsWithin line }
    ensures { OnOk result (PrintsAll (new_consumer (target_of line) from max follow) (W.contents writer.old) (W.contents writer.new)) }
{
    let (mut core, mut link) = begin(rt.alloc(), line, from, max, follow)?;
    print_all(rt, &mut core, &mut link, writer)
}

/// A consumer of the line's partition as the line's user, and the way to the line's broker.
fn begin(
    alloc: Global,
    line: ConsoleLine,
    from: i64,
    max: Option<u64>,
    follow: bool,
) -> Result<(ConsumerCore, Link), AllocError>
    requires { IsWithin line }
    ensures core { IfOk result (λ made. made.0 ≡ new_consumer (target_of line) from max follow) }
    ensures link { IfOk result (λ made. address_of made.1 ≡ address_text line) }
{
    let Place {
        link,
        login,
        topic,
        partition,
    } = Place::of(alloc, line)?;
    let core = ConsumerCore::new(alloc, login, topic, partition, from, max, follow);
    Ok((core, link))
}

/// Goes on until each line that is asked for is printed.
fn print_all<W: Write>(
    rt: &HostRuntime,
    core: &mut ConsumerCore,
    link: &mut Link,
    writer: &mut W,
) -> Result<(), Fault>
    ensures { OnOk result (PrintsAll core.old (W.contents writer.old) (W.contents writer.new)) }
{
    let mut buffer = vec![in rt.alloc(); 0; BUFFER_BYTES]?;
    for _ in 0..TURNS {
        if core.finished() {
            return Ok(());
        }
        turn(rt, core, link, &mut buffer, writer)?;
    }
    Err(Fault::Read)
}

/// Sends a request, or waits for a piece of its reply and prints the lines that it completes.
fn turn<W: Write>(
    rt: &HostRuntime,
    core: &mut ConsumerCore,
    link: &mut Link,
    buffer: &mut [u8],
    writer: &mut W,
) -> Result<(), Fault>
    ensures { OnOk result (Prints core.old (W.contents writer.old) (W.contents writer.new) core.new) }
{
    if !ask(rt, core, link)? {
        return Ok(());
    }
    let n = link.receive(buffer);
    if n == 0 {
        return Ok(());
    }
    take_in(core, &buffer[..n], writer)
}

/// Sends the request whose turn it is, over a new connection where there is none. `false`: the connection ended.
fn ask(rt: &HostRuntime, core: &mut ConsumerCore, link: &mut Link) -> Result<bool, Fault>
    ensures { OnOk result (Gives core.old [] core.new) }
{
    connect(rt, core, link)?;
    let request = core.take_output()?;
    Ok(request.is_empty() || link.send(&request))
}

/// Connects where there is no connection.
fn connect(rt: &HostRuntime, core: &mut ConsumerCore, link: &mut Link) -> Result<(), Fault>
    ensures { OnOk result (Gives core.old [] core.new) }
{
    if !link.connect(rt)? {
        return Ok(());
    }
    core.connected();
    Ok(())
}

/// Takes a piece of a reply, and prints the lines that it completes.
fn take_in<W: Write>(core: &mut ConsumerCore, piece: &[u8], writer: &mut W) -> Result<(), Fault>
    ensures { OnOk result (Prints core.old (W.contents writer.old) (W.contents writer.new) core.new) }
{
    let taken = core.input(piece);
    print_lines(core, writer)?;
    Ok(taken?)
}

/// Prints the lines that were found and not printed yet, each once and in order.
fn print_lines<W: Write>(core: &mut ConsumerCore, writer: &mut W) -> Result<(), Fault>
    ensures printed { OnOk result (Appends (W.contents writer.old) (W.contents writer.new) core.old.found.text) }
    ensures taken { core.new ≡ without_text core.old }
{
    let lines = core.take_lines();
    match writer.write_all(&lines) {
        Ok(()) => Ok(()),
        Err(_) => Err(Fault::Write),
    }
}
