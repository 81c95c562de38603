//! `kconsole produce`: sends the lines of standard input to a partition.

ghost use Rattle.std.specs.Prelude.{◌≡◌, ◌≤◌, IfOk};
ghost use Rattle.kb_wire.specs.declared.clock.TheConstants.{MAX_CLOCK};
ghost use Rattle.kb_client.specs.Producer.{new_producer};
ghost use Rattle.kconsole.specs.Console.{IsWithin, address_of, address_text, target_of};

use crate::console::ConsoleLine;
use crate::fault::Fault;
use crate::link::Link;
use crate::place::Place;
use crate::progress::Progress;
use kb_client::{ClientFault, MAX_LINE_BYTES, ProducerCore};
use kb_server_log::now;
use std::alloc::{AllocError, Global};
use std::io::Read;

/// How often it asks or waits at most.
const TURNS: u64 = 9_223_372_036_854_775_807;

/// The bytes that are read at once.
const BUFFER_BYTES: usize = 65_536;

/// Lines on their way from standard input to a partition.
#[derive(Drop)]
struct Producer {
    core: ProducerCore,
    link: Link,
    /// A line of which the end was not read yet.
    front: Vec<u8>,
    /// How many lines were read.
    lines: u64,
    progress: Progress,
}

/// Sends the lines of standard input, and prints how many.
pub fn produce(rt: &HostRuntime, line: ConsoleLine, create: Option<i32>) -> Result<(), Fault>
    requires { IsWithin line }
{
    let alloc = rt.alloc();
    let (core, link) = begin(alloc, line, create)?;
    let mut producer = Producer {
        core,
        link,
        front: Vec::new(alloc),
        lines: 0,
        progress: Progress::new(rt),
    };
    let done = producer.send_all(rt);
    producer.progress.end(rt);
    done?;
    match println!(rt; "{} sent", producer.core.acknowledged()) {
        Ok(()) => Ok(()),
        Err(_) => Err(Fault::Write),
    }
}

/// A producer for the line's partition as the line's user, and the way to the line's broker.
fn begin(
    alloc: Global,
    line: ConsoleLine,
    create: Option<i32>,
) -> Result<(ProducerCore, Link), AllocError>
    requires { IsWithin line }
    ensures core { IfOk result (λ made. made.0 ≡ new_producer (target_of line) create) }
    ensures link { IfOk result (λ made. address_of made.1 ≡ address_text line) }
{
    let Place {
        link,
        login,
        topic,
        partition,
    } = Place::of(alloc, line)?;
    let core = ProducerCore::new(alloc, login, topic, partition, create);
    Ok((core, link))
}

impl Producer {
    /// Sends the lines as they are read, and waits for each to be acknowledged before more is read.
    fn send_all(&mut self, rt: &HostRuntime) -> Result<(), Fault> {
        let alloc = rt.alloc();
        let mut replies = vec![in alloc; 0; BUFFER_BYTES]?;
        let mut read = vec![in alloc; 0; BUFFER_BYTES]?;
        let mut reader = rt.reader();
        self.settle(rt, &mut replies)?;
        for _ in 0..TURNS {
            let Ok(n) = reader.read(&mut read) else {
                return Err(Fault::Read);
            };
            let handed = if n == 0 {
                self.hand_in_rest(now(rt))
            } else {
                self.hand_in(&read[..n], now(rt))
            };
            self.settle(rt, &mut replies)?;
            handed?;
            if n == 0 {
                return Ok(());
            }
            self.progress.tell(rt, self.core.acknowledged());
        }
        Err(Fault::Read)
    }

    /// Takes a piece of standard input, at a moment: the lines that it ends are handed in.
    fn hand_in(&mut self, piece: &[u8], now: u64) -> Result<(), Fault>
        requires { now ≤ MAX_CLOCK }
    {
        let mut rest = piece;
        for _ in 0..piece.len() {
            let Some(place) = rest.iter().position(|byte| *byte == b'\n') else {
                break;
            };
            self.lengthen(&rest[..place])?;
            self.end_line(now)?;
            rest = &rest[place + 1..];
        }
        self.lengthen(rest)
    }

    /// Standard input ended: what is left is a line, if it is not empty.
    fn hand_in_rest(&mut self, now: u64) -> Result<(), Fault>
        requires { now ≤ MAX_CLOCK }
    {
        if self.front.is_empty() {
            return Ok(());
        }
        self.end_line(now)
    }

    /// More of a line.
    fn lengthen(&mut self, piece: &[u8]) -> Result<(), Fault> {
        let length = self.front.len();
        if length > MAX_LINE_BYTES || piece.len() > MAX_LINE_BYTES - length {
            return Err(Fault::LineTooLong(self.lines.saturating_add(1)));
        }
        self.front.extend_from_slice(piece)?;
        Ok(())
    }

    /// The line is whole.
    fn end_line(&mut self, now: u64) -> Result<(), Fault>
        requires { now ≤ MAX_CLOCK }
    {
        self.lines = self.lines.saturating_add(1);
        let taken = self.core.line(&self.front, now);
        self.front.clear();
        match taken {
            Ok(()) => Ok(()),
            Err(ClientFault::LineTooLong) => Err(Fault::LineTooLong(self.lines)),
            Err(e) => Err(Fault::from(e)),
        }
    }

    /// Goes on until each line that was handed in is acknowledged.
    fn settle(&mut self, rt: &HostRuntime, replies: &mut [u8]) -> Result<(), Fault> {
        for _ in 0..TURNS {
            if self.core.idle() {
                return Ok(());
            }
            self.turn(rt, replies)?;
        }
        Err(Fault::Read)
    }

    /// Sends a request, and waits for a piece of its reply.
    fn turn(&mut self, rt: &HostRuntime, replies: &mut [u8]) -> Result<(), Fault> {
        if self.link.connect(rt)? {
            self.core.connected();
        }
        let request = self.core.take_output()?;
        if !request.is_empty() && !self.link.send(&request) {
            return Ok(());
        }
        let n = self.link.receive(replies);
        if n > 0 {
            self.core.input(&replies[..n])?;
        }
        Ok(())
    }
}
