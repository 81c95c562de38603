//! A broker inside another program, in memory: what a producer sends comes to a consumer, with no socket between them.
//!
//! A client here is a value, as the broker is: it gives the bytes that it would send, and takes those that would come.
#![tactic(auto)]

ghost use Rattle.std.specs.Prelude.{◌≤◌, length, string_bytes, IfOk};

use kb_broker::{Broker, Settings};
use kb_client::{ClientFault, ConsumerCore, Login, ProducerCore};
use kb_store::MemoryStore;
use std::alloc::{AllocError, Global};
use std::io;
use std::io::Write;
use std::process::ExitCode;

/// How many requests a client makes at most: two for its login, a topic, a producer id and records.
const REQUESTS: usize = 5;

/// A user of the standard settings.
fn ann(alloc: Global) -> Result<Login, AllocError>
    ensures user { IfOk result (λ login. length (string_bytes login.user) ≤ 255) }
    ensures password { IfOk result (λ login. length (string_bytes login.password) ≤ 255) }
{
    Ok(Login {
        user: String::from_str(alloc, "ann")?,
        password: String::from_str(alloc, "pw1")?,
    })
}

fn topic(alloc: Global) -> Result<String, AllocError>
    ensures { IfOk result (λ topic. length (string_bytes topic) ≤ 255) }
{
    String::from_str(alloc, "greetings")
}

/// A new connection, under the number behind all others.
fn connect(alloc: Global, broker: &mut Broker<MemoryStore>) -> Result<u64, AllocError> {
    let number = broker.last_connection().checked_add(1).ok_or(AllocError)?;
    broker.connect(alloc, number)?;
    Ok(number)
}

/// A producer logs in, makes the topic and sends a line.
fn send(alloc: Global, broker: &mut Broker<MemoryStore>, line: &[u8]) -> Result<(), ClientFault> {
    let number = connect(alloc, broker)?;
    let mut producer = ProducerCore::new(alloc, ann(alloc)?, topic(alloc)?, 0, Some(1));
    producer.line(line, 0)?;
    producer.connected();
    for _ in 0..REQUESTS {
        broker.input(alloc, number, &producer.take_output()?);
        producer.input(&broker.take_output(alloc, number))?;
    }
    Ok(())
}

/// A consumer logs in, and reads a line from the beginning of the topic.
fn receive(alloc: Global, broker: &mut Broker<MemoryStore>) -> Result<Vec<u8>, ClientFault> {
    let number = connect(alloc, broker)?;
    let mut consumer = ConsumerCore::new(alloc, ann(alloc)?, topic(alloc)?, 0, 0, Some(1), false);
    consumer.connected();
    for _ in 0..REQUESTS {
        broker.input(alloc, number, &consumer.take_output()?);
        consumer.input(&broker.take_output(alloc, number))?;
    }
    Ok(consumer.take_lines())
}

/// What a consumer is given of a line that a producer sent.
fn passed_on(alloc: Global, line: &[u8]) -> Result<Vec<u8>, ClientFault> {
    let settings = Settings::standard(alloc)?;
    match Broker::<MemoryStore>::open(alloc, &settings, MemoryStore::new(alloc)) {
        Ok(mut opened) => {
            send(alloc, &mut opened.broker, line)?;
            receive(alloc, &mut opened.broker)
        }
        Err(_) => Err(ClientFault::Memory),
    }
}

fn main(rt: HostRuntime) -> ExitCode {
    match passed_on(rt.alloc(), b"hello") {
        Ok(lines) if io::writer(&rt).write_all(&lines).is_ok() => ExitCode::SUCCESS,
        Ok(_) | Err(_) => ExitCode::FAILURE,
    }
}
