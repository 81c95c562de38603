//! What happens to a broker, one step after another. Bytes are written as `words` says.

use crate::host::Host;
use crate::words::bytes_of;
use Step::{Asks, Due, Opens, Passes};
use std::alloc::{AllocError, Global};
use std::test::Fail;

/// What happens to a broker, or what is so.
#[derive(Clone, Copy)]
enum Step<'a> {
    /// A connection opens.
    Opens(u64),
    /// Bytes come on a connection, and that is its output then.
    Asks(u64, &'a str, &'a str),
    /// A moment passes.
    Passes(u32),
    /// There is something to do at that moment, and nothing before it.
    Due(u64),
}

/// Nothing is to be done at any moment that may come: the latest is at 2^62 milliseconds.
const NEVER: u64 = 4_611_686_018_427_387_905;

/// When there is something to do: where a topic keeps records for a second only, at the end of a fetch's wait, and of a session. A
/// deadline that came too early would cost its moment, and no clause forbids it.
const DEADLINES: [Step<'static>; 30] = [
    Passes(0),
    Due(NEVER),
    Opens(1),
    Asks(
        1,
        "handshake ann create-for-a-second",
        "offered welcome created",
    ),
    Due(NEVER),
    Asks(1, "append hi", "appended-0"),
    Due(1_006),
    Passes(1_000),
    Due(1_006),
    Opens(2),
    Asks(2, "handshake ann wait", "offered welcome"),
    Due(1_006),
    Passes(1_006),
    Due(2_000),
    Asks(2, "", ""),
    Passes(1_500),
    Asks(1, "join", "joined"),
    Due(2_000),
    Passes(2_000),
    Asks(2, "", "nothing-came"),
    Due(11_500),
    Passes(10_000),
    Asks(1, "sync beat", "shared-aa beaten"),
    Due(11_500),
    Passes(11_500),
    Due(20_000),
    Passes(19_999),
    Due(20_000),
    Passes(20_000),
    Due(NEVER),
];

/// A topic of two records, of which the first is deleted, a committed offset, and a producer's batch.
const BEFORE: [Step<'static>; 3] = [
    Opens(1),
    Asks(
        1,
        "handshake ann create append hi append hi commit",
        "offered welcome created appended-0 appended-1 committed",
    ),
    Asks(
        1,
        "delete-first begin append by-0",
        "deleted-first begun-0 appended-2",
    ),
];

/// All of it is there again. A batch that the producer sends again is not stored twice, and the next producer gets the next id.
const AFTER: [Step<'static>; 3] = [
    Opens(1),
    Asks(
        1,
        "handshake ann create-again metadata wait ask-offset",
        "offered welcome exists described came-both hi at-2 by-0 offset-5",
    ),
    Asks(
        1,
        "fetch append by-0 begin append hi",
        "past appended-2 begun-1 appended-3",
    ),
];

/// Whether a step goes as it says.
fn goes(alloc: Global, host: &mut Host, step: Step<'_>) -> Result<bool, AllocError> {
    match step {
        Step::Opens(number) => {
            host.open(number)?;
            Ok(true)
        }
        Step::Asks(number, request, reply) => is_told(alloc, host, number, request, reply),
        Step::Passes(now) => {
            host.pass(now);
            Ok(true)
        }
        Step::Due(moment) => Ok(host.deadline().min(NEVER) == moment),
    }
}

/// Whether a connection is told that once those bytes came on it.
fn is_told(
    alloc: Global,
    host: &mut Host,
    number: u64,
    request: &str,
    reply: &str,
) -> Result<bool, AllocError> {
    let told = host.ask(number, &bytes_of(alloc, request)?);
    Ok(told == bytes_of(alloc, reply)?)
}

/// How many steps go as they say, before the first that does not.
fn play(alloc: Global, host: &mut Host, steps: &[Step<'_>]) -> Result<usize, AllocError> {
    let mut done = 0usize;
    for step in steps {
        if !goes(alloc, host, *step)? {
            break;
        }
        done = done.saturating_add(1);
    }
    Ok(done)
}

/// A broker to which the steps happen, where they all go as they say.
fn after(alloc: Global, mut host: Host, steps: &[Step<'_>]) -> Result<Host, Fail> {
    if play(alloc, &mut host, steps)? < steps.len() {
        return Err("a step goes otherwise".into());
    }
    Ok(host)
}

#[test]
fn nothing_is_due_too_early(rt: HostRuntime) -> Result<(), Fail> {
    after(rt.alloc(), Host::new(rt.alloc())?, &DEADLINES)?;
    Ok(())
}

#[test]
fn a_broker_that_opens_again_goes_on(rt: HostRuntime) -> Result<(), Fail> {
    let host = after(rt.alloc(), Host::new(rt.alloc())?, &BEFORE)?;
    after(rt.alloc(), host.again()?, &AFTER)?;
    Ok(())
}
