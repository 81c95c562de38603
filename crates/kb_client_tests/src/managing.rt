//! Tasks on topics, one after the other on one broker.

use crate::wire::Wire;
use kb_admin::{AdminFault, Heard, Listed, NewTopic, Session, Setting, ShortText, Task};
use std::alloc::{AllocError, Global};
use std::process::Abort;
use std::test::Fail;

/// How many requests a session makes at most.
const REQUESTS: usize = 4;

/// Creations of a topic of that name, with so many partitions and that setting, and what each comes to.
const CREATED: [(&str, i32, &str, &str); 6] = [
    ("orders", 3, "retention.ms=60000", "done"),
    ("orders", 1, "retention.ms=60000", "TOPIC_ALREADY_EXISTS"),
    (
        "or/ders",
        1,
        "retention.ms=60000",
        "INVALID_TOPIC_EXCEPTION",
    ),
    ("sales", 0, "retention.ms=60000", "INVALID_PARTITIONS"),
    ("sales", 1, "retention.ms=soon", "INVALID_CONFIG"),
    ("sales", 1, "retention.bytes=1000", "done"),
];

/// Deletions of the topic of that name, and what each comes to.
const DELETED: [(&str, &str); 2] = [("orders", "done"), ("orders", "UNKNOWN_TOPIC_OR_PARTITION")];

/// A text of at most 255 bytes.
fn short(rt: &impl Abort, alloc: Global, text: &str) -> Result<ShortText, AllocError> {
    match ShortText::new(String::from_str(alloc, text)?) {
        Some(text) => Ok(text),
        None => panic!(rt; "a text has more than 255 bytes"),
    }
}

/// The creation of a topic with one setting.
fn creation(
    rt: &impl Abort,
    alloc: Global,
    name: &str,
    partitions: i32,
    setting: &str,
) -> Result<Task, AllocError> {
    let mut settings = Vec::new(alloc);
    match Setting::read(alloc, setting)? {
        Some(setting) => settings.push(setting)?,
        None => panic!(rt; "{setting} is no setting"),
    }
    let name = short(rt, alloc, name)?;
    Ok(Task::Create(NewTopic {
        name,
        partitions,
        settings,
    }))
}

/// Sends each request of a session, and gives what the last reply comes to.
fn run(wire: &mut Wire, session: &mut Session) -> Result<Heard, AdminFault> {
    for _ in 0..REQUESTS {
        let request = session.request()?;
        let reply = wire.pass(&request);
        match session.input(&reply)? {
            Heard::Next => {}
            heard => return Ok(heard),
        }
    }
    Err(AdminFault::Protocol)
}

/// Topics as a text: a line each, with the name and the number of partitions.
fn lines_of(alloc: Global, topics: &[Listed]) -> Result<String, AllocError> {
    let mut lines = String::new(alloc);
    for topic in topics {
        lines.push_str(topic.name())?;
        lines.push_str(&format!(in alloc; " {}\n", topic.partitions())?)?;
    }
    Ok(lines)
}

/// What a session comes to, as a text.
fn text_of(alloc: Global, heard: Result<Heard, AdminFault>) -> Result<String, AllocError> {
    match heard {
        Ok(Heard::Topics(topics)) => lines_of(alloc, topics.as_slice()),
        Ok(Heard::Done) => String::from_str(alloc, "done"),
        Ok(Heard::More | Heard::Next) => String::from_str(alloc, "more"),
        Err(AdminFault::Memory) => Err(AllocError),
        Err(fault) => format!(in alloc; "{fault}"),
    }
}

/// A session of `ann` with a task.
fn session(
    rt: &impl Abort,
    alloc: Global,
    password: &str,
    task: Task,
) -> Result<Session, AllocError> {
    let (user, password) = (short(rt, alloc, "ann")?, short(rt, alloc, password)?);
    Ok(Session::new(alloc, user, password, task))
}

/// What a session comes to on a connection of its own, as a text.
fn said(
    rt: &impl Abort,
    alloc: Global,
    wire: &mut Wire,
    session: &mut Session,
) -> Result<String, AllocError> {
    wire.renew(rt)?;
    text_of(alloc, run(wire, session))
}

/// A task of `ann` comes to this.
fn comes_to(
    rt: &impl Abort,
    alloc: Global,
    wire: &mut Wire,
    password: &str,
    task: Task,
    expected: &str,
) -> Result<(), Fail> {
    let mut session = session(rt, alloc, password, task)?;
    let text = said(rt, alloc, wire, &mut session)?;
    assert!(rt; text.as_str() == expected, "{expected}");
    Ok(())
}

/// Each creation comes to what is wanted.
fn creations_come_to(rt: &impl Abort, alloc: Global, wire: &mut Wire) -> Result<(), Fail> {
    for (name, partitions, setting, expected) in &CREATED {
        let task = creation(rt, alloc, name, *partitions, setting)?;
        comes_to(rt, alloc, wire, "pw1", task, expected)?;
    }
    Ok(())
}

/// Each deletion comes to what is wanted.
fn deletions_come_to(rt: &impl Abort, alloc: Global, wire: &mut Wire) -> Result<(), Fail> {
    for (name, expected) in &DELETED {
        let task = Task::Delete(short(rt, alloc, name)?);
        comes_to(rt, alloc, wire, "pw1", task, expected)?;
    }
    Ok(())
}

#[test]
fn topics_are_made_listed_and_deleted(rt: HostRuntime) -> Result<(), Fail> {
    let alloc = rt.alloc();
    let mut wire = Wire::new(alloc)?;
    comes_to(
        &rt,
        alloc,
        &mut wire,
        "pw2",
        Task::List,
        "SASL_AUTHENTICATION_FAILED",
    )?;
    comes_to(&rt, alloc, &mut wire, "pw1", Task::List, "")?;
    creations_come_to(&rt, alloc, &mut wire)?;
    comes_to(
        &rt,
        alloc,
        &mut wire,
        "pw1",
        Task::List,
        "orders 3\nsales 1\n",
    )?;
    deletions_come_to(&rt, alloc, &mut wire)?;
    comes_to(&rt, alloc, &mut wire, "pw1", Task::List, "sales 1\n")
}
