//! What is printed of a task.

ghost use Rattle.std.specs.Prelude.{◌≡◌, string_bytes, IfOk};
ghost use Rattle.std.specs.List.{flat_map};
ghost use Rattle.kb_topic_command.specs.Printing.{made_line, done_text, topic_has, topic_line, answer_text};

use kb_admin::{AdminFault, Heard, Listed, Task};
use std::alloc::{AllocError, Global};

/// The text of what a broker answered to a task.
pub(crate) fn answer_text(alloc: Global, task: &Task, heard: &Heard) -> Result<String, AllocError>
    ensures { IfOk result (λ text. string_bytes text ≡ answer_text task.now heard.now) }
{
    match heard {
        Heard::Topics(topics) => topics_text(alloc, topics.as_slice()),
        Heard::Done => done_text(alloc, task),
        Heard::More | Heard::Next => Ok(String::new(alloc)),
    }
}

/// The line of a task that was done: none of a list.
fn done_text(alloc: Global, task: &Task) -> Result<String, AllocError>
    ensures { IfOk result (λ text. string_bytes text ≡ done_text task.now) }
{
    match task {
        Task::Create(topic) => made_line(alloc, topic.name.as_str(), topic.partitions),
        Task::Delete(name) => {
            let name = name.as_str();
            format!(in alloc; "deleted {name}\n")
        }
        Task::List => Ok(String::new(alloc)),
    }
}

/// The line of a topic that was made.
fn made_line(alloc: Global, name: &str, partitions: i32) -> Result<String, AllocError>
    ensures { IfOk result (λ text. string_bytes text ≡ made_line name.now partitions) }
{
    format!(in alloc; "made {name}, partitions: {partitions}\n")
}

/// A line for each topic, in order.
fn topics_text(alloc: Global, topics: &[Listed]) -> Result<String, AllocError>
    ensures { IfOk result (λ text. string_bytes text ≡ flat_map topic_line topics.now) }
{
    let mut text = String::new(alloc);
    for topic in topics {
        text.push_str(&topic_line(alloc, topic)?)?;
    }
    Ok(text)
}

/// The line of a topic: its name and what it has.
fn topic_line(alloc: Global, topic: &Listed) -> Result<String, AllocError>
    ensures { IfOk result (λ line. string_bytes line ≡ topic_line topic.now) }
{
    let name = topic.name();
    let has = has_text(alloc, topic)?;
    format!(in alloc; "{name} {has}\n")
}

/// How many partitions a topic has, or the error that it has.
fn has_text(alloc: Global, topic: &Listed) -> Result<String, AllocError>
    ensures { IfOk result (λ text. string_bytes text ≡ topic_has topic.now) }
{
    let (partitions, code) = (topic.partitions(), topic.error_code());
    if code == 0 {
        return format!(in alloc; "{partitions}");
    }
    let fault = AdminFault::Refused(code);
    format!(in alloc; "{fault}")
}
