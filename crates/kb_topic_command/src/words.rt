//! The words of the command line.

ghost use Rattle.std.specs.Prelude.{◌≡◌, Some, pos, codes, map, IfOk, IfErr};
ghost use Rattle.clap.specs.Words.{found_of, rows_of};
ghost use Rattle.kb_admin.specs.Settings.{SaysSetting};
ghost use Rattle.kb_topic_command.specs.Words.{text_for, texts_for, written_number, IsCount, AreSaid, Asks, AsksBy, BlamesWords};
ghost use Rattle.kb_topic_command.specs.Words.{IsLong, IsNoCount, IsNoSetting, HasNoSetting, IsWrongTask, IsWrong};

use crate::fault::TopicFault;
use clap::ArgMatches;
use kb_admin::{NewTopic, Session, Setting, ShortText, Task};
use std::alloc::Global;

/// The greatest number of partitions that a request can ask for.
const MAX_INT32: u64 = 2_147_483_647;

/// The client that the words of a subcommand ask for.
pub(crate) fn session_for(
    alloc: Global,
    verb: &str,
    found: &ArgMatches<'_>,
) -> Result<Session, TopicFault>
    ensures session { IfOk result (AsksBy verb.now (rows_of (found_of found.now))) }
    ensures fault { IfErr result (BlamesWords (IsWrong verb.now (rows_of (found_of found.now)))) }
{
    let task = task_of(alloc, verb, found)?;
    let user = short_text(alloc, value(found, "user"))?;
    let password = short_text(alloc, value(found, "password"))?;
    Ok(Session::new(alloc, user, password, task))
}

/// What is asked for.
fn task_of(alloc: Global, verb: &str, found: &ArgMatches<'_>) -> Result<Task, TopicFault>
    ensures task { IfOk result (Asks verb.now (rows_of (found_of found.now))) }
    ensures fault { IfErr result (BlamesWords (IsWrongTask verb.now (rows_of (found_of found.now)))) }
{
    if verb == "create" {
        return Ok(Task::Create(NewTopic {
            name: short_text(alloc, value(found, "name"))?,
            partitions: partitions_of(found)?,
            settings: settings_of(alloc, found)?,
        }));
    }
    if verb == "delete" {
        return Ok(Task::Delete(short_text(alloc, value(found, "name"))?));
    }
    Ok(Task::List)
}

/// How many partitions are asked for.
fn partitions_of(found: &ArgMatches<'_>) -> Result<i32, TopicFault>
    ensures count { IfOk result (λ n. IsCount (text_for (rows_of (found_of found.now)) (codes "partitions"))
        × (n ≡ pos (written_number (text_for (rows_of (found_of found.now)) (codes "partitions"))))) }
    ensures fault { IfErr result (BlamesWords (IsNoCount (text_for (rows_of (found_of found.now)) (codes "partitions")))) }
{
    match u64::from_str_radix(value(found, "partitions"), 10) {
        Ok(n) if n <= MAX_INT32 => Ok(n as i32),
        Ok(_) | Err(_) => Err(TopicFault::Words("--partitions is no number, or too large")),
    }
}

/// The settings that are asked for.
fn settings_of(alloc: Global, found: &ArgMatches<'_>) -> Result<Vec<Setting>, TopicFault>
    ensures settings { IfOk result (λ settings. AreSaid (texts_for (rows_of (found_of found.now)) (codes "config")) settings.items) }
    ensures fault { IfErr result (BlamesWords (HasNoSetting (texts_for (rows_of (found_of found.now)) (codes "config")))) }
{
    match found.get_strs("config") {
        Some(texts) => settings_in(alloc, texts),
        None => Ok(Vec::new(alloc)),
    }
}

/// The settings that some texts say.
fn settings_in(alloc: Global, texts: &[&str]) -> Result<Vec<Setting>, TopicFault>
    ensures settings { IfOk result (λ settings. AreSaid (map (λ text. text.now) texts.now) settings.items) }
    ensures fault { IfErr result (BlamesWords (HasNoSetting (map (λ text. text.now) texts.now))) }
{
    let mut settings = Vec::new(alloc);
    for text in texts {
        settings.push(setting_of(alloc, text)?)?;
    }
    Ok(settings)
}

/// The setting that a text says.
fn setting_of(alloc: Global, text: &str) -> Result<Setting, TopicFault>
    ensures setting { IfOk result (λ setting. SaysSetting text.now (Some setting)) }
    ensures fault { IfErr result (BlamesWords (IsNoSetting text.now)) }
{
    match Setting::read(alloc, text)? {
        Some(setting) => Ok(setting),
        None => Err(TopicFault::Words("--config is no KEY=VALUE, or has more than 255 bytes")),
    }
}

/// A text of at most 255 bytes.
fn short_text(alloc: Global, text: &str) -> Result<ShortText, TopicFault>
    ensures short { IfOk result (λ short. short ≡ text.now) }
    ensures fault { IfErr result (BlamesWords (IsLong text.now)) }
{
    match ShortText::new(String::from_str(alloc, text)?) {
        Some(text) => Ok(text),
        None => Err(TopicFault::Words("a text has more than 255 bytes")),
    }
}

/// The text that was found for a name, or an empty one.
pub(crate) fn value<'a>(found: &ArgMatches<'a>, name: &str) -> &'a str
    ensures { result.now ≡ text_for (rows_of (found_of found.now)) name.now }
{
    match found.get_str(name) {
        Some(text) => text,
        None => "",
    }
}
