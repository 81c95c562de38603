//! The command line of `kconsole`.

ghost use Rattle.std.specs.Prelude.{◌≡◌, ◌≤◌, ◌∷◌, [], length, codes, option_map, IfOk, IfSome};
ghost use Rattle.clap.specs.Words.{Rule, app_of, found_of, first_of, rows_of};
ghost use Rattle.clap.specs.Walk.{texts};
ghost use Rattle.kconsole.specs.Usage.{IsArg, AddsRules, IsSubcommand, option, needed, flag, partition_rules};
ghost use Rattle.kconsole.specs.Usage.{produce, consume, console};
ghost use Rattle.kconsole.specs.Console.{IsWithin, IsTextOf, IsNumberOf, IsAddressOf, IsFlagOf, IsTaskOf, IsLineOf, IsReadOf};

use clap::error::ErrorKind;
use clap::{Arg, ArgAction, ArgMatches, Command};
use kb_client::Login;
use kb_version::VERSION;
use std::alloc::{AllocError, Global};
use thiserror::Error;

/// The most bytes of a user, a password, a topic and a host.
const MAX_TEXT_BYTES: usize = 255;

/// The greatest partition, number of partitions and number of retries.
const MAX_INT32: u64 = 2_147_483_647;

/// The greatest offset and number of lines.
const MAX_INT64: u64 = 9_223_372_036_854_775_807;

/// What a command line asks for.
#[derive(Clone, Copy, Debug, PartialEq, Eq)]
pub enum Task {
    /// The lines of standard input are sent. With a number the topic is first made, with so many partitions.
    Produce {
        create: Option<i32>,
    },
    /// The lines from an offset on are printed, at most so many. With `follow` it waits for more at the end.
    Consume {
        from: i64,
        max: Option<u64>,
        follow: bool,
    },
}

/// A command line of `kconsole`: what it asks for, and of which broker and partition.
#[derive(Drop)]
pub struct ConsoleLine {
    pub host: String,
    pub port: u16,
    pub login: Login,
    pub topic: String,
    pub partition: i32,
    /// How often a connection is tried again, over the whole run.
    pub retries: u32,
    pub task: Task,
}

/// Why words are no command line.
#[derive(Debug, Drop, Error)]
pub enum LineFault {
    /// They are none, or they call for help: the text that tells it.
    #[error("{0}")]
    Words(clap::Error),
    /// Memory ran out.
    #[error("out of memory")]
    Memory,
}

impl From<AllocError> for LineFault {
    fn from(_e: AllocError) -> LineFault {
        LineFault::Memory
    }
}

impl From<clap::Error> for LineFault {
    fn from(e: clap::Error) -> LineFault {
        if e.kind() == ErrorKind::OutOfMemory {
            LineFault::Memory
        } else {
            LineFault::Words(e)
        }
    }
}

impl ConsoleLine {
    /// Reads the words of a command line, the program's name first.
    pub fn read(alloc: Global, words: &[&str]) -> Result<ConsoleLine, LineFault>
        ensures within { IfOk result (λ line. IsWithin line) }
        ensures words { IfOk result (λ line. IsReadOf (texts words.now) line) }
    {
        let matches = ConsoleLine::command(alloc)?.try_get_matches_from(words)?;
        match matches.subcommand() {
            Some((name, found)) => line_of(alloc, name, found),
            // A subcommand is asked for: no other line is taken.
            None => Err(LineFault::Memory),
        }
    }

    /// A fault of the command line with this text.
    pub fn fault(alloc: Global, text: &str) -> LineFault {
        match ConsoleLine::command(alloc) {
            Ok(mut command) => match command.error(ErrorKind::ValueValidation, text) {
                Ok(e) => LineFault::from(e),
                Err(_) => LineFault::Memory,
            },
            Err(_) => LineFault::Memory,
        }
    }

    /// What `clap` reads a command line by.
    fn command<'a>(alloc: Global) -> Result<Command<'a>, AllocError>
        ensures { IfOk result (λ command. app_of command ≡ console) }
    {
        let produce = produce_command(alloc)?;
        let consume = consume_command(alloc)?;
        Command::new(alloc, "kconsole")
            .about("Sends lines to a broker that speaks the Kafka protocol, and prints them")
            .version(VERSION)
            .subcommand_required(true)
            .subcommand(produce)?
            .subcommand(consume)
    }
}

/// What `clap` reads the words behind `produce` by.
fn produce_command<'a>(alloc: Global) -> Result<Command<'a>, AllocError>
    ensures { IfOk result (λ command. IsSubcommand command produce) }
{
    let command = Command::new(alloc, "produce").about(
        "Sends the lines of standard input to a partition, each once and in order",
    );
    let create = text(
        alloc,
        "create",
        "N",
        "First creates the topic with N partitions",
    );
    with(partition_args(alloc, command)?, create)
}

/// What `clap` reads the words behind `consume` by.
fn consume_command<'a>(alloc: Global) -> Result<Command<'a>, AllocError>
    ensures { IfOk result (λ command. IsSubcommand command consume) }
{
    let command = Command::new(alloc, "consume").about("Prints the lines of a partition");
    let from = text(alloc, "from", "N", "The offset of the first line").default_value("0");
    let max = text(alloc, "max", "N", "Ends after N lines");
    let command = with(partition_args(alloc, command)?, from)?;
    with(with(command, max)?, follow_arg(alloc))
}

/// Whether it waits for more.
fn follow_arg<'a>(alloc: Global) -> Arg<'a>
    ensures { IsArg result (flag (codes "follow")) }
{
    Arg::new(alloc, "follow")
        .long("follow")
        .help("Waits for more lines at the end")
        .action(ArgAction::SetTrue)
}

/// The arguments of both subcommands.
fn partition_args<'a>(alloc: Global, command: Command<'a>) -> Result<Command<'a>, AllocError>
    ensures { IfOk result (λ new. AddsRules command.entry partition_rules new) }
{
    let topic = text(alloc, "topic", "TOPIC", "The topic").required(true);
    let partition = text(alloc, "partition", "N", "The partition").default_value("0");
    let retries = text(
        alloc,
        "retries",
        "N",
        "How often a connection is tried again",
    );
    let command = with(broker_args(alloc, command)?, topic)?;
    with(with(command, partition)?, retries.default_value("3"))
}

/// The arguments that say of which broker, and as whom.
fn broker_args<'a>(alloc: Global, command: Command<'a>) -> Result<Command<'a>, AllocError>
    ensures { IfOk result (λ new. AddsRules command.entry
        (needed (codes "broker") ∷ needed (codes "user") ∷ needed (codes "password") ∷ []) new) }
{
    let broker = text(alloc, "broker", "HOST:PORT", "The broker's address").required(true);
    let user = text(alloc, "user", "USER", "The user").required(true);
    let password = text(alloc, "password", "PASSWORD", "The password").required(true);
    with(with(with(command, broker)?, user)?, password)
}

/// A command with one more argument, which is its own.
fn with<'a>(command: Command<'a>, arg: Arg<'a>) -> Result<Command<'a>, AllocError>
    ensures { (rule : Rule) → IsArg arg.entry rule → IfOk result (λ new. AddsRules command.entry (rule ∷ []) new) }
{
    command.arg(arg)
}

/// An argument with a value.
fn text<'a>(alloc: Global, name: &'a str, value: &'a str, help: &'a str) -> Arg<'a>
    ensures { IsArg result (option name.entry.now) }
{
    Arg::new(alloc, name)
        .long(name)
        .value_name(value)
        .help(help)
        .action(ArgAction::Set)
}

/// The line of what `clap` found.
fn line_of(alloc: Global, name: &str, found: &ArgMatches<'_>) -> Result<ConsoleLine, LineFault>
    ensures { IfOk result (λ line. IsLineOf name.now (rows_of (found_of found.now)) line) }
{
    let Some(task) = task_of(name, found) else {
        return Err(ConsoleLine::fault(alloc, "a number is not one, or too large"));
    };
    let (Some(user), Some(password), Some(topic)) = (
        short_text(found, "user"),
        short_text(found, "password"),
        short_text(found, "topic"),
    ) else {
        return Err(ConsoleLine::fault(alloc, "a text has more than 255 bytes"));
    };
    let Some((host, port)) = address(found) else {
        return Err(ConsoleLine::fault(alloc, "the broker is no HOST:PORT"));
    };
    let (Some(partition), Some(retries)) = (
        number(found, "partition", MAX_INT32),
        number(found, "retries", MAX_INT32),
    ) else {
        return Err(ConsoleLine::fault(alloc, "a number is not one, or too large"));
    };
    Ok(ConsoleLine {
        host: String::from_str(alloc, host)?,
        port,
        login: Login {
            user: String::from_str(alloc, user)?,
            password: String::from_str(alloc, password)?,
        },
        topic: String::from_str(alloc, topic)?,
        partition: partition as i32,
        retries: retries as u32,
        task,
    })
}

/// What a subcommand asks for, if its numbers are some.
fn task_of(name: &str, found: &ArgMatches<'_>) -> Option<Task>
    ensures { IfSome result (λ task. IsTaskOf name.now (rows_of (found_of found.now)) task) }
{
    match name {
        "produce" => produce_task(found),
        "consume" => consume_task(found),
        // There is no other, and `clap` itself gives help.
        _ => None,
    }
}

/// What `produce` asks for, if its numbers are some.
fn produce_task(found: &ArgMatches<'_>) -> Option<Task>
    ensures { IfSome result (λ task. IsTaskOf (codes "produce") (rows_of (found_of found.now)) task) }
{
    if value(found, "create").is_none() {
        return Some(Task::Produce { create: None });
    }
    let create = number(found, "create", MAX_INT32)?;
    Some(Task::Produce {
        create: Some(create as i32),
    })
}

/// What `consume` asks for, if its numbers are some.
fn consume_task(found: &ArgMatches<'_>) -> Option<Task>
    ensures { IfSome result (λ task. IsTaskOf (codes "consume") (rows_of (found_of found.now)) task) }
{
    let from = number(found, "from", MAX_INT64)? as i64;
    let follow = flag(found, "follow");
    if value(found, "max").is_none() {
        return Some(Task::Consume {
            from,
            max: None,
            follow,
        });
    }
    let max = number(found, "max", MAX_INT64)?;
    Some(Task::Consume {
        from,
        max: Some(max),
        follow,
    })
}

/// A text that was found, of at most 255 bytes.
fn short_text<'a>(found: &ArgMatches<'a>, name: &str) -> Option<&'a str>
    ensures found { IfSome result (λ text. IsTextOf (rows_of (found_of found.now)) name.now text.now) }
    ensures short { IfSome result (λ text. length text.now ≤ 255) }
{
    let text = value(found, name)?;
    if text.len() > MAX_TEXT_BYTES {
        return None;
    }
    Some(text)
}

/// A number that was found, in decimal digits and at most `most`.
fn number(found: &ArgMatches<'_>, name: &str, most: u64) -> Option<u64>
    ensures found { IfSome result (λ n. IsNumberOf (rows_of (found_of found.now)) name.now n) }
    ensures within { IfSome result (λ n. n ≤ most) }
{
    let text = value(found, name)?;
    match u64::from_str_radix(text, 10) {
        Ok(n) if n <= most => Some(n),
        Ok(_) | Err(_) => None,
    }
}

/// The host and the port of the broker that was found: they are split at the last colon.
fn address<'a>(found: &ArgMatches<'a>) -> Option<(&'a str, u16)>
    ensures found { IfSome result (λ a. IsAddressOf (rows_of (found_of found.now)) a.0.now a.1) }
    ensures some { IfSome result (λ a. 1 ≤ length a.0.now) }
    ensures short { IfSome result (λ a. length a.0.now ≤ 255) }
    ensures port { IfSome result (λ a. 1 ≤ a.1) }
{
    let text = value(found, "broker")?;
    let (host, port) = text.rsplit_once(':')?;
    if host.is_empty() || host.len() > MAX_TEXT_BYTES {
        return None;
    }
    match u16::from_str_radix(port, 10) {
        Ok(0) | Err(_) => None,
        Ok(port) => Some((host, port)),
    }
}

/// The text that was found for a name, or its default.
fn value<'a>(found: &ArgMatches<'a>, name: &str) -> Option<&'a str>
    ensures { option_map (λ text. text.now) result ≡ first_of name.now (rows_of (found_of found.now)) }
{
    found.get_str(name)
}

/// Whether a flag was found.
fn flag(found: &ArgMatches<'_>, name: &str) -> bool
    ensures { IsFlagOf (rows_of (found_of found.now)) name.now result }
{
    found.get_flag(name)
}
