//! What `clap` reads the words behind `topic` by.

ghost use Rattle.std.specs.Prelude.{◌≡◌, ◌∷◌, [], codes, IfOk};
ghost use Rattle.clap.specs.Words.{Rule, app_of};
ghost use Rattle.kb_topic_command.specs.Usage.{IsArg, AddsRules, IsSubcommand, option, topic_name, broker_rules};
ghost use Rattle.kb_topic_command.specs.Usage.{create, delete, list, topic};

use clap::{Arg, ArgAction, Command};
use std::alloc::{AllocError, Global};

/// What `clap` reads the words behind `topic` by.
pub fn topic_command<'a>(alloc: Global) -> Result<Command<'a>, AllocError>
    ensures { IfOk result (λ command. app_of command ≡ topic) }
{
    let create = create_command(alloc)?;
    let delete = delete_command(alloc)?;
    let list = list_command(alloc)?;
    Command::new(alloc, "topic")
        .about("Makes, deletes and lists topics of a broker that runs")
        .subcommand_required(true)
        .subcommand(create)?
        .subcommand(delete)?
        .subcommand(list)
}

/// What `clap` reads the words behind `topic create` by.
fn create_command<'a>(alloc: Global) -> Result<Command<'a>, AllocError>
    ensures { IfOk result (λ command. IsSubcommand command create) }
{
    let command = Command::new(alloc, "create").about("Makes a topic");
    let partitions = text(alloc, "partitions", "N", "How many partitions it has").default_value(
        "1",
    );
    let config = text(
        alloc,
        "config",
        "KEY=VALUE",
        "A setting of it, as retention.ms=60000",
    );
    let command = with(broker_args(alloc, command)?, name(alloc))?;
    with(with(command, partitions)?, config.action(ArgAction::Append))
}

/// What `clap` reads the words behind `topic delete` by.
fn delete_command<'a>(alloc: Global) -> Result<Command<'a>, AllocError>
    ensures { IfOk result (λ command. IsSubcommand command delete) }
{
    let command = Command::new(alloc, "delete").about("Deletes a topic");
    with(broker_args(alloc, command)?, name(alloc))
}

/// What `clap` reads the words behind `topic list` by.
fn list_command<'a>(alloc: Global) -> Result<Command<'a>, AllocError>
    ensures { IfOk result (λ command. IsSubcommand command list) }
{
    let command = Command::new(alloc, "list").about("Lists the topics, each with its partitions");
    broker_args(alloc, command)
}

/// The arguments of each of its subcommands: of which broker, and as whom.
fn broker_args<'a>(alloc: Global, command: Command<'a>) -> Result<Command<'a>, AllocError>
    ensures { IfOk result (λ new. AddsRules command.entry broker_rules new) }
{
    let broker = text(alloc, "broker", "HOST:PORT", "The broker's address").required(true);
    let user = text(alloc, "user", "USER", "The user").required(true);
    let password = text(alloc, "password", "PASSWORD", "The password").required(true);
    with(with(with(command, broker)?, user)?, password)
}

/// A command with one more argument, which is its own.
fn with<'a>(command: Command<'a>, arg: Arg<'a>) -> Result<Command<'a>, AllocError>
    ensures { (rule : Rule) → IsArg arg.entry rule → IfOk result (λ new. AddsRules command.entry (rule ∷ []) new) }
{
    command.arg(arg)
}

/// An argument with a value.
fn text<'a>(alloc: Global, name: &'a str, value: &'a str, help: &'a str) -> Arg<'a>
    ensures { IsArg result (option name.entry.now) }
{
    Arg::new(alloc, name)
        .long(name)
        .value_name(value)
        .help(help)
        .action(ArgAction::Set)
}

/// The topic's name.
fn name<'a>(alloc: Global) -> Arg<'a>
    ensures { IsArg result topic_name }
{
    Arg::new(alloc, "name")
        .value_name("NAME")
        .help("The topic")
        .required(true)
        .action(ArgAction::Set)
}
