//! The broker's program.
//!
//! `kbroker script` runs a script of events from standard input and writes what each connection gets to standard output, with logs
//! in memory or in the files of a data folder.
//! `kbroker serve` listens on the address of its settings and serves sockets until it is stopped. `kbroker check` says what
//! settings come to, or what a start on a data folder would find. `kbroker dump` prints what the files of a data folder hold.
//! `kbroker topic` makes, deletes and lists topics of a broker that runs. `kbroker tenant` takes a tenant from one data folder to another,
//! or away. Status 0 is done, 1 a fault with one line on standard error, 2 a fault of the command line with its usage.
#![tactic(auto)]

ghost use Rattle.std.specs.Process.{exit_status};
ghost use Rattle.kbroker.specs.Ended.{IsExitStatus, IsOfTopic};

mod catalogs;
mod causes;
mod check;
mod dump;
mod history;
mod ids;
mod listening;
mod monitoring;
mod open;
mod process;
mod script;
mod serve;
mod shown;
mod telling;
mod totals;
mod words;
mod writing;

use clap::error::ErrorKind;
use clap::{Arg, ArgAction, ArgMatches, Command};
use kb_node::NodeFault;
use kb_operator::{Lines, OperatorFault};
use kb_process::hold_streams;
use kb_tenant_command::{TenantFault, tenant, tenant_command};
use kb_topic_command::{TopicFault, topic, topic_command};
use kb_version::VERSION;
use std::alloc::{AllocError, AllocFailed, Global};
use std::io;
use std::process::ExitCode;
use thiserror::Error;

/// Why the program ends early.
#[derive(Debug, Drop, Error)]
enum Fault {
    /// The command line, or a call for help.
    #[error("{0}")]
    Words(clap::Error),
    #[error("{0}")]
    Operator(OperatorFault),
    #[error("{0}")]
    Node(NodeFault),
    #[error("kbroker: {0}")]
    Topic(TopicFault),
    #[error("{0}")]
    Tenant(TenantFault),
    /// There is no folder at this path.
    #[error("kbroker: no folder {0}")]
    NoFolder(String),
    /// The producer ids that a tenant's catalog has lost are not given out: behind it stands which tenant's, and why.
    #[error("kbroker: {0}")]
    Ids(String),
    /// A standard stream is closed, and nothing can be opened in its place.
    #[error("kbroker: cannot open /dev/null: {0}")]
    Streams(io::Error),
}

impl From<AllocError> for Fault {
    ghost use Rattle.std.specs.Prelude.{◌≡◌};
    ghost use Rattle.kbroker.specs.Ended.{memory};

    ghost from_gives = { λ _ e. e ≡ memory };

    fn from(_e: AllocError) -> Fault {
        Fault::Operator(OperatorFault::Memory)
    }
}

impl<T: Drop> From<AllocFailed<T>> for Fault {
    ghost use Rattle.std.specs.Prelude.{◌≡◌};
    ghost use Rattle.kbroker.specs.Ended.{memory};

    ghost from_gives = { λ _ e. e ≡ memory };

    fn from(_e: AllocFailed<T>) -> Fault {
        Fault::Operator(OperatorFault::Memory)
    }
}

impl From<OperatorFault> for Fault {
    ghost use Rattle.std.specs.Prelude.{◌≡◌};
    ghost use Rattle.kbroker.specs.declared.Fault.TheVariants.{Operator};

    ghost from_gives = { λ e fault. fault ≡ Operator e };

    fn from(e: OperatorFault) -> Fault {
        Fault::Operator(e)
    }
}

impl From<NodeFault> for Fault {
    ghost use Rattle.std.specs.Prelude.{◌≡◌};
    ghost use Rattle.kbroker.specs.declared.Fault.TheVariants.{Node};

    ghost from_gives = { λ e fault. fault ≡ Node e };

    fn from(e: NodeFault) -> Fault {
        Fault::Node(e)
    }
}

impl From<clap::Error> for Fault {
    ghost use Rattle.kbroker.specs.Ended.{IsOfWords};

    ghost from_gives = { λ e fault. IsOfWords e fault };

    fn from(e: clap::Error) -> Fault {
        if e.kind() == ErrorKind::OutOfMemory {
            Fault::Operator(OperatorFault::Memory)
        } else {
            Fault::Words(e)
        }
    }
}

/// The command line.
fn command<'a>(alloc: Global) -> Result<Command<'a>, AllocError> {
    Command::new(alloc, "kbroker")
        .about("A message broker for many tenants that speaks the Kafka protocol")
        .version(VERSION)
        .subcommand_required(true)
        .subcommand(script::script_command(alloc)?)?
        .subcommand(serve::serve_command(alloc)?)?
        .subcommand(check::check_command(alloc)?)?
        .subcommand(dump::dump_command(alloc)?)?
        .subcommand(topic_command(alloc)?)?
        .subcommand(tenant_command(alloc)?)
}

/// The file of the settings.
fn config<'a>(alloc: Global) -> Arg<'a> {
    Arg::new(alloc, "config")
        .long("config")
        .value_name("FILE")
        .help("The settings, a TOML file")
        .action(ArgAction::Set)
}

fn run(rt: &HostRuntime) -> Result<(), Fault> {
    let alloc = rt.alloc();
    let words = words::words(rt)?;
    let matches = command(alloc)?.try_get_matches_from(words.as_slice())?;
    match matches.subcommand() {
        Some(("serve", found)) => serve::serve(rt, found),
        Some(("check", found)) => check::check(rt, found),
        Some(("dump", found)) => dump::dump(rt, found),
        Some(("topic", found)) => match topic(rt, found, &mut io::writer(rt)) {
            Ok(()) => Ok(()),
            Err(fault) => Err(topic_fault(alloc, fault)?),
        },
        Some(("tenant", found)) => match tenant(rt, found) {
            Ok(()) => Ok(()),
            Err(fault) => Err(Fault::Tenant(fault)),
        },
        Some((_, found)) => script::script(rt, found),
        // A subcommand is asked for: no other line is taken.
        None => Ok(()),
    }
}

/// What a fault of `kbroker topic` is to the program: wrong words come with its usage.
fn topic_fault(alloc: Global, fault: TopicFault) -> Result<Fault, Fault>
    ensures { IsOfTopic fault result }
{
    match fault {
        TopicFault::Words(text) => {
            let fault = command(alloc)?.error(ErrorKind::ValueValidation, text)?;
            Ok(Fault::Words(fault))
        }
        TopicFault::Memory => Ok(Fault::Operator(OperatorFault::Memory)),
        fault => Ok(Fault::Topic(fault)),
    }
}

fn main(rt: HostRuntime) -> ExitCode {
    // Before anything else is opened, and until the process ends.
    let streams = hold_streams(&rt);
    let ran = match &streams {
        Ok(_) => run(&rt),
        Err(error) => Err(Fault::Streams(*error)),
    };
    if let Err(fault) = &ran {
        tell(&rt, fault);
    }
    status_of(&ran)
}

/// The status of a run: 0 where it did what was asked or gave help, 2 at a wrong command line, and 1 at any other fault.
fn status_of(ran: &Result<(), Fault>) -> ExitCode
    ensures { IsExitStatus ran.now (exit_status result) }
{
    match ran {
        Ok(()) => ExitCode::SUCCESS,
        Err(Fault::Words(e)) if e.use_stderr() => ExitCode::from(2),
        Err(Fault::Words(_)) => ExitCode::SUCCESS,
        Err(_) => ExitCode::FAILURE,
    }
}

/// Tells why a run ended early: help and the version on standard output, and anything else on standard error.
fn tell(rt: &HostRuntime, fault: &Fault) {
    match fault {
        Fault::Words(e) => {
            let _ = e.print(rt);
        }
        fault => tell_fault(rt, fault),
    }
}

/// Tells a fault, on standard error. It is waited for only where the system does not tell whether it is taken at once.
fn tell_fault(rt: &HostRuntime, fault: &Fault) {
    if !tell_at_once(rt, fault) {
        let _ = eprintln!(rt; "{fault}");
    }
}

/// Tells a fault where the system tells whether it is taken at once, and answers whether it did.
fn tell_at_once(rt: &HostRuntime, fault: &Fault) -> bool {
    let Ok(mut lines) = Lines::new(rt) else {
        return false;
    };
    let Ok(text) = format!(in rt.alloc(); "{fault}") else {
        return false;
    };
    let can_tell = lines.can_tell();
    if can_tell {
        lines.tell_alone(Ok(text));
    }
    can_tell
}
