//! `kbroker script`: plays a script of events.

ghost use Rattle.std.specs.Prelude.{◌≡◌, true, IfOk, IfErr, IfSome, OnOk, option_map};
ghost use Rattle.kb_isolation_spec.specs.Broker.{IsReady};
ghost use Rattle.kb_isolation_spec.specs.Calls.{is_calm};
ghost use Rattle.kb_broker.specs.Hosts.{is_honest};
ghost use Rattle.kb_broker.specs.Opening.{opening_over};
ghost use Rattle.kb_broker.specs.ScriptRun.{IsQuiet};
ghost use Rattle.kbroker.specs.Scripts.{broker_in_memory, IsCutShort, IsHaltedOn, IsOfScript, IsPlayedOn, IsPlayedOver};

use crate::open::{Start, consent_of, open_on, with_consent};
use crate::telling::CountsOf;
use crate::{Fault, config};
use clap::{Arg, ArgAction, ArgMatches, Command};
use kb_broker::{Broker, ScriptFault};
use kb_disk::disk_in;
use kb_log::{ListLog, PartitionLog};
use kb_node::{Listing, NodeFault, Settings, Store, play_script, play_script_on, play_script_with};
use kb_operator::{FolderJournal, Journal, OperatorFault, Word, hold, settings_of};
use kb_restart::Restarted;
use kb_server_log::now;
use kb_start::Consent;
use kb_survey::PutsOff;
use std::alloc::{AllocError, Global};
use std::io;
use std::io::{BufRead, BufReader, BufWriter, Write};

/// What `clap` reads the words behind `script` by.
pub fn script_command<'a>(alloc: Global) -> Result<Command<'a>, AllocError> {
    let data = Arg::new(alloc, "data")
        .long("data")
        .value_name("FOLDER")
        .help("A data folder, on which it is played, and which keeps what it made")
        .action(ArgAction::Set);
    let script = Command::new(alloc, "script")
        .about("Runs a script of events from standard input")
        .arg(config(alloc))?
        .arg(data)?;
    with_consent(alloc, script)
}

/// Runs a script from standard input to standard output: on a broker that keeps nothing, or on that of a data folder.
pub fn script(rt: &HostRuntime, found: &ArgMatches<'_>) -> Result<(), Fault> {
    let alloc = rt.alloc();
    let settings = match found.get_str("config") {
        Some(path) => Some(settings_of(rt, path)?),
        None => None,
    };
    let Ok(mut reader) = BufReader::new(alloc, rt.reader()) else {
        return Err(Fault::Operator(OperatorFault::Memory));
    };
    let Ok(mut writer) = BufWriter::new(alloc, io::writer(rt)) else {
        return Err(Fault::Operator(OperatorFault::Memory));
    };
    let consent = consent_of(found);
    match (found.get_str("data"), settings) {
        (Some(path), Some(settings)) => {
            script_on(rt, &settings, path, consent, &mut reader, &mut writer)
        }
        (Some(path), None) => {
            let settings = Settings::standard(alloc)?;
            script_on(rt, &settings, path, consent, &mut reader, &mut writer)
        }
        (None, settings) => {
            let settings = settings.as_ref();
            Ok(play_in_memory(alloc, settings, &mut reader, &mut writer)?)
        }
    }
}

/// Plays a script on a broker that keeps nothing, of those settings, or else of the standard ones.
fn play_in_memory<R: BufRead, W: Write>(
    alloc: Global,
    settings: Option<&Settings>,
    reader: &mut R,
    writer: &mut W,
) -> Result<(), NodeFault>
    ensures ok { OnOk result (IfSome (R.remaining reader.old) (λ text.
        IsPlayedOn (broker_in_memory (option_map (λ s. s.now) settings.entry)) text (W.contents writer.old) (W.contents writer.new))) }
    ensures err { IfErr result (λ fault. IfSome (R.remaining reader.old) (λ text.
        IsHaltedOn (broker_in_memory (option_map (λ s. s.now) settings.entry)) text fault
        (W.contents writer.old) (W.contents writer.new))) }
{
    match settings {
        Some(settings) => play_script_with::<ListLog, _, _>(alloc, settings, reader, writer),
        None => play_script(alloc, reader, writer),
    }
}

/// Runs a script on the broker of a data folder. What was found there and what was refused is told as `serve` tells it.
fn script_on<R: BufRead, W: Write>(
    rt: &HostRuntime,
    settings: &Settings,
    path: &str,
    consent: Consent,
    reader: &mut R,
    writer: &mut W,
) -> Result<(), Fault> {
    let mut journal = Journal::new(rt, settings, false)?;
    let _held = hold(rt, path)?;
    let mut folder = FolderJournal::new(rt.alloc(), path, false)?;
    let start = Start {
        settings,
        listing: Listing::Served,
        consent,
    };
    let disk = disk_in(rt, settings, &folder)?;
    play_over(rt, start, disk, &mut folder, &mut journal, reader, writer)?;
    Ok(())
}

/// Plays a script on the broker of a journal's folder, whose store that is, and answers what it left.
fn play_over<S: PutsOff + Drop, R: BufRead, W: Write>(
    rt: &HostRuntime,
    start: Start<'_>,
    store: S,
    folder: &mut FolderJournal,
    journal: &mut Journal,
    reader: &mut R,
    writer: &mut W,
) -> Result<Restarted<S>, Fault>
    ensures { IfOk result (λ opened. is_honest S.disk opened.broker → IfSome (R.remaining reader.old) (λ text.
        IsPlayedOver start.entry.listing start.entry.settings.now text (W.contents writer.old) (W.contents writer.new))) }
{
    let mut opened = open_to_play(rt, start, store, folder, journal)?;
    play_on(rt, &mut opened.broker, folder, journal, reader, writer)?;
    Ok(opened)
}

/// Opens the broker of a journal's folder, whose store that is, and tells what was found.
fn open_to_play<S: PutsOff + Drop>(
    rt: &HostRuntime,
    start: Start<'_>,
    store: S,
    folder: &mut FolderJournal,
    journal: &mut Journal,
) -> Result<Restarted<S>, Fault>
    ensures calm { IfOk result (λ opened. is_calm opened.broker.state ≡ true) }
    ensures quiet { IfOk result (λ opened. IsQuiet opened.broker.state) }
    ensures fixed { IfOk result (λ opened. opened.broker.state
        ≡ opening_over start.entry.listing start.entry.settings.now opened.broker.state.tenants) }
{
    let (opened, held) = open_on(rt, start, store, folder, journal)?;
    journal.tell_found(rt.alloc(), now(rt), Word::Found, held);
    folder.tell(rt, journal.lines(), now(rt));
    Ok(opened)
}

/// Plays a script on a broker, and tells what was refused. A fault ends it, and what the lines before it said has been written.
fn play_on<S: Store, L: PartitionLog + Drop, R: BufRead, W: Write>(
    rt: &HostRuntime,
    broker: &mut Broker<S, L>,
    folder: &FolderJournal,
    journal: &mut Journal,
    reader: &mut R,
    writer: &mut W,
) -> Result<(), Fault>
    requires calm { is_calm broker.old.state ≡ true }
    requires quiet { IsQuiet broker.old.state }
    requires ready { is_honest S.disk broker.old → IsReady broker.old.state }
    ensures honest { is_honest S.disk broker.new → is_honest S.disk broker.old }
    ensures ok { is_honest S.disk broker.new → OnOk result (IfSome (R.remaining reader.old) (λ text.
        IsPlayedOn broker.old.state text (W.contents writer.old) (W.contents writer.new))) }
    ensures err { is_honest S.disk broker.new → IfErr result (λ fault. IfSome (R.remaining reader.old) (λ text.
        IsCutShort broker.old.state text (S.disk broker.new.store).failures fault (W.contents writer.old) (W.contents writer.new))) }
{
    let alloc = rt.alloc();
    let played = play_script_on(alloc, broker, reader, writer);
    journal.tell_refusals(alloc, now(rt), &CountsOf(broker, &[], &[]));
    match played {
        Ok(()) => Ok(()),
        Err(fault) => Err(script_fault(alloc, folder, broker.store().failures(), fault)),
    }
}

/// What a script's fault is to the program, where the store of a journal's folder refused so many calls. What had no memory, the store may
/// have refused.
fn script_fault(alloc: Global, folder: &FolderJournal, failures: u64, fault: NodeFault) -> Fault
    ensures { IsOfScript failures fault result }
{
    if failures > 0 && fault == NodeFault::Script(ScriptFault::Memory) {
        Fault::Operator(folder.store_fault(alloc))
    } else {
        Fault::Node(fault)
    }
}
