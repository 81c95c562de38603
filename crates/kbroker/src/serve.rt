//! `kbroker serve`: serves sockets, and tells of it.

ghost use Rattle.std.specs.Prelude.{◌≡◌, ◌≢◌, ◌≤◌, ◌<◌, ◌*◌, ◌-◌, ◌/◌, ◌^◌};
ghost use Rattle.std.specs.Prelude.{max, min, true, false, length, List, [], IfErr, IfOk, OnOk, None, Some, if◌then◌else◌};
ghost use Rattle.kb_server_log.specs.Guard.{clock_after};
ghost use Rattle.kb_server_log.specs.declared.guard.Reading.{Reading};
ghost use Rattle.kb_node.specs.Cores.{seen};
ghost use Rattle.kb_node.specs.Commits.{Lasts};
ghost use Rattle.kb_node.specs.Known.{lasting};
ghost use Rattle.kb_node.specs.Moves.{IsTurn};
ghost use Rattle.kb_settings.specs.declared.sync.Sync.TheVariants.{Never};
ghost use Rattle.kb_broker.specs.Hosts.{is_honest};
ghost use Rattle.kbroker.specs.Ids.{AllGiveFresh};
ghost use Rattle.kbroker.specs.Shortened.{may_shorten, AreShort};
ghost use Rattle.kbroker.specs.Turned.{AreTurned, IsServedSince};

use crate::catalogs::{may_shorten, shorten_catalogs};
use crate::ids::skip_ids;
use crate::listening::{listen, tell_listening};
use crate::monitoring::Monitoring;
use crate::open::{Start, consent_of, held_now, open_on, with_consent};
use crate::telling::{tell_commit, tell_turn};
use crate::{Fault, config};
use clap::{Arg, ArgAction, ArgMatches, Command};
use kb_broker::{Broker, group_limits};
use kb_disk::disk_to_serve;
use kb_log::PartitionLog;
use kb_node::{Edge, Listing, Settings, Store, Turn};
use kb_operator::{
    FolderJournal, Held, Journal, Word, data_folder, hold, last_change, look_at_start, settings_of,
    tell_disk, tell_reserve,
};
use kb_restart::Restarted;
use kb_server_log::{GuardedClock, Reading, now};
use kb_settings::Sync;
use kb_store::StoreFault;
use kb_survey::PutsOff;
use std::alloc::{AllocError, Global};
use std::net::Net;

/// How often the edge is turned at most.
const TURNS: u64 = 9_223_372_036_854_775_807;

/// How many members a tenant may get in each millisecond, so that numbers of a later start are above them.
const MEMBERS: u64 = 1_000_000;

/// The greatest number from which members can be numbered on.
const LAST_MEMBER: u64 = 9_223_372_036_854_775_807;

/// The number of a tenant's first new member in a broker that starts at that moment, in milliseconds. Where the clock goes on and a
/// tenant gets fewer than a million members in each millisecond, it is above all numbers of the broker before.
fn first_member(moment: u64) -> u64
    ensures some { 1 ≤ result }
    ensures within { result < 2 ^ 63 }
    ensures is { result ≡ max 1 (min (moment * 1000000) (2 ^ 63 - 1)) }
{
    moment.saturating_mul(MEMBERS).min(LAST_MEMBER).max(1)
}

/// What `clap` reads the words behind `serve` by.
pub fn serve_command<'a>(alloc: Global) -> Result<Command<'a>, AllocError> {
    let stock_clients = Arg::new(alloc, "stock-clients")
        .long("stock-clients")
        .help("Lists and serves the versions too that only stock clients ask for")
        .action(ArgAction::SetTrue);
    let quiet = Arg::new(alloc, "quiet")
        .long("quiet")
        .help("Tells nothing on standard error while it serves")
        .action(ArgAction::SetTrue);
    let serve = Command::new(alloc, "serve")
        .about("Serves sockets on the addresses of the settings' host")
        .arg(config(alloc).required(true))?
        .arg(stock_clients)?
        .arg(quiet)?;
    with_consent(alloc, serve)
}

/// Serves sockets until the process is stopped, or the turns are used up.
pub fn serve(rt: &HostRuntime, found: &ArgMatches<'_>) -> Result<(), Fault> {
    let alloc = rt.alloc();
    let config = found.get_str("config").unwrap_or("");
    let is_quiet = found.get_flag("quiet");
    let settings = settings_of(rt, config)?;
    let mut journal = Journal::new(rt, &settings, is_quiet)?;
    look_at_start(rt, config, settings.connections, is_quiet, journal.lines())?;
    let path = data_folder(alloc, &settings)?;
    let changed = last_change(rt, path);
    let start = Start {
        settings: &settings,
        listing: listing_of(settings.stock_clients || found.get_flag("stock-clients")),
        consent: consent_of(found),
    };
    let mut folder = FolderJournal::new(alloc, path, is_quiet)?;
    let held = hold(rt, path)?;
    if !is_quiet {
        tell_disk(rt, &settings, path, journal.lines());
    }
    let served = serve_in(rt, start, changed, is_quiet, &mut folder, &mut journal);
    if served.is_err() {
        held.leave(rt);
    }
    served
}

/// Serves sockets on a journal's folder, whose files were changed last at that moment. Unless it is quiet it tells where there was no room
/// for a reserve.
fn serve_in(
    rt: &HostRuntime,
    start: Start<'_>,
    changed: Option<u64>,
    is_quiet: bool,
    folder: &mut FolderJournal,
    journal: &mut Journal,
) -> Result<(), Fault> {
    let disk = disk_to_serve(rt, start.settings, folder)?;
    if !is_quiet {
        tell_reserve(rt, folder, journal.lines());
    }
    serve_on(rt, start, disk, changed, folder, journal)
}

/// The versions that are listed.
fn listing_of(stock_clients: bool) -> Listing
    ensures { result ≡ (if stock_clients then Listing.StockClients else Listing.Served) }
{
    if stock_clients {
        Listing::StockClients
    } else {
        Listing::Served
    }
}

/// Serves sockets on the broker of a journal's folder, whose store that is. Its files were changed last at that moment.
fn serve_on<S: PutsOff + Drop>(
    rt: &HostRuntime,
    start: Start<'_>,
    store: S,
    changed: Option<u64>,
    folder: &mut FolderJournal,
    journal: &mut Journal,
) -> Result<(), Fault> {
    let alloc = rt.alloc();
    let (opened, held) = open(rt, start, store, folder, journal)?;
    let found = Found { held, changed };
    let (_edge, served) = serve_broker(
        rt,
        rt,
        opened.broker,
        start.settings,
        found,
        folder,
        journal,
    )?;
    match served {
        Ok(()) => Ok(()),
        Err(fault) => Err(Fault::Operator(folder.of_store(alloc, fault))),
    }
}

/// What a start found: what the broker then has, and when its files were changed last.
#[derive(Clone, Copy)]
struct Found {
    held: Held,
    changed: Option<u64>,
}

/// Serves a network's sockets on a broker until the turns are used up, or a commit is refused: its edge as it then is, and how that
/// ended. The network is any one whose sockets the system can wait for.
///
/// What is done to the broker is one run of it, in which tenants are kept apart, and clients are sent what the machines write. With
/// [`Sync::Always`] output is taken only while all that was done before it lasts.
fn serve_broker<R: Net, S: Store + Drop, L: PartitionLog + Drop>(
    rt: &HostRuntime,
    net: &R,
    broker: Broker<S, L>,
    settings: &Settings,
    found: Found,
    folder: &mut FolderJournal,
    journal: &mut Journal,
) -> Result<(Edge<R, S, L>, Result<(), StoreFault>), Fault>
    requires { broker.state.lines ≡ [] }
    ensures served { IfOk result (λ ended. IsServedSince S.settled S.disk S.loss R.Stream.contents R.Stream.remaining broker
        (seen ended.0.host ended.0.sockets.items)) }
    ensures sync { IfOk result (λ ended. ended.0.host.commits.sync ≡ settings.now.sync) }
    ensures refused { IfOk result (λ ended. IfErr ended.1 (λ fault. ended.0.host.commits.fault ≡ Some fault)) }
{
    let alloc = rt.alloc();
    let mut edge = listen(rt, net, broker, settings)?;
    let mut monitoring = Monitoring::open(rt, settings, &mut edge, now(rt))?;
    tell_listening(rt, &edge, folder.folder())?;
    journal.tell_found(alloc, now(rt), Word::Start, found.held);
    journal.tell_change(alloc, now(rt), found.changed);
    let mut clock = GuardedClock::starting(Reading::of(rt));
    let served = turn_on(rt, &mut edge, &mut clock, &mut monitoring, journal, folder);
    journal.tell_stop(alloc, now(rt));
    Ok((edge, served))
}

/// Opens the broker that is served, to which nobody is connected, and says what it has then. Members of a broker before are none of this
/// one, and no producer id of a batch is given out again.
///
/// Each catalog to whose tenant nothing was refused is short then, whatever files are of no log: but with `--drop-damaged` no catalog is
/// written anew beside such a file.
///
/// Unless [`Sync::Never`] is set, all that it left lasts then.
fn open<S: PutsOff + Drop>(
    rt: &HostRuntime,
    start: Start<'_>,
    store: S,
    folder: &FolderJournal,
    journal: &mut Journal,
) -> Result<(Restarted<S>, Held), Fault>
    ensures alone { IfOk result (λ both. both.0.broker.state.lines ≡ []) }
    ensures fresh { IfOk result (λ both. is_honest S.disk both.0.broker → AllGiveFresh both.0.broker.state) }
    ensures short { IfOk result (λ both. is_honest S.disk both.0.broker
        → may_shorten start.entry.consent both.0.strays.items ≡ true → AreShort both.0.broker) }
    // Where anything is synced, nothing is put off then, and a loss of power leaves the files as they are.
    ensures settled { IfOk result (λ both. start.entry.settings.now.sync ≢ Never → S.settled both.0.broker.store) }
    ensures lasts { IfOk result (λ both. start.entry.settings.now.sync ≢ Never
        → Lasts S.settled S.disk S.loss both.0.broker.store) }
{
    let (mut opened, _) = open_on(rt, start, store, folder, journal)?;
    let limits = group_limits(rt.alloc(), start.settings)?;
    opened.broker.limit_groups(&limits);
    opened.broker.number_members_from(first_member(now(rt)));
    skip_ids(rt, &mut opened.broker, folder, journal)?;
    if may_shorten(start.consent, &opened.strays) {
        shorten_catalogs(rt.alloc(), &mut opened.broker);
    }
    if syncs(start.settings.sync)
        && let Err(fault) = settle(&mut opened.broker)
    {
        return Err(Fault::Operator(folder.of_store(rt.alloc(), fault)));
    }
    let held = held_now(rt, &opened, folder)?;
    Ok((opened, held))
}

/// Whether anything is made to last through a loss of power.
fn syncs(sync: Sync) -> bool
    ensures some { result ≡ true → sync ≢ Never }
    ensures none { result ≡ false → sync ≡ Never }
{
    match sync {
        Sync::Always | Sync::Interval => true,
        Sync::Never => false,
    }
}

/// Makes what a start left last before anybody is served: else what is acknowledged next would stand behind what was dropped. It ends
/// once nothing is put off any more; so many commits that something still is are never made.
fn settle<S: Store, L: PartitionLog + Drop>(broker: &mut Broker<S, L>) -> Result<(), StoreFault>
    requires { broker.old.state.lines ≡ [] }
    ensures alone { broker.new.state.lines ≡ [] }
    ensures stays { is_honest S.disk broker.new → is_honest S.disk broker.old × (broker.new.state ≡ broker.old.state) }
    ensures commands { broker.new.commands ≡ broker.old.commands }
    ensures settled { OnOk result (S.settled broker.new.store) }
    ensures lasts { OnOk result (Lasts S.settled S.disk S.loss broker.new.store) }
{
    for _ in 0..TURNS {
        if broker.is_synced() {
            return Ok(());
        }
        broker.commit()?;
    }
    Err(StoreFault::Device)
}

/// Turns an edge until the turns are used up, by a clock that follows the wall clock but not its jumps. An `Err` is that of a commit:
/// behind it nobody was told anything.
///
/// All turns together are one run of the broker, that of an `Err` too: each reading of the clock gives one turn its moment.
fn turn_on<R: Net, S: Store, L: PartitionLog + Drop>(
    rt: &HostRuntime,
    edge: &mut Edge<R, S, L>,
    clock: &mut GuardedClock,
    monitoring: &mut Option<Monitoring<'_>>,
    journal: &mut Journal,
    folder: &mut FolderJournal,
) -> Result<(), StoreFault>
    requires { edge.old.host.commits.fault ≡ None }
    ensures turned { (readings : List Reading) × AreTurned S.disk (lasting S.settled S.disk S.loss edge.new.host.commits)
        R.Stream.contents R.Stream.remaining readings clock.old clock.new
        (seen edge.old.host edge.old.sockets.items) (seen edge.new.host edge.new.sockets.items)
        × OnOk result (length readings ≡ 2 ^ 63 - 1) }
    ensures refused { IfErr result (λ fault. edge.new.host.commits.fault ≡ Some fault) }
    ensures well { OnOk result (edge.new.host.commits.fault ≡ None) }
{
    for _ in 0..TURNS {
        turn_once(rt, edge, clock, monitoring, journal, folder)?;
    }
    Ok(())
}

/// Waits until there may be something to do, reads the clock, and turns the edge once at the moment that it then gives.
fn turn_once<R: Net, S: Store, L: PartitionLog + Drop>(
    rt: &HostRuntime,
    edge: &mut Edge<R, S, L>,
    clock: &mut GuardedClock,
    monitoring: &mut Option<Monitoring<'_>>,
    journal: &mut Journal,
    folder: &mut FolderJournal,
) -> Result<(), StoreFault>
    requires { edge.old.host.commits.fault ≡ None }
    ensures clock { (reading : Reading) × (clock.new ≡ clock_after clock.old reading) }
    ensures turn { IsTurn S.disk (lasting S.settled S.disk S.loss edge.new.host.commits) R.Stream.contents R.Stream.remaining
        (clock.new.time / 2000) (seen edge.old.host edge.old.sockets.items) (seen edge.new.host edge.new.sockets.items) }
    ensures refused { IfErr result (λ fault. edge.new.host.commits.fault ≡ Some fault) }
    ensures well { OnOk result (edge.new.host.commits.fault ≡ None) }
{
    edge.wait();
    begin_turn(rt, monitoring);
    let reading = Reading::of(rt);
    let tick = clock.next(reading);
    let turned = edge.turn(rt.alloc(), tick.moment);
    tell_commit(rt, journal, edge, reading, tick.moment);
    folder.tell(rt, journal.lines(), tick.moment);
    match turned {
        Ok(turn) => {
            tell_turn(rt, journal, edge, &turn, tick);
            note_turn(rt, edge, monitoring, &turn, tick.moment);
            Ok(())
        }
        Err(fault) => Err(fault),
    }
}

/// A turn of the edge begins, for the pages.
fn begin_turn(rt: &HostRuntime, monitoring: &mut Option<Monitoring<'_>>) {
    if let Some(monitoring) = monitoring {
        monitoring.begin(rt);
    }
}

/// What a turn of the edge at that moment did is told on the pages. The broker and its sockets stay as they are.
fn note_turn<R: Net, S: Store, L: PartitionLog + Drop>(
    rt: &HostRuntime,
    edge: &mut Edge<R, S, L>,
    monitoring: &mut Option<Monitoring<'_>>,
    turn: &Turn,
    now: u64,
)
    ensures host { edge.new.host ≡ edge.old.host }
    ensures sockets { edge.new.sockets ≡ edge.old.sockets }
{
    if let Some(monitoring) = monitoring {
        monitoring.turn(rt, edge, turn, now);
    }
}
