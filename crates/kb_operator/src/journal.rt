//! What is told on standard error while a data folder is open: a line each, with the time.

ghost use Rattle.std.specs.Prelude.{◌≡◌, ◌≤◌, ◌∷◌, [], codes, map, string_bytes, IfOk};
ghost use Rattle.kb_wire.specs.declared.clock.TheConstants.{MAX_CLOCK};
ghost use Rattle.kb_operator.specs.Counted.{turned_away_line};
ghost use Rattle.kb_operator.specs.Events.{commit_lines, lost_ids_line, notice_text, passed_over, passed_over_lines, turn_lines};
ghost use Rattle.kb_operator.specs.Known.{known_account, known_user, known_users};
ghost use Rattle.kb_operator.specs.Refused.{MayTellCounts, TellsTurnedAway};
ghost use Rattle.kb_operator.specs.Speaks.{Announces, Speaks};

mod found;
mod logins;
mod parts;
mod refusals;
mod shut;
mod sockets;
mod unread;

use crate::bucket::Bucket;
use crate::counts::RefusalCounts;
use crate::lines::{LineLog, Lines};
pub(crate) use found::held_text;
use kb_server_log::{Notice, Pace, Tally};
use kb_settings::{Settings, Sync, User, tenant_names};
use kb_start::Total;
use std::alloc::{AllocError, Global};

/// A tenant, and how much was told of its refusals, of its sockets that were closed, and of its waits.
#[derive(Drop)]
struct Tenant {
    name: String,
    /// Where it stands in the order of the names.
    place: usize,
    /// How many sockets it may have at most.
    connections: u32,
    refusals: Tally,
    /// Those of them that the disk refused.
    by_disk: Tally,
    sockets: Tally,
    /// How often it waited for those that read its replies.
    waits: Tally,
}

/// A user who may log in.
#[derive(Drop)]
struct Account {
    name: String,
    tenant: String,
}

/// What stands in front of what was found in a folder.
#[derive(Clone, Copy, Debug, PartialEq, Eq)]
pub enum Word {
    /// The broker serves it. Behind it stands how many connections there are at most.
    Start,
    /// A script runs on it.
    Found,
}

/// How much a broker has that opened with a folder.
#[derive(Clone, Copy, Debug, PartialEq, Eq)]
pub struct Held {
    pub tenants: u64,
    /// The topics of all tenants.
    pub topics: u64,
    /// The partitions of all topics.
    pub partitions: u64,
    /// The files that are of no log.
    pub strays: u64,
    /// All files of the folder, and their bytes.
    pub files: Total,
}

/// How many sockets were closed that kept silent.
#[derive(Clone, Copy, Debug, Default, PartialEq, Eq)]
pub struct Closed {
    /// Before they logged in.
    pub strangers: u64,
    /// That took nothing of their replies.
    pub unread: u64,
    /// With no request under way, and nothing to wait for.
    pub idle: u64,
    /// Whose request was not whole in time.
    pub slow: u64,
}

/// A turn is told that took longer, with its commit or without one, in milliseconds.
const LONG_TURN: u64 = 1000;

/// What was told so far. No line is waited for ([`Lines`]).
#[derive(Drop)]
pub struct Journal<T = Lines> {
    is_quiet: bool,
    pub(crate) lines: T,
    connections: u32,
    sync: Sync,
    tenants: Vec<Tenant>,
    /// The users, in the settings' order, where their logins are told: else none.
    users: Vec<Account>,
    /// Refusals that were counted for no tenant.
    unbound: Tally,
    /// Calls of the store that the disk refused.
    disk: Tally,
    /// The sockets that were closed at once and are not told of.
    turned_away: u64,
    /// The sockets that kept silent, were closed for that, and are not told of.
    closed: Closed,
    /// The lines of logins that were right.
    logins: Bucket,
    /// The lines of logins that failed.
    failed: Bucket,
    /// The lines of connections that the broker shut.
    shut: Bucket,
    pace: Pace,
}

impl Journal<Lines> {
    /// Nothing is told yet, and with `is_quiet` nothing will be.
    pub fn new(rt: &HostRuntime, settings: &Settings, is_quiet: bool) -> Result<Journal, AllocError>
        ensures users { IfOk result (λ journal. map known_account journal.users.items ≡ known_users settings.now) }
        ensures quiet { IfOk result (λ journal. journal.is_quiet ≡ is_quiet) }
    {
        Ok(Journal {
            is_quiet,
            lines: Lines::new(rt)?,
            connections: settings.connections,
            sync: settings.sync,
            tenants: tenants_of(rt.alloc(), settings)?,
            users: users_of(rt.alloc(), settings)?,
            unbound: Tally::default(),
            disk: Tally::default(),
            turned_away: 0,
            closed: Closed::default(),
            logins: Bucket::default(),
            failed: Bucket::default(),
            shut: Bucket::default(),
            pace: Pace::default(),
        })
    }
}

impl<T: LineLog> Journal<T> {
    /// Where other lines on the same folder go.
    pub fn lines(&mut self) -> &mut T {
        &mut self.lines
    }

    /// How many producer ids a tenant's catalog had lost, which are now given out to nobody.
    pub fn tell_lost_ids(&mut self, alloc: Global, now: u64, tenant: &str, lost: u64)
        ensures { Announces T.logged now (lost_ids_line tenant.now lost ∷ []) self.old self.new }
    {
        if self.is_quiet {
            return;
        }
        self.lines.tell(now, lost_ids_text(alloc, tenant, lost));
    }

    /// What the wall clock did.
    pub fn tell_clock(&mut self, alloc: Global, now: u64, notice: Notice)
        ensures { Announces T.logged now (notice_text notice ∷ []) self.old self.new }
    {
        if self.is_quiet {
            return;
        }
        self.lines
            .tell(now, String::from_str(alloc, notice_text(notice)));
    }

    /// How long a commit took, where that was over a second.
    pub fn tell_commit(&mut self, alloc: Global, now: u64, millis: u64)
        ensures { Announces T.logged now (commit_lines millis) self.old self.new }
    {
        if self.is_quiet {
            return;
        }
        if millis > LONG_TURN {
            self.lines
                .tell(now, format!(in alloc; "a commit took {millis} ms"));
        }
    }

    /// How long a turn without a commit took, where that was over a second: as one that waited for the disk to begin a file.
    pub fn tell_long_turn(&mut self, alloc: Global, now: u64, millis: u64)
        ensures { Announces T.logged now (turn_lines millis) self.old self.new }
    {
        if self.is_quiet {
            return;
        }
        if LONG_TURN < millis {
            self.lines
                .tell(now, format!(in alloc; "a turn took {millis} ms"));
        }
    }

    /// The broker serves no longer.
    pub fn tell_stop(&mut self, alloc: Global, now: u64)
        ensures { Announces T.logged now (codes "stop" ∷ []) self.old self.new }
    {
        if self.is_quiet {
            return;
        }
        self.lines.tell(now, String::from_str(alloc, "stop"));
    }

    /// How many logins, and connections that the broker shut, were passed over in seconds before that one.
    pub fn tell_passed_over(&mut self, alloc: Global, now: u64, second: u64)
        ensures { Speaks T.logged now (passed_over_lines second self.old) (passed_over second self.old) self.old self.new }
    {
        if self.is_quiet {
            return;
        }
        self.tell_more_logins(alloc, now, second);
        self.tell_more_failed(alloc, now, second);
        self.tell_more_shut(alloc, now, second);
    }

    /// What is counted, at most once a second, at a moment of at most 2^62: so many sockets were closed at once since it was told last.
    pub fn tell_counts<B: RefusalCounts>(
        &mut self,
        alloc: Global,
        now: u64,
        moment: u64,
        turned_away: u64,
        broker: &B,
    )
        requires { moment ≤ MAX_CLOCK }
        ensures { MayTellCounts T.logged now moment turned_away (B.counts broker.now) self.old self.new }
    {
        self.turned_away = self.turned_away.saturating_add(turned_away);
        if self.is_quiet || !self.pace.is_due(moment) {
            return;
        }
        self.lines.catch_up(now);
        self.tell_turned_away(alloc, now);
        self.tell_closed(alloc, now, broker);
        self.tell_unread(alloc, now, broker);
        self.tell_refusals(alloc, now, broker);
    }

    /// How many connections were closed at once since the last line. Without memory for it they wait for a later one.
    fn tell_turned_away(&mut self, alloc: Global, now: u64)
        ensures { TellsTurnedAway T.logged now self.old self.new }
    {
        if self.turned_away == 0 {
            return;
        }
        match turned_away_text(alloc, self.turned_away, self.connections) {
            Ok(text) => {
                self.lines.tell(now, Ok(text));
                self.turned_away = 0;
            }
            Err(e) => self.lines.tell(now, Err(e)),
        }
    }
}

/// How many connections were closed at once, and how many may be open.
fn turned_away_text(alloc: Global, count: u64, most: u32) -> Result<String, AllocError>
    ensures { IfOk result (λ text. string_bytes text ≡ turned_away_line count most) }
{
    format!(in alloc; "connections closed at once: {count}, since {most} are open")
}

/// The users' tenants, in byte order, each once.
fn tenants_of(alloc: Global, settings: &Settings) -> Result<Vec<Tenant>, AllocError> {
    let mut tenants = Vec::new(alloc);
    for name in tenant_names(alloc, &settings.users)? {
        tenants.push(Tenant {
            name: String::from_str(alloc, name)?,
            place: tenants.len(),
            connections: settings.limits_of(name).most,
            refusals: Tally::default(),
            by_disk: Tally::default(),
            sockets: Tally::default(),
            waits: Tally::default(),
        })?;
    }
    Ok(tenants)
}

/// The users whose logins are told: all of the settings in their order, or none.
fn users_of(alloc: Global, settings: &Settings) -> Result<Vec<Account>, AllocError>
    ensures { IfOk result (λ users. map known_account users.items ≡ known_users settings.now) }
{
    let mut users = Vec::new(alloc);
    if !settings.logins {
        return Ok(users);
    }
    for user in &settings.users {
        users.push(account_of(alloc, user)?)?;
    }
    Ok(users)
}

/// A user as he is known: by his name and his tenant.
fn account_of(alloc: Global, user: &User) -> Result<Account, AllocError>
    ensures { IfOk result (λ account. known_account account ≡ known_user user.now) }
{
    Ok(Account {
        name: String::from_str(alloc, &user.name)?,
        tenant: String::from_str(alloc, &user.tenant)?,
    })
}

/// How many producer ids a tenant's catalog had lost.
fn lost_ids_text(alloc: Global, tenant: &str, lost: u64) -> Result<String, AllocError>
    ensures { IfOk result (λ text. string_bytes text ≡ lost_ids_line tenant.now lost) }
{
    format!(in alloc; "producer ids that the catalog of tenant {tenant} had lost: {lost}")
}

/// What happened to the wall clock.
fn notice_text(notice: Notice) -> &'static str
    ensures { result.now ≡ notice_text notice }
{
    match notice {
        Notice::Ahead => "the clock went ahead: it is not followed for ten minutes",
        Notice::Taken => "the clock was ahead for ten minutes: it is followed",
        Notice::Back => "the clock is no longer ahead",
    }
}
