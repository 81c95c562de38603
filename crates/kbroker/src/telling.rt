//! What a journal is told of a broker.

ghost use Rattle.std.specs.Prelude.{◌≡◌, ◌≤◌, ◌==◌, ℕ};
ghost use Rattle.kb_wire.specs.declared.clock.TheConstants.{MAX_CLOCK};
ghost use Rattle.kb_operator.specs.Speaks.{Announces};
ghost use Rattle.kbroker.specs.Counted.{told_counts};
ghost use Rattle.kbroker.specs.Refusals.{refusals_at};
ghost use Rattle.kbroker.specs.Telling.{length_lines, notice_lines, silent_in, TellsDenied, TellsRight, TellsShuts};
ghost use Rattle.kbroker.specs.Telling.{TellsShutOne, TellsTurn, TellsUser, TellsWrong};
ghost use Rattle.kbroker.specs.Unread.{unread_at};

use crate::causes::cause_text;
use kb_broker::Broker;
use kb_isolation_spec::Login;
use kb_log::PartitionLog;
use kb_node::{Edge, Firsts, LoginAttempt, ReaderWaits, Store, Turn};
use kb_operator::{Closed, Journal, LineLog, RefusalCounts, TenantRefusals, Unread};
use kb_server_log::{Notice, Reading, Tick, now};
use kb_tenants::TenantView;
use std::alloc::Global;
use std::net::Net;

/// What a broker counts of what it refuses, and an edge of the sockets that it closed, and of waits for readers, by tenant.
#[derive(Drop)]
pub struct CountsOf<'a, S: Store, L: PartitionLog + Drop>(
    pub &'a Broker<S, L>,
    pub &'a [u64],
    pub &'a [ReaderWaits],
);

impl<'a, S: Store, L: PartitionLog + Drop> RefusalCounts for CountsOf<'a, S, L> {
    ghost counts = { λ c. told_counts c.0.now.state c.0.now.counts (S.disk c.0.now.store).failures c.1.now c.2.now };

    fn is_calm(&self) -> bool {
        self.0.is_calm()
    }

    fn of_tenant(&self, place: usize) -> TenantRefusals {
        refusals_at(self.0, place)
    }

    fn sockets_of_tenant(&self, place: usize) -> u64 {
        self.1.get(place).copied().unwrap_or(0)
    }

    fn unread_of_tenant(&self, place: usize) -> Unread {
        unread_at(self.2, place)
    }

    fn before_login(&self) -> u64 {
        self.0.refusals_unbound()
    }

    fn of_disk(&self) -> u64 {
        self.0.store().failures()
    }
}

/// How many requests of the tenant at a place the broker refused: none where there is no such tenant. It looks at no other tenant.
fn refusals_at<S: Store, L: PartitionLog + Drop>(
    broker: &Broker<S, L>,
    place: usize,
) -> TenantRefusals
    ensures { result ≡ refusals_at place broker.now.state.tenants broker.now.counts }
{
    match broker.tenant(place) {
        Some(
            TenantView {
                name: _,
                parts,
                groups: _,
                store_refusals,
                over: _,
            },
        ) => TenantRefusals {
            all: parts.refusals(),
            by_disk: store_refusals,
        },
        None => TenantRefusals { all: 0, by_disk: 0 },
    }
}

/// How the tenant at a place waits for those that read its replies, by what was counted of each: not at all where nothing was.
fn unread_at(counted: &[ReaderWaits], place: usize) -> Unread
    ensures { result ≡ unread_at place counted.now }
{
    match counted.get(place) {
        Some(waits) => Unread {
            waits: waits.times,
            bytes: waits.bytes,
        },
        None => Unread { waits: 0, bytes: 0 },
    }
}

/// A second, in milliseconds.
const SECOND: u64 = 1000;

/// Tells what happened in a turn at a tick: logins, connections that were shut and the clock at once, and counts at most once a second.
/// Of the logins and of the connections of a second only the first are told, and then how many more there were.
pub fn tell_turn<T: LineLog, R: Net, S: Store, L: PartitionLog + Drop>(
    rt: &HostRuntime,
    journal: &mut Journal<T>,
    edge: &Edge<R, S, L>,
    turn: &Turn,
    tick: Tick,
)
    requires { tick.moment ≤ MAX_CLOCK }
    ensures { (now : ℕ) × TellsTurn T.logged now tick.moment edge.now.host.broker.state.setup.request_bytes edge.now.news tick.told
        turn.now (told_counts edge.now.host.broker.state edge.now.host.broker.counts
        (S.disk edge.now.host.broker.store).failures edge.now.shares.refused edge.now.reader_waits.items) journal.old journal.new }
{
    let (alloc, now) = (rt.alloc(), now(rt));
    let second = tick.moment / SECOND;
    let news = edge.news();
    tell_logins(alloc, now, second, &news.logins, journal);
    tell_denied(alloc, now, second, &news.denied, journal);
    let request_bytes = edge.broker().request_bytes();
    tell_closed(alloc, now, second, &news.closed, request_bytes, journal);
    journal.tell_passed_over(alloc, now, second);
    tell_notice(alloc, now, tick.told, journal);
    let counts = CountsOf(edge.broker(), edge.refused_sockets(), edge.reader_waits());
    journal.count_closed(silent_in(turn));
    journal.tell_counts(alloc, now, tick.moment, turn.turned_away, &counts);
}

/// The sockets that a turn closed since they kept silent.
fn silent_in(turn: &Turn) -> Closed
    ensures { result ≡ silent_in turn.now }
{
    Closed {
        strangers: turn.strangers,
        unread: turn.unread,
        idle: turn.idle,
        slow: turn.slow,
    }
}

/// Tells what the wall clock did, where it did something.
fn tell_notice<T: LineLog>(
    alloc: Global,
    now: u64,
    notice: Option<Notice>,
    journal: &mut Journal<T>,
)
    ensures { Announces T.logged now (notice_lines notice) journal.old journal.new }
{
    if let Some(notice) = notice {
        journal.tell_clock(alloc, now, notice);
    }
}

/// Tells how long a turn took that began at a reading of the clocks and at that moment, where that was over a second: its commit with what
/// it was asked before, or the turn where it had none.
pub fn tell_commit<T: LineLog, R: Net, S: Store, L: PartitionLog + Drop>(
    rt: &HostRuntime,
    journal: &mut Journal<T>,
    edge: &Edge<R, S, L>,
    begun: Reading,
    moment: u64,
)
    ensures { (now : ℕ) × (millis : ℕ)
        × Announces T.logged now (length_lines (edge.now.host.commits.last == moment) millis) journal.old journal.new }
{
    let micros = Reading::of(rt).steady.saturating_sub(begun.steady);
    tell_millis(rt.alloc(), now(rt), journal, edge, moment, micros / 1000);
}

/// Tells that a turn at a moment took so many milliseconds, where they are over a second: as its commit, where it had one.
fn tell_millis<T: LineLog, R: Net, S: Store, L: PartitionLog + Drop>(
    alloc: Global,
    now: u64,
    journal: &mut Journal<T>,
    edge: &Edge<R, S, L>,
    moment: u64,
    millis: u64,
)
    ensures { Announces T.logged now (length_lines (edge.now.host.commits.last == moment) millis) journal.old journal.new }
{
    if edge.last_commit() == moment {
        journal.tell_commit(alloc, now, millis);
    } else {
        journal.tell_long_turn(alloc, now, millis);
    }
}

/// Tells the logins of a turn in a second that were right.
fn tell_logins<T: LineLog>(
    alloc: Global,
    now: u64,
    second: u64,
    logins: &Firsts<LoginAttempt>,
    journal: &mut Journal<T>,
)
    ensures { TellsRight T.logged now second logins.now journal.old journal.new }
{
    let attempts = logins.first();
    for attempt in attempts {
        tell_right(alloc, now, second, attempt, journal);
    }
    journal.count_logins(logins.more());
}

/// Tells a login that was right.
fn tell_right<T: LineLog>(
    alloc: Global,
    now: u64,
    second: u64,
    attempt: &LoginAttempt,
    journal: &mut Journal<T>,
)
    ensures { TellsUser T.logged now second attempt.now.address attempt.now.login journal.old journal.new }
{
    if let Login::User(place) = attempt.login {
        journal.tell_login(alloc, now, second, attempt.address, place);
    }
}

/// Tells the logins of a turn in a second that failed.
fn tell_denied<T: LineLog>(
    alloc: Global,
    now: u64,
    second: u64,
    denied: &Firsts<LoginAttempt>,
    journal: &mut Journal<T>,
)
    ensures { TellsWrong T.logged now second denied.now journal.old journal.new }
{
    let attempts = denied.first();
    for attempt in attempts {
        tell_wrong(alloc, now, second, attempt, journal);
    }
    journal.count_failed(denied.more());
}

/// Tells a login that failed.
fn tell_wrong<T: LineLog>(
    alloc: Global,
    now: u64,
    second: u64,
    attempt: &LoginAttempt,
    journal: &mut Journal<T>,
)
    ensures { TellsDenied T.logged now second attempt.now.address attempt.now.login journal.old journal.new }
{
    if let Login::Failed(name) = &attempt.login {
        journal.tell_failed(alloc, now, second, attempt.address, name.as_slice());
    }
}

/// Tells the connections of a turn in a second that were closed for a cause, on which no request of more than `request_bytes` is read.
fn tell_closed<T: LineLog>(
    alloc: Global,
    now: u64,
    second: u64,
    shut: &Firsts<kb_node::Closed>,
    request_bytes: u32,
    journal: &mut Journal<T>,
)
    ensures { TellsShuts T.logged now second request_bytes shut.now journal.old journal.new }
{
    let connections = shut.first();
    for closed in connections {
        tell_shut(alloc, now, second, closed, request_bytes, journal);
    }
    journal.count_shut(shut.more());
}

/// Tells a connection that was closed for a cause, on which no request of more than `request_bytes` is read.
fn tell_shut<T: LineLog>(
    alloc: Global,
    now: u64,
    second: u64,
    closed: &kb_node::Closed,
    request_bytes: u32,
    journal: &mut Journal<T>,
)
    ensures { TellsShutOne T.logged now second request_bytes closed.now journal.old journal.new }
{
    let cause = cause_text(alloc, closed.cause, request_bytes);
    journal.tell_shut(alloc, now, second, closed.address, closed.tenant, cause);
}
