//! What is said of the server and of its process.

ghost use Rattle.std.specs.Prelude.{◌≡◌, ◌++◌, OnOk, map};
ghost use Rattle.kb_metrics.specs.Server.{cause_of, cause_text, causes, closed_text, counter, cpu_figure, gauge, info_text};
ghost use Rattle.kb_metrics.specs.Server.{known_gauge};
ghost use Rattle.kb_metrics.specs.Server.{process_figures, process_text};
ghost use Rattle.kb_metrics.specs.Server.{server_text, socket_figures, trouble_figures, version_text};
ghost use Rattle.kb_metrics.specs.Text.{figure_of, head_seen, label_of};

use crate::row::Row;
use crate::text::{
    Figure, Head, Kind, Label, Value, push_family, push_figures, push_head, push_sample,
};
use std::alloc::AllocError;

/// How many sockets the broker closed, by cause.
#[derive(Clone, Copy, Debug, PartialEq, Eq)]
pub struct Closed {
    /// There was no place for one more.
    pub no_place: u64,
    /// Nobody logged in on it.
    pub no_login: u64,
    /// Its client did not read what it was answered.
    pub unread_reply: u64,
    /// Nothing came.
    pub idle: u64,
    /// A request did not come to its end.
    pub slow_request: u64,
    /// A limit was passed.
    pub limit: u64,
}

/// The numbers of a server that are of no tenant.
#[derive(Clone, Copy, Debug, PartialEq, Eq)]
pub struct ServerGauges {
    /// Open connections without a login.
    pub strangers: u64,
    /// Open sockets.
    pub sockets: u64,
    /// How many sockets may be open.
    pub sockets_limit: u64,
    /// Sockets that were accepted.
    pub accepted: u64,
    pub read_bytes: u64,
    pub written_bytes: u64,
    pub logins_failed: u64,
    pub closed: Closed,
    pub refusals_before_login: u64,
    pub store_failures: u64,
    /// Files that are of no log; none where there is no folder.
    pub stray_files: Option<u64>,
    /// The longest turn since the last page, in microseconds.
    pub turn_micros_max: u64,
}

/// What the process is and takes. What the system does not tell is none.
#[derive(Clone, Copy)]
pub struct ProcessGauges<'a> {
    pub version: &'a str,
    /// When it began to serve, in seconds since the beginning of 1970.
    pub start_seconds: u64,
    /// The same as a text for people.
    pub start_text: &'a str,
    pub resident_bytes: Option<u64>,
    pub open_fds: Option<u64>,
    pub max_fds: Option<u64>,
    /// Time of processors, in milliseconds.
    pub cpu_millis: Option<u64>,
}

/// A cause, and how many sockets were closed for it.
#[derive(Clone, Copy)]
struct Cause {
    name: &'static str,
    count: u64,
}

/// Writes what is said of the server. After an `Err`, which is want of memory, some of it may be there.
pub fn push_server(out: &mut Vec<u8>, server: &ServerGauges) -> Result<(), AllocError>
    ensures { OnOk result (out.new.items ≡ out.old.items ++ server_text server.now) }
{
    push_figures(out, &socket_figures(server))?;
    push_figures(out, &trouble_figures(server))?;
    push_closed(out, &server.closed)
}

/// Writes what is said of the process. After an `Err`, which is want of memory, some of it may be there.
pub fn push_process(out: &mut Vec<u8>, process: &ProcessGauges<'_>) -> Result<(), AllocError>
    ensures { OnOk result (out.new.items ≡ out.old.items ++ process_text process.now) }
{
    push_version(out, process.version)?;
    push_figures(out, &process_figures(process))
}

fn gauge(name: &'static str, help: &'static str, value: u64) -> Figure
    ensures { figure_of result ≡ gauge name.now help.now value }
{
    Figure {
        name,
        help,
        kind: Kind::Gauge,
        value: Some(Value::Whole(value)),
    }
}

fn counter(name: &'static str, help: &'static str, value: u64) -> Figure
    ensures { figure_of result ≡ counter name.now help.now value }
{
    Figure {
        name,
        help,
        kind: Kind::Counter,
        value: Some(Value::Whole(value)),
    }
}

/// A gauge that may not be known.
fn known_gauge(name: &'static str, help: &'static str, value: Option<u64>) -> Figure
    ensures { figure_of result ≡ known_gauge name.now help.now value }
{
    let value = match value {
        Some(count) => Some(Value::Whole(count)),
        None => None,
    };
    Figure {
        name,
        help,
        kind: Kind::Gauge,
        value,
    }
}

/// Connections, sockets and their bytes.
#[tactic(auto, unfolding(crate::specs::Server::socket_figures))]
fn socket_figures(server: &ServerGauges) -> [Figure; 6]
    ensures { map figure_of result ≡ socket_figures server.now }
{
    [
        gauge(
            "kbroker_strangers",
            "Open connections without a login.",
            server.strangers,
        ),
        gauge(
            "kbroker_sockets",
            "Open sockets, those without a login among them.",
            server.sockets,
        ),
        gauge(
            "kbroker_sockets_limit",
            "Sockets that may be open at a time.",
            server.sockets_limit,
        ),
        counter(
            "kbroker_sockets_accepted_total",
            "Sockets that were accepted, also those that were closed at once.",
            server.accepted,
        ),
        counter(
            "kbroker_read_bytes_total",
            "Bytes that were read from sockets.",
            server.read_bytes,
        ),
        counter(
            "kbroker_written_bytes_total",
            "Bytes that were written to sockets.",
            server.written_bytes,
        ),
    ]
}

/// What failed, and how long a turn took.
#[tactic(auto, unfolding(crate::specs::Server::trouble_figures))]
fn trouble_figures(server: &ServerGauges) -> [Figure; 5]
    ensures { map figure_of result ≡ trouble_figures server.now }
{
    [
        counter(
            "kbroker_logins_failed_total",
            "Logins that failed.",
            server.logins_failed,
        ),
        counter(
            "kbroker_refusals_before_login_total",
            "Calls that were refused for connections without a login.",
            server.refusals_before_login,
        ),
        counter(
            "kbroker_store_failures_total",
            "Calls that the store refused.",
            server.store_failures,
        ),
        known_gauge(
            "kbroker_stray_files",
            "Files of the folder that are of no log and are left alone.",
            server.stray_files,
        ),
        Figure {
            name: "kbroker_turn_seconds_max",
            help: "The longest turn since the last page.",
            kind: Kind::Gauge,
            value: Some(Value::Millionths(server.turn_micros_max)),
        },
    ]
}

/// Memory, files and time of the process.
#[tactic(auto, unfolding(crate::specs::Server::process_figures))]
fn process_figures(process: &ProcessGauges<'_>) -> [Figure; 5]
    ensures { map figure_of result ≡ process_figures process.now }
{
    [
        gauge(
            "process_start_time_seconds",
            "When the broker began to serve, in seconds since the beginning of 1970.",
            process.start_seconds,
        ),
        known_gauge(
            "process_resident_memory_bytes",
            "Memory of the process.",
            process.resident_bytes,
        ),
        known_gauge(
            "process_open_fds",
            "Open files of the process.",
            process.open_fds,
        ),
        known_gauge(
            "process_max_fds",
            "Files that the process may have open.",
            process.max_fds,
        ),
        cpu_figure(process.cpu_millis),
    ]
}

/// The time of processors, in milliseconds.
fn cpu_figure(millis: Option<u64>) -> Figure
    ensures { figure_of result ≡ cpu_figure millis }
{
    let value = match millis {
        Some(count) => Some(Value::Thousandths(count)),
        None => None,
    };
    Figure {
        name: "process_cpu_seconds_total",
        help: "Time of processors that the process took.",
        kind: Kind::Counter,
        value,
    }
}

/// Writes how many sockets were closed, by cause.
fn push_closed(out: &mut Vec<u8>, closed: &Closed) -> Result<(), AllocError>
    ensures { OnOk result (out.new.items ≡ out.old.items ++ closed_text closed.now) }
{
    let head = Head {
        name: "kbroker_sockets_closed_total",
        help: "Sockets that the broker closed, by cause.",
        kind: Kind::Counter,
    };
    push_family(out, head, head.name, &causes(closed))
}

#[tactic(auto, unfolding(crate::specs::Server::causes))]
fn causes(closed: &Closed) -> [Cause; 6]
    ensures { map cause_of result ≡ causes closed.now }
{
    [
        closed_for("no_place", closed.no_place),
        closed_for("no_login", closed.no_login),
        closed_for("unread_reply", closed.unread_reply),
        closed_for("idle", closed.idle),
        closed_for("slow_request", closed.slow_request),
        closed_for("limit", closed.limit),
    ]
}

fn closed_for(name: &'static str, count: u64) -> Cause
    ensures { cause_of result ≡ (name.now, count) }
{
    Cause { name, count }
}

/// How many sockets were closed for a cause, in a family of that name.
impl<'a> Row<&'a str> for Cause {
    ghost use Rattle.std.specs.Prelude.{List, ℕ};

    ghost Seen = { List ℕ × ℕ };

    ghost seen = { cause_of };

    ghost text = { λ name. cause_text name.now };

    fn push(&self, out: &mut Vec<u8>, name: &'a str) -> Result<(), AllocError> {
        let why = Label {
            name: "why",
            value: self.name.as_bytes(),
        };
        push_sample(out, name, why, &[], self.count)
    }
}

/// Writes which version runs.
fn push_version(out: &mut Vec<u8>, version: &str) -> Result<(), AllocError>
    ensures { OnOk result (out.new.items ≡ out.old.items ++ version_text version.now) }
{
    let label = Label {
        name: "version",
        value: version.as_bytes(),
    };
    let head = Head {
        name: "kbroker_build_info",
        help: "The version that runs.",
        kind: Kind::Gauge,
    };
    push_info(out, head, label)
}

/// Writes a family that tells a text, as a label of a sample that is 1.
fn push_info(out: &mut Vec<u8>, head: Head, label: Label<'_>) -> Result<(), AllocError>
    ensures { OnOk result (out.new.items ≡ out.old.items ++ info_text (head_seen head) (label_of label.entry)) }
{
    push_head(out, head)?;
    push_sample(out, head.name, label, &[], 1)
}
