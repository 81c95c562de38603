//! What an edge may hold at most.

ghost use Rattle.std.specs.Prelude.{◌≡◌};

use kb_broker::Settings;
use kb_settings::Sync;

/// What an edge may hold at most.
#[derive(Clone, Copy, Debug, PartialEq, Eq)]
pub struct Limits {
    /// How many sockets are open at a time: more are closed at once.
    pub sockets: u32,
    /// How many of them have not logged in: where one more comes, the oldest of these is closed.
    pub strangers: u32,
    /// How many seconds a socket has for its login.
    pub login_seconds: u32,
    /// How many seconds a socket may take no byte of its reply.
    pub reply_seconds: u32,
    /// By how many seconds after its first byte a request is whole.
    pub request_seconds: u32,
    /// How many seconds a socket may have no request under way and wait for nothing, once it has logged in: 0 for ever.
    pub idle_seconds: u32,
    /// How many bytes the begun requests of all sockets have, above which none begins.
    pub input_bytes: u32,
    /// How many bytes of output are kept until they are written, above which nothing more is handed on to the broker. A reply
    /// that was asked for below it may go past it.
    pub output_bytes: u32,
    /// When what was done is made to last through a loss of power.
    pub sync: Sync,
    /// With [`Sync::Interval`], after how many milliseconds.
    pub sync_ms: u32,
}

impl Limits {
    /// What the settings allow.
    pub fn of(settings: &Settings) -> Limits
        ensures sockets { result.sockets ≡ settings.now.connections }
        ensures strangers { result.strangers ≡ settings.now.strangers }
        ensures waits { (result.login_seconds ≡ settings.now.login_seconds) × (result.reply_seconds ≡ settings.now.reply_seconds) }
        ensures requests { (result.request_seconds ≡ settings.now.requests.request_seconds)
            × (result.idle_seconds ≡ settings.now.requests.idle_seconds) × (result.input_bytes ≡ settings.now.requests.input_bytes) }
        ensures output { result.output_bytes ≡ settings.now.output_bytes }
        ensures sync { (result.sync ≡ settings.now.sync) × (result.sync_ms ≡ settings.now.sync_ms) }
    {
        Limits {
            sockets: settings.connections,
            strangers: settings.strangers,
            login_seconds: settings.login_seconds,
            reply_seconds: settings.reply_seconds,
            request_seconds: settings.requests.request_seconds,
            idle_seconds: settings.requests.idle_seconds,
            input_bytes: settings.requests.input_bytes,
            output_bytes: settings.output_bytes,
            sync: settings.sync,
            sync_ms: settings.sync_ms,
        }
    }
}

/// As in the standard settings: 1,024 sockets, which have ten seconds for their logins, thirty for a request, sixty for a reply and ten
/// minutes between two requests, 256 MiB of input and of output each, and a commit each second.
impl Default for Limits {
    ghost use Rattle.kb_settings.specs.declared.sync.Sync.TheVariants.{Interval};

    ghost is_default = { λ x. x ≡ record {
      sockets = 1024;
      strangers = 1024;
      login_seconds = 10;
      reply_seconds = 60;
      request_seconds = 30;
      idle_seconds = 600;
      input_bytes = 268435456;
      output_bytes = 268435456;
      sync = Interval;
      sync_ms = 1000;
    } };

    fn default() -> Limits {
        Limits {
            sockets: 1024,
            strangers: 1024,
            login_seconds: 10,
            reply_seconds: 60,
            request_seconds: 30,
            idle_seconds: 600,
            input_bytes: 268_435_456,
            output_bytes: 268_435_456,
            sync: Sync::Interval,
            sync_ms: 1000,
        }
    }
}
