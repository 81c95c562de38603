//! Settings read from a text.

ghost use Rattle.std.specs.Prelude.{◌≡◌, Some, None, Ok, Err, IfOk, IfErr, IfSome, IsTrue, ◌≤◌, false, is_some, option_map, string_bytes};
ghost use Rattle.toml.specs.Data.{get_member};
ghost use Rattle.toml.specs.View.{table_view};
ghost use Rattle.kb_settings.specs.Endpoint.{host_and_port};
ghost use Rattle.kb_settings.specs.Values.{values_of, requests_of, metrics_of};
ghost use Rattle.kb_settings.specs.Address.{is_listened};
ghost use Rattle.kb_settings.specs.Document.{said_or, number_in, cache_in, room_in, syncs_in, seconds_in};
ghost use Rattle.kb_settings.specs.Document.{requests_in, flags_in, metrics_in, settings_in};
ghost use Rattle.kb_settings.specs.Reading.{settings_of, IsFaultOf, IsFaultAt, IsFaultIn};

use crate::address::is_guarded;
use crate::document::{address, flag, folder, host, limit, number, other_key, size, sync, token};
use crate::endpoint::Endpoint;
use crate::fault::SettingsFault;
use crate::metrics::MetricsSettings;
use crate::requests::RequestLimits;
use crate::settings::Settings;
use crate::sync::Sync;
use crate::tenants::tenants;
use crate::users::users;
use std::alloc::{AllocError, Global};
use toml::Table;

/// A mebibyte.
const MIB: u32 = 1_048_576;

/// The keys that there are.
const KEYS: [&str; 26] = [
    "host",
    "port",
    "advertise",
    "segment_bytes",
    "cache_batches",
    "cache_bytes",
    "connections",
    "output_bytes",
    "sync",
    "sync_ms",
    "login_seconds",
    "reply_seconds",
    "strangers",
    "request_seconds",
    "idle_seconds",
    "input_bytes",
    "request_bytes",
    "request_entries",
    "reply_bytes",
    "stock_clients",
    "logins",
    "metrics",
    "metrics_token",
    "data",
    "user",
    "tenant",
];

impl Settings {
    /// The settings of a TOML text: `host`, `port`, `advertise`, `segment_bytes`, `cache_batches`, `cache_bytes`, `connections`,
    /// `output_bytes`, `sync`, `sync_ms`, `login_seconds`, `reply_seconds`, `strangers`, `request_seconds`, `idle_seconds`,
    /// `input_bytes`, `request_bytes`, `request_entries`, `reply_bytes`, `stock_clients`, `logins`, `metrics`, `metrics_token` and
    /// `data`, each as in [`Settings::standard`] where it is missing, but `strangers` as `connections`. Then an array of tables `user`
    /// with `name`, `password` and `tenant`, and one of tables `tenant` with `name`, `connections`, `reserved_connections`, `groups`,
    /// `group_bytes`, `topics`, `partitions`, `offsets`, `bytes`, `fetch_bytes` and `advertise`, which may be missing, all but the
    /// name. `advertise` and `metrics` are `HOST:PORT`, where an IPv6 address stands in brackets; around `host` they may be left
    /// out. `metrics_token` may be missing where `metrics` is this machine alone.
    ///
    /// `Text` comes only where the text is no TOML document. `Field` names the first key that is wrong, in this order; keys
    /// that there are not come last, in byte order. Anything wrong with a user, or with the users together, is wrong with
    /// `user`, and the same of `tenant`.
    pub fn read(alloc: Global, text: &str) -> Result<Settings, SettingsFault>
        ensures ok { IfOk result (λ settings. settings_of text.now ≡ Some (Ok (values_of settings))) }
        ensures err { IfErr result (IsFaultOf text.now) }
    {
        match toml::table_from_str(alloc, text) {
            Ok(document) => in_document(alloc, &document),
            Err(e) if e.is_memory() => Err(SettingsFault::Memory),
            Err(_) => Err(SettingsFault::Text),
        }
    }
}

/// The settings of a document.
#[tactic(auto, using(crate::proofs::Parts::part_fault))]
fn in_document(alloc: Global, document: &Table) -> Result<Settings, SettingsFault>
    ensures ok { IfOk result (λ settings. settings_in (table_view document.now) ≡ Ok (values_of settings)) }
    ensures err { IfErr result (IsFaultIn (settings_in (table_view document.now))) }
{
    let host = said(alloc, "host", host(document))?;
    let port = limited(alloc, document, "port", 9092, 1, 65_535)?;
    let advertise = said(alloc, "advertise", address(document, "advertise"))?;
    let segment_bytes = limited(alloc, document, "segment_bytes", 16 * MIB, 4096, 1024 * MIB)?;
    let (cache_batches, cache_bytes) = cache(alloc, document)?;
    let (connections, output_bytes) = room(alloc, document)?;
    let (sync, sync_ms) = syncs(alloc, document)?;
    let (login_seconds, reply_seconds) = seconds(alloc, document)?;
    let strangers = limited(alloc, document, "strangers", connections, 1, connections)?;
    let requests = requests(alloc, document)?;
    let (stock_clients, logins) = flags(alloc, document)?;
    let metrics = metrics(alloc, document)?;
    let folder = said(alloc, "data", folder(document))?;
    let users = said(alloc, "user", users(alloc, document)?)?;
    let tenants = tenants(alloc, document, connections, &users)?;
    let tenants = said(alloc, "tenant", tenants)?;
    if let Some(key) = other_key(document, &KEYS) {
        return Err(wrong(alloc, key));
    }
    Ok(Settings {
        host: String::from_str(alloc, host)?,
        port: port as u16,
        advertise: Endpoint::copied(alloc, advertise)?,
        segment_bytes,
        cache_batches,
        cache_bytes,
        connections,
        output_bytes,
        sync,
        sync_ms,
        login_seconds,
        reply_seconds,
        strangers,
        requests,
        stock_clients,
        logins,
        metrics,
        folder: copied(alloc, folder)?,
        users,
        tenants,
    })
}

/// How many pieces of files are kept in memory, and how many bytes.
fn cache(alloc: Global, document: &Table) -> Result<(u32, u64), SettingsFault>
    ensures ok { IfOk result (λ c. cache_in (table_view document.now) ≡ Ok c) }
    ensures batches { IfOk result (λ c. (1 ≤ c.0) × (c.0 ≤ 65536)) }
    ensures bytes { IfOk result (λ c. c.1 ≤ 1099511627776) }
    ensures err { IfErr result (IsFaultIn (cache_in (table_view document.now))) }
{
    let batches = limited(alloc, document, "cache_batches", 1024, 1, 65_536)?;
    let bytes = size(
        document,
        "cache_bytes",
        64 * MIB as u64,
        0,
        1_099_511_627_776,
    );
    Ok((batches, said(alloc, "cache_bytes", bytes)?))
}

/// How many clients may be connected, and how many bytes of replies are kept for them.
fn room(alloc: Global, document: &Table) -> Result<(u32, u32), SettingsFault>
    ensures ok { IfOk result (λ r. room_in (table_view document.now) ≡ Ok r) }
    ensures connections { IfOk result (λ r. (1 ≤ r.0) × (r.0 ≤ 1000000)) }
    ensures output_bytes { IfOk result (λ r. 1048576 ≤ r.1) }
    ensures err { IfErr result (IsFaultIn (room_in (table_view document.now))) }
{
    let connections = limited(alloc, document, "connections", 1024, 1, 1_000_000)?;
    let output_bytes = limited(alloc, document, "output_bytes", 256 * MIB, MIB, u32::MAX)?;
    Ok((connections, output_bytes))
}

/// When what was done is made to last.
fn syncs(alloc: Global, document: &Table) -> Result<(Sync, u32), SettingsFault>
    ensures ok { IfOk result (λ s. syncs_in (table_view document.now) ≡ Ok s) }
    ensures ms { IfOk result (λ s. (1 ≤ s.1) × (s.1 ≤ 60000)) }
    ensures err { IfErr result (IsFaultIn (syncs_in (table_view document.now))) }
{
    let sync = said(alloc, "sync", sync(document))?;
    Ok((sync, limited(alloc, document, "sync_ms", 1000, 1, 60_000)?))
}

/// How many seconds a client has for its login, and for the next byte of a reply.
fn seconds(alloc: Global, document: &Table) -> Result<(u32, u32), SettingsFault>
    ensures ok { IfOk result (λ s. seconds_in (table_view document.now) ≡ Ok s) }
    ensures login { IfOk result (λ s. (1 ≤ s.0) × (s.0 ≤ 3600)) }
    ensures reply { IfOk result (λ s. (1 ≤ s.1) × (s.1 ≤ 3600)) }
    ensures err { IfErr result (IsFaultIn (seconds_in (table_view document.now))) }
{
    let login = limited(alloc, document, "login_seconds", 10, 1, 3600)?;
    Ok((
        login,
        limited(alloc, document, "reply_seconds", 60, 1, 3600)?,
    ))
}

/// The limits of requests.
fn requests(alloc: Global, document: &Table) -> Result<RequestLimits, SettingsFault>
    ensures ok { IfOk result (λ requests. requests_in (table_view document.now) ≡ Ok (requests_of requests)) }
    ensures err { IfErr result (IsFaultIn (requests_in (table_view document.now))) }
{
    Ok(RequestLimits {
        request_seconds: limited(alloc, document, "request_seconds", 30, 1, 3600)?,
        idle_seconds: limited(alloc, document, "idle_seconds", 600, 0, 4_294_967)?,
        input_bytes: limited(alloc, document, "input_bytes", 256 * MIB, 8 * MIB, u32::MAX)?,
        request_bytes: limited(
            alloc,
            document,
            "request_bytes",
            2 * MIB,
            2 * MIB,
            100 * MIB,
        )?,
        request_entries: said(
            alloc,
            "request_entries",
            limit(document, "request_entries", 1000, 2_097_152),
        )?,
        reply_bytes: said(
            alloc,
            "reply_bytes",
            limit(document, "reply_bytes", MIB as u64, 2_147_483_647),
        )?,
    })
}

/// Whether stock clients are served, and whether logins are told in the log.
fn flags(alloc: Global, document: &Table) -> Result<(bool, bool), SettingsFault>
    ensures ok { IfOk result (λ f. flags_in (table_view document.now) ≡ Ok f) }
    ensures err { IfErr result (IsFaultIn (flags_in (table_view document.now))) }
{
    let stock_clients = flag(document, "stock_clients", false);
    let stock_clients = said(alloc, "stock_clients", stock_clients)?;
    let logins = said(alloc, "logins", flag(document, "logins", true))?;
    Ok((stock_clients, logins))
}

/// Where metrics are served, and to whom.
fn metrics(alloc: Global, document: &Table) -> Result<MetricsSettings, SettingsFault>
    ensures ok { IfOk result (λ metrics. metrics_in (table_view document.now) ≡ Ok (metrics_of metrics)) }
    ensures err { IfErr result (IsFaultIn (metrics_in (table_view document.now))) }
{
    let address = said(alloc, "metrics", address(document, "metrics"))?;
    let token = said(alloc, "metrics_token", token(document))?;
    if let Some((host, _)) = address
        && !is_guarded(host, token.is_some())
    {
        return Err(wrong(alloc, "metrics_token"));
    }
    Ok(MetricsSettings {
        address: Endpoint::copied(alloc, address)?,
        token: copied(alloc, token)?,
    })
}

/// What is said at a key, or the fault of it where that is wrong.
fn said<T>(alloc: Global, key: &str, said: Option<T>) -> Result<T, SettingsFault>
    ensures ok { IfOk result (λ value. said ≡ Some value) }
    ensures err { IfErr result (λ fault. (said ≡ None) × IsFaultAt (Some key.now) fault) }
{
    match said {
        Some(value) => Ok(value),
        None => Err(wrong(alloc, key)),
    }
}

/// The number at a key, both limits included, or the fault of the key.
fn limited(
    alloc: Global,
    document: &Table,
    key: &str,
    standard: u32,
    low: u32,
    high: u32,
) -> Result<u32, SettingsFault>
    requires low { low ≤ standard }
    requires high { standard ≤ high }
    ensures ok { IfOk result (λ n. said_or standard (number_in low high) (get_member key.now (table_view document.now)) ≡ Some n) }
    ensures err { IfErr result (λ fault. (said_or standard (number_in low high) (get_member key.now (table_view document.now)) ≡ None)
        × IsFaultAt (Some key.now) fault) }
    ensures low { IfOk result (λ n. low ≤ n) }
    ensures high { IfOk result (λ n. n ≤ high) }
{
    match number(document, key, standard, low, high) {
        Some(number) => Ok(number),
        None => Err(wrong(alloc, key)),
    }
}

/// A copy of a text, where there is one.
fn copied(alloc: Global, text: Option<&str>) -> Result<Option<String>, AllocError>
    ensures says { IfOk result (λ copy. option_map string_bytes copy ≡ option_map (λ t. t.now) text.entry) }
    ensures some { IfOk result (λ copy. is_some copy ≡ is_some text.entry) }
{
    match text {
        Some(text) => Ok(Some(String::from_str(alloc, text)?)),
        None => Ok(None),
    }
}

/// The fault of a wrong key.
fn wrong(alloc: Global, key: &str) -> SettingsFault
    ensures { IsFaultAt (Some key.now) result }
{
    match String::from_str(alloc, key) {
        Ok(name) => SettingsFault::Field(name),
        Err(_) => SettingsFault::Memory,
    }
}
