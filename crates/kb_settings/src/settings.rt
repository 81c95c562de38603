//! The settings of a broker. The types keep their limits.

ghost use Rattle.std.specs.Prelude.{◌≡◌, ◌≤◌, IsTrue, IfOk, false, is_some, map, string_bytes, length};
ghost use Rattle.kb_settings.specs.Address.{is_listened};
ghost use Rattle.kb_settings.specs.Settings.{is_host, is_credential, is_tenant, are_different, limit_for};
ghost use Rattle.kb_settings.specs.Names.{in_order};
ghost use Rattle.kb_settings.specs.Limits.{limits_in, are_limits};

use crate::endpoint::Endpoint;
use crate::metrics::MetricsSettings;
use crate::requests::RequestLimits;
use crate::sync::Sync;
use crate::tenant_limits::{ConnectionLimits, DataLimits, GroupLimits, TenantLimits};
use crate::tenants::limits_of;
use std::alloc::{AllocError, Global};

/// A user: what it logs in with, and its tenant. It has no `Debug`, which would print the password.
#[derive(Drop)]
pub struct User {
    /// 1 to 255 bytes, none of them NUL. No other user has it.
    pub name: String,
    /// 1 to 255 bytes, none of them NUL.
    pub password: String,
    /// The tenant's name: 1 to 64 of the characters `a-z A-Z 0-9 . _ -`.
    pub tenant: String,
    pub ghost name_fits: { IsTrue (is_credential (string_bytes name)) },
    pub ghost password_fits: { IsTrue (is_credential (string_bytes password)) },
    pub ghost tenant_fits: { IsTrue (is_tenant (string_bytes tenant)) },
}

impl User {
    /// A user of these texts, within their limits.
    pub fn new(alloc: Global, name: &str, password: &str, tenant: &str) -> Result<User, AllocError>
        requires name { IsTrue (is_credential name.now) }
        requires password { IsTrue (is_credential password.now) }
        requires tenant { IsTrue (is_tenant tenant.now) }
        ensures name { IfOk result (λ user. string_bytes user.name ≡ name.now) }
        ensures password { IfOk result (λ user. string_bytes user.password ≡ password.now) }
        ensures tenant { IfOk result (λ user. string_bytes user.tenant ≡ tenant.now) }
    {
        Ok(User {
            name: String::from_str(alloc, name)?,
            password: String::from_str(alloc, password)?,
            tenant: String::from_str(alloc, tenant)?,
        })
    }
}

/// The settings of a broker.
#[derive(Drop)]
pub struct Settings {
    /// The host that is listened on: 1 to 255 bytes, an IPv6 address without brackets. It is `0.0.0.0` or `::`, every address of
    /// the machine, only where clients are told another.
    pub host: String,
    /// The port that is listened on, from 1.
    pub port: u16,
    /// What clients are told to connect to, where it is another host or port than is listened on.
    pub advertise: Option<Endpoint>,
    /// The size in bytes past which a log begins a new file: 4,096 to 1,073,741,824.
    pub segment_bytes: u32,
    /// How many read batches are kept in memory: 1 to 65,536.
    pub cache_batches: u32,
    /// How many bytes read batches take in memory at most: 0 to 1,099,511,627,776. With 0 none is kept.
    pub cache_bytes: u64,
    /// How many clients are connected at most: 1 to 1,000,000.
    pub connections: u32,
    /// How many bytes of output are kept at most before no more requests are taken: 1,048,576 to 4,294,967,295.
    pub output_bytes: u32,
    /// When what was done is made to last through a loss of power.
    pub sync: Sync,
    /// With [`Sync::Interval`], after how many milliseconds: 1 to 60,000.
    pub sync_ms: u32,
    /// By how many seconds a socket has logged in: 1 to 3,600.
    pub login_seconds: u32,
    /// By how many seconds a socket takes the next byte of a reply: 1 to 3,600.
    pub reply_seconds: u32,
    /// How many sockets there are at most at a time before their login: 1 to `connections`.
    pub strangers: u32,
    /// By when a request is whole and a socket is used, how many bytes begun requests take, how many entries one names, and how
    /// many bytes its reply has.
    pub requests: RequestLimits,
    /// Whether a client that speaks another version of the protocol may be served, as with the flag `--stock-clients`.
    pub stock_clients: bool,
    /// Whether logins are told in the log.
    pub logins: bool,
    /// Where metrics are served, and to whom.
    pub metrics: MetricsSettings,
    /// The data folder, where there is one.
    pub folder: Option<String>,
    /// 1 to 1,000 users, no two of one name, of at most 256 different tenants.
    pub users: Vec<User>,
    /// The limits of up to 256 tenants, each once, that users name. None is of more than `connections`, and fewer are reserved
    /// together.
    pub tenants: Vec<TenantLimits>,
    pub ghost host_fits: { IsTrue (is_listened (is_some advertise) (string_bytes host)) },
    pub ghost port_fits: { 1 ≤ port },
    pub ghost segment_bytes_fit: { (4096 ≤ segment_bytes) × (segment_bytes ≤ 1073741824) },
    pub ghost cache_batches_fit: { (1 ≤ cache_batches) × (cache_batches ≤ 65536) },
    pub ghost cache_bytes_fit: { cache_bytes ≤ 1099511627776 },
    pub ghost connections_fit: { (1 ≤ connections) × (connections ≤ 1000000) },
    pub ghost output_bytes_fit: { 1048576 ≤ output_bytes },
    pub ghost sync_ms_fit: { (1 ≤ sync_ms) × (sync_ms ≤ 60000) },
    pub ghost login_seconds_fit: { (1 ≤ login_seconds) × (login_seconds ≤ 3600) },
    pub ghost reply_seconds_fit: { (1 ≤ reply_seconds) × (reply_seconds ≤ 3600) },
    pub ghost strangers_fit: { (1 ≤ strangers) × (strangers ≤ connections) },
    pub ghost users_fit: { (1 ≤ length users.items) × (length users.items ≤ 1000) },
    pub ghost names_differ: { IsTrue (are_different (map (λ u. string_bytes u.name) users.items)) },
    pub ghost tenants_fit: { length (in_order (map (λ u. string_bytes u.tenant) users.items)) ≤ 256 },
    pub ghost limits_fit: { IsTrue (are_limits connections (map (λ u. string_bytes u.tenant) users.items) (map limits_in tenants.items)) },
}

impl Settings {
    ghost use Rattle.std.specs.Prelude.{Some, Ok};
    ghost use Rattle.kb_settings.specs.Values.{values_of, told, limits_of, groups_of, data_of, told_to};
    ghost use Rattle.kb_settings.specs.Values.{entries_for, reply_bytes_for};
    ghost use Rattle.kb_settings.specs.Values.{standard, standard_text};
    ghost use Rattle.kb_settings.specs.Reading.{settings_of};

    /// The settings of a text that names two users alone: `ann` with password `pw1` of tenant `a`, and `bob` with password
    /// `pw2` of tenant `b`. The host is `localhost`, the port 9092, a file has 16,777,216 bytes, 1,024 read batches are kept
    /// of 67,108,864 bytes at most, 1,024 clients are connected at most, 268,435,456 bytes of output are kept, what was done is
    /// made to last each 1,000 ms, a socket has 10 seconds for its login and 60 for the next byte of a reply, all of them may be
    /// before their login, a request is whole by 30 seconds, a socket is used by 600, begun requests take 268,435,456 bytes at
    /// most and each of them 2,097,152, logins are told in the log, no metrics are served, and there is no folder and are no limits of
    /// tenants.
    pub fn standard(alloc: Global) -> Result<Settings, AllocError>
        ensures value { IfOk result (λ settings. values_of settings ≡ standard) }
        ensures text { IfOk result (λ settings. settings_of standard_text ≡ Some (Ok (values_of settings))) }
    {
        let mut users = Vec::new(alloc);
        users.push(User::new(alloc, "ann", "pw1", "a")?)?;
        users.push(User::new(alloc, "bob", "pw2", "b")?)?;
        Ok(Settings {
            host: String::from_str(alloc, "localhost")?,
            port: 9092,
            advertise: None,
            segment_bytes: 16_777_216,
            cache_batches: 1024,
            cache_bytes: 67_108_864,
            connections: 1024,
            output_bytes: 268_435_456,
            sync: Sync::Interval,
            sync_ms: 1000,
            login_seconds: 10,
            reply_seconds: 60,
            strangers: 1024,
            requests: RequestLimits {
                request_seconds: 30,
                idle_seconds: 600,
                input_bytes: 268_435_456,
                request_bytes: 2_097_152,
                request_entries: None,
                reply_bytes: None,
            },
            stock_clients: false,
            logins: true,
            metrics: MetricsSettings {
                address: None,
                token: None,
            },
            folder: None,
            users,
            tenants: Vec::new(alloc),
        })
    }

    /// The host and the port that clients are told: those that are advertised, or else those that are listened on.
    pub fn told(&self) -> (&str, u16)
        ensures says { (result.0.now, result.1) ≡ told (values_of self.now) }
        ensures host { IsTrue (is_listened false result.0.now) }
        ensures port { 1 ≤ result.1 }
    {
        match &self.advertise {
            Some(endpoint) => (endpoint.host.as_str(), endpoint.port),
            None => (self.host.as_str(), self.port),
        }
    }

    /// How many connections the tenant of this name may have: all of them, with none reserved, where no limits name it.
    #[tactic(auto, using(crate::proofs::AllowedConnections::found_allowed))]
    pub fn limits_of(&self, tenant: &str) -> ConnectionLimits
        ensures says { result ≡ limits_of tenant.now (values_of self.now) }
        ensures some { 1 ≤ result.most }
        ensures most { result.most ≤ self.now.connections }
        ensures reserved { result.reserved ≤ result.most }
    {
        match limits_of(&self.tenants, tenant) {
            Some(limits) => ConnectionLimits {
                most: limits.connections,
                reserved: limits.reserved_connections,
            },
            None => ConnectionLimits {
                most: self.connections,
                reserved: 0,
            },
        }
    }

    /// What the groups of the tenant of this name may take: [`GroupLimits::standard`], where no limits name it.
    pub fn groups_of(&self, tenant: &str) -> GroupLimits
        ensures says { result ≡ groups_of tenant.now (values_of self.now) }
        ensures bytes { result.bytes ≤ 9223372036854775807 }
    {
        match limits_of(&self.tenants, tenant) {
            Some(limits) => limits.groups,
            None => GroupLimits::standard(),
        }
    }

    /// What the tenant of this name may have: [`DataLimits::standard`], where no limits name it.
    pub fn data_of(&self, tenant: &str) -> DataLimits
        ensures { result ≡ data_of tenant.now (values_of self.now) }
    {
        match limits_of(&self.tenants, tenant) {
            Some(limits) => limits.data_limits,
            None => DataLimits::standard(),
        }
    }

    /// The host and the port that clients of the tenant of this name are told: its own, or else those of [`Settings::told`].
    pub fn told_to(&self, tenant: &str) -> (&str, u16)
        ensures says { (result.0.now, result.1) ≡ told_to tenant.now (values_of self.now) }
        ensures host { IsTrue (is_listened false result.0.now) }
        ensures port { 1 ≤ result.1 }
    {
        let Some(limits) = limits_of(&self.tenants, tenant) else {
            return self.told();
        };
        match &limits.advertise {
            Some(own) => (own.host.as_str(), own.port),
            None => self.told(),
        }
    }

    /// How many entries a request may name. Where it is not said it is 65,536 where stock clients are served, and else any number.
    pub fn entries_for(&self, stock_clients: bool) -> Option<u64>
        ensures { result ≡ entries_for stock_clients (values_of self.now) }
    {
        limit_for(self.requests.request_entries, 65_536, stock_clients)
    }

    /// How many bytes a reply may have. Where it is not said it is 33,554,432 where stock clients are served, and else any number.
    pub fn reply_bytes_for(&self, stock_clients: bool) -> Option<u64>
        ensures { result ≡ reply_bytes_for stock_clients (values_of self.now) }
    {
        limit_for(self.requests.reply_bytes, 33_554_432, stock_clients)
    }
}

/// A limit that holds where it is said, and so much where it is not and stock clients are served.
fn limit_for(said: Option<u64>, standard: u64, stock_clients: bool) -> Option<u64>
    ensures { result ≡ limit_for standard stock_clients said }
{
    match said {
        Some(limit) => Some(limit),
        None if stock_clients => Some(standard),
        None => None,
    }
}
