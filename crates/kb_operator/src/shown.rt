//! What settings come to, as text.

ghost use Rattle.std.specs.Prelude.{◌≡◌, ◌++◌, ◌∷◌, [], codes, map, option_map, string_bytes, IfOk, OnErr, OnOk};
ghost use Rattle.std.specs.Io.KnownBytes.{Appends};
ghost use Rattle.kb_settings.specs.Endpoint.{host_and_port};
ghost use Rattle.kb_settings.specs.Limits.{limits_in};
ghost use Rattle.kb_settings.specs.Values.{account_of, requests_of, values_of};
ghost use Rattle.kb_operator.specs.Others.{others};
ghost use Rattle.kb_operator.specs.Report.{lines_text};
ghost use Rattle.kb_operator.specs.Shown.{address_lines, data_part, entries_lines, fetched_line, group_part, key_lines, limit_lines};
ghost use Rattle.kb_operator.specs.Shown.{limit_part, listen_lines, members_line, numbers_part, others_line, others_lines, others_part};
ghost use Rattle.kb_operator.specs.Shown.{own_address_part, quoted_line, reply_bytes_lines, request_lines, served_lines, settings_text};
ghost use Rattle.kb_operator.specs.Shown.{size_lines, sockets_line, stored_line, sync_text, tenant_line, time_lines, total_lines};
ghost use Rattle.kb_operator.specs.Shown.{user_line};
ghost use Rattle.kb_operator.specs.Sums.{told};
ghost use Rattle.kb_operator.specs.Written.{WritesFront};

mod line;

use crate::address::address_text;
use crate::fault::OperatorFault;
use crate::others::{Numbers, numbers_of_others, others, tenant_count};
use crate::sums::{fetched_at_most, held_at_most, stored_at_most};
use crate::write::write_bytes;
use kb_settings::{
    ConnectionLimits, DataLimits, Endpoint, GroupLimits, RequestLimits, Settings, Sync,
    TenantLimits, User,
};
use line::{push_count, push_flag, push_flagged, push_key, push_line, push_quoted};
use std::alloc::{AllocError, Global};
use std::io::Write;

/// Writes a line for each key, for each user and for each tenant with limits, in the order of the file and without passwords and the
/// token for metrics, and one for all other tenants. Then come the counts, what all tenants may store, what replies of Fetch may take, and
/// what sockets may hold. The folder is the one that they name. After a fault some front of that was written.
pub fn write_settings<W: Write>(
    alloc: Global,
    settings: &Settings,
    folder: &str,
    writer: &mut W,
) -> Result<(), OperatorFault>
    ensures ok { OnOk result
        (Appends (W.contents writer.old) (W.contents writer.new) (settings_text (values_of settings.now) folder.now)) }
    ensures err { OnErr result
        (WritesFront (settings_text (values_of settings.now) folder.now) (W.contents writer.old) (W.contents writer.new)) }
{
    let text = settings_text(alloc, settings, folder)?;
    write_bytes(writer, &text)?;
    match writer.flush() {
        Ok(()) => Ok(()),
        Err(_) => Err(OperatorFault::Write),
    }
}

/// Settings as text, with the folder that they name.
fn settings_text(alloc: Global, settings: &Settings, folder: &str) -> Result<Vec<u8>, AllocError>
    ensures { IfOk result (λ text. text.items ≡ settings_text (values_of settings.now) folder.now) }
{
    let mut text = Vec::new(alloc);
    push_keys(alloc, &mut text, settings, folder)?;
    push_users(&mut text, &settings.users)?;
    push_tenants(alloc, &mut text, &settings.tenants)?;
    push_others(alloc, &mut text, settings)?;
    push_totals(alloc, &mut text, settings)?;
    Ok(text)
}

/// Adds a line for each key, but for users and tenants.
fn push_keys(
    alloc: Global,
    text: &mut Vec<u8>,
    settings: &Settings,
    folder: &str,
) -> Result<(), AllocError>
    ensures { OnOk result (text.new.items ≡ text.old.items ++ lines_text (key_lines (values_of settings.now) folder.now)) }
{
    push_listen(alloc, text, settings)?;
    push_sizes(alloc, text, settings)?;
    push_times(alloc, text, settings)?;
    push_requests(alloc, text, &settings.requests)?;
    push_served(alloc, text, settings)?;
    push_address(alloc, text, "metrics", &settings.metrics.address)?;
    push_key(text, "data", folder)
}

/// Adds where it listens, and what clients are told.
fn push_listen(alloc: Global, text: &mut Vec<u8>, settings: &Settings) -> Result<(), AllocError>
    ensures { OnOk result (text.new.items ≡ text.old.items ++ lines_text (listen_lines (values_of settings.now))) }
{
    push_key(text, "host", &settings.host)?;
    push_count(alloc, text, "port", settings.port as u64)?;
    push_address(alloc, text, "advertise", &settings.advertise)
}

/// Adds the sizes.
fn push_sizes(alloc: Global, text: &mut Vec<u8>, settings: &Settings) -> Result<(), AllocError>
    ensures { OnOk result (text.new.items ≡ text.old.items ++ lines_text (size_lines (values_of settings.now))) }
{
    push_count(alloc, text, "segment_bytes", settings.segment_bytes as u64)?;
    push_count(alloc, text, "cache_batches", settings.cache_batches as u64)?;
    push_count(alloc, text, "cache_bytes", settings.cache_bytes)?;
    push_count(alloc, text, "connections", settings.connections as u64)?;
    push_count(alloc, text, "output_bytes", settings.output_bytes as u64)
}

/// Adds when what was done is made to last, and what a socket may do before it logs in and behind its replies.
fn push_times(alloc: Global, text: &mut Vec<u8>, settings: &Settings) -> Result<(), AllocError>
    ensures { OnOk result (text.new.items ≡ text.old.items ++ lines_text (time_lines (values_of settings.now))) }
{
    push_sync(text, settings.sync)?;
    push_count(alloc, text, "sync_ms", settings.sync_ms as u64)?;
    push_count(alloc, text, "login_seconds", settings.login_seconds as u64)?;
    push_count(alloc, text, "reply_seconds", settings.reply_seconds as u64)?;
    push_count(alloc, text, "strangers", settings.strangers as u64)
}

/// Adds when what was done is made to last.
fn push_sync(text: &mut Vec<u8>, sync: Sync) -> Result<(), AllocError>
    ensures { OnOk result (text.new.items ≡ text.old.items ++ (quoted_line (codes "sync") (sync_text sync) ++ codes "\n")) }
{
    push_key(text, "sync", sync_text(sync))
}

/// What the settings call it.
fn sync_text(sync: Sync) -> &'static str
    ensures { result.now ≡ sync_text sync }
{
    sync.name()
}

/// Adds by when a request is whole and a socket is used, and how many bytes requests may have.
fn push_requests(
    alloc: Global,
    text: &mut Vec<u8>,
    requests: &RequestLimits,
) -> Result<(), AllocError>
    ensures { OnOk result (text.new.items ≡ text.old.items ++ lines_text (request_lines (requests_of requests.now))) }
{
    push_count(
        alloc,
        text,
        "request_seconds",
        requests.request_seconds as u64,
    )?;
    push_count(alloc, text, "idle_seconds", requests.idle_seconds as u64)?;
    push_count(alloc, text, "input_bytes", requests.input_bytes as u64)?;
    push_count(alloc, text, "request_bytes", requests.request_bytes as u64)
}

/// Adds what a request may name, what its reply may have, and which clients and logins there are.
fn push_served(alloc: Global, text: &mut Vec<u8>, settings: &Settings) -> Result<(), AllocError>
    ensures { OnOk result (text.new.items ≡ text.old.items ++ lines_text (served_lines (values_of settings.now))) }
{
    push_entries(alloc, text, settings)?;
    push_reply_bytes(alloc, text, settings)?;
    push_flag(alloc, text, "stock_clients", settings.stock_clients)?;
    push_flag(alloc, text, "logins", settings.logins)
}

/// Adds how many entries a request may name.
fn push_entries(alloc: Global, text: &mut Vec<u8>, settings: &Settings) -> Result<(), AllocError>
    ensures { OnOk result (text.new.items ≡ text.old.items ++ lines_text (entries_lines (values_of settings.now))) }
{
    let with_flag = settings.entries_for(true);
    let entries = settings.entries_for(settings.stock_clients);
    push_limit(alloc, text, "request_entries", entries, with_flag)
}

/// Adds how many bytes a reply may have.
fn push_reply_bytes(
    alloc: Global,
    text: &mut Vec<u8>,
    settings: &Settings,
) -> Result<(), AllocError>
    ensures { OnOk result (text.new.items ≡ text.old.items ++ lines_text (reply_bytes_lines (values_of settings.now))) }
{
    let with_flag = settings.reply_bytes_for(true);
    let bytes = settings.reply_bytes_for(settings.stock_clients);
    push_limit(alloc, text, "reply_bytes", bytes, with_flag)
}

/// Adds a limit as the settings say, or what it is where `kbroker serve` has the flag `--stock-clients`.
fn push_limit(
    alloc: Global,
    text: &mut Vec<u8>,
    key: &str,
    limit: Option<u64>,
    with_flag: Option<u64>,
) -> Result<(), AllocError>
    ensures { OnOk result (text.new.items ≡ text.old.items ++ lines_text (limit_lines key.now limit with_flag)) }
{
    match (limit, with_flag) {
        (Some(limit), _) => push_count(alloc, text, key, limit),
        (None, Some(limit)) => push_flagged(alloc, text, key, limit),
        (None, None) => Ok(()),
    }
}

/// Adds an address, where there is one.
fn push_address(
    alloc: Global,
    text: &mut Vec<u8>,
    key: &str,
    endpoint: &Option<Endpoint>,
) -> Result<(), AllocError>
    ensures { OnOk result (text.new.items
        ≡ text.old.items ++ lines_text (address_lines key.now (option_map host_and_port endpoint.now))) }
{
    match endpoint {
        Some(told) => push_key(text, key, &address_text(alloc, &told.host, told.port)?),
        None => Ok(()),
    }
}

/// Adds a line for each user.
fn push_users(text: &mut Vec<u8>, users: &[User]) -> Result<(), AllocError>
    ensures { OnOk result (text.new.items ≡ text.old.items ++ lines_text (map (λ u. user_line (account_of u)) users.now)) }
{
    for user in users {
        push_user(text, user)?;
    }
    Ok(())
}

/// Adds the line of a user.
fn push_user(text: &mut Vec<u8>, user: &User) -> Result<(), AllocError>
    ensures { OnOk result (text.new.items ≡ text.old.items ++ (user_line (account_of user.now) ++ codes "\n")) }
{
    text.extend_from_slice(b"user ")?;
    push_quoted(text, &user.name)?;
    text.extend_from_slice(b" of tenant ")?;
    push_quoted(text, &user.tenant)?;
    push_line(text, b"")
}

/// Adds a line for each tenant with limits.
fn push_tenants(
    alloc: Global,
    text: &mut Vec<u8>,
    tenants: &[TenantLimits],
) -> Result<(), AllocError>
    ensures { OnOk result (text.new.items ≡ text.old.items ++ lines_text (map (λ t. tenant_line (limits_in t)) tenants.now)) }
{
    for limits in tenants {
        push_tenant(alloc, text, limits)?;
    }
    Ok(())
}

/// Adds the line of a tenant with limits.
fn push_tenant(alloc: Global, text: &mut Vec<u8>, limits: &TenantLimits) -> Result<(), AllocError>
    ensures { OnOk result (text.new.items ≡ text.old.items ++ (tenant_line (limits_in limits.now) ++ codes "\n")) }
{
    let numbers = Numbers {
        connections: ConnectionLimits {
            most: limits.connections,
            reserved: limits.reserved_connections,
        },
        groups: limits.groups,
        data: limits.data_limits,
    };
    text.extend_from_slice(b"tenant ")?;
    push_quoted(text, &limits.name)?;
    text.extend_from_slice(b": ")?;
    push_numbers(alloc, text, &numbers)?;
    push_own_address(alloc, text, &limits.advertise)?;
    push_line(text, b"")
}

/// Adds what a tenant may have.
fn push_numbers(alloc: Global, text: &mut Vec<u8>, numbers: &Numbers) -> Result<(), AllocError>
    ensures { OnOk result (text.new.items
        ≡ text.old.items ++ numbers_part numbers.now.connections numbers.now.groups numbers.now.data) }
{
    push_groups(alloc, text, numbers.connections, numbers.groups)?;
    push_data(alloc, text, &numbers.data)
}

/// Adds how many connections and groups a tenant may have.
fn push_groups(
    alloc: Global,
    text: &mut Vec<u8>,
    connections: ConnectionLimits,
    groups: GroupLimits,
) -> Result<(), AllocError>
    ensures { OnOk result (text.new.items ≡ text.old.items ++ group_part connections groups) }
{
    let part = group_text(alloc, connections, groups)?;
    text.extend_from_slice(part.as_bytes())
}

/// How many connections and groups a tenant may have.
fn group_text(
    alloc: Global,
    connections: ConnectionLimits,
    groups: GroupLimits,
) -> Result<String, AllocError>
    ensures { IfOk result (λ text. string_bytes text ≡ group_part connections groups) }
{
    let ConnectionLimits { most, reserved } = connections;
    let (groups, bytes) = (groups.groups, groups.bytes);
    format!(in alloc;
        "connections = {most}, reserved_connections = {reserved}, groups = {groups}, group_bytes = {bytes}"
    )
}

/// Adds what a tenant may have, as far as it has limits.
fn push_data(alloc: Global, text: &mut Vec<u8>, limits: &DataLimits) -> Result<(), AllocError>
    ensures { OnOk result (text.new.items ≡ text.old.items ++ data_part limits.now) }
{
    push_part(alloc, text, "topics", limits.topics)?;
    push_part(alloc, text, "partitions", limits.partitions)?;
    push_part(alloc, text, "offsets", Some(limits.offsets))?;
    push_part(alloc, text, "bytes", limits.bytes)?;
    push_part(alloc, text, "fetch_bytes", limits.fetch_bytes)
}

/// Adds one more limit, where there is one.
fn push_part(
    alloc: Global,
    text: &mut Vec<u8>,
    key: &str,
    limit: Option<u64>,
) -> Result<(), AllocError>
    ensures { OnOk result (text.new.items ≡ text.old.items ++ limit_part key.now limit) }
{
    match limit {
        Some(limit) => {
            let part = format!(in alloc; ", {key} = {limit}")?;
            text.extend_from_slice(part.as_bytes())
        }
        None => Ok(()),
    }
}

/// Adds what a tenant's clients are told, where it has an address of its own.
fn push_own_address(
    alloc: Global,
    text: &mut Vec<u8>,
    advertised: &Option<Endpoint>,
) -> Result<(), AllocError>
    ensures { OnOk result (text.new.items ≡ text.old.items ++ own_address_part (option_map host_and_port advertised.now)) }
{
    match advertised {
        Some(told) => {
            text.extend_from_slice(b", advertise = ")?;
            push_quoted(text, &address_text(alloc, &told.host, told.port)?)
        }
        None => Ok(()),
    }
}

/// Adds what each tenant may have that no limits name, where there is one.
fn push_others(alloc: Global, text: &mut Vec<u8>, settings: &Settings) -> Result<(), AllocError>
    ensures { let v = values_of settings.now in
        OnOk result (text.new.items ≡ text.old.items ++ lines_text (others_lines v (told (others v)))) }
{
    let count = others(alloc, settings)?;
    if count == 0 {
        return Ok(());
    }
    push_each_other(alloc, text, settings, count)
}

/// Adds what each of so many tenants may have that no limits name.
fn push_each_other(
    alloc: Global,
    text: &mut Vec<u8>,
    settings: &Settings,
    count: u64,
) -> Result<(), AllocError>
    ensures { OnOk result (text.new.items ≡ text.old.items ++ lines_text (others_line (values_of settings.now) count ∷ [])) }
{
    push_others_part(alloc, text, count)?;
    push_numbers(alloc, text, &numbers_of_others(settings))?;
    push_line(text, b"")
}

/// Adds how many tenants no limits name.
fn push_others_part(alloc: Global, text: &mut Vec<u8>, count: u64) -> Result<(), AllocError>
    ensures { OnOk result (text.new.items ≡ text.old.items ++ others_part count) }
{
    let part = format!(in alloc; "tenants without a table: {count}, each with ")?;
    text.extend_from_slice(part.as_bytes())
}

/// Adds what all users and tenants come to together.
fn push_totals(alloc: Global, text: &mut Vec<u8>, settings: &Settings) -> Result<(), AllocError>
    ensures { OnOk result (text.new.items ≡ text.old.items ++ lines_text (total_lines (values_of settings.now))) }
{
    let (users, tenants) = (settings.users.len(), tenant_count(alloc, settings)?);
    push_members(alloc, text, users, tenants)?;
    push_stored(alloc, text, stored_at_most(alloc, settings)?)?;
    push_fetched(alloc, text, fetched_at_most(alloc, settings)?)?;
    push_sockets(alloc, text, held_at_most(settings))
}

/// Adds how many users and tenants there are.
fn push_members(
    alloc: Global,
    text: &mut Vec<u8>,
    users: usize,
    tenants: usize,
) -> Result<(), AllocError>
    ensures { OnOk result (text.new.items ≡ text.old.items ++ (members_line users tenants ++ codes "\n")) }
{
    let line = format!(in alloc; "users: {users}, tenants: {tenants}")?;
    push_line(text, line.as_bytes())
}

/// Adds what all tenants may store.
fn push_stored(alloc: Global, text: &mut Vec<u8>, stored: Option<u64>) -> Result<(), AllocError>
    ensures { OnOk result (text.new.items ≡ text.old.items ++ (stored_line stored ++ codes "\n")) }
{
    let line = stored_text(alloc, stored)?;
    push_line(text, line.as_bytes())
}

/// Adds what replies of Fetch may take.
fn push_fetched(alloc: Global, text: &mut Vec<u8>, fetched: u64) -> Result<(), AllocError>
    ensures { OnOk result (text.new.items ≡ text.old.items ++ (fetched_line fetched ++ codes "\n")) }
{
    let line = format!(in alloc; "bytes of memory that replies of Fetch may take: {fetched}")?;
    push_line(text, line.as_bytes())
}

/// Adds what sockets may hold.
fn push_sockets(alloc: Global, text: &mut Vec<u8>, held: u64) -> Result<(), AllocError>
    ensures { OnOk result (text.new.items ≡ text.old.items ++ (sockets_line held ++ codes "\n")) }
{
    let line = format!(in alloc;
        "bytes of requests and replies that sockets may hold: {held}, and a request and a reply of each tenant above that"
    )?;
    push_line(text, line.as_bytes())
}

/// What all tenants may store.
fn stored_text(alloc: Global, stored: Option<u64>) -> Result<String, AllocError>
    ensures { IfOk result (λ text. string_bytes text ≡ stored_line stored) }
{
    match stored {
        Some(bytes) => format!(in alloc; "bytes that all tenants may store: {bytes}"),
        None => String::from_str(alloc, "bytes that all tenants may store: no limit"),
    }
}
