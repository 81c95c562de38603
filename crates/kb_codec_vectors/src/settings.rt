//! Texts of settings.

use crate::said::Field::{Count, Id, Number, Text};
use crate::said::{Field, Said};
use kb_settings::{Settings, SettingsFault, TenantLimits, User};
use std::alloc::{AllocError, Global};

/// Two users, who are those of the standard settings.
const USERS: &str =
    "[[user]]\nname = \"ann\"\npassword = \"pw1\"\ntenant = \"a\"\n[[user]]\nname = \"bob\"\npassword = \"pw2\"\ntenant = \"b\"\n";

/// A kind is `alone` with a text, `with` for a text before two users, `shows` for one whose settings are said, `tells` for one of
/// which is said what is listened on and what clients are told, `standard`, or `many` users of so many tenants. Whether it is one
/// of these. In a text ` | ` ends a line, and `{64}` is so many letters.
pub fn read(alloc: Global, kind: &str, rest: &str, said: &mut Said) -> Result<bool, AllocError> {
    match kind {
        "alone" => alone(alloc, rest, said)?,
        "with" => with_users(alloc, rest, said)?,
        "shows" => shows(alloc, rest, said)?,
        "tells" => tells(alloc, rest, said)?,
        "standard" => standard(alloc, said)?,
        "many" => many(alloc, rest, said)?,
        "limits" => limits(alloc, rest, said)?,
        "limited" => limited(alloc, rest, said)?,
        "data" => data_limits(alloc, rest, said)?,
        _ => return Ok(false),
    }
    Ok(true)
}

/// Adds the lines of a text.
fn add_lines(lines: &mut String, text: &str) -> Result<(), AllocError> {
    for line in text.split(" | ") {
        add_line(lines, line)?;
        lines.push('\n')?;
    }
    Ok(())
}

/// Adds a line, with so many letters for its `{64}`.
fn add_line(lines: &mut String, line: &str) -> Result<(), AllocError> {
    let Some((front, count, rest)) = around_count(line) else {
        return lines.push_str(line);
    };
    lines.push_str(front)?;
    add_letters(lines, count)?;
    lines.push_str(rest)
}

/// The number in the braces of a line, and what stands before and behind them.
fn around_count(line: &str) -> Option<(&str, u32, &str)> {
    let (front, rest) = line.split_once('{')?;
    let (count, rest) = rest.split_once('}')?;
    Some((front, count.parse::<u32>().ok()?, rest))
}

fn add_letters(lines: &mut String, count: u32) -> Result<(), AllocError> {
    for _ in 0..count {
        lines.push('x')?;
    }
    Ok(())
}

fn alone(alloc: Global, text: &str, said: &mut Said) -> Result<(), AllocError> {
    let mut lines = String::new(alloc);
    add_lines(&mut lines, text)?;
    fault(alloc, &lines, said)
}

fn with_users(alloc: Global, text: &str, said: &mut Said) -> Result<(), AllocError> {
    let mut lines = String::new(alloc);
    add_lines(&mut lines, text)?;
    lines.push_str(USERS)?;
    fault(alloc, &lines, said)
}

/// What a text comes to: `right`, or its fault.
fn fault(alloc: Global, text: &str, said: &mut Said) -> Result<(), AllocError> {
    match Settings::read(alloc, text) {
        Ok(_) => said.line("right"),
        Err(fault) => wrong(alloc, &fault, said),
    }
}

fn wrong(alloc: Global, fault: &SettingsFault, said: &mut Said) -> Result<(), AllocError> {
    let text = format!(in alloc; "{fault}")?;
    said.line(&text)
}

/// The settings of a text before two users.
fn shows(alloc: Global, text: &str, said: &mut Said) -> Result<(), AllocError> {
    let mut lines = String::new(alloc);
    add_lines(&mut lines, text)?;
    lines.push_str(USERS)?;
    match Settings::read(alloc, &lines) {
        Ok(settings) => say(&settings, said),
        Err(fault) => wrong(alloc, &fault, said),
    }
}

/// What is listened on and what clients are told, by a text before two users.
fn tells(alloc: Global, text: &str, said: &mut Said) -> Result<(), AllocError> {
    let mut lines = String::new(alloc);
    add_lines(&mut lines, text)?;
    lines.push_str(USERS)?;
    match Settings::read(alloc, &lines) {
        Ok(settings) => say_addresses(&settings, said),
        Err(fault) => wrong(alloc, &fault, said),
    }
}

fn say_addresses(settings: &Settings, said: &mut Said) -> Result<(), AllocError> {
    let (host, port) = settings.told();
    said.fields(&[
        ("on", Text(settings.host.as_str())),
        ("port", Number(settings.port as i64)),
        ("told", Text(host)),
        ("port", Number(port as i64)),
    ])
}

fn standard(alloc: Global, said: &mut Said) -> Result<(), AllocError> {
    match Settings::standard(alloc) {
        Ok(settings) => say(&settings, said),
        Err(refused) => Err(refused),
    }
}

fn say(settings: &Settings, said: &mut Said) -> Result<(), AllocError> {
    said.fields(&[
        ("host", Text(settings.host.as_str())),
        ("port", Number(settings.port as i64)),
        ("segment_bytes", Number(settings.segment_bytes as i64)),
        ("cache_batches", Number(settings.cache_batches as i64)),
        ("cache_bytes", Number(settings.cache_bytes as i64)),
        ("connections", Number(settings.connections as i64)),
        ("output_bytes", Number(settings.output_bytes as i64)),
        ("sync", Text(settings.sync.name())),
        ("sync_ms", Number(settings.sync_ms as i64)),
        ("login_seconds", Number(settings.login_seconds as i64)),
        ("reply_seconds", Number(settings.reply_seconds as i64)),
        ("strangers", Number(settings.strangers as i64)),
        (
            "request_seconds",
            Number(settings.requests.request_seconds as i64),
        ),
        (
            "idle_seconds",
            Number(settings.requests.idle_seconds as i64),
        ),
        ("input_bytes", Number(settings.requests.input_bytes as i64)),
        (
            "request_bytes",
            Number(settings.requests.request_bytes as i64),
        ),
        ("request_entries", limit(settings.requests.request_entries)),
        ("reply_bytes", limit(settings.requests.reply_bytes)),
        ("stock_clients", Text(yes_or_no(settings.stock_clients))),
        ("logins", Text(yes_or_no(settings.logins))),
        ("data", Text(settings.folder.as_deref().unwrap_or("none"))),
        ("users", Count(settings.users.len())),
    ])?;
    say_users(settings.users.as_slice(), said)?;
    say_limits(settings.tenants.as_slice(), said)
}

fn yes_or_no(flag: bool) -> &'static str {
    if flag { "yes" } else { "no" }
}

/// A number, or `none`.
fn limit(limit: Option<u64>) -> Field<'static> {
    match limit {
        Some(number) => Number(i64::try_from(number).unwrap_or(i64::MAX)),
        None => Text("none"),
    }
}

fn say_limits(tenants: &[TenantLimits], said: &mut Said) -> Result<(), AllocError> {
    for limits in tenants {
        said.fields(&[
            ("limits of", Text(limits.name.as_str())),
            ("connections", Number(limits.connections as i64)),
            (
                "reserved_connections",
                Number(limits.reserved_connections as i64),
            ),
            ("groups", Number(limits.groups.groups as i64)),
            ("group_bytes", Number(limits.groups.bytes as i64)),
        ])?;
    }
    Ok(())
}

fn say_users(users: &[User], said: &mut Said) -> Result<(), AllocError> {
    for user in users {
        said.fields(&[
            ("name", Text(user.name.as_str())),
            ("password", Text(user.password.as_str())),
            ("tenant", Text(user.tenant.as_str())),
        ])?;
    }
    Ok(())
}

/// So many users, `u0`, `u1`, .., of so many tenants.
fn many(alloc: Global, counts: &str, said: &mut Said) -> Result<(), AllocError> {
    let (users, tenants) = counts.split_once(' ').unwrap_or((counts, "1"));
    let users = users.parse::<u32>().unwrap_or(0);
    let tenants = tenants.parse::<u32>().unwrap_or(1);
    let mut text = String::new(alloc);
    add_users(alloc, &mut text, users, tenants)?;
    fault(alloc, &text, said)
}

fn add_users(alloc: Global, text: &mut String, users: u32, tenants: u32) -> Result<(), AllocError> {
    for user in 0..users {
        let tenant = user.checked_rem(tenants).unwrap_or(0);
        add_user(alloc, text, user, tenant)?;
    }
    Ok(())
}

fn add_user(alloc: Global, text: &mut String, user: u32, tenant: u32) -> Result<(), AllocError> {
    let entry = format!(in alloc;
        "[[user]]\nname = \"u{user}\"\npassword = \"p\"\ntenant = \"t{tenant}\"\n"
    )?;
    text.push_str(&entry)
}

/// The limits of tenants, whose names stand in front with commas, by a text before two users.
fn limits(alloc: Global, rest: &str, said: &mut Said) -> Result<(), AllocError> {
    let (names, text) = rest.split_once(' ').unwrap_or((rest, ""));
    let mut lines = String::new(alloc);
    add_lines(&mut lines, text)?;
    lines.push_str(USERS)?;
    match Settings::read(alloc, &lines) {
        Ok(settings) => say_limits_of(&settings, names, said),
        Err(fault) => wrong(alloc, &fault, said),
    }
}

fn say_limits_of(settings: &Settings, names: &str, said: &mut Said) -> Result<(), AllocError> {
    for name in names.split(',') {
        let limits = settings.limits_of(name);
        let groups = settings.groups_of(name);
        said.fields(&[
            ("limits of", Text(name)),
            ("most", Number(limits.most as i64)),
            ("reserved", Number(limits.reserved as i64)),
            ("groups", Number(groups.groups as i64)),
            ("group_bytes", Number(groups.bytes as i64)),
        ])?;
    }
    Ok(())
}

/// What tenants may have, whose names stand in front with commas, and what their clients are told, by a text before two users.
fn data_limits(alloc: Global, rest: &str, said: &mut Said) -> Result<(), AllocError> {
    let (names, text) = rest.split_once(' ').unwrap_or((rest, ""));
    let mut lines = String::new(alloc);
    add_lines(&mut lines, text)?;
    lines.push_str(USERS)?;
    match Settings::read(alloc, &lines) {
        Ok(settings) => say_data_limits(&settings, names, said),
        Err(fault) => wrong(alloc, &fault, said),
    }
}

fn say_data_limits<'a>(
    settings: &'a Settings,
    names: &'a str,
    said: &mut Said,
) -> Result<(), AllocError> {
    said.fields(&[
        ("entries", limit(settings.entries_for(false))),
        ("with stock clients", limit(settings.entries_for(true))),
    ])?;
    said.fields(&[
        ("reply_bytes", limit(settings.reply_bytes_for(false))),
        ("with stock clients", limit(settings.reply_bytes_for(true))),
    ])?;
    for name in names.split(',') {
        let limits = settings.data_of(name);
        let (host, port) = settings.told_to(name);
        said.fields(&[
            ("limits of", Text(name)),
            ("topics", limit(limits.topics)),
            ("partitions", limit(limits.partitions)),
            ("offsets", limit(Some(limits.offsets))),
            ("bytes", limit(limits.bytes)),
            ("fetch_bytes", limit(limits.fetch_bytes)),
            ("told", Text(host)),
            ("port", Number(port as i64)),
        ])?;
    }
    Ok(())
}

/// So many users, each of a tenant of its own, and limits of as many of the tenants as the second number says.
fn limited(alloc: Global, counts: &str, said: &mut Said) -> Result<(), AllocError> {
    let (users, limits) = counts.split_once(' ').unwrap_or((counts, "0"));
    let users = users.parse::<u32>().unwrap_or(0);
    let limits = limits.parse::<u32>().unwrap_or(0);
    let mut text = String::new(alloc);
    add_users(alloc, &mut text, users, users)?;
    add_limits(alloc, &mut text, limits)?;
    fault(alloc, &text, said)
}

fn add_limits(alloc: Global, text: &mut String, limits: u32) -> Result<(), AllocError> {
    for number in 0..limits {
        let entry = format!(in alloc; "[[tenant]]\nname = \"t{number}\"\n")?;
        text.push_str(&entry)?;
    }
    Ok(())
}
