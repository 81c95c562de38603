//! Sockets that were closed, as they are told: of tenants that may have no more, and those that kept silent.

ghost use Rattle.std.specs.Prelude.{◌≡◌, ◌++◌, map, string_bytes, IfOk, OnOk};
ghost use Rattle.std.specs.List.{flat_map, list_any};
ghost use Rattle.kb_operator.specs.Logged.{MakesText, MakesTexts};
ghost use Rattle.kb_operator.specs.Refused.{closed_line, closed_lines, closed_with, in_lines, is_none_closed, is_over, over_part};
ghost use Rattle.kb_operator.specs.Refused.{closed_left, with_closed, TellsClosed};

use crate::counts::RefusalCounts;
use crate::journal::parts::{behind, first_of, line_count};
use crate::journal::{Closed, Journal, Tenant};
use crate::lines::{LineLog, push_if, tell_each};
use std::alloc::{AllocError, Global};

impl Closed {
    /// Both together.
    fn with(self, more: Closed) -> Closed
        ensures { result ≡ closed_with self more }
    {
        Closed {
            strangers: self.strangers.saturating_add(more.strangers),
            unread: self.unread.saturating_add(more.unread),
            idle: self.idle.saturating_add(more.idle),
            slow: self.slow.saturating_add(more.slow),
        }
    }

    /// Whether no socket was closed that kept silent.
    fn is_none(self) -> bool
        ensures { result ≡ is_none_closed self }
    {
        self.strangers == 0 && self.unread == 0 && self.idle == 0 && self.slow == 0
    }
}

impl<T: LineLog> Journal<T> {
    /// So many more sockets were closed that kept silent. They are told with the other counts.
    pub fn count_closed(&mut self, closed: Closed)
        ensures { self.new ≡ record self.old { closed = closed_with self.old.closed closed } }
    {
        self.closed = self.closed.with(closed);
    }

    /// How many connections were closed since the last line: of tenants that may have no more, and of those that kept silent. Without
    /// memory for it they wait for a later one.
    pub(super) fn tell_closed<B: RefusalCounts>(&mut self, alloc: Global, now: u64, broker: &B)
        ensures { TellsClosed T.logged now (B.counts broker.now).closed self.old self.new }
    {
        match closed_texts(alloc, &self.tenants, broker, self.closed) {
            Ok(texts) => {
                tell_each(now, texts, &mut self.lines);
                self.closed = closed_left(self.closed, &self.tenants);
                count_as_told(&mut self.tenants, broker);
            }
            Err(e) => self.lines.tell(now, Err(e)),
        }
    }
}

/// What kept silent and is not told of, behind the lines of these tenants.
fn closed_left(closed: Closed, tenants: &[Tenant]) -> Closed
    ensures { result ≡ closed_left closed tenants.now }
{
    if tenants.is_empty() {
        closed
    } else {
        Closed::default()
    }
}

/// How many sockets of tenants were closed, a text for each thirty of them, and how many that kept silent.
fn closed_texts<B: RefusalCounts>(
    alloc: Global,
    tenants: &[Tenant],
    broker: &B,
    closed: Closed,
) -> Result<Vec<String>, AllocError>
    ensures { MakesTexts (closed_lines (B.counts broker.now).closed closed (in_lines tenants.now)) result }
{
    let none = Closed {
        strangers: 0,
        unread: 0,
        idle: 0,
        slow: 0,
    };
    let count = line_count(tenants);
    let (mut rest, mut silent) = (tenants, closed);
    let mut texts = Vec::new(alloc);
    for _line in 0..count {
        push_if(
            &mut texts,
            closed_text(alloc, first_of(rest), broker, silent),
        )?;
        silent = none;
        rest = behind(rest);
    }
    Ok(texts)
}

/// How many sockets of some tenants were closed since the last line, and how many that kept silent, by what they did: none where no socket
/// was.
fn closed_text<B: RefusalCounts>(
    alloc: Global,
    tenants: &[Tenant],
    broker: &B,
    closed: Closed,
) -> Result<Option<String>, AllocError>
    ensures { MakesText (closed_line (B.counts broker.now).closed closed tenants.now) result }
{
    if closed.is_none() && !is_any_over(tenants, broker) {
        return Ok(None);
    }
    let counts = over_text(alloc, tenants, broker)?;
    let Closed {
        strangers,
        unread,
        idle,
        slow,
    } = closed;
    let text = format!(in alloc;
        "connections closed: {counts}{strangers} before a login, {unread} that did not read, {idle} that were idle, \
        {slow} whose request took too long"
    )?;
    Ok(Some(text))
}

/// How many sockets of each of these tenants were closed since the last line.
fn over_text<B: RefusalCounts>(
    alloc: Global,
    tenants: &[Tenant],
    broker: &B,
) -> Result<String, AllocError>
    ensures { IfOk result (λ text. string_bytes text ≡ flat_map (over_part (B.counts broker.now).closed) tenants.now) }
{
    let mut text = String::new(alloc);
    for tenant in tenants {
        push_over(alloc, &mut text, tenant, broker)?;
    }
    Ok(text)
}

/// Adds how many sockets of a tenant were closed since the last line, if any were.
fn push_over<B: RefusalCounts>(
    alloc: Global,
    text: &mut String,
    tenant: &Tenant,
    broker: &B,
) -> Result<(), AllocError>
    ensures { OnOk result (string_bytes text.new ≡ string_bytes text.old ++ over_part (B.counts broker.now).closed tenant.now) }
{
    if !is_over(tenant, broker) {
        return Ok(());
    }
    let grown = broker
        .sockets_of_tenant(tenant.place)
        .saturating_sub(tenant.sockets.told);
    let (name, most) = (tenant.name.as_str(), tenant.connections);
    text.push_str(&format!(in alloc; "{grown} of tenant {name} over its {most}, ")?)
}

/// Whether sockets of one of these tenants were closed since the last line.
fn is_any_over<B: RefusalCounts>(tenants: &[Tenant], broker: &B) -> bool
    ensures { result ≡ list_any (is_over (B.counts broker.now).closed) tenants.now }
{
    for tenant in tenants {
        if is_over(tenant, broker) {
            return true;
        }
    }
    false
}

/// Whether sockets of a tenant were closed since the last line.
fn is_over<B: RefusalCounts>(tenant: &Tenant, broker: &B) -> bool
    ensures { result ≡ is_over (B.counts broker.now).closed tenant.now }
{
    tenant.sockets.told < broker.sockets_of_tenant(tenant.place)
}

/// The sockets of these tenants are told of.
fn count_as_told<B: RefusalCounts>(tenants: &mut [Tenant], broker: &B)
    ensures { tenants.new ≡ map (with_closed (B.counts broker.now).closed) tenants.old }
{
    for tenant in tenants.iter_mut() {
        note_closed(tenant, broker);
    }
}

/// The sockets of a tenant are told of.
fn note_closed<B: RefusalCounts>(tenant: &mut Tenant, broker: &B)
    ensures { tenant.new ≡ with_closed (B.counts broker.now).closed tenant.old }
{
    tenant.sockets.told = broker.sockets_of_tenant(tenant.place);
}
