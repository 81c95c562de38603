//! Requests that the broker refused, as they are told.

ghost use Rattle.std.specs.Prelude.{◌≡◌, ◌-◌, ◌++◌, map, string_bytes, IfOk, OnOk};
ghost use Rattle.std.specs.List.{flat_map, list_any};
ghost use Rattle.kb_operator.specs.Logged.{MakesText, MakesTexts};
ghost use Rattle.kb_operator.specs.Refused.{by_disk_part, disk_part, has_grown, in_lines, of_all, refused_line, refused_lines};
ghost use Rattle.kb_operator.specs.Refused.{refused_part, with_refused, TellsRefusals, TellsRefused};

use crate::counts::RefusalCounts;
use crate::journal::parts::{TENANTS, behind, first_of, line_count};
use crate::journal::{Journal, Tenant};
use crate::lines::{LineLog, push_if, tell_each};
use std::alloc::{AllocError, Global};

/// What lines say of refusals beside those of each tenant.
#[derive(Clone, Copy)]
struct Others<'a> {
    /// How many requests were refused before a login.
    unbound: u64,
    /// How many calls the disk refused, of all tenants together.
    disk: u64,
    /// Words behind that, where it is of more tenants than those of the line.
    whose: &'a str,
}

impl<T: LineLog> Journal<T> {
    /// How many requests were refused since the last line, by tenant and by cause, and how many calls of the store among that. Without
    /// memory for it they wait for a later one.
    pub fn tell_refusals<B: RefusalCounts>(&mut self, alloc: Global, now: u64, broker: &B)
        ensures { TellsRefusals T.logged now (B.counts broker.now) self.old self.new }
    {
        if self.is_quiet || broker.is_calm() {
            return;
        }
        self.tell_refused(alloc, now, broker);
    }

    /// The same of a journal that tells what it is told, and of a broker that refused something.
    fn tell_refused<B: RefusalCounts>(&mut self, alloc: Global, now: u64, broker: &B)
        ensures { TellsRefused T.logged now (B.counts broker.now) self.old self.new }
    {
        let others = self.others(broker);
        match refused_texts(alloc, &self.tenants, broker, others) {
            Ok(texts) => {
                tell_each(now, texts, &mut self.lines);
                self.unbound.told = broker.before_login();
                self.disk.told = broker.of_disk();
                count_as_told(&mut self.tenants, broker);
            }
            Err(e) => self.lines.tell(now, Err(e)),
        }
    }

    /// What lines say beside the refusals of each tenant.
    fn others<B: RefusalCounts>(&self, broker: &B) -> Others<'static>
        ensures unbound { result.unbound ≡ (B.counts broker.now).unbound - self.now.unbound.told }
        ensures disk { result.disk ≡ (B.counts broker.now).disk - self.now.disk.told }
        ensures whose { result.whose.now ≡ of_all self.now.tenants.items }
    {
        Others {
            unbound: broker.before_login().saturating_sub(self.unbound.told),
            disk: broker.of_disk().saturating_sub(self.disk.told),
            whose: of_all(&self.tenants),
        }
    }
}

/// Whose the calls are that the disk refused: of which tenants they were is not known, so each line tells those of all.
fn of_all(tenants: &[Tenant]) -> &'static str
    ensures { result.now ≡ of_all tenants.now }
{
    if tenants.len() > TENANTS {
        " of all tenants"
    } else {
        ""
    }
}

/// How many requests of tenants were refused, a text for each thirty of them. What was refused before a login stands in the first.
fn refused_texts<B: RefusalCounts>(
    alloc: Global,
    tenants: &[Tenant],
    broker: &B,
    others: Others<'_>,
) -> Result<Vec<String>, AllocError>
    ensures { MakesTexts (refused_lines (B.counts broker.now).refused others.entry.unbound others.entry.disk others.entry.whose.now
        (in_lines tenants.now)) result }
{
    let count = line_count(tenants);
    let (mut rest, mut unbound) = (tenants, others.unbound);
    let mut texts = Vec::new(alloc);
    for _line in 0..count {
        let beside = Others { unbound, ..others };
        push_if(
            &mut texts,
            refusals_text(alloc, first_of(rest), broker, beside),
        )?;
        unbound = 0;
        rest = behind(rest);
    }
    Ok(texts)
}

/// How many requests of some tenants were refused since the last line, and how many before a login: none where no request was. Behind
/// them stands how many calls the disk refused.
fn refusals_text<B: RefusalCounts>(
    alloc: Global,
    tenants: &[Tenant],
    broker: &B,
    others: Others<'_>,
) -> Result<Option<String>, AllocError>
    ensures { MakesText (refused_line (B.counts broker.now).refused others.entry.unbound others.entry.disk others.entry.whose.now
        tenants.now) result }
{
    let Others {
        unbound,
        disk,
        whose,
    } = others;
    if unbound == 0 && !has_any_grown(tenants, broker) {
        return Ok(None);
    }
    let counts = refused_text(alloc, tenants, broker)?;
    let by_disk = by_disk_text(alloc, disk, whose)?;
    let text = format!(in alloc; "refusals: before a login {unbound}{counts}{by_disk}")?;
    Ok(Some(text))
}

/// How many calls the disk refused, and whose they are, if there are any.
fn by_disk_text(alloc: Global, disk: u64, whose: &str) -> Result<String, AllocError>
    ensures { IfOk result (λ text. string_bytes text ≡ by_disk_part disk whose.now) }
{
    if disk == 0 {
        return Ok(String::new(alloc));
    }
    format!(in alloc; "; by the disk {disk}{whose}")
}

/// How many requests of each of these tenants were refused since the last line.
fn refused_text<B: RefusalCounts>(
    alloc: Global,
    tenants: &[Tenant],
    broker: &B,
) -> Result<String, AllocError>
    ensures { IfOk result (λ text. string_bytes text ≡ flat_map (refused_part (B.counts broker.now).refused) tenants.now) }
{
    let mut text = String::new(alloc);
    for tenant in tenants {
        push_refused(alloc, &mut text, tenant, broker)?;
    }
    Ok(text)
}

/// Adds how many requests of a tenant were refused since the last line, where there were some, and how many of them by the disk. The
/// others were refused for want of memory.
fn push_refused<B: RefusalCounts>(
    alloc: Global,
    text: &mut String,
    tenant: &Tenant,
    broker: &B,
) -> Result<(), AllocError>
    ensures { OnOk result (string_bytes text.new ≡ string_bytes text.old ++ refused_part (B.counts broker.now).refused tenant.now) }
{
    if !has_grown(tenant, broker) {
        return Ok(());
    }
    let refused = broker.of_tenant(tenant.place);
    let all = refused.all.saturating_sub(tenant.refusals.told);
    let by_disk = disk_text(alloc, refused.by_disk.saturating_sub(tenant.by_disk.told))?;
    let name = tenant.name.as_str();
    text.push_str(&format!(in alloc; ", tenant {name} {all}{by_disk}")?)
}

/// How many requests of a tenant the disk refused, if any.
fn disk_text(alloc: Global, count: u64) -> Result<String, AllocError>
    ensures { IfOk result (λ text. string_bytes text ≡ disk_part count) }
{
    if count == 0 {
        return Ok(String::new(alloc));
    }
    format!(in alloc; " ({count} by the disk)")
}

/// Whether requests of one of these tenants were refused since the last line.
fn has_any_grown<B: RefusalCounts>(tenants: &[Tenant], broker: &B) -> bool
    ensures { result ≡ list_any (has_grown (B.counts broker.now).refused) tenants.now }
{
    for tenant in tenants {
        if has_grown(tenant, broker) {
            return true;
        }
    }
    false
}

/// Whether requests of a tenant were refused since the last line.
fn has_grown<B: RefusalCounts>(tenant: &Tenant, broker: &B) -> bool
    ensures { result ≡ has_grown (B.counts broker.now).refused tenant.now }
{
    tenant.refusals.told < broker.of_tenant(tenant.place).all
}

/// The refusals of these tenants are told of.
fn count_as_told<B: RefusalCounts>(tenants: &mut [Tenant], broker: &B)
    ensures { tenants.new ≡ map (with_refused (B.counts broker.now).refused) tenants.old }
{
    for tenant in tenants.iter_mut() {
        note_refused(tenant, broker);
    }
}

/// The refusals of a tenant are told of.
fn note_refused<B: RefusalCounts>(tenant: &mut Tenant, broker: &B)
    ensures { tenant.new ≡ with_refused (B.counts broker.now).refused tenant.old }
{
    let refused = broker.of_tenant(tenant.place);
    if tenant.refusals.grown(refused.all) > 0 {
        tenant.by_disk.told = refused.by_disk;
    }
}
