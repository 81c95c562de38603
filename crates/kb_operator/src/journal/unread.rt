//! Tenants that wait for those that read their replies, as they are told.

ghost use Rattle.std.specs.Prelude.{◌≡◌, map, string_bytes, IfOk};
ghost use Rattle.kb_operator.specs.Logged.{MakesText, MakesTexts};
ghost use Rattle.kb_operator.specs.Refused.{TellsUnread};
ghost use Rattle.kb_operator.specs.Unread.{with_unread, unread_text, unread_texts, waits_line};

use crate::counts::RefusalCounts;
use crate::journal::{Journal, Tenant};
use crate::lines::{LineLog, push_if, tell_each};
use std::alloc::{AllocError, Global};

impl<T: LineLog> Journal<T> {
    /// Which tenants waited since the last line for those that read their replies: a line for each. Without memory for them they wait for
    /// a later moment.
    pub(super) fn tell_unread<B: RefusalCounts>(&mut self, alloc: Global, now: u64, broker: &B)
        ensures { TellsUnread T.logged now (B.counts broker.now).unread self.old self.new }
    {
        match unread_texts(alloc, &self.tenants, broker) {
            Ok(texts) => {
                tell_each(now, texts, &mut self.lines);
                count_as_told(&mut self.tenants, broker);
            }
            Err(e) => self.lines.tell(now, Err(e)),
        }
    }
}

/// The text of each of these tenants that has one.
fn unread_texts<B: RefusalCounts>(
    alloc: Global,
    tenants: &[Tenant],
    broker: &B,
) -> Result<Vec<String>, AllocError>
    ensures { MakesTexts (unread_texts (B.counts broker.now).unread tenants.now) result }
{
    let mut texts = Vec::new(alloc);
    for tenant in tenants {
        push_if(&mut texts, unread_text(alloc, tenant, broker))?;
    }
    Ok(texts)
}

/// The text of a tenant that waited since the last one: none where it did not.
fn unread_text<B: RefusalCounts>(
    alloc: Global,
    tenant: &Tenant,
    broker: &B,
) -> Result<Option<String>, AllocError>
    ensures { MakesText (unread_text ((B.counts broker.now).unread tenant.now.place) tenant.now) result }
{
    let unread = broker.unread_of_tenant(tenant.place);
    if unread.waits <= tenant.waits.told {
        return Ok(None);
    }
    let line = waits_line(alloc, &tenant.name, unread.bytes)?;
    Ok(Some(line))
}

/// The waits of these tenants are told of.
fn count_as_told<B: RefusalCounts>(tenants: &mut [Tenant], broker: &B)
    ensures { tenants.new ≡ map (with_unread (B.counts broker.now).unread) tenants.old }
{
    for tenant in tenants.iter_mut() {
        note_waits(tenant, broker);
    }
}

/// The waits of a tenant are told of.
fn note_waits<B: RefusalCounts>(tenant: &mut Tenant, broker: &B)
    ensures { tenant.new ≡ with_unread (B.counts broker.now).unread tenant.old }
{
    tenant.waits.told = broker.unread_of_tenant(tenant.place).waits;
}

/// The line of the tenant of a name, of whose replies so many bytes are not read.
fn waits_line(alloc: Global, name: &str, bytes: u64) -> Result<String, AllocError>
    ensures { IfOk result (λ line. string_bytes line ≡ waits_line name.now bytes) }
{
    format!(in alloc; "tenant {name} waits for its readers: {bytes} bytes of replies are not read")
}
