//! Connections that the broker shut, as they are told: of each second the first 16, and then how many more there were.

ghost use Rattle.std.specs.Prelude.{◌≡◌, codes, option_map, string_bytes, IfOk};
ghost use Rattle.kb_operator.specs.Bucket.{told_of, with_more};
ghost use Rattle.kb_operator.specs.Logged.{TellsTexts, bytes_or_none};
ghost use Rattle.kb_operator.specs.Logins.{due_lines, name_at, shut_line, TellsShut};

use crate::journal::logins::tell_more;
use crate::journal::{Journal, Tenant};
use crate::lines::LineLog;
use std::alloc::{AllocError, Global};
use std::net::SocketAddr;

impl<T: LineLog> Journal<T> {
    /// A connection that the broker shut in a second: from an address, of the tenant at a place where it had logged in, and why.
    pub fn tell_shut(
        &mut self,
        alloc: Global,
        now: u64,
        second: u64,
        address: SocketAddr,
        tenant: Option<usize>,
        cause: Result<String, AllocError>,
    )
        ensures { TellsShut T.logged now second address tenant cause self.old self.new }
    {
        if self.is_quiet {
            return;
        }
        self.tell_more_shut(alloc, now, second);
        if !self.shut.takes(second) {
            return;
        }
        let text = shut_text(alloc, address, name_at(&self.tenants, tenant), cause);
        self.lines.tell(now, text);
    }

    /// So many connections were shut beside those. They are told of when their second is over.
    pub fn count_shut(&mut self, more: u64)
        ensures { self.new ≡ record self.old { shut = with_more more self.old.shut } }
    {
        self.shut.pass(more);
    }

    /// How many connections were shut in seconds before beside those that were told, if any were.
    pub(super) fn tell_more_shut(&mut self, alloc: Global, now: u64, second: u64)
        ensures told { TellsTexts now (due_lines (codes "closed others: ") second self.old.shut)
            (T.logged self.old.lines) (T.logged self.new.lines) }
        ensures others { self.new ≡ record self.old { shut = told_of second self.old.shut; lines = self.new.lines } }
    {
        let (bucket, lines) = (&mut self.shut, &mut self.lines);
        tell_more(alloc, now, second, "closed others: ", bucket, lines);
    }
}

/// The name of the tenant at a place, where there is one.
fn name_at(tenants: &[Tenant], place: Option<usize>) -> Option<&str>
    ensures { option_map (λ name. name.now) result ≡ name_at tenants.now place }
{
    let tenant = tenants.get(place?)?;
    Some(tenant.name.as_str())
}

/// A connection that the broker shut.
fn shut_text(
    alloc: Global,
    address: SocketAddr,
    tenant: Option<&str>,
    cause: Result<String, AllocError>,
) -> Result<String, AllocError>
    ensures { IfOk result (λ line. string_bytes line
        ≡ shut_line address (option_map (λ name. name.now) tenant.entry) (bytes_or_none cause)) }
{
    let cause = cause?;
    match tenant {
        Some(name) => format!(in alloc; "closed {address} of tenant {name}: {cause}"),
        None => format!(in alloc; "closed {address}: {cause}"),
    }
}
