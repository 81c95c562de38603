//! Logins, as they are told: of each second the first 16 that were right and the first 16 that failed, and then how many more there were.

ghost use Rattle.std.specs.Prelude.{◌≡◌, codes, string_bytes, IfOk};
ghost use Rattle.kb_operator.specs.Bucket.{told_of, with_more};
ghost use Rattle.kb_operator.specs.Known.{known_account};
ghost use Rattle.kb_operator.specs.Logged.{TellsTexts};
ghost use Rattle.kb_operator.specs.Logins.{due_lines, failed_line, login_line, shown, with_more_logins, TellsFailed, TellsLogin};

use crate::bucket::Bucket;
use crate::journal::{Account, Journal};
use crate::lines::LineLog;
use std::alloc::{AllocError, Global};
use std::net::SocketAddr;

impl<T: LineLog> Journal<T> {
    /// The user at a place of the settings logged in, in a second and from an address.
    pub fn tell_login(
        &mut self,
        alloc: Global,
        now: u64,
        second: u64,
        address: SocketAddr,
        place: usize,
    )
        ensures { TellsLogin T.logged now second address place self.old self.new }
    {
        if self.is_quiet {
            return;
        }
        self.tell_more_logins(alloc, now, second);
        let Some(user) = self.users.get(place) else {
            return;
        };
        if !self.logins.takes(second) {
            return;
        }
        self.lines.tell(now, login_text(alloc, address, user));
    }

    /// So many logins were right beside those. They are told of when their second is over.
    pub fn count_logins(&mut self, more: u64)
        ensures { self.new ≡ with_more_logins more self.old }
    {
        if !self.users.is_empty() {
            self.logins.pass(more);
        }
    }

    /// A login that failed in a second, from an address and with a name, where it had one.
    pub fn tell_failed(
        &mut self,
        alloc: Global,
        now: u64,
        second: u64,
        address: SocketAddr,
        name: &[u8],
    )
        ensures { TellsFailed T.logged now second address name.now self.old self.new }
    {
        if self.is_quiet {
            return;
        }
        self.tell_more_failed(alloc, now, second);
        if !self.failed.takes(second) {
            return;
        }
        self.lines.tell(now, failed_text(alloc, address, name));
    }

    /// So many logins failed beside those. They are told of when their second is over.
    pub fn count_failed(&mut self, more: u64)
        ensures { self.new ≡ record self.old { failed = with_more more self.old.failed } }
    {
        self.failed.pass(more);
    }

    /// How many logins were right in seconds before beside those that were told, if any were.
    pub(super) fn tell_more_logins(&mut self, alloc: Global, now: u64, second: u64)
        ensures told { TellsTexts now (due_lines (codes "login of others: ") second self.old.logins)
            (T.logged self.old.lines) (T.logged self.new.lines) }
        ensures others { self.new ≡ record self.old { logins = told_of second self.old.logins; lines = self.new.lines } }
    {
        let (bucket, lines) = (&mut self.logins, &mut self.lines);
        tell_more(alloc, now, second, "login of others: ", bucket, lines);
    }

    /// How many logins failed in seconds before beside those that were told, if any did.
    pub(super) fn tell_more_failed(&mut self, alloc: Global, now: u64, second: u64)
        ensures told { TellsTexts now (due_lines (codes "login failed from others: ") second self.old.failed)
            (T.logged self.old.lines) (T.logged self.new.lines) }
        ensures others { self.new ≡ record self.old { failed = told_of second self.old.failed; lines = self.new.lines } }
    {
        let (bucket, lines) = (&mut self.failed, &mut self.lines);
        tell_more(
            alloc,
            now,
            second,
            "login failed from others: ",
            bucket,
            lines,
        );
    }
}

/// How many lines were passed over in seconds before, behind words, if any were.
pub(super) fn tell_more<T: LineLog>(
    alloc: Global,
    now: u64,
    second: u64,
    words: &str,
    bucket: &mut Bucket,
    lines: &mut T,
)
    ensures told { TellsTexts now (due_lines words.now second bucket.old) (T.logged lines.old) (T.logged lines.new) }
    ensures bucket { bucket.new ≡ told_of second bucket.old }
{
    let more = bucket.due(second);
    if more == 0 {
        return;
    }
    lines.tell(now, format!(in alloc; "{words}{more}"));
}

/// A login that was right.
fn login_text(alloc: Global, address: SocketAddr, user: &Account) -> Result<String, AllocError>
    ensures { IfOk result (λ line. string_bytes line ≡ login_line address (known_account user.now)) }
{
    let name = shown(alloc, user.name.as_bytes())?;
    let tenant = user.tenant.as_str();
    format!(in alloc; "login of {name} from {address}, tenant {tenant}")
}

/// A login that failed.
fn failed_text(alloc: Global, address: SocketAddr, name: &[u8]) -> Result<String, AllocError>
    ensures { IfOk result (λ line. string_bytes line ≡ failed_line address name.now) }
{
    if name.is_empty() {
        return format!(in alloc; "login failed from {address}");
    }
    let name = shown(alloc, name)?;
    format!(in alloc; "login failed from {address} as {name}")
}

/// A name as it is told, with a question mark for each byte that is no printable ASCII.
fn shown(alloc: Global, name: &[u8]) -> Result<String, AllocError>
    ensures { IfOk result (λ text. string_bytes text ≡ shown name.now) }
{
    let mut text = String::new(alloc);
    for byte in name {
        text.push(if byte.is_ascii_graphic() {
            *byte as char
        } else {
            '?'
        })?;
    }
    Ok(text)
}
