//! The users of a settings document.

ghost use Rattle.std.specs.Prelude.{◌≡◌, ◌≤◌, IfOk, IfSome, IsTrue, length, map, option_map, option_and_then, codes, string_bytes};
ghost use Rattle.toml.specs.Data.{get_member};
ghost use Rattle.toml.specs.View.{view, items_view, table_view};
ghost use Rattle.kb_settings.specs.Settings.{are_different};
ghost use Rattle.kb_settings.specs.Names.{in_order};
ghost use Rattle.kb_settings.specs.Values.{account_of};
ghost use Rattle.kb_settings.specs.Document.{account_in, accounts_in, are_users, users_in};

use crate::document::{at, credential, other_key, tenant};
use crate::names::{tenant_names, user_names};
use crate::settings::User;
use std::alloc::{AllocError, Global};
use toml::{Table, Value};

/// The keys of an entry of `user`.
const KEYS: [&str; 3] = ["name", "password", "tenant"];

/// The users of a document, unless something is wrong with them.
pub fn users(alloc: Global, document: &Table) -> Result<Option<Vec<User>>, AllocError>
    ensures says { IfOk result (λ users. option_map (λ us. map account_of us.items) users
        ≡ option_and_then users_in (get_member (codes "user") (table_view document.now))) }
    ensures count { IfOk result (λ users. IfSome users (λ us. (1 ≤ length us.items) × (length us.items ≤ 1000))) }
    ensures names { IfOk result (λ users. IfSome users (λ us. IsTrue (are_different (map (λ u. string_bytes u.name) us.items)))) }
    ensures tenants { IfOk result (λ users. IfSome users (λ us. length (in_order (map (λ u. string_bytes u.tenant) us.items)) ≤ 256)) }
{
    let Some(Value::Array(entries)) = at(document, "user") else {
        return Ok(None);
    };
    let Some(users) = all_users(alloc, entries)? else {
        return Ok(None);
    };
    if are_users(alloc, &users)? {
        Ok(Some(users))
    } else {
        Ok(None)
    }
}

/// The users of all entries, unless one is wrong.
fn all_users(alloc: Global, entries: &[Value]) -> Result<Option<Vec<User>>, AllocError>
    ensures { IfOk result (λ users. option_map (λ us. map account_of us.items) users ≡ accounts_in (items_view entries.now)) }
{
    let mut users = Vec::new(alloc);
    'entries: for entry in entries {
        let Some(user) = user_in(alloc, entry)? else {
            return Ok(None);
        };
        users.push(user)?;
    }
    Ok(Some(users))
}

/// The user of an entry, unless something is wrong with it.
fn user_in(alloc: Global, entry: &Value) -> Result<Option<User>, AllocError>
    ensures { IfOk result (λ user. option_map account_of user ≡ account_in (view entry.now)) }
{
    let Value::Table(entry) = entry else {
        return Ok(None);
    };
    let Some(name) = credential(entry, "name") else {
        return Ok(None);
    };
    let Some(password) = credential(entry, "password") else {
        return Ok(None);
    };
    let Some(tenant) = tenant(entry, "tenant") else {
        return Ok(None);
    };
    if other_key(entry, &KEYS).is_some() {
        return Ok(None);
    }
    Ok(Some(User::new(alloc, name, password, tenant)?))
}

/// Whether these are 1 to 1,000 users, no two of one name, of at most 256 different tenants.
fn are_users(alloc: Global, users: &[User]) -> Result<bool, AllocError>
    ensures { IfOk result (λ are. are ≡ are_users (map account_of users.now)) }
{
    if users.is_empty() || users.len() > 1000 {
        return Ok(false);
    }
    if user_names(alloc, users)?.len() != users.len() {
        return Ok(false);
    }
    Ok(tenant_names(alloc, users)?.len() <= 256)
}
