//! Who logged in on a connection.

ghost use Rattle.std.specs.Prelude.{◌≡◌};
ghost use Rattle.kb_isolation_spec.specs.Names.{kept_name};

use std::marker::Model;

/// The most bytes of a name that are kept.
const NAME_LIMIT: usize = 64;

/// A name in a login that failed: its first 64 bytes, kept in place. A clause sees these bytes.
#[derive(Clone, Copy)]
pub struct Name {
    bytes: [u8; 64],
    len: usize,
}

impl Model for Name {
    ghost use Rattle.std.specs.Prelude.{ℕ, List, length, take};
    ghost use Rattle.kb_isolation_spec.specs.Names.{IsInPlace, in_place, same-bytes, same-length};

    ghost Value = { List ℕ };

    ghost view = { λ n. take n.len n.bytes };

    ghost invariant = { λ n. IsInPlace n.len n.bytes };

    ghost inverse = { λ name. record { bytes = in_place name; len = length name } };

    ghost inverse_ok = { λ n h i. record { bytes = same-bytes n.len n.bytes h i; len = same-length n.len n.bytes h i } };
}

impl Name {
    /// The first 64 bytes of a name.
    pub fn new(name: &[u8]) -> Name
        ensures { result ≡ kept_name name.now }
    {
        let mut bytes = [0; NAME_LIMIT];
        let len = NAME_LIMIT.min(name.len());
        bytes[..len].copy_from_slice(&name[..len]);
        Name { bytes, len }
    }

    /// These bytes.
    pub fn as_slice(&self) -> &[u8]
        ensures { result.now ≡ self.now }
    {
        &self.bytes[..self.len]
    }
}

/// Who logged in on a connection.
#[derive(Clone, Copy)]
pub enum Login {
    /// Nobody has, so far.
    Nobody,
    /// The user at this place in the settings.
    User(usize),
    /// A login failed that had this name; an empty one where PLAIN's message could not be read.
    Failed(Name),
}

/// A user whose name and password are right: its place in the settings, and that of its tenant.
#[derive(Clone, Copy, Debug, PartialEq, Eq)]
pub struct Known {
    /// The user's place in the settings.
    pub user: usize,
    /// The place of its tenant.
    pub tenant: usize,
}
