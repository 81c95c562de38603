//! Whose waiting requests are looked at again.

/// Whose waiting requests are looked at again.
#[derive(Clone, Copy, Debug, PartialEq, Eq)]
pub enum Whom {
    /// Those of a tenant, which changed what it keeps.
    Tenant(usize),
    /// Of all tenants those whose deadline has come.
    Due,
    /// Those of all tenants.
    All,
}
