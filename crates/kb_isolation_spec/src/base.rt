//! The version that a tenant is asked in for a request's version.

/// The version that a tenant is asked in for a request's version, whose fields are the same.
#[derive(Clone, Copy, Debug, PartialEq, Eq)]
pub struct Base {
    /// That version.
    pub version: i16,
    /// Whether a throttle time stands in front of the reply's body, which the tenant's answer has not.
    pub is_throttled: bool,
}
