//! What of a request is kept for its reply.

/// What of a request is kept for its reply.
#[derive(Clone, Copy, Debug, PartialEq, Eq)]
pub struct Head {
    /// The request's number, which the reply begins with (Kafka protocol guide, "Response Header").
    pub correlation_id: i32,
    /// Whether a throttle time stands in front of the reply's body, which the tenant's answer has not.
    pub is_throttled: bool,
    /// The API's key, as it came.
    pub api_key: i16,
    /// The version, as it came.
    pub api_version: i16,
}
