//! What begun requests and idle sockets may take, what a request may have and name, and what its reply may have.

ghost use Rattle.std.specs.Prelude.{◌≤◌, IfSome};
ghost use Rattle.std.proofs.Props.{props};

/// By when a request is whole and a socket is used, how many bytes begun requests take, how many one has, how many entries it names,
/// and how many bytes its reply has.
#[derive(Clone, Copy, Debug, PartialEq, Eq)]
pub struct RequestLimits {
    /// By how many seconds after its first byte a request is whole: 1 to 3,600.
    pub request_seconds: u32,
    /// After how many seconds with no request under way and no wait a socket is closed: 1 to 4,294,967, or 0, which is never.
    pub idle_seconds: u32,
    /// How many bytes the begun requests of all connections take at most: 8,388,608 to 4,294,967,295.
    pub input_bytes: u32,
    /// How many bytes a request may have, its size not among them: 2,097,152 to 104,857,600.
    pub request_bytes: u32,
    /// How many entries a request may name, where it is said: 1,000 to 2,097,152.
    pub request_entries: Option<u64>,
    /// How many bytes a reply may have, where it is said: 1,048,576 to 2,147,483,647.
    pub reply_bytes: Option<u64>,
    pub ghost request_seconds_fit: { (1 ≤ request_seconds) × (request_seconds ≤ 3600) },
    pub ghost idle_seconds_fit: { idle_seconds ≤ 4294967 },
    pub ghost input_bytes_fit: { 8388608 ≤ input_bytes },
    pub ghost request_bytes_fit: { (2097152 ≤ request_bytes) × (request_bytes ≤ 104857600) },
    pub ghost request_entries_fit: { IfSome request_entries (λ n. (1000 ≤ n) × (n ≤ 2097152)) } by { Prim.hlevel props },
    pub ghost reply_bytes_fit: { IfSome reply_bytes (λ n. (1048576 ≤ n) × (n ≤ 2147483647)) } by { Prim.hlevel props },
}
