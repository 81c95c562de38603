//! The latest moment.

/// The latest moment that a broker or a client is told, 2^62: in milliseconds since the beginning of 1970, as the protocol counts time.
/// Any INT32 of milliseconds may be added to it, as a session's length, and the sum is an INT64.
pub const MAX_CLOCK: u64 = 4_611_686_018_427_387_904;
