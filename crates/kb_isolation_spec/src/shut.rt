//! Why a connection was shut.

/// Why a connection was shut. Where a request was the reason, with its API's key and its version as they came.
#[derive(Clone, Copy, Debug, PartialEq, Eq)]
pub enum Shut {
    /// A request's size is below that of a header.
    TooShort,
    /// A request's size is above the greatest.
    TooLong,
    /// The API is not served, or not in that version.
    NotServed {
        /// The API's key.
        api_key: i16,
        /// The version.
        api_version: i16,
    },
    /// The request's header or body does not match its version, it names more entries than its tenant may, or its reply's size fits
    /// no INT32.
    Unanswerable {
        /// The API's key.
        api_key: i16,
        /// The version.
        api_version: i16,
    },
    /// A request of a tenant came before the login.
    NotLoggedIn {
        /// The API's key.
        api_key: i16,
        /// The version.
        api_version: i16,
    },
    /// A login named no user with its password.
    Denied,
    /// More bytes came than it had room for.
    Overrun,
    /// Memory was refused.
    Memory,
}
