//! How far a consumer is with its connection.

ghost use Rattle.std.specs.Prelude.{◌≡◌};
ghost use Rattle.kb_client.specs.Consumer.{fault_at, restarted, handshaken, logged_in, at_end, wanting, correlation, has_request};

use crate::fault::ClientFault;
use crate::stage::Ending;
use kb_wire::{ErrorCode, WireFault};

/// The request of a consumer whose turn it is on a connection.
#[derive(Clone, Copy, Debug, PartialEq, Eq)]
pub enum Fetching {
    /// There was no connection yet.
    Closed,
    /// SaslHandshake.
    Handshake,
    /// SaslAuthenticate.
    Authenticate,
    /// Fetch.
    Fetch,
    /// None: each line that was asked for was found.
    Finished,
    /// None: it ended.
    Ended(Ending),
}

impl Fetching {
    /// The fault that it ended with.
    pub fn fault(self) -> Option<ClientFault>
        ensures { result ≡ fault_at self }
    {
        match self {
            Fetching::Ended(ending) => Some(ending.fault()),
            Fetching::Closed
            | Fetching::Handshake
            | Fetching::Authenticate
            | Fetching::Fetch
            | Fetching::Finished => None,
        }
    }

    /// What it is on a new connection.
    pub fn restarted(self) -> Fetching
        ensures { result ≡ restarted self }
    {
        match self {
            Fetching::Ended(_) | Fetching::Finished => self,
            Fetching::Closed | Fetching::Handshake | Fetching::Authenticate | Fetching::Fetch =>
                Fetching::Handshake,
        }
    }

    /// Whether it has a request.
    pub fn has_request(self) -> bool
        ensures { result ≡ has_request self }
    {
        match self {
            Fetching::Handshake | Fetching::Authenticate | Fetching::Fetch => true,
            Fetching::Closed | Fetching::Finished | Fetching::Ended(_) => false,
        }
    }

    /// The correlation id of its request.
    pub fn correlation(self) -> i32
        ensures { result ≡ correlation self }
    {
        match self {
            Fetching::Handshake => 1,
            Fetching::Authenticate => 2,
            Fetching::Fetch => 3,
            Fetching::Closed | Fetching::Finished | Fetching::Ended(_) => 0,
        }
    }

    /// What comes once the mechanism was taken, or not.
    pub fn handshaken(code: Result<i16, WireFault>) -> Fetching
        ensures { result ≡ handshaken code }
    {
        match code {
            Err(_) => Fetching::Ended(Ending::Protocol),
            Ok(0) => Fetching::Authenticate,
            Ok(code) => Fetching::Ended(Ending::Code(code)),
        }
    }

    /// What comes once the login was taken, or not.
    pub fn logged_in(code: Result<i16, WireFault>) -> Fetching
        ensures { result ≡ logged_in code }
    {
        match code {
            Err(_) => Fetching::Ended(Ending::Protocol),
            Ok(0) => Fetching::Fetch,
            Ok(code) if code == ErrorCode::SaslAuthenticationFailed.code() => {
                Fetching::Ended(Ending::Denied)
            }
            Ok(code) => Fetching::Ended(Ending::Code(code)),
        }
    }

    /// What comes where no record is left.
    pub fn at_end(follow: bool) -> Fetching
        ensures { result ≡ at_end follow }
    {
        if follow {
            Fetching::Fetch
        } else {
            Fetching::Finished
        }
    }

    /// The same while lines are wanted.
    pub fn wanting(self, wanted: Option<u64>) -> Fetching
        ensures { result ≡ wanting wanted self }
    {
        match wanted {
            Some(0) => Fetching::Finished,
            None | Some(_) => self,
        }
    }
}
