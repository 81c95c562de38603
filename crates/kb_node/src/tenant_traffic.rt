//! What is counted of tenants' requests: how many by API key, and their bytes and those of their replies.

ghost use Rattle.std.specs.Prelude.{◌≡◌, ◌+◌, ◌-◌, ◌^◌, min, None, replicate};
ghost use Rattle.kb_node.specs.TenantTraffic.{byte_in, key_in, noted_piece, with_one_more, with_traffic};

/// How many API keys are counted, each apart: 0 to 63. All that are served are among them (Kafka protocol guide, "Protocol Api Keys").
pub const API_KEYS: usize = 64;

/// How many bytes of a request there are up to the end of its API key: those of its size come first.
const KEY_END: usize = 6;

/// What was counted of a tenant's connections. A number never falls, and stays once it is the greatest.
#[derive(Clone, Copy, Debug, PartialEq, Eq)]
pub struct TenantTraffic {
    /// How many requests there were, by API key.
    pub requests: [u64; API_KEYS],
    /// How many bytes were read.
    pub request_bytes: u64,
    /// How many bytes were written.
    pub response_bytes: u64,
}

impl TenantTraffic {
    /// Nothing was counted.
    pub fn none() -> TenantTraffic
        ensures { result ≡ record { requests = replicate 64 0; request_bytes = 0; response_bytes = 0 } }
    {
        TenantTraffic {
            requests: [0; API_KEYS],
            request_bytes: 0,
            response_bytes: 0,
        }
    }

    /// A request of an API key was handed on, where there is one, and so many bytes more were read and written.
    pub(crate) fn count(&mut self, key: Option<u16>, read: u64, written: u64)
        ensures { self.new ≡ with_traffic key read written self.old }
    {
        if let Some(key) = key {
            self.count_request(key);
        }
        self.count_bytes(read, written);
    }

    /// There was one more request of an API key. One whose key is 64 or more is not counted.
    pub(crate) fn count_request(&mut self, key: u16)
        ensures { self.new ≡ record self.old { requests = with_one_more key self.old.requests } }
    {
        let place = usize::from(key);
        if place < self.requests.len() {
            self.requests[place] = self.requests[place].saturating_add(1);
        }
    }

    /// So many bytes more were read and written.
    pub(crate) fn count_bytes(&mut self, read: u64, written: u64)
        ensures { self.new ≡ record self.old {
          request_bytes = min (self.old.request_bytes + read) (2 ^ 64 - 1);
          response_bytes = min (self.old.response_bytes + written) (2 ^ 64 - 1);
        } }
    {
        self.request_bytes = self.request_bytes.saturating_add(read);
        self.response_bytes = self.response_bytes.saturating_add(written);
    }
}

/// The front of the request that a socket hands on, up to the end of its API key (Kafka protocol guide, "Request Header").
#[derive(Clone, Copy, Debug, PartialEq, Eq)]
pub struct Heading {
    /// How many of its bytes were handed on, 6 at most.
    seen: usize,
    /// The first byte of its key, once that was handed on.
    high: u8,
    /// The key that was handed on last, until it is taken.
    key: Option<u16>,
}

impl Heading {
    /// Nothing was handed on.
    pub fn new() -> Heading
        ensures { result ≡ record { seen = 0; high = 0; key = None } }
    {
        Heading {
            seen: 0,
            high: 0,
            key: None,
        }
    }

    /// Some of a request is handed on, of which some was handed on before, or not. A login without a request around it has no key.
    pub fn note(&mut self, is_begun: bool, is_bare: bool, piece: &[u8])
        ensures { self.new ≡ noted_piece is_begun is_bare piece.now self.old }
    {
        if is_bare {
            self.seen = KEY_END;
        } else if !is_begun {
            self.seen = 0;
        }
        let found = key_in(self.seen, self.high, piece);
        if found.is_some() {
            self.key = found;
        }
        if let Some(high) = byte_in(4, self.seen, piece) {
            self.high = high;
        }
        self.seen = self.seen.saturating_add(piece.len()).min(KEY_END);
    }

    /// The key that was handed on last, which is taken.
    pub fn take_key(&mut self) -> Option<u16>
        ensures key { result ≡ self.old.key }
        ensures rest { self.new ≡ record self.old { key = None } }
    {
        self.key.take()
    }
}

/// The API key of a request of which so many bytes came before a piece, where its last byte is in the piece. Its first one is in it too,
/// or came before.
pub(crate) fn key_in(seen: usize, high: u8, piece: &[u8]) -> Option<u16>
    ensures { result ≡ key_in seen high piece.now }
{
    let low = byte_in(5, seen, piece)?;
    let high = byte_in(4, seen, piece).unwrap_or(high);
    Some(u16::from_be_bytes([high, low]))
}

/// The byte at a place of a request of which so many came before a piece, where the piece has it.
fn byte_in(place: usize, seen: usize, piece: &[u8]) -> Option<u8>
    ensures { result ≡ byte_in place seen piece.now }
{
    let at = place.checked_sub(seen)?;
    piece.get(at).copied()
}
