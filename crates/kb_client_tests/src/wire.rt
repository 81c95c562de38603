//! A broker, and the one connection to it that a client has at a time.

ghost use Rattle.std.specs.Prelude.{◌≤◌, length, string_bytes, IfOk};

use kb_broker::{Broker, Listing, Settings};
use kb_client::{ClientFault, Login};
use kb_store::MemoryStore;
use std::alloc::{AllocError, Global};
use std::process::Abort;
use std::test::Fail;

/// A broker of the standard settings, and a connection to it.
#[derive(Drop)]
pub(crate) struct Wire {
    alloc: Global,
    broker: Broker<MemoryStore>,
    number: u64,
}

impl Wire {
    /// A new broker with no connection.
    pub(crate) fn new(alloc: Global) -> Result<Wire, AllocError> {
        let settings = Settings::standard(alloc)?;
        let store = MemoryStore::new(alloc);
        match Broker::open_listing(alloc, &settings, Listing::Served, store) {
            Ok(opened) => Ok(Wire {
                alloc,
                broker: opened.broker,
                number: 0,
            }),
            Err(_) => Err(AllocError),
        }
    }

    /// The connection ends, and what is on its way is lost. Another one begins.
    pub(crate) fn renew(&mut self, rt: &impl Abort) -> Result<(), AllocError> {
        let _ = self.broker.disconnect(self.alloc, self.number);
        assert!(rt; self.broker.last_connection() < 1_000_000);
        self.number = self.broker.last_connection() + 1;
        self.broker.connect(self.alloc, self.number)
    }

    /// Bytes come to the broker, and what it answers comes back.
    pub(crate) fn pass(&mut self, bytes: &[u8]) -> Vec<u8> {
        self.broker.input(self.alloc, self.number, bytes);
        self.broker.take_output(self.alloc, self.number)
    }
}

/// Where a connection ends: once so many more bytes have come, or nowhere.
#[derive(Clone, Copy)]
pub(crate) struct Cut {
    left: Option<usize>,
}

impl Cut {
    /// After so many bytes.
    pub(crate) fn after(bytes: usize) -> Cut {
        Cut { left: Some(bytes) }
    }

    /// Nowhere.
    pub(crate) fn nowhere() -> Cut {
        Cut { left: None }
    }

    /// Bytes are on their way: those behind the end of the connection are lost. Whether it ends among them.
    pub(crate) fn shorten(&mut self, bytes: &mut Vec<u8>) -> bool {
        let Some(left) = self.left else {
            return false;
        };
        self.left = left.checked_sub(bytes.len());
        let ends = left <= bytes.len();
        if ends {
            bytes.truncate(left);
            self.left = None;
        }
        ends
    }

    /// Whether there is no end to come.
    pub(crate) fn is_past(&self) -> bool {
        self.left.is_none()
    }
}

/// A text of at most 255 bytes.
pub(crate) fn short(rt: &impl Abort, alloc: Global, text: &str) -> Result<String, AllocError>
    ensures { IfOk result (λ s. length (string_bytes s) ≤ 255) }
{
    assert!(rt; text.len() <= 255);
    String::from_str(alloc, text)
}

/// The login of `ann`.
pub(crate) fn login_of_ann(rt: &impl Abort, alloc: Global) -> Result<Login, AllocError>
    ensures user { IfOk result (λ login. length (string_bytes login.user) ≤ 255) }
    ensures password { IfOk result (λ login. length (string_bytes login.password) ≤ 255) }
{
    Ok(Login {
        user: short(rt, alloc, "ann")?,
        password: short(rt, alloc, "pw1")?,
    })
}

/// A fault of a client that a test does not expect.
pub(crate) fn unexpected(rt: &impl Abort, fault: ClientFault) -> Fail {
    match fault {
        ClientFault::Memory => Fail::from(AllocError),
        fault => panic!(rt; "{fault}"),
    }
}
