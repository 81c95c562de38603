//! A connection to a broker, made anew where it ends.

ghost use Rattle.std.specs.Prelude.{◌≡◌, ◌≤◌, ◌+◌, ◌++◌, length, codes, decimal, string_bytes, IfOk};

use crate::fault::Fault;
use std::alloc::{AllocError, Global};
use std::io::{Read, Write};
use std::net::TcpStream;
use std::thread;
use std::time::Duration;

/// How long it waits before it tries again where there is no broker, in milliseconds.
const PAUSE_MS: u64 = 200;

/// How long it waits for bytes, in seconds. A broker that is silent for longer is taken for one that is gone.
const PATIENCE_S: u64 = 30;

/// A connection to a broker, or none.
#[derive(Drop)]
pub struct Link {
    address: String,
    stream: Option<TcpStream>,
    /// How often a connection may still be tried.
    tries: u64,
}

impl Link {
    /// No connection yet to a broker's address, with so many tries after the first.
    pub fn new(alloc: Global, host: &str, port: u16, retries: u32) -> Result<Link, AllocError>
        ensures address { IfOk result (λ link. string_bytes link.address ≡ host.now ++ codes ":" ++ decimal port) }
        ensures tries { IfOk result (λ link. link.tries ≡ retries + 1) }
    {
        let address = format!(in alloc; "{host}:{port}")?;
        Ok(Link {
            address,
            stream: None,
            tries: u64::from(retries) + 1,
        })
    }

    /// Connects where there is no connection. `true`: there was none.
    pub fn connect(&mut self, rt: &HostRuntime) -> Result<bool, Fault> {
        if self.stream.is_some() {
            return Ok(false);
        }
        for _ in 0..self.tries {
            self.tries = self.tries.saturating_sub(1);
            if let Ok(stream) = TcpStream::connect(rt, self.address.as_str()) {
                let _ = stream.set_nodelay(true);
                let _ = stream.set_read_timeout(Some(Duration::from_secs(PATIENCE_S)));
                self.stream = Some(stream);
                return Ok(true);
            }
            if self.tries > 0 {
                let _ = thread::sleep(rt, Duration::from_millis(PAUSE_MS));
            }
        }
        let address = String::from_str(rt.alloc(), &self.address)?;
        Err(Fault::Connect(address))
    }

    /// Sends bytes. `false`: the connection ended.
    pub fn send(&mut self, bytes: &[u8]) -> bool {
        let Some(stream) = &mut self.stream else {
            return false;
        };
        let sent = stream.write_all(bytes).is_ok();
        if !sent {
            self.stream = None;
        }
        sent
    }

    /// Waits for bytes, and puts them in front of the buffer. 0: the connection ended, or nothing came.
    pub fn receive(&mut self, buffer: &mut [u8]) -> usize
        ensures { result ≤ length buffer.new }
    {
        let Some(stream) = &mut self.stream else {
            return 0;
        };
        match stream.read(buffer) {
            Ok(n) if n > 0 => n,
            Ok(_) | Err(_) => {
                self.stream = None;
                0
            }
        }
    }
}
