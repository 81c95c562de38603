//! A host and a port.

ghost use Rattle.std.specs.Prelude.{◌≡◌, ◌≤◌, IsTrue, IfOk, IfSome, false, is_some, option_map, string_bytes};
ghost use Rattle.kb_settings.specs.Address.{is_listened};

use std::alloc::{AllocError, Global};

/// A host and a port that clients are told.
#[derive(Drop)]
pub struct Endpoint {
    /// 1 to 255 bytes, neither `0.0.0.0` nor `::`. An IPv6 address stands without brackets.
    pub host: String,
    /// The port, from 1.
    pub port: u16,
    pub ghost host_fits: { IsTrue (is_listened false (string_bytes host)) },
    pub ghost port_fits: { 1 ≤ port },
}

impl Endpoint {
    ghost use Rattle.kb_settings.specs.Endpoint.{host_and_port};

    /// A copy of a host and a port, where there are some.
    pub fn copied(alloc: Global, told: Option<(&str, u16)>) -> Result<Option<Endpoint>, AllocError>
        requires host { IfSome told (λ e. IsTrue (is_listened false e.0.now)) }
        requires port { IfSome told (λ e. 1 ≤ e.1) }
        ensures says { IfOk result (λ copy. option_map host_and_port copy ≡ option_map (λ e. (e.0.now, e.1)) told.entry) }
        ensures some { IfOk result (λ copy. is_some copy ≡ is_some told.entry) }
    {
        match told {
            Some((host, port)) => Ok(Some(Endpoint {
                host: String::from_str(alloc, host)?,
                port,
            })),
            None => Ok(None),
        }
    }
}
