//! Where a tenant's clients are told to connect to, and what it may have.

ghost use Rattle.std.specs.Prelude.{◌≡◌, string_bytes};
ghost use Rattle.kb_wire.specs.Codec.{string};

use kb_tenant::{DataLimits, Node};
use kb_wire::Text;
use std::marker::Model;

/// Where a tenant's clients are told to connect to, and what the tenant may have. The host fits a reply.
#[derive(Drop)]
pub struct TenantNode {
    host: String,
    port: u16,
    limits: DataLimits,
}

impl Model for TenantNode {
    ghost use Rattle.std.specs.Prelude.{string_bytes};
    ghost use Rattle.kb_wire.specs.Codec.{string};
    ghost use Rattle.kb_tenant.specs.declared.node.Node.{Node};

    ghost Value = { Node };

    ghost view = { λ n. record { host = string_bytes n.host; port = n.port; limits = n.limits } };

    ghost invariant = { λ n. string.Fits (string_bytes n.host) };
}

impl TenantNode {
    /// A host, a port and limits.
    pub fn new(host: String, port: u16, limits: DataLimits) -> TenantNode
        requires host { string.Fits (string_bytes host) }
        ensures { result ≡ record { host = string_bytes host; port = port; limits = limits } }
    {
        TenantNode { host, port, limits }
    }

    /// What is told of it. The host fits a reply.
    pub fn told(&self) -> Node<'_>
        ensures node { result ≡ self.now }
        ensures fits { string.Fits result.host }
    {
        Node {
            host: Text::new(self.host.as_str()),
            port: self.port,
            limits: self.limits,
        }
    }
}
