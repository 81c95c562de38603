//! What is fixed while a broker runs: the versions that it lists, its users, the node of each tenant, and how long a request may be.

ghost use Rattle.std.specs.Prelude.{◌≡◌};
ghost use Rattle.kb_wire.specs.Codec.{array, string};
ghost use Rattle.kb_api_group.specs.Layouts.{api_version};
ghost use Rattle.kb_isolation_spec.specs.Greeting.{known_from, login, node_of};

use crate::tenant_node::TenantNode;
use kb_api_group::{ApiVersion, read_plain};
use kb_isolation_spec::{Known, Name};
use kb_tenant::Node;
use kb_wire::Array;
use std::marker::Model;

/// A user's account: the name and password of its login, and the place of its tenant.
#[derive(Drop)]
pub struct Account {
    name: Vec<u8>,
    password: Vec<u8>,
    tenant: usize,
}

impl Model for Account {
    ghost use Rattle.kb_isolation_spec.specs.Greeting.{User};

    ghost Value = { User };

    ghost view = { λ u. record { name = u.name.items; password = u.password.items; tenant = u.tenant } };
}

impl Account {
    /// An account.
    pub fn new(name: Vec<u8>, password: Vec<u8>, tenant: usize) -> Account
        ensures { result ≡ record { name = name.items; password = password.items; tenant = tenant } }
    {
        Account {
            name,
            password,
            tenant,
        }
    }
}

/// What is fixed while a broker runs. The versions and the hosts fit a reply.
#[derive(Drop)]
pub struct Setup {
    versions: Array<ApiVersion>,
    accounts: Vec<Account>,
    nodes: Vec<TenantNode>,
    node: TenantNode,
    request_bytes: u32,
}

impl Model for Setup {
    ghost use Rattle.kb_wire.specs.Codec.{array};
    ghost use Rattle.kb_api_group.specs.Layouts.{api_version};
    ghost use Rattle.kb_isolation_spec.specs.Greeting.{Setup};

    ghost Value = { Setup };

    ghost view = { λ s. record {
      versions = s.versions;
      users = s.accounts.items;
      nodes = s.nodes.items;
      node = s.node;
      request_bytes = s.request_bytes;
    } };

    ghost invariant = { λ s. (array api_version).Fits s.versions };
}

impl Setup {
    /// What is fixed: the versions that are listed, the users, the nodes of the tenants by their places, the node of a place that no
    /// tenant has, and the greatest size of a request.
    pub fn new(
        versions: Array<ApiVersion>,
        accounts: Vec<Account>,
        nodes: Vec<TenantNode>,
        node: TenantNode,
        request_bytes: u32,
    ) -> Setup
        requires versions { (array api_version).Fits versions }
        ensures { result ≡ record {
          versions = versions;
          users = accounts.items;
          nodes = nodes.items;
          node = node;
          request_bytes = request_bytes;
        } }
    {
        Setup {
            versions,
            accounts,
            nodes,
            node,
            request_bytes,
        }
    }

    /// Where clients of the tenant at that place are told to connect to, and what the tenant may have. The host fits a reply.
    pub fn node(&self, tenant: usize) -> Node<'_>
        ensures node { result ≡ node_of self.now tenant }
        ensures fits { string.Fits result.host }
    {
        match self.nodes.get(tenant) {
            Some(node) => node.told(),
            None => self.node.told(),
        }
    }

    /// The greatest size of a request that is read, in bytes.
    pub fn request_bytes(&self) -> u32
        ensures { result ≡ self.now.request_bytes }
    {
        self.request_bytes
    }

    /// The versions that are listed. They fit a reply.
    pub fn versions(&self) -> &Array<ApiVersion>
        ensures versions { result.now ≡ self.now.versions }
        ensures fits { (array api_version).Fits result.now }
    {
        &self.versions
    }

    /// The user that a PLAIN message names with its password (RFC 4616). An `Err` is the name in it, as far as it is kept.
    #[tactic(auto, unfolding(kb_isolation_spec::specs::Greeting::login))]
    pub fn login(&self, message: &[u8]) -> Result<Known, Name>
        ensures { result ≡ login self.now.users message.now }
    {
        let Some(plain) = read_plain(message) else {
            return Err(Name::new(&[]));
        };
        let name = plain.authcid.as_slice();
        match known_among(&self.accounts, name, plain.passwd.as_slice()) {
            Some(known) => Ok(known),
            None => Err(Name::new(name)),
        }
    }
}

/// The first user of that name and password.
fn known_among(accounts: &[Account], name: &[u8], password: &[u8]) -> Option<Known>
    ensures { result ≡ known_from 0 accounts.now name.now password.now }
{
    for (user, account) in accounts.iter().enumerate() {
        if account.name.as_slice() == name && account.password.as_slice() == password {
            return Some(Known {
                user,
                tenant: account.tenant,
            });
        }
    }
    None
}
