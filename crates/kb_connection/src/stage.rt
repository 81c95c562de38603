//! How far a connection is, and what it waits for.

ghost use Rattle.std.specs.Prelude.{◌≡◌};
ghost use Rattle.kb_isolation_spec.specs.Owners.{whose};
ghost use Rattle.kb_connection.specs.View.{stage_of};

use crate::greeting::Greeting;
use kb_isolation_spec::Head;
use kb_tenant::WaitingFetch;

/// How far a connection is.
#[derive(Clone, Copy, Debug, PartialEq, Eq)]
pub enum Phase {
    /// It greets, and is so far with that.
    Greets(Greeting),
    /// It is bound to a tenant, whose place this is.
    Bound(usize),
}

impl Phase {
    /// The tenant that it is bound to.
    pub fn tenant(self) -> Option<usize>
        ensures { result ≡ whose (stage_of self) }
    {
        match self {
            Phase::Greets(_) => None,
            Phase::Bound(tenant) => Some(tenant),
        }
    }
}

/// What a request waits for.
#[derive(Drop)]
pub enum Awaited {
    /// The records that it asks for: a fetch.
    Records {
        /// What is kept of the fetch.
        fetch: WaitingFetch,
        /// The moment after which it waits no longer, in milliseconds.
        deadline: u64,
    },
    /// The answer of its group, without a deadline: a join or a sync.
    Group,
}

/// A request that waits for its answer.
#[derive(Drop)]
pub struct Waiting {
    /// What is kept of it for its reply.
    pub head: Head,
    /// What it waits for.
    pub awaited: Awaited,
}

/// How far a connection is, and what it waits for.
#[derive(Drop)]
pub(crate) enum Stage {
    /// It greets, and is so far with that.
    Greets(Greeting),
    /// It is bound to a tenant, whose place this is.
    Bound(usize),
    /// It is bound to a tenant, and waits for the answer to a request.
    Waits(usize, Waiting),
}
