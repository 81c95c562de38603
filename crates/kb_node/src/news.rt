//! What happened in a turn and is told one by one: logins, and connections that were closed for a cause.

ghost use Rattle.std.specs.Prelude.{◌≡◌, [], IfOk};

use crate::closed::Closed;
use crate::firsts::Firsts;
use kb_isolation_spec::Login;
use std::alloc::{AllocError, Global};
use std::net::SocketAddr;

/// A login, and from where it came.
#[derive(Clone, Copy)]
pub struct LoginAttempt {
    /// From where it came.
    pub address: SocketAddr,
    /// The user who logged in, or the name in a login that failed.
    pub login: Login,
}

/// What happened in a turn and is told one by one.
#[derive(Drop)]
pub struct News {
    /// The logins that were right.
    pub logins: Firsts<LoginAttempt>,
    /// The logins that failed.
    pub denied: Firsts<LoginAttempt>,
    /// The connections that are closed for a cause that is told, but for logins that failed.
    pub closed: Firsts<Closed>,
}

impl News {
    /// None.
    pub fn new(alloc: Global) -> Result<Self, AllocError>
        ensures logins { IfOk result (λ news. (news.logins.first.items ≡ []) × (news.logins.more ≡ 0)) }
        ensures denied { IfOk result (λ news. (news.denied.first.items ≡ []) × (news.denied.more ≡ 0)) }
        ensures closed { IfOk result (λ news. (news.closed.first.items ≡ []) × (news.closed.more ≡ 0)) }
    {
        Ok(News {
            logins: Firsts::new(alloc)?,
            denied: Firsts::new(alloc)?,
            closed: Firsts::new(alloc)?,
        })
    }

    /// A turn begins.
    pub(crate) fn clear(&mut self)
        ensures logins { (self.new.logins.first.items ≡ []) × (self.new.logins.more ≡ 0) }
        ensures denied { (self.new.denied.first.items ≡ []) × (self.new.denied.more ≡ 0) }
        ensures closed { (self.new.closed.first.items ≡ []) × (self.new.closed.more ≡ 0) }
    {
        self.logins.clear();
        self.denied.clear();
        self.closed.clear();
    }
}
