//! How many unread bytes a connection may have.

ghost use Rattle.std.specs.Prelude.{◌≡◌};
ghost use Rattle.kb_isolation_spec.specs.Session.{unread_limit};

/// How many unread bytes a connection may have on which no request of more than `limit` bytes is read: a size and the largest request,
/// twice.
pub fn unread_limit(limit: u32) -> usize
    ensures { result ≡ unread_limit limit }
{
    2 * (4 + limit as usize)
}
