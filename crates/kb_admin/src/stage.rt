//! How far a session is.

ghost use Rattle.std.specs.Prelude.{◌≡◌};
ghost use Rattle.kb_admin.specs.Stages.{correlation, next};

/// The request whose turn it is.
#[derive(Clone, Copy, Debug, PartialEq, Eq)]
pub enum Stage {
    /// SaslHandshake.
    Handshake,
    /// SaslAuthenticate.
    Authenticate,
    /// The request of the task.
    Perform,
    /// None: it ended.
    Ended,
}

impl Stage {
    /// The correlation id of its request.
    pub fn correlation(self) -> i32
        ensures { result ≡ correlation self }
    {
        match self {
            Stage::Handshake => 1,
            Stage::Authenticate => 2,
            Stage::Perform => 3,
            Stage::Ended => 0,
        }
    }

    /// The request that follows its reply.
    pub fn next(self) -> Stage
        ensures { result ≡ next self }
    {
        match self {
            Stage::Handshake => Stage::Authenticate,
            Stage::Authenticate => Stage::Perform,
            Stage::Perform | Stage::Ended => Stage::Ended,
        }
    }
}
