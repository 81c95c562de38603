//! How far a greeting is.

ghost use Rattle.std.specs.Prelude.{◌≡◌};
ghost use Rattle.kb_isolation_spec.specs.Greeting.{greeting_after};
ghost use Rattle.kb_connection.specs.View.{greeting_of};

/// How far a greeting is (Kafka protocol guide, "SASL Authentication Sequence").
#[derive(Clone, Copy, Debug, PartialEq, Eq)]
pub enum Greeting {
    /// No mechanism was accepted.
    Unshaken,
    /// PLAIN was accepted by a handshake of version 1: its message comes in a request of SaslAuthenticate.
    Shaken,
    /// PLAIN was accepted by a handshake of version 0: its message comes bare, as the next frame.
    Bare,
}

impl Greeting {
    /// How far it is after a handshake of that version which accepted PLAIN.
    pub fn after_handshake(version: i16) -> Greeting
        ensures { greeting_of result ≡ greeting_after version }
    {
        if version == 0 {
            Greeting::Bare
        } else {
            Greeting::Shaken
        }
    }
}
