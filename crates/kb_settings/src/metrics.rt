//! Where metrics are served, and to whom.

ghost use Rattle.std.specs.Prelude.{IsTrue, is_some, string_bytes};
ghost use Rattle.std.specs.Option.{ForSome};
ghost use Rattle.kb_settings.specs.Metrics.{is_guarded, is_token};

use crate::endpoint::Endpoint;

/// Where the broker's metrics are served, and to whom. It has no `Debug`, which would print the token.
#[derive(Drop)]
pub struct MetricsSettings {
    /// The host and the port that are listened on for metrics, where they are served.
    pub address: Option<Endpoint>,
    /// What each request for metrics has to name: 16 to 255 printable ASCII characters. Where it is missing the host is of this
    /// machine alone: `localhost`, `::1` or one of 127.0.0.0/8.
    pub token: Option<String>,
    pub ghost token_fits: { ForSome token (λ t. IsTrue (is_token (string_bytes t))) },
    pub ghost guarded: { ForSome address (λ e. IsTrue (is_guarded (string_bytes e.host) (is_some token))) },
}
