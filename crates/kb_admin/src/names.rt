//! Kafka's names of error codes, of those that a broker answers to what a session asks (Kafka protocol guide, "Error Codes").

ghost use Rattle.std.specs.Prelude.{◌≡◌, option_map};
ghost use Rattle.kb_admin.specs.Names.{code_name, refusal_name, login_name, topic_name, partitions_name};

/// Kafka's name of an error code, where it is one that may answer SaslHandshake, SaslAuthenticate, CreateTopics, DeleteTopics or
/// Metadata. Any broker may be asked, so codes are among them that kbroker never answers, as NOT_CONTROLLER.
#[tactic(auto, unfolding(crate::specs::Names::code_name))]
pub fn code_name(code: i16) -> Option<&'static str>
    ensures { option_map (λ name. name.now) result ≡ code_name code }
{
    if code == -1 {
        return Some("UNKNOWN_SERVER_ERROR");
    }
    refusal_name(code)
}

/// The same, of those that are not negative.
#[tactic(auto, unfolding(crate::specs::Names::refusal_name))]
fn refusal_name(code: i16) -> Option<&'static str>
    ensures { option_map (λ name. name.now) result ≡ refusal_name code }
{
    match code {
        7 => Some("REQUEST_TIMED_OUT"),
        35 => Some("UNSUPPORTED_VERSION"),
        41 => Some("NOT_CONTROLLER"),
        42 => Some("INVALID_REQUEST"),
        56 => Some("KAFKA_STORAGE_ERROR"),
        _ => login_name(code),
    }
}

/// The same, of those that answer a login or speak of one topic.
#[tactic(auto, unfolding(crate::specs::Names::login_name))]
fn login_name(code: i16) -> Option<&'static str>
    ensures { option_map (λ name. name.now) result ≡ login_name code }
{
    match code {
        33 => Some("UNSUPPORTED_SASL_MECHANISM"),
        34 => Some("ILLEGAL_SASL_STATE"),
        58 => Some("SASL_AUTHENTICATION_FAILED"),
        _ => topic_name(code),
    }
}

/// The same, of those that speak of one topic.
#[tactic(auto, unfolding(crate::specs::Names::topic_name))]
fn topic_name(code: i16) -> Option<&'static str>
    ensures { option_map (λ name. name.now) result ≡ topic_name code }
{
    match code {
        3 => Some("UNKNOWN_TOPIC_OR_PARTITION"),
        17 => Some("INVALID_TOPIC_EXCEPTION"),
        29 => Some("TOPIC_AUTHORIZATION_FAILED"),
        36 => Some("TOPIC_ALREADY_EXISTS"),
        44 => Some("POLICY_VIOLATION"),
        _ => partitions_name(code),
    }
}

/// The same, of those that speak of a topic's partitions and settings.
#[tactic(auto, unfolding(crate::specs::Names::partitions_name))]
fn partitions_name(code: i16) -> Option<&'static str>
    ensures { option_map (λ name. name.now) result ≡ partitions_name code }
{
    match code {
        37 => Some("INVALID_PARTITIONS"),
        38 => Some("INVALID_REPLICATION_FACTOR"),
        39 => Some("INVALID_REPLICA_ASSIGNMENT"),
        40 => Some("INVALID_CONFIG"),
        _ => None,
    }
}
