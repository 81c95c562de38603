//! The key of the API by which tools look at settings, beside those that `kb_wire` names (Kafka protocol guide, "API Keys").

ghost use Rattle.std.specs.Prelude.{◌≡◌, pos};
ghost use Rattle.kb_api_data.specs.declared.config_key.TheConstants.{DESCRIBE_CONFIGS};

/// DescribeConfigs.
pub const DESCRIBE_CONFIGS: i16 = 32;

/// The key is that of the Kafka protocol guide. Definitions and code name the API by its constant alone.
pub fn key_is_the_protocols()
    ensures { DESCRIBE_CONFIGS ≡ pos 32 }
{}
