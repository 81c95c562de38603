//! The keys of the APIs by which tools look at groups and delete them, beside those that `kb_wire` names (Kafka protocol guide, "API
//! Keys").

ghost use Rattle.std.specs.Prelude.{◌≡◌, pos};
ghost use Rattle.kb_api_group.specs.declared.group_key.TheConstants.{DELETE_GROUPS, DESCRIBE_GROUPS, LIST_GROUPS};

/// DescribeGroups.
pub const DESCRIBE_GROUPS: i16 = 15;

/// ListGroups.
pub const LIST_GROUPS: i16 = 16;

/// DeleteGroups.
pub const DELETE_GROUPS: i16 = 42;

/// The keys are those of the Kafka protocol guide. Definitions and code name an API by its constant alone.
pub fn keys_are_the_protocols()
    ensures describe_groups { DESCRIBE_GROUPS ≡ pos 15 }
    ensures list_groups { LIST_GROUPS ≡ pos 16 }
    ensures delete_groups { DELETE_GROUPS ≡ pos 42 }
{}
