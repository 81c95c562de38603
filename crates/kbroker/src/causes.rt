//! Why a connection was closed, as it is told.

ghost use Rattle.std.specs.Prelude.{◌≡◌, IfOk, map, option_map, slice_get, string_bytes};
ghost use Rattle.kbroker.specs.Shut.{api_name, api_text, cause_words, shut_words};

use kb_isolation_spec::Shut;
use kb_node::{Cause, STRANGER_FRAME};
use std::alloc::{AllocError, Global};

/// The names of the APIs by their keys, from 0 (Kafka protocol guide, "API Keys").
const NAMES: [&str; 48] = [
    "Produce",
    "Fetch",
    "ListOffsets",
    "Metadata",
    "LeaderAndIsr",
    "StopReplica",
    "UpdateMetadata",
    "ControlledShutdown",
    "OffsetCommit",
    "OffsetFetch",
    "FindCoordinator",
    "JoinGroup",
    "Heartbeat",
    "LeaveGroup",
    "SyncGroup",
    "DescribeGroups",
    "ListGroups",
    "SaslHandshake",
    "ApiVersions",
    "CreateTopics",
    "DeleteTopics",
    "DeleteRecords",
    "InitProducerId",
    "OffsetForLeaderEpoch",
    "AddPartitionsToTxn",
    "AddOffsetsToTxn",
    "EndTxn",
    "WriteTxnMarkers",
    "TxnOffsetCommit",
    "DescribeAcls",
    "CreateAcls",
    "DeleteAcls",
    "DescribeConfigs",
    "AlterConfigs",
    "AlterReplicaLogDirs",
    "DescribeLogDirs",
    "SaslAuthenticate",
    "CreatePartitions",
    "CreateDelegationToken",
    "RenewDelegationToken",
    "ExpireDelegationToken",
    "DescribeDelegationToken",
    "DeleteGroups",
    "ElectLeaders",
    "IncrementalAlterConfigs",
    "AlterPartitionReassignments",
    "ListPartitionReassignments",
    "OffsetDelete",
];

/// Why a connection was closed on which no request of more than `request_bytes` is read, in words. They depend on nothing else but the
/// cause.
pub fn cause_text(alloc: Global, cause: Cause, request_bytes: u32) -> Result<String, AllocError>
    ensures { IfOk result (λ text. string_bytes text ≡ cause_words cause request_bytes) }
{
    match cause {
        Cause::Shut(shut) => text_of(alloc, shut, request_bytes),
        Cause::LongBeforeLogin => {
            format!(in alloc; "a request is longer than {STRANGER_FRAME} bytes before its login")
        }
    }
}

/// Why the broker shut a connection on which no request of more than `request_bytes` is read, in words. They depend on nothing else but the
/// cause.
fn text_of(alloc: Global, cause: Shut, request_bytes: u32) -> Result<String, AllocError>
    ensures { IfOk result (λ text. string_bytes text ≡ shut_words cause request_bytes) }
{
    match cause {
        Shut::TooShort => String::from_str(alloc, "a request is too short for its header"),
        Shut::TooLong => format!(in alloc; "a request is longer than {request_bytes} bytes"),
        Shut::NotServed {
            api_key,
            api_version,
        } => {
            let api = name_of(alloc, api_key)?;
            format!(in alloc; "version {api_version} of {api} is not served")
        }
        Shut::Unanswerable {
            api_key,
            api_version,
        } => {
            let api = name_of(alloc, api_key)?;
            format!(in alloc;
                "the body of {api} {api_version} does not match or names more than request_entries, or there was no room for its reply"
            )
        }
        Shut::NotLoggedIn {
            api_key,
            api_version,
        } => {
            let api = name_of(alloc, api_key)?;
            format!(in alloc; "{api} {api_version} before a login")
        }
        Shut::Denied => String::from_str(alloc, "its login failed"),
        Shut::Overrun => String::from_str(alloc, "more came than there was room for"),
        Shut::Memory => String::from_str(alloc, "out of memory"),
    }
}

/// The name of an API, or its key where it has none here.
fn name_of(alloc: Global, api_key: i16) -> Result<String, AllocError>
    ensures { IfOk result (λ text. string_bytes text ≡ api_text api_key) }
{
    match name_at(api_key) {
        Some(name) => String::from_str(alloc, name),
        None => format!(in alloc; "API {api_key}"),
    }
}

/// The name of an API that has one here.
fn name_at(api_key: i16) -> Option<&'static str>
    ensures { option_map (λ name. name.now) result ≡ api_name api_key }
{
    match usize::try_from(api_key) {
        Ok(place) => name_in(&NAMES, place),
        Err(_) => None,
    }
}

/// The name at a place of these, where there is one.
fn name_in(names: &[&'static str], place: usize) -> Option<&'static str>
    ensures { option_map (λ name. name.now) result ≡ slice_get (map (λ name. name.now) names.now) place }
{
    names.get(place).copied()
}
