//! ApiVersions (Kafka protocol guide, key 18, version 0): the request and the reply.

use kb_wire::{Array, Cursor, Layout, ReadFault, Sink};
use std::alloc::{AllocError, Global};

/// A request of ApiVersions: which APIs are served, and at which versions? Its body is empty.
#[derive(Drop)]
pub struct ApiVersionsRequest {}

impl<'a> Layout<'a> for ApiVersionsRequest {
    ghost use Rattle.kb_api_group.specs.Layouts.{api_versions_request};
    ghost use Rattle.kb_api_group.specs.Lawful.{api_versions_request_lawful};

    ghost codec = { api_versions_request };

    ghost lawful = { api_versions_request_lawful };

    #[tactic(auto, unfolding(crate::specs::Layouts::api_versions_request, kb_wire::specs::Codec::nothing))]
    fn read_from(
        _alloc: Global,
        _cursor: &mut Cursor<'a>,
    ) -> Result<ApiVersionsRequest, ReadFault> {
        Ok(ApiVersionsRequest {})
    }

    #[tactic(auto, using(kb_wire::specs::Sunk::adds_put), unfolding(crate::specs::Layouts::api_versions_request, kb_wire::specs::Codec::nothing))]
    fn write_to(&self, _sink: &mut Sink) -> Result<(), AllocError> {
        Ok(())
    }
}

/// An API that is served, in the reply of ApiVersions (`api_keys` in the Kafka protocol guide).
#[derive(Drop)]
pub struct ApiVersion {
    pub api_key: i16,
    pub min_version: i16,
    pub max_version: i16,
}

impl<'a> Layout<'a> for ApiVersion {
    ghost use Rattle.kb_api_group.specs.Layouts.{api_version};
    ghost use Rattle.kb_api_group.specs.Lawful.{api_version_lawful};

    ghost codec = { api_version };

    ghost lawful = { api_version_lawful };

    #[tactic(auto, unfolding(crate::specs::Layouts::api_version))]
    fn read_from(alloc: Global, cursor: &mut Cursor<'a>) -> Result<ApiVersion, ReadFault> {
        Ok(ApiVersion {
            api_key: i16::read_from(alloc, cursor)?,
            min_version: i16::read_from(alloc, cursor)?,
            max_version: i16::read_from(alloc, cursor)?,
        })
    }

    #[tactic(auto, unfolding(crate::specs::Layouts::api_version))]
    fn write_to(&self, sink: &mut Sink) -> Result<(), AllocError> {
        self.api_key.write_to(sink)?;
        self.min_version.write_to(sink)?;
        self.max_version.write_to(sink)
    }
}

/// The reply of ApiVersions: every API that is served.
#[derive(Drop)]
pub struct ApiVersionsReply {
    pub error_code: i16,
    pub versions: Array<ApiVersion>,
}

impl<'a> Layout<'a> for ApiVersionsReply {
    ghost use Rattle.kb_api_group.specs.Layouts.{api_versions_reply};
    ghost use Rattle.kb_api_group.specs.Lawful.{api_versions_reply_lawful};

    ghost codec = { api_versions_reply };

    ghost lawful = { api_versions_reply_lawful };

    #[tactic(auto, unfolding(crate::specs::Layouts::api_versions_reply))]
    fn read_from(alloc: Global, cursor: &mut Cursor<'a>) -> Result<ApiVersionsReply, ReadFault> {
        Ok(ApiVersionsReply {
            error_code: i16::read_from(alloc, cursor)?,
            versions: Array::read_from(alloc, cursor)?,
        })
    }

    #[tactic(auto, unfolding(crate::specs::Layouts::api_versions_reply))]
    fn write_to(&self, sink: &mut Sink) -> Result<(), AllocError> {
        self.error_code.write_to(sink)?;
        self.versions.write_to(sink)
    }
}
