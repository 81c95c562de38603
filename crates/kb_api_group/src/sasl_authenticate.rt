//! SaslAuthenticate (Kafka protocol guide, key 36, version 0): the request and the reply.

use kb_wire::{Blob, Cursor, Layout, ReadFault, Sink, Text};
use std::alloc::{AllocError, Global};

/// A request of SaslAuthenticate: the mechanism's message.
#[derive(Drop)]
pub struct SaslAuthenticateRequest<'a> {
    pub auth_bytes: Blob<'a>,
}

impl<'a> Layout<'a> for SaslAuthenticateRequest<'a> {
    ghost use Rattle.kb_api_group.specs.Layouts.{sasl_authenticate_request};
    ghost use Rattle.kb_api_group.specs.Lawful.{sasl_authenticate_request_lawful};

    ghost codec = { sasl_authenticate_request };

    ghost lawful = { sasl_authenticate_request_lawful };

    #[tactic(auto, unfolding(crate::specs::Layouts::sasl_authenticate_request))]
    fn read_from(
        alloc: Global,
        cursor: &mut Cursor<'a>,
    ) -> Result<SaslAuthenticateRequest<'a>, ReadFault> {
        Ok(SaslAuthenticateRequest {
            auth_bytes: Blob::read_from(alloc, cursor)?,
        })
    }

    #[tactic(auto, unfolding(crate::specs::Layouts::sasl_authenticate_request))]
    fn write_to(&self, sink: &mut Sink) -> Result<(), AllocError> {
        self.auth_bytes.write_to(sink)
    }
}

/// The reply of SaslAuthenticate: `error_message` says the error in words.
#[derive(Drop)]
pub struct SaslAuthenticateReply<'a> {
    pub error_code: i16,
    pub error_message: Option<Text<'a>>,
    pub auth_bytes: Blob<'a>,
}

impl<'a> Layout<'a> for SaslAuthenticateReply<'a> {
    ghost use Rattle.kb_api_group.specs.Layouts.{sasl_authenticate_reply};
    ghost use Rattle.kb_api_group.specs.Lawful.{sasl_authenticate_reply_lawful};

    ghost codec = { sasl_authenticate_reply };

    ghost lawful = { sasl_authenticate_reply_lawful };

    #[tactic(auto, unfolding(crate::specs::Layouts::sasl_authenticate_reply))]
    fn read_from(
        alloc: Global,
        cursor: &mut Cursor<'a>,
    ) -> Result<SaslAuthenticateReply<'a>, ReadFault> {
        Ok(SaslAuthenticateReply {
            error_code: i16::read_from(alloc, cursor)?,
            error_message: Option::read_from(alloc, cursor)?,
            auth_bytes: Blob::read_from(alloc, cursor)?,
        })
    }

    #[tactic(auto, unfolding(crate::specs::Layouts::sasl_authenticate_reply))]
    fn write_to(&self, sink: &mut Sink) -> Result<(), AllocError> {
        self.error_code.write_to(sink)?;
        self.error_message.write_to(sink)?;
        self.auth_bytes.write_to(sink)
    }
}
