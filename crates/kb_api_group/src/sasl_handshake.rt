//! SaslHandshake (Kafka protocol guide, key 17, version 1): the request and the reply.

use kb_wire::{Array, Cursor, Layout, ReadFault, Sink, Text};
use std::alloc::{AllocError, Global};

/// A request of SaslHandshake: the mechanism that the client wants to log in by.
#[derive(Drop)]
pub struct SaslHandshakeRequest<'a> {
    pub mechanism: Text<'a>,
}

impl<'a> Layout<'a> for SaslHandshakeRequest<'a> {
    ghost use Rattle.kb_api_group.specs.Layouts.{sasl_handshake_request};
    ghost use Rattle.kb_api_group.specs.Lawful.{sasl_handshake_request_lawful};

    ghost codec = { sasl_handshake_request };

    ghost lawful = { sasl_handshake_request_lawful };

    #[tactic(auto, unfolding(crate::specs::Layouts::sasl_handshake_request))]
    fn read_from(
        alloc: Global,
        cursor: &mut Cursor<'a>,
    ) -> Result<SaslHandshakeRequest<'a>, ReadFault> {
        Ok(SaslHandshakeRequest {
            mechanism: Text::read_from(alloc, cursor)?,
        })
    }

    #[tactic(auto, unfolding(crate::specs::Layouts::sasl_handshake_request))]
    fn write_to(&self, sink: &mut Sink) -> Result<(), AllocError> {
        self.mechanism.write_to(sink)
    }
}

/// The reply of SaslHandshake: the mechanisms that are offered.
#[derive(Drop)]
pub struct SaslHandshakeReply<'a> {
    pub error_code: i16,
    pub mechanisms: Array<Text<'a>>,
}

impl<'a> Layout<'a> for SaslHandshakeReply<'a> {
    ghost use Rattle.kb_api_group.specs.Layouts.{sasl_handshake_reply};
    ghost use Rattle.kb_api_group.specs.Lawful.{sasl_handshake_reply_lawful};

    ghost codec = { sasl_handshake_reply };

    ghost lawful = { sasl_handshake_reply_lawful };

    #[tactic(auto, unfolding(crate::specs::Layouts::sasl_handshake_reply))]
    fn read_from(
        alloc: Global,
        cursor: &mut Cursor<'a>,
    ) -> Result<SaslHandshakeReply<'a>, ReadFault> {
        Ok(SaslHandshakeReply {
            error_code: i16::read_from(alloc, cursor)?,
            mechanisms: Array::read_from(alloc, cursor)?,
        })
    }

    #[tactic(auto, unfolding(crate::specs::Layouts::sasl_handshake_reply))]
    fn write_to(&self, sink: &mut Sink) -> Result<(), AllocError> {
        self.error_code.write_to(sink)?;
        self.mechanisms.write_to(sink)
    }
}
