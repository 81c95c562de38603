//! What a reply calls for, by what was found in it.

ghost use Rattle.std.specs.Prelude.{◌≡◌};
ghost use Rattle.kb_client.specs.Producer.{Producer, after_login, handshaken, logged_in, after_create, identified, stored};
ghost use Rattle.kb_client.specs.Reactions.{reacted};

use crate::stage::{Ending, ProducerId, Stage};
use kb_wire::{ErrorCode, WireFault};

/// What a reply calls for.
#[derive(Clone, Copy, Debug, PartialEq, Eq)]
pub enum Reaction {
    /// It ends for good.
    Ends(Ending),
    /// Another request has its turn.
    Enters(Stage),
    /// The topic is there, and another request has its turn.
    Created(Stage),
    /// The producer has this id.
    Identified(ProducerId),
    /// The first line is stored under this id.
    Stored(ProducerId),
}

/// What comes after the login.
fn after_login(create: Option<i32>, producer: Option<ProducerId>) -> Stage
    ensures { result ≡ after_login create producer }
{
    match (create, producer) {
        (Some(partitions), _) => Stage::Create(partitions),
        (None, None) => Stage::Identify,
        (None, Some(producer)) => Stage::Produce(producer),
    }
}

/// The mechanism was taken, or not.
pub fn shaken(code: Result<i16, WireFault>) -> Reaction
    ensures { (p : Producer) → reacted result p ≡ handshaken code p }
{
    match code {
        Err(_) => Reaction::Ends(Ending::Protocol),
        Ok(0) => Reaction::Enters(Stage::Authenticate),
        Ok(code) => Reaction::Ends(Ending::Code(code)),
    }
}

/// The login was taken, or not.
pub fn logged_in(
    code: Result<i16, WireFault>,
    create: Option<i32>,
    producer: Option<ProducerId>,
) -> Reaction
    ensures { (p : Producer) → p.create ≡ create → p.producer ≡ producer → reacted result p ≡ logged_in code p }
{
    match code {
        Err(_) => Reaction::Ends(Ending::Protocol),
        Ok(0) => Reaction::Enters(after_login(create, producer)),
        Ok(code) if code == ErrorCode::SaslAuthenticationFailed.code() => {
            Reaction::Ends(Ending::Denied)
        }
        Ok(code) => Reaction::Ends(Ending::Code(code)),
    }
}

/// The topic is there, or could not be made.
pub fn created(code: Result<i16, WireFault>, producer: Option<ProducerId>) -> Reaction
    ensures { (p : Producer) → p.producer ≡ producer → reacted result p ≡ after_create code p }
{
    match code {
        Err(_) => Reaction::Ends(Ending::Protocol),
        Ok(code) if code == 0 || code == ErrorCode::TopicAlreadyExists.code() => {
            Reaction::Created(after_login(None, producer))
        }
        Ok(code) => Reaction::Ends(Ending::Code(code)),
    }
}

/// A producer id came, or none.
pub fn identified(reply: Result<(i16, ProducerId), WireFault>) -> Reaction
    ensures { (p : Producer) → reacted result p ≡ identified reply p }
{
    match reply {
        Err(_) => Reaction::Ends(Ending::Protocol),
        Ok((0, producer)) => Reaction::Identified(producer),
        Ok((code, _)) => Reaction::Ends(Ending::Code(code)),
    }
}

/// The first line is stored, or was refused.
pub fn stored(code: Result<i16, WireFault>, producer: ProducerId) -> Reaction
    ensures { (p : Producer) → reacted result p ≡ stored producer code p }
{
    match code {
        Err(_) => Reaction::Ends(Ending::Protocol),
        Ok(0) => Reaction::Stored(producer),
        Ok(code) => Reaction::Ends(Ending::Code(code)),
    }
}
