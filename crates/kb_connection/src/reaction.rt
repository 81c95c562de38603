//! What a request comes to for its connection.

ghost use Rattle.std.specs.Prelude.{◌≡◌, ℕ, IfOk, false};
ghost use Rattle.kb_isolation_spec.specs.declared.head.Head.{Head};
ghost use Rattle.kb_isolation_spec.specs.Session.{Session};
ghost use Rattle.kb_tenant_api.specs.Hosted.{Kept};
ghost use Rattle.kb_isolation_spec.specs.Greeting.{bare_login, for_tenant, greeted_by, greeted_frame, login};
ghost use Rattle.kb_isolation_spec.specs.Requests.{request};
ghost use Rattle.kb_isolation_spec.specs.Machine.{served_by};
ghost use Rattle.kb_connection.specs.Fronts.{is_tenants};
ghost use Rattle.kb_connection.specs.View.{asked_of, greeting_of};
ghost use Rattle.kb_connection.specs.Reactions.{reacted};

use crate::greeting::Greeting;
use crate::request::{Asked, Request, unserved};
use crate::setup::Setup;
use crate::version::NO_HEAD;
use kb_isolation_spec::{Head, Known, Name, Shut};
use kb_wire::ErrorCode;
use std::alloc::{AllocError, Global};

/// What a request comes to for its connection.
#[derive(Clone, Copy)]
pub enum Reaction {
    /// The versions are listed.
    Versions,
    /// They are listed under a code, since they were asked in a version that is not.
    OtherVersions,
    /// The mechanism is accepted, which leaves the greeting so far.
    Accepts(Greeting),
    /// A handshake is answered with a code, and nothing changes.
    Handshake(ErrorCode),
    /// The SASL request came out of turn.
    IllegalState,
    /// The connection is bound to the tenant of a user, who logged in.
    LogsIn(Known),
    /// The same, and it is answered with a frame of no bytes.
    LogsInBare(Known),
    /// The login of that name is answered with a refusal, and the connection is shut.
    Denies(Name),
    /// The connection is shut without a reply, since the login of that name failed.
    DeniesBare(Name),
    /// The connection is shut without a reply, for that cause.
    Shuts(Shut),
}

impl Reaction {
    /// What a request of a greeting connection comes to (Kafka protocol guide, "SASL Authentication Sequence").
    #[tactic(auto, unfolding(kb_isolation_spec::specs::Greeting::greeted_by))]
    pub fn greeting(setup: &Setup, handshaken: bool, head: Head, asked: &Asked<'_>) -> Reaction
        ensures { (s : Session) → reacted setup.now result head s ≡ greeted_by setup.now handshaken head (asked_of asked.now) s }
    {
        match asked {
            Asked::Versions => Reaction::Versions,
            Asked::OtherVersions => Reaction::OtherVersions,
            Asked::Handshake { version, mechanism } if mechanism.as_str() == "PLAIN" => {
                Reaction::Accepts(Greeting::after_handshake(*version))
            }
            Asked::Handshake { .. } => Reaction::Handshake(ErrorCode::UnsupportedSaslMechanism),
            Asked::Authenticate(_) if !handshaken => Reaction::IllegalState,
            Asked::Authenticate(message) => match setup.login(message.as_slice()) {
                Ok(known) => Reaction::LogsIn(known),
                Err(name) => Reaction::Denies(name),
            },
            Asked::Another { .. } => Reaction::Shuts(Shut::NotLoggedIn {
                api_key: head.api_key,
                api_version: head.api_version,
            }),
            Asked::Malformed => Reaction::Shuts(unserved(setup.versions().as_slice(), head)),
        }
    }

    /// What a bare message of PLAIN comes to.
    pub fn bare(setup: &Setup, message: &[u8]) -> Reaction
        ensures { (head : Head) (s : Session) → reacted setup.now result head s ≡ bare_login (login setup.now.users message.now) s }
    {
        match setup.login(message) {
            Ok(known) => Reaction::LogsInBare(known),
            Err(name) => Reaction::DeniesBare(name),
        }
    }

    /// What a request of a bound connection comes to that is no request of its tenant.
    #[tactic(auto, unfolding(kb_isolation_spec::specs::Machine::served_by))]
    pub fn bound(setup: &Setup, head: Head, asked: &Asked<'_>) -> Reaction
        ensures { is_tenants (asked_of asked.now) ≡ false → (tenant : ℕ) (kept : Kept) (clock n : ℕ) (s : Session)
            → reacted setup.now result head s ≡ served_by (for_tenant setup.now tenant) kept clock n head (asked_of asked.now) s }
    {
        match asked {
            Asked::Versions => Reaction::Versions,
            Asked::OtherVersions => Reaction::OtherVersions,
            Asked::Handshake { .. } => Reaction::Handshake(ErrorCode::IllegalSaslState),
            Asked::Authenticate(_) => Reaction::IllegalState,
            Asked::Another { .. } | Asked::Malformed => {
                Reaction::Shuts(unserved(setup.versions().as_slice(), head))
            }
        }
    }
}

/// What a greeting connection's frame comes to, under its head: a bare message of PLAIN has none.
pub fn greeting_reaction(
    alloc: Global,
    setup: &Setup,
    greeting: Greeting,
    frame: &[u8],
) -> Result<(Head, Reaction), AllocError>
    ensures { IfOk result (λ done. (s : Session)
        → reacted setup.now done.1 done.0 s ≡ greeted_frame setup.now (greeting_of greeting) frame.now s) }
{
    if greeting == Greeting::Bare {
        return Ok((NO_HEAD, Reaction::bare(setup, frame)));
    }
    let request = Request::read(alloc, setup.versions().as_slice(), frame)?;
    let handshaken = greeting == Greeting::Shaken;
    Ok((
        request.head,
        Reaction::greeting(setup, handshaken, request.head, &request.asked),
    ))
}

/// What a bound connection's request comes to that is no request of its tenant, under its head.
pub fn bound_reaction(
    alloc: Global,
    setup: &Setup,
    frame: &[u8],
) -> Result<(Head, Reaction), AllocError>
    ensures { let r = request setup.now.versions frame.now in
        is_tenants r.asked ≡ false → IfOk result (λ done.
        (tenant : ℕ) (kept : Kept) (clock n : ℕ) (s : Session)
        → reacted setup.now done.1 done.0 s ≡ served_by (for_tenant setup.now tenant) kept clock n r.head r.asked s) }
{
    let request = Request::read(alloc, setup.versions().as_slice(), frame)?;
    Ok((
        request.head,
        Reaction::bound(setup, request.head, &request.asked),
    ))
}
