//! One connection: its unread bytes, its untaken output, and how far it is.

ghost use Rattle.std.specs.Prelude.{◌≡◌, ◌<◌, ◌≤◌, ◌^◌, ℕ, ℤ, List, length, true, false, IfOk, IfSome, IfNone, OnOk};
ghost use Rattle.std.specs.Prelude.{OnErr, ◌⊎◌};
ghost use Rattle.std.specs.Option.{is_some};
ghost use Rattle.kb_tenant_api.specs.Hosted.{Kept};
ghost use Rattle.kb_tenant_api.specs.Replies.{Reaction as Reacts, IsAnswer};
ghost use Rattle.kb_tenant.specs.Replies as tenant;
ghost use Rattle.kb_isolation_spec.specs.Session.{Session, Greets, BoundTo, new_session, in_front, room, overruns, fed, replied};
ghost use Rattle.kb_isolation_spec.specs.Session.{shut_down, without_wait, waiting};
ghost use Rattle.kb_isolation_spec.specs.declared.head.Head.{Head};
ghost use Rattle.kb_isolation_spec.specs.declared.shut.Shut.TheVariants as causes;
ghost use Rattle.kb_isolation_spec.specs.Tenant.{Wait};
ghost use Rattle.kb_api_group.specs.declared.api_versions.ApiVersion.{ApiVersion};
ghost use Rattle.kb_isolation_spec.specs.Session.{has_member, is_free, can};
ghost use Rattle.kb_isolation_spec.specs.Greeting.{Setup, bound, failed, for_tenant, greeted};
ghost use Rattle.kb_isolation_spec.specs.Machine.{after_reaction, after_turn, told};
ghost use Rattle.kb_isolation_spec.specs.Calls.{without_output};
ghost use Rattle.kb_connection.specs.TenantAnswers.{with_answer, answered_again, with_final_answer, given_reply, is_quiet, is_wait, parked};
ghost use Rattle.kb_connection.specs.Fronts.{IsOwn, IsAsked, is_tenants_at, head_at};
ghost use Rattle.kb_connection.specs.View.{awaited_of, greeting_of, speaks, stage_of, wait_of, with_session, without_front, IsLimited};
ghost use Rattle.kb_connection.specs.Reactions.{reacted, IfReacts};

use crate::greeting::Greeting;
use crate::reaction::{Reaction, bound_reaction, greeting_reaction};
use crate::reply::{
    append_reply, authenticate_body, body_of, handshake_body, listed_body, throttle_time,
    versions_body,
};
use crate::request::{Asked, Request, unanswerable};
use crate::room::unread_limit;
use crate::setup::Setup;
use crate::stage::{Awaited, Phase, Stage, Waiting};
use crate::version::{NO_HEAD, head_of_frame};
use kb_api_group::{FrameFeed, Next};
use kb_isolation_spec::{Head, Known, Login, Name, Shut};
use kb_tenant_api::Answer;
use kb_wire::{ErrorCode, Text};
use std::alloc::{AllocError, Global};
use std::marker::Model;
use std::mem;

/// The greatest size of a reply, which is an INT32.
const REPLY_LIMIT: usize = 2_147_483_647;

/// A frame of no bytes, which is a size of 0.
const EMPTY_FRAME: [u8; 4] = [0, 0, 0, 0];

/// A connection. A clause sees its number and its session.
#[derive(Drop)]
pub struct Connection {
    number: u64,
    stage: Stage,
    limit: u32,
    unread: FrameFeed,
    output: Vec<u8>,
    shut: Option<Shut>,
    login: Login,
}

impl Model for Connection {
    ghost use Rattle.std.specs.Option.{is_some};
    ghost use Rattle.kb_isolation_spec.specs.Machine.{Line};
    ghost use Rattle.kb_connection.specs.View.{stage_with_wait, IsLimited};

    ghost Value = { Line };

    ghost view = { λ c. record {
      number = c.number;
      session = record {
        stage = stage_with_wait c.stage;
        limit = c.limit;
        unread = c.unread;
        output = c.output.items;
        shut = is_some c.shut;
        why = c.shut;
        login = c.login;
      };
    } };

    ghost invariant = { λ c. IsLimited c.limit c.unread (stage_with_wait c.stage) (is_some c.shut) };
}

impl Connection {
    /// A connection that has said nothing, on which no request of more than `limit` bytes is read. It takes no memory.
    pub fn new(alloc: Global, number: u64, limit: u32) -> Connection
        ensures { result ≡ record { number = number; session = new_session limit } }
    {
        Connection {
            number,
            stage: Stage::Greets(Greeting::Unshaken),
            limit,
            unread: FrameFeed::new(alloc),
            output: Vec::new(alloc),
            shut: None,
            login: Login::Nobody,
        }
    }

    /// Its number.
    pub fn number(&self) -> u64
        ensures { result ≡ self.now.number }
    {
        self.number
    }

    /// How far it is, waiting or not.
    pub fn phase(&self) -> Phase
        ensures { stage_of result ≡ without_wait self.now.session.stage }
    {
        match &self.stage {
            Stage::Greets(greeting) => Phase::Greets(*greeting),
            Stage::Bound(tenant) | Stage::Waits(tenant, _) => Phase::Bound(*tenant),
        }
    }

    /// The tenant that it is bound to and the request whose answer it waits for, if it waits.
    pub fn waiting(&self) -> Option<(usize, &Waiting)>
        ensures some { IfSome result (λ r. self.now.session.stage ≡ BoundTo r.0 (Some (wait_of r.1.now))) }
        ensures none { IfNone result (is_free self.now.session.stage ≡ true) }
    {
        match &self.stage {
            Stage::Waits(tenant, request) => Some((*tenant, request)),
            Stage::Greets(_) | Stage::Bound(_) => None,
        }
    }

    /// Whether a member of a group waits on it.
    pub fn has_member(&self) -> bool
        ensures { result ≡ has_member self.now.session.stage }
    {
        match &self.stage {
            Stage::Waits(_, request) => matches!(&request.awaited, Awaited::Group),
            Stage::Greets(_) | Stage::Bound(_) => false,
        }
    }

    /// Whether the broker shut it.
    pub fn is_shut(&self) -> bool
        ensures { result ≡ self.now.session.shut }
    {
        self.shut.is_some()
    }

    /// Why the broker shut it, if it did.
    pub fn why(&self) -> Option<Shut>
        ensures is { result ≡ self.now.session.why }
        ensures tied { self.now.session.shut ≡ is_some self.now.session.why }
    {
        self.shut
    }

    /// Who logged in on it.
    pub fn login(&self) -> Login
        ensures { result ≡ self.now.session.login }
    {
        self.login
    }

    /// Whether it has something to tell: output that was not taken, or that it was shut.
    pub fn speaks(&self) -> bool
        ensures { result ≡ speaks self.now.session }
    {
        !self.output.is_empty() || self.is_shut()
    }

    /// How many more bytes it takes.
    pub fn room(&self) -> usize
        ensures room { result ≡ room self.now.session }
        ensures limited { IsLimited self.now.session.limit self.now.session.unread self.now.session.stage self.now.session.shut }
    {
        unread_limit(self.limit).saturating_sub(self.unread.unread())
    }

    /// Whether a piece is longer than its room, where it was not shut: then the piece shuts it.
    pub fn overruns(&self, piece: &[u8]) -> bool
        ensures { result ≡ overruns piece.now self.now.session }
    {
        !self.is_shut() && self.room() < piece.len()
    }

    /// Whether it can take a turn: it waits for nothing, and a whole request or a bad size stands in front.
    #[tactic(auto, unfolding(kb_isolation_spec::specs::Session::can))]
    pub fn can_turn(&self) -> bool
        ensures { result ≡ can self.now.session }
    {
        self.waiting().is_none() && !matches!(self.unread.next(self.limit), Next::More)
    }

    /// Takes the output.
    pub fn take_output(&mut self, alloc: Global) -> Vec<u8>
        ensures output { result.items ≡ self.old.session.output }
        ensures state { self.new ≡ with_session self.old (without_output self.old.session) }
    {
        mem::replace(&mut self.output, Vec::new(alloc))
    }

    /// Its output, where it closes.
    pub fn into_output(self) -> Vec<u8>
        ensures { result.items ≡ self.session.output }
    {
        let Connection { output, .. } = self;
        output
    }

    /// Shuts it, for that cause: unread bytes are dropped, and what it waits for; untaken output stays.
    pub fn shut_down(&mut self, cause: Shut)
        ensures { self.new ≡ with_session self.old (shut_down cause self.old.session) }
    {
        self.stop_waiting(); // its request gets no answer
        self.unread.clear();
        self.shut = Some(cause);
    }

    /// Waits for nothing.
    fn stop_waiting(&mut self)
        ensures { self.new ≡ with_session self.old (record self.old.session { stage = without_wait self.old.session.stage }) }
    {
        if let Stage::Waits(tenant, _) = self.stage {
            self.stage = Stage::Bound(tenant);
        }
    }

    /// Leaves the request in front behind.
    fn skip(&mut self)
        ensures { self.new ≡ with_session self.old (without_front self.old.session) }
    {
        self.unread.skip(self.limit);
    }

    /// Takes a piece. One longer than the room shuts it, and where the piece cannot be kept it is shut too.
    #[tactic(auto, unfolding(kb_isolation_spec::specs::Session::fed))]
    pub fn feed(&mut self, piece: &[u8]) -> Result<(), AllocError>
        ensures ok { OnOk result (self.new ≡ with_session self.old (fed piece.now self.old.session)) }
        ensures err { OnErr result (self.new ≡ with_session self.old (shut_down causes.Memory self.old.session)) }
    {
        if self.is_shut() {
            return Ok(());
        }
        if self.overruns(piece) {
            self.shut_down(Shut::Overrun);
            return Ok(());
        }
        let kept = self.unread.push(piece);
        if kept.is_err() {
            self.shut_down(Shut::Memory);
        }
        kept
    }

    /// Serves the frame in front of a greeting connection: a request, or PLAIN's message itself. Where memory is refused it is
    /// shut.
    pub fn greet(
        &mut self,
        alloc: Global,
        setup: &Setup,
        greeting: Greeting,
    ) -> Result<(), AllocError>
        requires { self.old.session.stage ≡ Greets (greeting_of greeting) }
        ensures ok { OnOk result (self.new ≡ with_session self.old (greeted setup.now (greeting_of greeting) self.old.session)) }
        ensures err { OnErr result (self.new ≡ with_session self.old (shut_down causes.Memory self.old.session)) }
    {
        match self.unread.next(self.limit) {
            Next::More => Ok(()),
            Next::TooSmall => {
                self.shut_down(Shut::TooShort);
                Ok(())
            }
            Next::TooLarge => {
                self.shut_down(Shut::TooLong);
                Ok(())
            }
            Next::Frame(frame) => {
                let reaction = greeting_reaction(alloc, setup, greeting, frame.as_slice());
                self.take_turn(alloc, setup, reaction)
            }
        }
    }

    /// The request of its tenant that stands in front of a bound connection, in the version that its own is laid out as. `None`: what
    /// stands there is a matter of the connection alone.
    pub fn request(
        &self,
        alloc: Global,
        setup: &Setup,
    ) -> Result<Option<kb_tenant::Request<'_>>, AllocError>
        ensures none { IfOk result (λ found. IfNone found (IsOwn setup.now self.now.session)) }
        ensures asked { IfOk result (λ found. IfSome found (λ asked.
            IsAsked setup.now self.now.session asked.api_key asked.api_version
            (head_at setup.now.versions (in_front self.now.session)) asked.body.now)) }
        ensures numbered { IfOk result (λ found. IfSome found (λ asked.
            asked.correlation_id ≡ (head_at setup.now.versions (in_front self.now.session)).correlation_id)) }
        ensures number { IfOk result (λ found. IfSome found (λ asked. asked.connection ≡ self.now.number)) }
        // none stands in front of one that was shut
        ensures unshut { IfOk result (λ found. IfSome found (λ asked. self.now.session.shut ≡ false)) }
    {
        let Next::Frame(frame) = self.unread.next(self.limit) else {
            return Ok(None);
        };
        let Request { head, asked } = Request::read(
            alloc,
            setup.versions().as_slice(),
            frame.as_slice(),
        )?;
        match asked {
            Asked::Another { key, version, body } => Ok(Some(kb_tenant::Request {
                connection: self.number,
                api_key: key,
                api_version: version,
                correlation_id: head.correlation_id,
                body: body.as_slice(),
            })),
            _ => Ok(None),
        }
    }

    /// Leaves the tenant's request in front behind, and gives the tenant's answer to it. Where the answer is to wait, it is kept until
    /// `wake` ends the wait: for that nothing is read, and no memory is asked for. Where memory for a reply is refused it is shut.
    #[tactic(auto, using(crate::proofs::Answering::gives, crate::proofs::Answering::less_given, crate::proofs::Answering::less_parked, crate::proofs::Answering::free_given, crate::proofs::Answering::puts_given, crate::proofs::Answering::puts_records, crate::proofs::Answering::puts_group, crate::proofs::Answering::gives_records, crate::proofs::Answering::gives_group, crate::proofs::Answering::parked_is, crate::proofs::Answering::same_limit_parked, crate::proofs::Answering::stage_kept, crate::proofs::Answering::stage_parked))]
    pub fn answer(&mut self, answer: Answer) -> Result<(), AllocError>
        ensures ok { (setup : Setup) (key version : ℤ) (head : Head) (body : List ℕ) (reaction : Reacts)
            → IsAsked setup self.old.session key version head body → IsAnswer head.correlation_id reaction answer → OnOk result
            (self.new ≡ with_session self.old (after_reaction reaction head (without_front self.old.session))) }
        ensures err { OnErr result (self.new ≡ with_session self.old (shut_down causes.Memory self.old.session)) }
        // whatever the answer is, also where a refusal spoiled it
        ensures answered { (setup : Setup) (key version : ℤ) (head : Head) (body : List ℕ)
            → IsAsked setup self.old.session key version head body → OnOk result (self.new ≡ with_session self.old (with_answer head answer (without_front self.old.session))) }
        ensures number { self.new.number ≡ self.old.number }
        ensures stage { without_wait self.new.session.stage ≡ without_wait self.old.session.stage }
        ensures limit { self.new.session.limit ≡ self.old.session.limit }
        ensures shrinks { (versions : List ApiVersion) → is_tenants_at versions (in_front self.old.session) ≡ true
            → length self.new.session.unread < length self.old.session.unread }
        ensures free { is_wait answer ≡ false → is_free self.old.session.stage ≡ true → is_free self.new.session.stage ≡ true }
    {
        match answer {
            Answer::Rebalance => {
                self.park(Awaited::Group);
                Ok(())
            }
            Answer::Plain(
                kb_tenant::Answer::Wait {
                    deadline,
                    fetch,
                    ..
                },
            ) => {
                self.park(Awaited::Records { fetch, deadline });
                Ok(())
            }
            Answer::Plain(answer) => {
                let head = self.head_in_front();
                self.skip(); // it is not handed out again
                self.give(head, answer)
            }
        }
    }

    /// Gives an answer to the request that waits on it: a reply ends the wait, and no reply leaves it waiting. Where memory is
    /// refused it is shut.
    #[tactic(auto, using(crate::proofs::Answering::ends, crate::proofs::Answering::tells, crate::proofs::Answering::puts_ending, crate::proofs::Answering::puts_told, crate::proofs::Answering::stage_ended, crate::proofs::Answering::stage_told, crate::proofs::Answering::stage_loud, crate::proofs::Answering::same_limit, crate::proofs::Answering::unread_woken))]
    pub fn wake(&mut self, answer: kb_tenant::Answer) -> Result<(), AllocError>
        ensures ok { (t : ℕ) (wait : Wait) (reaction : tenant.Reaction) → self.old.session.stage ≡ BoundTo t (Some wait)
            → tenant.IsAnswer wait.head.correlation_id reaction answer
            → OnOk result (self.new ≡ with_session self.old (told reaction wait.head self.old.session)) }
        ensures err { OnErr result (self.new ≡ with_session self.old (shut_down causes.Memory self.old.session)) }
        // whatever the answer is, also where a refusal spoiled it
        ensures answered { (t : ℕ) (wait : Wait) → self.old.session.stage ≡ BoundTo t (Some wait)
            → OnOk result (self.new ≡ with_session self.old (answered_again wait.head answer self.old.session)) }
        ensures number { self.new.number ≡ self.old.number }
        ensures stage { without_wait self.new.session.stage ≡ without_wait self.old.session.stage }
        ensures limit { self.new.session.limit ≡ self.old.session.limit }
        ensures waits { (self.new.session.stage ≡ self.old.session.stage) ⊎ (self.new.session.stage ≡ without_wait self.old.session.stage) }
        ensures same { is_quiet answer ≡ true → self.new ≡ self.old }
        ensures ends { is_quiet answer ≡ false → self.new.session.stage ≡ without_wait self.old.session.stage }
        ensures unread { length self.new.session.unread ≤ length self.old.session.unread }
    {
        let head = self.awaiting_head();
        if let kb_tenant::Answer::Reply(_) = &answer {
            self.stop_waiting(); // the reply ends the wait
        }
        self.give(head, answer)
    }

    /// What is kept for its reply of the request whose answer it waits for.
    fn awaiting_head(&self) -> Head
        ensures { (t : ℕ) (wait : Wait) → self.now.session.stage ≡ BoundTo t (Some wait) → result ≡ wait.head }
    {
        match &self.stage {
            Stage::Waits(_, request) => request.head,
            Stage::Greets(_) | Stage::Bound(_) => NO_HEAD,
        }
    }

    /// What of the request in front is kept for its reply.
    fn head_in_front(&self) -> Head
        ensures { (versions : List ApiVersion) → result ≡ head_at versions (in_front self.now.session) }
    {
        match self.unread.next(self.limit) {
            Next::Frame(frame) => head_of_frame(frame.as_slice()),
            Next::More | Next::TooSmall | Next::TooLarge => NO_HEAD,
        }
    }

    /// Leaves the request in front behind, and waits for its answer. It takes no memory.
    fn park(&mut self, awaited: Awaited)
        ensures parked { (versions : List ApiVersion) → self.new ≡ with_session self.old
            (parked (head_at versions (in_front self.old.session)) (awaited_of awaited) (without_front self.old.session)) }
        // no request stands in front of one that was shut
        ensures unshut { (versions : List ApiVersion) → is_tenants_at versions (in_front self.old.session) ≡ true
            → self.old.session.shut ≡ false }
    {
        let is_open = self.shut.is_none();
        let head = self.head_in_front();
        self.skip();
        if is_open {
            self.wait_for(Waiting { head, awaited });
        }
    }

    /// Waits for the answer to a request. One that greets has none, and one that was shut waits for nothing.
    fn wait_for(&mut self, request: Waiting)
        requires { self.old.session.shut ≡ false }
        ensures { self.new ≡ with_session self.old (record self.old.session { stage = waiting (wait_of request) self.old.session.stage }) }
    {
        if let Phase::Bound(tenant) = self.phase() {
            self.stage = Stage::Waits(tenant, request);
        }
    }

    /// Does what an answer to the request of that head says, but for a wait. Where memory is refused it is shut.
    fn give(&mut self, head: Head, answer: kb_tenant::Answer) -> Result<(), AllocError>
        ensures ok { OnOk result (self.new ≡ with_session self.old (with_final_answer head answer self.old.session)) }
        ensures err { OnErr result (self.new ≡ with_session self.old (shut_down causes.Memory self.old.session)) }
        ensures same { is_quiet answer ≡ true → self.new ≡ self.old }
    {
        match answer {
            kb_tenant::Answer::Reply(reply) => {
                let sent = self.send(head, reply);
                if sent.is_err() {
                    self.shut_down(Shut::Memory);
                }
                sent
            }
            kb_tenant::Answer::Shut => {
                self.shut_down(unanswerable(head));
                Ok(())
            }
            kb_tenant::Answer::NoReply | kb_tenant::Answer::Wait { .. } => Ok(()),
        }
    }

    /// Sends a tenant's whole reply to the request of that head: its body behind a throttle time where there is to be one, else as it is,
    /// moved where nothing stands before it. An `Err` leaves everything as it was.
    fn send(&mut self, head: Head, reply: Vec<u8>) -> Result<(), AllocError>
        ensures ok { OnOk result (self.new ≡ with_session self.old (given_reply head reply.items self.old.session)) }
        ensures err { OnErr result (self.new ≡ self.old) }
    {
        if head.is_throttled {
            return self.reply(head, body_of(&reply));
        }
        if self.output.is_empty() {
            self.output = reply;
            return Ok(());
        }
        self.output.extend_from_slice(&reply)
    }

    /// Serves what stands in front of a bound connection, where it is a matter of the connection alone. Where memory is refused
    /// it is shut.
    pub fn serve(&mut self, alloc: Global, setup: &Setup) -> Result<(), AllocError>
        requires { IsOwn setup.now self.old.session }
        ensures ok { (tenant : ℕ) (kept : Kept) (clock n : ℕ)
            → OnOk result (self.new ≡ with_session self.old (after_turn (for_tenant setup.now tenant) kept clock n self.old.session)) }
        ensures err { OnErr result (self.new ≡ with_session self.old (shut_down causes.Memory self.old.session)) }
    {
        match self.unread.next(self.limit) {
            Next::More => Ok(()),
            Next::TooSmall => {
                self.shut_down(Shut::TooShort);
                Ok(())
            }
            Next::TooLarge => {
                self.shut_down(Shut::TooLong);
                Ok(())
            }
            Next::Frame(frame) => {
                let reaction = bound_reaction(alloc, setup, frame.as_slice());
                self.take_turn(alloc, setup, reaction)
            }
        }
    }

    /// Leaves the request in front behind and reacts.
    fn take_turn(
        &mut self,
        alloc: Global,
        setup: &Setup,
        reaction: Result<(Head, Reaction), AllocError>,
    ) -> Result<(), AllocError>
        ensures ok { OnOk result (IfReacts reaction (λ head what.
            self.new ≡ with_session self.old (reacted setup.now what head (without_front self.old.session)))) }
        ensures err { OnErr result (self.new ≡ with_session self.old (shut_down causes.Memory self.old.session)) }
    {
        self.skip(); // the reaction keeps nothing of it
        let done = match reaction {
            Ok((head, reaction)) => self.react(alloc, setup, head, reaction),
            Err(e) => Err(e),
        };
        if done.is_err() {
            self.shut_down(Shut::Memory);
        }
        done
    }

    /// Does what a request came to. An `Err` leaves everything as it was.
    fn react(
        &mut self,
        alloc: Global,
        setup: &Setup,
        head: Head,
        reaction: Reaction,
    ) -> Result<(), AllocError>
        ensures ok { OnOk result (self.new ≡ with_session self.old (reacted setup.now reaction head self.old.session)) }
        ensures err { OnErr result (self.new ≡ self.old) }
    {
        match reaction {
            Reaction::Versions => {
                let body = listed_body(alloc, setup.versions(), head.api_version)?;
                self.reply(head, &body)
            }
            Reaction::OtherVersions => {
                let code = ErrorCode::UnsupportedVersion;
                let body = versions_body(alloc, setup.versions(), code)?;
                self.reply(head, &body)
            }
            Reaction::Accepts(greeting) => {
                let body = handshake_body(alloc, ErrorCode::None)?;
                self.reply(head, &body)?;
                self.stage = Stage::Greets(greeting);
                Ok(())
            }
            Reaction::Handshake(code) => {
                let body = handshake_body(alloc, code)?;
                self.reply(head, &body)
            }
            Reaction::IllegalState => {
                let text = Text::new("illegal SASL state");
                let body = authenticate_body(alloc, ErrorCode::IllegalSaslState, Some(text))?;
                self.reply(head, &body)
            }
            Reaction::LogsIn(known) => {
                let body = authenticate_body(alloc, ErrorCode::None, None)?;
                self.reply(head, &body)?;
                self.bind(known);
                Ok(())
            }
            Reaction::LogsInBare(known) => {
                self.output.extend_from_slice(&EMPTY_FRAME)?;
                self.bind(known);
                Ok(())
            }
            Reaction::Denies(name) => {
                let text = Text::new("authentication failed");
                let body = authenticate_body(
                    alloc,
                    ErrorCode::SaslAuthenticationFailed,
                    Some(text),
                )?;
                self.reply(head, &body)?;
                self.deny(name);
                Ok(())
            }
            Reaction::DeniesBare(name) => {
                self.deny(name);
                Ok(())
            }
            Reaction::Shuts(cause) => {
                self.shut_down(cause);
                Ok(())
            }
        }
    }

    /// A user logged in on it: it is bound to the user's tenant.
    fn bind(&mut self, known: Known)
        ensures { self.new ≡ with_session self.old (bound known self.old.session) }
    {
        self.stage = Stage::Bound(known.tenant);
        self.login = Login::User(known.user);
    }

    /// A login of that name failed on it: it is shut.
    fn deny(&mut self, name: Name)
        ensures { self.new ≡ with_session self.old (shut_down causes.Denied (failed name self.old.session)) }
    {
        self.login = Login::Failed(name);
        self.shut_down(Shut::Denied);
    }

    /// Adds the reply of that head and body to the output. One whose size fits no INT32 is not sent and shuts the connection. An `Err`
    /// leaves everything as it was.
    #[tactic(auto, unfolding(kb_isolation_spec::specs::Session::replied, kb_tenant::specs::Replies::framed))]
    fn reply(&mut self, head: Head, body: &[u8]) -> Result<(), AllocError>
        ensures ok { OnOk result (self.new ≡ with_session self.old (replied head body.now self.old.session)) }
        ensures err { OnErr result (self.new ≡ self.old) }
    {
        if body.len() > REPLY_LIMIT - 4 - throttle_time(head).len() {
            self.shut_down(unanswerable(head));
            return Ok(());
        }
        append_reply(&mut self.output, head, body)
    }
}
