//! A session: a login, and then one task.

ghost use Rattle.std.specs.Prelude.{◌≡◌, ◌++◌, IfOk};
ghost use Rattle.kb_admin.specs.Requests.{task_text};
ghost use Rattle.kb_admin.specs.Session.{new_admin_session, asked_text, performed, after_reply, heard, Comes, PassesCode, StaysUnread};
ghost use Rattle.kb_admin.specs.Session.{moved, settled, stage_after};

use crate::fault::AdminFault;
use crate::listed::Listed;
use crate::short_text::ShortText;
use crate::stage::Stage;
use crate::task::Task;
use crate::{replies, requests};
use kb_api_group::{FrameFeed, Next, REPLY_LIMIT};
use kb_wire::{Array, ReadFault};
use std::alloc::{AllocError, Global};
use std::marker::Model;

/// What the bytes that came from a broker come to.
#[derive(Drop)]
pub enum Heard {
    /// Less than the reply.
    More,
    /// The reply: another request has its turn.
    Next,
    /// The last reply: the topic was made, or deleted.
    Done,
    /// The last reply: these are the topics.
    Topics(Array<Listed>),
}

/// One task on a broker, behind a login. A clause sees what it has.
///
/// Its requests have their turn one after the other: SaslHandshake, SaslAuthenticate, and the task's. Each is sent once the reply to
/// the one before came. An `Err` of `input` ends it.
#[derive(Drop)]
pub struct Session {
    alloc: Global,
    user: ShortText,
    password: ShortText,
    task: Task,
    stage: Stage,
    unread: FrameFeed,
}

impl Model for Session {
    ghost use Rattle.kb_admin.specs.Session.{Session};

    ghost Value = { Session };

    ghost view = { λ s. record { user = s.user; password = s.password; task = s.task; stage = s.stage; unread = s.unread } };
}

impl Session {
    /// A task of a user. The first request has its turn. It takes no memory.
    pub fn new(alloc: Global, user: ShortText, password: ShortText, task: Task) -> Session
        ensures { result ≡ new_admin_session user password task }
    {
        Session {
            alloc,
            user,
            password,
            task,
            stage: Stage::Handshake,
            unread: FrameFeed::new(alloc),
        }
    }

    /// The task that it was opened with.
    pub fn task(&self) -> &Task
        ensures { result.now ≡ self.now.task }
    {
        &self.task
    }

    /// The bytes of the request whose turn it is; none once it ended.
    pub fn request(&self) -> Result<Vec<u8>, AllocError>
        ensures { IfOk result (λ text. text.items ≡ asked_text self.now.stage self.now) }
    {
        let id = self.stage.correlation();
        match self.stage {
            Stage::Handshake => requests::handshake(self.alloc, id),
            Stage::Authenticate => {
                requests::authenticate(self.alloc, id, &self.user, &self.password)
            }
            Stage::Perform => request_of(self.alloc, id, &self.task),
            Stage::Ended => Ok(Vec::new(self.alloc)),
        }
    }

    /// Takes a piece of what the broker sent.
    ///
    /// An `Err` ends it: from then on each call is `Protocol`.
    pub fn input(&mut self, piece: &[u8]) -> Result<Heard, AdminFault>
        ensures answer { Comes (heard (self.old.unread ++ piece.now) self.old) result }
        ensures moved { self.new ≡ moved result (self.old.unread ++ piece.now) self.old }
    {
        let heard = self.read(piece);
        self.settle(&heard);
        heard
    }

    /// What the unread bytes come to with a piece more, which stays where it is less than the reply.
    fn read(&mut self, piece: &[u8]) -> Result<Heard, AdminFault>
        ensures answer { Comes (heard (self.old.unread ++ piece.now) self.old) result }
        ensures rest { self.new ≡ record self.old { unread = self.new.unread } }
        ensures unread { StaysUnread result (self.old.unread ++ piece.now) self.new.unread }
    {
        if self.stage == Stage::Ended {
            return Err(AdminFault::Protocol);
        }
        self.unread.push(piece)?;
        let frame = match self.unread.next(REPLY_LIMIT) {
            Next::More => return Ok(Heard::More),
            Next::Frame(frame) => frame.as_slice(),
            Next::TooSmall | Next::TooLarge => return Err(AdminFault::Protocol),
        };
        let heard = self.reply(frame);
        self.unread.skip(REPLY_LIMIT);
        if self.unread.unread() > 0 {
            return Err(AdminFault::Protocol);
        }
        heard
    }

    /// What the reply to its request comes to.
    fn reply(&self, frame: &[u8]) -> Result<Heard, AdminFault>
        ensures { Comes (after_reply frame.now self.now) result }
    {
        let body = replies::body_for(self.stage.correlation(), frame)?;
        match self.stage {
            Stage::Handshake => passed(replies::handshake_code(self.alloc, body), Heard::Next),
            Stage::Authenticate => {
                passed(replies::authenticate_code(self.alloc, body), Heard::Next)
            }
            Stage::Perform => self.perform(body),
            Stage::Ended => Err(AdminFault::Protocol),
        }
    }

    /// What the reply to the task's request comes to.
    fn perform(&self, body: &[u8]) -> Result<Heard, AdminFault>
        ensures { Comes (performed self.now.task body.now) result }
    {
        match &self.task {
            Task::Create(_) => passed(replies::created_code(self.alloc, body), Heard::Done),
            Task::Delete(_) => passed(replies::deleted_code(self.alloc, body), Heard::Done),
            Task::List => Ok(Heard::Topics(replies::listed_topics(self.alloc, body)?)),
        }
    }

    /// Another request has its turn, or it ended.
    fn settle(&mut self, heard: &Result<Heard, AdminFault>)
        ensures { self.new ≡ settled heard.now self.old }
    {
        if !matches!(heard, Ok(Heard::More)) {
            self.unread.clear();
        }
        self.stage = stage_after(self.stage, heard);
    }
}

/// The request of a task.
fn request_of(alloc: Global, id: i32, task: &Task) -> Result<Vec<u8>, AllocError>
    ensures { IfOk result (λ text. text.items ≡ task_text id task.now) }
{
    match task {
        Task::Create(topic) => requests::create(alloc, id, topic),
        Task::Delete(name) => requests::delete(alloc, id, name),
        Task::List => requests::list(alloc, id),
    }
}

/// What an error code calls for: `heard` where it is none.
fn passed(code: Result<i16, ReadFault>, heard: Heard) -> Result<Heard, AdminFault>
    ensures { PassesCode code heard result }
{
    match code? {
        0 => Ok(heard),
        code => Err(AdminFault::Refused(code)),
    }
}

/// The request whose turn it is after what came.
fn stage_after(stage: Stage, heard: &Result<Heard, AdminFault>) -> Stage
    ensures { result ≡ stage_after stage heard.now }
{
    match heard {
        Ok(Heard::More) => stage,
        Ok(Heard::Next) => stage.next(),
        Ok(Heard::Done | Heard::Topics(_)) | Err(_) => Stage::Ended,
    }
}
