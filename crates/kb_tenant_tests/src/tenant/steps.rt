//! Requests of a tenant, over logs and files in memory.
//!
//! A frame is written in the words of `words.rt`, from its size on.
ghost use Rattle.std.specs.Prelude.{IfOk};
ghost use Rattle.kb_store.specs.Memory.{memory_disk};
ghost use Rattle.kb_log.specs.ListLog.{list_log};
ghost use Rattle.kb_tenant_state.specs.Parts.{scene};

use crate::words::bytes;
use kb_log::{ListLog, Shelf};
use kb_store::MemoryStore;
use kb_tenant::{Answer, DataLimits, Node, Request, Served, serve};
use kb_tenant_state::Parts;
use kb_wire::{Cursor, Text};
use std::alloc::Global;
use std::process::Abort;
use std::test::Fail;

/// The request in a frame without a client id.
fn request<'a>(rt: &impl Abort, frame: &'a [u8]) -> Result<Request<'a>, Fail> {
    let mut cursor = Cursor::new(frame);
    let size = cursor.i32()?;
    assert_eq!(rt; usize::try_from(size).ok(), frame.len().checked_sub(4));
    let api_key = cursor.i16()?;
    let api_version = cursor.i16()?;
    let correlation_id = cursor.i32()?;
    assert_eq!(rt; cursor.i16()?, -1);
    Ok(Request {
        connection: 1,
        api_key,
        api_version,
        correlation_id,
        body: cursor.rest(),
    })
}

/// A tenant and its files.
#[derive(Drop)]
pub(super) struct Tenant {
    parts: Parts<ListLog>,
    shelf: Shelf<MemoryStore>,
    limits: DataLimits,
}

impl Tenant {
    /// A tenant without topics, which may have so much.
    pub(super) fn new(alloc: Global, limits: DataLimits) -> Result<Tenant, Fail>
        ensures { IfOk result (λ t. (scene list_log (λ s. memory_disk s.files.entries) t.parts t.shelf).sound) }
    {
        let shelf = Shelf::new(alloc, MemoryStore::new(alloc), 0)
            .ok()
            .ok_or("a shelf")?;
        let parts = Parts::new(alloc, "a tenant", 1_048_576)?;
        Ok(Tenant {
            parts,
            shelf,
            limits,
        })
    }

    /// Serves a request, at clock 0.
    fn serve(&mut self, alloc: Global, request: &Request<'_>) -> Served
        requires { (scene list_log (λ s. memory_disk s.files.entries) self.old.parts self.old.shelf).sound }
        ensures { (scene list_log (λ s. memory_disk s.files.entries) self.new.parts self.new.shelf).sound }
    {
        let node = Node {
            host: Text::new("localhost"),
            port: 9092,
            limits: self.limits,
        };
        serve(alloc, &mut self.parts, &mut self.shelf, &node, 0, request)
    }

    /// Serves the request of a text.
    fn ask(&mut self, rt: &impl Abort, alloc: Global, text: &str) -> Result<Served, Fail>
        requires { (scene list_log (λ s. memory_disk s.files.entries) self.old.parts self.old.shelf).sound }
        ensures { (scene list_log (λ s. memory_disk s.files.entries) self.new.parts self.new.shelf).sound }
    {
        let frame = bytes(rt, alloc, text)?;
        let request = request(rt, &frame)?;
        Ok(self.serve(alloc, &request))
    }

    /// Whether a request is served. Else one refusal is counted: the answer says so, and the request is served when it comes
    /// again; or the connection is shut.
    fn is_served_or_refused(
        &mut self,
        rt: &impl Abort,
        alloc: Global,
        text: &str,
        reply: &str,
        refused: &str,
    ) -> Result<bool, Fail>
        requires { (scene list_log (λ s. memory_disk s.files.entries) self.old.parts self.old.shelf).sound }
        ensures { (scene list_log (λ s. memory_disk s.files.entries) self.new.parts self.new.shelf).sound }
    {
        let frame = bytes(rt, alloc, text)?;
        let request = request(rt, &frame)?;
        let reply = bytes(rt, alloc, reply)?;
        let refused = bytes(rt, alloc, refused)?;
        Ok(self.is_served(rt, alloc, &request, &reply, &refused))
    }

    /// The same of a request and the bytes of the two replies.
    fn is_served(
        &mut self,
        rt: &impl Abort,
        alloc: Global,
        request: &Request<'_>,
        reply: &[u8],
        refused: &[u8],
    ) -> bool
        requires { (scene list_log (λ s. memory_disk s.files.entries) self.old.parts self.old.shelf).sound }
        ensures { (scene list_log (λ s. memory_disk s.files.entries) self.new.parts self.new.shelf).sound }
    {
        let served = self.serve(alloc, request);
        if is_reply(&served.answer, reply) {
            assert!(rt; self.parts.refusals() == 0);
            return true;
        }
        assert!(rt; self.parts.refusals() == 1);
        if is_reply(&served.answer, refused) {
            let again = self.serve(alloc, request);
            assert!(rt; is_reply(&again.answer, reply));
        } else {
            assert!(rt; matches!(served.answer, Answer::Shut));
        }
        false
    }

    /// Whether one of some requests, each with its reply and a refusal, is refused. Those behind it are not sent.
    pub(super) fn is_refused(
        &mut self,
        rt: &impl Abort,
        alloc: Global,
        requests: &[[&str; 3]],
    ) -> Result<bool, Fail>
        requires { (scene list_log (λ s. memory_disk s.files.entries) self.old.parts self.old.shelf).sound }
        ensures { (scene list_log (λ s. memory_disk s.files.entries) self.new.parts self.new.shelf).sound }
    {
        for [text, reply, refused] in requests {
            if !self.is_served_or_refused(rt, alloc, text, reply, refused)? {
                return Ok(true);
            }
        }
        Ok(false)
    }

    /// Takes a request, and sees that it shuts its connection.
    pub(super) fn shuts(&mut self, rt: &impl Abort, alloc: Global, text: &str) -> Result<(), Fail>
        requires { (scene list_log (λ s. memory_disk s.files.entries) self.old.parts self.old.shelf).sound }
        ensures { (scene list_log (λ s. memory_disk s.files.entries) self.new.parts self.new.shelf).sound }
    {
        let served = self.ask(rt, alloc, text)?;
        assert!(rt; matches!(served.answer, Answer::Shut), "{text}");
        Ok(())
    }

    /// Takes a request, and sees that it has one of two replies.
    pub(super) fn has_one_of(
        &mut self,
        rt: &impl Abort,
        alloc: Global,
        text: &str,
        replies: [&str; 2],
    ) -> Result<(), Fail>
        requires { (scene list_log (λ s. memory_disk s.files.entries) self.old.parts self.old.shelf).sound }
        ensures { (scene list_log (λ s. memory_disk s.files.entries) self.new.parts self.new.shelf).sound }
    {
        let served = self.ask(rt, alloc, text)?;
        let [first, second] = replies;
        let first = bytes(rt, alloc, first)?;
        let second = bytes(rt, alloc, second)?;
        assert!(rt;
            is_reply(&served.answer, &first) || is_reply(&served.answer, &second),
            "{text}"
        );
        Ok(())
    }
}

/// Whether an answer is that reply.
fn is_reply(answer: &Answer, reply: &[u8]) -> bool {
    match answer {
        Answer::Reply(bytes) => bytes.as_slice() == reply,
        _ => false,
    }
}
