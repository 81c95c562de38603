//! The consumer: the lines of a partition, each once and in order.

ghost use Rattle.std.specs.Prelude.{◌≡◌, ◌≤◌, ◌++◌, true, None, List, ℕ, [], length, string_bytes, IfOk, OnOk, OnErr};
ghost use Rattle.kb_api_group.specs.ClientFrames.{front};
ghost use Rattle.kb_client.specs.Fetched.{arrival_of, fetched_partition};
ghost use Rattle.kb_client.specs.declared.fetching.Fetching.TheVariants.{Ended};
ghost use Rattle.kb_client.specs.Consumer.{Hears, new_consumer, connected, entered, heard, after_fetch, with_records, read_at, fed};
ghost use Rattle.kb_client.specs.Consumer.{fault_at, is_finished};
ghost use Rattle.kb_client.specs.Consumer.{is_due, has_request, without_text, Inputs, OutputsText, IsRequest, ReportsFault};

use crate::arrival::Arrival;
use crate::fault::ClientFault;
use crate::fetching::Fetching;
use crate::found::Found;
use crate::replies::{authenticate_code, body_for, fetched_partition, handshake_code};
use crate::requests;
use crate::stage::Ending;
use crate::target::{Login, Target};
use kb_wire::ReadFault;
use std::alloc::{AllocError, Global};
use std::marker::Model;
use std::mem;

/// A consumer of one partition. A clause sees what it has.
///
/// It logs in and asks for records from an offset on, again and again. Each request follows the reply to the one before. A
/// fault that a reply made stands for good.
#[derive(Drop)]
pub struct ConsumerCore {
    alloc: Global,
    target: Target,
    follow: bool,
    found: Found,
    stage: Fetching,
    asked: bool,
    unread: Vec<u8>,
}

impl Model for ConsumerCore {
    ghost use Rattle.kb_client.specs.Consumer.{Consumer};

    ghost Value = { Consumer };

    ghost view = { λ c. record {
      target = c.target;
      follow = c.follow;
      found = c.found;
      stage = c.stage;
      asked = c.asked;
      unread = c.unread.items;
    } };
}

impl ConsumerCore {
    /// A consumer of the partition of the topic, from an offset on, with no connection yet. It gives at most `wanted` lines.
    /// With `follow` it waits for more at the end. Each text has at most 255 bytes. It takes no memory.
    pub fn new(
        alloc: Global,
        login: Login,
        topic: String,
        partition: i32,
        offset: i64,
        wanted: Option<u64>,
        follow: bool,
    ) -> ConsumerCore
        requires user { length (string_bytes login.user) ≤ 255 }
        requires password { length (string_bytes login.password) ≤ 255 }
        requires topic { length (string_bytes topic) ≤ 255 }
        ensures { result ≡ new_consumer (record {
          user = string_bytes login.user;
          password = string_bytes login.password;
          topic = string_bytes topic;
          partition = partition;
        }) offset wanted follow }
    {
        ConsumerCore {
            alloc,
            target: Target::new(login, topic, partition),
            follow,
            found: Found::new(alloc, offset, wanted),
            stage: Fetching::Closed.wanting(wanted),
            asked: false,
            unread: Vec::new(alloc),
        }
    }

    /// Begins a connection. What the earlier one left unread or untaken is dropped. It takes no memory.
    pub fn connected(&mut self)
        ensures { self.new ≡ connected self.old }
    {
        let stage = self.stage.restarted();
        self.enter(stage);
    }

    /// Takes a piece of what the broker sent.
    ///
    /// `Memory` changes nothing, and the piece counts as not taken. Any other `Err` stands for good.
    pub fn input(&mut self, piece: &[u8]) -> Result<(), ClientFault>
        ensures { Inputs self.old piece.now result self.new }
    {
        if let Some(fault) = self.stage.fault() {
            return Err(fault);
        }
        self.feed(piece)?;
        self.outcome()
    }

    /// Takes the request whose turn it is. It is given once, and nothing until its reply has come.
    ///
    /// An `Err` changes nothing.
    pub fn take_output(&mut self) -> Result<Vec<u8>, ClientFault>
        ensures { OutputsText (λ text. text.items) self.old result self.new }
    {
        if let Some(fault) = self.stage.fault() {
            return Err(fault);
        }
        if self.asked || !self.stage.has_request() {
            return Ok(Vec::new(self.alloc));
        }
        let text = self.request()?;
        self.asked = true;
        Ok(text)
    }

    /// Takes the lines that were found: each value and a line feed, where null is an empty line. It takes no memory.
    pub fn take_lines(&mut self) -> Vec<u8>
        ensures taken { result.items ≡ self.old.found.text }
        ensures emptied { self.new ≡ without_text self.old }
    {
        self.found.take(self.alloc)
    }

    /// Whether each line was taken: so many as were wanted, or all up to an end that was met.
    pub fn finished(&self) -> bool
        ensures { result ≡ is_finished self.now.stage self.now.found.text }
    {
        matches!(self.stage, Fetching::Finished) && self.found.is_taken()
    }

    /// The request of its stage.
    fn request(&self) -> Result<Vec<u8>, AllocError>
        requires { has_request self.now.stage ≡ true }
        ensures { IfOk result (λ text. IsRequest self.now.stage self.now text.items) }
    {
        let id = self.stage.correlation();
        match self.stage {
            Fetching::Handshake => requests::handshake(self.alloc, id),
            Fetching::Authenticate => requests::authenticate(self.alloc, id, &self.target),
            Fetching::Fetch => requests::fetch(
                self.alloc,
                id,
                &self.target,
                self.found.offset(),
                self.follow,
            ),
            Fetching::Closed | Fetching::Finished | Fetching::Ended(_) => Ok(Vec::new(self.alloc)),
        }
    }

    /// Takes a piece, where it has not ended.
    #[tactic(auto, unfolding(crate::specs::Consumer::fed))]
    fn feed(&mut self, piece: &[u8]) -> Result<(), AllocError>
        requires { fault_at self.old.stage ≡ None }
        ensures ok { OnOk result (self.new ≡ fed piece.now self.old) }
        ensures err { OnErr result (self.new ≡ self.old) }
    {
        if self.asked {
            return self.read(piece);
        }
        if !piece.is_empty() {
            self.end(Ending::Protocol);
        }
        Ok(())
    }

    /// Reads the reply, if it is there with this piece.
    fn read(&mut self, piece: &[u8]) -> Result<(), AllocError>
        ensures ok { OnOk result (self.new ≡ read_at (arrival_of (front (self.old.unread ++ piece.now)))
            (self.old.unread ++ piece.now) self.old) }
        ensures err { OnErr result (self.new ≡ self.old) }
    {
        let before = self.unread.len();
        let mut bytes = mem::replace(&mut self.unread, Vec::new(self.alloc));
        let done = match bytes.extend_from_slice(piece) {
            Ok(()) => self.hear_in(&bytes),
            Err(e) => Err(e),
        };
        match done {
            Ok(true) => Ok(()),
            Ok(false) => {
                self.unread = bytes;
                Ok(())
            }
            Err(e) => {
                bytes.truncate(before);
                self.unread = bytes;
                Err(e)
            }
        }
    }

    /// Does what the bytes that came call for. `false`: they are less than a reply.
    ///
    /// An `Err` changes nothing.
    fn hear_in(&mut self, bytes: &[u8]) -> Result<bool, AllocError>
        requires { self.old.unread ≡ [] }
        ensures { Hears self.old bytes.now result self.new }
    {
        match Arrival::of(bytes) {
            Arrival::Part => Ok(false),
            Arrival::Fault => {
                self.end(Ending::Protocol);
                Ok(true)
            }
            Arrival::Reply(frame) => {
                self.hear(frame.as_slice())?;
                Ok(true)
            }
        }
    }

    /// Does what the reply to its request calls for.
    ///
    /// An `Err` changes nothing.
    #[tactic(auto, unfolding(crate::specs::Consumer::heard))]
    fn hear(&mut self, frame: &[u8]) -> Result<(), AllocError>
        ensures ok { OnOk result (self.new ≡ heard frame.now self.old) }
        ensures err { OnErr result (self.new ≡ self.old) }
    {
        let Ok(body) = body_for(self.stage.correlation(), frame) else {
            self.end(Ending::Protocol);
            return Ok(());
        };
        match self.stage {
            Fetching::Handshake => self.enter(Fetching::handshaken(handshake_code(body))),
            Fetching::Authenticate => self.enter(Fetching::logged_in(authenticate_code(body))),
            Fetching::Fetch => self.hear_fetch(body)?,
            Fetching::Closed | Fetching::Finished | Fetching::Ended(_) => {
                self.end(Ending::Protocol);
            }
        }
        Ok(())
    }

    /// Does what the reply of Fetch calls for.
    ///
    /// An `Err` changes nothing.
    fn hear_fetch(&mut self, body: &[u8]) -> Result<(), AllocError>
        ensures ok { OnOk result (self.new ≡ after_fetch (fetched_partition body.now) self.old) }
        ensures err { OnErr result (self.new ≡ self.old) }
    {
        let partition = match fetched_partition(self.alloc, body) {
            Ok(partition) => partition,
            Err(ReadFault::Memory) => return Err(AllocError),
            Err(ReadFault::Wire(_)) => {
                self.end(Ending::Protocol);
                return Ok(());
            }
        };
        if partition.error_code != 0 {
            self.end(Ending::Code(partition.error_code));
            return Ok(());
        }
        match &partition.records {
            Some(records) => self.take_in(records.as_slice()),
            None => self.take_in(&[]),
        }
    }

    /// Finds the lines of the records that a reply has.
    ///
    /// An `Err` changes nothing.
    fn take_in(&mut self, records: &[u8]) -> Result<(), AllocError>
        ensures ok { OnOk result (self.new ≡ with_records records.now self.old) }
        ensures err { OnErr result (self.new ≡ self.old) }
    {
        if records.is_empty() {
            let follow = self.follow;
            self.enter(Fetching::at_end(follow));
            return Ok(());
        }
        if self.found.read(records)? {
            let wanted = self.found.wanted();
            self.enter(Fetching::Fetch.wanting(wanted));
        } else {
            self.end(Ending::Protocol);
        }
        Ok(())
    }

    /// The fault that it ended with, as an answer.
    fn outcome(&self) -> Result<(), ClientFault>
        ensures { ReportsFault self.now.stage result }
    {
        match self.stage.fault() {
            None => Ok(()),
            Some(fault) => Err(fault),
        }
    }

    /// Another request has its turn, and nothing of a reply is there.
    fn enter(&mut self, stage: Fetching)
        ensures { self.new ≡ entered stage self.old }
    {
        self.unread.clear();
        self.unread.shrink_to_fit();
        self.asked = false;
        self.stage = stage;
    }

    /// Ends for good.
    fn end(&mut self, ending: Ending)
        ensures { self.new ≡ entered (Ended ending) self.old }
    {
        self.enter(Fetching::Ended(ending));
    }
}
