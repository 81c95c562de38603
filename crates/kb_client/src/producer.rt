//! The producer: lines that arrive once and in order.

ghost use Rattle.std.specs.Prelude.{◌≡◌, ◌≤◌, ◌^◌, pos, true, None, length, string_bytes, IfOk, OnOk, OnErr};
ghost use Rattle.kb_wire.specs.declared.clock.TheConstants.{MAX_CLOCK};
ghost use Rattle.kb_client.specs.Producer.{new_producer, connected, entered, ended, heard, sequence, correlation, is_idle, is_due};
ghost use Rattle.kb_client.specs.Producer.{has_request};
ghost use Rattle.kb_client.specs.Producer.{fed};
ghost use Rattle.kb_client.specs.Producer.{Inputs, TakesLine, OutputsText, IsRequest, IsProduce, is_some_line, read_at, acknowledged};
ghost use Rattle.kb_client.specs.Producer.{ReportsFault};
ghost use Rattle.kb_client.specs.Stages.{fault_of};
ghost use Rattle.kb_client.specs.Reactions.{reacted};
ghost use Rattle.kb_api_group.specs.ClientFrames.{front};

use crate::fault::ClientFault;
use crate::line::{Line, MAX_LINE_BYTES};
use crate::reaction::{Reaction, created, identified, logged_in, shaken, stored};
use crate::replies::{
    authenticate_code, body_for, create_code, handshake_code, identity, produce_code,
};
use crate::requests;
use crate::stage::{Ending, ProducerId, Stage};
use crate::target::{Login, Target};
use kb_api_group::{FrameFeed, Next, REPLY_LIMIT};
use std::alloc::{AllocError, Global};
use std::collections::VecDeque;
use std::marker::Model;

/// How many lines are counted at most.
const MAX_LINES: u64 = 1 << 63;

/// A producer of one partition. A clause sees what it has.
///
/// It logs in, creates the topic where that is asked for, asks for a producer id, and sends one line after the other. Each
/// request follows the reply to the one before. A fault that a reply made stands for good.
#[derive(Drop)]
pub struct ProducerCore {
    alloc: Global,
    target: Target,
    create: Option<i32>,
    producer: Option<ProducerId>,
    lines: VecDeque<Line>,
    acknowledged: u64,
    stage: Stage,
    asked: bool,
    unread: FrameFeed,
}

impl Model for ProducerCore {
    ghost use Rattle.std.specs.Prelude.{◌≤◌, ◌+◌, ◌^◌, length};
    ghost use Rattle.kb_client.specs.Producer.{Producer};

    ghost Value = { Producer };

    ghost view = { λ p. record {
      target = p.target;
      create = p.create;
      producer = p.producer;
      lines = p.lines.items;
      acknowledged = p.acknowledged;
      stage = p.stage;
      asked = p.asked;
      unread = p.unread;
    } };

    ghost invariant = { λ p. p.acknowledged + length p.lines.items ≤ 2 ^ 63 };
}

impl ProducerCore {
    /// A producer for the partition of the topic, with no connection yet. With `create` the topic is first made, with so many
    /// partitions. Each text has at most 255 bytes. It takes no memory.
    pub fn new(
        alloc: Global,
        login: Login,
        topic: String,
        partition: i32,
        create: Option<i32>,
    ) -> ProducerCore
        requires user { length (string_bytes login.user) ≤ 255 }
        requires password { length (string_bytes login.password) ≤ 255 }
        requires topic { length (string_bytes topic) ≤ 255 }
        ensures { result ≡ new_producer (record {
          user = string_bytes login.user;
          password = string_bytes login.password;
          topic = string_bytes topic;
          partition = partition;
        }) create }
    {
        ProducerCore {
            alloc,
            target: Target::new(login, topic, partition),
            create,
            producer: None,
            lines: VecDeque::new(alloc),
            acknowledged: 0,
            stage: Stage::Closed,
            asked: false,
            unread: FrameFeed::new(alloc),
        }
    }

    /// Takes a line that was handed in at the moment `now`, in milliseconds. It is copied, and waits for its turn.
    ///
    /// A fault that stands comes first, then `LineTooLong`, then `Memory`. An `Err` changes nothing.
    pub fn line(&mut self, bytes: &[u8], now: u64) -> Result<(), ClientFault>
        requires { now ≤ MAX_CLOCK }
        ensures { TakesLine self.old (record { value = bytes.now; timestamp = pos now }) result self.new }
    {
        if let Some(fault) = self.stage.fault() {
            return Err(fault);
        }
        if bytes.len() > MAX_LINE_BYTES {
            return Err(ClientFault::LineTooLong);
        }
        if self.acknowledged + self.lines.len() as u64 >= MAX_LINES {
            return Err(ClientFault::Memory);
        }
        let line = Line::new(self.alloc, bytes, now)?;
        self.lines.push_back(line)?;
        Ok(())
    }

    /// Begins a connection. What the earlier one left unread or untaken is dropped. It takes no memory.
    pub fn connected(&mut self)
        ensures { self.new ≡ connected self.old }
    {
        let stage = match self.stage {
            Stage::Ended(ending) => Stage::Ended(ending),
            Stage::Closed
            | Stage::Handshake
            | Stage::Authenticate
            | Stage::Create(_)
            | Stage::Identify
            | Stage::Produce(_) => Stage::Handshake,
        };
        self.enter(stage);
    }

    /// How many lines were acknowledged: each is stored.
    pub fn acknowledged(&self) -> u64
        ensures { result ≡ self.now.acknowledged }
    {
        self.acknowledged
    }

    /// Whether nothing is left to do: it is logged in, the topic is made, and each line is acknowledged.
    pub fn idle(&self) -> bool
        ensures { result ≡ is_idle self.now.stage self.now.lines }
    {
        matches!(self.stage, Stage::Produce(_)) && self.lines.is_empty()
    }

    /// Takes the request whose turn it is. It is given once, and nothing until its reply has come.
    ///
    /// An `Err` changes nothing.
    pub fn take_output(&mut self) -> Result<Vec<u8>, ClientFault>
        ensures { OutputsText (λ text. text.items) self.old result self.new }
    {
        if let Some(fault) = self.stage.fault() {
            return Err(fault);
        }
        if !self.is_due() {
            return Ok(Vec::new(self.alloc));
        }
        let text = self.request()?;
        self.asked = true;
        Ok(text)
    }

    /// Takes a piece of what the broker sent.
    ///
    /// `Memory` changes nothing, and the piece counts as not taken. Any other `Err` stands for good.
    pub fn input(&mut self, piece: &[u8]) -> Result<(), ClientFault>
        ensures { Inputs self.old piece.now result self.new }
    {
        if let Some(fault) = self.stage.fault() {
            return Err(fault);
        }
        self.feed(piece)?;
        self.outcome()
    }

    /// Takes a piece, where it has not ended.
    #[tactic(auto, unfolding(crate::specs::Producer::fed))]
    fn feed(&mut self, piece: &[u8]) -> Result<(), AllocError>
        requires { fault_of self.old.stage ≡ None }
        ensures ok { OnOk result (self.new ≡ fed piece.now self.old) }
        ensures err { OnErr result (self.new ≡ self.old) }
    {
        if self.asked {
            self.unread.push(piece)?;
            self.read();
            return Ok(());
        }
        if !piece.is_empty() {
            self.end(Ending::Protocol);
        }
        Ok(())
    }

    /// The fault that it ended with, as an answer.
    fn outcome(&self) -> Result<(), ClientFault>
        ensures { ReportsFault self.now.stage result }
    {
        match self.stage.fault() {
            None => Ok(()),
            Some(fault) => Err(fault),
        }
    }

    /// Whether a request is to be taken.
    fn is_due(&self) -> bool
        ensures { result ≡ is_due self.now }
    {
        !self.asked
            && match self.stage {
                Stage::Closed | Stage::Ended(_) => false,
                Stage::Handshake | Stage::Authenticate | Stage::Create(_) | Stage::Identify => true,
                Stage::Produce(_) => !self.lines.is_empty(),
            }
    }

    /// The request of its stage.
    fn request(&self) -> Result<Vec<u8>, AllocError>
        requires { has_request self.now.stage self.now.lines ≡ true }
        ensures { IfOk result (λ text. IsRequest self.now.stage self.now text.items) }
    {
        let id = self.correlation();
        match self.stage {
            Stage::Handshake => requests::handshake(self.alloc, id),
            Stage::Authenticate => requests::authenticate(self.alloc, id, &self.target),
            Stage::Create(partitions) => requests::create(self.alloc, id, &self.target, partitions),
            Stage::Identify => requests::identify(self.alloc, id),
            Stage::Produce(producer) => self.produce(producer),
            Stage::Closed | Stage::Ended(_) => Ok(Vec::new(self.alloc)),
        }
    }

    /// The request of the first line.
    fn produce(&self, producer: ProducerId) -> Result<Vec<u8>, AllocError>
        requires { is_some_line self.now.lines ≡ true }
        ensures { IfOk result (λ text. IsProduce producer self.now.lines self.now text.items) }
    {
        let Some(line) = self.lines.front() else {
            return Ok(Vec::new(self.alloc));
        };
        let sequence = self.sequence();
        let batch = requests::batch_of(self.alloc, producer, sequence, line)?;
        requests::produce(self.alloc, sequence, &self.target, &batch)
    }

    /// The sequence number of the first line that is not acknowledged.
    fn sequence(&self) -> i32
        ensures { result ≡ sequence self.now }
    {
        (self.acknowledged % (1 << 31)) as i32
    }

    /// The correlation id of the request of its stage.
    fn correlation(&self) -> i32
        ensures { result ≡ correlation self.now.stage self.now }
    {
        match self.stage {
            Stage::Closed | Stage::Ended(_) => 0,
            Stage::Handshake => 1,
            Stage::Authenticate => 2,
            Stage::Create(_) => 3,
            Stage::Identify => 4,
            Stage::Produce(_) => self.sequence(),
        }
    }

    /// Another request has its turn, and nothing of a reply is there.
    fn enter(&mut self, stage: Stage)
        ensures { self.new ≡ entered stage self.old }
    {
        self.unread.clear();
        self.asked = false;
        self.stage = stage;
    }

    /// Ends for good.
    fn end(&mut self, ending: Ending)
        ensures { self.new ≡ ended ending self.old }
    {
        self.enter(Stage::Ended(ending));
    }

    /// Reads the reply, if the unread bytes are one. More than a reply is a fault.
    fn read(&mut self)
        ensures { self.new ≡ read_at (front self.old.unread) self.old }
    {
        let frame = match self.unread.next(REPLY_LIMIT) {
            Next::More => return,
            Next::Frame(frame) => frame.as_slice(),
            Next::TooSmall | Next::TooLarge => return self.end(Ending::Protocol),
        };
        let reaction = self.reaction(frame);
        self.unread.skip(REPLY_LIMIT);
        if self.unread.unread() > 0 {
            return self.end(Ending::Protocol);
        }
        self.react(reaction);
    }

    /// What the reply to its request calls for.
    #[tactic(auto, unfolding(crate::specs::Producer::heard))]
    fn reaction(&self, frame: &[u8]) -> Reaction
        ensures { reacted result self.now ≡ heard frame.now self.now }
    {
        let Ok(body) = body_for(self.correlation(), frame) else {
            return Reaction::Ends(Ending::Protocol);
        };
        match self.stage {
            Stage::Closed | Stage::Ended(_) => Reaction::Ends(Ending::Protocol),
            Stage::Handshake => shaken(handshake_code(body)),
            Stage::Authenticate => logged_in(authenticate_code(body), self.create, self.producer),
            Stage::Create(_) => created(create_code(body), self.producer),
            Stage::Identify => identified(identity(body)),
            Stage::Produce(producer) => stored(produce_code(body), producer),
        }
    }

    /// Does what a reply calls for.
    fn react(&mut self, reaction: Reaction)
        ensures { self.new ≡ reacted reaction self.old }
    {
        match reaction {
            Reaction::Ends(ending) => self.end(ending),
            Reaction::Enters(stage) => self.enter(stage),
            Reaction::Created(stage) => {
                self.create = None;
                self.enter(stage);
            }
            Reaction::Identified(producer) => {
                self.producer = Some(producer);
                self.enter(Stage::Produce(producer));
            }
            Reaction::Stored(producer) => self.acknowledge(producer),
        }
    }

    /// The first line is stored.
    fn acknowledge(&mut self, producer: ProducerId)
        ensures { self.new ≡ acknowledged producer self.old.lines self.old }
    {
        if self.lines.pop_front().is_none() {
            return self.end(Ending::Protocol);
        }
        self.acknowledged += 1;
        self.enter(Stage::Produce(producer));
    }
}
