//! A broker on a network. A turn waits for no peer.

ghost use Rattle.std.specs.Prelude.{◌≡◌, ◌≤◌, ◌<◌, ◌⊎◌, ◌*◌, ℕ, [], Err, None, Some, IfOk, IfErr, IfSome, OnErr, OnOk};
ghost use Rattle.kb_wire.specs.declared.clock.TheConstants.{MAX_CLOCK};
ghost use Rattle.std.specs.Prelude.{◌≢◌, length, option_map, replicate, slice_get, vec_len};
ghost use Rattle.std.specs.Vec.{vec_capacity};
ghost use Rattle.kb_isolation_spec.specs.Calls.{IsRefusedUnbound};
ghost use Rattle.kb_isolation_spec.specs.Machine.{Moment};
ghost use Rattle.kb_broker.specs.Speakers.{speakers};
ghost use Rattle.kb_node.specs.Bound.{bind_cause, bind_fault};
ghost use Rattle.kb_node.specs.Cores.{cores, seen};
ghost use Rattle.kb_node.specs.Deadlines.{oldest};
ghost use Rattle.kb_node.specs.Known.{lasting};
ghost use Rattle.kb_node.specs.Moves.{Goes, GoesWith, IsAdmitted, IsRunOf, IsTakenIn, IsTurn};
ghost use Rattle.kb_node.specs.Numbers.{IsInOrder, socket_of};
ghost use Rattle.kb_node.specs.Ready.{AreCalled};
ghost use Rattle.kb_node.specs.Seats.{AreSeated, AreSeated-prop};
ghost use Rattle.kb_node.specs.SocketShares.{IsSeated};
ghost use Rattle.kb_node.specs.Streams.{core_of};
ghost use Rattle.kb_node.specs.Traffic.{Happens};
ghost use Rattle.kb_node.specs.Waiting.{socket_at};

mod beside;
mod closing;
mod hearing;
mod rounds;
mod serving;
mod waiting;

use crate::commits::Commits;
use crate::committed::Committed;
use crate::deadlines::Strangers;
use crate::delays::Delays;
use crate::doors::{BindCause, DoorFault, Doors};
use crate::lanes::Lanes;
use crate::limits::Limits;
use crate::news::News;
use crate::reader_waits::ReaderWaits;
use crate::replies::shares_of;
use crate::silences::Silences;
use crate::socket::Socket;
use crate::socket_shares::SocketShares;
use crate::tenant_traffic::TenantTraffic;
use crate::times::Times;
use crate::turn::Turn;
use crate::watch::Watch;
use kb_broker::Broker;
use kb_log::{ListLog, PartitionLog};
use kb_shares::Ledger;
use kb_store::{Store, StoreFault};
use std::alloc::{AllocError, Global};
use std::io;
use std::io::ErrorKind;
use std::net::{Net, OpenStream, SocketAddr};
use std::os::fd::AsRawFd;
use thiserror::Error;

/// The most sockets that a turn accepts.
const ACCEPTS: usize = 1024;

/// How many holders have turns of their own: the tenants, of which settings have at most 256, and those that have not logged in.
const HOLDERS: usize = 257;

/// The most bytes that are read from a socket at once.
const PIECE: usize = 65_536;

/// Whether an accept may find a socket.
#[derive(Clone, Copy, Debug, PartialEq, Eq)]
enum Accepts {
    /// It may.
    Ready,
    /// Not before the system tells of one.
    Waiting,
    /// It was refused, and is tried again.
    Refused,
}

/// Why an edge was not bound.
#[derive(Clone, Copy, Debug, PartialEq, Eq, Error)]
pub enum BindFault {
    /// The address cannot be listened on.
    #[error("the address cannot be listened on")]
    Bind,
    /// Memory was refused.
    #[error("out of memory")]
    Memory,
}

/// An edge that was not bound: its broker is handed back as it was.
#[derive(Drop)]
pub struct BindRefused<S: Store, L: PartitionLog = ListLog> {
    /// Why.
    pub fault: BindFault,
    /// What stood in the way, where it was not memory.
    pub cause: Option<BindCause>,
    /// The broker.
    pub broker: Broker<S, L>,
}

/// A broker and the sockets of its connections, under one listener or more. Its logs are of any kind: a [`ListLog`], in memory, where none
/// is named.
///
/// Each socket that is accepted is a new connection, of a number above all earlier ones. Its bytes are the connection's, in
/// order, and the connection's output is what is written to it. They are handed on a request at a time, in turn among the
/// tenants and the connections of each, and only while the connection has no output to be written and waits for nothing: so a
/// connection that asks and never reads has one reply kept.
#[derive(Drop)]
pub struct Edge<R: Net, S: Store, L: PartitionLog = ListLog> {
    doors: Doors<R>,
    /// The most sockets at a time: more are closed at once.
    limit: usize,
    /// How many of them may be open at a time that have not logged in.
    stranger_limit: u64,
    /// How many milliseconds a socket may take no byte of its reply.
    reply_millis: u64,
    host: Committed<S, L>,
    /// By rising number of their connections.
    sockets: Vec<Socket<R::Stream>>,
    buffer: Vec<u8>,
    /// For whom each of them is counted.
    shares: SocketShares,
    /// The connections of those that have not logged in.
    strangers: Strangers,
    /// Those of them whose failed logins wait for their answers.
    delays: Delays,
    /// What they have still to be written, or is kept free for what is said to the requests of this turn.
    replies: Ledger,
    /// Since when each of those with unwritten output took nothing of it.
    silences: Silences,
    /// How many bytes their begun requests have.
    inputs: Ledger,
    /// By when their requests are to be whole, and since when they are idle.
    times: Times,
    /// What was counted of each tenant, by its place, where that is counted.
    traffic: Vec<TenantTraffic>,
    /// How each tenant waits for its readers, by its place, where that is counted.
    reader_waits: Vec<ReaderWaits>,
    /// Which sockets are ready. With none all are looked at in each turn.
    watch: Option<Watch>,
    accepts: Accepts,
    /// Whether a file beside the sockets became ready since that was asked.
    is_beside_ready: bool,
    /// The connections whose sockets can go on, each once, but for those in line.
    ready: Vec<u64>,
    /// Those of them that are in line for their turn, by holder, those with long requests apart.
    lanes: Lanes,
    /// Those of them that were asked in this turn, and are told.
    asked: Vec<u64>,
    /// An empty list, to be filled while another is gone through.
    spare: Vec<u64>,
    /// What happened in this turn and is told one by one.
    news: News,
    /// The clock of the last turn, in milliseconds.
    clock: u64,
    /// Whether its moment left something due, as it does with what was refused.
    is_left_due: bool,
    ghost within: { vec_len sockets ≤ limit },
    ghost seated: { AreSeated host shares sockets.items } by { AreSeated-prop host shares sockets.items },
}

impl<R: Net, S: Store, L: PartitionLog + Drop> Edge<R, S, L> {
    /// Listens on every address that `HOST:PORT` stands for; at port 0 the system chooses one. Each turn looks at all sockets.
    ///
    /// Where the machine has some of them alone, those are listened on.
    pub fn bind(
        net: &R,
        alloc: Global,
        broker: Broker<S, L>,
        address: &str,
        limits: Limits,
    ) -> Result<Self, BindRefused<S, L>>
        ensures err { IfErr result (λ refused. refused.broker ≡ broker) }
        ensures empty { IfOk result (λ edge. vec_len edge.sockets ≡ 0) }
        ensures host { IfOk result (λ edge. (edge.host.broker ≡ broker) × (edge.host.tried ≡ broker.state.last)) }
        ensures fault { IfOk result (λ edge. edge.host.commits.fault ≡ None) }
        ensures sync { IfOk result (λ edge. edge.host.commits.sync ≡ limits.sync) }
    {
        Edge::open(net, alloc, broker, address, limits, None)
    }

    /// The same, where a turn serves the sockets that [`Edge::wait`] found to be ready. The sockets have to be the system's.
    pub fn watching(
        net: &R,
        alloc: Global,
        broker: Broker<S, L>,
        address: &str,
        limits: Limits,
    ) -> Result<Self, BindRefused<S, L>>
        ensures err { IfErr result (λ refused. refused.broker ≡ broker) }
        ensures empty { IfOk result (λ edge. vec_len edge.sockets ≡ 0) }
        ensures host { IfOk result (λ edge. (edge.host.broker ≡ broker) × (edge.host.tried ≡ broker.state.last)) }
        ensures fault { IfOk result (λ edge. edge.host.commits.fault ≡ None) }
        ensures sync { IfOk result (λ edge. edge.host.commits.sync ≡ limits.sync) }
    {
        match Watch::new(net, alloc) {
            Ok(watch) => Edge::open(net, alloc, broker, address, limits, Some(watch)),
            Err(error) => Err(BindRefused {
                fault: BindFault::Bind,
                cause: Some(BindCause {
                    address: None,
                    error,
                }),
                broker,
            }),
        }
    }

    /// Listens on the addresses.
    #[tactic(auto, using(crate::proofs::Seats::nobody_seated))]
    fn open(
        net: &R,
        alloc: Global,
        broker: Broker<S, L>,
        address: &str,
        limits: Limits,
        watch: Option<Watch>,
    ) -> Result<Self, BindRefused<S, L>>
        ensures err { IfErr result (λ refused. refused.broker ≡ broker) }
        ensures empty { IfOk result (λ edge. vec_len edge.sockets ≡ 0) }
        ensures host { IfOk result (λ edge. (edge.host.broker ≡ broker) × (edge.host.tried ≡ broker.state.last)) }
        ensures fault { IfOk result (λ edge. edge.host.commits.fault ≡ None) }
        ensures sync { IfOk result (λ edge. edge.host.commits.sync ≡ limits.sync) }
        ensures login { IfOk result (λ edge. edge.strangers.millis ≡ limits.login_seconds * 1000) }
        ensures reply { IfOk result (λ edge. edge.reply_millis ≡ limits.reply_seconds * 1000) }
        ensures strangers { IfOk result (λ edge. edge.stranger_limit ≡ limits.strangers) }
        ensures request { IfOk result (λ edge. edge.times.request_millis ≡ limits.request_seconds * 1000) }
        ensures idle { IfOk result (λ edge. edge.times.idle_millis ≡ limits.idle_seconds * 1000) }
    {
        let doors = match Doors::open(net, alloc, address, &watch) {
            Ok(doors) => doors,
            Err(fault) => return Err(refused(fault, broker)),
        };
        let Ok(buffers) = Buffers::new(alloc, limits.sockets as usize) else {
            return Err(refused(DoorFault::Memory, broker));
        };
        let Ok(shares) = SocketShares::new(alloc, u64::from(limits.sockets), &[]) else {
            return Err(refused(DoorFault::Memory, broker));
        };
        let Ok(lanes) = Lanes::new(alloc, HOLDERS) else {
            return Err(refused(DoorFault::Memory, broker));
        };
        let Ok(replies) = shares_of(alloc, u64::from(limits.output_bytes), 0) else {
            return Err(refused(DoorFault::Memory, broker));
        };
        let Ok(inputs) = shares_of(alloc, u64::from(limits.input_bytes), 0) else {
            return Err(refused(DoorFault::Memory, broker));
        };
        Ok(Edge {
            doors,
            limit: limits.sockets as usize,
            stranger_limit: u64::from(limits.strangers),
            reply_millis: u64::from(limits.reply_seconds) * 1000,
            host: Committed::new(broker, Commits::new(limits.sync, limits.sync_ms)),
            sockets: Vec::new(alloc),
            buffer: buffers.buffer,
            shares,
            strangers: Strangers::new(alloc, u64::from(limits.login_seconds) * 1000),
            delays: Delays::new(alloc),
            replies,
            silences: Silences::new(alloc),
            inputs,
            times: Times::new(
                alloc,
                u64::from(limits.request_seconds) * 1000,
                u64::from(limits.idle_seconds) * 1000,
            ),
            traffic: Vec::new(alloc),
            reader_waits: Vec::new(alloc),
            watch,
            accepts: Accepts::Ready,
            is_beside_ready: false,
            ready: buffers.ready,
            lanes,
            asked: buffers.asked,
            spare: buffers.spare,
            news: buffers.news,
            clock: 0,
            is_left_due: false,
        })
    }

    /// Sets what tenants may have of the sockets, and of the bytes of replies and of requests, all for the same tenants. Until then each
    /// may have all sockets, and all share the bytes as one.
    #[tactic(auto, using(crate::proofs::Seats::nobody_seated))]
    pub fn share(&mut self, shares: SocketShares, replies: Ledger, inputs: Ledger)
        requires empty { vec_len self.old.sockets ≡ 0 }
        requires none { shares.sockets ≡ [] }
        ensures shares { self.new.shares ≡ shares }
        ensures replies { self.new.replies ≡ replies }
        ensures inputs { self.new.inputs ≡ inputs }
        ensures host { self.new.host ≡ self.old.host }
        ensures sockets { self.new.sockets ≡ self.old.sockets }
    {
        self.shares = shares;
        self.replies = replies;
        self.inputs = inputs;
    }

    /// How many sockets were closed so far since their tenant may have no more, by the tenants' places.
    pub fn refused_sockets(&self) -> &[u64]
        ensures { result.now ≡ self.now.shares.refused }
    {
        self.shares.refused()
    }

    /// Counts from now on what so many tenants ask and are told, by their places. Memory is asked for here alone: after an `Err` the
    /// edge is as before.
    pub fn count_traffic(&mut self, alloc: Global, tenants: usize) -> Result<(), AllocError>
        ensures ok { OnOk result (self.new.traffic.items
            ≡ replicate tenants (record { requests = replicate 64 0; request_bytes = 0; response_bytes = 0 })) }
        ensures err { OnErr result (self.new ≡ self.old) }
        ensures host { self.new.host ≡ self.old.host }
        ensures sockets { self.new.sockets ≡ self.old.sockets }
    {
        self.traffic = vec![in alloc; TenantTraffic::none(); tenants]?;
        Ok(())
    }

    /// What was counted of the tenant at a place since [`Edge::count_traffic`]: what its connections ask, and what they are told. The
    /// request that logs in is not counted, nor its reply and what comes before it.
    pub fn traffic_of(&self, place: usize) -> Option<&TenantTraffic>
        ensures { option_map (λ t. t.now) result ≡ slice_get self.now.traffic.items place }
    {
        self.traffic.get(place)
    }

    /// Counts from now on how so many tenants wait for those that read their replies, by their places. Memory is asked for here alone:
    /// after an `Err` the edge is as before.
    pub fn count_reader_waits(&mut self, alloc: Global, tenants: usize) -> Result<(), AllocError>
        ensures ok { OnOk result (self.new.reader_waits.items ≡ replicate tenants (record { times = 0; bytes = 0 })) }
        ensures err { OnErr result (self.new ≡ self.old) }
        ensures host { self.new.host ≡ self.old.host }
        ensures sockets { self.new.sockets ≡ self.old.sockets }
    {
        self.reader_waits = vec![in alloc; ReaderWaits::none(); tenants]?;
        Ok(())
    }

    /// What was counted since [`Edge::count_reader_waits`], by the tenants' places.
    pub fn reader_waits(&self) -> &[ReaderWaits]
        ensures { result.now ≡ self.now.reader_waits.items }
    {
        &self.reader_waits
    }

    /// The broker.
    pub fn broker(&self) -> &Broker<S, L>
        ensures { result.now ≡ self.now.host.broker }
    {
        self.host.broker()
    }

    /// The logins of the last turn, and the connections that were closed in it for a cause: of each kind the first 16.
    pub fn news(&self) -> &News
        ensures { result.now ≡ self.now.news }
    {
        &self.news
    }

    /// One moment, in milliseconds and at most 2^62, and then whatever the sockets take and give now.
    ///
    /// With [`Sync::Always`](kb_settings::Sync::Always) a reply goes out only once all that was done before it was made to last: the
    /// sockets of a turn share one commit. With `Interval` there is a commit each so many milliseconds, and with `Never` there is none.
    ///
    /// An `Err` is that of a commit, behind which nothing goes out: then each later turn does nothing but to answer the same.
    #[tactic(auto, using(crate::proofs::Goes::goes_then, crate::proofs::Goes::goes_none))]
    pub fn turn(&mut self, alloc: Global, now: u64) -> Result<Turn, StoreFault>
        requires { now ≤ MAX_CLOCK }
        ensures refused { IfErr result (λ fault. self.new.host.commits.fault ≡ Some fault) }
        ensures well { OnOk result (self.new.host.commits.fault ≡ None) }
        ensures dead { IfSome self.old.host.commits.fault (λ fault. (result ≡ Err fault) × (self.new ≡ self.old)) }
        ensures turn { self.old.host.commits.fault ≡ None → IsTurn S.disk (lasting S.settled S.disk S.loss self.new.host.commits)
            R.Stream.contents R.Stream.remaining now (seen self.old.host self.old.sockets.items)
            (seen self.new.host self.new.sockets.items) }
        ensures run { self.old.host.commits.fault ≡ None → IsRunOf S.disk
            (lasting S.settled S.disk S.loss self.new.host.commits) now self.old.host self.new.host }
        // Nobody waits for nothing: who has something to hear from the broker cannot hear it yet, or can go on. But where as many failed
        // logins wait, or as many can go on as there is room for.
        ensures called { OnOk result (length (speakers self.new.host.broker.state.lines) ≢ length self.new.delays.moments.moments.keys
            → vec_len self.new.ready < vec_capacity self.new.ready → AreCalled self.new.host.broker.state self.new.sockets.items) }
    {
        if let Some(fault) = self.host.commits().fault() {
            return Err(fault);
        }
        let mut turn = Turn::default();
        self.begin(alloc, now);
        self.close_silent(alloc, &mut turn);
        self.accept(alloc, &mut turn);
        self.answer(alloc, now, &mut turn)?;
        self.close_late(alloc, &mut turn);
        self.hear_speakers();
        Ok(turn)
    }

    /// The moment of a turn. Those whom the broker told something then can go on, and failed logins that have waited for long enough.
    fn begin(&mut self, alloc: Global, now: u64)
        requires { now ≤ MAX_CLOCK }
        ensures moment { Happens S.disk (Moment now) self.old.host.broker self.new.host.broker }
        ensures tried { self.new.host.tried ≡ self.old.host.tried }
        ensures sync { self.new.host.commits.sync ≡ self.old.host.commits.sync }
        ensures sockets { cores self.new.sockets.items ≡ cores self.old.sockets.items }
        ensures clock { self.new.clock ≡ now }
        ensures logins { (self.new.news.logins.first.items ≡ []) × (self.new.news.logins.more ≡ 0) }
        ensures denied { (self.new.news.denied.first.items ≡ []) × (self.new.news.denied.more ≡ 0) }
        ensures closed { (self.new.news.closed.first.items ≡ []) × (self.new.news.closed.more ≡ 0) }
    {
        self.host.moment(alloc, now);
        self.is_left_due = self.host.broker().next_deadline() <= now;
        self.hear_speakers();
        self.answer_denied(now);
        self.hear_all();
        self.news.clear();
        self.clock = now;
    }

    /// The failed logins are answered that have waited for long enough.
    fn answer_denied(&mut self, now: u64)
        ensures { seen self.new.host self.new.sockets.items ≡ seen self.old.host self.old.sockets.items }
    {
        for _ in 0..self.limit {
            let Some(number) = self.delays.take_due(now) else {
                break;
            };
            self.let_answer(number);
        }
    }

    /// The failed login of a connection may be answered.
    fn let_answer(&mut self, number: u64)
        ensures { seen self.new.host self.new.sockets.items ≡ seen self.old.host self.old.sockets.items }
    {
        if let Some(place) = self.place_of(number)
            && let Some(socket) = self.sockets.get_mut(place)
        {
            socket.let_answer();
            self.queue(place);
        }
    }

    /// The sockets that can go on are served: all before one commit where replies wait for it, and else one after another.
    ///
    /// An `Err` is that of a commit, behind which nothing goes out.
    #[tactic(auto, using(crate::proofs::Goes::goes_then, crate::proofs::Goes::goes_none))]
    fn answer(&mut self, alloc: Global, now: u64, turn: &mut Turn) -> Result<(), StoreFault>
        ensures refused { IfErr result (λ fault. self.new.host.commits.fault ≡ Some fault) }
        ensures well { OnOk result (self.new.host.commits.fault ≡ None) }
        ensures goes { GoesWith S.disk (lasting S.settled S.disk S.loss self.new.host.commits) R.Stream.contents R.Stream.remaining
            (seen self.old.host self.old.sockets.items) (seen self.new.host self.new.sockets.items) }
    {
        if self.host.commits().holds_back() {
            return self.serve_together(alloc, turn);
        }
        self.host.commit_in_time(now)?;
        self.serve_at_once(alloc, turn);
        Ok(())
    }

    /// Accepts the sockets that wait, at most as many as there may be.
    #[tactic(auto, using(crate::proofs::Goes::goes_then, crate::proofs::Goes::goes_none))]
    fn accept(&mut self, alloc: Global, turn: &mut Turn)
        ensures { Goes S.disk R.Stream.contents R.Stream.remaining (seen self.old.host self.old.sockets.items)
            (seen self.new.host self.new.sockets.items) }
    {
        for _ in 0..ACCEPTS {
            if !self.accept_one(alloc, turn) {
                return;
            }
        }
    }

    /// Accepts a socket that waits: false where there is none, or none can be accepted now.
    #[tactic(auto, using(crate::proofs::Goes::goes_then, crate::proofs::Goes::goes_none))]
    fn accept_one(&mut self, alloc: Global, turn: &mut Turn) -> bool
        ensures { Goes S.disk R.Stream.contents R.Stream.remaining (seen self.old.host self.old.sockets.items)
            (seen self.new.host self.new.sockets.items) }
    {
        if self.accepts == Accepts::Waiting {
            return false;
        }
        match self.doors.accept() {
            Ok((stream, peer)) => {
                self.accepts = Accepts::Ready;
                self.admit(alloc, stream, peer, turn);
                true
            }
            Err(e) => self.may_go_on(e.kind()),
        }
    }

    /// Whether an accept is tried again that was refused for that.
    fn may_go_on(&mut self, kind: ErrorKind) -> bool
        ensures { seen self.new.host self.new.sockets.items ≡ seen self.old.host self.old.sockets.items }
    {
        match kind {
            ErrorKind::Interrupted | ErrorKind::ConnectionAborted => true,
            ErrorKind::WouldBlock => {
                self.accepts = Accepts::Waiting;
                false
            }
            _ => {
                self.accepts = Accepts::Refused;
                false
            }
        }
    }

    /// Takes in a socket where there is room for it. Else it is closed.
    fn admit(&mut self, alloc: Global, stream: R::Stream, peer: SocketAddr, turn: &mut Turn)
        ensures goes { Goes S.disk R.Stream.contents R.Stream.remaining (seen self.old.host self.old.sockets.items)
            (seen self.new.host self.new.sockets.items) }
        ensures admitted { IsAdmitted S.disk R.Stream.contents R.Stream.remaining stream (seen self.old.host self.old.sockets.items)
            (seen self.new.host self.new.sockets.items) }
        // All others stay, but the stranger that came first.
        ensures others { (n : ℕ) → n ≤ self.old.host.tried → Some n ≢ oldest self.old.strangers.deadlines.entries
            → core_of n (cores self.new.sockets.items) ≡ core_of n (cores self.old.sockets.items) }
    {
        turn.count_accepted();
        if !self.make_room(alloc, turn) {
            turn.count_turned_away();
            turn.count_closed();
            return;
        }
        if self.take_in(alloc, stream, peer).is_err() {
            turn.count_closed();
        }
    }

    /// Opens a connection for a socket, below the limit. An `Err` closes the socket: no number is left, or it was refused.
    #[tactic(auto, using(crate::proofs::Goes::goes_then, crate::proofs::Goes::goes_none))]
    fn take_in(&mut self, alloc: Global, stream: R::Stream, peer: SocketAddr) -> io::Result<()>
        requires { vec_len self.now.sockets < self.now.limit }
        ensures goes { Goes S.disk R.Stream.contents R.Stream.remaining (seen self.old.host self.old.sockets.items)
            (seen self.new.host self.new.sockets.items) }
        // It carries that stream for the connection that the broker opened now, of a number above all before, and the others stay.
        ensures socket { OnOk result ((self.old.host.tried < self.new.host.tried) × IsTakenIn stream self.new.host.tried
            (seen self.old.host self.old.sockets.items) (seen self.new.host self.new.sockets.items)) }
        ensures others { OnErr result (self.new.sockets.items ≡ self.old.sockets.items) }
        // No connection opens without a socket.
        ensures unopened { OnErr result ((self.new.host ≡ self.old.host)
            ⊎ IsRefusedUnbound self.old.host.broker.state self.new.host.broker.state) }
    {
        let Some(connection) = self.host.next_number() else {
            return Err(io::Error::from(ErrorKind::QuotaExceeded));
        };
        stream.set_nonblocking(true)?;
        stream.set_nodelay(true)?;
        if let Some(watch) = &self.watch {
            watch.add(stream.as_raw_fd(), connection)?;
        }
        self.sockets.reserve(1)?;
        self.strangers.admit(connection, self.clock)?;
        if self.shares.admit(connection).is_err() {
            return Err(refuse(&mut self.strangers, &mut self.shares, connection));
        }
        if self.host.connect(alloc, connection).is_err() {
            return Err(refuse(&mut self.strangers, &mut self.shares, connection));
        }
        let mut socket = Socket::new(alloc, connection, peer, stream);
        // there is room for each socket once
        socket.is_queued = self.ready.push(connection).is_ok();
        self.sockets.push_reserved(socket);
        Ok(())
    }

    /// The place of a connection's socket, if one carries it.
    fn place_of(&self, number: u64) -> Option<usize>
        ensures within { IfSome result (λ place. place < vec_len self.now.sockets) }
        ensures found { IsInOrder (seen self.now.host self.now.sockets.items)
            → socket_at result self.now.sockets.items ≡ socket_of number self.now.sockets.items }
    {
        self.sockets
            .binary_search_by_key(&number, |socket| socket.connection())
            .ok()
    }

    /// A connection's socket, if one carries it.
    fn socket_of(&self, number: u64) -> Option<&Socket<R::Stream>>
        ensures { IsInOrder (seen self.now.host self.now.sockets.items)
            → option_map (λ s. s.now) result ≡ socket_of number self.now.sockets.items }
    {
        self.sockets.get(self.place_of(number)?)
    }
}

/// A connection could not be kept for want of memory, and is counted for nobody.
fn refuse(strangers: &mut Strangers, shares: &mut SocketShares, connection: u64) -> io::Error
    ensures { IsSeated connection None shares.old shares.new }
{
    strangers.forget(connection);
    shares.release(connection);
    io::Error::from(ErrorKind::OutOfMemory)
}

/// An edge that was not bound.
fn refused<S: Store, L: PartitionLog>(fault: DoorFault, broker: Broker<S, L>) -> BindRefused<S, L>
    ensures broker { result.broker ≡ broker }
    ensures fault { result.fault ≡ bind_fault fault }
    ensures cause { result.cause ≡ bind_cause fault }
{
    match fault {
        DoorFault::Bind(cause) => BindRefused {
            fault: BindFault::Bind,
            cause: Some(cause),
            broker,
        },
        DoorFault::Memory => BindRefused {
            fault: BindFault::Memory,
            cause: None,
            broker,
        },
    }
}

/// What is read into, three empty lists with room for all connections, and those of what is told.
#[derive(Drop)]
struct Buffers {
    buffer: Vec<u8>,
    ready: Vec<u64>,
    asked: Vec<u64>,
    spare: Vec<u64>,
    news: News,
}

impl Buffers {
    fn new(alloc: Global, limit: usize) -> Result<Buffers, AllocError> {
        // a turn may have closed sockets whose turn was to come, and accepted others
        let room = limit.saturating_add(ACCEPTS);
        Ok(Buffers {
            buffer: vec![in alloc; 0u8; PIECE]?,
            ready: Vec::with_capacity(alloc, room)?,
            asked: Vec::with_capacity(alloc, room)?,
            spare: Vec::with_capacity(alloc, room)?,
            news: News::new(alloc)?,
        })
    }
}
