//! A socket and the connection that it carries.

ghost use Rattle.std.specs.Prelude.{◌≡◌, ◌≢◌, ◌≤◌, ◌<◌, ◌+◌, ◌-◌, ◌||◌, ◌&&◌, ◌^◌, min, not, true, false, drop, [], vec_len, nat_lt};
ghost use Rattle.std.specs.Prelude.{None, Some, IfSome};
ghost use Rattle.std.specs.BTreeMap.{insert_entry};
ghost use Rattle.std.specs.Ordering.{nat_cmp};
ghost use Rattle.kb_isolation_spec.specs.Broker.{bound_to};
ghost use Rattle.kb_node.specs.Requests.{awaited};
ghost use Rattle.kb_node.specs.Sockets.{can_ask, is_denial, is_done, is_held};
ghost use Rattle.kb_node.specs.SocketShares.{may_bind, without_socket};
ghost use Rattle.kb_node.specs.declared.socket.Next.TheVariants.{End};

mod asking;
mod carrying;

use crate::committed::Committed;
use crate::input::Input;
use crate::socket_shares::SocketShares;
use crate::tenant_traffic::Heading;
use crate::turn::Turn;
pub use asking::STRANGER_FRAME;
use kb_broker::Broker;
use kb_isolation_spec::Shut;
use kb_log::PartitionLog;
use kb_store::Store;
use mio::event::Event;
use std::alloc::Global;
use std::io::{Read, Write};
use std::mem;
use std::net::SocketAddr;

/// What a socket waits for.
#[derive(Clone, Copy, Debug, PartialEq, Eq)]
pub enum Next {
    /// Nothing: it can go on.
    Turn,
    /// That its connection's waiting request is answered.
    Answer,
    /// That the system has it readable or writable.
    System,
    /// That its failed login may be answered.
    Delay,
    /// Its connection is closed.
    End,
}

/// A socket that never waits, and its connection.
#[derive(Drop)]
pub struct Socket<T> {
    connection: u64,
    peer: SocketAddr,
    stream: T,
    input: Input,
    /// What the broker said last, of which the first `written` bytes have been written.
    output: Vec<u8>,
    written: usize,
    /// The front of the request that was handed on last.
    heading: Heading,
    /// Whether a read may find something.
    can_read: bool,
    /// Whether the peer sends no more than what is there.
    is_half_closed: bool,
    /// Whether the peer has closed, or a read or a write failed.
    is_over: bool,
    /// Whether some of what was read was lost for want of memory. Then it is over, too.
    is_lost: bool,
    /// Whether its connection is closed.
    is_ended: bool,
    /// Whether it was told of that its connection has logged in.
    is_known: bool,
    /// Whether it was told of that a login on its connection failed.
    is_denied: bool,
    /// Since when that login waits for its answer, where it does.
    pub(crate) held: Option<u64>,
    /// Whether a failed login may be answered.
    may_answer: bool,
    /// Whether it was looked at which tenant has it, once it has logged in.
    is_bound: bool,
    /// That tenant's place, where the tenant let it in.
    tenant: Option<usize>,
    /// Whether its turn is to come.
    pub(crate) is_queued: bool,
    /// The moment at which it last took some of its output, or got it.
    pub(crate) moved: u64,
    /// The holder that had it then.
    pub(crate) holder: usize,
    /// Since when the request in front is under way, where one is.
    pub(crate) begun: Option<u64>,
    /// Whether a request became whole since that was noted.
    is_anew: bool,
    /// The moment at which something last came or went, or it was not idle.
    pub(crate) active: u64,
    /// The moment from which it is looked for whether it is idle, where it is looked for.
    pub(crate) looked: Option<u64>,
    ghost within: { written ≤ vec_len output },
}

impl<T: Read + Write + Drop> Socket<T> {
    ghost use Rattle.mio.specs.Event.{is_error, is_read_closed, is_readable, is_write_closed};
    ghost use Rattle.kb_node.specs.Next.{is_asking, is_idle, is_quiet, is_to_be_held, waits_for};
    ghost use Rattle.kb_node.specs.Ready.{can_hear};
    ghost use Rattle.kb_node.specs.Seats.{IsReseated};

    /// A socket whose connection is open.
    pub fn new(alloc: Global, connection: u64, peer: SocketAddr, stream: T) -> Self
        ensures connection { result.connection ≡ connection }
        ensures stream { result.stream ≡ stream }
        ensures open { result.is_ended ≡ false }
        ensures whole { result.is_lost ≡ false }
        ensures reachable { (result.is_over ≡ false) × (result.is_half_closed ≡ false) }
        ensures peer { result.peer ≡ peer }
        ensures readable { result.can_read ≡ true }
        ensures undenied { (result.is_denied ≡ false) × (result.held ≡ None) × (result.may_answer ≡ false) }
        ensures stranger { (result.is_known ≡ false) × (result.is_bound ≡ false) }
        ensures unwritten { drop result.written result.output.items ≡ [] }
        ensures unhanded { drop result.input.handed result.input.bytes.items ≡ [] }
    {
        Socket {
            connection,
            peer,
            stream,
            input: Input::new(alloc),
            output: Vec::new(alloc),
            written: 0,
            heading: Heading::new(),
            can_read: true,
            is_half_closed: false,
            is_over: false,
            is_lost: false,
            is_ended: false,
            is_known: false,
            is_denied: false,
            held: None,
            may_answer: false,
            is_bound: false,
            tenant: None,
            is_queued: false,
            moved: 0,
            holder: 0,
            begun: None,
            is_anew: false,
            active: 0,
            looked: None,
        }
    }

    /// The number of its connection.
    pub fn connection(&self) -> u64
        ensures { result ≡ self.now.connection }
    {
        self.connection
    }

    /// The API key of the request that was handed on last, where it was handed on since that was asked.
    pub fn take_key(&mut self) -> Option<u16>
        ensures key { result ≡ self.old.heading.key }
        ensures rest { self.new ≡ record self.old { heading = record self.old.heading { key = None } } }
    {
        self.heading.take_key()
    }

    /// Whether its connection is closed.
    pub fn is_ended(&self) -> bool
        ensures { result ≡ self.now.is_ended }
    {
        self.is_ended
    }

    /// Whether its connection is open, and it was not told of that it has logged in.
    pub fn is_stranger(&self) -> bool
        ensures { result ≡ (not self.now.is_known && not self.now.is_ended) }
    {
        !self.is_known && !self.is_ended
    }

    /// Whether its login failed, and it is not noted yet since when that waits for its answer.
    pub fn is_to_be_held(&self) -> bool
        ensures { result ≡ is_to_be_held self.now }
    {
        self.is_denied && !self.is_ended && !self.may_answer && self.held.is_none()
    }

    /// Its failed login waits no more, and may be answered.
    pub fn let_answer(&mut self)
        ensures { self.new ≡ record self.old { held = None; may_answer = true } }
    {
        self.held = None;
        self.may_answer = true;
    }

    /// Whether its tenant is known, and it is counted for that.
    pub fn is_bound(&self) -> bool
        ensures { result ≡ self.now.is_bound }
    {
        self.is_bound
    }

    /// How many bytes the request has of which some was handed on: 0 where there is none.
    pub fn begun(&self) -> usize
        ensures { result ≡ self.now.input.progress.size }
    {
        self.input.begun()
    }

    /// How many bytes of that request are still to be handed on.
    pub fn left(&self) -> usize
        ensures { result ≡ self.now.input.progress.left }
    {
        self.input.left()
    }

    /// How many bytes the request in front has of which nothing was handed on: 0 where one is begun, or its size is not there.
    pub fn awaited(&self) -> usize
        ensures { result ≡ awaited self.now.input.progress.left (drop self.now.input.handed self.now.input.bytes.items) }
    {
        self.input.awaited()
    }

    /// Whether a request became whole since that was asked last.
    pub fn take_anew(&mut self) -> bool
        ensures anew { result ≡ self.old.is_anew }
        ensures rest { self.new ≡ record self.old { is_anew = false } }
    {
        mem::replace(&mut self.is_anew, false)
    }

    /// Whether some of a request came whose rest is waited for: nothing is to be written before, and nothing is waited for in the broker.
    pub fn is_under_way<S: Store, L: PartitionLog + Drop>(&self, host: &Committed<S, L>) -> bool
        ensures open { result ≡ true → can_ask self.now.is_over (vec_len self.now.output - self.now.written) self.now.connection
            host.now.broker.state ≡ true }
        ensures asking { result ≡ true → is_asking self.now ≡ true }
        ensures rests { result ≡ (is_quiet self.now host.now.broker.state && is_asking self.now) }
    {
        self.can_ask(host.broker()) && !host.speaks(self.connection) && self.is_asking()
    }

    /// Whether some of a request came, and not all. One whose bytes came before its size was there goes on to be so.
    fn is_asking(&self) -> bool
        ensures { result ≡ is_asking self.now }
    {
        self.input.is_under_way() || self.begun.is_some() && self.input.is_part()
    }

    /// Whether nobody waits for anything: it has logged in, no request is under way, and there is nothing to be written or waited for.
    pub fn is_idle<S: Store, L: PartitionLog + Drop>(&self, host: &Committed<S, L>) -> bool
        ensures bound { result ≡ true → self.now.is_bound ≡ true }
        ensures between { result ≡ true → self.now.input.progress.left ≡ 0 }
        ensures quiet { result ≡ true → can_ask self.now.is_over (vec_len self.now.output - self.now.written) self.now.connection
            host.now.broker.state ≡ true }
        ensures idle { result ≡ is_idle self.now host.now.broker.state }
    {
        self.is_bound
            && self.can_ask(host.broker())
            && !host.speaks(self.connection)
            && self.input.is_empty()
            && !self.input.is_begun()
    }

    /// How many bytes are still to be written.
    pub fn unwritten(&self) -> usize
        ensures { result ≡ vec_len self.now.output - self.now.written }
    {
        self.output.len() - self.written
    }

    /// Whether all that was said to it before is written, and no failed login on it waits.
    pub fn can_hear(&self) -> bool
        ensures { result ≡ can_hear self.now }
    {
        self.unwritten() == 0 && self.held.is_none()
    }

    /// Its turn is to come.
    pub fn note_queued(&mut self)
        ensures { self.new ≡ record self.old { is_queued = true } }
    {
        self.is_queued = true;
    }

    /// A read may find something.
    pub fn hear_any(&mut self)
        ensures { self.new ≡ record self.old { can_read = true } }
    {
        self.can_read = true;
    }

    /// What the system tells of it.
    pub fn hear(&mut self, event: &Event)
        ensures { self.new ≡ record self.old {
          can_read = self.old.can_read || (is_readable event.now || is_read_closed event.now);
          is_half_closed = self.old.is_half_closed || is_read_closed event.now;
          is_over = self.old.is_over || (is_error event.now || is_write_closed event.now);
        } }
    {
        let is_closed = event.is_read_closed();
        self.can_read |= event.is_readable() | is_closed;
        self.is_half_closed |= is_closed;
        self.is_over |= event.is_error() | event.is_write_closed();
    }

    /// Counts the socket for its tenant, where it has logged in now: true. Where the tenant may have no more, or memory is refused, the
    /// connection is to be closed, and what it is told of its login is taken no more.
    fn take_seat<S: Store, L: PartitionLog + Drop>(
        &mut self,
        broker: &Broker<S, L>,
        shares: &mut SocketShares,
        turn: &mut Turn,
    ) -> bool
        ensures connection { self.new.connection ≡ self.old.connection }
        ensures ended { self.new.is_ended ≡ self.old.is_ended }
        ensures over { self.old.is_over ≡ true → self.new.is_over ≡ true }
        ensures rest { self.new ≡ record self.old {
          is_bound = self.new.is_bound;
          tenant = self.new.tenant;
          is_over = self.new.is_over;
        } }
        // Its seat is the one that it has in the shares.
        ensures seat { IsReseated self.old self.new shares.old shares.new }
        ensures stays { (result ≡ true → self.new.is_over ≡ self.old.is_over) × (result ≡ false → self.new.is_over ≡ true) }
        ensures unbound { bound_to self.old.connection broker.now.state ≡ None
            → (result ≡ true) × (self.new ≡ self.old) × (shares.new ≡ shares.old) × (turn.new ≡ turn.old) }
        // It is counted as over a limit only where the tenant may not have it.
        ensures limit { turn.new ≢ turn.old
            → IfSome (bound_to self.old.connection broker.now.state) (λ tenant. (may_bind self.old.connection tenant shares.old ≡ false)
            × (turn.new ≡ record turn.old { over_limit = min (turn.old.over_limit + 1) (2 ^ 64 - 1) })) }
        ensures allowed { self.old.is_bound ≡ false → result ≡ true
            → IfSome (bound_to self.old.connection broker.now.state) (λ tenant. may_bind self.old.connection tenant shares.old ≡ true) }
        // From then on it is bound to the tenant that the broker says, and counted for it, where that has a share, and for nobody else.
        ensures counted { self.old.is_bound ≡ false → result ≡ true → IfSome (bound_to self.old.connection broker.now.state) (λ tenant.
            (self.new.tenant ≡ Some tenant) × (nat_lt tenant shares.old.tenants ≡ true → shares.new.sockets
            ≡ insert_entry nat_cmp (without_socket self.old.connection shares.old.sockets) self.old.connection tenant)) }
        // One that is bound stays as it is.
        ensures once { self.old.is_bound ≡ true
            → (result ≡ true) × (self.new ≡ self.old) × (shares.new ≡ shares.old) × (turn.new ≡ turn.old) }
        ensures read { turn.new.read ≡ turn.old.read }
    {
        if self.is_bound {
            return true;
        }
        let Some(tenant) = broker.tenant_of(self.connection) else {
            return true;
        };
        self.is_bound = true;
        match shares.bind(self.connection, tenant) {
            Ok(true) => {
                self.tenant = Some(tenant);
                return true;
            }
            Ok(false) => turn.count_over_limit(),
            Err(_) => {}
        }
        self.tenant = None;
        self.is_over = true;
        false
    }

    /// Whether a request may be handed on.
    fn can_ask<S: Store, L: PartitionLog + Drop>(&self, broker: &Broker<S, L>) -> bool
        ensures { result ≡ can_ask self.now.is_over (vec_len self.now.output - self.now.written) self.now.connection broker.now.state }
    {
        !self.is_over
            && self.unwritten() == 0
            && !broker.shut(self.connection)
            && !broker.waits(self.connection)
    }

    /// Whether a login on its connection failed, and may not be answered yet.
    fn is_held<S: Store, L: PartitionLog + Drop>(&self, broker: &Broker<S, L>) -> bool
        ensures { result ≡ is_held self.now.may_answer self.now.connection broker.now.state }
    {
        !self.may_answer && is_denial(broker.why(self.connection))
    }

    /// Whether its connection is to be closed.
    fn is_done<S: Store, L: PartitionLog + Drop>(&self, broker: &Broker<S, L>) -> bool
        ensures { result ≡ is_done self.now.is_over self.now.is_half_closed self.now.may_answer
            (vec_len self.now.output - self.now.written) self.now.connection broker.now.state }
    {
        self.is_over
            || self.unwritten() == 0 && broker.shut(self.connection) && !self.is_held(broker)
            || self.is_half_closed && (broker.waits(self.connection) || self.is_held(broker))
    }

    /// What it waits for, where its connection is open.
    fn next<S: Store, L: PartitionLog + Drop>(&self, broker: &Broker<S, L>) -> Next
        ensures next { result ≡ waits_for self.now broker.now.state }
        ensures open { result ≢ End }
    {
        if self.unwritten() > 0 {
            Next::System
        } else if self.is_held(broker) {
            Next::Delay
        } else if broker.waits(self.connection) {
            Next::Answer
        } else if self.can_read || !self.input.is_short() {
            Next::Turn
        } else {
            Next::System
        }
    }
}

/// Whether a connection was shut for a login that failed.
fn is_denial(cause: Option<Shut>) -> bool
    ensures { result ≡ is_denial cause }
{
    matches!(cause, Some(Shut::Denied))
}
