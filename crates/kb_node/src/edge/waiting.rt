//! How long an edge waits, and for what.

ghost use Rattle.std.specs.Prelude.{◌≡◌, ◌≢◌, ◌<◌, ◌-◌, ◌*◌, ◌^◌, min, true, false, ℕ, [], ◌∷◌, IfSome};
ghost use Rattle.std.specs.Duration.{as_nanos};
ghost use Rattle.std.specs.List.{list_any};
ghost use Rattle.kb_shares.specs.Shares.{has_room, own_of, piece_for, used_by};
ghost use Rattle.kb_broker.specs.Deadline.{IsQuietBefore};
ghost use Rattle.kb_broker.specs.Hosts.{is_honest};
ghost use Rattle.kb_node.specs.declared.edge.Accepts.TheVariants.{Ready};
ghost use Rattle.kb_node.specs.Cores.{seen};
ghost use Rattle.kb_node.specs.Commits.{next_commit};
ghost use Rattle.kb_node.specs.Deadlines.{first_deadline, first_end};
ghost use Rattle.kb_node.specs.Numbers.{IsInOrder, socket_of};
ghost use Rattle.kb_node.specs.Replies.{holder_place};
ghost use Rattle.kb_node.specs.Waiting.{first_stall_of, least, quiet_millis, stall_of, wait_millis};
ghost use Rattle.kb_node.specs.Waiting.{fits, is_busy, is_nobody, may_be_asked};

use crate::deadlines::patience;
use crate::doors::DOOR;
use crate::edge::beside::BESIDE;
use crate::edge::{Accepts, Edge};
use kb_log::PartitionLog;
use kb_store::Store;
use mio::event::Event;
use std::net::Net;
use std::time::Duration;

/// How long is waited at most, in milliseconds, until what was refused is tried again: an accept, or what a moment had to do.
const REFUSED_WAIT: u64 = 100;

/// How long is waited at most, in milliseconds, where nothing is due: clocks may jump.
const LONG_WAIT: u64 = 1_000;

impl<R: Net, S: Store, L: PartitionLog + Drop> Edge<R, S, L> {
    /// Waits until a socket becomes ready, a new one is there, or the broker may have something to do by the clock of the last turn, and
    /// a second at most; and no time where a socket can go on as it is. What was refused is tried again within 100 ms. An edge that was
    /// bound without a watch does not wait.
    pub fn wait(&mut self)
        ensures seen { seen self.new.host self.new.sockets.items ≡ seen self.old.host self.old.sockets.items }
        ensures busy { IsInOrder (seen self.old.host self.old.sockets.items) → is_busy self.old.accepts self.old.lanes (list_any
            (may_be_asked self.old.shares self.old.replies.pool self.old.inputs.pool self.old.sockets.items) self.old.ready.items) ≡ true
            → IfSome self.new.watch (λ w. as_nanos w.longest ≡ 0) }
        ensures quiet { IsInOrder (seen self.old.host self.old.sockets.items) → is_busy self.old.accepts self.old.lanes (list_any
            (may_be_asked self.old.shares self.old.replies.pool self.old.inputs.pool self.old.sockets.items) self.old.ready.items) ≡ false
            → IfSome self.new.watch (λ w. (next : ℕ)
            × (is_honest S.disk self.old.host.broker → IsQuietBefore next self.old.host.broker.state)
            × (as_nanos w.longest ≡ wait_millis self.old.accepts (quiet_millis (least next (next_commit self.old.host.commits
            ∷ first_deadline self.old.strangers.deadlines.entries
            ∷ first_end 100 self.old.delays.moments.moments.keys
            ∷ min (first_end self.old.reply_millis self.old.silences.unread.moments.keys)
            (first_end 500 self.old.silences.untried.moments.keys)
            ∷ min (first_end self.old.times.request_millis self.old.times.begun.moments.keys)
            (first_end self.old.times.idle_millis self.old.times.looked.moments.keys)
            ∷ first_stall_of self.old.reply_millis self.old.shares self.old.replies.pool self.old.silences.stalls.moments
            self.old.ready.items ∷ [])) self.old.clock self.old.is_left_due) * 1000000)) }
    {
        let longest = self.longest();
        self.listen(longest);
    }

    /// How long is waited at most: not at all where there is something to do at once.
    fn longest(&self) -> Duration
        ensures busy { IsInOrder (seen self.now.host self.now.sockets.items) → is_busy self.now.accepts self.now.lanes (list_any
            (may_be_asked self.now.shares self.now.replies.pool self.now.inputs.pool self.now.sockets.items) self.now.ready.items) ≡ true
            → as_nanos result ≡ 0 }
        ensures quiet { IsInOrder (seen self.now.host self.now.sockets.items) → is_busy self.now.accepts self.now.lanes (list_any
            (may_be_asked self.now.shares self.now.replies.pool self.now.inputs.pool self.now.sockets.items) self.now.ready.items) ≡ false
            → (next : ℕ) × (is_honest S.disk self.now.host.broker → IsQuietBefore next self.now.host.broker.state)
            × (as_nanos result ≡ wait_millis self.now.accepts (quiet_millis (least next (next_commit self.now.host.commits
            ∷ first_deadline self.now.strangers.deadlines.entries
            ∷ first_end 100 self.now.delays.moments.moments.keys
            ∷ min (first_end self.now.reply_millis self.now.silences.unread.moments.keys)
            (first_end 500 self.now.silences.untried.moments.keys)
            ∷ min (first_end self.now.times.request_millis self.now.times.begun.moments.keys)
            (first_end self.now.times.idle_millis self.now.times.looked.moments.keys)
            ∷ first_stall_of self.now.reply_millis self.now.shares self.now.replies.pool self.now.silences.stalls.moments
            self.now.ready.items ∷ [])) self.now.clock self.now.is_left_due) * 1000000) }
    {
        if self.is_busy() {
            Duration::ZERO
        } else {
            self.longest_wait(self.next_deadline())
        }
    }

    /// What the system tells within so long, of sockets and of listeners.
    pub(super) fn listen(&mut self, longest: Duration)
        ensures seen { seen self.new.host self.new.sockets.items ≡ seen self.old.host self.old.sockets.items }
        ensures longest { IfSome self.new.watch (λ w. w.longest ≡ longest) }
    {
        let Some(mut watch) = self.watch.take() else {
            return;
        };
        watch.wait(longest);
        for event in watch.events() {
            self.hear(event);
        }
        self.watch = Some(watch);
    }

    /// Whether there is something to do at once: an accept may find a socket, or a socket that can go on may be asked.
    fn is_busy(&self) -> bool
        ensures accepts { self.now.accepts ≡ Ready → result ≡ true }
        ensures lanes { is_nobody self.now.lanes ≡ false → result ≡ true }
        ensures nobody { self.now.accepts ≢ Ready → is_nobody self.now.lanes ≡ true → self.now.ready.items ≡ [] → result ≡ false }
        ensures exact { IsInOrder (seen self.now.host self.now.sockets.items) → result ≡ is_busy self.now.accepts self.now.lanes
            (list_any (may_be_asked self.now.shares self.now.replies.pool self.now.inputs.pool self.now.sockets.items)
            self.now.ready.items) }
    {
        self.accepts == Accepts::Ready || !self.lanes.is_empty() || self.can_ask_any()
    }

    /// Whether one of the sockets that can go on may be asked.
    fn can_ask_any(&self) -> bool
        ensures any { IsInOrder (seen self.now.host self.now.sockets.items) → result ≡ list_any (may_be_asked self.now.shares
            self.now.replies.pool self.now.inputs.pool self.now.sockets.items) self.now.ready.items }
        ensures nobody { self.now.ready.items ≡ [] → result ≡ false }
    {
        for number in &self.ready {
            if self.can_ask(*number) {
                return true;
            }
        }
        false
    }

    /// How long may be waited where nothing is to be done before a moment.
    fn longest_wait(&self, next: u64) -> Duration
        ensures { as_nanos result ≡ wait_millis self.now.accepts (quiet_millis next self.now.clock self.now.is_left_due) * 1000000 }
    {
        let quiet = quiet_time(next, self.clock, self.is_left_due);
        let millis = match self.accepts {
            Accepts::Refused => quiet.min(REFUSED_WAIT),
            Accepts::Ready | Accepts::Waiting => quiet,
        };
        Duration::from_millis(millis)
    }

    /// The next moment at which there may be something to do: for the broker, for a commit, where a failed login is answered, or where a
    /// socket is closed that kept silent.
    fn next_deadline(&self) -> u64
        ensures { (next : ℕ) × (is_honest S.disk self.now.host.broker → IsQuietBefore next self.now.host.broker.state)
            × (result ≡ least next (next_commit self.now.host.commits ∷ first_deadline self.now.strangers.deadlines.entries
            ∷ first_end 100 self.now.delays.moments.moments.keys
            ∷ min (first_end self.now.reply_millis self.now.silences.unread.moments.keys)
            (first_end 500 self.now.silences.untried.moments.keys)
            ∷ min (first_end self.now.times.request_millis self.now.times.begun.moments.keys)
            (first_end self.now.times.idle_millis self.now.times.looked.moments.keys)
            ∷ first_stall_of self.now.reply_millis self.now.shares self.now.replies.pool self.now.silences.stalls.moments
            self.now.ready.items ∷ [])) }
    {
        self.host
            .broker()
            .next_deadline()
            .min(self.host.commits().next_commit())
            .min(self.strangers.first_deadline())
            .min(self.delays.first_due())
            .min(self.silences.first_end(self.reply_millis))
            .min(self.times.first_end())
            .min(self.first_stall())
    }

    /// The first moment at which a socket is closed that makes others of its holder wait: the greatest number where none does.
    fn first_stall(&self) -> u64
        ensures { result ≡ first_stall_of self.now.reply_millis self.now.shares self.now.replies.pool self.now.silences.stalls.moments
            self.now.ready.items }
    {
        let mut first = u64::MAX;
        for number in &self.ready {
            first = first.min(self.stall_of(*number));
        }
        first
    }

    /// The moment at which a socket is closed that makes that of a connection wait, where one does.
    fn stall_of(&self, number: u64) -> u64
        ensures { result ≡ stall_of self.now.reply_millis self.now.replies.pool self.now.silences.stalls.moments
            (holder_place number self.now.shares) }
    {
        if self.may_ask(number) {
            return u64::MAX;
        }
        let holder = self.shares.holder(number);
        self.silences
            .first_stall(holder, patience(false, self.reply_millis))
    }

    /// Whether more may be asked for by the socket of a connection: its holder has not too much that is unwritten, or awaited. A holder
    /// below its part may always ask for more, whatever others hold.
    pub(super) fn may_ask(&self, number: u64) -> bool
        ensures open { result ≡ has_room (holder_place number self.now.shares) 1 self.now.replies.pool }
        ensures reserved { used_by (holder_place number self.now.shares) self.now.replies.pool
            < own_of (holder_place number self.now.shares) self.now.replies.pool → result ≡ true }
    {
        self.replies.is_open(self.shares.holder(number))
    }

    /// Whether the socket of a connection may be asked now: its holder has not too much of replies, and the request in front fits.
    pub(super) fn can_ask(&self, number: u64) -> bool
        ensures { IsInOrder (seen self.now.host self.now.sockets.items) → result
            ≡ may_be_asked self.now.shares self.now.replies.pool self.now.inputs.pool self.now.sockets.items number }
    {
        self.may_ask(number) && self.may_begin(number)
    }

    /// Whether the request in front of the socket of a connection may be handed on: it is begun, or its size is not known, or it fits.
    fn may_begin(&self, number: u64) -> bool
        ensures { IsInOrder (seen self.now.host self.now.sockets.items) → result
            ≡ fits (piece_for (holder_place number self.now.shares) self.now.inputs.pool) (socket_of number self.now.sockets.items) }
    {
        match self.socket_of(number) {
            Some(socket) => socket.awaited() as u64 <= self.longest_request(number),
            None => true,
        }
    }

    /// How many bytes a request may have that begins on the socket of a connection. One of a holder that has less than its part may be of
    /// any size, whatever others hold, and else it is no longer than what the holder may have more.
    pub(super) fn longest_request(&self, number: u64) -> u64
        ensures longest { result ≡ piece_for (holder_place number self.now.shares) self.now.inputs.pool }
        ensures reserved { used_by (holder_place number self.now.shares) self.now.inputs.pool
            < own_of (holder_place number self.now.shares) self.now.inputs.pool → result ≡ 2 ^ 64 - 1 }
    {
        self.inputs.piece(self.shares.holder(number))
    }

    /// What the system tells of a socket or of a listener.
    fn hear(&mut self, event: &Event)
        ensures { seen self.new.host self.new.sockets.items ≡ seen self.old.host self.old.sockets.items }
    {
        let number = event.token().0 as u64;
        if number == DOOR {
            self.accepts = Accepts::Ready;
            return;
        }
        if number == BESIDE {
            self.is_beside_ready = true;
            return;
        }
        if let Some(place) = self.place_of(number)
            && let Some(socket) = self.sockets.get_mut(place)
        {
            socket.hear(event);
            self.queue(place);
        }
    }
}

/// How long may be waited by that clock where nothing is to be done before a moment, in milliseconds: a second at most. Where the moment
/// has come, it is 100 where what was due at the clock was left due, and else 1.
fn quiet_time(next_deadline: u64, clock: u64, is_left_due: bool) -> u64
    ensures { result ≡ quiet_millis next_deadline clock is_left_due }
{
    let left = next_deadline.saturating_sub(clock);
    if left > 0 {
        left.min(LONG_WAIT)
    } else if is_left_due {
        REFUSED_WAIT
    } else {
        1
    }
}
