//! How an edge serves its sockets.

ghost use Rattle.std.specs.Prelude.{◌≡◌, ◌≤◌, ◌+◌, ◌-◌, ◌++◌, ◌&&◌, not, true, false, vec_len};
ghost use Rattle.std.specs.Prelude.{None, Some, IfErr, IfSome, OnOk, slice_get, slice_set};
ghost use Rattle.std.specs.Vec.{vec_capacity};
ghost use Rattle.kb_node.specs.Known.{hasty, lasting, telling};
ghost use Rattle.kb_node.specs.Moves.{Goes, GoesTelling, GoesTellingWith, GoesWith};
ghost use Rattle.kb_node.specs.Cores.{seen};
ghost use Rattle.kb_node.specs.Commits.{may_tell, tells_at_once};
ghost use Rattle.kb_shares.specs.Ledger.{set_to};
ghost use Rattle.kb_shares.specs.Shares.{has_room};
ghost use Rattle.kb_shares.specs.Turns.{after_next};
ghost use Rattle.kb_node.specs.Numbers.{IsInOrder, socket_of};
ghost use Rattle.kb_node.specs.Seats.{FreesSeat};
ghost use Rattle.kb_node.specs.TenantTraffic.{with_traffic};
ghost use Rattle.kb_node.specs.Ready.{ComesLast};
ghost use Rattle.kb_node.specs.Replies.{kept_for, holder_place};
ghost use Rattle.kb_node.specs.Waiting.{begun_by, behind, long_ones, long_turns};

use crate::committed::Committed;
use crate::edge::Edge;
use crate::edge::closing::note_reply;
use crate::socket::{Next, Socket};
use crate::socket_shares::SocketShares;
use crate::tenant_traffic::TenantTraffic;
use crate::times::Times;
use crate::turn::Turn;
use kb_log::PartitionLog;
use kb_store::{Store, StoreFault};
use std::alloc::{AllocError, Global};
use std::io::{Read, Write};
use std::mem;
use std::net::Net;

/// How many rounds a turn has at most where replies go out at once. Behind it others are accepted, and what is due is done.
const ROUNDS: usize = 16;

/// How many sockets with little to be done are asked at most in a turn whose replies wait for a commit.
const TOGETHER: usize = 256;

/// Behind them sockets with long requests are asked in such a turn until their requests have so many bytes together.
const LONG_TOGETHER: u64 = 524_288;

/// How many of these are asked at most: a long request has 65,536 bytes or more.
const MOST_LONG: usize = 8;

/// What was seen of a socket, and of a turn, before the socket was served.
#[derive(Clone, Copy)]
struct Before {
    unwritten: usize,
    /// How many bytes are kept free for what it is told of what was asked since.
    promised: usize,
    is_stranger: bool,
    /// What the turn had read and written.
    read: u64,
    written: u64,
}

impl Before {
    fn of<T: Read + Write + Drop>(socket: &Socket<T>, turn: &Turn) -> Before
        ensures { result ≡ record {
          unwritten = vec_len socket.now.output - socket.now.written;
          promised = 0;
          is_stranger = not socket.now.is_known && not socket.now.is_ended;
          read = turn.now.read;
          written = turn.now.written;
        } }
    {
        Before {
            unwritten: socket.unwritten(),
            promised: 0,
            is_stranger: socket.is_stranger(),
            read: turn.read,
            written: turn.written,
        }
    }
}

impl<R: Net, S: Store, L: PartitionLog + Drop> Edge<R, S, L> {
    /// The sockets that can go on are served, a request at a time, tenants in turn. What is said to them goes out at once.
    #[tactic(auto, using(crate::proofs::Goes::goes_then, crate::proofs::Goes::goes_none))]
    pub(super) fn serve_at_once(&mut self, alloc: Global, turn: &mut Turn)
        requires { tells_at_once self.old.host.commits ≡ true }
        ensures commits { tells_at_once self.new.host.commits ≡ true }
        ensures goes { GoesWith S.disk hasty R.Stream.contents R.Stream.remaining (seen self.old.host self.old.sockets.items)
            (seen self.new.host self.new.sockets.items) }
    {
        self.line_up(alloc, true);
        for _ in 0..ROUNDS {
            if self.lanes.is_empty() {
                break;
            }
            self.serve_round(alloc, turn);
        }
    }

    /// A request of each socket whose turn it is is handed on, one commit makes all of them last, and then what is said goes out.
    ///
    /// An `Err` is the commit's: then nothing goes out.
    #[tactic(auto, using(crate::proofs::Goes::goes_then, crate::proofs::Goes::goes_none))]
    pub(super) fn serve_together(
        &mut self,
        alloc: Global,
        turn: &mut Turn,
    ) -> Result<(), StoreFault>
        ensures refused { IfErr result (λ fault. self.new.host.commits.fault ≡ Some fault) }
        ensures well { OnOk result (self.new.host.commits.fault ≡ None) }
        ensures goes { GoesWith S.disk (lasting S.settled S.disk S.loss self.new.host.commits) R.Stream.contents R.Stream.remaining
            (seen self.old.host self.old.sockets.items) (seen self.new.host self.new.sockets.items) }
    {
        self.hand_on(alloc, turn);
        self.hear_speakers();
        self.host.commit(self.clock)?;
        self.tell(alloc, turn);
        self.tell_asked(alloc, turn);
        Ok(())
    }

    /// Serves the socket of a connection once.
    #[tactic(auto, using(crate::proofs::Goes::goes_then, crate::proofs::Goes::goes_none, crate::proofs::Goes::goes_carried, crate::proofs::Telling::telling_none))]
    pub(super) fn serve_one(&mut self, alloc: Global, number: u64, turn: &mut Turn)
        requires { tells_at_once self.old.host.commits ≡ true }
        ensures commits { tells_at_once self.new.host.commits ≡ true }
        ensures lanes { self.new.lanes ≡ self.old.lanes }
        // Nothing is read or handed on where its holder has too much that is unread.
        ensures unasked { has_room (holder_place number self.old.shares) 1 self.old.replies.pool ≡ false
            → GoesTellingWith S.disk hasty R.Stream.contents R.Stream.remaining (seen self.old.host self.old.sockets.items)
            (seen self.new.host self.new.sockets.items) }
        ensures goes { GoesWith S.disk hasty R.Stream.contents R.Stream.remaining (seen self.old.host self.old.sockets.items)
            (seen self.new.host self.new.sockets.items) }
    {
        let may_ask = self.may_ask(number);
        let most = self.longest_request(number);
        let Some(place) = self.place_of(number) else {
            return;
        };
        let Some(socket) = self.sockets.get_mut(place) else {
            return;
        };
        if socket.is_ended() {
            return;
        }
        let before = Before::of(socket, turn);
        let next = socket.serve(
            alloc,
            &mut self.host,
            &mut self.shares,
            &mut self.buffer,
            may_ask,
            most,
            &mut self.news,
            turn,
        );
        count(&mut self.traffic, socket, &self.shares, before, turn);
        leave(socket, &mut self.shares);
        self.note(alloc, place, before, next, turn);
    }

    /// Hands on a request of the next sockets in line, while so little of its holder is awaited that it may ask for more: first of those in
    /// the short lane, and then of some in the long one. All are told, and those that were not asked come first in the next turn.
    #[tactic(auto, using(crate::proofs::Goes::goes_then, crate::proofs::Goes::goes_none))]
    fn hand_on(&mut self, alloc: Global, turn: &mut Turn)
        ensures { Goes S.disk R.Stream.contents R.Stream.remaining (seen self.old.host self.old.sockets.items)
            (seen self.new.host self.new.sockets.items) }
    {
        self.line_up(alloc, true);
        self.hand_on_short(alloc, turn);
        self.hand_on_long(alloc, turn);
    }

    /// The same for those of the short lane, as many as a turn has at most.
    #[tactic(auto, using(crate::proofs::Goes::goes_then, crate::proofs::Goes::goes_none))]
    fn hand_on_short(&mut self, alloc: Global, turn: &mut Turn)
        ensures lanes { self.new.lanes ≡ record self.old.lanes { short = behind 256 self.old.lanes.short } }
        ensures goes { Goes S.disk R.Stream.contents R.Stream.remaining (seen self.old.host self.old.sockets.items)
            (seen self.new.host self.new.sockets.items) }
    {
        for _ in 0..TOGETHER {
            if self.lanes.has_no_short() {
                break;
            }
            self.hand_on_first(alloc, turn);
        }
    }

    /// The same for the one of the short lane whose turn it is.
    #[tactic(auto, using(crate::proofs::Goes::goes_then, crate::proofs::Goes::goes_none))]
    fn hand_on_first(&mut self, alloc: Global, turn: &mut Turn)
        ensures lanes { self.new.lanes ≡ record self.old.lanes { short = after_next self.old.lanes.short } }
        ensures goes { Goes S.disk R.Stream.contents R.Stream.remaining (seen self.old.host self.old.sockets.items)
            (seen self.new.host self.new.sockets.items) }
    {
        if let Some(number) = self.lanes.next_short() {
            self.hand_on_next(alloc, number, turn);
        }
    }

    /// The same for those of the long lane, eight at most, until their requests have too many bytes together.
    #[tactic(auto, using(crate::proofs::Goes::goes_then, crate::proofs::Goes::goes_none))]
    fn hand_on_long(&mut self, alloc: Global, turn: &mut Turn)
        // So many have their turns, and no more.
        ensures lanes { self.new.lanes ≡ record self.old.lanes {
          long = behind (long_turns 8 524288 self.old.lanes.long
              self.old.sockets.items) self.old.lanes.long;
        } }
        ensures goes { Goes S.disk R.Stream.contents R.Stream.remaining (seen self.old.host self.old.sockets.items)
            (seen self.new.host self.new.sockets.items) }
    {
        let mut round = mem::replace(&mut self.spare, Vec::new(alloc));
        self.take_long(&mut round);
        for number in &round {
            self.hand_on_next(alloc, *number, turn);
        }
        round.clear();
        self.spare = round;
    }

    /// Those of the long lane whose turns they are leave it, and come behind those of a list.
    fn take_long(&mut self, round: &mut Vec<u64>)
        ensures lanes { self.new.lanes ≡ record self.old.lanes {
          long = behind (long_turns 8 524288 self.old.lanes.long
              self.old.sockets.items) self.old.lanes.long;
        } }
        // All of them, where there is room for eight.
        ensures taken { vec_len round.old + 8 ≤ vec_capacity round.old → round.new.items
            ≡ round.old.items ++ long_ones 8 524288 self.old.lanes.long self.old.sockets.items }
        ensures rest { (self.new.host ≡ self.old.host) × (self.new.sockets ≡ self.old.sockets) }
    {
        let mut room = LONG_TOGETHER;
        for _ in 0..MOST_LONG {
            let Some(number) = self.lanes.next_long() else {
                break;
            };
            // there is room for each socket once
            let _ = round.push(number);
            room = room.saturating_sub(self.begun_on(number));
            if room == 0 {
                break;
            }
        }
    }

    /// How many bytes the request has that the socket of a connection has begun.
    fn begun_on(&self, number: u64) -> u64
        ensures { IsInOrder (seen self.now.host self.now.sockets.items) → result ≡ begun_by (socket_of number self.now.sockets.items) }
    {
        match self.socket_of(number) {
            Some(socket) => socket.begun() as u64,
            None => 0,
        }
    }

    /// The same for the socket of a connection.
    #[tactic(auto, using(crate::proofs::Goes::goes_then, crate::proofs::Goes::goes_none, crate::proofs::Telling::telling_none))]
    fn hand_on_next(&mut self, alloc: Global, number: u64, turn: &mut Turn)
        ensures lanes { self.new.lanes ≡ self.old.lanes }
        // It is among those that are told, or, where it was not asked, among those that can go on.
        ensures line { (has_room (holder_place number self.old.shares) 1 self.old.replies.pool ≡ true
            → (self.new.ready ≡ self.old.ready) × ComesLast number self.old.asked self.new.asked)
            × (has_room (holder_place number self.old.shares) 1 self.old.replies.pool ≡ false
            → (self.new.asked ≡ self.old.asked) × ComesLast number self.old.ready self.new.ready) }
        // Nothing is read or handed on where its holder has too much that is unread.
        ensures unasked { has_room (holder_place number self.old.shares) 1 self.old.replies.pool ≡ false
            → GoesTelling S.disk R.Stream.contents R.Stream.remaining (seen self.old.host self.old.sockets.items)
            (seen self.new.host self.new.sockets.items) }
        ensures goes { Goes S.disk R.Stream.contents R.Stream.remaining (seen self.old.host self.old.sockets.items)
            (seen self.new.host self.new.sockets.items) }
    {
        let may_ask = self.may_ask(number);
        self.hand_on_one(alloc, number, may_ask, turn);
        self.put_in_line(number, may_ask);
    }

    /// A socket that was asked comes behind all that were not.
    fn put_in_line(&mut self, number: u64, was_asked: bool)
        ensures asked { was_asked ≡ true → (self.new.ready ≡ self.old.ready) × ComesLast number self.old.asked self.new.asked }
        ensures unasked { was_asked ≡ false → (self.new.asked ≡ self.old.asked) × ComesLast number self.old.ready self.new.ready }
        ensures lanes { self.new.lanes ≡ self.old.lanes }
        ensures seen { seen self.new.host self.new.sockets.items ≡ seen self.old.host self.old.sockets.items }
    {
        // there is room for each socket once
        let _ = if was_asked {
            self.asked.push(number)
        } else {
            self.ready.push(number)
        };
    }

    /// Hands on a request of the socket of a connection, where it may ask.
    #[tactic(auto, using(crate::proofs::Goes::goes_then, crate::proofs::Goes::goes_none, crate::proofs::Goes::goes_carried, crate::proofs::Telling::telling_none))]
    fn hand_on_one(&mut self, alloc: Global, number: u64, may_ask: bool, turn: &mut Turn)
        ensures unasked { may_ask ≡ false → GoesTelling S.disk R.Stream.contents R.Stream.remaining
            (seen self.old.host self.old.sockets.items) (seen self.new.host self.new.sockets.items) }
        ensures lanes { self.new.lanes ≡ self.old.lanes }
        ensures line { (self.new.ready ≡ self.old.ready) × (self.new.asked ≡ self.old.asked) }
        ensures goes { Goes S.disk R.Stream.contents R.Stream.remaining (seen self.old.host self.old.sockets.items)
            (seen self.new.host self.new.sockets.items) }
    {
        let most = self.longest_request(number);
        let Some(place) = self.place_of(number) else {
            return;
        };
        let Some(socket) = self.sockets.get_mut(place) else {
            return;
        };
        if socket.is_ended() {
            return;
        }
        let mut before = Before::of(socket, turn);
        before.promised = socket.hand_on(
            alloc,
            &mut self.host,
            &mut self.shares,
            &mut self.buffer,
            may_ask,
            most,
            turn,
        );
        count(&mut self.traffic, socket, &self.shares, before, turn);
        if !self.note_written(alloc, place, before, turn) {
            return;
        }
        self.note_input(alloc, place, before, turn);
    }

    /// Each socket that can go on and was not asked is told what there is to say to it.
    #[tactic(auto, using(crate::proofs::Telling::telling_then, crate::proofs::Telling::telling_none))]
    fn tell(&mut self, alloc: Global, turn: &mut Turn)
        requires { may_tell self.old.host.commits ≡ true }
        ensures commits { self.new.host.commits ≡ self.old.host.commits }
        ensures tells { GoesTellingWith S.disk (telling S.settled S.disk S.loss self.old.host.commits) R.Stream.contents
            R.Stream.remaining (seen self.old.host self.old.sockets.items) (seen self.new.host self.new.sockets.items) }
    {
        let spare = mem::replace(&mut self.spare, Vec::new(alloc));
        let mut round = mem::replace(&mut self.ready, spare);
        for number in &round {
            self.tell_one(alloc, *number, turn);
        }
        round.clear();
        self.spare = round;
    }

    /// Each socket that was asked is told what there is to say to it.
    #[tactic(auto, using(crate::proofs::Telling::telling_then, crate::proofs::Telling::telling_none))]
    fn tell_asked(&mut self, alloc: Global, turn: &mut Turn)
        requires { may_tell self.old.host.commits ≡ true }
        ensures commits { self.new.host.commits ≡ self.old.host.commits }
        ensures tells { GoesTellingWith S.disk (telling S.settled S.disk S.loss self.old.host.commits) R.Stream.contents
            R.Stream.remaining (seen self.old.host self.old.sockets.items) (seen self.new.host self.new.sockets.items) }
    {
        let mut round = mem::replace(&mut self.asked, Vec::new(alloc));
        for number in &round {
            self.tell_one(alloc, *number, turn);
        }
        round.clear();
        self.asked = round;
    }

    /// Tells the socket of a connection what there is to say to it.
    #[tactic(auto, using(crate::proofs::Telling::telling_then, crate::proofs::Telling::telling_none))]
    fn tell_one(&mut self, alloc: Global, number: u64, turn: &mut Turn)
        requires { may_tell self.old.host.commits ≡ true }
        ensures commits { self.new.host.commits ≡ self.old.host.commits }
        ensures tells { GoesTellingWith S.disk (telling S.settled S.disk S.loss self.old.host.commits) R.Stream.contents
            R.Stream.remaining (seen self.old.host self.old.sockets.items) (seen self.new.host self.new.sockets.items) }
    {
        let Some(place) = self.place_of(number) else {
            return;
        };
        let Some(socket) = self.sockets.get_mut(place) else {
            return;
        };
        if socket.is_ended() {
            return;
        }
        let before = Before::of(socket, turn);
        let next = socket.tell(alloc, &mut self.host, &mut self.news, turn);
        count(&mut self.traffic, socket, &self.shares, before, turn);
        leave(socket, &mut self.shares);
        self.note(alloc, place, before, next, turn);
    }

    /// Notes what became of the socket at a place, which was served: whether its login failed, and whether it can go on.
    #[tactic(auto, using(crate::proofs::Telling::telling_then, crate::proofs::Telling::telling_none))]
    fn note(&mut self, alloc: Global, place: usize, before: Before, next: Next, turn: &mut Turn)
        ensures lanes { self.new.lanes ≡ self.old.lanes }
        ensures commits { self.new.host.commits ≡ self.old.host.commits }
        ensures tells { GoesTelling S.disk R.Stream.contents R.Stream.remaining (seen self.old.host self.old.sockets.items)
            (seen self.new.host self.new.sockets.items) }
    {
        self.note_served(place, before);
        if !self.note_denied(alloc, place, turn) {
            return;
        }
        if !self.note_written(alloc, place, before, turn) {
            return;
        }
        if !self.note_input(alloc, place, before, turn) {
            return;
        }
        self.queue_next(place, next);
    }

    /// The socket at a place can go on, where it waits for nothing.
    fn queue_next(&mut self, place: usize, next: Next)
        ensures seen { seen self.new.host self.new.sockets.items ≡ seen self.old.host self.old.sockets.items }
        ensures lanes { self.new.lanes ≡ self.old.lanes }
    {
        if next == Next::Turn {
            self.queue(place);
        }
    }

    /// Notes whether the socket at a place has logged in or ended.
    fn note_served(&mut self, place: usize, before: Before)
        ensures seen { seen self.new.host self.new.sockets.items ≡ seen self.old.host self.old.sockets.items }
        ensures lanes { self.new.lanes ≡ self.old.lanes }
    {
        let Some(socket) = self.sockets.get_mut(place) else {
            return;
        };
        socket.is_queued = false;
        if before.is_stranger && !socket.is_stranger() {
            self.strangers.forget(socket.connection());
        }
        if socket.is_ended() {
            self.replies.release(socket.connection());
            self.times
                .forget(socket.connection(), socket.begun, socket.looked);
            socket.begun = None;
            socket.looked = None;
            self.delays.forget(socket.connection(), socket.held);
            socket.held = None;
        }
    }

    /// Where a login on the socket at a place failed now, it waits for its answer from now on. It answers false where that cannot be noted,
    /// and it is closed.
    #[tactic(auto, using(crate::proofs::Telling::telling_then, crate::proofs::Telling::telling_none))]
    fn note_denied(&mut self, alloc: Global, place: usize, turn: &mut Turn) -> bool
        ensures lanes { self.new.lanes ≡ self.old.lanes }
        ensures commits { self.new.host.commits ≡ self.old.host.commits }
        ensures tells { GoesTelling S.disk R.Stream.contents R.Stream.remaining (seen self.old.host self.old.sockets.items)
            (seen self.new.host self.new.sockets.items) }
    {
        let Some(socket) = self.sockets.get_mut(place) else {
            return false;
        };
        if !socket.is_to_be_held() {
            return true;
        }
        let number = socket.connection();
        socket.held = Some(self.clock);
        if self.delays.begin(number, self.clock).is_err() {
            self.close(alloc, number, turn);
            return false;
        }
        true
    }

    /// Notes what the socket at a place has still to be written, for its own holder. It answers false where that cannot be noted, and it is
    /// closed.
    #[tactic(auto, using(crate::proofs::Telling::telling_then, crate::proofs::Telling::telling_none))]
    fn note_written(&mut self, alloc: Global, place: usize, before: Before, turn: &mut Turn) -> bool
        ensures lanes { self.new.lanes ≡ self.old.lanes }
        ensures line { (self.new.ready ≡ self.old.ready) × (self.new.asked ≡ self.old.asked) }
        ensures commits { self.new.host.commits ≡ self.old.host.commits }
        ensures booked { result ≡ true → IfSome (slice_get self.old.sockets.items place) (λ s. self.new.replies
            ≡ set_to s.connection (holder_place s.connection self.old.shares)
            (kept_for (vec_len s.output - s.written) before.promised) self.old.replies) }
        ensures tells { GoesTelling S.disk R.Stream.contents R.Stream.remaining (seen self.old.host self.old.sockets.items)
            (seen self.new.host self.new.sockets.items) }
    {
        let Some(socket) = self.sockets.get_mut(place) else {
            return false;
        };
        let number = socket.connection();
        let holder = self.shares.holder(number);
        let kept = (socket.unwritten() as u64).saturating_add(before.promised as u64);
        let booked = self.replies.set(number, holder, kept);
        let noted = note_reply(
            &mut self.silences,
            socket,
            holder,
            before.unwritten,
            turn.written > before.written,
            self.clock,
        );
        if booked.is_err() || noted.is_err() {
            self.close(alloc, number, turn);
            return false;
        }
        true
    }

    /// Notes how many bytes the request has that the socket at a place has begun, for its own holder, and since when. It answers false
    /// where that cannot be noted, and it is closed.
    #[tactic(auto, using(crate::proofs::Telling::telling_then, crate::proofs::Telling::telling_none))]
    fn note_input(&mut self, alloc: Global, place: usize, before: Before, turn: &mut Turn) -> bool
        ensures lanes { self.new.lanes ≡ self.old.lanes }
        ensures line { (self.new.ready ≡ self.old.ready) × (self.new.asked ≡ self.old.asked) }
        ensures commits { self.new.host.commits ≡ self.old.host.commits }
        ensures booked { result ≡ true → IfSome (slice_get self.old.sockets.items place) (λ s. self.new.inputs
            ≡ set_to s.connection (holder_place s.connection self.old.shares) s.input.progress.size self.old.inputs) }
        ensures tells { GoesTelling S.disk R.Stream.contents R.Stream.remaining (seen self.old.host self.old.sockets.items)
            (seen self.new.host self.new.sockets.items) }
    {
        let Some(socket) = self.sockets.get_mut(place) else {
            return false;
        };
        let number = socket.connection();
        let begun = socket.begun() as u64;
        let booked = self.inputs.set(number, self.shares.holder(number), begun);
        let has_moved = turn.read > before.read || turn.written > before.written;
        let timed = note_times(&mut self.times, socket, &self.host, has_moved, self.clock);
        if booked.is_err() || timed.is_err() {
            self.close(alloc, number, turn);
            return false;
        }
        true
    }
}

/// Counts for its tenant what was read and written of a socket since it was served, and its request where the API key of one came. One that
/// was not told before that it has logged in is counted for nobody.
fn count<T: Read + Write + Drop>(
    traffic: &mut Vec<TenantTraffic>,
    socket: &mut Socket<T>,
    shares: &SocketShares,
    before: Before,
    turn: &Turn,
)
    ensures socket { socket.new ≡ record socket.old { heading = record socket.old.heading { key = None } } }
    ensures stranger { before.is_stranger ≡ true → traffic.new ≡ traffic.old }
    ensures counted { before.is_stranger ≡ false → let holder = holder_place socket.old.connection shares.now in
        IfSome (slice_get traffic.old.items holder) (λ t. traffic.new.items ≡ slice_set traffic.old.items holder
        (with_traffic socket.old.heading.key (turn.now.read - before.read) (turn.now.written - before.written) t)) }
{
    let holder = shares.holder(socket.connection());
    let key = socket.take_key();
    if before.is_stranger {
        return;
    }
    let Some(traffic) = traffic.get_mut(holder) else {
        return;
    };
    let read = turn.read.saturating_sub(before.read);
    let written = turn.written.saturating_sub(before.written);
    traffic.count(key, read, written);
}

/// A socket whose connection is closed is counted no longer.
fn leave<T: Read + Write + Drop>(socket: &Socket<T>, shares: &mut SocketShares)
    ensures { FreesSeat socket.now shares.old shares.new }
{
    if socket.is_ended() {
        shares.release(socket.connection());
    }
}

/// Notes since when a socket's request is under way, and when it was last used, which it was where something came or went. An `Err` is want
/// of memory: it cannot be known when it is to be closed, and it is closed.
fn note_times<T: Read + Write + Drop, S: Store, L: PartitionLog + Drop>(
    times: &mut Times,
    socket: &mut Socket<T>,
    host: &Committed<S, L>,
    has_moved: bool,
    now: u64,
) -> Result<(), AllocError>
    ensures { socket.new ≡ record socket.old {
      begun = socket.new.begun;
      is_anew = socket.new.is_anew;
      active = socket.new.active;
      looked = socket.new.looked;
    } }
{
    let is_under_way = !socket.is_ended() && socket.is_under_way(host);
    times.note_request(socket, is_under_way, now)?;
    if has_moved || !socket.is_idle(host) {
        socket.active = now;
    }
    if socket.is_bound() && !socket.is_ended() && socket.looked.is_none() {
        socket.looked = times.look_for(socket.connection(), now)?;
    }
    Ok(())
}
