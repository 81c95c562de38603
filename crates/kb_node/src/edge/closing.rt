//! Which sockets an edge closes.

ghost use Rattle.std.specs.Prelude.{◌≡◌, ◌<◌, ◌-◌, ◌⊎◌, ◌&&◌, true, false, nat_lt, if◌then◌else◌};
ghost use Rattle.std.specs.Prelude.{IfSome, OnOk, slice_get, slice_set, vec_len};
ghost use Rattle.std.specs.Bool.{OnTrue};
ghost use Rattle.kb_shares.specs.Ledger.{amount_of, let_go};
ghost use Rattle.kb_shares.specs.Shares.{has_room};
ghost use Rattle.kb_isolation_spec.specs.Calls.{login_on};
ghost use Rattle.kb_node.specs.Closing.{AreDealtWith, ChangesAlone, IsBegunAt, IsClosed, IsClosedUnless, IsForgotten, IsGone, IsPutOff};
ghost use Rattle.kb_node.specs.Closing.{IsRoomMade, IsUsedOfLate, LeavesIfClosed, TookSome, silent_of};
ghost use Rattle.kb_node.specs.Cores.{cores, open_ones, seen};
ghost use Rattle.kb_node.specs.Deadlines.{due, has_moved, oldest, patience, silences_noted, silent, silent_since, stalled};
ghost use Rattle.kb_node.specs.Deadlines.{without_stranger};
ghost use Rattle.kb_node.specs.Moves.{Goes, GoesTelling};
ghost use Rattle.kb_node.specs.Numbers.{socket_of};
ghost use Rattle.kb_node.specs.ReaderWaits.{waited};
ghost use Rattle.kb_node.specs.Replies.{holder_place};
ghost use Rattle.kb_node.specs.SocketShares.{count_of, released};
ghost use Rattle.kb_node.specs.Waiting.{user_in};

use crate::deadlines::{has_moved, patience};
use crate::edge::Edge;
use crate::silences::Silences;
use crate::socket::Socket;
use crate::turn::Turn;
use kb_isolation_spec::Login;
use kb_log::PartitionLog;
use kb_store::Store;
use std::alloc::{AllocError, Global};
use std::io::{Read, Write};
use std::mem;
use std::net::Net;

impl<R: Net, S: Store, L: PartitionLog + Drop> Edge<R, S, L> {
    /// Closes the sockets that have not logged in in time, and those that do not read.
    #[tactic(auto, using(crate::proofs::Goes::goes_then, crate::proofs::Goes::goes_none))]
    pub(super) fn close_silent(&mut self, alloc: Global, turn: &mut Turn)
        ensures { Goes S.disk R.Stream.contents R.Stream.remaining (seen self.old.host self.old.sockets.items)
            (seen self.new.host self.new.sockets.items) }
    {
        self.close_strangers(alloc, turn);
        self.try_again(alloc, turn);
        self.close_unread(alloc, turn);
        self.close_stalled(alloc, turn);
        self.drop_ended(turn);
    }

    /// Closes the sockets that have not logged in in time.
    #[tactic(auto, using(crate::proofs::Goes::goes_then, crate::proofs::Goes::goes_none))]
    fn close_strangers(&mut self, alloc: Global, turn: &mut Turn)
        // Those are closed whose time is over, from the first one on, and no others.
        ensures late { AreDealtWith (λ e. due e.clock e.strangers.deadlines.entries) (λ n a b. IsClosed n (cores a.sockets.items)
            (cores b.sockets.items) × (b.strangers.deadlines.entries ≡ without_stranger n a.strangers.deadlines.entries)
            × (b.clock ≡ a.clock)) (λ e. cores e.sockets.items) self.old.limit self.old self.new }
        ensures goes { Goes S.disk R.Stream.contents R.Stream.remaining (seen self.old.host self.old.sockets.items)
            (seen self.new.host self.new.sockets.items) }
    {
        for _ in 0..self.limit {
            let Some(number) = self.strangers.due(self.clock) else {
                break;
            };
            self.close(alloc, number, turn);
            turn.count_stranger();
        }
    }

    /// Tries the sockets once more that took something of their replies some time ago.
    #[tactic(auto, using(crate::proofs::Goes::goes_then, crate::proofs::Goes::goes_none))]
    fn try_again(&mut self, alloc: Global, turn: &mut Turn)
        // Those are tried that took some of it half a second ago, from the one on that did so first.
        ensures tried { AreDealtWith (λ e. silent e.clock 500 e.silences.untried.moments.keys) (λ n a b. ChangesAlone n
            (cores a.sockets.items) (cores b.sockets.items) × (b.clock ≡ a.clock)) (λ e. cores e.sockets.items)
            self.old.limit self.old self.new }
        ensures goes { Goes S.disk R.Stream.contents R.Stream.remaining (seen self.old.host self.old.sockets.items)
            (seen self.new.host self.new.sockets.items) }
    {
        for _ in 0..self.limit {
            let Some(number) = self.silences.take_untried(self.clock) else {
                break;
            };
            self.write_again(alloc, number, turn);
        }
    }

    /// Closes the sockets that take nothing of their replies. The system tells late of a little room, so each is tried once more before.
    #[tactic(auto, using(crate::proofs::Goes::goes_then, crate::proofs::Goes::goes_none))]
    fn close_unread(&mut self, alloc: Global, turn: &mut Turn)
        // Those are closed that took nothing for so long, from the one on that did so for longest, and no others.
        ensures late { AreDealtWith (λ e. silent e.clock e.reply_millis e.silences.unread.moments.keys) (λ n a b. IsClosedUnless n
            (TookSome n (cores a.sockets.items) (cores b.sockets.items)) (cores a.sockets.items) (cores b.sockets.items)
            × (b.clock ≡ a.clock)) (λ e. cores e.sockets.items)
            self.old.limit self.old self.new }
        ensures goes { Goes S.disk R.Stream.contents R.Stream.remaining (seen self.old.host self.old.sockets.items)
            (seen self.new.host self.new.sockets.items) }
    {
        for _ in 0..self.limit {
            let Some(number) = self.silences.silent(self.clock, self.reply_millis) else {
                break;
            };
            self.close_unless_written(alloc, number, turn);
        }
    }

    /// Closes the socket of a connection, unless it takes something of its reply now.
    #[tactic(auto, using(crate::proofs::Goes::goes_then, crate::proofs::Goes::goes_none))]
    fn close_unless_written(&mut self, alloc: Global, number: u64, turn: &mut Turn)
        ensures unless { IsClosedUnless number (TookSome number (cores self.old.sockets.items) (cores self.new.sockets.items))
            (cores self.old.sockets.items) (cores self.new.sockets.items) }
        ensures clock { self.new.clock ≡ self.old.clock }
        ensures goes { Goes S.disk R.Stream.contents R.Stream.remaining (seen self.old.host self.old.sockets.items)
            (seen self.new.host self.new.sockets.items) }
    {
        if self.write_again(alloc, number, turn) {
            return;
        }
        self.close(alloc, number, turn);
        turn.count_unread();
    }

    /// Where a socket can go on and is not asked, since its holder has too much unread, sockets of that holder are closed that stand in the
    /// way. Those of other holders stay.
    #[tactic(auto, using(crate::proofs::Goes::goes_then, crate::proofs::Goes::goes_none))]
    fn close_stalled(&mut self, alloc: Global, turn: &mut Turn)
        ensures { Goes S.disk R.Stream.contents R.Stream.remaining (seen self.old.host self.old.sockets.items)
            (seen self.new.host self.new.sockets.items) }
    {
        for at in 0..self.ready.len() {
            self.make_way_for(alloc, at, turn);
        }
    }

    /// The same for the one of these sockets at a place, where it may not be asked. That its holder waits for its readers is counted.
    #[tactic(auto, using(crate::proofs::Goes::goes_then, crate::proofs::Goes::goes_none))]
    fn make_way_for(&mut self, alloc: Global, at: usize, turn: &mut Turn)
        // Nothing is counted where it may be asked.
        ensures asked { IfSome (slice_get self.old.ready.items at) (λ n. has_room (holder_place n self.old.shares) 1
            self.old.replies.pool ≡ true → self.new.reader_waits ≡ self.old.reader_waits) }
        ensures goes { Goes S.disk R.Stream.contents R.Stream.remaining (seen self.old.host self.old.sockets.items)
            (seen self.new.host self.new.sockets.items) }
    {
        let Some(number) = self.ready.get(at).copied() else {
            return;
        };
        if self.may_ask(number) {
            return;
        }
        let holder = self.shares.holder(number);
        self.note_reader_wait(holder);
        self.make_way(alloc, holder, turn);
    }

    /// Counts that a socket of a holder is not asked, with the bytes that are counted of its holder's replies.
    fn note_reader_wait(&mut self, holder: usize)
        ensures seen { seen self.new.host self.new.sockets.items ≡ seen self.old.host self.old.sockets.items }
        ensures counted { IfSome (slice_get self.old.reader_waits.items holder) (λ w. self.new.reader_waits.items
            ≡ slice_set self.old.reader_waits.items holder (waited (amount_of holder self.old.replies.bookings) w)) }
    {
        let bytes = self.replies.used(holder);
        if let Some(waits) = self.reader_waits.get_mut(holder) {
            waits.count(bytes);
        }
    }

    /// Closes those sockets of a holder that take nothing of their replies for longest, until it may ask for more.
    #[tactic(auto, using(crate::proofs::Goes::goes_then, crate::proofs::Goes::goes_none))]
    fn make_way(&mut self, alloc: Global, holder: usize, turn: &mut Turn)
        // Those of the holder are closed that took nothing for so long, from the one on that did so for longest, and no others.
        ensures late { AreDealtWith (λ e. stalled holder e.clock (patience (has_room holder 1 e.replies.pool) e.reply_millis)
            e.silences.stalls.moments) (λ n a b. IsClosedUnless n (TookSome n (cores a.sockets.items) (cores b.sockets.items))
            (cores a.sockets.items) (cores b.sockets.items) × (b.clock ≡ a.clock)) (λ e. cores e.sockets.items)
            self.old.limit self.old self.new }
        ensures goes { Goes S.disk R.Stream.contents R.Stream.remaining (seen self.old.host self.old.sockets.items)
            (seen self.new.host self.new.sockets.items) }
    {
        for _ in 0..self.limit {
            let millis = patience(self.replies.is_open(holder), self.reply_millis);
            let Some(number) = self.silences.stalled(holder, self.clock, millis) else {
                break;
            };
            self.close_stalling(alloc, number, turn);
        }
    }

    /// Closes the socket of a connection that makes others wait, unless it takes something of its reply now.
    #[tactic(auto, using(crate::proofs::Goes::goes_then, crate::proofs::Goes::goes_none))]
    fn close_stalling(&mut self, alloc: Global, number: u64, turn: &mut Turn)
        ensures unless { IsClosedUnless number (TookSome number (cores self.old.sockets.items) (cores self.new.sockets.items))
            (cores self.old.sockets.items) (cores self.new.sockets.items) }
        ensures clock { self.new.clock ≡ self.old.clock }
        ensures goes { Goes S.disk R.Stream.contents R.Stream.remaining (seen self.old.host self.old.sockets.items)
            (seen self.new.host self.new.sockets.items) }
    {
        if self.write_again(alloc, number, turn) {
            return;
        }
        self.put_behind(alloc, number);
        self.close(alloc, number, turn);
        turn.count_unread();
    }

    /// Closes the sockets whose requests are not whole in time, and those that are idle for too long. What the system has of them is read
    /// before.
    #[tactic(auto, using(crate::proofs::Goes::goes_then, crate::proofs::Goes::goes_none))]
    pub(super) fn close_late(&mut self, alloc: Global, turn: &mut Turn)
        ensures commits { self.new.host.commits ≡ self.old.host.commits }
        ensures goes { Goes S.disk R.Stream.contents R.Stream.remaining (seen self.old.host self.old.sockets.items)
            (seen self.new.host self.new.sockets.items) }
    {
        self.close_slow(alloc, turn);
        self.close_idle(alloc, turn);
        self.drop_ended(turn);
    }

    /// Closes the sockets whose requests are not whole in time. Where their holder has too much unread the edge reads none of them, and
    /// their time begins anew.
    #[tactic(auto, using(crate::proofs::Goes::goes_then, crate::proofs::Goes::goes_none))]
    fn close_slow(&mut self, alloc: Global, turn: &mut Turn)
        ensures commits { self.new.host.commits ≡ self.old.host.commits }
        // Those are closed, or put off, whose time is over, from the first one on, and no others.
        ensures late { AreDealtWith (λ e. silent e.clock e.times.request_millis e.times.begun.moments.keys) (λ n a b. IsClosedUnless n
            (IsPutOff n a.clock a.shares a.replies.pool b.sockets.items) (cores a.sockets.items) (cores b.sockets.items)
            × (b.clock ≡ a.clock)) (λ e. cores e.sockets.items)
            self.old.limit self.old self.new }
        ensures goes { Goes S.disk R.Stream.contents R.Stream.remaining (seen self.old.host self.old.sockets.items)
            (seen self.new.host self.new.sockets.items) }
    {
        for _ in 0..self.limit {
            let Some(number) = self.times.slow(self.clock) else {
                break;
            };
            self.close_unless_put_off(alloc, number, turn);
        }
    }

    /// Closes the socket of a connection, unless its holder has too much unread and its time can begin anew.
    #[tactic(auto, using(crate::proofs::Goes::goes_then, crate::proofs::Goes::goes_none))]
    fn close_unless_put_off(&mut self, alloc: Global, number: u64, turn: &mut Turn)
        ensures commits { self.new.host.commits ≡ self.old.host.commits }
        ensures unless { IsClosedUnless number (IsPutOff number self.old.clock self.old.shares self.old.replies.pool
            self.new.sockets.items) (cores self.old.sockets.items) (cores self.new.sockets.items) }
        ensures clock { self.new.clock ≡ self.old.clock }
        ensures goes { Goes S.disk R.Stream.contents R.Stream.remaining (seen self.old.host self.old.sockets.items)
            (seen self.new.host self.new.sockets.items) }
    {
        if !self.may_ask(number) && self.put_off(number) {
            return;
        }
        self.close(alloc, number, turn);
        turn.count_slow();
    }

    /// A request has its whole time from now on.
    fn put_off(&mut self, number: u64) -> bool
        ensures host { self.new.host ≡ self.old.host }
        ensures begun { result ≡ true → IsBegunAt number self.old.clock self.new.sockets.items }
        ensures clock { self.new.clock ≡ self.old.clock }
        ensures seen { seen self.new.host self.new.sockets.items ≡ seen self.old.host self.old.sockets.items }
    {
        let Some(place) = self.place_of(number) else {
            return false;
        };
        let Some(socket) = self.sockets.get_mut(place) else {
            return false;
        };
        self.times.put_off(socket, self.clock).is_ok()
    }

    /// Closes the sockets that are idle for too long.
    #[tactic(auto, using(crate::proofs::Goes::goes_then, crate::proofs::Goes::goes_none))]
    fn close_idle(&mut self, alloc: Global, turn: &mut Turn)
        ensures commits { self.new.host.commits ≡ self.old.host.commits }
        // Those are closed whose moment has come to be looked at, from the first one on, but for those that were used since.
        ensures late { AreDealtWith (λ e. silent e.clock e.times.idle_millis e.times.looked.moments.keys) (λ n a b. IsClosedUnless n
            (IfSome (socket_of n a.sockets.items) (IsUsedOfLate a.times.idle_millis a.clock)) (cores a.sockets.items)
            (cores b.sockets.items) × (b.clock ≡ a.clock)) (λ e. cores e.sockets.items) self.old.limit self.old self.new }
        ensures goes { Goes S.disk R.Stream.contents R.Stream.remaining (seen self.old.host self.old.sockets.items)
            (seen self.new.host self.new.sockets.items) }
    {
        for _ in 0..self.limit {
            let Some(number) = self.times.take_looked(self.clock) else {
                break;
            };
            self.close_unless_used(alloc, number, turn);
        }
    }

    /// Closes the socket of a connection, unless it was used of late.
    #[tactic(auto, using(crate::proofs::Goes::goes_then, crate::proofs::Goes::goes_none))]
    fn close_unless_used(&mut self, alloc: Global, number: u64, turn: &mut Turn)
        ensures commits { self.new.host.commits ≡ self.old.host.commits }
        ensures unless { IsClosedUnless number (IfSome (socket_of number self.old.sockets.items) (IsUsedOfLate
            self.old.times.idle_millis self.old.clock)) (cores self.old.sockets.items) (cores self.new.sockets.items) }
        ensures clock { self.new.clock ≡ self.old.clock }
        ensures goes { Goes S.disk R.Stream.contents R.Stream.remaining (seen self.old.host self.old.sockets.items)
            (seen self.new.host self.new.sockets.items) }
    {
        if self.is_used(number) {
            return;
        }
        self.close(alloc, number, turn);
        turn.count_idle();
    }

    /// Whether a socket was used of late, or something is waited for, which is looked at again once it may be idle for too long.
    fn is_used(&mut self, number: u64) -> bool
        ensures host { self.new.host ≡ self.old.host }
        ensures used { result ≡ true → IfSome (socket_of number self.old.sockets.items) (IsUsedOfLate self.old.times.idle_millis
            self.old.clock) }
        ensures clock { self.new.clock ≡ self.old.clock }
        ensures seen { seen self.new.host self.new.sockets.items ≡ seen self.old.host self.old.sockets.items }
    {
        let Some(place) = self.place_of(number) else {
            return true;
        };
        let Some(socket) = self.sockets.get_mut(place) else {
            return true;
        };
        let since = if socket.is_idle(&self.host) {
            socket.active
        } else {
            self.clock
        };
        socket.looked = None;
        if self.times.is_idle_too_long(since, self.clock) {
            return false;
        }
        match self.times.look_for(number, since) {
            Ok(looked) => {
                socket.looked = looked;
                true
            }
            Err(_) => false,
        }
    }

    /// Writes what a socket takes now of its reply. It answers whether it took some: then its silence begins anew, or, where that cannot be
    /// noted, it is closed.
    #[tactic(auto, using(crate::proofs::Goes::goes_then, crate::proofs::Goes::goes_none))]
    fn write_again(&mut self, alloc: Global, number: u64, turn: &mut Turn) -> bool
        ensures alone { ChangesAlone number (cores self.old.sockets.items) (cores self.new.sockets.items) }
        ensures took { result ≡ true → TookSome number (cores self.old.sockets.items) (cores self.new.sockets.items)
            ⊎ IsGone number (cores self.new.sockets.items) }
        ensures clock { self.new.clock ≡ self.old.clock }
        ensures goes { Goes S.disk R.Stream.contents R.Stream.remaining (seen self.old.host self.old.sockets.items)
            (seen self.new.host self.new.sockets.items) }
    {
        let Some(place) = self.place_of(number) else {
            return false;
        };
        let Some(socket) = self.sockets.get_mut(place) else {
            return false;
        };
        let before = socket.unwritten();
        if before == 0 {
            return false;
        }
        if socket.is_ended() {
            return false;
        }
        socket.write_on(turn);
        let after = socket.unwritten();
        if after == before {
            return false;
        }
        socket.active = self.clock;
        let holder = self.shares.holder(number);
        let booked = self.replies.set(number, holder, after as u64);
        let noted = note_reply(&mut self.silences, socket, holder, before, true, self.clock);
        self.count_written(holder, before.saturating_sub(after));
        if booked.is_err() || noted.is_err() {
            self.close(alloc, number, turn);
            return true;
        }
        self.queue(place);
        true
    }

    /// Counts bytes that were written, for the tenant that has their socket.
    fn count_written(&mut self, holder: usize, bytes: usize)
        ensures clock { self.new.clock ≡ self.old.clock }
        ensures seen { seen self.new.host self.new.sockets.items ≡ seen self.old.host self.old.sockets.items }
    {
        if let Some(traffic) = self.traffic.get_mut(holder) {
            traffic.count_bytes(0, bytes as u64);
        }
    }

    /// Where a socket is closed that made all wait, the others of its user that wait for their turn go behind all: else each of them
    /// could make all wait once more.
    fn put_behind(&mut self, alloc: Global, number: u64)
        ensures clock { self.new.clock ≡ self.old.clock }
        ensures seen { seen self.new.host self.new.sockets.items ≡ seen self.old.host self.old.sockets.items }
    {
        let user = self.user_of(number);
        let spare = mem::replace(&mut self.spare, Vec::new(alloc));
        let mut round = mem::replace(&mut self.ready, spare);
        self.queue_those(&round, user, false);
        self.queue_those(&round, user, true);
        round.clear();
        self.spare = round;
    }

    /// The place of the user who logged in on a connection, where one did.
    fn user_of(&self, number: u64) -> Option<usize>
        ensures { result ≡ user_in (login_on number self.now.host.broker.state) }
    {
        match self.host.broker().login_of(number) {
            Login::User(place) => Some(place),
            Login::Nobody | Login::Failed(_) => None,
        }
    }

    /// Those of the connections that are of that user are next, or those that are not.
    fn queue_those(&mut self, numbers: &[u64], user: Option<usize>, are_of_user: bool)
        ensures clock { self.new.clock ≡ self.old.clock }
        ensures seen { seen self.new.host self.new.sockets.items ≡ seen self.old.host self.old.sockets.items }
    {
        for number in numbers {
            self.queue_one(*number, user, are_of_user);
        }
    }

    /// The same for one connection.
    fn queue_one(&mut self, number: u64, user: Option<usize>, is_of_user: bool)
        ensures clock { self.new.clock ≡ self.old.clock }
        ensures seen { seen self.new.host self.new.sockets.items ≡ seen self.old.host self.old.sockets.items }
    {
        if (self.user_of(number) == user) == is_of_user {
            // there is room for each socket once
            let _ = self.ready.push(number);
        }
    }

    /// Closes the socket of a connection.
    #[tactic(auto, using(crate::proofs::Goes::goes_then, crate::proofs::Goes::goes_none, crate::proofs::Telling::telling_none))]
    pub(super) fn close(&mut self, alloc: Global, number: u64, turn: &mut Turn)
        ensures lanes { self.new.lanes ≡ self.old.lanes }
        ensures line { (self.new.ready ≡ self.old.ready) × (self.new.asked ≡ self.old.asked) }
        ensures commits { self.new.host.commits ≡ self.old.host.commits }
        ensures closed { IsClosed number (cores self.old.sockets.items) (cores self.new.sockets.items) }
        ensures clock { self.new.clock ≡ self.old.clock }
        ensures shares { self.new.shares ≡ released number self.old.shares }
        ensures strangers { self.new.strangers.deadlines.entries ≡ without_stranger number self.old.strangers.deadlines.entries }
        // An open one stands no more among those that keep silent.
        ensures forgotten { IfSome (socket_of number self.old.sockets.items) (λ s. s.is_ended ≡ false → IsForgotten number s
            (silent_of self.old.silences self.old.times self.old.delays) (silent_of self.new.silences self.new.times self.new.delays)) }
        ensures replies { self.new.replies ≡ let_go number self.old.replies }
        ensures inputs { self.new.inputs ≡ let_go number self.old.inputs }
        ensures tells { GoesTelling S.disk R.Stream.contents R.Stream.remaining (seen self.old.host self.old.sockets.items)
            (seen self.new.host self.new.sockets.items) }
        ensures goes { Goes S.disk R.Stream.contents R.Stream.remaining (seen self.old.host self.old.sockets.items)
            (seen self.new.host self.new.sockets.items) }
    {
        let place = self.place_of(number);
        self.strangers.forget(number);
        self.shares.release(number);
        self.replies.release(number);
        self.inputs.release(number);
        let Some(place) = place else {
            return;
        };
        let Some(socket) = self.sockets.get_mut(place) else {
            return;
        };
        if socket.is_ended() {
            return;
        }
        self.silences.end(socket.holder, number, socket.moved);
        self.times.forget(number, socket.begun, socket.looked);
        self.delays.forget(number, socket.held);
        socket.close(alloc, &mut self.host, turn);
    }

    /// Where a turn closed some, the sockets whose connections are closed are kept no longer.
    #[tactic(auto, using(crate::proofs::Goes::goes_then, crate::proofs::Goes::goes_none))]
    fn drop_ended(&mut self, turn: &Turn)
        ensures commits { self.new.host.commits ≡ self.old.host.commits }
        ensures dropped { cores self.new.sockets.items ≡ (if nat_lt 0 turn.now.closed then open_ones (cores self.old.sockets.items)
            else cores self.old.sockets.items) }
        ensures goes { Goes S.disk R.Stream.contents R.Stream.remaining (seen self.old.host self.old.sockets.items)
            (seen self.new.host self.new.sockets.items) }
    {
        if turn.closed > 0 {
            self.sockets.retain(|socket| !socket.is_ended());
        }
    }

    /// Makes room for one more socket where as many are open as may be, or as many that have not logged in: the oldest of those is closed.
    /// Where there is none, there is no room.
    #[tactic(auto, using(crate::proofs::Goes::goes_then, crate::proofs::Goes::goes_none))]
    pub(super) fn make_room(&mut self, alloc: Global, turn: &mut Turn) -> bool
        ensures sockets { OnTrue result (vec_len self.new.sockets < self.new.limit) }
        ensures strangers { OnTrue result (count_of self.new.shares.tenants self.new.shares.sockets < self.new.stranger_limit) }
        ensures room { result ≡ (nat_lt (vec_len self.new.sockets) self.new.limit
            && nat_lt (count_of self.new.shares.tenants self.new.shares.sockets) self.new.stranger_limit) }
        // Where there was room all stays. Else the stranger that came first is there no longer.
        ensures made { IsRoomMade (nat_lt (vec_len self.old.sockets) self.old.limit
            && nat_lt (count_of self.old.shares.tenants self.old.shares.sockets) self.old.stranger_limit)
            (oldest self.old.strangers.deadlines.entries) (cores self.old.sockets.items) (cores self.new.sockets.items) }
        // No connection opens.
        ensures tried { self.new.host.tried ≡ self.old.host.tried }
        ensures goes { Goes S.disk R.Stream.contents R.Stream.remaining (seen self.old.host self.old.sockets.items)
            (seen self.new.host self.new.sockets.items) }
    {
        if self.has_room() {
            return true;
        }
        let Some(number) = self.strangers.oldest() else {
            return false;
        };
        self.close(alloc, number, turn);
        turn.count_stranger();
        self.remove(number);
        self.has_room()
    }

    /// The socket of a connection is kept no longer, where its connection is closed.
    #[tactic(auto, using(crate::proofs::Goes::goes_then, crate::proofs::Goes::goes_none))]
    fn remove(&mut self, number: u64)
        ensures host { self.new.host ≡ self.old.host }
        ensures left { LeavesIfClosed number self.old.sockets.items self.new.sockets.items }
        ensures goes { Goes S.disk R.Stream.contents R.Stream.remaining (seen self.old.host self.old.sockets.items)
            (seen self.new.host self.new.sockets.items) }
    {
        let Some(place) = self.place_of(number) else {
            return;
        };
        let Some(socket) = self.sockets.get(place) else {
            return;
        };
        if socket.is_ended() {
            self.sockets.remove(place);
        }
    }

    /// Whether one more socket may be open that has not logged in.
    fn has_room(&self) -> bool
        ensures room { result ≡ (nat_lt (vec_len self.now.sockets) self.now.limit
            && nat_lt (count_of self.now.shares.tenants self.now.shares.sockets) self.now.stranger_limit) }
        ensures sockets { OnTrue result (vec_len self.now.sockets < self.now.limit) }
        ensures strangers { OnTrue result (count_of self.now.shares.tenants self.now.shares.sockets < self.now.stranger_limit) }
    {
        self.sockets.len() < self.limit && self.shares.strangers() < self.stranger_limit
    }
}

/// Notes since when a socket of a holder took nothing of its reply, which had so much to take before and may have taken some since. An
/// `Err` is want of memory: it cannot be known when it has been silent for too long, and it is closed.
pub(super) fn note_reply<T: Read + Write + Drop>(
    silences: &mut Silences,
    socket: &mut Socket<T>,
    holder: usize,
    before: usize,
    has_taken: bool,
    now: u64,
) -> Result<(), AllocError>
    ensures moved { socket.new.moved ≡ (if has_moved before (vec_len socket.old.output - socket.old.written) has_taken then now
        else socket.old.moved) }
    ensures unread { OnOk result (silences.new.unread.moments.keys ≡ silences_noted
        (has_moved before (vec_len socket.old.output - socket.old.written) has_taken) socket.old.connection
        (silent_since before socket.old.moved) (silent_since (vec_len socket.old.output - socket.old.written) now)
        silences.old.unread.moments.keys) }
    ensures rest { socket.new ≡ record socket.old { moved = socket.new.moved; holder = socket.new.holder } }
{
    let after = socket.unwritten();
    if !has_moved(before, after, has_taken) {
        return Ok(());
    }
    let connection = socket.connection();
    if before > 0 {
        silences.end(socket.holder, connection, socket.moved);
    }
    socket.moved = now;
    socket.holder = holder;
    if after > 0 {
        silences.begin(holder, connection, now)?;
    }
    Ok(())
}
